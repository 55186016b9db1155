//! Worked rows: declarations and fields, with and without a fault.
ghost use Rattle.std.specs.Prelude.{[], ◌∷◌, ◌≡◌, None, Some};
ghost use Rattle.occ_typing_specifications.specs.Declaring.{variables};
ghost use Rattle.occ_typing_specifications.specs.Entering.{unless_reported};
ghost use Rattle.occ_typing_specifications.specs.Fields.{each_of, field_type};
ghost use Rattle.occ_typing_specifications.specs.Valuing.{value_as};
ghost use Rattle.occ_base.specs.declared.code.Code.TheVariants as code;
ghost use Rattle.occ_scope.specs.declared.meaning.Access.TheVariants as access;
ghost use Rattle.occ_scope.specs.declared.meaning.Meaning.TheVariants as m;
ghost use Rattle.occ_typing_operands.specs.Settling.{int};
ghost use Rattle.occ_typing_tables.specs.Terms.{Judged};
ghost use Rattle.occ_base.specs.Reporting.{nameless};
ghost use Rattle.occ_types.specs.declared.types.OccType.TheVariants as t;

/// `INT x, y:`, where `x` is 120 and `y` is 121, of a line without a fault, and of one that reported T5: there both are
/// faulty.
pub fn declaration_rows()
    ensures known { variables (unless_reported [] (Some int)) ((120 ∷ []) ∷ []) ≡ (record { name = 120 ∷ []; meaning = m.Element (record { of = int; access = access.Variable; value = None; root = 120 ∷ [] }) }) ∷ [] }
    ensures faulty { variables (unless_reported (nameless code.T5 ∷ []) (Some int)) ((120 ∷ []) ∷ (121 ∷ []) ∷ []) ≡ (record { name = 120 ∷ []; meaning = m.Faulty }) ∷ (record { name = 121 ∷ []; meaning = m.Faulty }) ∷ [] }
{}

/// The field `x` of a line without a fault, and of one with a fault: it is there, and nothing is known of it.
pub fn field_rows()
    ensures known { each_of (field_type (unless_reported [] (Some int))) ((120 ∷ []) ∷ []) ≡ (record { name = 120 ∷ []; of = int }) ∷ [] }
    ensures faulty { each_of (field_type (unless_reported (nameless code.T5 ∷ []) (Some int))) ((120 ∷ []) ∷ []) ≡ (record { name = 120 ∷ []; of = t.Unknown }) ∷ [] }
{}

/// Beside a type that is not known the value of `VAL t n IS e` is said what it has by itself.
#[tactic(auto, unfolding(crate::specs::Valuing::value_as))]
pub fn value_rows()
    ensures { (x : Judged) → (value_as None x).faults ≡ x.hidden.faults }
{}
