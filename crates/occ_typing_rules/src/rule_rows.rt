//! Worked rows: assignments, values of no data, options, results, repeated names.
ghost use Rattle.std.specs.Prelude.{[], ◌∷◌, ◌≡◌, None, Some, false, pos};
ghost use Rattle.occ_base.specs.declared.code.Code.TheVariants as code;
ghost use Rattle.occ_scope.specs.declared.meaning.Access.TheVariants as access;
ghost use Rattle.occ_typing_operands.specs.declared.kind.Kind.TheVariants as k;
ghost use Rattle.occ_typing_operands.specs.Settling.{fault_of, int, known, silent};
ghost use Rattle.occ_base.specs.Reporting.{nameless};
ghost use Rattle.occ_typing_operands.specs.Parts.{mismatched};
ghost use Rattle.occ_typing_rules.specs.Assigning.{assigned, pair, target};
ghost use Rattle.occ_typing_rules.specs.Choosing.{option_of};
ghost use Rattle.occ_typing_rules.specs.Numbering.{of_another_number};
ghost use Rattle.occ_typing_rules.specs.Listing.{repetitions};
ghost use Rattle.occ_typing_rules.specs.Resulting.{results};
ghost use Rattle.occ_typing_tables.specs.Terms.{Judged};
ghost use Rattle.occ_types.specs.declared.types.OccType.TheVariants as t;
ghost use Rattle.occ_types.specs.declared.value.Primitive.TheVariants as p;
ghost use Rattle.occ_types.specs.declared.value.Value.TheVariants as v;

/// Targets of the names `v`, which is a VAL name, and `n`, which is a variable. A faulty
/// target hides what is wanted of its value, and numbers that differ are not reported beside one.
pub fn assignment_rows()
    ensures value { target (record { of = int; access = access.Value; value = None; root = 118 ∷ [] }) (known int None) ≡ record { faults = (record { code = code.T3; name = Some (118 ∷ []) }) ∷ []; kind = k.Faulty } }
    ensures variable { target (record { of = int; access = access.Variable; value = None; root = 110 ∷ [] }) (known int None) ≡ record { faults = []; kind = known int None } }
    ensures faulty { target (record { of = int; access = access.Value; value = None; root = 118 ∷ [] }) k.Faulty ≡ silent }
    ensures pair { (x : Judged) → pair k.Faulty x ≡ x.hidden.faults }
    ensures fewer { of_another_number false (record { faults = []; kind = known int None } ∷ []) ≡ nameless code.T4 ∷ [] }
    ensures fewer_faulty { assigned (k.Faulty ∷ []) [] ≡ [] }
{}

/// A value for what is no data: one with a fault, and one without.
pub fn misplaced_rows()
    ensures faulty { mismatched k.Faulty ≡ silent }
    ensures good { mismatched (known int None) ≡ fault_of code.T2 }
{}

/// Options after one of 65: another one, the same one, and one that is not constant.
pub fn option_rows()
    ensures other { option_of (record { keys = pos 65 ∷ [] }) (Some (v.Byte 66)) ≡ record { faults = []; numbers = record { keys = pos 65 ∷ pos 66 ∷ [] } } }
    ensures same { option_of (record { keys = pos 65 ∷ [] }) (Some (v.Byte 65)) ≡ record { faults = nameless code.T8 ∷ []; numbers = record { keys = pos 65 ∷ [] } } }
    ensures varying { option_of (record { keys = pos 65 ∷ [] }) None ≡ record { faults = nameless code.T5 ∷ []; numbers = record { keys = pos 65 ∷ [] } } }
{}

/// No result, where one is to be, and where none is.
pub fn result_rows()
    ensures one { results (t.Primitive p.Bool ∷ []) [] ≡ nameless code.T4 ∷ [] }
    ensures none { results [] [] ≡ [] }
{}

/// The names `x, y, x, x` in one list: T8 twice, for the second and the third `x`.
pub fn repetition_rows()
    ensures { repetitions [] ((120 ∷ []) ∷ (121 ∷ []) ∷ (120 ∷ []) ∷ (120 ∷ []) ∷ []) ≡ (record { code = code.T8; name = Some (120 ∷ []) }) ∷ (record { code = code.T8; name = Some (120 ∷ []) }) ∷ [] }
{}
