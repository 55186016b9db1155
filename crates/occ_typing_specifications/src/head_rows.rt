//! Worked rows: heads of procedures and functions, and formals.
ghost use Rattle.std.specs.Prelude.{[], ◌∷◌, ◌≡◌, None, Some, false, true};
ghost use Rattle.occ_typing_specifications.specs.Formals.{entries, called_formals};
ghost use Rattle.occ_typing_specifications.specs.Heads.{function_heading, procedure};
ghost use Rattle.occ_typing_specifications.specs.declared.heading.Expected.TheVariants as expected;
ghost use Rattle.occ_scope.specs.declared.meaning.Access.TheVariants as access;
ghost use Rattle.occ_scope.specs.declared.meaning.Meaning.TheVariants as m;
ghost use Rattle.occ_scope.specs.declared.scope.Scope.{Scope};
ghost use Rattle.occ_typing_operands.specs.Settling.{int};
ghost use Rattle.occ_types.specs.declared.interface.Passing.TheVariants as passing;

/// `PROC p ()`: it reports nothing, and its name stands for a procedure without formals.
#[tactic(auto, unfolding(crate::specs::Heads::procedure))]
pub fn procedure_rows()
    ensures { (s : Scope) → procedure s [] ≡ record { faults = []; heading = record { formals = []; meaning = m.Procedure []; results = expected.Types [] } } }
{}

/// The formal `VAL INT x`, where `x` is 120, in the body and to a call; in the body of a head with a fault it is faulty.
pub fn formal_rows()
    ensures known { entries true ((record { name = 120 ∷ []; of = Some int; passing = passing.Value }) ∷ []) ≡ (record { name = 120 ∷ []; meaning = m.Element (record { of = int; access = access.Formal; value = None; root = 120 ∷ [] }) }) ∷ [] }
    ensures called { called_formals ((record { name = 120 ∷ []; of = Some int; passing = passing.Value }) ∷ []) ≡ (record { of = int; passing = passing.Value }) ∷ [] }
    ensures faulty { entries false ((record { name = 120 ∷ []; of = Some int; passing = passing.Value }) ∷ []) ≡ (record { name = 120 ∷ []; meaning = m.Faulty }) ∷ [] }
{}

/// A FUNCTION with one result of type INT and no formals, and the same with a fault in its head: no type is compared with
/// its result.
pub fn function_rows()
    ensures known { function_heading true [] (Some int ∷ []) ≡ record { formals = []; meaning = m.Function [] (int ∷ []); results = expected.Types (int ∷ []) } }
    ensures faulty { function_heading false [] (Some int ∷ []) ≡ record { formals = []; meaning = m.Faulty; results = expected.Count 1 } }
{}
