//! Worked rows: names in scope, hidden, faulty, and of another sort.
ghost use Rattle.std.specs.Prelude.{[], ◌∷◌, ◌≡◌, None, Some};
ghost use Rattle.occ_base.specs.declared.code.Code.TheVariants as code;
ghost use Rattle.occ_scope.specs.Lookup.{carries, data_type, element, good};
ghost use Rattle.occ_scope.specs.Visible.{back_to, entered, nothing, referent, visible};
ghost use Rattle.occ_scope.specs.declared.lookup.Carried.TheVariants as carried;
ghost use Rattle.occ_scope.specs.declared.meaning.Meaning.TheVariants as m;
ghost use Rattle.occ_types.specs.declared.types.OccType.TheVariants as t;
ghost use Rattle.occ_types.specs.declared.value.Primitive.TheVariants as p;

/// A data type `a`, which is 97, a procedure `b`, which is 98, and in an inner item an `a` whose line has a fault.
pub fn visible_rows()
    ensures nowhere { visible nothing (97 ∷ []) ≡ None }
    ensures inner { visible (entered (entered (entered nothing (97 ∷ []) (m.Type (Some (t.Primitive p.Int)))) (98 ∷ []) (m.Procedure [])) (97 ∷ []) m.Faulty) (97 ∷ []) ≡ Some m.Faulty }
    ensures outer { visible (entered (entered (entered nothing (97 ∷ []) (m.Type (Some (t.Primitive p.Int)))) (98 ∷ []) (m.Procedure [])) (97 ∷ []) m.Faulty) (98 ∷ []) ≡ Some (m.Procedure []) }
    ensures following { visible (back_to 2 (entered (entered (entered nothing (97 ∷ []) (m.Type (Some (t.Primitive p.Int)))) (98 ∷ []) (m.Procedure [])) (97 ∷ []) m.Faulty)) (97 ∷ []) ≡ Some (m.Type (Some (t.Primitive p.Int))) }
    ensures number { referent (entered (entered nothing (97 ∷ []) (m.Type (Some (t.Primitive p.Int)))) (98 ∷ []) (m.Procedure [])) (98 ∷ []) ≡ Some (record { spec = 1; meaning = m.Procedure [] }) }
{}

/// The name `a` where it is not in scope, where its own line has a fault, where it is of another sort, and where it is
/// what the place needs.
pub fn lookup_rows()
    ensures absent { element (97 ∷ []) None ≡ record { faults = (record { code = code.N1; name = Some (97 ∷ []) }) ∷ []; found = None } }
    ensures faulty { data_type (97 ∷ []) (Some m.Faulty) ≡ record { faults = []; found = None } }
    ensures faulty_type { element (97 ∷ []) (Some (m.Type None)) ≡ record { faults = []; found = None } }
    ensures other { element (97 ∷ []) (Some (m.Type (Some (t.Primitive p.Int)))) ≡ record { faults = (record { code = code.N2; name = Some (97 ∷ []) }) ∷ []; found = None } }
    ensures needed { data_type (97 ∷ []) (Some (m.Type (Some (t.Primitive p.Int)))) ≡ good (t.Primitive p.Int) }
    ensures carried { carries (97 ∷ []) (Some (m.Type (Some (t.Primitive p.Int)))) ≡ good (carried.Values (t.Primitive p.Int)) }
    ensures not_carried { carries (97 ∷ []) (Some (m.Procedure [])) ≡ record { faults = (record { code = code.N2; name = Some (97 ∷ []) }) ∷ []; found = None } }
{}
