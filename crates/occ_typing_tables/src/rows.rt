//! Worked rows: segments, sizes, decorated tables, tables beside others, merged types.
ghost use Rattle.std.specs.Prelude.{[], ◌∷◌, ◌≡◌, None, Some, false, negsuc, pos, true};
ghost use Rattle.occ_base.specs.declared.code.Code.TheVariants as code;
ghost use Rattle.occ_typing_operands.specs.Outcomes.{decimal};
ghost use Rattle.occ_typing_operands.specs.Settling.{fault_of, int, known, silent};
ghost use Rattle.occ_typing_operands.specs.declared.kind.Kind.TheVariants as k;
ghost use Rattle.occ_base.specs.Reporting.{nameless};
ghost use Rattle.occ_typing_operands.specs.Parts.{mismatched};
ghost use Rattle.occ_typing_tables.specs.Decorating.{decorated_table};
ghost use Rattle.occ_typing_tables.specs.Dimensions.{size_of_kind};
ghost use Rattle.occ_typing_tables.specs.Measuring.{most, sized};
ghost use Rattle.occ_typing_tables.specs.Merging.{merged};
ghost use Rattle.occ_typing_tables.specs.Segments.{taken};
ghost use Rattle.occ_typing_tables.specs.Terms.{all_settled, term_step};
ghost use Rattle.occ_typing_tables.specs.declared.term.Term.TheOpen.{Term-F};
ghost use Rattle.occ_typing_tables.specs.declared.measure.Limit.TheVariants as limit;
ghost use Rattle.occ_types.specs.declared.types.OccType.TheVariants as t;
ghost use Rattle.occ_types.specs.declared.types.Packing.TheVariants as packing;
ghost use Rattle.occ_types.specs.declared.value.Primitive.TheVariants as p;
ghost use Rattle.occ_types.specs.declared.value.Value.TheVariants as v;

/// Segments of an array of four: `FROM 4 FOR 0` and `FOR n` lie in it, `FOR 5` does not.
pub fn segment_rows()
    ensures empty { taken (Some 4) (t.Primitive p.Int) (Some (pos 4)) (Some (pos 0)) ≡ record { faults = []; kind = known (t.Array (Some 0) (t.Primitive p.Int)) None } }
    ensures varying { taken (Some 4) (t.Primitive p.Int) (Some (pos 0)) None ≡ record { faults = []; kind = known (t.Array None (t.Primitive p.Int)) None } }
    ensures following { taken (Some 4) (t.Primitive p.Int) (Some (pos 0)) (Some (pos 5)) ≡ fault_of code.T6 }
{}

/// Sizes in a dimension: 4, -1, and an INT that is not constant.
pub fn size_rows()
    ensures size { size_of_kind (known int (Some (v.Int (pos 4)))) ≡ record { faults = []; count = Some 4 } }
    ensures negative { size_of_kind (known int (Some (v.Int (negsuc 0)))) ≡ record { faults = nameless code.T6 ∷ []; count = None } }
    ensures varying { size_of_kind (known int None) ≡ record { faults = nameless code.T5 ∷ []; count = None } }
{}

/// SIZE of an array of four, of one of which no size is known, and of an INT; the greatest BYTE, and of BOOL none.
#[tactic(auto, using(occ_types::proofs::Agreeing::fit_rules))]
pub fn measure_rows()
    ensures sized { sized (known (t.Array (Some 4) int) None) ≡ record { faults = []; kind = known int (Some (v.Int (pos 4))) } }
    ensures varying { sized (known (t.Array None int) None) ≡ record { faults = []; kind = known int None } }
    ensures no_array { sized (known int None) ≡ fault_of code.T1 }
    ensures greatest { most limit.Greatest (t.Primitive p.Byte) ≡ record { faults = []; kind = known (t.Primitive p.Byte) (Some (v.Byte 255)) } }
    ensures no_number { most limit.Greatest (t.Primitive p.Bool) ≡ fault_of code.T1 }
{}

/// A table without items of a record of one field: T4; but one of 5000000000, a value that is faulty alone, of a record
/// without fields: T6. Of INT no table is.
#[tactic(auto, using(occ_types::proofs::Agreeing::fit_rules))]
pub fn decorated_rows()
    ensures number { decorated_table (t.Record packing.Plain ((record { name = 120 ∷ []; of = int }) ∷ [])) [] ≡ fault_of code.T4 }
    ensures faulty { decorated_table (t.Record packing.Plain []) (term_step (Term-F.Single (k.Untyped (decimal (pos 5000000000)))) ∷ []) ≡ fault_of code.T6 }
    ensures misused { mismatched (known (t.Array (Some 4) int) None) ≡ fault_of code.T2 }
    ensures silent { decorated_table int (term_step (Term-F.Single k.Faulty) ∷ []) ≡ silent }
{}

/// A table of an INT, where BYTEs are wanted: T2, but nothing in it is faulty, as in a table of a faulty item. Beside such
/// an item 5000000000 is right where an INT64 is wanted from outside, and T6 where another item is one.
#[tactic(auto, using(occ_types::proofs::Agreeing::fit_rules))]
pub fn beside_rows()
    ensures reported { (all_settled true (t.Primitive p.Byte) (term_step (Term-F.Single (known int None)) ∷ [])).faults ≡ nameless code.T2 ∷ [] }
    ensures whole { (all_settled true (t.Primitive p.Byte) (term_step (Term-F.Single (known int None)) ∷ [])).is_faulty ≡ false }
    ensures faulty { (all_settled true (t.Primitive p.Byte) (term_step (Term-F.Single k.Faulty) ∷ [])).is_faulty ≡ true }
    ensures wanted { (all_settled true (t.Primitive p.Int64) (term_step (Term-F.Single k.Faulty) ∷ term_step (Term-F.Single (k.Untyped (decimal (pos 5000000000)))) ∷ [])).faults ≡ [] }
    ensures decided { (all_settled false (t.Primitive p.Int64) (term_step (Term-F.Single k.Faulty) ∷ term_step (Term-F.Single (k.Untyped (decimal (pos 5000000000)))) ∷ [])).faults ≡ nameless code.T6 ∷ [] }
{}

/// The one type of an array of four and one of which no size is known; an array of five is another.
#[tactic(auto, using(occ_types::proofs::Agreeing::fit_rules, crate::proofs::Filling::filling_rules))]
pub fn merged_rows()
    ensures filled { merged (t.Array None int) (t.Array (Some 4) int) ≡ Some (t.Array (Some 4) int) }
    ensures apart { merged (t.Array (Some 5) int) (t.Array (Some 4) int) ≡ None }
{}
