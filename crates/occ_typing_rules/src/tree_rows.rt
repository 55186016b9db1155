//! Worked rows: a literal and a table under several types.
ghost use Rattle.std.specs.Prelude.{[], ◌∷◌, ◌≡◌, None, Some, pos};
ghost use Rattle.occ_typing_operands.specs.Outcomes.{decimal};
ghost use Rattle.occ_typing_operands.specs.Settling.{int};
ghost use Rattle.occ_typing_rules.specs.Placing.{placed};
ghost use Rattle.occ_typing_rules.specs.declared.open_expr.OpenExpr.TheVariants as d;
ghost use Rattle.occ_typing_rules.specs.declared.expr.TypedExpr.TheVariants as typed;
ghost use Rattle.occ_types.specs.declared.types.OccType.TheVariants as t;
ghost use Rattle.occ_types.specs.declared.value.Primitive.TheVariants as p;
ghost use Rattle.occ_types.specs.declared.value.Value.TheVariants as v;

/// `7` where a BYTE is wanted, where an INT is, and as an item of a table of which an array of BYTE is wanted; what has a
/// fault has no tree anywhere.
#[tactic(auto, using(crate::proofs::OpenPlacing::placing_rules, occ_types::proofs::Agreeing::fit_rules))]
pub fn placed_rows()
    ensures byte { placed (d.Literal (decimal (pos 7))) (t.Primitive p.Byte) ≡ Some (typed.Literal (record { of = t.Primitive p.Byte; value = Some (v.Byte 7) })) }
    ensures int { placed (d.Literal (decimal (pos 7))) int ≡ Some (typed.Literal (record { of = int; value = Some (v.Int (pos 7)) })) }
    ensures table { placed (d.Table (d.Literal (decimal (pos 7)) ∷ [])) (t.Array None (t.Primitive p.Byte)) ≡ Some (typed.Table (record { of = t.Array (Some 1) (t.Primitive p.Byte); value = None }) (typed.Literal (record { of = t.Primitive p.Byte; value = Some (v.Byte 7) }) ∷ [])) }
    ensures faulty { placed (d.Table (d.Faulty ∷ [])) (t.Array None (t.Primitive p.Byte)) ≡ None }
{}
