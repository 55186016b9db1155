//! Worked rows: values, parts, reads, calls, timers.
ghost use Rattle.std.specs.Prelude.{◌≡◌, ◌∷◌, [], None, Some, pos, true, false};
ghost use Rattle.occ_usage_values.specs.Examples.{element, literal, part_use, scope, varying};
ghost use Rattle.occ_usage_values.specs.Timers.{is_timer};
ghost use Rattle.occ_usage_values.specs.Views.{actual_views, call_uses, element_view, expr_view};
ghost use Rattle.occ_typing_operands.specs.Settling.{int};
ghost use Rattle.occ_usage_parts.specs.Selecting.{whole, with_segment, with_subscript};
ghost use Rattle.occ_project.specs.declared.expanded.Location.{Location};
ghost use Rattle.occ_typing_rules.specs.declared.expr.Selector.TheVariants as s;
ghost use Rattle.occ_typing_rules.specs.declared.expr.TypedActual.TheVariants as actual;
ghost use Rattle.occ_typing_rules.specs.declared.expr.TypedExpr.TheVariants as e;
ghost use Rattle.occ_types.specs.declared.constant.Operator.TheVariants as op;
ghost use Rattle.occ_types.specs.declared.interface.UseKind.TheVariants as kind;
ghost use Rattle.occ_types.specs.declared.types.OccType.TheVariants as t;
ghost use Rattle.occ_types.specs.declared.value.Value.TheVariants as v;

/// `i`, `i + 1`, `k`, and `SIZE [a FROM k FOR i]`, where `i` is 3 and `k` is VAL.
#[tactic(auto, using(crate::proofs::Views::expr_value_rules, crate::proofs::Views::expr_size_rules, crate::proofs::Views::element_value_rules, crate::proofs::Views::element_size_rules, crate::proofs::Views::selector_size_rules))]
pub fn value_rows()
    ensures index { (line : Location) → (expr_view (e.Element (element 1 []))).value (scope line) ≡ Some (v.Int (pos 3)) }
    ensures sum { (line : Location) → (expr_view (e.Operation varying op.Add (e.Element (element 1 []) ∷ literal 1 ∷ []))).value (scope line) ≡ Some (v.Int (pos 4)) }
    ensures formal { (line : Location) → (expr_view (e.Element (element 2 []))).value (scope line) ≡ None }
    ensures size { (line : Location) → (expr_view (e.Size varying (e.Element (element 0 (s.FromFor None (e.Element (element 2 [])) (e.Element (element 1 [])) ∷ []))))).value (scope line) ≡ Some (v.Int (pos 3)) }
{}

/// `a[i]`, `a[k]`, `[a FROM i FOR 2]`, and `t`, a timer.
#[tactic(auto, using(crate::proofs::Views::expr_value_rules, crate::proofs::Views::element_value_rules, crate::proofs::Views::element_place_rules, crate::proofs::Views::selector_place_rules))]
pub fn place_rows()
    ensures index { (line : Location) → (element_view (element 0 (s.Component (e.Element (element 1 [])) ∷ []))).place (scope line) ≡ Some (with_subscript (whole 0) (Some (pos 3))) }
    ensures formal { (line : Location) → (element_view (element 0 (s.Component (e.Element (element 2 [])) ∷ []))).place (scope line) ≡ Some (with_subscript (whole 0) None) }
    ensures segment { (line : Location) → (element_view (element 0 (s.FromFor None (e.Element (element 1 [])) (literal 2) ∷ []))).place (scope line) ≡ Some (with_segment (whole 0) (Some (pos 3)) (Some (pos 2))) }
    ensures timer { (line : Location) → (element_view (element 3 [])).place (scope line) ≡ None }
{}

/// `a[i]`; `SIZE a[i]`; and `t[a[i]]`, were `t` an array of timers.
#[tactic(auto, using(crate::proofs::Views::expr_value_rules, crate::proofs::Views::element_value_rules, crate::proofs::Views::element_place_rules, crate::proofs::Views::selector_place_rules, crate::proofs::Views::expr_uses_rules, crate::proofs::Views::element_uses_rules, crate::proofs::Views::selector_uses_rules))]
pub fn read_rows()
    ensures component { (line : Location) → (expr_view (e.Element (element 0 (s.Component (e.Element (element 1 [])) ∷ [])))).uses (scope line) line ≡ part_use kind.Read 3 line ∷ [] }
    ensures size { (line : Location) → (expr_view (e.Size varying (e.Element (element 0 (s.Component (e.Element (element 1 [])) ∷ []))))).uses (scope line) line ≡ [] }
    ensures timer { (line : Location) → (expr_view (e.Element (element 3 (s.Component (e.Element (element 0 (s.Component (e.Element (element 1 [])) ∷ []))) ∷ [])))).uses (scope line) line ≡ part_use kind.Read 3 line ∷ [] }
{}

/// `p (a)` and `p ([a FROM 2 FOR 3])`, of which each body writes `x[1]`.
#[tactic(auto, using(crate::proofs::Views::expr_value_rules, crate::proofs::Views::element_place_rules, crate::proofs::Views::selector_place_rules, crate::proofs::Views::element_uses_rules, crate::proofs::Views::selector_uses_rules, crate::proofs::Views::expr_uses_rules, crate::proofs::Views::actual_place_rules, crate::proofs::Views::actual_uses_rules))]
pub fn call_rows()
    ensures array { (line : Location) → call_uses 4 (actual_views (actual.Variable (element 0 []) ∷ [])) (scope line) line ≡ part_use kind.Write 1 line ∷ [] }
    ensures segment { (line : Location) → call_uses 4 (actual_views (actual.Variable (element 0 (s.FromFor None (literal 2) (literal 3) ∷ [])) ∷ [])) (scope line) line ≡ part_use kind.Write 3 line ∷ [] }
{}

/// A timer, an array of timers, and an INT.
#[tactic(auto, using(crate::proofs::Timers::timer_rules))]
pub fn timer_rows()
    ensures timer { is_timer t.Timer ≡ true }
    ensures array { is_timer (t.Array (Some 2) t.Timer) ≡ true }
    ensures number { is_timer int ≡ false }
{}
