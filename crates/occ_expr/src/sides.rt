//! Whole right sides: several expressions, or one call of a function with several results.
#![tactic(auto, using(occ_expr_operations::proofs::Views::expr_rules))]

ghost use Rattle.std.specs.Prelude.{◌≡◌, ◌∷◌, ◌++◌, IfOk, OnOk, Some};
ghost use Rattle.occ_scope.specs.Visible.{visible};
ghost use Rattle.occ_scope.specs.declared.meaning.Meaning.TheVariants as m;
ghost use Rattle.occ_expr_operations.specs.Sides.{each_one as spec_each_one, results_side as spec_results_side, side as spec_side};

use super::walk::{actuals, expression, more_items};
use occ_base::{Fault, Items, Name, Shared};
use occ_expr_operations::{Readings, all_results, faulty_reading, one_call};
use occ_forms_expressions::Expr;
use occ_scope::{Meaning, Scope};
use occ_types::{Formal, OccType};
use std::alloc::{AllocError, Global};

/// What is read of a call of a function that is a whole right side.
#[tactic(auto, using(crate::proofs::Passing::its_formals), unfolding(occ_expr_operations::specs::Sides::results_side))]
fn results_side(
    alloc: Global,
    name: &Name,
    exprs: &[Expr],
    formals: &[Formal],
    results: &[Shared<OccType>],
    scope: &Scope,
    faults: &mut Items<Fault>,
) -> Result<Readings, AllocError>
    requires { visible scope.now name.now ≡ Some (m.Function formals.now results.now) }
    ensures terms { IfOk result (λ all. all.terms ≡ (spec_results_side scope.now name.now exprs.now formals.now results.now).terms) }
    ensures open_exprs { IfOk result (λ all. all.open_exprs ≡ (spec_results_side scope.now name.now exprs.now formals.now results.now).open_exprs) }
    ensures faults { OnOk result (faults.new ≡ faults.old ++ (spec_results_side scope.now name.now exprs.now formals.now results.now).faults) }
{
    let (is_faulty, open_exprs) = actuals(alloc, name, exprs, formals, scope, faults)?;
    if is_faulty {
        return Readings::one(alloc, faulty_reading());
    }
    all_results(alloc, scope, name, results, formals, open_exprs.as_slice())
}

/// What is read of each expression of a list.
pub fn each_one(
    alloc: Global,
    exprs: &[Expr],
    scope: &Scope,
    faults: &mut Items<Fault>,
) -> Result<Readings, AllocError>
    ensures terms { IfOk result (λ all. all.terms ≡ (spec_each_one scope.now exprs.now).terms) }
    ensures open_exprs { IfOk result (λ all. all.open_exprs ≡ (spec_each_one scope.now exprs.now).open_exprs) }
    ensures faults { OnOk result (faults.new ≡ faults.old ++ (spec_each_one scope.now exprs.now).faults) }
{
    let mut all = Readings::new(alloc);
    more_items(alloc, exprs, scope, &mut all, faults)?;
    Ok(all)
}

/// What is read of the first expression of a list and of those after it.
fn first_and_more(
    alloc: Global,
    first: &Expr,
    more: &[Expr],
    scope: &Scope,
    faults: &mut Items<Fault>,
) -> Result<Readings, AllocError>
    ensures terms { IfOk result (λ all. all.terms ≡ (spec_each_one scope.now (first.now ∷ more.now)).terms) }
    ensures open_exprs { IfOk result (λ all. all.open_exprs ≡ (spec_each_one scope.now (first.now ∷ more.now)).open_exprs) }
    ensures faults { OnOk result (faults.new ≡ faults.old ++ (spec_each_one scope.now (first.now ∷ more.now)).faults) }
{
    let first = expression(alloc, first, scope, faults)?;
    let mut all = Readings::one(alloc, first)?;
    more_items(alloc, more, scope, &mut all, faults)?;
    Ok(all)
}

/// What is read of a whole right side: of an assignment, or of what gives a FUNCTION its results. One call of a function
/// counts there as all of its results.
#[tactic(auto, unfolding(occ_expr_operations::specs::Sides::side))]
pub fn side(
    alloc: Global,
    first: &Expr,
    more: &[Expr],
    scope: &Scope,
    faults: &mut Items<Fault>,
) -> Result<Readings, AllocError>
    ensures terms { IfOk result (λ all. all.terms ≡ (spec_side scope.now (first.now ∷ more.now)).terms) }
    ensures open_exprs { IfOk result (λ all. all.open_exprs ≡ (spec_side scope.now (first.now ∷ more.now)).open_exprs) }
    ensures faults { OnOk result (faults.new ≡ faults.old ++ (spec_side scope.now (first.now ∷ more.now)).faults) }
{
    let Some((name, exprs)) = one_call(first, more) else {
        return first_and_more(alloc, first, more, scope, faults);
    };
    match scope.find(name) {
        Some(Meaning::Function(formals, results)) => results_side(
            alloc,
            name,
            exprs,
            formals.get().as_slice(),
            results.as_slice(),
            scope,
            faults,
        ),
        _ => first_and_more(alloc, first, more, scope, faults),
    }
}
