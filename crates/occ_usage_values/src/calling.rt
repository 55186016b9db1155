//! The calls that are evaluated in expressions, elements and instances, each with its actuals.
ghost use Rattle.std.specs.Prelude.{◌≡◌, ◌++◌, ◌∷◌, [], OnOk};
ghost use Rattle.occ_usage_values.specs.Views.{actual_view, actual_views, actuals_calls as spec_actuals_calls, call_calls as spec_call_calls, each_calls as spec_each_calls, element_view, expr_view, expr_views, selector_view, selector_views, selectors_calls as spec_selectors_calls};

use super::bound::Bound;
use super::evaluated::Call;
use occ_base::{Items, Shared};
use occ_project::Location;
use occ_typing_rules::{Selector, TypedActual, TypedElement, TypedExpr};
use std::alloc::{AllocError, Global};

/// The calls of an expression that is evaluated at a line.
#[tactic(auto, using(crate::proofs::Views::expr_calls_rules))]
#[cycle(calling)]
pub fn expression_calls<'a>(
    alloc: Global,
    expr: &'a TypedExpr,
    env: &'a [Bound],
    line: &'a Location,
    calls: &mut Items<Call<'a>>,
) -> Result<(), AllocError>
    ensures { OnOk result (calls.new ≡ calls.old ++ (expr_view expr.now).calls env.now line.now) }
{
    match expr {
        TypedExpr::Literal(_) => Ok(()),
        TypedExpr::Element(element) => element_calls(alloc, element, env, line, calls),
        TypedExpr::Operation(_, _, operands) => {
            each_calls(alloc, operands.as_slice(), env, line, calls)
        }
        TypedExpr::Applied(_, _, operand) => {
            expression_calls(alloc, operand.get(), env, line, calls)
        }
        TypedExpr::Size(_, _) => Ok(()),
        TypedExpr::Converted(_, operand) => {
            expression_calls(alloc, operand.get(), env, line, calls)
        }
        TypedExpr::Table(_, items) => each_calls(alloc, items.as_slice(), env, line, calls),
        TypedExpr::Call(_, callee, actuals) => instance_calls(
            alloc,
            callee.spec,
            actuals.as_slice(),
            env,
            line,
            calls,
        ),
    }
}

/// The calls of expressions.
#[cycle(calling)]
fn each_calls<'a>(
    alloc: Global,
    exprs: &'a [Shared<TypedExpr>],
    env: &'a [Bound],
    line: &'a Location,
    calls: &mut Items<Call<'a>>,
) -> Result<(), AllocError>
    ensures { OnOk result (calls.new ≡ calls.old ++ spec_each_calls (expr_views exprs.now) env.now line.now) }
{
    for expr in exprs {
        match expr.get() {
            TypedExpr::Literal(_) => {}
            TypedExpr::Element(element) => element_calls(alloc, element, env, line, calls)?,
            one => expression_calls(alloc, one, env, line, calls)?,
        }
    }
    Ok(())
}

/// The calls in the subscripts and bounds of an element.
#[tactic(auto, using(crate::proofs::Views::element_calls_rules))]
#[cycle(calling)]
pub fn element_calls<'a>(
    alloc: Global,
    element: &'a TypedElement,
    env: &'a [Bound],
    line: &'a Location,
    calls: &mut Items<Call<'a>>,
) -> Result<(), AllocError>
    ensures { OnOk result (calls.new ≡ calls.old ++ (element_view element.now).calls env.now line.now) }
{
    selectors_calls(alloc, element.selectors.as_slice(), env, line, calls)
}

/// The calls in the subscripts and bounds of selectors.
#[cycle(calling)]
fn selectors_calls<'a>(
    alloc: Global,
    selectors: &'a [Selector],
    env: &'a [Bound],
    line: &'a Location,
    calls: &mut Items<Call<'a>>,
) -> Result<(), AllocError>
    ensures { OnOk result (calls.new ≡ calls.old ++ spec_selectors_calls (selector_views selectors.now) env.now line.now) }
{
    for selector in selectors {
        selector_calls(alloc, selector, env, line, calls)?;
    }
    Ok(())
}

/// The calls in the subscript or the bounds of a selector.
#[tactic(auto, using(crate::proofs::Views::selector_calls_rules))]
#[cycle(calling)]
fn selector_calls<'a>(
    alloc: Global,
    selector: &'a Selector,
    env: &'a [Bound],
    line: &'a Location,
    calls: &mut Items<Call<'a>>,
) -> Result<(), AllocError>
    ensures { OnOk result (calls.new ≡ calls.old ++ (selector_view selector.now).calls env.now line.now) }
{
    match selector {
        Selector::Field(_, _) => Ok(()),
        Selector::Component(at) => expression_calls(alloc, at.get(), env, line, calls),
        Selector::From(_, base) => expression_calls(alloc, base.get(), env, line, calls),
        Selector::For(_, length) => expression_calls(alloc, length.get(), env, line, calls),
        Selector::FromFor(_, base, length) => {
            expression_calls(alloc, base.get(), env, line, calls)?;
            expression_calls(alloc, length.get(), env, line, calls)
        }
    }
}

/// The calls in an actual.
#[tactic(auto, using(crate::proofs::Views::actual_calls_rules))]
#[cycle(calling)]
fn actual_calls<'a>(
    alloc: Global,
    actual: &'a TypedActual,
    env: &'a [Bound],
    line: &'a Location,
    calls: &mut Items<Call<'a>>,
) -> Result<(), AllocError>
    ensures { OnOk result (calls.new ≡ calls.old ++ (actual_view actual.now).calls env.now line.now) }
{
    match actual {
        TypedActual::Value(expr) => expression_calls(alloc, expr.get(), env, line, calls),
        TypedActual::Variable(element) => element_calls(alloc, element.get(), env, line, calls),
    }
}

/// The calls in actuals.
#[cycle(calling)]
fn actuals_calls<'a>(
    alloc: Global,
    actuals: &'a [TypedActual],
    env: &'a [Bound],
    line: &'a Location,
    calls: &mut Items<Call<'a>>,
) -> Result<(), AllocError>
    ensures { OnOk result (calls.new ≡ calls.old ++ spec_actuals_calls (actual_views actuals.now) env.now line.now) }
{
    for actual in actuals {
        actual_calls(alloc, actual, env, line, calls)?;
    }
    Ok(())
}

/// A call of the specification with this number, after those in its actuals.
#[cycle(calling)]
pub fn instance_calls<'a>(
    alloc: Global,
    callee: usize,
    actuals: &'a [TypedActual],
    env: &'a [Bound],
    line: &'a Location,
    calls: &mut Items<Call<'a>>,
) -> Result<(), AllocError>
    ensures { OnOk result (calls.new ≡ calls.old ++ spec_call_calls callee (actual_views actuals.now) env.now line.now) }
{
    actuals_calls(alloc, actuals, env, line, calls)?;
    calls.push(Call::new(callee, actuals, env, line))
}
