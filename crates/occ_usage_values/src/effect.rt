//! Whether an expression, an element or an instance calls a body with an effect.
ghost use Rattle.std.specs.Prelude.{◌≡◌};
ghost use Rattle.occ_usage_values.specs.Views.{actual_view, actual_views, actuals_effect as spec_actuals_effect, call_effect as spec_call_effect, each_effect as spec_each_effect, element_view, expr_view, expr_views, selector_view, selector_views, selectors_effect as spec_selectors_effect};

use super::bound::{Bound, effect_at};
use occ_base::Shared;
use occ_typing_rules::{Selector, TypedActual, TypedElement, TypedExpr};

/// Whether an expression calls a body with an input, an output, a PAR or an ALT.
#[tactic(auto, using(crate::proofs::Views::expr_effect_rules))]
#[cycle(effects)]
pub fn expression_effect(expr: &TypedExpr, env: &[Bound]) -> bool
    ensures { result ≡ (expr_view expr.now).effect env.now }
{
    match expr {
        TypedExpr::Literal(_) => false,
        TypedExpr::Element(element) => element_effect(element, env),
        TypedExpr::Operation(_, _, operands) => each_effect(operands.as_slice(), env),
        TypedExpr::Applied(_, _, operand) => expression_effect(operand.get(), env),
        TypedExpr::Size(_, _) => false,
        TypedExpr::Converted(_, operand) => expression_effect(operand.get(), env),
        TypedExpr::Table(_, items) => each_effect(items.as_slice(), env),
        TypedExpr::Call(_, callee, actuals) => {
            instance_effect(callee.spec, actuals.as_slice(), env)
        }
    }
}

/// Whether one of the expressions calls such a body.
#[cycle(effects)]
fn each_effect(exprs: &[Shared<TypedExpr>], env: &[Bound]) -> bool
    ensures { result ≡ spec_each_effect (expr_views exprs.now) env.now }
{
    for expr in exprs {
        match expr.get() {
            TypedExpr::Literal(_) => {}
            one => {
                if expression_effect(one, env) {
                    return true;
                }
            }
        }
    }
    false
}

/// Whether a subscript or a bound of an element calls such a body.
#[tactic(auto, using(crate::proofs::Views::element_effect_rules))]
#[cycle(effects)]
pub fn element_effect(element: &TypedElement, env: &[Bound]) -> bool
    ensures { result ≡ (element_view element.now).effect env.now }
{
    selectors_effect(element.selectors.as_slice(), env)
}

/// Whether a subscript or a bound of selectors calls such a body.
#[cycle(effects)]
fn selectors_effect(selectors: &[Selector], env: &[Bound]) -> bool
    ensures { result ≡ spec_selectors_effect (selector_views selectors.now) env.now }
{
    for selector in selectors {
        if selector_effect(selector, env) {
            return true;
        }
    }
    false
}

/// Whether the subscript or a bound of a selector calls such a body.
#[tactic(auto, using(crate::proofs::Views::selector_effect_rules))]
#[cycle(effects)]
fn selector_effect(selector: &Selector, env: &[Bound]) -> bool
    ensures { result ≡ (selector_view selector.now).effect env.now }
{
    match selector {
        Selector::Field(_, _) => false,
        Selector::Component(at) => expression_effect(at.get(), env),
        Selector::From(_, base) => expression_effect(base.get(), env),
        Selector::For(_, length) => expression_effect(length.get(), env),
        Selector::FromFor(_, base, length) => {
            expression_effect(base.get(), env) || expression_effect(length.get(), env)
        }
    }
}

/// Whether the value or a subscript of an actual calls such a body.
#[tactic(auto, using(crate::proofs::Views::actual_effect_rules))]
#[cycle(effects)]
fn actual_effect(actual: &TypedActual, env: &[Bound]) -> bool
    ensures { result ≡ (actual_view actual.now).effect env.now }
{
    match actual {
        TypedActual::Value(expr) => expression_effect(expr.get(), env),
        TypedActual::Variable(element) => element_effect(element.get(), env),
    }
}

/// Whether one of the actuals calls such a body.
#[cycle(effects)]
fn actuals_effect(actuals: &[TypedActual], env: &[Bound]) -> bool
    ensures { result ≡ spec_actuals_effect (actual_views actuals.now) env.now }
{
    for actual in actuals {
        if actual_effect(actual, env) {
            return true;
        }
    }
    false
}

/// Whether the body of the specification with this number is such a body, or one that its actuals call.
#[cycle(effects)]
pub fn instance_effect(callee: usize, actuals: &[TypedActual], env: &[Bound]) -> bool
    ensures { result ≡ spec_call_effect callee (actual_views actuals.now) env.now }
{
    actuals_effect(actuals, env) || effect_at(env, callee)
}
