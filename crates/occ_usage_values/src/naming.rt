//! Whether an expression, an element or an actual names a specification: then what it is may depend on its value. What it
//! uses depends on it only if a subscript or a bound in it names it.
ghost use Rattle.std.specs.Prelude.{◌≡◌};
ghost use Rattle.occ_usage_values.specs.Naming.{actual_depends as spec_actual_depends, actual_names as spec_actual_names, actuals_depend as spec_actuals_depend, actuals_name as spec_actuals_name, element_depends as spec_element_depends, element_names as spec_element_names, expr_depends, expr_names, exprs_depend as spec_exprs_depend, exprs_name as spec_exprs_name, selector_names as spec_selector_names, selectors_name as spec_selectors_name};

use occ_base::Shared;
use occ_typing_rules::{Selector, TypedActual, TypedElement, TypedExpr};

/// Whether an expression names the specification with this number.
#[tactic(auto, using(crate::proofs::Names::expr_rules))]
#[cycle(naming)]
pub fn expression_names(expr: &TypedExpr, number: usize) -> bool
    ensures { result ≡ expr_names number expr.now }
{
    match expr {
        TypedExpr::Literal(_) => false,
        TypedExpr::Element(element) => element_names(element, number),
        TypedExpr::Operation(_, _, operands) => expressions_name(operands.as_slice(), number),
        TypedExpr::Applied(_, _, operand) => expression_names(operand.get(), number),
        TypedExpr::Size(_, operand) => expression_names(operand.get(), number),
        TypedExpr::Converted(_, operand) => expression_names(operand.get(), number),
        TypedExpr::Table(_, items) => expressions_name(items.as_slice(), number),
        TypedExpr::Call(_, _, actuals) => actuals_name(actuals.as_slice(), number),
    }
}

/// Whether one of the expressions names the specification with this number.
#[cycle(naming)]
pub fn expressions_name(exprs: &[Shared<TypedExpr>], number: usize) -> bool
    ensures { result ≡ spec_exprs_name number exprs.now }
{
    for expr in exprs {
        if expression_names(expr.get(), number) {
            return true;
        }
    }
    false
}

/// Whether an element is named by the specification with this number, or a subscript or a bound of it names that.
#[tactic(auto, using(crate::proofs::Names::element_rules))]
#[cycle(naming)]
pub fn element_names(element: &TypedElement, number: usize) -> bool
    ensures { result ≡ spec_element_names number element.now }
{
    element.referent.spec == number || selectors_name(element.selectors.as_slice(), number)
}

/// Whether a subscript or a bound of selectors names the specification with this number.
#[cycle(naming)]
fn selectors_name(selectors: &[Selector], number: usize) -> bool
    ensures { result ≡ spec_selectors_name number selectors.now }
{
    for selector in selectors {
        if selector_names(selector, number) {
            return true;
        }
    }
    false
}

/// Whether the subscript or a bound of a selector names the specification with this number.
#[tactic(auto, using(crate::proofs::Names::selector_rules))]
#[cycle(naming)]
fn selector_names(selector: &Selector, number: usize) -> bool
    ensures { result ≡ spec_selector_names number selector.now }
{
    match selector {
        Selector::Field(_, _) => false,
        Selector::Component(at) => expression_names(at.get(), number),
        Selector::From(_, base) => expression_names(base.get(), number),
        Selector::For(_, length) => expression_names(length.get(), number),
        Selector::FromFor(_, base, length) => {
            expression_names(base.get(), number) || expression_names(length.get(), number)
        }
    }
}

/// Whether an actual names the specification with this number.
#[tactic(auto, using(crate::proofs::Names::actual_rules))]
#[cycle(naming)]
fn actual_names(actual: &TypedActual, number: usize) -> bool
    ensures { result ≡ spec_actual_names number actual.now }
{
    match actual {
        TypedActual::Value(expr) => expression_names(expr.get(), number),
        TypedActual::Variable(element) => element_names(element.get(), number),
    }
}

/// Whether one of the actuals names the specification with this number.
#[cycle(naming)]
pub fn actuals_name(actuals: &[TypedActual], number: usize) -> bool
    ensures { result ≡ spec_actuals_name number actuals.now }
{
    for actual in actuals {
        if actual_names(actual, number) {
            return true;
        }
    }
    false
}

/// Whether what an expression uses may depend on the specification with this number: a subscript or a bound in it names that.
#[tactic(auto, using(crate::proofs::Names::depending_rules))]
#[cycle(depending)]
pub fn expression_depends(expr: &TypedExpr, number: usize) -> bool
    ensures { result ≡ expr_depends number expr.now }
{
    match expr {
        TypedExpr::Literal(_) => false,
        TypedExpr::Element(element) => element_depends(element, number),
        TypedExpr::Operation(_, _, operands) => expressions_depend(operands.as_slice(), number),
        TypedExpr::Applied(_, _, operand) => expression_depends(operand.get(), number),
        TypedExpr::Size(_, _) => false,
        TypedExpr::Converted(_, operand) => expression_depends(operand.get(), number),
        TypedExpr::Table(_, items) => expressions_depend(items.as_slice(), number),
        TypedExpr::Call(_, _, actuals) => actuals_depend(actuals.as_slice(), number),
    }
}

/// Whether what one of the expressions uses may depend on the specification with this number.
#[cycle(depending)]
pub fn expressions_depend(exprs: &[Shared<TypedExpr>], number: usize) -> bool
    ensures { result ≡ spec_exprs_depend number exprs.now }
{
    for expr in exprs {
        if expression_depends(expr.get(), number) {
            return true;
        }
    }
    false
}

/// Whether a subscript or a bound of an element names the specification with this number.
#[tactic(auto, using(crate::proofs::Names::element_of_depends))]
pub fn element_depends(element: &TypedElement, number: usize) -> bool
    ensures { result ≡ spec_element_depends number element.now }
{
    selectors_name(element.selectors.as_slice(), number)
}

/// Whether what an actual uses may depend on the specification with this number.
#[tactic(auto, using(crate::proofs::Names::depending_actual_rules))]
#[cycle(depending)]
fn actual_depends(actual: &TypedActual, number: usize) -> bool
    ensures { result ≡ spec_actual_depends number actual.now }
{
    match actual {
        TypedActual::Value(expr) => expression_depends(expr.get(), number),
        TypedActual::Variable(element) => element_depends(element.get(), number),
    }
}

/// Whether what one of the actuals uses may depend on the specification with this number.
#[cycle(depending)]
pub fn actuals_depend(actuals: &[TypedActual], number: usize) -> bool
    ensures { result ≡ spec_actuals_depend number actuals.now }
{
    for actual in actuals {
        if actual_depends(actual, number) {
            return true;
        }
    }
    false
}
