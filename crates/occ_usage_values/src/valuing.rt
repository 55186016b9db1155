//! The value of an expression and the number of components of an array, under known indices.
ghost use Rattle.std.specs.Prelude.{◌≡◌};
ghost use Rattle.occ_usage_values.specs.Values.{both as spec_both, converted_to, folded_after, int_of as spec_int_of, known_or, less as spec_less, one as spec_one, size_value as spec_size_value, whole as spec_whole};
ghost use Rattle.occ_usage_values.specs.Views.{element_view, expr_view, expr_views, folded_all, name_value as spec_name_value, selector_view, selector_views, sized, values_of};

use super::bound::{Bound, size_at, value_at};
use occ_base::Shared;
use occ_types::{Monadic, OccType, Operator, Value, base_of, convert, fold, fold_one};
use occ_typing_rules::{Selector, TypedElement, TypedExpr};

/// What an operator gives on two values, if they are known and it has one.
fn both(operator: Operator, a: Option<Value>, b: Option<Value>) -> Option<Value>
    ensures { result ≡ spec_both operator a b }
{
    match (a, b) {
        (Some(a), Some(b)) => fold(operator, a, b).ok(),
        _ => None,
    }
}

/// What an operator gives on a value, if it is known and has one.
fn one(operator: Monadic, a: Option<Value>) -> Option<Value>
    ensures { result ≡ spec_one operator a }
{
    match a {
        Some(a) => fold_one(operator, a).ok(),
        None => None,
    }
}

/// A value in another type, if it is known and has one there.
fn converted(of: &OccType, value: Option<Value>) -> Option<Value>
    ensures { result ≡ converted_to of.now value }
{
    match (base_of(of), value) {
        (Some(base), Some(value)) => convert(base, value).ok(),
        _ => None,
    }
}

/// The number that a value of INT is.
pub(crate) fn int(value: Option<Value>) -> Option<i32>
    ensures { result ≡ spec_int_of value }
{
    match value {
        Some(Value::Int(n)) => Some(n),
        _ => None,
    }
}

/// A number of components as a value.
fn size_value(size: Option<i64>) -> Option<Value>
    ensures { result ≡ spec_size_value size }
{
    match size {
        Some(size) => match i32::try_from(size) {
            Ok(size) => Some(Value::Int(size)),
            Err(_) => None,
        },
        None => None,
    }
}

/// How many components of so many stand from a place on.
pub(crate) fn less(size: Option<i64>, base: Option<i32>) -> Option<i64>
    ensures { result ≡ spec_less size base }
{
    match (size, base) {
        (Some(size), Some(base)) => size.checked_sub(i64::from(base)),
        _ => None,
    }
}

/// The number of components that is known by the type, or else is known here.
pub(crate) fn whole(typed: Option<u32>, here: Option<i64>) -> Option<i64>
    ensures { result ≡ spec_whole typed here }
{
    match typed {
        Some(size) => Some(i64::from(size)),
        None => here,
    }
}

/// A number of components that is counted.
pub(crate) fn count(value: Option<Value>) -> Option<i64>
    ensures { result ≡ spec_int_of value }
{
    match int(value) {
        Some(n) => Some(i64::from(n)),
        None => None,
    }
}

/// The value of an expression where these specifications are in scope: none where it is not known, and none where it has a
/// fault.
#[tactic(auto, using(crate::proofs::Views::expr_value_rules))]
#[cycle(values)]
pub fn value(expr: &TypedExpr, env: &[Bound]) -> Option<Value>
    ensures { result ≡ (expr_view expr.now).value env.now }
{
    match expr {
        TypedExpr::Literal(known) => known.value.get(),
        TypedExpr::Element(element) => element_value(element, env),
        TypedExpr::Operation(known, operator, operands) => match known.value.get() {
            Some(value) => Some(value),
            None => operation(*operator, operands.as_slice(), env),
        },
        TypedExpr::Applied(known, operator, operand) => match known.value.get() {
            Some(value) => Some(value),
            None => one(*operator, value(operand.get(), env)),
        },
        TypedExpr::Size(known, operand) => match known.value.get() {
            Some(value) => Some(value),
            None => size_value(size(operand.get(), env)),
        },
        TypedExpr::Converted(known, operand) => match known.value.get() {
            Some(value) => Some(value),
            None => converted(known.of.get(), value(operand.get(), env)),
        },
        TypedExpr::Table(_, _) => None,
        TypedExpr::Call(_, _, _) => None,
    }
}

/// The value of operands with one operator between each two.
#[cycle(values)]
fn operation(operator: Operator, operands: &[Shared<TypedExpr>], env: &[Bound]) -> Option<Value>
    ensures { result ≡ folded_all operator (expr_views operands.now) env.now }
{
    let Some((first, more)) = operands.split_first() else {
        return None;
    };
    let mut found = value(first.get(), env);
    for operand in more {
        found = both(operator, found, value(operand.get(), env));
    }
    found
}

/// The value of an element: only a name alone has one.
#[tactic(auto, using(crate::proofs::Views::element_value_rules))]
fn element_value(element: &TypedElement, env: &[Bound]) -> Option<Value>
    ensures { result ≡ (element_view element.now).value env.now }
{
    match element.known.value.get() {
        Some(value) => Some(value),
        None => name_value(
            element.selectors.as_slice(),
            value_at(env, element.referent.spec),
        ),
    }
}

/// The value of a name of this value with selectors after it: only the name alone has one.
fn name_value(selectors: &[Selector], value: Option<Value>) -> Option<Value>
    ensures { result ≡ spec_name_value (selector_views selectors.now) value }
{
    match selectors.split_first() {
        Some(_) => None,
        None => value,
    }
}

/// The number of components of an array, as far as the specifications in scope report it.
#[tactic(auto, using(crate::proofs::Views::expr_size_rules))]
#[cycle(values)]
pub fn size(expr: &TypedExpr, env: &[Bound]) -> Option<i64>
    ensures { result ≡ (expr_view expr.now).size env.now }
{
    match expr {
        TypedExpr::Element(element) => element_size(element, env),
        _ => None,
    }
}

/// The number of components of an element, as far as the specifications in scope report it.
#[tactic(auto, using(crate::proofs::Views::element_size_rules))]
#[cycle(values)]
pub fn element_size(element: &TypedElement, env: &[Bound]) -> Option<i64>
    ensures { result ≡ (element_view element.now).size env.now }
{
    size_after(
        element.selectors.as_slice(),
        size_at(env, element.referent.spec),
        env,
    )
}

/// The number of components after selectors from so many.
#[cycle(values)]
fn size_after(selectors: &[Selector], size: Option<i64>, env: &[Bound]) -> Option<i64>
    ensures { result ≡ sized (selector_views selectors.now) env.now size }
{
    let mut found = size;
    for selector in selectors {
        found = size_within(selector, found, env);
    }
    found
}

/// The number of components of what is selected from so many.
#[tactic(auto, using(crate::proofs::Views::selector_size_rules))]
#[cycle(values)]
#[inline(always)]
pub(crate) fn size_within(selector: &Selector, size: Option<i64>, env: &[Bound]) -> Option<i64>
    ensures { result ≡ (selector_view selector.now).size env.now size }
{
    match selector {
        Selector::Field(_, _) => None,
        Selector::Component(_) => None,
        Selector::From(typed, base) => { less(whole(*typed, size), int(value(base.get(), env))) }
        Selector::For(_, length) => count(value(length.get(), env)),
        Selector::FromFor(_, _, length) => count(value(length.get(), env)),
    }
}
