//! Calls of functions whose formals are of wide types: what they are given is compared once, and that is remembered.
ghost use Rattle.std.specs.Prelude.{◌≡◌, IfSome, IsTrue, OnOk};
ghost use Rattle.occ_scope.specs.Visible.{visible};
ghost use Rattle.occ_typing_statements.specs.inside.Given.{IsOneKnown, IsResultPlace};

use occ_base::Name;
use occ_expr::{name_alone, takes_long};
use occ_expr_operations::one_call;
use occ_forms_expressions::Expr;
use occ_scope::{Meaning, Scope};
use occ_types::Formal;
use occ_typing_operands::Kind;
use occ_typing_tables::Term;
use std::alloc::AllocError;

/// Whether one of the formals is of a type that takes long to compare.
fn has_long(formals: &[Formal]) -> bool {
    for formal in formals {
        if takes_long(formal.of.get()) {
            return true;
        }
    }
    false
}

/// Whether a name stands for a function with a formal of a type that takes long to compare.
fn is_long(callee: &Name, scope: &Scope) -> bool {
    match scope.find(callee) {
        Some(Meaning::Function(formals, _)) => has_long(formals.get().as_slice()),
        _ => false,
    }
}

/// The place behind the formals of the function of a name: there stands what it gives.
pub(super) fn result_place(callee: &Name, scope: &Scope) -> Option<usize>
    ensures { IfSome result (IsResultPlace (visible scope.now callee.now)) }
{
    match scope.find(callee) {
        Some(Meaning::Function(formals, _)) => Some(formals.get().len()),
        _ => None,
    }
}

/// Whether it is one operand of which the type is known.
pub(super) fn is_one_known(terms: &[Term]) -> bool
    ensures { IsTrue result → IsOneKnown terms.now }
{
    let Some((term, more)) = terms.split_first() else {
        return false;
    };
    if !more.is_empty() {
        return false;
    }
    let Term::Single(kind) = term else {
        return false;
    };
    matches!(kind, Kind::Known(_))
}

/// An actual is compared with the formal at a place.
fn compare_actual(
    callee: &Name,
    place: usize,
    actual: &Expr,
    scope: &mut Scope,
) -> Result<(), AllocError>
    ensures { scope.new ≡ scope.old }
{
    if let Some(name) = name_alone(actual) {
        scope.takes(callee, place, name)?;
        return Ok(());
    }
    let Some((giver, _)) = one_call(actual, &[]) else {
        return Ok(());
    };
    match result_place(giver, scope) {
        Some(given) => scope.pass(giver, given, callee, place),
        None => Ok(()),
    }
}

/// What the function of a name, if it has formals of wide types, is given in a call, and in calls among its actuals.
pub(super) fn compare_calls(expr: &Expr, scope: &mut Scope) -> Result<(), AllocError>
    ensures { OnOk result (scope.new ≡ scope.old) }
{
    let Some((callee, actuals)) = one_call(expr, &[]) else {
        return Ok(());
    };
    if !is_long(callee, scope) {
        return Ok(());
    }
    let mut place = 0;
    for actual in actuals {
        compare_calls(actual, scope)?;
        compare_actual(callee, place, actual, scope)?;
        place += 1;
    }
    Ok(())
}
