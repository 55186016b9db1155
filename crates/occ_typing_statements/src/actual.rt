//! Actuals of an instance of a PROC, one by one against its formals. `docs/LANGUAGE.md, Instances of PROCs`.
ghost use Rattle.std.specs.Prelude.{◌≡◌, ◌++◌, [], IfOk, IsTrue, OnOk, Some};
ghost use Rattle.occ_expr.specs.Targets.{target_of as spec_target_of};
ghost use Rattle.occ_expr_operations.specs.Sides.{each_one as spec_each_one};
ghost use Rattle.occ_expr_operations.specs.Views.{element_view, expr_view};
ghost use Rattle.occ_scope.specs.Elements.{formal_of, type_of};
ghost use Rattle.occ_scope.specs.Visible.{visible};
ghost use Rattle.occ_scope.specs.declared.meaning.Meaning.TheVariants as m;
ghost use Rattle.occ_typing_tables.specs.Terms.{alone as spec_alone, judged};
ghost use Rattle.occ_typing_rules.specs.Placing.{placed as spec_placed};
ghost use Rattle.occ_typing_statements.specs.Actuals.{actual_faults, actual_tree, actuals_faults, actuals_tree, another_number as spec_another_number, each_faults, each_tree, element_faults, element_in as spec_element_in, misplaced_value as spec_misplaced_value, no_element, one_actual, reference_faults, reference_tree, taken as spec_taken, value_by, value_of, variable_of, with_actuals};

use super::takes::{element_in, takes};
use occ_base::{Code, Fault, Items, Name, Shared, report};
use occ_expr::{each_one, expression, name_alone, name_of, takes_long, target_of};
use occ_expr_operations::Reading;
use occ_forms_expressions::{Element, Expr};
use occ_scope::Scope;
use occ_types::{Formal, OccType, Passing};
use occ_typing_operands::{Kind, is_faulty};
use occ_typing_rules::{TypedActual, TypedElement, of_another_number, placed};
use occ_typing_tables::{Term, alone, under};
use std::alloc::{AllocError, Global};

/// What may be written, for a formal of this type: T2 is reported where it is of another.
fn taken(of: &OccType, kind: &Kind, faults: &mut Items<Fault>) -> Result<(), AllocError>
    ensures { OnOk result (faults.new ≡ faults.old ++ (spec_taken of.now kind.now).faults) }
{
    let Kind::Known(known) = kind else {
        return Ok(());
    };
    if takes(of, known.of.get()) {
        return Ok(());
    }
    report(faults, Code::T2)
}

/// A variable, a channel or a timer, as an actual.
fn variable_of(alloc: Global, tree: Option<TypedElement>) -> Result<Option<TypedActual>, AllocError>
    ensures { IfOk result (λ actual. actual ≡ variable_of tree) }
{
    match tree {
        Some(tree) => Ok(Some(TypedActual::Variable(Shared::new(alloc, tree)?))),
        None => Ok(None),
    }
}

/// Whether a formal of this type of the procedure of a name takes a name, by what is known of their types.
fn takes_name(
    callee: &Name,
    place: usize,
    of: &OccType,
    name: &Name,
    scope: &mut Scope,
) -> Result<bool, AllocError>
    requires { formal_of (visible scope.old callee.now) place ≡ Some of.now }
    ensures takes { IfOk result (λ takes. IsTrue takes → type_of (visible scope.old name.now) ≡ Some of.now) }
    ensures scope { scope.new ≡ scope.old }
{
    if !takes_long(of) {
        return Ok(false);
    }
    scope.takes(callee, place, name)
}

/// Whether it takes an element so: nothing is reported of that then.
fn takes_element(
    callee: &Name,
    place: usize,
    of: &OccType,
    element: &Element,
    scope: &mut Scope,
) -> Result<bool, AllocError>
    requires { formal_of (visible scope.old callee.now) place ≡ Some of.now }
    ensures takes { IfOk result (λ takes. IsTrue takes → (spec_taken of.now (spec_target_of scope.old element.now).kind).faults ≡ []) }
    ensures scope { scope.new ≡ scope.old }
{
    let Some(name) = name_of(element) else {
        return Ok(false);
    };
    let takes = takes_name(callee, place, of, name, scope)?;
    Ok(takes)
}

/// Whether it takes a value so: nothing is reported of that then.
fn takes_value(
    callee: &Name,
    place: usize,
    of: &OccType,
    expr: &Expr,
    scope: &mut Scope,
) -> Result<bool, AllocError>
    requires { formal_of (visible scope.old callee.now) place ≡ Some of.now }
    ensures takes { IfOk result (λ takes. IsTrue takes → ((judged ((expr_view expr.now).said scope.old).term).under of.now).faults ≡ []) }
    ensures scope { scope.new ≡ scope.old }
{
    let Some(name) = name_alone(expr) else {
        return Ok(false);
    };
    let takes = takes_name(callee, place, of, name, scope)?;
    Ok(takes)
}

/// An element, for a formal of this type that is not VAL.
fn element_actual(
    alloc: Global,
    callee: &Name,
    place: usize,
    of: &OccType,
    element: &Element,
    scope: &mut Scope,
    faults: &mut Items<Fault>,
) -> Result<Option<TypedActual>, AllocError>
    requires { formal_of (visible scope.old callee.now) place ≡ Some of.now }
    ensures tree { IfOk result (λ actual. actual ≡ variable_of ((element_view element.now).tree scope.old)) }
    ensures scope { OnOk result (scope.new ≡ scope.old) }
    ensures faults { OnOk result (faults.new ≡ faults.old ++ element_faults scope.old of.now element.now) }
{
    let read = target_of(alloc, element, scope, faults)?;
    if !takes_element(callee, place, of, element, scope)? {
        taken(of, &read.kind, faults)?;
    }
    variable_of(alloc, read.tree)
}

/// An operand for a formal that is not VAL: T3 is reported, unless it has a fault.
fn report_misplaced(alloc: Global, term: &Term, faults: &mut Items<Fault>) -> Result<(), AllocError>
    ensures { OnOk result (faults.new ≡ faults.old ++ no_element (spec_alone (judged term.now))) }
{
    let kind = alone(alloc, term, faults)?;
    if is_faulty(&kind) {
        return Ok(());
    }
    report(faults, Code::T3)
}

/// A value for a formal that is not VAL.
fn misplaced_value(
    alloc: Global,
    expr: &Expr,
    scope: &Scope,
    faults: &mut Items<Fault>,
) -> Result<(), AllocError>
    ensures { OnOk result (faults.new ≡ faults.old ++ spec_misplaced_value ((expr_view expr.now).said scope.now)) }
{
    let read = expression(alloc, expr, scope, faults)?;
    let reported = report_misplaced(alloc, &read.term, faults);
    drop(read);
    reported
}

/// An actual for a formal of this type that is not VAL.
fn reference_actual(
    alloc: Global,
    callee: &Name,
    place: usize,
    of: &OccType,
    expr: &Expr,
    scope: &mut Scope,
    faults: &mut Items<Fault>,
) -> Result<Option<TypedActual>, AllocError>
    requires { formal_of (visible scope.old callee.now) place ≡ Some of.now }
    ensures tree { IfOk result (λ actual. actual ≡ reference_tree scope.old (spec_element_in scope.old expr.now)) }
    ensures scope { OnOk result (scope.new ≡ scope.old) }
    ensures faults { OnOk result (faults.new ≡ faults.old ++ reference_faults scope.old of.now expr.now (spec_element_in scope.old expr.now)) }
{
    match element_in(scope, expr) {
        Some(element) => element_actual(alloc, callee, place, of, element, scope, faults),
        None => {
            misplaced_value(alloc, expr, scope, faults)?;
            Ok(None)
        }
    }
}

/// An actual of which this is read, for a VAL formal of this type, of which it may be known that it takes the actual.
fn value_as(
    alloc: Global,
    of: &Shared<OccType>,
    read: &Reading,
    is_taken: bool,
    faults: &mut Items<Fault>,
) -> Result<Option<TypedActual>, AllocError>
    requires { IsTrue is_taken → ((judged read.now.term).under of.now).faults ≡ [] }
    ensures tree { IfOk result (λ actual. actual ≡ value_of (spec_placed read.now.open_expr of.now)) }
    ensures faults { OnOk result (faults.new ≡ faults.old ++ ((judged read.now.term).under of.now).faults) }
{
    if !is_taken {
        under(alloc, &read.term, of, faults)?;
    }
    let Some(tree) = placed(alloc, &read.open_expr, of)? else {
        return Ok(None);
    };
    Ok(Some(TypedActual::Value(tree)))
}

/// An actual for a VAL formal of this type.
fn value_actual(
    alloc: Global,
    callee: &Name,
    place: usize,
    of: &Shared<OccType>,
    expr: &Expr,
    scope: &mut Scope,
    faults: &mut Items<Fault>,
) -> Result<Option<TypedActual>, AllocError>
    requires { formal_of (visible scope.old callee.now) place ≡ Some of.now }
    ensures tree { IfOk result (λ actual. actual ≡ value_of (spec_placed ((expr_view expr.now).open_expr scope.old) of.now)) }
    ensures scope { OnOk result (scope.new ≡ scope.old) }
    ensures faults { OnOk result (faults.new ≡ faults.old ++ value_by of.now ((expr_view expr.now).said scope.old)) }
{
    let is_taken = takes_value(callee, place, of.get(), expr, scope)?;
    let read = expression(alloc, expr, scope, faults)?;
    let actual = value_as(alloc, of, &read, is_taken, faults);
    drop(read);
    actual
}

/// An actual for the formal at a place of the procedure of a name.
fn actual(
    alloc: Global,
    callee: &Name,
    place: usize,
    formal: &Formal,
    expr: &Expr,
    scope: &mut Scope,
    faults: &mut Items<Fault>,
) -> Result<Option<TypedActual>, AllocError>
    requires { formal_of (visible scope.old callee.now) place ≡ Some formal.now.of }
    ensures tree { IfOk result (λ actual. actual ≡ actual_tree scope.old formal.now.of formal.now.passing expr.now) }
    ensures scope { OnOk result (scope.new ≡ scope.old) }
    ensures faults { OnOk result (faults.new ≡ faults.old ++ actual_faults scope.old formal.now.of formal.now.passing expr.now) }
{
    match formal.passing {
        Passing::Value => value_actual(alloc, callee, place, &formal.of, expr, scope, faults),
        Passing::Reference => {
            reference_actual(alloc, callee, place, formal.of.get(), expr, scope, faults)
        }
    }
}

/// One actual more, if all are there.
fn with_actual(
    actuals: Option<Items<TypedActual>>,
    next: Option<TypedActual>,
) -> Result<Option<Items<TypedActual>>, AllocError>
    ensures { IfOk result (λ all. all ≡ with_actuals actuals (one_actual next)) }
{
    let (Some(mut actuals), Some(next)) = (actuals, next) else {
        return Ok(None);
    };
    actuals.push(next)?;
    Ok(Some(actuals))
}

/// As many actuals as formals.
#[tactic(auto, using(crate::proofs::Fronts::front_rules))]
fn each_actual(
    alloc: Global,
    callee: &Name,
    formals: &[Formal],
    exprs: &[Expr],
    scope: &mut Scope,
    faults: &mut Items<Fault>,
) -> Result<Option<Items<TypedActual>>, AllocError>
    requires { visible scope.old callee.now ≡ Some (m.Procedure formals.now) }
    ensures tree { IfOk result (λ all. all ≡ each_tree scope.old formals.now exprs.now) }
    ensures scope { OnOk result (scope.new ≡ scope.old) }
    ensures faults { OnOk result (faults.new ≡ faults.old ++ each_faults scope.old formals.now exprs.now) }
{
    let mut exprs = exprs;
    let mut place = 0;
    let mut actuals = Some(Items::new(alloc));
    for formal in formals {
        let Some((expr, rest)) = exprs.split_first() else {
            return Ok(actuals);
        };
        let next = actual(alloc, callee, place, formal, expr, scope, faults)?;
        actuals = with_actual(actuals, next)?;
        exprs = rest;
        place += 1;
    }
    Ok(actuals)
}

/// More or fewer actuals than formals.
fn another_number(
    alloc: Global,
    exprs: &[Expr],
    scope: &Scope,
    faults: &mut Items<Fault>,
) -> Result<(), AllocError>
    ensures { OnOk result (faults.new ≡ faults.old ++ spec_another_number (spec_each_one scope.now exprs.now)) }
{
    let read = each_one(alloc, exprs, scope, faults)?;
    of_another_number(alloc, read.terms.as_slice(), false, faults)
}

/// The actuals of an instance of the PROC of a name, which has these formals, if none is missing or has a fault.
#[tactic(auto, unfolding(crate::specs::Actuals::actuals_faults, crate::specs::Actuals::actuals_tree))]
pub fn actuals(
    alloc: Global,
    callee: &Name,
    formals: &[Formal],
    exprs: &[Expr],
    scope: &mut Scope,
    faults: &mut Items<Fault>,
) -> Result<Option<Items<TypedActual>>, AllocError>
    requires { visible scope.old callee.now ≡ Some (m.Procedure formals.now) }
    ensures tree { IfOk result (λ all. all ≡ actuals_tree scope.old formals.now exprs.now) }
    ensures scope { OnOk result (scope.new ≡ scope.old) }
    ensures faults { OnOk result (faults.new ≡ faults.old ++ actuals_faults scope.old formals.now exprs.now) }
{
    if formals.len() == exprs.len() {
        return each_actual(alloc, callee, formals, exprs, scope, faults);
    }
    another_number(alloc, exprs, scope, faults)?;
    Ok(None)
}
