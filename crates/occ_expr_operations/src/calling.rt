//! Calls of functions: which expressions are one, the results as operands and as a whole right side, and T4 for their
//! number.
#![tactic(auto, using(crate::proofs::Layers::layer_rules))]

ghost use Rattle.std.specs.Prelude.{◌≡◌, ◌∷◌, ◌++◌, IfOk, MatchOption, None, OnOk, Some};
ghost use Rattle.occ_expr_operations.specs.OpenExprs.{by_value as spec_by_value, called_tree as spec_called_tree, opened as spec_opened, formal_types as spec_formal_types, operand_call as spec_operand_call};
ghost use Rattle.occ_expr_operations.specs.Parts.{one_result as spec_one_result};
ghost use Rattle.occ_expr_operations.specs.Sides.{call_in as spec_call_in, call_of_first, one_call as spec_one_call, operand_layer, result_opens as spec_result_opens, result_terms as spec_result_terms};
ghost use Rattle.occ_forms_expressions.specs.declared.tree.Operand.{out-Operand};
ghost use Rattle.occ_scope.specs.Visible.{referent};
ghost use Rattle.occ_typing_rules.specs.Placing.{each_placed as spec_each_placed};

use super::reading::{Reading, Readings};
use occ_base::{Code, Fault, Items, Name, Shared, report};
use occ_forms_expressions::{Expr, Operand};
use occ_scope::Scope;
use occ_types::{Formal, MaybeValue, OccType};
use occ_typing_operands::{Kind, Known, known};
use occ_typing_rules::{OpenExpr, TypedActual, TypedExpr, each_placed};
use occ_typing_tables::Term;
use std::alloc::{AllocError, Global};

/// The call that an operand is: the name, and what stands in its parentheses.
fn call_in_operand(operand: &Operand) -> Option<(&Name, &[Expr])>
    ensures { MatchOption result (operand_layer (out-Operand operand.now) ≡ None) (λ call. operand_layer (out-Operand operand.now) ≡ Some (call.0.now, call.1.now)) }
{
    match operand {
        Operand::Call(name, arguments) => Some((name, arguments.as_slice())),
        Operand::Element(_) => None,
        Operand::Literal(_) => None,
        Operand::Decorated(_, _) => None,
        Operand::Truth(_) => None,
        Operand::Parens(_) => None,
        Operand::Table(_, _) => None,
        Operand::DecoratedTable(_, _, _) => None,
    }
}

/// The call that an expression is, if it is one, not in parentheses: the name, and what stands in its parentheses.
pub fn call_in(expr: &Expr) -> Option<(&Name, &[Expr])>
    ensures { MatchOption result (spec_call_in expr.now ≡ None) (λ call. spec_call_in expr.now ≡ Some (call.0.now, call.1.now)) }
{
    match expr {
        Expr::Alone(operand) => call_in_operand(operand),
        Expr::Run(_, _, _, _) => None,
        Expr::Pair(_, _, _) => None,
        Expr::Applied(_, _) => None,
        Expr::Converted(_, _, _) => None,
        Expr::ArrayConverted(_, _, _, _) => None,
        Expr::Named(_, _) => None,
        Expr::Most(_, _) => None,
    }
}

/// The call that a list of expressions is.
pub fn one_call<'a>(first: &'a Expr, more: &'a [Expr]) -> Option<(&'a Name, &'a [Expr])>
    ensures { MatchOption result (spec_one_call (first.now ∷ more.now) ≡ None) (λ call. spec_one_call (first.now ∷ more.now) ≡ Some (call.0.now, call.1.now)) }
{
    match more.split_first() {
        None => call_in(first),
        Some(_) => None,
    }
}

/// What is known of the one result of a function: of more or fewer T4 is reported.
pub fn one_result(
    results: &[Shared<OccType>],
    faults: &mut Items<Fault>,
) -> Result<Kind, AllocError>
    ensures kind { IfOk result (λ kind. kind ≡ (spec_one_result results.now).kind) }
    ensures faults { OnOk result (faults.new ≡ faults.old ++ (spec_one_result results.now).faults) }
{
    if let Some((of, more)) = results.split_first() {
        if more.split_first().is_none() {
            return known(of, None);
        }
    }
    report(faults, Code::T4)?;
    Ok(Kind::Faulty)
}

/// The types of formals.
fn formal_types(alloc: Global, formals: &[Formal]) -> Result<Items<Shared<OccType>>, AllocError>
    ensures { IfOk result (λ types. types ≡ spec_formal_types formals.now) }
{
    let mut types = Items::new(alloc);
    for formal in formals {
        types.push(formal.of.share()?)?;
    }
    Ok(types)
}

/// Values as actuals.
fn by_value(alloc: Global, values: &[Shared<TypedExpr>]) -> Result<Items<TypedActual>, AllocError>
    ensures { IfOk result (λ actuals. actuals ≡ spec_by_value values.now) }
{
    let mut actuals = Items::new(alloc);
    for value in values {
        actuals.push(TypedActual::Value(value.share()?))?;
    }
    Ok(actuals)
}

/// Actuals as values of the types of the formals, if each is one.
fn values_of(
    alloc: Global,
    formals: &[Formal],
    actuals: &[OpenExpr],
) -> Result<Option<Items<Shared<TypedExpr>>>, AllocError>
    ensures { IfOk result (λ values. values ≡ spec_each_placed actuals.now (spec_formal_types formals.now)) }
{
    let types = formal_types(alloc, formals)?;
    let values = each_placed(alloc, actuals, types.as_slice());
    drop(types);
    values
}

/// A call of what a name stands for, whose first result is of this type.
#[tactic(auto, unfolding(crate::specs::OpenExprs::called_tree))]
fn called_tree(
    alloc: Global,
    scope: &Scope,
    name: &Name,
    of: &Shared<OccType>,
    formals: &[Formal],
    actuals: &[OpenExpr],
) -> Result<Option<Shared<TypedExpr>>, AllocError>
    ensures { IfOk result (λ tree. tree ≡ spec_called_tree of.now (referent scope.now name.now) formals.now actuals.now) }
{
    let values = values_of(alloc, formals, actuals)?;
    let Some((callee, values)) = scope.referent(name)?.zip(values) else {
        return Ok(None);
    };
    let actuals = by_value(alloc, values.as_slice());
    drop(values);
    let actuals = actuals?;
    let known = Known {
        of: of.share()?,
        value: MaybeValue::none(),
    };
    let tree = TypedExpr::Call(known, callee, actuals);
    Ok(Some(Shared::new(alloc, tree)?))
}

/// The open expression of what is typed already, if it is there.
fn opened(tree: &Option<Shared<TypedExpr>>) -> Result<OpenExpr, AllocError>
    ensures { IfOk result (λ open_expr. open_expr ≡ spec_opened tree.now) }
{
    match tree {
        Some(tree) => Ok(OpenExpr::Typed(tree.share()?)),
        None => Ok(OpenExpr::Faulty),
    }
}

/// A call as an operand, of whose whole this is known.
pub fn operand_call(
    alloc: Global,
    scope: &Scope,
    name: &Name,
    whole: &Kind,
    formals: &[Formal],
    actuals: &[OpenExpr],
) -> Result<OpenExpr, AllocError>
    ensures { IfOk result (λ open_expr. open_expr ≡ spec_operand_call whole.now (referent scope.now name.now) formals.now actuals.now) }
{
    match whole {
        Kind::Known(known) => opened(&called_tree(
            alloc, scope, name, &known.of, formals, actuals,
        )?),
        Kind::Faulty => Ok(OpenExpr::Faulty),
        Kind::Untyped(_) => Ok(OpenExpr::Faulty),
    }
}

/// A call of what a name stands for, with these results.
fn call_of_results(
    alloc: Global,
    scope: &Scope,
    name: &Name,
    results: &[Shared<OccType>],
    formals: &[Formal],
    actuals: &[OpenExpr],
) -> Result<Option<Shared<TypedExpr>>, AllocError>
    ensures { IfOk result (λ tree. tree ≡ call_of_first results.now (referent scope.now name.now) formals.now actuals.now) }
{
    match results.split_first() {
        Some((of, _)) => called_tree(alloc, scope, name, of, formals, actuals),
        None => Ok(None),
    }
}

/// What is read of a call that stands for each of these results.
fn each_result(
    alloc: Global,
    results: &[Shared<OccType>],
    call: &Option<Shared<TypedExpr>>,
) -> Result<Readings, AllocError>
    ensures terms { IfOk result (λ all. all.terms ≡ spec_result_terms results.now) }
    ensures open_exprs { IfOk result (λ all. all.open_exprs ≡ spec_result_opens call.now results.now) }
{
    let mut all = Readings::new(alloc);
    for of in results {
        let term = Term::Single(known(of, None)?);
        let open_expr = opened(call)?;
        all.push(Reading { term, open_expr })?;
    }
    Ok(all)
}

/// What is read of a call without a faulty actual that is a whole right side.
pub fn all_results(
    alloc: Global,
    scope: &Scope,
    name: &Name,
    results: &[Shared<OccType>],
    formals: &[Formal],
    actuals: &[OpenExpr],
) -> Result<Readings, AllocError>
    ensures terms { IfOk result (λ all. all.terms ≡ spec_result_terms results.now) }
    ensures open_exprs { IfOk result (λ all. all.open_exprs ≡ spec_result_opens (call_of_first results.now (referent scope.now name.now) formals.now actuals.now) results.now) }
{
    let call = call_of_results(alloc, scope, name, results, formals, actuals)?;
    each_result(alloc, results, &call)
}
