//! Actuals of a call of a FUNCTION against its formals, and their number (T4). What the scope remembers of wide types spares
//! a comparison of them.
#![tactic(auto, using(occ_typing_tables::proofs::Judging::judged_length))]

ghost use Rattle.std.specs.Prelude.{◌≡◌, ◌++◌, [], IfOk, IsTrue, OnOk, Some, false};
ghost use Rattle.occ_expr.specs.inside.Passing.{AreFormals, IsKnownOf};
ghost use Rattle.occ_expr_operations.specs.Parts.{in_scope, terms as spec_terms};
ghost use Rattle.occ_expr_operations.specs.Views.{expr_view, expr_views};
ghost use Rattle.occ_forms_expressions.specs.declared.tree.Expr.TheVariants as exprs;
ghost use Rattle.occ_forms_expressions.specs.declared.tree.Operand.TheVariants as operands;
ghost use Rattle.occ_scope.specs.Elements.{formal_of};
ghost use Rattle.occ_scope.specs.Visible.{visible};
ghost use Rattle.occ_types.specs.declared.types.OccType.{OccType};
ghost use Rattle.occ_typing_operands.specs.Operators.{all_faults, is_faulty as spec_is_faulty};
ghost use Rattle.occ_typing_rules.specs.Calling.{each_for as spec_each_for, matched as spec_matched};
ghost use Rattle.occ_typing_rules.specs.Numbering.{any_faulty};
ghost use Rattle.occ_typing_tables.specs.Terms.{judged, judged_all};

use super::names::name_alone;
use occ_base::{Fault, Items, Name};
use occ_forms_expressions::{Expr, Operand};
use occ_scope::{Meaning, Scope};
use occ_types::{Formal, OccType, Protocol};
use occ_typing_operands::{Kind, is_faulty};
use occ_typing_rules::of_another_number;
use occ_typing_tables::{Term, under};
use std::alloc::{AllocError, Global};

/// Whether a type may have many parts, so that it takes long to compare it.
pub fn takes_long(of: &OccType) -> bool {
    match of {
        OccType::Array(_, inner) | OccType::Named(_, inner) => takes_long(inner.get()),
        OccType::Channel(carried) => !matches!(carried.get(), Protocol::Any),
        OccType::Record(_, _) => true,
        OccType::Primitive(_) | OccType::Timer | OccType::Unknown => false,
    }
}

/// Whether what a call of the function of one name gives is known to be of the type of a formal of another.
fn is_given(scope: &Scope, expr: &Expr, callee: &Name, place: usize) -> bool
    ensures { (of : OccType) → formal_of (visible scope.now callee.now) place ≡ Some of → IsTrue result → IsKnownOf of ((expr_view expr.now).said scope.now).term }
{
    let Expr::Alone(operand) = expr else {
        return false;
    };
    let Operand::Call(giver, _) = operand else {
        return false;
    };
    let Some(Meaning::Function(formals, _)) = scope.find(giver) else {
        return false;
    };
    scope.is_known_to_pass(giver, formals.get().len(), callee, place)
}

/// Whether what is known of an expression is known to be of the type of a formal of the function of a name, or of the data
/// type that is the name.
pub fn is_taken(scope: &Scope, expr: &Expr, callee: &Name, place: usize) -> bool
    ensures { (of : OccType) → formal_of (visible scope.now callee.now) place ≡ Some of → IsTrue result → IsKnownOf of ((expr_view expr.now).said scope.now).term }
{
    match name_alone(expr) {
        Some(name) => scope.is_known_to_take(callee, place, name),
        None => is_given(scope, expr, callee, place),
    }
}

/// Whether it fits for a formal of this type, by what is known.
fn fits_so(
    scope: &Scope,
    callee: &Name,
    place: usize,
    of: &OccType,
    expr: &Expr,
    term: &Term,
) -> bool
    requires formal { formal_of (visible scope.now callee.now) place ≡ Some of.now }
    requires read { term.now ≡ ((expr_view expr.now).said scope.now).term }
    ensures faults { IsTrue result → ((judged term.now).under of.now).faults ≡ [] }
    ensures kind { IsTrue result → spec_is_faulty ((judged term.now).under of.now).kind ≡ false }
{
    let Term::Single(kind) = term else {
        return false;
    };
    let Kind::Known(_) = kind else {
        return false;
    };
    takes_long(of) && is_taken(scope, expr, callee, place)
}

/// An actual, of which this is read, for a formal of the function of a name: whether it is faulty.
fn is_faulty_for(
    alloc: Global,
    scope: &Scope,
    callee: &Name,
    place: usize,
    formal: &Formal,
    expr: &Expr,
    term: &Term,
    faults: &mut Items<Fault>,
) -> Result<bool, AllocError>
    requires formal { formal_of (visible scope.now callee.now) place ≡ Some formal.now.of }
    requires read { term.now ≡ ((expr_view expr.now).said scope.now).term }
    ensures is_faulty { IfOk result (λ found. found ≡ spec_is_faulty ((judged term.now).under formal.now.of).kind) }
    ensures faults { OnOk result (faults.new ≡ faults.old ++ ((judged term.now).under formal.now.of).faults) }
{
    if fits_so(scope, callee, place, formal.of.get(), expr, term) {
        return Ok(false);
    }
    let kind = under(alloc, term, &formal.of, faults)?;
    Ok(is_faulty(&kind))
}

/// As many actuals as formals: whether one of them is faulty.
fn each_for(
    alloc: Global,
    scope: &Scope,
    callee: &Name,
    formals: &[Formal],
    exprs: &[Expr],
    terms: &[Term],
    faults: &mut Items<Fault>,
) -> Result<bool, AllocError>
    requires formals { AreFormals scope.now callee.now formals.now }
    requires read { terms.now ≡ spec_terms (in_scope scope.now (expr_views exprs.now)) }
    ensures any { IfOk result (λ found. found ≡ any_faulty (spec_each_for formals.now (judged_all terms.now))) }
    ensures faults { OnOk result (faults.new ≡ faults.old ++ all_faults (spec_each_for formals.now (judged_all terms.now))) }
{
    let mut exprs = exprs;
    let mut terms = terms;
    let mut place = 0;
    let mut found = false;
    for formal in formals {
        let Some((expr, more_exprs)) = exprs.split_first() else {
            return Ok(found);
        };
        let Some((term, more_terms)) = terms.split_first() else {
            return Ok(found);
        };
        let faulty = is_faulty_for(alloc, scope, callee, place, formal, expr, term, faults)?;
        found = found || faulty;
        exprs = more_exprs;
        terms = more_terms;
        place += 1;
    }
    Ok(found)
}

/// The actuals of a call of the FUNCTION of a name, which has these formals, of each of which this is read: whether one of
/// them is faulty, or their number.
pub fn matched(
    alloc: Global,
    scope: &Scope,
    callee: &Name,
    formals: &[Formal],
    exprs: &[Expr],
    terms: &[Term],
    faults: &mut Items<Fault>,
) -> Result<bool, AllocError>
    requires formals { AreFormals scope.now callee.now formals.now }
    requires read { terms.now ≡ spec_terms (in_scope scope.now (expr_views exprs.now)) }
    ensures is_faulty { IfOk result (λ found. found ≡ (spec_matched formals.now (judged_all terms.now)).is_faulty) }
    ensures faults { OnOk result (faults.new ≡ faults.old ++ (spec_matched formals.now (judged_all terms.now)).faults) }
{
    if formals.len() == terms.len() {
        return each_for(alloc, scope, callee, formals, exprs, terms, faults);
    }
    of_another_number(alloc, terms, false, faults)?;
    Ok(true)
}
