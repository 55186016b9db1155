//! Guards `e & g`: the condition, and the input after it.
ghost use Rattle.occ_typing_lines.specs.Parts.{guard_faults as spec_guard_faults, guard_of as spec_guard_of, guard_role as spec_guard_role, guard_tree as spec_guard_tree, guarded_form as spec_guarded_form, guarding as spec_guarding};
ghost use Rattle.occ_typing_lines.specs.declared.tree.TypedGuard.TheVariants as guard;
ghost use Rattle.std.specs.Prelude.{◌≡◌, ◌++◌, IfOk, OnOk};

use super::line::{plain, with_role};
use super::parent::{Line, Parent, Role};
use super::tree::{TypedForm, TypedGuard};
use occ_base::{Boxed, Fault, Items, Shared};
use occ_forms::Guarded;
use occ_forms_expressions::Expr;
use occ_scope::Scope;
use occ_typing_rules::{TypedElement, TypedExpr};
use occ_typing_statements::{TypedInput, case_input, condition, input};
use std::alloc::{AllocError, Global};

/// An input as a guard, if it has a tree.
fn input_guard(tree: Option<TypedInput>) -> Option<TypedGuard>
    ensures { result ≡ spec_guard_of guard.Input tree }
{
    Some(TypedGuard::Input(tree?))
}

/// A case input as a guard, if what it receives through has a tree.
fn case_input_guard(tree: Option<TypedElement>) -> Option<TypedGuard>
    ensures { result ≡ spec_guard_of guard.CaseInput tree }
{
    Some(TypedGuard::CaseInput(tree?))
}

/// What stands after the `&` of a guard: what it says of the lines under it, and its tree, if that has no fault.
fn guarded(
    alloc: Global,
    guarded: &Guarded,
    scope: &Scope,
    faults: &mut Items<Fault>,
) -> Result<(Role, Option<TypedGuard>), AllocError>
    ensures role { IfOk result (λ r. r.0 ≡ spec_guard_role scope.now guarded.now) }
    ensures tree { IfOk result (λ r. r.1 ≡ spec_guard_tree scope.now guarded.now) }
    ensures faults { OnOk result (faults.new ≡ faults.old ++ spec_guard_faults scope.now guarded.now) }
{
    match guarded {
        Guarded::Skip => Ok((Role::Process, Some(TypedGuard::Skip))),
        Guarded::Input(following) => {
            let tree = input(alloc, following, scope, faults)?;
            Ok((Role::Process, input_guard(tree)))
        }
        Guarded::CaseInput(channel) => {
            let (input, tree) = case_input(alloc, channel, scope, faults)?;
            let input = Boxed::new(alloc, input)?;
            Ok((Role::Variants(input), case_input_guard(tree)))
        }
    }
}

/// A guard, if its condition and what stands after it have trees.
fn guarded_form(
    alloc: Global,
    condition: Option<Shared<TypedExpr>>,
    guard: Option<TypedGuard>,
) -> Result<TypedForm, AllocError>
    ensures { IfOk result (λ form. form ≡ spec_guarded_form condition guard) }
{
    match condition.zip(guard) {
        Some((condition, guard)) => { Ok(TypedForm::Guard(condition, Boxed::new(alloc, guard)?)) }
        None => Ok(TypedForm::Unknown),
    }
}

/// `e & g`
pub fn guarding(
    alloc: Global,
    expr: &Expr,
    following: &Guarded,
    scope: &Scope,
    next: Parent,
    faults: &mut Items<Fault>,
) -> Result<Line, AllocError>
    ensures line { IfOk result (λ line. line ≡ (spec_guarding scope.now expr.now following.now next).line) }
    ensures faults { OnOk result (faults.new ≡ faults.old ++ (spec_guarding scope.now expr.now following.now next).faults) }
{
    let tree = condition(alloc, expr, scope, faults)?;
    let (role, guard) = guarded(alloc, following, scope, faults)?;
    let under = with_role(role, &next);
    let form = guarded_form(alloc, tree, guard)?;
    plain(alloc, under, form, next)
}
