//! Processes of one line: what each reports, and its typed form.
ghost use Rattle.occ_typing_lines.specs.Actions.{action_faults, action_form as spec_action_form};
ghost use Rattle.occ_forms.specs.declared.tree.Action.TheVariants as a;
ghost use Rattle.std.specs.Prelude.{◌≡◌, ◌++◌, IfOk, OnOk};

use super::form::{assignment_form, input_form, output_form};
use super::tree::TypedForm;
use occ_base::{Boxed, Fault, Items};
use occ_forms::{Action, Input, OutputItem};
use occ_forms_expressions::{Element, Expr};
use occ_scope::Scope;
use occ_typing_statements::{assignment, input, output};
use std::alloc::{AllocError, Global};

/// What a process of one line reports, and what it is.
pub fn action(
    alloc: Global,
    action: &Action,
    scope: &mut Scope,
    faults: &mut Items<Fault>,
) -> Result<Boxed<TypedForm>, AllocError>
    ensures form { IfOk result (λ form. form ≡ spec_action_form scope.old action.now) }
    ensures scope { OnOk result (scope.new ≡ scope.old) }
    ensures faults { OnOk result (faults.new ≡ faults.old ++ action_faults scope.old action.now) }
{
    match action {
        Action::Skip => Boxed::new(alloc, TypedForm::Skip),
        Action::Stop => Boxed::new(alloc, TypedForm::Stop),
        Action::Assignment(target, targets, value, values) => assigning(
            alloc,
            target,
            targets.as_slice(),
            value,
            values.as_slice(),
            scope,
            faults,
        ),
        Action::Output(channel, first, more) => {
            sending(alloc, channel, first, more.as_slice(), scope, faults)
        }
        Action::Input(following) => receiving(alloc, following, scope, faults),
    }
}

/// What an assignment reports, and what it is.
fn assigning(
    alloc: Global,
    target: &Element,
    targets: &[Element],
    value: &Expr,
    values: &[Expr],
    scope: &mut Scope,
    faults: &mut Items<Fault>,
) -> Result<Boxed<TypedForm>, AllocError>
    ensures form { IfOk result (λ form. form ≡ spec_action_form scope.old (a.Assignment target.now targets.now value.now values.now)) }
    ensures scope { OnOk result (scope.new ≡ scope.old) }
    ensures faults { OnOk result (faults.new ≡ faults.old ++ action_faults scope.old (a.Assignment target.now targets.now value.now values.now)) }
{
    let tree = assignment(alloc, target, targets, value, values, scope, faults)?;
    assignment_form(alloc, tree)
}

/// What an output reports, and what it is.
fn sending(
    alloc: Global,
    channel: &Element,
    first: &OutputItem,
    more: &[OutputItem],
    scope: &Scope,
    faults: &mut Items<Fault>,
) -> Result<Boxed<TypedForm>, AllocError>
    ensures form { IfOk result (λ form. form ≡ spec_action_form scope.now (a.Output channel.now first.now more.now)) }
    ensures faults { OnOk result (faults.new ≡ faults.old ++ action_faults scope.now (a.Output channel.now first.now more.now)) }
{
    let tree = output(alloc, channel, first, more, scope, faults)?;
    output_form(alloc, tree)
}

/// What an input reports, and what it is.
fn receiving(
    alloc: Global,
    following: &Input,
    scope: &Scope,
    faults: &mut Items<Fault>,
) -> Result<Boxed<TypedForm>, AllocError>
    ensures form { IfOk result (λ form. form ≡ spec_action_form scope.now (a.Input following.now)) }
    ensures faults { OnOk result (faults.new ≡ faults.old ++ action_faults scope.now (a.Input following.now)) }
{
    let tree = input(alloc, following, scope, faults)?;
    input_form(alloc, tree)
}
