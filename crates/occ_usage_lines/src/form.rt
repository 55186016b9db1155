//! The uses of a line, form by form, without those of the lines under it. `docs/LANGUAGE.md, Uses`.
ghost use Rattle.std.specs.Prelude.{◌≡◌, ◌++◌, OnOk};
ghost use Rattle.occ_usage_values.specs.Views.{element_view, expr_view};
ghost use Rattle.occ_usage_lines.specs.Forms.{each_uses as spec_each_uses, form_uses as spec_form_uses, guard_uses as spec_guard_uses, input_uses as spec_input_uses, output_uses as spec_output_uses, outputs_uses as spec_outputs_uses, replicator_uses as spec_replicator_uses, target_uses as spec_target_uses, targets_uses as spec_targets_uses, used as spec_used, written as spec_written};

use occ_base::{Items, Shared};
use occ_project::Location;
use occ_types::UseKind;
use occ_typing_lines::{TypedForm, TypedGuard};
use occ_typing_rules::{TypedElement, TypedExpr};
use occ_typing_statements::{TypedInput, TypedOutput, TypedReplicator, TypedTarget};
use occ_usage_values::{Bound, Use, element_uses, expression_uses, instance_uses, use_of};
use std::alloc::{AllocError, Global};

/// A use of an element, with those of its subscripts and bounds.
pub fn used(
    alloc: Global,
    kind: UseKind,
    element: &TypedElement,
    env: &[Bound],
    line: &Location,
    uses: &mut Items<Use>,
) -> Result<(), AllocError>
    ensures { OnOk result (uses.new ≡ uses.old ++ spec_used kind element.now env.now line.now) }
{
    element_uses(alloc, element, env, line, uses)?;
    use_of(alloc, kind, element, env, line, uses)
}

/// The uses of expressions that are evaluated.
pub fn each_uses(
    alloc: Global,
    exprs: &[Shared<TypedExpr>],
    env: &[Bound],
    line: &Location,
    uses: &mut Items<Use>,
) -> Result<(), AllocError>
    ensures { OnOk result (uses.new ≡ uses.old ++ spec_each_uses exprs.now env.now line.now) }
{
    for expr in exprs {
        expression_uses(alloc, expr.get(), env, line, uses)?;
    }
    Ok(())
}

/// The uses of elements that are written.
#[inline(always)]
fn written(
    alloc: Global,
    elements: &[TypedElement],
    env: &[Bound],
    line: &Location,
    uses: &mut Items<Use>,
) -> Result<(), AllocError>
    ensures { OnOk result (uses.new ≡ uses.old ++ spec_written elements.now env.now line.now) }
{
    for element in elements {
        used(alloc, UseKind::Write, element, env, line, uses)?;
    }
    Ok(())
}

/// The uses of a target of an input.
fn target(
    alloc: Global,
    target: &TypedTarget,
    env: &[Bound],
    line: &Location,
    uses: &mut Items<Use>,
) -> Result<(), AllocError>
    ensures { OnOk result (uses.new ≡ uses.old ++ spec_target_uses target.now env.now line.now) }
{
    match target {
        TypedTarget::Single(element) => used(alloc, UseKind::Write, element, env, line, uses),
        TypedTarget::Counted(count, element) => {
            used(alloc, UseKind::Write, count, env, line, uses)?;
            used(alloc, UseKind::Write, element, env, line, uses)
        }
    }
}

/// The uses of the targets of an input.
fn targets(
    alloc: Global,
    targets: &[TypedTarget],
    env: &[Bound],
    line: &Location,
    uses: &mut Items<Use>,
) -> Result<(), AllocError>
    ensures { OnOk result (uses.new ≡ uses.old ++ spec_targets_uses targets.now env.now line.now) }
{
    for one in targets {
        target(alloc, one, env, line, uses)?;
    }
    Ok(())
}

/// The uses of what an output sends as one.
fn output(
    alloc: Global,
    output: &TypedOutput,
    env: &[Bound],
    line: &Location,
    uses: &mut Items<Use>,
) -> Result<(), AllocError>
    ensures { OnOk result (uses.new ≡ uses.old ++ spec_output_uses output.now env.now line.now) }
{
    match output {
        TypedOutput::Value(expr) => expression_uses(alloc, expr.get(), env, line, uses),
        TypedOutput::Counted(count, expr) => {
            expression_uses(alloc, count.get(), env, line, uses)?;
            expression_uses(alloc, expr.get(), env, line, uses)
        }
        TypedOutput::Tag(_, _) => Ok(()),
    }
}

/// The uses of what an output sends.
fn outputs(
    alloc: Global,
    outputs: &[TypedOutput],
    env: &[Bound],
    line: &Location,
    uses: &mut Items<Use>,
) -> Result<(), AllocError>
    ensures { OnOk result (uses.new ≡ uses.old ++ spec_outputs_uses outputs.now env.now line.now) }
{
    for one in outputs {
        output(alloc, one, env, line, uses)?;
    }
    Ok(())
}

/// The uses of an input.
fn input(
    alloc: Global,
    input: &TypedInput,
    env: &[Bound],
    line: &Location,
    uses: &mut Items<Use>,
) -> Result<(), AllocError>
    ensures { OnOk result (uses.new ≡ uses.old ++ spec_input_uses input.now env.now line.now) }
{
    match input {
        TypedInput::Plain(channel, to) => {
            used(alloc, UseKind::Input, channel, env, line, uses)?;
            targets(alloc, to.as_slice(), env, line, uses)
        }
        TypedInput::Time(timer, to) => {
            used(alloc, UseKind::Input, timer, env, line, uses)?;
            used(alloc, UseKind::Write, to.get(), env, line, uses)
        }
        TypedInput::After(timer, time) => {
            used(alloc, UseKind::Input, timer, env, line, uses)?;
            expression_uses(alloc, time.get(), env, line, uses)
        }
        TypedInput::Tagged(channel, _, _, to) => {
            used(alloc, UseKind::Input, channel.get(), env, line, uses)?;
            targets(alloc, to.as_slice(), env, line, uses)
        }
    }
}

/// The uses of what stands after the `&` of a guard.
fn guard(
    alloc: Global,
    guard: &TypedGuard,
    env: &[Bound],
    line: &Location,
    uses: &mut Items<Use>,
) -> Result<(), AllocError>
    ensures { OnOk result (uses.new ≡ uses.old ++ spec_guard_uses guard.now env.now line.now) }
{
    match guard {
        TypedGuard::Skip => Ok(()),
        TypedGuard::Input(found) => input(alloc, found, env, line, uses),
        TypedGuard::CaseInput(channel) => used(alloc, UseKind::Input, channel, env, line, uses),
    }
}

/// The uses of the base and the count of a replicator.
fn replicator(
    alloc: Global,
    replicator: &Option<TypedReplicator>,
    env: &[Bound],
    line: &Location,
    uses: &mut Items<Use>,
) -> Result<(), AllocError>
    ensures { OnOk result (uses.new ≡ uses.old ++ spec_replicator_uses replicator.now env.now line.now) }
{
    match replicator {
        Some(found) => {
            expression_uses(alloc, found.base.get(), env, line, uses)?;
            expression_uses(alloc, found.count.get(), env, line, uses)
        }
        None => Ok(()),
    }
}

/// The uses of a line, without those of the lines under it.
#[inline(always)]
pub fn form_uses(
    alloc: Global,
    form: &TypedForm,
    env: &[Bound],
    line: &Location,
    uses: &mut Items<Use>,
) -> Result<(), AllocError>
    ensures { OnOk result (uses.new ≡ uses.old ++ spec_form_uses form.now env.now line.now) }
{
    match form {
        TypedForm::Abbreviation(element) => element_uses(alloc, element, env, line, uses),
        TypedForm::Retyped(element) => element_uses(alloc, element, env, line, uses),
        TypedForm::Value(expr) => expression_uses(alloc, expr.get(), env, line, uses),
        TypedForm::RetypedValue(expr) => expression_uses(alloc, expr.get(), env, line, uses),
        TypedForm::Assignment(to, values) => {
            each_uses(alloc, values.as_slice(), env, line, uses)?;
            written(alloc, to.as_slice(), env, line, uses)
        }
        TypedForm::Output(channel, sent) => {
            used(alloc, UseKind::Output, channel, env, line, uses)?;
            outputs(alloc, sent.as_slice(), env, line, uses)
        }
        TypedForm::Input(found) => input(alloc, found, env, line, uses),
        TypedForm::Instance(callee, actuals) => {
            instance_uses(alloc, callee.spec, actuals.as_slice(), env, line, uses)
        }
        TypedForm::Block(_, found) => replicator(alloc, found, env, line, uses),
        TypedForm::While(expr) => expression_uses(alloc, expr.get(), env, line, uses),
        TypedForm::Selection(expr) => expression_uses(alloc, expr.get(), env, line, uses),
        TypedForm::CaseInput(channel) => used(alloc, UseKind::Input, channel, env, line, uses),
        TypedForm::Condition(expr) => expression_uses(alloc, expr.get(), env, line, uses),
        TypedForm::Guard(expr, found) => {
            expression_uses(alloc, expr.get(), env, line, uses)?;
            guard(alloc, found.get(), env, line, uses)
        }
        TypedForm::Variant(_, _, to) => targets(alloc, to.as_slice(), env, line, uses),
        TypedForm::Results(values) => each_uses(alloc, values.as_slice(), env, line, uses),
        _ => Ok(()),
    }
}
