//! The calls that are evaluated at a line, form by form.
ghost use Rattle.std.specs.Prelude.{◌≡◌, ◌++◌, OnOk};
ghost use Rattle.occ_alias.specs.LineCalls.{each_calls as spec_each_calls, elements_calls as spec_elements_calls, form_calls as spec_form_calls, guard_calls as spec_guard_calls, input_calls as spec_input_calls, output_calls as spec_output_calls, outputs_calls as spec_outputs_calls, replicator_calls as spec_replicator_calls, target_calls as spec_target_calls, targets_calls as spec_targets_calls};

use occ_base::{Items, Shared};
use occ_project::Location;
use occ_typing_rules::{TypedElement, TypedExpr};
use occ_typing_statements::{TypedInput, TypedOutput, TypedReplicator, TypedTarget};
use occ_usage_lines::{TypedForm, TypedGuard};
use occ_usage_values::{Bound, Call, element_calls, expression_calls, instance_calls};
use std::alloc::{AllocError, Global};

/// The calls in expressions that are evaluated.
pub fn each_calls<'a>(
    alloc: Global,
    exprs: &'a [Shared<TypedExpr>],
    env: &'a [Bound],
    line: &'a Location,
    calls: &mut Items<Call<'a>>,
) -> Result<(), AllocError>
    ensures { OnOk result (calls.new ≡ calls.old ++ spec_each_calls exprs.now env.now line.now) }
{
    for expr in exprs {
        expression_calls(alloc, expr.get(), env, line, calls)?;
    }
    Ok(())
}

/// The calls in elements that are written.
fn elements_calls<'a>(
    alloc: Global,
    elements: &'a [TypedElement],
    env: &'a [Bound],
    line: &'a Location,
    calls: &mut Items<Call<'a>>,
) -> Result<(), AllocError>
    ensures { OnOk result (calls.new ≡ calls.old ++ spec_elements_calls elements.now env.now line.now) }
{
    for element in elements {
        element_calls(alloc, element, env, line, calls)?;
    }
    Ok(())
}

/// The calls in a target of an input.
fn target_calls<'a>(
    alloc: Global,
    target: &'a TypedTarget,
    env: &'a [Bound],
    line: &'a Location,
    calls: &mut Items<Call<'a>>,
) -> Result<(), AllocError>
    ensures { OnOk result (calls.new ≡ calls.old ++ spec_target_calls target.now env.now line.now) }
{
    match target {
        TypedTarget::Single(element) => element_calls(alloc, element, env, line, calls),
        TypedTarget::Counted(count, element) => {
            element_calls(alloc, count, env, line, calls)?;
            element_calls(alloc, element, env, line, calls)
        }
    }
}

/// The calls in the targets of an input.
fn targets_calls<'a>(
    alloc: Global,
    targets: &'a [TypedTarget],
    env: &'a [Bound],
    line: &'a Location,
    calls: &mut Items<Call<'a>>,
) -> Result<(), AllocError>
    ensures { OnOk result (calls.new ≡ calls.old ++ spec_targets_calls targets.now env.now line.now) }
{
    for one in targets {
        target_calls(alloc, one, env, line, calls)?;
    }
    Ok(())
}

/// The calls in what an output sends as one.
fn output_calls<'a>(
    alloc: Global,
    output: &'a TypedOutput,
    env: &'a [Bound],
    line: &'a Location,
    calls: &mut Items<Call<'a>>,
) -> Result<(), AllocError>
    ensures { OnOk result (calls.new ≡ calls.old ++ spec_output_calls output.now env.now line.now) }
{
    match output {
        TypedOutput::Value(expr) => expression_calls(alloc, expr.get(), env, line, calls),
        TypedOutput::Counted(count, expr) => {
            expression_calls(alloc, count.get(), env, line, calls)?;
            expression_calls(alloc, expr.get(), env, line, calls)
        }
        TypedOutput::Tag(_, _) => Ok(()),
    }
}

/// The calls in what an output sends.
fn outputs_calls<'a>(
    alloc: Global,
    outputs: &'a [TypedOutput],
    env: &'a [Bound],
    line: &'a Location,
    calls: &mut Items<Call<'a>>,
) -> Result<(), AllocError>
    ensures { OnOk result (calls.new ≡ calls.old ++ spec_outputs_calls outputs.now env.now line.now) }
{
    for one in outputs {
        output_calls(alloc, one, env, line, calls)?;
    }
    Ok(())
}

/// The calls in an input.
fn input_calls<'a>(
    alloc: Global,
    input: &'a TypedInput,
    env: &'a [Bound],
    line: &'a Location,
    calls: &mut Items<Call<'a>>,
) -> Result<(), AllocError>
    ensures { OnOk result (calls.new ≡ calls.old ++ spec_input_calls input.now env.now line.now) }
{
    match input {
        TypedInput::Plain(channel, to) => {
            element_calls(alloc, channel, env, line, calls)?;
            targets_calls(alloc, to.as_slice(), env, line, calls)
        }
        TypedInput::Time(timer, to) => {
            element_calls(alloc, timer, env, line, calls)?;
            element_calls(alloc, to.get(), env, line, calls)
        }
        TypedInput::After(timer, time) => {
            element_calls(alloc, timer, env, line, calls)?;
            expression_calls(alloc, time.get(), env, line, calls)
        }
        TypedInput::Tagged(channel, _, _, to) => {
            element_calls(alloc, channel.get(), env, line, calls)?;
            targets_calls(alloc, to.as_slice(), env, line, calls)
        }
    }
}

/// The calls in what stands after the `&` of a guard.
fn guard_calls<'a>(
    alloc: Global,
    guard: &'a TypedGuard,
    env: &'a [Bound],
    line: &'a Location,
    calls: &mut Items<Call<'a>>,
) -> Result<(), AllocError>
    ensures { OnOk result (calls.new ≡ calls.old ++ spec_guard_calls guard.now env.now line.now) }
{
    match guard {
        TypedGuard::Skip => Ok(()),
        TypedGuard::Input(found) => input_calls(alloc, found, env, line, calls),
        TypedGuard::CaseInput(channel) => element_calls(alloc, channel, env, line, calls),
    }
}

/// The calls in the base and the count of a replicator.
fn replicator_calls<'a>(
    alloc: Global,
    replicator: &'a Option<TypedReplicator>,
    env: &'a [Bound],
    line: &'a Location,
    calls: &mut Items<Call<'a>>,
) -> Result<(), AllocError>
    ensures { OnOk result (calls.new ≡ calls.old ++ spec_replicator_calls replicator.now env.now line.now) }
{
    match replicator {
        Some(found) => {
            expression_calls(alloc, found.base.get(), env, line, calls)?;
            expression_calls(alloc, found.count.get(), env, line, calls)
        }
        None => Ok(()),
    }
}

/// The calls in a line, without those of the lines under it.
pub fn form_calls<'a>(
    alloc: Global,
    form: &'a TypedForm,
    env: &'a [Bound],
    line: &'a Location,
    calls: &mut Items<Call<'a>>,
) -> Result<(), AllocError>
    ensures { OnOk result (calls.new ≡ calls.old ++ spec_form_calls form.now env.now line.now) }
{
    match form {
        TypedForm::Abbreviation(element) => element_calls(alloc, element, env, line, calls),
        TypedForm::Retyped(element) => element_calls(alloc, element, env, line, calls),
        TypedForm::Value(expr) => expression_calls(alloc, expr.get(), env, line, calls),
        TypedForm::RetypedValue(expr) => expression_calls(alloc, expr.get(), env, line, calls),
        TypedForm::Assignment(to, values) => {
            each_calls(alloc, values.as_slice(), env, line, calls)?;
            elements_calls(alloc, to.as_slice(), env, line, calls)
        }
        TypedForm::Output(channel, sent) => {
            element_calls(alloc, channel, env, line, calls)?;
            outputs_calls(alloc, sent.as_slice(), env, line, calls)
        }
        TypedForm::Input(found) => input_calls(alloc, found, env, line, calls),
        TypedForm::Instance(callee, actuals) => {
            instance_calls(alloc, callee.spec, actuals.as_slice(), env, line, calls)
        }
        TypedForm::Block(_, found) => replicator_calls(alloc, found, env, line, calls),
        TypedForm::While(expr) => expression_calls(alloc, expr.get(), env, line, calls),
        TypedForm::Selection(expr) => expression_calls(alloc, expr.get(), env, line, calls),
        TypedForm::CaseInput(channel) => element_calls(alloc, channel, env, line, calls),
        TypedForm::Condition(expr) => expression_calls(alloc, expr.get(), env, line, calls),
        TypedForm::Guard(expr, found) => {
            expression_calls(alloc, expr.get(), env, line, calls)?;
            guard_calls(alloc, found.get(), env, line, calls)
        }
        TypedForm::Variant(_, _, to) => targets_calls(alloc, to.as_slice(), env, line, calls),
        TypedForm::Results(values) => each_calls(alloc, values.as_slice(), env, line, calls),
        _ => Ok(()),
    }
}
