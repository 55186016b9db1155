//! Whether what a line uses, calls or specifies may depend on the value of a specification.
ghost use Rattle.std.specs.Prelude.{◌≡◌};
ghost use Rattle.occ_usage_lines.specs.Naming.{elements_depend as spec_elements_depend, form_depends as spec_form_depends, guard_depends as spec_guard_depends, input_depends as spec_input_depends, output_depends as spec_output_depends, outputs_depend as spec_outputs_depend, replicator_depends as spec_replicator_depends, target_depends as spec_target_depends, targets_depend as spec_targets_depend};

use occ_typing_lines::{TypedForm, TypedGuard};
use occ_typing_rules::TypedElement;
use occ_typing_statements::{TypedInput, TypedOutput, TypedReplicator, TypedTarget};
use occ_usage_values::{
    actuals_depend, element_depends, element_names, expression_depends, expression_names,
    expressions_depend,
};

/// Whether one of the elements depends on the specification with this number.
fn elements_depend(elements: &[TypedElement], number: usize) -> bool
    ensures { result ≡ spec_elements_depend number elements.now }
{
    for element in elements {
        if element_depends(element, number) {
            return true;
        }
    }
    false
}

/// Whether a target depends on the specification with this number.
fn target_depends(target: &TypedTarget, number: usize) -> bool
    ensures { result ≡ spec_target_depends number target.now }
{
    match target {
        TypedTarget::Single(element) => element_depends(element, number),
        TypedTarget::Counted(count, element) => {
            element_depends(count, number) || element_depends(element, number)
        }
    }
}

/// Whether one of the targets depends on the specification with this number.
fn targets_depend(targets: &[TypedTarget], number: usize) -> bool
    ensures { result ≡ spec_targets_depend number targets.now }
{
    for target in targets {
        if target_depends(target, number) {
            return true;
        }
    }
    false
}

/// Whether what is output depends on the specification with this number.
fn output_depends(output: &TypedOutput, number: usize) -> bool
    ensures { result ≡ spec_output_depends number output.now }
{
    match output {
        TypedOutput::Value(expr) => expression_depends(expr.get(), number),
        TypedOutput::Counted(count, expr) => {
            expression_depends(count.get(), number) || expression_depends(expr.get(), number)
        }
        TypedOutput::Tag(_, _) => false,
    }
}

/// Whether one of the outputs depends on the specification with this number.
fn outputs_depend(outputs: &[TypedOutput], number: usize) -> bool
    ensures { result ≡ spec_outputs_depend number outputs.now }
{
    for output in outputs {
        if output_depends(output, number) {
            return true;
        }
    }
    false
}

/// Whether an input depends on the specification with this number.
fn input_depends(input: &TypedInput, number: usize) -> bool
    ensures { result ≡ spec_input_depends number input.now }
{
    match input {
        TypedInput::Plain(element, to) => {
            element_depends(element, number) || targets_depend(to.as_slice(), number)
        }
        TypedInput::Time(element, to) => element_depends(element, number)
            || element_depends(to.get(), number),
        TypedInput::After(element, expr) => {
            element_depends(element, number) || expression_depends(expr.get(), number)
        }
        TypedInput::Tagged(element, _, _, to) => {
            element_depends(element.get(), number) || targets_depend(to.as_slice(), number)
        }
    }
}

/// Whether what stands after the `&` of a guard depends on the specification with this number.
fn guard_depends(guard: &TypedGuard, number: usize) -> bool
    ensures { result ≡ spec_guard_depends number guard.now }
{
    match guard {
        TypedGuard::Skip => false,
        TypedGuard::Input(input) => input_depends(input, number),
        TypedGuard::CaseInput(element) => element_depends(element, number),
    }
}

/// Whether the base or the count of a replicator depends on the specification with this number.
fn replicator_depends(replicator: &Option<TypedReplicator>, number: usize) -> bool
    ensures { result ≡ spec_replicator_depends number replicator.now }
{
    match replicator {
        Some(found) => {
            expression_depends(found.base.get(), number)
                || expression_depends(found.count.get(), number)
        }
        None => false,
    }
}

/// Whether a line depends on the specification with this number, without the lines under it.
pub fn form_depends(form: &TypedForm, number: usize) -> bool
    ensures { result ≡ spec_form_depends number form.now }
{
    match form {
        TypedForm::Abbreviation(element) => element_names(element, number),
        TypedForm::Retyped(element) => element_names(element, number),
        TypedForm::Value(expr) => expression_names(expr.get(), number),
        TypedForm::RetypedValue(expr) => expression_names(expr.get(), number),
        TypedForm::OneLineFunction(_, results) => expressions_depend(results.as_slice(), number),
        TypedForm::Assignment(to, values) => {
            expressions_depend(values.as_slice(), number) || elements_depend(to.as_slice(), number)
        }
        TypedForm::Output(element, outputs) => {
            element_depends(element, number) || outputs_depend(outputs.as_slice(), number)
        }
        TypedForm::Input(input) => input_depends(input, number),
        TypedForm::Instance(_, actuals) => actuals_depend(actuals.as_slice(), number),
        TypedForm::Block(_, replicator) => replicator_depends(replicator, number),
        TypedForm::While(expr) => expression_depends(expr.get(), number),
        TypedForm::Selection(expr) => expression_depends(expr.get(), number),
        TypedForm::CaseInput(element) => element_depends(element, number),
        TypedForm::Condition(expr) => expression_depends(expr.get(), number),
        TypedForm::Guard(expr, guard) => {
            expression_depends(expr.get(), number) || guard_depends(guard.get(), number)
        }
        TypedForm::Variant(_, _, to) => targets_depend(to.as_slice(), number),
        TypedForm::Results(values) => expressions_depend(values.as_slice(), number),
        _ => false,
    }
}
