//! Whether a line has an effect: it is an input, an output, a PAR or an ALT, or calls a body with one.
ghost use Rattle.std.specs.Prelude.{◌≡◌};
ghost use Rattle.occ_usage_lines.specs.Effects.{block_communicates, calls_effect as spec_calls_effect, communicates as spec_communicates, each_effect as spec_each_effect, elements_effect as spec_elements_effect, form_effect as spec_form_effect, guard_communicates, replicator_effect as spec_replicator_effect, target_effect as spec_target_effect, targets_effect as spec_targets_effect};

use occ_base::Shared;
use occ_typing_lines::{BlockKind, TypedForm, TypedGuard};
use occ_typing_rules::{TypedElement, TypedExpr};
use occ_typing_statements::{TypedReplicator, TypedTarget};
use occ_usage_values::{Bound, element_effect, expression_effect, instance_effect};

/// Whether one of the expressions calls a body with an input, an output, a PAR or an ALT.
pub fn each_effect(exprs: &[Shared<TypedExpr>], env: &[Bound]) -> bool
    ensures { result ≡ spec_each_effect exprs.now env.now }
{
    for expr in exprs {
        if expression_effect(expr.get(), env) {
            return true;
        }
    }
    false
}

/// Whether a subscript or a bound of one of the elements calls such a body.
fn elements_effect(elements: &[TypedElement], env: &[Bound]) -> bool
    ensures { result ≡ spec_elements_effect elements.now env.now }
{
    for element in elements {
        if element_effect(element, env) {
            return true;
        }
    }
    false
}

/// Whether a subscript or a bound of a target calls such a body.
fn target_effect(target: &TypedTarget, env: &[Bound]) -> bool
    ensures { result ≡ spec_target_effect target.now env.now }
{
    match target {
        TypedTarget::Single(element) => element_effect(element, env),
        TypedTarget::Counted(count, element) => {
            element_effect(count, env) || element_effect(element, env)
        }
    }
}

/// Whether a subscript or a bound of one of the targets calls such a body.
fn targets_effect(targets: &[TypedTarget], env: &[Bound]) -> bool
    ensures { result ≡ spec_targets_effect targets.now env.now }
{
    for target in targets {
        if target_effect(target, env) {
            return true;
        }
    }
    false
}

/// Whether the base or the count of a replicator calls such a body.
fn replicator_effect(replicator: &Option<TypedReplicator>, env: &[Bound]) -> bool
    ensures { result ≡ spec_replicator_effect replicator.now env.now }
{
    match replicator {
        Some(found) => {
            expression_effect(found.base.get(), env) || expression_effect(found.count.get(), env)
        }
        None => false,
    }
}

/// Whether a block is a PAR or an ALT.
fn is_communicating(block: BlockKind) -> bool
    ensures { result ≡ block_communicates block }
{
    match block {
        BlockKind::Sequence => false,
        BlockKind::Parallel => true,
        BlockKind::Conditional => false,
        BlockKind::Alternation => true,
    }
}

/// Whether a guard has an input.
fn is_input(guard: &TypedGuard) -> bool
    ensures { result ≡ guard_communicates guard.now }
{
    match guard {
        TypedGuard::Skip => false,
        TypedGuard::Input(_) => true,
        TypedGuard::CaseInput(_) => true,
    }
}

/// Whether a line is an input, an output, a PAR or an ALT.
fn communicates(form: &TypedForm) -> bool
    ensures { result ≡ spec_communicates form.now }
{
    match form {
        TypedForm::Output(_, _) => true,
        TypedForm::Input(_) => true,
        TypedForm::CaseInput(_) => true,
        TypedForm::Block(block, _) => is_communicating(*block),
        TypedForm::Guard(_, guard) => is_input(guard.get()),
        _ => false,
    }
}

/// Whether a line that is no input, output, PAR or ALT calls a body with one.
fn calls_effect(form: &TypedForm, env: &[Bound]) -> bool
    ensures { result ≡ spec_calls_effect form.now env.now }
{
    match form {
        TypedForm::Abbreviation(element) => element_effect(element, env),
        TypedForm::Retyped(element) => element_effect(element, env),
        TypedForm::Value(expr) => expression_effect(expr.get(), env),
        TypedForm::RetypedValue(expr) => expression_effect(expr.get(), env),
        TypedForm::Assignment(to, values) => {
            each_effect(values.as_slice(), env) || elements_effect(to.as_slice(), env)
        }
        TypedForm::Instance(callee, actuals) => {
            instance_effect(callee.spec, actuals.as_slice(), env)
        }
        TypedForm::Block(_, replicator) => replicator_effect(replicator, env),
        TypedForm::While(expr) => expression_effect(expr.get(), env),
        TypedForm::Selection(expr) => expression_effect(expr.get(), env),
        TypedForm::Condition(expr) => expression_effect(expr.get(), env),
        TypedForm::Guard(expr, _) => expression_effect(expr.get(), env),
        TypedForm::Variant(_, _, to) => targets_effect(to.as_slice(), env),
        TypedForm::Results(values) => each_effect(values.as_slice(), env),
        _ => false,
    }
}

/// Whether a line is an input, an output, a PAR or an ALT, or calls a body with one.
pub fn form_effect(form: &TypedForm, env: &[Bound]) -> bool
    ensures { result ≡ spec_form_effect form.now env.now }
{
    communicates(form) || calls_effect(form, env)
}
