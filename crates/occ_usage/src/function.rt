//! The function rule, in a walk of its own: writes of what is outside, and effects, in the body of each FUNCTION.
//! `docs/LANGUAGE.md, The function rule`.
#![tactic(auto, using(crate::proofs::Trees::first_tree))]

ghost use Rattle.std.specs.Prelude.{◌≡◌, ◌≤◌, ◌++◌, IfOk, OnOk, length, take};
ghost use Rattle.occ_base.specs.Errors.{error_if};
ghost use Rattle.occ_base.specs.declared.code.Code.TheVariants.{F1};
ghost use Rattle.occ_usage.specs.Effect.{inner as spec_inner};
ghost use Rattle.occ_usage.specs.FunctionRule.{counted as spec_counted, faults as spec_faults, function_faults as spec_function_faults, has_function as spec_has_function, is_function as spec_is_function, line_faults as spec_line_faults, one_line_faults as spec_one_line_faults, side_effect_faults as spec_side_effect_faults, whole_faults as spec_whole_faults, within_under as spec_within_under, write_fault as spec_write_fault, write_faults as spec_write_faults};
ghost use Rattle.occ_usage.specs.Lines.{after_line};
ghost use Rattle.occ_usage.specs.Trees.{head_of, trees_of, under as spec_under};

use super::finding::Finding;
use super::walk::{go_over, known_replicator};
use occ_alias::{UsageScope, each_effect, each_uses, enter_all, form_effect, form_uses};
use occ_base::{Code, Diag, Items, Shared};
use occ_project::Location;
use occ_scope::ScopeEntry;
use occ_typing::{Typed, TypedForm, TypedLine};
use occ_typing_rules::TypedExpr;
use occ_usage_conflicts::root_name;
use occ_usage_values::{Bound, Use, is_write};
use std::alloc::{AllocError, Global};

/// Where a line stands.
#[derive(Clone, Copy)]
pub enum Within {
    /// In no FUNCTION.
    Nothing,
    /// In the body of a FUNCTION round which so many specifications stand, and whether it is ever executed there.
    Function(usize, bool),
}

/// What is reported of a use in a FUNCTION round which so many specifications stand.
fn write_fault(
    alloc: Global,
    number: usize,
    found: &Use,
    env: &[Bound],
    faults: &mut Items<Diag>,
) -> Result<(), AllocError>
    ensures { OnOk result (faults.new ≡ faults.old ++ spec_write_fault number env.now found.now) }
{
    if !(is_write(found.kind) && found.part.root < number) {
        return Ok(());
    }
    let name = root_name(alloc, env, found.part.root)?;
    faults.push(Diag::error(*found.line.file.get(), found.line.line, Code::F1, name))
}

fn write_faults(
    alloc: Global,
    number: usize,
    uses: &[Use],
    env: &[Bound],
    faults: &mut Items<Diag>,
) -> Result<(), AllocError>
    ensures { OnOk result (faults.new ≡ faults.old ++ spec_write_faults number env.now uses.now) }
{
    for found in uses {
        write_fault(alloc, number, found, env, faults)?;
    }
    Ok(())
}

/// What is reported of a line that perhaps has an effect.
fn effect_fault(
    has_effect: bool,
    line: &Location,
    faults: &mut Items<Diag>,
) -> Result<(), AllocError>
    ensures { OnOk result (faults.new ≡ faults.old ++ error_if has_effect line.now.file line.now.line F1) }
{
    if has_effect {
        faults.push(Diag::error(*line.file.get(), line.line, Code::F1, None))
    } else {
        Ok(())
    }
}

/// What is reported of a line of a FUNCTION.
fn line_faults(
    alloc: Global,
    line: &TypedLine,
    within: Within,
    env: &[Bound],
    faults: &mut Items<Diag>,
) -> Result<(), AllocError>
    ensures { OnOk result (faults.new ≡ faults.old ++ spec_line_faults within (head_of line.now) env.now) }
{
    let Within::Function(number, is_live) = within else {
        return Ok(());
    };
    effect_fault(form_effect(line.form.get(), env), &line.place, faults)?;
    if !is_live {
        return Ok(());
    }
    let mut uses = Items::new(alloc);
    form_uses(alloc, line.form.get(), env, &line.place, &mut uses)?;
    write_faults(alloc, number, uses.as_slice(), env, faults)
}

/// What is reported of the results of a FUNCTION of one line.
fn side_effect_faults(
    alloc: Global,
    formals: &[ScopeEntry],
    results: &[Shared<TypedExpr>],
    line: &Location,
    env: &mut UsageScope,
    faults: &mut Items<Diag>,
) -> Result<(), AllocError>
    ensures faults { OnOk result (faults.new ≡ faults.old ++ spec_side_effect_faults formals.now results.now env.old line.now) }
    ensures env { OnOk result (env.new ≡ env.old) }
{
    let depth = env.len();
    enter_all(alloc, formals, env)?;
    effect_fault(each_effect(results, env.as_slice()), line, faults)?;
    let mut uses = Items::new(alloc);
    each_uses(alloc, results, env.as_slice(), line, &mut uses)?;
    write_faults(alloc, depth, uses.as_slice(), env.as_slice(), faults)?;
    env.cut(depth);
    Ok(())
}

/// What is reported of a line, if it is a FUNCTION of one line.
fn one_line_faults(
    alloc: Global,
    line: &TypedLine,
    env: &mut UsageScope,
    faults: &mut Items<Diag>,
) -> Result<(), AllocError>
    ensures faults { OnOk result (faults.new ≡ faults.old ++ spec_one_line_faults (head_of line.now).form env.old (head_of line.now).place) }
    ensures env { OnOk result (env.new ≡ env.old) }
{
    match line.form.get() {
        TypedForm::OneLineFunction(formals, results) => side_effect_faults(
            alloc,
            formals.as_slice(),
            results.as_slice(),
            &line.place,
            env,
            faults,
        ),
        _ => Ok(()),
    }
}

/// Under a replicator of so many rounds.
fn counted(count: u32, within: Within) -> Within
    ensures { result ≡ spec_counted count within }
{
    match within {
        Within::Function(number, is_live) => Within::Function(number, is_live && count != 0),
        Within::Nothing => Within::Nothing,
    }
}

/// Where the lines under a line stand that has so many specifications round it.
fn within_under(form: &TypedForm, depth: usize, within: Within) -> Within
    ensures { result ≡ spec_within_under form.now depth within }
{
    match form {
        TypedForm::FunctionHead => Within::Function(depth, true),
        TypedForm::ProcedureHead => Within::Nothing,
        TypedForm::Block(_, _) => match known_replicator(form) {
            Some(known) => counted(known.count, within),
            None => within,
        },
        _ => within,
    }
}

/// Goes after a line: so many specifications stand round its item.
pub(crate) fn go_after(
    alloc: Global,
    line: &TypedLine,
    depth: usize,
    env: &mut UsageScope,
) -> Result<(), AllocError>
    ensures { OnOk result (depth ≤ length env.old → env.new ≡ after_line (take depth env.old) env.old (head_of line.now) (spec_under line.now)) }
{
    if line.adds.is_none() {
        env.cut(depth);
        return Ok(());
    }
    let mut reported = Finding::nothing(alloc);
    go_over(alloc, line, depth, env, &mut reported)
}

/// What is reported of the lines under a line.
#[cycle(function)]
fn under_faults(
    alloc: Global,
    line: &TypedLine,
    within: Within,
    env: &mut UsageScope,
    faults: &mut Items<Diag>,
) -> Result<(), AllocError>
    ensures faults { OnOk result (faults.new ≡ faults.old ++ spec_faults within (spec_under line.now) (spec_inner env.old (head_of line.now)) (spec_inner env.old (head_of line.now))) }
    ensures env { OnOk result (env.new ≡ env.old) }
{
    let depth = env.len();
    enter_all(alloc, line.enters.as_slice(), env)?;
    lines(alloc, line.under.as_slice(), within, env, faults)?;
    env.cut(depth);
    Ok(())
}

/// What is reported of a line with those under it, and what stands in scope after it.
#[cycle(function)]
fn line(
    alloc: Global,
    line: &TypedLine,
    depth: usize,
    within: Within,
    env: &mut UsageScope,
    faults: &mut Items<Diag>,
) -> Result<(), AllocError>
    ensures faults { OnOk result (faults.new ≡ faults.old ++ spec_whole_faults within (head_of line.now) (spec_under line.now) env.old) }
    ensures env { OnOk result (depth ≤ length env.old → env.new ≡ after_line (take depth env.old) env.old (head_of line.now) (spec_under line.now)) }
{
    line_faults(alloc, line, within, env.as_slice(), faults)?;
    one_line_faults(alloc, line, env, faults)?;
    let inner = within_under(line.form.get(), env.len(), within);
    under_faults(alloc, line, inner, env, faults)?;
    go_after(alloc, line, depth, env)
}

#[cycle(function)]
fn lines(
    alloc: Global,
    lines: &[TypedLine],
    within: Within,
    env: &mut UsageScope,
    faults: &mut Items<Diag>,
) -> Result<(), AllocError>
    ensures faults { OnOk result (faults.new ≡ faults.old ++ spec_faults within (trees_of lines.now) env.old env.old) }
    ensures env { OnOk result (env.new ≡ env.old) }
{
    let depth = env.len();
    for one in lines {
        line(alloc, one, depth, within, env, faults)?;
    }
    env.cut(depth);
    Ok(())
}

fn is_function(form: &TypedForm) -> bool
    ensures { result ≡ spec_is_function form.now }
{
    matches!(
        form,
        TypedForm::FunctionHead | TypedForm::OneLineFunction(_, _)
    )
}

/// Whether a FUNCTION is specified at one of the lines, or under it.
#[cycle(search)]
fn has_function(lines: &[TypedLine]) -> bool
    ensures { result ≡ spec_has_function (trees_of lines.now) }
{
    for line in lines {
        if is_function(line.form.get()) || has_function(line.under.as_slice()) {
            return true;
        }
    }
    false
}

/// What the function rule reports of a unit, in no order, some perhaps more than once.
pub fn function_faults(alloc: Global, typed: &Typed) -> Result<Items<Diag>, AllocError>
    ensures { IfOk result (λ faults. faults ≡ spec_function_faults typed.now.lines) }
{
    let mut env = UsageScope::new(alloc);
    let mut faults = Items::new(alloc);
    if !has_function(typed.lines.as_slice()) {
        return Ok(faults);
    }
    lines(
        alloc,
        typed.lines.as_slice(),
        Within::Nothing,
        &mut env,
        &mut faults,
    )?;
    Ok(faults)
}
