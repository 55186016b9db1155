//! The abbreviation rule at one line, over its uses and calls.
ghost use Rattle.std.specs.Prelude.{◌≡◌, ◌++◌, OnOk};
ghost use Rattle.occ_alias.specs.AbbreviationRule.{evaluated_faults as spec_evaluated_faults, results_faults as spec_results_faults, reported_with};
ghost use Rattle.occ_alias.specs.LineCalls.{each_calls as spec_each_calls, form_calls as spec_form_calls};
ghost use Rattle.occ_usage_lines.specs.Forms.{each_uses as spec_each_uses};

use super::calling::calls_faults;
use super::line_calls::{each_calls, form_calls};
use super::reported::Reported;
use super::scope::scope_faults;
use occ_base::{Items, Shared};
use occ_project::Location;
use occ_scope::ScopeEntry;
use occ_typing_rules::TypedExpr;
use occ_usage_lines::{TypedForm, UsageScope, each_uses, enter_all};
use occ_usage_values::{Call, Use};
use std::alloc::{AllocError, Global};

/// What is reported of these uses and calls at a line.
#[inline(always)]
fn evaluated_faults(
    alloc: Global,
    line: &Location,
    env: &UsageScope,
    uses: &[Use],
    calls: &[Call<'_>],
    faults: &mut Reported,
) -> Result<(), AllocError>
    ensures { OnOk result (faults.new ≡ faults.old ++ spec_evaluated_faults line.now env.now uses.now calls.now) }
{
    scope_faults(alloc, env, uses, faults)?;
    calls_faults(alloc, line, env.as_slice(), calls, faults)
}

/// What is reported of values that are evaluated at a line.
fn values_faults(
    alloc: Global,
    values: &[Shared<TypedExpr>],
    line: &Location,
    env: &UsageScope,
    faults: &mut Reported,
) -> Result<(), AllocError>
    ensures { OnOk result (faults.new ≡ faults.old ++ spec_evaluated_faults line.now env.now (spec_each_uses values.now env.now line.now) (spec_each_calls values.now env.now line.now)) }
{
    let mut uses = Items::new(alloc);
    each_uses(alloc, values, env.as_slice(), line, &mut uses)?;
    let mut calls = Items::new(alloc);
    each_calls(alloc, values, env.as_slice(), line, &mut calls)?;
    evaluated_faults(alloc, line, env, uses.as_slice(), calls.as_slice(), faults)
}

/// What is reported of the results of a FUNCTION of one line.
fn results_faults(
    alloc: Global,
    formals: &[ScopeEntry],
    results: &[Shared<TypedExpr>],
    line: &Location,
    env: &mut UsageScope,
    faults: &mut Reported,
) -> Result<(), AllocError>
    ensures faults { OnOk result (faults.new ≡ faults.old ++ spec_results_faults formals.now results.now env.old line.now) }
    ensures env { OnOk result (env.new ≡ env.old) }
{
    let depth = env.len();
    enter_all(alloc, formals, env)?;
    values_faults(alloc, results, line, env, faults)?;
    env.cut(depth);
    Ok(())
}

/// What is reported of a line that uses these itself, without those under it.
fn form_faults(
    alloc: Global,
    form: &TypedForm,
    line: &Location,
    uses: &[Use],
    env: &UsageScope,
    faults: &mut Reported,
) -> Result<(), AllocError>
    ensures { OnOk result (faults.new ≡ faults.old ++ spec_evaluated_faults line.now env.now uses.now (spec_form_calls form.now env.now line.now)) }
{
    let mut calls = Items::new(alloc);
    form_calls(alloc, form, env.as_slice(), line, &mut calls)?;
    evaluated_faults(alloc, line, env, uses, calls.as_slice(), faults)
}

/// What the abbreviation rule reports of a line that uses these itself, without those under it, with both grades.
pub fn line_faults(
    alloc: Global,
    form: &TypedForm,
    line: &Location,
    uses: &[Use],
    env: &mut UsageScope,
    faults: &mut Reported,
) -> Result<(), AllocError>
    ensures faults { OnOk result (faults.new ≡ faults.old ++ reported_with form.now env.old line.now uses.now) }
    ensures env { OnOk result (env.new ≡ env.old) }
{
    match form {
        TypedForm::OneLineFunction(formals, results) => results_faults(
            alloc,
            formals.as_slice(),
            results.as_slice(),
            line,
            env,
            faults,
        ),
        _ => form_faults(alloc, form, line, uses, env, faults),
    }
}
