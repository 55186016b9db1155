//! Of an error and a check that differ in nothing else the error alone.
ghost use Rattle.std.specs.Prelude.{◌≡◌, ◌++◌, IfOk, OnOk};
ghost use Rattle.occ_alias.specs.Grades.{all_unless_reported, checks_of, graded_as as spec_graded_as, graver as spec_graver, with_errors};
ghost use Rattle.occ_alias.specs.Repeated.{run_diags};

use super::reported::{Reported, Run};
use occ_base::{Diag, Grade, Items};
use std::alloc::{AllocError, Global};
use std::collections::BTreeSet;

/// The same diagnostic, with this grade.
fn graded_as(grade: Grade, diag: Diag) -> Diag
    ensures { result ≡ spec_graded_as grade diag }
{
    Diag {
        file: diag.file,
        line: diag.line,
        code: diag.code,
        grade,
        name: diag.name,
    }
}

/// Puts an error to the errors, and a check to the checks, so often as it comes in a row.
#[tactic(auto, using(crate::proofs::Repeating::errors_repeated, crate::proofs::Repeating::checks_repeated))]
fn divide(run: Run, errors: &mut BTreeSet<Diag>, checks: &mut Reported) -> Result<(), AllocError>
    ensures errors { OnOk result (errors.new.keys ≡ with_errors errors.old.keys (run_diags run)) }
    ensures checks { OnOk result (checks.new ≡ checks.old ++ checks_of (run_diags run)) }
{
    match run.diag.grade {
        Grade::Check => checks.push_run(run),
        Grade::Error => {
            errors.insert(run.diag)?;
            Ok(())
        }
    }
}

/// Puts the errors to the errors, and the checks to the checks, from the last on.
fn divide_all(
    mut found: Reported,
    errors: &mut BTreeSet<Diag>,
    checks: &mut Reported,
) -> Result<(), AllocError>
    ensures errors { OnOk result (errors.new.keys ≡ with_errors errors.old.keys found) }
    ensures checks { OnOk result (checks.new ≡ checks.old ++ checks_of found) }
{
    while let Some(run) = found.pop() {
        divide(run, errors, checks)?;
    }
    Ok(())
}

/// Keeps a check that is not reported as an error too, so often as it comes in a row.
#[tactic(auto, using(crate::proofs::Repeating::kept_repeated))]
fn keep(
    alloc: Global,
    errors: &BTreeSet<Diag>,
    check: Run,
    kept: &mut Items<Diag>,
) -> Result<(), AllocError>
    ensures { OnOk result (kept.new ≡ kept.old ++ all_unless_reported errors.now.keys (run_diags check)) }
{
    let Run { diag, more } = check;
    let raised = graded_as(Grade::Error, diag);
    if errors.contains(&raised) {
        return Ok(());
    }
    let diag = graded_as(Grade::Check, raised);
    Run { diag, more }.add_to(alloc, kept)
}

/// Keeps the checks that are not reported as errors too, from the last on.
fn keep_all(
    alloc: Global,
    errors: &BTreeSet<Diag>,
    mut checks: Reported,
    kept: &mut Items<Diag>,
) -> Result<(), AllocError>
    ensures { OnOk result (kept.new ≡ kept.old ++ all_unless_reported errors.now.keys checks) }
{
    while let Some(check) = checks.pop() {
        keep(alloc, errors, check, kept)?;
    }
    Ok(())
}

/// Of an error and a check that are reported with one code at one line with one name the error alone; the errors each once.
pub fn graver(alloc: Global, found: Reported) -> Result<Items<Diag>, AllocError>
    ensures { IfOk result (λ diags. diags ≡ spec_graver found) }
{
    let mut errors = BTreeSet::new(alloc);
    let mut checks = Reported::nothing(alloc);
    divide_all(found, &mut errors, &mut checks)?;
    let mut kept = Items::new(alloc);
    keep_all(alloc, &errors, checks, &mut kept)?;
    let errors = errors.into_iter().collect(alloc)?;
    kept.append(Items::from_vec(errors))?;
    Ok(kept)
}
