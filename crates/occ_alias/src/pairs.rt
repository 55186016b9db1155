//! Two parts that are not apart, as an error or a check; and writes of what was read (A2, A3).
ghost use Rattle.std.specs.Prelude.{◌≡◌, ◌++◌, ◌∷◌, [], List, MatchOption, OnOk, Option, ℕ};
ghost use Rattle.occ_alias.specs.AbbreviationRule.{graded as spec_graded, pair_faults as spec_pair_faults, written_by as spec_written_by, written_fault as spec_written_fault, written_faults as spec_written_faults};
ghost use Rattle.occ_base.specs.declared.code.Code.{Code as ACode};
ghost use Rattle.occ_project.specs.declared.expanded.Location.{Location as ALocation};
ghost use Rattle.occ_usage_parts.specs.declared.part.Overlap.TheVariants as o;
ghost use Rattle.occ_usage_conflicts.specs.Kinds.{is_read as spec_is_read};
ghost use Rattle.occ_usage_conflicts.specs.ParallelRule.{root_name as spec_root_name};
ghost use Rattle.occ_usage_parts.specs.Parts.{overlap_of};
ghost use Rattle.occ_usage_parts.specs.Selecting.{part_of};

use super::reported::Reported;
use occ_base::{Code, Grade};
use occ_project::Location;
use occ_types::UseKind;
use occ_usage_conflicts::name_of_root;
use occ_usage_parts::{Overlap, Part, SelectedPart, overlap, overlap_selected};
use occ_usage_values::{Bound, Use, is_write};
use std::alloc::{AllocError, Global};

fn is_read(kind: UseKind) -> bool
    ensures { result ≡ spec_is_read kind }
{
    match kind {
        UseKind::Read => true,
        UseKind::Write => false,
        UseKind::Input => false,
        UseKind::Output => false,
    }
}

/// With which grade parts with this overlap are reported, if they are.
fn grade_of(found: Overlap) -> Option<Grade>
    ensures { MatchOption result (found ≡ o.Apart) (λ grade. (line : ALocation) (code : ACode) (name : Option (List ℕ)) → spec_graded line code name found ≡ record { file = line.file; line = line.line; code = code; grade = grade; name = name } ∷ []) }
{
    match found {
        Overlap::Apart => None,
        Overlap::May => Some(Grade::Check),
        Overlap::Must => Some(Grade::Error),
    }
}

/// What is reported of parts with this overlap, the first of which has this root.
fn overlap_faults(
    alloc: Global,
    line: &Location,
    code: Code,
    env: &[Bound],
    root: usize,
    found: Overlap,
    faults: &mut Reported,
) -> Result<(), AllocError>
    ensures { OnOk result (faults.new ≡ faults.old ++ spec_graded line.now code (spec_root_name env.now root) found) }
{
    match grade_of(found) {
        Some(grade) => faults.report(alloc, line, code, grade, name_of_root(env, root)),
        None => Ok(()),
    }
}

/// What is reported of two parts, if they are not apart.
pub(crate) fn pair_faults(
    alloc: Global,
    line: &Location,
    code: Code,
    env: &[Bound],
    one: &Part,
    other: &Part,
    faults: &mut Reported,
) -> Result<(), AllocError>
    ensures { OnOk result (faults.new ≡ faults.old ++ spec_pair_faults line.now code env.now one.now other.now) }
{
    overlap_faults(
        alloc,
        line,
        code,
        env,
        one.root,
        overlap(one, other),
        faults,
    )
}

/// What is reported of the part that is selected and another, if they are not apart.
pub(crate) fn selected_faults(
    alloc: Global,
    line: &Location,
    code: Code,
    env: &[Bound],
    one: &SelectedPart,
    other: &Part,
    faults: &mut Reported,
) -> Result<(), AllocError>
    ensures { OnOk result (faults.new ≡ faults.old ++ spec_pair_faults line.now code env.now (part_of one.now) other.now) }
{
    overlap_faults(
        alloc,
        line,
        code,
        env,
        one.root,
        overlap_selected(one, other),
        faults,
    )
}

/// What a part and the one that is selected have in common.
fn overlap_with_selected(one: &Part, other: &SelectedPart) -> Overlap
    ensures { result ≡ overlap_of one.now (part_of other.now) }
{
    overlap_selected(other, one)
}

/// What is reported of a part and the one that is selected, if they are not apart.
pub(crate) fn faults_with_selected(
    alloc: Global,
    line: &Location,
    code: Code,
    env: &[Bound],
    one: &Part,
    other: &SelectedPart,
    faults: &mut Reported,
) -> Result<(), AllocError>
    ensures { OnOk result (faults.new ≡ faults.old ++ spec_pair_faults line.now code env.now one.now (part_of other.now)) }
{
    overlap_faults(
        alloc,
        line,
        code,
        env,
        one.root,
        overlap_with_selected(one, other),
        faults,
    )
}

/// What is reported of a use, if it writes what another has read.
fn written_fault(
    alloc: Global,
    code: Code,
    env: &[Bound],
    found: &Use,
    read: &Use,
    faults: &mut Reported,
) -> Result<(), AllocError>
    ensures { OnOk result (faults.new ≡ faults.old ++ spec_written_fault code env.now found.now read.now) }
{
    if !(is_write(found.kind) && is_read(read.kind)) {
        return Ok(());
    }
    pair_faults(
        alloc,
        &found.line,
        code,
        env,
        &found.part,
        &read.part,
        faults,
    )
}

/// What is reported of a use, if it writes what some of these have read.
fn written_by(
    alloc: Global,
    code: Code,
    env: &[Bound],
    found: &Use,
    reads: &[Use],
    faults: &mut Reported,
) -> Result<(), AllocError>
    ensures { OnOk result (faults.new ≡ faults.old ++ spec_written_by code env.now found.now reads.now) }
{
    for read in reads {
        written_fault(alloc, code, env, found, read, faults)?;
    }
    Ok(())
}

/// What is reported of uses that write what some of these have read.
pub(crate) fn written_faults(
    alloc: Global,
    code: Code,
    env: &[Bound],
    uses: &[Use],
    reads: &[Use],
    faults: &mut Reported,
) -> Result<(), AllocError>
    ensures { OnOk result (faults.new ≡ faults.old ++ spec_written_faults code env.now uses.now reads.now) }
{
    for found in uses {
        written_by(alloc, code, env, found, reads, faults)?;
    }
    Ok(())
}
