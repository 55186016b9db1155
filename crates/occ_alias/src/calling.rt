//! A4: the actuals of a call against each other, against what its body uses, and what they read against its writes.
//! `docs/LANGUAGE.md, The abbreviation rule`.
ghost use Rattle.std.specs.Prelude.{◌≡◌, ◌++◌, [], IsFalse, List, OnOk};
ghost use Rattle.occ_alias.specs.AbbreviationRule.{actual_faults as spec_actual_faults, actuals_faults as spec_actuals_faults, call_faults as spec_call_faults, calls_faults as spec_calls_faults, free_fault as spec_free_fault, free_faults as spec_free_faults, place_pair as spec_place_pair, place_pairs as spec_place_pairs, written_faults as spec_written_faults};
ghost use Rattle.occ_base.specs.declared.code.Code.TheVariants as code;
ghost use Rattle.occ_project.specs.declared.expanded.Location.{Location as ALocation};
ghost use Rattle.occ_usage_parts.specs.declared.part.Part.{Part as APart};
ghost use Rattle.occ_usage_values.specs.declared.bound.Bound.{Bound as ABound};

use super::pairs::{faults_with_selected, pair_faults, written_faults};
use super::reported::Reported;
use occ_base::Code;
use occ_project::Location;
use occ_usage_parts::{Part, SelectedPart};
use occ_usage_values::{Bound, Call, Use, body_at};
use std::alloc::{AllocError, Global};

/// What is reported of an actual with this part and another one.
fn place_pair(
    alloc: Global,
    line: &Location,
    env: &[Bound],
    part: &Part,
    other: &Option<SelectedPart>,
    faults: &mut Reported,
) -> Result<(), AllocError>
    ensures { OnOk result (faults.new ≡ faults.old ++ spec_place_pair line.now env.now part.now other.now) }
{
    match other {
        Some(other) => faults_with_selected(alloc, line, Code::A4, env, part, other, faults),
        None => Ok(()),
    }
}

/// Whether an actual is of this root. Another has nothing in common with a part of the root.
#[inline(always)]
fn is_of_root(place: &Option<SelectedPart>, root: usize) -> bool
    ensures { IsFalse result → (line : ALocation) (env : List ABound) (part : APart) → part.root ≡ root → spec_place_pair line env part place.now ≡ [] }
{
    match place {
        Some(place) => place.root == root,
        None => false,
    }
}

/// What is reported of an actual with this part and those after it.
fn place_pairs(
    alloc: Global,
    line: &Location,
    env: &[Bound],
    part: &Part,
    others: &[Option<SelectedPart>],
    faults: &mut Reported,
) -> Result<(), AllocError>
    ensures { OnOk result (faults.new ≡ faults.old ++ spec_place_pairs line.now env.now part.now others.now) }
{
    for other in others {
        if is_of_root(other, part.root) {
            place_pair(alloc, line, env, part, other, faults)?;
        }
    }
    Ok(())
}

/// What is reported of an actual with this part and a use by the body with this number.
fn free_fault(
    alloc: Global,
    line: &Location,
    callee: usize,
    env: &[Bound],
    part: &Part,
    found: &Use,
    faults: &mut Reported,
) -> Result<(), AllocError>
    ensures { OnOk result (faults.new ≡ faults.old ++ spec_free_fault line.now callee env.now part.now found.now) }
{
    if found.part.root >= callee || found.part.root != part.root {
        return Ok(());
    }
    pair_faults(alloc, line, Code::A4, env, part, &found.part, faults)
}

/// What is reported of an actual with this part and the uses by the body with this number.
fn free_faults(
    alloc: Global,
    line: &Location,
    callee: usize,
    env: &[Bound],
    part: &Part,
    body: &[Use],
    faults: &mut Reported,
) -> Result<(), AllocError>
    ensures { OnOk result (faults.new ≡ faults.old ++ spec_free_faults line.now callee env.now part.now body.now) }
{
    for found in body {
        free_fault(alloc, line, callee, env, part, found, faults)?;
    }
    Ok(())
}

/// What is reported of an actual, with those after it and the uses by the body with this number.
fn actual_faults(
    alloc: Global,
    line: &Location,
    callee: usize,
    env: &[Bound],
    body: &[Use],
    place: &Option<SelectedPart>,
    others: &[Option<SelectedPart>],
    faults: &mut Reported,
) -> Result<(), AllocError>
    ensures { OnOk result (faults.new ≡ faults.old ++ spec_actual_faults line.now callee env.now body.now place.now others.now) }
{
    let Some(place) = place else {
        return Ok(());
    };
    let part = place.copied(alloc)?.into_part()?;
    place_pairs(alloc, line, env, &part, others, faults)?;
    free_faults(alloc, line, callee, env, &part, body, faults)
}

/// What is reported of the actuals of a call of the body with this number.
fn actuals_faults(
    alloc: Global,
    line: &Location,
    callee: usize,
    env: &[Bound],
    body: &[Use],
    places: &[Option<SelectedPart>],
    faults: &mut Reported,
) -> Result<(), AllocError>
    ensures { OnOk result (faults.new ≡ faults.old ++ spec_actuals_faults line.now callee env.now body.now places.now) }
{
    for (at, place) in places.iter().enumerate() {
        let others = places.split_at(at + 1).1;
        actual_faults(alloc, line, callee, env, body, place, others, faults)?;
    }
    Ok(())
}

/// What is reported of what the body of a call writes and its actuals read.
fn body_faults(
    alloc: Global,
    env: &[Bound],
    call: &Call<'_>,
    faults: &mut Reported,
) -> Result<(), AllocError>
    ensures { OnOk result (faults.new ≡ faults.old ++ spec_written_faults code.A4 env.now call.now.uses call.now.reads) }
{
    if !call.writes() {
        return Ok(());
    }
    let reads = call.reads(alloc)?;
    if reads.is_empty() {
        return Ok(());
    }
    let uses = call.uses(alloc)?;
    written_faults(
        alloc,
        Code::A4,
        env,
        uses.as_slice(),
        reads.as_slice(),
        faults,
    )
}

/// What is reported of a call at a line.
fn call_faults(
    alloc: Global,
    line: &Location,
    env: &[Bound],
    call: &Call<'_>,
    faults: &mut Reported,
) -> Result<(), AllocError>
    ensures { OnOk result (faults.new ≡ faults.old ++ spec_call_faults line.now env.now call.now) }
{
    let callee = call.callee();
    let body = body_at(env, callee);
    let places = call.places(alloc)?;
    actuals_faults(alloc, line, callee, env, body, places.as_slice(), faults)?;
    body_faults(alloc, env, call, faults)
}

/// What is reported of calls at a line.
pub(crate) fn calls_faults(
    alloc: Global,
    line: &Location,
    env: &[Bound],
    calls: &[Call<'_>],
    faults: &mut Reported,
) -> Result<(), AllocError>
    ensures { OnOk result (faults.new ≡ faults.old ++ spec_calls_faults line.now env.now calls.now) }
{
    for call in calls {
        call_faults(alloc, line, env, call, faults)?;
    }
    Ok(())
}
