//! The next job: the least ready unit that is not handed out, looked for from an index before which none is ready.
ghost use Rattle.occ_board.specs.Done.{done, is_input_among};
ghost use Rattle.occ_board.specs.Machine.{next_input};
ghost use Rattle.occ_board.specs.inside.Flagged.{AreFlags};
ghost use Rattle.occ_board.specs.inside.Ready.{AreRested, HasJob, NoneIsNext, NoneIsReady, is_next as spec_is_next, is_ready as spec_is_ready, is_rested};
ghost use Rattle.occ_check.specs.Checks.{checked, input, used_as as spec_used_as, used_unit};
ghost use Rattle.occ_project.specs.declared.reads.Read.{Read as ARead};
ghost use Rattle.occ_project_units.specs.Along.{name_at};
ghost use Rattle.occ_project_units.specs.Indices.{is_below, standing_of};
ghost use Rattle.occ_project_units.specs.Project.{IsProject};
ghost use Rattle.std.specs.Option.{option_copied, option_map};
ghost use Rattle.std.specs.Prelude.{◌≡◌, ◌<◌, ◌≤◌, ◌+◌, ℕ, IfOk, IfSome, IsTrue, Some, false, get_or, length, map, slice_get, true};

use super::cached::Cached;
use super::flags::{are_rests_flagged, is_flagged};
use super::laws::cached_law;
use super::present::is_present;
use super::report::is_pending;
use occ_base::{FileName, Items, Shared};
use occ_check::laws::{input_law, job_law};
use occ_check::{Job, Used, UsedUnit};
use occ_project::Read;
use occ_project_units::{Graph, Standing};
use occ_types::Interface;
use sqlite_items::at;
use std::alloc::{AllocError, Global};

/// So many flags are looked at together.
const RUN: usize = 64;

/// How a unit is used that stands so, where this is what it shows.
fn used_as(standing: Standing, shown: Option<&Shared<Interface>>) -> Result<Used, AllocError>
    ensures { IfOk result (λ used. used ≡ spec_used_as standing (option_copied shown.entry)) }
{
    match (standing, shown) {
        (Standing::Absent, _) => Ok(Used::Absent),
        (Standing::Circular, _) => Ok(Used::Circular),
        (Standing::Below, None) => Ok(Used::Faulty),
        (Standing::Below, Some(shown)) => Ok(Used::Clean(shown.share()?)),
    }
}

/// A used unit as it stands at present to its user, where the user and the unit are looked for at these indices first. If the
/// user rests on it, it is done.
fn unit_now(
    graph: &Graph,
    cached: &Cached,
    hint: usize,
    used_hint: usize,
    user: FileName,
    unit: FileName,
) -> Result<UsedUnit, AllocError>
    requires done { is_below (standing_of graph.now user unit) ≡ true → done graph.now cached.now unit ≡ true }
    ensures { IfOk result (λ one. one ≡ used_unit graph.now user (checked graph.now) unit) }
{
    let _files = graph.project().files();
    cached_law();
    input_law();
    let standing = graph.standing_near(hint, used_hint, user, unit);
    let used = used_as(standing, cached.shown_near(used_hint, unit))?;
    Ok(UsedUnit { unit, used })
}

/// Units that a unit uses, as they stand at present.
fn units_now(
    alloc: Global,
    graph: &Graph,
    cached: &Cached,
    hint: usize,
    user: FileName,
    units: &[FileName],
) -> Result<Items<UsedUnit>, AllocError>
    requires rested { AreRested graph.now cached.now user units.now }
    ensures { IfOk result (λ used. used ≡ map (used_unit graph.now user (checked graph.now)) units.now) }
{
    let mut used = Vec::with_capacity(alloc, units.len())?;
    for (number, unit) in units.iter().enumerate() {
        let used_hint = graph.used_hint(hint, number);
        used.push(unit_now(graph, cached, hint, used_hint, user, *unit)?)?;
    }
    Ok(Items::from_vec(used))
}

/// The job of an open unit, which is looked for at an index first, that looks at what is so at present.
pub fn job_now(
    alloc: Global,
    graph: &Graph,
    cached: &Cached,
    hint: usize,
    unit: FileName,
) -> Result<Job, AllocError>
    requires { HasJob graph.now cached.now unit }
    ensures { IfOk result (λ job. job ≡ input graph.now unit) }
{
    let names = graph.reads_near(hint, &unit);
    let reads = graph.project().reads_near(alloc, hint, names)?;
    let used = units_now(
        alloc,
        graph,
        cached,
        hint,
        unit,
        graph.uses_near(hint, unit),
    )?;
    job_law();
    Ok(Job::of(unit, reads, used))
}

/// Whether one of these jobs looks at what is so of a unit at present. All that the unit rests on is done.
fn is_handed(graph: &Graph, cached: &Cached, handed: &[Job], hint: usize, unit: FileName) -> bool
    requires { is_rested graph.now cached.now unit ≡ true }
    ensures { result ≡ is_input_among handed.now (input graph.now unit) }
{
    for job in handed {
        if is_present(graph, cached, hint, unit, job, false) {
            return true;
        }
    }
    false
}

/// Whether the file at an index is a unit that is ready, as far as the flags report.
#[inline(always)]
fn is_ready(graph: &Graph, flags: &[bool], index: usize, file: &Read) -> bool
    requires { slice_get graph.now index ≡ Some file.now }
    ensures { result ≡ spec_is_ready graph.now flags.now index file.now }
{
    !is_flagged(flags, index) && are_rests_flagged(graph, flags, index) && is_pending(file, false)
}

/// The same of an index.
pub fn is_ready_at(graph: &Graph, flags: &[bool], index: usize) -> bool
    ensures { (file : ARead) → slice_get graph.now index ≡ Some file → result ≡ spec_is_ready graph.now flags.now index file }
{
    match at(graph.project().files(), index) {
        Some(file) => is_ready(graph, flags, index, file.get()),
        None => false,
    }
}

/// Whether the flags of a run that begins at an index are all set. Of fewer it is not said.
fn is_run_set(flags: &[bool], from: usize) -> bool
    ensures within { IsTrue result → from + 64 ≤ length flags.now }
    ensures set { IsTrue result → (p : ℕ) → from ≤ p → p < from + 64 → get_or flags.now p false ≡ true }
{
    if !is_flagged(flags, from) || flags.len() < RUN || flags.len() - RUN < from {
        return false;
    }
    let (_, rest) = flags.split_at(from);
    let (run, _) = rest.split_at(RUN);
    !run.contains(&false)
}

/// An index, from this one, up to which all flags are set.
fn past_runs(flags: &[bool], from: usize) -> usize
    ensures { (p : ℕ) → from ≤ p → p < result → get_or flags.now p false ≡ true }
{
    let mut index = from;
    while is_run_set(flags, index) {
        index += RUN;
    }
    index
}

/// The first index, from this one, whose flag is not set; if there is none, how many flags there are.
fn first_unflagged(flags: &[bool], from: usize) -> usize
    ensures { (p : ℕ) → from ≤ p → p < result → get_or flags.now p false ≡ true }
{
    for index in past_runs(flags, from)..flags.len() {
        if !flags[index] {
            return index;
        }
    }
    flags.len()
}

/// The first index, from one before which no unit is ready, where one is; if there is none, how many files there are.
pub fn first_ready(graph: &Graph, flags: &[bool], from: usize) -> usize
    requires { NoneIsReady graph.now flags.now from }
    ensures before { NoneIsReady graph.now flags.now result }
    ensures ready { (file : ARead) → slice_get graph.now result ≡ Some file → spec_is_ready graph.now flags.now result file ≡ true }
    ensures most { result ≤ length graph.now }
{
    let files = graph.project().files();
    for index in first_unflagged(flags, from)..files.len() {
        if is_ready(graph, flags, index, files[index].get()) {
            return index;
        }
    }
    files.len()
}

/// Whether the file at an index is a unit that is ready and whose present job is not handed out.
fn is_next(
    graph: &Graph,
    cached: &Cached,
    handed: &[Job],
    flags: &[bool],
    index: usize,
    file: &Read,
) -> bool
    requires flags { AreFlags graph.now cached.now flags.now }
    requires project { IsProject graph.now }
    requires file { slice_get graph.now index ≡ Some file.now }
    ensures { result ≡ spec_is_next graph.now cached.now handed.now file.now }
{
    if !is_ready(graph, flags, index, file) {
        return false;
    }
    !is_handed(graph, cached, handed, index, file.name)
}

/// The index of the least unit that is ready and whose present job is not handed out. No such unit is before the index at which it is
/// begun.
pub fn next_unit(
    graph: &Graph,
    cached: &Cached,
    handed: &[Job],
    flags: &[bool],
    from: usize,
) -> Option<usize>
    requires flags { AreFlags graph.now cached.now flags.now }
    requires from { NoneIsNext graph.now cached.now handed.now from }
    ensures next { option_map (λ p. input graph.now (name_at graph.now p)) result ≡ next_input graph.now cached.now handed.now }
    ensures job { IfSome result (λ p. HasJob graph.now cached.now (name_at graph.now p)) }
    ensures before { IfSome result (λ p. NoneIsNext graph.now cached.now handed.now p) }
    ensures within { IfSome result (λ p. p < length graph.now) }
{
    let files = graph.project().files();
    for index in from..files.len() {
        let file = files[index].get();
        if is_next(graph, cached, handed, flags, index, file) {
            return Some(index);
        }
    }
    None
}
