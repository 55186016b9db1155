//! What becomes of an outcome: foreign, stale, repeated or accepted, the first case that holds. `docs/MACHINE.md, The
//! board`.
ghost use Rattle.occ_board.specs.Done.{is_cached};
ghost use Rattle.occ_board.specs.Verdicts.{is_off as spec_is_off, off_read as spec_off_read, or_else, reads_verdict, uses_verdict, verdict_of};
ghost use Rattle.occ_board.specs.declared.verdict.Verdict.TheVariants as verdict;
ghost use Rattle.occ_board.specs.inside.Flagged.{AreFlags, flag_of};
ghost use Rattle.occ_board.specs.inside.Ready.{IsAcceptable};
ghost use Rattle.occ_project_units.specs.Indices.{is_below, standing_of};
ghost use Rattle.occ_project_units.specs.Project.{file_of};
ghost use Rattle.std.specs.List.{find};
ghost use Rattle.std.specs.Option.{option_map};
ghost use Rattle.std.specs.Prelude.{◌≡◌, ◌&&◌, None, cond, map, not};

use super::cached::Cached;
use super::comparing::Same;
use super::flags::has_flag;
use super::present::{is_read_now, is_unit_now};
use super::verdict::Verdict;
use occ_base::FileName;
use occ_check::{Job, UsedUnit};
use occ_project::Read;
use occ_project_units::laws::reads_law;
use occ_project_units::{Graph, Project, Standing};

/// What a read decides that is not of its file as that is at present, where so many edits were accepted.
fn off_read(project: &Project, accepted: usize, read: &Read) -> Verdict
    ensures { result ≡ spec_off_read accepted read.now (file_of project.now read.now.name) }
{
    if accepted < read.revision as usize || read.revision == project.revision(read.name) {
        Verdict::Foreign(read.name)
    } else {
        Verdict::Stale(read.name)
    }
}

/// What the first read decides that is not of its file as that is at present.
fn judge_reads(project: &Project, accepted: usize, hint: usize, reads: &[Read]) -> Option<Verdict>
    ensures value { result ≡ reads_verdict project.now accepted reads.now }
    ensures now { result ≡ None → reads.now ≡ map (λ read. file_of project.now read.name) reads.now }
{
    for read in reads {
        if !is_read_now(project, hint, read) {
            return Some(off_read(project, accepted, read));
        }
    }
    None
}

/// Whether a used unit is open, in no circle with its user and without its flag. The user and the unit are looked for at these
/// indices first.
fn is_waiting(
    graph: &Graph,
    flags: &[bool],
    hint: usize,
    used_hint: usize,
    user: FileName,
    unit: FileName,
) -> bool
    ensures { result ≡ (is_below (standing_of graph.now user unit) && not (flag_of graph.now flags.now unit)) }
{
    match graph.standing_near(hint, used_hint, user, unit) {
        Standing::Below => !has_flag(graph, flags, used_hint, unit),
        _ => false,
    }
}

/// Whether a used unit is open, in no circle with its user and pending, or stands otherwise than at present.
fn is_off(
    graph: &Graph,
    cached: &Cached,
    flags: &[bool],
    hint: usize,
    used_hint: usize,
    user: FileName,
    one: &UsedUnit,
) -> bool
    requires { AreFlags graph.now cached.now flags.now }
    ensures { result ≡ spec_is_off graph.now cached.now user one.now }
{
    if is_waiting(graph, flags, hint, used_hint, user, one.unit) {
        return true;
    }
    !is_unit_now(graph, cached, hint, used_hint, user, one)
}

/// What the first used unit decides that is so.
fn judge_used(
    graph: &Graph,
    cached: &Cached,
    flags: &[bool],
    hint: usize,
    user: FileName,
    used: &[UsedUnit],
) -> Option<Verdict>
    requires { AreFlags graph.now cached.now flags.now }
    ensures { result ≡ option_map (λ one. verdict.Stale one.unit) (find (spec_is_off graph.now cached.now user) used.now) }
{
    for (number, one) in used.iter().enumerate() {
        let used_hint = graph.used_hint(hint, number);
        if is_off(graph, cached, flags, hint, used_hint, user, one) {
            return Some(Verdict::Stale(one.unit));
        }
    }
    None
}

/// Whether the outcome that is cached of its unit, which is looked for at an index first, is of the same job.
fn is_repeated(cached: &Cached, hint: usize, job: &Job) -> bool
    ensures { result ≡ is_cached cached.now job.now }
{
    match cached.get_near(hint, job.unit()) {
        Some(outcome) => outcome.job().is_same(job),
        None => false,
    }
}

/// What becomes of an outcome of a job whose reads are of their files as they are at present.
fn judge_now(graph: &Graph, cached: &Cached, flags: &[bool], hint: usize, job: &Job) -> Verdict
    requires flags { AreFlags graph.now cached.now flags.now }
    requires now { job.now.reads ≡ map (λ read. file_of graph.now read.name) job.now.reads }
    ensures value { result ≡ or_else (uses_verdict graph.now cached.now job.now) (cond (is_cached cached.now job.now) verdict.Repeated verdict.Accepted) }
    ensures acceptable { result ≡ verdict.Accepted → IsAcceptable graph.now cached.now job.now }
{
    reads_law();
    match judge_used(graph, cached, flags, hint, job.unit(), job.used()) {
        Some(verdict) => verdict,
        None => {
            if is_repeated(cached, hint, job) {
                Verdict::Repeated
            } else {
                Verdict::Accepted
            }
        }
    }
}

/// What becomes of an outcome of a job, where so many edits were accepted. Its unit is looked for at an index first.
pub fn judge(
    graph: &Graph,
    accepted: usize,
    cached: &Cached,
    flags: &[bool],
    hint: usize,
    job: &Job,
) -> Verdict
    requires { AreFlags graph.now cached.now flags.now }
    ensures value { result ≡ verdict_of graph.now accepted cached.now job.now }
    ensures acceptable { result ≡ verdict.Accepted → IsAcceptable graph.now cached.now job.now }
{
    match judge_reads(graph.project(), accepted, hint, job.reads().as_slice()) {
        Some(verdict) => verdict,
        None => judge_now(graph, cached, flags, hint, job),
    }
}
