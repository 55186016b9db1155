//! Whether a read, a used unit, a job or a cached outcome is as at present. Of cached outcomes revisions are enough.
ghost use Rattle.occ_board.specs.Done.{done, is_cached};
ghost use Rattle.occ_board.specs.Same.{same_input};
ghost use Rattle.occ_board.specs.Verdicts.{is_as_read};
ghost use Rattle.occ_board.specs.inside.Ready.{AreRested, is_rested};
ghost use Rattle.occ_board.specs.inside.Revisions.{AllGivenByRevision, AreGivenByRevision, IsGivenByRevision};
ghost use Rattle.occ_check.specs.Checks.{checked, input, used_as, used_unit};
ghost use Rattle.occ_project_units.specs.Indices.{is_below, standing_of};
ghost use Rattle.occ_project_units.specs.Project.{file_of};
ghost use Rattle.std.specs.Option.{option_copied};
ghost use Rattle.std.specs.Prelude.{◌≡◌, ◌↔◌, IsTrue, map, true};

use super::cached::Cached;
use super::comparing::{Same, are_same_sources};
use super::laws::cached_law;
use occ_base::{FileName, Shared};
use occ_check::laws::input_law;
use occ_check::{Job, Used, UsedUnit};
use occ_project::Read;
use occ_project_units::{Graph, Project, Standing};
use occ_types::Interface;

/// Whether a read is of the file of its name, which is looked for at an index first, as that is at present.
pub fn is_read_now(project: &Project, hint: usize, read: &Read) -> bool
    ensures value { result ≡ is_as_read read.now (file_of project.now read.now.name) }
    ensures one { IsTrue result ↔ (read.now ≡ file_of project.now read.now.name) }
{
    read.revision == project.revision_near(hint, read.name)
        && are_same_sources(read.source.as_ref(), project.get_near(hint, read.name))
}

/// The same. `trusted` says that a file with the revision of the read is that read; then no texts are compared.
fn is_read_still(project: &Project, hint: usize, read: &Read, trusted: bool) -> bool
    requires { trusted ≡ true → IsGivenByRevision project.now read.now }
    ensures { IsTrue result ↔ (read.now ≡ file_of project.now read.now.name) }
{
    if trusted {
        project.revision_near(hint, read.name) == read.revision
    } else {
        is_read_now(project, hint, read)
    }
}

/// Whether a read is of the file of that name as that is at present. `trusted` is as above.
fn is_read_of(project: &Project, hint: usize, read: &Read, trusted: bool, name: FileName) -> bool
    requires { trusted ≡ true → IsGivenByRevision project.now read.now }
    ensures { IsTrue result ↔ (read.now ≡ file_of project.now name) }
{
    read.name == name && is_read_still(project, hint, read, trusted)
}

/// Whether the reads are of the files of these names as they are at present. `trusted` is as above, of each read.
fn are_reads_now(
    project: &Project,
    hint: usize,
    reads: &[Read],
    trusted: bool,
    names: &[FileName],
) -> bool
    requires { trusted ≡ true → AreGivenByRevision project.now reads.now }
    ensures { IsTrue result ↔ (reads.now ≡ map (file_of project.now) names.now) }
{
    if reads.len() != names.len() {
        return false;
    }
    for i in 0..reads.len() {
        if !is_read_of(project, hint, &reads[i], trusted, names[i]) {
            return false;
        }
    }
    true
}

/// Whether a unit that is used stands so, where this is what it shows.
fn is_used_as(used: &Used, standing: Standing, shown: Option<&Shared<Interface>>) -> bool
    ensures { IsTrue result ↔ (used.now ≡ used_as standing (option_copied shown.entry)) }
{
    match (used, standing, shown) {
        (Used::Absent, Standing::Absent, _)
        | (Used::Circular, Standing::Circular, _)
        | (Used::Faulty, Standing::Below, None) => true,
        (Used::Clean(interface), Standing::Below, Some(shown)) => interface
            .get()
            .is_same(shown.get()),
        _ => false,
    }
}

/// Whether a used unit stands to its user as it does at present, where the user and the unit are looked for at these indices
/// first. If the user rests on it, it is done.
pub fn is_unit_now(
    graph: &Graph,
    cached: &Cached,
    hint: usize,
    used_hint: usize,
    user: FileName,
    one: &UsedUnit,
) -> bool
    requires done { is_below (standing_of graph.now user one.now.unit) ≡ true → done graph.now cached.now one.now.unit ≡ true }
    ensures { IsTrue result ↔ (one.now ≡ used_unit graph.now user (checked graph.now) one.now.unit) }
{
    let _files = graph.project().files();
    cached_law();
    input_law();
    is_used_as(
        &one.used,
        graph.standing_near(hint, used_hint, user, one.unit),
        cached.shown_near(used_hint, one.unit),
    )
}

/// Whether a used unit is that of this name, and stands to its user as that does at present. If the user rests on it, it is
/// done.
fn is_unit_of(
    graph: &Graph,
    cached: &Cached,
    hint: usize,
    used_hint: usize,
    user: FileName,
    one: &UsedUnit,
    name: FileName,
) -> bool
    requires done { is_below (standing_of graph.now user name) ≡ true → done graph.now cached.now name ≡ true }
    ensures { IsTrue result ↔ (one.now ≡ used_unit graph.now user (checked graph.now) name) }
{
    one.unit == name && is_unit_now(graph, cached, hint, used_hint, user, one)
}

/// Whether the used units are those of these names, and stand to their user as they do at present.
fn are_units_now(
    graph: &Graph,
    cached: &Cached,
    hint: usize,
    user: FileName,
    used: &[UsedUnit],
    names: &[FileName],
) -> bool
    requires { AreRested graph.now cached.now user names.now }
    ensures { IsTrue result ↔ (used.now ≡ map (used_unit graph.now user (checked graph.now)) names.now) }
{
    if used.len() != names.len() {
        return false;
    }
    for i in 0..used.len() {
        let used_hint = graph.used_hint(hint, i);
        if !is_unit_of(graph, cached, hint, used_hint, user, &used[i], names[i]) {
            return false;
        }
    }
    true
}

/// Whether a job looks at what is so at present of a unit, which is looked for at an index first. All that the unit rests on is
/// done. `trusted` says that a file with the revision of one of the job's reads is that read; then no texts are compared.
pub fn is_present(
    graph: &Graph,
    cached: &Cached,
    hint: usize,
    unit: FileName,
    job: &Job,
    trusted: bool,
) -> bool
    requires rested { is_rested graph.now cached.now unit ≡ true }
    requires reported { trusted ≡ true → AreGivenByRevision graph.now job.now.reads }
    ensures { result ≡ same_input job.now (input graph.now unit) }
{
    job.unit() == unit
        && are_reads_now(
            graph.project(),
            hint,
            job.reads().as_slice(),
            trusted,
            graph.reads_near(hint, &unit),
        )
        && are_units_now(
            graph,
            cached,
            hint,
            unit,
            job.used(),
            graph.uses_near(hint, unit),
        )
}

/// Whether the outcome that is cached of a unit, which is looked for at an index first, looked at what is so at present.
pub fn is_cached_now(graph: &Graph, cached: &Cached, hint: usize, unit: FileName) -> bool
    requires rested { is_rested graph.now cached.now unit ≡ true }
    requires reported { AllGivenByRevision graph.now cached.now }
    ensures { result ≡ is_cached cached.now (input graph.now unit) }
{
    match cached.get_near(hint, unit) {
        Some(outcome) => is_present(graph, cached, hint, unit, outcome.job(), true),
        None => false,
    }
}
