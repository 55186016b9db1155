//! Scopes, projects, jobs, diagnostics and words: where memory is refused, what was there stays.
use super::off::{Off, wanted};
use super::texts::{is_race, race, read};
use occ_base::{Code, Diag, FileName, Grade, Items, Name, write_diag};
use occ_project_units::{Graph, Project};
use occ_scope::Scopes;
use occ_server::{Job, Outcome, check};
use occheck_words::{Mode, WordsFault, read_words};
use std::alloc::Global;

/// A name that is entered is found, and one whose entering is refused is not.
pub fn entered(alloc: Global) -> Result<(), Off> {
    let name = Name::from_slice(alloc, b"x")?;
    let mut scopes = Scopes::new(alloc);
    let entered = scopes.enter(alloc, &name);
    wanted(entered.is_ok() == scopes.find(&name).is_some())?;
    let _place = entered?;
    Ok(())
}

/// A file that is put into a project is there, and one that is refused is not.
pub fn set(alloc: Global) -> Result<(), Off> {
    let file = read(alloc, "a.occ", "")?;
    let mut project = Project::new(alloc);
    let set = project.set(alloc, file.name, file.revision, file.source);
    let is_there = project.get(file.name).is_some() && project.revision(file.name) == 1;
    let is_nowhere = project.get(file.name).is_none() && project.revision(file.name) == 0;
    wanted(if set.is_ok() { is_there } else { is_nowhere })?;
    Ok(set?)
}

/// Three units that use one another in a circle, and one that uses one of them.
const CIRCLE: [(&str, &str); 4] = [
    ("a.occ", "#USE \"b\"\n"),
    ("b.occ", "#USE \"c\"\n"),
    ("c.occ", "#USE \"a\"\n"),
    ("d.occ", "#USE \"a\"\n"),
];

pub fn circle(alloc: Global) -> Result<(), Off> {
    let mut project = Project::new(alloc);
    for (name, text) in CIRCLE {
        let file = read(alloc, name, text)?;
        project.set(alloc, file.name, file.revision, file.source)?;
    }
    let graph = Graph::of(alloc, &project)?;
    let first = FileName::read(b"a.occ")?;
    wanted(graph.is_circular(first, FileName::read(b"b.occ")?))?;
    wanted(!graph.is_circular(FileName::read(b"d.occ")?, first))
}

fn job_of_race(alloc: Global) -> Result<Job, Off> {
    let reads = race(alloc)?;
    Ok(Job::new(alloc, FileName::read(b"a.occ")?, reads, Items::new(alloc))?)
}

pub fn job(alloc: Global) -> Result<(), Off> {
    let job = job_of_race(alloc)?;
    wanted(job.unit() == FileName::read(b"a.occ")? && job.reads().len() == 1)
}

/// The outcome of a job, which comes back where memory is refused, and is given once more.
pub fn outcome(alloc: Global, job: Job) -> Result<Outcome, Off> {
    let (unit, reads) = (job.unit(), job.reads().len());
    let job = match check(alloc, job) {
        Ok(outcome) => return Ok(outcome),
        Err((job, _refused)) => job,
    };
    wanted(job.unit() == unit && job.reads().len() == reads)?;
    match check(alloc, job) {
        Ok(outcome) => Ok(outcome),
        Err((_job, _refused)) => Err(Off::Memory),
    }
}

pub fn checked(alloc: Global) -> Result<(), Off> {
    let outcome = outcome(alloc, job_of_race(alloc)?)?;
    wanted(matches!(outcome.diags(), [diag] if is_race(diag)))
}

/// A diagnostic is appended whole, or nothing of it.
pub fn written(alloc: Global) -> Result<(), Off> {
    let diag = Diag {
        file: FileName::read(b"a.occ")?,
        line: 3,
        code: Code::U1,
        grade: Grade::Error,
        name: Some(Name::from_slice(alloc, b"x")?),
    };
    let mut text = Vec::new(alloc);
    text.extend_from_slice(b"  ")?;
    if write_diag(alloc, &diag, &mut text).is_err() {
        wanted(text.as_slice() == b"  ".as_slice())?;
        write_diag(alloc, &diag, &mut text)?;
    }
    wanted(text.as_slice() == b"  a.occ:3 U1 error x".as_slice())
}

pub fn words(alloc: Global) -> Result<(), Off> {
    match read_words(alloc, &["--workers", "2", "one", "-"]) {
        Ok(Mode::Workers(workers, scripts)) => wanted(workers == 2 && scripts.len() == 2),
        Ok(Mode::Steps(_)) | Err(WordsFault::Refused(_)) => Err(Off::Differs),
        Err(WordsFault::Memory) => Err(Off::Memory),
    }
}
