//! Tests: outcomes and jobs that are forged, given twice, too late or after they were given back.
use super::board::outcome;
use super::expansion::open;
use occ_base::{FileName, Items, Shared};
use occ_project::{Read, Reads};
use occ_server::{Board, Job, JobFault, Outcome, Used, UsedUnit, Verdict};
use occ_types::Interface;
use std::alloc::Global;
use std::test::Fail;

/// A unit that uses a.occ.
const USER: &str = "#USE \"a\"\n";

/// A file as it is after the edit with this number.
fn read(alloc: Global, name: &str, text: &str, revision: u32) -> Result<Read, Fail> {
    let mut read = open(alloc, name, text)?;
    read.revision = revision;
    Ok(read)
}

/// One file.
fn one(alloc: Global, read: Read) -> Result<Reads, Fail> {
    let mut reads = Items::new(alloc);
    reads.push(read)?;
    Ok(reads)
}

/// How a.occ stands for its user: without an error, and it exports nothing; or with one.
fn standing(alloc: Global, is_clean: bool) -> Result<Used, Fail> {
    if !is_clean {
        return Ok(Used::Faulty);
    }
    let exports = Items::new(alloc);
    Ok(Used::Clean(Shared::new(alloc, Interface { exports })?))
}

/// a.occ as a unit that is used, standing so.
fn used(alloc: Global, is_clean: bool) -> Result<Items<UsedUnit>, Fail> {
    let mut units = Items::new(alloc);
    units.push(UsedUnit {
        unit: FileName::read(b"a.occ")?,
        used: standing(alloc, is_clean)?,
    })?;
    Ok(units)
}

/// The outcome of a.occ with this text under this revision.
fn of_a(alloc: Global, text: &str, revision: u32) -> Result<Outcome, Fail> {
    let reads = one(alloc, read(alloc, "a.occ", text, revision)?)?;
    let job = Job::new(alloc, FileName::read(b"a.occ")?, reads, Items::new(alloc))?;
    outcome(alloc, job)
}

/// The outcome of b.occ, to which a.occ stands so.
fn of_b(alloc: Global, is_clean: bool) -> Result<Outcome, Fail> {
    let reads = one(alloc, read(alloc, "b.occ", USER, 2)?)?;
    let job = Job::new(
        alloc,
        FileName::read(b"b.occ")?,
        reads,
        used(alloc, is_clean)?,
    )?;
    outcome(alloc, job)
}

/// Opens a file, or changes nothing where it cannot be.
fn add(alloc: Global, board: &mut Board, name: &str, text: &str) -> Result<(), Fail> {
    if let Some(source) = open(alloc, name, text)?.source {
        let _edited = board.open(alloc, 1, FileName::read(name.as_bytes())?, source);
    }
    Ok(())
}

/// What is answered, and of which file.
fn word(verdict: Verdict) -> (&'static str, Option<FileName>) {
    match verdict {
        Verdict::Accepted => ("accepted", None),
        Verdict::Repeated => ("repeated", None),
        Verdict::Stale(name) => ("stale", Some(name)),
        Verdict::Foreign(name) => ("foreign", Some(name)),
    }
}

/// Whether an outcome is answered so, and where it is not taken, a.occ decides.
fn is_answered(board: &mut Board, outcome: Outcome, wanted: &str) -> Result<bool, Fail> {
    let verdict = match board.finish(outcome) {
        Ok(verdict) => verdict,
        Err((_outcome, refused)) => return Err(refused)?,
    };
    let (word, name) = word(verdict);
    Ok(match name {
        Some(name) => word == wanted && name.as_bytes() == b"a.occ".as_slice(),
        None => word == wanted,
    })
}

/// Outcomes of a.occ with a text under a revision, what is answered to each, and how many units are pending then.
const OF_A: [(&str, u32, &str, usize); 3] = [
    ("", 3, "foreign", 2),
    ("", 2, "stale", 2),
    ("-- x\n", 1, "foreign", 2),
];

/// The same after these, each given by nobody.
const TAKEN: [(&str, u32, &str, usize); 2] = [("", 1, "accepted", 1), ("", 1, "repeated", 1)];

/// Whether these are answered so, one after the other.
fn are_answered(
    alloc: Global,
    board: &mut Board,
    rows: &[(&str, u32, &str, usize)],
) -> Result<bool, Fail> {
    for (text, revision, wanted, pending) in rows {
        let outcome = of_a(alloc, text, *revision)?;
        if !is_answered(board, outcome, wanted)? || board.pending() != *pending {
            return Ok(false);
        }
    }
    Ok(true)
}

/// Whether an outcome of b.occ, to which a.occ stands so, is answered so.
fn is_user_answered(
    alloc: Global,
    board: &mut Board,
    is_clean: bool,
    wanted: &str,
) -> Result<bool, Fail> {
    is_answered(board, of_b(alloc, is_clean)?, wanted)
}

/// Whether all holds until both are done: b.occ is taken only once a.occ is done, and as it stands then.
fn are_forged_told(alloc: Global, board: &mut Board) -> Result<bool, Fail> {
    add(alloc, board, "a.occ", "")?;
    add(alloc, board, "b.occ", USER)?;
    Ok(
        are_answered(alloc, board, &OF_A)?
            && is_user_answered(alloc, board, true, "stale")?
            && are_answered(alloc, board, &TAKEN)?
            && is_user_answered(alloc, board, false, "stale")?
            && is_user_answered(alloc, board, true, "accepted")?
            && board.pending() == 0,
    )
}

/// Whether both are stale once a.occ is closed.
fn are_late_told(alloc: Global, board: &mut Board) -> Result<bool, Fail> {
    let _edited = board.remove(alloc, 1, FileName::read(b"a.occ")?);
    Ok(
        are_answered(alloc, board, &[("", 1, "stale", 1)])?
            && is_user_answered(alloc, board, true, "stale")?
            && board.entries().len() == 3,
    )
}

/// Whether both hold.
fn are_told(alloc: Global, board: &mut Board) -> Result<bool, Fail> {
    Ok(are_forged_told(alloc, board)? && are_late_told(alloc, board)?)
}

#[test]
fn forged_and_late_outcomes_are_told(rt: HostRuntime) -> Result<(), Fail> {
    let a = rt.alloc();
    let mut board = Board::new(a);
    let are_told = are_told(a, &mut board);
    drop(board);
    assert!(rt; are_told?);
    Ok(())
}

/// Whether there is no job of a unit with these reads and used units, for this reason.
fn is_none(
    alloc: Global,
    unit: &str,
    reads: Reads,
    used: Items<UsedUnit>,
    is_of_reads: bool,
) -> Result<bool, Fail> {
    Ok(
        match Job::new(alloc, FileName::read(unit.as_bytes())?, reads, used) {
            Ok(_) | Err(JobFault::Memory) => false,
            Err(JobFault::Reads) => is_of_reads,
            Err(JobFault::Used) => !is_of_reads,
        },
    )
}

#[test]
fn a_job_lacks_neither_its_unit_nor_what_that_uses(rt: HostRuntime) -> Result<(), Fail> {
    let a = rt.alloc();
    let other = one(a, read(a, "a.occ", "", 1)?)?;
    assert!(rt; is_none(a, "b.occ", other, used(a, true)?, true)?);
    let user = one(a, read(a, "b.occ", USER, 2)?)?;
    assert!(rt; is_none(a, "b.occ", user, Items::new(a), false)?);
    let included = one(a, read(a, "k.inc", "", 1)?)?;
    assert!(rt; is_none(a, "k.inc", included, Items::new(a), true)?);
    Ok(())
}

/// Takes the job of a.occ, which has no lines, and gives it back. Its one read, if it is of a.occ and has one.
fn given_back(alloc: Global, board: &mut Board) -> Result<Option<(FileName, u32)>, Fail> {
    let Some(job) = board.take(alloc)? else {
        return Ok(None);
    };
    board.abandon(&job);
    Ok(match job.reads().as_slice() {
        [read] => Some((read.name, read.revision)),
        _ => None,
    })
}

/// Whether the job is the same when it is taken again, and an outcome of what the first one looked at is accepted.
fn is_same_again(alloc: Global, board: &mut Board) -> Result<bool, Fail> {
    add(alloc, board, "a.occ", "")?;
    let first = given_back(alloc, board)?;
    let again = given_back(alloc, board)?;
    let Some((name, revision)) = first else {
        return Ok(false);
    };
    let is_same = matches!(again, Some((other, number)) if other == name && number == revision);
    Ok(
        is_same
            && name.as_bytes() == b"a.occ".as_slice()
            && are_answered(alloc, board, &[("", revision, "accepted", 0)])?
            && board.take(alloc)?.is_none(),
    )
}

#[test]
fn an_outcome_of_a_job_that_was_given_back_is_accepted(rt: HostRuntime) -> Result<(), Fail> {
    let a = rt.alloc();
    let mut board = Board::new(a);
    let is_same = is_same_again(a, &mut board);
    drop(board);
    assert!(rt; is_same?);
    Ok(())
}
