//! Tests: outcomes that are repeated or foreign, jobs that are handed out once, and a full journal that goes on after a
//! checkpoint.
use super::expansion::open;
use occ_base::{FileName, Items};
use occ_server::{Board, EditFault, Job, Outcome, Row, Shown, Verdict, check};
use std::alloc::Global;
use std::test::Fail;

/// A unit that declares a procedure and uses no other.
const PLAIN: &str = "PROC p ()\n  SKIP\n:\n";

/// A board with that one file, of which the first edit opened it.
fn board(alloc: Global) -> Result<Board, Fail> {
    let mut board = Board::new(alloc);
    let Some(source) = open(alloc, "a.occ", PLAIN)?.source else {
        return Ok(board);
    };
    match board.open(alloc, 1, FileName::read(b"a.occ")?, source) {
        Ok(_) | Err(_) => Ok(board),
    }
}

/// The outcome of a job.
pub fn outcome(alloc: Global, job: Job) -> Result<Outcome, Fail> {
    match check(alloc, job) {
        Ok(outcome) => Ok(outcome),
        Err((_job, refused)) => Err(refused)?,
    }
}

/// The outcome of a job that looked at this text of a.occ under this revision.
fn forged(alloc: Global, text: &str, revision: u32) -> Result<Outcome, Fail> {
    let mut read = open(alloc, "a.occ", text)?;
    read.revision = revision;
    let mut reads = Items::new(alloc);
    reads.push(read)?;
    let job = Job::new(alloc, FileName::read(b"a.occ")?, reads, Items::new(alloc))?;
    outcome(alloc, job)
}

/// What becomes of the outcome of a job that looked at this text of a.occ under this revision.
fn finish(alloc: Global, board: &mut Board, text: &str, revision: u32) -> Result<Verdict, Fail> {
    match board.finish(forged(alloc, text, revision)?) {
        Ok(verdict) => Ok(verdict),
        Err((_outcome, refused)) => Err(refused)?,
    }
}

/// Whether the row has no diagnostics.
fn is_clean(row: &Row) -> bool {
    matches!(&row.shown, Shown::Done(diags) if diags.get().is_empty())
}

/// Whether the report has one unit, which is done and has no diagnostics.
fn is_settled(alloc: Global, board: &Board) -> Result<bool, Fail> {
    let report = board.report(alloc)?;
    Ok(board.pending() == 0 && matches!(report.as_slice(), [row] if is_clean(row)))
}

/// Whether the first outcome of the job is accepted, and one that looked at another text is foreign before it.
fn is_accepted(alloc: Global, board: &mut Board) -> Result<bool, Fail> {
    Ok(
        matches!(finish(alloc, board, "", 1)?, Verdict::Foreign(_))
            && board.pending() == 1
            && matches!(finish(alloc, board, PLAIN, 1)?, Verdict::Accepted)
            && is_settled(alloc, board)?,
    )
}

/// Whether then an equal one is repeated, and each other is foreign and changes nothing.
fn is_repeated(alloc: Global, board: &mut Board) -> Result<bool, Fail> {
    Ok(
        matches!(finish(alloc, board, PLAIN, 1)?, Verdict::Repeated)
            && matches!(finish(alloc, board, "", 1)?, Verdict::Foreign(_))
            && matches!(finish(alloc, board, PLAIN, 2)?, Verdict::Foreign(_))
            && is_settled(alloc, board)?,
    )
}

/// Whether both hold.
fn is_reported_apart(alloc: Global, board: &mut Board) -> Result<bool, Fail> {
    Ok(is_accepted(alloc, board)? && is_repeated(alloc, board)?)
}

#[test]
fn an_outcome_of_an_equal_job_is_repeated_and_a_forged_one_foreign(
    rt: HostRuntime,
) -> Result<(), Fail> {
    let a = rt.alloc();
    let mut board = board(a)?;
    let is_reported = is_reported_apart(a, &mut board);
    drop(board);
    assert!(rt; is_reported?);
    Ok(())
}

/// Whether there is a job, which is then given back or not.
fn takes(alloc: Global, board: &mut Board, back: bool) -> Result<bool, Fail> {
    let Some(job) = board.take(alloc)? else {
        return Ok(false);
    };
    if back {
        board.abandon(&job);
    }
    Ok(true)
}

/// Whether the one job is handed out, again once it was given back, and then no more.
fn is_handed_out_once(alloc: Global, board: &mut Board) -> Result<bool, Fail> {
    Ok(
        takes(alloc, board, true)?
            && takes(alloc, board, false)?
            && !takes(alloc, board, false)?
            && board.entries().len() == 1,
    )
}

#[test]
fn a_job_is_handed_out_once_until_it_is_given_back(rt: HostRuntime) -> Result<(), Fail> {
    let a = rt.alloc();
    let mut board = board(a)?;
    let is_once = is_handed_out_once(a, &mut board);
    drop(board);
    assert!(rt; is_once?);
    Ok(())
}

/// Gives a.occ a text without lines, so many times.
fn change(alloc: Global, board: &mut Board, times: u32) -> Result<(), Fail> {
    let Some(source) = open(alloc, "a.occ", "")?.source else {
        return Ok(());
    };
    let name = FileName::read(b"a.occ")?;
    for _ in 0..times {
        let _edited = board.change(alloc, 1, name, source.share()?);
    }
    Ok(())
}

/// What is answered where b.occ is opened.
fn opened(alloc: Global, board: &mut Board) -> Result<Result<u32, EditFault>, Fail> {
    match open(alloc, "b.occ", "")?.source {
        Some(source) => Ok(board.open(alloc, 1, FileName::read(b"b.occ")?, source)),
        None => Ok(Err(EditFault::Memory)),
    }
}

/// Whether a checkpoint hands so many edits out, and the base has the number of the last one.
fn cuts(alloc: Global, board: &mut Board, number: u32) -> Result<bool, Fail> {
    let cut = board.checkpoint(alloc)?;
    Ok(
        cut.number == number
            && cut.entries.len() == number as usize
            && board.base().number == number
            && board.entries().is_empty(),
    )
}

/// Whether b.occ is not opened after 100,000 edits, and is after a checkpoint, as the next edit.
fn goes_on(alloc: Global, board: &mut Board) -> Result<bool, Fail> {
    change(alloc, board, 99_999)?;
    let full = opened(alloc, board)?;
    let cuts = cuts(alloc, board, 100_000)?;
    let next = opened(alloc, board)?;
    Ok(
        matches!(full, Err(EditFault::JournalFull))
            && cuts
            && matches!(next, Ok(100_001))
            && board.entries().len() == 1,
    )
}

#[test]
fn edits_go_on_with_their_numbers_after_a_checkpoint(rt: HostRuntime) -> Result<(), Fail> {
    let a = rt.alloc();
    let mut board = board(a)?;
    let goes_on = goes_on(a, &mut board);
    drop(board);
    assert!(rt; goes_on?);
    Ok(())
}
