//! Events of a board. Where memory is refused, entries, report and pending number are as before, and the event is asked for again.
use super::off::{Off, wanted};
use super::rows::outcome;
use super::texts::read;
use occ_base::{FileName, Shared};
use occ_forms::Source;
use occ_project::Read;
use occ_server::{Board, EditFault, Job, Outcome, Verdict};
use occheck_script::report_lines;
use std::alloc::Global;

/// A unit that declares a procedure, and one that uses it.
const QUIET: &str = "PROC q ()\n  SKIP\n:\n";

const USER: &str = "#USE \"a\"\nPROC r ()\n  q ()\n:\n";

/// What is seen of a board.
#[derive(Drop)]
struct Seen {
    report: Vec<u8>,
    pending: usize,
    entries: usize,
    base: u32,
}

fn looked_at(alloc: Global, board: &Board) -> Result<Seen, Off> {
    let rows = board.report(alloc)?;
    Ok(Seen {
        report: report_lines(alloc, rows.as_slice())?,
        pending: board.pending(),
        entries: board.entries().len(),
        base: board.base().number,
    })
}

/// That a refusal has left the board as it was.
fn stays(alloc: Global, board: &Board, before: &Seen) -> Result<(), Off> {
    let now = looked_at(alloc, board)?;
    wanted(
        now.report.as_slice() == before.report.as_slice()
            && now.pending == before.pending
            && now.entries == before.entries
            && now.base == before.base,
    )
}

/// An edit.
#[derive(Clone, Copy)]
enum Kind {
    Open,
    Change,
    Remove,
}

fn edit(
    alloc: Global,
    board: &mut Board,
    kind: Kind,
    name: FileName,
    source: Shared<Source>,
) -> Result<u32, EditFault> {
    match kind {
        Kind::Open => board.open(alloc, 0, name, source),
        Kind::Change => board.change(alloc, 0, name, source),
        Kind::Remove => board.remove(alloc, 0, name),
    }
}

/// An edit that is made once memory is not refused.
fn edited(alloc: Global, board: &mut Board, kind: Kind, name: &str, text: &str) -> Result<(), Off> {
    let before = looked_at(alloc, board)?;
    let Read { name, source, .. } = read(alloc, name, text)?;
    let Some(source) = source else {
        return Err(Off::Differs);
    };
    let again = source.share()?;
    if let Err(fault) = edit(alloc, board, kind, name, source) {
        wanted(matches!(fault, EditFault::Memory))?;
        stays(alloc, board, &before)?;
        edit(alloc, board, kind, name, again)?;
    }
    wanted(board.entries().len() == before.entries.saturating_add(1))
}

/// Takes the job of this unit.
fn taken(alloc: Global, board: &mut Board, unit: &str) -> Result<Job, Off> {
    let before = looked_at(alloc, board)?;
    let job = match board.take(alloc) {
        Ok(job) => job,
        Err(_refused) => {
            stays(alloc, board, &before)?;
            board.take(alloc)?
        }
    };
    let Some(job) = job else {
        return Err(Off::Differs);
    };
    wanted(job.unit().as_bytes() == unit.as_bytes())?;
    Ok(job)
}

/// What becomes of an outcome, which comes back where memory is refused.
fn verdict(alloc: Global, board: &mut Board, outcome: Outcome) -> Result<Verdict, Off> {
    let before = looked_at(alloc, board)?;
    let outcome = match board.finish(outcome) {
        Ok(verdict) => return Ok(verdict),
        Err((outcome, _refused)) => outcome,
    };
    stays(alloc, board, &before)?;
    match board.finish(outcome) {
        Ok(verdict) => Ok(verdict),
        Err((_outcome, _refused)) => Err(Off::Memory),
    }
}

/// Takes the job of this unit, checks it, and has its outcome accepted.
fn finished(alloc: Global, board: &mut Board, unit: &str) -> Result<(), Off> {
    let job = taken(alloc, board, unit)?;
    let outcome = outcome(alloc, job)?;
    let verdict = verdict(alloc, board, outcome)?;
    wanted(matches!(verdict, Verdict::Accepted))
}

/// Takes the next job, checks it and caches its outcome, all at once.
fn worked(alloc: Global, board: &mut Board) -> Result<(), Off> {
    let before = looked_at(alloc, board)?;
    let was_one = match board.work(alloc) {
        Ok(was_one) => was_one,
        Err(_refused) => {
            stays(alloc, board, &before)?;
            board.work(alloc)?
        }
    };
    wanted(was_one)
}

/// A checkpoint that hands so many edits out.
fn cut(alloc: Global, board: &mut Board, entries: usize) -> Result<(), Off> {
    let before = looked_at(alloc, board)?;
    let cut = match board.checkpoint(alloc) {
        Ok(cut) => cut,
        Err(_refused) => {
            stays(alloc, board, &before)?;
            board.checkpoint(alloc)?
        }
    };
    wanted(cut.entries.len() == entries && board.entries().is_empty())
}

fn reports(alloc: Global, board: &Board, wanted_report: &str) -> Result<(), Off> {
    wanted(looked_at(alloc, board)?.report.as_slice() == wanted_report.as_bytes())
}

/// Two units of which one uses the other, and a changed comment that leaves the user done.
fn shared(alloc: Global, board: &mut Board) -> Result<(), Off> {
    edited(alloc, board, Kind::Open, "a.occ", QUIET)?;
    edited(alloc, board, Kind::Open, "b.occ", USER)?;
    finished(alloc, board, "a.occ")?;
    finished(alloc, board, "b.occ")?;
    edited(
        alloc,
        board,
        Kind::Change,
        "a.occ",
        "-- note\nPROC q ()\n  SKIP\n:\n",
    )?;
    reports(alloc, board, "pending a.occ\npending b.occ\nend\n")?;
    let job = taken(alloc, board, "a.occ")?;
    board.abandon(&job);
    finished(alloc, board, "a.occ")?;
    reports(alloc, board, "unit a.occ ok\nunit b.occ ok\nend\n")
}

/// A file to include that comes and goes, after a checkpoint.
fn included(alloc: Global, board: &mut Board) -> Result<(), Off> {
    cut(alloc, board, 3)?;
    edited(alloc, board, Kind::Change, "b.occ", "#INCLUDE \"k.inc\"\n")?;
    edited(alloc, board, Kind::Open, "k.inc", QUIET)?;
    finished(alloc, board, "b.occ")?;
    edited(alloc, board, Kind::Remove, "k.inc", "")?;
    edited(alloc, board, Kind::Remove, "a.occ", "")?;
    worked(alloc, board)?;
    reports(
        alloc,
        board,
        "unit b.occ 1\n  b.occ:1 G4 error k.inc\nend\n",
    )
}

pub fn events(alloc: Global) -> Result<(), Off> {
    let mut board = Board::new(alloc);
    shared(alloc, &mut board)?;
    included(alloc, &mut board)
}
