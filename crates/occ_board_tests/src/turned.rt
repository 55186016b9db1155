//! Tests: the uses of an interface count as a set. A job that is made by hand, with the uses the other way round and each twice,
//! counts as the board's own.
use occ_base::{FileName, Items, Shared};
use occ_board::{Board, Job, Outcome, Used, UsedUnit, Verdict, check};
use occ_forms::prepare;
use occ_project::{Read, Reads};
use occ_types::{Export, FormalUse, Interface};
use std::alloc::Global;
use std::test::Fail;

/// A unit whose procedure writes one formal and reads the other.
const USED: &str = "PROC p (INT x, INT y)\n  x := y\n:\n";

/// A unit that uses it.
const USER: &str = "#USE \"a.occ\"\nPROC q ()\n  INT x, y:\n  SEQ\n    y := 1\n    p (x, y)\n:\n";

/// Opens a file.
fn open(alloc: Global, board: &mut Board, name: &str, text: &str) -> Result<bool, Fail> {
    let source = Shared::new(alloc, prepare(alloc, text.as_bytes())?)?;
    Ok(
        board
            .open(alloc, 1, FileName::read(name.as_bytes())?, source)
            .is_ok(),
    )
}

/// What becomes of the outcome of a job.
fn finish(alloc: Global, board: &mut Board, job: Job) -> Result<Verdict, Fail> {
    let outcome: Outcome = match check(alloc, job) {
        Ok(outcome) => outcome,
        Err((_job, refused)) => Err(refused)?,
    };
    match board.finish(outcome) {
        Ok(verdict) => Ok(verdict),
        Err((_outcome, refused)) => Err(refused)?,
    }
}

/// The uses the other way round, each twice. They are of whole formals.
fn turned_uses(alloc: Global, uses: &[FormalUse]) -> Result<Items<FormalUse>, Fail> {
    let mut turned = Items::new(alloc);
    for found in uses.iter().rev() {
        for _ in 0..2 {
            turned.push(FormalUse {
                formal: found.formal,
                selectors: Items::new(alloc),
                kind: found.kind,
            })?;
        }
    }
    Ok(turned)
}

/// The export of a PROC, with its uses turned.
fn turned_export(alloc: Global, export: &Export) -> Result<Export, Fail> {
    Ok(Export {
        name: export.name.copied(alloc)?,
        kind: export.kind,
        formals: export.formals.share()?,
        results: Items::new(alloc),
        uses: turned_uses(alloc, export.uses.as_slice())?,
        effect: export.effect,
    })
}

/// How a unit is used, with the uses of its exports turned.
fn turned(alloc: Global, used: &Used) -> Result<Used, Fail> {
    let Used::Clean(shown) = used else {
        return Ok(Used::Absent);
    };
    let mut exports = Items::new(alloc);
    for export in shown.get().exports.as_slice() {
        exports.push(turned_export(alloc, export)?)?;
    }
    Ok(Used::Clean(Shared::new(alloc, Interface { exports })?))
}

/// The same files.
fn copied(alloc: Global, reads: &Reads) -> Result<Reads, Fail> {
    let mut copies = Items::new(alloc);
    for read in reads.as_slice() {
        let source = match &read.source {
            Some(source) => Some(source.share()?),
            None => None,
        };
        copies.push(Read {
            name: read.name,
            revision: read.revision,
            source,
        })?;
    }
    Ok(copies)
}

/// The job, made by hand with all uses turned.
fn by_hand(alloc: Global, job: &Job) -> Result<Job, Fail> {
    let mut used = Items::new(alloc);
    for one in job.used() {
        used.push(UsedUnit {
            unit: one.unit,
            used: turned(alloc, &one.used)?,
        })?;
    }
    Ok(Job::new(alloc, job.unit(), copied(alloc, job.reads())?, used)?)
}

/// How many uses the one export of the one used unit has in a job; 0 if there is none.
fn uses_of(job: &Job) -> usize {
    let [one] = job.used() else {
        return 0;
    };
    let Used::Clean(shown) = &one.used else {
        return 0;
    };
    match shown.get().exports.as_slice() {
        [export] => export.uses.as_slice().len(),
        _ => 0,
    }
}

/// Checks the next unit.
fn step(alloc: Global, board: &mut Board) -> Result<bool, Fail> {
    match board.take(alloc)? {
        Some(job) => Ok(matches!(finish(alloc, board, job)?, Verdict::Accepted)),
        None => Ok(false),
    }
}

/// Whether the outcome of the turned job of the user is accepted, and then one more is repeated.
fn is_taken(alloc: Global, board: &mut Board) -> Result<bool, Fail> {
    let Some(job) = board.take(alloc)? else {
        return Ok(false);
    };
    let has_uses = uses_of(&job) > 1;
    let first = by_hand(alloc, &job)?;
    let second = by_hand(alloc, &job)?;
    Ok(
        has_uses
            && matches!(finish(alloc, board, first)?, Verdict::Accepted)
            && matches!(finish(alloc, board, second)?, Verdict::Repeated)
            && matches!(finish(alloc, board, job)?, Verdict::Repeated)
            && board.pending() == 0,
    )
}

/// Whether that is so where both files are open and the used unit is done.
fn is_one_set(alloc: Global, board: &mut Board) -> Result<bool, Fail> {
    Ok(
        open(alloc, board, "a.occ", USED)?
            && open(alloc, board, "b.occ", USER)?
            && step(alloc, board)?
            && is_taken(alloc, board)?,
    )
}

#[test]
fn a_job_with_the_uses_of_an_interface_in_another_order_is_the_same(
    rt: HostRuntime,
) -> Result<(), Fail> {
    let a = rt.alloc();
    let mut board = Board::new(a);
    let is_one_set = is_one_set(a, &mut board);
    drop(board);
    assert!(rt; is_one_set?);
    Ok(())
}
