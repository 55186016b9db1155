//! Checks a job for a worker, and the line of its verdict.
ghost use Rattle.occheck_script.specs.Machine.{verdict_text};
ghost use Rattle.std.specs.Prelude.{◌≡◌, IfOk};

use super::answer::line_naming;
use occ_base::FileName;
use occ_board::{Board, Job, Outcome, Verdict};
use std::alloc::{AllocError, Global};

/// The outcome of a job.
pub fn checked(alloc: Global, board: &Board, job: Job) -> Result<Outcome, AllocError>
    ensures { IfOk result (λ outcome. outcome ≡ job) }
{
    match board.check(alloc, job) {
        Ok(outcome) => Ok(outcome),
        Err(_refused) => Err(AllocError),
    }
}

/// The answer that says what became of an outcome of the unit.
pub fn verdict_line(alloc: Global, unit: FileName, verdict: Verdict) -> Result<Vec<u8>, AllocError>
    ensures { IfOk result (λ bytes. bytes.items ≡ verdict_text unit verdict) }
{
    match verdict {
        Verdict::Accepted => line_naming(alloc, "accepted ", unit.as_bytes()),
        Verdict::Repeated => line_naming(alloc, "repeated ", unit.as_bytes()),
        Verdict::Stale(name) => line_naming(alloc, "stale ", name.as_bytes()),
        Verdict::Foreign(name) => line_naming(alloc, "foreign ", name.as_bytes()),
    }
}
