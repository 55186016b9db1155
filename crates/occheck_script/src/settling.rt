//! Takes, checks and finishes jobs until there is none to take.
ghost use Rattle.occ_board.specs.Machine.{after, take_answer};
ghost use Rattle.occ_board.specs.Machine.Event.{Finish, Take};
ghost use Rattle.occheck_script.specs.Settling.{settled, settled_in};
ghost use Rattle.occheck_script.specs.inside.Seen.{IsNext};
ghost use Rattle.std.specs.Prelude.{◌≡◌, IfOk, OnOk};

use occ_board::Board;
use std::alloc::{AllocError, Global};

/// Takes, checks and finishes jobs until there is none to take.
pub fn settle(alloc: Global, board: &mut Board) -> Result<(), AllocError>
    ensures { OnOk result (board.new ≡ settled board.old) }
{
    let jobs = board.pending();
    settle_in(alloc, board, jobs)?;
    Ok(())
}

/// Does so with so many jobs at most.
fn settle_in(alloc: Global, board: &mut Board, jobs: usize) -> Result<(), AllocError>
    ensures { OnOk result (board.new ≡ settled_in jobs board.old) }
{
    for _ in 0..jobs {
        if !work_once(alloc, board)? {
            return Ok(());
        }
    }
    Ok(())
}

/// Takes, checks and finishes one job, and says whether there was one.
fn work_once(alloc: Global, board: &mut Board) -> Result<bool, AllocError>
    ensures { IfOk result (λ was_one. IsNext was_one (take_answer board.old) board.old board.new) }
{
    board.work(alloc)
}
