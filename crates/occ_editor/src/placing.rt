//! Texts on a board: a file is given a text or taken away, and what the report of the board shows is told.
ghost use Rattle.occ_board.specs.Machine.{files_of, pending_answer};
ghost use Rattle.occ_editor.specs.Placing.{source_on, told_of, told_rows};
ghost use Rattle.std.specs.Prelude.{◌≡◌, IfOk, List, None, OnOk, Some, cond, ℕ};
ghost use Rattle.std.specs.Str.{bytes_eq};

use occ_base::{Diag, FileName, Items, Shared};
use occ_board::laws::report_law;
use occ_board::{Board, EditFault, Row};
use occ_check::in_order;
use occ_files_check::{CheckFault, add_shown};
use occ_forms::Source;
use occ_project_units::laws::put_law;
use occheck_script::settle;
use std::alloc::{AllocError, Global};

/// All texts belong to one session.
const SESSION: u32 = 0;

/// After so many edits a journal is cut.
const EDIT_LIMIT: usize = 8;

/// Cuts the journal, if it is long. No file changes.
fn cut(alloc: Global, board: &mut Board) -> Result<(), AllocError>
    ensures { OnOk result (files_of board.new ≡ files_of board.old) }
{
    if board.entries().len() >= EDIT_LIMIT {
        let _cut = board.checkpoint(alloc)?;
    }
    Ok(())
}

/// Gives a file of the board this text, whether it has one or not. All others stay.
pub fn put(
    alloc: Global,
    board: &mut Board,
    name: FileName,
    source: Shared<Source>,
) -> Result<(), EditFault>
    ensures { OnOk result ((other : List ℕ) → source_on board.new other ≡ cond (bytes_eq name other) (Some source) (source_on board.old other)) }
{
    put_law();
    cut(alloc, board)?;
    match board.change(alloc, SESSION, name, source.share()?) {
        Err(EditFault::NotOpen) => open(alloc, board, name, source),
        Err(fault) => Err(fault),
        Ok(_number) => Ok(()),
    }
}

/// Opens a file on the board. All others stay.
fn open(
    alloc: Global,
    board: &mut Board,
    name: FileName,
    source: Shared<Source>,
) -> Result<(), EditFault>
    ensures { OnOk result ((other : List ℕ) → source_on board.new other ≡ cond (bytes_eq name other) (Some source) (source_on board.old other)) }
{
    put_law();
    match board.open(alloc, SESSION, name, source) {
        Ok(_number) => Ok(()),
        Err(fault) => Err(fault),
    }
}

/// Takes a file from the board. All others stay.
pub fn remove(alloc: Global, board: &mut Board, name: FileName) -> Result<(), EditFault>
    ensures { OnOk result ((other : List ℕ) → source_on board.new other ≡ cond (bytes_eq name other) None (source_on board.old other)) }
{
    put_law();
    cut(alloc, board)?;
    match board.remove(alloc, SESSION, name) {
        Ok(_number) => Ok(()),
        Err(fault) => Err(fault),
    }
}

/// Checks what is pending, and gives the diagnostics that the report shows then: those that the rules give for the files of the
/// board, in order, each once.
pub fn told(alloc: Global, board: &mut Board) -> Result<Items<Diag>, CheckFault>
    ensures same { OnOk result (files_of board.new ≡ files_of board.old) }
    ensures told { IfOk result (λ diags. diags ≡ told_of (files_of board.old)) }
{
    report_law();
    settle_all(alloc, board)?;
    let rows = board.report(alloc)?;
    Ok(told_in(alloc, rows.as_slice())?)
}

/// Checks all units, so that none is pending.
fn settle_all(alloc: Global, board: &mut Board) -> Result<(), CheckFault>
    ensures same { OnOk result (files_of board.new ≡ files_of board.old) }
    ensures pending { OnOk result (pending_answer board.new ≡ 0) }
{
    settle(alloc, board)?;
    if board.pending() > 0 {
        return Err(CheckFault::Pending);
    }
    Ok(())
}

/// The diagnostics of all rows, in order, each once.
fn told_in(alloc: Global, rows: &[Row]) -> Result<Items<Diag>, AllocError>
    ensures { IfOk result (λ diags. diags ≡ told_rows rows.now) }
{
    let mut diags = Items::new(alloc);
    for row in rows {
        add_shown(alloc, &row.shown, &mut diags)?;
    }
    in_order(alloc, diags)
}
