//! The check of texts, by a board: all are opened, it settles, and what its report shows is told.
ghost use Rattle.occ_board.specs.Machine.{pending_answer};
ghost use Rattle.occ_files_check.specs.Told.{heads, opening, project_of, told_diags as spec_told_diags, whole_rows};
ghost use Rattle.occ_messages.specs.Located.{head_of};
ghost use Rattle.std.specs.Prelude.{◌≡◌, ◌++◌, ◌∷◌, [], IfOk, OnOk, map};

use super::telling::{faulty, messages, told_diags};
use occ_base::{FileName, Items};
use occ_board::laws::report_law;
use occ_board::{Board, EditFault, Row};
use occ_files::Text;
use occ_messages::Message;
use occheck_script::settle;
use std::alloc::{AllocError, AllocFailed, Global};

/// Why texts are not checked.
#[derive(Clone, Copy)]
pub enum CheckFault {
    /// The board refuses one of them: two have one name, or there are too many.
    Refused(EditFault),
    /// A unit is still pending after all. That never is: `settling_law` of `occ_theorems` says so.
    Pending,
    /// Memory was refused.
    Memory,
}

impl From<AllocError> for CheckFault {
    fn from(_error: AllocError) -> CheckFault {
        CheckFault::Memory
    }
}

impl<T: Drop> From<AllocFailed<T>> for CheckFault {
    fn from(_error: AllocFailed<T>) -> CheckFault {
        CheckFault::Memory
    }
}

/// What is told of texts.
#[derive(Drop)]
pub struct CheckedTexts {
    pub messages: Vec<Message>,
    /// Of how many units there is something to tell.
    pub faulty: usize,
}

/// All texts belong to one session.
const SESSION: u32 = 0;

/// What is told of these units among texts: the diagnostics that the report of the texts from nothing has of them, in order,
/// each once, at their paths and lines.
pub fn check_texts(
    alloc: Global,
    texts: &[Text],
    units: &[FileName],
) -> Result<CheckedTexts, CheckFault>
    ensures { IfOk result (λ checked. map head_of checked.messages.items ≡ heads texts.now (spec_told_diags units.now (whole_rows (project_of texts.now)))) }
{
    let rows = report_of(alloc, texts)?;
    let diags = told_diags(alloc, rows.as_slice(), units)?;
    Ok(CheckedTexts {
        messages: messages(alloc, diags.as_slice(), texts)?,
        faulty: faulty(rows.as_slice(), units),
    })
}

/// The report from nothing of these texts: each unit among them in order of name, with its diagnostics in order.
fn report_of(alloc: Global, texts: &[Text]) -> Result<Items<Row>, CheckFault>
    ensures { IfOk result (λ rows. rows ≡ whole_rows (project_of texts.now)) }
{
    report_law();
    let mut board = Board::new(alloc);
    open_all(alloc, &mut board, texts)?;
    settle_all(alloc, &mut board)?;
    Ok(board.report(alloc)?)
}

/// Opens all texts, one after the other.
fn open_all(alloc: Global, board: &mut Board, texts: &[Text]) -> Result<(), CheckFault>
    ensures base { OnOk result (board.new.base ≡ board.old.base) }
    ensures journal { OnOk result (board.new.journal ≡ board.old.journal ++ map opening texts.now) }
{
    for text in texts {
        open(alloc, board, text)?;
    }
    Ok(())
}

/// Opens a text.
fn open(alloc: Global, board: &mut Board, text: &Text) -> Result<(), CheckFault>
    ensures base { OnOk result (board.new.base ≡ board.old.base) }
    ensures journal { OnOk result (board.new.journal ≡ board.old.journal ++ opening text.now ∷ []) }
{
    match board.open(alloc, SESSION, text.name, text.source.share()?) {
        Ok(_number) => Ok(()),
        Err(EditFault::Memory) => Err(CheckFault::Memory),
        Err(fault) => Err(CheckFault::Refused(fault)),
    }
}

/// Checks all units, so that none is pending.
fn settle_all(alloc: Global, board: &mut Board) -> Result<(), CheckFault>
    ensures base { OnOk result (board.new.base ≡ board.old.base) }
    ensures journal { OnOk result (board.new.journal ≡ board.old.journal) }
    ensures pending { OnOk result (pending_answer board.new ≡ 0) }
{
    settle(alloc, board)?;
    if board.pending() > 0 {
        return Err(CheckFault::Pending);
    }
    Ok(())
}
