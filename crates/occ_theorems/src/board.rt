//! What the calls of a board promise: the report, an edit, a job, its check and its outcome.
ghost use Rattle.occ_board.specs.Done.{NoneIsHanded};
ghost use Rattle.occ_board.specs.Journal.{IsBase, base_after};
ghost use Rattle.occ_board.specs.Machine.{Answer, Event, State, after, answer, files_of, finish_answer, pending_answer, report_answer};
ghost use Rattle.occ_board.specs.declared.entry.Edit.TheVariants as an_edit;
ghost use Rattle.occ_board.specs.declared.entry.EditFault.TheVariants as fault;
ghost use Rattle.occ_board.specs.declared.verdict.Verdict.TheVariants as verdicts;
ghost use Rattle.occ_check.specs.Checks.{input};
ghost use Rattle.occ_theorems.specs.Edits.{LeavesApart};
ghost use Rattle.occ_theorems.specs.Reports.{IsRight};
ghost use Rattle.std.specs.Option.{is_some};
ghost use Rattle.std.specs.Prelude.{IfErr, IfOk, OnErr, OnOk, true, ◌<◌, ◌≡◌, ◌⊎◌};

use super::machine::edit_apart_law;
use super::projects::circular_use_law;
use occ_base::{FileName, Items, Shared};
use occ_board::laws::{done_law, report_law};
use occ_board::{Board, Cut, EditFault, Row, Verdict};
use occ_check::{Job, Outcome, check};
use occ_forms::Source;
use std::alloc::{AllocError, Global};

/// The report of each state over a base is right: of a unit that is not pending it has exactly the diagnostics of the present texts.
/// With none pending it is the report from nothing. Each use in a circle has its G2 among the diagnostics, pending or not.
pub fn right_report_law()
    ensures { (s : State) → IsBase s.base → IsRight s }
{
    report_law();
    done_law();
    circular_use_law();
}

/// A board reports what the machine answers, and that report is right.
/// This is what an editor is shown, whatever edits, checks and reports came before.
pub fn report_theorem(alloc: Global, board: &Board) -> Result<Items<Row>, AllocError>
    ensures rows { IfOk result (λ rows. rows ≡ report_answer board.now) }
    ensures right { IsRight board.now }
{
    right_report_law();
    let _base = board.base();
    board.report(alloc)
}

/// A change of a file is answered as the machine says; units that do not reach the file keep their input and stay as they were.
/// So they need no new check, and a refused edit changes nothing.
pub fn change_theorem(
    alloc: Global,
    board: &mut Board,
    session: u32,
    name: FileName,
    source: Shared<Source>,
) -> Result<u32, EditFault>
    ensures answered { IfOk result (λ number. Answer.Number number ≡ answer board.old (Event.Edited session (an_edit.Changed name source))) }
    ensures after { OnOk result (board.new ≡ after board.old (Event.Edited session (an_edit.Changed name source))) }
    ensures fault { IfErr result (λ f. (f ≡ fault.Memory) ⊎ (Answer.Refused f ≡ answer board.old (Event.Edited session (an_edit.Changed name source)))) }
    ensures apart { OnOk result (LeavesApart board.old board.new name) }
    ensures err { OnErr result (board.new ≡ board.old) }
{
    edit_apart_law();
    let _base = board.base();
    board.change(alloc, session, name, source)
}

/// A board hands out a job where a unit is pending and none of the pending units is handed out with its present input.
/// So while no job is handed out, a pending unit gives one, unless memory is refused.
pub fn take_theorem(alloc: Global, board: &mut Board) -> Result<Option<Job>, AllocError>
    ensures answered { IfOk result (λ job. Answer.Job job ≡ answer board.old Event.Take) }
    ensures after { OnOk result (board.new ≡ after board.old Event.Take) }
    ensures given { IfOk result (λ job. 0 < pending_answer board.old → NoneIsHanded (files_of board.old) board.old.cached board.old.handed → is_some job ≡ true) }
    ensures err { OnErr result (board.new ≡ board.old) }
{
    board.take(alloc)
}

/// The outcome of a check has the input of its job; by the type `Outcome` it has the diagnostics and the interface of that input.
/// So a check may run anywhere, beside edits and other checks.
pub fn check_theorem(alloc: Global, job: Job) -> Result<Outcome, (Job, AllocError)>
    ensures ok { IfOk result (λ outcome. outcome ≡ job) }
    ensures err { IfErr result (λ refused. refused.0 ≡ job) }
{
    check(alloc, job)
}

/// An outcome is accepted only where its input is the present one, and then fewer units are pending.
/// So an outcome of earlier texts is not accepted.
pub fn finish_theorem(board: &mut Board, outcome: Outcome) -> Result<Verdict, (Outcome, AllocError)>
    ensures answered { IfOk result (λ verdict. Answer.Judged verdict ≡ answer board.old (Event.Finish outcome)) }
    ensures after { OnOk result (board.new ≡ after board.old (Event.Finish outcome)) }
    ensures present { IfOk result (λ verdict. verdict ≡ verdicts.Accepted → outcome ≡ input (files_of board.old) outcome.unit) }
    ensures fewer { IfOk result (λ verdict. verdict ≡ verdicts.Accepted → pending_answer board.new < pending_answer board.old) }
    ensures err { IfErr result (λ refused. (refused.0 ≡ outcome) × ((board.new ≡ board.old) × (finish_answer board.old outcome ≡ verdicts.Accepted))) }
{
    board.finish(outcome)
}

/// A checkpoint makes the present project the base and hands out the edits in between; over the old base they make the new one.
/// So a journal may be cut: nothing is lost to whoever keeps what was cut off, and no outcome, job or pending unit changes.
pub fn checkpoint_theorem(alloc: Global, board: &mut Board) -> Result<Cut, AllocError>
    ensures answered { IfOk result (λ cut. Answer.Gives cut ≡ answer board.old Event.Checkpoint) }
    ensures after { OnOk result (board.new ≡ after board.old Event.Checkpoint) }
    ensures replayed { IfOk result (λ cut. board.new.base ≡ base_after board.old.base cut.entries) }
    ensures err { OnErr result (board.new ≡ board.old) }
{
    board.checkpoint(alloc)
}
