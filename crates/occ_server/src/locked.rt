//! What is locked: a board and a stop flag. Each method is one critical section, with its whole contract.
ghost use Rattle.occ_board.specs.Journal.{base_after};
ghost use Rattle.occ_board.specs.Machine.{Answer, Event, after, answer, edit_answer, edit_number, files_of, finish_answer, pending_answer, report_answer, start};
ghost use Rattle.occ_board.specs.declared.entry.EditFault.TheVariants as fault;
ghost use Rattle.occ_board.specs.declared.entry.EditFault.{EditFault as AFault};
ghost use Rattle.occ_board.specs.declared.verdict.Verdict.TheVariants as verdicts;
ghost use Rattle.occ_server.specs.Held.{IsHeld, IsUnended, is_waiting as spec_is_waiting};
ghost use Rattle.occ_server.specs.Receipts.{IsLeastOff, Numbered, ascends as spec_ascends, entry_at, receipts_of};
ghost use Rattle.occ_server.specs.Snapshots.{IsBehind, IsFound, Stands};
ghost use Rattle.occ_server.specs.declared.fault.CloseFault.TheVariants as refusal;
ghost use Rattle.occ_server.specs.declared.fault.ReportFault.TheVariants as report_refusal;
ghost use Rattle.occ_server.specs.declared.work.Settled.TheVariants as ends;
ghost use Rattle.std.specs.Option.{option_copied};
ghost use Rattle.std.specs.Prelude.{◌≡◌, ◌≤◌, ◌<◌, ◌⊎◌, ℕ, Err, IfErr, IfOk, IsErrAnd, None, OnErr, OnOk, Some, false, true};

use super::comparing::{ascends, entry_of, first_off, is_found};
use super::copying::{all_copied, copied};
use super::fault::{CloseFault, ReportFault};
use super::laws::receipts_law;
use super::receipt::Receipt;
use super::snapshot::{Ended, Snapshot};
use super::work::Settled;
use occ_board::laws::report_law;
use occ_board::{Base, Board, Cut, Edit, EditFault, Entry, Job, Outcome, Verdict, copied_base};
use std::alloc::{AllocError, Global};

/// What stands after the lock: a board, which is a state of the machine whose files are those that its journal makes of its
/// base, and whether the server is stopped. Each method is one critical section.
#[derive(Drop)]
pub struct Locked {
    pub board: Board,
    pub stopped: bool,
}

impl Locked {
    /// Nothing was edited, and nothing is stopped.
    pub fn new(alloc: Global) -> Locked
        ensures board { result.board ≡ start }
        ensures stopped { result.stopped ≡ false }
    {
        Locked {
            board: Board::new(alloc),
            stopped: false,
        }
    }

    /// A session makes an edit. The receipt has the copy.
    pub fn edit(
        &mut self,
        alloc: Global,
        session: u32,
        edit: Edit,
        copy: Edit,
    ) -> Result<Receipt, EditFault>
        requires { copy ≡ edit }
        ensures held { IsHeld self.old.board }
        ensures accepted { OnOk result (edit_answer self.old.board edit ≡ None) }
        ensures receipt { IfOk result (λ r. r ≡ record { number = edit_number self.old.board; entry = record { session = session; edit = edit } }) }
        ensures after { OnOk result (self.new.board ≡ after self.old.board (Event.Edited session edit)) }
        ensures fault { IfErr result (λ f. (f ≡ fault.Memory) ⊎ (Answer.Refused f ≡ answer self.old.board (Event.Edited session edit))) }
        ensures refused { (f : AFault) → answer self.old.board (Event.Edited session edit) ≡ Answer.Refused f → result ≡ Err f }
        ensures err { OnErr result (self.new.board ≡ self.old.board) }
        ensures stopped { self.new.stopped ≡ self.old.stopped }
    {
        let _base = self.board.base();
        let _entries = self.board.entries();
        let number = self.accept(alloc, session, edit)?;
        let entry = Entry {
            session,
            edit: copy,
        };
        Ok(Receipt::of(number, entry))
    }

    /// The number of the edit.
    #[tactic(auto, using(crate::proofs::Numbers::number_is, crate::proofs::Numbers::is_accepted))]
    fn accept(&mut self, alloc: Global, session: u32, edit: Edit) -> Result<u32, EditFault>
        ensures accepted { OnOk result (edit_answer self.old.board edit ≡ None) }
        ensures number { IfOk result (λ number. number ≡ edit_number self.old.board) }
        ensures after { OnOk result (self.new.board ≡ after self.old.board (Event.Edited session edit)) }
        ensures fault { IfErr result (λ f. (f ≡ fault.Memory) ⊎ (Answer.Refused f ≡ answer self.old.board (Event.Edited session edit))) }
        ensures refused { (f : AFault) → answer self.old.board (Event.Edited session edit) ≡ Answer.Refused f → result ≡ Err f }
        ensures err { OnErr result (self.new.board ≡ self.old.board) }
        ensures stopped { self.new.stopped ≡ self.old.stopped }
    {
        match edit {
            Edit::Added(name, source) => self.board.open(alloc, session, name, source),
            Edit::Changed(name, source) => self.board.change(alloc, session, name, source),
            Edit::Removed(name) => self.board.remove(alloc, session, name),
        }
    }

    /// Hands out a job, if there is one.
    pub fn take(&mut self, alloc: Global) -> Result<Option<Job>, AllocError>
        ensures answered { IfOk result (λ job. Answer.Job job ≡ answer self.old.board Event.Take) }
        ensures after { OnOk result (self.new.board ≡ after self.old.board Event.Take) }
        ensures err { OnErr result (self.new.board ≡ self.old.board) }
        ensures stopped { self.new.stopped ≡ self.old.stopped }
    {
        let job = self.board.take(alloc)?;
        Ok(job)
    }

    /// Judges an outcome. Where memory is refused it comes back.
    pub fn finish(&mut self, outcome: Outcome) -> Result<Verdict, (Outcome, AllocError)>
        ensures answered { IfOk result (λ verdict. Answer.Judged verdict ≡ answer self.old.board (Event.Finish outcome)) }
        ensures after { OnOk result (self.new.board ≡ after self.old.board (Event.Finish outcome)) }
        ensures err { IfErr result (λ refused. (refused.0 ≡ outcome) × ((self.new.board ≡ self.old.board) × (finish_answer self.old.board outcome ≡ verdicts.Accepted))) }
        ensures stopped { self.new.stopped ≡ self.old.stopped }
    {
        let verdict = self.board.finish(outcome)?;
        Ok(verdict)
    }

    /// A job is handed out no more.
    pub fn abandon(&mut self, job: &Job)
        ensures after { self.new.board ≡ after self.old.board (Event.Abandon job.now) }
        ensures stopped { self.new.stopped ≡ self.old.stopped }
    {
        self.board.abandon(job);
    }

    /// From now on workers end.
    pub fn stop(&mut self)
        ensures board { self.new.board ≡ self.old.board }
        ensures stopped { self.new.stopped ≡ true }
    {
        self.stopped = true;
    }

    /// Whether there is something to wait for: a unit is pending, and the server is not stopped.
    pub fn is_waiting(&self) -> bool
        ensures { result ≡ spec_is_waiting self.now.stopped self.now.board }
    {
        !self.stopped && self.board.pending() > 0
    }

    /// How a wait for pending units ends here.
    pub fn settled(&self) -> Settled
        ensures clear { pending_answer self.now.board ≡ 0 → result ≡ ends.Clear }
        ensures stopped { 0 < pending_answer self.now.board → result ≡ ends.Stopped }
    {
        if self.board.pending() == 0 {
            Settled::Clear
        } else {
            Settled::Stopped
        }
    }

    /// Makes the present project the base, and hands out the edits that the journal had.
    pub fn checkpoint(&mut self, alloc: Global) -> Result<Cut, AllocError>
        ensures held { IsHeld self.old.board }
        ensures answered { IfOk result (λ cut. Answer.Gives cut ≡ answer self.old.board Event.Checkpoint) }
        ensures after { OnOk result (self.new.board ≡ after self.old.board Event.Checkpoint) }
        ensures replayed { IfOk result (λ cut. self.new.board.base ≡ base_after self.old.board.base cut.entries) }
        ensures err { OnErr result (self.new.board ≡ self.old.board) }
        ensures stopped { self.new.stopped ≡ self.old.stopped }
    {
        let _base = self.board.base();
        let _entries = self.board.entries();
        let cut = self.board.checkpoint(alloc)?;
        Ok(cut)
    }

    /// The report, with a copy of the base and the journal, if that has the receipt.
    pub fn report(&self, alloc: Global, seen: Option<&Receipt>) -> Result<Snapshot, ReportFault>
        ensures held { IsHeld self.now.board }
        ensures base { IfOk result (λ s. s.base ≡ self.now.board.base) }
        ensures entries { IfOk result (λ s. s.entries ≡ self.now.board.journal) }
        ensures rows { IfOk result (λ s. s.rows ≡ report_answer self.now.board) }
        ensures stands { IfOk result (λ s. Stands (option_copied seen.entry) self.now.board.base self.now.board.journal) }
        ensures cut { (t : Numbered) → option_copied seen.entry ≡ Some t → t.number ≤ self.now.board.base.number → result ≡ Err (report_refusal.Cut self.now.board.base.number) }
        ensures behind { IfErr result (λ f. IsBehind (option_copied seen.entry) f) }
        ensures found { IfErr result (λ f. IsFound (option_copied seen.entry) self.now.board.base self.now.board.journal f) }
    {
        see(seen, self.board.base(), self.board.entries())?;
        let rows = self.board.report(alloc)?;
        let base = copied_base(alloc, self.board.base())?;
        let entries = all_copied(alloc, self.board.entries())?;
        Ok(Snapshot::of(base, entries, rows))
    }

    /// The end: all edits since the base have their receipts, in order, and nothing is pending.
    fn end(&self, alloc: Global, receipts: &[Receipt]) -> Result<Ended, CloseFault>
        ensures held { IsHeld self.now.board }
        ensures unended { IfErr result (λ f. IsUnended receipts.now f self.now.board) }
        ensures base { IfOk result (λ e. e.base ≡ self.now.board.base) }
        ensures entries { IfOk result (λ e. e.entries ≡ self.now.board.journal) }
        ensures agree { IfOk result (λ e. receipts.now ≡ receipts_of self.now.board.base self.now.board.journal) }
        ensures order { spec_ascends receipts.now ≡ false → result ≡ Err refusal.OutOfOrder }
        ensures mismatch { (n : ℕ) → spec_ascends receipts.now ≡ true → IsLeastOff receipts.now self.now.board.base self.now.board.journal n → result ≡ Err (refusal.Mismatch n) }
        ensures pending { receipts.now ≡ receipts_of self.now.board.base self.now.board.journal → 0 < pending_answer self.now.board → result ≡ Err refusal.Pending }
        ensures memory { receipts.now ≡ receipts_of self.now.board.base self.now.board.journal → pending_answer self.now.board ≡ 0 → IfErr result (λ f. f ≡ refusal.Memory) }
    {
        let _base = self.board.base();
        let _entries = self.board.entries();
        self.agree(receipts)?;
        if self.board.pending() > 0 {
            return Err(CloseFault::Pending);
        }
        let ended = self.whole(alloc)?;
        Ok(ended)
    }

    /// Whether receipts are those of all edits since the base, in order.
    fn agree(&self, receipts: &[Receipt]) -> Result<(), CloseFault>
        ensures agree { OnOk result (receipts.now ≡ receipts_of self.now.board.base self.now.board.journal) }
        ensures order { spec_ascends receipts.now ≡ false → result ≡ Err refusal.OutOfOrder }
        ensures mismatch { (n : ℕ) → spec_ascends receipts.now ≡ true → IsLeastOff receipts.now self.now.board.base self.now.board.journal n → result ≡ Err (refusal.Mismatch n) }
        ensures unended { IfErr result (λ f. IsUnended receipts.now f self.now.board) }
        ensures same { receipts.now ≡ receipts_of self.now.board.base self.now.board.journal → OnErr result ⊥ }
    {
        receipts_law();
        if !ascends(receipts) {
            return Err(CloseFault::OutOfOrder);
        }
        match first_off(receipts, self.board.base(), self.board.entries()) {
            Some(number) => Err(CloseFault::Mismatch(number)),
            None => Ok(()),
        }
    }

    /// The end, or what is locked as it was, and why it has no end.
    pub fn close(self, alloc: Global, receipts: &[Receipt]) -> Result<Ended, (Locked, CloseFault)>
        ensures held { IsHeld self.board }
        ensures back { IfErr result (λ refused. refused.0 ≡ self) }
        ensures unended { IfErr result (λ refused. IsUnended receipts.now refused.1 self.board) }
        ensures base { IfOk result (λ e. e.base ≡ self.board.base) }
        ensures entries { IfOk result (λ e. e.entries ≡ self.board.journal) }
        ensures agree { IfOk result (λ e. receipts.now ≡ receipts_of self.board.base self.board.journal) }
        ensures order { spec_ascends receipts.now ≡ false → IsErrAnd result (λ refused. refused.1 ≡ refusal.OutOfOrder) }
        ensures pending { receipts.now ≡ receipts_of self.board.base self.board.journal → 0 < pending_answer self.board → IsErrAnd result (λ refused. refused.1 ≡ refusal.Pending) }
    {
        match self.end(alloc, receipts) {
            Ok(ended) => Ok(ended),
            Err(fault) => Err((self, fault)),
        }
    }

    /// The base, the journal and their report, where nothing is pending.
    fn whole(&self, alloc: Global) -> Result<Ended, AllocError>
        requires { pending_answer self.now.board ≡ 0 }
        ensures base { IfOk result (λ e. e.base ≡ self.now.board.base) }
        ensures entries { IfOk result (λ e. e.entries ≡ self.now.board.journal) }
    {
        report_law();
        let rows = self.board.report(alloc)?;
        let base = copied_base(alloc, self.board.base())?;
        let entries = all_copied(alloc, self.board.entries())?;
        Ok(Ended::of(base, entries, rows))
    }
}

/// Whether a journal has the receipt, if one is given.
fn see(seen: Option<&Receipt>, base: &Base, entries: &[Entry]) -> Result<(), ReportFault>
    ensures stands { OnOk result (Stands (option_copied seen.entry) base.now entries.now) }
    ensures cut { (t : Numbered) → option_copied seen.entry ≡ Some t → t.number ≤ base.now.number → result ≡ Err (report_refusal.Cut base.now.number) }
    ensures behind { IfErr result (λ f. IsBehind (option_copied seen.entry) f) }
    ensures found { IfErr result (λ f. IsFound (option_copied seen.entry) base.now entries.now f) }
{
    match seen {
        Some(receipt) => find(receipt, base, entries),
        None => Ok(()),
    }
}

/// Whether a journal has the receipt.
fn find(receipt: &Receipt, base: &Base, entries: &[Entry]) -> Result<(), ReportFault>
    ensures stands { OnOk result (Stands (Some receipt.now) base.now entries.now) }
    ensures cut { receipt.now.number ≤ base.now.number → result ≡ Err (report_refusal.Cut base.now.number) }
    ensures behind { IfErr result (λ f. IsBehind (Some receipt.now) f) }
    ensures found { IfErr result (λ f. IsFound (Some receipt.now) base.now entries.now f) }
{
    if receipt.number() <= base.number {
        return Err(ReportFault::Cut(base.number));
    }
    let found = entry_of(base, entries, receipt.number());
    if is_found(found, receipt.entry()) {
        return Ok(());
    }
    Err(ReportFault::Behind(copy_of(found)?))
}

/// A copy of what is found.
fn copy_of(found: Option<&Entry>) -> Result<Option<Entry>, AllocError>
    ensures { IfOk result (λ copy. copy ≡ option_copied found.entry) }
{
    match found {
        Some(entry) => Ok(Some(copied(entry)?)),
        None => Ok(None),
    }
}
