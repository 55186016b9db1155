//! The calls that threads make. They lock, wait and wake; what is known of a result is in its type. `docs/MACHINE.md, The
//! server`.
ghost use Rattle.occ_server.specs.Held.{IsCutOf, IsNumberOf, IsRefusalOf, IsUnended, IsUnreported, OfOne, is_waiting};
ghost use Rattle.occ_server.specs.Receipts.{ascends, receipts_of};
ghost use Rattle.occ_server.specs.Snapshots.{IsBehind, Stands};
ghost use Rattle.std.specs.Option.{option_copied};
ghost use Rattle.std.specs.Sync.Mutex.{mutex_guard_value};
ghost use Rattle.occ_server.specs.declared.fault.CloseFault.TheVariants as close_fault;
ghost use Rattle.std.specs.Prelude.{◌≡◌, IfErr, IfOk, IsErrAnd, false};

use super::copying::copied_edit;
use super::fault::{CloseFault, ReportFault};
use super::locked::Locked;
use super::receipt::Receipt;
use super::snapshot::{Ended, Snapshot};
use super::work::{Gate, Settled, WorkEnd, Worked};
use occ_board::{Cut, Edit, EditFault, Job, Outcome, Verdict, check};
use std::alloc::{AllocError, Global};
use std::sync::{Condvar, Mutex, MutexGuard, Wait};

/// A board that threads share. All calls but `new` and `close` may wait for the lock.
pub struct Server {
    locked: Mutex<Locked>,
    /// Reported of each change that a thread may wait for.
    changed: Condvar,
}

/// Written out: crates above call it, where each would prove a derived one anew.
impl Drop for Server {
    fn drop(self) {
        let Server {
            locked: _,
            changed: _,
        } = self;
    }
}

impl Server {
    /// No file is open, and no edit was made.
    pub fn new(alloc: Global) -> Server {
        Server {
            locked: Mutex::new(Locked::new(alloc)),
            changed: Condvar::new(),
        }
    }

    /// A session makes an edit, also where the server is stopped.
    pub fn edit<R: Wait>(
        &self,
        rt: &R,
        alloc: Global,
        session: u32,
        edit: Edit,
    ) -> Result<Receipt, EditFault>
        ensures entry { IfOk result (λ r. r.entry ≡ record { session = session; edit = edit }) }
        ensures number { IfOk result (λ r. OfOne (IsNumberOf edit r.number)) }
        ensures refused { IfErr result (λ f. IsRefusalOf session edit f) }
    {
        let copy = copied_edit(&edit)?;
        let receipt = self.locked.lock(rt).edit(alloc, session, edit, copy)?;
        self.changed.notify_all();
        Ok(receipt)
    }

    /// Takes jobs, lets each pass the gate, checks and finishes it; waits while there is none to take, and ends once the
    /// server is stopped. Where memory is refused the job is abandoned and the server stopped.
    pub fn work<R: Wait, G: Gate>(&self, rt: &R, alloc: Global, gate: &G) -> Worked {
        let mut worked = Worked::new();
        for _ in rt.forever() {
            match self.work_once(rt, alloc, gate) {
                Ok(Some(verdict)) => worked.count(verdict),
                Ok(None) => return worked,
                Err(_refused) => {
                    self.stop(rt);
                    worked.end = WorkEnd::Memory;
                    return worked;
                }
            }
        }
        unreachable!()
    }

    /// Works at one job. None once the server is stopped.
    fn work_once<R: Wait, G: Gate>(
        &self,
        rt: &R,
        alloc: Global,
        gate: &G,
    ) -> Result<Option<Verdict>, AllocError> {
        let Some(job) = self.next(rt, alloc)? else {
            return Ok(None);
        };
        gate.pass(rt, &job.unit());
        match check(alloc, job) {
            Ok(outcome) => Ok(Some(self.finish(rt, outcome)?)),
            Err((job, refused)) => {
                self.abandon(rt, &job);
                Err(refused)
            }
        }
    }

    /// Waits for a job. None once the server is stopped.
    fn next<R: Wait>(&self, rt: &R, alloc: Global) -> Result<Option<Job>, AllocError> {
        let mut locked = self.locked.lock(rt);
        for _ in rt.forever() {
            if locked.stopped {
                return Ok(None);
            }
            if let Some(job) = locked.take(alloc)? {
                return Ok(Some(job));
            }
            locked = self.changed.wait(rt, locked);
        }
        unreachable!()
    }

    /// Finishes an outcome. Where memory is refused its job is abandoned.
    fn finish<R: Wait>(&self, rt: &R, outcome: Outcome) -> Result<Verdict, AllocError> {
        match self.judge(rt, outcome) {
            Ok(verdict) => {
                self.changed.notify_all();
                Ok(verdict)
            }
            Err((outcome, refused)) => {
                self.abandon(rt, outcome.job());
                Err(refused)
            }
        }
    }

    fn judge<R: Wait>(&self, rt: &R, outcome: Outcome) -> Result<Verdict, (Outcome, AllocError)> {
        self.locked.lock(rt).finish(outcome)
    }

    fn abandon<R: Wait>(&self, rt: &R, job: &Job) {
        self.locked.lock(rt).abandon(job);
        self.changed.notify_all();
    }

    /// Waits until no unit is pending, or the server is stopped.
    pub fn settle<R: Wait>(&self, rt: &R) -> Settled {
        self.quiet(rt).settled()
    }

    /// What is locked once there is nothing to wait for. The lock is held then.
    fn quiet<R: Wait>(&self, rt: &R) -> MutexGuard<'_, Locked>
        ensures { is_waiting (mutex_guard_value result).stopped (mutex_guard_value result).board ≡ false }
    {
        self.changed
            .wait_while(rt, self.locked.lock(rt), |locked| locked.is_waiting())
    }

    /// Makes the present project the base, and hands out the edits since the base before. From then on receipts of these have no
    /// report.
    pub fn checkpoint<R: Wait>(&self, rt: &R, alloc: Global) -> Result<Cut, AllocError>
        ensures { IfOk result (λ cut. OfOne (IsCutOf cut)) }
    {
        self.locked.lock(rt).checkpoint(alloc)
    }

    /// The report, with the base and the edits that were accepted since. With a receipt, one that has seen its edit.
    pub fn report<R: Wait>(
        &self,
        rt: &R,
        alloc: Global,
        seen: Option<&Receipt>,
    ) -> Result<Snapshot, ReportFault>
        ensures stands { IfOk result (λ s. Stands (option_copied seen.entry) s.base s.entries) }
        ensures behind { IfErr result (λ f. IsBehind (option_copied seen.entry) f) }
        ensures found { IfErr result (λ f. IsUnreported (option_copied seen.entry) f) }
    {
        let snapshot = self.locked.lock(rt).report(alloc, seen)?;
        Ok(snapshot)
    }

    /// From now on workers end, and `settle` waits no more. Edits are still taken.
    pub fn stop<R: Wait>(&self, rt: &R) {
        self.locked.lock(rt).stop();
        self.changed.notify_all();
    }

    /// Ends with the report from nothing, if these are the receipts of all edits since the base, in order, and no unit is
    /// pending. Else the server comes back.
    pub fn close(self, alloc: Global, receipts: &[Receipt]) -> Result<Ended, (Server, CloseFault)>
        ensures receipts { IfOk result (λ e. receipts.now ≡ receipts_of e.base e.entries) }
        ensures order { ascends receipts.now ≡ false → IsErrAnd result (λ refused. refused.1 ≡ close_fault.OutOfOrder) }
        ensures unended { IfErr result (λ refused. OfOne (IsUnended receipts.now refused.1)) }
    {
        let Server { locked, changed } = self;
        match locked.into_inner().close(alloc, receipts) {
            Ok(ended) => Ok(ended),
            Err((same, fault)) => {
                let locked = Mutex::new(same);
                Err((Server { locked, changed }, fault))
            }
        }
    }
}
