//! What a server promises to threads that share it: receipts of edits, reports that have them, and its end.
ghost use Rattle.occ_server.specs.Held.{IsCutOf, IsNumberOf, IsRefusalOf, IsUnended, IsUnreported, OfOne};
ghost use Rattle.occ_server.specs.Receipts.{ascends, entry_at, receipts_of};
ghost use Rattle.occ_server.specs.Snapshots.{IsSnapshot, IsWhole};
ghost use Rattle.occ_server.specs.declared.fault.CloseFault.TheVariants as close_fault;
ghost use Rattle.std.specs.Prelude.{IfErr, IfOk, IsErrAnd, Some, false, ◌≡◌};

use occ_board::{Cut, Edit, EditFault};
use occ_server::{CloseFault, Ended, Receipt, ReportFault, Server, Snapshot};
use std::alloc::{AllocError, Global};
use std::sync::Wait;

/// The receipt of an edit has that edit, the session that made it, and a number that comes next in some legal journal; a refusal is
/// one that the machine gives in some such state. So an editor can ask for a report that has seen it.
pub fn receipt_theorem<R: Wait>(
    rt: &R,
    alloc: Global,
    server: &Server,
    session: u32,
    edit: Edit,
) -> Result<Receipt, EditFault>
    ensures entry { IfOk result (λ r. r.entry ≡ record { session = session; edit = edit }) }
    ensures number { IfOk result (λ r. OfOne (IsNumberOf edit r.number)) }
    ensures refused { IfErr result (λ f. IsRefusalOf session edit f) }
{
    server.edit(rt, alloc, session, edit)
}

/// A report that is asked for with a receipt has the edit of the receipt at its number, in a journal that is legal over its base.
/// Each open unit is in it as pending or with exactly the diagnostics of these files. A refusal tells what else stands at that number.
pub fn snapshot_theorem<R: Wait>(
    rt: &R,
    alloc: Global,
    server: &Server,
    seen: &Receipt,
) -> Result<Snapshot, ReportFault>
    ensures right { IfOk result (λ s. IsSnapshot s.base s.entries s.rows) }
    ensures seen { IfOk result (λ s. entry_at s.base s.entries seen.now.number ≡ Some seen.now.entry) }
    ensures unseen { IfErr result (λ f. IsUnreported (Some seen.now) f) }
{
    let snapshot = server.report(rt, alloc, Some(seen))?;
    let _entries = snapshot.entries();
    Ok(snapshot)
}

/// A server that is closed gives the report from nothing of its base and all edits since; the receipts are those of these, in order.
/// So no edit is lost and none is made up, whatever threads did. A refusal is told of numbers first, then of a number, then of units.
pub fn end_theorem(
    alloc: Global,
    server: Server,
    receipts: &[Receipt],
) -> Result<Ended, (Server, CloseFault)>
    ensures receipts { IfOk result (λ e. receipts.now ≡ receipts_of e.base e.entries) }
    ensures right { IfOk result (λ e. IsWhole e.base e.entries e.rows) }
    ensures order { ascends receipts.now ≡ false → IsErrAnd result (λ refused. refused.1 ≡ close_fault.OutOfOrder) }
    ensures unended { IfErr result (λ refused. OfOne (IsUnended receipts.now refused.1)) }
{
    let ended = server.close(alloc, receipts)?;
    let _entries = ended.entries();
    Ok(ended)
}

/// A checkpoint of a server hands out the edits of some journal that is legal over its base, with the number of the last one.
/// That it is the server's own is said of what stands after the lock.
pub fn cut_theorem<R: Wait>(rt: &R, alloc: Global, server: &Server) -> Result<Cut, AllocError>
    ensures { IfOk result (λ cut. OfOne (IsCutOf cut)) }
{
    server.checkpoint(rt, alloc)
}
