//! Tests: reports after edits, closing with all receipts, receipts of edits that a checkpoint cut off, a stopped server.
use super::expansion::open;
use occ_base::FileName;
use occ_project::Read;
use occ_server::{
    CloseFault, Edit, Entry, Gate, Receipt, ReportFault, Row, Server, Settled, Shown, Snapshot,
    WorkEnd,
};
use std::alloc::Global;
use std::sync::Wait;
use std::sync::atomic::{AtomicUsize, Ordering};
use std::test::Fail;

/// A unit that declares a procedure and uses no other.
pub const PLAIN: &str = "PROC p ()\n  SKIP\n:\n";

/// A session opens a file.
pub fn added<R: Wait>(
    rt: &R,
    alloc: Global,
    server: &Server,
    name: &str,
    text: &str,
) -> Result<Option<Receipt>, Fail> {
    let Read { name, source, .. } = open(alloc, name, text)?;
    match source {
        Some(source) => Ok(server.edit(rt, alloc, 1, Edit::Added(name, source)).ok()),
        None => Ok(None),
    }
}

/// A session gives an open file another text.
pub fn changed<R: Wait>(
    rt: &R,
    alloc: Global,
    server: &Server,
    name: &str,
    text: &str,
) -> Result<Option<Receipt>, Fail> {
    let Read { name, source, .. } = open(alloc, name, text)?;
    match source {
        Some(source) => Ok(server.edit(rt, alloc, 2, Edit::Changed(name, source)).ok()),
        None => Ok(None),
    }
}

/// Whether the row shows its unit as pending.
fn is_pending(row: &Row) -> bool {
    matches!(&row.shown, Shown::Pending)
}

/// Whether a report shows the unit, and not as pending.
pub fn is_done(snapshot: &Snapshot, unit: &[u8]) -> bool {
    snapshot
        .report()
        .iter()
        .any(|row| row.unit.as_bytes() == unit && !is_pending(row))
}

/// Whether a journal has the edit of a receipt at its number.
fn has(entries: &[Entry], receipt: &Receipt) -> bool {
    match entries.get(receipt.number() as usize - 1) {
        Some(entry) => {
            entry.session == receipt.session() && entry.edit.name() == receipt.edit().name()
        }
        None => false,
    }
}

/// Stops the server at its last pass.
#[derive(Drop)]
struct Last<'a> {
    server: &'a Server,
    left: AtomicUsize,
}

impl Gate for Last<'_> {
    fn pass<R: Wait>(&self, rt: &R, _unit: &FileName) {
        if self.left.fetch_sub(1, Ordering::SeqCst) == 1 {
            self.server.stop(rt);
        }
    }
}

/// Works at so many units, and stops the server. Whether all were accepted, and none is pending.
pub fn works<R: Wait>(rt: &R, alloc: Global, server: &Server, units: usize) -> bool {
    let gate = Last {
        server,
        left: AtomicUsize::new(units),
    };
    let worked = server.work(rt, alloc, &gate);
    worked.accepted == units as u64
        && worked.stale == 0
        && worked.end == WorkEnd::Stopped
        && server.settle(rt) == Settled::Clear
}

/// Whether the report after a receipt has its edit, and shows a.occ as done or not.
fn shows<R: Wait>(rt: &R, alloc: Global, server: &Server, receipt: &Receipt, done: bool) -> bool {
    match server.report(rt, alloc, Some(receipt)) {
        Ok(seen) => has(seen.entries(), receipt) && is_done(&seen, b"a.occ") == done,
        Err(_) => false,
    }
}

/// Whether a server refuses a receipt of another.
fn is_refused<R: Wait>(rt: &R, alloc: Global, server: &Server, receipt: &Receipt) -> bool {
    matches!(
        server.report(rt, alloc, Some(receipt)),
        Err(ReportFault::Behind(None))
    )
}

#[test]
fn a_report_after_an_edit_has_seen_it(rt: HostRuntime) -> Result<(), Fail> {
    let a = rt.alloc();
    let server = Server::new(a);
    let Some(receipt) = added(&rt, a, &server, "a.occ", PLAIN)? else {
        return Ok(assert!(rt; false));
    };
    assert!(rt; is_refused(&rt, a, &Server::new(a), &receipt));
    assert!(rt; shows(&rt, a, &server, &receipt, false));
    assert!(rt; works(&rt, a, &server, 1));
    assert!(rt; shows(&rt, a, &server, &receipt, true));
    Ok(())
}

/// The server that comes back where it is not closed, and why it is not.
pub fn refused(
    alloc: Global,
    server: Server,
    receipts: &[Receipt],
) -> Result<(Server, CloseFault), Fail> {
    match server.close(alloc, receipts) {
        Ok(_ended) => Ok((Server::new(alloc), CloseFault::Memory)),
        Err(refused) => Ok(refused),
    }
}

#[test]
fn a_server_is_closed_with_all_receipts_in_order(rt: HostRuntime) -> Result<(), Fail> {
    let a = rt.alloc();
    let server = Server::new(a);
    let mut receipts = Vec::new(a);
    if let Some(receipt) = changed(&rt, a, &server, "a.occ", PLAIN)? {
        receipts.push(receipt)?;
    }
    assert_eq!(rt; receipts.len(), 0);
    if let Some(receipt) = added(&rt, a, &server, "a.occ", PLAIN)? {
        receipts.push(receipt)?;
    }
    if let Some(receipt) = changed(&rt, a, &server, "a.occ", "SKIP\n")? {
        receipts.push(receipt)?;
    }
    assert_eq!(rt; receipts.len(), 2);
    receipts.as_mut_slice().swap(0, 1);
    let (server, fault) = refused(a, server, receipts.as_slice())?;
    assert!(rt; matches!(fault, CloseFault::OutOfOrder));
    receipts.as_mut_slice().swap(0, 1);
    let (server, fault) = refused(a, server, receipts.as_slice().split_at(1).0)?;
    assert!(rt; matches!(fault, CloseFault::Mismatch(2)));
    let (server, fault) = refused(a, server, receipts.as_slice())?;
    assert!(rt; matches!(fault, CloseFault::Pending));
    assert!(rt; works(&rt, a, &server, 1));
    match server.close(a, receipts.as_slice()) {
        Ok(ended) => {
            assert_eq!(rt; ended.entries().len(), 2);
            assert_eq!(rt; ended.report().len(), 1);
        }
        Err(_) => assert!(rt; false),
    }
    Ok(())
}

/// Whether a server has cut off a receipt, where its base has number 2.
fn is_cut<R: Wait>(rt: &R, alloc: Global, server: &Server, receipt: &Receipt) -> bool {
    matches!(
        server.report(rt, alloc, Some(receipt)),
        Err(ReportFault::Cut(2))
    )
}

/// Whether a server has a report after a receipt, with one edit over that base.
fn is_kept<R: Wait>(rt: &R, alloc: Global, server: &Server, receipt: &Receipt) -> bool {
    match server.report(rt, alloc, Some(receipt)) {
        Ok(seen) => seen.base().number == 2 && seen.entries().len() == 1,
        Err(_) => false,
    }
}

#[test]
fn receipts_are_cut_off_by_a_checkpoint(rt: HostRuntime) -> Result<(), Fail> {
    let a = rt.alloc();
    let server = Server::new(a);
    let Some(first) = added(&rt, a, &server, "a.occ", PLAIN)? else {
        return Ok(assert!(rt; false));
    };
    let Some(second) = changed(&rt, a, &server, "a.occ", "SKIP\n")? else {
        return Ok(assert!(rt; false));
    };
    let cut = server.checkpoint(&rt, a)?;
    assert_eq!(rt; cut.number, 2);
    assert_eq!(rt; cut.entries.len(), 2);
    let Some(third) = changed(&rt, a, &server, "a.occ", PLAIN)? else {
        return Ok(assert!(rt; false));
    };
    assert!(rt; works(&rt, a, &server, 1));
    assert!(rt; is_cut(&rt, a, &server, &first));
    assert!(rt; is_kept(&rt, a, &server, &third));
    let mut receipts = Vec::new(a);
    receipts.push(first)?;
    receipts.push(second)?;
    receipts.push(third)?;
    let (server, fault) = refused(a, server, receipts.as_slice())?;
    assert!(rt; matches!(fault, CloseFault::Mismatch(1)));
    match server.close(a, receipts.as_slice().split_at(2).1) {
        Ok(ended) => {
            assert_eq!(rt; ended.base().number, 2);
            assert_eq!(rt; ended.entries().len(), 1);
            assert_eq!(rt; ended.report().len(), 1);
        }
        Err(_) => assert!(rt; false),
    }
    Ok(())
}

#[test]
fn a_stopped_server_settles_nothing(rt: HostRuntime) -> Result<(), Fail> {
    let a = rt.alloc();
    let server = Server::new(a);
    assert!(rt; server.settle(&rt) == Settled::Clear);
    assert!(rt; added(&rt, a, &server, "a.occ", PLAIN)?.is_some());
    server.stop(&rt);
    let idle = Last {
        server: &server,
        left: AtomicUsize::new(0),
    };
    assert!(rt; server.settle(&rt) == Settled::Stopped);
    assert!(rt; server.work(&rt, a, &idle).end == WorkEnd::Stopped);
    assert!(rt; changed(&rt, a, &server, "a.occ", "SKIP\n")?.is_some());
    Ok(())
}
