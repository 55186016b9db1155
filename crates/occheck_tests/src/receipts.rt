//! Tests: wrong receipts, and what a worker counts where edits come between.
ghost use Rattle.std.specs.Prelude.{◌≤◌, ◌<◌, length};

use super::expansion::open;
use super::server::{PLAIN, added, changed, refused, works};
use occ_base::{FileName, Shared};
use occ_forms::Source;
use occ_server::{CloseFault, Edit, Gate, Receipt, Server, WorkEnd};
use std::alloc::Global;
use std::sync::Wait;
use std::sync::atomic::{AtomicUsize, Ordering};
use std::test::Fail;

/// Keeps a receipt, if there is one.
fn keep(receipts: &mut Vec<Receipt>, receipt: Option<Receipt>) -> Result<(), Fail> {
    if let Some(receipt) = receipt {
        receipts.push(receipt)?;
    }
    Ok(())
}

/// Opens a.occ and changes it twice: three receipts.
fn three_edits<R: Wait>(
    rt: &R,
    alloc: Global,
    server: &Server,
    receipts: &mut Vec<Receipt>,
) -> Result<(), Fail> {
    keep(receipts, added(rt, alloc, server, "a.occ", "")?)?;
    keep(receipts, changed(rt, alloc, server, "a.occ", "SKIP\n")?)?;
    keep(receipts, changed(rt, alloc, server, "a.occ", PLAIN)?)
}

/// The receipts of the second and the fourth edit of another server, where the second opens another file.
fn others<R: Wait>(rt: &R, alloc: Global, receipts: &mut Vec<Receipt>) -> Result<(), Fail> {
    let server = Server::new(alloc);
    let _first = added(rt, alloc, &server, "a.occ", "")?;
    keep(receipts, added(rt, alloc, &server, "b.occ", "")?)?;
    let _third = changed(rt, alloc, &server, "a.occ", PLAIN)?;
    keep(receipts, changed(rt, alloc, &server, "a.occ", "")?)
}

/// Why a server is not closed with the first of the receipts, two of which have changed places until then.
fn refused_with(
    alloc: Global,
    server: Server,
    receipts: &mut [Receipt],
    count: usize,
    first: usize,
    second: usize,
) -> Result<(Server, CloseFault), Fail>
    requires count { count ≤ length receipts.old }
    requires first { first < length receipts.old }
    requires second { second < length receipts.old }
{
    receipts.swap(first, second);
    let refused = refused(alloc, server, receipts.split_at(count).0);
    receipts.swap(first, second);
    refused
}

#[test]
fn a_server_comes_back_from_wrong_receipts(rt: HostRuntime) -> Result<(), Fail> {
    let a = rt.alloc();
    let server = Server::new(a);
    let mut receipts = Vec::new(a);
    three_edits(&rt, a, &server, &mut receipts)?;
    others(&rt, a, &mut receipts)?;
    assert_eq!(rt; receipts.len(), 5);
    assert!(rt; works(&rt, a, &server, 1));
    let (server, fault) = refused_with(a, server, receipts.as_mut_slice(), 2, 1, 2)?;
    assert!(rt; matches!(fault, CloseFault::Mismatch(2)));
    let (server, fault) = refused_with(a, server, receipts.as_mut_slice(), 3, 2, 3)?;
    assert!(rt; matches!(fault, CloseFault::OutOfOrder));
    let (server, fault) = refused_with(a, server, receipts.as_mut_slice(), 0, 0, 0)?;
    assert!(rt; matches!(fault, CloseFault::Mismatch(1)));
    let (server, fault) = refused_with(a, server, receipts.as_mut_slice(), 4, 3, 4)?;
    assert!(rt; matches!(fault, CloseFault::Mismatch(4)));
    let (server, fault) = refused_with(a, server, receipts.as_mut_slice(), 3, 1, 3)?;
    assert!(rt; matches!(fault, CloseFault::Mismatch(2)));
    match server.close(a, receipts.as_slice().split_at(3).0) {
        Ok(ended) => assert_eq!(rt; ended.entries().len(), 3),
        Err(_) => assert!(rt; false),
    }
    Ok(())
}

/// Gives the unit that passes this text, so many times, and then stops the server.
#[derive(Drop)]
struct Changing<'a> {
    server: &'a Server,
    alloc: Global,
    source: Shared<Source>,
    left: AtomicUsize,
}

impl Gate for Changing<'_> {
    fn pass<R: Wait>(&self, rt: &R, unit: &FileName) {
        if self.left.fetch_sub(1, Ordering::SeqCst) == 0 {
            return self.server.stop(rt);
        }
        if let Ok(source) = self.source.share() {
            let edit = Edit::Changed(*unit, source);
            let _changed = self.server.edit(rt, self.alloc, 2, edit);
        }
    }
}

#[test]
fn a_worker_counts_what_an_edit_made_stale(rt: HostRuntime) -> Result<(), Fail> {
    let a = rt.alloc();
    let server = Server::new(a);
    assert!(rt; added(&rt, a, &server, "a.occ", "")?.is_some());
    let Some(source) = open(a, "a.occ", PLAIN)?.source else {
        return Ok(assert!(rt; false));
    };
    let gate = Changing {
        server: &server,
        alloc: a,
        source,
        left: AtomicUsize::new(3),
    };
    let worked = server.work(&rt, a, &gate);
    assert_eq!(rt; worked.stale, 3);
    assert_eq!(rt; worked.accepted, 1);
    assert!(rt; worked.end == WorkEnd::Stopped);
    Ok(())
}
