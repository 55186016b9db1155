//! Events of a server. A refused edit or report leaves the journal and does not stop it; where `work` is refused memory it is
//! stopped, with the unit still pending; from a refused close it comes back.
use super::off::{Off, wanted};
use super::texts::{RACE, read};
use occ_base::FileName;
use occ_project::Read;
use occ_server::{
    CloseFault, Edit, EditFault, Ended, Gate, Receipt, ReportFault, Server, Settled, Shown,
    Snapshot, WorkEnd,
};
use std::alloc::Global;
use std::sync::Wait;

/// Stops the server with the first job that passes.
#[derive(Drop)]
struct Once<'a> {
    server: &'a Server,
}

impl Gate for Once<'_> {
    fn pass<R: Wait>(&self, rt: &R, _unit: &FileName) {
        self.server.stop(rt);
    }
}

/// A report, asked for again where memory is refused.
fn reported<R: Wait>(
    rt: &R,
    alloc: Global,
    server: &Server,
    receipt: Option<&Receipt>,
) -> Result<Snapshot, Off> {
    match server.report(rt, alloc, receipt) {
        Ok(snapshot) => Ok(snapshot),
        Err(ReportFault::Memory) => Ok(server.report(rt, alloc, receipt)?),
        Err(_fault) => Err(Off::Differs),
    }
}

/// How many edits the journal has.
fn count<R: Wait>(rt: &R, alloc: Global, server: &Server) -> Result<usize, Off> {
    Ok(reported(rt, alloc, server, None)?.entries().len())
}

/// An edit of a.occ, the first of them or a later one.
fn edit(alloc: Global, text: &str, is_first: bool) -> Result<Edit, Off> {
    let Read { name, source, .. } = read(alloc, "a.occ", text)?;
    let Some(source) = source else {
        return Err(Off::Differs);
    };
    Ok(if is_first {
        Edit::Added(name, source)
    } else {
        Edit::Changed(name, source)
    })
}

/// An edit that is made once memory is not refused.
fn edited<R: Wait>(
    rt: &R,
    alloc: Global,
    server: &Server,
    text: &str,
    is_first: bool,
) -> Result<Receipt, Off> {
    let before = count(rt, alloc, server)?;
    match server.edit(rt, alloc, 1, edit(alloc, text, is_first)?) {
        Ok(receipt) => Ok(receipt),
        Err(EditFault::Memory) => {
            wanted(count(rt, alloc, server)? == before)?;
            Ok(server.edit(rt, alloc, 1, edit(alloc, text, is_first)?)?)
        }
        Err(_fault) => Err(Off::Differs),
    }
}

/// Whether the report shows one unit, pending or not.
fn is_one(snapshot: &Snapshot, is_pending: bool) -> bool {
    matches!(snapshot.report(), [row] if matches!(&row.shown, Shown::Pending) == is_pending)
}

/// One unit is checked. A server that was stopped before would check none.
fn worked<R: Wait>(rt: &R, alloc: Global, server: &Server) -> Result<(), Off> {
    let worked = server.work(rt, alloc, &Once { server });
    if worked.end == WorkEnd::Memory {
        wanted(server.settle(rt) == Settled::Stopped)?;
        wanted(is_one(&reported(rt, alloc, server, None)?, true))?;
        return Err(Off::Memory);
    }
    wanted(worked.accepted == 1 && server.settle(rt) == Settled::Clear)
}

/// The end of a server, which comes back where memory is refused.
fn closed(alloc: Global, server: Server, receipts: &[Receipt]) -> Result<Ended, Off> {
    let server = match server.close(alloc, receipts) {
        Ok(ended) => return Ok(ended),
        Err((server, CloseFault::Memory)) => server,
        Err((_server, _fault)) => return Err(Off::Differs),
    };
    match server.close(alloc, receipts) {
        Ok(ended) => Ok(ended),
        Err((_server, CloseFault::Memory)) => Err(Off::Memory),
        Err((_server, _fault)) => Err(Off::Differs),
    }
}

/// A checkpoint that hands two edits out.
fn cut<R: Wait>(rt: &R, alloc: Global, server: &Server) -> Result<(), Off> {
    let cut = match server.checkpoint(rt, alloc) {
        Ok(cut) => cut,
        Err(_refused) => {
            wanted(count(rt, alloc, server)? == 2)?;
            server.checkpoint(rt, alloc)?
        }
    };
    wanted(cut.entries.len() == 2 && count(rt, alloc, server)? == 0)
}

pub fn events<R: Wait>(rt: &R, alloc: Global) -> Result<(), Off> {
    let server = Server::new(alloc);
    let _first = edited(rt, alloc, &server, "", true)?;
    let _second = edited(rt, alloc, &server, "SKIP\n", false)?;
    cut(rt, alloc, &server)?;
    let third = edited(rt, alloc, &server, RACE, false)?;
    wanted(is_one(&reported(rt, alloc, &server, Some(&third))?, true))?;
    worked(rt, alloc, &server)?;
    wanted(is_one(&reported(rt, alloc, &server, Some(&third))?, false))?;
    let mut receipts = Vec::new(alloc);
    receipts.push(third)?;
    let ended = closed(alloc, server, receipts.as_slice())?;
    wanted(ended.entries().len() == 1 && ended.report().len() == 1)
}
