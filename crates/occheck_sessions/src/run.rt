//! Runs sessions and workers in threads, joins them, settles and closes the server, and writes the output.
//! `docs/MACHINE.md, Sessions`.
ghost use Rattle.occheck_commands.specs.Script.{script_of};
ghost use Rattle.occheck_script.specs.Machine.{Reading};
ghost use Rattle.occheck_script.specs.Status.{is_device_fault};
ghost use Rattle.occ_server.specs.Receipts.{receipts_of};
ghost use Rattle.occheck_sessions.specs.Output.{AreReading, IsRun, IsWritten, first_fault};
ghost use Rattle.occheck_sessions.specs.inside.Written.{IsFaultWritten, IsOutput, IsOutputWritten};
ghost use Rattle.std.specs.List.{list_any};
ghost use Rattle.std.specs.Prelude.{◌≡◌, ◌≤◌, ◌<◌, ◌||◌, IfOk, List, None, Some, false, length, map, true, ℕ};
ghost use Rattle.std.specs.Thread.{IsSync};

use super::heard::Heard;
use super::output::{fault_text, whole_text};
use super::reading::{Unread, read_all};
use super::script::SessionScript;
use super::session::Session;
use super::talk::{Broken, Talk};
use occ_server::{CloseFault, Ended, Gate, Receipt, Server, Settled, WorkEnd};
use occheck_script::{ByteIn, ByteOut, Status, reports_errors, write_all};
use std::alloc::Global;
use std::sync::Wait;
use std::thread::{self, Threads};

/// Reads all scripts, runs each as a session of one server with so many workers beside them, and writes what each was told,
/// and the last report.
pub fn run_sessions<R: ByteIn, W: ByteOut, G: Gate + Sync, T: Threads + Wait + Sync>(
    rt: &T,
    alloc: Global,
    readers: &mut [R],
    workers: u32,
    gate: &G,
    writer: &mut W,
) -> Status
    requires scripts { (0 < length readers.old) × (length readers.old < 17) }
    requires workers { (0 < workers) × (workers < 17) }
    requires readers { list_any R.has_failed readers.old ≡ false }
    requires writer { W.has_failed writer.old ≡ false }

    // What is written of scripts whose bytes are known.
    ensures announced { (bytes : List (List ℕ)) → map R.unread readers.old ≡ map Some bytes → (read : Reading) → AreReading read (map script_of bytes) → IsWritten read (map script_of bytes) (W.written writer.old) (W.written writer.new) result }

    // A device fault is told exactly where a device failed.
    ensures devices { is_device_fault result ≡ (list_any R.has_failed readers.new || W.has_failed writer.new) }
    ensures unread { list_any R.has_failed readers.new ≡ true → W.written writer.new ≡ W.written writer.old }
{
    match read_all(alloc, readers) {
        Ok(scripts) => run(rt, alloc, scripts.as_slice(), workers, gate, writer),
        Err(Unread::Device) => Status::DeviceFault,
        Err(Unread::Memory) => Status::NoMemory,
        Err(Unread::Script(session, line)) => report_fault(alloc, session, line, writer),
    }
}

/// Runs scripts that are not wrong.
fn run<W: ByteOut, G: Gate + Sync, T: Threads + Wait + Sync>(
    rt: &T,
    alloc: Global,
    scripts: &[SessionScript],
    workers: u32,
    gate: &G,
    writer: &mut W,
) -> Status
    requires fine { first_fault 1 scripts.now ≡ None }
    requires few { length scripts.now < 17 }
    requires writer { W.has_failed writer.old ≡ false }
    ensures announced { (read : Reading) → AreReading read scripts.now → IsWritten read scripts.now (W.written writer.old) (W.written writer.new) result }
    ensures device { is_device_fault result ≡ W.has_failed writer.new }
{
    match whole_output(rt, alloc, scripts, workers, gate) {
        Ok(output) => write_output(&output, writer),
        Err(Broken::Memory) => Status::NoMemory,
        Err(Broken::Disagree) => Status::Disagree,
    }
}

/// What a run writes, and whether its last report tells an error.
#[derive(Drop)]
struct Output {
    text: Vec<u8>,
    errors: bool,
}

fn write_output<W: ByteOut>(output: &Output, writer: &mut W) -> Status
    requires { W.has_failed writer.old ≡ false }
    ensures announced { IsOutputWritten output.now.text.items output.now.errors (W.written writer.old) (W.written writer.new) result }
    ensures device { is_device_fault result ≡ W.has_failed writer.new }
{
    if let Err(_failed) = write_all(writer, output.text.as_slice()) {
        return Status::DeviceFault;
    }
    if output.errors {
        Status::Errors
    } else {
        Status::Clean
    }
}

/// Ends a run at the line on which the script of a session is wrong.
fn report_fault<W: ByteOut>(alloc: Global, session: usize, line: usize, writer: &mut W) -> Status
    requires { W.has_failed writer.old ≡ false }
    ensures announced { IsFaultWritten (session, line) (W.written writer.old) (W.written writer.new) result }
    ensures device { is_device_fault result ≡ W.has_failed writer.new }
{
    let Ok(text) = fault_text(alloc, session, line) else {
        return Status::NoMemory;
    };
    match write_all(writer, text.as_slice()) {
        Ok(()) => Status::ScriptFault,
        Err(_failed) => Status::DeviceFault,
    }
}

/// Runs the scripts, and makes the output whole before any of it is written.
fn whole_output<G: Gate + Sync, T: Threads + Wait + Sync>(
    rt: &T,
    alloc: Global,
    scripts: &[SessionScript],
    workers: u32,
    gate: &G,
) -> Result<Output, Broken>
    requires fine { first_fault 1 scripts.now ≡ None }
    requires few { length scripts.now < 17 }
    ensures { (read : Reading) → AreReading read scripts.now → IfOk result (λ output. IsOutput read scripts.now output.text.items output.errors) }
{
    let server = Server::new(alloc);
    let talks = all_talks(rt, alloc, &server, scripts, workers, gate)?;
    let (heard, receipts) = parted(alloc, talks)?;
    let ended = closed(alloc, server, receipts.as_slice())?;
    let text = whole_text(alloc, scripts, heard.as_slice(), &ended)?;
    Ok(Output {
        text,
        errors: reports_errors(ended.report()),
    })
}

/// The end of a server.
fn closed(alloc: Global, server: Server, receipts: &[Receipt]) -> Result<Ended, Broken>
    ensures { IfOk result (λ ended. receipts.now ≡ receipts_of ended.base ended.entries) }
{
    match server.close(alloc, receipts) {
        Ok(ended) => Ok(ended),
        Err((_server, CloseFault::Memory)) => Err(Broken::Memory),
        Err((_server, _fault)) => Err(Broken::Disagree),
    }
}

/// What the sessions were told, and the receipts of all their edits by number.
fn parted(alloc: Global, talks: Vec<Talk>) -> Result<(Vec<Heard>, Vec<Receipt>), Broken> {
    let mut told = Vec::new(alloc);
    let mut all = Vec::new(alloc);
    for talk in talks {
        let Talk { heard, receipts } = talk;
        told.push(heard)?;
        for receipt in receipts {
            all.push(receipt)?;
        }
    }
    all.sort_by_key(|receipt| receipt.number())?;
    Ok((told, all))
}

/// Runs each script in a thread of its own, with workers beside them. All threads have ended when it returns.
fn all_talks<G: Gate + Sync, T: Threads + Wait + Sync>(
    rt: &T,
    alloc: Global,
    server: &Server,
    scripts: &[SessionScript],
    workers: u32,
    gate: &G,
) -> Result<Vec<Talk>, Broken>
    requires { length scripts.now < 17 }
{
    thread::scope(
        thread::scope_env(),
        rt,
        |scope| -> Result<Vec<Talk>, Broken>
            requires { IsSync G.row × IsSync T.row × (length scripts.now < 17) }
        {
            let mut broken = None;
            let mut working = Vec::new(alloc);
            for _ in 0..workers {
                match scope.spawn(|| server.work(rt, alloc, gate)) {
                    Ok(worker) => {
                        if working.push(worker).is_err() {
                            broken = Some(Broken::Memory);
                        }
                    }
                    Err(_) => broken = Some(Broken::Memory),
                }
            }
            let mut sessions = Vec::new(alloc);
            for (place, script) in scripts.iter().enumerate() {
                let number = place as u32 + 1;
                match scope.spawn(move || Session::new(rt, alloc, server, number).run(script)) {
                    Ok(session) => {
                        if sessions.push(session).is_err() {
                            broken = Some(Broken::Memory);
                        }
                    }
                    Err(_) => broken = Some(Broken::Memory),
                }
            }
            if broken.is_some() {
                server.stop(rt);
            }
            let mut talks = Vec::new(alloc);
            for session in sessions {
                match session.join(rt) {
                    Ok(talk) => {
                        if talks.push(talk).is_err() {
                            broken = Some(Broken::Memory);
                        }
                    }
                    Err(why) => broken = Some(why),
                }
            }
            if server.settle(rt) == Settled::Stopped {
                broken = Some(Broken::Memory);
            }
            server.stop(rt);
            for worker in working {
                if worker.join(rt).end == WorkEnd::Memory {
                    broken = Some(Broken::Memory);
                }
            }
            match broken {
                Some(why) => Err(why),
                None => Ok(talks),
            }
        },
    )
}
