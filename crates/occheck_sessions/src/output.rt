//! The output of a run: the answers of each session, and the last report.
ghost use Rattle.occ_board.specs.Journal.{nothing};
ghost use Rattle.occheck_sessions.specs.Output.{AreReading, AreReported, IsRun, fault_lines, first_fault, is_of_one, session_line};
ghost use Rattle.occheck_script.specs.Machine.{Reading};
ghost use Rattle.std.specs.List.{list_all};
ghost use Rattle.std.specs.Prelude.{◌≡◌, ◌+◌, ◌++◌, ◌<◌, ◌^◌, IfOk, List, None, OnOk, length, ℕ};

use super::announcing::announce;
use super::heard::Heard;
use super::matching::is_first;
use super::script::SessionScript;
use super::talk::Broken;
use occ_board::Entry;
use occ_server::Ended;
use occheck_script::{line_naming, report_lines};
use std::alloc::{AllocError, Global};

/// The line that begins what is written of a session.
fn head(alloc: Global, session: usize) -> Result<Vec<u8>, AllocError>
    ensures { IfOk result (λ text. text.items ≡ session_line session) }
{
    let number = session.to_string(alloc)?;
    let text = line_naming(alloc, "session ", number.as_bytes())?;
    Ok(text)
}

/// What is written where the script of a session is wrong on a line.
pub fn fault_text(alloc: Global, session: usize, line: usize) -> Result<Vec<u8>, AllocError>
    ensures { IfOk result (λ text. text.items ≡ fault_lines (session, line)) }
{
    let mut text = head(alloc, session)?;
    let number = line.to_string(alloc)?;
    let fault = line_naming(alloc, "script fault ", number.as_bytes())?;
    text.extend_from_slice(fault.as_slice())?;
    Ok(text)
}

/// The answers of all sessions, and then the report of what the server ends with.
pub fn whole_text(
    alloc: Global,
    scripts: &[SessionScript],
    heard: &[Heard],
    ended: &Ended,
) -> Result<Vec<u8>, Broken>
    requires fine { first_fault 1 scripts.now ≡ None }
    requires few { length scripts.now < 17 }
    ensures first { OnOk result (ended.now.base ≡ nothing) }
    ensures run { (read : Reading) → AreReading read scripts.now → IfOk result (λ text. IsRun read scripts.now ended.now.entries text.items) }
{
    let entries = ended.entries();
    if !is_first(ended.base()) || !are_within(entries, scripts.len() as u32) {
        return Err(Broken::Disagree);
    }
    let mut text = reported_from(alloc, 1, scripts, heard, entries, Vec::new(alloc))?;
    let report = report_lines(alloc, ended.report())?;
    text.extend_from_slice(report.as_slice())?;
    Ok(text)
}

/// Whether all edits are of sessions from 1 to a number.
fn are_within(entries: &[Entry], sessions: u32) -> bool
    ensures { result ≡ list_all (is_of_one sessions) entries.now }
{
    entries.iter().all(|entry| is_within(entry, sessions))
}

fn is_within(entry: &Entry, sessions: u32) -> bool
    ensures { result ≡ is_of_one sessions entry.now }
{
    1 <= entry.session && entry.session <= sessions
}

/// Appends the answers of the sessions from a number on.
fn reported_from(
    alloc: Global,
    session: u32,
    scripts: &[SessionScript],
    heard: &[Heard],
    entries: &[Entry],
    before: Vec<u8>,
) -> Result<Vec<u8>, Broken>
    requires { session + length scripts.now < 2 ^ 32 }
    ensures { (read : Reading) → AreReading read scripts.now → IfOk result (λ text. (answers : List ℕ) × (text.items ≡ before.items ++ answers) × AreReported read entries.now session scripts.now answers) }
{
    match (scripts.split_first(), heard.split_first()) {
        (None, None) => Ok(before),
        (Some((script, scripts)), Some((one, heard))) => {
            let mut text = before;
            let head = head(alloc, session as usize)?;
            text.extend_from_slice(head.as_slice())?;
            let text = announce(alloc, session, script, one, entries, text)?;
            reported_from(alloc, session + 1, scripts, heard, entries, text)
        }
        _ => Err(Broken::Disagree),
    }
}
