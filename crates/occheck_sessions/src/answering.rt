//! The answer to a command of a session, if what it heard agrees with the journal.
ghost use Rattle.occheck_commands.specs.Left.{meant};
ghost use Rattle.occheck_script.specs.Machine.{Reading, ReadsCommand, with_line_end};
ghost use Rattle.occheck_sessions.specs.Sessions.{IsAnswer, IsReportAnswer, edits_of};
ghost use Rattle.occheck_sessions.specs.inside.Told.{IsTold};
ghost use Rattle.std.specs.Prelude.{◌≡◌, ◌≤◌, IfOk, codes, length, take, true};

use super::editing::{Answer, changed, opened, removed};
use super::talk::{Broken, Said};
use occ_board::Entry;
use occheck_commands::Command;
use occheck_script::line;
use std::alloc::Global;

/// The answer to a command of a session, if what it was told agrees with the edits that were made. The session's last edit
/// before it has the number `last`.
pub fn answered(
    alloc: Global,
    session: u32,
    command: Command<'_>,
    said: &Said,
    entries: &[Entry],
    last: usize,
) -> Result<Answer, Broken>
    requires last { last ≤ length entries.now }
    requires told { IsTold entries.now said.now }
    ensures within { IfOk result (λ answer. answer.last ≤ length entries.now) }
    ensures announced { (read : Reading) → ReadsCommand read (meant command.entry) → IfOk result (λ answer. IsAnswer read entries.now session (edits_of session (take last entries.now)) (meant command.entry) answer.text.items (edits_of session (take answer.last entries.now))) }
{
    match command {
        Command::Open(name, text) => opened(alloc, session, name, text, said, entries, last),
        Command::Change(name, text) => changed(alloc, session, name, text, said, entries, last),
        Command::Remove(name) => removed(alloc, session, name, said, entries, last),
        Command::Settle => settled(alloc, said, last),
        Command::Report => reported(alloc, session, said, entries, last),
        Command::Take(_) | Command::Finish(_) | Command::Drop(_) | Command::Checkpoint => {
            Err(Broken::Disagree)
        }
    }
}

fn settled(alloc: Global, said: &Said, last: usize) -> Result<Answer, Broken>
    ensures text { IfOk result (λ answer. answer.text.items ≡ with_line_end (codes "settled 0")) }
    ensures last { IfOk result (λ answer. answer.last ≡ last) }
{
    match said {
        Said::Settled => {
            let text = line(alloc, "settled 0")?;
            Ok(Answer { text, last })
        }
        _ => Err(Broken::Disagree),
    }
}

/// A report that has seen the session's last edit.
fn reported(
    alloc: Global,
    session: u32,
    said: &Said,
    entries: &[Entry],
    last: usize,
) -> Result<Answer, Broken>
    requires told { IsTold entries.now said.now }
    ensures text { IfOk result (λ answer. IsReportAnswer entries.now session (edits_of session (take last entries.now)) answer.text.items) }
    ensures last { IfOk result (λ answer. answer.last ≡ last) }
{
    match said {
        Said::Reported(told) => {
            if told.seen < last {
                return Err(Broken::Disagree);
            }
            let text = Vec::from_slice(alloc, told.text.as_slice())?;
            Ok(Answer { text, last })
        }
        _ => Err(Broken::Disagree),
    }
}
