//! The answers to all commands of a session, each compared with the journal.
ghost use Rattle.occheck_script.specs.Machine.{IsReading, Reading};
ghost use Rattle.occheck_sessions.specs.Sessions.{AreAnswers};
ghost use Rattle.std.specs.Prelude.{◌≡◌, ◌++◌, [], IfOk, List, ℕ};

use super::answering::answered;
use super::heard::Heard;
use super::matching::{is_front, next_edit};
use super::script::SessionScript;
use super::talk::Broken;
use occ_board::Entry;
use occheck_commands::{Next, next_command};
use std::alloc::Global;

/// Appends the answers to all commands of a session, if what it was told agrees with the edits that were made.
pub fn announce(
    alloc: Global,
    session: u32,
    script: &SessionScript,
    heard: &Heard,
    entries: &[Entry],
    before: Vec<u8>,
) -> Result<Vec<u8>, Broken>
    ensures { (read : Reading) → IsReading read script.now.commands → IfOk result (λ text. (answers : List ℕ) × (text.items ≡ before.items ++ answers) × AreAnswers read entries.now session [] script.now.commands answers) }
{
    if !is_front(heard.seen(), entries) {
        return Err(Broken::Disagree);
    }
    let said = heard.said();
    let mut text = before;
    let mut last = 0;
    let mut rest = script.begin();
    let most = rest.bytes.len();
    for place in 0..most + 1 {
        match next_command(rest) {
            Next::End => {
                return match next_edit(entries, session, last) {
                    None => Ok(text),
                    Some(_) => Err(Broken::Disagree),
                };
            }
            Next::Fault(_) => return Err(Broken::Disagree),
            Next::Command(_line, command, left) => {
                let Some(one) = said.get(place) else {
                    return Err(Broken::Disagree);
                };
                let answer = answered(alloc, session, command, one, entries, last)?;
                text.extend_from_slice(answer.text.as_slice())?;
                last = answer.last;
                rest = left;
            }
        }
    }
    unreachable!()
}
