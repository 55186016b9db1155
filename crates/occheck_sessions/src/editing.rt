//! Answers to edits: each accepted one has to be the session's next edit in the journal.
ghost use Rattle.occ_board.specs.declared.entry.Edit.TheVariants as an_edit;
ghost use Rattle.occ_lines.specs.Lines.{limit_fault};
ghost use Rattle.occheck_script.specs.Machine.{AreLines, Reading, edited_text, text_read, wrong_word};
ghost use Rattle.occheck_sessions.specs.Sessions.{IsEditAnswer, edits_of};
ghost use Rattle.std.specs.Prelude.{◌≡◌, ◌≤◌, IfOk, None, Some, length, take};

use super::matching::{
    is_added, is_changed, is_removed, may_refuse_opening, may_refuse_other, next_edit,
};
use super::talk::{Broken, Said};
use occ_board::Entry;
use occheck_script::{board_word, line, line_naming, wrong_edit, wrong_name};
use std::alloc::{AllocError, Global};

/// The answer to a command, and the number of the session's last edit after it.
#[derive(Drop)]
pub struct Answer {
    pub text: Vec<u8>,
    pub last: usize,
}

/// The answer to an edit that was made.
fn made(alloc: Global, last: usize) -> Result<Answer, AllocError>
    ensures text { IfOk result (λ answer. answer.text.items ≡ edited_text None) }
    ensures last { IfOk result (λ answer. answer.last ≡ last) }
{
    let text = line(alloc, "ok")?;
    Ok(Answer { text, last })
}

/// The answer to an edit that was not.
fn refused(alloc: Global, word: &str, last: usize) -> Result<Answer, AllocError>
    ensures text { IfOk result (λ answer. answer.text.items ≡ edited_text (Some word.now)) }
    ensures last { IfOk result (λ answer. answer.last ≡ last) }
{
    let text = line_naming(alloc, "refused ", word.as_bytes())?;
    Ok(Answer { text, last })
}

/// The answer to a file that is to be opened.
pub fn opened(
    alloc: Global,
    session: u32,
    name: &[u8],
    text: &[u8],
    said: &Said,
    entries: &[Entry],
    last: usize,
) -> Result<Answer, Broken>
    requires { last ≤ length entries.now }
    ensures within { IfOk result (λ answer. answer.last ≤ length entries.now) }
    ensures announced { (read : Reading) → AreLines text.now (read text.now) → IfOk result (λ answer. IsEditAnswer (wrong_word name.now (limit_fault text.now)) (an_edit.Added name.now (text_read read text.now)) (edits_of session (take last entries.now)) answer.text.items (edits_of session (take answer.last entries.now))) }
{
    if let Some(word) = wrong_edit(name, text) {
        return Ok(refused(alloc, word, last)?);
    }
    match said {
        Said::Edited => match next_edit(entries, session, last) {
            Some((next, edit)) if is_added(edit, name, text) => Ok(made(alloc, next)?),
            _ => Err(Broken::Disagree),
        },
        Said::Refused(fault) if may_refuse_opening(*fault) => {
            Ok(refused(alloc, board_word(*fault), last)?)
        }
        _ => Err(Broken::Disagree),
    }
}

/// The answer to a file that is to be changed.
pub fn changed(
    alloc: Global,
    session: u32,
    name: &[u8],
    text: &[u8],
    said: &Said,
    entries: &[Entry],
    last: usize,
) -> Result<Answer, Broken>
    requires { last ≤ length entries.now }
    ensures within { IfOk result (λ answer. answer.last ≤ length entries.now) }
    ensures announced { (read : Reading) → AreLines text.now (read text.now) → IfOk result (λ answer. IsEditAnswer (wrong_word name.now (limit_fault text.now)) (an_edit.Changed name.now (text_read read text.now)) (edits_of session (take last entries.now)) answer.text.items (edits_of session (take answer.last entries.now))) }
{
    if let Some(word) = wrong_edit(name, text) {
        return Ok(refused(alloc, word, last)?);
    }
    match said {
        Said::Edited => match next_edit(entries, session, last) {
            Some((next, edit)) if is_changed(edit, name, text) => Ok(made(alloc, next)?),
            _ => Err(Broken::Disagree),
        },
        Said::Refused(fault) if may_refuse_other(*fault) => {
            Ok(refused(alloc, board_word(*fault), last)?)
        }
        _ => Err(Broken::Disagree),
    }
}

/// The answer to a file that is to be closed.
pub fn removed(
    alloc: Global,
    session: u32,
    name: &[u8],
    said: &Said,
    entries: &[Entry],
    last: usize,
) -> Result<Answer, Broken>
    requires { last ≤ length entries.now }
    ensures within { IfOk result (λ answer. answer.last ≤ length entries.now) }
    ensures announced { IfOk result (λ answer. IsEditAnswer (wrong_word name.now None) (an_edit.Removed name.now) (edits_of session (take last entries.now)) answer.text.items (edits_of session (take answer.last entries.now))) }
{
    if let Some(word) = wrong_name(name) {
        return Ok(refused(alloc, word, last)?);
    }
    match said {
        Said::Edited => match next_edit(entries, session, last) {
            Some((next, edit)) if is_removed(edit, name) => Ok(made(alloc, next)?),
            _ => Err(Broken::Disagree),
        },
        Said::Refused(fault) if may_refuse_other(*fault) => {
            Ok(refused(alloc, board_word(*fault), last)?)
        }
        _ => Err(Broken::Disagree),
    }
}
