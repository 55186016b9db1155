//! Prints what was found, in the format that is asked for.
ghost use Rattle.occ.specs.Printing.{IsEnd, IsPrinted, IsWritten};
ghost use Rattle.std.specs.Prelude.{IfOk};
ghost use Rattle.std.specs.String.{string_bytes};

use super::check::Findings;
use occ_files_words::Checking;
use occ_messages::{Format, Hiding, Message, Quoted, hidden_by};
use occ_messages_formats::{
    Tally, Verbosity, count_line, github_text, json_text, long_text, sarif_text, short_text,
};
use std::alloc::{AllocError, Global};
use std::io;

/// What is said where the lines of a unit hide what comes later.
const LINES_HIDE: &str =
    "note: names, types and the rules of PARs are looked at in a unit once its lines have no error\n";

/// What is said where names and types hide what comes later.
const TYPES_HIDE: &str =
    "note: the rules of PARs and abbreviations are looked at in a unit once its names and types have no error\n";

/// How many messages before one are looked at for the same words.
const REPEAT_LIMIT: usize = 32;

/// Prints all messages, and in words for people what there is besides. What a device was given is in no contract: this gives it
/// what `printed` gives.
pub fn print_all(rt: &HostRuntime, asked: &Checking, findings: &Findings) -> io::Result<()> {
    let messages = findings.messages.as_slice();
    let text = printed(rt.alloc(), asked, messages, findings.tally)?;
    print!(rt; "{text}")
}

/// What is printed.
fn printed(
    alloc: Global,
    asked: &Checking,
    messages: &[Message],
    tally: Tally,
) -> Result<String, AllocError>
    ensures { IfOk result (λ text. IsPrinted asked.now.format asked.now.quiet messages.now (string_bytes text)) }
{
    let mut text = written(alloc, asked, messages)?;
    let end = end(alloc, asked, messages, tally)?;
    text.push_str(end.as_str())?;
    Ok(text)
}

/// The messages, in the format that is asked for.
fn written(alloc: Global, asked: &Checking, messages: &[Message]) -> Result<String, AllocError>
    ensures { IfOk result (λ text. IsWritten asked.now.format messages.now (string_bytes text)) }
{
    match asked.format {
        Format::Text => long_texts(alloc, messages, asked.quiet),
        Format::Short => short_text(alloc, messages),
        Format::Github => github_text(alloc, messages),
        Format::Json => json_text(alloc, messages),
        Format::Sarif => sarif_text(alloc, messages),
    }
}

/// What comes after the messages.
fn end(
    alloc: Global,
    asked: &Checking,
    messages: &[Message],
    tally: Tally,
) -> Result<String, AllocError>
    ensures { IfOk result (λ end. IsEnd asked.now.format asked.now.quiet (string_bytes end)) }
{
    match asked.format {
        Format::Json | Format::Sarif => String::from_str(alloc, "\n"),
        Format::Github => Ok(String::new(alloc)),
        Format::Text | Format::Short if asked.quiet => Ok(String::new(alloc)),
        Format::Text => {
            let mut text = notes(alloc, messages)?;
            text.push_str(count_line(alloc, tally)?.as_str())?;
            Ok(text)
        }
        Format::Short => count_line(alloc, tally),
    }
}

/// Messages with their lines of the text. The reason of a code stands at the first message that has it. Of what was told of
/// another line of a file, with the same other lines, only the place is told.
fn long_texts(alloc: Global, messages: &[Message], quiet: bool) -> Result<String, AllocError> {
    let mut text = String::new(alloc);
    let mut codes = Vec::new(alloc);
    for (at, message) in messages.iter().enumerate() {
        let (told, _) = messages.split_at(at);
        let extent = if is_repeated(told, message) {
            Verbosity::Place
        } else if quiet || codes.contains(&message.code) {
            Verbosity::Whole
        } else {
            codes.push(message.code)?;
            Verbosity::Reason
        };
        text.push_str(long_text(alloc, message, extent)?.as_str())?;
    }
    Ok(text)
}

/// Whether one of the last messages has the words of this one, in its file, and shows the same other lines.
fn is_repeated(told: &[Message], message: &Message) -> bool {
    told.iter().rev().take(REPEAT_LIMIT).any(|other| {
        other.code == message.code
            && other.words == message.words
            && other.path == message.path
            && are_same_lines(other.others.as_slice(), message.others.as_slice())
    })
}

/// Whether two messages show the same other lines.
fn are_same_lines(some: &[Quoted], others: &[Quoted]) -> bool {
    some.len() == others.len()
        && some
            .iter()
            .zip(others.iter())
            .all(|(one, other)| one.number == other.number)
}

/// What is said after all messages, in words for people.
fn notes(alloc: Global, messages: &[Message]) -> Result<String, AllocError> {
    let mut text = String::new(alloc);
    if messages
        .iter()
        .any(|message| hidden_by(message.code) == Hiding::Lines)
    {
        text.push_str(LINES_HIDE)?;
    } else if messages
        .iter()
        .any(|message| hidden_by(message.code) == Hiding::Types)
    {
        text.push_str(TYPES_HIDE)?;
    }
    if let Some(message) = messages.first() {
        let code = message.code.as_str();
        text.push_str(format!(in alloc;
            "note: `occ explain {code}` says more of that code\n"
        )?.as_str())?;
    }
    Ok(text)
}
