//! Messages as people read them: with their line of the text, or on one line each.
ghost use Rattle.occ_messages_formats.specs.Written.{Begins, blanks, long_head, short_line as spec_short_line};
ghost use Rattle.std.specs.List.{flat_map};
ghost use Rattle.std.specs.Prelude.{◌≡◌, ◌++◌, IfOk};
ghost use Rattle.std.specs.String.{string_bytes};

use super::excerpt::{excerpt, margin_of};
use occ_messages::{Message, Quoted, entry_of};
use std::alloc::{AllocError, Global};

/// Messages, each on one line.
pub fn short_text(alloc: Global, messages: &[Message]) -> Result<String, AllocError>
    ensures { IfOk result (λ text. string_bytes text ≡ flat_map spec_short_line messages.now) }
{
    let mut text = String::new(alloc);
    for message in messages {
        text.push_str(short_line(alloc, message)?.as_str())?;
    }
    Ok(text)
}

/// A message on one line.
fn short_line(alloc: Global, message: &Message) -> Result<String, AllocError>
    ensures { IfOk result (λ text. string_bytes text ≡ spec_short_line message.now) }
{
    let path = message.path.as_str();
    let line = message.line;
    let grade = message.grade.as_str();
    let code = message.code.as_str();
    let words = message.words.as_str();
    format!(in alloc; "{path}:{line}: {grade}[{code}]: {words}\n")
}

/// How much of a message is told.
#[derive(Clone, Copy, Debug, PartialEq, Eq)]
pub enum Verbosity {
    /// Also the reason of its code.
    Reason,
    /// All but that.
    Whole,
    /// Where it is, since the rest was told of another line.
    Place,
}

/// A message with its line of the text, what may help, and the reason of its code, as far as that is wanted.
pub fn long_text(alloc: Global, message: &Message, extent: Verbosity) -> Result<String, AllocError>
    ensures { IfOk result (λ text. Begins (string_bytes text) (long_head message.now)) }
{
    let margin = margin(alloc, message.line)?;
    let head = head(alloc, message, margin.as_str())?;
    let body = body(alloc, message, extent)?;
    joined(alloc, head.as_str(), body.as_str())
}

/// Two texts as one.
fn joined(alloc: Global, front: &str, back: &str) -> Result<String, AllocError>
    ensures { IfOk result (λ text. string_bytes text ≡ front.now ++ back.now) }
{
    format!(in alloc; "{front}{back}")
}

/// As many blanks as the number of a line has digits.
fn margin(alloc: Global, line: u32) -> Result<String, AllocError>
    ensures { IfOk result (λ margin. string_bytes margin ≡ blanks line) }
{
    let digits = line.to_string(alloc)?;
    let mut margin = String::new(alloc);
    for _ in digits.as_bytes() {
        margin.push_str(" ")?;
    }
    Ok(margin)
}

/// What is wrong and where.
fn head(alloc: Global, message: &Message, margin: &str) -> Result<String, AllocError>
    requires { margin.now ≡ blanks message.now.line }
    ensures { IfOk result (λ text. string_bytes text ≡ long_head message.now) }
{
    let grade = message.grade.as_str();
    let code = message.code.as_str();
    let words = message.words.as_str();
    let path = message.path.as_str();
    let line = message.line;
    format!(in alloc; "{grade}[{code}]: {words}\n{margin}--> {path}:{line}\n")
}

/// What stands under that: lines of the text, what may help, and the reason of the code.
fn body(alloc: Global, message: &Message, extent: Verbosity) -> Result<String, AllocError> {
    let mut text = String::new(alloc);
    let others: &[Quoted] = match extent {
        Verbosity::Place => &[],
        Verbosity::Reason | Verbosity::Whole => message.others.as_slice(),
    };
    let width = excerpt(alloc, message, others, &mut text)?;
    if extent != Verbosity::Place {
        let blanks = margin_of(alloc, width)?;
        remarks(alloc, message, blanks.as_str(), extent, &mut text)?;
    }
    text.push('\n')?;
    Ok(text)
}

/// What may help, and the reason of the code if that is wanted.
fn remarks(
    alloc: Global,
    message: &Message,
    margin: &str,
    extent: Verbosity,
    text: &mut String,
) -> Result<(), AllocError> {
    for hint in &message.hints {
        text.push_str(format!(in alloc; "{margin} = help: {hint}\n")?.as_str())?;
    }
    if extent == Verbosity::Reason {
        let why = entry_of(message.code).why;
        text.push_str(format!(in alloc; "{margin} = note: {why}\n")?.as_str())?;
    }
    Ok(())
}
