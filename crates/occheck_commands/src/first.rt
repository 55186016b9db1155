//! What lines say first: a command, a fault, or part of a command. What comes after the lines does not change it. Commands
//! borrow their text.
ghost use Rattle.occheck_commands.specs.Ended.{IsEnded, IsNoFeed};
ghost use Rattle.occheck_commands.specs.Left.{AreEnded, IsBehind, ending, first_seen, meant};
ghost use Rattle.occheck_commands.specs.Lines.{cut_lines, text_of};
ghost use Rattle.occheck_commands.specs.Script.{with_lines};
ghost use Rattle.occheck_commands.specs.inside.Header.{edit_seen};
ghost use Rattle.std.specs.Prelude.{◌≡◌, ◌≢◌, Bool, ℕ, List, ◌+◌, ◌<◌, ◌≤◌, ◌∷◌, ◌++◌, ◌^◌, [], IfErr, IfOk, MatchOption, Some, drop, length, take};

use super::command::{Command, Edit, Header, read_header};
use super::lines::length_before;

/// Lines that are all ended by LF, with the number of the first.
#[derive(Clone, Copy)]
pub struct Lines<'a> {
    pub bytes: &'a [u8],
    pub line: usize,
}

/// What lines say first.
#[derive(Clone, Copy)]
pub enum First<'a> {
    /// The line on which a command begins, the command, and the lines after it.
    Command(usize, Command<'a>, Lines<'a>),
    /// This line is wrong.
    Fault(usize),
    /// Part of a command, or nothing: its lines, and how many more have to come before a command can be whole.
    Unfinished(Lines<'a>, usize),
}

/// What the lines say first.
pub fn first_command(lines: Lines<'_>) -> First<'_>
    requires { AreEnded lines }
    ensures says { (over : Bool) (more : List ℕ) → ending over lines.entry.line (lines.entry.bytes.now ++ more) ≡ first_seen over result more }
    ensures behind { IsBehind lines.entry result }
{
    let left = skip_blank(lines);
    if left.bytes.is_empty() {
        return First::Unfinished(left, 1);
    }
    let (line, following) = first_line(left.bytes);
    match read_header(line) {
        None => First::Fault(left.line),
        Some(Header::Alone(command)) => First::Command(
            left.line,
            command,
            Lines {
                bytes: following,
                line: left.line + 1,
            },
        ),
        Some(Header::Texts(edit, name, count)) => match split_lines(following, count) {
            Ok((text, following)) => First::Command(
                left.line,
                edited(edit, name, text),
                Lines {
                    bytes: following,
                    line: left.line + 1 + count as usize,
                },
            ),
            Err(lacks) => First::Unfinished(left, lacks),
        },
    }
}

/// The lines after those without bytes that come first.
pub fn skip_blank(lines: Lines<'_>) -> Lines<'_>
    requires { lines.line + length lines.bytes.now < 2 ^ 60 }
    ensures begun { IsNoFeed result.bytes.now }
    ensures last { (front : List ℕ) × (lines.entry.bytes.now ≡ front ++ result.bytes.now) }
    ensures line { result.line + length result.bytes.now ≡ lines.entry.line + length lines.entry.bytes.now }
    ensures ended { IsEnded lines.entry.bytes.now → IsEnded result.bytes.now }
    ensures same { (over : Bool) (more : List ℕ) → ending over result.line (result.bytes.now ++ more) ≡ ending over lines.entry.line (lines.entry.bytes.now ++ more) }
{
    let mut bytes = lines.bytes;
    let mut line = lines.line;
    while let Some(following) = after_feed(bytes) {
        bytes = following;
        line += 1;
    }
    Lines { bytes, line }
}

/// What stands after an LF that comes first.
fn after_feed(bytes: &[u8]) -> Option<&[u8]>
    ensures { MatchOption result (IsNoFeed bytes.now) (λ following. bytes.now ≡ 10 ∷ following.now) }
{
    match bytes {
        [b'\n', following @ ..] => Some(following),
        _ => None,
    }
}

/// The first line without its LF, and what stands after that.
fn first_line(bytes: &[u8]) -> (&[u8], &[u8])
    requires some { 0 < length bytes.now }
    requires ended { IsEnded bytes.now }
    ensures cut { cut_lines bytes.now ≡ result.0.now ∷ cut_lines result.1.now }
    ensures ended { IsEnded result.1.now }
    ensures text { bytes.now ≡ result.0.now ++ 10 ∷ result.1.now }
    ensures begun { IsNoFeed bytes.now → result.0.now ≢ [] }
{
    let length = length_before(bytes, b'\n');
    let (line, _) = bytes.split_at(length);
    let (_, following) = bytes.split_at(length + 1);
    (line, following)
}

/// The command that does this with the text.
fn edited<'a>(edit: Edit, name: &'a [u8], text: &'a [u8]) -> Command<'a>
    ensures { (lines : List (List ℕ)) → text.now ≡ text_of lines → meant result ≡ with_lines (edit_seen edit) name.now lines }
{
    match edit {
        Edit::Open => Command::Open(name, text),
        Edit::Change => Command::Change(name, text),
    }
}

/// The text of the first lines and what stands after them, or how many lines there are too few.
fn split_lines(bytes: &[u8], lines: u32) -> Result<(&[u8], &[u8]), usize>
    requires { IsEnded bytes.now }
    ensures lacking { IfErr result (λ lacks. (0 < lacks) × (length (cut_lines bytes.now) + lacks ≡ lines)) }
    ensures text { IfOk result (λ parts. (parts.0.now ≡ text_of (take lines (cut_lines bytes.now))) × (cut_lines parts.1.now ≡ drop lines (cut_lines bytes.now))) }
    ensures enough { IfOk result (λ parts. lines ≤ length (cut_lines bytes.now)) }
    ensures ended { IfOk result (λ parts. IsEnded parts.1.now) }
    ensures last { IfOk result (λ parts. bytes.now ≡ parts.0.now ++ parts.1.now) }
    ensures less { IfOk result (λ parts. length parts.1.now + lines ≤ length bytes.now) }
{
    let mut following = bytes;
    for passed in 0..lines {
        if following.is_empty() {
            return Err((lines - passed) as usize);
        }
        let (_, rest) = first_line(following);
        following = rest;
    }
    let (text, _) = bytes.split_at(bytes.len() - following.len());
    Ok((text, following))
}
