//! What is left of a script, and the next command, fault or end. Commands borrow their text.
ghost use Rattle.occheck_commands.specs.Left.{IsLess, IsRest, next_seen, script_left};
ghost use Rattle.std.specs.Prelude.{◌≡◌, ◌||◌, length, nat_lt};

use super::command::Command;
use super::first::{First, Lines, first_command};

/// What is left of a script: lines that are all ended by LF, with the number of the first of them, and
/// whether bytes over the limit stood after them.
#[derive(Clone, Copy)]
pub struct Rest<'a> {
    pub bytes: &'a [u8],
    pub line: usize,
    pub over: bool,
}

/// What a script says next.
#[derive(Clone, Copy)]
pub enum Next<'a> {
    /// The line on which a command begins, the command, and what is left after it.
    Command(usize, Command<'a>, Rest<'a>),
    /// The script is wrong on this line.
    Fault(usize),
    /// There is no further command.
    End,
}

/// What the script says next.
pub fn next_command(rest: Rest<'_>) -> Next<'_>
    requires { IsRest rest }
    ensures says { script_left rest.entry ≡ next_seen result }
    ensures less { IsLess rest.entry result }
{
    let lines = Lines {
        bytes: rest.bytes,
        line: rest.line,
    };
    match first_command(lines) {
        First::Command(line, command, left) => Next::Command(
            line,
            command,
            Rest {
                bytes: left.bytes,
                line: left.line,
                over: rest.over,
            },
        ),
        First::Fault(line) => Next::Fault(line),
        First::Unfinished(left, _lacks) => {
            if is_cut_short(rest.over, left.bytes) {
                Next::Fault(left.line)
            } else {
                Next::End
            }
        }
    }
}

/// Whether a script that ends with this is wrong there: with part of a command, or where there are bytes over the limit.
pub fn is_cut_short(over: bool, left: &[u8]) -> bool
    ensures { result ≡ (over || nat_lt 0 (length left.now)) }
{
    over || !left.is_empty()
}
