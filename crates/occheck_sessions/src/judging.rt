//! Finds the first fault of a script, as that of a session.
ghost use Rattle.occheck_commands.specs.Left.{meant};
ghost use Rattle.occheck_sessions.specs.Sessions.{is_stepped as spec_is_stepped, session_fault};
ghost use Rattle.std.specs.Prelude.{◌≡◌};

use super::script::SessionScript;
use occheck_commands::{Command, Next, next_command};

/// Whether a command is of a worker, or a checkpoint, which sessions have not.
fn is_stepped(command: Command<'_>) -> bool
    ensures { result ≡ spec_is_stepped (meant command.entry) }
{
    match command {
        Command::Take(_) | Command::Finish(_) | Command::Drop(_) | Command::Checkpoint => true,
        Command::Open(_, _)
        | Command::Change(_, _)
        | Command::Remove(_)
        | Command::Settle
        | Command::Report => false,
    }
}

/// The line of the first fault of a script as that of a session.
pub fn fault_of(script: &SessionScript) -> Option<usize>
    ensures { result ≡ session_fault script.now }
{
    let mut rest = script.begin();
    let most = rest.bytes.len();
    for _ in 0..most + 1 {
        match next_command(rest) {
            Next::End => return None,
            Next::Fault(line) => return Some(line),
            Next::Command(line, command, left) => {
                if is_stepped(command) {
                    return Some(line);
                }
                rest = left;
            }
        }
    }
    unreachable!()
}
