//! Reads and judges scripts, each before the next one is read.
ghost use Rattle.occheck_commands.specs.Script.{script_of};
ghost use Rattle.occheck_sessions.specs.Output.{fault_in, first_fault};
ghost use Rattle.occheck_sessions.specs.Sessions.{session_fault};
ghost use Rattle.occheck_sessions.specs.declared.reading.Unread.TheVariants as unread;
ghost use Rattle.occheck_sessions.specs.inside.Unread.{IsFault, is_refused};
ghost use Rattle.std.specs.List.{list_any};
ghost use Rattle.std.specs.Prelude.{◌≡◌, ◌+◌, ◌++◌, ◌<◌, ◌^◌, IfErr, IfOk, List, None, Some, false, length, map, ℕ};

use super::judging::fault_of;
use super::script::SessionScript;
use occheck_script::{ByteIn, ReadFault, read_script};
use std::alloc::{AllocError, AllocFailed, Global};

/// Why scripts are not run.
#[derive(Clone, Copy)]
pub enum Unread {
    /// A read was refused.
    Device,
    /// Memory was refused.
    Memory,
    /// The script of this session is wrong on this line.
    Script(usize, usize),
}

impl From<AllocError> for Unread {
    ghost from_gives = { λ _ e. e ≡ unread.Memory };

    fn from(_error: AllocError) -> Unread {
        Unread::Memory
    }
}

impl<T: Drop> From<AllocFailed<T>> for Unread {
    ghost from_gives = { λ _ e. e ≡ unread.Memory };

    fn from(_error: AllocFailed<T>) -> Unread {
        Unread::Memory
    }
}

/// Reads and judges the script of a session.
fn read_one<R: ByteIn>(
    alloc: Global,
    session: usize,
    reader: &mut R,
) -> Result<SessionScript, Unread>
    requires { R.has_failed reader.old ≡ false }
    ensures says { IfOk result (λ script. (bytes : List ℕ) → R.unread reader.old ≡ Some bytes → script ≡ script_of bytes) }
    ensures fine { IfOk result (λ script. session_fault script ≡ None) }
    ensures fault { IfErr result (λ why. (bytes : List ℕ) → R.unread reader.old ≡ Some bytes → IsFault (fault_in session (session_fault (script_of bytes)) None) why) }
    ensures failed { R.has_failed reader.new ≡ is_refused result }
{
    let text = match read_script(alloc, reader) {
        Ok(text) => text,
        Err(ReadFault::Device) => return Err(Unread::Device),
        Err(ReadFault::Memory) => return Err(Unread::Memory),
    };
    let script = SessionScript::of(text);
    match fault_of(&script) {
        Some(line) => Err(Unread::Script(session, line)),
        None => Ok(script),
    }
}

/// Reads and judges scripts, each before the next one is read.
pub fn read_all<R: ByteIn>(alloc: Global, readers: &mut [R]) -> Result<Vec<SessionScript>, Unread>
    requires verified { list_any R.has_failed readers.old ≡ false }
    requires few { length readers.old < 2 ^ 32 }
    ensures says { IfOk result (λ scripts. (bytes : List (List ℕ)) → map R.unread readers.old ≡ map Some bytes → scripts.items ≡ map script_of bytes) }
    ensures count { IfOk result (λ scripts. length scripts.items ≡ length readers.old) }
    ensures fine { IfOk result (λ scripts. first_fault 1 scripts.items ≡ None) }
    ensures fault { IfErr result (λ why. (bytes : List (List ℕ)) → map R.unread readers.old ≡ map Some bytes → IsFault (first_fault 1 (map script_of bytes)) why) }
    ensures failed { list_any R.has_failed readers.new ≡ is_refused result }
{
    read_after(alloc, Vec::new(alloc), readers)
}

/// Reads and judges scripts after others.
fn read_after<R: ByteIn>(
    alloc: Global,
    before: Vec<SessionScript>,
    readers: &mut [R],
) -> Result<Vec<SessionScript>, Unread>
    requires verified { list_any R.has_failed readers.old ≡ false }
    requires few { length before.items + length readers.old < 2 ^ 32 }
    ensures says { IfOk result (λ all. (bytes : List (List ℕ)) → map R.unread readers.old ≡ map Some bytes → all.items ≡ before.items ++ map script_of bytes) }
    ensures count { IfOk result (λ all. length all.items ≡ length before.items + length readers.old) }
    ensures fine { first_fault 1 before.items ≡ None → IfOk result (λ all. first_fault 1 all.items ≡ None) }
    ensures fault { IfErr result (λ why. (bytes : List (List ℕ)) → map R.unread readers.old ≡ map Some bytes → IsFault (first_fault (length before.items + 1) (map script_of bytes)) why) }
    ensures failed { list_any R.has_failed readers.new ≡ is_refused result }
{
    match readers.split_first_mut() {
        None => Ok(before),
        Some((reader, readers)) => {
            let script = match read_one(alloc, before.len() + 1, reader) {
                Ok(script) => script,
                Err(why) => return Err(why),
            };
            let mut before = before;
            before.push(script)?;
            read_after(alloc, before, readers)
        }
    }
}
