//! Reads a script to its end, or one byte over the limit.
ghost use Rattle.std.specs.Prelude.{◌≡◌, ◌+◌, ◌≤◌, ◌<◌, ℕ, List, IfOk, OnErr, OnOk, Some, Err, drop, length, false, nat_lt, take, true};
ghost use Rattle.occheck_commands.specs.Ended.{IsEnded};
ghost use Rattle.occheck_commands.specs.Lines.{cut_lines, script_limit, whole_lines};
ghost use Rattle.occheck_script.specs.declared.input.ReadFault.TheVariants as fault;

use super::devices::ByteIn;
use occheck_commands::{LIMIT, ScriptText, whole_text};
use std::alloc::{AllocError, Global};

/// How many bytes are asked for at once, at most.
const PIECE: usize = 8192;

/// Why a script could not be read.
#[derive(Clone, Copy)]
pub enum ReadFault {
    /// A read was refused.
    Device,
    /// Memory was refused.
    Memory,
}

impl From<AllocError> for ReadFault {
    ghost from_gives = { λ _ e. e ≡ fault.Memory };

    fn from(_error: AllocError) -> ReadFault {
        ReadFault::Memory
    }
}

/// Reads a script to its end, and no further than one byte over the limit.
pub fn read_script<R: ByteIn>(alloc: Global, reader: &mut R) -> Result<ScriptText, ReadFault>
    ensures ended { IfOk result (λ text. IsEnded text.bytes.items) }
    ensures short { IfOk result (λ text. length text.bytes.items ≤ script_limit + 1) }
    ensures lines { IfOk result (λ text. (all : List ℕ) → R.unread reader.old ≡ Some all → cut_lines text.bytes.items ≡ whole_lines all) }
    ensures over { IfOk result (λ text. (all : List ℕ) → R.unread reader.old ≡ Some all → text.over ≡ nat_lt script_limit (length all)) }
    ensures taken { R.taken reader.new ≤ R.taken reader.old + (script_limit + 1) }
    ensures failing { result ≡ Err fault.Device → R.has_failed reader.new ≡ true }
    ensures memory { result ≡ Err fault.Memory → R.has_failed reader.new ≡ R.has_failed reader.old }
    ensures fine { OnOk result (R.has_failed reader.new ≡ R.has_failed reader.old) }
{
    let bytes = read_bytes(alloc, reader)?;
    Ok(whole_text(bytes)?)
}

/// Reads all bytes, or one more than the limit.
fn read_bytes<R: ByteIn>(alloc: Global, reader: &mut R) -> Result<Vec<u8>, ReadFault>
    ensures all { IfOk result (λ bytes. (all : List ℕ) → R.unread reader.old ≡ Some all → bytes.items ≡ take (script_limit + 1) all) }
    ensures short { IfOk result (λ bytes. length bytes.items ≤ script_limit + 1) }
    ensures taken { R.taken reader.new ≤ R.taken reader.old + (script_limit + 1) }
    ensures failing { result ≡ Err fault.Device → R.has_failed reader.new ≡ true }
    ensures memory { result ≡ Err fault.Memory → R.has_failed reader.new ≡ R.has_failed reader.old }
    ensures fine { OnOk result (R.has_failed reader.new ≡ R.has_failed reader.old) }
{
    let mut bytes = Vec::new(alloc);
    let mut piece = [0; PIECE];
    while bytes.len() <= LIMIT {
        let room = PIECE.min(LIMIT + 1 - bytes.len());
        let count = match reader.read(&mut piece[..room]) {
            Ok(count) => count,
            Err(_) => return Err(ReadFault::Device),
        };
        if count == 0 {
            return Ok(bytes);
        }
        bytes.extend_from_slice(&piece[..count])?;
    }
    Ok(bytes)
}
