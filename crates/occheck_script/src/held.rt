//! Answers that are held back, and written together.
ghost use Rattle.occheck_script.specs.Devices.{AppendsFront};
ghost use Rattle.occheck_script.specs.Status.{is_device_fault};
ghost use Rattle.occheck_script.specs.declared.status.Status.TheVariants as status;
ghost use Rattle.occheck_script.specs.inside.Going.{IsHalted, Left};
ghost use Rattle.std.specs.Prelude.{◌≡◌, ◌++◌, IfErr, List, OnErr, OnOk, Option, [], false, true, ℕ};

use super::devices::ByteOut;
use super::status::Status;
use super::written::write_all;
use std::alloc::AllocError;

/// So many bytes are not held back any longer.
const ENOUGH: usize = 65_536;

/// Holds an answer back behind others; where they are enough, all are written, and the others alone before an answer that is enough
/// alone. Where memory is refused, the others are.
pub fn hold<W: ByteOut>(held: &mut Vec<u8>, answer: Vec<u8>, writer: &mut W) -> Result<(), Status>
    requires { W.has_failed writer.old ≡ false }
    ensures held { OnOk result ((before : Option (List ℕ)) (all : List ℕ) → Left before (W.written writer.old) held.old.items all → Left before (W.written writer.new) held.new.items (all ++ answer.items)) }
    ensures fine { OnOk result (W.has_failed writer.new ≡ false) }
    ensures halted { IfErr result (λ ended. (before : Option (List ℕ)) (all : List ℕ) → Left before (W.written writer.old) held.old.items all → IsHalted before (W.written writer.new) all answer.items ended) }
    ensures device { IfErr result (λ ended. is_device_fault ended ≡ W.has_failed writer.new) }
{
    match write_enough(held, answer.len(), writer) {
        Ok(()) => hold_behind(held, answer, writer),
        Err(_ended) => Err(Status::DeviceFault),
    }
}

/// Holds an answer back behind others; where they are enough, all are written. Where memory is refused, the others are.
fn hold_behind<W: ByteOut>(
    held: &mut Vec<u8>,
    answer: Vec<u8>,
    writer: &mut W,
) -> Result<(), Status>
    requires { W.has_failed writer.old ≡ false }
    ensures held { OnOk result ((before : Option (List ℕ)) (all : List ℕ) → Left before (W.written writer.old) held.old.items all → Left before (W.written writer.new) held.new.items (all ++ answer.items)) }
    ensures fine { OnOk result (W.has_failed writer.new ≡ false) }
    ensures halted { IfErr result (λ ended. (before : Option (List ℕ)) (all : List ℕ) → Left before (W.written writer.old) held.old.items all → IsHalted before (W.written writer.new) all answer.items ended) }
    ensures device { IfErr result (λ ended. is_device_fault ended ≡ W.has_failed writer.new) }
{
    match add(held, answer) {
        Ok(()) => write_enough(held, held.len(), writer),
        Err(_refused) => Err(without_memory(held.as_slice(), writer)),
    }
}

/// Adds an answer behind others. One that is alone is not copied.
fn add(held: &mut Vec<u8>, answer: Vec<u8>) -> Result<(), AllocError>
    ensures ok { OnOk result (held.new.items ≡ held.old.items ++ answer.items) }
    ensures err { OnErr result (held.new.items ≡ held.old.items) }
{
    if held.is_empty() {
        *held = answer;
        return Ok(());
    }
    held.extend_from_slice(answer.as_slice())
}

/// Writes the answers that are held back, if so many bytes are enough.
fn write_enough<W: ByteOut>(held: &mut Vec<u8>, bytes: usize, writer: &mut W) -> Result<(), Status>
    requires { W.has_failed writer.old ≡ false }
    ensures held { OnOk result ((before : Option (List ℕ)) (all : List ℕ) → Left before (W.written writer.old) held.old.items all → Left before (W.written writer.new) held.new.items all) }
    ensures front { OnErr result ((before : Option (List ℕ)) (all : List ℕ) → Left before (W.written writer.old) held.old.items all → AppendsFront before (W.written writer.new) all) }
    ensures fine { OnOk result (W.has_failed writer.new ≡ false) }
    ensures failed { IfErr result (λ ended. ended ≡ status.DeviceFault) }
    ensures failing { OnErr result (W.has_failed writer.new ≡ true) }
{
    if bytes < ENOUGH {
        return Ok(());
    }
    write_held(held, writer)
}

/// Writes the answers that are held back.
pub fn write_held<W: ByteOut>(held: &mut Vec<u8>, writer: &mut W) -> Result<(), Status>
    requires { W.has_failed writer.old ≡ false }
    ensures empty { OnOk result (held.new.items ≡ []) }
    ensures held { OnOk result ((before : Option (List ℕ)) (all : List ℕ) → Left before (W.written writer.old) held.old.items all → Left before (W.written writer.new) held.new.items all) }
    ensures front { OnErr result ((before : Option (List ℕ)) (all : List ℕ) → Left before (W.written writer.old) held.old.items all → AppendsFront before (W.written writer.new) all) }
    ensures fine { OnOk result (W.has_failed writer.new ≡ false) }
    ensures failed { IfErr result (λ ended. ended ≡ status.DeviceFault) }
    ensures failing { OnErr result (W.has_failed writer.new ≡ true) }
{
    match write_all(writer, held.as_slice()) {
        Ok(()) => {
            held.clear();
            Ok(())
        }
        Err(_failed) => Err(Status::DeviceFault),
    }
}

/// Ends a run where memory is refused: the answers that are held back are written.
pub fn without_memory<W: ByteOut>(held: &[u8], writer: &mut W) -> Status
    requires { W.has_failed writer.old ≡ false }
    ensures halted { (before : Option (List ℕ)) (all more : List ℕ) → Left before (W.written writer.old) held.now all → IsHalted before (W.written writer.new) all more result }
    ensures device { is_device_fault result ≡ W.has_failed writer.new }
{
    match write_all(writer, held) {
        Ok(()) => Status::NoMemory,
        Err(_failed) => Status::DeviceFault,
    }
}
