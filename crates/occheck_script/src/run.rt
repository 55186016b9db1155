//! Runs a script. Each command is answered as soon as it lies whole in what was read, and all the answers are written before more
//! is asked for.
ghost use Rattle.occheck_commands.specs.Left.{ending};
ghost use Rattle.occheck_commands.specs.Lines.{script_limit};
ghost use Rattle.occheck_commands.specs.Script.{script_of};
ghost use Rattle.occheck_script.specs.Machine.{IsReading, Reading};
ghost use Rattle.occheck_script.specs.Output.{IsCutOff, IsWritten};
ghost use Rattle.occheck_script.specs.Status.{is_device_fault};
ghost use Rattle.occheck_script.specs.declared.status.Status.TheVariants as status;
ghost use Rattle.occheck_script.specs.inside.Begun.{IsBegun};
ghost use Rattle.occheck_script.specs.inside.Going.{GoesOn, IsWrittenFrom, Stops};
ghost use Rattle.std.specs.Prelude.{◌≡◌, ◌≤◌, ◌<◌, ◌+◌, ◌^◌, ◌++◌, ◌||◌, IfErr, List, OnOk, Some, cond, false, length, true, ℕ};

use super::answering::{answer_begun, answer_lines};
use super::begun::Begun;
use super::desk::Desk;
use super::devices::{ByteIn, ByteOut};
use super::fault::report_fault;
use super::status::Status;
use occheck_commands::{LIMIT, Lines, closed, is_cut_short};
use std::alloc::Global;
use std::mem;

/// How many bytes are asked for at once, at most.
const PIECE: usize = 131_072;

/// Runs a script: answers each command as soon as it lies whole in what was read, and has written its answer before it asks for
/// more. What it keeps is the board, part of a command, and answers of one piece.
pub fn run_script<R: ByteIn, W: ByteOut>(alloc: Global, reader: &mut R, writer: &mut W) -> Status
    requires reader { R.has_failed reader.old ≡ false }
    requires writer { W.has_failed writer.old ≡ false }

    // What is written of a script whose bytes are known.
    ensures reported { (bytes : List ℕ) → R.unread reader.old ≡ Some bytes → (read : Reading) → IsReading read (script_of bytes).commands → IsWritten read (script_of bytes) (W.written writer.old) (W.written writer.new) result }

    // A device fault is reported exactly where a device failed.
    ensures devices { is_device_fault result ≡ (R.has_failed reader.new || W.has_failed writer.new) }

    // Where a read failed, exactly the commands were answered that lie whole in what was read.
    ensures answered { R.has_failed reader.new ≡ true → (bytes : List ℕ) → R.unread reader.old ≡ Some bytes → (read : Reading) → IsReading read (script_of bytes).commands → IsCutOff read bytes (R.taken reader.old) (R.taken reader.new) (W.written writer.old) (W.written writer.new) }
    ensures taken { R.taken reader.new ≤ R.taken reader.old + (script_limit + 1) }
{
    let mut desk = Desk::new(alloc);
    let mut begun = Begun::new(alloc);
    let mut piece = [0; PIECE];
    let mut room = LIMIT;
    while room > 0 {
        let asked = PIECE.min(room);
        let Ok(count) = reader.read(&mut piece[..asked]) else {
            return Status::DeviceFault;
        };
        if count == 0 {
            return end(alloc, desk, begun, false, writer);
        }
        room -= count;
        if let Err(status) = go_on(alloc, &mut desk, &mut begun, &piece[..count], writer) {
            return status;
        }
    }
    match reader.read(&mut piece[..1]) {
        Ok(count) => end(alloc, desk, begun, count > 0, writer),
        Err(_failed) => Status::DeviceFault,
    }
}

/// Goes on with a piece that was read: the commands that lie whole now are answered, and all the answers are written.
///
/// # Errors
///
/// The status with which the run ends.
fn go_on<W: ByteOut>(
    alloc: Global,
    desk: &mut Desk,
    begun: &mut Begun,
    piece: &[u8],
    writer: &mut W,
) -> Result<(), Status>
    requires begun { IsBegun begun.old }
    requires small { begun.old.line + length begun.old.bytes.items + length piece.now < 2 ^ 60 }
    requires writer { W.has_failed writer.old ≡ false }
    ensures begun { OnOk result (IsBegun begun.new) }
    ensures lacks { OnOk result (0 < begun.new.lacks) }
    ensures goes_on { OnOk result (GoesOn begun.old.line (begun.old.bytes.items ++ piece.now) begun.new.line begun.new.bytes.items desk.old desk.new (W.written writer.old) (W.written writer.new)) }
    ensures line { OnOk result (begun.new.line + length begun.new.bytes.items ≤ begun.old.line + length begun.old.bytes.items + length piece.now) }
    ensures fine { OnOk result (W.has_failed writer.new ≡ false) }
    ensures stops { IfErr result (λ ended. Stops begun.old.line (begun.old.bytes.items ++ piece.now) desk.old (W.written writer.old) (W.written writer.new) ended) }
    ensures device { IfErr result (λ ended. is_device_fault ended ≡ W.has_failed writer.new) }
{
    if let Err(_refused) = begun.add(piece) {
        return Err(Status::NoMemory);
    }
    if begun.lacks > 0 {
        return Ok(());
    }
    answer_begun(alloc, desk, begun, writer)
}

/// Ends a run at the end of its script: what was begun is the last command, or wrong. Over says whether bytes over the limit follow.
fn end<W: ByteOut>(alloc: Global, desk: Desk, begun: Begun, over: bool, writer: &mut W) -> Status
    requires begun { IsBegun begun }
    requires small { begun.line + length begun.bytes.items + 1 < 2 ^ 60 }
    requires writer { W.has_failed writer.old ≡ false }
    ensures reported { (read : Reading) → IsReading read (ending over begun.line begun.bytes.items).commands → IsWrittenFrom read desk (ending over begun.line begun.bytes.items) (W.written writer.old) (W.written writer.new) result }
    ensures device { is_device_fault result ≡ W.has_failed writer.new }
{
    let mut desk = desk;
    let Ok(bytes) = closed(begun.bytes, over) else {
        return Status::NoMemory;
    };
    let lines = Lines {
        bytes: bytes.as_slice(),
        line: begun.line,
    };
    let answered = match answer_lines(alloc, &mut desk, lines, writer) {
        Ok(answered) => answered,
        Err(status) => return status,
    };
    let (_, left) = bytes.as_slice().split_at(answered.used);
    if is_cut_short(over, left) {
        report_fault(alloc, answered.line, writer)
    } else {
        end_run(desk)
    }
}

/// Ends a run after its last command. The program ends too: what the board keeps goes back to the system with it, and is not
/// taken apart before.
fn end_run(desk: Desk) -> Status
    ensures { result ≡ cond desk.errors status.Errors status.Clean }
{
    let status = end_status(desk.errors);
    mem::forget(desk);
    status
}

/// How a script without a fault ends.
fn end_status(errors: bool) -> Status
    ensures { result ≡ cond errors status.Errors status.Clean }
{
    if errors {
        Status::Errors
    } else {
        Status::Clean
    }
}
