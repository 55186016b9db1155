//! Answers the commands that lie whole in what was read. An answer is held back only while the next command lies there whole, too.
ghost use Rattle.occheck_commands.specs.Left.{AreEnded, meant};
ghost use Rattle.occheck_script.specs.Machine.{Reading, ReadsCommand, after, answer as spec_answer};
ghost use Rattle.occheck_script.specs.Status.{is_device_fault};
ghost use Rattle.occheck_script.specs.inside.Begun.{IsBegun, IsLeft};
ghost use Rattle.occheck_script.specs.inside.Going.{GoesOn, IsHalted, Left, Stops};
ghost use Rattle.std.specs.Prelude.{◌≡◌, ◌≤◌, ◌<◌, ◌+◌, ◌^◌, ◌++◌, IfErr, IfOk, List, OnOk, Option, drop, false, length, ℕ};

use super::begun::{Answered, Begun};
use super::desk::Desk;
use super::devices::ByteOut;
use super::fault::report_fault;
use super::held::{hold, without_memory, write_held};
use super::status::Status;
use occheck_commands::{Command, First, Lines, ended_length, first_command};
use std::alloc::Global;

/// Answers the commands that lie whole in what was read, and writes all the answers.
///
/// # Errors
///
/// The status with which the run ends.
pub fn answer_begun<W: ByteOut>(
    alloc: Global,
    desk: &mut Desk,
    begun: &mut Begun,
    writer: &mut W,
) -> Result<(), Status>
    requires begun { IsBegun begun.old }
    requires small { begun.old.line + length begun.old.bytes.items < 2 ^ 60 }
    requires writer { W.has_failed writer.old ≡ false }
    ensures begun { OnOk result (IsBegun begun.new) }
    ensures lacks { OnOk result (0 < begun.new.lacks) }
    ensures goes_on { OnOk result (GoesOn begun.old.line begun.old.bytes.items begun.new.line begun.new.bytes.items desk.old desk.new (W.written writer.old) (W.written writer.new)) }
    ensures line { OnOk result (begun.new.line + length begun.new.bytes.items ≤ begun.old.line + length begun.old.bytes.items) }
    ensures fine { OnOk result (W.has_failed writer.new ≡ false) }
    ensures stops { IfErr result (λ ended. Stops begun.old.line begun.old.bytes.items desk.old (W.written writer.old) (W.written writer.new) ended) }
    ensures device { IfErr result (λ ended. is_device_fault ended ≡ W.has_failed writer.new) }
{
    let bytes = begun.bytes.as_slice();
    let (ended, _) = bytes.split_at(ended_length(bytes));
    let lines = Lines {
        bytes: ended,
        line: begun.line,
    };
    let answered = answer_lines(alloc, desk, lines, writer)?;
    begun.keep(answered);
    Ok(())
}

/// Answers the commands that lie whole in the lines, and writes all the answers.
///
/// # Errors
///
/// The status with which the run ends.
pub fn answer_lines<W: ByteOut>(
    alloc: Global,
    desk: &mut Desk,
    lines: Lines<'_>,
    writer: &mut W,
) -> Result<Answered, Status>
    requires lines { AreEnded lines }
    requires writer { W.has_failed writer.old ≡ false }
    ensures left { IfOk result (λ answered. IsLeft lines.entry.line lines.entry.bytes.now answered) }
    ensures goes_on { IfOk result (λ answered. GoesOn lines.entry.line lines.entry.bytes.now answered.line (drop answered.used lines.entry.bytes.now) desk.old desk.new (W.written writer.old) (W.written writer.new)) }
    ensures fine { OnOk result (W.has_failed writer.new ≡ false) }
    ensures stops { IfErr result (λ ended. Stops lines.entry.line lines.entry.bytes.now desk.old (W.written writer.old) (W.written writer.new) ended) }
    ensures device { IfErr result (λ ended. is_device_fault ended ≡ W.has_failed writer.new) }
{
    let all = lines.bytes.len();
    let mut held = Vec::new(alloc);
    let mut rest = lines;
    for _ in 0..all + 1 {
        match first_command(rest) {
            First::Command(_line, command, left) => {
                carry_out(alloc, desk, command, &mut held, writer)?;
                rest = left;
            }
            First::Fault(line) => {
                write_held(&mut held, writer)?;
                return Err(report_fault(alloc, line, writer));
            }
            First::Unfinished(left, lacks) => {
                write_held(&mut held, writer)?;
                return Ok(Answered {
                    used: all - left.bytes.len(),
                    line: left.line,
                    lacks,
                });
            }
        }
    }
    unreachable!()
}

/// Carries a command out, and holds its answer back behind others.
///
/// # Errors
///
/// The status with which the run ends.
fn carry_out<W: ByteOut>(
    alloc: Global,
    desk: &mut Desk,
    command: Command<'_>,
    held: &mut Vec<u8>,
    writer: &mut W,
) -> Result<(), Status>
    requires { W.has_failed writer.old ≡ false }
    ensures after { (read : Reading) → ReadsCommand read (meant command.entry) → OnOk result (desk.new ≡ after read desk.old (meant command.entry)) }
    ensures held { (read : Reading) → ReadsCommand read (meant command.entry) → OnOk result ((before : Option (List ℕ)) (all : List ℕ) → Left before (W.written writer.old) held.old.items all → Left before (W.written writer.new) held.new.items (all ++ spec_answer read desk.old (meant command.entry))) }
    ensures fine { OnOk result (W.has_failed writer.new ≡ false) }
    ensures halted { (read : Reading) → ReadsCommand read (meant command.entry) → IfErr result (λ ended. (before : Option (List ℕ)) (all : List ℕ) → Left before (W.written writer.old) held.old.items all → IsHalted before (W.written writer.new) all (spec_answer read desk.old (meant command.entry)) ended) }
    ensures device { IfErr result (λ ended. is_device_fault ended ≡ W.has_failed writer.new) }
{
    match desk.answer(alloc, command) {
        Ok(answer) => hold(held, answer, writer),
        Err(_) => Err(without_memory(held.as_slice(), writer)),
    }
}
