//! What the program promises of a script, and of scripts that run as sessions beside one another.
ghost use Rattle.occheck_commands.specs.Lines.{script_limit};
ghost use Rattle.occheck_commands.specs.Script.{Placed, script_of};
ghost use Rattle.occheck_script.specs.Machine.{IsReading, Reading, start};
ghost use Rattle.occheck_script.specs.Output.{IsCutOff, IsWritten as IsScriptWritten, state_after};
ghost use Rattle.occheck_script.specs.Status.{is_device_fault};
ghost use Rattle.occheck_sessions.specs.Output.{AreReading, IsWritten as AreSessionsWritten};
ghost use Rattle.occ_theorems.specs.Reports.{IsRight};
ghost use Rattle.std.specs.List.{list_any};
ghost use Rattle.std.specs.Prelude.{List, Some, false, length, map, true, ℕ, ◌+◌, ◌<◌, ◌||◌, ◌≡◌, ◌≤◌};

use super::board::right_report_law;
use occ_board::laws::base_law;
use occ_server::Gate;
use occheck_script::{ByteIn, ByteOut, Status, run_script};
use occheck_sessions::run_sessions;
use std::alloc::Global;
use std::sync::Wait;
use std::thread::Threads;

/// What is written for a script is what the machine answers: all of it with status 0 or 1, a front of it after a device fault.
/// Each state has a right report: of a unit that is not pending what a check from nothing says, whatever came before.
pub fn script_theorem<R: ByteIn, W: ByteOut>(
    alloc: Global,
    reader: &mut R,
    writer: &mut W,
) -> Status
    requires reader { R.has_failed reader.old ≡ false }
    requires writer { W.has_failed writer.old ≡ false }

    // What is written of a script whose bytes are known.
    ensures written { (bytes : List ℕ) → R.unread reader.old ≡ Some bytes → (read : Reading) → IsReading read (script_of bytes).commands → IsScriptWritten read (script_of bytes) (W.written writer.old) (W.written writer.new) result }

    // The report of the state after any commands.
    ensures reports { (read : Reading) (commands : List Placed) → IsRight (state_after read start commands).board }

    // A device fault is reported exactly where a device failed.
    ensures devices { is_device_fault result ≡ (R.has_failed reader.new || W.has_failed writer.new) }

    // Where a read failed, exactly the commands were answered that lie whole in what was read.
    ensures answered { R.has_failed reader.new ≡ true → (bytes : List ℕ) → R.unread reader.old ≡ Some bytes → (read : Reading) → IsReading read (script_of bytes).commands → IsCutOff read bytes (R.taken reader.old) (R.taken reader.new) (W.written writer.old) (W.written writer.new) }
    ensures taken { R.taken reader.new ≤ R.taken reader.old + (script_limit + 1) }
{
    base_law();
    right_report_law();
    run_script(alloc, reader, writer)
}

/// With status 0 or 1 what is written for sessions agrees with one legal journal of their edits, and ends with its report from nothing.
/// So whatever threads did, accepted edits and reports fit one order; a refusal has only a word that fits its edit.
pub fn sessions_theorem<R: ByteIn, W: ByteOut, G: Gate + Sync, T: Threads + Wait + Sync>(
    rt: &T,
    alloc: Global,
    readers: &mut [R],
    workers: u32,
    gate: &G,
    writer: &mut W,
) -> Status
    requires scripts { (0 < length readers.old) × (length readers.old < 17) }
    requires workers { (0 < workers) × (workers < 17) }
    requires readers { list_any R.has_failed readers.old ≡ false }
    requires writer { W.has_failed writer.old ≡ false }

    // What is written of scripts whose bytes are known.
    ensures written { (bytes : List (List ℕ)) → map R.unread readers.old ≡ map Some bytes → (read : Reading) → AreReading read (map script_of bytes) → AreSessionsWritten read (map script_of bytes) (W.written writer.old) (W.written writer.new) result }

    // A device fault is reported exactly where a device failed.
    ensures devices { is_device_fault result ≡ (list_any R.has_failed readers.new || W.has_failed writer.new) }
    ensures unread { list_any R.has_failed readers.new ≡ true → W.written writer.new ≡ W.written writer.old }
{
    run_sessions(rt, alloc, readers, workers, gate, writer)
}
