//! The line that reports where a script is wrong.
ghost use Rattle.occheck_script.specs.Output.{IsFaultReported, fault_text};
ghost use Rattle.occheck_script.specs.Status.{is_device_fault};
ghost use Rattle.std.specs.Prelude.{◌≡◌, IfOk, Some, false};

use super::answer::line_naming;
use super::devices::ByteOut;
use super::status::Status;
use super::written::write_all;
use std::alloc::{AllocError, Global};

/// Ends a run at the line on which the script is wrong.
pub fn report_fault<W: ByteOut>(alloc: Global, line: usize, writer: &mut W) -> Status
    requires { W.has_failed writer.old ≡ false }
    ensures reported { IsFaultReported line (W.written writer.old) (W.written writer.new) result }
    ensures device { is_device_fault result ≡ W.has_failed writer.new }
{
    let Ok(text) = fault_line(alloc, line) else {
        return Status::NoMemory;
    };
    match write_all(writer, text.as_slice()) {
        Ok(()) => Status::ScriptFault,
        Err(_failed) => Status::DeviceFault,
    }
}

/// The line that reports a script fault.
fn fault_line(alloc: Global, line: usize) -> Result<Vec<u8>, AllocError>
    ensures { IfOk result (λ bytes. bytes.items ≡ fault_text (Some line)) }
{
    let number = line.to_string(alloc)?;
    let text = line_naming(alloc, "script fault ", number.as_bytes())?;
    Ok(text)
}
