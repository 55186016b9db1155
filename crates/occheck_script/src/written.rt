//! Writes all bytes of an answer, or a front of them if a write fails.
ghost use Rattle.std.specs.Prelude.{◌≡◌, true, OnErr, OnOk};
ghost use Rattle.occheck_script.specs.Devices.{Appends, AppendsFront};

use super::devices::{ByteOut, Failed};

/// Writes all the bytes. Where a write fails, a front of them was written.
#[tactic(auto, using(crate::proofs::Left::wrote, crate::proofs::Left::nothing_yet, crate::proofs::Left::nothing_left, crate::proofs::Left::left_front, crate::proofs::Left::same_front))]
pub fn write_all<W: ByteOut>(writer: &mut W, bytes: &[u8]) -> Result<(), Failed>
    ensures ok { OnOk result (Appends (W.written writer.old) (W.written writer.new) bytes.now) }
    ensures front { OnErr result (AppendsFront (W.written writer.old) (W.written writer.new) bytes.now) }
    ensures failing { OnErr result (W.has_failed writer.new ≡ true) }
    ensures fine { OnOk result (W.has_failed writer.new ≡ W.has_failed writer.old) }
{
    let mut rest = bytes;
    while !rest.is_empty() {
        match writer.write(rest) {
            Ok(0) => return Err(Failed),
            Ok(count) => {
                let (_, left) = rest.split_at(count);
                rest = left;
            }
            Err(failed) => return Err(failed),
        }
    }
    Ok(())
}
