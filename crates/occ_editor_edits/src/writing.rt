//! The frame of a message that is written.
ghost use Rattle.occ_editor_edits.specs.Frames.{framed};
ghost use Rattle.std.specs.Prelude.{◌≡◌, IfOk};
ghost use Rattle.std.specs.String.{string_bytes};

use std::alloc::{AllocError, Global};

/// The frame of a message.
pub fn frame(alloc: Global, message: &str) -> Result<String, AllocError>
    ensures { IfOk result (λ bytes. string_bytes bytes ≡ framed message.now) }
{
    let size = message.len();
    format!(in alloc; "Content-Length: {size}\r\n\r\n{message}")
}
