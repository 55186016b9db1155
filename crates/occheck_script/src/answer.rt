//! Lines of an answer.
ghost use Rattle.std.specs.Prelude.{◌≡◌, ◌++◌, IfOk};
ghost use Rattle.occheck_script.specs.Machine.{with_line_end};

use std::alloc::{AllocError, Global};

/// A line of the answer.
pub fn line(alloc: Global, words: &str) -> Result<Vec<u8>, AllocError>
    ensures { IfOk result (λ bytes. bytes.items ≡ with_line_end words.now) }
{
    let mut bytes = Vec::from_slice(alloc, words.as_bytes())?;
    bytes.push(b'\n')?;
    Ok(bytes)
}

/// A line of the answer that names something.
pub fn line_naming(alloc: Global, words: &str, name: &[u8]) -> Result<Vec<u8>, AllocError>
    ensures { IfOk result (λ bytes. bytes.items ≡ with_line_end (words.now ++ name.now)) }
{
    let mut bytes = Vec::from_slice(alloc, words.as_bytes())?;
    bytes.extend_from_slice(name)?;
    bytes.push(b'\n')?;
    Ok(bytes)
}
