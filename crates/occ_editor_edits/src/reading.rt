//! Frames are read a line of the head at a time, and then so many bytes.
ghost use Rattle.occ_editor_edits.specs.Frames.{IsFrameRead, IsHeadRead, ends_line, kept};
ghost use Rattle.occ_editor_edits.specs.declared.reading.FrameFault.TheVariants as a_fault;
ghost use Rattle.std.specs.Io.KnownBytes.{Consumes, IsAtEnd};
ghost use Rattle.std.specs.Prelude.{◌≡◌, ◌≤◌, [], ◌∷◌, IfOk, IfSome, IfNone, false, length, true};
ghost use Rattle.std.specs.Str.{bytes_eq};

use super::head::told;
use std::alloc::{AllocError, AllocFailed, Global};
use std::io::{ErrorKind, Read};

/// Why no message is read.
#[derive(Clone, Copy, Debug, PartialEq, Eq)]
pub enum FrameFault {
    /// The input ends within a message.
    Cut,
    /// A line of a head, or a head, is too long.
    LongHead,
    /// No line of the head tells how long the message is.
    NoLength,
    /// The message is too long.
    LongMessage,
    /// A read failed.
    Device,
    /// Memory was refused.
    Memory,
}

impl From<AllocError> for FrameFault {
    ghost from_gives = { λ _ e. e ≡ a_fault.Memory };

    fn from(_error: AllocError) -> FrameFault {
        FrameFault::Memory
    }
}

impl<T: Drop> From<AllocFailed<T>> for FrameFault {
    ghost from_gives = { λ _ e. e ≡ a_fault.Memory };

    fn from(_error: AllocFailed<T>) -> FrameFault {
        FrameFault::Memory
    }
}

const MOST_LINE: usize = 1024;

const MOST_LINES: usize = 64;

const MOST_TRIES: usize = 1024;

/// The next byte, nothing at the end of the input.
fn read_byte<R: Read>(reader: &mut R) -> Result<Option<u8>, FrameFault>
    ensures says { IfOk result (λ read. IfSome read (λ byte. Consumes (R.remaining reader.old) (R.remaining reader.new) (byte ∷ []))) }
    ensures end { IfOk result (λ read. IfNone read (Consumes (R.remaining reader.old) (R.remaining reader.new) [] × IsAtEnd (R.remaining reader.new))) }
{
    for _ in 0..MOST_TRIES {
        let mut one = [0u8; 1];
        match reader.read(&mut one) {
            Ok(0) => return Ok(None),
            Ok(_) => return Ok(Some(one[0])),
            Err(error) if error.kind() == ErrorKind::Interrupted => {}
            Err(_) => return Err(FrameFault::Device),
        }
    }
    Err(FrameFault::Device)
}

/// The bytes up to a line feed, with it, and whether one ends them. If none does the input has ended.
fn read_line<R: Read>(alloc: Global, reader: &mut R) -> Result<(Vec<u8>, bool), FrameFault>
    ensures says { IfOk result (λ read. Consumes (R.remaining reader.old) (R.remaining reader.new) read.0.items) }
    ensures line { IfOk result (λ read. read.1 ≡ true → ends_line read.0.items ≡ true) }
    ensures end { IfOk result (λ read. read.1 ≡ false → IsAtEnd (R.remaining reader.new)) }
{
    let mut line = Vec::new(alloc);
    for _ in 0..MOST_LINE {
        let mut one = [0u8; 1];
        match reader.read(&mut one) {
            Ok(0) => return Ok((line, false)),
            Ok(_) => {
                line.push(one[0])?;
                if one[0] == b'\n' {
                    return Ok((line, true));
                }
            }
            Err(error) if error.kind() == ErrorKind::Interrupted => {}
            Err(_) => return Err(FrameFault::Device),
        }
    }
    Err(FrameFault::LongHead)
}

/// Whether a line is the empty one, which ends a head.
fn ends_head(line: &[u8]) -> bool
    ensures { result ≡ bytes_eq line.now (13 ∷ 10 ∷ []) }
{
    line == b"\r\n".as_slice()
}

/// The length that counts: the last that a line told.
fn later(old: Option<u32>, new: Option<u32>) -> Option<u32>
    ensures { result ≡ kept old new }
{
    match new {
        Some(_) => new,
        None => old,
    }
}

/// The lines of a head, up to the empty one, and the length that they tell; nothing at the end of the input.
fn read_head<R: Read>(alloc: Global, reader: &mut R) -> Result<Option<u32>, FrameFault>
    ensures says { IfOk result (λ told. IfSome told (λ size. IsHeadRead (R.remaining reader.old) (R.remaining reader.new) size)) }
    ensures end { IfOk result (λ told. IfNone told (Consumes (R.remaining reader.old) (R.remaining reader.new) [] × IsAtEnd (R.remaining reader.new))) }
{
    let mut size = None;
    for count in 0..MOST_LINES {
        let (line, ended) = read_line(alloc, reader)?;
        if !ended {
            if count == 0 && line.is_empty() {
                return Ok(None);
            }
            return Err(FrameFault::Cut);
        }
        if ends_head(line.as_slice()) {
            let Some(size) = size else {
                return Err(FrameFault::NoLength);
            };
            return Ok(Some(size));
        }
        size = later(size, told(line.as_slice()));
    }
    Err(FrameFault::LongHead)
}

/// So many bytes.
fn read_body<R: Read>(alloc: Global, reader: &mut R, size: u32) -> Result<Vec<u8>, FrameFault>
    ensures says { IfOk result (λ message. Consumes (R.remaining reader.old) (R.remaining reader.new) message.items) }
    ensures size { IfOk result (λ message. length message.items ≡ size) }
{
    let mut message = Vec::new(alloc);
    for _ in 0..size {
        match read_byte(reader)? {
            Some(byte) => message.push(byte)?,
            None => return Err(FrameFault::Cut),
        }
    }
    Ok(message)
}

/// The next message, nothing at the end of the input. What is left of the input is what follows its frame.
pub fn read_frame<R: Read>(
    alloc: Global,
    reader: &mut R,
    most: u32,
) -> Result<Option<Vec<u8>>, FrameFault>
    ensures says { IfOk result (λ read. IfSome read (λ message. IsFrameRead (R.remaining reader.old) (R.remaining reader.new) message.items)) }
    ensures few { IfOk result (λ read. IfSome read (λ message. length message.items ≤ most)) }
    ensures end { IfOk result (λ read. IfNone read (Consumes (R.remaining reader.old) (R.remaining reader.new) [] × IsAtEnd (R.remaining reader.new))) }
{
    let Some(size) = read_head(alloc, reader)? else {
        return Ok(None);
    };
    if most < size {
        return Err(FrameFault::LongMessage);
    }
    let message = read_body(alloc, reader, size)?;
    Ok(Some(message))
}
