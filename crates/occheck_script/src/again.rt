//! A call of a device that was interrupted is made again.
ghost use Rattle.std.specs.Io.KnownBytes.{ReadConsumes, WriteAppends};
ghost use Rattle.std.specs.Io.{ReadsAtMost, WritesAtMost};

use std::io::{self, ErrorKind, Read, Write};

/// How often it is made again. A device that is interrupted each time has failed.
const MOST_TRIES: usize = 65_536;

/// Reads bytes into the front of the buffer.
pub fn read_again<R: Read>(reader: &mut R, buffer: &mut [u8]) -> io::Result<usize>
    ensures bound { ReadsAtMost result buffer.new }
    ensures bytes { ReadConsumes (R.remaining reader.old) (R.remaining reader.new) result buffer.new }
{
    for _ in 0..MOST_TRIES {
        match reader.read(buffer) {
            Err(error) if error.kind() == ErrorKind::Interrupted => {}
            result => return result,
        }
    }
    Err(io::Error::from(ErrorKind::Interrupted))
}

/// Writes bytes from the front of the buffer.
pub fn write_again<W: Write>(writer: &mut W, buffer: &[u8]) -> io::Result<usize>
    ensures bound { WritesAtMost result buffer.now }
    ensures bytes { WriteAppends (W.contents writer.old) (W.contents writer.new) result buffer.now }
{
    for _ in 0..MOST_TRIES {
        match writer.write(buffer) {
            Err(error) if error.kind() == ErrorKind::Interrupted => {}
            result => return result,
        }
    }
    Err(io::Error::from(ErrorKind::Interrupted))
}
