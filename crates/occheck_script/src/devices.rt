//! Where a script comes from and answers go: traits over bytes, and the readers and writers of std.
ghost use Rattle.std.specs.Prelude.{◌≡◌, ◌≤◌, ◌<◌, ◌&&◌, ◌||◌, ◌==◌, ℕ, Bool, false, true, List, [], IfOk, OnErr, OnOk, Option, Some, length, nat_lt, take};
ghost use Rattle.occheck_script.specs.Devices.{Appends, Gives, counted};

use super::again::{read_again, write_again};
use std::io::{Read, Write};

/// A read or a write that was refused.
#[derive(Clone, Copy)]
pub struct Failed;

/// Where a script comes from.
pub trait ByteIn {
    /// The bytes that are left to read, where they are known.
    ghost unread: { Self → Option (List ℕ) };

    /// How many bytes were read so far, counted up to the greatest number of 64 bits.
    ghost taken: { Self → ℕ };

    /// A read was refused.
    ghost has_failed: { Self → Bool };

    /// Reads bytes into the front of `buffer` and says how many; none, where there is room for one, at the end.
    fn read(&mut self, buffer: &mut [u8]) -> Result<usize, Failed>
        ensures count { IfOk result (λ n. n ≤ length buffer.old) }
        ensures bytes { IfOk result (λ n. Gives (unread self.old) (unread self.new) (take n buffer.new)) }
        ensures end { IfOk result (λ n. n ≡ 0 → 0 < length buffer.old → (bytes : List ℕ) → unread self.old ≡ Some bytes → bytes ≡ []) }
        ensures taken { IfOk result (λ n. taken self.new ≡ counted (taken self.old) n) }
        ensures none_taken { OnErr result (taken self.new ≡ taken self.old) }
        ensures failing { OnErr result (has_failed self.new ≡ true) }
        ensures fine { OnOk result (has_failed self.new ≡ has_failed self.old) };

    /// Whether a read was refused so far.
    fn failed(&self) -> bool
        ensures { result ≡ has_failed self.now };
}

/// Where the answers go.
pub trait ByteOut {
    /// The bytes that were written, where they are known.
    ghost written: { Self → Option (List ℕ) };

    /// A write was refused, or took none of at least one byte.
    ghost has_failed: { Self → Bool };

    /// Writes bytes from the front of `buffer` and says how many.
    fn write(&mut self, buffer: &[u8]) -> Result<usize, Failed>
        ensures count { IfOk result (λ n. n ≤ length buffer.now) }
        ensures bytes { IfOk result (λ n. Appends (written self.old) (written self.new) (take n buffer.now)) }
        ensures none_written { OnErr result (Appends (written self.old) (written self.new) []) }
        ensures failing { OnErr result (has_failed self.new ≡ true) }
        ensures stuck { IfOk result (λ n. has_failed self.new ≡ (has_failed self.old || (n == 0 && nat_lt 0 (length buffer.now)))) };

    /// Whether a write failed so far.
    fn failed(&self) -> bool
        ensures { result ≡ has_failed self.now };
}

/// A reader of std as the source of a script. Contracts know its bytes where they know the reader's.
#[derive(Drop)]
pub struct StdIn<R: Read> {
    reader: R,
    taken: u64,
    failed: bool,
}

impl<R: Read> StdIn<R> {
    /// Over a reader of which nothing was read.
    pub fn new(reader: R) -> StdIn<R>
        ensures reader { result.reader ≡ reader }
        ensures taken { result.taken ≡ 0 }
        ensures failed { result.failed ≡ false }
    {
        StdIn {
            reader,
            taken: 0,
            failed: false,
        }
    }
}

impl<R: Read> ByteIn for StdIn<R> {
    ghost unread = { λ s. R.remaining s.reader };

    ghost taken = { λ s. s.taken };

    ghost has_failed = { λ s. s.failed };

    #[tactic(auto, using(crate::proofs::Std::gives, crate::proofs::Std::ends))]
    fn read(&mut self, buffer: &mut [u8]) -> Result<usize, Failed> {
        match read_again(&mut self.reader, buffer) {
            Ok(count) => {
                self.taken = self.taken.saturating_add(count as u64);
                Ok(count)
            }
            Err(_) => {
                self.failed = true;
                Err(Failed)
            }
        }
    }

    fn failed(&self) -> bool {
        self.failed
    }
}

/// A writer of std as where the answers go. Contracts know its bytes where they know the writer's.
#[derive(Drop)]
pub struct StdOut<W: Write> {
    writer: W,
    failed: bool,
}

impl<W: Write> StdOut<W> {
    /// Over a writer to which nothing was written.
    pub fn new(writer: W) -> StdOut<W>
        ensures writer { result.writer ≡ writer }
        ensures failed { result.failed ≡ false }
    {
        StdOut {
            writer,
            failed: false,
        }
    }
}

impl<W: Write> ByteOut for StdOut<W> {
    ghost written = { λ s. W.contents s.writer };

    ghost has_failed = { λ s. s.failed };

    #[tactic(auto, using(crate::proofs::Std::appends, crate::proofs::Std::stays))]
    fn write(&mut self, buffer: &[u8]) -> Result<usize, Failed> {
        match write_again(&mut self.writer, buffer) {
            Ok(count) => {
                if count == 0 && !buffer.is_empty() {
                    self.failed = true;
                }
                Ok(count)
            }
            Err(_) => {
                self.failed = true;
                Err(Failed)
            }
        }
    }

    fn failed(&self) -> bool {
        self.failed
    }
}
