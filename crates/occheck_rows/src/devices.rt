//! Devices in memory: bytes to read and to write, a few at a time, which fail at a given call.
ghost use Rattle.std.specs.Prelude.{◌≡◌, ◌≤◌, List, None, [], Some, false, length, take, ℕ};

use occheck_script::{ByteIn, ByteOut, Failed};
use std::alloc::Global;

/// The number of a call that is never made.
pub const NEVER: u32 = u32::MAX;

/// How many bytes a call reads or writes at most.
const PIECE: usize = 7;

/// Bytes in memory as a source, a few at a time. The read with this number is refused.
#[derive(Drop)]
pub struct Paper<'a> {
    bytes: &'a [u8],
    reads: u32,
    refused: u32,
    taken: u64,
    failed: bool,
}

impl<'a> Paper<'a> {
    /// The bytes, of which nothing was read.
    pub fn new(bytes: &'a [u8], refused: u32) -> Paper<'a>
        ensures bytes { result.bytes.now ≡ bytes.now }
        ensures reads { result.reads ≡ 0 }
        ensures refused { result.refused ≡ refused }
        ensures taken { result.taken ≡ 0 }
        ensures failed { result.failed ≡ false }
    {
        Paper {
            bytes,
            reads: 0,
            refused,
            taken: 0,
            failed: false,
        }
    }
}

impl ByteIn for Paper<'_> {
    ghost unread = { λ p. Some p.bytes.now };

    ghost taken = { λ p. p.taken };

    ghost has_failed = { λ p. p.failed };

    fn read(&mut self, buffer: &mut [u8]) -> Result<usize, Failed> {
        if self.reads == self.refused {
            self.failed = true;
            return Err(Failed);
        }
        self.reads = self.reads.saturating_add(1);
        let count = PIECE.min(buffer.len()).min(self.bytes.len());
        let (front, following) = self.bytes.split_at(count);
        let (room, _) = buffer.split_at_mut(count);
        room.copy_from_slice(front);
        self.bytes = following;
        self.taken = self.taken.saturating_add(count as u64);
        Ok(count)
    }

    fn failed(&self) -> bool {
        self.failed
    }
}

/// Line feeds without end.
#[derive(Drop)]
pub struct Endless {
    taken: u64,
}

impl Endless {
    /// Nothing was read.
    pub fn new() -> Endless
        ensures { result.taken ≡ 0 }
    {
        Endless { taken: 0 }
    }
}

impl ByteIn for Endless {
    ghost unread = { λ e. None };

    ghost taken = { λ e. e.taken };

    ghost has_failed = { λ e. false };

    fn read(&mut self, buffer: &mut [u8]) -> Result<usize, Failed> {
        for byte in buffer.iter_mut() {
            *byte = b'\n';
        }
        self.taken = self.taken.saturating_add(buffer.len() as u64);
        Ok(buffer.len())
    }

    fn failed(&self) -> bool {
        false
    }
}

/// Bytes in memory as where the answers go, a few at a time. The write with this number is refused, or takes
/// nothing.
#[derive(Drop)]
pub struct Page {
    bytes: Vec<u8>,
    writes: u32,
    refused: u32,
    takes_none: bool,
    failed: bool,
}

impl Page {
    /// Nothing was written.
    pub fn new(alloc: Global, refused: u32, takes_none: bool) -> Page
        ensures bytes { result.bytes.items ≡ [] }
        ensures writes { result.writes ≡ 0 }
        ensures refused { result.refused ≡ refused }
        ensures takes_none { result.takes_none ≡ takes_none }
        ensures failed { result.failed ≡ false }
    {
        Page {
            bytes: Vec::new(alloc),
            writes: 0,
            refused,
            takes_none,
            failed: false,
        }
    }

    /// What was written.
    pub fn bytes(&self) -> &[u8]
        ensures { result.now ≡ self.now.bytes.items }
    {
        self.bytes.as_slice()
    }
}

impl ByteOut for Page {
    ghost written = { λ p. Some p.bytes.items };

    ghost has_failed = { λ p. p.failed };

    fn write(&mut self, buffer: &[u8]) -> Result<usize, Failed> {
        if self.writes == self.refused {
            self.failed = true;
            return if self.takes_none && !buffer.is_empty() {
                Ok(0)
            } else {
                Err(Failed)
            };
        }
        self.writes = self.writes.saturating_add(1);
        let count = PIECE.min(buffer.len());
        let (front, _) = buffer.split_at(count);
        if self.bytes.extend_from_slice(front).is_err() {
            self.failed = true;
            return Err(Failed);
        }
        Ok(count)
    }

    fn failed(&self) -> bool {
        self.failed
    }
}
