//! The gate that jobs pass, what a worker did, and how a wait ended.
ghost use Rattle.occ_server.specs.Counts.{counted, is_accepted, is_stale};
ghost use Rattle.occ_server.specs.declared.work.WorkEnd.TheVariants as ends;
ghost use Rattle.std.specs.Prelude.{◌≡◌};

use occ_base::FileName;
use occ_board::Verdict;
use std::sync::Wait;

/// What a worker passes with each job before it checks it. The lock is not held there.
pub trait Gate {
    /// The worker goes on once this returns.
    fn pass<R: Wait>(&self, rt: &R, unit: &FileName);
}

/// Why a worker ended.
#[derive(Clone, Copy, PartialEq, Eq)]
pub enum WorkEnd {
    /// The server was stopped.
    Stopped,
    /// Memory was refused; the worker has then stopped the server.
    Memory,
}

/// What a worker did: how many of its outcomes were accepted, how many were stale, each counted up to the greatest number
/// of 64 bits.
#[derive(Clone, Copy)]
pub struct Worked {
    pub accepted: u64,
    pub stale: u64,
    pub end: WorkEnd,
}

impl Worked {
    /// Nothing yet.
    pub(crate) fn new() -> Worked
        ensures { result ≡ record { accepted = 0; stale = 0; end = ends.Stopped } }
    {
        Worked {
            accepted: 0,
            stale: 0,
            end: WorkEnd::Stopped,
        }
    }

    /// Counts what became of an outcome.
    pub(crate) fn count(&mut self, verdict: Verdict)
        ensures accepted { self.new.accepted ≡ counted (is_accepted verdict) self.old.accepted }
        ensures stale { self.new.stale ≡ counted (is_stale verdict) self.old.stale }
        ensures end { self.new.end ≡ self.old.end }
    {
        match verdict {
            Verdict::Accepted => self.accepted = self.accepted.saturating_add(1),
            Verdict::Stale(_) => self.stale = self.stale.saturating_add(1),
            Verdict::Repeated | Verdict::Foreign(_) => {}
        }
    }
}

/// How a wait for pending units ended.
#[derive(Clone, Copy, PartialEq, Eq)]
pub enum Settled {
    /// No unit was pending.
    Clear,
    /// The server was stopped while a unit was.
    Stopped,
}
