//! What becomes of an outcome, by name.
use occ_base::FileName;

/// What becomes of an outcome.
#[derive(Clone, Copy)]
pub enum Verdict {
    /// It is cached.
    Accepted,
    /// The outcome that is cached of the unit has looked at the same.
    Repeated,
    /// This file, or this unit, is not what the outcome looked at any more.
    Stale(FileName),
    /// The outcome looked at this file with a revision that is still to come, or with a text that it never had under
    /// that revision.
    Foreign(FileName),
}
