//! Why a report or a close is refused.
ghost use Rattle.occ_server.specs.declared.fault.CloseFault.TheVariants as close_fault;
ghost use Rattle.occ_server.specs.declared.fault.ReportFault.TheVariants as report_fault;
ghost use Rattle.std.specs.Prelude.{◌≡◌};

use occ_board::Entry;
use std::alloc::AllocError;

/// Why there is no report. Where several hold, the first of this order is reported.
#[derive(Drop)]
pub enum ReportFault {
    /// The receipt is of an edit up to the base, which has this number: a checkpoint has handed the edit out.
    Cut(u32),
    /// The journal does not have the receipt: this is what stands at its number, if anything does.
    Behind(Option<Entry>),
    /// Memory was refused.
    Memory,
}

impl From<AllocError> for ReportFault {
    ghost from_gives = { λ _ e. e ≡ report_fault.Memory };

    fn from(_error: AllocError) -> ReportFault {
        ReportFault::Memory
    }
}

/// Why a server is not closed. Where several hold, the first of this order is reported.
#[derive(Clone, Copy)]
pub enum CloseFault {
    /// The numbers of the receipts do not go up, each greater than the one before.
    OutOfOrder,
    /// At this number, the least one, receipts and journal do not have the same, or one of them has nothing.
    Mismatch(u32),
    /// A unit is pending.
    Pending,
    /// Memory was refused.
    Memory,
}

impl From<AllocError> for CloseFault {
    ghost from_gives = { λ _ e. e ≡ close_fault.Memory };

    fn from(_error: AllocError) -> CloseFault {
        CloseFault::Memory
    }
}
