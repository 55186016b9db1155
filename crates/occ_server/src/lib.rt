//! A board for many threads: editors that make edits and ask for reports, and workers that check. Each critical section is
//! one call of the board, or looks at a flag.
//!
//! What a lock holds between two critical sections no contract can say. So each section is a method of what is locked,
//! `Locked`, with its whole contract; and what leaves the lock has what is known of it by its type.
#![tactic(auto)]

mod comparing;
mod copying;
mod fault;
pub mod laws;
mod locked;
mod receipt;
mod server;
mod snapshot;
mod work;

pub use comparing::is_same_entry;
pub use fault::{CloseFault, ReportFault};
pub use occ_board::{
    Base, Board, Cut, Edit, EditFault, Entry, Job, JobFault, Outcome, Row, Shown, Used, UsedUnit,
    Verdict, check,
};
pub use receipt::Receipt;
pub use server::Server;
pub use snapshot::{Ended, Snapshot};
pub use work::{Gate, Settled, WorkEnd, Worked};
