//! The state of everything: files and their edits, jobs handed out, outcomes cached. Each call is one event of the machine in
//! `specs/Machine.antt`.
#![tactic(auto)]

mod base;
mod board;
mod cached;
mod caching;
mod comparing;
mod copying;
mod entry;
mod expanding;
mod flags;
mod journal;
mod judging;
pub mod laws;
mod present;
mod report;
pub mod rows;
mod taking;
mod touched;
mod touching;
mod verdict;
mod verified;
mod waiting;
mod working;

pub use base::{Base, Cut};
pub use board::Board;
pub use copying::copied_base;
pub use entry::{Edit, EditFault, Entry};
pub use occ_check::{Job, JobFault, Outcome, Used, UsedUnit, check};
pub use report::{Row, Shown};
pub use verdict::Verdict;
