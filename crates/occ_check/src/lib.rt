//! The check of one unit: what it looks at (its input), the job that holds that, and its outcome, which are its diagnostics
//! and its interface; and that the same comes of the rules for a whole project.
#![tactic(auto)]

mod checked;
mod code;
mod export;
mod faults;
mod formal_uses;
mod job;
mod language;
pub mod laws;
mod order;
mod ordered;
mod outcome;
mod rows;
mod used;

pub use checked::Checked;
pub use job::{Job, JobFault};
pub use order::in_order;
pub use outcome::{Outcome, check};
pub use rows::{input_rows, use_rows};
pub use used::{Used, UsedUnit};
