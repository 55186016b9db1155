//! What components have in common: the rule of parallel components, the uses of a body as they are seen from outside, and
//! uses that are reported once.
#![tactic(auto)]

mod accumulate;
mod accumulated;
mod beginning;
mod body;
mod each_once;
mod gathered;
mod joining;
mod numbering;
mod pairs;
mod presence;
mod reach;
mod reporting;
pub mod rows;
mod rule;
mod same;

pub use beginning::list_of;
pub use body::{body_uses, outside_uses};
pub use gathered::{Gathered, gather};
pub use joining::{append, append_joined};
pub use pairs::target_faults;
pub use reporting::{component_faults, parted_faults, twice_faults};
pub use rule::{name_of_root, root_name};
