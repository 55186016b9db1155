//! Graphs by indices, whatever their nodes are: circles, what a node rests on outside of circles, and recursion along that.
#![tactic(auto)]

mod adding;
mod circles;
mod joining;
pub mod laws;
mod leading;
mod linked;
mod nodes;
mod numbering;
mod order;
mod resting;
pub mod rows;
mod search;
mod sources;

pub use linked::Linked;
pub use nodes::Nodes;
pub use sources::{add_sources, no_sources};
