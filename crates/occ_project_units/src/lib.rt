//! Many units: a project, what each of its units reads and uses, and which of them use each other in circles.
#![tactic(auto)]

mod adding;
mod facts;
mod following;
mod graph;
mod inserting;
mod joining;
pub mod laws;
mod links;
mod lookers;
mod ordering;
mod project;
mod readers;
mod renewing;
pub mod rows;
mod seeking;
mod skimming;
mod standing;

pub use graph::Graph;
pub use project::{Project, share};
pub use standing::Standing;
