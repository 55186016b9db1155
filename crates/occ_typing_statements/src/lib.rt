//! What one line of a process reports by its names and types, and its typed tree: assignments, guards and options, calls,
//! replicators, input and output.
#![tactic(auto)]

mod actual;
mod calls;
pub mod exchange_rows;
mod exchange_tree;
mod few;
mod inputs;
mod instances;
mod receiving;
mod replicating;
mod replicator_bound;
pub mod replicator_rows;
mod replicator_tree;
mod sending;
mod statement;
pub mod statement_rows;
mod takes;
mod target;
mod through;
mod variants;

pub use exchange_tree::{TypedInput, TypedOutput, TypedTarget};
pub use few::Few;
pub use inputs::input;
pub use instances::{TypedInstance, instance};
pub use replicating::{Replicating, ReplicatorLine, replicator};
pub use replicator_tree::{KnownReplicator, TypedReplicator};
pub use sending::{TypedSending, output};
pub use statement::{
    TypedAssignment, assignment, condition, hidden_results, options, results, selector,
};
pub use variants::{CaseInput, TypedVariant, case_input, variant};
