//! A typed unit has no race if the checker tells no U1 to U3 and no A4 of it, of either grade: laws and their proofs.
#![tactic(auto)]

mod laws;

pub use laws::{
    actual_law, alias_law, assigned_twice_law, condition_law, empty_law, input_law, lines_law,
    output_law, places_law, race_law, replicated_law, subscript_law, uses_law,
};
