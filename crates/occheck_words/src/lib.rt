//! What the words after the program's name ask of it.
#![tactic(auto)]

pub mod rows;
mod words;

pub use words::{Mode, WordsFault, read_words};
