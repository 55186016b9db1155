//! What the words of the command line of `occ` ask for, read by `clap`.
#![tactic(auto)]

mod words;

pub use words::{Checking, Subcommand, SubcommandFault, read_words};
