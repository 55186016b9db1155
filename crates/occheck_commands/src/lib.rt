//! The commands of a script: its lines, its words, and the text of each command that has one.
#![tactic(auto)]

mod command;
mod first;
mod lines;
pub mod rows;
mod script;
mod text;

pub use command::Command;
pub use first::{First, Lines, first_command, skip_blank};
pub use lines::lines_lacking;
pub use script::{Next, Rest, is_cut_short, next_command};
pub use text::{LIMIT, ScriptText, closed, ended_length, whole_text};
