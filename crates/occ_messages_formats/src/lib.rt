//! How messages are written: for people, on one line each, and for other programs.
#![tactic(auto)]

mod counted;
mod excerpt;
mod github;
mod json;
mod sarif;
mod text;

pub use counted::{Tally, count_line};
pub use github::github_text;
pub use json::json_text;
pub use sarif::sarif_text;
pub use text::{Verbosity, long_text, short_text};
