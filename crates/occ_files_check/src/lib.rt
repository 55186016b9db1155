//! The check of texts that were read: what people are told is the report from nothing of these texts.
#![tactic(auto)]

mod checking;
mod telling;

pub use checking::{CheckFault, CheckedTexts, check_texts};
pub use telling::{add_shown, diags_in, messages};
