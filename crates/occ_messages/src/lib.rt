//! What people are told of a diagnostic: the table of codes, the words for a diagnostic, and hints that its line gives.
#![tactic(auto)]

mod brackets;
mod clashes;
mod declared;
mod depth;
mod explaining;
mod format;
mod hinting;
mod message;
mod mismatch;
mod numbers;
mod protocol;
mod rounds;
mod scope;
mod similar;
mod specifics;
mod spelling;
mod subscripts;
mod table;
mod text;
mod told;
mod uses;

pub use explaining::{CODES, Hiding, code_named, explained, hidden_by};
pub use format::Format;
pub use message::{Message, Page, message_of};
pub use table::{CodeEntry, entry_of};
pub use told::{Quoted, Underline};
