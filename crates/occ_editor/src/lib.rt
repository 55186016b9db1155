//! The files that are open in an editor, as its notes leave them, and what is told of them: folder by folder on a board, with all
//! that they use and include. One board stays between notes, so an edit costs what it concerns.
#![tactic(auto)]

mod bringing;
mod editor;
mod found;
mod overlay;
mod placing;
mod room;

pub use editor::{Editor, Published};
pub use placing::{put, remove, told};
