//! The typed tree of a unit, or what names and types report of it: its lines, each by what stands in scope there.
#![tactic(auto)]

pub mod rows;
mod tree;
mod unit;
mod walk;

pub use occ_typing_lines::{BlockKind, Import, TypedForm, shared_types};
pub use tree::TypedLine;
pub use unit::{TypeFault, Typed, type_unit};
