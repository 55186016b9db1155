//! One line of a unit, by what stands in scope there: what names and types report of it, what it is, and what it says of the
//! lines under it and after it.
#![tactic(auto)]

mod action;
mod construct;
mod form;
mod function;
mod guard;
mod heading;
mod imports;
mod judge;
mod line;
mod options;
mod parent;
mod part;
mod placing;
mod protocol;
mod record;
mod specifying;
mod tree;
mod using;
mod variant;

pub use imports::Imports;
pub use judge::judged;
pub use line::body_of;
pub use options::TypedOptions;
pub use parent::{Choosing, Line, Parent, Role};
pub use placing::place;
pub use tree::{BlockKind, TypedForm, TypedGuard};
pub use using::{Import, shared_types};
