//! Operands before a type is wanted of them, tables among them, and the types that they then take.
#![tactic(auto)]

mod beside;
mod counted;
mod decorate;
mod dimension;
mod extent;
mod hiding;
mod measure;
mod merge;
mod placing;
pub mod rows;
mod selection;
mod table;
mod term;

pub use beside::operand;
pub use decorate::{decorated, decorated_table};
pub use dimension::size;
pub use hiding::{hidden, report_hidden};
pub use measure::{Limit, most, sized};
pub use merge::{filled, merged};
pub use occ_types::is_too_large;
pub use placing::{any_has_fault, has_fault};
pub use selection::{BoundTerms, segment};
pub use table::{alone, each_alone, table_type, under};
pub use term::Term;
