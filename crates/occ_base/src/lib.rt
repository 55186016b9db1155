//! What every other crate speaks of: file names, diagnostics with their order, the types that all trees are made of, and
//! lists that are there only if each of their parts is.
#![tactic(auto)]

mod code;
mod diag;
mod fault;
mod file_name;
mod firsts;
mod items;
mod list;
pub mod list_rows;
mod mixing;
mod name;
mod rows;
mod shared;
mod short;

pub use code::{Code, Grade};
pub use diag::{Diag, add_error_if, has_error, write_diag};
pub use fault::{Fault, report};
pub use file_name::{FileName, NameFault};
pub use firsts::first_indices;
pub use items::one_item;
pub use list::with_part;
pub use mixing::{mixed, number_of_bytes};
pub use name::Name;
pub use rows::{diag_rows, file_name_rows, order_rows};
pub use shared::Shared;
pub use sqlite_items::{Boxed, Items};
