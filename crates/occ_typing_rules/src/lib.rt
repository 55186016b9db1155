//! The rules of types at one place: what may be assigned, abbreviated, retyped or reshaped; and the typed tree with the
//! expressions whose type is still open.
#![tactic(auto)]

mod abbreviate;
mod assign;
mod choose;
mod count;
mod dimensions;
mod element;
mod expr;
mod kind_tree;
mod open_expr;
mod option_numbers;
mod placing;
mod recast;
pub mod recast_rows;
mod repeat;
mod result;
pub mod rule_rows;
mod sharing;
pub mod tree_rows;

pub use abbreviate::{abbreviated, abbreviated_as, as_type};
pub use assign::{assigned, target};
pub use choose::{condition, options, selector};
pub use count::of_another_number;
pub use element::known_of;
pub use expr::{Selector, TypedActual, TypedElement, TypedExpr};
pub use kind_tree::tree_of;
pub use open_expr::OpenExpr;
pub use option_numbers::OptionNumbers;
pub use placing::{all_placed, each_placed, placed, value_in};
pub use recast::{reshaped, retyped};
pub use repeat::repeated;
pub use result::{hidden_results, of_data, results};
