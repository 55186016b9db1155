//! What is read of a single expression, element or type under the names in scope: its faults, what it is before a type is
//! wanted of it, and its typed tree as far as that does not depend on its place.
#![tactic(auto)]

mod actuals;
mod names;
pub mod rows;
mod sides;
mod target;
mod walk;

pub use actuals::{is_taken, takes_long};
pub use names::{name_alone, name_of, type_name};
pub use sides::{each_one, side};
pub use target::{root, target_of};
pub use walk::{
    array_form, data_form, element, expression, known_type_form, named_type, type_form, word_form,
};
