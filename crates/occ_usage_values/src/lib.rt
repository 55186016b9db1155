//! What stands in scope at a line for those that ask which parts are used: values of expressions under the indices that are
//! known there, the places that elements select, and the uses and calls of expressions.
#![tactic(auto)]

mod bound;
mod call;
mod calling;
mod effect;
mod evaluated;
mod naming;
mod placing;
pub mod rows;
mod timing;
mod uses;
mod using;
mod valuing;

pub use bound::{Bound, body_at, effect_at, place_at};
pub use call::called;
pub use calling::{element_calls, expression_calls, instance_calls};
pub use effect::{element_effect, expression_effect, instance_effect};
pub use evaluated::Call;
pub use naming::{
    actuals_depend, element_depends, element_names, expression_depends, expression_names,
    expressions_depend,
};
pub use occ_usage_parts::Chain;
pub use placing::place;
pub use timing::is_timer;
pub use uses::{Use, is_write};
pub use using::{element_uses, expression_uses, instance_uses, use_of};
pub use valuing::{element_size, size, value};
