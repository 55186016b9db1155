//! One line of a unit for those that ask which parts are used: what it uses, whether it has an effect, and what comes into
//! scope by it.
#![tactic(auto)]

mod effect;
mod entering;
mod form;
mod naming;
mod noting;
mod scope;

pub use effect::{each_effect, form_effect};
pub use entering::{body_bound, enter_all, enter_index, enter_line, index_value, number_after};
pub use form::{each_uses, form_uses, used};
pub use naming::form_depends;
pub use occ_typing_lines::{TypedForm, TypedGuard};
pub use scope::UsageScope;
