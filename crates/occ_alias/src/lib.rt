//! The abbreviation rule at one line: while a name stands for an element, nothing else uses that element, and nothing changes
//! which one it is; and what a call is given.
#![tactic(auto)]

mod calling;
mod grade;
mod line;
mod line_calls;
mod pairs;
mod reported;
mod scope;

pub use grade::graver;
pub use line::line_faults;
pub use occ_usage_lines::{
    UsageScope, body_bound, each_effect, each_uses, enter_all, enter_index, enter_line,
    form_depends, form_effect, form_uses, index_value, number_after, used,
};
pub use reported::{Reported, Run, again};
