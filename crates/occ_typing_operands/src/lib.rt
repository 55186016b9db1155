//! What is known of operands, and what operators give on them.
#![tactic(auto)]

mod kind;
mod operate;
mod outcome;
mod part;
pub mod rows;
mod settle;
mod sum;
mod untyped_constant;
mod want;

pub use kind::{Kind, Known, TypedValue, Untyped, Wrong};
pub use operate::{
    applied, is_faulty, is_of, needs_faulty, operand_type, operated, operated_pair, shifted,
    type_in,
};
pub use part::{field, mismatched, subscripted};
pub use settle::{int, known, known_as, landed, number, settled, untyped};
pub use untyped_constant::UntypedConstant;
pub use want::{converted, fitted, wanted};
