//! Expressions, elements and types as the tokens of a line spell them: one tree for each.
//! `specs/Spelling.antt` says what each tree spells.
#![tactic(auto)]

mod begin;
mod bracket;
mod bracketed;
mod conversion;
mod depth;
mod inner_token;
mod line_part;
mod list;
mod measured;
mod naming;
mod operand;
mod operator;
mod part;
mod reader;
mod rows;
mod shape_rows;
mod tail;
mod token_reader;
mod tree;
mod types;

pub use depth::{
    array_has_many_dimensions, counted_has_many_dimensions, opens_too_many,
    prefixed_has_many_dimensions,
};
pub use inner_token::mark;
pub use line_part::{data_form, element, type_form};
pub use list::joined;
pub use measured::{Measured, any_has_many_dimensions};
pub use reader::expression;
pub use rows::spelling_rows;
pub use shape_rows::{bracket_rows, dimension_rows, mark_rows};
pub use token_reader::{after, after_word, name};
pub use tree::{
    Bounds, Builtin, ChannelWords, DataBase, DataForm, Dimension, Element, Expr, Extreme, Literal,
    MonadicOperator, NamedOperand, Operand, PairOperator, PrimitiveWord, RunOperator, TypeForm,
};
pub use types::after_counted;
