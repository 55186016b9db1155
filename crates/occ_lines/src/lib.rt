//! The logical lines of a text: each statement with its line, its depth and its tokens, or its one fault.
//! `specs/Lines.antt` says what a text spells; `read_lines` hands its lines on one by one, and `logical` makes a list of them.
//! A text may also be a list of units: `listed` reads that.
#![tactic(auto)]

mod alike;
mod blanks;
mod directive;
mod ending;
mod lexeme;
mod line;
mod listing;
mod quoted;
mod reader;
mod rows;
mod scan;
mod sink;
mod statement;
mod text;
mod token;
mod tokens;

pub use alike::are_alike;
pub use listing::listed;
pub use reader::{logical, read_lines, text_fault};
pub use rows::{
    class_rows, directive_rows, first_rows, goes_on_rows, line_rows, lines_law, listing_rows,
    name_rows, number_rows, quoted_rows, symbol_rows, symbol_token_rows, text_rows,
};
pub use sink::Sink;
pub use text::{Body, Logical, TextFault};
pub use token::{Symbol, Token, Word};
