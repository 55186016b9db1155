//! The forms of lines: what the tokens of each logical line stand for, as a tree whose spelling they are, and
//! `prepare`, which gives a text with its lines. `specs/Spelling.antt` and `specs/SpecificationSpelling.antt` say what
//! each tree spells.
#![tactic(auto)]

mod action;
mod binding;
mod class;
mod construct;
mod definition;
mod depth;
mod detail;
mod end;
mod formals;
mod from_tokens;
mod function;
mod input;
mod item;
mod items;
mod laws;
mod line;
mod names;
mod parse;
mod part;
mod preparation;
mod rows;
mod source;
mod specification_depth;
mod specification_line;
mod specification_rows;
mod specification_tree;
mod specifying;
mod start;
mod tree;
mod typed;
mod value;
mod words;

pub use laws::{one_form_law, source_law};
pub use parse::{LineFault, form};
pub use preparation::prepare;
pub use rows::{action_rows, body_rows, construct_rows, part_rows, tagged_rows};
pub use source::{LineBody, Source, SourceLine};
pub use specification_rows::{head_rows, line_rows, no_form_rows};
pub use specification_tree::{
    FormalGroup, FunctionHead, Head, Inlined, ItemForm, Recast, Specification, Specified,
    ValueGroup,
};
pub use tree::{
    Action, Construct, ConstructKind, Detail, Form, Guarded, Input, InputItem, OutputItem,
    PartForm, Replicator,
};
