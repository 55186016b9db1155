//! The shape of a unit: which line stands under which, what may stand there, and the one tree of a unit.
#![tactic(auto)]

mod faults;
mod marks;
mod nest;
mod outline;
mod place;
mod row;
mod rows;
mod siblings;
mod sort;
mod stack;
mod tree;
mod unit;

pub use faults::shape_faults;
pub use rows::{
    alternation_rows, block_rows, close_rows, conditional_rows, definition_rows, depth_rows,
    expression_rows, file_rows, function_rows, misplaced_rows, nesting_rows, process_rows,
    selection_rows, tagged_rows, word_rows,
};
pub use tree::Node;
pub use unit::{ShapeFault, Unit, shape};
