//! What is read of operations, literals, calls, elements and parts of an expression under the names in scope: their
//! faults, what they are before a type is wanted of them, and their trees.
#![tactic(auto)]

mod calling;
mod literals;
mod opening_exprs;
mod operation;
mod parts;
mod reading;
mod selecting;
mod written;

pub use calling::{all_results, one_call, one_result, operand_call};
pub use literals::{decorated_literal, literal, truth};
pub use opening_exprs::{decorated_open, place_tree};
pub use operation::{applied, converted, extreme_of, operation_of, pair, run_operator};
pub use parts::{
    component_of, converted_table, decimal_component, digits_of, element_name, name_alone, only,
    referred, report_alone, report_no_function, segment_of, shared_type, sized_dimension, table_as,
};
pub use reading::{Reading, Readings, faulty_reading, literal_reading};
pub use selecting::{
    BoundsReading, ElementReading, components_of, element_of, element_reading, field_selector,
    for_of, from_for_of, from_of, part_of, with_selector,
};
pub use written::{
    Extent, Opening, array_type, base_type, count_type, counted_type, limited, named_channel,
    open_dimension, primitive_of, values_channel,
};
