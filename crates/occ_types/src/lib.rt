//! Types and their equality, and the values of constants.
#![tactic(auto)]

mod comparison;
mod constant;
mod fit;
mod interface;
mod known_type;
mod literal;
mod maybe_value;
mod measure;
mod part_name;
mod range;
pub mod rows;
mod same;
mod size;
pub mod type_rows;
mod types;
mod unknown;
mod value;

pub use comparison::same_interface;
pub use constant::{ConstFault, Monadic, Operator, convert, fold, fold_one};
pub use fit::{
    alike, array_of, as_primitive, base_of, fields_of, fits, is_data, is_faulty_tag, is_unknown,
    unnamed,
};
pub use interface::{
    Effect, Export, ExportKind, Formal, FormalUse, Interface, Interval, Mark, PartSelector,
    Passing, Places, UseKind,
};
pub use known_type::{KnownType, is_too_large};
pub use literal::{value_of_number, value_of_pattern};
pub use maybe_value::MaybeValue;
pub use measure::{Measure, measure_of, measure_protocol};
pub use part_name::{PartName, SoughtPart};
pub use same::{same_protocol, same_type};
pub use size::bytes_of;
pub use types::{Field, Item, OccType, Packing, Protocol, Tag};
pub use unknown::holds_unknown;
pub use value::{Primitive, Value};
