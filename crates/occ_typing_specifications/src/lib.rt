//! What one line of specification reports by its names and types, and what comes into scope by it: declarations,
//! abbreviations, RETYPES and RESHAPES, heads of PROCs and FUNCTIONs, data types and protocols.
#![tactic(auto)]

mod abbreviating;
mod comparing;
mod declaring;
mod defining;
mod detail;
mod field;
mod formal;
mod function;
mod group;
pub mod head_rows;
mod heading;
mod item;
mod procedure;
mod protocol_defining;
pub mod protocol_rows;
mod recasting;
mod recording;
mod reported;
mod result_type;
pub mod specification_rows;
mod tagging;
mod valuing;

pub use abbreviating::{ElementLine, abbreviation};
pub use comparing::{compare_element, compare_value};
pub use declaring::declaration;
pub use defining::data_type;
pub use field::fields;
pub use function::function_head;
pub use heading::{Expected, Heading};
pub use procedure::procedure_head;
pub use protocol_defining::{protocol, tagged_protocol};
pub use recasting::{recast_element, recast_value};
pub use recording::record;
pub use tagging::tag;
pub use valuing::{ValueLine, value, value_alone};
