//! The expansion of a unit: its lines, with those of the files that it includes in their places, and with the units that its
//! `#USE` lines use.
//! `specs/Entries.antt` and `specs/Expansion.antt` say what it is.
#![tactic(auto)]

mod entry;
mod expanded;
mod expansion;
mod files;
mod line_units;
mod making;
mod reads;
mod rows;
mod uses;

pub use expanded::{Expanded, ExpandedBody, ExpandedLine, Location};
pub use expansion::{ExpandFault, expand, expand_over, expanded_lines};
pub use line_units::UsedUnits;
pub use reads::{Read, Reads};
pub use rows::{fault_rows, include_rows, library_rows, limit_rows, read_rows, use_rows};
pub use uses::{units_in_order, used_units};
