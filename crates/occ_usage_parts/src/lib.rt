//! Parts of variables and channels: what is selected from an element, whether two parts have an element in common, and
//! lists of parts that are asked for.
#![tactic(auto)]

mod chain;
mod comparing;
mod interval;
mod part;
mod path;
mod paths;
mod place;
mod place_set;
mod places;
pub mod rows;
mod runs;
mod selectors;

pub use chain::Chain;
pub use comparing::{overlap, overlap_selected};
pub use part::{Overlap, Part};
pub use paths::Paths;
pub use place::{Ending, SelectedPart};
pub use selectors::{Selectors, copies};
