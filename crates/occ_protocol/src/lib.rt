//! Lists of items that are sent and received, against the protocols of channels.
#![tactic(auto)]

mod asked;
mod carrier;
mod given;
mod line;
mod matching;
mod message;
pub mod rows;
mod want;

pub use given::{Given, Shape, Want, Wanted};
pub use line::{
    alternative, awaited, cased, exchanged, is_timer, lacks, received, tag_place, takes_tag,
};
pub use matching::report_named;
pub use message::Message;
