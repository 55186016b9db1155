//! How a line of the text ends after its last token: whole, to be gone on with, broken in a string, or with a fault.
use occ_base::{Code, Items};

/// How a line of the text ends, after its last token.
#[derive(Drop)]
pub enum Ending {
    /// With blanks and perhaps a comment.
    Whole,
    /// In a string that is broken, after these bytes of it.
    Broken(Items<u8>),
    /// With a fault: `L1` or `L4`.
    Bad(Code),
}
