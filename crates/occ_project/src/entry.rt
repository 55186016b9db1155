//! The entries of a file: what each of its lines gives to an expansion. `docs/LANGUAGE.md, Expansion`.
use super::expanded::ExpandedBody;
use super::line_units::UsedUnits;
use occ_base::{Code, FileName, Shared};

/// What a line of a file gives to an expansion.
#[derive(Drop)]
pub enum Held {
    /// A line of the expansion, which stands at this depth.
    Line(u64, ExpandedBody),
    /// A `#USE` of a library at this depth, with the units that it uses, and its list, which is looked up. The list has a fault if
    /// its text is none.
    Library(u64, UsedUnits, FileName, Option<Code>),
    /// An `#INCLUDE` of the file, with its fault if nothing is put in.
    Include(FileName, Option<Code>),
}

/// A line of a file, as it counts in an expansion.
#[derive(Drop)]
pub struct ExpansionEntry {
    /// The file in which it stands, whose name all its lines share.
    pub file: Shared<FileName>,
    pub line: u32,
    pub held: Held,
}
