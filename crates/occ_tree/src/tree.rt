//! A line with those directly under it.
use occ_base::Items;
use occ_project::ExpandedLine;

/// A line of a unit, with those that stand right under it.
#[derive(Drop)]
pub struct Node {
    pub line: ExpandedLine,
    pub children: Items<Node>,
}
