//! The files that an expansion may look up, with revision and text.
ghost use Rattle.occ_project.specs.Reads.{lines_in, listed_in};
ghost use Rattle.std.specs.Prelude.{◌≡◌, IsTrue};

use occ_base::{FileName, Items, Shared};
use occ_forms::Source;

/// A file that an expansion may look up.
#[derive(Drop)]
pub struct Read {
    pub name: FileName,
    /// The number of the edit that gave the file its present text or took it away, 0 if there was none.
    pub revision: u32,
    /// The text with its lines, or `None` if the file is absent.
    pub source: Option<Shared<Source>>,
}

impl Read {
    /// Whether two files have the same lines and list the same units, as they do where their texts differ in skipped lines
    /// alone. Of texts that differ otherwise it says nothing.
    pub fn is_alike(&self, other: &Read) -> bool
        ensures lines { IsTrue result → lines_in self.now ≡ lines_in other.now }
        ensures listed { IsTrue result → listed_in self.now ≡ listed_in other.now }
    {
        match (&self.source, &other.source) {
            (Some(source), Some(other)) => source.get().is_alike(other.get()),
            (None, None) => true,
            _ => false,
        }
    }
}

/// The files that an expansion may look up. The first member of a name counts.
pub type Reads = Items<Read>;
