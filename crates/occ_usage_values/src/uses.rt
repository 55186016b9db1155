//! A use: a part, its kind, a line, and the abbreviations by whose names it is made.
ghost use Rattle.std.specs.Prelude.{◌≡◌, IfOk};
ghost use Rattle.occ_usage_values.specs.Uses.{at_line, is_write as spec_is_write};

use occ_project::Location;
use occ_types::UseKind;
use occ_usage_parts::{Chain, Part, Selectors};
use std::alloc::{AllocError, Global};

/// A use of a part of a variable, a channel or a formal.
#[derive(Drop)]
pub struct Use {
    pub part: Part,
    pub kind: UseKind,
    /// The line at which it stands.
    pub line: Location,
    /// The abbreviations by whose names it is made, by the numbers of their specifications.
    pub chain: Chain,
}

impl Use {
    /// The same use, at another line.
    pub fn at_line(&self, alloc: Global, line: &Location) -> Result<Use, AllocError>
        ensures { IfOk result (λ moved. moved ≡ at_line self.now line.now) }
    {
        Ok(Use {
            part: Part {
                root: self.part.root,
                selectors: Selectors::of(alloc, self.part.selectors.as_slice())?,
            },
            kind: self.kind,
            line: line.share()?,
            chain: self.chain.share()?,
        })
    }
}

/// Whether a use of this kind writes.
pub fn is_write(kind: UseKind) -> bool
    ensures { result ≡ spec_is_write kind }
{
    match kind {
        UseKind::Read => false,
        UseKind::Write => true,
        UseKind::Input => false,
        UseKind::Output => false,
    }
}
