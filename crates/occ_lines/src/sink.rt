//! What takes the logical lines of a text one after the other, so that no list of them is held.
ghost use Rattle.occ_lines.specs.declared.text.Logical.{Logical as ALogical};
ghost use Rattle.std.specs.Prelude.{◌≡◌, ◌++◌, ◌∷◌, [], List, OnOk};

use super::text::Logical;
use occ_base::Items;
use std::alloc::AllocError;

/// Takes logical lines, one after the other.
pub trait Sink {
    /// What holds of it where it has taken these lines.
    ghost holds: { Self → List ALogical → Type 0 };

    /// Takes the line that follows those that it has taken.
    fn take(&mut self, logical: Logical) -> Result<(), AllocError>
        ensures { OnOk result ((lines : List ALogical) → holds self.old lines → holds self.new (lines ++ logical ∷ [])) };
}

/// A list is of the lines that it has taken.
impl Sink for Items<Logical> {
    ghost holds = { λ found lines. found ≡ lines };

    fn take(&mut self, logical: Logical) -> Result<(), AllocError> {
        self.push(logical)
    }
}
