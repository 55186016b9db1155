//! The changes that an editor tells of one text.
ghost use Rattle.occ_editor_edits.specs.Changes.{all_changed, changed_text};
ghost use Rattle.std.specs.Prelude.{◌≡◌, IfOk};

use super::ranges::{Place, edited};
use std::alloc::{AllocError, Global};

/// A change of a text.
#[derive(Drop)]
pub enum Change {
    /// This is the text from then on.
    Whole(Vec<u8>),
    /// This stands between two places from then on.
    Range(Place, Place, Vec<u8>),
}

/// The text after a change.
fn changed(alloc: Global, text: &[u8], change: &Change) -> Result<Vec<u8>, AllocError>
    ensures { IfOk result (λ made. made.items ≡ changed_text text.now change.now) }
{
    match change {
        Change::Whole(new) => Ok(Vec::from_slice(alloc, new.as_slice())?),
        Change::Range(from, to, new) => edited(alloc, text, *from, *to, new.as_slice()),
    }
}

/// The text after these changes, one after the other.
pub fn changed_all(alloc: Global, text: &[u8], changes: &[Change]) -> Result<Vec<u8>, AllocError>
    ensures { IfOk result (λ made. made.items ≡ all_changed text.now changes.now) }
{
    let mut made = Vec::from_slice(alloc, text)?;
    for change in changes {
        made = changed(alloc, made.as_slice(), change)?;
    }
    Ok(made)
}
