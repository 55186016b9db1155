//! Copies of edits and entries, which share their texts.
ghost use Rattle.std.specs.Prelude.{◌≡◌, IfOk};

use occ_base::Items;
use occ_board::{Edit, Entry};
use std::alloc::{AllocError, Global};

/// The same edit, whose text has one more owner.
pub fn copied_edit(edit: &Edit) -> Result<Edit, AllocError>
    ensures { IfOk result (λ copy. copy ≡ edit.now) }
{
    Ok(match edit {
        Edit::Added(name, source) => Edit::Added(*name, source.share()?),
        Edit::Changed(name, source) => Edit::Changed(*name, source.share()?),
        Edit::Removed(name) => Edit::Removed(*name),
    })
}

/// The same entry.
pub fn copied(entry: &Entry) -> Result<Entry, AllocError>
    ensures { IfOk result (λ copy. copy ≡ entry.now) }
{
    Ok(Entry {
        session: entry.session,
        edit: copied_edit(&entry.edit)?,
    })
}

/// The same entries.
pub fn all_copied(alloc: Global, entries: &[Entry]) -> Result<Items<Entry>, AllocError>
    ensures { IfOk result (λ copies. copies ≡ entries.now) }
{
    let mut copies = Items::new(alloc);
    for entry in entries {
        copies.push(copied(entry)?)?;
    }
    Ok(copies)
}
