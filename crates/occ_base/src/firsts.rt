//! Each name of a list once, in order of first mention.
ghost use Rattle.occ_base.specs.Firsts.{first_indices as spec_first_indices};
ghost use Rattle.std.specs.Prelude.{IfOk, ◌≡◌};

use super::file_name::FileName;
use sqlite_items::Items;
use std::alloc::{AllocError, Global};
use std::collections::HashSet;

/// Each name once, at its first index.
pub fn first_indices(alloc: Global, names: &[FileName]) -> Result<Items<FileName>, AllocError>
    ensures { IfOk result (λ found. found ≡ spec_first_indices names.now) }
{
    if names.len() < 2 {
        return Items::from_slice(alloc, names);
    }
    let mut seen = HashSet::with_capacity(alloc, names.len())?;
    let mut found = Items::new(alloc);
    for name in names {
        if seen.insert(*name)? {
            found.push(*name)?;
        }
    }
    Ok(found)
}
