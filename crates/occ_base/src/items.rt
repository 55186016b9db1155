//! A list of one item.
ghost use Rattle.std.specs.Prelude.{◌≡◌, ◌∷◌, [], IfOk};

use sqlite_items::Items;
use std::alloc::{AllocError, Global};

/// A list of one item.
pub fn one_item<T: Drop>(alloc: Global, item: T) -> Result<Items<T>, AllocError>
    ensures { IfOk result (λ items. items ≡ item ∷ []) }
{
    let mut items = Items::from_vec(Vec::with_capacity(alloc, 1)?);
    items.push(item)?;
    Ok(items)
}
