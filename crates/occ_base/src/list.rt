//! One part more of a list that is there only if all of its parts are.
ghost use Rattle.std.specs.Prelude.{◌≡◌, IfOk};
ghost use Rattle.occ_base.specs.Lists.{joined, one_part};

use sqlite_items::Items;
use std::alloc::AllocError;

/// One part more, if all are there.
pub fn with_part<T: Drop>(
    parts: Option<Items<T>>,
    next: Option<T>,
) -> Result<Option<Items<T>>, AllocError>
    ensures { IfOk result (λ all. all ≡ joined parts (one_part next)) }
{
    let (Some(mut parts), Some(next)) = (parts, next) else {
        return Ok(None);
    };
    parts.push(next)?;
    Ok(Some(parts))
}
