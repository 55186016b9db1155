//! An item that comes between others of a list.
ghost use Rattle.std.specs.List.{insert};
ghost use Rattle.std.specs.Prelude.{◌≡◌, ◌≤◌, OnErr, OnOk, length};

use std::alloc::AllocError;

/// So many items are moved one by one. More are copied out and back at once, which then costs less.
const FEW: usize = 64;

/// Puts an item at a place of a list.
pub fn insert_at<T: Drop>(list: &mut Vec<T>, at: usize, item: T) -> Result<(), AllocError>
    requires { at ≤ length list.old.items }
    ensures ok { OnOk result (list.new.items ≡ insert list.old.items at item) }
    ensures err { OnErr result (list.new.items ≡ list.old.items) }
{
    list.reserve(1)?;
    if list.len() - at <= FEW {
        let _ = list.insert(at, item);
        return Ok(());
    }
    let mut behind = list.split_off(at)?;
    let _ = list.push(item);
    let _ = list.append(&mut behind);
    Ok(())
}
