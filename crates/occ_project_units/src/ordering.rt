//! Units in order of name. What was put in order last is remembered and shared, since files that use one library use the same
//! units.
ghost use Rattle.occ_project.specs.Uses.{names_in_order};
ghost use Rattle.std.specs.Prelude.{IfOk, ◌≡◌};

use super::following::are_same_names;
use occ_base::{FileName, Items, Shared};
use occ_project::units_in_order;
use std::alloc::{AllocError, Global};
use std::marker::Model;

/// How many units are remembered at least: fewer cost less to put in order than to copy.
const REMEMBERED_LEAST: usize = 16;

/// Units that were put in order, and what came of it: in contracts the units as they were.
#[derive(Drop)]
pub struct Ordered {
    units: Items<FileName>,
    ordered: Shared<Items<FileName>>,
}

impl Model for Ordered {
    ghost use Rattle.std.specs.Prelude.{List, ℕ, ◌≡◌};
    ghost use Rattle.std.specs.Coded.{coded_list, coded_ℕ};
    ghost use Rattle.occ_project.specs.Uses.{names_in_order};

    ghost Value = { List (List ℕ) };

    ghost coded = { coded_list (coded_list coded_ℕ) };

    ghost view = { λ o. o.units };

    ghost invariant = { λ o. o.ordered ≡ names_in_order o.units };
}

/// Units in order of name, each once, and they are remembered.
fn put_in_order_and_remember(
    alloc: Global,
    units: Items<FileName>,
    last: &mut Option<Ordered>,
) -> Result<Shared<Items<FileName>>, AllocError>
    ensures { IfOk result (λ ordered. ordered ≡ names_in_order units) }
{
    let before = Items::from_slice(alloc, units.as_slice())?;
    let ordered = Shared::new(alloc, units_in_order(alloc, units)?)?;
    *last = Some(Ordered {
        units: before,
        ordered: ordered.share()?,
    });
    Ok(ordered)
}

/// The units that a file uses, in order of name, each once. If they are those that were put in order last, nothing is compared with
/// the others.
pub fn in_order(
    alloc: Global,
    units: Items<FileName>,
    last: &mut Option<Ordered>,
) -> Result<Shared<Items<FileName>>, AllocError>
    ensures { IfOk result (λ ordered. ordered ≡ names_in_order units) }
{
    if units.len() < REMEMBERED_LEAST {
        return Shared::new(alloc, units_in_order(alloc, units)?);
    }
    match last {
        Some(found) if are_same_names(found.units.as_slice(), units.as_slice()) => {
            found.ordered.share()
        }
        _ => put_in_order_and_remember(alloc, units, last),
    }
}
