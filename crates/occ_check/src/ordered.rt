//! Interfaces as jobs hold them: of each export the uses stand in one order, each once.
ghost use Rattle.occ_check.specs.Ordered.{ordered as spec_ordered, ordered_export, ordered_interface, ordered_used};
ghost use Rattle.std.specs.Prelude.{◌≡◌, IfOk, map};

use super::formal_uses::in_order;
use super::used::{Used, UsedUnit};
use occ_base::{Items, Shared};
use occ_types::{Export, FormalUse, Interface};
use occ_usage::shared_types;
use occ_usage_parts::copies;
use std::alloc::{AllocError, Global};

/// The same use.
fn copied_use(alloc: Global, found: &FormalUse) -> Result<FormalUse, AllocError>
    ensures { IfOk result (λ copy. copy ≡ found.now) }
{
    Ok(FormalUse {
        formal: found.formal,
        selectors: copies(alloc, found.selectors.as_slice())?,
        kind: found.kind,
    })
}

/// The same uses.
fn copied_uses(alloc: Global, uses: &[FormalUse]) -> Result<Items<FormalUse>, AllocError>
    ensures { IfOk result (λ copy. copy ≡ uses.now) }
{
    let mut copy = Items::new(alloc);
    for found in uses {
        copy.push(copied_use(alloc, found)?)?;
    }
    Ok(copy)
}

/// The export, with its uses in order.
fn export_in_order(alloc: Global, export: &Export) -> Result<Export, AllocError>
    ensures { IfOk result (λ ordered. ordered ≡ ordered_export export.now) }
{
    let uses = copied_uses(alloc, export.uses.as_slice())?;
    Ok(Export {
        name: export.name.copied(alloc)?,
        kind: export.kind,
        formals: export.formals.share()?,
        results: shared_types(alloc, export.results.as_slice())?,
        uses: in_order(alloc, uses)?,
        effect: export.effect,
    })
}

/// The interface, with the uses of each export in order.
fn interface_in_order(alloc: Global, interface: &Interface) -> Result<Interface, AllocError>
    ensures { IfOk result (λ ordered. ordered ≡ ordered_interface interface.now) }
{
    let mut exports = Items::new(alloc);
    for export in interface.exports.as_slice() {
        exports.push(export_in_order(alloc, export)?)?;
    }
    Ok(Interface { exports })
}

/// How a used unit stands, with its interface in order.
fn used_in_order(alloc: Global, used: &Used) -> Result<Used, AllocError>
    ensures { IfOk result (λ ordered. ordered ≡ ordered_used used.now) }
{
    Ok(match used {
        Used::Absent => Used::Absent,
        Used::Circular => Used::Circular,
        Used::Faulty => Used::Faulty,
        Used::Clean(shown) => Used::Clean(Shared::new(
            alloc,
            interface_in_order(alloc, shown.get())?,
        )?),
    })
}

/// The used units, with their interfaces in order.
pub fn ordered(alloc: Global, used: &[UsedUnit]) -> Result<Items<UsedUnit>, AllocError>
    ensures ordered { IfOk result (λ ordered. ordered ≡ map spec_ordered used.now) }
    ensures units { IfOk result (λ ordered. map (λ one. one.unit) ordered ≡ map (λ one. one.unit) used.now) }
{
    let mut all = Items::new(alloc);
    for one in used {
        all.push(UsedUnit {
            unit: one.unit,
            used: used_in_order(alloc, &one.used)?,
        })?;
    }
    Ok(all)
}
