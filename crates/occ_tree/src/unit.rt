//! The trees of a unit, or its faults of shape. Trees are made without faults only, so they are 64 levels deep at most.
ghost use Rattle.std.specs.Prelude.{◌≡◌, [], IfErr, IfOk};
ghost use Rattle.occ_tree.specs.Faults.{shape_faults as spec_shape_faults};
ghost use Rattle.occ_tree.specs.Forest.{forest_of, nested};
ghost use Rattle.occ_tree.specs.Shapes.{IsShapeOf, Refuses};
ghost use Rattle.occ_tree.specs.declared.unit.ShapeFault.TheVariants.{Memory};

use super::faults::shape_faults;
use super::nest::nest;
use super::tree::Node;
use occ_base::{Diag, Items};
use occ_project::ExpandedLine;
use std::alloc::{AllocError, Global};
use thiserror::Error;

/// The trees of a unit.
pub struct Unit {
    /// The lines that stand under no other, in their order.
    pub roots: Items<Node>,
}

/// Written out: crates above call it, where each would prove a derived one anew.
impl Drop for Unit {
    fn drop(self) {
        let Unit { roots: _ } = self;
    }
}

/// Why lines have no shape.
#[derive(Debug, Drop, Error)]
pub enum ShapeFault {
    /// The diagnostics of shape, at least one, in the order of the lines.
    #[error("lines that stand where they may not, or lack something")]
    Faults(Items<Diag>),
    /// Memory was refused.
    #[error("out of memory")]
    Memory,
}

impl From<AllocError> for ShapeFault {
    ghost from_gives = { λ _ fault. fault ≡ Memory };

    fn from(_error: AllocError) -> ShapeFault {
        ShapeFault::Memory
    }
}

/// The trees of a unit with these lines, which they list, or its diagnostics of shape. No tree is deeper than 64
/// levels.
pub fn shape(alloc: Global, lines: Items<ExpandedLine>) -> Result<Unit, ShapeFault>
    ensures unit { IfOk result (λ unit. IsShapeOf lines unit.roots) }
    ensures nested { IfOk result (λ unit. forest_of unit.roots ≡ nested lines) }
    ensures clean { IfOk result (λ unit. spec_shape_faults lines ≡ []) }
    ensures faults { IfErr result (λ fault. Refuses lines fault) }
{
    let faults = shape_faults(alloc, lines.as_slice())?;
    if !faults.is_empty() {
        return Err(ShapeFault::Faults(faults));
    }
    let roots = nest(alloc, lines)?.into_items(alloc)?;
    Ok(Unit { roots })
}
