//! The typed tree of a unit, or its faults of names and types.
ghost use Rattle.occ_tree.specs.Forest.{forest_of};
ghost use Rattle.occ_typing.specs.Typed.{IsTypedTree, Refuses};
ghost use Rattle.occ_typing.specs.declared.unit.TypeFault.TheVariants.{Memory};
ghost use Rattle.std.specs.Prelude.{◌≡◌, IfErr, IfOk};

use super::tree::TypedLine;
use super::walk::lines_kept;
use occ_base::{Diag, Items};
use occ_scope::Scope;
use occ_tree::Unit;
use occ_typing_lines::{Import, Imports, Role, body_of};
use std::alloc::{AllocError, Global};
use thiserror::Error;

/// The typed tree of a unit.
pub struct Typed {
    /// The lines that stand under no other, in their order.
    pub lines: Items<TypedLine>,
}

/// Written out: crates above call it, where each would prove a derived one anew.
impl Drop for Typed {
    fn drop(self) {
        let Typed { lines: _ } = self;
    }
}

/// Why a unit has no typed tree.
#[derive(Debug, Drop, Error)]
pub enum TypeFault {
    /// The diagnostics of names and types, at least one, in no order, some perhaps more than once.
    #[error("names or types with faults")]
    Faults(Items<Diag>),
    /// Memory was refused.
    #[error("out of memory")]
    Memory,
}

impl From<AllocError> for TypeFault {
    ghost from_gives = { λ _ fault. fault ≡ Memory };

    fn from(_error: AllocError) -> TypeFault {
        TypeFault::Memory
    }
}

/// The typed tree of a unit, or its diagnostics of names and types. Of each unit that it uses the exports are those of the
/// first import of that name; one of which there is no import exports nothing.
pub fn type_unit(alloc: Global, unit: &Unit, imports: &[Import]) -> Result<Typed, TypeFault>
    ensures typed { IfOk result (λ typed. IsTypedTree imports.now (forest_of unit.now.roots) typed) }
    ensures faults { IfErr result (λ fault. Refuses imports.now (forest_of unit.now.roots) fault) }
{
    let mut scope = Scope::new(alloc);
    let mut faults = Items::new(alloc);
    let imports = Imports::new(imports);
    let lines = lines_kept(
        alloc,
        &imports,
        unit.roots.as_slice(),
        body_of(Role::Process),
        &mut scope,
        &mut faults,
    )?;
    if !faults.is_empty() {
        return Err(TypeFault::Faults(faults));
    }
    Ok(Typed { lines })
}
