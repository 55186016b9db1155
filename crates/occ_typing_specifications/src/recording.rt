//! Records as a whole, at their head: the type with its name, which may be too large (T9).
ghost use Rattle.std.specs.Prelude.{◌≡◌, ◌++◌, IfOk, OnOk};
ghost use Rattle.occ_typing_specifications.specs.Recording.{recorded};

use super::defining::with_name;
use occ_base::{Fault, Items, Name, Shared};
use occ_scope::Meaning;
use occ_types::{Field, KnownType, OccType, Packing};
use std::alloc::{AllocError, Global};

/// The head of a record with these fields: its type is judged whole, its name counted. What the name stands for.
#[tactic(auto, unfolding(crate::specs::Recording::recorded))]
pub fn record(
    alloc: Global,
    name: &Name,
    packing: Packing,
    fields: Items<Field>,
    faults: &mut Items<Fault>,
) -> Result<Meaning, AllocError>
    ensures meaning { IfOk result (λ meaning. meaning ≡ (recorded name.now packing fields).meaning) }
    ensures faults { OnOk result (faults.new ≡ faults.old ++ (recorded name.now packing fields).faults) }
{
    let of = Shared::new(alloc, OccType::Record(packing, fields))?;
    let of = with_name(alloc, name, Some(KnownType::new(of)), faults)?;
    Ok(Meaning::Type(of))
}
