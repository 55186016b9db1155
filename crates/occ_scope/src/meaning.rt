//! What a name can mean: a type, a protocol, a procedure, a function or an element, with its access.
ghost use Rattle.std.specs.Prelude.{◌≡◌, [], ◌∷◌, IfOk};

use super::scopes::SpecId;
use occ_base::{Items, Name, Shared, one_item};
use occ_types::{Formal, KnownType, MaybeValue, OccType, Protocol};
use std::alloc::{AllocError, Global};

/// Whether something may be written through a name.
#[derive(Clone, Copy)]
pub enum Access {
    /// A variable, a channel, a timer, or a formal that is not `VAL`.
    Variable,
    /// A `VAL` formal.
    Formal,
    /// A `VAL` name, or the index of a replicator.
    Value,
}

/// All of what an element may name.
#[derive(Drop)]
pub struct Whole {
    pub of: Shared<OccType>,
    pub access: Access,
    /// Its value, where it is a constant.
    pub value: MaybeValue,
    /// The name that is reported with faults: its own, or, of an abbreviation, that of the variable, channel or timer
    /// which it abbreviates.
    pub root: Name,
}

/// What a name stands for.
#[derive(Drop)]
pub enum Meaning {
    /// The line that specifies it has a fault: where it is used, nothing is reported of it.
    Faulty,
    /// A data type: none, where the line that specifies it has a fault. Of such a name too nothing is reported, but what
    /// stands after it is converted.
    Type(Option<KnownType>),
    Protocol(Shared<Protocol>),
    /// A procedure with these formals.
    Procedure(Shared<Items<Formal>>),
    /// A function with these formals, and the types of its results.
    Function(Shared<Items<Formal>>, Items<Shared<OccType>>),
    Element(Whole),
}

/// A name, and what it stands for.
#[derive(Drop)]
pub struct ScopeEntry {
    pub name: Name,
    pub meaning: Shared<Meaning>,
}

/// The specification that a name stands for at a place in a unit.
#[derive(Drop)]
pub struct Referent {
    /// Which of the specifications in scope at that place it is: how many stand round it. Of those that are in scope
    /// together no two have one number; of those of items beside each other two may.
    pub spec: SpecId,
    /// What it gives its name to mean.
    pub meaning: Shared<Meaning>,
}

/// A name that comes into scope alone.
pub fn one_entry(
    alloc: Global,
    name: &Name,
    meaning: Meaning,
) -> Result<Items<ScopeEntry>, AllocError>
    ensures { IfOk result (λ entries. entries ≡ (record { name = name.now; meaning = meaning }) ∷ []) }
{
    let name = name.copied(alloc)?;
    let meaning = Shared::new(alloc, meaning)?;
    one_item(alloc, ScopeEntry { name, meaning })
}
