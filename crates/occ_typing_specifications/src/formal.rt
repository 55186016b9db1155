//! Formals of a head, as they are in scope in the body and as a call sees them.
ghost use Rattle.std.specs.Prelude.{◌≡◌, ◌∷◌, ◌++◌, [], IfOk, OnOk};
ghost use Rattle.occ_typing_specifications.specs.Formals.{access_of as spec_access_of, all_known as spec_all_known, as_element as spec_as_element, each_of as spec_each_of, entries as spec_entries, entry as spec_entry, called_formal as spec_called_formal, called_formals as spec_called_formals};

use super::result_type::is_known;
use occ_base::{Items, Name, Shared};
use occ_scope::{Access, Meaning, ScopeEntry, Whole};
use occ_types::{Formal, MaybeValue, OccType, Passing};
use std::alloc::{AllocError, Global};

/// A formal of a head, and the type of its group, if that is known.
#[derive(Drop)]
pub struct HeadFormal {
    pub name: Name,
    pub of: Option<Shared<OccType>>,
    pub passing: Passing,
}

/// One more owner of a type, if it is known.
fn shared(of: &Option<Shared<OccType>>) -> Result<Option<Shared<OccType>>, AllocError>
    ensures { IfOk result (λ shared. shared ≡ of.now) }
{
    match of {
        None => Ok(None),
        Some(of) => Ok(Some(of.share()?)),
    }
}

/// A formal of this type.
pub fn push_formal(
    alloc: Global,
    of: &Option<Shared<OccType>>,
    passing: Passing,
    name: &Name,
    formals: &mut Items<HeadFormal>,
) -> Result<(), AllocError>
    ensures { OnOk result (formals.new ≡ formals.old ++ spec_each_of of.now passing (name.now ∷ [])) }
{
    let name = name.copied(alloc)?;
    let of = shared(of)?;
    formals.push(HeadFormal { name, of, passing })
}

/// Further formals of this type.
pub fn push_formals(
    alloc: Global,
    of: &Option<Shared<OccType>>,
    passing: Passing,
    names: &[Name],
    formals: &mut Items<HeadFormal>,
) -> Result<(), AllocError>
    ensures { OnOk result (formals.new ≡ formals.old ++ spec_each_of of.now passing names.now) }
{
    for name in names {
        push_formal(alloc, of, passing, name, formals)?;
    }
    Ok(())
}

/// Whether the type of each formal is known.
pub fn all_known(formals: &[HeadFormal]) -> bool
    ensures { result ≡ spec_all_known formals.now }
{
    for one in formals {
        if !is_known(&one.of) {
            return false;
        }
    }
    true
}

/// What may be written through a formal.
fn access_of(passing: Passing) -> Access
    ensures { result ≡ spec_access_of passing }
{
    match passing {
        Passing::Value => Access::Formal,
        Passing::Reference => Access::Variable,
    }
}

/// What a formal stands for in the body of a head that has no fault.
fn as_element(
    alloc: Global,
    of: &Option<Shared<OccType>>,
    passing: Passing,
    name: &Name,
) -> Result<Meaning, AllocError>
    ensures { IfOk result (λ meaning. meaning ≡ spec_as_element of.now passing name.now) }
{
    match of {
        None => Ok(Meaning::Faulty),
        Some(of) => Ok(Meaning::Element(Whole {
            of: of.share()?,
            access: access_of(passing),
            value: MaybeValue::none(),
            root: name.copied(alloc)?,
        })),
    }
}

/// A formal as it stands in scope in the body: faulty, if the head has a fault.
fn entry(alloc: Global, known: bool, one: &HeadFormal) -> Result<ScopeEntry, AllocError>
    ensures { IfOk result (λ entry. entry ≡ spec_entry known one.now) }
{
    let name = one.name.copied(alloc)?;
    let meaning = if known {
        as_element(alloc, &one.of, one.passing, &one.name)?
    } else {
        Meaning::Faulty
    };
    let meaning = Shared::new(alloc, meaning)?;
    Ok(ScopeEntry { name, meaning })
}

/// The formals as they stand in scope in the body.
pub fn entries(
    alloc: Global,
    known: bool,
    formals: &[HeadFormal],
) -> Result<Items<ScopeEntry>, AllocError>
    ensures { IfOk result (λ entries. entries ≡ spec_entries known formals.now) }
{
    let mut entries = Items::new(alloc);
    for one in formals {
        let entry = entry(alloc, known, one)?;
        entries.push(entry)?;
    }
    Ok(entries)
}

/// A formal as a call sees it, if its type is known.
fn push_called(
    of: &Option<Shared<OccType>>,
    passing: Passing,
    called: &mut Items<Formal>,
) -> Result<(), AllocError>
    ensures { OnOk result (called.new ≡ called.old ++ spec_called_formal of.now passing) }
{
    match of {
        None => Ok(()),
        Some(of) => {
            let of = of.share()?;
            called.push(Formal { of, passing })
        }
    }
}

/// The formals as a call sees them, of those whose type is known.
pub fn called_formals(alloc: Global, formals: &[HeadFormal]) -> Result<Items<Formal>, AllocError>
    ensures { IfOk result (λ called. called ≡ spec_called_formals formals.now) }
{
    let mut called = Items::new(alloc);
    for one in formals {
        push_called(&one.of, one.passing, &mut called)?;
    }
    Ok(called)
}
