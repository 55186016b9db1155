//! Imports: what comes into scope after a `#USE`, from the interfaces of used units.
ghost use Rattle.occ_typing_lines.specs.Using.{entry_of, entries_of, imported as spec_imported, interface_of as spec_interface_of, interfaces_of as spec_interfaces_of, meaning_of as spec_meaning_of};
ghost use Rattle.std.specs.Prelude.{◌≡◌, ◌++◌, ◌∷◌, [], IfOk, OnOk};

use super::imports::Imports;
use occ_base::{FileName, Items, Shared};
use occ_scope::{Meaning, ScopeEntry};
use occ_types::{Export, ExportKind, Interface, OccType};
use occ_typing_statements::Few;
use std::alloc::{AllocError, Global};

/// A unit that another uses: its file, and what it exports.
#[derive(Drop)]
pub struct Import {
    pub unit: FileName,
    pub interface: Shared<Interface>,
}

/// Types once more, shared.
pub fn shared_types(
    alloc: Global,
    types: &[Shared<OccType>],
) -> Result<Items<Shared<OccType>>, AllocError>
    ensures { IfOk result (λ shared. shared ≡ types.now) }
{
    let mut shared = Items::from_vec(Vec::with_capacity(alloc, types.len())?);
    for of in types {
        shared.push(of.share()?)?;
    }
    Ok(shared)
}

/// What the name of an export stands for.
fn meaning_of(alloc: Global, export: &Export) -> Result<Meaning, AllocError>
    ensures { IfOk result (λ meaning. meaning ≡ spec_meaning_of export.now.kind export.now.formals export.now.results) }
{
    let formals = export.formals.share()?;
    match export.kind {
        ExportKind::Process => Ok(Meaning::Procedure(formals)),
        ExportKind::Function => {
            let results = shared_types(alloc, export.results.as_slice())?;
            Ok(Meaning::Function(formals, results))
        }
    }
}

/// An export as it comes into scope.
fn entry(alloc: Global, export: &Export) -> Result<ScopeEntry, AllocError>
    ensures { IfOk result (λ entry. entry ≡ entry_of export.now) }
{
    let name = export.name.copied(alloc)?;
    let meaning = Shared::new(alloc, meaning_of(alloc, export)?)?;
    Ok(ScopeEntry { name, meaning })
}

/// Exports as they come into scope, after others.
fn push_exports(
    alloc: Global,
    exports: &[Export],
    entries: &mut Items<ScopeEntry>,
) -> Result<(), AllocError>
    ensures { OnOk result (entries.new ≡ entries.old ++ entries_of exports.now) }
{
    for export in exports {
        let entry = entry(alloc, export)?;
        entries.push(entry)?;
    }
    Ok(())
}

/// Adds what the import of this unit shows, if there is one.
fn push_interface(
    imports: &Imports<'_>,
    unit: FileName,
    found: &mut Items<Shared<Interface>>,
) -> Result<(), AllocError>
    ensures { OnOk result (found.new ≡ found.old ++ spec_interface_of unit imports.now) }
{
    match imports.interface_of(unit) {
        Some(interface) => found.push(interface.share()?),
        None => Ok(()),
    }
}

/// What the import of this unit shows, if there is one.
fn interface_alone(
    alloc: Global,
    imports: &Imports<'_>,
    unit: FileName,
) -> Result<Few<Shared<Interface>>, AllocError>
    ensures { IfOk result (λ found. found ≡ spec_interface_of unit imports.now) }
{
    match imports.interface_of(unit) {
        Some(interface) => Ok(Few::one(interface.share()?)),
        None => Few::listed(alloc, Items::new(alloc)),
    }
}

/// What the imports of these units show, in the order of the units. Most lines use one.
pub fn interfaces_of(
    alloc: Global,
    imports: &Imports<'_>,
    units: &[FileName],
) -> Result<Few<Shared<Interface>>, AllocError>
    ensures { IfOk result (λ found. found ≡ spec_interfaces_of units.now imports.now) }
{
    match units {
        [unit] => interface_alone(alloc, imports, *unit),
        _ => Few::listed(alloc, each_interface(alloc, imports, units)?),
    }
}

/// The same of any number of units.
fn each_interface(
    alloc: Global,
    imports: &Imports<'_>,
    units: &[FileName],
) -> Result<Items<Shared<Interface>>, AllocError>
    ensures { IfOk result (λ found. found ≡ spec_interfaces_of units.now imports.now) }
{
    let mut found = Items::from_vec(Vec::with_capacity(alloc, units.len())?);
    for unit in units {
        push_interface(imports, *unit, &mut found)?;
    }
    Ok(found)
}

/// What comes into scope after a line that uses units which show this.
pub fn imported(
    alloc: Global,
    interfaces: &[Shared<Interface>],
) -> Result<Items<ScopeEntry>, AllocError>
    ensures { IfOk result (λ entries. entries ≡ spec_imported interfaces.now) }
{
    let mut entries = Items::from_vec(Vec::with_capacity(alloc, interfaces.len())?);
    for interface in interfaces {
        push_exports(alloc, interface.get().exports.as_slice(), &mut entries)?;
    }
    Ok(entries)
}
