//! What of a text decides which files are found for it.
ghost use Rattle.occ_editor.specs.inside.Named.{AreAlike, named_by, named_in};
ghost use Rattle.occ_lines.specs.Listing.{listed};
ghost use Rattle.std.specs.Prelude.{◌≡◌, ◌↔◌, IfOk, IsTrue};

use occ_base::FileName;
use occ_forms::{LineBody, Source, SourceLine};
use std::alloc::{AllocError, Global};

/// The file that a line names, with the list that a library has.
fn named(body: &LineBody) -> Option<(FileName, Option<FileName>)>
    ensures { result ≡ named_by body.now }
{
    match body {
        LineBody::Include(file) => Some((*file.get(), None)),
        LineBody::Uses(unit, list) => Some((*unit.get(), list.as_ref().map(|list| *list.get()))),
        LineBody::Form(_) | LineBody::Fault(_) => None,
    }
}

/// The files that lines name, in their order.
fn all_named(
    alloc: Global,
    lines: &[SourceLine],
) -> Result<Vec<(FileName, Option<FileName>)>, AllocError>
    ensures { IfOk result (λ names. names.items ≡ named_in lines.now) }
{
    let mut names = Vec::new(alloc);
    for line in lines {
        if let Some(name) = named(&line.body) {
            names.push(name)?;
        }
    }
    Ok(names)
}

/// Whether the names are the same, in the same order.
fn are_same(names: &[(FileName, Option<FileName>)], others: &[(FileName, Option<FileName>)]) -> bool
    ensures { IsTrue result ↔ (names.now ≡ others.now) }
{
    names == others
}

/// Whether two texts list the same units, or none of them is a list.
fn list_alike(one: &Source, other: &Source) -> bool
    ensures { IsTrue result ↔ (listed one.now.text ≡ listed other.now.text) }
{
    one.listed() == other.listed()
}

/// Whether two texts name the same files, in the same order, and list the same units: then the same files are found for both.
/// That these are the same is said by no contract.
pub fn name_alike(alloc: Global, one: &Source, other: &Source) -> Result<bool, AllocError>
    ensures { IfOk result (λ alike. IsTrue alike ↔ AreAlike one.now other.now) }
{
    let names = all_named(alloc, one.lines())?;
    let others = all_named(alloc, other.lines())?;
    Ok(are_same(names.as_slice(), others.as_slice()) && list_alike(one, other))
}
