//! The imports of a unit. One is found by halves where they stand in order of unit, as those of a job do.
ghost use Rattle.std.specs.Prelude.{◌≡◌, [], ◌∷◌, IsTrue, MatchOption};
ghost use Rattle.occ_typing_lines.specs.Using.{interface_of as spec_interface_of};
ghost use Rattle.occ_typing_lines.specs.inside.Sorted.{AreSorted, HasUnitAt, IsAfter, IsImportAt};

use super::using::Import;
use occ_base::{FileName, Shared};
use occ_types::Interface;
use std::cell::Cell;
use std::marker::Model;

/// The units that a unit uses: in contracts the list of them.
#[derive(Drop)]
pub struct Imports<'a> {
    all: &'a [Import],
    /// Each stands before those of greater names.
    are_sorted: bool,
    /// Where the next one is looked for first.
    near: Cell<usize>,
}

impl<'a> Model for Imports<'a> {
    ghost use Rattle.occ_types.specs.contracts.types.OccType as types;
    ghost use Rattle.occ_typing_lines.specs.declared.using.Import.{Import};
    ghost use Rattle.occ_typing_lines.specs.inside.Sorted.{AreSorted};
    ghost use Rattle.std.specs.Coded.{codes};
    ghost use Rattle.std.specs.Prelude.{IsTrue, List};

    ghost Value = { List Import };

    ghost coded = { Prim.hlevel (codes, types.the_row.coded) };

    ghost view = { λ imports. imports.all.now };

    ghost invariant = { λ imports. IsTrue imports.are_sorted → AreSorted imports.all.now };
}

/// Whether a unit stands after another, if there is one.
fn is_after(before: Option<FileName>, unit: FileName) -> bool
    ensures { IsTrue result → IsAfter before unit }
{
    match before {
        Some(before) => before.cmp(&unit).is_lt(),
        None => true,
    }
}

/// Whether each stands before those of greater names.
fn are_sorted(imports: &[Import]) -> bool
    ensures { IsTrue result → AreSorted imports.now }
{
    let mut before: Option<FileName> = None;
    for import in imports {
        if !is_after(before, import.unit) {
            return false;
        }
        before = Some(import.unit);
    }
    true
}

/// Whether the import at a place, if there is one, is of this unit.
fn is_at(imports: &[Import], at: usize, unit: FileName) -> bool
    ensures { IsTrue result → HasUnitAt unit imports.now at }
{
    match imports.get(at) {
        Some(import) => import.unit == unit,
        None => false,
    }
}

/// Where the import of this unit stands, of those that stand in order. It is looked for at `near` first.
fn place_near(imports: &[Import], unit: FileName, near: usize) -> Option<usize>
    requires { AreSorted imports.now }
    ensures { MatchOption result (spec_interface_of unit imports.now ≡ []) (λ at. IsImportAt unit imports.now at) }
{
    if is_at(imports, near, unit) {
        return Some(near);
    }
    match imports.binary_search_by_key(&unit, |import| import.unit) {
        Ok(at) => Some(at),
        Err(_at) => None,
    }
}

/// What the first import of this unit shows, of those that stand in any order.
fn first_of(imports: &[Import], unit: FileName) -> Option<&Shared<Interface>>
    ensures { MatchOption result (spec_interface_of unit imports.now ≡ []) (λ interface. spec_interface_of unit imports.now ≡ interface.now ∷ []) }
{
    for import in imports {
        if import.unit == unit {
            return Some(&import.interface);
        }
    }
    None
}

impl<'a> Imports<'a> {
    pub fn new(imports: &'a [Import]) -> Imports<'a>
        ensures { result ≡ imports.now }
    {
        Imports {
            all: imports,
            are_sorted: are_sorted(imports),
            near: Cell::new(0),
        }
    }

    /// What the first import of this unit shows; a unit of which there is none shows nothing. Where they stand in order it is
    /// looked for behind the one before first.
    pub(crate) fn interface_of(&self, unit: FileName) -> Option<&Shared<Interface>>
        ensures { MatchOption result (spec_interface_of unit self.now ≡ []) (λ interface. spec_interface_of unit self.now ≡ interface.now ∷ []) }
    {
        if !self.are_sorted {
            return first_of(self.all, unit);
        }
        let at = place_near(self.all, unit, self.near.get())?;
        self.near.set(at + 1);
        Some(&self.all[at].interface)
    }
}
