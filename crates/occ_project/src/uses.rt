//! The units that the lines of an expansion use, in order of name.
ghost use Rattle.occ_project.specs.Reads.{name_cmp};
ghost use Rattle.occ_project.specs.Uses.{names_in_order, units_of, used_in};
ghost use Rattle.std.specs.List.{flat_map};
ghost use Rattle.std.specs.Prelude.{IfOk, IsTrue, OnOk, ◌++◌, ◌≡◌};
ghost use Rattle.std.specs.declared.cmp.Ordering.TheVariants.{Less};

use super::expanded::ExpandedLine;
use occ_base::{FileName, Items};
use std::alloc::{AllocError, Global};
use std::cmp::Ordering;
use std::collections::BTreeSet;

/// Whether the one name stands before the other.
fn is_before(a: FileName, b: FileName) -> bool
    ensures { IsTrue result → name_cmp a b ≡ Less }
{
    matches!(a.cmp(&b), Ordering::Less)
}

/// Whether each of the names stands before the next.
fn do_rise(names: &[FileName]) -> bool
    ensures { IsTrue result → names_in_order names.now ≡ names.now }
{
    for i in 1..names.len() {
        if !is_before(names[i - 1], names[i]) {
            return false;
        }
    }
    true
}

/// The names of units, each once, in order.
pub fn units_in_order(alloc: Global, names: Items<FileName>) -> Result<Items<FileName>, AllocError>
    ensures { IfOk result (λ ordered. ordered ≡ names_in_order names) }
{
    if do_rise(names.as_slice()) {
        return Ok(names);
    }
    put_in_order(alloc, names)
}

/// The same by a set.
#[tactic(auto, using(occ_base::proofs::Placed::placed_last))]
fn put_in_order(alloc: Global, mut names: Items<FileName>) -> Result<Items<FileName>, AllocError>
    ensures { IfOk result (λ ordered. ordered ≡ names_in_order names) }
{
    let mut set = BTreeSet::new(alloc);
    while let Some(name) = names.pop() {
        set.insert(name)?;
    }
    let ordered = set.into_iter().collect(alloc)?;
    Ok(Items::from_vec(ordered))
}

/// Adds the units that a line uses, all at once.
fn add_units(
    alloc: Global,
    names: &mut Items<FileName>,
    units: &[FileName],
) -> Result<(), AllocError>
    ensures { OnOk result (names.new ≡ names.old ++ units.now) }
{
    if units.is_empty() {
        return Ok(());
    }
    let units = Items::from_slice(alloc, units)?;
    if names.is_empty() {
        *names = units;
        return Ok(());
    }
    names.append(units)
}

/// The units that these lines use, one after the other.
fn units_of_lines(alloc: Global, lines: &[ExpandedLine]) -> Result<Items<FileName>, AllocError>
    ensures { IfOk result (λ names. names ≡ flat_map units_of lines.now) }
{
    let mut names = Items::new(alloc);
    for line in lines {
        add_units(alloc, &mut names, line.used_units())?;
    }
    Ok(names)
}

/// The units that these lines use, each once, in order of name.
pub fn used_units(alloc: Global, lines: &[ExpandedLine]) -> Result<Items<FileName>, AllocError>
    ensures { IfOk result (λ used. used ≡ used_in lines.now) }
{
    units_in_order(alloc, units_of_lines(alloc, lines)?)
}
