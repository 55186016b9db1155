//! The parts of one root that earlier components use. Few ways of beginning are in one list, many in 256, by the field or the
//! index that they select first, so that unlike parts cost no pairs.
ghost use Rattle.std.specs.Prelude.{◌≡◌, ◌<◌, ◌||◌, [], IfOk, List, OnOk, Some, false, length, not};
ghost use Rattle.occ_usage_parts.specs.Keeping.{meets_some};
ghost use Rattle.occ_usage_parts.specs.Parts.{are_apart as spec_are_apart};
ghost use Rattle.occ_types.specs.declared.interface.PartSelector.{PartSelector as ASelector};
ghost use Rattle.occ_usage_conflicts.specs.inside.Beginning.{list_of as spec_list_of};
ghost use Rattle.occ_usage_conflicts.specs.inside.Spreading.{IsSpread, meets_at as spec_meets_at, meets_in};

use super::beginning::list_of;
use occ_types::PartSelector;
use occ_usage_parts::Paths;
use std::alloc::{AllocError, Global};
use std::marker::Model;

/// So many ways of beginning are in one list, before others are spread.
const FEW: usize = 16;

/// Over so many lists parts are spread.
const LISTS: usize = 256;

/// Parts of one root that are kept to be asked for.
#[derive(Drop)]
pub(crate) struct Accumulated {
    few: Paths,
    /// By the field or the one place that the first selector selects: so that a part meets those of its own list alone.
    spread: Vec<Paths>,
}

impl Model for Accumulated {
    ghost use Rattle.std.specs.Prelude.{List, ◌++◌};
    ghost use Rattle.occ_types.specs.declared.interface.PartSelector.{PartSelector};
    ghost use Rattle.occ_usage_conflicts.specs.inside.Spreading.{IsSpread, all_in};

    ghost Value = { List (List PartSelector) };

    ghost view = { λ k. k.few ++ all_in k.spread.items };

    ghost invariant = { λ k. IsSpread k.spread.items };
}

impl Accumulated {
    /// No part.
    pub(crate) fn none(alloc: Global) -> Accumulated
        ensures { result ≡ [] }
    {
        Accumulated {
            few: Paths::none(alloc),
            spread: Vec::new(alloc),
        }
    }

    /// Whether one of the parts has an element in common with a part.
    pub(crate) fn meets(&self, part: &[PartSelector]) -> bool
        ensures { result ≡ meets_some self.now part.now }
    {
        self.few.meets(part) || meets_spread(self.spread.as_slice(), part)
    }

    /// From now on what has an element in common with the part has one in common with a kept part.
    pub(crate) fn add(&mut self, alloc: Global, part: &[PartSelector]) -> Result<(), AllocError>
        ensures { OnOk result ((q : List ASelector) → meets_some self.new q ≡ (meets_some self.old q || not (spec_are_apart part.now q))) }
    {
        if self.few.count() < FEW {
            return self.few.add(alloc, part);
        }
        make_lists(alloc, &mut self.spread)?;
        put(alloc, part, &mut self.few, &mut self.spread)
    }
}

/// Makes the lists, if there are none.
fn make_lists(alloc: Global, lists: &mut Vec<Paths>) -> Result<(), AllocError>
    ensures spread { IsSpread lists.old.items → IsSpread lists.new.items }
    ensures meets { OnOk result ((q : List ASelector) → meets_in lists.new.items q ≡ meets_in lists.old.items q) }
{
    if lists.is_empty() {
        *lists = no_lists(alloc)?;
    }
    Ok(())
}

/// Adds a part to its list, or if it has none to the few.
fn put(
    alloc: Global,
    part: &[PartSelector],
    few: &mut Paths,
    lists: &mut Vec<Paths>,
) -> Result<(), AllocError>
    ensures spread { IsSpread lists.old.items → IsSpread lists.new.items }
    ensures meets { OnOk result ((q : List ASelector) → (meets_some few.new q || meets_in lists.new.items q) ≡ ((meets_some few.old q || meets_in lists.old.items q) || not (spec_are_apart part.now q))) }
{
    match list_of(part, lists.len()) {
        Some(at) => add_at(alloc, lists, at, part),
        None => few.add(alloc, part),
    }
}

/// Lists without a part.
fn no_lists(alloc: Global) -> Result<Vec<Paths>, AllocError>
    ensures { IfOk result (λ lists. IsSpread lists.items × ((q : List ASelector) → meets_in lists.items q ≡ false)) }
{
    let mut lists = Vec::new(alloc);
    for _made in 0..LISTS {
        lists.push(Paths::none(alloc))?;
    }
    Ok(lists)
}

/// Whether a part of one of the lists has an element in common with a part.
fn meets_spread(lists: &[Paths], part: &[PartSelector]) -> bool
    ensures { IsSpread lists.now → result ≡ meets_in lists.now part.now }
{
    if lists.is_empty() {
        return false;
    }
    match list_of(part, lists.len()) {
        Some(at) => meets_at(lists, at, part),
        None => meets_any(lists, part),
    }
}

fn meets_at(lists: &[Paths], at: usize, part: &[PartSelector]) -> bool
    ensures { result ≡ spec_meets_at lists.now at part.now }
{
    match lists.get(at) {
        Some(parts) => parts.meets(part),
        None => false,
    }
}

fn meets_any(lists: &[Paths], part: &[PartSelector]) -> bool
    ensures { result ≡ meets_in lists.now part.now }
{
    for parts in lists {
        if parts.meets(part) {
            return true;
        }
    }
    false
}

/// Adds a part to its list.
fn add_at(
    alloc: Global,
    lists: &mut Vec<Paths>,
    at: usize,
    part: &[PartSelector],
) -> Result<(), AllocError>
    requires list { spec_list_of part.now (length lists.old.items) ≡ Some at }
    requires within { at < length lists.old.items }
    ensures spread { IsSpread lists.old.items → IsSpread lists.new.items }
    ensures meets { OnOk result ((q : List ASelector) → meets_in lists.new.items q ≡ (meets_in lists.old.items q || not (spec_are_apart part.now q))) }
{
    lists[at].add(alloc, part)
}
