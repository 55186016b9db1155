//! Parts of one root with one front: the front itself, or places that follow it. However many they are, a part meets them by
//! one look.
ghost use Rattle.std.specs.Prelude.{◌≡◌, ◌||◌, [], IsTrue, List, OnErr, OnOk, false, not};
ghost use Rattle.occ_types.specs.declared.interface.PartSelector.{PartSelector as ASelector};
ghost use Rattle.occ_usage_parts.specs.Keeping.{meets_some};
ghost use Rattle.occ_usage_parts.specs.Parts.{are_apart as spec_are_apart};
ghost use Rattle.occ_usage_parts.specs.inside.Paths.{ended, meet_asked as spec_meet_asked};
ghost use Rattle.occ_usage_parts.specs.inside.PlaceSets.{IsSet, places_of};

use super::comparing::{are_apart, asked};
use super::place_set::PlaceSet;
use occ_base::Items;
use occ_types::{Interval, PartSelector, Places};
use std::alloc::{AllocError, Global};
use std::marker::Model;

/// Parts that begin alike. In contracts it is its front and its parts.
#[derive(Drop)]
pub(crate) struct Path {
    front: Items<PartSelector>,
    /// Whether the front is a part.
    is_whole: bool,
    /// Where the other parts end.
    places: PlaceSet,
}

impl Model for Path {
    ghost use Rattle.std.specs.Prelude.{List};
    ghost use Rattle.occ_types.specs.declared.interface.PartSelector.{PartSelector};
    ghost use Rattle.occ_usage_parts.specs.inside.Paths.{parts_of};
    ghost use Rattle.occ_usage_parts.specs.inside.PlaceSets.{IsSet};

    ghost Value = { List PartSelector × List (List PartSelector) };

    ghost view = { λ p. (p.front, parts_of p.front p.is_whole p.places) };

    ghost invariant = { λ p. IsSet p.places };
}

impl Path {
    /// No part.
    pub(crate) fn none(alloc: Global, front: Items<PartSelector>) -> Path
        ensures { result ≡ (front, []) }
    {
        Path {
            front,
            is_whole: false,
            places: PlaceSet::none(alloc),
        }
    }

    /// Whether this is its front.
    pub(crate) fn begins(&self, front: &[PartSelector]) -> bool
        ensures { IsTrue result → self.now.0 ≡ front.now }
    {
        are_same(self.front.as_slice(), front)
    }

    /// Whether one of the parts has an element in common with a part.
    #[tactic(auto, using(crate::proofs::Fronts::path_meets))]
    pub(crate) fn meets(&self, part: &[PartSelector]) -> bool
        ensures { result ≡ meets_some self.now.1 part.now }
    {
        if are_apart(self.front.as_slice(), part) {
            return false;
        }
        self.is_whole || meet_asked(&self.places, asked(part, self.front.len()))
    }

    /// From now on its front with this interval after it is a part, or the front alone.
    pub(crate) fn add(&mut self, last: Option<Interval>) -> Result<(), AllocError>
        ensures front { self.new.0 ≡ self.old.0 }
        ensures ok { OnOk result ((q : List ASelector) → meets_some self.new.1 q ≡ (meets_some self.old.1 q || not (spec_are_apart (ended self.old.0 last) q))) }
        ensures err { OnErr result ((q : List ASelector) → meets_some self.old.1 q ≡ false → meets_some self.new.1 q ≡ false) }
    {
        match last {
            Some(interval) => self.places.add(interval.places),
            None => {
                self.is_whole = true;
                Ok(())
            }
        }
    }
}

/// Whether a place of the set is among those that are asked for, if any are.
fn meet_asked(set: &PlaceSet, asked: Option<Places>) -> bool
    requires { IsSet set.now }
    ensures { result ≡ spec_meet_asked (places_of set.now) asked }
{
    match asked {
        Some(places) => set.meets(places),
        None => false,
    }
}

/// Whether two lists of selectors are one.
fn are_same(a: &[PartSelector], b: &[PartSelector]) -> bool
    ensures { IsTrue result → a.now ≡ b.now }
{
    if a.len() != b.len() {
        return false;
    }
    for (depth, x) in a.iter().enumerate() {
        if !is_same(x, &b[depth]) {
            return false;
        }
    }
    true
}

fn is_same(a: &PartSelector, b: &PartSelector) -> bool
    ensures { IsTrue result → a.now ≡ b.now }
{
    match (a, b) {
        (PartSelector::Field(a), PartSelector::Field(b)) => a == b,
        (PartSelector::Interval(a), PartSelector::Interval(b)) => a == b,
        _ => false,
    }
}
