//! Places of an array that are put to a set one after the other, and asked for by one look at the runs beside them.
ghost use Rattle.std.specs.Prelude.{◌≡◌, ◌↔◌, int_le, ◌≤ℤ◌, ◌⊎◌, ◌^◌, ◌+ℤ◌, ◌<◌, ◌||◌, [], ℤ, IsTrue, OnErr, OnOk, false, pos, true};
ghost use Rattle.std.specs.List.{list_any};
ghost use Rattle.std.specs.Option.{is_some};
ghost use Rattle.occ_types.specs.declared.interface.Places.{Places as ThePlaces};
ghost use Rattle.occ_usage_parts.specs.Places.{holds, meet};
ghost use Rattle.occ_usage_parts.specs.inside.PlaceSets.{Has, IsSet, lies_from, place_at, places_of};

use super::runs::{add_run, meet_between, meet_from};
use occ_types::Places;
use std::alloc::{AllocError, Global};
use std::collections::BTreeMap;

/// The places of all sets that were put to it.
#[derive(Drop)]
pub(crate) struct PlaceSet {
    all: bool,
    /// From where on all places are in it, if there is such a place.
    from: Option<i64>,
    /// The first place of each run with its last, counted from the least number of 64 bits.
    runs: BTreeMap<u128, u128>,
}

impl PlaceSet {
    /// No place.
    pub(crate) fn none(alloc: Global) -> PlaceSet
        ensures set { IsSet result }
        ensures nothing { places_of result ≡ [] }
    {
        PlaceSet {
            all: false,
            from: None,
            runs: BTreeMap::new(alloc),
        }
    }

    /// Whether one of these places is in it.
    pub(crate) fn meets(&self, places: Places) -> bool
        requires { IsSet self.now }
        ensures { result ≡ list_any (λ (p : ThePlaces). meet p places) (places_of self.now) }
    {
        self.has_some(places)
    }

    fn has_some(&self, places: Places) -> bool
        requires { IsSet self.now }
        ensures { IsTrue result ↔ ((x : ℤ) × Has self.now x × (holds places x ≡ true)) }
    {
        match places {
            Places::None => false,
            Places::All => self.has_from(i64::MIN),
            Places::From(first) => self.has_from(first),
            Places::Run(first, more) => self.has_between(first, more),
        }
    }

    /// Whether a place from here on is in it.
    fn has_from(&self, first: i64) -> bool
        requires { IsSet self.now }
        ensures { IsTrue result ↔ ((x : ℤ) × Has self.now x × (first ≤ℤ x)) }
    {
        if self.is_endless() {
            return true;
        }
        meet_from(&self.runs, index(first))
    }

    /// Whether all places from some one on are in it.
    fn is_endless(&self) -> bool
        ensures { result ≡ (self.now.all || is_some self.now.from) }
    {
        self.all || self.from.is_some()
    }

    /// Whether a place of a run is in it.
    fn has_between(&self, first: i64, more: u32) -> bool
        requires { IsSet self.now }
        ensures { IsTrue result ↔ ((x : ℤ) × Has self.now x × (first ≤ℤ x) × (x ≤ℤ (first +ℤ pos more))) }
    {
        if self.reaches(first, more) {
            return true;
        }
        let begin = index(first);
        meet_between(&self.runs, begin, begin + u128::from(more))
    }

    /// Whether the last place of a run and all after it are in it.
    fn reaches(&self, first: i64, more: u32) -> bool
        ensures { result ≡ (self.now.all || lies_from self.now.from (first +ℤ pos more)) }
    {
        self.all || lies_after(self.from, i128::from(first) + i128::from(more))
    }

    /// From now on these places are in it too. After an error none is in it that was not before.
    pub(crate) fn add(&mut self, places: Places) -> Result<(), AllocError>
        requires { IsSet self.old }
        ensures set { IsSet self.new }
        ensures ok { OnOk result ((q : ThePlaces) → list_any (λ (p : ThePlaces). meet p q) (places_of self.new) ≡ (list_any (λ (p : ThePlaces). meet p q) (places_of self.old) || meet places q)) }
        ensures err { OnErr result ((q : ThePlaces) → list_any (λ (p : ThePlaces). meet p q) (places_of self.old) ≡ false → list_any (λ (p : ThePlaces). meet p q) (places_of self.new) ≡ false) }
    {
        self.put(places)
    }

    fn put(&mut self, places: Places) -> Result<(), AllocError>
        requires { IsSet self.old }
        ensures set { IsSet self.new }
        ensures ok { OnOk result ((x : ℤ) → Has self.new x ↔ (Has self.old x ⊎ (holds places x ≡ true))) }
        ensures err { OnErr result ((x : ℤ) → Has self.new x → Has self.old x) }
    {
        match places {
            Places::None => Ok(()),
            Places::All => {
                self.all = true;
                Ok(())
            }
            Places::From(first) => {
                self.from = Some(earlier(self.from, first));
                Ok(())
            }
            Places::Run(first, more) => {
                let begin = index(first);
                add_run(&mut self.runs, begin, begin + u128::from(more))
            }
        }
    }
}

/// Where a place stands among the numbers of 64 bits.
fn index(place: i64) -> u128
    ensures place { place_at result ≡ place }
    ensures short { result < 2 ^ 64 }
{
    (i128::from(place) + (1 << 63)) as u128
}

/// Whether a place is one from the first on, if there is one.
fn lies_after(from: Option<i64>, place: i128) -> bool
    ensures { result ≡ lies_from from place }
{
    match from {
        Some(from) => i128::from(from) <= place,
        None => false,
    }
}

/// The first of two places.
fn earlier(from: Option<i64>, other: i64) -> i64
    ensures { (x : ℤ) → int_le result x ≡ (lies_from from x || int_le other x) }
{
    match from {
        Some(from) => from.min(other),
        None => other,
    }
}
