//! For each name a place. A name of at most 15 bytes is looked for by its number, so that most comparisons are of numbers.
ghost use Rattle.std.specs.BTreeMap.{get as map_get};
ghost use Rattle.std.specs.Cmp.Lexicographic.{slice_cmp};
ghost use Rattle.std.specs.Ordering.{is_eq, nat_cmp};
ghost use Rattle.std.specs.Prelude.{IfOk, IsSome, OnErr, OnOk, Some, None, cond, ℕ, List, ◌≡◌};
ghost use Rattle.occ_scope.specs.inside.Places.{AreSame, HoldsNone, Puts, Restores, place_held};

use occ_base::Name;
use std::alloc::{AllocError, Global};
use std::collections::BTreeMap;

/// For each name a place, or none.
#[derive(Drop)]
pub(crate) struct Places {
    /// Of the names of at most 15 bytes, by their numbers.
    short: BTreeMap<u128, usize>,
    /// Of the others.
    long: BTreeMap<Name, usize>,
}

impl Places {
    /// There is none of any name.
    pub(crate) fn new(alloc: Global) -> Places
        ensures { HoldsNone result }
    {
        Places {
            short: BTreeMap::new(alloc),
            long: BTreeMap::new(alloc),
        }
    }

    /// The place of a name.
    pub(crate) fn get(&self, name: &Name) -> Option<usize>
        ensures { result ≡ place_held self.now name.now }
    {
        match name.number() {
            Some(number) => self.short.get(&number).copied(),
            None => self.long.get(name).copied(),
        }
    }

    /// The place of a name is this one. The one before is told, if there was one. Where memory is refused all stay.
    pub(crate) fn put(
        &mut self,
        alloc: Global,
        name: &Name,
        place: usize,
    ) -> Result<Option<usize>, AllocError>
        ensures hidden { IfOk result (λ hidden. hidden ≡ place_held self.old name.now) }
        ensures ok { OnOk result (Puts self.old self.new name.now (Some place)) }
        ensures err { OnErr result (AreSame self.old self.new) }
    {
        let hidden = match name.number() {
            Some(number) => self.short.insert(number, place)?,
            None => {
                let key = name.copied(alloc)?;
                self.long.insert(key, place)?
            }
        };
        Ok(hidden)
    }

    /// The place of a name that has one is this one again. Where there is none any more, all stay.
    pub(crate) fn restore(&mut self, name: &Name, hidden: Option<usize>)
        requires { IsSome (place_held self.old name.now) }
        ensures { Restores self.old self.new name.now hidden }
    {
        let Some(place) = hidden else {
            return;
        };
        match name.number() {
            Some(number) => write_short(&mut self.short, number, place),
            None => write_long(&mut self.long, name, place),
        }
    }
}

/// The place of a number that has one is this one.
fn write_short(short: &mut BTreeMap<u128, usize>, number: u128, place: usize)
    requires { IsSome (map_get nat_cmp short.old number) }
    ensures { (other : ℕ) → map_get nat_cmp short.new other ≡ cond (is_eq (nat_cmp number other)) (Some place) (map_get nat_cmp short.old other) }
{
    if let Some(held) = short.get_mut(&number) {
        *held = place;
    }
}

/// The place of a name that has one is this one.
fn write_long(long: &mut BTreeMap<Name, usize>, name: &Name, place: usize)
    requires { IsSome (map_get (slice_cmp nat_cmp) long.old name.now) }
    ensures { (other : List ℕ) → map_get (slice_cmp nat_cmp) long.new other ≡ cond (is_eq (slice_cmp nat_cmp name.now other)) (Some place) (map_get (slice_cmp nat_cmp) long.old other) }
{
    if let Some(held) = long.get_mut(name) {
        *held = place;
    }
}
