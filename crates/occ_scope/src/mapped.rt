//! Specifications by name, in a map: for those that are too many to be looked through.
ghost use Rattle.std.specs.Prelude.{IfOk, OnErr, OnOk, [], length, take, ◌++◌, ◌-◌, ◌∷◌, ◌≡◌};
ghost use Rattle.occ_scope.specs.inside.Kept.{names_of, standing as spec_standing};
ghost use Rattle.occ_scope.specs.Nearest.{nearest};

use super::places::Places;
use occ_base::{Items, Name};
use std::alloc::{AllocError, Global};
use std::marker::Model;

/// A specification that was entered and not left.
#[derive(Drop)]
struct Entry {
    name: Name,
    /// The nearest of its name before it.
    hidden: Option<usize>,
}

/// Specifications that were entered and not left: in contracts their names, the last entered at the end.
#[derive(Drop)]
pub(crate) struct Mapped {
    entries: Items<Entry>,
    /// The place of the last of each name. It stays where that is left, so that leaving costs no search.
    newest: Places,
}

impl Model for Mapped {
    ghost use Rattle.std.specs.Prelude.{List, ℕ};
    ghost use Rattle.std.specs.Coded.{coded_list, coded_ℕ};

    ghost Value = { List (List ℕ) };

    ghost coded = { coded_list (coded_list coded_ℕ) };

    ghost use Rattle.occ_scope.specs.inside.Kept.{IsKept, entered};

    ghost view = { entered };

    ghost invariant = { IsKept };
}

impl Mapped {
    /// There is none.
    pub(crate) fn new(alloc: Global) -> Mapped
        ensures { result ≡ [] }
    {
        Mapped {
            entries: Items::new(alloc),
            newest: Places::new(alloc),
        }
    }

    /// How many there are.
    pub(crate) fn len(&self) -> usize
        ensures { result ≡ length self.now }
    {
        self.entries.len()
    }

    /// The nearest specification of a name.
    pub(crate) fn find(&self, name: &Name) -> Option<usize>
        ensures { result ≡ nearest self.now name.now }
    {
        standing(&self.entries, name, self.newest.get(name))
    }

    /// A specification of this name is entered, and the answer is the nearest of its name before it. Where memory is
    /// refused nothing changes.
    pub(crate) fn enter_over(
        &mut self,
        alloc: Global,
        name: &Name,
    ) -> Result<Option<usize>, AllocError>
        ensures hidden { IfOk result (λ hidden. hidden ≡ nearest self.old name.now) }
        ensures ok { OnOk result (self.new ≡ self.old ++ name.now ∷ []) }
        ensures err { OnErr result (self.new ≡ self.old) }
    {
        let place = self.entries.len();
        let copy = name.copied(alloc)?;
        let held = self.newest.put(alloc, name, place)?;
        let hidden = standing(&self.entries, name, held);
        if let Err(refused) = self.entries.push(Entry { name: copy, hidden }) {
            self.newest.restore(name, hidden);
            return Err(refused);
        }
        Ok(hidden)
    }

    /// The specification that was entered last is left.
    pub(crate) fn leave(&mut self)
        ensures { self.new ≡ take (length self.old - 1) self.old }
    {
        let Some(last) = self.entries.pop() else {
            return;
        };
        self.newest.restore(&last.name, last.hidden);
    }
}

/// The place that is held of a name, if an entry of this name is there. Else the last of its name was left.
fn standing(entries: &Items<Entry>, name: &Name, held: Option<usize>) -> Option<usize>
    ensures { result ≡ spec_standing (names_of entries.now) name.now held }
{
    let place = held?;
    let entry = entries.get(place)?;
    if entry.name == *name {
        Some(place)
    } else {
        None
    }
}
