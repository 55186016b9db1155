//! The specifications that were entered and not left, and the nearest of each name. `docs/LANGUAGE.md, Names in scope`.
ghost use Rattle.std.specs.Prelude.{IfOk, MatchOption, OnErr, OnOk, Some, [], length, take, ◌++◌, ◌-◌, ◌∷◌, ◌≡◌};
ghost use Rattle.occ_scope.specs.inside.Begun.{Begins};
ghost use Rattle.occ_scope.specs.Nearest.{nearest};

use super::mapped::Mapped;
use super::numbered::{Numbered, Sought};
use occ_base::{Items, Name};
use std::alloc::{AllocError, Global};
use std::marker::Model;

/// The place of a specification among those that were entered and not left, from 0.
pub type SpecId = usize;

/// So many of those that were entered last are looked through one by one: most names stand for one of them.
const NEAR: usize = 16;

/// The specifications that were entered and not left: in contracts their names, the last entered at the end.
#[derive(Drop)]
pub struct Scopes {
    names: Items<Numbered>,
    /// The first of them, which are too far from the last to be looked through.
    mapped: Mapped,
}

impl Model for Scopes {
    ghost use Rattle.std.specs.Prelude.{List, ℕ};
    ghost use Rattle.std.specs.Coded.{coded_list, coded_ℕ};

    ghost Value = { List (List ℕ) };

    ghost coded = { coded_list (coded_list coded_ℕ) };

    ghost use Rattle.occ_scope.specs.inside.Begun.{IsBegun};

    ghost view = { λ a. a.names };

    ghost invariant = { IsBegun };
}

impl Scopes {
    /// Nothing is in scope.
    pub fn new(alloc: Global) -> Scopes
        ensures { result ≡ [] }
    {
        Scopes {
            names: Items::new(alloc),
            mapped: Mapped::new(alloc),
        }
    }

    /// The nearest specification of a name.
    pub fn find(&self, name: &Name) -> Option<SpecId>
        ensures { result ≡ nearest self.now name.now }
    {
        match among_last(self.names.as_slice(), self.mapped.len(), &Sought::new(name)) {
            Some(place) => Some(place),
            None => self.mapped.find(name),
        }
    }

    /// A specification of this name is entered. Where memory is refused nothing changes.
    pub fn enter(&mut self, alloc: Global, name: &Name) -> Result<SpecId, AllocError>
        ensures place { IfOk result (λ id. id ≡ length self.old) }
        ensures ok { OnOk result (self.new ≡ self.old ++ name.now ∷ []) }
        ensures err { OnErr result (self.new ≡ self.old) }
    {
        let place = self.names.len();
        map_far(alloc, self.names.as_slice(), &mut self.mapped)?;
        let name = name.copied(alloc)?;
        self.names.push(Numbered::new(name))?;
        Ok(place)
    }

    /// The same, and the answer is the nearest of its name before it. Where memory is refused nothing changes.
    pub fn enter_over(&mut self, alloc: Global, name: &Name) -> Result<Option<SpecId>, AllocError>
        ensures hidden { IfOk result (λ hidden. hidden ≡ nearest self.old name.now) }
        ensures ok { OnOk result (self.new ≡ self.old ++ name.now ∷ []) }
        ensures err { OnErr result (self.new ≡ self.old) }
    {
        if self.names.len() < NEAR {
            let hidden = self.find(name);
            self.enter(alloc, name)?;
            return Ok(hidden);
        }
        self.enter_mapped(alloc, name)
    }

    /// The same in the map, into which all before it come too: so a name is looked for once.
    fn enter_mapped(&mut self, alloc: Global, name: &Name) -> Result<Option<SpecId>, AllocError>
        ensures hidden { IfOk result (λ hidden. hidden ≡ nearest self.old name.now) }
        ensures ok { OnOk result (self.new ≡ self.old ++ name.now ∷ []) }
        ensures err { OnErr result (self.new ≡ self.old) }
    {
        map_all(alloc, self.names.as_slice(), &mut self.mapped)?;
        let copy = name.copied(alloc)?;
        self.names.push(Numbered::new(copy))?;
        match self.mapped.enter_over(alloc, name) {
            Ok(hidden) => Ok(hidden),
            Err(refused) => {
                self.names.pop();
                Err(refused)
            }
        }
    }

    /// The specification that was entered last is left.
    pub fn leave(&mut self)
        ensures { self.new ≡ take (length self.old - 1) self.old }
    {
        self.names.pop();
        if self.mapped.len() > self.names.len() {
            self.mapped.leave();
        }
    }
}

/// The nearest of a name, if it is behind the first so many.
fn among_last(names: &[Numbered], first: usize, sought: &Sought<'_>) -> Option<SpecId>
    ensures { MatchOption result (nearest names.now sought.now ≡ nearest (take first names.now) sought.now) (λ place. nearest names.now sought.now ≡ Some place) }
{
    let mut rest = names;
    while rest.len() > first {
        let (last, before) = rest.split_last()?;
        if last.is(sought) {
            return Some(before.len());
        }
        rest = before;
    }
    None
}

/// The names behind those that are mapped are mapped too. Where memory is refused some of them are.
fn map_all(alloc: Global, names: &[Numbered], mapped: &mut Mapped) -> Result<(), AllocError>
    requires { Begins mapped.old names.now }
    ensures begin { Begins mapped.new names.now }
    ensures all { OnOk result (mapped.new ≡ names.now) }
{
    while let Some(next) = names.get(mapped.len()) {
        mapped.enter_over(alloc, next.name())?;
    }
    Ok(())
}

/// Where there are too many behind those that are mapped to be looked through with one more, they are mapped too.
fn map_far(alloc: Global, names: &[Numbered], mapped: &mut Mapped) -> Result<(), AllocError>
    requires { Begins mapped.old names.now }
    ensures { Begins mapped.new names.now }
{
    if names.len().saturating_sub(mapped.len()) < NEAR {
        return Ok(());
    }
    map_all(alloc, names, mapped)
}
