//! What the specifications in scope stand for, and which of them are known to be of one type. Types are compared once: what
//! was found equal is remembered, so that assignments of names need no walk of their types.
#![tactic(auto, using(crate::proofs::Alike::none_alike))]

ghost use Rattle.std.specs.Prelude.{◌≡◌, ◌⊎◌, ◌≤◌, ◌-◌, ◌++◌, ◌∷◌, [], IfOk, IsTrue, MatchOption, None, OnErr, OnOk, Some, length, take};
ghost use Rattle.std.specs.Option.{option_copied};
ghost use Rattle.std.specs.List.{slice_get};
ghost use Rattle.occ_scope.specs.Elements.{formal_at as spec_formal_at, formal_types, type_at as spec_type_at};

use super::meaning::Meaning;
use super::scopes::SpecId;
use occ_base::{Items, Shared};
use occ_types::{Formal, OccType, same_type};
use std::alloc::{AllocError, Global};
use std::marker::Model;

/// What the specifications in scope stand for: in contracts the list of that.
#[derive(Drop)]
pub(crate) struct Meanings {
    meanings: Items<Shared<Meaning>>,
    /// For the first of them one each, no later, that is of the same type: itself, if no other is known to be.
    alike: Items<SpecId>,
}

impl Model for Meanings {
    ghost use Rattle.occ_types.specs.contracts.types.OccType as types;
    ghost use Rattle.occ_types.specs.contracts.types.Protocol as protocols;
    ghost use Rattle.occ_scope.specs.declared.meaning.Meaning.{Meaning};
    ghost use Rattle.occ_scope.specs.inside.Alike.{IsAlike};
    ghost use Rattle.std.specs.Coded.{codes};
    ghost use Rattle.std.specs.Prelude.{List};

    ghost Value = { List Meaning };

    ghost coded = { Prim.hlevel (codes, types.the_row.coded, protocols.the_row.coded) };

    ghost view = { λ a. a.meanings };

    ghost invariant = { IsAlike };
}

/// The one that this one points to: itself, if nothing is noted of it.
fn pointed_to(alike: &Items<SpecId>, place: SpecId) -> SpecId
    ensures { (slice_get alike.now place ≡ Some result) ⊎ (result ≡ place) }
{
    match alike.get(place) {
        Some(other) => *other,
        None => place,
    }
}

/// The type of a formal of a function, or of a result after them.
#[tactic(auto, using(crate::proofs::Alike::formal_in, crate::proofs::Alike::result_in))]
fn in_function<'a>(
    formals: &'a Items<Formal>,
    results: &'a Items<Shared<OccType>>,
    place: usize,
) -> Option<&'a OccType>
    ensures { MatchOption result (slice_get (formal_types formals.now ++ results.now) place ≡ None) (λ of. slice_get (formal_types formals.now ++ results.now) place ≡ Some of.now) }
{
    match formals.get(place) {
        Some(formal) => Some(formal.of.get()),
        None => Some(results.get(place - formals.len())?.get()),
    }
}

impl Meanings {
    /// No specification stands for anything.
    pub(crate) fn new(alloc: Global) -> Meanings
        ensures { result ≡ [] }
    {
        Meanings {
            meanings: Items::new(alloc),
            alike: Items::new(alloc),
        }
    }

    /// How many there are.
    pub(crate) fn len(&self) -> usize
        ensures { result ≡ length self.now }
    {
        self.meanings.len()
    }

    /// What the specification of this number stands for.
    pub(crate) fn get(&self, place: SpecId) -> Option<&Shared<Meaning>>
        ensures { option_copied result ≡ slice_get self.now place }
    {
        self.meanings.get(place)
    }

    /// One more. Where memory is refused nothing changes.
    pub(crate) fn push(&mut self, meaning: Shared<Meaning>) -> Result<(), AllocError>
        ensures ok { OnOk result (self.new ≡ self.old ++ meaning ∷ []) }
        ensures err { OnErr result (self.new ≡ self.old) }
    {
        self.meanings.push(meaning)?;
        Ok(())
    }

    /// Without the last, if there is one.
    pub(crate) fn pop(&mut self)
        ensures { self.new ≡ take (length self.old - 1) self.old }
    {
        self.meanings.pop();
        if self.alike.len() > self.meanings.len() {
            self.alike.pop();
        }
    }

    /// The type of the element that the specification of this number names.
    pub(crate) fn type_at(&self, place: SpecId) -> Option<&OccType>
        ensures { MatchOption result (spec_type_at self.now place ≡ None) (λ of. spec_type_at self.now place ≡ Some of.now) }
    {
        match self.meanings.get(place)?.get() {
            Meaning::Element(whole) => Some(whole.of.get()),
            _ => None,
        }
    }

    /// The type of a formal of the procedure or the function that the specification of this number names. The results of a
    /// function stand after its formals. A data type is itself at each place.
    pub(crate) fn formal_at(&self, place: SpecId, formal: usize) -> Option<&OccType>
        ensures { MatchOption result (spec_formal_at self.now place formal ≡ None) (λ of. spec_formal_at self.now place formal ≡ Some of.now) }
    {
        match self.meanings.get(place)?.get() {
            Meaning::Type(Some(of)) => Some(of.of().get()),
            Meaning::Procedure(formals) => Some(formals.get().get(formal)?.of.get()),
            Meaning::Function(formals, results) => { in_function(formals.get(), results, formal) }
            _ => None,
        }
    }

    /// The first of those that are known to be of the type of this one. On the way to it each is made to point further.
    fn first_alike(&mut self, from: SpecId) -> SpecId
        ensures meanings { self.new ≡ self.old }
        ensures kind { spec_type_at self.old result ≡ spec_type_at self.old from }
    {
        let mut place = from;
        while let Some(next) = self.alike.get(place) {
            let next = *next;
            if next == place {
                return place;
            }
            let further = pointed_to(&self.alike, next);
            self.alike.set(place, further);
            place = further;
        }
        place
    }

    /// The first of those that are known to be of the type of this one, where nothing changes.
    fn root_of(&self, from: SpecId) -> SpecId
        ensures { spec_type_at self.now result ≡ spec_type_at self.now from }
    {
        let mut place = from;
        while let Some(next) = self.alike.get(place) {
            if *next == place {
                return place;
            }
            place = *next;
        }
        place
    }

    /// Whether two specifications are known to name elements of one type.
    pub(crate) fn are_known_alike(&self, a: SpecId, b: SpecId) -> bool
        ensures { IsTrue result → spec_type_at self.now a ≡ spec_type_at self.now b }
    {
        a == b || self.root_of(a) == self.root_of(b)
    }

    /// There is one each for this one and those before it.
    fn reach(&mut self, place: SpecId) -> Result<(), AllocError>
        ensures { self.new ≡ self.old }
    {
        while self.alike.len() <= place && self.alike.len() < self.meanings.len() {
            let itself = self.alike.len();
            self.alike.push(itself)?;
        }
        Ok(())
    }

    /// It is remembered that one is of the type of another before it.
    fn remember(&mut self, first: SpecId, second: SpecId) -> Result<(), AllocError>
        requires order { first ≤ second }
        requires same { spec_type_at self.old first ≡ spec_type_at self.old second }
        ensures { self.new ≡ self.old }
    {
        self.reach(second)?;
        if second < self.alike.len() {
            self.alike.set(second, first);
        }
        Ok(())
    }

    /// Whether two specifications name elements of one type, which is asked of no two types twice.
    pub(crate) fn are_of_one_type(&mut self, a: SpecId, b: SpecId) -> Result<bool, AllocError>
        ensures meanings { self.new ≡ self.old }
        ensures same { IfOk result (λ same. IsTrue same → spec_type_at self.old a ≡ spec_type_at self.old b) }
    {
        let (first, second) = (self.first_alike(a), self.first_alike(b));
        if first == second {
            return Ok(true);
        }
        let (Some(of), Some(other)) = (self.type_at(first), self.type_at(second)) else {
            return Ok(false);
        };
        if !same_type(of, other) {
            return Ok(false);
        }
        if first < second {
            self.remember(first, second)?;
        } else {
            self.remember(second, first)?;
        }
        Ok(true)
    }
}
