//! What the specifications in scope stand for, and which formals are known to be of the type of an element, and which results of
//! functions, which stand after the formals there. So a formal of a wide type is compared at the first call alone.
#![tactic(auto, using(crate::proofs::Taken::none_noted))]

ghost use Rattle.std.specs.Prelude.{◌≡◌, ◌<◌, ◌≤◌, ◌++◌, ◌-◌, ◌∷◌, [], IfOk, IfSome, IsTrue, OnErr, OnOk, length, take, ℕ};
ghost use Rattle.std.specs.Option.{option_copied};
ghost use Rattle.std.specs.List.{slice_get};
ghost use Rattle.occ_scope.specs.Elements.{formal_at as spec_formal_at, type_at};

use super::meaning::Meaning;
use super::meanings::Meanings;
use super::scopes::SpecId;
use occ_base::Shared;
use occ_types::{OccType, same_type};
use std::alloc::{AllocError, Global};
use std::marker::Model;

/// So many formals are remembered at most.
const MOST: usize = 128;

/// A formal of a procedure or a function in scope, or a result of the function, and an element in scope of the same type.
#[derive(Clone, Copy)]
pub(crate) struct Taken {
    procedure: SpecId,
    formal: usize,
    actual: SpecId,
}

/// What the specifications in scope stand for: in contracts the list of that.
#[derive(Drop)]
pub(crate) struct Taking {
    meanings: Meanings,
    taken: Vec<Taken>,
    /// All that are remembered are of specifications before this place.
    bound: SpecId,
}

impl Model for Taking {
    ghost use Rattle.occ_types.specs.contracts.types.OccType as types;
    ghost use Rattle.occ_types.specs.contracts.types.Protocol as protocols;
    ghost use Rattle.occ_scope.specs.declared.meaning.Meaning.{Meaning};
    ghost use Rattle.occ_scope.specs.inside.Taking.{IsTaking};
    ghost use Rattle.std.specs.Coded.{codes};
    ghost use Rattle.std.specs.Prelude.{List};

    ghost Value = { List Meaning };

    ghost coded = { Prim.hlevel (codes, types.the_row.coded, protocols.the_row.coded) };

    ghost view = { λ a. a.meanings };

    ghost invariant = { IsTaking };
}

/// The greater of two places.
fn later(one: SpecId, other: SpecId) -> SpecId
    ensures least { (one ≤ result) × (other ≤ result) }
    ensures most { (bound : ℕ) → one < bound → other < bound → result < bound }
{
    if one < other { other } else { one }
}

impl Taking {
    /// No specification stands for anything.
    pub(crate) fn new(alloc: Global) -> Taking
        ensures { result ≡ [] }
    {
        Taking {
            meanings: Meanings::new(alloc),
            taken: Vec::new(alloc),
            bound: 0,
        }
    }

    /// How many there are.
    pub(crate) fn len(&self) -> usize
        ensures { result ≡ length self.now }
    {
        self.meanings.len()
    }

    /// What the specification of this number stands for.
    pub(crate) fn get(&self, place: SpecId) -> Option<&Shared<Meaning>>
        ensures { option_copied result ≡ slice_get self.now place }
    {
        self.meanings.get(place)
    }

    /// One more. Where memory is refused nothing changes.
    pub(crate) fn push(&mut self, meaning: Shared<Meaning>) -> Result<(), AllocError>
        ensures ok { OnOk result (self.new ≡ self.old ++ meaning ∷ []) }
        ensures err { OnErr result (self.new ≡ self.old) }
    {
        self.meanings.push(meaning)?;
        Ok(())
    }

    /// Without the last, if there is one.
    pub(crate) fn pop(&mut self)
        ensures { self.new ≡ take (length self.old - 1) self.old }
    {
        self.meanings.pop();
        if self.bound > self.meanings.len() {
            self.taken.clear();
            self.bound = 0;
        }
    }

    /// Whether two specifications name elements of one type, which is asked of no two types twice.
    pub(crate) fn are_of_one_type(&mut self, a: SpecId, b: SpecId) -> Result<bool, AllocError>
        ensures meanings { self.new ≡ self.old }
        ensures same { IfOk result (λ same. IsTrue same → type_at self.old a ≡ type_at self.old b) }
    {
        self.meanings.are_of_one_type(a, b)
    }

    /// The element that is remembered for a formal.
    fn taken_by(&self, procedure: SpecId, formal: usize) -> Option<SpecId>
        ensures { IfSome result (λ actual. spec_formal_at self.now procedure formal ≡ type_at self.now actual) }
    {
        for one in &self.taken {
            if one.formal == formal && one.procedure == procedure {
                return Some(one.actual);
            }
        }
        None
    }

    /// There is room for one more: where there are too many none is remembered.
    fn make_room(&mut self)
        ensures { self.new ≡ self.old }
    {
        if self.taken.len() >= MOST {
            self.taken.clear();
        }
    }

    /// It is remembered that a formal is of the type of an element.
    fn note(&mut self, one: Taken) -> Result<(), AllocError>
        requires { spec_formal_at self.old one.procedure one.formal ≡ type_at self.old one.actual }
        ensures { self.new ≡ self.old }
    {
        self.make_room();
        let place = later(one.procedure, one.actual);
        if place >= self.meanings.len() {
            return Ok(());
        }
        self.bound = later(self.bound, place + 1);
        self.taken.push(one)?;
        Ok(())
    }

    /// Whether the types are the same of a formal of the specification of one number and of the element of another. It is
    /// remembered if they are.
    fn is_found_to_take(&mut self, one: Taken) -> Result<bool, AllocError>
        ensures meanings { self.new ≡ self.old }
        ensures same { IfOk result (λ same. IsTrue same → spec_formal_at self.old one.procedure one.formal ≡ type_at self.old one.actual) }
    {
        let of = self.meanings.formal_at(one.procedure, one.formal);
        let other = self.meanings.type_at(one.actual);
        let (Some(of), Some(other)) = (of, other) else {
            return Ok(false);
        };
        if !same_type(of, other) {
            return Ok(false);
        }
        self.note(one)?;
        Ok(true)
    }

    /// The same, where what is remembered answers it if it can.
    pub(crate) fn takes(
        &mut self,
        procedure: SpecId,
        formal: usize,
        actual: SpecId,
    ) -> Result<bool, AllocError>
        ensures meanings { self.new ≡ self.old }
        ensures same { IfOk result (λ same. IsTrue same → spec_formal_at self.old procedure formal ≡ type_at self.old actual) }
    {
        if let Some(before) = self.taken_by(procedure, formal) {
            return self.are_of_one_type(before, actual);
        }
        self.is_found_to_take(Taken {
            procedure,
            formal,
            actual,
        })
    }

    /// Whether it is known that a formal is of the type of an element.
    pub(crate) fn is_known_to_take(&self, procedure: SpecId, formal: usize, actual: SpecId) -> bool
        ensures { IsTrue result → spec_formal_at self.now procedure formal ≡ type_at self.now actual }
    {
        match self.taken_by(procedure, formal) {
            Some(before) => self.meanings.are_known_alike(before, actual),
            None => false,
        }
    }

    /// Whether it is known that a formal is of the type of a result, or of another formal.
    pub(crate) fn is_known_to_pass(
        &self,
        giver: SpecId,
        result_place: usize,
        taker: SpecId,
        formal: usize,
    ) -> bool
        ensures { IsTrue result → spec_formal_at self.now giver result_place ≡ spec_formal_at self.now taker formal }
    {
        match (
            self.taken_by(giver, result_place),
            self.taken_by(taker, formal),
        ) {
            (Some(one), Some(other)) => self.meanings.are_known_alike(one, other),
            _ => false,
        }
    }

    /// A result is compared with the element that is remembered for a formal, or the other way round.
    pub(crate) fn pass(
        &mut self,
        giver: SpecId,
        result_place: usize,
        taker: SpecId,
        formal: usize,
    ) -> Result<(), AllocError>
        ensures { self.new ≡ self.old }
    {
        if let Some(before) = self.taken_by(taker, formal) {
            self.takes(giver, result_place, before)?;
            return Ok(());
        }
        if let Some(before) = self.taken_by(giver, result_place) {
            self.takes(taker, formal, before)?;
        }
        Ok(())
    }
}
