//! The specifications in scope, each with its meaning. Names and meanings are two lists that grow and shrink together.
ghost use Rattle.std.specs.Prelude.{◌≡◌, IfOk, IsTrue, MatchOption, None, OnErr, OnOk, Some, length};
ghost use Rattle.occ_scope.specs.Visible.{back_to, entered, left, nothing, referent as spec_referent, visible, with_all};
ghost use Rattle.occ_scope.specs.Elements.{formal_of, type_of};

use super::meaning::{Meaning, Referent, ScopeEntry};
use super::scopes::Scopes;
use super::taking::Taking;
use occ_base::{Name, Shared};
use std::alloc::{AllocError, Global};

/// The specifications in scope at a place, each with what its name stands for: the last is the nearest.
#[derive(Drop)]
pub struct Scope {
    names: Scopes,
    meanings: Taking,
}

impl Scope {
    /// No specification at all.
    pub fn new(alloc: Global) -> Scope
        ensures { result ≡ nothing }
    {
        Scope {
            names: Scopes::new(alloc),
            meanings: Taking::new(alloc),
        }
    }

    /// What a name stands for: the nearest of its specifications.
    pub fn find(&self, name: &Name) -> Option<&Meaning>
        ensures { MatchOption result (visible self.now name.now ≡ None) (λ meaning. visible self.now name.now ≡ Some meaning.now) }
    {
        let place = self.names.find(name)?;
        let meaning = self.meanings.get(place)?;
        Some(meaning.get())
    }

    /// The nearest specification of a name, if there is one.
    pub fn referent(&self, name: &Name) -> Result<Option<Referent>, AllocError>
        ensures { IfOk result (λ found. found ≡ spec_referent self.now name.now) }
    {
        let Some(spec) = self.names.find(name) else {
            return Ok(None);
        };
        let Some(meaning) = self.meanings.get(spec) else {
            return Ok(None);
        };
        let meaning = meaning.share()?;
        Ok(Some(Referent { spec, meaning }))
    }

    /// A specification of this name comes into scope, with what it stands for, which others may share. Where memory is
    /// refused nothing changes.
    fn enter_shared(
        &mut self,
        alloc: Global,
        name: &Name,
        meaning: Shared<Meaning>,
    ) -> Result<(), AllocError>
        ensures ok { OnOk result (self.new ≡ entered self.old name.now meaning) }
        ensures err { OnErr result (self.new ≡ self.old) }
    {
        self.meanings.push(meaning)?;
        if let Err(refused) = self.names.enter(alloc, name) {
            self.meanings.pop();
            return Err(refused);
        }
        Ok(())
    }

    /// A specification of this name comes into scope. Where memory is refused nothing changes.
    pub fn enter(&mut self, alloc: Global, name: &Name, meaning: Meaning) -> Result<(), AllocError>
        ensures ok { OnOk result (self.new ≡ entered self.old name.now meaning) }
        ensures err { OnErr result (self.new ≡ self.old) }
    {
        let meaning = Shared::new(alloc, meaning)?;
        self.enter_shared(alloc, name, meaning)
    }

    /// The specification that was entered last goes out of scope, if there is one.
    pub fn leave(&mut self)
        ensures { self.new ≡ left self.old }
    {
        self.names.leave();
        self.meanings.pop();
    }

    /// How many specifications are in scope.
    pub fn len(&self) -> usize
        ensures { result ≡ length self.now.meanings }
    {
        self.meanings.len()
    }

    /// Whether two names stand for elements that are known to be of one type, or are found to be.
    pub fn are_of_one_type(&mut self, a: &Name, b: &Name) -> Result<bool, AllocError>
        ensures scope { self.new ≡ self.old }
        ensures same { IfOk result (λ same. IsTrue same → type_of (visible self.old a.now) ≡ type_of (visible self.old b.now)) }
    {
        let (Some(a), Some(b)) = (self.names.find(a), self.names.find(b)) else {
            return Ok(false);
        };
        self.meanings.are_of_one_type(a, b)
    }

    /// Whether a formal of the procedure that one name stands for is known to be of the type of the element that another
    /// stands for, or is found to be.
    pub fn takes(
        &mut self,
        procedure: &Name,
        formal: usize,
        actual: &Name,
    ) -> Result<bool, AllocError>
        ensures scope { self.new ≡ self.old }
        ensures same { IfOk result (λ same. IsTrue same → formal_of (visible self.old procedure.now) formal ≡ type_of (visible self.old actual.now)) }
    {
        let (Some(procedure), Some(actual)) = (self.names.find(procedure), self.names.find(actual))
        else {
            return Ok(false);
        };
        self.meanings.takes(procedure, formal, actual)
    }

    /// Whether a formal of what one name stands for is known to be of the type of the element that another stands for.
    pub fn is_known_to_take(&self, procedure: &Name, formal: usize, actual: &Name) -> bool
        ensures { IsTrue result → formal_of (visible self.now procedure.now) formal ≡ type_of (visible self.now actual.now) }
    {
        let (Some(procedure), Some(actual)) = (self.names.find(procedure), self.names.find(actual))
        else {
            return false;
        };
        self.meanings.is_known_to_take(procedure, formal, actual)
    }

    /// Whether a result of the function that one name stands for is known to be of the type of a formal of what another
    /// stands for.
    pub fn is_known_to_pass(
        &self,
        giver: &Name,
        result_place: usize,
        taker: &Name,
        formal: usize,
    ) -> bool
        ensures { IsTrue result → formal_of (visible self.now giver.now) result_place ≡ formal_of (visible self.now taker.now) formal }
    {
        let (Some(giver), Some(taker)) = (self.names.find(giver), self.names.find(taker)) else {
            return false;
        };
        self.meanings
            .is_known_to_pass(giver, result_place, taker, formal)
    }

    /// A result of a function is compared with a formal, if something is remembered of either.
    pub fn pass(
        &mut self,
        giver: &Name,
        result_place: usize,
        taker: &Name,
        formal: usize,
    ) -> Result<(), AllocError>
        ensures { self.new ≡ self.old }
    {
        let (Some(giver), Some(taker)) = (self.names.find(giver), self.names.find(taker)) else {
            return Ok(());
        };
        self.meanings.pass(giver, result_place, taker, formal)
    }

    /// The same of an entry.
    fn enter_entry(&mut self, alloc: Global, entry: &ScopeEntry) -> Result<(), AllocError>
        ensures ok { OnOk result (self.new ≡ entered self.old entry.now.name entry.now.meaning) }
        ensures err { OnErr result (self.new ≡ self.old) }
    {
        let meaning = entry.meaning.share()?;
        self.enter_shared(alloc, &entry.name, meaning)
    }

    /// Specifications come into scope, one after the other. Where memory is refused nothing changes.
    #[tactic(auto, using(crate::proofs::Leaving::leaving_rules))]
    pub fn enter_all(&mut self, alloc: Global, entries: &[ScopeEntry]) -> Result<(), AllocError>
        ensures ok { OnOk result (self.new ≡ with_all self.old entries.now) }
        ensures err { OnErr result (self.new ≡ self.old) }
    {
        let count = self.len();
        for entry in entries {
            if let Err(refused) = self.enter_entry(alloc, entry) {
                self.leave_to(count);
                return Err(refused);
            }
        }
        Ok(())
    }

    /// Those that were entered last go out of scope, until so many are left.
    #[tactic(auto, using(crate::proofs::Leaving::leaving_rules))]
    pub fn leave_to(&mut self, count: usize)
        ensures { self.new ≡ back_to count self.old }
    {
        while self.meanings.len() > count {
            self.leave();
        }
    }
}
