//! The abbreviations by whose names a part is reached. Most parts are reached by none or by one, which lies in place. Of a long
//! chain the beginning is shared: a chain of abbreviations, each made from the one before, takes no square of memory.
ghost use Rattle.std.specs.List.{filter, list_any};
ghost use Rattle.std.specs.Prelude.{◌≡◌, ◌==◌, ◌++◌, ◌∷◌, ◌-◌, [], IfOk, IsTrue, OnOk, length, nat_lt, slice_get, unwrap_or, ℕ};
ghost use Rattle.occ_usage_parts.specs.inside.Chains.{numbers_in, shared_in};
ghost use Rattle.std.specs.Str.{bytes_eq};

use occ_base::{Items, Shared};
use std::alloc::{AllocError, Global};
use std::marker::Model;

/// How many numbers a chain holds alone before they are shared.
const OWN: usize = 128;

/// The numbers of a chain: those that others may have too, and those after them.
#[derive(Drop)]
struct Links {
    shared: Option<Shared<Items<usize>>>,
    own: Items<usize>,
}

/// What is held of a chain. One number alone lies in place.
#[derive(Drop)]
enum Held {
    Nothing,
    One([usize; 1]),
    Linked(Shared<Links>),
}

/// The abbreviations by whose names a part is reached, by the numbers of their specifications: in contracts their list. Most
/// are reached by none or by one: then it takes no memory beside it. Longer chains are shared by all uses by one name.
#[derive(Drop)]
pub struct Chain {
    held: Held,
}

impl Model for Chain {
    ghost use Rattle.std.specs.Coded.{coded_list, coded_ℕ};
    ghost use Rattle.std.specs.Prelude.{List, ℕ};
    ghost use Rattle.occ_usage_parts.specs.inside.Chains.{numbers_of};

    ghost Value = { List ℕ };

    ghost coded = { coded_list coded_ℕ };

    ghost view = { λ chain. numbers_of chain.held };
}

/// Whether the number is one of these.
fn is_among(numbers: &[usize], number: usize) -> bool
    ensures { result ≡ list_any (λ (k : ℕ). k == number) numbers.now }
{
    numbers.iter().any(|other| *other == number)
}

/// Adds those of the numbers that are below another.
fn add_below(numbers: &[usize], bound: usize, found: &mut Items<usize>) -> Result<(), AllocError>
    ensures { OnOk result (found.new ≡ found.old ++ filter (λ (k : ℕ). nat_lt k bound) numbers.now) }
{
    for number in numbers {
        if *number < bound {
            found.push(*number)?;
        }
    }
    Ok(())
}

/// What stands at an index of two lists, one after the other.
fn at(first: &[usize], second: &[usize], index: usize) -> Option<usize>
    ensures { result ≡ slice_get (first.now ++ second.now) index }
{
    match first.get(index) {
        Some(number) => Some(*number),
        None => second.get(index - first.len()).copied(),
    }
}

/// The numbers of links: those that are shared, and those after them.
fn parts_of(links: &Links) -> (&[usize], &[usize])
    ensures { result.0.now ++ result.1.now ≡ numbers_in links.now }
{
    match &links.shared {
        Some(shared) => (shared.get().as_slice(), links.own.as_slice()),
        None => (&[], links.own.as_slice()),
    }
}

impl Chain {
    /// No abbreviation.
    pub fn none() -> Chain
        ensures { result ≡ [] }
    {
        Chain {
            held: Held::Nothing,
        }
    }

    /// One abbreviation.
    fn one(number: usize) -> Chain
        ensures { result ≡ number ∷ [] }
    {
        Chain {
            held: Held::One([number]),
        }
    }

    /// Whether there is none.
    #[inline(always)]
    fn is_none(&self) -> bool
        ensures { IsTrue result → self.now ≡ [] }
    {
        matches!(self.held, Held::Nothing)
    }

    /// Those of these numbers, some of which may be shared.
    fn over(
        alloc: Global,
        shared: Option<Shared<Items<usize>>>,
        own: Items<usize>,
    ) -> Result<Chain, AllocError>
        ensures { IfOk result (λ chain. chain ≡ shared_in shared ++ own) }
    {
        Ok(Chain {
            held: Held::Linked(Shared::new(alloc, Links { shared, own })?),
        })
    }

    /// Those of these numbers.
    fn of(alloc: Global, numbers: Items<usize>) -> Result<Chain, AllocError>
        ensures { IfOk result (λ chain. chain ≡ numbers) }
    {
        match numbers.as_slice() {
            [] => Ok(Chain::none()),
            [number] => Ok(Chain::one(*number)),
            _ => Chain::over(alloc, None, numbers),
        }
    }

    /// Their numbers: those that are shared, and those after them.
    fn parts(&self) -> (&[usize], &[usize])
        ensures { result.0.now ++ result.1.now ≡ self.now }
    {
        match &self.held {
            Held::Nothing => (&[], &[]),
            Held::One(number) => (&[], number),
            Held::Linked(links) => parts_of(links.get()),
        }
    }

    /// The same.
    #[inline(always)]
    pub fn share(&self) -> Result<Chain, AllocError>
        ensures { IfOk result (λ chain. chain ≡ self.now) }
    {
        match &self.held {
            Held::Nothing => Ok(Chain::none()),
            Held::One([number]) => Ok(Chain::one(*number)),
            Held::Linked(links) => Ok(Chain {
                held: Held::Linked(links.share()?),
            }),
        }
    }

    /// All numbers in one list.
    fn joined(&self, alloc: Global) -> Result<Items<usize>, AllocError>
        ensures { IfOk result (λ all. all ≡ self.now) }
    {
        let (shared, own) = self.parts();
        let mut all = Items::from_slice(alloc, shared)?;
        all.append(Items::from_slice(alloc, own)?)?;
        Ok(all)
    }

    /// The same with one more abbreviation at the end.
    pub fn followed(&self, alloc: Global, number: usize) -> Result<Chain, AllocError>
        ensures { IfOk result (λ chain. chain ≡ self.now ++ number ∷ []) }
    {
        match &self.held {
            Held::Nothing => Ok(Chain::one(number)),
            Held::One([first]) => {
                Chain::over(alloc, None, Items::from_slice(alloc, &[*first, number])?)
            }
            Held::Linked(links) => self.links_followed(alloc, links.get(), number),
        }
    }

    /// The same with one more abbreviation at the end, where it has these links.
    fn links_followed(
        &self,
        alloc: Global,
        links: &Links,
        number: usize,
    ) -> Result<Chain, AllocError>
        requires { numbers_in links.now ≡ self.now }
        ensures { IfOk result (λ chain. chain ≡ self.now ++ number ∷ []) }
    {
        if links.own.len() >= OWN {
            let all = Shared::new(alloc, self.joined(alloc)?)?;
            return Chain::over(alloc, Some(all), Items::from_slice(alloc, &[number])?);
        }
        let mut own = Items::from_slice(alloc, links.own.as_slice())?;
        own.push(number)?;
        let shared = match &links.shared {
            Some(shared) => Some(shared.share()?),
            None => None,
        };
        Chain::over(alloc, shared, own)
    }

    /// Whether the abbreviation with this number is one of them.
    pub fn has(&self, number: usize) -> bool
        ensures { result ≡ list_any (λ (k : ℕ). k == number) self.now }
    {
        let (shared, own) = self.parts();
        is_among(shared, number) || is_among(own, number)
    }

    /// Those with a number below another.
    #[inline(always)]
    pub fn below(&self, alloc: Global, bound: usize) -> Result<Chain, AllocError>
        ensures { IfOk result (λ chain. chain ≡ filter (λ (k : ℕ). nat_lt k bound) self.now) }
    {
        if self.is_none() {
            return Ok(Chain::none());
        }
        self.some_below(alloc, bound)
    }

    /// The same, number by number.
    fn some_below(&self, alloc: Global, bound: usize) -> Result<Chain, AllocError>
        ensures { IfOk result (λ chain. chain ≡ filter (λ (k : ℕ). nat_lt k bound) self.now) }
    {
        let (shared, own) = self.parts();
        let mut found = Items::new(alloc);
        add_below(shared, bound, &mut found)?;
        add_below(own, bound, &mut found)?;
        Chain::of(alloc, found)
    }

    /// How many they are.
    fn len(&self) -> usize
        ensures { result ≡ length self.now }
    {
        let (shared, own) = self.parts();
        shared.len() + own.len()
    }

    /// The last of the numbers, or 0 where there is none.
    #[inline(always)]
    pub fn last(&self) -> usize
        ensures { result ≡ unwrap_or (slice_get self.now (length self.now - 1)) 0 }
    {
        if self.is_none() {
            return 0;
        }
        self.last_of_some()
    }

    /// The same, where there may be many.
    fn last_of_some(&self) -> usize
        ensures { result ≡ unwrap_or (slice_get self.now (length self.now - 1)) 0 }
    {
        let (shared, own) = self.parts();
        match at(shared, own, self.len().saturating_sub(1)) {
            Some(number) => number,
            None => 0,
        }
    }

    /// Whether two chains have the same numbers, in the same order.
    #[inline(always)]
    pub fn is_same(&self, other: &Chain) -> bool
        ensures { result ≡ bytes_eq self.now other.now }
    {
        if self.is_none() && other.is_none() {
            return true;
        }
        self.has_same_numbers(other)
    }

    /// The same, number by number.
    fn has_same_numbers(&self, other: &Chain) -> bool
        ensures { result ≡ bytes_eq self.now other.now }
    {
        let count = self.len();
        if count != other.len() {
            return false;
        }
        let (shared, own) = self.parts();
        let (others_shared, others_own) = other.parts();
        for index in 0..count {
            if at(shared, own, index) != at(others_shared, others_own, index) {
                return false;
            }
        }
        true
    }
}
