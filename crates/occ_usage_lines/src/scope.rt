//! The specifications in scope, outermost first, and in lists by parts which of them concern uses. Notes may be too many,
//! never too few.
ghost use Rattle.std.specs.List.{list_any};
ghost use Rattle.std.specs.List.Sorted.{IsStrictlySortedBy};
ghost use Rattle.std.specs.Ordering.{nat_cmp};
ghost use Rattle.std.specs.Prelude.{[], length, take, true, IfOk, OnOk, slice_get, ℕ, ◌<◌, ◌≤◌, ◌≡◌, ◌++◌, ◌-◌, ◌∷◌, ◌||◌};
ghost use Rattle.occ_usage_values.specs.declared.uses.Use.{Use as AUse};
ghost use Rattle.occ_usage_lines.specs.Concern.{concerned as spec_concerned, concerns as spec_concerns, is_near as spec_is_near, is_some as spec_is_some, some_near as spec_some_near};
ghost use Rattle.occ_usage_lines.specs.inside.Noting.{concerns_one as spec_concerns_one, is_asked, is_chosen, is_found, is_in};

use super::noting::{asked, note_bound, strike_bound};
use occ_base::Items;
use occ_usage_parts::{Overlap, Part, SelectedPart, overlap, overlap_selected};
use occ_usage_values::{Bound, Use, is_write};
use std::alloc::{AllocError, Global};
use std::marker::Model;

/// The specifications in scope, the outermost first: in contracts their list.
#[derive(Drop)]
pub struct UsageScope {
    bounds: Items<Bound>,
    /// The numbers of those that are names for a part, and perhaps others, in the lists of the part.
    named: Vec<Items<usize>>,
    /// The numbers of those for which a part was read, and perhaps others, in the lists of the part.
    read: Vec<Items<usize>>,
}

impl Model for UsageScope {
    ghost use Rattle.std.specs.Prelude.{List};
    ghost use Rattle.occ_usage_values.specs.declared.bound.Bound.{Bound};
    ghost use Rattle.occ_usage_lines.specs.inside.Noting.{IsIndexed};

    ghost Value = { List Bound };

    ghost view = { λ s. s.bounds };

    ghost invariant = { IsIndexed };
}

impl UsageScope {
    /// Nothing is in scope.
    pub fn new(alloc: Global) -> UsageScope
        ensures { result ≡ [] }
    {
        UsageScope {
            bounds: Items::new(alloc),
            named: Vec::new(alloc),
            read: Vec::new(alloc),
        }
    }

    /// How many are in scope.
    pub fn len(&self) -> usize
        ensures { result ≡ length self.now }
    {
        self.bounds.len()
    }

    /// Those in scope.
    pub fn as_slice(&self) -> &[Bound]
        ensures { result.now ≡ self.now }
    {
        self.bounds.as_slice()
    }

    /// Those in scope, and nothing of what was noted.
    pub fn into_bounds(self) -> Items<Bound>
        ensures { result ≡ self }
    {
        let UsageScope { bounds, .. } = self;
        bounds
    }

    /// One more comes into scope.
    #[inline(always)]
    pub fn enter(&mut self, alloc: Global, bound: Bound) -> Result<(), AllocError>
        ensures { OnOk result (self.new ≡ self.old ++ bound ∷ []) }
    {
        let number = self.bounds.len();
        note_bound(alloc, &mut self.named, &mut self.read, &bound, number)?;
        self.bounds.push(bound)
    }

    /// Takes the last one out of scope.
    fn leave(&mut self)
        requires { 1 ≤ length self.old }
        ensures { self.new ≡ take (length self.old - 1) self.old }
    {
        let Some(last) = self.bounds.pop() else {
            return;
        };
        let depth = self.bounds.len();
        strike_bound(&mut self.named, &mut self.read, &last, depth);
    }

    /// Takes out of scope what came into it after so many.
    #[inline(always)]
    pub fn cut(&mut self, depth: usize)
        ensures { self.new ≡ take depth self.old }
    {
        while self.len() > depth {
            self.leave();
        }
    }

    /// The numbers of those that concern one of these uses.
    pub fn concerned(&self, alloc: Global, uses: &[Use]) -> Result<Items<usize>, AllocError>
        ensures { IfOk result (λ numbers. numbers ≡ spec_concerned 0 self.now uses.now) }
    {
        let named = self.named.as_slice();
        let read = self.read.as_slice();
        if named.is_empty() && read.is_empty() {
            return Ok(Items::new(alloc));
        }
        let mut numbers = found(alloc, self.bounds.as_slice(), named, read, uses)?;
        put_in_order(&mut numbers);
        Ok(Items::from_vec(numbers))
    }
}

/// Whether two parts with this overlap have something in common, perhaps.
fn is_some(found: Overlap) -> bool
    ensures { result ≡ spec_is_some found }
{
    match found {
        Overlap::Apart => false,
        Overlap::May => true,
        Overlap::Must => true,
    }
}

/// Whether a place is not apart from a part.
fn is_near(place: &Option<SelectedPart>, part: &Part) -> bool
    ensures { result ≡ spec_is_near part.now place.now }
{
    match place {
        Some(place) => is_some(overlap_selected(place, part)),
        None => false,
    }
}

/// Whether one of these uses is of a part that is not apart from this one.
fn some_near(uses: &[Use], part: &Part) -> bool
    ensures { result ≡ spec_some_near part.now uses.now }
{
    uses.iter().any(|found| is_some(overlap(part, &found.part)))
}

/// Whether a specification concerns a use.
fn concerns(bound: &Bound, found: &Use) -> bool
    ensures { result ≡ spec_concerns bound.now found.now }
{
    match bound {
        Bound::Abbreviation(place, _, reads) => {
            is_near(place, &found.part)
                || is_write(found.kind) && some_near(reads.as_slice(), &found.part)
        }
        Bound::Value(_, _, reads) => {
            is_write(found.kind) && some_near(reads.as_slice(), &found.part)
        }
        Bound::Root(_) => false,
        Bound::Body(_, _) => false,
        Bound::Other => false,
    }
}

/// Whether the specification with a number, if there is one, concerns a use.
#[inline(never)]
fn concerns_one(bounds: &[Bound], number: usize, found: &Use) -> bool
    ensures { result ≡ spec_concerns_one (slice_get bounds.now number) found.now }
{
    match bounds.get(number) {
        Some(bound) => concerns(bound, found),
        None => false,
    }
}

/// Adds those of the numbers that are those of specifications that concern a use.
#[tactic(auto, using(crate::proofs::Choosing::chosen_more, crate::proofs::Choosing::chosen_same))]
#[inline(always)]
fn add_chosen(
    bounds: &[Bound],
    noted: &[usize],
    found: &Use,
    numbers: &mut Vec<usize>,
) -> Result<(), AllocError>
    ensures { OnOk result ((n : ℕ) → is_in numbers.new.items n ≡ (is_in numbers.old.items n || is_chosen bounds.now found.now noted.now n)) }
{
    for number in noted {
        if concerns_one(bounds, *number, found) {
            numbers.push(*number)?;
        }
    }
    Ok(())
}

/// Adds the numbers of the specifications that concern a use and are in these lists.
#[inline(always)]
fn add_asked(
    bounds: &[Bound],
    lists: &[Items<usize>],
    found: &Use,
    numbers: &mut Vec<usize>,
) -> Result<(), AllocError>
    ensures { OnOk result ((n : ℕ) → is_in numbers.new.items n ≡ (is_in numbers.old.items n || is_asked bounds.now lists.now n found.now)) }
{
    if lists.is_empty() {
        return Ok(());
    }
    let (whole, other) = asked(lists, &found.part);
    add_chosen(bounds, whole, found, numbers)?;
    add_chosen(bounds, other, found, numbers)
}

/// Adds the numbers of the specifications that concern a use.
fn add_found(
    bounds: &[Bound],
    named: &[Items<usize>],
    read: &[Items<usize>],
    found: &Use,
    numbers: &mut Vec<usize>,
) -> Result<(), AllocError>
    ensures { OnOk result ((n : ℕ) → is_in numbers.new.items n ≡ (is_in numbers.old.items n || is_found bounds.now named.now read.now n found.now)) }
{
    add_asked(bounds, named, found, numbers)?;
    if !is_write(found.kind) {
        return Ok(());
    }
    add_asked(bounds, read, found, numbers)
}

/// The numbers of the specifications that concern one of these uses, in no order, some perhaps more than once.
fn found(
    alloc: Global,
    bounds: &[Bound],
    named: &[Items<usize>],
    read: &[Items<usize>],
    uses: &[Use],
) -> Result<Vec<usize>, AllocError>
    ensures { IfOk result (λ numbers. (n : ℕ) → is_in numbers.items n ≡ list_any (is_found bounds.now named.now read.now n) uses.now) }
{
    let mut numbers = Vec::new(alloc);
    for one in uses {
        add_found(bounds, named, read, one, &mut numbers)?;
    }
    Ok(numbers)
}

/// Puts numbers in order, each once.
fn put_in_order(numbers: &mut Vec<usize>)
    ensures same { (n : ℕ) → is_in numbers.new.items n ≡ is_in numbers.old.items n }
    ensures rising { IsStrictlySortedBy nat_cmp numbers.new.items }
{
    numbers.sort_unstable();
    numbers.dedup();
}
