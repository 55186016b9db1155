//! What is selected of a root, step by step: fields, subscripts, segments, and what is after RETYPES.
ghost use Rattle.std.specs.Prelude.{◌≡◌, IfOk, OnOk, ◌++◌, ◌∷◌};
ghost use Rattle.occ_usage_parts.specs.Selecting.{first_inside, followed as spec_followed, followed_by as spec_followed_by, named as spec_named, part_of, retyped as spec_retyped, segment_ending, selectors_of, whole as spec_whole, with_field as spec_with_field, with_segment as spec_with_segment, with_subscript as spec_with_subscript};

use super::chain::Chain;
use super::interval::{following, inside, segment, subscript};
use super::part::Part;
use super::selectors::{Selectors, add_copies, copies};
use occ_base::{Items, Name};
use occ_types::{Interval, PartSelector};
use std::alloc::{AllocError, Global};

/// What is selected from a variable, a channel or a formal, to be selected from further.
#[derive(Drop)]
pub struct SelectedPart {
    /// What it is selected from: the number of its specification.
    pub root: usize,
    /// The abbreviations by whose names it is reached, by the numbers of their specifications, in order.
    pub chain: Chain,
    /// The selectors, without an ending segment.
    pub selectors: Items<PartSelector>,
    pub ending: Ending,
}

/// What is selected from a place.
#[derive(Clone, Copy)]
pub enum Ending {
    /// What one more selector leads to.
    Plain,
    /// What lies in this last segment, which begins here, if that is known.
    Segment(Interval, Option<i64>),
    /// All of it, under a name that RETYPES or RESHAPES gives it.
    Whole,
}

impl SelectedPart {
    /// The whole of a variable, a channel or a formal.
    pub fn whole(alloc: Global, root: usize) -> SelectedPart
        ensures { result ≡ spec_whole root }
    {
        SelectedPart {
            root,
            chain: Chain::none(),
            selectors: Items::new(alloc),
            ending: Ending::Plain,
        }
    }

    /// The same, with room for so many selectors.
    pub fn with_room(alloc: Global, root: usize, room: usize) -> Result<SelectedPart, AllocError>
        ensures { IfOk result (λ place. place ≡ spec_whole root) }
    {
        Ok(SelectedPart {
            root,
            chain: Chain::none(),
            selectors: Items::from_vec(Vec::with_capacity(alloc, room)?),
            ending: Ending::Plain,
        })
    }

    /// From now on it is the field of that name.
    pub fn select_field(&mut self, name: Name) -> Result<(), AllocError>
        ensures { OnOk result (self.new ≡ spec_with_field self.old name) }
    {
        match self.ending {
            Ending::Plain => self.selectors.push(PartSelector::Field(name)),
            Ending::Segment(interval, _) => {
                self.selectors.push(PartSelector::Interval(interval))?;
                self.selectors.push(PartSelector::Field(name))?;
                self.ending = Ending::Plain;
                Ok(())
            }
            Ending::Whole => Ok(()),
        }
    }

    /// From now on it is the component at a place, which is given if it is known.
    pub fn select_subscript(&mut self, at: Option<i32>) -> Result<(), AllocError>
        ensures { OnOk result (self.new ≡ spec_with_subscript self.old at) }
    {
        let interval = subscript(at);
        match self.ending {
            Ending::Plain => self.selectors.push(PartSelector::Interval(interval)),
            Ending::Segment(outer, base) => {
                let interval = inside(outer, base, interval);
                self.selectors.push(PartSelector::Interval(interval))?;
                self.ending = Ending::Plain;
                Ok(())
            }
            Ending::Whole => Ok(()),
        }
    }

    /// From now on it is the segment of a base and a count, which are given if they are known.
    pub fn select_segment(&mut self, base: Option<i32>, count: Option<i64>)
        ensures { self.new ≡ spec_with_segment self.old base count }
    {
        self.ending = ending_with(self.ending, base, segment(base, count));
    }

    /// The same under a name that RETYPES or RESHAPES gives it.
    pub fn retyped(mut self) -> Result<SelectedPart, AllocError>
        ensures { IfOk result (λ place. place ≡ spec_retyped self) }
    {
        end(&mut self.selectors, self.ending)?;
        self.ending = Ending::Whole;
        Ok(self)
    }

    /// The same under the name of an abbreviation, by the number of its specification.
    pub fn named(self, alloc: Global, number: usize) -> Result<SelectedPart, AllocError>
        ensures { IfOk result (λ place. place ≡ spec_named self number) }
    {
        let SelectedPart {
            root,
            chain,
            selectors,
            ending,
        } = self;
        Ok(SelectedPart {
            root,
            chain: chain.followed(alloc, number)?,
            selectors,
            ending,
        })
    }

    /// The part that it is.
    #[inline(always)]
    pub fn into_part(mut self) -> Result<Part, AllocError>
        ensures { IfOk result (λ part. part ≡ part_of self) }
    {
        end(&mut self.selectors, self.ending)?;
        Ok(Part {
            root: self.root,
            selectors: Selectors::of_items(self.selectors),
        })
    }

    /// The part of which a body says that it is this part of its formal, where this place is the actual.
    pub fn followed_by(&self, alloc: Global, selectors: &[PartSelector]) -> Result<Part, AllocError>
        ensures { IfOk result (λ part. part ≡ spec_followed_by self.now selectors.now) }
    {
        let selectors = match (self.selectors.as_slice(), self.ending) {
            ([], Ending::Plain) => Selectors::of(alloc, selectors)?,
            (before, ending) => Selectors::listed(followed(alloc, before, ending, selectors)?),
        };
        Ok(Part {
            root: self.root,
            selectors,
        })
    }

    /// A copy.
    pub fn copied(&self, alloc: Global) -> Result<SelectedPart, AllocError>
        ensures { IfOk result (λ place. place ≡ self.now) }
    {
        Ok(SelectedPart {
            root: self.root,
            chain: self.chain.share()?,
            selectors: copies(alloc, self.selectors.as_slice())?,
            ending: self.ending,
        })
    }
}

/// The ending after a segment of this base and interval.
fn ending_with(ending: Ending, base: Option<i32>, interval: Interval) -> Ending
    ensures { result ≡ segment_ending ending base interval }
{
    match ending {
        Ending::Plain => match base {
            Some(base) => Ending::Segment(interval, Some(i64::from(base))),
            None => Ending::Segment(interval, None),
        },
        Ending::Segment(outer, at) => Ending::Segment(
            inside(outer, at, interval),
            following(at, base),
        ),
        Ending::Whole => Ending::Whole,
    }
}

/// Selectors with an ending, and behind them those of a part of what they lead to.
fn followed(
    alloc: Global,
    before: &[PartSelector],
    ending: Ending,
    selectors: &[PartSelector],
) -> Result<Items<PartSelector>, AllocError>
    ensures { IfOk result (λ all. all ≡ spec_followed before.now ending selectors.now) }
{
    let room = before
        .len()
        .saturating_add(selectors.len())
        .saturating_add(1);
    let mut all = Items::from_vec(Vec::with_capacity(alloc, room)?);
    add_copies(alloc, before, &mut all)?;
    match ending {
        Ending::Plain => add_copies(alloc, selectors, &mut all)?,
        Ending::Segment(outer, base) => add_inside(alloc, outer, base, selectors, &mut all)?,
        Ending::Whole => {}
    }
    Ok(all)
}

/// Adds the interval of an ending segment.
fn end(selectors: &mut Items<PartSelector>, ending: Ending) -> Result<(), AllocError>
    ensures { OnOk result (selectors.new ≡ selectors_of selectors.old ending) }
{
    match ending {
        Ending::Segment(interval, _) => selectors.push(PartSelector::Interval(interval)),
        _ => Ok(()),
    }
}

/// Adds the selectors that follow a segment: the first, if it is an interval, is one of the segment.
fn add_inside(
    alloc: Global,
    outer: Interval,
    base: Option<i64>,
    selectors: &[PartSelector],
    all: &mut Items<PartSelector>,
) -> Result<(), AllocError>
    ensures { OnOk result (all.new ≡ all.old ++ first_inside outer base selectors.now) }
{
    match selectors {
        [PartSelector::Interval(interval), rest @ ..] => {
            all.push(PartSelector::Interval(inside(outer, base, *interval)))?;
            add_copies(alloc, rest, all)
        }
        _ => {
            all.push(PartSelector::Interval(outer))?;
            add_copies(alloc, selectors, all)
        }
    }
}
