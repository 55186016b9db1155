//! Whether two parts have an element in common: surely, perhaps, or not at all.
ghost use Rattle.std.specs.Prelude.{◌≡◌, IsTrue, false, slice_get, true};
ghost use Rattle.occ_usage_parts.specs.Keeping.{following};
ghost use Rattle.occ_usage_parts.specs.Places.{meet};
ghost use Rattle.occ_usage_parts.specs.Parts.{all_sure as spec_all_sure, are_apart as spec_are_apart, differ, has_empty, is_empty, is_sure, overlap_of, overlap_of_selectors as spec_overlap_of_selectors, some_differ};
ghost use Rattle.occ_usage_parts.specs.Selecting.{part_of};
ghost use Rattle.occ_usage_parts.specs.inside.Paths.{asked as spec_asked, asks, sure_beside};

use super::part::{Overlap, Part};
use super::place::{Ending, SelectedPart};
use super::places::{do_meet, do_runs_meet};
use occ_types::{Interval, Mark, PartSelector, Places};

/// What two parts have in common.
pub fn overlap(a: &Part, b: &Part) -> Overlap
    ensures { result ≡ overlap_of a.now b.now }
{
    if a.root != b.root {
        return Overlap::Apart;
    }
    overlap_of_selectors(a.selectors.as_slice(), b.selectors.as_slice())
}

/// What the part that is selected and another have in common, without making the part.
pub fn overlap_selected(selected: &SelectedPart, part: &Part) -> Overlap
    ensures { result ≡ overlap_of (part_of selected.now) part.now }
{
    if selected.root != part.root {
        return Overlap::Apart;
    }
    let front = selected.selectors.as_slice();
    let other = part.selectors.as_slice();
    match selected.ending {
        Ending::Segment(last, _) => overlap_following(front, last, other),
        Ending::Plain => overlap_of_selectors(front, other),
        Ending::Whole => overlap_of_selectors(front, other),
    }
}

/// Whether two sets of places are runs that do not meet.
#[inline(always)]
fn are_runs_apart(a: Places, b: Places) -> bool
    ensures { IsTrue result → meet a b ≡ false }
{
    match (a, b) {
        (Places::Run(a, n), Places::Run(b, m)) => !do_runs_meet(a, n, b, m),
        _ => false,
    }
}

/// Whether two parts of one root lie apart where they begin, as most do.
#[tactic(auto, using(crate::proofs::Fronts::first_apart))]
#[inline(always)]
fn begin_apart(a: &[PartSelector], b: &[PartSelector]) -> bool
    ensures { IsTrue result → spec_are_apart a.now b.now ≡ true }
{
    match (a.first(), b.first()) {
        (Some(PartSelector::Interval(a)), Some(PartSelector::Interval(b))) => {
            are_runs_apart(a.places, b.places)
        }
        (Some(PartSelector::Field(a)), Some(PartSelector::Field(b))) => a != b,
        _ => false,
    }
}

/// What two parts of one root have in common.
#[inline(always)]
fn overlap_of_selectors(a: &[PartSelector], b: &[PartSelector]) -> Overlap
    ensures { result ≡ spec_overlap_of_selectors a.now b.now }
{
    if begin_apart(a, b) || are_apart(a, b) {
        Overlap::Apart
    } else if all_sure(a, b) {
        Overlap::Must
    } else {
        Overlap::May
    }
}

/// What two parts of one root have in common, the first of which is a front and an interval.
fn overlap_following(front: &[PartSelector], last: Interval, other: &[PartSelector]) -> Overlap
    ensures { result ≡ spec_overlap_of_selectors (following front.now last) other.now }
{
    if is_apart(front, last, other) {
        Overlap::Apart
    } else if is_all_sure(front, last, other) {
        Overlap::Must
    } else {
        Overlap::May
    }
}

/// Whether a part that is a front and an interval, and another one have no element in common.
#[tactic(auto, using(crate::proofs::Fronts::front_apart))]
fn is_apart(front: &[PartSelector], last: Interval, other: &[PartSelector]) -> bool
    ensures { result ≡ spec_are_apart (following front.now last) other.now }
{
    let depth = front.len();
    !does_meet_asked(last, asked(other, depth)) || are_apart(front, other)
}

/// Whether at each common depth a part that is a front and an interval, and another one are sure.
#[tactic(auto, using(crate::proofs::Fronts::sure_after))]
fn is_all_sure(front: &[PartSelector], last: Interval, other: &[PartSelector]) -> bool
    ensures { result ≡ spec_all_sure (following front.now last) other.now }
{
    let depth = front.len();
    all_sure(front, other) && is_sure_beside(last, other, depth)
}

/// Whether a place of the interval is among those that are asked for, if any are.
fn does_meet_asked(interval: Interval, asked: Option<Places>) -> bool
    ensures { result ≡ asks interval asked }
{
    match asked {
        Some(places) => do_meet(interval.places, places),
        None => false,
    }
}

/// Whether an interval at a depth and the selector of a part there are sure, if it has one.
fn is_sure_beside(interval: Interval, part: &[PartSelector], depth: usize) -> bool
    ensures { result ≡ sure_beside interval (slice_get part.now depth) }
{
    match part.get(depth) {
        Some(other) => interval.mark == Mark::Sure && is_known(other),
        None => true,
    }
}

/// The places that a part asks for at a depth: all where it has ended.
pub(crate) fn asked(part: &[PartSelector], depth: usize) -> Option<Places>
    ensures { result ≡ spec_asked (slice_get part.now depth) }
{
    match part.get(depth) {
        Some(PartSelector::Interval(interval)) => Some(interval.places),
        Some(PartSelector::Field(_)) => None,
        None => Some(Places::All),
    }
}

/// Whether two parts of one root, reported by their selectors, have no element in common.
pub fn are_apart(a: &[PartSelector], b: &[PartSelector]) -> bool
    ensures { result ≡ spec_are_apart a.now b.now }
{
    somewhere_differ(a, b) || hold_nothing(a) || hold_nothing(b)
}

/// Whether one of the intervals is empty.
pub(crate) fn hold_nothing(selectors: &[PartSelector]) -> bool
    ensures { result ≡ has_empty selectors.now }
{
    for selector in selectors {
        if holds_nothing(selector) {
            return true;
        }
    }
    false
}

fn holds_nothing(selector: &PartSelector) -> bool
    ensures { result ≡ is_empty selector.now }
{
    match selector {
        PartSelector::Field(_) => false,
        PartSelector::Interval(interval) => interval.places == Places::None,
    }
}

/// Whether at some common depth the two lead to nothing in common.
fn somewhere_differ(a: &[PartSelector], b: &[PartSelector]) -> bool
    ensures { result ≡ some_differ a.now b.now }
{
    for (depth, x) in a.iter().enumerate() {
        let Some(y) = b.get(depth) else {
            return false;
        };
        if do_differ(x, y) {
            return true;
        }
    }
    false
}

fn do_differ(a: &PartSelector, b: &PartSelector) -> bool
    ensures { result ≡ differ a.now b.now }
{
    match (a, b) {
        (PartSelector::Field(a), PartSelector::Field(b)) => a != b,
        (PartSelector::Interval(a), PartSelector::Interval(b)) => !do_meet(a.places, b.places),
        _ => true,
    }
}

/// Whether at each common depth both are sure.
fn all_sure(a: &[PartSelector], b: &[PartSelector]) -> bool
    ensures { result ≡ spec_all_sure a.now b.now }
{
    for (depth, x) in a.iter().enumerate() {
        let Some(y) = b.get(depth) else {
            return true;
        };
        if !is_known(x) || !is_known(y) {
            return false;
        }
    }
    true
}

fn is_known(selector: &PartSelector) -> bool
    ensures { result ≡ is_sure selector.now }
{
    match selector {
        PartSelector::Field(_) => true,
        PartSelector::Interval(interval) => interval.mark == Mark::Sure,
    }
}
