//! When two interfaces are one: the same exports in order, and the uses of each compared as a set.
ghost use Rattle.std.specs.Prelude.{IsTrue, ◌≡◌, ◌↔◌};
ghost use Rattle.std.specs.List.{AllZip, Contains};
ghost use Rattle.occ_types.specs.Interface.{IsSameExport, IsSameInterface, IsSameSet, IsWithin};

use super::interface::{Export, Formal, FormalUse, Interface, PartSelector};
use super::same::same_type;
use super::types::OccType;
use occ_base::{Items, Shared};

/// Whether two interfaces are the same: the same exports in the same order, where the uses of formals are compared as
/// sets. It goes once through both where their uses stand in one order; else, for each export, as often as there are
/// pairs of its uses.
pub fn same_interface(a: &Interface, b: &Interface) -> bool
    ensures { IsTrue result ↔ IsSameInterface a.now b.now }
{
    all_same(&a.exports, &b.exports)
}

/// What is compared part by part.
trait Same {
    ghost is_same: { Self → Self → Type 0 };

    fn same(&self, other: &Self) -> bool
        ensures { IsTrue result ↔ is_same self.now other.now };
}

/// Whether two lists are the same, item by item.
fn all_same<T: Same>(a: &Items<T>, b: &Items<T>) -> bool
    ensures { IsTrue result ↔ AllZip T.is_same a.now b.now }
{
    let a = a.as_slice();
    let b = b.as_slice();
    if a.len() != b.len() {
        return false;
    }
    for i in 0..a.len() {
        if !a[i].same(&b[i]) {
            return false;
        }
    }
    true
}

impl Same for Export {
    ghost is_same = { IsSameExport };

    fn same(&self, other: &Export) -> bool {
        self.name == other.name
            && self.kind == other.kind
            && same_formals(self.formals.get(), other.formals.get())
            && same_types(&self.results, &other.results)
            && same_uses(&self.uses, &other.uses)
            && self.effect == other.effect
    }
}

impl Same for Formal {
    ghost is_same = { λ a b. a ≡ b };

    fn same(&self, other: &Formal) -> bool {
        self.of.same(&other.of) && self.passing == other.passing
    }
}

impl Same for Shared<OccType> {
    ghost is_same = { λ a b. a ≡ b };

    fn same(&self, other: &Shared<OccType>) -> bool {
        same_type(self.get(), other.get())
    }
}

impl Same for FormalUse {
    ghost is_same = { λ a b. a ≡ b };

    fn same(&self, other: &FormalUse) -> bool {
        self.formal == other.formal
            && self.kind == other.kind
            && same_selectors(&self.selectors, &other.selectors)
    }
}

impl Same for PartSelector {
    ghost is_same = { λ a b. a ≡ b };

    fn same(&self, other: &PartSelector) -> bool {
        match (self, other) {
            (PartSelector::Field(name), PartSelector::Field(other)) => name == other,
            (PartSelector::Interval(places), PartSelector::Interval(others)) => places == others,
            _ => false,
        }
    }
}

fn same_formals(a: &Items<Formal>, b: &Items<Formal>) -> bool
    ensures { IsTrue result ↔ (a.now ≡ b.now) }
{
    all_same(a, b)
}

fn same_types(a: &Items<Shared<OccType>>, b: &Items<Shared<OccType>>) -> bool
    ensures { IsTrue result ↔ (a.now ≡ b.now) }
{
    all_same(a, b)
}

fn same_selectors(a: &Items<PartSelector>, b: &Items<PartSelector>) -> bool
    ensures { IsTrue result ↔ (a.now ≡ b.now) }
{
    all_same(a, b)
}

fn same_uses(a: &Items<FormalUse>, b: &Items<FormalUse>) -> bool
    ensures { IsTrue result ↔ IsSameSet a.now b.now }
{
    are_among(a, b) && are_among(b, a)
}

/// Whether each of these uses is one of the others.
fn are_among(uses: &Items<FormalUse>, others: &Items<FormalUse>) -> bool
    ensures { IsTrue result ↔ IsWithin uses.now others.now }
{
    let others = others.as_slice();
    for (place, one) in uses.as_slice().iter().enumerate() {
        if !stands_at(others, place, one) && !is_among(others, one) {
            return false;
        }
    }
    true
}

/// Whether a use stands at a place.
fn stands_at(uses: &[FormalUse], place: usize, wanted: &FormalUse) -> bool
    ensures { IsTrue result → Contains uses.now wanted.now }
{
    match uses.get(place) {
        Some(one) => one.same(wanted),
        None => false,
    }
}

/// Whether a use is one of these.
fn is_among(uses: &[FormalUse], wanted: &FormalUse) -> bool
    ensures { IsTrue result ↔ Contains uses.now wanted.now }
{
    for one in uses {
        if one.same(wanted) {
            return true;
        }
    }
    false
}
