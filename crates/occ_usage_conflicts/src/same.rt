//! Whether two uses are one.
ghost use Rattle.std.specs.Prelude.{◌≡◌};
ghost use Rattle.occ_usage_conflicts.specs.Distinct.{same_mark as spec_same_mark, same_places as spec_same_places, same_selector as spec_same_selector, same_selectors as spec_same_selectors, same_use as spec_same_use};
ghost use Rattle.occ_usage_conflicts.specs.Kinds.{same_kind as spec_same_kind};

use occ_project::Location;
use occ_types::{Mark, PartSelector, Places, UseKind};
use occ_usage_parts::{Chain, Part};
use occ_usage_values::Use;
use std::marker::Model;

fn same_mark(a: Mark, b: Mark) -> bool
    ensures { result ≡ spec_same_mark a b }
{
    match (a, b) {
        (Mark::Sure, Mark::Sure) => true,
        (Mark::Unsure, Mark::Unsure) => true,
        _ => false,
    }
}

fn same_kind(a: UseKind, b: UseKind) -> bool
    ensures { result ≡ spec_same_kind a b }
{
    match (a, b) {
        (UseKind::Read, UseKind::Read) => true,
        (UseKind::Write, UseKind::Write) => true,
        (UseKind::Input, UseKind::Input) => true,
        (UseKind::Output, UseKind::Output) => true,
        _ => false,
    }
}

fn same_places(a: Places, b: Places) -> bool
    ensures { result ≡ spec_same_places a b }
{
    match (a, b) {
        (Places::None, Places::None) => true,
        (Places::All, Places::All) => true,
        (Places::From(a), Places::From(b)) => a == b,
        (Places::Run(a, n), Places::Run(b, m)) => a == b && n == m,
        _ => false,
    }
}

/// Whether two selectors are one.
fn same_selector(a: &PartSelector, b: &PartSelector) -> bool
    ensures { result ≡ spec_same_selector a.now b.now }
{
    match (a, b) {
        (PartSelector::Field(a), PartSelector::Field(b)) => a == b,
        (PartSelector::Interval(a), PartSelector::Interval(b)) => {
            same_mark(a.mark, b.mark) && same_places(a.places, b.places)
        }
        _ => false,
    }
}

/// Whether two lists of selectors are one.
#[inline(always)]
pub(crate) fn same_selectors(a: &[PartSelector], b: &[PartSelector]) -> bool
    ensures { result ≡ spec_same_selectors a.now b.now }
{
    if a.len() != b.len() {
        return false;
    }
    for (depth, x) in a.iter().enumerate() {
        if !same_selector(x, &b[depth]) {
            return false;
        }
    }
    true
}

/// A use of which the parts lie apart, to be looked for among others: in contracts the use.
#[derive(Drop)]
pub(crate) struct Candidate<'a> {
    pub part: &'a Part,
    pub kind: UseKind,
    pub line: &'a Location,
    pub chain: &'a Chain,
}

impl<'a> Model for Candidate<'a> {
    ghost use Rattle.occ_usage_values.specs.declared.uses.Use.{Use};

    ghost Value = { Use };

    ghost view = { λ one. record { part = one.part.now; kind = one.kind; line = one.line.now; chain = one.chain.now } };
}

impl<'a> Candidate<'a> {
    /// This use.
    #[inline(always)]
    pub(crate) fn of(one: &'a Use) -> Candidate<'a>
        ensures { result ≡ one.now }
    {
        Candidate {
            part: &one.part,
            kind: one.kind,
            line: &one.line,
            chain: &one.chain,
        }
    }
}

/// Whether two uses are one.
#[inline(always)]
pub(crate) fn same_use(a: &Use, b: &Candidate<'_>) -> bool
    ensures { result ≡ spec_same_use a.now b.now }
{
    a.part.root == b.part.root
        && same_kind(a.kind, b.kind)
        && a.line.line == b.line.line
        && same_selectors(a.part.selectors.as_slice(), b.part.selectors.as_slice())
        && a.chain.is_same(b.chain)
        && *a.line.file.get() == *b.line.file.get()
}
