//! Whether two jobs, or parts of them, are one, item by item. A text has one list of lines, so texts decide.
ghost use Rattle.occ_board.specs.Verdicts.{same_text};
ghost use Rattle.occ_board.specs.inside.Likeness.{AreAlikeReads, IsAlikeRead};
ghost use Rattle.occ_check.specs.Input.{expansion_in};
ghost use Rattle.std.specs.Option.{option_copied};
ghost use Rattle.std.specs.Str.{bytes_eq};
ghost use Rattle.std.specs.Prelude.{◌≡◌, ◌↔◌, IsTrue};

use occ_base::Shared;
use occ_check::{Job, Used, UsedUnit};
use occ_forms::{Source, source_law};
use occ_project::Read;
use occ_types::{Export, Formal, FormalUse, Interface, OccType, PartSelector, same_type};

/// What is compared whole.
pub trait Same {
    fn is_same(&self, other: &Self) -> bool
        ensures { IsTrue result ↔ (self.now ≡ other.now) };
}

/// Whether two lists are one, item by item.
pub fn are_same<T: Same>(a: &[T], b: &[T]) -> bool
    ensures { IsTrue result ↔ (a.now ≡ b.now) }
{
    if a.len() != b.len() {
        return false;
    }
    for i in 0..a.len() {
        if !a[i].is_same(&b[i]) {
            return false;
        }
    }
    true
}

/// Whether two sources are one, which they are if their texts are: a text has one list of lines.
fn is_same_source(a: &Source, b: &Source) -> bool
    ensures text { result ≡ bytes_eq a.now.text b.now.text }
    ensures one { IsTrue result ↔ (a.now ≡ b.now) }
{
    source_law();
    let _lines = a.lines();
    let _others = b.lines();
    a.text() == b.text()
}

impl Same for Read {
    fn is_same(&self, other: &Read) -> bool {
        self.name == other.name
            && self.revision == other.revision
            && are_same_sources(self.source.as_ref(), other.source.as_ref())
    }
}

/// Whether two files have one text, or both have none.
pub fn are_same_sources(a: Option<&Shared<Source>>, b: Option<&Shared<Source>>) -> bool
    ensures value { result ≡ same_text (option_copied a.entry) (option_copied b.entry) }
    ensures one { IsTrue result ↔ (option_copied a.entry ≡ option_copied b.entry) }
{
    match (a, b) {
        (Some(a), Some(b)) => is_same_source(a.get(), b.get()),
        (None, None) => true,
        _ => false,
    }
}

/// Whether two units show one interface, or both none.
pub fn are_same_interfaces(a: Option<&Shared<Interface>>, b: Option<&Shared<Interface>>) -> bool
    ensures { IsTrue result ↔ (option_copied a.entry ≡ option_copied b.entry) }
{
    match (a, b) {
        (Some(a), Some(b)) => a.get().is_same(b.get()),
        (None, None) => true,
        _ => false,
    }
}

impl Same for UsedUnit {
    fn is_same(&self, other: &UsedUnit) -> bool {
        self.unit == other.unit && self.used.is_same(&other.used)
    }
}

impl Same for Used {
    fn is_same(&self, other: &Used) -> bool {
        match (self, other) {
            (Used::Absent, Used::Absent)
            | (Used::Circular, Used::Circular)
            | (Used::Faulty, Used::Faulty) => true,
            (Used::Clean(shown), Used::Clean(other)) => shown.get().is_same(other.get()),
            _ => false,
        }
    }
}

impl Same for Job {
    fn is_same(&self, other: &Job) -> bool {
        self.unit() == other.unit()
            && are_same(self.reads().as_slice(), other.reads().as_slice())
            && are_same(self.used(), other.used())
    }
}

/// Whether two reads are of files of one name that have the same lines and list the same units, as far as their texts show it.
fn is_alike_read(a: &Read, b: &Read) -> bool
    ensures { IsTrue result → IsAlikeRead a.now b.now }
{
    a.name == b.name && a.is_alike(b)
}

/// The same read by read.
fn are_alike_reads(a: &[Read], b: &[Read]) -> bool
    ensures { IsTrue result → AreAlikeReads a.now b.now }
{
    if a.len() != b.len() {
        return false;
    }
    for i in 0..a.len() {
        if !is_alike_read(&a[i], &b[i]) {
            return false;
        }
    }
    true
}

/// Whether two jobs look at the same lines and used units, as far as their texts show it.
pub fn is_alike_job(a: &Job, b: &Job) -> bool
    ensures expansion { IsTrue result → expansion_in b.now ≡ expansion_in a.now }
    ensures used { IsTrue result → b.now.used ≡ a.now.used }
{
    a.unit() == b.unit()
        && are_alike_reads(a.reads().as_slice(), b.reads().as_slice())
        && are_same(a.used(), b.used())
}

impl Same for Interface {
    fn is_same(&self, other: &Interface) -> bool {
        are_same(self.exports.as_slice(), other.exports.as_slice())
    }
}

impl Same for Export {
    fn is_same(&self, other: &Export) -> bool {
        self.name == other.name
            && self.kind == other.kind
            && are_same(
                self.formals.get().as_slice(),
                other.formals.get().as_slice(),
            )
            && are_same(self.results.as_slice(), other.results.as_slice())
            && are_same(self.uses.as_slice(), other.uses.as_slice())
            && self.effect == other.effect
    }
}

impl Same for Formal {
    fn is_same(&self, other: &Formal) -> bool {
        self.of.is_same(&other.of) && self.passing == other.passing
    }
}

impl Same for Shared<OccType> {
    fn is_same(&self, other: &Shared<OccType>) -> bool {
        same_type(self.get(), other.get())
    }
}

impl Same for FormalUse {
    fn is_same(&self, other: &FormalUse) -> bool {
        self.formal == other.formal
            && are_same(self.selectors.as_slice(), other.selectors.as_slice())
            && self.kind == other.kind
    }
}

impl Same for PartSelector {
    fn is_same(&self, other: &PartSelector) -> bool {
        match (self, other) {
            (PartSelector::Field(name), PartSelector::Field(other)) => name == other,
            (PartSelector::Interval(indices), PartSelector::Interval(others)) => indices == others,
            _ => false,
        }
    }
}
