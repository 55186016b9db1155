//! Interfaces: exports with their formals, results, uses of formals and effect. They have no line numbers.
use super::types::OccType;
use occ_base::{Items, Name, Shared};

/// What a unit shows to those that use it: its exports in order of declaration. It has no line numbers, no
/// comments and no names of formals.
pub struct Interface {
    pub exports: Items<Export>,
}

/// Written out: crates above call it, where each would prove a derived one anew.
impl Drop for Interface {
    fn drop(self) {
        let Interface { exports: _ } = self;
    }
}

/// A PROC or a FUNCTION that a unit exports.
pub struct Export {
    pub name: Name,
    pub kind: ExportKind,
    /// Shared, so that each unit that imports it takes no copy.
    pub formals: Shared<Items<Formal>>,
    pub results: Items<Shared<OccType>>,
    /// The uses of single parts of formals. They count as a set: neither their order nor how often each stands here
    /// matters.
    pub uses: Items<FormalUse>,
    /// Whether the body has an input, an output, a PAR or an ALT.
    pub effect: Effect,
}

/// Written out: crates above call it, where each would prove a derived one anew.
impl Drop for Export {
    fn drop(self) {
        let Export {
            name: _,
            kind: _,
            formals: _,
            results: _,
            uses: _,
            effect: _,
        } = self;
    }
}

/// Whether an export is a PROC or a FUNCTION.
#[derive(Clone, Copy, PartialEq, Eq)]
pub enum ExportKind {
    Process,
    Function,
}

/// Whether a body, calls included, has an input, an output, a PAR or an ALT.
#[derive(Clone, Copy, PartialEq, Eq)]
pub enum Effect {
    Some,
    None,
}

/// A formal, as a call sees it: of a procedure or function in scope as of one that a unit exports. Its type is shared,
/// so that an interface is made from what a scope holds.
pub struct Formal {
    pub of: Shared<OccType>,
    pub passing: Passing,
}

/// Written out: crates above call it, where each would prove a derived one anew.
impl Drop for Formal {
    fn drop(self) {
        let Formal { of: _, passing: _ } = self;
    }
}

/// Whether a formal is VAL.
#[derive(Clone, Copy, PartialEq, Eq)]
pub enum Passing {
    Value,
    Reference,
}

/// A use of a part of a formal.
pub struct FormalUse {
    /// Which of the formals it is, from 0.
    pub formal: u32,
    pub selectors: Items<PartSelector>,
    pub kind: UseKind,
}

/// Written out: crates above call it, where each would prove a derived one anew.
impl Drop for FormalUse {
    fn drop(self) {
        let FormalUse {
            formal: _,
            selectors: _,
            kind: _,
        } = self;
    }
}

/// What a use does with its part.
#[derive(Clone, Copy, PartialEq, Eq)]
pub enum UseKind {
    Read,
    Write,
    Input,
    Output,
}

/// What leads from an element to a part of it.
#[derive(Drop)]
pub enum PartSelector {
    Field(Name),
    Interval(Interval),
}

/// Places of an array, with a mark.
#[derive(Clone, Copy, PartialEq, Eq)]
pub struct Interval {
    pub mark: Mark,
    pub places: Places,
}

/// Whether all places of an interval are known to be used.
#[derive(Clone, Copy, PartialEq, Eq)]
pub enum Mark {
    Sure,
    Unsure,
}

/// Places that follow one another. Each set of them is written in one way.
#[derive(Clone, Copy, PartialEq, Eq)]
pub enum Places {
    None,
    All,
    /// This place, and all after it.
    From(i64),
    /// This place, and so many after it.
    Run(i64, u32),
}
