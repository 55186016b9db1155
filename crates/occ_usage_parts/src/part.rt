//! Parts of variables, channels and formals, and how two of them overlap. `docs/LANGUAGE.md, Parts of variables and
//! channels`.
ghost use Rattle.std.specs.Prelude.{◌≡◌};
ghost use Rattle.occ_usage_parts.specs.Selecting.{part_of, whole, with_subscript};

use super::interval::subscript;
use super::selectors::Selectors;
use occ_types::PartSelector;

/// A part of a variable, a channel or a formal.
#[derive(Drop)]
pub struct Part {
    /// What it is a part of: the number of its specification.
    pub root: usize,
    /// What leads from the whole to the part: nothing where the part is the whole.
    pub selectors: Selectors,
}

impl Part {
    /// The component at a place of a variable, a channel or a formal, which is given if it is known.
    #[inline(always)]
    pub fn component(root: usize, at: Option<i32>) -> Part
        ensures { result ≡ part_of (with_subscript (whole root) at) }
    {
        let selectors = Selectors::one(PartSelector::Interval(subscript(at)));
        Part { root, selectors }
    }
}

/// What two parts have in common.
#[derive(Clone, Copy, PartialEq, Eq)]
pub enum Overlap {
    /// No element.
    Apart,
    /// Perhaps an element: a subscript or a bound is not known.
    May,
    /// An element.
    Must,
}
