//! Parts of one root that are asked for: those that begin alike are kept as one path.
ghost use Rattle.std.specs.Prelude.{◌≡◌, ◌<◌, ◌||◌, [], IfSome, List, OnErr, OnOk, Some, false, length, not, slice_get};
ghost use Rattle.occ_types.specs.declared.interface.PartSelector.{PartSelector as ASelector};
ghost use Rattle.occ_usage_parts.specs.Keeping.{meets_some};
ghost use Rattle.occ_usage_parts.specs.Parts.{are_apart as spec_are_apart};
ghost use Rattle.occ_usage_parts.specs.inside.Paths.{APath, ended, parts_in};

use super::path::Path;
use super::selectors::copies;
use occ_types::{Interval, PartSelector};
use std::alloc::{AllocError, Global};
use std::marker::Model;

/// Parts of one root, reported by their selectors. What meets them is what they have an element in common with, whatever
/// parts that is.
#[derive(Drop)]
pub struct Paths {
    paths: Vec<Path>,
}

impl Model for Paths {
    ghost use Rattle.std.specs.Prelude.{List};
    ghost use Rattle.occ_types.specs.declared.interface.PartSelector.{PartSelector};
    ghost use Rattle.occ_usage_parts.specs.inside.Paths.{parts_in};

    ghost Value = { List (List PartSelector) };

    ghost view = { λ p. parts_in p.paths.items };
}

impl Paths {
    /// No part.
    pub fn none(alloc: Global) -> Paths
        ensures { result ≡ [] }
    {
        Paths {
            paths: Vec::new(alloc),
        }
    }

    /// How many ways of beginning there are: so many looks `meets` takes.
    pub fn count(&self) -> usize {
        self.paths.len()
    }

    /// Whether one of the parts has an element in common with a part.
    #[tactic(auto, using(crate::proofs::Fronts::first_meets))]
    pub fn meets(&self, part: &[PartSelector]) -> bool
        ensures { result ≡ meets_some self.now part.now }
    {
        for path in &self.paths {
            if path.meets(part) {
                return true;
            }
        }
        false
    }

    /// From now on what has an element in common with the part has one in common with one of the parts. After an error
    /// nothing meets them that did not before.
    pub fn add(&mut self, alloc: Global, part: &[PartSelector]) -> Result<(), AllocError>
        ensures ok { OnOk result ((q : List ASelector) → meets_some self.new q ≡ (meets_some self.old q || not (spec_are_apart part.now q))) }
        ensures err { OnErr result ((q : List ASelector) → meets_some self.old q ≡ false → meets_some self.new q ≡ false) }
    {
        let (front, last) = split(part);
        match find(self.paths.as_slice(), front) {
            Some(at) => self.paths[at].add(last),
            None => add_path(alloc, &mut self.paths, front, last),
        }
    }
}

/// A part as its front and its last selector, if that is an interval.
fn split(part: &[PartSelector]) -> (&[PartSelector], Option<Interval>)
    ensures { part.now ≡ ended result.0.now result.1 }
{
    match part {
        [front @ .., PartSelector::Interval(last)] => (front, Some(*last)),
        _ => (part, None),
    }
}

/// The path with that front: uses mostly follow the one before them.
fn find(paths: &[Path], front: &[PartSelector]) -> Option<usize>
    ensures within { IfSome result (λ at. at < length paths.now) }
    ensures begins { IfSome result (λ at. (path : APath) × (slice_get paths.now at ≡ Some path) × (path.0 ≡ front.now)) }
{
    let mut after = paths.len();
    while let Some(at) = after.checked_sub(1) {
        if paths[at].begins(front) {
            return Some(at);
        }
        after = at;
    }
    None
}

/// Adds a path of one part.
fn add_path(
    alloc: Global,
    paths: &mut Vec<Path>,
    front: &[PartSelector],
    last: Option<Interval>,
) -> Result<(), AllocError>
    ensures ok { OnOk result ((q : List ASelector) → meets_some (parts_in paths.new.items) q ≡ (meets_some (parts_in paths.old.items) q || not (spec_are_apart (ended front.now last) q))) }
    ensures err { OnErr result (paths.new.items ≡ paths.old.items) }
{
    let mut path = Path::none(alloc, copies(alloc, front)?);
    path.add(last)?;
    paths.push(path)?;
    Ok(())
}
