//! The walk up the lines: which lack something or have no close, with the lines after them on a stack.
ghost use Rattle.std.specs.Prelude.{◌≡◌, ◌&&◌, List, IfOk};
ghost use Rattle.occ_tree.specs.declared.outline.Outline.{Outline};
ghost use Rattle.occ_tree.specs.inside.Frames.{place_at};
ghost use Rattle.occ_tree.specs.Nesting.{after_deeper, first_deeper, roots as spec_roots, sorts};
ghost use Rattle.occ_tree.specs.Siblings.{lacks as spec_lacks};
ghost use Rattle.occ_tree.specs.Sorts.{outlines};
ghost use Rattle.occ_tree.specs.Table.{is_head as spec_is_head};
ghost use Rattle.occ_tree.specs.Wrong.{close_is_next as spec_close_is_next, is_wrong as spec_is_wrong, wrong};

use super::outline::Outline;
use super::place::{Place, can_hold, find_places};
use super::row::{Row, is_close, is_head};
use super::siblings::Children;
use super::sort::Sort;
use super::stack::Stack;
use occ_project::ExpandedLine;
use std::alloc::{AllocError, Global};

/// Whether the top is a close under the same parent.
fn close_is_next(parent: Option<u64>, roots: &Stack<Outline>) -> bool
    ensures { result ≡ spec_close_is_next parent roots.now }
{
    match roots.top() {
        Some(next) => can_hold(parent, next.depth) && is_close(next.sort),
        None => false,
    }
}

/// Whether a line of this sort is a head, and the top a close under the same parent.
fn is_head_before_close(sort: Sort, parent: Option<u64>, roots: &Stack<Outline>) -> bool
    ensures { result ≡ (spec_is_head sort && spec_close_is_next parent roots.now) }
{
    is_head(sort) && close_is_next(parent, roots)
}

/// Takes those deeper than `depth` from the top: whether a parent of this row lacks something, these being the lines
/// under it.
fn take_children(depth: u64, row: Row, roots: &mut Stack<Outline>) -> bool
    ensures lacks { result ≡ spec_lacks row (sorts (first_deeper depth roots.old)) }
    ensures rest { roots.new ≡ after_deeper depth roots.old }
{
    let mut children = Children::none();
    while let Some(top) = roots.top() {
        if top.depth <= depth {
            break;
        }
        let sort = top.sort;
        roots.pop();
        children = children.and(row, sort, is_head_before_close(sort, Some(depth), roots));
    }
    children.lacks(row)
}

/// Whether the line at this place stands wrong or lacks something. On top of the stack are its children, which it
/// takes, and then the next line under its parent, if there is one.
#[tactic(auto, using(crate::proofs::Ends::close_told))]
fn is_wrong(place: &Place, roots: &mut Stack<Outline>) -> bool
    ensures wrong { (before : List Outline) (after : List Outline) → place.now ≡ place_at before place.now.line → roots.old ≡ spec_roots after → result ≡ spec_is_wrong before place.now.line after }
    ensures rest { roots.new ≡ after_deeper place.now.line.depth roots.old }
{
    let Outline { depth, sort } = place.line;
    let lacking = take_children(depth, place.under, roots);
    let unclosed = is_head(sort) && !close_is_next(place.parent, roots);
    place.wrong || unclosed || lacking
}

/// For each line of a unit, whether it stands wrong or lacks something. The first is on top.
pub fn wrong_lines(alloc: Global, lines: &[ExpandedLine]) -> Result<Stack<bool>, AllocError>
    ensures { IfOk result (λ found. found ≡ wrong (outlines lines.now)) }
{
    let mut places = find_places(alloc, lines)?;
    let mut roots = Stack::with_room(alloc, lines.len())?;
    let mut found = Stack::with_room(alloc, lines.len())?;
    while let Some(place) = places.top() {
        let line = place.line;
        found.push(is_wrong(place, &mut roots))?;
        roots.push(line)?;
        places.pop();
    }
    Ok(found)
}
