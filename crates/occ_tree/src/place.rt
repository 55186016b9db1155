//! The walk down the lines: under which parent each is, and whether it may be there. The open parents are on a stack.
ghost use Rattle.std.specs.Prelude.{◌≡◌, [], ◌∷◌, List, None, Some, IfOk, OnOk};
ghost use Rattle.occ_tree.specs.declared.outline.Outline.{Outline};
ghost use Rattle.occ_tree.specs.inside.Frames.{frame_of, opened, placed_in, places, still_open, turned};
ghost use Rattle.occ_tree.specs.Nesting.{can_hold as spec_can_hold, is_right_under as spec_is_right_under};
ghost use Rattle.occ_tree.specs.Sorts.{outlines};
ghost use Rattle.occ_tree.specs.declared.place.Frame.{Frame};
ghost use Rattle.occ_tree.specs.declared.sort.Sort.{Sort};
ghost use Rattle.occ_tree.specs.declared.row.Row.TheVariants as row;
ghost use Rattle.occ_tree.specs.Table.{row_under as spec_row_under};

use super::outline::Outline;
use super::row::{Row, row_under};
use super::siblings::{Elders, is_misplaced};
use super::stack::Stack;
use occ_project::ExpandedLine;
use std::alloc::{AllocError, Global};

/// A parent, which the next line may stand under.
#[derive(Clone, Copy)]
pub struct Frame {
    /// Its depth. The file has none.
    pub depth: Option<u64>,
    /// What may stand under it.
    pub row: Row,
    /// What stands under it so far.
    pub elders: Elders,
}

/// Where a line stands, and what of it is judged there, before the lines after it are known.
#[derive(Clone, Copy)]
pub struct Place {
    pub line: Outline,
    /// The depth of its parent. The file has none.
    pub parent: Option<u64>,
    /// What may stand under the line.
    pub under: Row,
    /// It is at the wrong depth or stands where it may not, also if a close is next under its parent.
    pub wrong: bool,
}

/// Whether a parent of this depth can have a line of that one under it, as the file can.
pub fn can_hold(parent: Option<u64>, depth: u64) -> bool
    ensures { result ≡ spec_can_hold parent depth }
{
    match parent {
        Some(parent) => parent < depth,
        None => true,
    }
}

/// Whether the line is as deep as one right under that parent.
pub fn is_right_under(parent: Option<u64>, depth: u64) -> bool
    ensures { result ≡ spec_is_right_under parent depth }
{
    match parent {
        Some(parent) => parent < depth && depth - parent == 1,
        None => depth == 0,
    }
}

impl Frame {
    /// A parent under which nothing stands so far.
    fn new(depth: Option<u64>, row: Row) -> Frame
        ensures { result ≡ frame_of depth row [] }
    {
        Frame {
            depth,
            row,
            elders: Elders::none(row),
        }
    }
}

/// The place of the line under that parent, before it stood under it.
fn place_in(line: Outline, parent: Frame) -> Place
    ensures { (es : List Sort) → parent ≡ frame_of parent.depth parent.row es → result ≡ placed_in line parent es }
{
    let Outline { depth, sort } = line;
    let misplaced = is_misplaced(parent.row, parent.elders, sort, true);
    Place {
        line,
        parent: parent.depth,
        under: row_under(parent.row, sort),
        wrong: !is_right_under(parent.depth, depth) || misplaced,
    }
}

/// The parents that are open after a line. The line itself becomes one as the next one stands under it.
#[derive(Drop)]
pub struct Open {
    /// The line, if there is one.
    pub last: Option<Outline>,
    /// The parent of the line.
    pub innermost: Frame,
    pub outer: Stack<Frame>,
}

impl Open {
    /// Leaves the innermost parents that cannot have a line of this depth under them, of those round the last line.
    fn close(&mut self, depth: u64)
        ensures { (f : Frame) (fs : List Frame) → still_open depth (self.old.innermost ∷ self.old.outer) ≡ f ∷ fs → (self.new.innermost ≡ f) × (self.new.outer ≡ fs) }
    {
        while !can_hold(self.innermost.depth, depth) {
            match self.outer.pop() {
                Some(frame) => self.innermost = frame,
                None => return,
            }
        }
    }

    /// Makes the last line the innermost parent.
    fn deepen(&mut self, last: Outline) -> Result<(), AllocError>
        ensures { OnOk result ((self.new.innermost ≡ frame_of (Some last.depth) (spec_row_under self.old.innermost.row last.sort) []) × (self.new.outer ≡ self.old.innermost ∷ self.old.outer)) }
    {
        self.outer.push(self.innermost)?;
        self.innermost = Frame::new(Some(last.depth), row_under(self.innermost.row, last.sort));
        Ok(())
    }

    /// Makes that parent the innermost one which a line of this depth stands under.
    fn turn_to(&mut self, depth: u64) -> Result<(), AllocError>
        ensures { (f : Frame) (fs : List Frame) → still_open depth (opened self.old) ≡ f ∷ fs → OnOk result ((self.new.innermost ≡ f) × (self.new.outer ≡ fs)) }
    {
        if let Some(last) = self.last {
            if last.depth < depth {
                return self.deepen(last);
            }
        }
        self.close(depth);
        Ok(())
    }

    /// Adds the line under the innermost parent.
    fn enter(&mut self, line: Outline)
        ensures { (es : List Sort) → self.old.innermost ≡ frame_of self.old.innermost.depth self.old.innermost.row es → (self.new.innermost ≡ frame_of self.old.innermost.depth self.old.innermost.row (line.sort ∷ es)) × (self.new.outer ≡ self.old.outer) × (self.new.last ≡ Some line) }
    {
        self.innermost.elders = self.innermost.elders.and(self.innermost.row, line.sort);
        self.last = Some(line);
    }
}

/// The place of each line of a unit, the last on top.
pub fn find_places(alloc: Global, lines: &[ExpandedLine]) -> Result<Stack<Place>, AllocError>
    ensures { IfOk result (λ found. found ≡ places (turned (outlines lines.now) [])) }
{
    let mut found = Stack::with_room(alloc, lines.len())?;
    let mut open = Open {
        last: None,
        innermost: Frame::new(None, Row::File),
        outer: Stack::new(alloc),
    };
    let mut rest = lines;
    while let Some((first, after)) = rest.split_first() {
        let line = Outline::of(first);
        open.turn_to(line.depth)?;
        found.push(place_in(line, open.innermost))?;
        open.enter(line);
        rest = after;
    }
    Ok(found)
}
