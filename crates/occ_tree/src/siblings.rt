//! What siblings ask of each other and of their parent, accumulated as a few answers, so that a long list costs one pass.
ghost use Rattle.std.specs.Prelude.{◌≡◌, ◌∷◌, [], List};
ghost use Rattle.occ_tree.specs.declared.row.Row.{Row};
ghost use Rattle.occ_tree.specs.declared.sort.Sort.{Sort};
ghost use Rattle.occ_tree.specs.inside.Children.{begins_before, children_lack, no_children, one_child_more};
ghost use Rattle.occ_tree.specs.inside.Elders.{elders_of};
ghost use Rattle.occ_tree.specs.Siblings.{is_disordered as spec_is_disordered, is_loose as spec_is_loose, is_misplaced as spec_is_misplaced, is_one_too_many as spec_is_one_too_many};

use super::row::{
    Row, is_close, is_head, is_main, is_process, is_result, is_single, is_value, lets_line,
    may_stand, needs_main, takes_specifications,
};
use super::sort::Sort;

/// What the walk knows of the lines before one under the same parent.
#[derive(Clone, Copy)]
pub struct Elders {
    /// The nearest is a head.
    pub head: bool,
    /// One of them is a main line.
    pub main: bool,
    /// One of them is a process.
    pub process: bool,
    /// One of them is a `RESULT`.
    pub result: bool,
    /// The nearest is a process, and the first one.
    pub first_process: bool,
}

impl Elders {
    /// None.
    pub fn none(row: Row) -> Elders
        ensures { result ≡ elders_of row [] }
    {
        Elders {
            head: false,
            main: false,
            process: false,
            result: false,
            first_process: false,
        }
    }

    /// Those, and then a line of this sort.
    pub fn and(self, row: Row, sort: Sort) -> Elders
        ensures { (before : List Sort) → self ≡ elders_of row before → result ≡ elders_of row (sort ∷ before) }
    {
        let process = is_process(sort);
        Elders {
            head: is_head(sort),
            main: is_main(row, sort) || self.main,
            process: process || self.process,
            result: is_result(sort) || self.result,
            first_process: process && !self.process,
        }
    }
}

/// Whether it is a close that is not right after a head, or a head that is not right before a close.
fn is_loose(elders: Elders, sort: Sort, before_close: bool) -> bool
    ensures { (row : Row) (before : List Sort) → elders ≡ elders_of row before → result ≡ spec_is_loose before sort before_close }
{
    is_close(sort) && !elders.head || is_head(sort) && !before_close
}

/// Whether it is a main line where there may be one and there is one already.
fn is_one_too_many(row: Row, elders: Elders, sort: Sort) -> bool
    ensures { (before : List Sort) → elders ≡ elders_of row before → result ≡ spec_is_one_too_many row before sort }
{
    is_single(row) && is_main(row, sort) && elders.main
}

/// Whether it is a second process or `RESULT` under `VALOF`, or a `RESULT` that is not directly after the first
/// process.
fn is_disordered(row: Row, elders: Elders, sort: Sort) -> bool
    ensures { (before : List Sort) → elders ≡ elders_of row before → result ≡ spec_is_disordered row before sort }
{
    is_value(row)
        && (is_process(sort) && elders.process
            || is_result(sort) && (elders.result || !elders.first_process))
}

/// Whether a line of this sort cannot stand in the row after those, and right before a close or not.
pub fn is_misplaced(row: Row, elders: Elders, sort: Sort, before_close: bool) -> bool
    ensures { (before : List Sort) → elders ≡ elders_of row before → result ≡ spec_is_misplaced row before sort before_close }
{
    !may_stand(row, sort)
        || is_loose(elders, sort, before_close)
        || is_one_too_many(row, elders, sort)
        || is_disordered(row, elders, sort)
}

/// Whether the line is a specification, or a head with its close right after it.
fn begins_specification(row: Row, sort: Sort, before_close: bool) -> bool
    ensures { result ≡ begins_before row sort before_close }
{
    lets_line(row, sort) || takes_specifications(row) && is_head(sort) && before_close
}

/// What is known of the first lines under a parent.
#[derive(Clone, Copy)]
pub struct Children {
    /// One of them is a main line.
    pub main: bool,
    /// One of them is a process.
    pub process: bool,
    /// One of them is a `RESULT`.
    pub result: bool,
    /// A specification among them has no main line after it.
    pub specified: bool,
}

impl Children {
    /// None.
    pub fn none() -> Children
        ensures { result ≡ no_children }
    {
        Children {
            main: false,
            process: false,
            result: false,
            specified: false,
        }
    }

    /// Those, and then a line of this sort, which stands right before a close or does not.
    pub fn and(self, row: Row, sort: Sort, before_close: bool) -> Children
        ensures { result ≡ one_child_more row self sort before_close }
    {
        let main = is_main(row, sort);
        Children {
            main: self.main || main,
            process: self.process || is_process(sort),
            result: self.result || is_result(sort),
            specified: !main && (self.specified || begins_specification(row, sort, before_close)),
        }
    }

    /// Whether a parent of this row lacks something, these being all lines under it.
    pub fn lacks(self, row: Row) -> bool
        ensures { result ≡ children_lack row self }
    {
        needs_main(row) && !self.main
            || is_value(row) && !(self.process && self.result)
            || self.specified
    }
}
