//! An expansion: its lines with file, number and depth, its reads, and its faults.
ghost use Rattle.occ_project.specs.Locations.{location_of};
ghost use Rattle.occ_project.specs.Uses.{units_of};
ghost use Rattle.std.specs.Prelude.{◌≡◌, IfOk};

use super::line_units::UsedUnits;
use occ_base::{Code, Diag, FileName, Items, Shared};
use occ_forms::Form;
use std::alloc::AllocError;
use std::marker::Model;

/// What a line of an expansion holds.
pub enum ExpandedBody {
    Form(Shared<Form>),
    /// A `#USE`: the units whose exports are visible from here on, in this order. One `#USE` of a library can have many.
    Uses(UsedUnits),
    /// The one fault of the line: `L1`, `L2`, `L3`, `L4`, `S1` or `S3`.
    Fault(Code),
}

/// Written out: crates above call it, where each would prove a derived one anew.
impl Drop for ExpandedBody {
    fn drop(self) {
        match self {
            ExpandedBody::Form(_) => {}
            ExpandedBody::Uses(_) => {}
            ExpandedBody::Fault(_) => {}
        }
    }
}

/// Where a line stands.
pub struct Location {
    /// The file in which it stands, whose name all that stands in it shares.
    pub file: Shared<FileName>,
    /// The line of that file on which it begins, from 1.
    pub line: u32,
}

/// Written out: crates above call it, where each would prove a derived one anew.
impl Drop for Location {
    fn drop(self) {
        let Location { file: _, line: _ } = self;
    }
}

impl Location {
    /// The same place once more. It takes no memory, but the count of owners of the name may be full.
    pub fn share(&self) -> Result<Location, AllocError>
        ensures { IfOk result (λ location. location ≡ self.now) }
    {
        let Location { file, line } = self;
        Ok(Location {
            file: file.share()?,
            line: *line,
        })
    }
}

/// A line of an expansion.
pub struct ExpandedLine {
    /// The file in which it stands, whose name all its lines share.
    pub file: Shared<FileName>,
    /// The line of that file on which it begins, from 1.
    pub line: u32,
    /// The number of levels that it stands in, those of the directives that include its file counted.
    pub depth: u64,
    pub body: ExpandedBody,
}

/// Written out: crates above call it, where each would prove a derived one anew.
impl Drop for ExpandedLine {
    fn drop(self) {
        let ExpandedLine {
            file: _,
            line: _,
            depth: _,
            body: _,
        } = self;
    }
}

impl ExpandedLine {
    /// Where it stands.
    pub fn location(&self) -> Result<Location, AllocError>
        ensures { IfOk result (λ location. location ≡ location_of self.now) }
    {
        Ok(Location {
            file: self.file.share()?,
            line: self.line,
        })
    }

    /// The units that a `#USE` uses; any other line uses none.
    pub fn used_units(&self) -> &[FileName]
        ensures { result.now ≡ units_of self.now }
    {
        match &self.body {
            ExpandedBody::Uses(units) => units.as_slice(),
            ExpandedBody::Form(_) | ExpandedBody::Fault(_) => &[],
        }
    }
}

/// The expansion of a unit.
pub struct Expanded {
    lines: Items<ExpandedLine>,
    reads: Items<FileName>,
    faults: Items<Diag>,
}

/// Written out: crates above call it, where each would prove a derived one anew.
impl Drop for Expanded {
    fn drop(self) {
        let Expanded {
            lines: _,
            reads: _,
            faults: _,
        } = self;
    }
}

impl Model for Expanded {
    ghost use Rattle.occ_forms_expressions.specs.contracts.tree.Builtin as builtins;
    ghost use Rattle.occ_forms_expressions.specs.contracts.tree.Dimension as dimensions;
    ghost use Rattle.occ_forms_expressions.specs.contracts.tree.Element as elements;
    ghost use Rattle.occ_forms_expressions.specs.contracts.tree.Expr as expressions;
    ghost use Rattle.occ_forms_expressions.specs.contracts.tree.TypeForm as types;
    ghost use Rattle.occ_project.specs.Expansion.{Expansion};
    ghost use Rattle.std.specs.Coded.{codes};

    ghost Value = { Expansion };

    ghost coded = { Prim.hlevel (codes, builtins.the_row.coded, dimensions.the_row.coded, elements.the_row.coded, expressions.the_row.coded, types.the_row.coded) };

    ghost view = { λ a. record { lines = a.lines; reads = a.reads; faults = a.faults } };
}

impl Expanded {
    /// The expansion that has these parts.
    pub(crate) fn of(
        lines: Items<ExpandedLine>,
        reads: Items<FileName>,
        faults: Items<Diag>,
    ) -> Expanded
        ensures { result ≡ record { lines = lines; reads = reads; faults = faults } }
    {
        Expanded {
            lines,
            reads,
            faults,
        }
    }

    /// Its lines, in order.
    pub fn lines(&self) -> &[ExpandedLine]
        ensures { result.now ≡ self.now.lines }
    {
        self.lines.as_slice()
    }

    /// Its lines and its faults, moved out.
    pub fn into_lines(self) -> (Items<ExpandedLine>, Items<Diag>)
        ensures lines { result.0 ≡ self.lines }
        ensures faults { result.1 ≡ self.faults }
    {
        let Expanded {
            lines,
            reads: _,
            faults,
        } = self;
        (lines, faults)
    }

    /// The names that were looked up, the unit first, each once, in the order of their first look-ups. Those of absent
    /// files are among them.
    pub fn reads(&self) -> &[FileName]
        ensures { result.now ≡ self.now.reads }
    {
        self.reads.as_slice()
    }

    /// The diagnostics `G4` to `G7`, in the order of their lines.
    pub fn faults(&self) -> &[Diag]
        ensures { result.now ≡ self.now.faults }
    {
        self.faults.as_slice()
    }
}
