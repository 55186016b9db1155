//! Reports with their base and journal. Their types say that the rows are a report of the files that these make.
ghost use Rattle.occ_server.specs.Snapshots.{IsSnapshot, IsWhole};
ghost use Rattle.std.specs.Prelude.{◌≡◌};

use occ_base::Items;
use occ_board::{Base, Entry, Row};
use std::marker::Model;

/// A report, with the base and the edits that were accepted since: it is one of the files that they make.
pub struct Snapshot {
    base: Base,
    entries: Items<Entry>,
    rows: Items<Row>,
}

/// Written out: crates above call it, where each would prove a derived one anew.
impl Drop for Snapshot {
    fn drop(self) {
        let Snapshot {
            base: _,
            entries: _,
            rows: _,
        } = self;
    }
}

impl Model for Snapshot {
    ghost use Rattle.occ_forms_expressions.specs.contracts.tree.Builtin as builtins;
    ghost use Rattle.occ_forms_expressions.specs.contracts.tree.Dimension as dimensions;
    ghost use Rattle.occ_forms_expressions.specs.contracts.tree.Element as elements;
    ghost use Rattle.occ_forms_expressions.specs.contracts.tree.Expr as expressions;
    ghost use Rattle.occ_forms_expressions.specs.contracts.tree.TypeForm as types;
    ghost use Rattle.occ_server.specs.Snapshots.{IsSnapshot, Reported};
    ghost use Rattle.std.specs.Coded.{codes};

    ghost Value = { Reported };

    ghost coded = { Prim.hlevel (codes, builtins.the_row.coded, dimensions.the_row.coded, elements.the_row.coded, expressions.the_row.coded, types.the_row.coded) };

    ghost view = { λ s. record { base = s.base; entries = s.entries; rows = s.rows } };

    ghost invariant = { λ s. IsSnapshot s.base s.entries s.rows };
}

impl Snapshot {
    pub(crate) fn of(base: Base, entries: Items<Entry>, rows: Items<Row>) -> Snapshot
        requires { IsSnapshot base entries rows }
        ensures { result ≡ record { base = base; entries = entries; rows = rows } }
    {
        Snapshot {
            base,
            entries,
            rows,
        }
    }

    /// The files after the edits that checkpoints took out of the journal.
    pub fn base(&self) -> &Base
        ensures base { result.now ≡ self.now.base }
        ensures known { IsSnapshot self.now.base self.now.entries self.now.rows }
    {
        &self.base
    }

    /// The edits that were accepted since, in order. The first has the number after that of the base.
    pub fn entries(&self) -> &[Entry]
        ensures entries { result.now ≡ self.now.entries }
        ensures known { IsSnapshot self.now.base self.now.entries self.now.rows }
    {
        self.entries.as_slice()
    }

    /// Each open unit in order of name, with its diagnostics in order, or as pending.
    pub fn report(&self) -> &[Row]
        ensures rows { result.now ≡ self.now.rows }
        ensures known { IsSnapshot self.now.base self.now.entries self.now.rows }
    {
        self.rows.as_slice()
    }
}

/// What a server ends with: the base, all edits that were accepted since, and the report from nothing of the files that they
/// make.
pub struct Ended {
    base: Base,
    entries: Items<Entry>,
    rows: Items<Row>,
}

/// Written out: crates above call it, where each would prove a derived one anew.
impl Drop for Ended {
    fn drop(self) {
        let Ended {
            base: _,
            entries: _,
            rows: _,
        } = self;
    }
}

impl Model for Ended {
    ghost use Rattle.occ_forms_expressions.specs.contracts.tree.Builtin as builtins;
    ghost use Rattle.occ_forms_expressions.specs.contracts.tree.Dimension as dimensions;
    ghost use Rattle.occ_forms_expressions.specs.contracts.tree.Element as elements;
    ghost use Rattle.occ_forms_expressions.specs.contracts.tree.Expr as expressions;
    ghost use Rattle.occ_forms_expressions.specs.contracts.tree.TypeForm as types;
    ghost use Rattle.occ_server.specs.Snapshots.{IsWhole, Reported};
    ghost use Rattle.std.specs.Coded.{codes};

    ghost Value = { Reported };

    ghost coded = { Prim.hlevel (codes, builtins.the_row.coded, dimensions.the_row.coded, elements.the_row.coded, expressions.the_row.coded, types.the_row.coded) };

    ghost view = { λ e. record { base = e.base; entries = e.entries; rows = e.rows } };

    ghost invariant = { λ e. IsWhole e.base e.entries e.rows };
}

impl Ended {
    pub(crate) fn of(base: Base, entries: Items<Entry>, rows: Items<Row>) -> Ended
        requires { IsWhole base entries rows }
        ensures { result ≡ record { base = base; entries = entries; rows = rows } }
    {
        Ended {
            base,
            entries,
            rows,
        }
    }

    /// The files after the edits that checkpoints took out of the journal.
    pub fn base(&self) -> &Base
        ensures base { result.now ≡ self.now.base }
        ensures known { IsWhole self.now.base self.now.entries self.now.rows }
    {
        &self.base
    }

    /// All edits that were accepted since, in order. The first has the number after that of the base.
    pub fn entries(&self) -> &[Entry]
        ensures entries { result.now ≡ self.now.entries }
        ensures known { IsWhole self.now.base self.now.entries self.now.rows }
    {
        self.entries.as_slice()
    }

    /// Each open unit in order of name, with its diagnostics in order.
    pub fn report(&self) -> &[Row]
        ensures rows { result.now ≡ self.now.rows }
        ensures known { IsWhole self.now.base self.now.entries self.now.rows }
    {
        self.rows.as_slice()
    }
}
