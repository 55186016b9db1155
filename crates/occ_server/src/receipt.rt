//! Receipts of accepted edits: number, session and edit.
ghost use Rattle.std.specs.Prelude.{◌≡◌, ◌<◌};

use occ_board::{Edit, Entry};
use std::marker::Model;

/// The receipt of an edit that was accepted. Only `Server::edit` gives one.
pub struct Receipt {
    number: u32,
    entry: Entry,
}

/// Written out: crates above call it, where each would prove a derived one anew.
impl Drop for Receipt {
    fn drop(self) {
        let Receipt {
            number: _,
            entry: _,
        } = self;
    }
}

impl Model for Receipt {
    ghost use Rattle.occ_forms_expressions.specs.contracts.tree.Builtin as builtins;
    ghost use Rattle.occ_forms_expressions.specs.contracts.tree.Dimension as dimensions;
    ghost use Rattle.occ_forms_expressions.specs.contracts.tree.Element as elements;
    ghost use Rattle.occ_forms_expressions.specs.contracts.tree.Expr as expressions;
    ghost use Rattle.occ_forms_expressions.specs.contracts.tree.TypeForm as types;
    ghost use Rattle.occ_server.specs.Receipts.{Numbered};
    ghost use Rattle.std.specs.Coded.{codes};
    ghost use Rattle.std.specs.Prelude.{◌<◌};

    ghost Value = { Numbered };

    ghost coded = { Prim.hlevel (codes, builtins.the_row.coded, dimensions.the_row.coded, elements.the_row.coded, expressions.the_row.coded, types.the_row.coded) };

    ghost view = { λ r. record { number = r.number; entry = r.entry } };

    ghost invariant = { λ r. 0 < r.number };
}

impl Receipt {
    /// The receipt of the edit with this number.
    pub(crate) fn of(number: u32, entry: Entry) -> Receipt
        requires { 0 < number }
        ensures { result ≡ record { number = number; entry = entry } }
    {
        Receipt { number, entry }
    }

    /// The number of the edit. The first edit has number 1.
    pub fn number(&self) -> u32
        ensures number { result ≡ self.now.number }
        ensures some { 0 < result }
    {
        self.number
    }

    /// The session that made the edit.
    pub fn session(&self) -> u32
        ensures { result ≡ self.now.entry.session }
    {
        self.entry.session
    }

    /// What happened to a file.
    pub fn edit(&self) -> &Edit
        ensures { result.now ≡ self.now.entry.edit }
    {
        &self.entry.edit
    }

    /// The edit, and the session that made it.
    pub(crate) fn entry(&self) -> &Entry
        ensures { result.now ≡ self.now.entry }
    {
        &self.entry
    }
}
