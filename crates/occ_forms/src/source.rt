//! A `Source`, which is a text with its lines, and with the units that it lists. Its type says that they are those of the text.
ghost use Rattle.occ_forms.specs.Prepared.{IsPrepared};
ghost use Rattle.occ_lines.specs.Lines.{limit_fault};
ghost use Rattle.occ_lines.specs.Listing.{listed as spec_listed};
ghost use Rattle.std.specs.Option.{option_copied};
ghost use Rattle.std.specs.Prelude.{◌≡◌, IfOk, IfSome, IsTrue, None};

use super::laws::source_law;
use super::tree::Form;
use occ_base::{Boxed, Code, FileName, Items, Shared};
use occ_lines::{are_alike, text_fault};
use std::alloc::{AllocError, Global};
use std::marker::Model;

/// What a line of a prepared text holds.
#[derive(Drop)]
pub enum LineBody {
    /// Shared, since every expansion that holds the line has it.
    Form(Shared<Form>),
    /// The lines of this file stand here. Names of files lie in blocks of their own: else every line would have room for two.
    Include(Boxed<FileName>),
    /// The exports of this unit are visible from here on; expansions share its name. Of a library there is also the name of its
    /// list: where that file is open, the units that it lists are used in place of this one.
    Uses(Shared<FileName>, Option<Boxed<FileName>>),
    /// The one fault of the line: `L1`, `L2`, `L3`, `L4`, `S1` or `S3`.
    Fault(Code),
}

/// A logical line with its form.
#[derive(Drop)]
pub struct SourceLine {
    /// The line of the text on which it begins, from 1.
    pub line: u32,
    /// The number of levels that it stands in.
    pub depth: u32,
    pub body: LineBody,
}

/// A text with its lines: they are those that the text spells, each with its form. The units that the text lists stand beside
/// them, if it is a list.
pub struct Source {
    text: Items<u8>,
    /// Shared, since texts that differ in skipped lines alone have the same.
    lines: Shared<Items<SourceLine>>,
    listed: Option<Shared<Items<FileName>>>,
}

/// Written out: crates above call it, where each would prove a derived one anew.
impl Drop for Source {
    fn drop(self) {
        let Source {
            text: _,
            lines: _,
            listed: _,
        } = self;
    }
}

impl Model for Source {
    ghost use Rattle.occ_forms_expressions.specs.contracts.tree.Builtin as builtins;
    ghost use Rattle.occ_forms_expressions.specs.contracts.tree.Dimension as dimensions;
    ghost use Rattle.occ_forms_expressions.specs.contracts.tree.Element as elements;
    ghost use Rattle.occ_forms_expressions.specs.contracts.tree.Expr as expressions;
    ghost use Rattle.occ_forms_expressions.specs.contracts.tree.TypeForm as types;
    ghost use Rattle.occ_forms.specs.Prepared.{IsPrepared, Prepared};
    ghost use Rattle.occ_lines.specs.Listing.{listed as spec_listed};
    ghost use Rattle.std.specs.Prelude.{◌≡◌};
    ghost use Rattle.std.specs.Coded.{codes};

    ghost Value = { Prepared };

    ghost coded = { Prim.hlevel (codes, builtins.the_row.coded, dimensions.the_row.coded, elements.the_row.coded, expressions.the_row.coded, types.the_row.coded) };

    ghost view = { λ a. record { text = a.text; lines = a.lines } };

    ghost invariant = { λ a. IsPrepared a.text a.lines × (a.listed ≡ spec_listed a.text) };
}

impl Source {
    /// The source of a text, its lines and what it lists.
    pub(crate) fn of(
        text: Items<u8>,
        lines: Shared<Items<SourceLine>>,
        listed: Option<Shared<Items<FileName>>>,
    ) -> Source
        requires lines { IsPrepared text lines }
        requires listed { listed ≡ spec_listed text }
        ensures text { result.text ≡ text }
        ensures lines { result.lines ≡ lines }
    {
        Source {
            text,
            lines,
            listed,
        }
    }

    /// The text, as it was given.
    pub fn text(&self) -> &[u8]
        ensures value { result.now ≡ self.now.text }
    {
        self.text.as_slice()
    }

    /// The lines of the text.
    pub fn lines(&self) -> &[SourceLine]
        ensures value { result.now ≡ self.now.lines }
        ensures prepared { IsPrepared self.now.text self.now.lines }
    {
        self.lines.get().as_slice()
    }

    /// The units that the text lists, each at its first place; nothing, if a line of it names no file.
    pub fn listed(&self) -> Option<&[FileName]>
        ensures { option_copied result ≡ spec_listed self.now.text }
    {
        self.listed.as_ref().map(|units| units.get().as_slice())
    }

    /// The same, to be shared.
    pub fn shared_list(&self) -> Option<&Shared<Items<FileName>>>
        ensures { option_copied result ≡ spec_listed self.now.text }
    {
        self.listed.as_ref()
    }

    /// Whether this text and that of another source differ in skipped lines alone, so that both have the same lines and list the
    /// same units. Of texts that differ otherwise it says nothing.
    pub fn is_alike(&self, other: &Source) -> bool
        ensures lines { IsTrue result → self.now.lines ≡ other.now.lines }
        ensures listed { IsTrue result → spec_listed self.now.text ≡ spec_listed other.now.text }
    {
        source_law();
        are_alike(self.text.as_slice(), other.text.as_slice())
    }

    /// The source of a text within the limits that differs from this one's in skipped lines alone. It shares the lines and what they
    /// list. Of other texts it makes none.
    pub fn again(&self, alloc: Global, text: &[u8]) -> Result<Option<Source>, AllocError>
        ensures text { IfOk result (λ found. IfSome found (λ source. source.text ≡ text.now)) }
        ensures lines { IfOk result (λ found. IfSome found (λ source. source.lines ≡ self.now.lines)) }
        ensures limit { IfOk result (λ found. IfSome found (λ source. limit_fault text.now ≡ None)) }
    {
        if text_fault(text).is_some() || !are_alike(self.text.as_slice(), text) {
            return Ok(None);
        }
        let lines = self.lines.share()?;
        let listed = match &self.listed {
            Some(units) => Some(units.share()?),
            None => None,
        };
        let text = Items::from_slice(alloc, text)?;
        Ok(Some(Source::of(text, lines, listed)))
    }
}
