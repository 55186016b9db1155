//! Prepares a text: its logical lines, each with its form or its one fault, and the units that it lists.
ghost use Rattle.occ_forms.specs.Prepared.{AreFormed, IsFormed, IsPrepared};
ghost use Rattle.occ_forms.specs.declared.source.SourceLine.{SourceLine as ASourceLine};
ghost use Rattle.occ_lines.specs.Lines.{line_count};
ghost use Rattle.occ_lines.specs.Listing.{listed as spec_listed};
ghost use Rattle.occ_lines.specs.declared.text.Body.TheVariants as body;
ghost use Rattle.occ_lines.specs.declared.token.Token.TheVariants as token;
ghost use Rattle.std.specs.Prelude.{IfOk, IsErrOf, List, [], length, ◌↔◌, ◌≡◌, ◌≤◌, ◌<◌, ◌∷◌};

use super::laws::source_law;
use super::parse::{LineFault, form};
use super::source::{LineBody, Source, SourceLine};
use super::words::{WordForm, form_among};
use occ_base::{Code, FileName, Items, Shared};
use occ_lines::{Body, Logical, Sink, TextFault, Token, Word, listed, read_lines};
use std::alloc::{AllocError, Global};

/// What a line of these tokens holds: their form, or its fault.
fn formed_alone(alloc: Global, tokens: &[Token]) -> Result<LineBody, AllocError>
    ensures { IfOk result (λ found. IsFormed (body.Tokens tokens.now) found) }
{
    match form(alloc, tokens) {
        Ok(form) => Ok(LineBody::Form(Shared::new(alloc, form)?)),
        Err(LineFault::NoForm) => Ok(LineBody::Fault(Code::S1)),
        Err(LineFault::TooDeep) => Ok(LineBody::Fault(Code::S3)),
        Err(LineFault::Memory) => Err(AllocError),
    }
}

/// The same of a line of one word, whose form later lines of the word share.
fn formed_of_word(
    alloc: Global,
    word: Word,
    tokens: &[Token],
    words: &mut Items<WordForm>,
) -> Result<LineBody, AllocError>
    requires { tokens.now ≡ token.Word word ∷ [] }
    ensures { IfOk result (λ found. IsFormed (body.Tokens tokens.now) found) }
{
    if let Some(form) = form_among(words.as_slice(), word) {
        return Ok(LineBody::Form(form.share()?));
    }
    let held = formed_alone(alloc, tokens)?;
    if let LineBody::Form(form) = &held {
        words.push(WordForm::new(word, form.share()?))?;
    }
    Ok(held)
}

/// What a line of these tokens holds. Lines of one word share its form.
fn formed(
    alloc: Global,
    tokens: &[Token],
    words: &mut Items<WordForm>,
) -> Result<LineBody, AllocError>
    ensures { IfOk result (λ found. IsFormed (body.Tokens tokens.now) found) }
{
    match tokens {
        [Token::Word(word)] => formed_of_word(alloc, *word, tokens, words),
        _ => formed_alone(alloc, tokens),
    }
}

/// What a line holds: the form of its tokens, or its fault.
fn line_body(alloc: Global, body: Body, words: &mut Items<WordForm>) -> Result<LineBody, AllocError>
    ensures { IfOk result (λ found. IsFormed body found) }
{
    match body {
        Body::Fault(fault) => Ok(LineBody::Fault(fault)),
        Body::Include(name) => Ok(LineBody::Include(name)),
        Body::Uses(name, list) => Ok(LineBody::Uses(name, list)),
        Body::Tokens(tokens) => formed(alloc, tokens.as_slice(), words),
    }
}

/// The lines of a text as far as they are read, each with its form.
#[derive(Drop)]
struct Forming {
    alloc: Global,
    lines: Items<SourceLine>,
    /// The forms of lines of one word that came up.
    words: Items<WordForm>,
}

impl Sink for Forming {
    ghost holds = { λ formed logicals. AreFormed logicals formed.lines };

    fn take(&mut self, logical: Logical) -> Result<(), AllocError> {
        let Logical { line, depth, body } = logical;
        let body = line_body(self.alloc, body, &mut self.words)?;
        self.lines.push(SourceLine { line, depth, body })?;
        Ok(())
    }
}

/// The lines of a text, each with its form.
fn formed_lines(alloc: Global, text: &[u8]) -> Result<Items<SourceLine>, TextFault>
    ensures lines { IfOk result (λ lines. IsPrepared text.now lines) }
    ensures large { IsErrOf result TextFault.TooLarge ↔ (262144 < length text.now) }
    ensures many { IsErrOf result TextFault.TooManyLines ↔ ((length text.now ≤ 262144) × (16384 < line_count text.now)) }
{
    let mut formed = Forming {
        alloc,
        lines: Items::new(alloc),
        words: Items::new(alloc),
    };
    read_lines(alloc, text, &mut formed)?;
    let Forming {
        alloc: _,
        lines,
        words: _,
    } = formed;
    Ok(lines)
}

/// The units that a text lists, to be shared.
fn shared_list(alloc: Global, text: &[u8]) -> Result<Option<Shared<Items<FileName>>>, AllocError>
    ensures { IfOk result (λ units. units ≡ spec_listed text.now) }
{
    match listed(alloc, text)? {
        Some(units) => Ok(Some(Shared::new(alloc, units)?)),
        None => Ok(None),
    }
}

/// The source of a text whose lines are these.
fn source(alloc: Global, text: &[u8], lines: Items<SourceLine>) -> Result<Source, AllocError>
    requires { IsPrepared text.now lines }
    ensures text { IfOk result (λ source. source.text ≡ text.now) }
    ensures lines { IfOk result (λ source. source.lines ≡ lines) }
{
    let lines = Shared::new(alloc, lines)?;
    let listed = shared_list(alloc, text)?;
    let text = Items::from_slice(alloc, text)?;
    Ok(Source::of(text, lines, listed))
}

/// The text with its lines, each with its form or its one fault, and with the units that it lists.
pub fn prepare(alloc: Global, text: &[u8]) -> Result<Source, TextFault>
    ensures text { IfOk result (λ source. source.text ≡ text.now) }
    ensures lines { IfOk result (λ source. IsPrepared text.now source.lines) }
    ensures only { IfOk result (λ source. (lines : List ASourceLine) → IsPrepared text.now lines → lines ≡ source.lines) }
    ensures large { IsErrOf result TextFault.TooLarge ↔ (262144 < length text.now) }
    ensures many { IsErrOf result TextFault.TooManyLines ↔ ((length text.now ≤ 262144) × (16384 < line_count text.now)) }
{
    source_law();
    let lines = formed_lines(alloc, text)?;
    Ok(source(alloc, text, lines)?)
}
