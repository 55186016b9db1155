//! The logical lines of a text.
ghost use Rattle.std.specs.Prelude.{◌≡◌, [], ◌++◌, ◌≤◌, ◌<◌, ◌↔◌, List, IsTrue, IsErrOf, IfOk, OnOk, length};
ghost use Rattle.occ_lines.specs.Lines.{IsLines, limit_fault, line_count};
ghost use Rattle.occ_lines.specs.inside.Walk.{AreRead, unfinished as spec_unfinished};
ghost use Rattle.occ_lines.specs.declared.text.Logical.{Logical as ALogical};

use super::line::read_line;
use super::sink::Sink;
use super::statement::{Statement, Wants, add};
use super::text::{Body, Logical, TextFault};
use bstr::ByteSlice;
use occ_base::{Code, Items};
use std::alloc::{AllocError, Global};

/// The greatest number of bytes of a text.
const MOST_BYTES: usize = 262_144;

/// The greatest number of lines of a text.
const MOST_LINES: usize = 16_384;

/// Whether the text has over 16,384 lines. It has no more of them than bytes.
fn has_too_many_lines(text: &[u8]) -> bool
    ensures { IsTrue result ↔ (16384 < line_count text.now) }
{
    if text.len() <= MOST_LINES {
        return false;
    }
    let mut count = 0;
    for _line in text.lines() {
        if count == MOST_LINES {
            return true;
        }
        count += 1;
    }
    false
}

/// Why the text has no logical lines, where it is over a limit. This takes no memory.
pub fn text_fault(text: &[u8]) -> Option<TextFault>
    ensures { result ≡ limit_fault text.now }
{
    if text.len() > MOST_BYTES {
        Some(TextFault::TooLarge)
    } else if has_too_many_lines(text) {
        Some(TextFault::TooManyLines)
    } else {
        None
    }
}

/// The logical line of a statement that is open at the end of the text is put after those that are found.
fn finish(found: &mut Items<Logical>, statement: Option<Statement>) -> Result<(), AllocError>
    ensures { OnOk result (found.new ≡ found.old ++ spec_unfinished statement) }
{
    let Some(statement) = statement else {
        return Ok(());
    };
    let lack = match statement.wants {
        Wants::More => Code::L3,
        Wants::Rest(_) => Code::L4,
    };
    add(found, statement.line, statement.column, Body::Fault(lack))
}

/// The sink takes the lines that are found, and none is left.
fn hand_on<S: Sink>(found: &mut Items<Logical>, sink: &mut S) -> Result<(), AllocError>
    ensures taken { OnOk result ((lines : List ALogical) → S.holds sink.old lines → S.holds sink.new (lines ++ found.old)) }
    ensures none { OnOk result (found.new ≡ []) }
{
    while !found.is_empty() {
        sink.take(found.remove(0))?;
    }
    Ok(())
}

/// The sink takes the logical lines of a text within the limits. Two at most are found at once.
fn read<S: Sink>(alloc: Global, text: &[u8], sink: &mut S) -> Result<(), AllocError>
    requires bytes { length text.now ≤ 262144 }
    requires lines { line_count text.now ≤ 16384 }
    requires begins { S.holds sink.old [] }
    ensures { OnOk result ((lines : List ALogical) × AreRead text.now lines × S.holds sink.new lines) }
{
    let mut found = Items::new(alloc);
    let mut statement = None;
    let mut number = 0;
    for line in text.lines() {
        number += 1;
        statement = read_line(alloc, &mut found, statement, number, line)?;
        hand_on(&mut found, sink)?;
    }
    finish(&mut found, statement)?;
    hand_on(&mut found, sink)
}

/// A sink takes the logical lines of a text, one after the other.
#[tactic(auto, using(crate::proofs::Cut::read_lines))]
pub fn read_lines<S: Sink>(alloc: Global, text: &[u8], sink: &mut S) -> Result<(), TextFault>
    requires begins { S.holds sink.old [] }
    ensures found { OnOk result ((lines : List ALogical) × IsLines text.now lines × S.holds sink.new lines) }
    ensures large { IsErrOf result TextFault.TooLarge ↔ (262144 < length text.now) }
    ensures many { IsErrOf result TextFault.TooManyLines ↔ ((length text.now ≤ 262144) × (16384 < line_count text.now)) }
{
    if let Some(fault) = text_fault(text) {
        return Err(fault);
    }
    Ok(read(alloc, text, sink)?)
}

/// The logical lines of a text: its lines in order, without those that hold nothing but blanks and comments.
#[tactic(auto, using(crate::proofs::Cut::one_lines))]
pub fn logical(alloc: Global, text: &[u8]) -> Result<Items<Logical>, TextFault>
    // What is answered is what the text spells.
    ensures found { IfOk result (λ lines. IsLines text.now lines) }
    // The text spells no other.
    ensures only { IfOk result (λ lines. (xs : List ALogical) → IsLines text.now xs → xs ≡ lines) }
    ensures large { IsErrOf result TextFault.TooLarge ↔ (262144 < length text.now) }
    ensures many { IsErrOf result TextFault.TooManyLines ↔ ((length text.now ≤ 262144) × (16384 < line_count text.now)) }
{
    let mut found = Items::new(alloc);
    read_lines(alloc, text, &mut found)?;
    Ok(found)
}
