//! One line of the text after the other.
ghost use Rattle.std.specs.Prelude.{◌≡◌, ◌≤◌, IfOk, List, OnOk, length};
ghost use Rattle.occ_lines.specs.Directive.{directive_body as spec_directive_body};
ghost use Rattle.occ_lines.specs.Lines.{directive_lines as spec_directive_lines, is_skipped as spec_is_skipped, logical_of as spec_logical_of};
ghost use Rattle.occ_lines.specs.inside.Walk.{BreaksOff, Continues, IsFresh, IsLine, IsWanted, Resumes};
ghost use Rattle.occ_lines.specs.inside.Scan.{Adds};
ghost use Rattle.occ_lines.specs.declared.text.Body.TheVariants as body;

use super::blanks::{after_blanks, indented, is_end};
use super::directive::{Directive, directive_body, directive_of};
use super::lexeme::after_first;
use super::statement::{Statement, Wants, add, continues, read_string, resumes, settle};
use super::text::{Body, Logical};
use super::token::Token;
use super::tokens;
use occ_base::{Code, Items};
use std::alloc::{AllocError, Global};

/// For so many tokens there is room where a line begins: more than most lines have.
const ROOM: usize = 16;

/// The line as it goes on with a statement. The text is the line without the blanks in front.
#[inline(always)]
fn continued(
    alloc: Global,
    found: &mut Items<Logical>,
    first: u32,
    column: u32,
    tokens: Items<Token>,
    text: &[u8],
) -> Result<Option<Statement>, AllocError>
    ensures { IfOk result (λ next. Adds found.old found.new (λ ended. Continues first column tokens text.now ended next)) }
{
    let mut tokens = tokens;
    let ending = tokens::read(alloc, &mut tokens, text)?;
    settle(found, first, column, tokens, ending)
}

/// The line as it goes on with the string of a statement.
fn resumed(
    alloc: Global,
    found: &mut Items<Logical>,
    first: u32,
    column: u32,
    tokens: Items<Token>,
    bytes: Items<u8>,
    line: &[u8],
) -> Result<Option<Statement>, AllocError>
    ensures { IfOk result (λ next. Adds found.old found.new (λ ended. Resumes first column tokens bytes line.now ended next)) }
{
    let mut tokens = tokens;
    let ending = read_string(alloc, &mut tokens, bytes, after_first(after_blanks(line)))?;
    settle(found, first, column, tokens, ending)
}

/// The line of a directive, which begins in that column. The text is the line without the blanks in front.
fn directed(
    alloc: Global,
    found: &mut Items<Logical>,
    number: u32,
    column: u32,
    directive: Directive,
    text: &[u8],
) -> Result<(), AllocError>
    ensures { OnOk result (Adds found.old found.new (λ ended. ended ≡ spec_directive_lines number column (spec_directive_body directive text.now))) }
{
    match directive_body(alloc, directive, text)? {
        Some(body) => add(found, number, column, body),
        None => {
            if column % 2 == 1 {
                add(found, number, column, Body::Fault(Code::L2))
            } else {
                Ok(())
            }
        }
    }
}

/// Whether the line is blanks, or blanks and a comment.
pub fn is_skipped(line: &[u8]) -> bool
    ensures { result ≡ spec_is_skipped line.now }
{
    is_end(after_blanks(line))
}

/// The line where no statement is open.
#[inline(always)]
fn fresh(
    alloc: Global,
    found: &mut Items<Logical>,
    number: u32,
    line: &[u8],
) -> Result<Option<Statement>, AllocError>
    requires { length line.now ≤ 262144 }
    ensures { IfOk result (λ next. Adds found.old found.new (λ ended. IsFresh number line.now ended next)) }
{
    let (column, text) = indented(line);
    if is_end(text) {
        return Ok(None);
    }
    match directive_of(text) {
        Some(directive) => {
            directed(alloc, found, number, column, directive, text)?;
            Ok(None)
        }
        None => {
            let tokens = Items::from_vec(Vec::with_capacity(alloc, ROOM)?);
            continued(alloc, found, number, column, tokens, text)
        }
    }
}

/// The line where a statement, which began on that line and in that column, has ended with that fault.
fn broken_off(
    alloc: Global,
    found: &mut Items<Logical>,
    first: u32,
    column: u32,
    fault: Code,
    number: u32,
    line: &[u8],
) -> Result<Option<Statement>, AllocError>
    requires { length line.now ≤ 262144 }
    ensures { IfOk result (λ next. Adds found.old found.new (λ lines. BreaksOff (spec_logical_of first column (body.Fault fault)) number line.now lines next)) }
{
    add(found, first, column, Body::Fault(fault))?;
    fresh(alloc, found, number, line)
}

/// The line where a statement is open.
fn wanted(
    alloc: Global,
    found: &mut Items<Logical>,
    statement: Statement,
    number: u32,
    line: &[u8],
) -> Result<Option<Statement>, AllocError>
    requires { length line.now ≤ 262144 }
    ensures { IfOk result (λ next. Adds found.old found.new (λ ended. IsWanted statement.wants statement number line.now ended next)) }
{
    let Statement {
        line: first,
        column,
        tokens,
        wants,
    } = statement;
    match wants {
        Wants::More => {
            if is_skipped(line) {
                Ok(Some(Statement {
                    line: first,
                    column,
                    tokens,
                    wants: Wants::More,
                }))
            } else if continues(column, line) {
                continued(alloc, found, first, column, tokens, after_blanks(line))
            } else {
                broken_off(alloc, found, first, column, Code::L3, number, line)
            }
        }
        Wants::Rest(bytes) => {
            if resumes(column, line) {
                resumed(alloc, found, first, column, tokens, bytes, line)
            } else {
                broken_off(alloc, found, first, column, Code::L4, number, line)
            }
        }
    }
}

/// The line, where that statement is open, if there is one.
pub fn read_line(
    alloc: Global,
    found: &mut Items<Logical>,
    statement: Option<Statement>,
    number: u32,
    line: &[u8],
) -> Result<Option<Statement>, AllocError>
    requires { length line.now ≤ 262144 }
    ensures { IfOk result (λ next. Adds found.old found.new (λ ended. IsLine statement number line.now ended next)) }
{
    match statement {
        Some(statement) => wanted(alloc, found, statement, number, line),
        None => fresh(alloc, found, number, line),
    }
}
