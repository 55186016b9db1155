//! A statement that is read line by line.
ghost use Rattle.std.specs.Prelude.{◌≡◌, ◌≤◌, ◌++◌, ◌∷◌, [], IfOk, List, OnOk, length};
ghost use Rattle.occ_lines.specs.Lines.{continues as spec_continues, goes_on as spec_goes_on, goes_on_symbol as spec_goes_on_symbol, goes_on_token as spec_goes_on_token, goes_on_word as spec_goes_on_word, logical_of as spec_logical_of, resumes as spec_resumes};
ghost use Rattle.occ_lines.specs.inside.Walk.{Settles, settled as spec_settled};
ghost use Rattle.occ_lines.specs.inside.Scan.{Adds, IsStringRead};

use super::blanks::{after_blanks, column};
use super::directive::directive_of;
use super::ending::Ending;
use super::quoted::{following, gather, string_ending};
use super::text::{Body, Logical};
use super::token::{Symbol, Token, Word};
use super::tokens;
use occ_base::{Code, Items};
use std::alloc::{AllocError, Global};

/// What a statement wants of the lines that follow.
#[derive(Drop)]
pub enum Wants {
    /// A further token.
    More,
    /// The rest of a string, of which these bytes are read.
    Rest(Items<u8>),
}

/// A statement that is not at its end.
#[derive(Drop)]
pub struct Statement {
    /// The line on which it begins.
    pub line: u32,
    /// The column in which it begins.
    pub column: u32,
    /// Its tokens so far.
    pub tokens: Items<Token>,
    pub wants: Wants,
}

/// Whether a statement goes on after the word.
fn goes_on_word(word: Word) -> bool
    ensures { result ≡ spec_goes_on_word word }
{
    matches!(
        word,
        Word::Rem
            | Word::Plus
            | Word::Minus
            | Word::Times
            | Word::BitAnd
            | Word::BitOr
            | Word::And
            | Word::Or
            | Word::After
            | Word::BitNot
            | Word::Not
            | Word::Size
            | Word::Is
            | Word::From
            | Word::For
            | Word::Retypes
            | Word::Reshapes
    )
}

/// Whether a statement goes on after the symbol.
fn goes_on_symbol(symbol: Symbol) -> bool
    ensures { result ≡ spec_goes_on_symbol symbol }
{
    !matches!(
        symbol,
        Symbol::Counted
            | Symbol::Open
            | Symbol::Close
            | Symbol::OpenIndex
            | Symbol::CloseIndex
            | Symbol::Colon
            | Symbol::Input
            | Symbol::Output
    )
}

/// Whether a statement goes on after the token.
#[inline(always)]
fn goes_on_token(token: &Token) -> bool
    ensures { result ≡ spec_goes_on_token token.now }
{
    match token {
        Token::Word(word) => goes_on_word(*word),
        Token::Symbol(symbol) => goes_on_symbol(*symbol),
        Token::Name(_)
        | Token::Decimal(_)
        | Token::Hexadecimal(_)
        | Token::Character(_)
        | Token::String(_) => false,
    }
}

/// Whether a statement goes on after these tokens.
#[inline(always)]
fn goes_on(tokens: &[Token]) -> bool
    ensures { result ≡ spec_goes_on tokens.now }
{
    match tokens {
        [.., last] => goes_on_token(last),
        [] => false,
    }
}

/// The logical line that begins on that line and in that column is put after those that are found.
#[inline(always)]
pub fn add(found: &mut Items<Logical>, line: u32, column: u32, body: Body) -> Result<(), AllocError>
    ensures { OnOk result (found.new ≡ found.old ++ spec_logical_of line column body ∷ []) }
{
    let depth = column / 2;
    if column % 2 == 1 {
        let body = Body::Fault(Code::L2);
        found.push(Logical { line, depth, body })
    } else {
        found.push(Logical { line, depth, body })
    }
}

/// A statement, where one of its lines ends so, is put after the lines that are found, or stays open.
#[inline(always)]
pub fn settle(
    found: &mut Items<Logical>,
    line: u32,
    column: u32,
    tokens: Items<Token>,
    ending: Ending,
) -> Result<Option<Statement>, AllocError>
    ensures { IfOk result (λ next. Adds found.old found.new (λ ended. Settles (spec_settled line column tokens ending) ended next)) }
{
    match ending {
        Ending::Whole => {
            if goes_on(tokens.as_slice()) {
                Ok(Some(Statement {
                    line,
                    column,
                    tokens,
                    wants: Wants::More,
                }))
            } else {
                add(found, line, column, Body::Tokens(tokens))?;
                Ok(None)
            }
        }
        Ending::Broken(bytes) => {
            Ok(Some(Statement {
                line,
                column,
                tokens,
                wants: Wants::Rest(bytes),
            }))
        }
        Ending::Bad(fault) => {
            add(found, line, column, Body::Fault(fault))?;
            Ok(None)
        }
    }
}

/// Whether a statement that began in that column goes on with the line, which is not skipped.
pub fn continues(first: u32, line: &[u8]) -> bool
    requires { length line.now ≤ 262144 }
    ensures { result ≡ spec_continues first line.now }
{
    first <= column(line) && directive_of(after_blanks(line)).is_none()
}

/// Whether a string of a statement that began in that column goes on with the line.
pub fn resumes(first: u32, line: &[u8]) -> bool
    requires { length line.now ≤ 262144 }
    ensures { result ≡ spec_resumes first line.now }
{
    first <= column(line) && following(after_blanks(line), b'*').is_some()
}

/// The tokens of a line that goes on with a string are put after those that are read already. It tells how the line ends.
pub fn read_string(
    alloc: Global,
    tokens: &mut Items<Token>,
    bytes: Items<u8>,
    text: &[u8],
) -> Result<Ending, AllocError>
    ensures { IfOk result (λ ending. IsStringRead tokens.old bytes text.now tokens.new ending) }
{
    let (bytes, rest) = gather(bytes, text)?;
    match following(rest, b'"') {
        Some(after) => {
            tokens.push(Token::String(bytes))?;
            tokens::read(alloc, tokens, after_blanks(after))
        }
        None => Ok(string_ending(bytes, rest)),
    }
}
