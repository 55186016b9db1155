//! With what an expression can begin, by its first token.
ghost use Rattle.occ_forms_expressions.specs.Reading.{begin_of, begin_symbol, begin_word};
ghost use Rattle.std.specs.Prelude.{◌≡◌};

use occ_lines::{Symbol, Token, Word};

/// With what an expression begins, as its first token says.
#[derive(Clone, Copy)]
pub enum Begin {
    /// With nothing that begins an expression.
    Nothing,
    /// With `MOSTPOS` or `MOSTNEG`.
    Extreme,
    Monadic,
    /// With a word of a type.
    Builtin,
    Name,
    /// With `[`.
    Bracket,
    /// With `(`.
    Parens,
    /// With a literal, `TRUE` or `FALSE`.
    Value,
}

/// What the first token says.
#[inline(always)]
pub fn begins(tokens: &[Token]) -> Begin
    ensures { result ≡ begin_of tokens.now }
{
    match tokens {
        [] => Begin::Nothing,
        [Token::Word(word), ..] => begins_word(*word),
        [Token::Symbol(symbol), ..] => begins_symbol(*symbol),
        [Token::Name(_), ..] => Begin::Name,
        [_, ..] => Begin::Value,
    }
}

/// What a first word says.
fn begins_word(word: Word) -> Begin
    ensures { result ≡ begin_word word }
{
    match word {
        Word::MostPos | Word::MostNeg => Begin::Extreme,
        Word::Minus | Word::BitNot | Word::Not | Word::Size => Begin::Monadic,
        Word::Bool
        | Word::Byte
        | Word::Int
        | Word::Int16
        | Word::Int32
        | Word::Int64
        | Word::Timer
        | Word::Chan => Begin::Builtin,
        Word::True | Word::False => Begin::Value,
        _ => Begin::Nothing,
    }
}

/// What a first symbol says.
fn begins_symbol(symbol: Symbol) -> Begin
    ensures { result ≡ begin_symbol symbol }
{
    match symbol {
        Symbol::Minus | Symbol::BitNot => Begin::Monadic,
        Symbol::Open => Begin::Parens,
        Symbol::OpenIndex => Begin::Bracket,
        _ => Begin::Nothing,
    }
}
