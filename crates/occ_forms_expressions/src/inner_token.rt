//! Finds the first token of a line that is in no expression and no type. It gives the class of the line.
ghost use Rattle.occ_forms_expressions.specs.Marks.{first_mark, is_inner as spec_is_inner, is_inner_symbol as spec_is_inner_symbol, is_inner_word as spec_is_inner_word, is_operator_word as spec_is_operator_word, is_type_word as spec_is_type_word, is_value_word as spec_is_value_word};
ghost use Rattle.std.specs.Prelude.{MatchOption, None, Some, ◌≡◌};

use occ_lines::{Symbol, Token, Word};

/// Whether the token may stand in an expression or a type.
fn is_inner(token: &Token) -> bool
    ensures { result ≡ spec_is_inner token.now }
{
    match token {
        Token::Word(word) => is_inner_word(*word),
        Token::Symbol(symbol) => is_inner_symbol(*symbol),
        _ => true,
    }
}

/// Whether the word may stand in an expression or a type.
fn is_inner_word(word: Word) -> bool
    ensures { result ≡ spec_is_inner_word word }
{
    is_operator_word(word) || is_type_word(word) || is_value_word(word)
}

/// Whether the word is an operator.
fn is_operator_word(word: Word) -> bool
    ensures { result ≡ spec_is_operator_word word }
{
    matches!(
        word,
        Word::After
            | Word::And
            | Word::BitAnd
            | Word::BitNot
            | Word::BitOr
            | Word::Minus
            | Word::Not
            | Word::Or
            | Word::Plus
            | Word::Rem
            | Word::Size
            | Word::Times
    )
}

/// Whether the word stands in a type.
fn is_type_word(word: Word) -> bool
    ensures { result ≡ spec_is_type_word word }
{
    matches!(
        word,
        Word::Any
            | Word::Bool
            | Word::Byte
            | Word::Chan
            | Word::Int
            | Word::Int16
            | Word::Int32
            | Word::Int64
            | Word::Of
            | Word::Timer
    )
}

/// Whether the word is a truth, begins a greatest or least value, or begins a bound of a segment.
fn is_value_word(word: Word) -> bool
    ensures { result ≡ spec_is_value_word word }
{
    matches!(
        word,
        Word::False | Word::For | Word::From | Word::MostNeg | Word::MostPos | Word::True
    )
}

/// Whether the symbol is an operator, a bracket, `,` or `::`.
fn is_inner_symbol(symbol: Symbol) -> bool
    ensures { result ≡ spec_is_inner_symbol symbol }
{
    matches!(
        symbol,
        Symbol::Counted
            | Symbol::AtMost
            | Symbol::AtLeast
            | Symbol::Unequal
            | Symbol::BitXor
            | Symbol::ShiftLeft
            | Symbol::ShiftRight
            | Symbol::BitAnd
            | Symbol::BitOr
            | Symbol::Plus
            | Symbol::Minus
            | Symbol::Times
            | Symbol::Divide
            | Symbol::Remainder
            | Symbol::BitNot
            | Symbol::Equal
            | Symbol::Less
            | Symbol::Greater
            | Symbol::Open
            | Symbol::Close
            | Symbol::OpenIndex
            | Symbol::CloseIndex
            | Symbol::Comma
    )
}

/// The first token that stands in no expression and no type.
pub fn mark(tokens: &[Token]) -> Option<&Token>
    ensures { MatchOption result (first_mark tokens.now ≡ None) (λ x. first_mark tokens.now ≡ Some x.now) }
{
    for token in tokens {
        if !is_inner(token) {
            return Some(token);
        }
    }
    None
}
