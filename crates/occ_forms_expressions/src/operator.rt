//! Operators by their token: in front of one operand, between two, or between more.
ghost use Rattle.occ_forms_expressions.specs.inside.Parts.{dyadic_of, dyadic_symbol_of, dyadic_word_of, monadic_of};
ghost use Rattle.occ_forms_expressions.specs.Reading.{dyadic_token};
ghost use Rattle.occ_forms_expressions.specs.Spelling.{monadic_token};
ghost use Rattle.occ_lines.specs.declared.token.Token.TheVariants as t;
ghost use Rattle.std.specs.Prelude.{IfSome, ◌≡◌};

use super::tree::{MonadicOperator, PairOperator, RunOperator};
use occ_lines::{Symbol, Token, Word};

/// An operator between two operands.
#[derive(Clone, Copy)]
pub enum Dyadic {
    Run(RunOperator),
    Pair(PairOperator),
}

/// The operator in front of one operand that the token is.
pub fn monadic_operator(token: &Token) -> Option<MonadicOperator>
    ensures value { result ≡ monadic_of token.now }
    ensures found { IfSome result (λ operator. token.now ≡ monadic_token operator) }
{
    match token {
        Token::Symbol(Symbol::Minus) => Some(MonadicOperator::Negate),
        Token::Word(Word::Minus) => Some(MonadicOperator::Minus),
        Token::Symbol(Symbol::BitNot) => Some(MonadicOperator::BitNot),
        Token::Word(Word::BitNot) => Some(MonadicOperator::BitNotWord),
        Token::Word(Word::Not) => Some(MonadicOperator::Not),
        Token::Word(Word::Size) => Some(MonadicOperator::Size),
        _ => None,
    }
}

/// The operator between two operands that the symbol is.
fn dyadic_symbol(symbol: Symbol) -> Option<Dyadic>
    ensures value { result ≡ dyadic_symbol_of symbol }
    ensures found { IfSome result (λ operator. t.Symbol symbol ≡ dyadic_token operator) }
{
    match symbol {
        Symbol::Plus => Some(Dyadic::Run(RunOperator::Add)),
        Symbol::Times => Some(Dyadic::Run(RunOperator::Multiply)),
        Symbol::BitAnd => Some(Dyadic::Run(RunOperator::BitAnd)),
        Symbol::BitOr => Some(Dyadic::Run(RunOperator::BitOr)),
        Symbol::BitXor => Some(Dyadic::Run(RunOperator::BitXor)),
        Symbol::Minus => Some(Dyadic::Pair(PairOperator::Subtract)),
        Symbol::Divide => Some(Dyadic::Pair(PairOperator::Divide)),
        Symbol::Remainder => Some(Dyadic::Pair(PairOperator::Remainder)),
        Symbol::ShiftLeft => Some(Dyadic::Pair(PairOperator::ShiftLeft)),
        Symbol::ShiftRight => Some(Dyadic::Pair(PairOperator::ShiftRight)),
        Symbol::Equal => Some(Dyadic::Pair(PairOperator::Equal)),
        Symbol::Unequal => Some(Dyadic::Pair(PairOperator::Unequal)),
        Symbol::Less => Some(Dyadic::Pair(PairOperator::Less)),
        Symbol::Greater => Some(Dyadic::Pair(PairOperator::Greater)),
        Symbol::AtMost => Some(Dyadic::Pair(PairOperator::AtMost)),
        Symbol::AtLeast => Some(Dyadic::Pair(PairOperator::AtLeast)),
        _ => None,
    }
}

/// The operator between two operands that the word is.
fn dyadic_word(word: Word) -> Option<Dyadic>
    ensures value { result ≡ dyadic_word_of word }
    ensures found { IfSome result (λ operator. t.Word word ≡ dyadic_token operator) }
{
    match word {
        Word::Plus => Some(Dyadic::Run(RunOperator::Plus)),
        Word::Times => Some(Dyadic::Run(RunOperator::Times)),
        Word::And => Some(Dyadic::Run(RunOperator::And)),
        Word::Or => Some(Dyadic::Run(RunOperator::Or)),
        Word::BitAnd => Some(Dyadic::Run(RunOperator::BitAndWord)),
        Word::BitOr => Some(Dyadic::Run(RunOperator::BitOrWord)),
        Word::Minus => Some(Dyadic::Pair(PairOperator::Minus)),
        Word::Rem => Some(Dyadic::Pair(PairOperator::RemainderWord)),
        Word::After => Some(Dyadic::Pair(PairOperator::After)),
        _ => None,
    }
}

/// The operator between two operands that the token is.
#[inline(always)]
pub fn dyadic_operator(token: &Token) -> Option<Dyadic>
    ensures value { result ≡ dyadic_of token.now }
    ensures found { IfSome result (λ operator. token.now ≡ dyadic_token operator) }
{
    match token {
        Token::Symbol(symbol) => dyadic_symbol(*symbol),
        Token::Word(word) => dyadic_word(*word),
        _ => None,
    }
}
