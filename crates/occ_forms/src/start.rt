//! What a line can specify, by its first token.
ghost use Rattle.occ_forms.specs.SpecificationReading.{start_of};
ghost use Rattle.std.specs.Prelude.{◌≡◌};

use occ_lines::{Token, Word};

/// What a line can specify, as its first token says.
#[derive(Clone, Copy)]
pub enum Start {
    Procedure,
    Protocol,
    DataType,
    /// A value: the line begins with `VAL`.
    Value,
    /// Anything that begins with a name or a type.
    Other,
}

/// What the first token says.
pub fn starts(tokens: &[Token]) -> Start
    ensures { result ≡ start_of tokens.now }
{
    match tokens {
        [Token::Word(Word::Inline | Word::Proc), ..] => Start::Procedure,
        [Token::Word(Word::Protocol), ..] => Start::Protocol,
        [Token::Word(Word::Data), ..] => Start::DataType,
        [Token::Word(Word::Val), ..] => Start::Value,
        _ => Start::Other,
    }
}
