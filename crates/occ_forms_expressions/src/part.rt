//! What single tokens are: primitive types, MOSTPOS and MOSTNEG, TRUE and FALSE, literals.
ghost use Rattle.occ_forms_expressions.specs.inside.Parts.{data_base_of, extreme_of, literal_of, primitive_of, truth_of};
ghost use Rattle.occ_forms_expressions.specs.Spelling.{data_base_token, extreme_word, literal_token, primitive_word, truth_word};
ghost use Rattle.occ_lines.specs.declared.token.Token.TheVariants as t;
ghost use Rattle.std.specs.Prelude.{IfOk, IfSome, ◌≡◌};

use super::tree::{DataBase, Extreme, Literal, PrimitiveWord};
use occ_base::Items;
use occ_lines::{Token, Word};
use std::alloc::{AllocError, Global};

/// The primitive type that the token is.
pub fn primitive(token: &Token) -> Option<PrimitiveWord>
    ensures value { result ≡ primitive_of token.now }
    ensures found { IfSome result (λ p. token.now ≡ t.Word (primitive_word p)) }
{
    match token {
        Token::Word(Word::Bool) => Some(PrimitiveWord::Bool),
        Token::Word(Word::Byte) => Some(PrimitiveWord::Byte),
        Token::Word(Word::Int) => Some(PrimitiveWord::Int),
        Token::Word(Word::Int16) => Some(PrimitiveWord::Int16),
        Token::Word(Word::Int32) => Some(PrimitiveWord::Int32),
        Token::Word(Word::Int64) => Some(PrimitiveWord::Int64),
        _ => None,
    }
}

/// The innermost data type that the token is.
pub fn data_base(alloc: Global, token: &Token) -> Result<Option<DataBase>, AllocError>
    ensures value { IfOk result (λ found. found ≡ data_base_of token.now) }
    ensures found { IfOk result (λ found. IfSome found (λ base. token.now ≡ data_base_token base)) }
{
    if let Token::Name(name) = token {
        return Ok(Some(DataBase::Named(name.copied(alloc)?)));
    }
    match primitive(token) {
        Some(primitive) => Ok(Some(DataBase::Primitive(primitive))),
        None => Ok(None),
    }
}

/// Whether the token is `MOSTPOS` or `MOSTNEG`.
pub fn extreme(token: &Token) -> Option<Extreme>
    ensures value { result ≡ extreme_of token.now }
    ensures found { IfSome result (λ x. token.now ≡ t.Word (extreme_word x)) }
{
    match token {
        Token::Word(Word::MostPos) => Some(Extreme::Greatest),
        Token::Word(Word::MostNeg) => Some(Extreme::Least),
        _ => None,
    }
}

/// The truth value that the token is.
pub fn truth(token: &Token) -> Option<bool>
    ensures value { result ≡ truth_of token.now }
    ensures found { IfSome result (λ x. token.now ≡ t.Word (truth_word x)) }
{
    match token {
        Token::Word(Word::True) => Some(true),
        Token::Word(Word::False) => Some(false),
        _ => None,
    }
}

/// The literal that the token is.
pub fn literal(alloc: Global, token: &Token) -> Result<Option<Literal>, AllocError>
    ensures value { IfOk result (λ found. found ≡ literal_of token.now) }
    ensures found { IfOk result (λ found. IfSome found (λ x. token.now ≡ literal_token x)) }
{
    match token {
        Token::Decimal(number) => Ok(Some(Literal::Decimal(*number))),
        Token::Hexadecimal(number) => Ok(Some(Literal::Hexadecimal(*number))),
        Token::Character(byte) => Ok(Some(Literal::Character(*byte))),
        Token::String(bytes) => {
            let bytes = Items::from_slice(alloc, bytes.as_slice())?;
            Ok(Some(Literal::String(bytes)))
        }
        _ => Ok(None),
    }
}
