//! The tokens of a line of the text.
ghost use Rattle.std.specs.Prelude.{◌≡◌, ◌<◌, ◌∷◌, List, ℕ, IfErr, IfOk, length, true};
ghost use Rattle.occ_lines.specs.Lexeme.{IsToken, Lexes, Stops, hexadecimal_token as spec_hexadecimal_token, is_hexadecimal as spec_is_hexadecimal, is_lexeme, is_number as spec_is_number, name_token as spec_name_token, number_token as spec_number_token, symbol_token as spec_symbol_token, token_of as spec_token_of};
ghost use Rattle.occ_lines.specs.inside.Scan.{IsRead};

use super::blanks::{after_blanks, is_end};
use super::ending::Ending;
use super::lexeme::{
    after_first, reserved_row, starts_hexadecimal, starts_name, starts_number, symbol_row, value,
};
use super::quoted::{following, gather, string_ending, unit};
use super::scan::lexeme_len;
use super::token::Token;
use occ_base::{Code, Items, Name};
use std::alloc::{AllocError, Global};

/// The token that a name is.
#[tactic(auto, unfolding(crate::specs::Lexeme::name_token))]
fn name_token(alloc: Global, name: &[u8]) -> Result<Token, AllocError>
    ensures { IfOk result (λ found. found ≡ spec_name_token name.now) }
{
    match reserved_row(name) {
        None => Ok(Token::Name(Name::from_slice(alloc, name)?)),
        Some(word) => Ok(Token::Word(word)),
    }
}

/// The token that digits are, if they are one.
#[tactic(auto, unfolding(crate::specs::Lexeme::number_token))]
fn number_token(digits: &[u8]) -> Option<Token>
    requires { spec_is_number digits.now ≡ true }
    ensures { result ≡ spec_number_token digits.now }
{
    match value(10, digits) {
        Some(value) => Some(Token::Decimal(value)),
        None => None,
    }
}

/// The token that a `#` and hexadecimal digits are, if they are one.
#[tactic(auto, unfolding(crate::specs::Lexeme::hexadecimal_token))]
fn hexadecimal_token(bytes: &[u8]) -> Option<Token>
    requires { spec_is_hexadecimal bytes.now ≡ true }
    ensures { result ≡ spec_hexadecimal_token bytes.now }
{
    match value(16, after_first(bytes)) {
        Some(value) => Some(Token::Hexadecimal(value)),
        None => None,
    }
}

/// The token that a symbol is, if it is one.
#[tactic(auto, unfolding(crate::specs::Lexeme::symbol_token))]
fn symbol_token(bytes: &[u8]) -> Option<Token>
    ensures { result ≡ spec_symbol_token bytes.now }
{
    match symbol_row(bytes) {
        Some(symbol) => Some(Token::Symbol(symbol)),
        None => None,
    }
}

/// The token that a spelling is, if it is one. Its first bytes say of which class it is.
#[tactic(auto, using(crate::proofs::Longest::told_name, crate::proofs::Longest::told_number, crate::proofs::Longest::told_hexadecimal), unfolding(crate::specs::Lexeme::token_of))]
fn token_of(alloc: Global, bytes: &[u8]) -> Result<Option<Token>, AllocError>
    requires { 0 < length bytes.now → is_lexeme bytes.now ≡ true }
    ensures { IfOk result (λ found. found ≡ spec_token_of bytes.now) }
{
    if starts_name(bytes) {
        Ok(Some(name_token(alloc, bytes)?))
    } else if starts_number(bytes) {
        Ok(number_token(bytes))
    } else if starts_hexadecimal(bytes) {
        Ok(hexadecimal_token(bytes))
    } else {
        Ok(symbol_token(bytes))
    }
}

/// The token that begins the text, and what follows it; or how the line ends there. No quote stands first.
fn lexeme(alloc: Global, text: &[u8]) -> Result<Result<(Token, &[u8]), Ending>, AllocError>
    requires no_character { (k : List ℕ) → text.now ≡ 39 ∷ k → ⊥ }
    requires no_string { (k : List ℕ) → text.now ≡ 34 ∷ k → ⊥ }
    ensures found { IfOk result (λ r. IfOk r (λ x. IsToken text.now x.0 x.1.now)) }
    ensures shorter { IfOk result (λ r. IfOk r (λ x. length x.1.now < length text.now)) }
    ensures stops { IfOk result (λ r. IfErr r (λ ending. Stops text.now ending)) }
{
    let (bytes, rest) = text.split_at(lexeme_len(text));
    match token_of(alloc, bytes)? {
        Some(token) => Ok(Ok((token, rest))),
        None => Ok(Err(Ending::Bad(Code::L1))),
    }
}

/// The character whose first quote is read, and what follows it.
fn character<'a>(text: &[u8], body: &'a [u8]) -> Result<(Token, &'a [u8]), Ending>
    requires { text.now ≡ 39 ∷ body.now }
    ensures found { IfOk result (λ x. IsToken text.now x.0 x.1.now) }
    ensures shorter { IfOk result (λ x. length x.1.now < length text.now) }
    ensures stops { IfErr result (λ ending. Stops text.now ending) }
{
    let Some((value, after)) = unit(b'\'', body) else {
        return Err(Ending::Bad(Code::L1));
    };
    let Some(rest) = following(after, b'\'') else {
        return Err(Ending::Bad(Code::L1));
    };
    Ok((Token::Character(value), rest))
}

/// The string whose first quote is read, and what follows it; or how the line ends with it.
fn string<'a>(
    alloc: Global,
    text: &[u8],
    body: &'a [u8],
) -> Result<Result<(Token, &'a [u8]), Ending>, AllocError>
    requires { text.now ≡ 34 ∷ body.now }
    ensures found { IfOk result (λ r. IfOk r (λ x. IsToken text.now x.0 x.1.now)) }
    ensures shorter { IfOk result (λ r. IfOk r (λ x. length x.1.now < length text.now)) }
    ensures stops { IfOk result (λ r. IfErr r (λ ending. Stops text.now ending)) }
{
    let (bytes, rest) = gather(Items::new(alloc), body)?;
    match following(rest, b'"') {
        Some(after) => Ok(Ok((Token::String(bytes), after))),
        None => Ok(Err(string_ending(bytes, rest))),
    }
}

/// The first token of the text, and what follows it; or how the line ends where there is none.
pub fn first(alloc: Global, text: &[u8]) -> Result<Result<(Token, &[u8]), Ending>, AllocError>
    ensures found { IfOk result (λ r. IfOk r (λ x. IsToken text.now x.0 x.1.now)) }
    ensures shorter { IfOk result (λ r. IfOk r (λ x. length x.1.now < length text.now)) }
    ensures stops { IfOk result (λ r. IfErr r (λ ending. Stops text.now ending)) }
{
    if let Some(body) = following(text, b'"') {
        return string(alloc, text, body);
    }
    if let Some(body) = following(text, b'\'') {
        return Ok(character(text, body));
    }
    lexeme(alloc, text)
}

/// The tokens of a text that no blank begins are put after those that are read already. It tells how the text ends.
pub fn read(alloc: Global, tokens: &mut Items<Token>, text: &[u8]) -> Result<Ending, AllocError>
    ensures { IfOk result (λ ending. IsRead tokens.old text.now tokens.new ending) }
{
    let mut rest = text;
    'rest: while !is_end(rest) {
        match first(alloc, rest)? {
            Ok((token, after)) => {
                tokens.push(token)?;
                rest = after_blanks(after);
            }
            Err(ending) => return Ok(ending),
        }
    }
    Ok(Ending::Whole)
}
