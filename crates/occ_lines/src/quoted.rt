//! What stands between quotes.
ghost use Rattle.std.specs.Prelude.{◌≡◌, ◌≢◌, ◌≤◌, ◌<◌, [], ◌∷◌, List, ℕ, IfOk, IfSome, MatchOption, None, Some, length, true};
ghost use Rattle.std.specs.Char.{digit_value as the_digit_value, is_ascii_hexdigit};
ghost use Rattle.occ_lines.specs.Lexeme.{string_ending as spec_string_ending};
ghost use Rattle.occ_lines.specs.Quoted.{escape as spec_escape, escaped as spec_escaped, is_plain as spec_is_plain, two_digits as spec_two_digits, unit as spec_unit};
ghost use Rattle.occ_lines.specs.inside.Scan.{Gathers};

use super::ending::Ending;
use occ_base::{Code, Items};
use std::alloc::AllocError;

/// The first byte, and what is after it.
pub fn first_byte(text: &[u8]) -> Option<(u8, &[u8])>
    ensures { MatchOption result (text.now ≡ []) (λ x. text.now ≡ x.0 ∷ x.1.now) }
{
    match text {
        [first, rest @ ..] => Some((*first, rest)),
        [] => None,
    }
}

/// What is after the byte, where it stands first.
pub fn following(text: &[u8], byte: u8) -> Option<&[u8]>
    ensures { MatchOption result ((k : List ℕ) → text.now ≢ byte ∷ k) (λ rest. text.now ≡ byte ∷ rest.now) }
{
    match text {
        [first, rest @ ..] if *first == byte => Some(rest),
        _ => None,
    }
}

/// The value of a hexadecimal digit.
pub fn digit_value(digit: u8) -> u8
    requires { is_ascii_hexdigit digit ≡ true }
    ensures value { result ≡ the_digit_value digit }
    ensures small { result ≤ 15 }
{
    if digit <= b'9' {
        digit - b'0'
    } else if digit <= b'F' {
        digit - b'A' + 10
    } else {
        digit - b'a' + 10
    }
}

/// The byte of two hexadecimal digits, and what is after them.
fn two_digits(text: &[u8]) -> Option<(u8, &[u8])>
    ensures shorter { IfSome result (λ x. length x.1.now < length text.now) }
    ensures value { MatchOption result (spec_two_digits text.now ≡ None) (λ x. spec_two_digits text.now ≡ Some (x.0, x.1.now)) }
{
    let (high, rest) = first_byte(text)?;
    let (low, rest) = first_byte(rest)?;
    if high.is_ascii_hexdigit() && low.is_ascii_hexdigit() {
        Some((digit_value(high) * 16 + digit_value(low), rest))
    } else {
        None
    }
}

/// The byte that a letter or mark stands for after a `*`.
fn escaped(b: u8) -> Option<u8>
    ensures { result ≡ spec_escaped b }
{
    match b {
        b'c' | b'C' => Some(b'\r'),
        b'n' | b'N' => Some(b'\n'),
        b't' | b'T' => Some(b'\t'),
        b's' | b'S' => Some(b' '),
        b'\'' | b'"' | b'*' => Some(b),
        _ => None,
    }
}

/// The byte that is spelled after a `*`, and what is after its spelling.
fn escape(text: &[u8]) -> Option<(u8, &[u8])>
    ensures shorter { IfSome result (λ x. length x.1.now < length text.now) }
    ensures value { MatchOption result (spec_escape text.now ≡ None) (λ x. spec_escape text.now ≡ Some (x.0, x.1.now)) }
{
    let (first, rest) = first_byte(text)?;
    if first == b'#' {
        two_digits(rest)
    } else {
        Some((escaped(first)?, rest))
    }
}

/// Whether the byte is written as itself between quotes of this kind.
fn is_plain(quote: u8, b: u8) -> bool
    ensures { result ≡ spec_is_plain quote b }
{
    32 <= b && b <= 126 && (b != quote && b != b'*')
}

/// The byte that is spelled first between quotes of this kind, and what is after its spelling.
pub fn unit(quote: u8, text: &[u8]) -> Option<(u8, &[u8])>
    ensures value { MatchOption result (spec_unit quote text.now ≡ None) (λ x. spec_unit quote text.now ≡ Some (x.0, x.1.now)) }
    ensures shorter { IfSome result (λ x. length x.1.now < length text.now) }
{
    let (first, rest) = first_byte(text)?;
    if first == b'*' {
        escape(rest)
    } else if is_plain(quote, first) {
        Some((first, rest))
    } else {
        None
    }
}

/// The bytes of a string, put after those that are read of it, and what is after them.
pub fn gather(so_far: Items<u8>, text: &[u8]) -> Result<(Items<u8>, &[u8]), AllocError>
    ensures gathers { IfOk result (λ x. Gathers so_far text.now x.0 x.1.now) }
    ensures shorter { IfOk result (λ x. length x.1.now ≤ length text.now) }
{
    let mut found = so_far;
    let mut rest = text;
    'rest: while let Some((value, after)) = unit(b'"', rest) {
        found.push(value)?;
        rest = after;
    }
    Ok((found, rest))
}

/// How a line ends with a string of which these bytes are read, where what is after them spells none.
pub fn string_ending(bytes: Items<u8>, rest: &[u8]) -> Ending
    ensures { result ≡ spec_string_ending bytes rest.now }
{
    match rest {
        [] => Ending::Bad(Code::L4),
        [b'*'] => Ending::Broken(bytes),
        _ => Ending::Bad(Code::L1),
    }
}
