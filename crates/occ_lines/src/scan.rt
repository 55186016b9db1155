//! How long the longest spelling is that begins a text.
ghost use Rattle.std.specs.Prelude.{◌≡◌, ◌≤◌, ◌↔◌, IsTrue, length, take, true};
ghost use Rattle.std.specs.Char.{is_ascii_digit as a_digit, is_ascii_hexdigit as a_hexdigit};
ghost use Rattle.std.specs.List.{prefix_len};
ghost use Rattle.occ_lines.specs.Lexeme.{is_lexeme, is_name_byte as spec_is_name_byte, is_symbol as spec_is_symbol};
ghost use Rattle.occ_lines.specs.inside.Scan.{IsLongest};

use super::lexeme::{
    after_first, is_name_byte, is_symbol, starts_hexadecimal, starts_name, starts_number,
};

/// How many bytes in front may stand in a name.
pub fn name_len(text: &[u8]) -> usize
    ensures value { result ≡ prefix_len spec_is_name_byte text.now }
    ensures within { result ≤ length text.now }
{
    for (i, b) in text.iter().enumerate() {
        if !is_name_byte(*b) {
            return i;
        }
    }
    text.len()
}

/// How many bytes in front are digits.
fn number_len(text: &[u8]) -> usize
    ensures { result ≡ prefix_len a_digit text.now }
{
    for (i, b) in text.iter().enumerate() {
        if !b.is_ascii_digit() {
            return i;
        }
    }
    text.len()
}

/// How many bytes in front are hexadecimal digits.
fn hexadecimal_len(text: &[u8]) -> usize
    ensures { result ≡ prefix_len a_hexdigit text.now }
{
    for (i, b) in text.iter().enumerate() {
        if !b.is_ascii_hexdigit() {
            return i;
        }
    }
    text.len()
}

/// Whether so many bytes stand in front and spell a symbol.
fn starts_symbol(text: &[u8], len: usize) -> bool
    ensures { IsTrue result ↔ ((len ≤ length text.now) × (spec_is_symbol (take len text.now) ≡ true)) }
{
    len <= text.len() && is_symbol(text.split_at(len).0)
}

/// The length of the longest symbol that begins the text, or 0.
fn symbol_len(text: &[u8]) -> usize
    ensures { IsLongest spec_is_symbol text.now result }
{
    if starts_symbol(text, 2) {
        2
    } else if starts_symbol(text, 1) {
        1
    } else {
        0
    }
}

/// The length of the longest spelling that begins the text, or 0.
pub fn lexeme_len(text: &[u8]) -> usize
    ensures { IsLongest is_lexeme text.now result }
{
    if starts_name(text) {
        name_len(text)
    } else if starts_number(text) {
        number_len(text)
    } else if starts_hexadecimal(text) {
        1 + hexadecimal_len(after_first(text))
    } else {
        symbol_len(text)
    }
}
