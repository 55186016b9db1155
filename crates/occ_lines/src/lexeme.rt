//! Single spellings: names, numbers and symbols.
ghost use Rattle.std.specs.Prelude.{◌≡◌, ◌≤◌, ◌+◌, ◌*◌, ◌∷◌, [], List, ℕ, SomeIff, drop, map, true};
ghost use Rattle.std.specs.Char.{is_ascii_hexdigit};
ghost use Rattle.std.specs.List.{list_all};
ghost use Rattle.std.specs.Str.Parse.{digits_value};
ghost use Rattle.occ_lines.specs.inside.Scan.{may_end_pair};
ghost use Rattle.occ_lines.specs.Lexeme.{found_in, greatest, is_name_byte as spec_is_name_byte, is_symbol as spec_is_symbol, reserved_row as spec_reserved_row, starts_hexadecimal as spec_starts_hexadecimal, starts_name as spec_starts_name, starts_number as spec_starts_number, symbol_row as spec_symbol_row};

use super::quoted::digit_value;
use super::token::{Symbol, Word};

/// The spellings of symbols of two bytes, each with the symbol that it is.
const PAIRS: [(&[u8], Symbol); 10] = [
    (b":=", Symbol::Assign),
    (b"::", Symbol::Counted),
    (b"<=", Symbol::AtMost),
    (b">=", Symbol::AtLeast),
    (b"<>", Symbol::Unequal),
    (b"><", Symbol::BitXor),
    (b"<<", Symbol::ShiftLeft),
    (b">>", Symbol::ShiftRight),
    (b"/\\", Symbol::BitAnd),
    (b"\\/", Symbol::BitOr),
];

/// What stands in the table beside the spelling.
pub fn found_in<T: Copy>(table: &[(&[u8], T)], bytes: &[u8]) -> Option<T>
    ensures { result ≡ found_in (map (λ row. (row.0.now, row.1)) table.now) bytes.now }
{
    for (spelling, meaning) in table {
        if spelling.first() == bytes.first() && *spelling == bytes {
            return Some(*meaning);
        }
    }
    None
}

/// What one byte is as a symbol, if it spells one.
#[tactic(auto, unfolding(crate::specs::Lexeme::symbol_row))]
#[inline(always)]
fn mark(byte: u8) -> Option<Symbol>
    ensures { result ≡ spec_symbol_row (byte ∷ []) }
{
    match byte {
        b'+' => Some(Symbol::Plus),
        b'-' => Some(Symbol::Minus),
        b'*' => Some(Symbol::Times),
        b'/' => Some(Symbol::Divide),
        b'\\' => Some(Symbol::Remainder),
        b'~' => Some(Symbol::BitNot),
        b'=' => Some(Symbol::Equal),
        b'<' => Some(Symbol::Less),
        b'>' => Some(Symbol::Greater),
        b'(' => Some(Symbol::Open),
        b')' => Some(Symbol::Close),
        b'[' => Some(Symbol::OpenIndex),
        b']' => Some(Symbol::CloseIndex),
        b',' => Some(Symbol::Comma),
        b';' => Some(Symbol::Semicolon),
        b':' => Some(Symbol::Colon),
        b'?' => Some(Symbol::Input),
        b'!' => Some(Symbol::Output),
        b'&' => Some(Symbol::Ampersand),
        _ => None,
    }
}

/// Whether a symbol of two bytes may end with this one.
fn ends_pair(byte: u8) -> bool
    ensures { result ≡ may_end_pair byte }
{
    matches!(byte, b'=' | b':' | b'<' | b'>' | b'/' | b'\\')
}

/// What the bytes are as a symbol, if they spell one.
#[tactic(auto, unfolding(crate::specs::Lexeme::symbol_row))]
#[inline(always)]
pub fn symbol_row(bytes: &[u8]) -> Option<Symbol>
    ensures { result ≡ spec_symbol_row bytes.now }
{
    match bytes {
        [byte] => mark(*byte),
        [_, last] if ends_pair(*last) => found_in(&PAIRS, bytes),
        _ => None,
    }
}

/// The reserved words that begin with a letter, each with the word that it is.
#[tactic(auto, unfolding(crate::specs::Lexeme::reserved_row))]
fn words_of(letter: u8) -> &'static [(&'static [u8], Word)]
    ensures { (more : List ℕ) → found_in (map (λ row. (row.0.now, row.1)) result.now) (letter ∷ more) ≡ spec_reserved_row (letter ∷ more) }
{
    match letter {
        b'A' => &[
            (b"AFTER", Word::After),
            (b"ALT", Word::Alt),
            (b"AND", Word::And),
            (b"ANY", Word::Any),
            (b"ASM", Word::Asm),
            (b"AT", Word::At),
        ],
        b'B' => &[
            (b"BITAND", Word::BitAnd),
            (b"BITNOT", Word::BitNot),
            (b"BITOR", Word::BitOr),
            (b"BOOL", Word::Bool),
            (b"BYTE", Word::Byte),
            (b"BYTESIN", Word::BytesIn),
        ],
        b'C' => &[(b"CASE", Word::Case), (b"CHAN", Word::Chan)],
        b'D' => &[(b"DATA", Word::Data)],
        b'E' => &[(b"ELSE", Word::Else)],
        b'F' => &[
            (b"FALSE", Word::False),
            (b"FOR", Word::For),
            (b"FROM", Word::From),
            (b"FUNCTION", Word::Function),
        ],
        b'G' => &[(b"GUY", Word::Guy)],
        b'I' => &[
            (b"IF", Word::If),
            (b"INLINE", Word::Inline),
            (b"INT", Word::Int),
            (b"INT16", Word::Int16),
            (b"INT32", Word::Int32),
            (b"INT64", Word::Int64),
            (b"IS", Word::Is),
        ],
        b'M' => &[
            (b"MINUS", Word::Minus),
            (b"MOSTNEG", Word::MostNeg),
            (b"MOSTPOS", Word::MostPos),
        ],
        b'N' => &[(b"NOT", Word::Not)],
        b'O' => &[
            (b"OF", Word::Of),
            (b"OFFSETOF", Word::OffsetOf),
            (b"OR", Word::Or),
        ],
        b'P' => &[
            (b"PACKED", Word::Packed),
            (b"PAR", Word::Par),
            (b"PLACE", Word::Place),
            (b"PLACED", Word::Placed),
            (b"PLUS", Word::Plus),
            (b"PORT", Word::Port),
            (b"PRI", Word::Pri),
            (b"PROC", Word::Proc),
            (b"PROCESSOR", Word::Processor),
            (b"PROTOCOL", Word::Protocol),
        ],
        b'R' => &[
            (b"REAL32", Word::Real32),
            (b"REAL64", Word::Real64),
            (b"RECORD", Word::Record),
            (b"REM", Word::Rem),
            (b"RESHAPES", Word::Reshapes),
            (b"RESULT", Word::Result),
            (b"RETYPES", Word::Retypes),
            (b"ROUND", Word::Round),
        ],
        b'S' => &[
            (b"SEQ", Word::Seq),
            (b"SIZE", Word::Size),
            (b"SKIP", Word::Skip),
            (b"STOP", Word::Stop),
        ],
        b'T' => &[
            (b"TIMER", Word::Timer),
            (b"TIMES", Word::Times),
            (b"TRUE", Word::True),
            (b"TRUNC", Word::Trunc),
            (b"TYPE", Word::Type),
        ],
        b'V' => &[
            (b"VAL", Word::Val),
            (b"VALOF", Word::ValOf),
            (b"VECSPACE", Word::VecSpace),
        ],
        b'W' => &[(b"WHILE", Word::While), (b"WORKSPACE", Word::Workspace)],
        _ => &[],
    }
}

/// What the bytes are as a reserved word, if they are one.
#[tactic(auto, unfolding(crate::specs::Lexeme::reserved_row))]
pub fn reserved_row(bytes: &[u8]) -> Option<Word>
    ensures { result ≡ spec_reserved_row bytes.now }
{
    match bytes {
        [first, ..] => found_in(words_of(*first), bytes),
        [] => None,
    }
}

/// Whether the bytes spell a symbol.
#[tactic(auto, unfolding(crate::specs::Lexeme::is_symbol))]
pub fn is_symbol(bytes: &[u8]) -> bool
    ensures { result ≡ spec_is_symbol bytes.now }
{
    symbol_row(bytes).is_some()
}

/// Whether the byte may stand in a name.
pub fn is_name_byte(b: u8) -> bool
    ensures { result ≡ spec_is_name_byte b }
{
    b.is_ascii_alphanumeric() || b == b'.'
}

/// Whether the first byte is a letter.
pub fn starts_name(text: &[u8]) -> bool
    ensures { result ≡ spec_starts_name text.now }
{
    match text {
        [first, ..] => first.is_ascii_alphabetic(),
        [] => false,
    }
}

/// Whether the first byte is a digit.
pub fn starts_number(text: &[u8]) -> bool
    ensures { result ≡ spec_starts_number text.now }
{
    match text {
        [first, ..] => first.is_ascii_digit(),
        [] => false,
    }
}

/// Whether a `#` and a hexadecimal digit stand first.
pub fn starts_hexadecimal(text: &[u8]) -> bool
    ensures { result ≡ spec_starts_hexadecimal text.now }
{
    match text {
        [first, second, ..] => *first == b'#' && second.is_ascii_hexdigit(),
        _ => false,
    }
}

/// What stands after the first byte.
pub fn after_first(text: &[u8]) -> &[u8]
    ensures { result.now ≡ drop 1 text.now }
{
    match text {
        [_, rest @ ..] => rest,
        [] => text,
    }
}

/// The number with one more digit after it, where a token holds it.
pub fn appended(radix: u64, number: u64, digit: u64) -> Option<u64>
    ensures { SomeIff result (number * radix + digit ≤ greatest) (number * radix + digit) }
{
    number.checked_mul(radix)?.checked_add(digit)
}

/// The value of digits, where a token holds it.
pub fn value(radix: u64, digits: &[u8]) -> Option<u64>
    requires some { 1 ≤ radix }
    requires digits { list_all is_ascii_hexdigit digits.now ≡ true }
    ensures { SomeIff result (digits_value radix digits.now ≤ greatest) (digits_value radix digits.now) }
{
    let mut value = 0;
    for digit in digits {
        value = appended(radix, value, u64::from(digit_value(*digit)))?;
    }
    Some(value)
}
