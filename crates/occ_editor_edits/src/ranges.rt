//! Where a place of an editor stands in the bytes of a text, and the text with a range of it changed.
ghost use Rattle.occ_editor_edits.specs.Places.{column_of, edited_text, ends_here as spec_ends_here, place_of, spliced_text, start_of};
ghost use Rattle.std.specs.Prelude.{◌≡◌, ◌≤◌, IfOk, length};

use std::alloc::{AllocError, Global};

/// A place in a text: lines and columns begin at 0, a column counts UTF-16 units.
#[derive(Clone, Copy)]
pub struct Place {
    pub line: u32,
    pub unit: u32,
}

/// The bytes of the line at the front of a text before so many units.
fn column(text: &[u8], unit: u32) -> usize
    ensures at { result ≡ column_of unit text.now }
    ensures within { result ≤ length text.now }
{
    let mut unit = unit;
    let mut count = 0;
    for b in text {
        let byte = *b;
        if byte == b'\n' || byte == b'\r' {
            return count;
        }
        if !(128 <= byte && byte < 192) {
            if unit == 0 {
                return count;
            }
            unit = unit.saturating_sub(if 240 <= byte { 2 } else { 1 });
        }
        count += 1;
    }
    count
}

/// Whether a line ends with a byte that the rest follows.
fn ends_here(byte: u8, rest: &[u8]) -> bool
    ensures { result ≡ spec_ends_here byte rest.now }
{
    match rest.first() {
        Some(next) => byte == b'\n' || byte == b'\r' && *next != b'\n',
        None => byte == b'\n' || byte == b'\r',
    }
}

/// The bytes of a text before a line.
#[tactic(auto, using(crate::proofs::Starts::start_of_none))]
fn start(text: &[u8], line: u32) -> usize
    ensures at { result ≡ start_of line text.now }
    ensures within { result ≤ length text.now }
{
    let mut line = line;
    let mut count = 0;
    for b in text {
        if line == 0 {
            return count;
        }
        if ends_here(*b, &text[count + 1..]) {
            line -= 1;
        }
        count += 1;
    }
    count
}

/// The bytes of a text before a place.
pub fn byte_at(text: &[u8], at: Place) -> usize
    ensures at { result ≡ place_of at text.now }
    ensures within { result ≤ length text.now }
{
    let start = start(text, at.line);
    start + column(&text[start..], at.unit)
}

/// The text with what stands between two places changed to `new`, whichever of them is first.
pub fn edited(
    alloc: Global,
    text: &[u8],
    from: Place,
    to: Place,
    new: &[u8],
) -> Result<Vec<u8>, AllocError>
    ensures { IfOk result (λ made. made.items ≡ edited_text from to new.now text.now) }
{
    let (one, other) = (byte_at(text, from), byte_at(text, to));
    if one <= other {
        spliced(alloc, text, one, other, new)
    } else {
        spliced(alloc, text, other, one, new)
    }
}

/// The text with the bytes from one place to a later one changed to `new`.
fn spliced(
    alloc: Global,
    text: &[u8],
    begin: usize,
    end: usize,
    new: &[u8],
) -> Result<Vec<u8>, AllocError>
    requires order { begin ≤ end }
    requires within { end ≤ length text.now }
    ensures { IfOk result (λ made. made.items ≡ spliced_text begin end new.now text.now) }
{
    let mut made = Vec::from_slice(alloc, &text[..begin])?;
    made.extend_from_slice(new)?;
    made.extend_from_slice(&text[end..])?;
    Ok(made)
}
