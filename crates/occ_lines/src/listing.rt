//! The units that a text lists, one on each line. `docs/LANGUAGE.md, Lists of units`.
ghost use Rattle.std.specs.List.{list_any};
ghost use Rattle.std.specs.Prelude.{◌≡◌, IfOk, MatchOption, false, true};
ghost use Rattle.occ_lines.specs.Directive.{unit_name as spec_unit_name};
ghost use Rattle.occ_lines.specs.Listing.{before_comment as spec_before_comment, is_broken_by, listed as spec_listed, name_on as spec_name_on, names_unit, trimmed as spec_trimmed};

use super::blanks::{after_blanks, is_blank, is_end};
use super::directive::unit_of;
use super::line::is_skipped;
use bstr::ByteSlice;
use occ_base::{FileName, Items, first_indices};
use std::alloc::{AllocError, Global};

/// The line up to the first blank that stands before a comment or at the end.
fn before_comment(line: &[u8]) -> &[u8]
    ensures { result.now ≡ spec_before_comment line.now }
{
    for (i, b) in line.iter().enumerate() {
        if is_blank(*b) && is_end(line.split_at(i + 1).1) {
            return line.split_at(i).0;
        }
    }
    line
}

/// The text without the blanks at its end.
fn trimmed(text: &[u8]) -> &[u8]
    ensures { result.now ≡ spec_trimmed text.now }
{
    let mut len = text.len();
    while len > 0 && is_blank(text[len - 1]) {
        len -= 1;
    }
    text.split_at(len).0
}

/// The name on a line that is not skipped.
fn name_on(line: &[u8]) -> &[u8]
    ensures { result.now ≡ spec_name_on line.now }
{
    trimmed(before_comment(after_blanks(line)))
}

/// Whether a name has a blank or a CR inside.
fn is_broken(name: &[u8]) -> bool
    ensures { result ≡ list_any is_broken_by name.now }
{
    name.iter().any(|b| is_blank(*b) || *b == b'\r')
}

/// The unit on a line that is not skipped, if it names one.
fn unit_on(line: &[u8]) -> Option<FileName>
    ensures { MatchOption result (names_unit (spec_name_on line.now) ≡ false) (λ unit. (unit ≡ spec_unit_name (spec_name_on line.now)) × (names_unit (spec_name_on line.now) ≡ true)) }
{
    let name = name_on(line);
    if is_broken(name) {
        return None;
    }
    unit_of(name).ok()
}

/// The units that the lines of a text list, each at its first place; nothing, if a line of it names no file.
pub fn listed(alloc: Global, text: &[u8]) -> Result<Option<Items<FileName>>, AllocError>
    ensures { IfOk result (λ units. units ≡ spec_listed text.now) }
{
    let mut units = Items::new(alloc);
    for line in text.lines() {
        if is_skipped(line) {
            continue;
        }
        match unit_on(line) {
            Some(unit) => units.push(unit)?,
            None => return Ok(None),
        }
    }
    Ok(Some(first_indices(alloc, units.as_slice())?))
}
