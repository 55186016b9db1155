//! Whether two texts differ in skipped lines alone. Then they have the same lines, and list the same units.
ghost use Rattle.occ_lines.specs.Lines.{IsLines};
ghost use Rattle.occ_lines.specs.Listing.{listed as spec_listed};
ghost use Rattle.occ_lines.specs.declared.text.Logical.{Logical as ALogical};
ghost use Rattle.occ_lines.specs.inside.Alike.{are_alike as spec_are_alike, is_alike as spec_is_alike};
ghost use Rattle.bstr.specs.Text.{lines_of, without_terminator};
ghost use Rattle.std.specs.Prelude.{◌≡◌, IsTrue, List, map};

use super::line::is_skipped;
use bstr::ByteSlice;

/// Whether two lines are one, or both are skipped.
fn is_alike(line: &[u8], other: &[u8]) -> bool
    ensures { result ≡ spec_is_alike line.now other.now }
{
    line == other || (is_skipped(line) && is_skipped(other))
}

/// Whether the texts have as many lines, and differ in skipped ones alone.
fn have_alike_lines(a: &[u8], b: &[u8]) -> bool
    ensures { result ≡ spec_are_alike (map without_terminator (lines_of a.now)) (map without_terminator (lines_of b.now)) }
{
    let mut others = b.lines();
    for line in a.lines() {
        match others.next() {
            Some(other) if is_alike(line, other) => (),
            _ => return false,
        }
    }
    others.next().is_none()
}

/// Whether two texts differ in skipped lines alone, so that they spell the same lines and list the same units. Of texts that
/// differ otherwise it says nothing.
pub fn are_alike(a: &[u8], b: &[u8]) -> bool
    ensures lines { IsTrue result → (xs : List ALogical) → IsLines a.now xs → IsLines b.now xs }
    ensures listed { IsTrue result → spec_listed a.now ≡ spec_listed b.now }
{
    have_alike_lines(a, b)
}
