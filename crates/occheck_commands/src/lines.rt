//! How far it is to a byte, such as the end of a line or a word; how many lines have to end yet.
ghost use Rattle.occheck_commands.specs.Lines.{feeds};
ghost use Rattle.std.specs.List.{position, position_or_len};
ghost use Rattle.std.specs.Prelude.{◌≡◌, ◌≤◌, ◌==◌, ◌-◌, length};

use memchr::memchr;

/// How many bytes stand before the first of these, all where there is none.
#[tactic(auto, using(crate::proofs::Before::unwrapped, crate::proofs::Before::before_within))]
pub fn length_before(bytes: &[u8], end: u8) -> usize
    ensures value { result ≡ position_or_len (λ b. b == end) bytes.now }
    ensures within { result ≤ length bytes.now }
{
    place_of(bytes, end).unwrap_or(bytes.len())
}

/// The place of the first of these bytes.
#[tactic(auto, using(crate::proofs::Places::first_is_position))]
fn place_of(bytes: &[u8], byte: u8) -> Option<usize>
    ensures { result ≡ position (λ b. b == byte) bytes.now }
{
    memchr(byte, bytes)
}

/// How many of so many lines do not end in these bytes.
pub fn lines_lacking(bytes: &[u8], lines: usize) -> usize
    ensures { result ≡ lines - feeds bytes.now }
{
    let mut lacking = lines;
    let mut left = bytes;
    while lacking > 0 {
        let Some(place) = place_of(left, b'\n') else {
            break;
        };
        let (_, following) = left.split_at(place + 1);
        left = following;
        lacking -= 1;
    }
    lacking
}
