//! File names: which bytes are one, and the first fault of those that are none. `docs/MACHINE.md, File names`.
ghost use Rattle.std.proofs.Common.{rules};
ghost use Rattle.std.proofs.lemmas.Cmp.{nat_list_cmp_total};
ghost use Rattle.std.specs.Cmp.{partial_order_from_own_ties};
ghost use Rattle.std.specs.Cmp.Lexicographic.{slice_cmp};
ghost use Rattle.std.specs.Cmp.Rules.{comparing, hashing};
ghost use Rattle.std.specs.List.{ends_with, list_all};
ghost use Rattle.std.specs.Ordering.{as_partial_cmp, nat_cmp};
ghost use Rattle.std.specs.Prelude.{[], ◌∷◌, ◌≡◌, ◌≤◌, ◌↔◌, IfOk, IsTrue, length, nat_eq};
ghost use Rattle.std.specs.Result.{result_err};
ghost use Rattle.std.specs.Str.{bytes_eq};
ghost use Rattle.std.specs.declared.cmp.Ordering.TheVariants.{Equal};
ghost use Rattle.occ_base.specs.FileName.{IsFileName, has_length as spec_has_length, has_suffix as spec_has_suffix, is_file_byte as spec_is_file_byte, is_unit, name_fault};
ghost use Rattle.occ_base.specs.inside.Front.{front as spec_front};

use super::short;
use std::cmp::Ordering;
use std::hash::{Hash, Hasher};
use std::marker::Model;
use thiserror::Error;

/// Why bytes are no file name. Where several hold, the first of this order is reported.
#[derive(Clone, Copy, Debug, Error)]
pub enum NameFault {
    /// There is no byte, or there are more than 64.
    #[error("a file name has 1 to 64 bytes")]
    Length,
    /// A byte that is no letter, digit, `.`, `_` or `-`.
    #[error("a file name has letters, digits, `.`, `_` and `-` alone")]
    Byte,
    /// The end is none of `.occ`, `.inc` and `.lbb`.
    #[error("a file name ends in .occ, .inc or .lbb")]
    Suffix,
}

/// The name of a file: in contracts its bytes, by which names are ordered.
#[derive(Clone, Copy, Debug)]
pub struct FileName {
    bytes: [u8; 64],
    len: u8,
}

impl Model for FileName {
    ghost use Rattle.std.specs.Prelude.{List, ℕ};
    ghost use Rattle.std.specs.Coded.{coded_list, coded_ℕ};

    ghost Value = { List ℕ };

    ghost coded = { coded_list coded_ℕ };

    ghost use Rattle.occ_base.specs.Padded.{IsPadded, padded, padded_back, shown};

    ghost view = { shown };

    ghost invariant = { IsPadded };

    ghost inverse = { padded };

    ghost inverse_ok = { padded_back };
}

impl FileName {
    /// The file name of these bytes, or the first fault that they have.
    #[tactic(auto, using(crate::proofs::Names::is_short))]
    pub fn read(bytes: &[u8]) -> Result<FileName, NameFault>
        ensures ok { IfOk result (λ name. name ≡ bytes.now) }
        ensures fault { result_err result ≡ name_fault bytes.now }
    {
        match fault(bytes) {
            Some(fault) => Err(fault),
            None => Ok(held(bytes)),
        }
    }

    /// The bytes of the name.
    pub fn as_bytes(&self) -> &[u8]
        ensures value { result.now ≡ self.now }
        ensures named { IsFileName self.now }
    {
        &self.bytes[..self.len as usize]
    }

    /// Whether the file is a unit: its name ends in `.occ`.
    pub fn is_unit(&self) -> bool
        ensures { result ≡ is_unit self.now }
    {
        ends_in(self.as_bytes(), b".occ")
    }

    /// The first 16 of the bytes and of the zeros after them.
    fn front(&self) -> &[u8; 16]
        ensures value { result.now ≡ spec_front self.now }
        ensures named { IsFileName self.now }
    {
        match self.bytes.split_first_chunk::<16>() {
            Some((front, _)) => front,
            None => unreachable!(),
        }
    }

    /// Which of two names comes first of which the first 16 bytes are the same: where there are no more the longer one is after the
    /// other.
    fn order_of_one_front(&self, other: &FileName) -> Ordering
        requires { slice_cmp nat_cmp (spec_front self.now) (spec_front other.now) ≡ Equal }
        ensures { result ≡ slice_cmp nat_cmp self.now other.now }
    {
        if self.len <= 16 && other.len <= 16 {
            return self.len.cmp(&other.len);
        }
        order(self.as_bytes(), other.as_bytes())
    }
}

/// The first fault of the bytes as a file name.
fn fault(bytes: &[u8]) -> Option<NameFault>
    ensures { result ≡ name_fault bytes.now }
{
    if !has_length(bytes) {
        Some(NameFault::Length)
    } else if !has_file_bytes(bytes) {
        Some(NameFault::Byte)
    } else if !has_suffix(bytes) {
        Some(NameFault::Suffix)
    } else {
        None
    }
}

fn has_length(bytes: &[u8]) -> bool
    ensures { result ≡ spec_has_length bytes.now }
{
    1 <= bytes.len() && bytes.len() <= 64
}

fn has_file_bytes(bytes: &[u8]) -> bool
    ensures { result ≡ list_all spec_is_file_byte bytes.now }
{
    bytes.iter().all(|b| is_file_byte(*b))
}

fn is_file_byte(b: u8) -> bool
    ensures { result ≡ spec_is_file_byte b }
{
    b.is_ascii_alphanumeric() || b == b'.' || b == b'_' || b == b'-'
}

fn has_suffix(bytes: &[u8]) -> bool
    ensures { result ≡ spec_has_suffix bytes.now }
{
    ends_in(bytes, b".occ") || ends_in(bytes, b".inc") || ends_in(bytes, b".lbb")
}

/// Whether four bytes are the same as four others.
fn are_same_four(a: &[u8; 4], b: &[u8; 4]) -> bool
    ensures { IsTrue result ↔ (a.now ≡ b.now) }
{
    u32::from_le_bytes(*a) == u32::from_le_bytes(*b)
}

/// Whether these are the last four of the bytes.
fn ends_in(bytes: &[u8], last: &[u8; 4]) -> bool
    ensures { result ≡ ends_with nat_eq bytes.now last.now }
{
    match bytes.split_last_chunk::<4>() {
        Some((_, end)) => are_same_four(last, end),
        None => false,
    }
}

/// The name of bytes that are one.
fn held(bytes: &[u8]) -> FileName
    requires short { length bytes.now ≤ 64 }
    requires named { IsFileName bytes.now }
    ensures { result ≡ bytes.now }
{
    let mut all = [0; 64];
    let (front, _) = all.split_at_mut(bytes.len());
    front.copy_from_slice(bytes);
    FileName {
        bytes: all,
        len: bytes.len() as u8,
    }
}

/// Whether eight bytes are the same as eight others.
fn are_same_word(a: &[u8; 8], b: &[u8; 8]) -> bool
    ensures { IsTrue result ↔ (a.now ≡ b.now) }
{
    u64::from_le_bytes(*a) == u64::from_le_bytes(*b)
}

/// Whether the bytes of two names are the same: where both have eight the first eight at once, the others one after the other.
/// Names are short, so that this costs less than a comparison of slices.
fn are_same(a: &[u8], b: &[u8]) -> bool
    ensures { result ≡ bytes_eq a.now b.now }
{
    match (a.split_first_chunk::<8>(), b.split_first_chunk::<8>()) {
        (Some((word, rest)), Some((other, others))) => {
            are_same_word(word, other) && are_same_bytes(rest, others)
        }
        _ => are_same_bytes(a, b),
    }
}

/// Whether the bytes are the same, one after the other.
fn are_same_bytes(a: &[u8], b: &[u8]) -> bool
    ensures { result ≡ bytes_eq a.now b.now }
{
    let mut rest = b;
    for byte in a {
        match rest {
            [first, more @ ..] if first == byte => rest = more,
            _ => return false,
        }
    }
    rest.is_empty()
}

impl PartialEq for FileName {
    ghost eq = { λ a b. bytes_eq a b };

    ghost laws = { Prim.search (comparing, rules) };

    fn eq(&self, other: &FileName) -> bool {
        self.len == other.len
            && short::are_same(self.front(), other.front())
            && (self.len <= 16 || are_same(self.as_bytes(), other.as_bytes()))
    }
}

/// Which of two names comes first: the first bytes that differ decide, and else the longer one is after the other.
fn order(a: &[u8], b: &[u8]) -> Ordering
    ensures { result ≡ slice_cmp nat_cmp a.now b.now }
{
    let mut rest = b;
    for byte in a {
        match rest {
            [first, more @ ..] => match byte.cmp(first) {
                Ordering::Equal => rest = more,
                decided => return decided,
            },
            [] => return Ordering::Greater,
        }
    }
    if rest.is_empty() {
        Ordering::Equal
    } else {
        Ordering::Less
    }
}

impl Eq for FileName {
    ghost laws = { Prim.search (comparing, rules) };
}

impl Hash for FileName {
    ghost hash_input = { λ name. name ∷ [] };

    ghost respects_eq = { Prim.search (hashing, rules) };

    fn hash<H: Hasher>(&self, state: &mut H) {
        state.write(self.as_bytes());
    }
}

impl Ord for FileName {
    ghost cmp = { slice_cmp nat_cmp };

    ghost total = { nat_list_cmp_total };

    ghost matches_partial_cmp = { Prim.search (comparing, rules) };

    ghost matches_eq = { Prim.search (comparing, rules) };

    fn cmp(&self, other: &FileName) -> Ordering {
        match short::order(self.front(), other.front()) {
            Ordering::Equal => self.order_of_one_front(other),
            decided => decided,
        }
    }
}

impl PartialOrd for FileName {
    ghost partial_cmp = { as_partial_cmp (slice_cmp nat_cmp) };

    ghost laws = { partial_order_from_own_ties (Prim.search (comparing, rules)) (Prim.search (comparing, rules)) };

    fn partial_cmp(&self, other: &FileName) -> Option<Ordering> {
        Some(self.cmp(other))
    }
}
