//! Bytes that are few enough to be held in place: at the front of 14, and zeros after. They are compared as numbers.
ghost use Rattle.std.specs.Cmp.Lexicographic.{slice_cmp};
ghost use Rattle.std.specs.Ordering.{nat_cmp};
ghost use Rattle.std.specs.Int.{from_be_bytes, w128};
ghost use Rattle.std.specs.List.{list_all};
ghost use Rattle.std.specs.Prelude.{◌≡◌, ◌≤◌, ◌-◌, ◌++◌, length, replicate, slice_set, true};
ghost use Rattle.std.specs.Str.{bytes_eq};
ghost use Rattle.occ_base.specs.Numbers.{is_byte, number_of};

use std::cmp::Ordering;
use std::marker::Model;

/// At most 14 bytes.
#[derive(Clone, Copy, Debug)]
pub(super) struct Short {
    bytes: [u8; 14],
    len: u8,
}

impl Model for Short {
    ghost use Rattle.std.specs.Prelude.{List, ℕ};
    ghost use Rattle.std.specs.Coded.{coded_list, coded_ℕ};

    ghost Value = { List ℕ };

    ghost coded = { coded_list coded_ℕ };

    ghost use Rattle.occ_base.specs.inside.Short.{IsShort, padded, padded_back, shown};

    ghost view = { shown };

    ghost invariant = { IsShort };

    ghost inverse = { padded };

    ghost inverse_ok = { padded_back };
}

impl Short {
    /// These bytes.
    pub(super) fn new(bytes: &[u8]) -> Short
        requires { length bytes.now ≤ 14 }
        ensures { result ≡ bytes.now }
    {
        let mut all = [0; 14];
        let (front, _) = all.split_at_mut(bytes.len());
        front.copy_from_slice(bytes);
        Short {
            bytes: all,
            len: bytes.len() as u8,
        }
    }

    pub(super) fn as_bytes(&self) -> &[u8]
        ensures { result.now ≡ self.now }
    {
        &self.bytes[..self.len as usize]
    }

    /// The bytes, and zeros after them.
    #[inline(always)]
    fn filled(&self) -> [u8; 16]
        ensures bytes { result ≡ self.now ++ replicate (16 - length self.now) 0 }
        ensures few { length self.now ≤ 14 }
    {
        let mut all = [0; 16];
        let (front, _) = all.split_at_mut(14);
        front.copy_from_slice(&self.bytes);
        all
    }

    /// Whether the bytes are the same.
    pub(super) fn is_same(&self, other: &Short) -> bool
        ensures { result ≡ bytes_eq self.now other.now }
    {
        self.len == other.len && are_same(&self.filled(), &other.filled())
    }

    /// The number whose digits are the bytes, zeros after them, and last how many they are.
    pub(super) fn number(&self) -> Option<u128>
        ensures { result ≡ number_of self.now }
    {
        Some(ended(&self.filled(), self.len))
    }

    /// Which comes first: zeros come before all other bytes, so that the lengths decide where all are the same.
    pub(super) fn order(&self, other: &Short) -> Ordering
        ensures { result ≡ slice_cmp nat_cmp self.now other.now }
    {
        match order(&self.filled(), &other.filled()) {
            Ordering::Equal => self.len.cmp(&other.len),
            decided => decided,
        }
    }
}

/// The same number of bytes that are held elsewhere, of at most 15.
#[inline(never)]
pub(super) fn number(bytes: &[u8]) -> Option<u128>
    ensures { result ≡ number_of bytes.now }
{
    if bytes.len() > 15 {
        return None;
    }
    let mut digits = [0; 16];
    let (front, _) = digits.split_at_mut(bytes.len());
    front.copy_from_slice(bytes);
    Some(ended(&digits, bytes.len() as u8))
}

/// Whether 16 bytes are the same: the numbers with these digits are.
pub(super) fn are_same(a: &[u8; 16], b: &[u8; 16]) -> bool
    ensures { result ≡ bytes_eq a.now b.now }
{
    u128::from_be_bytes(*a) == u128::from_be_bytes(*b)
}

/// Which of 16 bytes come first: their order is that of the numbers with these digits.
pub(super) fn order(a: &[u8; 16], b: &[u8; 16]) -> Ordering
    ensures { result ≡ slice_cmp nat_cmp a.now b.now }
{
    u128::from_be_bytes(*a).cmp(&u128::from_be_bytes(*b))
}

/// The number with these digits, but for the last, which is another.
fn ended(digits: &[u8; 16], last: u8) -> u128
    ensures value { result ≡ from_be_bytes w128 (slice_set digits.now 15 last) }
    ensures bytes { list_all is_byte digits.now ≡ true }
{
    let mut digits = *digits;
    digits[15] = last;
    u128::from_be_bytes(digits)
}
