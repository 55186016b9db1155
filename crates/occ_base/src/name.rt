//! Names in texts and diagnostics. Up to 14 bytes are inline, so that most names take no allocation, and most comparisons
//! are of numbers. Copies of longer names share their bytes.
ghost use Rattle.std.proofs.Common.{rules};
ghost use Rattle.std.proofs.lemmas.Cmp.{nat_list_cmp_total};
ghost use Rattle.std.specs.Cmp.{partial_order_from_own_ties};
ghost use Rattle.std.specs.Cmp.Lexicographic.{slice_cmp};
ghost use Rattle.std.specs.Cmp.Rules.{comparing};
ghost use Rattle.std.specs.Ordering.{as_partial_cmp, nat_cmp};
ghost use Rattle.std.specs.Prelude.{◌≡◌, IfOk};
ghost use Rattle.std.specs.Str.{bytes_eq};
ghost use Rattle.occ_base.specs.Numbers.{number_of};

use super::shared::Shared;
use super::short::{self, Short};
use sqlite_items::Items;
use std::alloc::{AllocError, Global};
use std::cmp::Ordering;
use std::marker::Model;

/// The bytes of a name. Most names of programs are short, and none is larger for the others.
#[derive(Debug, Drop)]
enum Bytes {
    Short(Short),
    Long(Shared<Items<u8>>),
}

/// A name in the text of a program, or what a diagnostic names: its bytes, in contracts and in order.
#[derive(Debug, Drop)]
pub struct Name {
    bytes: Bytes,
}

impl Model for Name {
    ghost use Rattle.std.specs.Prelude.{List, ℕ};
    ghost use Rattle.std.specs.Coded.{coded_list, coded_ℕ};

    ghost Value = { List ℕ };

    ghost coded = { coded_list coded_ℕ };

    ghost use Rattle.occ_base.specs.inside.Short.{bytes_of};

    ghost view = { λ n. bytes_of n.bytes };
}

impl Name {
    /// The name of these bytes.
    pub fn from_slice(alloc: Global, bytes: &[u8]) -> Result<Name, AllocError>
        ensures { IfOk result (λ name. name ≡ bytes.now) }
    {
        let bytes = if bytes.len() <= 14 {
            Bytes::Short(Short::new(bytes))
        } else {
            Bytes::Long(Shared::new(alloc, Items::from_slice(alloc, bytes)?)?)
        };
        Ok(Name { bytes })
    }

    /// A copy of the name.
    pub fn copied(&self, alloc: Global) -> Result<Name, AllocError>
        ensures { IfOk result (λ name. name ≡ self.now) }
    {
        match &self.bytes {
            Bytes::Short(bytes) => Ok(Name {
                bytes: Bytes::Short(*bytes),
            }),
            Bytes::Long(bytes) => Ok(Name {
                bytes: Bytes::Long(bytes.share()?),
            }),
        }
    }

    /// The bytes of the name.
    pub fn as_bytes(&self) -> &[u8]
        ensures { result.now ≡ self.now }
    {
        match &self.bytes {
            Bytes::Short(bytes) => bytes.as_bytes(),
            Bytes::Long(bytes) => bytes.get().as_slice(),
        }
    }

    /// The number of a name of at most 15 bytes: its digits are the bytes, zeros after them, and last how many they are.
    pub fn number(&self) -> Option<u128>
        ensures { result ≡ number_of self.now }
    {
        match &self.bytes {
            Bytes::Short(bytes) => bytes.number(),
            Bytes::Long(bytes) => short::number(bytes.get().as_slice()),
        }
    }
}

/// Whether two names are the same of which one at least is long. By itself, so that the comparison of short ones is short.
#[inline(never)]
fn are_same(a: &Name, b: &Name) -> bool
    ensures { result ≡ bytes_eq a.now b.now }
{
    a.as_bytes() == b.as_bytes()
}

/// Which of two names comes first of which one at least is long.
#[inline(never)]
fn order(a: &Name, b: &Name) -> Ordering
    ensures { result ≡ slice_cmp nat_cmp a.now b.now }
{
    a.as_bytes().cmp(b.as_bytes())
}

impl PartialEq for Name {
    ghost eq = { λ a b. bytes_eq a b };

    ghost laws = { Prim.search (comparing, rules) };

    fn eq(&self, other: &Name) -> bool {
        match (&self.bytes, &other.bytes) {
            (Bytes::Short(bytes), Bytes::Short(others)) => bytes.is_same(others),
            _ => are_same(self, other),
        }
    }
}

impl Eq for Name {
    ghost laws = { Prim.search (comparing, rules) };
}

impl Ord for Name {
    ghost cmp = { slice_cmp nat_cmp };

    ghost total = { nat_list_cmp_total };

    ghost matches_partial_cmp = { Prim.search (comparing, rules) };

    ghost matches_eq = { Prim.search (comparing, rules) };

    fn cmp(&self, other: &Name) -> Ordering {
        match (&self.bytes, &other.bytes) {
            (Bytes::Short(bytes), Bytes::Short(others)) => bytes.order(others),
            _ => order(self, other),
        }
    }
}

impl PartialOrd for Name {
    ghost partial_cmp = { as_partial_cmp (slice_cmp nat_cmp) };

    ghost laws = { partial_order_from_own_ties (Prim.search (comparing, rules)) (Prim.search (comparing, rules)) };

    fn partial_cmp(&self, other: &Name) -> Option<Ordering> {
        Some(self.cmp(other))
    }
}
