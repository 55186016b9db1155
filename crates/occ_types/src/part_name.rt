//! The names of fields and tags. A name that is looked for is compared by a number first, which differs for most names.
#![tactic(auto, using(crate::proofs::Digests::digest_rules))]

ghost use Rattle.std.specs.Prelude.{◌≡◌};
ghost use Rattle.std.specs.Str.{bytes_eq};
ghost use Rattle.occ_types.specs.inside.Digests.{digest};

use occ_base::Name;
use std::marker::Model;

/// A number of bytes: one for one list of bytes.
fn digest_of(bytes: &[u8]) -> u64
    ensures { result ≡ digest bytes.now }
{
    let mut digest = 0_u64;
    for byte in bytes {
        digest = digest
            .wrapping_mul(1_099_511_628_211)
            .wrapping_add(u64::from(*byte));
    }
    digest
}

/// The name of a field or a tag with its number: in contracts the name.
#[derive(Drop)]
pub struct PartName {
    name: Name,
    digest: u64,
}

impl Model for PartName {
    ghost use Rattle.std.specs.Prelude.{List, ℕ};
    ghost use Rattle.std.specs.Coded.{coded_list, coded_ℕ};

    ghost Value = { List ℕ };

    ghost coded = { coded_list coded_ℕ };

    ghost use Rattle.occ_types.specs.inside.PartNames.{IsNumbered};

    ghost view = { λ part. part.name };

    ghost invariant = { IsNumbered };
}

/// A name that is looked for among fields or tags, with its number: in contracts the name.
#[derive(Drop)]
pub struct SoughtPart<'a> {
    name: &'a Name,
    digest: u64,
}

impl<'a> Model for SoughtPart<'a> {
    ghost use Rattle.std.specs.Prelude.{List, ℕ};

    ghost Value = { List ℕ };

    ghost use Rattle.occ_types.specs.inside.SoughtParts.{IsSought};

    ghost view = { λ sought. sought.name.now };

    ghost invariant = { IsSought };
}

impl<'a> SoughtPart<'a> {
    /// This name is looked for.
    pub fn new(name: &'a Name) -> SoughtPart<'a>
        ensures { result ≡ name.now }
    {
        SoughtPart {
            name,
            digest: digest_of(name.as_bytes()),
        }
    }
}

impl PartName {
    /// This name.
    pub fn new(name: Name) -> PartName
        ensures { result ≡ name }
    {
        PartName {
            digest: digest_of(name.as_bytes()),
            name,
        }
    }

    /// The name.
    pub fn name(&self) -> &Name
        ensures { result.now ≡ self.now }
    {
        &self.name
    }

    /// Whether it is the name that is looked for.
    pub fn is(&self, sought: &SoughtPart<'_>) -> bool
        ensures { result ≡ bytes_eq self.now sought.now }
    {
        self.digest == sought.digest && self.name == *sought.name
    }
}
