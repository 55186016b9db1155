//! Names with a number, so that most of those that differ are told apart by one comparison of 64 bits.
#![tactic(auto, using(crate::proofs::Folded::folded_rules))]

ghost use Rattle.std.specs.Prelude.{◌≡◌};
ghost use Rattle.std.specs.Str.{bytes_eq};
ghost use Rattle.occ_scope.specs.inside.Folded.{folded as spec_folded};

use occ_base::Name;
use std::marker::Model;

/// 64 bits of a name's number: its halves added, or none of a long name.
fn folded(number: Option<u128>) -> u64
    ensures { result ≡ spec_folded number }
{
    let Some(number) = number else {
        return 0;
    };
    let upper = (number / 0x1_0000_0000_0000_0000) as u64;
    let lower = (number % 0x1_0000_0000_0000_0000) as u64;
    upper.wrapping_add(lower)
}

/// The name of a specification with its number: in contracts the name.
#[derive(Drop)]
pub(crate) struct Numbered {
    number: u64,
    name: Name,
}

impl Model for Numbered {
    ghost use Rattle.std.specs.Prelude.{List, ℕ};
    ghost use Rattle.std.specs.Coded.{coded_list, coded_ℕ};

    ghost Value = { List ℕ };

    ghost coded = { coded_list coded_ℕ };

    ghost use Rattle.occ_scope.specs.inside.NumberedNames.{IsNumbered};

    ghost view = { λ one. one.name };

    ghost invariant = { IsNumbered };
}

/// A name that is looked for, with its number: in contracts the name.
#[derive(Drop)]
pub(crate) struct Sought<'a> {
    number: u64,
    name: &'a Name,
}

impl<'a> Model for Sought<'a> {
    ghost use Rattle.std.specs.Prelude.{List, ℕ};

    ghost Value = { List ℕ };

    ghost use Rattle.occ_scope.specs.inside.SoughtNames.{IsSought};

    ghost view = { λ sought. sought.name.now };

    ghost invariant = { IsSought };
}

impl<'a> Sought<'a> {
    /// This name is looked for.
    pub(crate) fn new(name: &'a Name) -> Sought<'a>
        ensures { result ≡ name.now }
    {
        Sought {
            number: folded(name.number()),
            name,
        }
    }
}

impl Numbered {
    /// This name.
    pub(crate) fn new(name: Name) -> Numbered
        ensures { result ≡ name }
    {
        Numbered {
            number: folded(name.number()),
            name,
        }
    }

    /// The name.
    pub(crate) fn name(&self) -> &Name
        ensures { result.now ≡ self.now }
    {
        &self.name
    }

    /// Whether it is the name that is looked for.
    pub(crate) fn is(&self, sought: &Sought<'_>) -> bool
        ensures { result ≡ bytes_eq self.now sought.now }
    {
        self.number == sought.number && self.name == *sought.name
    }
}
