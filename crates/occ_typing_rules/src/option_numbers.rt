//! The numbers of the options of a CASE. As long as they rise they are a list, to which the next one comes last.
#![tactic(auto, using(crate::proofs::Numbers::number_rules))]

ghost use Rattle.std.specs.BTreeSet.{contains};
ghost use Rattle.std.specs.List.Sorted.{IsStrictlySortedBy};
ghost use Rattle.std.specs.Ordering.{int_cmp};
ghost use Rattle.std.specs.Prelude.{◌≡◌, IfOk, IsTrue, OnErr, OnOk, [], not};
ghost use Rattle.occ_typing_rules.specs.Choosing.{with_number};
ghost use Rattle.occ_typing_rules.specs.inside.Numbers.{IsLastBelow};

use std::alloc::{AllocError, Global};
use std::collections::BTreeSet;
use std::marker::Model;

/// How the numbers are kept.
#[derive(Drop)]
enum Numbers {
    /// Each is greater than the one before it.
    Rising(Vec<i64>),
    Any(BTreeSet<i64>),
}

/// The numbers of options: in contracts the set of them, in order.
#[derive(Drop)]
pub struct OptionNumbers {
    numbers: Numbers,
}

impl Model for OptionNumbers {
    ghost use Rattle.std.specs.BTreeSet.{BTreeSet};
    ghost use Rattle.std.specs.Prelude.{ℤ};
    ghost use Rattle.occ_typing_rules.specs.inside.Numbers.{AreInOrder, set_of};

    ghost Value = { BTreeSet ℤ };

    ghost view = { λ options. set_of options.numbers };

    ghost invariant = { λ options. AreInOrder options.numbers };
}

/// Whether the last of these numbers, if there is one, is below this one.
fn is_last_below(numbers: &[i64], number: i64) -> bool
    ensures { IsTrue result → IsLastBelow numbers.now number }
{
    match numbers.split_last() {
        Some((last, _)) => last.cmp(&number).is_lt(),
        None => true,
    }
}

/// The set of numbers that rise.
fn set_of(alloc: Global, numbers: &[i64]) -> Result<BTreeSet<i64>, AllocError>
    requires { IsStrictlySortedBy int_cmp numbers.now }
    ensures { IfOk result (λ set. set.keys ≡ numbers.now) }
{
    let mut set = BTreeSet::new(alloc);
    for number in numbers {
        set.insert(*number)?;
    }
    Ok(set)
}

impl OptionNumbers {
    /// None.
    pub fn new(alloc: Global) -> OptionNumbers
        ensures { result.keys ≡ [] }
    {
        OptionNumbers {
            numbers: Numbers::Rising(Vec::new(alloc)),
        }
    }

    /// One more. Whether none before it is the same is the answer.
    pub fn insert(&mut self, alloc: Global, number: i64) -> Result<bool, AllocError>
        ensures added { IfOk result (λ added. added ≡ not (contains int_cmp self.old number)) }
        ensures numbers { OnOk result (self.new ≡ with_number self.old number) }
        ensures err { OnErr result (self.new ≡ self.old) }
    {
        let rising = match &mut self.numbers {
            Numbers::Rising(rising) => rising,
            Numbers::Any(set) => return Ok(set.insert(number)?),
        };
        if is_last_below(rising.as_slice(), number) {
            rising.push(number)?;
            return Ok(true);
        }
        if rising.binary_search(&number).is_ok() {
            return Ok(false);
        }
        let mut set = set_of(alloc, rising.as_slice())?;
        let added = set.insert(number)?;
        self.numbers = Numbers::Any(set);
        Ok(added)
    }
}
