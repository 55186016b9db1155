//! Runs of places in a map, each from its first place to its last, apart and joined. So the last run that begins at most at
//! a place decides what meets it. Places are counted from the least number of 64 bits.
ghost use Rattle.std.specs.Prelude.{◌≡◌, ◌↔◌, ◌≤◌, ◌⊎◌, ℕ, IfSome, IsSome, IsTrue, None, OnErr, OnOk};
ghost use Rattle.std.specs.BTreeMap.{IsOrdered, get};
ghost use Rattle.std.specs.Ordering.{nat_cmp};
ghost use Rattle.occ_usage_parts.specs.inside.Runs.{Adjoins, AreRuns, HasBetween, HasFrom, IsBetween, IsFree, IsShort, LiesIn, runs_of};

use std::alloc::AllocError;
use std::collections::BTreeMap;

/// The last run that begins at most here: its first place and its last.
fn last_up_to(runs: &BTreeMap<u128, u128>, end: u128) -> Option<(u128, u128)>
    ensures found { IfSome result (λ r. get nat_cmp runs.now r.0 ≡ Some r.1) }
    ensures within { IfSome result (λ r. r.0 ≤ end) }
    ensures greatest { IfSome result (λ r. (q : ℕ) → q ≤ end → IsSome (get nat_cmp runs.now q) → q ≤ r.0) }
    ensures none { result ≡ None → (q : ℕ) → q ≤ end → get nat_cmp runs.now q ≡ None }
{
    match runs.range(..=end).next_back() {
        Some((first, last)) => Some((*first, *last)),
        None => None,
    }
}

/// Whether one of the runs has a place between two: the last run that begins at most at the second decides.
pub(crate) fn meet_between(runs: &BTreeMap<u128, u128>, first: u128, last: u128) -> bool
    requires runs { AreRuns (runs_of runs.now) }
    requires forward { first ≤ last }
    ensures { IsTrue result ↔ HasBetween (runs_of runs.now) first last }
{
    match last_up_to(runs, last) {
        Some((_, end)) => first <= end,
        None => false,
    }
}

/// Whether one of the runs has a place from here on: the last run decides.
pub(crate) fn meet_from(runs: &BTreeMap<u128, u128>, first: u128) -> bool
    requires { AreRuns (runs_of runs.now) }
    ensures { IsTrue result ↔ HasFrom (runs_of runs.now) first }
{
    match runs.last_key_value() {
        Some((_, end)) => first <= *end,
        None => false,
    }
}

/// The last run that meets these places or adjoins them.
fn adjoining(runs: &BTreeMap<u128, u128>, first: u128, last: u128) -> Option<(u128, u128)>
    requires runs { AreRuns (runs_of runs.now) }
    requires forward { first ≤ last }
    requires short { IsShort last }
    ensures some { IfSome result (λ r. Adjoins (runs_of runs.now) first last r.0 r.1) }
    ensures none { result ≡ None → IsFree (runs_of runs.now) first last }
{
    let (begin, end) = last_up_to(runs, last + 1)?;
    if end + 1 < first {
        return None;
    }
    Some((begin, end))
}

/// A run more, as one with those that it meets and those that it adjoins. After an error some of those may be gone.
pub(crate) fn add_run(
    runs: &mut BTreeMap<u128, u128>,
    mut first: u128,
    mut last: u128,
) -> Result<(), AllocError>
    requires runs { AreRuns (runs_of runs.old) }
    requires forward { first ≤ last }
    requires short_first { IsShort first }
    requires short_last { IsShort last }
    ensures runs { AreRuns (runs_of runs.new) }
    ensures ordered { IsOrdered nat_cmp runs.old → IsOrdered nat_cmp runs.new }
    ensures places { OnOk result ((x : ℕ) → LiesIn (runs_of runs.new) x ↔ (LiesIn (runs_of runs.old) x ⊎ IsBetween first last x)) }
    ensures err { OnErr result ((x : ℕ) → LiesIn (runs_of runs.new) x → LiesIn (runs_of runs.old) x) }
{
    while let Some((begin, end)) = adjoining(runs, first, last) {
        runs.remove(&begin);
        first = first.min(begin);
        last = last.max(end);
    }
    runs.insert(first, last)?;
    Ok(())
}
