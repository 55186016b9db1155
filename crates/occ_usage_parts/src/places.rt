//! Sets of indices: what two have in common, whether they meet, and counting from a base.
ghost use Rattle.std.specs.Prelude.{◌≡◌, ◌≤ℤ◌, ◌+ℤ◌, pos};
ghost use Rattle.occ_types.specs.declared.interface.Places.TheVariants as places;
ghost use Rattle.occ_usage_parts.specs.Places.{common, meet, moved, near, run_to};

use occ_types::Places;

/// The last of a run.
fn last(first: i64, more: u32) -> i128
    ensures { result ≡ first +ℤ pos more }
{
    i128::from(first) + i128::from(more)
}

/// The places from one to another.
fn run(first: i64, last: i128) -> Places
    requires { last ≤ℤ (first +ℤ pos 4294967295) }
    ensures { result ≡ run_to first last }
{
    let first_wide = i128::from(first);
    if first_wide <= last {
        Places::Run(first, (last - first_wide) as u32)
    } else {
        Places::None
    }
}

/// The places that lie in both.
pub(crate) fn intersection(a: Places, b: Places) -> Places
    ensures { result ≡ common a b }
{
    match (a, b) {
        (Places::None, _) => Places::None,
        (Places::All, b) => b,
        (a, Places::All) => a,
        (_, Places::None) => Places::None,
        (Places::From(a), Places::From(b)) => Places::From(a.max(b)),
        (Places::From(a), Places::Run(b, n)) => run(a.max(b), last(b, n)),
        (Places::Run(a, n), Places::From(b)) => run(a.max(b), last(a, n)),
        (Places::Run(a, n), Places::Run(b, m)) => run(a.max(b), last(a, n).min(last(b, m))),
    }
}

/// Whether two runs have a place in common: neither lies after the other.
#[inline(always)]
pub(crate) fn do_runs_meet(a: i64, n: u32, b: i64, m: u32) -> bool
    ensures { result ≡ meet (places.Run a n) (places.Run b m) }
{
    i128::from(a) <= last(b, m) && i128::from(b) <= last(a, n)
}

/// Whether some place lies in both.
pub(crate) fn do_meet(a: Places, b: Places) -> bool
    ensures { result ≡ meet a b }
{
    match (a, b) {
        (Places::Run(a, n), Places::Run(b, m)) => do_runs_meet(a, n, b, m),
        _ => match intersection(a, b) {
            Places::None => false,
            _ => true,
        },
    }
}

/// A sum of 64 bits.
pub(crate) fn sum(a: i64, b: i64) -> Option<i64>
    ensures { result ≡ near (a +ℤ b) }
{
    a.checked_add(b)
}

/// The places counted from a base.
pub(crate) fn counted_from(base: i64, places: Places) -> Option<Places>
    ensures { result ≡ moved base places }
{
    match places {
        Places::None | Places::All => Some(places),
        Places::From(first) => Some(Places::From(sum(base, first)?)),
        Places::Run(first, more) => Some(Places::Run(sum(base, first)?, more)),
    }
}
