//! The bucket of a use, by root, last abbreviation and indices. Nothing is promised of it but that it is made of the use.
ghost use Rattle.std.specs.Prelude.{◌≡◌, ◌<◌};
ghost use Rattle.occ_usage_conflicts.specs.inside.Numbering.{bucket_of as spec_bucket_of, number_of as spec_number_of, number_of_places, number_of_run, number_of_selector, with_selectors as spec_with_selectors};

use super::same::Candidate;
use occ_base::{mixed, number_of_bytes};
use occ_types::{PartSelector, Places};

/// One number of a run. It is another sum than that of two numbers in a row, so that places which go up as counts go down stay apart.
fn of_run(first: u64, count: u64) -> u64
    ensures { result ≡ number_of_run first count }
{
    first.wrapping_add(count.wrapping_mul(0xC2B2_AE3D_27D4_EB4F))
}

fn of_places(places: Places) -> u64
    ensures { result ≡ number_of_places places }
{
    match places {
        Places::None => 0,
        Places::All => 1,
        Places::From(first) => first.unsigned_abs(),
        Places::Run(first, count) => of_run(first.unsigned_abs(), u64::from(count)),
    }
}

fn of_selector(selector: &PartSelector) -> u64
    ensures { result ≡ number_of_selector selector.now }
{
    match selector {
        PartSelector::Field(name) => number_of_bytes(name.as_bytes()),
        PartSelector::Interval(interval) => of_places(interval.places),
    }
}

#[inline(always)]
fn with_selectors(seed: u64, selectors: &[PartSelector]) -> u64
    ensures { result ≡ spec_with_selectors seed selectors.now }
{
    let mut number = seed;
    for selector in selectors {
        number = mixed(number, of_selector(selector));
    }
    number
}

#[inline(always)]
fn number_of(one: &Candidate<'_>) -> u64
    ensures { result ≡ spec_number_of one.now }
{
    let seed = mixed(mixed(0, one.part.root as u64), one.chain.last() as u64);
    with_selectors(seed, one.part.selectors.as_slice())
}

/// Which of so many lists is that of a use. Each of them is one only where so many is a power of two.
#[inline(always)]
pub(crate) fn bucket_of(one: &Candidate<'_>, count: usize) -> usize
    requires { 0 < count }
    ensures value { result ≡ spec_bucket_of one.now count }
    ensures within { result < count }
{
    (number_of(one) / 0x1_0000_0000 & (count as u64 - 1)) as usize
}
