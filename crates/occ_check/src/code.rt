//! A use of a formal as a list of numbers, by which the uses of an export are ordered.
ghost use Rattle.std.proofs.Common.{rules};
ghost use Rattle.std.proofs.lemmas.Cmp.{nat_list_cmp_total};
ghost use Rattle.std.specs.Cmp.{partial_order_from_own_ties};
ghost use Rattle.std.specs.Cmp.Lexicographic.{slice_cmp};
ghost use Rattle.std.specs.Cmp.Rules.{comparing};
ghost use Rattle.std.specs.Ordering.{as_partial_cmp, nat_cmp};
ghost use Rattle.std.specs.Prelude.{◌≡◌, ◌++◌, IfOk, OnOk, map};
ghost use Rattle.std.specs.Str.{bytes_eq};
ghost use Rattle.occ_check.specs.Codes.{kind_code as spec_kind_code, mark_code as spec_mark_code, number_code, places_code, selector_code as spec_selector_code, selectors_code as spec_selectors_code, use_code as spec_use_code};

use occ_base::Items;
use occ_types::{FormalUse, Mark, PartSelector, Places, UseKind};
use std::alloc::{AllocError, Global};
use std::cmp::Ordering;
use std::marker::Model;

/// For so many numbers there is room where a code begins: most uses have fewer.
const ROOM: usize = 8;

/// A use of a formal written as numbers: in contracts and in order the list of them.
#[derive(Drop)]
pub struct UseCode {
    numbers: Items<u64>,
}

impl Model for UseCode {
    ghost use Rattle.std.specs.Prelude.{List, ℕ};
    ghost use Rattle.std.specs.Coded.{coded_list, coded_ℕ};

    ghost Value = { List ℕ };

    ghost coded = { coded_list coded_ℕ };

    ghost view = { λ code. code.numbers };
}

impl PartialEq for UseCode {
    ghost eq = { λ a b. bytes_eq a b };

    ghost laws = { Prim.search (comparing, rules) };

    fn eq(&self, other: &UseCode) -> bool {
        self.numbers.as_slice() == other.numbers.as_slice()
    }
}

impl Eq for UseCode {
    ghost laws = { Prim.search (comparing, rules) };
}

impl Ord for UseCode {
    ghost cmp = { slice_cmp nat_cmp };

    ghost total = { nat_list_cmp_total };

    ghost matches_partial_cmp = { Prim.search (comparing, rules) };

    ghost matches_eq = { Prim.search (comparing, rules) };

    fn cmp(&self, other: &UseCode) -> Ordering {
        self.numbers.as_slice().cmp(other.numbers.as_slice())
    }
}

impl PartialOrd for UseCode {
    ghost partial_cmp = { as_partial_cmp (slice_cmp nat_cmp) };

    ghost laws = { partial_order_from_own_ties (Prim.search (comparing, rules)) (Prim.search (comparing, rules)) };

    fn partial_cmp(&self, other: &UseCode) -> Option<Ordering> {
        Some(self.cmp(other))
    }
}

/// The number of a kind.
fn kind_code(kind: UseKind) -> u64
    ensures { result ≡ spec_kind_code kind }
{
    match kind {
        UseKind::Read => 0,
        UseKind::Write => 1,
        UseKind::Input => 2,
        UseKind::Output => 3,
    }
}

/// The number of a mark.
fn mark_code(mark: Mark) -> u64
    ensures { result ≡ spec_mark_code mark }
{
    match mark {
        Mark::Sure => 0,
        Mark::Unsure => 1,
    }
}

/// Adds the two numbers of a number that may be below 0.
fn push_number(number: i64, numbers: &mut Items<u64>) -> Result<(), AllocError>
    ensures { OnOk result (numbers.new ≡ numbers.old ++ number_code number) }
{
    if number >= 0 {
        numbers.push(0)?;
        numbers.push(number as u64)
    } else {
        numbers.push(1)?;
        numbers.push(!number as u64)
    }
}

/// Adds the numbers of places of an array.
fn push_places(places: Places, numbers: &mut Items<u64>) -> Result<(), AllocError>
    ensures { OnOk result (numbers.new ≡ numbers.old ++ places_code places) }
{
    match places {
        Places::None => numbers.push(0),
        Places::All => numbers.push(1),
        Places::From(base) => {
            numbers.push(2)?;
            push_number(base, numbers)
        }
        Places::Run(base, more) => {
            numbers.push(3)?;
            push_number(base, numbers)?;
            numbers.push(u64::from(more))
        }
    }
}

/// Adds the bytes of a name as numbers.
fn push_bytes(bytes: &[u8], numbers: &mut Items<u64>) -> Result<(), AllocError>
    ensures { OnOk result (numbers.new ≡ numbers.old ++ bytes.now) }
{
    for byte in bytes {
        numbers.push(u64::from(*byte))?;
    }
    Ok(())
}

/// Adds the numbers of a selector.
fn push_selector(selector: &PartSelector, numbers: &mut Items<u64>) -> Result<(), AllocError>
    ensures { OnOk result (numbers.new ≡ numbers.old ++ spec_selector_code selector.now) }
{
    match selector {
        PartSelector::Field(name) => {
            numbers.push(0)?;
            numbers.push(name.as_bytes().len() as u64)?;
            push_bytes(name.as_bytes(), numbers)
        }
        PartSelector::Interval(interval) => {
            numbers.push(1)?;
            numbers.push(mark_code(interval.mark))?;
            push_places(interval.places, numbers)
        }
    }
}

/// Adds the numbers of selectors.
fn push_selectors(selectors: &[PartSelector], numbers: &mut Items<u64>) -> Result<(), AllocError>
    ensures { OnOk result (numbers.new ≡ numbers.old ++ spec_selectors_code selectors.now) }
{
    for selector in selectors {
        push_selector(selector, numbers)?;
    }
    Ok(())
}

/// The code of a use.
pub fn use_code(alloc: Global, found: &FormalUse) -> Result<UseCode, AllocError>
    ensures { IfOk result (λ code. code ≡ spec_use_code found.now) }
{
    let mut numbers = Items::from_vec(Vec::with_capacity(alloc, ROOM)?);
    numbers.push(u64::from(found.formal))?;
    numbers.push(kind_code(found.kind))?;
    push_selectors(found.selectors.as_slice(), &mut numbers)?;
    Ok(UseCode { numbers })
}
