//! Items against those of a protocol, one by one, and against any data; P1 for one that does not meet its own.
#![tactic(auto, using(occ_types::proofs::Agreeing::fit_rules, crate::proofs::Meeting::meeting_rules))]

ghost use Rattle.std.specs.Prelude.{◌≡◌, ◌++◌, OnOk};
ghost use Rattle.std.specs.List.{list_any};
ghost use Rattle.occ_protocol.specs.Matching.{against as spec_against, each_unmet as spec_each_unmet, each_unmet_any as spec_each_unmet_any, has_fault as spec_has_fault, is_any as spec_is_any, is_any_count as spec_is_any_count, is_any_row as spec_is_any_row, is_count as spec_is_count, is_row as spec_is_row, meets as is_met, meets_any as spec_meets_any, named as spec_named, of_another_number as spec_of_another_number, reported as spec_reported, unmet as spec_unmet};
ghost use Rattle.occ_protocol.specs.inside.Seen.{asked_seen};

use super::asked::Asked;
use super::given::Given;
use occ_base::{Code, Fault, Items, Name, Shared};
use occ_types::{Item, OccType, Primitive, array_of, as_primitive, fits, is_data};
use occ_typing_operands::{Kind, is_faulty, is_of, number};
use std::alloc::{AllocError, Global};

/// Whether an operand is a count of just this type.
fn is_count(count: Primitive, kind: &Kind) -> bool
    ensures { result ≡ spec_is_count count kind.now }
{
    match kind {
        Kind::Known(known) => match as_primitive(known.of.get()) {
            Some(found) => count == found,
            None => false,
        },
        _ => false,
    }
}

/// Whether an operand is an array without a name, of values of this type.
fn is_row(of: &OccType, kind: &Kind) -> bool
    ensures { result ≡ spec_is_row of.now kind.now }
{
    match kind {
        Kind::Known(known) => match array_of(known.of.get()) {
            Some((_, inner)) => fits(of, inner.get()),
            None => false,
        },
        _ => false,
    }
}

/// Whether an item meets one of the protocol.
fn meets(item: &Item, given: &Given) -> bool
    ensures { result ≡ is_met item.now given.now }
{
    match (item, given) {
        (Item::Value(of), Given::Plain(x)) => is_of(of.get(), x),
        (Item::Value(_), Given::Counted(_, _)) => false,
        (Item::Counted(_, _), Given::Plain(_)) => false,
        (Item::Counted(count, of), Given::Counted(n, x)) => is_count(*count, n)
            && is_row(of.get(), x),
    }
}

/// Whether an operand is data of any type.
fn is_any(kind: &Kind) -> bool
    ensures { result ≡ spec_is_any kind.now }
{
    match kind {
        Kind::Known(known) => is_data(known.of.get()),
        _ => false,
    }
}

/// Whether an operand is a count of an integer type or BYTE.
fn is_any_count(kind: &Kind) -> bool
    ensures { result ≡ spec_is_any_count kind.now }
{
    match kind {
        Kind::Known(known) => number(as_primitive(known.of.get())).is_some(),
        _ => false,
    }
}

/// Whether an operand is an array without a name, of data.
fn is_any_row(kind: &Kind) -> bool
    ensures { result ≡ spec_is_any_row kind.now }
{
    match kind {
        Kind::Known(known) => match array_of(known.of.get()) {
            Some((_, inner)) => is_data(inner.get()),
            None => false,
        },
        _ => false,
    }
}

/// Whether an item may go through a channel of ANY.
fn meets_any(given: &Given) -> bool
    ensures { result ≡ spec_meets_any given.now }
{
    match given {
        Given::Plain(x) => is_any(x),
        Given::Counted(n, x) => is_any_count(n) && is_any_row(x),
    }
}

/// Whether an item is faulty, its count or its array.
fn has_fault(given: &Given) -> bool
    ensures { result ≡ spec_has_fault given.now }
{
    match given {
        Given::Plain(x) => is_faulty(x),
        Given::Counted(n, x) => is_faulty(n) || is_faulty(x),
    }
}

/// Whether one of the items is faulty.
fn any_has_fault(given: &[Given]) -> bool
    ensures { result ≡ list_any spec_has_fault given.now }
{
    for x in given {
        if has_fault(x) {
            return true;
        }
    }
    false
}

/// A code is reported with a name.
///
/// # Errors
///
/// Where memory is refused.
pub fn report_named(
    alloc: Global,
    code: Code,
    name: &Name,
    faults: &mut Items<Fault>,
) -> Result<(), AllocError>
    ensures { OnOk result (faults.new ≡ faults.old ++ spec_named code name.now) }
{
    let name = Some(name.copied(alloc)?);
    faults.push(Fault { code, name })
}

/// P1 is reported of an item that does not meet what is asked, unless it is faulty.
fn unmet(
    alloc: Global,
    root: &Name,
    is_met: bool,
    given: &Given,
    faults: &mut Items<Fault>,
) -> Result<(), AllocError>
    ensures { OnOk result (faults.new ≡ faults.old ++ spec_unmet root.now is_met given.now) }
{
    if is_met || has_fault(given) {
        return Ok(());
    }
    report_named(alloc, Code::P1, root, faults)
}

/// As many items as the protocol has.
fn each_unmet(
    alloc: Global,
    root: &Name,
    items: &[Item],
    given: &[Given],
    faults: &mut Items<Fault>,
) -> Result<(), AllocError>
    ensures { OnOk result (faults.new ≡ faults.old ++ spec_each_unmet root.now items.now given.now) }
{
    let mut given = given;
    for item in items {
        let Some((x, rest)) = given.split_first() else {
            return Ok(());
        };
        unmet(alloc, root, meets(item, x), x, faults)?;
        given = rest;
    }
    Ok(())
}

/// Items of a channel of ANY.
fn each_unmet_any(
    alloc: Global,
    root: &Name,
    given: &[Given],
    faults: &mut Items<Fault>,
) -> Result<(), AllocError>
    ensures { OnOk result (faults.new ≡ faults.old ++ spec_each_unmet_any root.now given.now) }
{
    for x in given {
        unmet(alloc, root, meets_any(x), x, faults)?;
    }
    Ok(())
}

/// More or fewer items than the protocol has.
fn of_another_number(
    alloc: Global,
    root: &Name,
    given: &[Given],
    faults: &mut Items<Fault>,
) -> Result<(), AllocError>
    ensures { OnOk result (faults.new ≡ faults.old ++ spec_of_another_number root.now given.now) }
{
    if any_has_fault(given) {
        return Ok(());
    }
    report_named(alloc, Code::P1, root, faults)
}

/// Items against those of the protocol.
pub(super) fn against(
    alloc: Global,
    root: &Name,
    items: &[Item],
    given: &[Given],
    faults: &mut Items<Fault>,
) -> Result<(), AllocError>
    ensures { OnOk result (faults.new ≡ faults.old ++ spec_against root.now items.now given.now) }
{
    if items.len() == given.len() {
        return each_unmet(alloc, root, items, given, faults);
    }
    of_another_number(alloc, root, given, faults)
}

/// What is reported of a list of items.
pub(super) fn reported(
    alloc: Global,
    root: &Name,
    asked: Asked<'_>,
    given: &[Given],
    faults: &mut Items<Fault>,
) -> Result<(), AllocError>
    ensures { OnOk result (faults.new ≡ faults.old ++ spec_reported root.now (asked_seen asked.entry) given.now) }
{
    match asked {
        Asked::Silent => Ok(()),
        Asked::Instead(code) => report_named(alloc, code, root, faults),
        Asked::NoTag(name) => report_named(alloc, Code::P2, name, faults),
        Asked::AnyData => each_unmet_any(alloc, root, given, faults),
        Asked::These(items) => against(alloc, root, items, given, faults),
    }
}
