//! More or fewer values than there should be: each is judged alone, and T4 is reported unless one is faulty.
ghost use Rattle.std.specs.Prelude.{◌≡◌, ◌++◌, IfOk, OnOk, map};
ghost use Rattle.occ_typing_operands.specs.Operators.{all_faults, is_faulty as spec_is_faulty};
ghost use Rattle.occ_typing_rules.specs.Abbreviating.{holding as spec_holding};
ghost use Rattle.occ_typing_rules.specs.Numbering.{any_faulty, of_another_number as spec_of_another_number};
ghost use Rattle.occ_typing_tables.specs.Terms.{alone as spec_alone, judged_all};

use occ_base::{Code, Fault, Items, report};
use occ_types::is_data;
use occ_typing_operands::{Kind, is_faulty};
use occ_typing_tables::{Term, alone};
use std::alloc::{AllocError, Global};

/// A target for which there is perhaps no value: T2 is reported of one that is no data. Whether it is faulty then.
fn held(kind: &Kind, faults: &mut Items<Fault>) -> Result<bool, AllocError>
    ensures is_faulty { IfOk result (λ found. found ≡ spec_is_faulty (spec_holding kind.now).kind) }
    ensures faults { OnOk result (faults.new ≡ faults.old ++ (spec_holding kind.now).faults) }
{
    let Kind::Known(known) = kind else {
        return Ok(true);
    };
    if is_data(known.of.get()) {
        return Ok(false);
    }
    report(faults, Code::T2)?;
    Ok(true)
}

/// Each target, and whether one of them is faulty.
pub(super) fn targets_held(targets: &[Kind], faults: &mut Items<Fault>) -> Result<bool, AllocError>
    ensures any { IfOk result (λ found. found ≡ any_faulty (map spec_holding targets.now)) }
    ensures faults { OnOk result (faults.new ≡ faults.old ++ all_faults (map spec_holding targets.now)) }
{
    let mut found = false;
    for target in targets {
        let is_faulty = held(target, faults)?;
        found = found || is_faulty;
    }
    Ok(found)
}

/// Each value, of which no type is wanted, and whether one of them is faulty.
fn values_held(alloc: Global, terms: &[Term], faults: &mut Items<Fault>) -> Result<bool, AllocError>
    ensures any { IfOk result (λ found. found ≡ any_faulty (map spec_alone (judged_all terms.now))) }
    ensures faults { OnOk result (faults.new ≡ faults.old ++ all_faults (map spec_alone (judged_all terms.now))) }
{
    let mut found = false;
    for term in terms {
        let kind = alone(alloc, term, faults)?;
        found = found || is_faulty(&kind);
    }
    Ok(found)
}

/// More or fewer values than places for them, of which perhaps one is faulty.
pub fn of_another_number(
    alloc: Global,
    terms: &[Term],
    place_is_faulty: bool,
    faults: &mut Items<Fault>,
) -> Result<(), AllocError>
    ensures { OnOk result (faults.new ≡ faults.old ++ spec_of_another_number place_is_faulty (map spec_alone (judged_all terms.now))) }
{
    let value_is_faulty = values_held(alloc, terms, faults)?;
    if place_is_faulty || value_is_faulty {
        return Ok(());
    }
    report(faults, Code::T4)
}
