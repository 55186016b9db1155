//! Targets and values of an assignment, pair by pair: T3 for a `VAL` name, T2 for what is no data, T4 for another number.
//! `docs/LANGUAGE.md, What lines ask of operands`.
#![tactic(auto, using(crate::proofs::Counting::judged_length))]

ghost use Rattle.std.specs.Prelude.{◌≡◌, ◌++◌, IfOk, OnOk};
ghost use Rattle.occ_typing_rules.specs.Assigning.{assigned as spec_assigned, pair as spec_pair, pairs as spec_pairs, target as spec_target, unpaired as spec_unpaired, unwritten as spec_unwritten, value_for as spec_value_for};
ghost use Rattle.occ_typing_tables.specs.Terms.{judged, judged_all};

use super::count::{of_another_number, targets_held};
use occ_base::{Code, Fault, Items, Name, Shared, report};
use occ_scope::{Access, Whole};
use occ_types::{OccType, is_data};
use occ_typing_operands::Kind;
use occ_typing_tables::{Term, hidden, under};
use std::alloc::{AllocError, Global};

/// T3 is reported with the name of what the target is a part of, and the target is faulty.
fn unwritten(alloc: Global, root: &Name, faults: &mut Items<Fault>) -> Result<Kind, AllocError>
    ensures kind { IfOk result (λ target. target ≡ (spec_unwritten root.now).kind) }
    ensures faults { OnOk result (faults.new ≡ faults.old ++ (spec_unwritten root.now).faults) }
{
    let name = Some(root.copied(alloc)?);
    faults.push(Fault {
        code: Code::T3,
        name,
    })?;
    Ok(Kind::Faulty)
}

/// A target, of which the element is known and all that it is a part of: T3 is reported of a VAL name, and the target is
/// then faulty.
pub fn target(
    alloc: Global,
    kind: Kind,
    whole: &Whole,
    faults: &mut Items<Fault>,
) -> Result<Kind, AllocError>
    ensures kind { IfOk result (λ target. target ≡ (spec_target whole.now kind).kind) }
    ensures faults { OnOk result (faults.new ≡ faults.old ++ (spec_target whole.now kind).faults) }
{
    let Kind::Known(known) = kind else {
        return Ok(Kind::Faulty);
    };
    match whole.access {
        Access::Variable => Ok(Kind::Known(known)),
        Access::Formal => unwritten(alloc, &whole.root, faults),
        Access::Value => unwritten(alloc, &whole.root, faults),
    }
}

/// The value for a target of this type: T2 is reported of a target that is no data, and then nothing of the value.
fn value_for(
    alloc: Global,
    of: &Shared<OccType>,
    value: &Term,
    faults: &mut Items<Fault>,
) -> Result<(), AllocError>
    ensures { OnOk result (faults.new ≡ faults.old ++ spec_value_for of.now (judged value.now)) }
{
    if is_data(of.get()) {
        under(alloc, value, of, faults)?;
        return Ok(());
    }
    report(faults, Code::T2)
}

/// A target and the value for it.
fn pair(
    alloc: Global,
    target: &Kind,
    value: &Term,
    faults: &mut Items<Fault>,
) -> Result<(), AllocError>
    ensures { OnOk result (faults.new ≡ faults.old ++ spec_pair target.now (judged value.now)) }
{
    match target {
        Kind::Known(known) => value_for(alloc, &known.of, value, faults),
        Kind::Faulty | Kind::Untyped(_) => {
            hidden(alloc, value, faults)?;
            Ok(())
        }
    }
}

/// As many values as targets.
fn pairs(
    alloc: Global,
    targets: &[Kind],
    values: &[Term],
    faults: &mut Items<Fault>,
) -> Result<(), AllocError>
    ensures { OnOk result (faults.new ≡ faults.old ++ spec_pairs targets.now (judged_all values.now)) }
{
    let mut values = values;
    for target in targets {
        let Some((value, rest)) = values.split_first() else {
            return Ok(());
        };
        pair(alloc, target, value, faults)?;
        values = rest;
    }
    Ok(())
}

/// More or fewer values than targets.
fn unpaired(
    alloc: Global,
    targets: &[Kind],
    values: &[Term],
    faults: &mut Items<Fault>,
) -> Result<(), AllocError>
    ensures { OnOk result (faults.new ≡ faults.old ++ spec_unpaired targets.now (judged_all values.now)) }
{
    let target_is_faulty = targets_held(targets, faults)?;
    of_another_number(alloc, values, target_is_faulty, faults)
}

/// The values of an assignment to these targets.
pub fn assigned(
    alloc: Global,
    targets: &[Kind],
    values: &[Term],
    faults: &mut Items<Fault>,
) -> Result<(), AllocError>
    ensures { OnOk result (faults.new ≡ faults.old ++ spec_assigned targets.now (judged_all values.now)) }
{
    if targets.len() == values.len() {
        return pairs(alloc, targets, values, faults);
    }
    unpaired(alloc, targets, values, faults)
}
