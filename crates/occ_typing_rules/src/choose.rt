//! Conditions and selectors (T7), and options of a CASE: constant (T5) and no value twice (T8).
ghost use Rattle.std.specs.Prelude.{◌≡◌, ◌++◌, IfOk, OnOk};
ghost use Rattle.occ_typing_operands.specs.Operators.{is_bool as spec_is_bool, is_there};
ghost use Rattle.occ_typing_operands.specs.Settling.{number as spec_number};
ghost use Rattle.occ_typing_rules.specs.Choosing.{chosen as spec_chosen, condition as spec_condition, no_condition as spec_no_condition, option as spec_option, option_of as spec_option_of, options as spec_options, selecting as spec_selecting, selector as spec_selector};
ghost use Rattle.occ_typing_tables.specs.Terms.{judged, judged_all};

use super::option_numbers::OptionNumbers;
use occ_base::{Code, Fault, Items, Shared, report};
use occ_types::{OccType, Primitive, Value, as_primitive};
use occ_typing_operands::{Kind, number};
use occ_typing_tables::{Term, alone, under};
use std::alloc::{AllocError, Global};

/// Whether a primitive type is BOOL.
fn is_bool(base: Option<Primitive>) -> bool
    ensures { result ≡ spec_is_bool base }
{
    matches!(base, Some(Primitive::Bool))
}

/// Whether a primitive type is an integer type or BYTE.
fn is_number(base: Option<Primitive>) -> bool
    ensures { result ≡ is_there (spec_number base) }
{
    number(base).is_some()
}

/// T7 is reported of a settled condition that is not BOOL.
fn no_condition(kind: &Kind, faults: &mut Items<Fault>) -> Result<(), AllocError>
    ensures { OnOk result (faults.new ≡ faults.old ++ spec_no_condition kind.now) }
{
    match kind {
        Kind::Known(known) => {
            if is_bool(as_primitive(known.of.get())) {
                return Ok(());
            }
            report(faults, Code::T7)
        }
        _ => Ok(()),
    }
}

/// A condition, of an IF or a WHILE.
pub fn condition(alloc: Global, term: &Term, faults: &mut Items<Fault>) -> Result<(), AllocError>
    ensures { OnOk result (faults.new ≡ faults.old ++ spec_condition (judged term.now)) }
{
    let kind = alone(alloc, term, faults)?;
    no_condition(&kind, faults)
}

/// A settled selector.
fn selecting(kind: Kind, faults: &mut Items<Fault>) -> Result<Kind, AllocError>
    ensures kind { IfOk result (λ selecting. selecting ≡ (spec_selecting kind).kind) }
    ensures faults { OnOk result (faults.new ≡ faults.old ++ (spec_selecting kind).faults) }
{
    match kind {
        Kind::Known(known) => {
            if is_number(as_primitive(known.of.get())) {
                return Ok(Kind::Known(known));
            }
            report(faults, Code::T7)?;
            Ok(Kind::Faulty)
        }
        _ => Ok(Kind::Faulty),
    }
}

/// The selector of a CASE: T7 is reported of one that is no integer and no BYTE, which is then faulty.
pub fn selector(alloc: Global, term: &Term, faults: &mut Items<Fault>) -> Result<Kind, AllocError>
    ensures kind { IfOk result (λ kind. kind ≡ (spec_selector (judged term.now)).kind) }
    ensures faults { OnOk result (faults.new ≡ faults.old ++ (spec_selector (judged term.now)).faults) }
{
    let kind = alone(alloc, term, faults)?;
    selecting(kind, faults)
}

/// An option of the selector's type, with its value, if it is constant.
fn option_of(
    alloc: Global,
    value: Option<Value>,
    before: &mut OptionNumbers,
    faults: &mut Items<Fault>,
) -> Result<(), AllocError>
    ensures numbers { OnOk result (before.new ≡ (spec_option_of before.old value).numbers) }
    ensures faults { OnOk result (faults.new ≡ faults.old ++ (spec_option_of before.old value).faults) }
{
    let Some(value) = value else {
        return report(faults, Code::T5);
    };
    if before.insert(alloc, value.number())? {
        return Ok(());
    }
    report(faults, Code::T8)
}

/// A settled option.
fn chosen(
    alloc: Global,
    kind: &Kind,
    before: &mut OptionNumbers,
    faults: &mut Items<Fault>,
) -> Result<(), AllocError>
    ensures numbers { OnOk result (before.new ≡ (spec_chosen before.old kind.now).numbers) }
    ensures faults { OnOk result (faults.new ≡ faults.old ++ (spec_chosen before.old kind.now).faults) }
{
    match kind {
        Kind::Known(known) => option_of(alloc, known.value.get(), before, faults),
        _ => Ok(()),
    }
}

/// An option of a CASE with a selector of this type.
fn option(
    alloc: Global,
    of: &Shared<OccType>,
    term: &Term,
    before: &mut OptionNumbers,
    faults: &mut Items<Fault>,
) -> Result<(), AllocError>
    ensures numbers { OnOk result (before.new ≡ (spec_option of.now before.old (judged term.now)).numbers) }
    ensures faults { OnOk result (faults.new ≡ faults.old ++ (spec_option of.now before.old (judged term.now)).faults) }
{
    let kind = under(alloc, term, of, faults)?;
    chosen(alloc, &kind, before, faults)
}

/// Options of a CASE with a selector of this type, after options with these numbers, to which theirs are added.
pub fn options(
    alloc: Global,
    of: &Shared<OccType>,
    terms: &[Term],
    before: &mut OptionNumbers,
    faults: &mut Items<Fault>,
) -> Result<(), AllocError>
    ensures numbers { OnOk result (before.new ≡ (spec_options of.now before.old (judged_all terms.now)).numbers) }
    ensures faults { OnOk result (faults.new ≡ faults.old ++ (spec_options of.now before.old (judged_all terms.now)).faults) }
{
    for term in terms {
        option(alloc, of, term, before, faults)?;
    }
    Ok(())
}
