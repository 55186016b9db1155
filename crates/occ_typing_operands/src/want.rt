//! Operands of which a type is wanted (T2), and conversions.
ghost use Rattle.std.specs.Prelude.{◌≡◌, ◌++◌, IfOk, OnOk};
ghost use Rattle.occ_base.specs.declared.code.Code.TheVariants as code;
ghost use Rattle.occ_typing_operands.specs.Settling.{fault_of};
ghost use Rattle.occ_typing_operands.specs.Wanting.{are_there, cast as spec_cast, conversion, converted_from as spec_converted_from, converts as spec_converts, fitted as spec_fitted, wanted as spec_wanted};

use super::kind::{Kind, Known, TypedValue};
use super::outcome::outcome_of;
use super::settle::{int, known_as, landed, settled};
use occ_base::{Code, Fault, Items, Shared, report};
use occ_types::{OccType, Primitive, Value, alike, as_primitive, base_of, convert, fits};
use std::alloc::{AllocError, Global};

/// An operand is of another type than the one that is wanted.
fn unfit(faults: &mut Items<Fault>) -> Result<Kind, AllocError>
    ensures kind { IfOk result (λ kind. kind ≡ (fault_of code.T2).kind) }
    ensures faults { OnOk result (faults.new ≡ faults.old ++ (fault_of code.T2).faults) }
{
    report(faults, Code::T2)?;
    Ok(Kind::Faulty)
}

/// A settled operand must be of the type.
pub fn fitted(
    of: &Shared<OccType>,
    kind: &Kind,
    faults: &mut Items<Fault>,
) -> Result<Kind, AllocError>
    ensures kind { IfOk result (λ fitted. fitted ≡ (spec_fitted of.now kind.now).kind) }
    ensures faults { OnOk result (faults.new ≡ faults.old ++ (spec_fitted of.now kind.now).faults) }
{
    match kind {
        Kind::Known(found) => {
            if fits(of.get(), found.of.get()) {
                return known_as(&found.of, found.value);
            }
            unfit(faults)
        }
        _ => Ok(Kind::Faulty),
    }
}

/// The same of an operand that is given away: it is the answer, if it is of the type.
fn kept(of: &Shared<OccType>, kind: Kind, faults: &mut Items<Fault>) -> Result<Kind, AllocError>
    ensures kind { IfOk result (λ kept. kept ≡ (spec_fitted of.now kind).kind) }
    ensures faults { OnOk result (faults.new ≡ faults.old ++ (spec_fitted of.now kind).faults) }
{
    match kind {
        Kind::Known(found) => {
            if !fits(of.get(), found.of.get()) {
                return unfit(faults);
            }
            Ok(Kind::Known(found))
        }
        _ => Ok(Kind::Faulty),
    }
}

/// An operand of which a type is wanted.
pub fn wanted(
    alloc: Global,
    of: &Shared<OccType>,
    kind: &Kind,
    faults: &mut Items<Fault>,
) -> Result<Kind, AllocError>
    ensures kind { IfOk result (λ wanted. wanted ≡ (spec_wanted of.now kind.now).kind) }
    ensures faults { OnOk result (faults.new ≡ faults.old ++ (spec_wanted of.now kind.now).faults) }
{
    let kind = settled(alloc, of, kind, faults)?;
    kept(of, kind, faults)
}

fn both(a: Option<Primitive>, b: Option<Primitive>) -> bool
    ensures { result ≡ are_there a b }
{
    a.is_some() && b.is_some()
}

/// Whether a value of the one type converts to the other.
fn converts(to: &OccType, from: &OccType) -> bool
    ensures { result ≡ spec_converts to.now from.now }
{
    both(as_primitive(to), as_primitive(from)) || alike(to, from)
}

fn cast(base: Option<Primitive>, value: Option<Value>) -> TypedValue
    ensures { result ≡ spec_cast base value }
{
    match (base, value) {
        (Some(base), Some(value)) => outcome_of(convert(base, value)),
        _ => TypedValue::Varying,
    }
}

/// What the conversion of a settled operand gives.
fn converted_from(
    to: &Shared<OccType>,
    kind: &Kind,
    faults: &mut Items<Fault>,
) -> Result<Kind, AllocError>
    ensures kind { IfOk result (λ converted. converted ≡ (spec_converted_from to.now kind.now).kind) }
    ensures faults { OnOk result (faults.new ≡ faults.old ++ (spec_converted_from to.now kind.now).faults) }
{
    match kind {
        Kind::Known(found) => {
            if converts(to.get(), found.of.get()) {
                return landed(to, cast(base_of(to.get()), found.value.get()), faults);
            }
            report(faults, Code::T2)?;
            Ok(Kind::Faulty)
        }
        _ => Ok(Kind::Faulty),
    }
}

/// What a conversion gives. An untyped operand is an INT.
pub fn converted(
    alloc: Global,
    to: &Shared<OccType>,
    kind: &Kind,
    faults: &mut Items<Fault>,
) -> Result<Kind, AllocError>
    ensures kind { IfOk result (λ converted. converted ≡ (conversion to.now kind.now).kind) }
    ensures faults { OnOk result (faults.new ≡ faults.old ++ (conversion to.now kind.now).faults) }
{
    let kind = settled(alloc, &int(alloc)?, kind, faults)?;
    converted_from(to, &kind, faults)
}
