//! Gives an operand the type that is wanted of it, or INT where a free one does not fit. T6 is reported where it has no
//! value.
ghost use Rattle.std.specs.Prelude.{◌≡◌, ◌++◌, IfOk, OnOk, [], ◌∷◌, None};
ghost use Rattle.occ_typing_operands.specs.Settling.{base_of as spec_base_of, faulty_if as spec_faulty_if, int as spec_int, known as spec_known, landed as spec_landed, landed_or_int as spec_landed_or_int, number as spec_number, settled as spec_settled, settled_untyped as spec_settled_untyped, wrong_faults};
ghost use Rattle.occ_base.specs.Reporting.{nameless};
ghost use Rattle.occ_typing_operands.specs.declared.kind.Kind.TheVariants as k;

use super::kind::{Kind, Known, TypedValue, Untyped, Wrong};
use super::untyped_constant::UntypedConstant;
use occ_base::{Code, Fault, Items, Shared, report};
use occ_types::{MaybeValue, OccType, Primitive, Value, base_of};
use std::alloc::{AllocError, Global};

/// INT, the type of an untyped operand of which none is wanted.
pub fn int(alloc: Global) -> Result<Shared<OccType>, AllocError>
    ensures { IfOk result (λ of. of ≡ spec_int) }
{
    Shared::new(alloc, OccType::Primitive(Primitive::Int))
}

/// The primitive type, if it is an integer type or BYTE.
pub fn number(base: Option<Primitive>) -> Option<Primitive>
    ensures { result ≡ spec_number base }
{
    match base {
        Some(Primitive::Bool) => None,
        _ => base,
    }
}

/// A known operand.
pub fn known(of: &Shared<OccType>, value: Option<Value>) -> Result<Kind, AllocError>
    ensures { IfOk result (λ kind. kind ≡ spec_known of.now value) }
{
    known_as(of, MaybeValue::new(value))
}

/// The same, whose value is held as an operand holds it.
#[inline(always)]
pub fn known_as(of: &Shared<OccType>, value: MaybeValue) -> Result<Kind, AllocError>
    ensures { IfOk result (λ kind. kind ≡ spec_known of.now value) }
{
    let of = of.share()?;
    Ok(Kind::Known(Known { of, value }))
}

/// An untyped operand.
pub fn untyped(alloc: Global, untyped: Untyped) -> Result<Kind, AllocError>
    ensures { IfOk result (λ kind. kind ≡ k.Untyped untyped) }
{
    Ok(Kind::Untyped(UntypedConstant::found(alloc, untyped)?))
}

/// What is wrong is reported.
pub(super) fn report_wrong(wrong: Wrong, faults: &mut Items<Fault>) -> Result<(), AllocError>
    ensures { OnOk result (faults.new ≡ faults.old ++ wrong_faults wrong) }
{
    match wrong {
        Wrong::Count => report(faults, Code::T1),
        Wrong::Value => report(faults, Code::T6),
        Wrong::Both => {
            report(faults, Code::T1)?;
            report(faults, Code::T6)
        }
    }
}

/// Of this type, it comes to that.
#[inline(always)]
pub fn landed(
    of: &Shared<OccType>,
    outcome: TypedValue,
    faults: &mut Items<Fault>,
) -> Result<Kind, AllocError>
    ensures kind { IfOk result (λ kind. kind ≡ (spec_landed of.now outcome).kind) }
    ensures faults { OnOk result (faults.new ≡ faults.old ++ (spec_landed of.now outcome).faults) }
{
    match outcome {
        TypedValue::Unfit => {
            report(faults, Code::T6)?;
            Ok(Kind::Faulty)
        }
        TypedValue::Faulty(wrong) => {
            report_wrong(wrong, faults)?;
            Ok(Kind::Faulty)
        }
        TypedValue::Varying => known(of, None),
        TypedValue::Constant(value) => known(of, Some(value)),
    }
}

/// An untyped operand, of which this type is wanted, with what it comes to in it.
fn landed_or_int(
    alloc: Global,
    of: &Shared<OccType>,
    untyped: &UntypedConstant,
    outcome: TypedValue,
    faults: &mut Items<Fault>,
) -> Result<Kind, AllocError>
    ensures kind { IfOk result (λ kind. kind ≡ (spec_landed_or_int of.now untyped.now outcome).kind) }
    ensures faults { OnOk result (faults.new ≡ faults.old ++ (spec_landed_or_int of.now untyped.now outcome).faults) }
{
    match outcome {
        TypedValue::Unfit => landed(&int(alloc)?, untyped.in_type(Primitive::Int), faults),
        _ => landed(of, outcome, faults),
    }
}

/// An untyped operand, of which this type is wanted.
fn settled_untyped(
    alloc: Global,
    of: &Shared<OccType>,
    untyped: &UntypedConstant,
    faults: &mut Items<Fault>,
) -> Result<Kind, AllocError>
    ensures kind { IfOk result (λ kind. kind ≡ (spec_settled_untyped of.now untyped.now (spec_number (spec_base_of of.now))).kind) }
    ensures faults { OnOk result (faults.new ≡ faults.old ++ (spec_settled_untyped of.now untyped.now (spec_number (spec_base_of of.now))).faults) }
{
    match number(base_of(of.get())) {
        Some(base) => landed_or_int(alloc, of, untyped, untyped.in_type(base), faults),
        None => landed(&int(alloc)?, untyped.in_type(Primitive::Int), faults),
    }
}

/// What is known of what needs something faulty, or does not.
fn faulty_if(needs_faulty: bool, kind: Kind) -> Kind
    ensures { result ≡ (spec_faulty_if needs_faulty (record { faults = []; kind = kind })).kind }
{
    if needs_faulty { Kind::Faulty } else { kind }
}

/// What an operand is where this type is wanted of it: a free one takes the type, if that is a number under its names
/// which each of its literals fits, and else INT.
#[inline(always)]
pub fn settled(
    alloc: Global,
    of: &Shared<OccType>,
    kind: &Kind,
    faults: &mut Items<Fault>,
) -> Result<Kind, AllocError>
    ensures kind { IfOk result (λ settled. settled ≡ (spec_settled of.now kind.now).kind) }
    ensures faults { OnOk result (faults.new ≡ faults.old ++ (spec_settled of.now kind.now).faults) }
{
    match kind {
        Kind::Faulty => Ok(Kind::Faulty),
        Kind::Untyped(untyped) => {
            let kind = settled_untyped(alloc, of, untyped, faults)?;
            Ok(faulty_if(untyped.is_faulty(), kind))
        }
        Kind::Known(found) => known_as(&found.of, found.value),
    }
}
