//! Subscripts and fields: what they select of a value, and N1, T2 or T6.
ghost use Rattle.std.specs.Prelude.{◌≡◌, ◌++◌, ℕ, IfOk, MatchOption, None, OnOk, Option, Some};
ghost use Rattle.occ_types.specs.declared.types.OccType.{OccType};
ghost use Rattle.occ_typing_operands.specs.Settling.{int as spec_int, known as spec_known};
ghost use Rattle.occ_typing_operands.specs.Parts.{component as spec_component, component_at as spec_component_at, field as spec_field, field_named as spec_field_named, field_reported, is_constant_outside, mismatched as spec_mismatched, not_subscripted as spec_not_subscripted, subscripted as spec_subscripted};

use super::kind::{Kind, TypedValue};
use super::operate::is_int;
use super::settle::{int, known, settled};
use super::want::wanted;
use occ_base::{Code, Fault, Items, Name, Shared, report};
use occ_types::{Field, OccType, Primitive, SoughtPart, Value, array_of, is_unknown, unnamed};
use std::alloc::{AllocError, Global};

/// Whether a constant is no place of an array of so many components.
fn is_outside(count: Option<u32>, place: Option<Value>) -> bool
    ensures { result ≡ is_constant_outside count place }
{
    let Some(value) = place else {
        return false;
    };
    let place = value.number();
    match count {
        Some(count) => place < 0 || i64::from(count) <= place,
        None => place < 0,
    }
}

/// The component at an INT of this value.
#[inline(always)]
fn component_at(
    count: Option<u32>,
    of: &Shared<OccType>,
    place: Option<Value>,
    faults: &mut Items<Fault>,
) -> Result<Kind, AllocError>
    ensures kind { IfOk result (λ kind. kind ≡ (spec_component_at count of.now (spec_known spec_int place)).kind) }
    ensures faults { OnOk result (faults.new ≡ faults.old ++ (spec_component_at count of.now (spec_known spec_int place)).faults) }
{
    if is_outside(count, place) {
        report(faults, Code::T6)?;
        return Ok(Kind::Faulty);
    }
    known(of, None)
}

/// The value that a free place has as an INT, if it has one.
#[tactic(auto, using(crate::proofs::Places::literal_place))]
fn literal_place(index: &Kind) -> Option<Value>
    ensures { MatchOption result (Unit {0}) (λ value. (count : Option ℕ) → (of : OccType) → spec_component count of index.now ≡ spec_component_at count of (spec_known spec_int (Some value))) }
{
    let Kind::Untyped(untyped) = index else {
        return None;
    };
    if untyped.is_faulty() {
        return None;
    }
    match untyped.in_type(Primitive::Int) {
        TypedValue::Constant(value) => Some(value),
        _ => None,
    }
}

/// The component of an array at a place of which an INT is wanted.
fn component_wanted(
    alloc: Global,
    count: Option<u32>,
    of: &Shared<OccType>,
    index: &Kind,
    faults: &mut Items<Fault>,
) -> Result<Kind, AllocError>
    ensures kind { IfOk result (λ kind. kind ≡ (spec_component count of.now index.now).kind) }
    ensures faults { OnOk result (faults.new ≡ faults.old ++ (spec_component count of.now index.now).faults) }
{
    match wanted(alloc, &int(alloc)?, index, faults)? {
        Kind::Known(found) => component_at(count, of, found.value.get(), faults),
        _ => Ok(Kind::Faulty),
    }
}

/// The component of an array at a place, which must be an INT, and lie in the array if it is constant.
#[tactic(auto, using(crate::proofs::Places::settled_place))]
fn component(
    alloc: Global,
    count: Option<u32>,
    of: &Shared<OccType>,
    index: &Kind,
    faults: &mut Items<Fault>,
) -> Result<Kind, AllocError>
    ensures kind { IfOk result (λ kind. kind ≡ (spec_component count of.now index.now).kind) }
    ensures faults { OnOk result (faults.new ≡ faults.old ++ (spec_component count of.now index.now).faults) }
{
    if let Some(value) = literal_place(index) {
        return component_at(count, of, Some(value), faults);
    }
    match index {
        Kind::Known(found) if is_int(found.of.get()) => {
            component_at(count, of, found.value.get(), faults)
        }
        _ => component_wanted(alloc, count, of, index, faults),
    }
}

/// T2 is reported of a settled operand that stands where none of its type may.
pub fn mismatched(operand: &Kind, faults: &mut Items<Fault>) -> Result<Kind, AllocError>
    ensures kind { IfOk result (λ kind. kind ≡ (spec_mismatched operand.now).kind) }
    ensures faults { OnOk result (faults.new ≡ faults.old ++ (spec_mismatched operand.now).faults) }
{
    if let Kind::Known(_) = operand {
        report(faults, Code::T2)?;
    }
    Ok(Kind::Faulty)
}

/// A subscript of what is no array.
fn not_subscripted(
    alloc: Global,
    index: &Kind,
    faults: &mut Items<Fault>,
) -> Result<Kind, AllocError>
    ensures kind { IfOk result (λ kind. kind ≡ (spec_not_subscripted index.now).kind) }
    ensures faults { OnOk result (faults.new ≡ faults.old ++ (spec_not_subscripted index.now).faults) }
{
    let place = settled(alloc, &int(alloc)?, index, faults)?;
    mismatched(&place, faults)
}

/// What a subscript that is no name of a field selects of a value of this type.
pub fn subscripted(
    alloc: Global,
    of: &OccType,
    index: &Kind,
    faults: &mut Items<Fault>,
) -> Result<Kind, AllocError>
    ensures kind { IfOk result (λ kind. kind ≡ (spec_subscripted of.now index.now).kind) }
    ensures faults { OnOk result (faults.new ≡ faults.old ++ (spec_subscripted of.now index.now).faults) }
{
    match array_of(unnamed(of)) {
        Some((count, inner)) => component(alloc, count, inner, index, faults),
        None => not_subscripted(alloc, index, faults),
    }
}

/// The type of the first field of a name.
fn field_named<'a>(fields: &'a [Field], name: &Name) -> Option<&'a Shared<OccType>>
    ensures { MatchOption result (spec_field_named name.now fields.now ≡ None) (λ of. spec_field_named name.now fields.now ≡ Some of.now) }
{
    let sought = SoughtPart::new(name);
    for field in fields {
        if field.name.is(&sought) {
            return Some(&field.of);
        }
    }
    None
}

/// What a name selects of a record with these fields.
pub fn field(
    alloc: Global,
    fields: &[Field],
    name: &Name,
    faults: &mut Items<Fault>,
) -> Result<Kind, AllocError>
    ensures kind { IfOk result (λ kind. kind ≡ (spec_field fields.now name.now).kind) }
    ensures faults { OnOk result (faults.new ≡ faults.old ++ (spec_field fields.now name.now).faults) }
{
    match field_named(fields, name) {
        Some(of) if is_unknown(of.get()) => Ok(Kind::Faulty),
        Some(of) => known(of, None),
        None => {
            faults.push(Fault {
                code: Code::N1,
                name: Some(name.copied(alloc)?),
            })?;
            Ok(Kind::Faulty)
        }
    }
}
