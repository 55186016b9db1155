//! `SIZE`, MOSTPOS and MOSTNEG.
ghost use Rattle.std.specs.Prelude.{◌≡◌, ◌++◌, IfOk, OnOk};
ghost use Rattle.occ_typing_tables.specs.Measuring.{limit_of, most as spec_most, size_outcome as spec_size_outcome, sized as spec_sized};
ghost use Rattle.occ_types.specs.Constant.{greatest_of, least_of, value_of};

use occ_base::{Code, Fault, Items, Shared, report};
use occ_types::{OccType, Primitive, Value, array_of, base_of, unnamed, value_of_number};
use occ_typing_operands::{Kind, TypedValue, int, known, landed, number};
use std::alloc::{AllocError, Global};

/// One end of the values of a type.
#[derive(Clone, Copy)]
pub enum Limit {
    /// `MOSTNEG`
    Least,
    /// `MOSTPOS`
    Greatest,
}

/// What the number of components is as an INT.
fn size_outcome(count: Option<u32>) -> TypedValue
    ensures { result ≡ spec_size_outcome count }
{
    match count {
        Some(count) => match value_of_number(Primitive::Int, i128::from(count)) {
            Some(value) => TypedValue::Constant(value),
            None => TypedValue::Unfit,
        },
        None => TypedValue::Varying,
    }
}

/// `SIZE` of a settled operand.
pub fn sized(alloc: Global, kind: &Kind, faults: &mut Items<Fault>) -> Result<Kind, AllocError>
    ensures kind { IfOk result (λ size. size ≡ (spec_sized kind.now).kind) }
    ensures faults { OnOk result (faults.new ≡ faults.old ++ (spec_sized kind.now).faults) }
{
    let Kind::Known(found) = kind else {
        return Ok(Kind::Faulty);
    };
    match array_of(unnamed(found.of.get())) {
        Some((count, _)) => landed(&int(alloc)?, size_outcome(count), faults),
        None => {
            report(faults, Code::T1)?;
            Ok(Kind::Faulty)
        }
    }
}

fn least(of: Primitive) -> Value
    ensures { result ≡ value_of of (least_of of) }
{
    match of {
        Primitive::Bool => Value::Bool(false),
        Primitive::Byte => Value::Byte(u8::MIN),
        Primitive::Int16 => Value::Int16(i16::MIN),
        Primitive::Int => Value::Int(i32::MIN),
        Primitive::Int32 => Value::Int32(i32::MIN),
        Primitive::Int64 => Value::Int64(i64::MIN),
    }
}

fn greatest(of: Primitive) -> Value
    ensures { result ≡ value_of of (greatest_of of) }
{
    match of {
        Primitive::Bool => Value::Bool(true),
        Primitive::Byte => Value::Byte(u8::MAX),
        Primitive::Int16 => Value::Int16(i16::MAX),
        Primitive::Int => Value::Int(i32::MAX),
        Primitive::Int32 => Value::Int32(i32::MAX),
        Primitive::Int64 => Value::Int64(i64::MAX),
    }
}

fn value_at(limit: Limit, of: Primitive) -> Value
    ensures { result ≡ value_of of (limit_of limit of) }
{
    match limit {
        Limit::Least => least(of),
        Limit::Greatest => greatest(of),
    }
}

/// `MOSTNEG` or `MOSTPOS` of a type.
pub fn most(
    limit: Limit,
    of: &Shared<OccType>,
    faults: &mut Items<Fault>,
) -> Result<Kind, AllocError>
    ensures kind { IfOk result (λ kind. kind ≡ (spec_most limit of.now).kind) }
    ensures faults { OnOk result (faults.new ≡ faults.old ++ (spec_most limit of.now).faults) }
{
    match number(base_of(of.get())) {
        Some(primitive) => known(of, Some(value_at(limit, primitive))),
        None => {
            report(faults, Code::T1)?;
            Ok(Kind::Faulty)
        }
    }
}
