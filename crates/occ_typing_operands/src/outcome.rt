//! What an untyped constant comes to in each of the five types: literals, monadic operators, shifts.
ghost use Rattle.std.specs.Prelude.{◌≡◌};
ghost use Rattle.occ_typing_operands.specs.Outcomes.{applied as spec_applied, both_wrong as spec_both_wrong, decimal as spec_decimal, fitting as spec_fitting, hexadecimal as spec_hexadecimal, in_type as spec_in_type, misshifted as spec_misshifted, outcome_of as spec_outcome_of, shifted as spec_shifted, worse as spec_worse};
ghost use Rattle.occ_types.specs.Constant.{number_value, pattern_value};

use super::kind::{TypedValue, Untyped, Wrong};
use occ_types::{
    ConstFault, Monadic, Operator, Primitive, Value, fold, fold_one, value_of_number,
    value_of_pattern,
};

impl Untyped {
    /// A literal in decimal digits, perhaps with a `-` in front that makes one literal with it.
    pub fn decimal(n: i128) -> Untyped
        ensures { result ≡ spec_decimal n }
    {
        Untyped {
            is_faulty: false,
            byte: fitting(value_of_number(Primitive::Byte, n)),
            int16: fitting(value_of_number(Primitive::Int16, n)),
            int: fitting(value_of_number(Primitive::Int, n)),
            int32: fitting(value_of_number(Primitive::Int32, n)),
            int64: fitting(value_of_number(Primitive::Int64, n)),
        }
    }

    /// A literal in hexadecimal digits.
    pub fn hexadecimal(n: u64) -> Untyped
        ensures { result ≡ spec_hexadecimal n }
    {
        Untyped {
            is_faulty: false,
            byte: fitting(value_of_pattern(Primitive::Byte, n)),
            int16: fitting(value_of_pattern(Primitive::Int16, n)),
            int: fitting(value_of_pattern(Primitive::Int, n)),
            int32: fitting(value_of_pattern(Primitive::Int32, n)),
            int64: fitting(value_of_pattern(Primitive::Int64, n)),
        }
    }

    /// What it comes to in a type. It never takes BOOL.
    pub fn in_type(&self, of: Primitive) -> TypedValue
        ensures { result ≡ spec_in_type self.now of }
    {
        match of {
            Primitive::Bool => TypedValue::Unfit,
            Primitive::Byte => self.byte,
            Primitive::Int16 => self.int16,
            Primitive::Int => self.int,
            Primitive::Int32 => self.int32,
            Primitive::Int64 => self.int64,
        }
    }
}

pub(super) fn fitting(value: Option<Value>) -> TypedValue
    ensures { result ≡ spec_fitting value }
{
    match value {
        Some(value) => TypedValue::Constant(value),
        None => TypedValue::Unfit,
    }
}

/// What a constant comes to.
pub fn outcome_of(folded: Result<Value, ConstFault>) -> TypedValue
    ensures { result ≡ spec_outcome_of folded }
{
    match folded {
        Ok(value) => TypedValue::Constant(value),
        Err(_) => TypedValue::Faulty(Wrong::Value),
    }
}

/// What is wrong with two operands.
fn both_wrong(a: Wrong, b: Wrong) -> Wrong
    ensures { result ≡ spec_both_wrong a b }
{
    match (a, b) {
        (Wrong::Count, Wrong::Count) => Wrong::Count,
        (Wrong::Value, Wrong::Value) => Wrong::Value,
        _ => Wrong::Both,
    }
}

/// Of operands that are not all constant: a literal that does not fit comes first, then what is wrong with them.
pub(super) fn worse(a: TypedValue, b: TypedValue) -> TypedValue
    ensures { result ≡ spec_worse a b }
{
    match (a, b) {
        (TypedValue::Constant(_), _) => b,
        (TypedValue::Unfit, _) | (_, TypedValue::Unfit) => TypedValue::Unfit,
        (TypedValue::Faulty(a), TypedValue::Faulty(b)) => TypedValue::Faulty(both_wrong(a, b)),
        (TypedValue::Faulty(_), _) => a,
        (_, TypedValue::Faulty(_)) => b,
        (TypedValue::Varying, _) => TypedValue::Varying,
    }
}

/// What an operator in front gives.
pub fn apply(op: Monadic, a: TypedValue) -> TypedValue
    ensures { result ≡ spec_applied op a }
{
    match a {
        TypedValue::Constant(value) => outcome_of(fold_one(op, value)),
        _ => a,
    }
}

/// What a shift by this count gives, which is perhaps not constant.
pub fn shift(op: Operator, count: Option<Value>, a: TypedValue) -> TypedValue
    ensures { result ≡ spec_shifted op count a }
{
    match a {
        TypedValue::Constant(value) => match count {
            Some(count) => outcome_of(fold(op, value, count)),
            None => TypedValue::Varying,
        },
        _ => a,
    }
}

/// What a shift by a count gives that is no INT.
pub fn misshift(a: TypedValue) -> TypedValue
    ensures { result ≡ spec_misshifted a }
{
    match a {
        TypedValue::Unfit | TypedValue::Faulty(_) => a,
        TypedValue::Varying | TypedValue::Constant(_) => TypedValue::Faulty(Wrong::Count),
    }
}
