//! Arithmetic of constants: operators, monadic operators and conversions, with their faults. `docs/LANGUAGE.md,
//! Constants`.
ghost use Rattle.std.specs.Prelude.{bit_and as and_bits, bit_or as or_bits, bit_xor as xor_bits, int_div, int_rem, neg_ℤ, pos, ◌+ℤ◌, ◌-ℤ◌, ◌%◌, ◌*ℤ◌, ◌*◌, ◌-◌, ◌/◌, ◌≡◌, ◌≢◌, ◌^◌};
ghost use Rattle.occ_types.specs.Constant.{bits_of, converted, count_of, divided, folded, folded_one, outcome as spec_outcome, pattern_of, settled, settled_pattern, shifted};

use super::range::{bits, pattern, power, settle, settle_pattern, wrap};
use super::value::{Primitive, Value};
use thiserror::Error;

/// Why a constant expression has no value.
#[derive(Clone, Copy, Debug, Error)]
pub enum ConstFault {
    /// The result is out of the range of its type.
    #[error("Overflow")]
    Overflow,
    /// The divisor is 0.
    #[error("ZeroDivisor")]
    ZeroDivisor,
    /// The count of a shift is below 0 or over the number of bits.
    #[error("Shift")]
    Shift,
}

/// The operators between two operands. `Remainder` is `\` and REM, `AtMost` is `<=` and `AtLeast` is `>=`.
#[derive(Clone, Copy)]
pub enum Operator {
    Add,
    Subtract,
    Multiply,
    Divide,
    Remainder,
    Plus,
    Minus,
    Times,
    BitAnd,
    BitOr,
    BitXor,
    ShiftLeft,
    ShiftRight,
    Equal,
    NotEqual,
    Less,
    Greater,
    AtMost,
    AtLeast,
    After,
    And,
    Or,
}

/// The operators before one operand: `-`, MINUS, `~` or BITNOT, and NOT.
#[derive(Clone, Copy, PartialEq, Eq)]
pub enum Monadic {
    Negate,
    Minus,
    BitNot,
    Not,
}

/// The value of a type that has the number of `a`, if it has one.
pub fn convert(of: Primitive, a: Value) -> Result<Value, ConstFault>
    ensures { result ≡ converted of a }
{
    settle(of, i128::from(a.number()))
}

/// The value of an expression of two operands, or its fault.
pub fn fold(op: Operator, a: Value, b: Value) -> Result<Value, ConstFault>
    ensures { result ≡ folded op a b }
{
    outcome(op, a.primitive(), a.number(), b.number())
}

/// The value of an expression of one operand, or its fault.
pub fn fold_one(op: Monadic, a: Value) -> Result<Value, ConstFault>
    ensures { result ≡ folded_one op a }
{
    let of = a.primitive();
    let x = a.number();
    match op {
        Monadic::Negate => settle(of, negative(x)),
        Monadic::Minus => settle(of, wrap(of, negative(x))),
        Monadic::BitNot => flip(of, x),
        Monadic::Not => Ok(Value::Bool(x <= 0)),
    }
}

/// What an operator gives on two numbers, the first of a type.
fn outcome(op: Operator, of: Primitive, x: i64, y: i64) -> Result<Value, ConstFault>
    ensures { result ≡ spec_outcome op of x y }
{
    match op {
        Operator::Add => settle(of, sum(x, y)),
        Operator::Subtract => settle(of, difference(x, y)),
        Operator::Multiply => settle(of, product(x, y)),
        Operator::Divide => divide(of, x, y),
        Operator::Remainder => remainder(of, x, y),
        Operator::Plus => settle(of, wrap(of, sum(x, y))),
        Operator::Minus => settle(of, wrap(of, difference(x, y))),
        Operator::Times => settle(of, wrap(of, product(x, y))),
        Operator::BitAnd => bit_and(of, x, y),
        Operator::BitOr => bit_or(of, x, y),
        Operator::BitXor => bit_xor(of, x, y),
        Operator::ShiftLeft => shift_left(of, x, y),
        Operator::ShiftRight => shift_right(of, x, y),
        Operator::Equal => Ok(Value::Bool(x == y)),
        Operator::NotEqual => Ok(Value::Bool(x != y)),
        Operator::Less => Ok(Value::Bool(x < y)),
        Operator::Greater => Ok(Value::Bool(x > y)),
        Operator::AtMost => Ok(Value::Bool(x <= y)),
        Operator::AtLeast => Ok(Value::Bool(x >= y)),
        Operator::After => Ok(Value::Bool(wrap(of, difference(x, y)) > 0)),
        Operator::And => Ok(Value::Bool(x > 0 && y > 0)),
        Operator::Or => Ok(Value::Bool(x > 0 || y > 0)),
    }
}

fn sum(x: i64, y: i64) -> i128
    ensures { result ≡ x +ℤ y }
{
    i128::from(x) + i128::from(y)
}

fn difference(x: i64, y: i64) -> i128
    ensures { result ≡ x -ℤ y }
{
    i128::from(x) - i128::from(y)
}

fn negative(x: i64) -> i128
    ensures { result ≡ neg_ℤ x }
{
    -i128::from(x)
}

fn product(x: i64, y: i64) -> i128
    ensures { result ≡ x *ℤ y }
{
    i128::from(x) * i128::from(y)
}

fn quotient(x: i64, y: i64) -> i128
    requires { y ≢ pos 0 }
    ensures { result ≡ int_div x y }
{
    i128::from(x) / i128::from(y)
}

fn rest(x: i64, y: i64) -> i128
    requires { y ≢ pos 0 }
    ensures { result ≡ int_rem x y }
{
    i128::from(x) % i128::from(y)
}

fn divide(of: Primitive, x: i64, y: i64) -> Result<Value, ConstFault>
    ensures { result ≡ divided y (settled of (int_div x y)) }
{
    if y == 0 {
        return Err(ConstFault::ZeroDivisor);
    }
    settle(of, quotient(x, y))
}

fn remainder(of: Primitive, x: i64, y: i64) -> Result<Value, ConstFault>
    ensures { result ≡ divided y (settled of (int_rem x y)) }
{
    if y == 0 {
        return Err(ConstFault::ZeroDivisor);
    }
    settle(of, rest(x, y))
}

fn bit_and(of: Primitive, x: i64, y: i64) -> Result<Value, ConstFault>
    ensures { result ≡ settled_pattern of (and_bits (pattern_of of x) (pattern_of of y)) }
{
    settle_pattern(of, pattern(of, i128::from(x)) & pattern(of, i128::from(y)))
}

fn bit_or(of: Primitive, x: i64, y: i64) -> Result<Value, ConstFault>
    ensures { result ≡ settled_pattern of (or_bits (pattern_of of x) (pattern_of of y)) }
{
    settle_pattern(of, pattern(of, i128::from(x)) | pattern(of, i128::from(y)))
}

fn bit_xor(of: Primitive, x: i64, y: i64) -> Result<Value, ConstFault>
    ensures { result ≡ settled_pattern of (xor_bits (pattern_of of x) (pattern_of of y)) }
{
    settle_pattern(of, pattern(of, i128::from(x)) ^ pattern(of, i128::from(y)))
}

fn flip(of: Primitive, x: i64) -> Result<Value, ConstFault>
    ensures { result ≡ settled_pattern of (2 ^ bits_of of - 1 - pattern_of of x) }
{
    settle_pattern(of, power(bits(of)) - 1 - pattern(of, i128::from(x)))
}

/// The count of a shift, if it is good for a type.
fn shift_count(of: Primitive, y: i64) -> Option<u32>
    ensures { result ≡ count_of of y }
{
    if 0 <= y && y <= i64::from(bits(of)) {
        Some(y as u32)
    } else {
        None
    }
}

fn shift_left(of: Primitive, x: i64, y: i64) -> Result<Value, ConstFault>
    ensures { result ≡ shifted of y (λ k. pattern_of of x * 2 ^ k % 2 ^ bits_of of) }
{
    let Some(count) = shift_count(of, y) else {
        return Err(ConstFault::Shift);
    };
    settle_pattern(
        of,
        pattern(of, i128::from(x)) * power(count) % power(bits(of)),
    )
}

fn shift_right(of: Primitive, x: i64, y: i64) -> Result<Value, ConstFault>
    ensures { result ≡ shifted of y (λ k. pattern_of of x / 2 ^ k) }
{
    let Some(count) = shift_count(of, y) else {
        return Err(ConstFault::Shift);
    };
    settle_pattern(of, pattern(of, i128::from(x)) / power(count))
}
