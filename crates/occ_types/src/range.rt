//! Ranges and bits of the primitive types: a number as a value, its bits, and what wraps.
ghost use Rattle.std.specs.Prelude.{int_le, true, ◌<◌, ◌≡◌, ◌≤◌, ◌^◌};
ghost use Rattle.occ_types.specs.Constant.{bits_of, greatest_of, least_of, number_of_pattern, pattern_of, settled, settled_pattern, value_of, wrapped};

use super::constant::ConstFault;
use super::value::{Primitive, Value};

/// The number of bits of a type.
pub(crate) fn bits(of: Primitive) -> u32
    ensures value { result ≡ bits_of of }
    ensures most { result ≤ 64 }
{
    match of {
        Primitive::Bool => 1,
        Primitive::Byte => 8,
        Primitive::Int16 => 16,
        Primitive::Int | Primitive::Int32 => 32,
        Primitive::Int64 => 64,
    }
}

/// 2 to the power k.
pub(crate) fn power(k: u32) -> u128
    requires { k ≤ 64 }
    ensures value { result ≡ 2 ^ k }
    ensures most { result ≤ 2 ^ 64 }
{
    1 << k
}

/// The value of a type whose number is n, if n is in its range.
pub(crate) fn settle(of: Primitive, n: i128) -> Result<Value, ConstFault>
    ensures { result ≡ settled of n }
{
    if least(of) <= n && n <= greatest(of) {
        Ok(value(of, n))
    } else {
        Err(ConstFault::Overflow)
    }
}

/// The value of a type whose number is n.
fn value(of: Primitive, n: i128) -> Value
    requires least { int_le (least_of of) n ≡ true }
    requires greatest { int_le n (greatest_of of) ≡ true }
    ensures { result ≡ value_of of n }
{
    match of {
        Primitive::Bool => Value::Bool(0 < n),
        Primitive::Byte => Value::Byte(n as u8),
        Primitive::Int16 => Value::Int16(n as i16),
        Primitive::Int => Value::Int(n as i32),
        Primitive::Int32 => Value::Int32(n as i32),
        Primitive::Int64 => Value::Int64(n as i64),
    }
}

/// The bits of n in a type.
pub(crate) fn pattern(of: Primitive, n: i128) -> u128
    ensures value { result ≡ pattern_of of n }
    ensures most { result < 2 ^ 64 }
{
    let modulus = power(bits(of)) as i128;
    n.rem_euclid(modulus) as u128
}

/// The value of a type whose bits are these.
pub(crate) fn settle_pattern(of: Primitive, pattern: u128) -> Result<Value, ConstFault>
    requires { pattern ≤ 2 ^ 64 }
    ensures { result ≡ settled_pattern of pattern }
{
    settle(of, number_with(of, pattern))
}

/// The number that n leaves in the bits of a type.
pub(crate) fn wrap(of: Primitive, n: i128) -> i128
    ensures { result ≡ wrapped of n }
{
    number_with(of, pattern(of, n))
}

/// The number of a type whose bits are these.
fn number_with(of: Primitive, pattern: u128) -> i128
    requires { pattern ≤ 2 ^ 64 }
    ensures { result ≡ number_of_pattern of pattern }
{
    let n = pattern as i128;
    if n <= greatest(of) {
        n
    } else {
        n - power(bits(of)) as i128
    }
}

/// The least number of a type.
fn least(of: Primitive) -> i128
    ensures { result ≡ least_of of }
{
    match of {
        Primitive::Bool | Primitive::Byte => 0,
        Primitive::Int16 => -32_768,
        Primitive::Int | Primitive::Int32 => -2_147_483_648,
        Primitive::Int64 => -9_223_372_036_854_775_808,
    }
}

/// The greatest number of a type.
fn greatest(of: Primitive) -> i128
    ensures { result ≡ greatest_of of }
{
    match of {
        Primitive::Bool => 1,
        Primitive::Byte => 255,
        Primitive::Int16 => 32_767,
        Primitive::Int | Primitive::Int32 => 2_147_483_647,
        Primitive::Int64 => 9_223_372_036_854_775_807,
    }
}
