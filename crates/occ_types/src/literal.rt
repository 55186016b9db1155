//! The value of a literal in a type: by its number in decimal digits, by its bits in hexadecimal ones.
ghost use Rattle.std.specs.Prelude.{◌≡◌};
ghost use Rattle.occ_types.specs.Constant.{number_value, pattern_value};

use super::range::{bits, power, settle, settle_pattern};
use super::value::{Primitive, Value};

/// The value of a type whose number is n, if the type has it.
pub fn value_of_number(of: Primitive, n: i128) -> Option<Value>
    ensures { result ≡ number_value of n }
{
    settle(of, n).ok()
}

/// The value of a type whose bits are those of n, if the type has so many bits.
pub fn value_of_pattern(of: Primitive, n: u64) -> Option<Value>
    ensures { result ≡ pattern_value of n }
{
    let pattern = u128::from(n);
    if pattern < power(bits(of)) {
        settle_pattern(of, pattern).ok()
    } else {
        None
    }
}
