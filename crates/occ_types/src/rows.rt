//! Worked rows: arithmetic at the ends of each type.
ghost use Rattle.occ_types.specs.Constant.{converted, folded, folded_one};
ghost use Rattle.occ_types.specs.declared.constant.ConstFault.TheVariants as fault;
ghost use Rattle.occ_types.specs.declared.constant.Monadic.TheVariants as m;
ghost use Rattle.occ_types.specs.declared.constant.Operator.TheVariants as o;
ghost use Rattle.occ_types.specs.declared.value.Primitive.TheVariants as p;
ghost use Rattle.occ_types.specs.declared.value.Value.TheVariants as v;
ghost use Rattle.std.specs.Prelude.{Err, Ok, false, negsuc, pos, true, ◌≡◌};

/// Arithmetic that faults, at the ends of Byte.
pub fn byte_checked_rows()
    ensures add_over { folded o.Add (v.Byte 255) (v.Byte 1) ≡ Err fault.Overflow }
    ensures add_ends { folded o.Add (v.Byte 0) (v.Byte 255) ≡ Ok (v.Byte 255) }
    ensures subtract_under { folded o.Subtract (v.Byte 0) (v.Byte 1) ≡ Err fault.Overflow }
    ensures subtract_greatest { folded o.Subtract (v.Byte 255) (v.Byte 255) ≡ Ok (v.Byte 0) }
    ensures multiply_over { folded o.Multiply (v.Byte 255) (v.Byte 2) ≡ Err fault.Overflow }
    ensures multiply_greatest { folded o.Multiply (v.Byte 255) (v.Byte 1) ≡ Ok (v.Byte 255) }
    ensures multiply_zero { folded o.Multiply (v.Byte 0) (v.Byte 0) ≡ Ok (v.Byte 0) }
    ensures divide_zero { folded o.Divide (v.Byte 0) (v.Byte 0) ≡ Err fault.ZeroDivisor }
    ensures remainder_zero { folded o.Remainder (v.Byte 255) (v.Byte 0) ≡ Err fault.ZeroDivisor }
    ensures divide_same { folded o.Divide (v.Byte 255) (v.Byte 255) ≡ Ok (v.Byte 1) }
{}

/// Arithmetic that wraps, and the signs, at the ends of Byte.
pub fn byte_wrapping_rows()
    ensures plus_over { folded o.Plus (v.Byte 255) (v.Byte 1) ≡ Ok (v.Byte 0) }
    ensures minus_under { folded o.Minus (v.Byte 0) (v.Byte 1) ≡ Ok (v.Byte 255) }
    ensures times_over { folded o.Times (v.Byte 255) (v.Byte 2) ≡ Ok (v.Byte 254) }
    ensures plus_in_range { folded o.Plus (v.Byte 255) (v.Byte 0) ≡ Ok (v.Byte 255) }
    ensures times_greatest { folded o.Times (v.Byte 255) (v.Byte 255) ≡ Ok (v.Byte 1) }
    ensures minus_monadic { folded_one m.Minus (v.Byte 1) ≡ Ok (v.Byte 255) }
    ensures minus_zero { folded_one m.Minus (v.Byte 0) ≡ Ok (v.Byte 0) }
    ensures negate_zero { folded_one m.Negate (v.Byte 0) ≡ Ok (v.Byte 0) }
    ensures negate_one { folded_one m.Negate (v.Byte 1) ≡ Err fault.Overflow }
{}

/// Bit operators and shifts, at the ends of Byte.
pub fn byte_bit_rows()
    ensures not_least { folded_one m.BitNot (v.Byte 0) ≡ Ok (v.Byte 255) }
    ensures not_greatest { folded_one m.BitNot (v.Byte 255) ≡ Ok (v.Byte 0) }
    ensures and_ends { folded o.BitAnd (v.Byte 0) (v.Byte 255) ≡ Ok (v.Byte 0) }
    ensures or_ends { folded o.BitOr (v.Byte 0) (v.Byte 255) ≡ Ok (v.Byte 255) }
    ensures xor_ones { folded o.BitXor (v.Byte 255) (v.Byte 255) ≡ Ok (v.Byte 0) }
    ensures and_ones { folded o.BitAnd (v.Byte 255) (v.Byte 0) ≡ Ok (v.Byte 0) }
    ensures left_all { folded o.ShiftLeft (v.Byte 255) (v.Int (pos 8)) ≡ Ok (v.Byte 0) }
    ensures left_last { folded o.ShiftLeft (v.Byte 1) (v.Int (pos 7)) ≡ Ok (v.Byte 128) }
    ensures left_none { folded o.ShiftLeft (v.Byte 0) (v.Int (pos 0)) ≡ Ok (v.Byte 0) }
    ensures left_too_far { folded o.ShiftLeft (v.Byte 1) (v.Int (pos 9)) ≡ Err fault.Shift }
    ensures left_negative { folded o.ShiftLeft (v.Byte 1) (v.Int (negsuc 0)) ≡ Err fault.Shift }
    ensures right_all { folded o.ShiftRight (v.Byte 255) (v.Int (pos 8)) ≡ Ok (v.Byte 0) }
    ensures right_last { folded o.ShiftRight (v.Byte 255) (v.Int (pos 7)) ≡ Ok (v.Byte 1) }
    ensures right_one { folded o.ShiftRight (v.Byte 255) (v.Int (pos 1)) ≡ Ok (v.Byte 127) }
    ensures right_too_far { folded o.ShiftRight (v.Byte 1) (v.Int (pos 9)) ≡ Err fault.Shift }
    ensures right_negative { folded o.ShiftRight (v.Byte 1) (v.Int (negsuc 0)) ≡ Err fault.Shift }
{}

/// Comparisons, at the ends of Byte.
pub fn byte_order_rows()
    ensures less { folded o.Less (v.Byte 0) (v.Byte 255) ≡ Ok (v.Bool true) }
    ensures not_less { folded o.Less (v.Byte 255) (v.Byte 255) ≡ Ok (v.Bool false) }
    ensures greater { folded o.Greater (v.Byte 0) (v.Byte 255) ≡ Ok (v.Bool false) }
    ensures at_most { folded o.AtMost (v.Byte 0) (v.Byte 0) ≡ Ok (v.Bool true) }
    ensures at_least { folded o.AtLeast (v.Byte 0) (v.Byte 255) ≡ Ok (v.Bool false) }
    ensures equal { folded o.Equal (v.Byte 0) (v.Byte 0) ≡ Ok (v.Bool true) }
    ensures not_equal { folded o.NotEqual (v.Byte 0) (v.Byte 255) ≡ Ok (v.Bool true) }
{}

/// Arithmetic that faults, at the ends of Int.
pub fn int_checked_rows()
    ensures add_over { folded o.Add (v.Int (pos 2147483647)) (v.Int (pos 1)) ≡ Err fault.Overflow }
    ensures add_ends { folded o.Add (v.Int (negsuc 2147483647)) (v.Int (pos 2147483647)) ≡ Ok (v.Int (negsuc 0)) }
    ensures subtract_under { folded o.Subtract (v.Int (negsuc 2147483647)) (v.Int (pos 1)) ≡ Err fault.Overflow }
    ensures subtract_greatest { folded o.Subtract (v.Int (pos 2147483647)) (v.Int (pos 2147483647)) ≡ Ok (v.Int (pos 0)) }
    ensures multiply_over { folded o.Multiply (v.Int (pos 2147483647)) (v.Int (pos 2)) ≡ Err fault.Overflow }
    ensures multiply_greatest { folded o.Multiply (v.Int (pos 2147483647)) (v.Int (pos 1)) ≡ Ok (v.Int (pos 2147483647)) }
    ensures multiply_zero { folded o.Multiply (v.Int (negsuc 2147483647)) (v.Int (pos 0)) ≡ Ok (v.Int (pos 0)) }
    ensures divide_zero { folded o.Divide (v.Int (negsuc 2147483647)) (v.Int (pos 0)) ≡ Err fault.ZeroDivisor }
    ensures remainder_zero { folded o.Remainder (v.Int (pos 2147483647)) (v.Int (pos 0)) ≡ Err fault.ZeroDivisor }
    ensures divide_same { folded o.Divide (v.Int (pos 2147483647)) (v.Int (pos 2147483647)) ≡ Ok (v.Int (pos 1)) }
    ensures multiply_least { folded o.Multiply (v.Int (negsuc 2147483647)) (v.Int (negsuc 0)) ≡ Err fault.Overflow }
    ensures divide_least { folded o.Divide (v.Int (negsuc 2147483647)) (v.Int (negsuc 0)) ≡ Err fault.Overflow }
    ensures remainder_least { folded o.Remainder (v.Int (negsuc 2147483647)) (v.Int (negsuc 0)) ≡ Ok (v.Int (pos 0)) }
    ensures divide_greatest { folded o.Divide (v.Int (pos 2147483647)) (v.Int (negsuc 0)) ≡ Ok (v.Int (negsuc 2147483646)) }
    ensures divide_towards_zero { folded o.Divide (v.Int (negsuc 6)) (v.Int (pos 2)) ≡ Ok (v.Int (negsuc 2)) }
    ensures remainder_of_negative { folded o.Remainder (v.Int (negsuc 6)) (v.Int (pos 2)) ≡ Ok (v.Int (negsuc 0)) }
    ensures remainder_by_negative { folded o.Remainder (v.Int (pos 7)) (v.Int (negsuc 1)) ≡ Ok (v.Int (pos 1)) }
    ensures add_negative { folded o.Add (v.Int (negsuc 2147483647)) (v.Int (negsuc 0)) ≡ Err fault.Overflow }
{}

/// Arithmetic that wraps, and the signs, at the ends of Int.
pub fn int_wrapping_rows()
    ensures plus_over { folded o.Plus (v.Int (pos 2147483647)) (v.Int (pos 1)) ≡ Ok (v.Int (negsuc 2147483647)) }
    ensures minus_under { folded o.Minus (v.Int (negsuc 2147483647)) (v.Int (pos 1)) ≡ Ok (v.Int (pos 2147483647)) }
    ensures times_over { folded o.Times (v.Int (pos 2147483647)) (v.Int (pos 2)) ≡ Ok (v.Int (negsuc 1)) }
    ensures plus_in_range { folded o.Plus (v.Int (pos 2147483647)) (v.Int (pos 0)) ≡ Ok (v.Int (pos 2147483647)) }
    ensures times_greatest { folded o.Times (v.Int (pos 2147483647)) (v.Int (pos 2147483647)) ≡ Ok (v.Int (pos 1)) }
    ensures minus_monadic { folded_one m.Minus (v.Int (pos 1)) ≡ Ok (v.Int (negsuc 0)) }
    ensures minus_zero { folded_one m.Minus (v.Int (pos 0)) ≡ Ok (v.Int (pos 0)) }
    ensures negate_zero { folded_one m.Negate (v.Int (pos 0)) ≡ Ok (v.Int (pos 0)) }
    ensures negate_one { folded_one m.Negate (v.Int (pos 1)) ≡ Ok (v.Int (negsuc 0)) }
    ensures times_least { folded o.Times (v.Int (negsuc 2147483647)) (v.Int (negsuc 0)) ≡ Ok (v.Int (negsuc 2147483647)) }
    ensures minus_least { folded_one m.Minus (v.Int (negsuc 2147483647)) ≡ Ok (v.Int (negsuc 2147483647)) }
    ensures negate_least { folded_one m.Negate (v.Int (negsuc 2147483647)) ≡ Err fault.Overflow }
    ensures negate_greatest { folded_one m.Negate (v.Int (pos 2147483647)) ≡ Ok (v.Int (negsuc 2147483646)) }
{}

/// Bit operators and shifts, at the ends of Int.
pub fn int_bit_rows()
    ensures not_least { folded_one m.BitNot (v.Int (negsuc 2147483647)) ≡ Ok (v.Int (pos 2147483647)) }
    ensures not_greatest { folded_one m.BitNot (v.Int (pos 2147483647)) ≡ Ok (v.Int (negsuc 2147483647)) }
    ensures and_ends { folded o.BitAnd (v.Int (negsuc 2147483647)) (v.Int (pos 2147483647)) ≡ Ok (v.Int (pos 0)) }
    ensures or_ends { folded o.BitOr (v.Int (negsuc 2147483647)) (v.Int (pos 2147483647)) ≡ Ok (v.Int (negsuc 0)) }
    ensures xor_ones { folded o.BitXor (v.Int (negsuc 0)) (v.Int (pos 2147483647)) ≡ Ok (v.Int (negsuc 2147483647)) }
    ensures and_ones { folded o.BitAnd (v.Int (negsuc 0)) (v.Int (negsuc 2147483647)) ≡ Ok (v.Int (negsuc 2147483647)) }
    ensures left_all { folded o.ShiftLeft (v.Int (negsuc 0)) (v.Int (pos 32)) ≡ Ok (v.Int (pos 0)) }
    ensures left_last { folded o.ShiftLeft (v.Int (pos 1)) (v.Int (pos 31)) ≡ Ok (v.Int (negsuc 2147483647)) }
    ensures left_none { folded o.ShiftLeft (v.Int (negsuc 2147483647)) (v.Int (pos 0)) ≡ Ok (v.Int (negsuc 2147483647)) }
    ensures left_too_far { folded o.ShiftLeft (v.Int (pos 1)) (v.Int (pos 33)) ≡ Err fault.Shift }
    ensures left_negative { folded o.ShiftLeft (v.Int (pos 1)) (v.Int (negsuc 0)) ≡ Err fault.Shift }
    ensures right_all { folded o.ShiftRight (v.Int (negsuc 0)) (v.Int (pos 32)) ≡ Ok (v.Int (pos 0)) }
    ensures right_last { folded o.ShiftRight (v.Int (negsuc 0)) (v.Int (pos 31)) ≡ Ok (v.Int (pos 1)) }
    ensures right_one { folded o.ShiftRight (v.Int (negsuc 0)) (v.Int (pos 1)) ≡ Ok (v.Int (pos 2147483647)) }
    ensures right_too_far { folded o.ShiftRight (v.Int (pos 1)) (v.Int (pos 33)) ≡ Err fault.Shift }
    ensures right_negative { folded o.ShiftRight (v.Int (pos 1)) (v.Int (negsuc 0)) ≡ Err fault.Shift }
{}

/// Comparisons, at the ends of Int.
pub fn int_order_rows()
    ensures less { folded o.Less (v.Int (negsuc 2147483647)) (v.Int (pos 2147483647)) ≡ Ok (v.Bool true) }
    ensures not_less { folded o.Less (v.Int (pos 2147483647)) (v.Int (pos 2147483647)) ≡ Ok (v.Bool false) }
    ensures greater { folded o.Greater (v.Int (negsuc 2147483647)) (v.Int (pos 2147483647)) ≡ Ok (v.Bool false) }
    ensures at_most { folded o.AtMost (v.Int (negsuc 2147483647)) (v.Int (negsuc 2147483647)) ≡ Ok (v.Bool true) }
    ensures at_least { folded o.AtLeast (v.Int (negsuc 2147483647)) (v.Int (pos 2147483647)) ≡ Ok (v.Bool false) }
    ensures equal { folded o.Equal (v.Int (negsuc 2147483647)) (v.Int (negsuc 2147483647)) ≡ Ok (v.Bool true) }
    ensures not_equal { folded o.NotEqual (v.Int (negsuc 2147483647)) (v.Int (pos 2147483647)) ≡ Ok (v.Bool true) }
    ensures after_wrapped { folded o.After (v.Int (negsuc 2147483647)) (v.Int (pos 2147483647)) ≡ Ok (v.Bool true) }
    ensures after_half { folded o.After (v.Int (negsuc 2147483647)) (v.Int (pos 0)) ≡ Ok (v.Bool false) }
    ensures after_itself { folded o.After (v.Int (pos 2147483647)) (v.Int (pos 2147483647)) ≡ Ok (v.Bool false) }
    ensures after_one { folded o.After (v.Int (pos 0)) (v.Int (negsuc 0)) ≡ Ok (v.Bool true) }
{}

/// The operators on BOOL.
pub fn bool_rows()
    ensures and_true { folded o.And (v.Bool true) (v.Bool true) ≡ Ok (v.Bool true) }
    ensures and_false { folded o.And (v.Bool true) (v.Bool false) ≡ Ok (v.Bool false) }
    ensures or_true { folded o.Or (v.Bool false) (v.Bool true) ≡ Ok (v.Bool true) }
    ensures or_false { folded o.Or (v.Bool false) (v.Bool false) ≡ Ok (v.Bool false) }
    ensures not_true { folded_one m.Not (v.Bool true) ≡ Ok (v.Bool false) }
    ensures not_false { folded_one m.Not (v.Bool false) ≡ Ok (v.Bool true) }
    ensures equal { folded o.Equal (v.Bool true) (v.Bool false) ≡ Ok (v.Bool false) }
    ensures not_equal { folded o.NotEqual (v.Bool true) (v.Bool false) ≡ Ok (v.Bool true) }
{}

/// Conversions.
pub fn conversion_rows()
    ensures truth { converted p.Int (v.Bool true) ≡ Ok (v.Int (pos 1)) }
    ensures falsehood { converted p.Byte (v.Bool false) ≡ Ok (v.Byte 0) }
    ensures to_true { converted p.Bool (v.Int (pos 1)) ≡ Ok (v.Bool true) }
    ensures to_false { converted p.Bool (v.Int (pos 0)) ≡ Ok (v.Bool false) }
    ensures no_truth { converted p.Bool (v.Int (pos 2)) ≡ Err fault.Overflow }
    ensures no_falsehood { converted p.Bool (v.Int (negsuc 0)) ≡ Err fault.Overflow }
    ensures byte_greatest { converted p.Byte (v.Int (pos 255)) ≡ Ok (v.Byte 255) }
    ensures byte_over { converted p.Byte (v.Int (pos 256)) ≡ Err fault.Overflow }
    ensures byte_under { converted p.Byte (v.Int (negsuc 0)) ≡ Err fault.Overflow }
    ensures int_least { converted p.Int (v.Int64 (negsuc 2147483647)) ≡ Ok (v.Int (negsuc 2147483647)) }
    ensures int_under { converted p.Int (v.Int64 (negsuc 2147483648)) ≡ Err fault.Overflow }
    ensures int_over { converted p.Int (v.Int64 (pos 2147483648)) ≡ Err fault.Overflow }
{}
