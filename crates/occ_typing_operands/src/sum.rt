//! Sums of decimal literals, by their total and their greatest alone.
ghost use Rattle.std.specs.List.{list_any};
ghost use Rattle.std.specs.Prelude.{IfSome, false, pos, ◌∷◌, ◌≡◌};
ghost use Rattle.occ_typing_operands.specs.Operators.{needs_faulty as spec_needs_faulty, run_in as spec_run_in};
ghost use Rattle.occ_typing_operands.specs.Outcomes.{decimal as spec_decimal, in_each};
ghost use Rattle.occ_typing_operands.specs.declared.kind.Kind.TheVariants as k;
ghost use Rattle.occ_typing_operands.specs.inside.Sums.{sum_in as spec_sum_in, total_in as spec_total_in};
ghost use Rattle.occ_types.specs.declared.constant.Operator.TheVariants as op;
ghost use Rattle.occ_types.specs.declared.value.Primitive.{Primitive as APrimitive};

use super::kind::{Kind, TypedValue, Untyped, Wrong};
use super::untyped_constant::decimal_in;
use occ_types::{Operator, Primitive, value_of_number};

/// Literals in decimal digits with `+` between each two.
#[derive(Clone, Copy)]
struct Sum {
    total: u64,
    /// The greatest of them.
    most: u64,
}

/// The number of an operand that is a literal in decimal digits.
fn number(kind: &Kind) -> Option<u64>
    ensures { IfSome result (λ n. kind.now ≡ k.Untyped (spec_decimal (pos n))) }
{
    match kind {
        Kind::Untyped(untyped_constant) => untyped_constant.number(),
        Kind::Faulty => None,
        Kind::Known(_) => None,
    }
}

/// The sum of operands that are all literals in decimal digits, unless it is too large.
fn sum_of(first: &Kind, others: &[Kind]) -> Option<Sum>
    ensures value { IfSome result (λ sum. (of : APrimitive) → spec_sum_in of sum.total sum.most ≡ spec_run_in op.Add of (first.now ∷ others.now)) }
    ensures clean { IfSome result (λ _. list_any spec_needs_faulty (first.now ∷ others.now) ≡ false) }
{
    let mut total = number(first)?;
    let mut most = total;
    for kind in others {
        let next = number(kind)?;
        total = total.checked_add(next)?;
        most = most.max(next);
    }
    Some(Sum { total, most })
}

/// The total, as a value of the type.
fn total_in(total: u64, of: Primitive) -> TypedValue
    ensures { result ≡ spec_total_in of total }
{
    match value_of_number(of, i128::from(total)) {
        Some(value) => TypedValue::Constant(value),
        None => TypedValue::Faulty(Wrong::Value),
    }
}

/// What a sum comes to in a type: no literal may be too large for it, nor the whole.
fn sum_in(sum: Sum, of: Primitive) -> TypedValue
    ensures { result ≡ spec_sum_in of sum.total sum.most }
{
    match decimal_in(sum.most, of) {
        TypedValue::Constant(_) => total_in(sum.total, of),
        most => most,
    }
}

/// What a sum comes to in each type.
fn sum_in_each(sum: Sum) -> Untyped
    ensures { result ≡ in_each false (λ of. spec_sum_in of sum.total sum.most) }
{
    Untyped {
        is_faulty: false,
        byte: sum_in(sum, Primitive::Byte),
        int16: sum_in(sum, Primitive::Int16),
        int: sum_in(sum, Primitive::Int),
        int32: sum_in(sum, Primitive::Int32),
        int64: sum_in(sum, Primitive::Int64),
    }
}

/// What operands come to in each type with `+` between each two, where all of them are literals in decimal digits
/// and their total is within 64 bits.
pub(super) fn literal_sum(kinds: &[Kind]) -> Option<Untyped>
    ensures { IfSome result (λ untyped. untyped ≡ in_each (list_any spec_needs_faulty kinds.now) (λ of. spec_run_in op.Add of kinds.now)) }
{
    let (first, others) = kinds.split_first()?;
    let sum = sum_of(first, others)?;
    Some(sum_in_each(sum))
}
