//! Operators, conversions and shifts by what was read of their operands: faults, what is known, and the open expression.
ghost use Rattle.std.specs.Prelude.{◌≡◌, ◌∷◌, ◌++◌, ◌-ℤ◌, [], IfOk, None, OnOk, Some, pos};
ghost use Rattle.occ_expr_operations.specs.OpenExprs.{applied_open as spec_applied_open, conversion_open, converted_to as spec_converted_to, front_open as spec_front_open, literal_open as spec_literal_open, negated_open as spec_negated_open, operation_open as spec_operation_open, pair_open as spec_pair_open, shift_open as spec_shift_open, size_open as spec_size_open};
ghost use Rattle.occ_expr_operations.specs.Operations.{another_has_fault as spec_another_has_fault, applied as spec_applied, converted as spec_converted, each_among as spec_each_among, extreme_of as spec_extreme_of, in_front as spec_in_front, limit_of as spec_limit_of, negated as spec_negated, number_of_faulty as spec_number_of_faulty, operation as spec_operation, pair as spec_pair, pair_operator as spec_pair_operator, plain as spec_plain, run_operator as spec_run_operator, shift as spec_shift};
ghost use Rattle.occ_typing_operands.specs.Operators.{all_faults, kinds as spec_kinds};
ghost use Rattle.occ_typing_operands.specs.Outcomes.{decimal};
ghost use Rattle.occ_typing_operands.specs.declared.kind.Kind.TheVariants as k;
ghost use Rattle.occ_typing_tables.specs.Measuring.{sized as spec_sized};
ghost use Rattle.occ_typing_tables.specs.Terms.{and_then, judged, judged_all};
ghost use Rattle.occ_typing_tables.specs.declared.term.Term.TheVariants as v;

use super::opening_exprs::{converted_open, front_open, operation_open, shift_open, size_open};
use super::reading::{Reading, Readings, faulty_reading, literal_reading};
use occ_base::{Fault, Items, Shared};
use occ_forms_expressions::{Extreme, MonadicOperator, PairOperator, RunOperator};
use occ_types::{Monadic, OccType, Operator};
use occ_typing_operands::{
    Kind, Untyped, applied as applied_to, converted as converted_to, operated, operated_pair,
    shifted, untyped,
};
use occ_typing_tables::{Limit, Term, alone, has_fault, most, operand, sized};
use std::alloc::{AllocError, Global};

/// What an operator means that may stand between more than two operands.
pub fn run_operator(operator: RunOperator) -> Operator
    ensures { result ≡ spec_run_operator operator }
{
    match operator {
        RunOperator::Add => Operator::Add,
        RunOperator::Multiply => Operator::Multiply,
        RunOperator::Plus => Operator::Plus,
        RunOperator::Times => Operator::Times,
        RunOperator::And => Operator::And,
        RunOperator::Or => Operator::Or,
        RunOperator::BitAnd | RunOperator::BitAndWord => Operator::BitAnd,
        RunOperator::BitOr | RunOperator::BitOrWord => Operator::BitOr,
        RunOperator::BitXor => Operator::BitXor,
    }
}

/// What an operator means that stands between two operands.
pub fn pair_operator(operator: PairOperator) -> Operator
    ensures { result ≡ spec_pair_operator operator }
{
    match operator {
        PairOperator::Subtract => Operator::Subtract,
        PairOperator::Minus => Operator::Minus,
        PairOperator::Divide => Operator::Divide,
        PairOperator::Remainder | PairOperator::RemainderWord => Operator::Remainder,
        PairOperator::ShiftLeft => Operator::ShiftLeft,
        PairOperator::ShiftRight => Operator::ShiftRight,
        PairOperator::Equal => Operator::Equal,
        PairOperator::Unequal => Operator::NotEqual,
        PairOperator::Less => Operator::Less,
        PairOperator::Greater => Operator::Greater,
        PairOperator::AtMost => Operator::AtMost,
        PairOperator::AtLeast => Operator::AtLeast,
        PairOperator::After => Operator::After,
    }
}

fn limit_of(extreme: Extreme) -> Limit
    ensures { result ≡ spec_limit_of extreme }
{
    match extreme {
        Extreme::Greatest => Limit::Greatest,
        Extreme::Least => Limit::Least,
    }
}

/// How many of the operands have a fault.
fn number_of_faulty(operands: &[Term]) -> usize
    ensures { result ≡ spec_number_of_faulty (judged_all operands.now) }
{
    let mut count = 0;
    for operand in operands {
        if has_fault(operand) {
            count += 1;
        }
    }
    count
}

/// Whether of so many operands with a fault one is another than this.
fn another_has_fault(count: usize, operand: &Term) -> bool
    ensures { result ≡ spec_another_has_fault count (judged operand.now) }
{
    if has_fault(operand) {
        count >= 2
    } else {
        count >= 1
    }
}

/// Each operand beside the others.
fn each_among(
    alloc: Global,
    operands: &[Term],
    count: usize,
    faults: &mut Items<Fault>,
) -> Result<Items<Kind>, AllocError>
    ensures kinds { IfOk result (λ kinds. kinds ≡ spec_kinds (spec_each_among count (judged_all operands.now))) }
    ensures faults { OnOk result (faults.new ≡ faults.old ++ all_faults (spec_each_among count (judged_all operands.now))) }
{
    let mut kinds = Items::from_vec(Vec::with_capacity(alloc, operands.len())?);
    for term in operands {
        let kind = operand(alloc, term, another_has_fault(count, term), faults)?;
        kinds.push(kind)?;
    }
    Ok(kinds)
}

/// What the operator gives on the operands between which it stands.
#[tactic(auto, using(crate::proofs::Pairs::pair_operated), unfolding(crate::specs::Operations::operation))]
fn operation(
    alloc: Global,
    operands: &[Term],
    operator: Operator,
    faults: &mut Items<Fault>,
) -> Result<Kind, AllocError>
    ensures kind { IfOk result (λ kind. kind ≡ (spec_operation operator (judged_all operands.now)).kind) }
    ensures faults { OnOk result (faults.new ≡ faults.old ++ (spec_operation operator (judged_all operands.now)).faults) }
{
    match operands {
        [Term::Single(first), Term::Single(second)] => {
            operated_pair(alloc, operator, first, second, faults)
        }
        _ => {
            let kinds = each_among(alloc, operands, number_of_faulty(operands), faults)?;
            operated(alloc, operator, kinds.as_slice(), faults)
        }
    }
}

/// An operand by itself.
#[tactic(auto, unfolding(crate::specs::Operations::plain))]
pub fn plain(alloc: Global, term: &Term, faults: &mut Items<Fault>) -> Result<Kind, AllocError>
    ensures kind { IfOk result (λ kind. kind ≡ (spec_plain (judged term.now)).kind) }
    ensures faults { OnOk result (faults.new ≡ faults.old ++ (spec_plain (judged term.now)).faults) }
{
    operand(alloc, term, false, faults)
}

/// What is known of a shift by a count.
fn shift(
    alloc: Global,
    operator: Operator,
    term: &Term,
    count: &Term,
    faults: &mut Items<Fault>,
) -> Result<Kind, AllocError>
    ensures kind { IfOk result (λ kind. kind ≡ (spec_shift operator (judged term.now) (judged count.now)).kind) }
    ensures faults { OnOk result (faults.new ≡ faults.old ++ (spec_shift operator (judged term.now) (judged count.now)).faults) }
{
    let kind = plain(alloc, term, faults)?;
    let count = plain(alloc, count, faults)?;
    shifted(alloc, operator, &kind, &count, faults)
}

/// A shift by a count, which is lent.
fn shifted_by(
    alloc: Global,
    operator: Operator,
    shifted: Reading,
    count: &Reading,
    faults: &mut Items<Fault>,
) -> Result<Reading, AllocError>
    ensures term { IfOk result (λ whole. whole.term ≡ v.Single (spec_shift operator (judged shifted.term) (judged count.now.term)).kind) }
    ensures open_expr { IfOk result (λ whole. whole.open_expr ≡ spec_shift_open (spec_shift operator (judged shifted.term) (judged count.now.term)).kind operator shifted.open_expr count.now.open_expr) }
    ensures faults { OnOk result (faults.new ≡ faults.old ++ (spec_shift operator (judged shifted.term) (judged count.now.term)).faults) }
{
    let Ok(kind) = shift(alloc, operator, &shifted.term, &count.term, faults) else {
        drop(shifted);
        return Err(AllocError);
    };
    drop(shifted.term);
    let open_expr = shift_open(alloc, &kind, operator, shifted.open_expr, &count.open_expr)?;
    Ok(Reading {
        term: Term::Single(kind),
        open_expr,
    })
}

/// A shift by a count.
fn shift_of(
    alloc: Global,
    operator: Operator,
    shifted: Reading,
    count: Reading,
    faults: &mut Items<Fault>,
) -> Result<Reading, AllocError>
    ensures term { IfOk result (λ whole. whole.term ≡ v.Single (spec_shift operator (judged shifted.term) (judged count.term)).kind) }
    ensures open_expr { IfOk result (λ whole. whole.open_expr ≡ spec_shift_open (spec_shift operator (judged shifted.term) (judged count.term)).kind operator shifted.open_expr count.open_expr) }
    ensures faults { OnOk result (faults.new ≡ faults.old ++ (spec_shift operator (judged shifted.term) (judged count.term)).faults) }
{
    let whole = shifted_by(alloc, operator, shifted, &count, faults);
    drop(count);
    whole
}

/// Operands with one operator between each two.
pub fn operation_of(
    alloc: Global,
    operands: Readings,
    operator: Operator,
    faults: &mut Items<Fault>,
) -> Result<Reading, AllocError>
    ensures term { IfOk result (λ whole. whole.term ≡ v.Single (spec_operation operator (judged_all operands.terms)).kind) }
    ensures open_expr { IfOk result (λ whole. whole.open_expr ≡ spec_operation_open (spec_operation operator (judged_all operands.terms)).kind operator operands.open_exprs) }
    ensures faults { OnOk result (faults.new ≡ faults.old ++ (spec_operation operator (judged_all operands.terms)).faults) }
{
    let kind = operation(alloc, operands.terms.as_slice(), operator, faults)?;
    let open_expr = operation_open(alloc, &kind, operator, operands.open_exprs)?;
    Ok(Reading {
        term: Term::Single(kind),
        open_expr,
    })
}

/// Two operands with an operator between them.
fn operation_of_two(
    alloc: Global,
    first: Reading,
    operator: Operator,
    second: Reading,
    faults: &mut Items<Fault>,
) -> Result<Reading, AllocError>
    ensures term { IfOk result (λ whole. whole.term ≡ v.Single (spec_operation operator (judged_all (first.term ∷ second.term ∷ []))).kind) }
    ensures open_expr { IfOk result (λ whole. whole.open_expr ≡ spec_operation_open (spec_operation operator (judged_all (first.term ∷ second.term ∷ []))).kind operator (first.open_expr ∷ second.open_expr ∷ [])) }
    ensures faults { OnOk result (faults.new ≡ faults.old ++ (spec_operation operator (judged_all (first.term ∷ second.term ∷ []))).faults) }
{
    let operands = Readings::two(alloc, first, second)?;
    operation_of(alloc, operands, operator, faults)
}

/// Two operands and what stands between them.
#[tactic(auto, unfolding(crate::specs::Operations::pair, crate::specs::OpenExprs::pair_open))]
pub fn pair(
    alloc: Global,
    first: Reading,
    operator: PairOperator,
    second: Reading,
    faults: &mut Items<Fault>,
) -> Result<Reading, AllocError>
    ensures term { IfOk result (λ whole. whole.term ≡ v.Single (spec_pair operator (judged first.term) (judged second.term)).kind) }
    ensures open_expr { IfOk result (λ whole. whole.open_expr ≡ spec_pair_open (spec_pair operator (judged first.term) (judged second.term)).kind operator first.open_expr second.open_expr) }
    ensures faults { OnOk result (faults.new ≡ faults.old ++ (spec_pair operator (judged first.term) (judged second.term)).faults) }
{
    match operator {
        PairOperator::ShiftLeft => shift_of(alloc, Operator::ShiftLeft, first, second, faults),
        PairOperator::ShiftRight => shift_of(alloc, Operator::ShiftRight, first, second, faults),
        _ => operation_of_two(alloc, first, pair_operator(operator), second, faults),
    }
}

/// What is known of an operand after an operator.
fn in_front(
    alloc: Global,
    operator: Monadic,
    term: &Term,
    faults: &mut Items<Fault>,
) -> Result<Kind, AllocError>
    ensures kind { IfOk result (λ kind. kind ≡ (spec_in_front operator (judged term.now)).kind) }
    ensures faults { OnOk result (faults.new ≡ faults.old ++ (spec_in_front operator (judged term.now)).faults) }
{
    let kind = plain(alloc, term, faults)?;
    applied_to(alloc, operator, &kind, faults)
}

/// An operator in front of an operand.
fn front_of(
    alloc: Global,
    operator: Monadic,
    operand: Reading,
    faults: &mut Items<Fault>,
) -> Result<Reading, AllocError>
    ensures term { IfOk result (λ whole. whole.term ≡ v.Single (spec_in_front operator (judged operand.term)).kind) }
    ensures open_expr { IfOk result (λ whole. whole.open_expr ≡ spec_front_open (spec_in_front operator (judged operand.term)).kind operator operand.open_expr) }
    ensures faults { OnOk result (faults.new ≡ faults.old ++ (spec_in_front operator (judged operand.term)).faults) }
{
    let Ok(kind) = in_front(alloc, operator, &operand.term, faults) else {
        drop(operand);
        return Err(AllocError);
    };
    drop(operand.term);
    let open_expr = front_open(alloc, &kind, operator, operand.open_expr)?;
    Ok(Reading {
        term: Term::Single(kind),
        open_expr,
    })
}

/// `-` in front of an integer in decimal digits: one literal.
fn negative(alloc: Global, n: u64) -> Result<Reading, AllocError>
    ensures term { IfOk result (λ whole. whole.term ≡ v.Single (k.Untyped (decimal (pos 0 -ℤ pos n)))) }
    ensures open_expr { IfOk result (λ whole. whole.open_expr ≡ spec_literal_open (k.Untyped (decimal (pos 0 -ℤ pos n)))) }
{
    literal_reading(alloc, untyped(alloc, Untyped::decimal(0 - i128::from(n)))?)
}

/// `-` in front of an operand, which may be an integer in decimal digits.
fn negated(
    alloc: Global,
    operand: Reading,
    digits: Option<u64>,
    faults: &mut Items<Fault>,
) -> Result<Reading, AllocError>
    ensures term { IfOk result (λ whole. whole.term ≡ v.Single (spec_negated digits (judged operand.term)).kind) }
    ensures open_expr { IfOk result (λ whole. whole.open_expr ≡ spec_negated_open (spec_negated digits (judged operand.term)).kind digits operand.open_expr) }
    ensures faults { OnOk result (faults.new ≡ faults.old ++ (spec_negated digits (judged operand.term)).faults) }
{
    match digits {
        Some(n) => {
            drop(operand);
            negative(alloc, n)
        }
        None => front_of(alloc, Monadic::Negate, operand, faults),
    }
}

/// `SIZE` of an operand.
fn size_of(
    alloc: Global,
    operand: &Reading,
    faults: &mut Items<Fault>,
) -> Result<Reading, AllocError>
    ensures term { IfOk result (λ whole. whole.term ≡ v.Single (and_then (judged operand.now.term).alone spec_sized).kind) }
    ensures open_expr { IfOk result (λ whole. whole.open_expr ≡ spec_size_open (and_then (judged operand.now.term).alone spec_sized).kind (judged operand.now.term).alone.kind operand.now.open_expr) }
    ensures faults { OnOk result (faults.new ≡ faults.old ++ (and_then (judged operand.now.term).alone spec_sized).faults) }
{
    let of = alone(alloc, &operand.term, faults)?;
    let kind = sized(alloc, &of, faults)?;
    let open_expr = size_open(alloc, &kind, &of, &operand.open_expr)?;
    Ok(Reading {
        term: Term::Single(kind),
        open_expr,
    })
}

/// An operator in front of an operand, which may be an integer in decimal digits.
#[tactic(auto, unfolding(crate::specs::Operations::applied, crate::specs::OpenExprs::applied_open))]
pub fn applied(
    alloc: Global,
    operand: Reading,
    operator: MonadicOperator,
    digits: Option<u64>,
    faults: &mut Items<Fault>,
) -> Result<Reading, AllocError>
    ensures term { IfOk result (λ whole. whole.term ≡ v.Single (spec_applied operator digits (judged operand.term)).kind) }
    ensures open_expr { IfOk result (λ whole. whole.open_expr ≡ spec_applied_open (spec_applied operator digits (judged operand.term)).kind operator digits (judged operand.term) operand.open_expr) }
    ensures faults { OnOk result (faults.new ≡ faults.old ++ (spec_applied operator digits (judged operand.term)).faults) }
{
    match operator {
        MonadicOperator::Negate => negated(alloc, operand, digits, faults),
        MonadicOperator::Minus => front_of(alloc, Monadic::Minus, operand, faults),
        MonadicOperator::BitNot => front_of(alloc, Monadic::BitNot, operand, faults),
        MonadicOperator::BitNotWord => front_of(alloc, Monadic::BitNot, operand, faults),
        MonadicOperator::Not => front_of(alloc, Monadic::Not, operand, faults),
        MonadicOperator::Size => {
            let size = size_of(alloc, &operand, faults);
            drop(operand);
            size
        }
    }
}

/// A conversion of an operand to a type that has no fault.
#[tactic(auto, unfolding(crate::specs::Operations::converted, crate::specs::OpenExprs::conversion_open))]
fn converted_as(
    alloc: Global,
    operand: &Reading,
    to: &Shared<OccType>,
    faults: &mut Items<Fault>,
) -> Result<Reading, AllocError>
    ensures term { IfOk result (λ whole. whole.term ≡ v.Single (spec_converted (Some to.now) (judged operand.now.term)).kind) }
    ensures open_expr { IfOk result (λ whole. whole.open_expr ≡ conversion_open (Some to.now) (judged operand.now.term) operand.now.open_expr) }
    ensures faults { OnOk result (faults.new ≡ faults.old ++ (spec_converted (Some to.now) (judged operand.now.term)).faults) }
{
    let of = plain(alloc, &operand.term, faults)?;
    let kind = converted_to(alloc, to, &of, faults)?;
    let open_expr = converted_open(alloc, &kind, &of, &operand.open_expr)?;
    Ok(Reading {
        term: Term::Single(kind),
        open_expr,
    })
}

/// A conversion of an operand to a type that has a fault: the operand is judged all the same.
#[tactic(auto, unfolding(crate::specs::Operations::converted, crate::specs::OpenExprs::conversion_open))]
fn converted_to_none(
    alloc: Global,
    operand: &Reading,
    faults: &mut Items<Fault>,
) -> Result<Reading, AllocError>
    ensures term { IfOk result (λ whole. whole.term ≡ v.Single (spec_converted None (judged operand.now.term)).kind) }
    ensures open_expr { IfOk result (λ whole. whole.open_expr ≡ conversion_open None (judged operand.now.term) operand.now.open_expr) }
    ensures faults { OnOk result (faults.new ≡ faults.old ++ (spec_converted None (judged operand.now.term)).faults) }
{
    drop(alone(alloc, &operand.term, faults)?);
    Ok(faulty_reading())
}

/// A conversion of an operand to a type. Where that has a fault the operand is judged all the same.
#[tactic(auto, unfolding(crate::specs::Operations::converted, crate::specs::OpenExprs::conversion_open))]
pub fn converted(
    alloc: Global,
    operand: Reading,
    to: Option<Shared<OccType>>,
    faults: &mut Items<Fault>,
) -> Result<Reading, AllocError>
    ensures term { IfOk result (λ whole. whole.term ≡ v.Single (spec_converted to (judged operand.term)).kind) }
    ensures open_expr { IfOk result (λ whole. whole.open_expr ≡ conversion_open to (judged operand.term) operand.open_expr) }
    ensures faults { OnOk result (faults.new ≡ faults.old ++ (spec_converted to (judged operand.term)).faults) }
{
    let whole = match &to {
        Some(to) => converted_as(alloc, &operand, to, faults),
        None => converted_to_none(alloc, &operand, faults),
    };
    drop(operand);
    whole
}

/// What is known of the greatest or the least value of a type, if that has no fault.
#[tactic(auto, unfolding(crate::specs::Operations::extreme_of))]
pub fn extreme_of(
    extreme: Extreme,
    of: Option<Shared<OccType>>,
    faults: &mut Items<Fault>,
) -> Result<Kind, AllocError>
    ensures kind { IfOk result (λ kind. kind ≡ (spec_extreme_of extreme of).kind) }
    ensures faults { OnOk result (faults.new ≡ faults.old ++ (spec_extreme_of extreme of).faults) }
{
    match of {
        Some(of) => most(limit_of(extreme), &of, faults),
        None => Ok(Kind::Faulty),
    }
}
