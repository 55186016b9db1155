//! Operators over operands: faults, the type of the result, and its value if it is constant. `docs/LANGUAGE.md, Operands
//! and operators`.
ghost use Rattle.std.specs.Prelude.{◌≡◌, ◌∷◌, ◌++◌, [], IfOk, MatchOption, None, OnOk, Some, map};
ghost use Rattle.std.specs.List.{list_all, list_any};
ghost use Rattle.occ_typing_operands.specs.Operators.{allows as spec_allows, class_of as spec_class_of, decided as spec_decided, first_bound as spec_first_bound, front_operated as spec_front_operated, given as spec_given, is_arithmetic as spec_is_arithmetic, is_faulty as spec_is_faulty, is_int as spec_is_int, is_of as spec_is_of, faulty_count as spec_faulty_count, known_count as spec_known_count, needs_faulty as spec_needs_faulty, not_untyped as spec_not_untyped, not_number as spec_not_number, operated as spec_operated, operand_type as spec_operand_type, operated_from as spec_operated_from, outcome_in as spec_outcome_in, run_in as spec_run_in, shift_operated as spec_shift_operated, shifted_by as spec_shifted_by, takes as spec_takes, type_in as spec_type_in, value_outcome as spec_value_outcome, verdict as spec_verdict};
ghost use Rattle.occ_typing_operands.specs.Outcomes.{applied as spec_applied, if_constant, in_each, in_type, misshifted, run, shifted as spec_shifted, worst};
ghost use Rattle.occ_typing_operands.specs.declared.kind.TypedValue.TheVariants as o;
ghost use Rattle.occ_typing_operands.specs.declared.kind.Wrong.TheVariants as w;
ghost use Rattle.occ_types.specs.declared.value.Value.{Value as AValue};
ghost use Rattle.occ_typing_operands.specs.declared.kind.Kind.TheVariants as k;
ghost use Rattle.occ_types.specs.View.{as_primitive as spec_as_primitive};
ghost use Rattle.occ_typing_operands.specs.inside.Varying.{is_varying, takes_type as spec_takes_type, settles as spec_settles, varies as spec_varies};
ghost use Rattle.occ_typing_operands.specs.Settling.{known as spec_known};

use super::kind::{Kind, Known, TypedValue, Untyped, Wrong};
use super::outcome::{apply, misshift, shift, worse};
use super::settle::{int, landed, number, report_wrong, settled, untyped};
use super::sum::literal_sum;
use occ_base::{Code, Fault, Items, Shared, report};
use occ_types::{
    MaybeValue, Monadic, OccType, Operator, Primitive, Value, as_primitive, base_of, fits, fold,
};
use std::alloc::{AllocError, Global};

/// What an operator asks of its operands, and which type it gives.
#[derive(Clone, Copy)]
pub enum Class {
    /// Numbers of one type, and a number of it: also shifts.
    Arithmetic,
    /// `=` and `<>`
    Equality,
    /// `<` and the like
    Order,
    /// `AFTER`
    Cyclic,
    /// `AND` and `OR`
    Logic,
}

fn class_of(op: Operator) -> Class
    ensures { result ≡ spec_class_of op }
{
    match op {
        Operator::Add
        | Operator::Subtract
        | Operator::Multiply
        | Operator::Divide
        | Operator::Remainder
        | Operator::Plus
        | Operator::Minus
        | Operator::Times
        | Operator::BitAnd
        | Operator::BitOr
        | Operator::BitXor
        | Operator::ShiftLeft
        | Operator::ShiftRight => Class::Arithmetic,
        Operator::Equal | Operator::NotEqual => Class::Equality,
        Operator::Less | Operator::Greater | Operator::AtMost | Operator::AtLeast => Class::Order,
        Operator::After => Class::Cyclic,
        Operator::And | Operator::Or => Class::Logic,
    }
}

/// Whether untyped operands stay free under the operator.
fn is_arithmetic(class: Class) -> bool
    ensures { result ≡ spec_is_arithmetic class }
{
    matches!(class, Class::Arithmetic)
}

/// Whether operands may be of a type that is this one under its names.
fn allows(class: Class, base: Option<Primitive>) -> bool
    ensures { result ≡ spec_allows class base }
{
    match class {
        Class::Arithmetic | Class::Order => number(base).is_some(),
        Class::Equality => base.is_some(),
        Class::Cyclic => number(base).is_some() && !matches!(base, Some(Primitive::Byte)),
        Class::Logic => matches!(base, Some(Primitive::Bool)),
    }
}

/// The type of what an operator gives on operands of a type.
fn given(alloc: Global, class: Class, of: &Shared<OccType>) -> Result<Shared<OccType>, AllocError>
    ensures { IfOk result (λ given. given ≡ spec_given class of.now) }
{
    match class {
        Class::Arithmetic | Class::Logic => of.share(),
        Class::Equality | Class::Order | Class::Cyclic => {
            Shared::new(alloc, OccType::Primitive(Primitive::Bool))
        }
    }
}

/// The first operand that is not free.
fn first_bound(kinds: &[Kind]) -> Option<&Kind>
    ensures { MatchOption result (spec_first_bound kinds.now ≡ None) (λ kind. spec_first_bound kinds.now ≡ Some kind.now) }
{
    for kind in kinds {
        match kind {
            Kind::Untyped(_) => {}
            _ => return Some(kind),
        }
    }
    None
}

fn value_outcome(value: Option<Value>) -> TypedValue
    ensures { result ≡ spec_value_outcome value }
{
    match value {
        Some(value) => TypedValue::Constant(value),
        None => TypedValue::Varying,
    }
}

/// What an operand comes to: in this type, if it is free.
fn outcome_in(of: Primitive, kind: &Kind) -> TypedValue
    ensures { result ≡ spec_outcome_in of kind.now }
{
    match kind {
        Kind::Faulty => TypedValue::Varying,
        Kind::Untyped(untyped) => untyped.in_type(of),
        Kind::Known(known) => value_outcome(known.value.get()),
    }
}

/// The worst of operands that are not all constant: of this and of the others.
fn worst_of(of: Primitive, first: TypedValue, others: &[Kind]) -> TypedValue
    ensures { result ≡ worst first (map (spec_outcome_in of) others.now) }
{
    let mut found = first;
    for kind in others {
        found = worse(found, outcome_in(of, kind));
    }
    found
}

/// What constants that have no value come to with these operands after them.
fn without_value(of: Primitive, others: &[Kind]) -> TypedValue
    ensures { (value : AValue) → result ≡ if_constant (worst (o.Constant value) (map (spec_outcome_in of) others.now)) (o.Faulty w.Value) }
{
    let mut others = others;
    while let Some((next, rest)) = others.split_first() {
        match outcome_in(of, next) {
            TypedValue::Constant(_) => others = rest,
            TypedValue::Unfit => return TypedValue::Unfit,
            TypedValue::Faulty(wrong) => return worst_of(of, TypedValue::Faulty(wrong), rest),
            TypedValue::Varying => return worst_of(of, TypedValue::Varying, rest),
        }
    }
    TypedValue::Faulty(Wrong::Value)
}

/// What constants of this value come to with these operands after them, and one operator between each two.
fn with_value(op: Operator, of: Primitive, first: Value, others: &[Kind]) -> TypedValue
    ensures { result ≡ run op (o.Constant first) (map (spec_outcome_in of) others.now) }
{
    let mut value = first;
    let mut others = others;
    while let Some((next, rest)) = others.split_first() {
        match outcome_in(of, next) {
            TypedValue::Constant(constant) => match fold(op, value, constant) {
                Ok(folded) => {
                    value = folded;
                    others = rest;
                }
                Err(_) => return without_value(of, rest),
            },
            TypedValue::Unfit => return TypedValue::Unfit,
            TypedValue::Faulty(wrong) => return worst_of(of, TypedValue::Faulty(wrong), rest),
            TypedValue::Varying => return worst_of(of, TypedValue::Varying, rest),
        }
    }
    TypedValue::Constant(value)
}

/// What operands with one operator between each two come to.
#[tactic(auto, using(crate::proofs::Runs::unfit_stays, crate::proofs::Runs::faulty_stays, crate::proofs::Runs::varying_stays))]
fn run_in(op: Operator, of: Primitive, kinds: &[Kind]) -> TypedValue
    ensures { result ≡ spec_run_in op of kinds.now }
{
    let Some((first, others)) = kinds.split_first() else {
        return TypedValue::Varying;
    };
    match outcome_in(of, first) {
        TypedValue::Constant(value) => with_value(op, of, value, others),
        TypedValue::Unfit => TypedValue::Unfit,
        TypedValue::Faulty(wrong) => worst_of(of, TypedValue::Faulty(wrong), others),
        TypedValue::Varying => worst_of(of, TypedValue::Varying, others),
    }
}

/// Whether an operand is faulty, or will be in whatever type it takes.
pub fn needs_faulty(kind: &Kind) -> bool
    ensures { result ≡ spec_needs_faulty kind.now }
{
    match kind {
        Kind::Faulty => true,
        Kind::Untyped(untyped) => untyped.is_faulty(),
        Kind::Known(_) => false,
    }
}

fn any_needs_faulty(kinds: &[Kind]) -> bool
    ensures { result ≡ list_any spec_needs_faulty kinds.now }
{
    kinds.iter().any(|kind| needs_faulty(kind))
}

/// What untyped operands with one operator between each two come to in each type, found one type after the other.
fn each_run(op: Operator, kinds: &[Kind]) -> Untyped
    ensures { result ≡ in_each (list_any spec_needs_faulty kinds.now) (λ of. spec_run_in op of kinds.now) }
{
    Untyped {
        is_faulty: any_needs_faulty(kinds),
        byte: run_in(op, Primitive::Byte, kinds),
        int16: run_in(op, Primitive::Int16, kinds),
        int: run_in(op, Primitive::Int, kinds),
        int32: run_in(op, Primitive::Int32, kinds),
        int64: run_in(op, Primitive::Int64, kinds),
    }
}

/// What untyped operands with one operator between each two come to in each type.
fn untyped_run(op: Operator, kinds: &[Kind]) -> Untyped
    ensures { result ≡ in_each (list_any spec_needs_faulty kinds.now) (λ of. spec_run_in op of kinds.now) }
{
    match op {
        Operator::Add => match literal_sum(kinds) {
            Some(untyped) => untyped,
            None => each_run(op, kinds),
        },
        _ => each_run(op, kinds),
    }
}

/// Whether an operand is faulty.
pub fn is_faulty(kind: &Kind) -> bool
    ensures { result ≡ spec_is_faulty kind.now }
{
    matches!(kind, Kind::Faulty)
}

/// Whether an operand is of this type.
pub fn is_of(of: &OccType, kind: &Kind) -> bool
    ensures { result ≡ spec_is_of of.now kind.now }
{
    match kind {
        Kind::Known(known) => fits(of, known.of.get()),
        _ => false,
    }
}

fn has_faulty(kinds: &[Kind]) -> bool
    ensures { result ≡ list_any spec_is_faulty kinds.now }
{
    kinds.iter().any(|kind| is_faulty(kind))
}

fn all_of(of: &OccType, kinds: &[Kind]) -> bool
    ensures { result ≡ list_all (spec_is_of of.now) kinds.now }
{
    kinds.iter().all(|kind| is_of(of, kind))
}

/// What an operator gives on settled operands, which must be of one type.
fn verdict(
    alloc: Global,
    op: Operator,
    of: &Shared<OccType>,
    kinds: &[Kind],
    faults: &mut Items<Fault>,
) -> Result<Kind, AllocError>
    ensures kind { IfOk result (λ kind. kind ≡ (spec_verdict op of.now kinds.now).kind) }
    ensures faults { OnOk result (faults.new ≡ faults.old ++ (spec_verdict op of.now kinds.now).faults) }
{
    if has_faulty(kinds) {
        return Ok(Kind::Faulty);
    }
    let class = class_of(op);
    if allows(class, base_of(of.get())) && all_of(of.get(), kinds) {
        return landed(
            &given(alloc, class, of)?,
            run_in(op, Primitive::Int, kinds),
            faults,
        );
    }
    report(faults, Code::T1)?;
    Ok(Kind::Faulty)
}

/// The operands take the type, and then they are judged.
#[tactic(auto, unfolding(crate::specs::Operators::decided))]
fn decided(
    alloc: Global,
    op: Operator,
    of: &Shared<OccType>,
    kinds: &[Kind],
    faults: &mut Items<Fault>,
) -> Result<Kind, AllocError>
    ensures kind { IfOk result (λ kind. kind ≡ (spec_decided op of.now kinds.now).kind) }
    ensures faults { OnOk result (faults.new ≡ faults.old ++ (spec_decided op of.now kinds.now).faults) }
{
    let mut taken = Items::from_vec(Vec::with_capacity(alloc, kinds.len())?);
    for kind in kinds {
        taken.push(settled(alloc, of, kind, faults)?)?;
    }
    verdict(alloc, op, of, taken.as_slice(), faults)
}

/// What an operator gives on operands that are all free.
fn unbound(
    alloc: Global,
    op: Operator,
    kinds: &[Kind],
    faults: &mut Items<Fault>,
) -> Result<Kind, AllocError>
    ensures kind { IfOk result (λ kind. kind ≡ (spec_operated_from None op kinds.now).kind) }
    ensures faults { OnOk result (faults.new ≡ faults.old ++ (spec_operated_from None op kinds.now).faults) }
{
    if is_arithmetic(class_of(op)) {
        return untyped(alloc, untyped_run(op, kinds));
    }
    decided(alloc, op, &int(alloc)?, kinds, faults)
}

/// Whether an operand is of a type, or takes it and has a value in it.
fn settles(of: &OccType, kind: &Kind) -> bool
    ensures { result ≡ spec_settles of.now kind.now }
{
    match kind {
        Kind::Faulty => false,
        Kind::Untyped(untyped) => match number(base_of(of)) {
            Some(base) => {
                !untyped.is_faulty() && matches!(untyped.in_type(base), TypedValue::Constant(_))
            }
            None => false,
        },
        Kind::Known(known) => fits(of, known.of.get()),
    }
}

/// Whether an operand is of a type and has no value.
fn varies(kind: &Kind) -> bool
    ensures { result ≡ spec_varies kind.now }
{
    match kind {
        Kind::Known(known) => known.value.get().is_none(),
        _ => false,
    }
}

/// Whether the operator takes operands of a type.
#[inline(always)]
fn takes_type(op: Operator, of: &OccType) -> bool
    ensures { result ≡ spec_takes_type op of.now }
{
    allows(class_of(op), base_of(of)) && fits(of, of)
}

fn some_varies(kinds: &[Kind]) -> bool
    ensures { result ≡ list_any spec_varies kinds.now }
{
    kinds.iter().any(|kind| varies(kind))
}

fn all_settle(of: &OccType, kinds: &[Kind]) -> bool
    ensures { result ≡ list_all (spec_settles of.now) kinds.now }
{
    kinds.iter().all(|kind| settles(of, kind))
}

/// Whether the operator takes operands of a type, each of these settles in it, and one of them has no value.
fn vary(op: Operator, of: &OccType, kinds: &[Kind]) -> bool
    ensures { result ≡ is_varying op of.now kinds.now }
{
    takes_type(op, of) && some_varies(kinds) && all_settle(of, kinds)
}

/// Whether one of two operands is of a type and has no value.
fn either_varies(first: &Kind, second: &Kind) -> bool
    ensures { result ≡ list_any spec_varies (first.now ∷ second.now ∷ []) }
{
    varies(first) || varies(second)
}

/// Whether two operands are of a type, or take it and have values in it.
fn both_settle(of: &OccType, first: &Kind, second: &Kind) -> bool
    ensures { result ≡ list_all (spec_settles of.now) (first.now ∷ second.now ∷ []) }
{
    settles(of, first) && settles(of, second)
}

/// The same of two operands, which are in no list.
fn vary_both(op: Operator, of: &OccType, first: &Kind, second: &Kind) -> bool
    ensures { result ≡ is_varying op of.now (first.now ∷ second.now ∷ []) }
{
    takes_type(op, of) && either_varies(first, second) && both_settle(of, first, second)
}

/// What an operator gives on operands of a type, one of which has no value.
fn varying(alloc: Global, op: Operator, of: &Shared<OccType>) -> Result<Kind, AllocError>
    ensures { IfOk result (λ kind. kind ≡ spec_known (spec_given (spec_class_of op) of.now) None) }
{
    let of = given(alloc, class_of(op), of)?;
    Ok(Kind::Known(Known {
        of,
        value: MaybeValue::none(),
    }))
}

/// What an operator gives that stands between each two of these operands; not for shifts.
pub fn operated(
    alloc: Global,
    op: Operator,
    kinds: &[Kind],
    faults: &mut Items<Fault>,
) -> Result<Kind, AllocError>
    ensures kind { IfOk result (λ kind. kind ≡ (spec_operated op kinds.now).kind) }
    ensures faults { OnOk result (faults.new ≡ faults.old ++ (spec_operated op kinds.now).faults) }
{
    match first_bound(kinds) {
        Some(Kind::Known(known)) if vary(op, known.of.get(), kinds) => {
            varying(alloc, op, &known.of)
        }
        Some(Kind::Known(known)) => decided(alloc, op, &known.of, kinds, faults),
        Some(_) => Ok(Kind::Faulty),
        None => unbound(alloc, op, kinds, faults),
    }
}

/// The first of two operands that is not free.
fn bound_of_two<'a>(first: &'a Kind, second: &'a Kind) -> Option<&'a Kind>
    ensures { MatchOption result (spec_first_bound (first.now ∷ second.now ∷ []) ≡ None) (λ kind. spec_first_bound (first.now ∷ second.now ∷ []) ≡ Some kind.now) }
{
    match (first, second) {
        (Kind::Untyped(_), Kind::Untyped(_)) => None,
        (Kind::Untyped(_), _) => Some(second),
        _ => Some(first),
    }
}

/// What an operator gives on these two operands, which are in no list.
fn operated_two(
    alloc: Global,
    op: Operator,
    first: &Kind,
    second: &Kind,
    faults: &mut Items<Fault>,
) -> Result<Kind, AllocError>
    ensures kind { IfOk result (λ kind. kind ≡ (spec_operated op (first.now ∷ second.now ∷ [])).kind) }
    ensures faults { OnOk result (faults.new ≡ faults.old ++ (spec_operated op (first.now ∷ second.now ∷ [])).faults) }
{
    let mut kinds = Items::from_vec(Vec::with_capacity(alloc, 2)?);
    kinds.push(first.share()?)?;
    kinds.push(second.share()?)?;
    operated(alloc, op, kinds.as_slice(), faults)
}

/// What an operator gives that stands between two operands; not for shifts.
pub fn operated_pair(
    alloc: Global,
    op: Operator,
    first: &Kind,
    second: &Kind,
    faults: &mut Items<Fault>,
) -> Result<Kind, AllocError>
    ensures kind { IfOk result (λ kind. kind ≡ (spec_operated op (first.now ∷ second.now ∷ [])).kind) }
    ensures faults { OnOk result (faults.new ≡ faults.old ++ (spec_operated op (first.now ∷ second.now ∷ [])).faults) }
{
    match bound_of_two(first, second) {
        Some(Kind::Known(known)) if vary_both(op, known.of.get(), first, second) => {
            varying(alloc, op, &known.of)
        }
        _ => operated_two(alloc, op, first, second, faults),
    }
}

/// The type of what is known of an operand, if it is known.
pub fn type_in(kind: &Kind) -> Result<Option<Shared<OccType>>, AllocError>
    ensures { IfOk result (λ of. of ≡ spec_type_in kind.now) }
{
    match kind {
        Kind::Known(found) => Ok(Some(found.of.share()?)),
        Kind::Faulty => Ok(None),
        Kind::Untyped(_) => Ok(None),
    }
}

/// The type that is wanted of each operand of an operator, where this is known of the whole: that of the first which is
/// not free; if all are free, that of the whole under an arithmetic operator, else INT. Not for shifts.
pub fn operand_type(
    alloc: Global,
    op: Operator,
    whole: &Kind,
    kinds: &[Kind],
) -> Result<Option<Shared<OccType>>, AllocError>
    ensures { IfOk result (λ of. of ≡ spec_operand_type op whole.now kinds.now) }
{
    match first_bound(kinds) {
        Some(first) => type_in(first),
        None => {
            if !is_arithmetic(class_of(op)) {
                return Ok(Some(int(alloc)?));
            }
            type_in(whole)
        }
    }
}

/// An untyped operand that is shifted by this count, an INT.
fn untyped_shift(op: Operator, untyped: &Untyped, is_faulty: bool, count: Option<Value>) -> Untyped
    ensures { result ≡ in_each is_faulty (λ of. spec_shifted op count (in_type untyped.now of)) }
{
    Untyped {
        is_faulty,
        byte: shift(op, count, untyped.byte),
        int16: shift(op, count, untyped.int16),
        int: shift(op, count, untyped.int),
        int32: shift(op, count, untyped.int32),
        int64: shift(op, count, untyped.int64),
    }
}

/// An untyped operand that is shifted by a count that is no INT.
fn untyped_misshift(untyped: &Untyped) -> Untyped
    ensures { result ≡ in_each untyped.now.is_faulty (λ of. misshifted (in_type untyped.now of)) }
{
    Untyped {
        is_faulty: untyped.is_faulty,
        byte: misshift(untyped.byte),
        int16: misshift(untyped.int16),
        int: misshift(untyped.int),
        int32: misshift(untyped.int32),
        int64: misshift(untyped.int64),
    }
}

pub(super) fn is_int(of: &OccType) -> bool
    ensures { result ≡ spec_is_int (spec_as_primitive of.now) }
{
    matches!(as_primitive(of), Some(Primitive::Int))
}

/// A known operand that is shifted by a count.
fn known_shift(
    op: Operator,
    known: &Known,
    count: &Known,
    faults: &mut Items<Fault>,
) -> Result<Kind, AllocError>
    ensures kind { IfOk result (λ kind. kind ≡ (spec_shifted_by op (k.Known known.now) (k.Known count.now)).kind) }
    ensures faults { OnOk result (faults.new ≡ faults.old ++ (spec_shifted_by op (k.Known known.now) (k.Known count.now)).faults) }
{
    if number(base_of(known.of.get())).is_some() && is_int(count.of.get()) {
        return landed(
            &known.of,
            shift(op, count.value.get(), value_outcome(known.value.get())),
            faults,
        );
    }
    report(faults, Code::T1)?;
    Ok(Kind::Faulty)
}

/// An untyped operand that is shifted by a count without a fault.
fn known_count(op: Operator, untyped: &Untyped, count: &Known) -> Untyped
    ensures { result ≡ spec_known_count op untyped.now (spec_is_int (spec_as_primitive count.now.of)) count.now.value }
{
    if is_int(count.of.get()) {
        untyped_shift(op, untyped, untyped.is_faulty, count.value.get())
    } else {
        untyped_misshift(untyped)
    }
}

/// An operand that is shifted by a settled count.
fn shifted_by(
    alloc: Global,
    op: Operator,
    kind: &Kind,
    count: &Kind,
    faults: &mut Items<Fault>,
) -> Result<Kind, AllocError>
    ensures kind { IfOk result (λ shifted. shifted ≡ (spec_shifted_by op kind.now count.now).kind) }
    ensures faults { OnOk result (faults.new ≡ faults.old ++ (spec_shifted_by op kind.now count.now).faults) }
{
    match (kind, count) {
        (Kind::Untyped(shifted), Kind::Known(count)) => {
            untyped(alloc, known_count(op, &shifted.get(), count))
        }
        (Kind::Untyped(shifted), Kind::Faulty) => {
            untyped(alloc, untyped_shift(op, &shifted.get(), true, None))
        }
        (Kind::Known(known), Kind::Known(count)) => known_shift(op, known, count, faults),
        _ => Ok(Kind::Faulty),
    }
}

/// What a shift gives. The count is an INT; the shift of an untyped operand is free.
pub fn shifted(
    alloc: Global,
    op: Operator,
    kind: &Kind,
    count: &Kind,
    faults: &mut Items<Fault>,
) -> Result<Kind, AllocError>
    ensures kind { IfOk result (λ shifted. shifted ≡ (spec_shift_operated op kind.now count.now).kind) }
    ensures faults { OnOk result (faults.new ≡ faults.old ++ (spec_shift_operated op kind.now count.now).faults) }
{
    let count = settled(alloc, &int(alloc)?, count, faults)?;
    shifted_by(alloc, op, kind, &count, faults)
}

/// Whether an operator in front takes a type that is this one under its names.
fn takes(op: Monadic, base: Option<Primitive>) -> bool
    ensures { result ≡ spec_takes op base }
{
    match op {
        Monadic::Negate | Monadic::Minus | Monadic::BitNot => number(base).is_some(),
        Monadic::Not => matches!(base, Some(Primitive::Bool)),
    }
}

/// An untyped operand after an operator.
fn untyped_front(op: Monadic, untyped: &Untyped) -> Untyped
    ensures { result ≡ in_each untyped.now.is_faulty (λ of. spec_applied op (in_type untyped.now of)) }
{
    Untyped {
        is_faulty: untyped.is_faulty,
        byte: apply(op, untyped.byte),
        int16: apply(op, untyped.int16),
        int: apply(op, untyped.int),
        int32: apply(op, untyped.int32),
        int64: apply(op, untyped.int64),
    }
}

/// NOT takes no number.
fn not_number(needs_faulty: bool, faults: &mut Items<Fault>) -> Result<(), AllocError>
    ensures { OnOk result (faults.new ≡ faults.old ++ (spec_not_number needs_faulty).faults) }
{
    if needs_faulty {
        return Ok(());
    }
    report(faults, Code::T1)
}

/// NOT takes no number: an untyped operand is an INT, which may have a fault of its own.
fn not_untyped(
    needs_faulty: bool,
    outcome: TypedValue,
    faults: &mut Items<Fault>,
) -> Result<Kind, AllocError>
    ensures kind { IfOk result (λ kind. kind ≡ (spec_not_untyped needs_faulty outcome).kind) }
    ensures faults { OnOk result (faults.new ≡ faults.old ++ (spec_not_untyped needs_faulty outcome).faults) }
{
    match outcome {
        TypedValue::Unfit => report(faults, Code::T6)?,
        TypedValue::Faulty(wrong) => report_wrong(wrong, faults)?,
        TypedValue::Varying | TypedValue::Constant(_) => not_number(needs_faulty, faults)?,
    }
    Ok(Kind::Faulty)
}

/// What an operator in front of its one operand gives; not SIZE.
pub fn applied(
    alloc: Global,
    op: Monadic,
    kind: &Kind,
    faults: &mut Items<Fault>,
) -> Result<Kind, AllocError>
    ensures kind { IfOk result (λ applied. applied ≡ (spec_front_operated op kind.now).kind) }
    ensures faults { OnOk result (faults.new ≡ faults.old ++ (spec_front_operated op kind.now).faults) }
{
    match kind {
        Kind::Faulty => Ok(Kind::Faulty),
        Kind::Untyped(operand) => {
            let operand = operand.get();
            if op == Monadic::Not {
                return not_untyped(operand.is_faulty, operand.int, faults);
            }
            untyped(alloc, untyped_front(op, &operand))
        }
        Kind::Known(known) => {
            if takes(op, base_of(known.of.get())) {
                return landed(
                    &known.of,
                    apply(op, value_outcome(known.value.get())),
                    faults,
                );
            }
            report(faults, Code::T1)?;
            Ok(Kind::Faulty)
        }
    }
}
