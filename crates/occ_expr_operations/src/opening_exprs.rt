//! Open expressions of each form, by those of its operands: literals, operators, shifts, SIZE, conversions, tables,
//! calls.
#![tactic(auto, using(crate::proofs::OpenTypes::type_rules))]

ghost use Rattle.std.specs.Prelude.{◌≡◌, ◌∷◌, [], IfOk, None, Some, MatchOption, if◌then◌else◌};
ghost use Rattle.occ_expr_operations.specs.OpenExprs.{converted_to as spec_converted_to, decorated_open as spec_decorated_open, opened as spec_opened, front_open as spec_front_open, items_placed as spec_items_placed, literal_open as spec_literal_open, operands_type as spec_operands_type, operation_open as spec_operation_open, own_type as spec_own_type, shift_open as spec_shift_open, shifted_untyped, shifted_known, size_open as spec_size_open, type_alone as spec_type_alone, types_of as spec_types_of, values_placed as spec_values_placed};
ghost use Rattle.occ_typing_operands.specs.Settling.{int as spec_int};
ghost use Rattle.occ_typing_operands.specs.declared.kind.Kind.TheVariants as k;
ghost use Rattle.occ_typing_rules.specs.Placing.{placed as spec_placed};
ghost use Rattle.occ_typing_rules.specs.declared.open_expr.OpenExpr.TheVariants as d;
ghost use Rattle.occ_types.specs.View.{fields_in};

use occ_base::{Items, Shared};
use occ_types::{Field, Monadic, OccType, Operator, array_of, fields_of, unnamed};
use occ_typing_operands::{Kind, Known, UntypedConstant, int};
use occ_typing_rules::{OpenExpr, TypedExpr, all_placed, each_placed, known_of, placed};
use std::alloc::{AllocError, Global};

/// A list of two items.
pub fn two_items<T: Drop>(alloc: Global, first: T, second: T) -> Result<Items<T>, AllocError>
    ensures { IfOk result (λ items. items ≡ first ∷ second ∷ []) }
{
    let mut items = Items::from_vec(Vec::with_capacity(alloc, 2)?);
    items.push(first)?;
    items.push(second)?;
    Ok(items)
}

/// A typed tree as an open expression, for all that share it.
fn typed(alloc: Global, tree: TypedExpr) -> Result<OpenExpr, AllocError>
    ensures { IfOk result (λ open_expr. open_expr ≡ spec_opened (Some tree)) }
{
    Ok(OpenExpr::Typed(Shared::new(alloc, tree)?))
}

/// The open expression of a literal of which this is known.
pub fn literal_open(alloc: Global, kind: &Kind) -> Result<OpenExpr, AllocError>
    ensures { IfOk result (λ open_expr. open_expr ≡ spec_literal_open kind.now) }
{
    match kind {
        Kind::Faulty => Ok(OpenExpr::Faulty),
        Kind::Untyped(untyped) => Ok(OpenExpr::Literal(untyped.share()?)),
        Kind::Known(known) => typed(alloc, TypedExpr::Literal(known.share()?)),
    }
}

/// The type of an operand of which none is wanted and of which this is known.
fn type_alone(alloc: Global, kind: &Kind) -> Result<Shared<OccType>, AllocError>
    ensures { IfOk result (λ of. of ≡ spec_type_alone kind.now) }
{
    match kind {
        Kind::Known(known) => known.of.share(),
        Kind::Faulty => int(alloc),
        Kind::Untyped(_) => int(alloc),
    }
}

/// The type of an open expression that is typed already.
fn own_type(open_expr: &OpenExpr) -> Option<&Shared<OccType>>
    ensures { MatchOption result (spec_own_type open_expr.now ≡ None) (λ of. spec_own_type open_expr.now ≡ Some of.now) }
{
    match open_expr {
        OpenExpr::Typed(tree) => Some(&known_of(tree.get()).of),
        OpenExpr::Faulty => None,
        OpenExpr::Literal(_) => None,
        OpenExpr::Operation(_, _, _) => None,
        OpenExpr::Applied(_, _, _) => None,
        OpenExpr::Shifted(_, _, _, _) => None,
        OpenExpr::Table(_) => None,
    }
}

/// The type that operands with an operator between each two take: that of the first that is not free, or INT.
fn operands_type(alloc: Global, operands: &[OpenExpr]) -> Result<Shared<OccType>, AllocError>
    ensures { IfOk result (λ of. of ≡ spec_operands_type operands.now) }
{
    for operand in operands {
        if let Some(of) = own_type(operand) {
            return of.share();
        }
    }
    int(alloc)
}

/// Typed operands with one operator between each two.
#[tactic(auto, unfolding(crate::specs::OpenExprs::operation_open))]
fn known_operation(
    alloc: Global,
    known: &Known,
    operator: Operator,
    operands: &[OpenExpr],
) -> Result<OpenExpr, AllocError>
    ensures { IfOk result (λ open_expr. open_expr ≡ spec_operation_open (k.Known known.now) operator operands.now) }
{
    let of = operands_type(alloc, operands)?;
    let Some(trees) = all_placed(alloc, operands, &of)? else {
        return Ok(OpenExpr::Faulty);
    };
    typed(alloc, TypedExpr::Operation(known.share()?, operator, trees))
}

/// Operands with one operator between each two, of whose whole this is known.
#[tactic(auto, unfolding(crate::specs::OpenExprs::operation_open))]
pub fn operation_open(
    alloc: Global,
    whole: &Kind,
    operator: Operator,
    operands: Items<OpenExpr>,
) -> Result<OpenExpr, AllocError>
    ensures { IfOk result (λ open_expr. open_expr ≡ spec_operation_open whole.now operator operands) }
{
    match whole {
        Kind::Faulty => Ok(OpenExpr::Faulty),
        Kind::Untyped(untyped) => Ok(OpenExpr::Operation(untyped.share()?, operator, operands)),
        Kind::Known(known) => known_operation(alloc, known, operator, operands.as_slice()),
    }
}

/// The tree of a place or a count, which is an INT.
pub fn place_tree(
    alloc: Global,
    open_expr: &OpenExpr,
) -> Result<Option<Shared<TypedExpr>>, AllocError>
    ensures { IfOk result (λ tree. tree ≡ spec_placed open_expr.now spec_int) }
{
    match open_expr {
        OpenExpr::Typed(tree) => Ok(Some(tree.share()?)),
        _ => placed(alloc, open_expr, &int(alloc)?),
    }
}

/// A shift of an untyped operand.
fn untyped_shift(
    alloc: Global,
    untyped: &UntypedConstant,
    operator: Operator,
    shifted: OpenExpr,
    count: &OpenExpr,
) -> Result<OpenExpr, AllocError>
    ensures { IfOk result (λ open_expr. open_expr ≡ shifted_untyped untyped.now operator shifted (spec_placed count.now spec_int)) }
{
    let shifted = Shared::new(alloc, shifted)?;
    let Some(count) = place_tree(alloc, count)? else {
        return Ok(OpenExpr::Faulty);
    };
    Ok(OpenExpr::Shifted(untyped.share()?, operator, shifted, count))
}

/// A shift of a typed operand.
fn known_shift(
    alloc: Global,
    known: &Known,
    operator: Operator,
    shifted: Option<Shared<TypedExpr>>,
    count: Option<Shared<TypedExpr>>,
) -> Result<OpenExpr, AllocError>
    ensures { IfOk result (λ open_expr. open_expr ≡ spec_opened (shifted_known known.now operator shifted count)) }
{
    let Some((shifted, count)) = shifted.zip(count) else {
        return Ok(OpenExpr::Faulty);
    };
    let operands = two_items(alloc, shifted, count)?;
    typed(
        alloc,
        TypedExpr::Operation(known.share()?, operator, operands),
    )
}

/// A shift by a count, of a type that is known.
#[tactic(auto, unfolding(crate::specs::OpenExprs::shift_open))]
fn shifted_as(
    alloc: Global,
    known: &Known,
    operator: Operator,
    shifted: &OpenExpr,
    count: &OpenExpr,
) -> Result<OpenExpr, AllocError>
    ensures { IfOk result (λ open_expr. open_expr ≡ spec_shift_open (k.Known known.now) operator shifted.now count.now) }
{
    let count = place_tree(alloc, count)?;
    let shifted = placed(alloc, shifted, &known.of)?;
    known_shift(alloc, known, operator, shifted, count)
}

/// A shift by a count, of whose whole this is known.
#[tactic(auto, unfolding(crate::specs::OpenExprs::shift_open))]
pub fn shift_open(
    alloc: Global,
    whole: &Kind,
    operator: Operator,
    shifted: OpenExpr,
    count: &OpenExpr,
) -> Result<OpenExpr, AllocError>
    ensures { IfOk result (λ open_expr. open_expr ≡ spec_shift_open whole.now operator shifted count.now) }
{
    match whole {
        Kind::Faulty => {
            drop(shifted);
            Ok(OpenExpr::Faulty)
        }
        Kind::Untyped(untyped) => untyped_shift(alloc, untyped, operator, shifted, count),
        Kind::Known(known) => {
            let whole = shifted_as(alloc, known, operator, &shifted, count);
            drop(shifted);
            whole
        }
    }
}

/// An operator in front of an operand, of a type that is known.
#[tactic(auto, unfolding(crate::specs::OpenExprs::front_open))]
fn applied_as(
    alloc: Global,
    known: &Known,
    operator: Monadic,
    operand: &OpenExpr,
) -> Result<OpenExpr, AllocError>
    ensures { IfOk result (λ open_expr. open_expr ≡ spec_front_open (k.Known known.now) operator operand.now) }
{
    let Some(tree) = placed(alloc, operand, &known.of)? else {
        return Ok(OpenExpr::Faulty);
    };
    typed(alloc, TypedExpr::Applied(known.share()?, operator, tree))
}

/// An operator in front of an operand, of whose whole this is known.
#[tactic(auto, unfolding(crate::specs::OpenExprs::front_open))]
pub fn front_open(
    alloc: Global,
    whole: &Kind,
    operator: Monadic,
    operand: OpenExpr,
) -> Result<OpenExpr, AllocError>
    ensures { IfOk result (λ open_expr. open_expr ≡ spec_front_open whole.now operator operand) }
{
    match whole {
        Kind::Faulty => {
            drop(operand);
            Ok(OpenExpr::Faulty)
        }
        Kind::Untyped(untyped) => {
            let operand = Shared::new(alloc, operand)?;
            Ok(OpenExpr::Applied(untyped.share()?, operator, operand))
        }
        Kind::Known(known) => {
            let whole = applied_as(alloc, known, operator, &operand);
            drop(operand);
            whole
        }
    }
}

/// `SIZE` of an operand of which this is known.
pub fn size_open(
    alloc: Global,
    whole: &Kind,
    of: &Kind,
    operand: &OpenExpr,
) -> Result<OpenExpr, AllocError>
    ensures { IfOk result (λ open_expr. open_expr ≡ spec_size_open whole.now of.now operand.now) }
{
    match whole {
        Kind::Faulty => Ok(OpenExpr::Faulty),
        Kind::Untyped(_) => Ok(OpenExpr::Faulty),
        Kind::Known(known) => {
            let of = type_alone(alloc, of)?;
            let Some(tree) = placed(alloc, operand, &of)? else {
                return Ok(OpenExpr::Faulty);
            };
            typed(alloc, TypedExpr::Size(known.share()?, tree))
        }
    }
}

/// A conversion of an operand of which this is known.
pub fn converted_open(
    alloc: Global,
    whole: &Kind,
    of: &Kind,
    operand: &OpenExpr,
) -> Result<OpenExpr, AllocError>
    ensures { IfOk result (λ open_expr. open_expr ≡ spec_converted_to whole.now of.now operand.now) }
{
    match whole {
        Kind::Faulty => Ok(OpenExpr::Faulty),
        Kind::Untyped(_) => Ok(OpenExpr::Faulty),
        Kind::Known(known) => {
            let of = type_alone(alloc, of)?;
            let Some(tree) = placed(alloc, operand, &of)? else {
                return Ok(OpenExpr::Faulty);
            };
            typed(alloc, TypedExpr::Converted(known.share()?, tree))
        }
    }
}

/// The types of fields.
fn types_of(alloc: Global, fields: &[Field]) -> Result<Items<Shared<OccType>>, AllocError>
    ensures { IfOk result (λ types. types ≡ spec_types_of fields.now) }
{
    let mut types = Items::new(alloc);
    for field in fields {
        types.push(field.of.share()?)?;
    }
    Ok(types)
}

/// The values of the fields of a record; none where the type is no record.
fn values_placed(
    alloc: Global,
    items: &[OpenExpr],
    of: &OccType,
) -> Result<Option<Items<Shared<TypedExpr>>>, AllocError>
    ensures { IfOk result (λ trees. trees ≡ spec_values_placed items.now (fields_in of.now)) }
{
    match fields_of(of) {
        None => Ok(None),
        Some(fields) => {
            let types = types_of(alloc, fields)?;
            each_placed(alloc, items, types.as_slice())
        }
    }
}

/// The items of a table of this type.
fn items_placed(
    alloc: Global,
    items: &[OpenExpr],
    of: &OccType,
) -> Result<Option<Items<Shared<TypedExpr>>>, AllocError>
    ensures { IfOk result (λ trees. trees ≡ spec_items_placed items.now of.now) }
{
    match array_of(unnamed(of)) {
        Some((_, component)) => all_placed(alloc, items, component),
        None => values_placed(alloc, items, unnamed(of)),
    }
}

/// A table with its type, of whose whole this is known.
#[tactic(auto, unfolding(crate::specs::OpenExprs::decorated_open))]
pub fn decorated_open(
    alloc: Global,
    whole: &Kind,
    items: &[OpenExpr],
) -> Result<OpenExpr, AllocError>
    ensures { IfOk result (λ open_expr. open_expr ≡ spec_decorated_open whole.now items.now) }
{
    match whole {
        Kind::Faulty => Ok(OpenExpr::Faulty),
        Kind::Untyped(_) => Ok(OpenExpr::Faulty),
        Kind::Known(known) => {
            let Some(trees) = items_placed(alloc, items, known.of.get())? else {
                return Ok(OpenExpr::Faulty);
            };
            typed(alloc, TypedExpr::Table(known.share()?, trees))
        }
    }
}
