//! The typed tree that an open expression becomes under the type wanted of it. What is typed already is shared.
//! `docs/LANGUAGE.md, The typed tree`.
#![tactic(auto, using(crate::proofs::OpenPlacing::placing_rules, crate::proofs::Fronts::front_rules))]

ghost use Rattle.std.specs.Prelude.{◌≡◌, ◌∷◌, [], IfOk, Some};
ghost use Rattle.occ_typing_rules.specs.Placing.{all_placed as spec_all_placed, constant_in, count_of as spec_count_of, each_placed as spec_each_placed, known_in as spec_known_in, operation_of, placed as spec_placed, placed_table as spec_placed_table, table_under, value_in as spec_value_in};
ghost use Rattle.occ_types.specs.View.{as_array};
ghost use Rattle.occ_typing_rules.specs.declared.expr.TypedExpr.TheVariants as typed;

use super::expr::TypedExpr;
use super::open_expr::OpenExpr;
use occ_base::{Items, Shared, one_item};
use occ_types::{MaybeValue, OccType, Operator, Value, array_of, base_of};
use occ_typing_operands::{Known, TypedValue, UntypedConstant, number};
use std::alloc::{AllocError, Global};

/// The value that an outcome is.
fn constant(outcome: TypedValue) -> Option<Value>
    ensures { result ≡ constant_in outcome }
{
    match outcome {
        TypedValue::Constant(value) => Some(value),
        TypedValue::Unfit => None,
        TypedValue::Faulty(_) => None,
        TypedValue::Varying => None,
    }
}

/// The value of an untyped expression in a type, if it has one there.
#[inline(always)]
pub fn value_in(untyped: &UntypedConstant, of: &OccType) -> Option<Value>
    ensures { result ≡ spec_value_in untyped.now of.now }
{
    match number(base_of(of)) {
        Some(base) => constant(untyped.in_type(base)),
        None => None,
    }
}

/// An untyped expression as one of this type.
#[inline(always)]
fn known_in(untyped: &UntypedConstant, of: &Shared<OccType>) -> Result<Known, AllocError>
    ensures { IfOk result (λ known. known ≡ spec_known_in untyped.now of.now) }
{
    let value = value_in(untyped, of.get());
    let of = of.share()?;
    Ok(Known {
        of,
        value: MaybeValue::new(value),
    })
}

/// The tree, for all that share it.
fn whole(alloc: Global, tree: TypedExpr) -> Result<Option<Shared<TypedExpr>>, AllocError>
    ensures { IfOk result (λ found. found ≡ Some tree) }
{
    Ok(Some(Shared::new(alloc, tree)?))
}

/// Untyped operands, of which this type is wanted, with one operator between each two.
fn operation(
    alloc: Global,
    untyped: &UntypedConstant,
    operator: Operator,
    operands: Option<Items<Shared<TypedExpr>>>,
    of: &Shared<OccType>,
) -> Result<Option<Shared<TypedExpr>>, AllocError>
    ensures { IfOk result (λ tree. tree ≡ operation_of (spec_known_in untyped.now of.now) operator operands) }
{
    let Some(operands) = operands else {
        return Ok(None);
    };
    let known = known_in(untyped, of)?;
    whole(alloc, TypedExpr::Operation(known, operator, operands))
}

/// How many items a table has, as its type reports it.
fn count_of(items: usize) -> Option<u32>
    ensures { result ≡ spec_count_of items }
{
    u32::try_from(items).ok()
}

/// The trees of the parts of an open expression where one type is wanted of each; none where one has a fault.
#[cycle(placing)]
pub fn all_placed(
    alloc: Global,
    open_exprs: &[OpenExpr],
    of: &Shared<OccType>,
) -> Result<Option<Items<Shared<TypedExpr>>>, AllocError>
    ensures { IfOk result (λ trees. trees ≡ spec_all_placed open_exprs.now of.now) }
{
    let mut trees = Items::from_vec(Vec::with_capacity(alloc, open_exprs.len())?);
    for open_expr in open_exprs {
        let Some(tree) = placed(alloc, open_expr, of)? else {
            return Ok(None);
        };
        trees.push(tree)?;
    }
    Ok(Some(trees))
}

/// A table of these items, where an array of components of this type is wanted.
#[cycle(placing)]
fn placed_table(
    alloc: Global,
    open_exprs: &[OpenExpr],
    component: &Shared<OccType>,
) -> Result<Option<Shared<TypedExpr>>, AllocError>
    ensures { IfOk result (λ tree. tree ≡ spec_placed_table open_exprs.now component.now) }
{
    let Some(trees) = all_placed(alloc, open_exprs, component)? else {
        return Ok(None);
    };
    let array = OccType::Array(count_of(open_exprs.len()), component.share()?);
    let known = Known {
        of: Shared::new(alloc, array)?,
        value: MaybeValue::none(),
    };
    whole(alloc, TypedExpr::Table(known, trees))
}

/// A table of these items, where this type is wanted.
#[cycle(placing)]
fn table(
    alloc: Global,
    open_exprs: &[OpenExpr],
    of: &Shared<OccType>,
) -> Result<Option<Shared<TypedExpr>>, AllocError>
    ensures { IfOk result (λ tree. tree ≡ table_under open_exprs.now (as_array of.now)) }
{
    match array_of(of.get()) {
        Some((_, component)) => placed_table(alloc, open_exprs, component),
        None => Ok(None),
    }
}

/// The tree of an expression where this type is wanted of it; none where it has a fault. What is free in it takes the
/// type, and a table takes it item by item.
#[cycle(placing)]
pub fn placed(
    alloc: Global,
    open_expr: &OpenExpr,
    of: &Shared<OccType>,
) -> Result<Option<Shared<TypedExpr>>, AllocError>
    ensures { IfOk result (λ tree. tree ≡ spec_placed open_expr.now of.now) }
{
    match open_expr {
        OpenExpr::Faulty => Ok(None),
        OpenExpr::Typed(tree) => Ok(Some(tree.share()?)),
        OpenExpr::Literal(untyped) => whole(alloc, TypedExpr::Literal(known_in(untyped, of)?)),
        OpenExpr::Operation(untyped, operator, operands) => {
            let trees = all_placed(alloc, operands.as_slice(), of)?;
            operation(alloc, untyped, *operator, trees, of)
        }
        OpenExpr::Applied(untyped, operator, operand) => {
            let Some(tree) = placed(alloc, operand.get(), of)? else {
                return Ok(None);
            };
            let known = known_in(untyped, of)?;
            whole(alloc, TypedExpr::Applied(known, *operator, tree))
        }
        OpenExpr::Shifted(untyped, operator, operand, count) => {
            let Some(tree) = placed(alloc, operand.get(), of)? else {
                return Ok(None);
            };
            shifted(alloc, known_in(untyped, of)?, *operator, tree, count)
        }
        OpenExpr::Table(items) => table(alloc, items.as_slice(), of),
    }
}

/// A shift of this operand by this count.
fn shifted(
    alloc: Global,
    known: Known,
    operator: Operator,
    operand: Shared<TypedExpr>,
    count: &Shared<TypedExpr>,
) -> Result<Option<Shared<TypedExpr>>, AllocError>
    ensures { IfOk result (λ tree. tree ≡ Some (typed.Operation known operator (operand ∷ count.now ∷ []))) }
{
    let mut operands = one_item(alloc, operand)?;
    operands.push(count.share()?)?;
    whole(alloc, TypedExpr::Operation(known, operator, operands))
}

/// The trees of expressions where the type at its place is wanted of each; none where one has a fault, or where there are
/// more or fewer types.
pub fn each_placed(
    alloc: Global,
    open_exprs: &[OpenExpr],
    types: &[Shared<OccType>],
) -> Result<Option<Items<Shared<TypedExpr>>>, AllocError>
    ensures { IfOk result (λ trees. trees ≡ spec_each_placed open_exprs.now types.now) }
{
    let mut trees = Items::from_vec(Vec::with_capacity(alloc, open_exprs.len())?);
    let mut types = types;
    for open_expr in open_exprs {
        let Some((of, rest)) = types.split_first() else {
            return Ok(None);
        };
        let Some(tree) = placed(alloc, open_expr, of)? else {
            return Ok(None);
        };
        trees.push(tree)?;
        types = rest;
    }
    if types.is_empty() {
        Ok(Some(trees))
    } else {
        Ok(None)
    }
}
