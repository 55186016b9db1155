//! Parses conversions: a type and an operand, which may be the table after the name of a type.
ghost use Rattle.occ_forms_expressions.specs.inside.Brackets.{IsBracketed, closing_then, narrow_of};
ghost use Rattle.occ_forms_expressions.specs.Reading.{IsAfter, Reads, ReadsExpr};
ghost use Rattle.occ_forms_expressions.specs.Spelling.{builtin_then, dimension_then, expr_then, many, named_operand_then, operand_then};
ghost use Rattle.occ_forms_expressions.specs.declared.tree.Builtin.{Builtin as ABuiltin};
ghost use Rattle.occ_forms_expressions.specs.declared.tree.Dimension.{Dimension as ADimension};
ghost use Rattle.occ_forms_expressions.specs.declared.tree.Expr.TheVariants as x;
ghost use Rattle.occ_forms_expressions.specs.declared.tree.NamedOperand.{NamedOperand as ANamedOperand};
ghost use Rattle.occ_forms_expressions.specs.declared.tree.Operand.{Operand as AnOperand};
ghost use Rattle.occ_lines.specs.declared.token.Symbol.TheVariants as s;
ghost use Rattle.occ_lines.specs.declared.token.Token.TheVariants as t;
ghost use Rattle.occ_lines.specs.declared.token.Token.{Token as AToken};
ghost use Rattle.std.specs.Prelude.{IfOk, IfSome, List, MatchOption, None, Some, length, ℕ, ◌∷◌, ◌≡◌, ◌≤◌, ◌<◌};

use super::bracket::Closing;
use super::list::joined;
use super::operand::{bracket_operand, narrow, operand};
use super::token_reader::name;
use super::tree::{Dimension, Expr};
use super::types::{Following, builtin, dimensions};
use occ_base::{Boxed, Items, Name};
use occ_lines::Token;
use std::alloc::{AllocError, Global};

/// A conversion to a type that begins with a reserved word after its dimensions, which are read.
pub fn converted<'a, F: Fn(Global, &[Token]) -> Result<Option<(Expr, &[Token])>, AllocError>>(
    alloc: Global,
    dimensions: Items<Dimension>,
    tokens: &'a [Token],
    inner: &F,
) -> Result<Option<(Expr, &'a [Token])>, AllocError>
    requires inner { ReadsExpr (length tokens.now) (F.pre inner.now) (F.post inner.now) }
    ensures found { IfOk result (λ r. IfSome r (λ y. many dimension_then dimensions tokens.now ≡ expr_then y.0 y.1.now)) }
    ensures shorter { IfOk result (λ r. IfSome r (λ y. length y.1.now < length tokens.now)) }
    ensures only { IfOk result (λ r. (b : ABuiltin) (o : AnOperand) (k : List AToken) → IsAfter k → tokens.now ≡ builtin_then b (operand_then o k) → Reads r (x.Converted dimensions b o) k) }
{
    let Some((form, rest)) = builtin(alloc, Following::More, tokens, inner)? else {
        return Ok(None);
    };
    let form = Boxed::new(alloc, form)?;
    let Some((operand, rest)) = operand(alloc, rest, inner)? else {
        return Ok(None);
    };
    let operand = Boxed::new(alloc, operand)?;
    Ok(Some((Expr::Converted(dimensions, form, operand), rest)))
}

/// A conversion to a named type after its dimensions, which are read, as its name is.
pub fn array_converted<'a, F: Fn(Global, &[Token]) -> Result<Option<(Expr, &[Token])>, AllocError>>(
    alloc: Global,
    first: Dimension,
    more: Items<Dimension>,
    name: Name,
    tokens: &'a [Token],
    inner: &F,
) -> Result<Option<(Expr, &'a [Token])>, AllocError>
    requires inner { ReadsExpr (length tokens.now) (F.pre inner.now) (F.post inner.now) }
    ensures found { IfOk result (λ r. IfSome r (λ y. dimension_then first (many dimension_then more (t.Name name ∷ tokens.now)) ≡ expr_then y.0 y.1.now)) }
    ensures shorter { IfOk result (λ r. IfSome r (λ y. length y.1.now < length tokens.now)) }
    ensures only { IfOk result (λ r. (o : AnOperand) (k : List AToken) → IsAfter k → tokens.now ≡ operand_then o k → Reads r (x.ArrayConverted first more name o) k) }
{
    let Some((operand, rest)) = operand(alloc, tokens, inner)? else {
        return Ok(None);
    };
    let operand = Boxed::new(alloc, operand)?;
    let first = Boxed::new(alloc, first)?;
    Ok(Some((Expr::ArrayConverted(first, more, name, operand), rest)))
}

/// A conversion of which the first dimension is read.
pub fn after_dimension<'a, F: Fn(Global, &[Token]) -> Result<Option<(Expr, &[Token])>, AllocError>>(
    alloc: Global,
    first: Dimension,
    tokens: &'a [Token],
    inner: &F,
) -> Result<Option<(Expr, &'a [Token])>, AllocError>
    requires inner { ReadsExpr (length tokens.now) (F.pre inner.now) (F.post inner.now) }
    ensures found { IfOk result (λ r. IfSome r (λ y. dimension_then first tokens.now ≡ expr_then y.0 y.1.now)) }
    ensures shorter { IfOk result (λ r. IfSome r (λ y. length y.1.now < length tokens.now)) }
    ensures named { IfOk result (λ r. (ds : List ADimension) (n : List ℕ) (o : AnOperand) (k : List AToken) → IsAfter k → tokens.now ≡ many dimension_then ds (t.Name n ∷ operand_then o k) → Reads r (x.ArrayConverted first ds n o) k) }
    ensures builtin { IfOk result (λ r. (ds : List ADimension) (b : ABuiltin) (o : AnOperand) (k : List AToken) → IsAfter k → tokens.now ≡ many dimension_then ds (builtin_then b (operand_then o k)) → Reads r (x.Converted (first ∷ ds) b o) k) }
{
    let Some((more, rest)) = dimensions(alloc, tokens, inner)? else {
        return Ok(None);
    };
    let Some((name, following)) = name(alloc, rest)? else {
        return converted(alloc, joined(alloc, first, more)?, rest, inner);
    };
    array_converted(alloc, first, more, name, following, inner)
}

/// The conversion of an operand to the named type, which is read.
pub fn name_converted<'a, F: Fn(Global, &[Token]) -> Result<Option<(Expr, &[Token])>, AllocError>>(
    alloc: Global,
    name: Name,
    tokens: &'a [Token],
    inner: &F,
) -> Result<Option<(Expr, &'a [Token])>, AllocError>
    requires inner { ReadsExpr (length tokens.now) (F.pre inner.now) (F.post inner.now) }
    ensures found { IfOk result (λ r. IfSome r (λ y. t.Name name ∷ tokens.now ≡ expr_then y.0 y.1.now)) }
    ensures shorter { IfOk result (λ r. IfSome r (λ y. length y.1.now < length tokens.now)) }
    ensures only { IfOk result (λ r. (p : AnOperand) (o : ANamedOperand) (k : List AToken) → IsAfter k → narrow_of p ≡ Some o → tokens.now ≡ operand_then p k → Reads r (x.Named name o) k) }
{
    let Some((operand, rest)) = operand(alloc, tokens, inner)? else {
        return Ok(None);
    };
    let Some(operand) = narrow(alloc, operand)? else {
        return Ok(None);
    };
    Ok(Some((Expr::Named(name, Boxed::new(alloc, operand)?), rest)))
}

/// The conversion of what stands in square brackets to the named type.
pub fn bracket_converted(
    alloc: Global,
    name: Name,
    first: Expr,
    closing: Closing,
) -> Result<Option<Expr>, AllocError>
    ensures found { IfOk result (λ r. IfSome r (λ e. (k : List AToken) → t.Name name ∷ t.Symbol s.OpenIndex ∷ expr_then first (closing_then closing k) ≡ expr_then e k)) }
    ensures only { IfOk result (λ r. (p : AnOperand) (o : ANamedOperand) → IsBracketed first closing (Some p) → narrow_of p ≡ Some o → r ≡ Some (x.Named name o)) }
{
    let Some(operand) = bracket_operand(alloc, first, closing)? else {
        return Ok(None);
    };
    let Some(operand) = narrow(alloc, operand)? else {
        return Ok(None);
    };
    Ok(Some(Expr::Named(name, Boxed::new(alloc, operand)?)))
}
