//! Parses expressions that begin with a bracket: a table or a segment with what follows it, or a conversion to an array
//! type.
ghost use Rattle.occ_forms_expressions.specs.inside.Brackets.{IsBracketed, closing_then};
ghost use Rattle.occ_forms_expressions.specs.Reading.{IsAfter, IsEndOfRun, Reads, ReadsExpr, begin_of, is_type_begin};
ghost use Rattle.occ_forms_expressions.specs.Spelling.{builtin_then, dimension_then, expr_then, many, operand_then};
ghost use Rattle.occ_forms_expressions.specs.inside.Tails.{joined, tail_then};
ghost use Rattle.occ_forms_expressions.specs.declared.begin.Begin.TheVariants as be;
ghost use Rattle.occ_forms_expressions.specs.declared.bracket.Closing.TheVariants as cl;
ghost use Rattle.occ_forms_expressions.specs.declared.tail.Tail.{Tail as ATail};
ghost use Rattle.occ_forms_expressions.specs.declared.tree.Builtin.{Builtin as ABuiltin};
ghost use Rattle.occ_forms_expressions.specs.declared.tree.Dimension.TheVariants as d;
ghost use Rattle.occ_forms_expressions.specs.declared.tree.Dimension.{Dimension as ADimension};
ghost use Rattle.occ_forms_expressions.specs.declared.tree.Expr.TheVariants as x;
ghost use Rattle.occ_forms_expressions.specs.declared.tree.Expr.{Expr as AnExpr};
ghost use Rattle.occ_forms_expressions.specs.declared.tree.Operand.{Operand as AnOperand};
ghost use Rattle.occ_lines.specs.declared.token.Symbol.TheVariants as s;
ghost use Rattle.occ_lines.specs.declared.token.Token.TheVariants as t;
ghost use Rattle.occ_lines.specs.declared.token.Token.{Token as AToken};
ghost use Rattle.std.specs.Prelude.{IfOk, IfSome, IsTrue, List, None, Some, [], length, true, ℕ, ◌∷◌, ◌≡◌, ◌≤◌, ◌<◌, ◌↔◌};

use super::begin::{Begin, begins};
use super::bracket::{Bracket, Closing, in_brackets};
use super::conversion::after_dimension;
use super::naming::is_single;
use super::operand::bracket_operand;
use super::tail::after_first;
use super::token_reader::after;
use super::tree::{Dimension, Expr};
use occ_base::Boxed;
use occ_lines::{Symbol, Token};
use std::alloc::{AllocError, Global};

/// Whether a type may begin here.
fn begins_type(tokens: &[Token]) -> bool
    ensures { result ≡ is_type_begin (begin_of tokens.now) }
{
    matches!(
        begins(tokens),
        Begin::Name | Begin::Builtin | Begin::Bracket
    )
}

/// Whether the brackets are a dimension: one item alone stands in them, and a type may begin after them.
fn is_dimension(closing: &Closing, tokens: &[Token]) -> bool
    ensures { IsTrue result ↔ ((closing.now ≡ cl.Items [] None) × (is_type_begin (begin_of tokens.now) ≡ true)) }
{
    is_single(closing) && begins_type(tokens)
}

/// An expression of which the first square brackets are read: a conversion if they are a dimension, in front of a type,
/// else a table or a segment, and what stands after it.
pub fn after_brackets<'a, F: Fn(Global, &[Token]) -> Result<Option<(Expr, &[Token])>, AllocError>>(
    alloc: Global,
    first: Expr,
    closing: Closing,
    tokens: &'a [Token],
    inner: &F,
) -> Result<Option<(Expr, &'a [Token])>, AllocError>
    requires inner { ReadsExpr (length tokens.now) (F.pre inner.now) (F.post inner.now) }
    ensures found { IfOk result (λ r. IfSome r (λ y. t.Symbol s.OpenIndex ∷ expr_then first (closing_then closing tokens.now) ≡ expr_then y.0 y.1.now)) }
    ensures shorter { IfOk result (λ r. IfSome r (λ y. length y.1.now ≤ length tokens.now)) }
    ensures operand { IfOk result (λ r. (o : AnOperand) (z : ATail) (k : List AToken) → IsEndOfRun k → IsBracketed first closing (Some o) → tokens.now ≡ tail_then z k → Reads r (joined o z) k) }
    ensures named { IfOk result (λ r. (ds : List ADimension) (n : List ℕ) (o : AnOperand) (k : List AToken) → IsAfter k → closing ≡ cl.Items [] None → tokens.now ≡ many dimension_then ds (t.Name n ∷ operand_then o k) → Reads r (x.ArrayConverted (d.Sized first) ds n o) k) }
    ensures builtin { IfOk result (λ r. (ds : List ADimension) (b : ABuiltin) (o : AnOperand) (k : List AToken) → IsAfter k → closing ≡ cl.Items [] None → tokens.now ≡ many dimension_then ds (builtin_then b (operand_then o k)) → Reads r (x.Converted (d.Sized first ∷ ds) b o) k) }
{
    if is_dimension(&closing, tokens) {
        let size = Boxed::new(alloc, first)?;
        return after_dimension(alloc, Dimension::Sized(size), tokens, inner);
    }
    let Some(operand) = bracket_operand(alloc, first, closing)? else {
        return Ok(None);
    };
    after_first(alloc, operand, tokens, inner)
}

/// An expression that begins with a square bracket.
pub fn bracketed_expression<
    'a,
    F: Fn(Global, &[Token]) -> Result<Option<(Expr, &[Token])>, AllocError>,
>(alloc: Global, tokens: &'a [Token], inner: &F) -> Result<Option<(Expr, &'a [Token])>, AllocError>
    requires inner { ReadsExpr (length tokens.now) (F.pre inner.now) (F.post inner.now) }
    ensures found { IfOk result (λ r. IfSome r (λ y. tokens.now ≡ expr_then y.0 y.1.now)) }
    ensures shorter { IfOk result (λ r. IfSome r (λ y. length y.1.now < length tokens.now)) }
    ensures only { IfOk result (λ r. (z : AnExpr) (k : List AToken) → begin_of tokens.now ≡ be.Bracket → IsEndOfRun k → tokens.now ≡ expr_then z k → Reads r z k) }
{
    let Some(begun) = after(tokens, Symbol::OpenIndex) else {
        return Ok(None);
    };
    let Some((found, rest)) = in_brackets(alloc, begun, inner)? else {
        return Ok(None);
    };
    match found {
        Bracket::Open => after_dimension(alloc, Dimension::Open, rest, inner),
        Bracket::Closed(first, closing) => after_brackets(alloc, first, closing, rest, inner),
    }
}
