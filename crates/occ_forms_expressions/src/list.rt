//! Parses lists of expressions: subscripts, further items after commas, arguments of a call.
ghost use Rattle.occ_forms_expressions.specs.Reading.{IsEnd, IsEndOfItems, IsNot, Reads, ReadsExpr};
ghost use Rattle.occ_forms_expressions.specs.Spelling.{arguments_of, expr_then, many, next_item_of, subscript_of};
ghost use Rattle.occ_forms_expressions.specs.declared.tree.Expr.{Expr as AnExpr};
ghost use Rattle.occ_lines.specs.declared.token.Symbol.TheVariants as s;
ghost use Rattle.occ_lines.specs.declared.token.Token.TheVariants as t;
ghost use Rattle.occ_lines.specs.declared.token.Token.{Token as AToken};
ghost use Rattle.std.specs.Prelude.{IfOk, IfSome, List, length, true, ◌+◌, ◌∷◌, ◌≡◌, ◌≤◌, ◌<◌};

use super::token_reader::after;
use super::tree::Expr;
use occ_base::Items;
use occ_lines::{Symbol, Token};
use std::alloc::{AllocError, Global};

/// An expression and the symbol that closes it.
pub fn closed<'a, F: Fn(Global, &[Token]) -> Result<Option<(Expr, &[Token])>, AllocError>>(
    alloc: Global,
    tokens: &'a [Token],
    close: Symbol,
    inner: &F,
) -> Result<Option<(Expr, &'a [Token])>, AllocError>
    requires end { (k : List AToken) → IsEnd (t.Symbol close ∷ k) }
    requires inner { ReadsExpr (length tokens.now + 1) (F.pre inner.now) (F.post inner.now) }
    ensures found { IfOk result (λ r. IfSome r (λ x. tokens.now ≡ expr_then x.0 (t.Symbol close ∷ x.1.now))) }
    ensures shorter { IfOk result (λ r. IfSome r (λ x. length x.1.now < length tokens.now)) }
    ensures only { IfOk result (λ r. (e : AnExpr) (k : List AToken) → tokens.now ≡ expr_then e (t.Symbol close ∷ k) → Reads r e k) }
{
    let Some((found, rest)) = inner(alloc, tokens)? else {
        return Ok(None);
    };
    let Some(rest) = after(rest, close) else {
        return Ok(None);
    };
    Ok(Some((found, rest)))
}

/// Subscripts, perhaps none.
#[inline(always)]
pub fn subscripts<'a, F: Fn(Global, &[Token]) -> Result<Option<(Expr, &[Token])>, AllocError>>(
    alloc: Global,
    tokens: &'a [Token],
    inner: &F,
) -> Result<Option<(Items<Expr>, &'a [Token])>, AllocError>
    requires inner { ReadsExpr (length tokens.now) (F.pre inner.now) (F.post inner.now) }
    ensures found { IfOk result (λ r. IfSome r (λ x. tokens.now ≡ many subscript_of x.0 x.1.now)) }
    ensures shorter { IfOk result (λ r. IfSome r (λ x. length x.1.now ≤ length tokens.now)) }
    ensures only { IfOk result (λ r. (es : List AnExpr) (k : List AToken) → IsNot s.OpenIndex k → tokens.now ≡ many subscript_of es k → Reads r es k) }
{
    let mut found = Items::new(alloc);
    let mut rest = tokens;
    while let Some(begun) = after(rest, Symbol::OpenIndex) {
        let Some((index, next)) = closed(alloc, begun, Symbol::CloseIndex, inner)? else {
            return Ok(None);
        };
        found.push(index)?;
        rest = next;
    }
    Ok(Some((found, rest)))
}

/// Further expressions of a list, each after a comma, perhaps none.
pub fn more_items<'a, F: Fn(Global, &[Token]) -> Result<Option<(Expr, &[Token])>, AllocError>>(
    alloc: Global,
    tokens: &'a [Token],
    inner: &F,
) -> Result<Option<(Items<Expr>, &'a [Token])>, AllocError>
    requires inner { ReadsExpr (length tokens.now) (F.pre inner.now) (F.post inner.now) }
    ensures found { IfOk result (λ r. IfSome r (λ x. tokens.now ≡ many next_item_of x.0 x.1.now)) }
    ensures shorter { IfOk result (λ r. IfSome r (λ x. length x.1.now ≤ length tokens.now)) }
    ensures only { IfOk result (λ r. (es : List AnExpr) (k : List AToken) → IsEndOfItems k → tokens.now ≡ many next_item_of es k → Reads r es k) }
{
    let mut found = Items::new(alloc);
    let mut rest = tokens;
    while let Some(begun) = after(rest, Symbol::Comma) {
        let Some((item, next)) = inner(alloc, begun)? else {
            return Ok(None);
        };
        found.push(item)?;
        rest = next;
    }
    Ok(Some((found, rest)))
}

/// What is called with, of which the first bracket is read.
pub fn arguments<'a, F: Fn(Global, &[Token]) -> Result<Option<(Expr, &[Token])>, AllocError>>(
    alloc: Global,
    tokens: &'a [Token],
    inner: &F,
) -> Result<Option<(Items<Expr>, &'a [Token])>, AllocError>
    requires inner { ReadsExpr (length tokens.now + 1) (F.pre inner.now) (F.post inner.now) }
    ensures found { IfOk result (λ r. IfSome r (λ x. t.Symbol s.Open ∷ tokens.now ≡ arguments_of x.0 x.1.now)) }
    ensures shorter { IfOk result (λ r. IfSome r (λ x. length x.1.now < length tokens.now)) }
    ensures only { IfOk result (λ r. (es : List AnExpr) (k : List AToken) → t.Symbol s.Open ∷ tokens.now ≡ arguments_of es k → Reads r es k) }
{
    if let Some(rest) = after(tokens, Symbol::Close) {
        return Ok(Some((Items::new(alloc), rest)));
    }
    let Some((first, rest)) = inner(alloc, tokens)? else {
        return Ok(None);
    };
    let mut found = Items::new(alloc);
    found.push(first)?;
    let Some((more, rest)) = more_items(alloc, rest, inner)? else {
        return Ok(None);
    };
    let Some(rest) = after(rest, Symbol::Close) else {
        return Ok(None);
    };
    found.append(more)?;
    Ok(Some((found, rest)))
}

/// The list of the first and those after it.
pub fn joined<T: Drop>(alloc: Global, first: T, more: Items<T>) -> Result<Items<T>, AllocError>
    ensures { IfOk result (λ all. all ≡ first ∷ more) }
{
    let mut all = Items::new(alloc);
    all.push(first)?;
    all.append(more)?;
    Ok(all)
}
