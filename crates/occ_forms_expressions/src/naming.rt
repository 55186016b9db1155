//! Parses expressions that begin with a name: an element, a call, or a conversion to the type of that name.
ghost use Rattle.occ_forms_expressions.specs.inside.Brackets.{IsBracketed, closing_then, narrow_of};
ghost use Rattle.occ_forms_expressions.specs.Reading.{IsAfter, IsEndOfRun, IsNot, Reads, ReadsExpr, begin_of, is_plain_begin};
ghost use Rattle.occ_forms_expressions.specs.Spelling.{arguments_of, expr_then, many, operand_then, subscript_of};
ghost use Rattle.occ_forms_expressions.specs.inside.Tails.{joined, tail_then};
ghost use Rattle.occ_forms_expressions.specs.declared.begin.Begin.TheVariants as be;
ghost use Rattle.occ_forms_expressions.specs.declared.bracket.Closing.TheVariants as cl;
ghost use Rattle.occ_forms_expressions.specs.declared.bracket.Closing.{Closing as SomeClosing};
ghost use Rattle.occ_forms_expressions.specs.declared.tail.Tail.{Tail as ATail};
ghost use Rattle.occ_forms_expressions.specs.declared.tree.Element.TheVariants as e;
ghost use Rattle.occ_forms_expressions.specs.declared.tree.Expr.TheVariants as x;
ghost use Rattle.occ_forms_expressions.specs.declared.tree.Expr.{Expr as AnExpr};
ghost use Rattle.occ_forms_expressions.specs.declared.tree.NamedOperand.{NamedOperand as ANamedOperand};
ghost use Rattle.occ_forms_expressions.specs.declared.tree.Operand.TheVariants as o;
ghost use Rattle.occ_forms_expressions.specs.declared.tree.Operand.{Operand as AnOperand};
ghost use Rattle.occ_lines.specs.declared.token.Symbol.TheVariants as s;
ghost use Rattle.occ_lines.specs.declared.token.Token.TheVariants as t;
ghost use Rattle.occ_lines.specs.declared.token.Token.{Token as AToken};
ghost use Rattle.std.specs.Prelude.{IfOk, IfSome, IsTrue, List, None, Some, [], length, ℕ, ◌+◌, ◌∷◌, ◌≡◌, ◌≤◌, ◌<◌, ◌↔◌};

use super::begin::{Begin, begins};
use super::bracket::{self, Closing};
use super::conversion::{bracket_converted, name_converted};
use super::list::subscripts;
use super::operand::after_name;
use super::tail::{after_first, ends_run};
use super::token_reader::{after, name};
use super::tree::{Element, Expr, Operand};
use occ_base::{Items, Name, one_item};
use occ_lines::{Symbol, Token};
use std::alloc::{AllocError, Global};

/// An expression that begins with a call, or with an element that has no subscript, of which the name is read.
#[inline(never)]
fn name_then<'a, F: Fn(Global, &[Token]) -> Result<Option<(Expr, &[Token])>, AllocError>>(
    alloc: Global,
    name: Name,
    tokens: &'a [Token],
    inner: &F,
) -> Result<Option<(Expr, &'a [Token])>, AllocError>
    requires inner { ReadsExpr (length tokens.now) (F.pre inner.now) (F.post inner.now) }
    ensures found { IfOk result (λ r. IfSome r (λ y. t.Name name ∷ tokens.now ≡ expr_then y.0 y.1.now)) }
    ensures shorter { IfOk result (λ r. IfSome r (λ y. length y.1.now ≤ length tokens.now)) }
    ensures element { IfOk result (λ r. (es : List AnExpr) (z : ATail) (k : List AToken) → IsEndOfRun k → tokens.now ≡ many subscript_of es (tail_then z k) → Reads r (joined (o.Element (e.Named name es)) z) k) }
    ensures call { IfOk result (λ r. (es : List AnExpr) (z : ATail) (k : List AToken) → IsEndOfRun k → tokens.now ≡ arguments_of es (tail_then z k) → Reads r (joined (o.Call name es) z) k) }
{
    let Some((first, rest)) = after_name(alloc, name, tokens, inner)? else {
        return Ok(None);
    };
    after_first(alloc, first, rest, inner)
}

/// An expression that begins with a call, or with an element that has no subscript, of which the name is read. Most are
/// the name alone.
#[inline(always)]
pub fn plain_name<'a, F: Fn(Global, &[Token]) -> Result<Option<(Expr, &[Token])>, AllocError>>(
    alloc: Global,
    name: Name,
    tokens: &'a [Token],
    inner: &F,
) -> Result<Option<(Expr, &'a [Token])>, AllocError>
    requires inner { ReadsExpr (length tokens.now) (F.pre inner.now) (F.post inner.now) }
    ensures found { IfOk result (λ r. IfSome r (λ y. t.Name name ∷ tokens.now ≡ expr_then y.0 y.1.now)) }
    ensures shorter { IfOk result (λ r. IfSome r (λ y. length y.1.now ≤ length tokens.now)) }
    ensures element { IfOk result (λ r. (es : List AnExpr) (z : ATail) (k : List AToken) → IsEndOfRun k → tokens.now ≡ many subscript_of es (tail_then z k) → Reads r (joined (o.Element (e.Named name es)) z) k) }
    ensures call { IfOk result (λ r. (es : List AnExpr) (z : ATail) (k : List AToken) → IsEndOfRun k → tokens.now ≡ arguments_of es (tail_then z k) → Reads r (joined (o.Call name es) z) k) }
{
    if ends_run(tokens) {
        let element = Element::Named(name, Items::new(alloc));
        return Ok(Some((Expr::Alone(Operand::Element(element)), tokens)));
    }
    name_then(alloc, name, tokens, inner)
}

/// An expression that begins with an element, of which the first subscript is read.
pub fn after_subscript<'a, F: Fn(Global, &[Token]) -> Result<Option<(Expr, &[Token])>, AllocError>>(
    alloc: Global,
    name: Name,
    index: Expr,
    tokens: &'a [Token],
    inner: &F,
) -> Result<Option<(Expr, &'a [Token])>, AllocError>
    requires inner { ReadsExpr (length tokens.now) (F.pre inner.now) (F.post inner.now) }
    ensures found { IfOk result (λ r. IfSome r (λ y. t.Name name ∷ subscript_of index tokens.now ≡ expr_then y.0 y.1.now)) }
    ensures shorter { IfOk result (λ r. IfSome r (λ y. length y.1.now ≤ length tokens.now)) }
    ensures only { IfOk result (λ r. (es : List AnExpr) (z : ATail) (k : List AToken) → IsEndOfRun k → tokens.now ≡ many subscript_of es (tail_then z k) → Reads r (joined (o.Element (e.Named name (index ∷ es))) z) k) }
{
    let mut all = one_item(alloc, index)?;
    let Some((more, rest)) = subscripts(alloc, tokens, inner)? else {
        return Ok(None);
    };
    all.append(more)?;
    let element = Element::Named(name, all);
    after_first(alloc, Operand::Element(element), rest, inner)
}

/// Whether it is one item alone: what a subscript, a sized dimension and a table of one item have.
pub fn is_single(closing: &Closing) -> bool
    ensures { IsTrue result ↔ (closing.now ≡ cl.Items [] None) }
{
    match closing {
        Closing::Items(more, None) => more.is_empty(),
        Closing::Items(_, Some(_)) | Closing::Segment(_, _) => false,
    }
}

/// What follows the bracket that closes one item alone, where no type follows it.
fn after_single(tokens: &[Token]) -> Option<&[Token]>
    ensures closed { IfSome result (λ rest. tokens.now ≡ t.Symbol s.CloseIndex ∷ rest.now) }
    ensures plain { IfSome result (λ rest. IsNot s.Open rest.now) }
{
    let rest = after(tokens, Symbol::CloseIndex)?;
    match after(rest, Symbol::Open) {
        Some(_) => None,
        None => Some(rest),
    }
}

/// An expression that begins with a name and brackets, which are read: the subscript of an element, or a conversion of
/// what stands in the brackets.
#[inline(never)]
pub fn after_index<'a, F: Fn(Global, &[Token]) -> Result<Option<(Expr, &[Token])>, AllocError>>(
    alloc: Global,
    name: Name,
    first: Expr,
    closing: Closing,
    tokens: &'a [Token],
    inner: &F,
) -> Result<Option<(Expr, &'a [Token])>, AllocError>
    requires inner { ReadsExpr (length tokens.now) (F.pre inner.now) (F.post inner.now) }
    ensures found { IfOk result (λ r. IfSome r (λ y. t.Name name ∷ t.Symbol s.OpenIndex ∷ expr_then first (closing_then closing tokens.now) ≡ expr_then y.0 y.1.now)) }
    ensures shorter { IfOk result (λ r. IfSome r (λ y. length y.1.now ≤ length tokens.now)) }
    ensures element { IfOk result (λ r. (es : List AnExpr) (z : ATail) (k : List AToken) → IsEndOfRun k → closing ≡ cl.Items [] None → tokens.now ≡ many subscript_of es (tail_then z k) → Reads r (joined (o.Element (e.Named name (first ∷ es))) z) k) }
    ensures converted { IfOk result (λ r. (p : AnOperand) (q : ANamedOperand) → IsBracketed first closing (Some p) → narrow_of p ≡ Some q → Reads r (x.Named name q) tokens.now) }
{
    if is_single(&closing) {
        return after_subscript(alloc, name, first, tokens, inner);
    }
    let Some(found) = bracket_converted(alloc, name, first, closing)? else {
        return Ok(None);
    };
    Ok(Some((found, tokens)))
}

/// An expression that begins with a name and a bracket, which are read: the subscript of an element, or a conversion of
/// what stands in brackets.
pub fn subscripted<'a, F: Fn(Global, &[Token]) -> Result<Option<(Expr, &[Token])>, AllocError>>(
    alloc: Global,
    name: Name,
    tokens: &'a [Token],
    inner: &F,
) -> Result<Option<(Expr, &'a [Token])>, AllocError>
    requires inner { ReadsExpr (length tokens.now + 1) (F.pre inner.now) (F.post inner.now) }
    ensures found { IfOk result (λ r. IfSome r (λ y. t.Name name ∷ t.Symbol s.OpenIndex ∷ tokens.now ≡ expr_then y.0 y.1.now)) }
    ensures shorter { IfOk result (λ r. IfSome r (λ y. length y.1.now < length tokens.now)) }
    ensures element { IfOk result (λ r. (i : AnExpr) (es : List AnExpr) (z : ATail) (k : List AToken) → IsEndOfRun k → tokens.now ≡ expr_then i (t.Symbol s.CloseIndex ∷ many subscript_of es (tail_then z k)) → Reads r (joined (o.Element (e.Named name (i ∷ es))) z) k) }
    ensures converted { IfOk result (λ r. (i : AnExpr) (c : SomeClosing) (p : AnOperand) (q : ANamedOperand) (k : List AToken) → IsAfter k → IsBracketed i c (Some p) → narrow_of p ≡ Some q → tokens.now ≡ expr_then i (closing_then c k) → Reads r (x.Named name q) k) }
{
    let Some((first, rest)) = inner(alloc, tokens)? else {
        return Ok(None);
    };
    if let Some(next) = after_single(rest) {
        return after_subscript(alloc, name, first, next, inner);
    }
    let Some((closing, rest)) = bracket::after_first(alloc, rest, inner)? else {
        return Ok(None);
    };
    after_index(alloc, name, first, closing, rest, inner)
}

/// Whether a name, a literal, TRUE or FALSE stands first.
fn begins_plain(tokens: &[Token]) -> bool
    ensures { result ≡ is_plain_begin (begin_of tokens.now) }
{
    matches!(begins(tokens), Begin::Name | Begin::Value)
}

/// An expression that begins with a name: an element or a call, or a conversion to the type of that name.
pub fn named_expression<
    'a,
    F: Fn(Global, &[Token]) -> Result<Option<(Expr, &[Token])>, AllocError>,
>(alloc: Global, tokens: &'a [Token], inner: &F) -> Result<Option<(Expr, &'a [Token])>, AllocError>
    requires inner { ReadsExpr (length tokens.now) (F.pre inner.now) (F.post inner.now) }
    ensures found { IfOk result (λ r. IfSome r (λ y. tokens.now ≡ expr_then y.0 y.1.now)) }
    ensures shorter { IfOk result (λ r. IfSome r (λ y. length y.1.now < length tokens.now)) }
    ensures only { IfOk result (λ r. (z : AnExpr) (k : List AToken) → begin_of tokens.now ≡ be.Name → IsEndOfRun k → tokens.now ≡ expr_then z k → Reads r z k) }
{
    let Some((name, rest)) = name(alloc, tokens)? else {
        return Ok(None);
    };
    if let Some(begun) = after(rest, Symbol::OpenIndex) {
        return subscripted(alloc, name, begun, inner);
    }
    if begins_plain(rest) {
        return name_converted(alloc, name, rest, inner);
    }
    plain_name(alloc, name, rest, inner)
}
