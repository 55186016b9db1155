//! Parses operands: elements, calls, tables, segments, expressions in parentheses, and literals, perhaps with their type.
ghost use Rattle.occ_forms_expressions.specs.inside.Brackets.{IsBracketed, closing_then, narrow_of};
ghost use Rattle.occ_forms_expressions.specs.Reading.{IsAfter, IsNot, Reads, ReadsExpr};
ghost use Rattle.occ_forms_expressions.specs.Spelling.{arguments_of, bracketed, decoration_of, expr_then, literal_token, many, operand_then, subscript_of, truth_word};
ghost use Rattle.occ_forms_expressions.specs.declared.bracket.Closing.{Closing as SomeClosing};
ghost use Rattle.occ_forms_expressions.specs.declared.tree.Element.{Element as AnElement};
ghost use Rattle.occ_forms_expressions.specs.declared.tree.Element.TheVariants as e;
ghost use Rattle.occ_forms_expressions.specs.declared.tree.Expr.{Expr as AnExpr};
ghost use Rattle.occ_forms_expressions.specs.declared.tree.Expr.TheVariants as x;
ghost use Rattle.occ_forms_expressions.specs.declared.tree.Literal.{Literal as ALiteral};
ghost use Rattle.occ_forms_expressions.specs.declared.tree.Operand.TheVariants as o;
ghost use Rattle.occ_forms_expressions.specs.declared.tree.Operand.{Operand as AnOperand};
ghost use Rattle.occ_forms_expressions.specs.declared.tree.TypeForm.{TypeForm as ATypeForm};
ghost use Rattle.occ_lines.specs.declared.token.Symbol.TheVariants as s;
ghost use Rattle.occ_lines.specs.declared.token.Token.TheVariants as t;
ghost use Rattle.occ_lines.specs.declared.token.Token.{Token as AToken};
ghost use Rattle.std.specs.Prelude.{Bool, IfOk, IfSome, List, MatchOption, Some, length, ℕ, ◌+◌, ◌∷◌, ◌≡◌, ◌≢◌, ◌≤◌, ◌<◌};

use super::begin::{Begin, begins};
use super::bracket::{Bracket, Closing, in_brackets};
use super::list::{arguments, closed, subscripts};
use super::part::{literal, truth};
use super::token_reader::{after, first, name};
use super::tree::{Element, Expr, Literal, NamedOperand, Operand};
use super::types::perhaps_decoration;
use occ_base::{Boxed, Name};
use occ_lines::{Symbol, Token};
use std::alloc::{AllocError, Global};

/// The element that an expression is, if it is one alone.
pub fn element_in(expr: Expr) -> Option<Element>
    ensures { MatchOption result ((el : AnElement) → expr ≢ x.Alone (o.Element el)) (λ el. expr ≡ x.Alone (o.Element el)) }
{
    let Expr::Alone(operand) = expr else {
        return None;
    };
    let Operand::Element(element) = operand else {
        return None;
    };
    Some(element)
}

/// The operand that stands in square brackets: a table, or a segment if the first expression is an element.
pub fn bracket_operand(
    alloc: Global,
    first: Expr,
    closing: Closing,
) -> Result<Option<Operand>, AllocError>
    ensures { IfOk result (λ r. IsBracketed first closing r) }
{
    match closing {
        Closing::Items(more, decoration) => {
            let first = Boxed::new(alloc, first)?;
            let Some(form) = decoration else {
                return Ok(Some(Operand::Table(first, more)));
            };
            Ok(Some(Operand::DecoratedTable(first, more, form)))
        }
        Closing::Segment(bounds, found) => {
            let Some(element) = element_in(first) else {
                return Ok(None);
            };
            let element = Boxed::new(alloc, element)?;
            let segment = Element::Segment(element, bounds, found);
            Ok(Some(Operand::Element(segment)))
        }
    }
}

/// The operand as it may stand directly after the name of a type.
#[tactic(auto, using(crate::proofs::Narrow::narrow_rules))]
pub fn narrow(alloc: Global, operand: Operand) -> Result<Option<NamedOperand>, AllocError>
    ensures { IfOk result (λ r. r ≡ narrow_of operand) }
{
    match operand {
        Operand::Element(element) => Ok(Some(NamedOperand::Element(element))),
        Operand::Literal(literal) => Ok(Some(NamedOperand::Literal(literal))),
        Operand::Decorated(literal, form) => Ok(Some(NamedOperand::Decorated(literal, form))),
        Operand::Truth(truth) => Ok(Some(NamedOperand::Truth(truth))),
        Operand::Parens(_) => Ok(None),
        Operand::Table(first, mut more) => {
            if more.len() == 0 {
                return Ok(None);
            }
            let second = Boxed::new(alloc, more.remove(0))?;
            Ok(Some(NamedOperand::Table(first, second, more)))
        }
        Operand::DecoratedTable(first, more, form) => {
            Ok(Some(NamedOperand::DecoratedTable(first, more, form)))
        }
        Operand::Call(name, found) => Ok(Some(NamedOperand::Call(name, found))),
    }
}

/// An element or a call of which the name is read.
#[inline(always)]
pub fn after_name<'a, F: Fn(Global, &[Token]) -> Result<Option<(Expr, &[Token])>, AllocError>>(
    alloc: Global,
    name: Name,
    tokens: &'a [Token],
    inner: &F,
) -> Result<Option<(Operand, &'a [Token])>, AllocError>
    requires inner { ReadsExpr (length tokens.now) (F.pre inner.now) (F.post inner.now) }
    ensures found { IfOk result (λ r. IfSome r (λ y. t.Name name ∷ tokens.now ≡ operand_then y.0 y.1.now)) }
    ensures shorter { IfOk result (λ r. IfSome r (λ y. length y.1.now ≤ length tokens.now)) }
    ensures element { IfOk result (λ r. (es : List AnExpr) (k : List AToken) → IsAfter k → tokens.now ≡ many subscript_of es k → Reads r (o.Element (e.Named name es)) k) }
    ensures call { IfOk result (λ r. (es : List AnExpr) (k : List AToken) → tokens.now ≡ arguments_of es k → Reads r (o.Call name es) k) }
{
    if let Some(begun) = after(tokens, Symbol::Open) {
        let Some((found, rest)) = arguments(alloc, begun, inner)? else {
            return Ok(None);
        };
        return Ok(Some((Operand::Call(name, found), rest)));
    }
    let Some((found, rest)) = subscripts(alloc, tokens, inner)? else {
        return Ok(None);
    };
    let element = Element::Named(name, found);
    Ok(Some((Operand::Element(element), rest)))
}

/// A literal, perhaps with its type, of which the token is read.
pub fn after_literal<'a, F: Fn(Global, &[Token]) -> Result<Option<(Expr, &[Token])>, AllocError>>(
    alloc: Global,
    literal: Literal,
    tokens: &'a [Token],
    inner: &F,
) -> Result<Option<(Operand, &'a [Token])>, AllocError>
    requires inner { ReadsExpr (length tokens.now) (F.pre inner.now) (F.post inner.now) }
    ensures found { IfOk result (λ r. IfSome r (λ y. literal_token literal ∷ tokens.now ≡ operand_then y.0 y.1.now)) }
    ensures shorter { IfOk result (λ r. IfSome r (λ y. length y.1.now ≤ length tokens.now)) }
    ensures plain { IfOk result (λ r. (k : List AToken) → IsNot s.Open k → tokens.now ≡ k → Reads r (o.Literal literal) k) }
    ensures decorated { IfOk result (λ r. (ty : ATypeForm) (k : List AToken) → IsNot s.Open k → tokens.now ≡ decoration_of ty k → Reads r (o.Decorated literal ty) k) }
{
    let Some((decoration, rest)) = perhaps_decoration(alloc, tokens, inner)? else {
        return Ok(None);
    };
    match decoration {
        None => Ok(Some((Operand::Literal(literal), rest))),
        Some(form) => Ok(Some((Operand::Decorated(literal, form), rest))),
    }
}

/// A literal, perhaps with its type, `TRUE` or `FALSE`.
pub fn value<'a, F: Fn(Global, &[Token]) -> Result<Option<(Expr, &[Token])>, AllocError>>(
    alloc: Global,
    tokens: &'a [Token],
    inner: &F,
) -> Result<Option<(Operand, &'a [Token])>, AllocError>
    requires inner { ReadsExpr (length tokens.now) (F.pre inner.now) (F.post inner.now) }
    ensures found { IfOk result (λ r. IfSome r (λ y. tokens.now ≡ operand_then y.0 y.1.now)) }
    ensures shorter { IfOk result (λ r. IfSome r (λ y. length y.1.now < length tokens.now)) }
    ensures literal { IfOk result (λ r. (l : ALiteral) (k : List AToken) → IsNot s.Open k → tokens.now ≡ literal_token l ∷ k → Reads r (o.Literal l) k) }
    ensures decorated { IfOk result (λ r. (l : ALiteral) (ty : ATypeForm) (k : List AToken) → IsNot s.Open k → tokens.now ≡ literal_token l ∷ decoration_of ty k → Reads r (o.Decorated l ty) k) }
    ensures truth { IfOk result (λ r. (b : Bool) (k : List AToken) → tokens.now ≡ t.Word (truth_word b) ∷ k → Reads r (o.Truth b) k) }
{
    let Some((token, rest)) = first(tokens) else {
        return Ok(None);
    };
    if let Some(truth) = truth(token) {
        return Ok(Some((Operand::Truth(truth), rest)));
    }
    let Some(literal) = literal(alloc, token)? else {
        return Ok(None);
    };
    after_literal(alloc, literal, rest, inner)
}

/// An element or a call.
pub fn named<'a, F: Fn(Global, &[Token]) -> Result<Option<(Expr, &[Token])>, AllocError>>(
    alloc: Global,
    tokens: &'a [Token],
    inner: &F,
) -> Result<Option<(Operand, &'a [Token])>, AllocError>
    requires inner { ReadsExpr (length tokens.now) (F.pre inner.now) (F.post inner.now) }
    ensures found { IfOk result (λ r. IfSome r (λ y. tokens.now ≡ operand_then y.0 y.1.now)) }
    ensures shorter { IfOk result (λ r. IfSome r (λ y. length y.1.now < length tokens.now)) }
    ensures element { IfOk result (λ r. (n : List ℕ) (es : List AnExpr) (k : List AToken) → IsAfter k → tokens.now ≡ t.Name n ∷ many subscript_of es k → Reads r (o.Element (e.Named n es)) k) }
    ensures call { IfOk result (λ r. (n : List ℕ) (es : List AnExpr) (k : List AToken) → tokens.now ≡ t.Name n ∷ arguments_of es k → Reads r (o.Call n es) k) }
{
    let Some((name, rest)) = name(alloc, tokens)? else {
        return Ok(None);
    };
    after_name(alloc, name, rest, inner)
}

/// An expression in parentheses.
pub fn parens<'a, F: Fn(Global, &[Token]) -> Result<Option<(Expr, &[Token])>, AllocError>>(
    alloc: Global,
    tokens: &'a [Token],
    inner: &F,
) -> Result<Option<(Operand, &'a [Token])>, AllocError>
    requires inner { ReadsExpr (length tokens.now) (F.pre inner.now) (F.post inner.now) }
    ensures found { IfOk result (λ r. IfSome r (λ y. tokens.now ≡ operand_then y.0 y.1.now)) }
    ensures shorter { IfOk result (λ r. IfSome r (λ y. length y.1.now < length tokens.now)) }
    ensures parens { IfOk result (λ r. (x : AnExpr) (k : List AToken) → tokens.now ≡ bracketed (expr_then x) k → Reads r (o.Parens x) k) }
{
    let Some(begun) = after(tokens, Symbol::Open) else {
        return Ok(None);
    };
    let Some((found, rest)) = closed(alloc, begun, Symbol::Close, inner)? else {
        return Ok(None);
    };
    Ok(Some((Operand::Parens(Boxed::new(alloc, found)?), rest)))
}

/// A table or a segment.
pub fn table<'a, F: Fn(Global, &[Token]) -> Result<Option<(Expr, &[Token])>, AllocError>>(
    alloc: Global,
    tokens: &'a [Token],
    inner: &F,
) -> Result<Option<(Operand, &'a [Token])>, AllocError>
    requires inner { ReadsExpr (length tokens.now) (F.pre inner.now) (F.post inner.now) }
    ensures found { IfOk result (λ r. IfSome r (λ y. tokens.now ≡ operand_then y.0 y.1.now)) }
    ensures shorter { IfOk result (λ r. IfSome r (λ y. length y.1.now < length tokens.now)) }
    ensures only { IfOk result (λ r. (x : AnExpr) (c : SomeClosing) (y : AnOperand) (k : List AToken) → IsAfter k → IsBracketed x c (Some y) → tokens.now ≡ t.Symbol s.OpenIndex ∷ expr_then x (closing_then c k) → Reads r y k) }
{
    let Some(begun) = after(tokens, Symbol::OpenIndex) else {
        return Ok(None);
    };
    let Some((found, rest)) = in_brackets(alloc, begun, inner)? else {
        return Ok(None);
    };
    let Bracket::Closed(first, closing) = found else {
        return Ok(None);
    };
    let Some(operand) = bracket_operand(alloc, first, closing)? else {
        return Ok(None);
    };
    Ok(Some((operand, rest)))
}

/// An operand.
pub fn operand<'a, F: Fn(Global, &[Token]) -> Result<Option<(Expr, &[Token])>, AllocError>>(
    alloc: Global,
    tokens: &'a [Token],
    inner: &F,
) -> Result<Option<(Operand, &'a [Token])>, AllocError>
    requires inner { ReadsExpr (length tokens.now) (F.pre inner.now) (F.post inner.now) }
    ensures found { IfOk result (λ r. IfSome r (λ y. tokens.now ≡ operand_then y.0 y.1.now)) }
    ensures shorter { IfOk result (λ r. IfSome r (λ y. length y.1.now < length tokens.now)) }
    ensures only { IfOk result (λ r. (y : AnOperand) (k : List AToken) → IsAfter k → tokens.now ≡ operand_then y k → Reads r y k) }
{
    match begins(tokens) {
        Begin::Name => named(alloc, tokens, inner),
        Begin::Value => value(alloc, tokens, inner),
        Begin::Parens => parens(alloc, tokens, inner),
        Begin::Bracket => table(alloc, tokens, inner),
        Begin::Nothing | Begin::Extreme | Begin::Monadic | Begin::Builtin => Ok(None),
    }
}
