//! Parses what is in square brackets at the front of an expression: a dimension, a table `[e, ..]` or a segment `[el FROM
//! e FOR e]`.
ghost use Rattle.occ_forms_expressions.specs.inside.Brackets.{bounds_begin, bracket_then, closing_then, Fits};
ghost use Rattle.occ_forms_expressions.specs.Reading.{Reads, ReadsExpr};
ghost use Rattle.occ_forms_expressions.specs.Spelling.{bounds_then, expr_then};
ghost use Rattle.occ_forms_expressions.specs.declared.bracket.Bracket.TheVariants as br;
ghost use Rattle.occ_forms_expressions.specs.declared.bracket.Closing.TheVariants as cl;
ghost use Rattle.occ_forms_expressions.specs.declared.bracket.Closing.{Closing as SomeClosing};
ghost use Rattle.occ_forms_expressions.specs.declared.tree.Bounds.{Bounds as SomeBounds};
ghost use Rattle.occ_forms_expressions.specs.declared.tree.Expr.{Expr as AnExpr};
ghost use Rattle.occ_forms_expressions.specs.declared.tree.TypeForm.{TypeForm as ATypeForm};
ghost use Rattle.occ_lines.specs.declared.token.Symbol.TheVariants as s;
ghost use Rattle.occ_lines.specs.declared.token.Token.TheVariants as t;
ghost use Rattle.occ_lines.specs.declared.token.Token.{Token as AToken};
ghost use Rattle.occ_lines.specs.declared.token.Word.TheVariants as w;
ghost use Rattle.std.specs.Prelude.{IfOk, IfSome, List, Option, length, ◌+◌, ◌∷◌, ◌≡◌, ◌≤◌, ◌<◌};

use super::list::{closed, more_items, subscripts};
use super::token_reader::{after, after_word};
use super::tree::{Bounds, Expr, TypeForm};
use super::types::perhaps_decoration;
use occ_base::{Boxed, Items};
use occ_lines::{Symbol, Token, Word};
use std::alloc::{AllocError, Global};

/// What stands after the first expression in square brackets, up to its end.
#[derive(Drop)]
pub enum Closing {
    /// Further items of a table, perhaps none, and the type of the table, if it has one.
    Items(Items<Expr>, Option<Boxed<TypeForm>>),
    /// The bounds of a segment, and its subscripts.
    Segment(Boxed<Bounds>, Items<Expr>),
}

/// What stands in square brackets, up to its end.
#[derive(Drop)]
pub enum Bracket {
    /// `[]`
    Open,
    /// An expression, and what is after it.
    Closed(Expr, Closing),
}

/// The bounds of a segment of which `FROM` is read, and their bracket.
pub fn bounds_from<'a, F: Fn(Global, &[Token]) -> Result<Option<(Expr, &[Token])>, AllocError>>(
    alloc: Global,
    tokens: &'a [Token],
    inner: &F,
) -> Result<Option<(Bounds, &'a [Token])>, AllocError>
    requires inner { ReadsExpr (length tokens.now + 1) (F.pre inner.now) (F.post inner.now) }
    ensures found { IfOk result (λ r. IfSome r (λ x. t.Word w.From ∷ tokens.now ≡ bounds_then x.0 (t.Symbol s.CloseIndex ∷ x.1.now))) }
    ensures shorter { IfOk result (λ r. IfSome r (λ x. length x.1.now < length tokens.now)) }
    ensures only { IfOk result (λ r. (b : SomeBounds) (k : List AToken) → t.Word w.From ∷ tokens.now ≡ bounds_then b (t.Symbol s.CloseIndex ∷ k) → Reads r b k) }
{
    let Some((from, rest)) = inner(alloc, tokens)? else {
        return Ok(None);
    };
    let from = Boxed::new(alloc, from)?;
    if let Some(rest) = after(rest, Symbol::CloseIndex) {
        return Ok(Some((Bounds::From(from), rest)));
    }
    let Some(rest) = after_word(rest, Word::For) else {
        return Ok(None);
    };
    let Some((count, rest)) = closed(alloc, rest, Symbol::CloseIndex, inner)? else {
        return Ok(None);
    };
    let count = Boxed::new(alloc, count)?;
    Ok(Some((Bounds::FromFor(from, count), rest)))
}

/// The bounds of a segment, and their bracket.
pub fn bounds<'a, F: Fn(Global, &[Token]) -> Result<Option<(Expr, &[Token])>, AllocError>>(
    alloc: Global,
    tokens: &'a [Token],
    inner: &F,
) -> Result<Option<(Bounds, &'a [Token])>, AllocError>
    requires inner { ReadsExpr (length tokens.now) (F.pre inner.now) (F.post inner.now) }
    ensures found { IfOk result (λ r. IfSome r (λ x. tokens.now ≡ bounds_then x.0 (t.Symbol s.CloseIndex ∷ x.1.now))) }
    ensures shorter { IfOk result (λ r. IfSome r (λ x. length x.1.now < length tokens.now)) }
    ensures only { IfOk result (λ r. (b : SomeBounds) (k : List AToken) → tokens.now ≡ bounds_then b (t.Symbol s.CloseIndex ∷ k) → Reads r b k) }
{
    if let Some(rest) = after_word(tokens, Word::From) {
        return bounds_from(alloc, rest, inner);
    }
    let Some(rest) = after_word(tokens, Word::For) else {
        return Ok(None);
    };
    let Some((count, rest)) = closed(alloc, rest, Symbol::CloseIndex, inner)? else {
        return Ok(None);
    };
    Ok(Some((Bounds::For(Boxed::new(alloc, count)?), rest)))
}

/// The rest of a table after its first item.
pub fn table_end<'a, F: Fn(Global, &[Token]) -> Result<Option<(Expr, &[Token])>, AllocError>>(
    alloc: Global,
    tokens: &'a [Token],
    inner: &F,
) -> Result<Option<(Closing, &'a [Token])>, AllocError>
    requires inner { ReadsExpr (length tokens.now) (F.pre inner.now) (F.post inner.now) }
    ensures found { IfOk result (λ r. IfSome r (λ x. tokens.now ≡ closing_then x.0 x.1.now)) }
    ensures shorter { IfOk result (λ r. IfSome r (λ x. length x.1.now < length tokens.now)) }
    ensures only { IfOk result (λ r. (es : List AnExpr) (ty : Option ATypeForm) (k : List AToken) → Fits (cl.Items es ty) k → tokens.now ≡ closing_then (cl.Items es ty) k → Reads r (cl.Items es ty) k) }
{
    let Some((more, rest)) = more_items(alloc, tokens, inner)? else {
        return Ok(None);
    };
    let Some(rest) = after(rest, Symbol::CloseIndex) else {
        return Ok(None);
    };
    let Some((decoration, rest)) = perhaps_decoration(alloc, rest, inner)? else {
        return Ok(None);
    };
    Ok(Some((Closing::Items(more, decoration), rest)))
}

/// The rest of a segment after its element.
pub fn segment_end<'a, F: Fn(Global, &[Token]) -> Result<Option<(Expr, &[Token])>, AllocError>>(
    alloc: Global,
    tokens: &'a [Token],
    inner: &F,
) -> Result<Option<(Closing, &'a [Token])>, AllocError>
    requires inner { ReadsExpr (length tokens.now) (F.pre inner.now) (F.post inner.now) }
    ensures found { IfOk result (λ r. IfSome r (λ x. tokens.now ≡ closing_then x.0 x.1.now)) }
    ensures shorter { IfOk result (λ r. IfSome r (λ x. length x.1.now < length tokens.now)) }
    ensures only { IfOk result (λ r. (b : SomeBounds) (es : List AnExpr) (k : List AToken) → Fits (cl.Segment b es) k → tokens.now ≡ closing_then (cl.Segment b es) k → Reads r (cl.Segment b es) k) }
{
    let Some((bounds, rest)) = bounds(alloc, tokens, inner)? else {
        return Ok(None);
    };
    let bounds = Boxed::new(alloc, bounds)?;
    let Some((found, rest)) = subscripts(alloc, rest, inner)? else {
        return Ok(None);
    };
    Ok(Some((Closing::Segment(bounds, found), rest)))
}

/// Whether a segment's bounds begin.
pub fn begins_bounds(tokens: &[Token]) -> bool
    ensures { result ≡ bounds_begin tokens.now }
{
    matches!(tokens, [Token::Word(Word::From | Word::For), ..])
}

/// The rest after the first expression in brackets.
pub fn after_first<'a, F: Fn(Global, &[Token]) -> Result<Option<(Expr, &[Token])>, AllocError>>(
    alloc: Global,
    tokens: &'a [Token],
    inner: &F,
) -> Result<Option<(Closing, &'a [Token])>, AllocError>
    requires inner { ReadsExpr (length tokens.now) (F.pre inner.now) (F.post inner.now) }
    ensures found { IfOk result (λ r. IfSome r (λ x. tokens.now ≡ closing_then x.0 x.1.now)) }
    ensures shorter { IfOk result (λ r. IfSome r (λ x. length x.1.now < length tokens.now)) }
    ensures only { IfOk result (λ r. (c : SomeClosing) (k : List AToken) → Fits c k → tokens.now ≡ closing_then c k → Reads r c k) }
{
    if begins_bounds(tokens) {
        segment_end(alloc, tokens, inner)
    } else {
        table_end(alloc, tokens, inner)
    }
}

/// What stands in square brackets, of which the first bracket is read.
pub fn in_brackets<'a, F: Fn(Global, &[Token]) -> Result<Option<(Expr, &[Token])>, AllocError>>(
    alloc: Global,
    tokens: &'a [Token],
    inner: &F,
) -> Result<Option<(Bracket, &'a [Token])>, AllocError>
    requires inner { ReadsExpr (length tokens.now + 1) (F.pre inner.now) (F.post inner.now) }
    ensures found { IfOk result (λ r. IfSome r (λ x. t.Symbol s.OpenIndex ∷ tokens.now ≡ bracket_then x.0 x.1.now)) }
    ensures shorter { IfOk result (λ r. IfSome r (λ x. length x.1.now < length tokens.now)) }
    ensures open { IfOk result (λ r. (k : List AToken) → tokens.now ≡ t.Symbol s.CloseIndex ∷ k → Reads r br.Open k) }
    ensures only { IfOk result (λ r. (e : AnExpr) (c : SomeClosing) (k : List AToken) → Fits c k → tokens.now ≡ expr_then e (closing_then c k) → Reads r (br.Closed e c) k) }
{
    if let Some(rest) = after(tokens, Symbol::CloseIndex) {
        return Ok(Some((Bracket::Open, rest)));
    }
    let Some((first, rest)) = inner(alloc, tokens)? else {
        return Ok(None);
    };
    let Some((closing, rest)) = after_first(alloc, rest, inner)? else {
        return Ok(None);
    };
    Ok(Some((Bracket::Closed(first, closing), rest)))
}
