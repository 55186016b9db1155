//! Parses what follows `el ?`: items, `AFTER e`, `CASE n; ..`, or the head of a case input.
ghost use Rattle.occ_forms_expressions.specs.Spelling.{element_then, expr_then, many};
ghost use Rattle.occ_forms_expressions.specs.declared.tree.Element.{Element as AnElement};
ghost use Rattle.occ_forms_expressions.specs.declared.tree.Expr.{Expr as AnExpr};
ghost use Rattle.occ_forms.specs.inside.Received.{received_after, received_tokens};
ghost use Rattle.occ_forms.specs.Spelling.{input_item_then, tagged};
ghost use Rattle.occ_forms.specs.declared.input.Received.TheVariants as re;
ghost use Rattle.occ_forms.specs.declared.input.Received.{Received as SomeReceived};
ghost use Rattle.occ_forms.specs.declared.tree.Input.TheVariants as ip;
ghost use Rattle.occ_forms.specs.declared.tree.InputItem.{InputItem as AnInputItem};
ghost use Rattle.occ_lines.specs.declared.token.Symbol.TheVariants as s;
ghost use Rattle.occ_lines.specs.declared.token.Token.TheVariants as t;
ghost use Rattle.occ_lines.specs.declared.token.Token.{Token as AToken};
ghost use Rattle.occ_lines.specs.declared.token.Word.TheVariants as w;
ghost use Rattle.occ_forms.specs.SpecificationSpelling.{listed};
ghost use Rattle.std.specs.Prelude.{IfOk, IfSome, List, Some, [], ℕ, ◌∷◌, ◌≡◌};

use super::construct::one_expression;
use super::from_tokens::{alone, list, more};
use super::tree::Input;
use occ_forms_expressions::{Element, after, after_word, element, name};
use occ_lines::{Symbol, Token, Word};
use std::alloc::{AllocError, Global};

/// What a line says that begins with `el ?`.
#[derive(Drop)]
pub enum Received {
    Input(Input),
    /// `el ? CASE`
    Case(Element),
}

/// A delayed input, of which `AFTER` is read.
pub fn delayed(
    alloc: Global,
    from: Element,
    tokens: &[Token],
) -> Result<Option<Received>, AllocError>
    ensures found { IfOk result (λ r. IfSome r (λ x. received_after from (t.Word w.After ∷ tokens.now) ≡ received_tokens x)) }
    ensures only { IfOk result (λ r. (e : AnExpr) → tokens.now ≡ expr_then e [] → r ≡ Some (re.Input (ip.After from e))) }
{
    let Some(time) = one_expression(alloc, tokens)? else {
        return Ok(None);
    };
    Ok(Some(Received::Input(Input::After(from, time))))
}

/// An input of one variant or the head of a selecting input, of which `CASE` is read.
pub fn variant(
    alloc: Global,
    from: Element,
    tokens: &[Token],
) -> Result<Option<Received>, AllocError>
    ensures found { IfOk result (λ r. IfSome r (λ x. received_after from (t.Word w.Case ∷ tokens.now) ≡ received_tokens x)) }
    ensures case { IfOk result (λ r. tokens.now ≡ [] → r ≡ Some (re.Case from)) }
    ensures tagged { IfOk result (λ r. (n : List ℕ) (xs : List AnInputItem) → tokens.now ≡ tagged input_item_then n xs [] → r ≡ Some (re.Input (ip.Tagged from n xs))) }
{
    if tokens.is_empty() {
        return Ok(Some(Received::Case(from)));
    }
    let Some((tag, rest)) = name(alloc, tokens)? else {
        return Ok(None);
    };
    let Some((found, rest)) = more(alloc, rest, Symbol::Semicolon)? else {
        return Ok(None);
    };
    Ok(alone(Received::Input(Input::Tagged(from, tag, found)), rest))
}

/// An input of items, of which `?` is read.
pub fn plain(alloc: Global, from: Element, tokens: &[Token]) -> Result<Option<Received>, AllocError>
    ensures found { IfOk result (λ r. IfSome r (λ x. received_after from tokens.now ≡ received_tokens x)) }
    ensures only { IfOk result (λ r. (x : AnInputItem) (xs : List AnInputItem) → tokens.now ≡ listed s.Semicolon input_item_then x xs [] → r ≡ Some (re.Input (ip.Plain from x xs))) }
{
    let Some((first, more, rest)) = list(alloc, tokens, Symbol::Semicolon)? else {
        return Ok(None);
    };
    Ok(alone(Received::Input(Input::Plain(from, first, more)), rest))
}

/// What is received, of which `?` is read.
pub fn after_input(
    alloc: Global,
    from: Element,
    tokens: &[Token],
) -> Result<Option<Received>, AllocError>
    ensures found { IfOk result (λ r. IfSome r (λ x. received_after from tokens.now ≡ received_tokens x)) }
    ensures plain { IfOk result (λ r. (x : AnInputItem) (xs : List AnInputItem) → tokens.now ≡ listed s.Semicolon input_item_then x xs [] → r ≡ Some (re.Input (ip.Plain from x xs))) }
    ensures after { IfOk result (λ r. (e : AnExpr) → tokens.now ≡ t.Word w.After ∷ expr_then e [] → r ≡ Some (re.Input (ip.After from e))) }
    ensures case { IfOk result (λ r. tokens.now ≡ t.Word w.Case ∷ [] → r ≡ Some (re.Case from)) }
    ensures tagged { IfOk result (λ r. (n : List ℕ) (xs : List AnInputItem) → tokens.now ≡ t.Word w.Case ∷ tagged input_item_then n xs [] → r ≡ Some (re.Input (ip.Tagged from n xs))) }
{
    if let Some(rest) = after_word(tokens, Word::After) {
        return delayed(alloc, from, rest);
    }
    if let Some(rest) = after_word(tokens, Word::Case) {
        return variant(alloc, from, rest);
    }
    plain(alloc, from, tokens)
}

/// What is received from where.
pub fn reception(alloc: Global, tokens: &[Token]) -> Result<Option<Received>, AllocError>
    ensures found { IfOk result (λ r. IfSome r (λ x. tokens.now ≡ received_tokens x)) }
    ensures only { IfOk result (λ r. (x : SomeReceived) → tokens.now ≡ received_tokens x → r ≡ Some x) }
{
    let Some((from, rest)) = element(alloc, tokens)? else {
        return Ok(None);
    };
    let Some(rest) = after(rest, Symbol::Input) else {
        return Ok(None);
    };
    after_input(alloc, from, rest)
}
