//! Parses lists of one kind of thing up to the end of a line or its colon.
ghost use Rattle.occ_forms_expressions.specs.Reading.{IsEnd, IsNot, IsNotCounted, Reads};
ghost use Rattle.occ_forms_expressions.specs.Spelling.{element_then, expr_then, many, type_form_then};
ghost use Rattle.occ_lines.specs.declared.token.Symbol.TheVariants as s;
ghost use Rattle.occ_lines.specs.declared.token.Token.TheVariants as t;
ghost use Rattle.occ_lines.specs.declared.token.Token.{Token as AToken};
ghost use Rattle.occ_forms.specs.SpecificationReading.{ReadsList};
ghost use Rattle.occ_forms.specs.SpecificationSpelling.{colon, in_parens, listed, next};
ghost use Rattle.std.specs.Prelude.{IfOk, IfSome, List, MatchOption, Some, [], length, ◌∷◌, ◌≡◌, ◌≢◌, ◌≤◌, ◌<◌};

use occ_base::Items;
use occ_forms_expressions::{
    Element, Expr, TypeForm, after, element, expression, joined, type_form,
};
use occ_lines::{Symbol, Token};
use std::alloc::{AllocError, Global};

/// What the front of tokens spells, where what follows may end it.
pub trait FromTokens: Drop {
    ghost spells: { Self → List AToken → List AToken };

    ghost ends: { List AToken → Type 0 };

    /// The one that the tokens begin with, and what follows it.
    fn read(alloc: Global, tokens: &[Token]) -> Result<Option<(Self, &[Token])>, AllocError>
        ensures found { IfOk result (λ r. IfSome r (λ x. tokens.now ≡ spells x.0 x.1.now)) }
        ensures shorter { IfOk result (λ r. IfSome r (λ x. length x.1.now < length tokens.now)) }
        ensures only { IfOk result (λ r. (x : Self) (k : List AToken) → ends k → tokens.now ≡ spells x k → Reads r x k) };
}

impl FromTokens for Element {
    ghost spells = { element_then };

    ghost ends = { IsEnd };

    fn read(alloc: Global, tokens: &[Token]) -> Result<Option<(Element, &[Token])>, AllocError> {
        element(alloc, tokens)
    }
}

impl FromTokens for Expr {
    ghost spells = { expr_then };

    ghost ends = { IsEnd };

    fn read(alloc: Global, tokens: &[Token]) -> Result<Option<(Expr, &[Token])>, AllocError> {
        expression(alloc, tokens)
    }
}

impl FromTokens for TypeForm {
    ghost spells = { type_form_then };

    ghost ends = { IsNotCounted };

    fn read(alloc: Global, tokens: &[Token]) -> Result<Option<(TypeForm, &[Token])>, AllocError> {
        type_form(alloc, tokens)
    }
}

/// What was read, where no token is left.
pub fn alone<T: Drop>(found: T, rest: &[Token]) -> Option<T>
    ensures { MatchOption result (rest.now ≢ []) (λ x. (x ≡ found) × (rest.now ≡ [])) }
{
    if rest.is_empty() { Some(found) } else { None }
}

/// What was read, where a colon ends the line.
pub fn ended<T: Drop>(found: T, rest: &[Token]) -> Option<T>
    ensures { MatchOption result (rest.now ≢ colon) (λ x. (x ≡ found) × (rest.now ≡ colon)) }
{
    let rest = after(rest, Symbol::Colon)?;
    alone(found, rest)
}

/// One, and the colon that ends the line.
pub fn to_end<T: FromTokens>(alloc: Global, tokens: &[Token]) -> Result<Option<T>, AllocError>
    requires ends { T.ends colon }
    ensures found { IfOk result (λ r. IfSome r (λ x. tokens.now ≡ T.spells x colon)) }
    ensures only { IfOk result (λ r. (x : T) → tokens.now ≡ T.spells x colon → r ≡ Some x) }
{
    let Some((found, rest)) = T::read(alloc, tokens)? else {
        return Ok(None);
    };
    Ok(ended(found, rest))
}

/// Further items of a list, each after the separator, perhaps none.
pub fn more<T: FromTokens>(
    alloc: Global,
    tokens: &[Token],
    separator: Symbol,
) -> Result<Option<(Items<T>, &[Token])>, AllocError>
    requires apart { (x : T) (k : List AToken) → T.ends (t.Symbol separator ∷ T.spells x k) }
    ensures found { IfOk result (λ r. IfSome r (λ x. tokens.now ≡ many (next separator T.spells) x.0 x.1.now)) }
    ensures shorter { IfOk result (λ r. IfSome r (λ x. length x.1.now ≤ length tokens.now)) }
    ensures only { IfOk result (λ r. (xs : List T) (k : List AToken) → T.ends k → IsNot separator k → tokens.now ≡ many (next separator T.spells) xs k → Reads r xs k) }
{
    let mut found = Items::new(alloc);
    let mut rest = tokens;
    while let Some(begun) = after(rest, separator) {
        let Some((item, next)) = T::read(alloc, begun)? else {
            return Ok(None);
        };
        found.push(item)?;
        rest = next;
    }
    Ok(Some((found, rest)))
}

/// A list of one item or more.
pub fn list<T: FromTokens>(
    alloc: Global,
    tokens: &[Token],
    separator: Symbol,
) -> Result<Option<(T, Items<T>, &[Token])>, AllocError>
    requires apart { (x : T) (k : List AToken) → T.ends (t.Symbol separator ∷ T.spells x k) }
    ensures found { IfOk result (λ r. IfSome r (λ x. tokens.now ≡ listed separator T.spells x.0 x.1 x.2.now)) }
    ensures shorter { IfOk result (λ r. IfSome r (λ x. length x.2.now < length tokens.now)) }
    ensures only { IfOk result (λ r. (x : T) (xs : List T) (k : List AToken) → T.ends k → IsNot separator k → tokens.now ≡ listed separator T.spells x xs k → ReadsList r x xs k) }
{
    let Some((first, rest)) = T::read(alloc, tokens)? else {
        return Ok(None);
    };
    let Some((others, rest)) = more::<T>(alloc, rest, separator)? else {
        return Ok(None);
    };
    Ok(Some((first, others, rest)))
}

/// A list of one item or more, and the colon that ends the line.
pub fn list_to_end<T: FromTokens>(
    alloc: Global,
    tokens: &[Token],
    separator: Symbol,
) -> Result<Option<(T, Items<T>)>, AllocError>
    requires apart { (x : T) (k : List AToken) → T.ends (t.Symbol separator ∷ T.spells x k) }
    requires ends { T.ends colon }
    requires other { IsNot separator colon }
    ensures found { IfOk result (λ r. IfSome r (λ x. tokens.now ≡ listed separator T.spells x.0 x.1 colon)) }
    ensures only { IfOk result (λ r. (x : T) (xs : List T) → tokens.now ≡ listed separator T.spells x xs colon → r ≡ Some (x, xs)) }
{
    let Some((first, others, rest)) = list::<T>(alloc, tokens, separator)? else {
        return Ok(None);
    };
    Ok(ended((first, others), rest))
}

/// A list in parentheses, perhaps of no item, of which the first parenthesis is read.
pub fn closed_list<T: FromTokens>(
    alloc: Global,
    tokens: &[Token],
) -> Result<Option<(Items<T>, &[Token])>, AllocError>
    requires apart { (x : T) (k : List AToken) → T.ends (t.Symbol s.Comma ∷ T.spells x k) }
    requires closes { (k : List AToken) → T.ends (t.Symbol s.Close ∷ k) }
    requires begins { (x : T) (k j : List AToken) → T.spells x k ≢ t.Symbol s.Close ∷ j }
    ensures found { IfOk result (λ r. IfSome r (λ x. t.Symbol s.Open ∷ tokens.now ≡ in_parens T.spells x.0 x.1.now)) }
    ensures shorter { IfOk result (λ r. IfSome r (λ x. length x.1.now < length tokens.now)) }
    ensures only { IfOk result (λ r. (xs : List T) (k : List AToken) → t.Symbol s.Open ∷ tokens.now ≡ in_parens T.spells xs k → Reads r xs k) }
{
    if let Some(rest) = after(tokens, Symbol::Close) {
        return Ok(Some((Items::new(alloc), rest)));
    }
    let Some((first, others, rest)) = list::<T>(alloc, tokens, Symbol::Comma)? else {
        return Ok(None);
    };
    let Some(rest) = after(rest, Symbol::Close) else {
        return Ok(None);
    };
    Ok(Some((joined(alloc, first, others)?, rest)))
}
