//! Parses names with commas between them, and `n IS`.
ghost use Rattle.occ_forms_expressions.specs.Reading.{IsNot};
ghost use Rattle.occ_forms_expressions.specs.Spelling.{many};
ghost use Rattle.occ_lines.specs.declared.token.Symbol.TheVariants as s;
ghost use Rattle.occ_lines.specs.declared.token.Token.TheVariants as t;
ghost use Rattle.occ_lines.specs.declared.token.Token.{Token as AToken};
ghost use Rattle.occ_lines.specs.declared.token.Word.TheVariants as w;
ghost use Rattle.occ_forms.specs.SpecificationReading.{IsEndOfNames, ReadsList, begins_name};
ghost use Rattle.occ_forms.specs.SpecificationSpelling.{name_then, names_then, next};
ghost use Rattle.std.specs.Prelude.{IfOk, IfSome, List, MatchOption, false, length, ℕ, ◌∷◌, ◌≡◌, ◌≢◌, ◌≤◌, ◌<◌};

use occ_base::{Items, Name};
use occ_forms_expressions::{after, after_word, name};
use occ_lines::{Symbol, Token, Word};
use std::alloc::{AllocError, Global};

/// Whether a name stands first.
fn is_at_name(tokens: &[Token]) -> bool
    ensures { result ≡ begins_name tokens.now }
{
    matches!(tokens, [Token::Name(_), ..])
}

/// A name and `IS`, and what follows them.
pub fn name_is(alloc: Global, tokens: &[Token]) -> Result<Option<(Name, &[Token])>, AllocError>
    ensures { IfOk result (λ r. MatchOption r ((n : List ℕ) (k : List AToken) → tokens.now ≢ t.Name n ∷ t.Word w.Is ∷ k) (λ x. tokens.now ≡ t.Name x.0 ∷ t.Word w.Is ∷ x.1.now)) }
{
    let Some((name, rest)) = name(alloc, tokens)? else {
        return Ok(None);
    };
    let Some(rest) = after_word(rest, Word::Is) else {
        return Ok(None);
    };
    Ok(Some((name, rest)))
}

/// A comma and a name, which is no type: no other name follows it.
fn next_name(alloc: Global, tokens: &[Token]) -> Result<Option<(Name, &[Token])>, AllocError>
    ensures value { IfOk result (λ r. MatchOption r ((n : List ℕ) (k : List AToken) → begins_name k ≡ false → tokens.now ≢ next s.Comma name_then n k) (λ x. tokens.now ≡ next s.Comma name_then x.0 x.1.now)) }
    ensures end { IfOk result (λ r. IfSome r (λ x. begins_name x.1.now ≡ false)) }
{
    let Some(rest) = after(tokens, Symbol::Comma) else {
        return Ok(None);
    };
    let Some((name, rest)) = name(alloc, rest)? else {
        return Ok(None);
    };
    if is_at_name(rest) {
        return Ok(None);
    }
    Ok(Some((name, rest)))
}

/// Further names, each after a comma, perhaps none.
pub fn more_names(alloc: Global, tokens: &[Token]) -> Result<(Items<Name>, &[Token]), AllocError>
    ensures found { IfOk result (λ x. tokens.now ≡ many (next s.Comma name_then) x.0 x.1.now) }
    ensures shorter { IfOk result (λ x. length x.1.now ≤ length tokens.now) }
    ensures only { IfOk result (λ x. (ns : List (List ℕ)) (k : List AToken) → IsEndOfNames k → tokens.now ≡ many (next s.Comma name_then) ns k → (x.0 ≡ ns) × (x.1.now ≡ k)) }
{
    let mut found = Items::new(alloc);
    let mut rest = tokens;
    while let Some((name, next)) = next_name(alloc, rest)? {
        found.push(name)?;
        rest = next;
    }
    Ok((found, rest))
}

/// Names with commas between them.
pub fn names(
    alloc: Global,
    tokens: &[Token],
) -> Result<Option<(Name, Items<Name>, &[Token])>, AllocError>
    ensures found { IfOk result (λ r. IfSome r (λ x. tokens.now ≡ names_then x.0 x.1 x.2.now)) }
    ensures shorter { IfOk result (λ r. IfSome r (λ x. length x.2.now < length tokens.now)) }
    ensures only { IfOk result (λ r. (n : List ℕ) (ns : List (List ℕ)) (k : List AToken) → IsEndOfNames k → tokens.now ≡ names_then n ns k → ReadsList r n ns k) }
{
    let Some((first, rest)) = name(alloc, tokens)? else {
        return Ok(None);
    };
    let (more, rest) = more_names(alloc, rest)?;
    Ok(Some((first, more, rest)))
}
