//! Parses lines that are parts of what is around them: conditions, results, records, guards, tags and variants.
ghost use Rattle.occ_forms_expressions.specs.declared.tree.Expr.{Expr as AnExpr};
ghost use Rattle.occ_forms.specs.Spelling.{form_tokens, guarded_then};
ghost use Rattle.occ_forms.specs.declared.tree.Detail.{Detail as ADetail};
ghost use Rattle.occ_forms.specs.declared.tree.Form.TheVariants as fo;
ghost use Rattle.occ_forms.specs.declared.tree.Guarded.{Guarded as SomeGuarded};
ghost use Rattle.occ_forms.specs.declared.tree.PartForm.TheVariants as pa;
ghost use Rattle.std.specs.Prelude.{IfOk, IfSome, List, MatchOption, Some, [], ℕ, ◌≡◌, ◌≢◌};

use super::end::word_alone;
use super::from_tokens::{alone, list};
use super::input::{Received, reception};
use super::tree::{Form, Guarded, PartForm};
use occ_base::Boxed;
use occ_forms_expressions::{after, after_word, expression, name};
use occ_lines::{Symbol, Token, Word};
use std::alloc::{AllocError, Global};

/// Expressions that are the whole line.
pub fn expressions(alloc: Global, tokens: &[Token]) -> Result<Option<Form>, AllocError>
    ensures found { IfOk result (λ answer. IfSome answer (λ form. tokens.now ≡ form_tokens form)) }
    ensures only { IfOk result (λ answer. (e : AnExpr) (es : List AnExpr) → tokens.now ≡ form_tokens (fo.Expressions e es) → answer ≡ Some (fo.Expressions e es)) }
{
    let Some((first, more, rest)) = list(alloc, tokens, Symbol::Comma)? else {
        return Ok(None);
    };
    Ok(alone(Form::Expressions(first, more), rest))
}

/// The results of a value process.
pub fn results(alloc: Global, tokens: &[Token]) -> Result<Option<Form>, AllocError>
    ensures found { IfOk result (λ answer. IfSome answer (λ form. tokens.now ≡ form_tokens form)) }
    ensures only { IfOk result (λ answer. (e : AnExpr) (es : List AnExpr) → tokens.now ≡ form_tokens (fo.Part (pa.Result e es)) → answer ≡ Some (fo.Part (pa.Result e es))) }
{
    let Some(rest) = after_word(tokens, Word::Result) else {
        return Ok(None);
    };
    let Some((first, more, rest)) = list(alloc, rest, Symbol::Comma)? else {
        return Ok(None);
    };
    Ok(alone(Form::Part(PartForm::Result(first, more)), rest))
}

/// `PACKED RECORD`
pub fn packed(tokens: &[Token]) -> Option<Form>
    ensures { MatchOption result (tokens.now ≢ form_tokens (fo.Part pa.PackedRecord)) (λ found. (found ≡ fo.Part pa.PackedRecord) × (tokens.now ≡ form_tokens (fo.Part pa.PackedRecord))) }
{
    let rest = after_word(tokens, Word::Packed)?;
    word_alone(rest, Word::Record, Form::Part(PartForm::PackedRecord))
}

/// What stands after the `&` of a guard.
pub fn after_guard(alloc: Global, tokens: &[Token]) -> Result<Option<Guarded>, AllocError>
    ensures found { IfOk result (λ r. IfSome r (λ x. tokens.now ≡ guarded_then x [])) }
    ensures only { IfOk result (λ r. (x : SomeGuarded) → tokens.now ≡ guarded_then x [] → r ≡ Some x) }
{
    if let Some(skip) = word_alone(tokens, Word::Skip, Guarded::Skip) {
        return Ok(Some(skip));
    }
    match reception(alloc, tokens)? {
        Some(Received::Input(input)) => Ok(Some(Guarded::Input(input))),
        Some(Received::Case(from)) => Ok(Some(Guarded::CaseInput(from))),
        None => Ok(None),
    }
}

/// The same, in its box.
fn boxed_after_guard(alloc: Global, tokens: &[Token]) -> Result<Option<Boxed<Guarded>>, AllocError>
    ensures found { IfOk result (λ r. IfSome r (λ x. tokens.now ≡ guarded_then x [])) }
    ensures only { IfOk result (λ r. (x : SomeGuarded) → tokens.now ≡ guarded_then x [] → r ≡ Some x) }
{
    match after_guard(alloc, tokens)? {
        Some(guarded) => Ok(Some(Boxed::new(alloc, guarded)?)),
        None => Ok(None),
    }
}

/// A guard with a condition.
pub fn guard(alloc: Global, tokens: &[Token]) -> Result<Option<Form>, AllocError>
    ensures found { IfOk result (λ answer. IfSome answer (λ form. tokens.now ≡ form_tokens form)) }
    ensures only { IfOk result (λ answer. (e : AnExpr) (x : SomeGuarded) → tokens.now ≡ form_tokens (fo.Part (pa.Guard e x)) → answer ≡ Some (fo.Part (pa.Guard e x))) }
{
    let Some((condition, rest)) = expression(alloc, tokens)? else {
        return Ok(None);
    };
    let Some(rest) = after(rest, Symbol::Ampersand) else {
        return Ok(None);
    };
    let Some(guarded) = boxed_after_guard(alloc, rest)? else {
        return Ok(None);
    };
    Ok(Some(Form::Part(PartForm::Guard(condition, guarded))))
}

/// A tag or a variant with its parts.
pub fn tagged_line(alloc: Global, tokens: &[Token]) -> Result<Option<Form>, AllocError>
    ensures found { IfOk result (λ answer. IfSome answer (λ form. tokens.now ≡ form_tokens form)) }
    ensures only { IfOk result (λ answer. (n : List ℕ) (x : ADetail) (xs : List ADetail) → tokens.now ≡ form_tokens (fo.Tagged n x xs) → answer ≡ Some (fo.Tagged n x xs)) }
{
    let Some((tag, rest)) = name(alloc, tokens)? else {
        return Ok(None);
    };
    let Some(rest) = after(rest, Symbol::Semicolon) else {
        return Ok(None);
    };
    let Some((first, more, rest)) = list(alloc, rest, Symbol::Semicolon)? else {
        return Ok(None);
    };
    Ok(alone(Form::Tagged(tag, first, more), rest))
}
