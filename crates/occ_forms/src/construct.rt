//! Parses heads of constructs: SEQ, PAR, IF, ALT with or without a replicator, WHILE, CASE.
ghost use Rattle.occ_forms_expressions.specs.Spelling.{expr_then};
ghost use Rattle.occ_forms.specs.Spelling.{form_tokens, kind_then, replicator_then};
ghost use Rattle.occ_forms.specs.declared.tree.Construct.TheVariants as co;
ghost use Rattle.occ_forms.specs.declared.tree.Form.TheVariants as fo;
ghost use Rattle.occ_forms.specs.declared.tree.ConstructKind.{ConstructKind as AConstructKind};
ghost use Rattle.occ_forms.specs.declared.tree.PartForm.TheVariants as pa;
ghost use Rattle.occ_forms.specs.declared.tree.Replicator.{Replicator as AReplicator};
ghost use Rattle.occ_forms_expressions.specs.declared.tree.Expr.{Expr as AnExpr};
ghost use Rattle.occ_lines.specs.declared.token.Token.TheVariants as t;
ghost use Rattle.occ_lines.specs.declared.token.Token.{Token as AToken};
ghost use Rattle.occ_lines.specs.declared.token.Word.TheVariants as w;
ghost use Rattle.std.specs.Prelude.{IfOk, IfSome, List, MatchOption, None, Option, Some, [], ◌∷◌, ◌≡◌, ◌≢◌};

use super::from_tokens::alone;
use super::tree::{Construct, ConstructKind, Form, PartForm, Replicator};
use occ_forms_expressions::{Expr, after, after_word, expression, name};
use occ_lines::{Symbol, Token, Word};
use std::alloc::{AllocError, Global};

/// An expression that is all the tokens.
pub fn one_expression(alloc: Global, tokens: &[Token]) -> Result<Option<Expr>, AllocError>
    ensures found { IfOk result (λ r. IfSome r (λ e. tokens.now ≡ expr_then e [])) }
    ensures only { IfOk result (λ r. (e : AnExpr) → tokens.now ≡ expr_then e [] → r ≡ Some e) }
{
    let Some((found, rest)) = expression(alloc, tokens)? else {
        return Ok(None);
    };
    Ok(alone(found, rest))
}

/// The words of a construct that may be replicated.
pub fn kind_words(tokens: &[Token]) -> Option<(ConstructKind, &[Token])>
    ensures { MatchOption result ((kind : AConstructKind) (k : List AToken) → tokens.now ≢ kind_then kind k) (λ x. tokens.now ≡ kind_then x.0 x.1.now) }
{
    match tokens {
        [Token::Word(Word::Seq), rest @ ..] => Some((ConstructKind::Sequence, rest)),
        [Token::Word(Word::Par), rest @ ..] => Some((ConstructKind::Parallel, rest)),
        [Token::Word(Word::Pri), Token::Word(Word::Par), rest @ ..] => {
            Some((ConstructKind::PriParallel, rest))
        }
        [Token::Word(Word::If), rest @ ..] => Some((ConstructKind::Conditional, rest)),
        [Token::Word(Word::Alt), rest @ ..] => Some((ConstructKind::Alternation, rest)),
        [Token::Word(Word::Pri), Token::Word(Word::Alt), rest @ ..] => {
            Some((ConstructKind::PriAlternation, rest))
        }
        _ => None,
    }
}

/// A replicator that is all the tokens.
pub fn replicator_of(alloc: Global, tokens: &[Token]) -> Result<Option<Replicator>, AllocError>
    ensures found { IfOk result (λ r. IfSome r (λ x. tokens.now ≡ replicator_then x [])) }
    ensures only { IfOk result (λ r. (x : AReplicator) → tokens.now ≡ replicator_then x [] → r ≡ Some x) }
{
    let Some((name, rest)) = name(alloc, tokens)? else {
        return Ok(None);
    };
    let Some(rest) = after(rest, Symbol::Equal) else {
        return Ok(None);
    };
    let Some((base, rest)) = expression(alloc, rest)? else {
        return Ok(None);
    };
    let Some(rest) = after_word(rest, Word::For) else {
        return Ok(None);
    };
    let Some(count) = one_expression(alloc, rest)? else {
        return Ok(None);
    };
    Ok(Some(Replicator { name, base, count }))
}

/// A construct that may be replicated.
pub fn replicable(alloc: Global, tokens: &[Token]) -> Result<Option<Form>, AllocError>
    ensures found { IfOk result (λ answer. IfSome answer (λ form. tokens.now ≡ form_tokens form)) }
    ensures only { IfOk result (λ answer. (kind : AConstructKind) (r : Option AReplicator) → tokens.now ≡ form_tokens (fo.Construct (co.Replicable kind r)) → answer ≡ Some (fo.Construct (co.Replicable kind r))) }
{
    let Some((kind, rest)) = kind_words(tokens) else {
        return Ok(None);
    };
    if rest.is_empty() {
        return Ok(Some(Form::Construct(Construct::Replicable(kind, None))));
    }
    let Some(replicator) = replicator_of(alloc, rest)? else {
        return Ok(None);
    };
    Ok(Some(Form::Construct(Construct::Replicable(kind, Some(replicator)))))
}

/// A loop.
pub fn while_loop(alloc: Global, tokens: &[Token]) -> Result<Option<Form>, AllocError>
    ensures found { IfOk result (λ answer. IfSome answer (λ form. tokens.now ≡ form_tokens form)) }
    ensures only { IfOk result (λ answer. (e : AnExpr) → tokens.now ≡ form_tokens (fo.Construct (co.While e)) → answer ≡ Some (fo.Construct (co.While e))) }
{
    let Some(rest) = after_word(tokens, Word::While) else {
        return Ok(None);
    };
    let Some(condition) = one_expression(alloc, rest)? else {
        return Ok(None);
    };
    Ok(Some(Form::Construct(Construct::While(condition))))
}

/// `CASE`, alone or with what selects.
pub fn selection(alloc: Global, tokens: &[Token]) -> Result<Option<Form>, AllocError>
    ensures found { IfOk result (λ answer. IfSome answer (λ form. tokens.now ≡ form_tokens form)) }
    ensures alone { IfOk result (λ answer. tokens.now ≡ form_tokens (fo.Part pa.Case) → answer ≡ Some (fo.Part pa.Case)) }
    ensures selected { IfOk result (λ answer. (e : AnExpr) → tokens.now ≡ form_tokens (fo.Construct (co.Case e)) → answer ≡ Some (fo.Construct (co.Case e))) }
{
    let Some(rest) = after_word(tokens, Word::Case) else {
        return Ok(None);
    };
    if let Some(form) = alone(Form::Part(PartForm::Case), rest) {
        return Ok(Some(form));
    }
    let Some(selector) = one_expression(alloc, rest)? else {
        return Ok(None);
    };
    Ok(Some(Form::Construct(Construct::Case(selector))))
}
