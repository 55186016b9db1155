//! Parses processes of one line: assignments, outputs and inputs.
ghost use Rattle.occ_forms_expressions.specs.declared.tree.Element.{Element as AnElement};
ghost use Rattle.occ_forms_expressions.specs.declared.tree.Expr.{Expr as AnExpr};
ghost use Rattle.occ_forms.specs.Spelling.{form_tokens};
ghost use Rattle.occ_forms.specs.declared.tree.Action.TheVariants as ac;
ghost use Rattle.occ_forms.specs.declared.tree.Construct.TheVariants as co;
ghost use Rattle.occ_forms.specs.declared.tree.Form.TheVariants as fo;
ghost use Rattle.occ_forms.specs.declared.tree.Input.{Input as AnInput};
ghost use Rattle.occ_forms.specs.declared.tree.OutputItem.{OutputItem as AnOutputItem};
ghost use Rattle.std.specs.Prelude.{IfOk, IfSome, List, Some, ◌≡◌};

use super::from_tokens::{alone, list};
use super::input::{Received, reception};
use super::tree::{Action, Construct, Form};
use occ_forms_expressions::{after, element};
use occ_lines::{Symbol, Token};
use std::alloc::{AllocError, Global};

/// An assignment.
pub fn assignment(alloc: Global, tokens: &[Token]) -> Result<Option<Form>, AllocError>
    ensures found { IfOk result (λ answer. IfSome answer (λ form. tokens.now ≡ form_tokens form)) }
    ensures only { IfOk result (λ answer. (el : AnElement) (els : List AnElement) (e : AnExpr) (es : List AnExpr) → tokens.now ≡ form_tokens (fo.Action (ac.Assignment el els e es)) → answer ≡ Some (fo.Action (ac.Assignment el els e es))) }
{
    let Some((target, targets, rest)) = list(alloc, tokens, Symbol::Comma)? else {
        return Ok(None);
    };
    let Some(rest) = after(rest, Symbol::Assign) else {
        return Ok(None);
    };
    let Some((value, values, rest)) = list(alloc, rest, Symbol::Comma)? else {
        return Ok(None);
    };
    Ok(alone(
        Form::Action(Action::Assignment(target, targets, value, values)),
        rest,
    ))
}

/// An output.
pub fn output(alloc: Global, tokens: &[Token]) -> Result<Option<Form>, AllocError>
    ensures found { IfOk result (λ answer. IfSome answer (λ form. tokens.now ≡ form_tokens form)) }
    ensures only { IfOk result (λ answer. (el : AnElement) (x : AnOutputItem) (xs : List AnOutputItem) → tokens.now ≡ form_tokens (fo.Action (ac.Output el x xs)) → answer ≡ Some (fo.Action (ac.Output el x xs))) }
{
    let Some((to, rest)) = element(alloc, tokens)? else {
        return Ok(None);
    };
    let Some(rest) = after(rest, Symbol::Output) else {
        return Ok(None);
    };
    let Some((first, more, rest)) = list(alloc, rest, Symbol::Semicolon)? else {
        return Ok(None);
    };
    Ok(alone(Form::Action(Action::Output(to, first, more)), rest))
}

/// An input, or the head of a selecting one.
pub fn input_line(alloc: Global, tokens: &[Token]) -> Result<Option<Form>, AllocError>
    ensures found { IfOk result (λ answer. IfSome answer (λ form. tokens.now ≡ form_tokens form)) }
    ensures input { IfOk result (λ answer. (x : AnInput) → tokens.now ≡ form_tokens (fo.Action (ac.Input x)) → answer ≡ Some (fo.Action (ac.Input x))) }
    ensures case { IfOk result (λ answer. (el : AnElement) → tokens.now ≡ form_tokens (fo.Construct (co.CaseInput el)) → answer ≡ Some (fo.Construct (co.CaseInput el))) }
{
    match reception(alloc, tokens)? {
        Some(Received::Input(input)) => Ok(Some(Form::Action(Action::Input(input)))),
        Some(Received::Case(from)) => Ok(Some(Form::Construct(Construct::CaseInput(from)))),
        None => Ok(None),
    }
}
