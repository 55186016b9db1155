//! Parses `PROC n (formals)`, `PROTOCOL n` with or without its items, `DATA TYPE n` with or without its type.
ghost use Rattle.occ_forms_expressions.specs.Spelling.{type_form_then};
ghost use Rattle.occ_forms_expressions.specs.declared.tree.TypeForm.{TypeForm as ATypeForm};
ghost use Rattle.occ_lines.specs.declared.token.Symbol.TheVariants as s;
ghost use Rattle.occ_lines.specs.declared.token.Token.TheVariants as t;
ghost use Rattle.occ_lines.specs.declared.token.Word.TheVariants as w;
ghost use Rattle.occ_forms.specs.SpecificationSpelling.{colon, head_tokens, item_then, listed, specified_tokens};
ghost use Rattle.occ_forms.specs.declared.specification_tree.FormalGroup.{FormalGroup as AFormalGroup};
ghost use Rattle.occ_forms.specs.declared.specification_tree.Head.TheVariants as he;
ghost use Rattle.occ_forms.specs.declared.specification_tree.Inlined.{Inlined as SomeInlined};
ghost use Rattle.occ_forms.specs.declared.specification_tree.ItemForm.{ItemForm as AnItemForm};
ghost use Rattle.occ_forms.specs.declared.specification_tree.Specification.TheVariants as sp;
ghost use Rattle.occ_forms.specs.declared.specification_tree.Specified.TheVariants as sd;
ghost use Rattle.std.specs.Prelude.{IfOk, IfSome, List, Some, [], ℕ, ◌∷◌, ◌≡◌};

use super::formals::formals;
use super::from_tokens::{alone, list_to_end, to_end};
use super::function::perhaps_inline;
use super::specification_tree::{Head, ItemForm, Specification, Specified};
use occ_forms_expressions::{TypeForm, after_word, name};
use occ_lines::{Symbol, Token, Word};
use std::alloc::{AllocError, Global};

/// The head of a procedure.
pub fn procedure(alloc: Global, tokens: &[Token]) -> Result<Option<Specified>, AllocError>
    ensures found { IfOk result (λ r. IfSome r (λ x. tokens.now ≡ specified_tokens x)) }
    ensures only { IfOk result (λ r. (i : SomeInlined) (n : List ℕ) (gs : List AFormalGroup) → tokens.now ≡ head_tokens (he.Procedure i n gs) → r ≡ Some (sd.Head (he.Procedure i n gs))) }
{
    let (inlined, rest) = perhaps_inline(tokens);
    let Some(rest) = after_word(rest, Word::Proc) else {
        return Ok(None);
    };
    let Some((name, rest)) = name(alloc, rest)? else {
        return Ok(None);
    };
    let Some((formals, rest)) = formals(alloc, rest)? else {
        return Ok(None);
    };
    let head = Head::Procedure(inlined, name, formals);
    Ok(alone(Specified::Head(head), rest))
}

/// A protocol: its head, or with its items.
pub fn protocol(alloc: Global, tokens: &[Token]) -> Result<Option<Specified>, AllocError>
    ensures found { IfOk result (λ r. IfSome r (λ x. tokens.now ≡ specified_tokens x)) }
    ensures head { IfOk result (λ r. (n : List ℕ) → tokens.now ≡ t.Word w.Protocol ∷ t.Name n ∷ [] → r ≡ Some (sd.Head (he.Protocol n))) }
    ensures line { IfOk result (λ r. (n : List ℕ) (item : AnItemForm) (more : List AnItemForm) → tokens.now ≡ t.Word w.Protocol ∷ t.Name n ∷ t.Word w.Is ∷ listed s.Semicolon item_then item more colon → r ≡ Some (sd.Line (sp.Protocol n item more))) }
{
    let Some(rest) = after_word(tokens, Word::Protocol) else {
        return Ok(None);
    };
    let Some((name, rest)) = name(alloc, rest)? else {
        return Ok(None);
    };
    let Some(rest) = after_word(rest, Word::Is) else {
        return Ok(alone(Specified::Head(Head::Protocol(name)), rest));
    };
    let Some((item, more)) = list_to_end::<ItemForm>(alloc, rest, Symbol::Semicolon)? else {
        return Ok(None);
    };
    let line = Specification::Protocol(name, item, more);
    Ok(Some(Specified::Line(line)))
}

/// A data type: its head, or with the type that it is.
pub fn data_type(alloc: Global, tokens: &[Token]) -> Result<Option<Specified>, AllocError>
    ensures found { IfOk result (λ r. IfSome r (λ x. tokens.now ≡ specified_tokens x)) }
    ensures head { IfOk result (λ r. (n : List ℕ) → tokens.now ≡ t.Word w.Data ∷ t.Word w.Type ∷ t.Name n ∷ [] → r ≡ Some (sd.Head (he.DataType n))) }
    ensures line { IfOk result (λ r. (n : List ℕ) (form : ATypeForm) → tokens.now ≡ t.Word w.Data ∷ t.Word w.Type ∷ t.Name n ∷ t.Word w.Is ∷ type_form_then form colon → r ≡ Some (sd.Line (sp.DataType n form))) }
{
    let Some(rest) = after_word(tokens, Word::Data) else {
        return Ok(None);
    };
    let Some(rest) = after_word(rest, Word::Type) else {
        return Ok(None);
    };
    let Some((name, rest)) = name(alloc, rest)? else {
        return Ok(None);
    };
    let Some(rest) = after_word(rest, Word::Is) else {
        return Ok(alone(Specified::Head(Head::DataType(name)), rest));
    };
    let Some(form) = to_end::<TypeForm>(alloc, rest)? else {
        return Ok(None);
    };
    Ok(Some(Specified::Line(Specification::DataType(name, form))))
}
