//! Parses specifications that begin with a name or a type: declarations, abbreviations, RETYPES, RESHAPES, FUNCTIONs.
ghost use Rattle.occ_forms_expressions.specs.Spelling.{element_then, expr_then, many, type_form_then};
ghost use Rattle.occ_forms_expressions.specs.declared.tree.Element.{Element as AnElement};
ghost use Rattle.occ_forms_expressions.specs.declared.tree.Expr.{Expr as AnExpr};
ghost use Rattle.occ_forms_expressions.specs.declared.tree.TypeForm.{TypeForm as ATypeForm};
ghost use Rattle.occ_lines.specs.declared.token.Symbol.TheVariants as s;
ghost use Rattle.occ_lines.specs.declared.token.Token.TheVariants as t;
ghost use Rattle.occ_lines.specs.declared.token.Word.TheVariants as w;
ghost use Rattle.occ_forms.specs.inside.Lines.{element_line};
ghost use Rattle.occ_forms.specs.SpecificationReading.{binding_word};
ghost use Rattle.occ_forms.specs.SpecificationSpelling.{colon, function_head_then, function_then, listed, name_then, names_then, next, specification_tokens, specified_tokens};
ghost use Rattle.occ_forms.specs.declared.binding.Binding.{Binding as ABinding};
ghost use Rattle.occ_forms.specs.declared.specification_tree.FunctionHead.{FunctionHead as AFunctionHead};
ghost use Rattle.occ_forms.specs.declared.specification_tree.Head.TheVariants as he;
ghost use Rattle.occ_forms.specs.declared.specification_tree.Specification.TheVariants as sp;
ghost use Rattle.occ_forms.specs.declared.specification_tree.Specified.TheVariants as sd;
ghost use Rattle.std.specs.Prelude.{IfOk, IfSome, List, None, Some, [], ℕ, ◌∷◌, ◌≡◌};

use super::binding::{Binding, bound_by};
use super::from_tokens::{alone, ended, list_to_end, to_end};
use super::function::function_head;
use super::names::{more_names, name_is};
use super::specification_tree::{Head, Specification, Specified};
use occ_base::{Boxed, Name};
use occ_forms_expressions::{Element, Expr, TypeForm, after_word, name, type_form};
use occ_lines::{Symbol, Token, Word};
use std::alloc::{AllocError, Global};

/// The line that gives a name of this type its element.
fn element_bound(binding: Binding, form: TypeForm, name: Name, element: Element) -> Specification
    ensures { result ≡ element_line binding form name element }
{
    match binding {
        Binding::Is => Specification::Abbreviation(Some(form), name, element),
        Binding::Recast(recast) => Specification::Retyped(recast, form, name, element),
    }
}

/// What is specified of a type, of which the first name is read.
fn of_type(
    alloc: Global,
    form: TypeForm,
    name: Name,
    tokens: &[Token],
) -> Result<Option<Specification>, AllocError>
    ensures found { IfOk result (λ r. IfSome r (λ x. type_form_then form (t.Name name ∷ tokens.now) ≡ specification_tokens x)) }
    ensures bound { IfOk result (λ r. (b : ABinding) (el : AnElement) → tokens.now ≡ t.Word (binding_word b) ∷ element_then el colon → r ≡ Some (element_line b form name el)) }
    ensures declared { IfOk result (λ r. (ns : List (List ℕ)) → tokens.now ≡ many (next s.Comma name_then) ns colon → r ≡ Some (sp.Declaration form name ns)) }
{
    if let Some((binding, rest)) = bound_by(tokens) {
        let Some(element) = to_end::<Element>(alloc, rest)? else {
            return Ok(None);
        };
        return Ok(Some(element_bound(binding, form, name, element)));
    }
    let (more, rest) = more_names(alloc, tokens)?;
    Ok(ended(Specification::Declaration(form, name, more), rest))
}

/// A function, of which the type of the first result is read: its head, or with its results.
fn function(
    alloc: Global,
    form: TypeForm,
    tokens: &[Token],
) -> Result<Option<Specified>, AllocError>
    ensures found { IfOk result (λ r. IfSome r (λ x. type_form_then form tokens.now ≡ specified_tokens x)) }
    ensures head { IfOk result (λ r. (head : AFunctionHead) → form ≡ head.first → tokens.now ≡ many (next s.Comma type_form_then) head.more (function_then head []) → r ≡ Some (sd.Head (he.Function head))) }
    ensures line { IfOk result (λ r. (head : AFunctionHead) (e : AnExpr) (more : List AnExpr) → form ≡ head.first → tokens.now ≡ many (next s.Comma type_form_then) head.more (function_then head (t.Word w.Is ∷ listed s.Comma expr_then e more colon)) → r ≡ Some (sd.Line (sp.Function head e more))) }
{
    let Some((head, rest)) = function_head(alloc, form, tokens)? else {
        return Ok(None);
    };
    let Some(rest) = after_word(rest, Word::Is) else {
        return Ok(alone(Specified::Head(Head::Function(head)), rest));
    };
    let Some((first, more)) = list_to_end::<Expr>(alloc, rest, Symbol::Comma)? else {
        return Ok(None);
    };
    let head = Boxed::new(alloc, head)?;
    let line = Specification::Function(head, first, more);
    Ok(Some(Specified::Line(line)))
}

/// What begins with a type.
fn typed(alloc: Global, tokens: &[Token]) -> Result<Option<Specified>, AllocError>
    ensures found { IfOk result (λ r. IfSome r (λ x. tokens.now ≡ specified_tokens x)) }
    ensures bound { IfOk result (λ r. (b : ABinding) (form : ATypeForm) (n : List ℕ) (el : AnElement) → tokens.now ≡ type_form_then form (t.Name n ∷ t.Word (binding_word b) ∷ element_then el colon) → r ≡ Some (sd.Line (element_line b form n el))) }
    ensures declared { IfOk result (λ r. (form : ATypeForm) (n : List ℕ) (ns : List (List ℕ)) → tokens.now ≡ type_form_then form (names_then n ns colon) → r ≡ Some (sd.Line (sp.Declaration form n ns))) }
    ensures head { IfOk result (λ r. (head : AFunctionHead) → tokens.now ≡ function_head_then head [] → r ≡ Some (sd.Head (he.Function head))) }
    ensures line { IfOk result (λ r. (head : AFunctionHead) (e : AnExpr) (more : List AnExpr) → tokens.now ≡ function_head_then head (t.Word w.Is ∷ listed s.Comma expr_then e more colon) → r ≡ Some (sd.Line (sp.Function head e more))) }
{
    let Some((form, rest)) = type_form(alloc, tokens)? else {
        return Ok(None);
    };
    let Some((name, following)) = name(alloc, rest)? else {
        return function(alloc, form, rest);
    };
    let Some(line) = of_type(alloc, form, name, following)? else {
        return Ok(None);
    };
    Ok(Some(Specified::Line(line)))
}

/// What begins with a name or a type.
pub fn named_or_typed(alloc: Global, tokens: &[Token]) -> Result<Option<Specified>, AllocError>
    ensures found { IfOk result (λ r. IfSome r (λ x. tokens.now ≡ specified_tokens x)) }
    ensures untyped { IfOk result (λ r. (n : List ℕ) (el : AnElement) → tokens.now ≡ t.Name n ∷ t.Word w.Is ∷ element_then el colon → r ≡ Some (sd.Line (sp.Abbreviation None n el))) }
    ensures bound { IfOk result (λ r. (b : ABinding) (form : ATypeForm) (n : List ℕ) (el : AnElement) → tokens.now ≡ type_form_then form (t.Name n ∷ t.Word (binding_word b) ∷ element_then el colon) → r ≡ Some (sd.Line (element_line b form n el))) }
    ensures declared { IfOk result (λ r. (form : ATypeForm) (n : List ℕ) (ns : List (List ℕ)) → tokens.now ≡ type_form_then form (names_then n ns colon) → r ≡ Some (sd.Line (sp.Declaration form n ns))) }
    ensures head { IfOk result (λ r. (head : AFunctionHead) → tokens.now ≡ function_head_then head [] → r ≡ Some (sd.Head (he.Function head))) }
    ensures line { IfOk result (λ r. (head : AFunctionHead) (e : AnExpr) (more : List AnExpr) → tokens.now ≡ function_head_then head (t.Word w.Is ∷ listed s.Comma expr_then e more colon) → r ≡ Some (sd.Line (sp.Function head e more))) }
{
    let Some((name, rest)) = name_is(alloc, tokens)? else {
        return typed(alloc, tokens);
    };
    let Some(element) = to_end::<Element>(alloc, rest)? else {
        return Ok(None);
    };
    let line = Specification::Abbreviation(None, name, element);
    Ok(Some(Specified::Line(line)))
}
