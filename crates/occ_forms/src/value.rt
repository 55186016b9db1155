//! Parses specifications that begin with VAL: `VAL n IS e:`, `VAL t n IS e:`, and VAL with RETYPES or RESHAPES.
ghost use Rattle.occ_forms_expressions.specs.Spelling.{expr_then, type_form_then};
ghost use Rattle.occ_forms_expressions.specs.declared.tree.Expr.{Expr as AnExpr};
ghost use Rattle.occ_forms_expressions.specs.declared.tree.TypeForm.{TypeForm as ATypeForm};
ghost use Rattle.occ_lines.specs.declared.token.Token.TheVariants as t;
ghost use Rattle.occ_lines.specs.declared.token.Word.TheVariants as w;
ghost use Rattle.occ_forms.specs.inside.Lines.{value_line};
ghost use Rattle.occ_forms.specs.SpecificationReading.{binding_word};
ghost use Rattle.occ_forms.specs.SpecificationSpelling.{colon, specification_tokens, specified_tokens};
ghost use Rattle.occ_forms.specs.declared.binding.Binding.{Binding as ABinding};
ghost use Rattle.occ_forms.specs.declared.specification_tree.Specification.TheVariants as sp;
ghost use Rattle.occ_forms.specs.declared.specification_tree.Specified.TheVariants as sd;
ghost use Rattle.std.specs.Prelude.{IfOk, IfSome, List, None, Some, ℕ, ◌∷◌, ◌≡◌};

use super::binding::{Binding, bound_by};
use super::from_tokens::to_end;
use super::names::name_is;
use super::specification_tree::{Specification, Specified};
use occ_base::Name;
use occ_forms_expressions::{Expr, TypeForm, after_word, name, type_form};
use occ_lines::{Token, Word};
use std::alloc::{AllocError, Global};

/// The line that gives a name of this type its value.
fn value_bound(binding: Binding, form: TypeForm, name: Name, expr: Expr) -> Specification
    ensures { result ≡ value_line binding form name expr }
{
    match binding {
        Binding::Is => Specification::Value(Some(form), name, expr),
        Binding::Recast(recast) => Specification::RetypedValue(recast, form, name, expr),
    }
}

/// A value with its type, of which the name is read.
fn typed_value(
    alloc: Global,
    form: TypeForm,
    name: Name,
    tokens: &[Token],
) -> Result<Option<Specification>, AllocError>
    ensures found { IfOk result (λ r. IfSome r (λ x. t.Word w.Val ∷ type_form_then form (t.Name name ∷ tokens.now) ≡ specification_tokens x)) }
    ensures only { IfOk result (λ r. (b : ABinding) (e : AnExpr) → tokens.now ≡ t.Word (binding_word b) ∷ expr_then e colon → r ≡ Some (value_line b form name e)) }
{
    let Some((binding, rest)) = bound_by(tokens) else {
        return Ok(None);
    };
    let Some(expr) = to_end::<Expr>(alloc, rest)? else {
        return Ok(None);
    };
    Ok(Some(value_bound(binding, form, name, expr)))
}

/// What begins with `VAL`.
pub fn value(alloc: Global, tokens: &[Token]) -> Result<Option<Specified>, AllocError>
    ensures found { IfOk result (λ r. IfSome r (λ x. tokens.now ≡ specified_tokens x)) }
    ensures untyped { IfOk result (λ r. (n : List ℕ) (e : AnExpr) → tokens.now ≡ t.Word w.Val ∷ t.Name n ∷ t.Word w.Is ∷ expr_then e colon → r ≡ Some (sd.Line (sp.Value None n e))) }
    ensures typed { IfOk result (λ r. (b : ABinding) (form : ATypeForm) (n : List ℕ) (e : AnExpr) → tokens.now ≡ t.Word w.Val ∷ type_form_then form (t.Name n ∷ t.Word (binding_word b) ∷ expr_then e colon) → r ≡ Some (sd.Line (value_line b form n e))) }
{
    let Some(rest) = after_word(tokens, Word::Val) else {
        return Ok(None);
    };
    if let Some((name, rest)) = name_is(alloc, rest)? {
        let Some(expr) = to_end::<Expr>(alloc, rest)? else {
            return Ok(None);
        };
        let line = Specification::Value(None, name, expr);
        return Ok(Some(Specified::Line(line)));
    }
    let Some((form, rest)) = type_form(alloc, rest)? else {
        return Ok(None);
    };
    let Some((name, rest)) = name(alloc, rest)? else {
        return Ok(None);
    };
    let Some(line) = typed_value(alloc, form, name, rest)? else {
        return Ok(None);
    };
    Ok(Some(Specified::Line(line)))
}
