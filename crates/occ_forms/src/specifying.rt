//! Parses lines of specification, heads of specifications, and closes.
ghost use Rattle.occ_forms.specs.Spelling.{form_tokens};
ghost use Rattle.occ_forms.specs.declared.tree.Form.TheVariants as f;
ghost use Rattle.occ_forms.specs.SpecificationSpelling.{specified_tokens};
ghost use Rattle.occ_forms.specs.declared.specification_tree.Specified.{Specified as ASpecified};
ghost use Rattle.std.specs.Prelude.{IfOk, IfSome, Some, ◌≡◌};

use super::end::symbol_alone;
use super::specification_line::specified;
use super::tree::Form;
use occ_lines::{Symbol, Token};
use std::alloc::{AllocError, Global};

/// A line that specifies names, or the head of a specification.
pub fn specification(alloc: Global, tokens: &[Token]) -> Result<Option<Form>, AllocError>
    ensures found { IfOk result (λ answer. IfSome answer (λ form. tokens.now ≡ form_tokens form)) }
    ensures only { IfOk result (λ answer. (x : ASpecified) → tokens.now ≡ form_tokens (f.Specified x) → answer ≡ Some (f.Specified x)) }
{
    match specified(alloc, tokens)? {
        Some(found) => Ok(Some(Form::Specified(found))),
        None => Ok(None),
    }
}

/// The end of a specification, or a declaration: a colon is the first of their tokens that stands in no type.
pub fn close_or_declaration(alloc: Global, tokens: &[Token]) -> Result<Option<Form>, AllocError>
    ensures found { IfOk result (λ answer. IfSome answer (λ form. tokens.now ≡ form_tokens form)) }
    ensures close { IfOk result (λ answer. tokens.now ≡ form_tokens f.Close → answer ≡ Some f.Close) }
    ensures only { IfOk result (λ answer. (x : ASpecified) → tokens.now ≡ form_tokens (f.Specified x) → answer ≡ Some (f.Specified x)) }
{
    if let Some(close) = symbol_alone(tokens, Symbol::Colon, Form::Close) {
        return Ok(Some(close));
    }
    specification(alloc, tokens)
}
