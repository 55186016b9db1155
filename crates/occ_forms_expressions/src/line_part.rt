//! Parses elements, types and data types as lines hold them, by the parser of whole expressions.
ghost use Rattle.occ_forms_expressions.specs.Reading.{IsEnd, IsEndOfRun, IsNotCounted, Reads};
ghost use Rattle.occ_forms_expressions.specs.Spelling.{data_form_then, element_then, type_form_then};
ghost use Rattle.occ_forms_expressions.specs.declared.tree.DataForm.{DataForm as ADataForm};
ghost use Rattle.occ_forms_expressions.specs.declared.tree.Element.{Element as AnElement};
ghost use Rattle.occ_forms_expressions.specs.declared.tree.TypeForm.{TypeForm as ATypeForm};
ghost use Rattle.occ_lines.specs.declared.token.Token.{Token as AToken};
ghost use Rattle.std.specs.Prelude.{IfOk, IfSome, List, length, ◌≡◌, ◌<◌};

use super::operand::element_in;
use super::reader::expression;
use super::tree::{DataForm, Element, TypeForm};
use super::types::{self, Following};
use occ_lines::Token;
use std::alloc::{AllocError, Global};

/// The element that stands first, and what follows it: an expression that is an element alone.
pub fn element(alloc: Global, tokens: &[Token]) -> Result<Option<(Element, &[Token])>, AllocError>
    ensures found { IfOk result (λ r. IfSome r (λ y. tokens.now ≡ element_then y.0 y.1.now)) }
    ensures shorter { IfOk result (λ r. IfSome r (λ y. length y.1.now < length tokens.now)) }
    ensures only { IfOk result (λ r. (el : AnElement) (k : List AToken) → IsEnd k → tokens.now ≡ element_then el k → Reads r el k) }
    ensures run { IfOk result (λ r. (el : AnElement) (k : List AToken) → IsEndOfRun k → tokens.now ≡ element_then el k → Reads r el k) }
{
    let Some((found, rest)) = expression(alloc, tokens)? else {
        return Ok(None);
    };
    let Some(element) = element_in(found) else {
        return Ok(None);
    };
    Ok(Some((element, rest)))
}

/// The type that stands first, and what follows it.
pub fn type_form(
    alloc: Global,
    tokens: &[Token],
) -> Result<Option<(TypeForm, &[Token])>, AllocError>
    ensures found { IfOk result (λ r. IfSome r (λ y. tokens.now ≡ type_form_then y.0 y.1.now)) }
    ensures shorter { IfOk result (λ r. IfSome r (λ y. length y.1.now < length tokens.now)) }
    ensures only { IfOk result (λ r. (form : ATypeForm) (k : List AToken) → IsNotCounted k → tokens.now ≡ type_form_then form k → Reads r form k) }
{
    types::type_form(alloc, Following::More, tokens, &expression)
}

/// The data type that stands first, and what follows it.
pub fn data_form(
    alloc: Global,
    tokens: &[Token],
) -> Result<Option<(DataForm, &[Token])>, AllocError>
    ensures found { IfOk result (λ r. IfSome r (λ y. tokens.now ≡ data_form_then y.0 y.1.now)) }
    ensures shorter { IfOk result (λ r. IfSome r (λ y. length y.1.now < length tokens.now)) }
    ensures only { IfOk result (λ r. (form : ADataForm) (k : List AToken) → tokens.now ≡ data_form_then form k → Reads r form k) }
{
    types::data_form(alloc, tokens, &expression)
}
