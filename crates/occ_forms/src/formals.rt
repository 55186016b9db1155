//! Parses groups of formals: `VAL t n, ..` and `t n, ..`, of a FUNCTION with VAL alone.
ghost use Rattle.occ_lines.specs.declared.token.Token.TheVariants as t;
ghost use Rattle.occ_lines.specs.declared.token.Token.{Token as AToken};
ghost use Rattle.occ_lines.specs.declared.token.Word.TheVariants as w;
ghost use Rattle.occ_forms.specs.SpecificationReading.{IsEndOfNames};
ghost use Rattle.occ_forms.specs.SpecificationSpelling.{formal_group_then, in_parens, value_group_then};
ghost use Rattle.occ_forms_expressions.specs.Reading.{Reads};
ghost use Rattle.occ_forms.specs.declared.specification_tree.FormalGroup.{FormalGroup as AFormalGroup};
ghost use Rattle.occ_forms.specs.declared.specification_tree.ValueGroup.{ValueGroup as AValueGroup};
ghost use Rattle.std.specs.Prelude.{IfOk, IfSome, List, length, ◌∷◌, ◌≡◌, ◌<◌};

use super::from_tokens::{FromTokens, closed_list};
use super::names::names;
use super::specification_tree::{FormalGroup, ValueGroup};
use occ_base::Items;
use occ_forms_expressions::{after, after_word, data_form, type_form};
use occ_lines::{Symbol, Token, Word};
use std::alloc::{AllocError, Global};

/// Formals that are values, of which `VAL` is read.
fn value_group(
    alloc: Global,
    tokens: &[Token],
) -> Result<Option<(ValueGroup, &[Token])>, AllocError>
    ensures found { IfOk result (λ r. IfSome r (λ x. t.Word w.Val ∷ tokens.now ≡ value_group_then x.0 x.1.now)) }
    ensures shorter { IfOk result (λ r. IfSome r (λ x. length x.1.now < length tokens.now)) }
    ensures only { IfOk result (λ r. (g : AValueGroup) (k : List AToken) → IsEndOfNames k → t.Word w.Val ∷ tokens.now ≡ value_group_then g k → Reads r g k) }
{
    let Some((form, rest)) = data_form(alloc, tokens)? else {
        return Ok(None);
    };
    let Some((first, more, rest)) = names(alloc, rest)? else {
        return Ok(None);
    };
    Ok(Some((ValueGroup { form, first, more }, rest)))
}

impl FromTokens for ValueGroup {
    ghost spells = { value_group_then };

    ghost ends = { IsEndOfNames };

    fn read(alloc: Global, tokens: &[Token]) -> Result<Option<(ValueGroup, &[Token])>, AllocError> {
        let Some(rest) = after_word(tokens, Word::Val) else {
            return Ok(None);
        };
        value_group(alloc, rest)
    }
}

impl FromTokens for FormalGroup {
    ghost spells = { formal_group_then };

    ghost ends = { IsEndOfNames };

    fn read(
        alloc: Global,
        tokens: &[Token],
    ) -> Result<Option<(FormalGroup, &[Token])>, AllocError> {
        if let Some(rest) = after_word(tokens, Word::Val) {
            let Some((group, rest)) = value_group(alloc, rest)? else {
                return Ok(None);
            };
            return Ok(Some((FormalGroup::Value(group), rest)));
        }
        let Some((form, rest)) = type_form(alloc, tokens)? else {
            return Ok(None);
        };
        let Some((first, more, rest)) = names(alloc, rest)? else {
            return Ok(None);
        };
        Ok(Some((FormalGroup::Plain(form, first, more), rest)))
    }
}

/// The formals of a procedure.
pub fn formals(
    alloc: Global,
    tokens: &[Token],
) -> Result<Option<(Items<FormalGroup>, &[Token])>, AllocError>
    ensures found { IfOk result (λ r. IfSome r (λ x. tokens.now ≡ in_parens formal_group_then x.0 x.1.now)) }
    ensures shorter { IfOk result (λ r. IfSome r (λ x. length x.1.now < length tokens.now)) }
    ensures only { IfOk result (λ r. (gs : List AFormalGroup) (k : List AToken) → tokens.now ≡ in_parens formal_group_then gs k → Reads r gs k) }
{
    let Some(rest) = after(tokens, Symbol::Open) else {
        return Ok(None);
    };
    closed_list::<FormalGroup>(alloc, rest)
}

/// The formals of a function.
pub fn value_formals(
    alloc: Global,
    tokens: &[Token],
) -> Result<Option<(Items<ValueGroup>, &[Token])>, AllocError>
    ensures found { IfOk result (λ r. IfSome r (λ x. tokens.now ≡ in_parens value_group_then x.0 x.1.now)) }
    ensures shorter { IfOk result (λ r. IfSome r (λ x. length x.1.now < length tokens.now)) }
    ensures only { IfOk result (λ r. (gs : List AValueGroup) (k : List AToken) → tokens.now ≡ in_parens value_group_then gs k → Reads r gs k) }
{
    let Some(rest) = after(tokens, Symbol::Open) else {
        return Ok(None);
    };
    closed_list::<ValueGroup>(alloc, rest)
}
