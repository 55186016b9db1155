//! Parses the parts of tags and variants: types, `t::[]u`, elements and `el::el`.
ghost use Rattle.occ_forms_expressions.specs.Reading.{Reads};
ghost use Rattle.occ_forms_expressions.specs.Spelling.{builtin_then, counted_array, data_form_then, dimension_then, element_then, many};
ghost use Rattle.occ_forms_expressions.specs.declared.tree.Builtin.{Builtin as ABuiltin};
ghost use Rattle.occ_forms_expressions.specs.declared.tree.DataForm.{DataForm as ADataForm};
ghost use Rattle.occ_forms_expressions.specs.declared.tree.Dimension.{Dimension as ADimension};
ghost use Rattle.occ_forms_expressions.specs.declared.tree.Element.{Element as AnElement};
ghost use Rattle.occ_forms.specs.inside.Details.{typed_of};
ghost use Rattle.occ_forms.specs.Reading.{IsItemEnd};
ghost use Rattle.occ_forms.specs.Spelling.{counted, detail_then};
ghost use Rattle.occ_forms.specs.declared.tree.Detail.TheVariants as de;
ghost use Rattle.occ_forms.specs.declared.tree.Detail.{Detail as ADetail};
ghost use Rattle.occ_lines.specs.declared.token.Symbol.TheVariants as s;
ghost use Rattle.occ_lines.specs.declared.token.Token.TheVariants as t;
ghost use Rattle.occ_lines.specs.declared.token.Token.{Token as AToken};
ghost use Rattle.std.specs.Prelude.{IfOk, IfSome, List, length, ℕ, ◌≡◌, ◌<◌};

use super::from_tokens::FromTokens;
use super::tree::Detail;
use occ_base::Boxed;
use occ_forms_expressions::{
    Builtin, DataBase, DataForm, TypeForm, after, after_counted, data_form, element, type_form,
};
use occ_lines::{Symbol, Token};
use std::alloc::{AllocError, Global};

/// The data type, if it is more than a name alone.
pub fn typed(alloc: Global, form: DataForm) -> Result<Option<Detail>, AllocError>
    ensures { IfOk result (λ found. found ≡ typed_of form) }
{
    let DataForm {
        mut dimensions,
        base,
    } = form;
    match base {
        DataBase::Primitive(primitive) => {
            let builtin = Boxed::new(alloc, Builtin::Primitive(primitive))?;
            Ok(Some(Detail::Builtin(dimensions, builtin)))
        }
        DataBase::Named(name) => {
            if dimensions.len() == 0 {
                return Ok(None);
            }
            let first = dimensions.remove(0);
            Ok(Some(Detail::Array(first, dimensions, name)))
        }
    }
}

/// The rest of a counted array, of which the first type and `::[]` are read.
pub fn counted_detail(
    alloc: Global,
    count: DataForm,
    tokens: &[Token],
) -> Result<Option<(Detail, &[Token])>, AllocError>
    ensures found { IfOk result (λ r. IfSome r (λ x. data_form_then count (counted_array tokens.now) ≡ detail_then x.0 x.1.now)) }
    ensures shorter { IfOk result (λ r. IfSome r (λ x. length x.1.now < length tokens.now)) }
    ensures only { IfOk result (λ r. (component : ADataForm) (k : List AToken) → tokens.now ≡ data_form_then component k → Reads r (de.CountedType count component) k) }
{
    let Some((component, rest)) = data_form(alloc, tokens)? else {
        return Ok(None);
    };
    Ok(Some((Detail::CountedType(count, component), rest)))
}

/// A counted array, or a data type that is more than a name alone.
pub fn type_detail(
    alloc: Global,
    tokens: &[Token],
) -> Result<Option<(Detail, &[Token])>, AllocError>
    ensures found { IfOk result (λ r. IfSome r (λ x. tokens.now ≡ detail_then x.0 x.1.now)) }
    ensures shorter { IfOk result (λ r. IfSome r (λ x. length x.1.now < length tokens.now)) }
    ensures right { IfOk result (λ r. (x : ADetail) (k : List AToken) → IsItemEnd k → tokens.now ≡ detail_then x k → IfSome r (λ y. (y.0 ≡ x) × (y.1.now ≡ k))) }
    ensures array { IfOk result (λ r. (d : ADimension) (ds : List ADimension) (n : List ℕ) (k : List AToken) → IsItemEnd k → tokens.now ≡ detail_then (de.Array d ds n) k → Reads r (de.Array d ds n) k) }
    ensures counted { IfOk result (λ r. (count component : ADataForm) (k : List AToken) → tokens.now ≡ detail_then (de.CountedType count component) k → Reads r (de.CountedType count component) k) }
{
    let Some((form, rest)) = data_form(alloc, tokens)? else {
        return Ok(None);
    };
    if let Some(begun) = after_counted(rest) {
        return counted_detail(alloc, form, begun);
    }
    match typed(alloc, form)? {
        Some(detail) => Ok(Some((detail, rest))),
        None => Ok(None),
    }
}

/// An element, perhaps with what it counts.
pub fn element_detail(
    alloc: Global,
    tokens: &[Token],
) -> Result<Option<(Detail, &[Token])>, AllocError>
    ensures found { IfOk result (λ r. IfSome r (λ x. tokens.now ≡ detail_then x.0 x.1.now)) }
    ensures shorter { IfOk result (λ r. IfSome r (λ x. length x.1.now < length tokens.now)) }
    ensures begins { IfOk result (λ r. IfSome r (λ x. (el : AnElement) × (j : List AToken) × (tokens.now ≡ element_then el j))) }
    ensures element { IfOk result (λ r. (el : AnElement) (k : List AToken) → IsItemEnd k → tokens.now ≡ element_then el k → Reads r (de.Element el) k) }
    ensures counted { IfOk result (λ r. (el array : AnElement) (k : List AToken) → IsItemEnd k → tokens.now ≡ counted (element_then el) (element_then array) k → Reads r (de.Counted el array) k) }
{
    let Some((first, rest)) = element(alloc, tokens)? else {
        return Ok(None);
    };
    let Some(begun) = after(rest, Symbol::Counted) else {
        return Ok(Some((Detail::Element(first), rest)));
    };
    let Some((array, rest)) = element(alloc, begun)? else {
        return Ok(None);
    };
    Ok(Some((Detail::Counted(first, array), rest)))
}

/// A type that begins with a reserved word after its dimensions.
pub fn builtin_detail(
    alloc: Global,
    tokens: &[Token],
) -> Result<Option<(Detail, &[Token])>, AllocError>
    ensures found { IfOk result (λ r. IfSome r (λ x. tokens.now ≡ detail_then x.0 x.1.now)) }
    ensures shorter { IfOk result (λ r. IfSome r (λ x. length x.1.now < length tokens.now)) }
    ensures only { IfOk result (λ r. (ds : List ADimension) (b : ABuiltin) (k : List AToken) → IsItemEnd k → tokens.now ≡ many dimension_then ds (builtin_then b k) → Reads r (de.Builtin ds b) k) }
{
    let Some((form, rest)) = type_form(alloc, tokens)? else {
        return Ok(None);
    };
    let TypeForm::Builtin(dimensions, builtin) = form else {
        return Ok(None);
    };
    Ok(Some((Detail::Builtin(dimensions, builtin), rest)))
}

impl FromTokens for Detail {
    ghost spells = { detail_then };

    ghost ends = { IsItemEnd };

    fn read(alloc: Global, tokens: &[Token]) -> Result<Option<(Detail, &[Token])>, AllocError> {
        if let Some(found) = type_detail(alloc, tokens)? {
            return Ok(Some(found));
        }
        if let Some(found) = element_detail(alloc, tokens)? {
            return Ok(Some(found));
        }
        builtin_detail(alloc, tokens)
    }
}
