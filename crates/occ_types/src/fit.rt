//! When types agree: but for unknown numbers of components, or but for names too. Views of a type under its names.
//! `docs/LANGUAGE.md, Types that agree`.
#![tactic(auto, using(crate::proofs::Agreeing::fit_rules))]

ghost use Rattle.std.specs.Prelude.{◌≡◌, MatchOption, None, Some};
ghost use Rattle.occ_types.specs.View.{as_array as spec_as_array, as_primitive as spec_as_primitive, fields_in, is_faulty_tag as spec_is_faulty_tag, is_unknown as spec_is_unknown, is_unknown_item as spec_is_unknown_item};
ghost use Rattle.occ_types.specs.Fits.{alike as spec_alike, counts_fit, field_alike as spec_field_alike, fields_alike as spec_fields_alike, is_data as spec_is_data, field_fits as spec_field_fits, fields_fit as spec_fields_fit, fits as spec_fits, item_fits as spec_item_fits, items_fit as spec_items_fit, protocol_fits as spec_protocol_fits, tag_fits as spec_tag_fits, tags_fit as spec_tags_fit, unnamed as spec_unnamed};

use super::types::{Field, Item, OccType, Protocol, Tag};
use super::value::Primitive;
use occ_base::Shared;

/// The type under the names of a type: itself, if it has none.
pub fn unnamed(of: &OccType) -> &OccType
    ensures { result.now ≡ spec_unnamed of.now }
{
    match of {
        OccType::Named(_, inner) => unnamed(inner.get()),
        _ => of,
    }
}

/// Whether two types are one, but for unknown numbers of components, and for fields and tags whose lines have faults.
#[cycle(fits)]
pub fn fits(a: &OccType, b: &OccType) -> bool
    ensures { result ≡ spec_fits a.now b.now }
{
    match a {
        OccType::Primitive(x) => match b {
            OccType::Primitive(y) => x == y,
            _ => false,
        },
        OccType::Array(n, inner) => match b {
            OccType::Array(m, other) => count_fits(*n, *m) && fits(inner.get(), other.get()),
            _ => false,
        },
        OccType::Record(packing, fields) => match b {
            OccType::Record(other, others) => packing == other
                && fields_fit(fields.as_slice(), others.as_slice()),
            _ => false,
        },
        OccType::Named(name, inner) => match b {
            OccType::Named(other, defined) => name == other && fits(inner.get(), defined.get()),
            _ => false,
        },
        OccType::Channel(carried) => match b {
            OccType::Channel(other) => protocol_fits(carried.get(), other.get()),
            _ => false,
        },
        OccType::Timer => matches!(b, OccType::Timer),
        OccType::Unknown => matches!(b, OccType::Unknown),
    }
}

#[cycle(fits)]
fn protocol_fits(a: &Protocol, b: &Protocol) -> bool
    ensures { result ≡ spec_protocol_fits a.now b.now }
{
    match a {
        Protocol::Any => matches!(b, Protocol::Any),
        Protocol::Sequence(items) => match b {
            Protocol::Sequence(others) => items_fit(items.as_slice(), others.as_slice()),
            _ => false,
        },
        Protocol::Variant(tags) => match b {
            Protocol::Variant(others) => tags_fit(tags.as_slice(), others.as_slice()),
            _ => false,
        },
        Protocol::Defined(name, inner) => match b {
            Protocol::Defined(other, defined) => name == other
                && protocol_fits(inner.get(), defined.get()),
            _ => false,
        },
    }
}

#[cycle(fits)]
fn item_fits(a: &Item, b: &Item) -> bool
    ensures { result ≡ spec_item_fits a.now b.now }
{
    match a {
        Item::Value(of) => match b {
            Item::Value(other) => fits(of.get(), other.get()),
            _ => false,
        },
        Item::Counted(count, of) => match b {
            Item::Counted(other, values) => count == other && fits(of.get(), values.get()),
            _ => false,
        },
    }
}

#[cycle(fits)]
fn field_fits(a: &Field, b: &Field) -> bool
    ensures { result ≡ spec_field_fits a.now b.now }
{
    a.name.name() == b.name.name()
        && (is_unknown(a.of.get()) || is_unknown(b.of.get()) || fits(a.of.get(), b.of.get()))
}

#[cycle(fits)]
fn tag_fits(a: &Tag, b: &Tag) -> bool
    ensures { result ≡ spec_tag_fits a.now b.now }
{
    a.name.name() == b.name.name()
        && (is_faulty_tag(a)
            || is_faulty_tag(b)
            || items_fit(a.items.as_slice(), b.items.as_slice()))
}

#[cycle(fits)]
fn fields_fit(a: &[Field], b: &[Field]) -> bool
    ensures { result ≡ spec_fields_fit a.now b.now }
{
    let mut others = b;
    for field in a {
        let Some((other, rest)) = others.split_first() else {
            return false;
        };
        if !field_fits(field, other) {
            return false;
        }
        others = rest;
    }
    others.is_empty()
}

#[cycle(fits)]
fn items_fit(a: &[Item], b: &[Item]) -> bool
    ensures { result ≡ spec_items_fit a.now b.now }
{
    let mut others = b;
    for item in a {
        let Some((other, rest)) = others.split_first() else {
            return false;
        };
        if !item_fits(item, other) {
            return false;
        }
        others = rest;
    }
    others.is_empty()
}

#[cycle(fits)]
fn tags_fit(a: &[Tag], b: &[Tag]) -> bool
    ensures { result ≡ spec_tags_fit a.now b.now }
{
    let mut others = b;
    for tag in a {
        let Some((other, rest)) = others.split_first() else {
            return false;
        };
        if !tag_fits(tag, other) {
            return false;
        }
        others = rest;
    }
    others.is_empty()
}

/// Whether two types are one when each name of a type is dropped, at any depth. No channel and no timer is in them, and a
/// field whose line has a fault is alike with any of its name.
#[cycle(alike)]
pub fn alike(a: &OccType, b: &OccType) -> bool
    ensures { result ≡ spec_alike a.now b.now }
{
    match a {
        OccType::Named(_, inner) => alike(inner.get(), b),
        OccType::Primitive(x) => match unnamed(b) {
            OccType::Primitive(y) => x == y,
            _ => false,
        },
        OccType::Array(n, inner) => match unnamed(b) {
            OccType::Array(m, other) => count_fits(*n, *m) && alike(inner.get(), other.get()),
            _ => false,
        },
        OccType::Record(packing, fields) => match unnamed(b) {
            OccType::Record(other, others) => {
                packing == other && fields_alike(fields.as_slice(), others.as_slice())
            }
            _ => false,
        },
        OccType::Unknown => true,
        OccType::Channel(_) | OccType::Timer => false,
    }
}

#[cycle(alike)]
fn field_alike(a: &Field, b: &Field) -> bool
    ensures { result ≡ spec_field_alike a.now b.now }
{
    a.name.name() == b.name.name() && (is_unknown(b.of.get()) || alike(a.of.get(), b.of.get()))
}

#[cycle(alike)]
fn fields_alike(a: &[Field], b: &[Field]) -> bool
    ensures { result ≡ spec_fields_alike a.now b.now }
{
    let mut others = b;
    for field in a {
        let Some((other, rest)) = others.split_first() else {
            return false;
        };
        if !field_alike(field, other) {
            return false;
        }
        others = rest;
    }
    others.is_empty()
}

/// Whether a type is no channel, no timer and no array of them.
pub fn is_data(of: &OccType) -> bool
    ensures { result ≡ spec_is_data of.now }
{
    match of {
        OccType::Array(_, inner) => is_data(inner.get()),
        OccType::Channel(_) | OccType::Timer => false,
        OccType::Primitive(_) | OccType::Record(_, _) | OccType::Named(_, _) | OccType::Unknown =>
            true,
    }
}

/// Whether two numbers of components are one, or one is not known.
fn count_fits(a: Option<u32>, b: Option<u32>) -> bool
    ensures { result ≡ counts_fit a b }
{
    match (a, b) {
        (Some(m), Some(n)) => m == n,
        _ => true,
    }
}

/// The primitive type that a type is, if it is one without a name.
pub fn as_primitive(of: &OccType) -> Option<Primitive>
    ensures { result ≡ spec_as_primitive of.now }
{
    match of {
        OccType::Primitive(primitive) => Some(*primitive),
        _ => None,
    }
}

/// The primitive type that a type is under its names, if it is one.
pub fn base_of(of: &OccType) -> Option<Primitive>
    ensures { result ≡ spec_as_primitive (spec_unnamed of.now) }
{
    as_primitive(unnamed(of))
}

/// The number of components of an array without a name, if it is known, and their type.
pub fn array_of(of: &OccType) -> Option<(Option<u32>, &Shared<OccType>)>
    ensures { MatchOption result (spec_as_array of.now ≡ None) (λ parts. spec_as_array of.now ≡ Some (parts.0, parts.1.now)) }
{
    match of {
        OccType::Array(count, inner) => Some((*count, inner)),
        _ => None,
    }
}

/// The fields of a record without a name.
pub fn fields_of(of: &OccType) -> Option<&[Field]>
    ensures { MatchOption result (fields_in of.now ≡ None) (λ fields. fields_in of.now ≡ Some fields.now) }
{
    match of {
        OccType::Record(_, fields) => Some(fields.as_slice()),
        _ => None,
    }
}

/// Whether an item is of unknown type.
fn is_unknown_item(item: &Item) -> bool
    ensures { result ≡ spec_is_unknown_item item.now }
{
    match item {
        Item::Value(of) => is_unknown(of.get()),
        Item::Counted(_, _) => false,
    }
}

/// Whether the line of a tag has a fault.
pub fn is_faulty_tag(tag: &Tag) -> bool
    ensures { result ≡ spec_is_faulty_tag tag.now }
{
    for item in tag.items.as_slice() {
        if is_unknown_item(item) {
            return true;
        }
    }
    false
}

/// Whether the type is that of a field whose line has a fault.
pub fn is_unknown(of: &OccType) -> bool
    ensures { result ≡ spec_is_unknown of.now }
{
    matches!(of, OccType::Unknown)
}
