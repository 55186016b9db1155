//! Whether a type holds a field whose line has a fault.
#![tactic(auto, using(crate::proofs::Unknowns::unknown_rules))]

ghost use Rattle.std.specs.Prelude.{◌≡◌};
ghost use Rattle.occ_types.specs.Unknown.{any_of, fields_unknown, holds_unknown as spec_holds_unknown, item_unknown, items_unknown, protocol_unknown, tags_unknown};

use super::types::{Field, Item, OccType, Protocol, Tag};

/// Whether the type holds what is not known: a field whose line has a fault.
#[cycle(unknown)]
pub fn holds_unknown(of: &OccType) -> bool
    ensures { result ≡ spec_holds_unknown of.now }
{
    match of {
        OccType::Primitive(_) | OccType::Timer => false,
        OccType::Unknown => true,
        OccType::Array(_, inner) => holds_unknown(inner.get()),
        OccType::Record(_, fields) => any_field_holds_unknown(fields.as_slice()),
        OccType::Named(_, inner) => holds_unknown(inner.get()),
        OccType::Channel(carried) => protocol_holds_unknown(carried.get()),
    }
}

#[cycle(unknown)]
fn protocol_holds_unknown(of: &Protocol) -> bool
    ensures { result ≡ protocol_unknown of.now }
{
    match of {
        Protocol::Any => false,
        Protocol::Sequence(items) => any_item_holds_unknown(items.as_slice()),
        Protocol::Variant(tags) => any_tag_holds_unknown(tags.as_slice()),
        Protocol::Defined(_, inner) => protocol_holds_unknown(inner.get()),
    }
}

#[cycle(unknown)]
fn item_holds_unknown(of: &Item) -> bool
    ensures { result ≡ item_unknown of.now }
{
    match of {
        Item::Value(of) => holds_unknown(of.get()),
        Item::Counted(_, of) => holds_unknown(of.get()),
    }
}

#[cycle(unknown)]
fn any_field_holds_unknown(fields: &[Field]) -> bool
    ensures { result ≡ any_of (fields_unknown fields.now) }
{
    for field in fields {
        if holds_unknown(field.of.get()) {
            return true;
        }
    }
    false
}

#[cycle(unknown)]
fn any_item_holds_unknown(items: &[Item]) -> bool
    ensures { result ≡ any_of (items_unknown items.now) }
{
    for item in items {
        if item_holds_unknown(item) {
            return true;
        }
    }
    false
}

#[cycle(unknown)]
fn any_tag_holds_unknown(tags: &[Tag]) -> bool
    ensures { result ≡ any_of (tags_unknown tags.now) }
{
    for tag in tags {
        if any_item_holds_unknown(tag.items.as_slice()) {
            return true;
        }
    }
    false
}
