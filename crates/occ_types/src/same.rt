//! Whether two types or two protocols are one tree.
ghost use Rattle.std.specs.Prelude.{IsTrue, ◌≡◌, ◌↔◌};

use super::types::{Field, Item, OccType, Protocol, Tag};

/// Whether two types are one. Two named types are if their names and their definitions are equal. It takes no memory,
/// and goes once through both until they differ.
#[cycle(same)]
pub fn same_type(a: &OccType, b: &OccType) -> bool
    ensures { IsTrue result ↔ (a.now ≡ b.now) }
{
    match (a, b) {
        (OccType::Primitive(x), OccType::Primitive(y)) => x == y,
        (OccType::Array(m, inner), OccType::Array(n, other)) => m == n
            && same_type(inner.get(), other.get()),
        (OccType::Record(packing, fields), OccType::Record(other, others)) => packing == other
            && same_fields(fields.as_slice(), others.as_slice()),
        (OccType::Named(name, inner), OccType::Named(other, defined)) => name == other
            && same_type(inner.get(), defined.get()),
        (OccType::Channel(carried), OccType::Channel(other)) => same_protocol(
            carried.get(),
            other.get(),
        ),
        (OccType::Timer, OccType::Timer) | (OccType::Unknown, OccType::Unknown) => true,
        _ => false,
    }
}

/// Whether two protocols are one. Two named protocols are if their names and their definitions are equal.
#[cycle(same)]
pub fn same_protocol(a: &Protocol, b: &Protocol) -> bool
    ensures { IsTrue result ↔ (a.now ≡ b.now) }
{
    match (a, b) {
        (Protocol::Any, Protocol::Any) => true,
        (Protocol::Sequence(items), Protocol::Sequence(others)) => same_items(
            items.as_slice(),
            others.as_slice(),
        ),
        (Protocol::Variant(tags), Protocol::Variant(others)) => same_tags(
            tags.as_slice(),
            others.as_slice(),
        ),
        (Protocol::Defined(name, inner), Protocol::Defined(other, defined)) => name == other
            && same_protocol(inner.get(), defined.get()),
        _ => false,
    }
}

#[cycle(same)]
fn same_field(a: &Field, b: &Field) -> bool
    ensures { IsTrue result ↔ (a.now ≡ b.now) }
{
    a.name.name() == b.name.name() && same_type(a.of.get(), b.of.get())
}

#[cycle(same)]
fn same_item(a: &Item, b: &Item) -> bool
    ensures { IsTrue result ↔ (a.now ≡ b.now) }
{
    match (a, b) {
        (Item::Value(x), Item::Value(y)) => same_type(x.get(), y.get()),
        (Item::Counted(count, x), Item::Counted(other, y)) => count == other
            && same_type(x.get(), y.get()),
        _ => false,
    }
}

#[cycle(same)]
fn same_tag(a: &Tag, b: &Tag) -> bool
    ensures { IsTrue result ↔ (a.now ≡ b.now) }
{
    a.name.name() == b.name.name() && same_items(a.items.as_slice(), b.items.as_slice())
}

#[cycle(same)]
fn same_fields(a: &[Field], b: &[Field]) -> bool
    ensures { IsTrue result ↔ (a.now ≡ b.now) }
{
    if a.len() != b.len() {
        return false;
    }
    for i in 0..a.len() {
        if !same_field(&a[i], &b[i]) {
            return false;
        }
    }
    true
}

#[cycle(same)]
fn same_items(a: &[Item], b: &[Item]) -> bool
    ensures { IsTrue result ↔ (a.now ≡ b.now) }
{
    if a.len() != b.len() {
        return false;
    }
    for i in 0..a.len() {
        if !same_item(&a[i], &b[i]) {
            return false;
        }
    }
    true
}

#[cycle(same)]
fn same_tags(a: &[Tag], b: &[Tag]) -> bool
    ensures { IsTrue result ↔ (a.now ≡ b.now) }
{
    if a.len() != b.len() {
        return false;
    }
    for i in 0..a.len() {
        if !same_tag(&a[i], &b[i]) {
            return false;
        }
    }
    true
}
