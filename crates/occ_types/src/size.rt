//! The bytes of a type, and whether they are too many.
#![tactic(auto, using(crate::proofs::Sizes::size_rules))]

ghost use Rattle.std.specs.Prelude.{IfSome, ◌+◌, ◌≡◌, ◌≤◌};
ghost use Rattle.occ_types.specs.Size.{bytes_in, capped, cut, field_sizes, primitive_size, product_of, size_of, total_of};

use super::types::{Field, OccType};
use super::value::Primitive;

/// The bytes of a type: none for a channel or a timer, for an open dimension, and for more than 2,147,483,647.
pub fn bytes_of(of: &OccType) -> Option<u32>
    ensures { result ≡ bytes_in (size_of of.now) }
{
    within(extent(of))
}

/// The extent, unless it is too large.
fn within(extent: Option<u64>) -> Option<u32>
    ensures { result ≡ bytes_in extent }
{
    match extent {
        Some(bytes) if bytes <= 2_147_483_647 => Some(bytes as u32),
        _ => None,
    }
}

/// The bytes of a type, or 2,147,483,648 where they are more. A name of a primitive type takes no call.
#[cycle(extent)]
pub(super) fn extent(of: &OccType) -> Option<u64>
    ensures value { result ≡ capped (size_of of.now) }
    ensures most { IfSome result (λ bytes. bytes ≤ 2147483648) }
{
    match of {
        OccType::Primitive(primitive) => Some(primitive_bytes(*primitive)),
        OccType::Array(dimension, inner) => array_extent(*dimension, extent(inner.get())),
        OccType::Record(_, fields) => fields_extent(fields.as_slice()),
        OccType::Named(_, inner) => match inner.get() {
            OccType::Primitive(primitive) => Some(primitive_bytes(*primitive)),
            defined => extent(defined),
        },
        OccType::Channel(_) | OccType::Timer | OccType::Unknown => None,
    }
}

/// The bytes of all fields, or 2,147,483,648 where they are more.
#[cycle(extent)]
fn fields_extent(fields: &[Field]) -> Option<u64>
    ensures value { result ≡ capped (total_of (field_sizes fields.now)) }
    ensures most { IfSome result (λ bytes. bytes ≤ 2147483648) }
{
    let mut total = 0;
    for field in fields {
        let bytes = extent(field.of.get())?;
        total = add(total, bytes);
    }
    Some(total)
}

/// So many elements of one extent.
pub(super) fn array_extent(dimension: Option<u32>, inner: Option<u64>) -> Option<u64>
    requires { IfSome inner (λ bytes. bytes ≤ 2147483648) }
    ensures value { result ≡ capped (product_of dimension inner) }
    ensures most { IfSome result (λ bytes. bytes ≤ 2147483648) }
{
    match (dimension, inner) {
        (Some(n), Some(bytes)) => Some((u64::from(n) * bytes).min(2_147_483_648)),
        _ => None,
    }
}

fn add(a: u64, b: u64) -> u64
    requires first { a ≤ 2147483648 }
    requires second { b ≤ 2147483648 }
    ensures value { result ≡ cut (a + b) }
    ensures most { result ≤ 2147483648 }
{
    (a + b).min(2_147_483_648)
}

fn primitive_bytes(primitive: Primitive) -> u64
    ensures value { result ≡ primitive_size primitive }
    ensures most { result ≤ 8 }
{
    match primitive {
        Primitive::Bool | Primitive::Byte => 1,
        Primitive::Int16 => 2,
        Primitive::Int | Primitive::Int32 => 4,
        Primitive::Int64 => 8,
    }
}
