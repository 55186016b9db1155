//! The dimensions of a type, what is under them, and whether a record that is not PACKED is in it.
#![tactic(auto, using(crate::proofs::Folds::dimension_rules))]

ghost use Rattle.std.specs.Prelude.{◌≡◌, IfOk};
ghost use Rattle.occ_typing_rules.specs.Dimensions.{fields_hold_plain_record, holds_plain_record as spec_holds_plain_record, innermost as spec_innermost, record_of, sized as spec_sized, sized_array as spec_sized_array};
ghost use Rattle.occ_types.specs.Unknown.{any_of};

use occ_base::Shared;
use occ_types::{Field, OccType, Packing};
use std::alloc::{AllocError, Global};

/// What stands after the dimensions of a type, up to its first name: itself, if it has none.
pub fn innermost(of: &OccType) -> &OccType
    ensures { result.now ≡ spec_innermost of.now }
{
    match of {
        OccType::Array(_, inner) => innermost(inner.get()),
        OccType::Primitive(_)
        | OccType::Record(_, _)
        | OccType::Named(_, _)
        | OccType::Channel(_)
        | OccType::Timer
        | OccType::Unknown => of,
    }
}

/// A type with so many components in place of its first `[]`.
#[cycle(sized)]
pub fn sized(alloc: Global, of: &Shared<OccType>, count: u32) -> Result<Shared<OccType>, AllocError>
    ensures { IfOk result (λ found. found ≡ spec_sized count of.now) }
{
    match of.get() {
        OccType::Array(dimension, inner) => sized_array(alloc, *dimension, inner, count),
        OccType::Primitive(_)
        | OccType::Record(_, _)
        | OccType::Named(_, _)
        | OccType::Channel(_)
        | OccType::Timer
        | OccType::Unknown => of.share(),
    }
}

/// An array of these components, with so many in place of the first `[]`.
#[cycle(sized)]
fn sized_array(
    alloc: Global,
    dimension: Option<u32>,
    inner: &Shared<OccType>,
    count: u32,
) -> Result<Shared<OccType>, AllocError>
    ensures { IfOk result (λ found. found ≡ spec_sized_array dimension count inner.now (spec_sized count inner.now)) }
{
    let (dimension, inner) = match dimension {
        None => (count, inner.share()?),
        Some(n) => (n, sized(alloc, inner, count)?),
    };
    Shared::new(alloc, OccType::Array(Some(dimension), inner))
}

/// Whether a value of the type has a record in it that is not PACKED.
#[cycle(plain)]
pub fn holds_plain_record(of: &OccType) -> bool
    ensures { result ≡ spec_holds_plain_record of.now }
{
    match of {
        OccType::Primitive(_) | OccType::Channel(_) | OccType::Timer | OccType::Unknown => false,
        OccType::Array(_, inner) => holds_plain_record(inner.get()),
        OccType::Named(_, inner) => holds_plain_record(inner.get()),
        OccType::Record(packing, fields) => is_plain(*packing, fields.as_slice()),
    }
}

/// Whether a record is not PACKED, or has such a one in it.
#[cycle(plain)]
fn is_plain(packing: Packing, fields: &[Field]) -> bool
    ensures { result ≡ record_of packing (any_of (fields_hold_plain_record fields.now)) }
{
    match packing {
        Packing::Plain => true,
        Packing::Packed => any_field_holds_plain_record(fields),
    }
}

#[cycle(plain)]
fn any_field_holds_plain_record(fields: &[Field]) -> bool
    ensures { result ≡ any_of (fields_hold_plain_record fields.now) }
{
    for field in fields {
        if holds_plain_record(field.of.get()) {
            return true;
        }
    }
    false
}
