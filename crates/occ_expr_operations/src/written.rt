//! Written types: dimensions, base types, channels and what they carry, with T2, T5 and T9.
ghost use Rattle.std.specs.Prelude.{◌≡◌, ◌++◌, IfOk, OnOk};
ghost use Rattle.occ_types.specs.declared.types.OccType.TheVariants as t;
ghost use Rattle.occ_expr_operations.specs.Written.{array_of as spec_array_of, base_type as spec_base_type, channel_if, channel_of_values, count_type as spec_count_type, counted_type as spec_counted_type, extent_of as spec_extent_of, limited as spec_limited, open_dimension as spec_open_dimension, primitive_of as spec_primitive_of, spanned as spec_spanned, spanned_by as spec_spanned_by};

use occ_base::{Code, Fault, Items, Shared, report};
use occ_forms_expressions::{DataBase, PrimitiveWord};
use occ_scope::{Carried, Scope, data_type};
use occ_types::{KnownType, OccType, Primitive, Protocol, as_primitive};
use occ_typing_operands::number;
use std::alloc::{AllocError, Global};

/// Whether `[]` may stand in a type.
#[derive(Clone, Copy)]
pub enum Opening {
    /// In the type of a formal or an abbreviation.
    Allowed,
    Refused,
}

/// How many components a type has in a dimension.
#[derive(Clone, Copy)]
pub enum Extent {
    /// The size has a fault, which was reported.
    Faulty,
    /// `[]`
    Open,
    Sized(u32),
}

/// The primitive type that a word means.
pub fn primitive_of(word: PrimitiveWord) -> Primitive
    ensures { result ≡ spec_primitive_of word }
{
    match word {
        PrimitiveWord::Bool => Primitive::Bool,
        PrimitiveWord::Byte => Primitive::Byte,
        PrimitiveWord::Int => Primitive::Int,
        PrimitiveWord::Int16 => Primitive::Int16,
        PrimitiveWord::Int32 => Primitive::Int32,
        PrimitiveWord::Int64 => Primitive::Int64,
    }
}

/// A data type without dimensions.
pub fn base_type(
    alloc: Global,
    scope: &Scope,
    base: &DataBase,
    faults: &mut Items<Fault>,
) -> Result<Option<KnownType>, AllocError>
    ensures found { IfOk result (λ found. found ≡ (spec_base_type scope.now base.now).found) }
    ensures faults { OnOk result (faults.new ≡ faults.old ++ (spec_base_type scope.now base.now).faults) }
{
    match base {
        DataBase::Named(name) => data_type(alloc, scope, name, faults),
        DataBase::Primitive(word) => Ok(Some(KnownType::new(Shared::new(
            alloc,
            OccType::Primitive(primitive_of(*word)),
        )?))),
    }
}

/// `[]`
pub fn open_dimension(opening: Opening, faults: &mut Items<Fault>) -> Result<Extent, AllocError>
    ensures extent { IfOk result (λ extent. extent ≡ (spec_open_dimension opening).extent) }
    ensures faults { OnOk result (faults.new ≡ faults.old ++ (spec_open_dimension opening).faults) }
{
    match opening {
        Opening::Allowed => Ok(Extent::Open),
        Opening::Refused => {
            report(faults, Code::T5)?;
            Ok(Extent::Faulty)
        }
    }
}

/// The dimension of this size, if that has no fault.
pub fn extent_of(size: Option<u32>) -> Extent
    ensures { result ≡ spec_extent_of size }
{
    match size {
        Some(size) => Extent::Sized(size),
        None => Extent::Faulty,
    }
}

/// An array of components of a type, if its dimension has no fault.
fn array_of(alloc: Global, extent: Extent, of: KnownType) -> Result<Option<KnownType>, AllocError>
    ensures { IfOk result (λ array. array ≡ spec_array_of extent of) }
{
    let count = match extent {
        Extent::Faulty => return Ok(None),
        Extent::Open => None,
        Extent::Sized(count) => Some(count),
    };
    Ok(Some(of.array(alloc, count)?))
}

/// A type with a dimension in front of it, if neither has a fault.
fn spanned(
    alloc: Global,
    extent: Extent,
    of: Option<KnownType>,
) -> Result<Option<KnownType>, AllocError>
    ensures { IfOk result (λ array. array ≡ spec_spanned extent of) }
{
    match of {
        Some(of) => array_of(alloc, extent, of),
        None => Ok(None),
    }
}

/// A type with all of these dimensions in front of it, the outermost first.
fn spanned_by(
    alloc: Global,
    extents: &[Extent],
    of: Option<KnownType>,
) -> Result<Option<KnownType>, AllocError>
    ensures { IfOk result (λ array. array ≡ spec_spanned_by extents.now of) }
{
    match extents.split_first() {
        Some((outermost, inner)) => {
            let of = spanned_by(alloc, inner, of)?;
            spanned(alloc, *outermost, of)
        }
        None => Ok(of),
    }
}

/// The type, unless it is too large, which is reported.
pub fn limited(
    of: Option<KnownType>,
    faults: &mut Items<Fault>,
) -> Result<Option<KnownType>, AllocError>
    ensures found { IfOk result (λ found. found ≡ (spec_limited of).found) }
    ensures faults { OnOk result (faults.new ≡ faults.old ++ (spec_limited of).faults) }
{
    let Some(of) = of else {
        return Ok(None);
    };
    if of.is_too_large() {
        report(faults, Code::T9)?;
        return Ok(None);
    }
    Ok(Some(of))
}

/// A type with dimensions in front of it, if nothing is wrong with any: T9 is reported where it is too large.
pub fn array_type(
    alloc: Global,
    extents: &[Extent],
    of: Option<KnownType>,
    faults: &mut Items<Fault>,
) -> Result<Option<KnownType>, AllocError>
    ensures found { IfOk result (λ found. found ≡ (spec_limited (spec_spanned_by extents.now of)).found) }
    ensures faults { OnOk result (faults.new ≡ faults.old ++ (spec_limited (spec_spanned_by extents.now of)).faults) }
{
    let of = spanned_by(alloc, extents, of)?;
    limited(of, faults)
}

/// The type of a channel with this protocol. It is gone through.
fn channel(alloc: Global, protocol: Shared<Protocol>) -> Result<KnownType, AllocError>
    ensures { IfOk result (λ channel. channel ≡ t.Channel protocol) }
{
    let channel = Shared::new(alloc, OccType::Channel(protocol))?;
    Ok(KnownType::new(channel))
}

/// The type of a channel that carries values of a type, if that has no fault.
pub fn values_channel(alloc: Global, of: Option<KnownType>) -> Result<Option<KnownType>, AllocError>
    ensures { IfOk result (λ channel. channel ≡ channel_of_values of) }
{
    match of {
        Some(of) => Ok(Some(of.channel(alloc)?)),
        None => Ok(None),
    }
}

/// The type of a channel whose protocol is a name, if that has no fault.
pub fn named_channel(
    alloc: Global,
    carried: Option<Carried>,
) -> Result<Option<KnownType>, AllocError>
    ensures { IfOk result (λ channel. channel ≡ channel_if carried) }
{
    match carried {
        Some(Carried::Values(of)) => values_channel(alloc, Some(of)),
        Some(Carried::Protocol(protocol)) => Ok(Some(channel(alloc, protocol)?)),
        None => Ok(None),
    }
}

/// The T of `T::[]U`, which is an integer type or BYTE itself: else T2 is reported.
#[tactic(auto, unfolding(crate::specs::Written::count_type))]
pub fn count_type(
    of: Option<Shared<OccType>>,
    faults: &mut Items<Fault>,
) -> Result<Option<Primitive>, AllocError>
    ensures found { IfOk result (λ found. found ≡ (spec_count_type of).found) }
    ensures faults { OnOk result (faults.new ≡ faults.old ++ (spec_count_type of).faults) }
{
    let Some(of) = of else {
        return Ok(None);
    };
    let count = number(as_primitive(of.get()));
    if count.is_none() {
        report(faults, Code::T2)?;
    }
    Ok(count)
}

/// The type of a channel that carries a count and so many values, if neither type has a fault.
#[tactic(auto, unfolding(crate::specs::Written::counted_type))]
pub fn counted_type(
    alloc: Global,
    count: Option<Primitive>,
    of: Option<KnownType>,
) -> Result<Option<KnownType>, AllocError>
    ensures { IfOk result (λ channel. channel ≡ spec_counted_type count of) }
{
    match (count, of) {
        (Some(count), Some(of)) => Ok(Some(of.counted_channel(alloc, count)?)),
        _ => Ok(None),
    }
}
