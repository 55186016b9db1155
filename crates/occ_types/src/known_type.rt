//! When a type is too large (T9): by bytes, levels or number of types. A type with what is asked of it for that, found once.
#![tactic(auto, using(crate::proofs::Larges::large_rules, crate::proofs::Sizes::size_rules, crate::proofs::Measures::measure_rules, crate::proofs::Unknowns::unknown_rules, crate::proofs::Channels::channel_rules))]

ghost use Rattle.std.specs.Prelude.{IfOk, IfSome, [], ◌∷◌, ◌≡◌, ◌≤◌};
ghost use Rattle.occ_types.specs.Large.{is_oversized as spec_is_oversized, is_too_large as spec_is_too_large, is_too_wide as spec_is_too_wide};
ghost use Rattle.occ_types.specs.Measure.{held, measure_of as spec_measure_of};
ghost use Rattle.occ_types.specs.Size.{capped, is_over as spec_is_over, size_of};
ghost use Rattle.occ_types.specs.Unknown.{holds_unknown as spec_holds_unknown};
ghost use Rattle.occ_types.specs.declared.types.Item.TheVariants as i;
ghost use Rattle.occ_types.specs.declared.types.OccType.TheVariants as t;
ghost use Rattle.occ_types.specs.declared.types.Protocol.TheVariants as p;
ghost use Rattle.std.specs.Prelude.{ℕ, Option};

use super::measure::{Measure, measure_of};
use super::size::{array_extent, extent};
use super::types::{Item, OccType, Protocol};
use super::unknown::holds_unknown;
use super::value::Primitive;
use occ_base::{Name, Shared, one_item};
use std::alloc::{AllocError, Global};
use std::marker::Model;

/// A type with what is asked of its size: in contracts the type.
#[derive(Drop)]
pub struct KnownType {
    of: Shared<OccType>,
    /// Its bytes, or 2,147,483,648 where they are more.
    extent: Option<u64>,
    measure: Measure,
    holds_unknown: bool,
    /// Whether it, or a type that it is an array of, has over 2,147,483,647 bytes.
    is_oversized: bool,
}

impl Model for KnownType {
    ghost use Rattle.occ_types.specs.contracts.types.OccType as types;
    ghost use Rattle.occ_types.specs.declared.types.OccType.{OccType};
    ghost use Rattle.occ_types.specs.inside.KnownTypes.{IsKnown};

    ghost Value = { OccType };

    ghost coded = { types.the_row.coded };

    ghost view = { λ known. known.of };

    ghost invariant = { IsKnown };
}

/// The bytes of a type, or 2,147,483,648 where they are more, and whether it, or a type that it is an array of, has over
/// 2,147,483,647. A nest of arrays is gone through once.
fn sized(of: &OccType) -> (Option<u64>, bool)
    ensures extent { result.0 ≡ capped (size_of of.now) }
    ensures most { IfSome result.0 (λ bytes. bytes ≤ 2147483648) }
    ensures oversized { result.1 ≡ spec_is_oversized of.now }
{
    match of {
        OccType::Array(count, inner) => {
            let (extent, is_oversized) = sized(inner.get());
            let extent = array_extent(*count, extent);
            (extent, is_over(extent) || is_oversized)
        }
        _ => {
            let extent = extent(of);
            (extent, is_over(extent))
        }
    }
}

/// Whether the extent of a type is over 2,147,483,647 bytes.
fn is_over(extent: Option<u64>) -> bool
    ensures { (size : Option ℕ) → extent ≡ capped size → result ≡ spec_is_over size }
{
    match extent {
        Some(bytes) => bytes > 2_147_483_647,
        None => false,
    }
}

/// Whether a measure has over 128 levels or over 4,096 types.
fn is_too_wide(measure: Measure) -> bool
    ensures { result ≡ spec_is_too_wide measure }
{
    measure.levels > 128 || measure.types > 4096
}

/// Whether a type is too large: it, or a type that it is an array of, has over 2,147,483,647 bytes, or it has over 128
/// levels or over 4,096 types. Levels and types are not asked of a type that holds a field with a faulty line: such a field
/// is looked for where they are too many alone.
pub fn is_too_large(of: &OccType) -> bool
    ensures { result ≡ spec_is_too_large of.now }
{
    let (_, is_oversized) = sized(of);
    is_oversized || is_too_wide(measure_of(of)) && !holds_unknown(of)
}

/// A channel whose protocol is this one item.
fn channel_of(alloc: Global, item: Item) -> Result<Shared<OccType>, AllocError>
    ensures { IfOk result (λ channel. channel ≡ t.Channel (p.Sequence (item ∷ []))) }
{
    let protocol = Protocol::Sequence(one_item(alloc, item)?);
    let protocol = Shared::new(alloc, protocol)?;
    Shared::new(alloc, OccType::Channel(protocol))
}

impl KnownType {
    /// A type. It is gone through once.
    pub fn new(of: Shared<OccType>) -> KnownType
        ensures { result ≡ of }
    {
        let (extent, is_oversized) = sized(of.get());
        KnownType {
            extent,
            measure: measure_of(of.get()),
            holds_unknown: holds_unknown(of.get()),
            is_oversized,
            of,
        }
    }

    /// The same type, shared.
    pub fn share(&self) -> Result<KnownType, AllocError>
        ensures { IfOk result (λ shared. shared ≡ self.now) }
    {
        Ok(KnownType {
            of: self.of.share()?,
            extent: self.extent,
            measure: self.measure,
            holds_unknown: self.holds_unknown,
            is_oversized: self.is_oversized,
        })
    }

    /// The type.
    pub fn of(&self) -> &Shared<OccType>
        ensures { result.now ≡ self.now }
    {
        &self.of
    }

    /// The type alone.
    pub fn into_type(self) -> Shared<OccType>
        ensures { result ≡ self }
    {
        let KnownType { of, .. } = self;
        of
    }

    /// A type with this name that is defined to be this type.
    pub fn named(self, alloc: Global, name: Name) -> Result<KnownType, AllocError>
        ensures { IfOk result (λ named. named ≡ t.Named name self) }
    {
        let KnownType {
            of,
            extent,
            measure,
            holds_unknown,
            is_oversized: _,
        } = self;
        let measure = measure.above();
        Ok(KnownType {
            of: Shared::new(alloc, OccType::Named(name, of))?,
            extent,
            measure,
            holds_unknown,
            is_oversized: is_over(extent),
        })
    }

    /// An array of so many components of this type.
    pub fn array(self, alloc: Global, count: Option<u32>) -> Result<KnownType, AllocError>
        ensures { IfOk result (λ array. array ≡ t.Array count self) }
    {
        let KnownType {
            of,
            extent,
            measure,
            holds_unknown,
            is_oversized,
        } = self;
        let extent = array_extent(count, extent);
        Ok(KnownType {
            of: Shared::new(alloc, OccType::Array(count, of))?,
            extent,
            measure: measure.above(),
            holds_unknown,
            is_oversized: is_over(extent) || is_oversized,
        })
    }

    /// A channel that carries values of this type.
    pub fn channel(self, alloc: Global) -> Result<KnownType, AllocError>
        ensures { IfOk result (λ channel. channel ≡ t.Channel (p.Sequence (i.Value self ∷ []))) }
    {
        let KnownType {
            of,
            measure: carried,
            holds_unknown,
            ..
        } = self;
        Ok(KnownType {
            of: channel_of(alloc, Item::Value(of))?,
            extent: None,
            measure: carried.above(),
            holds_unknown,
            is_oversized: false,
        })
    }

    /// A channel that carries a count of a type, and so many values of this type.
    pub fn counted_channel(self, alloc: Global, count: Primitive) -> Result<KnownType, AllocError>
        ensures { IfOk result (λ channel. channel ≡ t.Channel (p.Sequence (i.Counted count self ∷ []))) }
    {
        let KnownType {
            of,
            measure: carried,
            holds_unknown,
            ..
        } = self;
        Ok(KnownType {
            of: channel_of(alloc, Item::Counted(count, of))?,
            extent: None,
            measure: Measure::one().beside(carried.above()).above(),
            holds_unknown,
            is_oversized: false,
        })
    }

    /// Whether it is too large, as `is_too_large` says of a type.
    pub fn is_too_large(&self) -> bool
        ensures { result ≡ spec_is_too_large self.now }
    {
        self.is_oversized || is_too_wide(self.measure) && !self.holds_unknown
    }
}
