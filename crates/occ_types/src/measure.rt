//! How deep a type is when it is written out, and how many types it has then. Measures are composed, without a walk
//! through measured parts.
#![tactic(auto, using(crate::proofs::Measures::measure_rules))]

ghost use Rattle.std.specs.Prelude.{◌≡◌};
ghost use Rattle.occ_types.specs.Measure.{above, all_of, beside, field_measures, held, item_measure, item_measures, measure_of, none, one, protocol_measure, tag_measures};

use super::types::{Field, Item, OccType, Protocol, Tag};

/// How deep a type is when each name in it is written out, and how many types it then has. 4,294,967,295 stands
/// for all that is more.
#[derive(Clone, Copy)]
pub struct Measure {
    pub levels: u32,
    pub types: u32,
}

impl Measure {
    /// Of no type at all.
    pub fn none() -> Measure
        ensures { result ≡ none }
    {
        Measure {
            levels: 0,
            types: 0,
        }
    }

    /// Of a type that holds no other.
    pub fn one() -> Measure
        ensures { result ≡ one }
    {
        Measure {
            levels: 1,
            types: 1,
        }
    }

    /// Of a dimension, a name, CHAN or RECORD over what has this measure.
    pub fn above(self) -> Measure
        ensures { result ≡ held (above self) }
    {
        Measure {
            levels: self.levels.saturating_add(1),
            types: self.types.saturating_add(1),
        }
    }

    /// Of types that stand beside one another.
    pub fn beside(self, other: Measure) -> Measure
        ensures { result ≡ held (beside self other) }
    {
        Measure {
            levels: self.levels.max(other.levels),
            types: self.types.saturating_add(other.types),
        }
    }
}

/// The measure of a type. It goes once through the type as it is written out, without a call for a name of a primitive type;
/// `Measure::above` and `Measure::beside` make that of a larger type from those of its parts.
#[cycle(measure)]
pub fn measure_of(of: &OccType) -> Measure
    ensures { result ≡ held (measure_of of.now) }
{
    match of {
        OccType::Primitive(_) | OccType::Timer => Measure::one(),
        OccType::Unknown => Measure::none(),
        OccType::Array(_, inner) => measure_of(inner.get()).above(),
        OccType::Record(_, fields) => measure_fields(fields.as_slice()).above(),
        OccType::Named(_, inner) => match inner.get() {
            OccType::Primitive(_) => Measure::one().above(),
            defined => measure_of(defined).above(),
        },
        OccType::Channel(carried) => measure_protocol(carried.get()).above(),
    }
}

/// The measure of a protocol.
#[cycle(measure)]
pub fn measure_protocol(of: &Protocol) -> Measure
    ensures { result ≡ held (protocol_measure of.now) }
{
    match of {
        Protocol::Any => Measure::one(),
        Protocol::Sequence(items) => measure_items(items.as_slice()),
        Protocol::Variant(tags) => measure_tags(tags.as_slice()),
        Protocol::Defined(_, inner) => measure_protocol(inner.get()).above(),
    }
}

#[cycle(measure)]
fn measure_item(of: &Item) -> Measure
    ensures { result ≡ held (item_measure of.now) }
{
    match of {
        Item::Value(of) => measure_of(of.get()),
        Item::Counted(_, of) => Measure::one().beside(measure_of(of.get()).above()),
    }
}

#[cycle(measure)]
fn measure_fields(fields: &[Field]) -> Measure
    ensures { result ≡ held (all_of (field_measures fields.now)) }
{
    let mut found = Measure::none();
    for field in fields {
        found = found.beside(measure_of(field.of.get()));
    }
    found
}

#[cycle(measure)]
fn measure_items(items: &[Item]) -> Measure
    ensures { result ≡ held (all_of (item_measures items.now)) }
{
    let mut found = Measure::none();
    for item in items {
        found = found.beside(measure_item(item));
    }
    found
}

#[cycle(measure)]
fn measure_tags(tags: &[Tag]) -> Measure
    ensures { result ≡ held (all_of (tag_measures tags.now)) }
{
    let mut found = Measure::none();
    for tag in tags {
        found = found.beside(measure_items(tag.items.as_slice()));
    }
    found
}
