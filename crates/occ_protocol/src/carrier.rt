//! What an element is to those who send and receive through it: a protocol, a timer, no channel, or faulty; and its tags.
#![tactic(auto, using(occ_types::proofs::Agreeing::fit_rules, crate::proofs::Carried::carried_rules))]

ghost use Rattle.std.specs.Prelude.{◌≡◌};
ghost use Rattle.occ_protocol.specs.Carrying.{carried as spec_carried, carrier as spec_carrier, of_type as spec_of_type, place_named as spec_place_named, tag_named as spec_tag_named};
ghost use Rattle.occ_protocol.specs.inside.Seen.{seen, tag_seen};

use occ_base::Name;
use occ_types::{Item, OccType, Protocol, SoughtPart, Tag};
use occ_typing_operands::Kind;

/// What an element is to those who send and receive through it.
#[derive(Clone, Copy)]
pub(super) enum Carrier<'a> {
    /// A fault hides it.
    Hidden,
    /// Neither a channel nor a timer.
    Nothing,
    /// A timer.
    Time,
    /// A channel of ANY.
    Data,
    /// A channel of these items.
    Sequence(&'a [Item]),
    /// A channel of these tags.
    Variant(&'a [Tag]),
}

/// What an element is, by what is known of it.
pub(super) fn carrier_of(channel: &Kind) -> Carrier<'_>
    ensures { seen result ≡ spec_carrier channel.now }
{
    match channel {
        Kind::Known(known) => of_type(known.of.get()),
        _ => Carrier::Hidden,
    }
}

/// What an element of this type is.
fn of_type(of: &OccType) -> Carrier<'_>
    ensures { seen result ≡ spec_of_type of.now }
{
    match of {
        OccType::Channel(protocol) => carried(protocol.get()),
        OccType::Timer => Carrier::Time,
        OccType::Primitive(_) | OccType::Array(_, _) | OccType::Record(_, _) => Carrier::Nothing,
        OccType::Named(_, _) | OccType::Unknown => Carrier::Nothing,
    }
}

/// What a channel of this protocol is.
fn carried(protocol: &Protocol) -> Carrier<'_>
    ensures { seen result ≡ spec_carried protocol.now }
{
    match protocol {
        Protocol::Any => Carrier::Data,
        Protocol::Sequence(items) => Carrier::Sequence(items.as_slice()),
        Protocol::Variant(tags) => Carrier::Variant(tags.as_slice()),
        Protocol::Defined(_, inner) => carried(inner.get()),
    }
}

/// The first tag of this name.
pub(super) fn tag_named<'a>(tags: &'a [Tag], name: &Name) -> Option<&'a Tag>
    ensures { tag_seen result ≡ spec_tag_named tags.now name.now }
{
    let (_, tag) = found(tags, name);
    tag
}

/// The place of the first tag of this name, and that tag.
pub(super) fn found<'a>(tags: &'a [Tag], name: &Name) -> (Option<usize>, Option<&'a Tag>)
    ensures place { result.0 ≡ spec_place_named tags.now name.now }
    ensures tag { tag_seen result.1 ≡ spec_tag_named tags.now name.now }
{
    let sought = SoughtPart::new(name);
    let mut place = 0;
    for tag in tags {
        if tag.name.is(&sought) {
            return (Some(place), Some(tag));
        }
        place += 1;
    }
    (None, None)
}

/// The place of the first tag of this name.
pub(super) fn place_named(tags: &[Tag], name: &Name) -> Option<usize>
    ensures { result ≡ spec_place_named tags.now name.now }
{
    let (place, _) = found(tags, name);
    place
}
