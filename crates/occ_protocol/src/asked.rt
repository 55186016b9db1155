//! What a list of items is compared with: the items of a protocol, those after a tag, or any data. What is wanted and
//! what is reported both come from it.
ghost use Rattle.std.specs.Prelude.{◌≡◌, Option, Some, None, map};
ghost use Rattle.occ_protocol.specs.Carrying.{name_seen};
ghost use Rattle.occ_protocol.specs.Matching.{asked as spec_asked, following as spec_after};
ghost use Rattle.occ_protocol.specs.inside.Seen.{asked_seen, seen, tag_seen};

use super::carrier::{Carrier, tag_named};
use occ_base::{Code, Name};
use occ_types::{Item, Tag, is_faulty_tag};

/// What a list of items is compared with.
#[derive(Clone, Copy)]
pub(super) enum Asked<'a> {
    /// With nothing, and nothing is reported.
    Silent,
    /// With nothing, and this code is reported.
    Instead(Code),
    /// With nothing: this tag is not in the protocol.
    NoTag(&'a Name),
    /// Each item is any data.
    AnyData,
    /// With these items, one by one.
    These(&'a [Item]),
}

/// What is asked of items after this tag, of which the protocol says this.
pub(super) fn following<'a>(name: &'a Name, tag: Option<&'a Tag>) -> Asked<'a>
    ensures { asked_seen result ≡ spec_after name.now (tag_seen tag.entry) }
{
    let Some(tag) = tag else {
        return Asked::NoTag(name);
    };
    if is_faulty_tag(tag) {
        return Asked::Silent;
    }
    Asked::These(tag.items.as_slice())
}

/// What is asked of items after a tag, or after none.
pub(super) fn asked_of<'a>(carrier: Carrier<'a>, tag: Option<&'a Name>) -> Asked<'a>
    ensures { asked_seen result ≡ spec_asked (seen carrier.entry) (name_seen tag.entry) }
{
    match (carrier, tag) {
        (Carrier::Hidden, _) => Asked::Silent,
        (Carrier::Nothing | Carrier::Time, _) => Asked::Instead(Code::P4),
        (Carrier::Data, None) => Asked::AnyData,
        (Carrier::Data | Carrier::Sequence(_), Some(_)) => Asked::Instead(Code::P3),
        (Carrier::Sequence(items), None) => Asked::These(items),
        (Carrier::Variant(_), None) => Asked::Instead(Code::P3),
        (Carrier::Variant(tags), Some(name)) => following(name, tag_named(tags, name)),
    }
}
