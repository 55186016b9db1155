//! What a message is compared with, and the place of its tag: the tags of a protocol are gone through once for all.
ghost use Rattle.std.specs.Prelude.{◌≡◌, ◌++◌, IfOk, OnOk};
ghost use Rattle.occ_protocol.specs.Carrying.{carrier as spec_carrier, name_seen};
ghost use Rattle.occ_protocol.specs.Lines.{place_after};
ghost use Rattle.occ_protocol.specs.Matching.{asked as spec_asked, reported as spec_reported};
ghost use Rattle.occ_protocol.specs.Wanting.{wants as spec_wants};

use super::asked::{Asked, asked_of, following};
use super::carrier::{Carrier, carrier_of, found};
use super::given::{Given, Shape, Wanted};
use super::matching::reported;
use super::want::wanted_by;
use occ_base::{Fault, Items, Name};
use occ_typing_operands::Kind;
use std::alloc::{AllocError, Global};
use std::marker::Model;

/// What the items of a message are compared with, and the place of its tag in the protocol, if it has one that is there.
#[derive(Drop)]
pub struct Message<'a> {
    asked: Asked<'a>,
    place: Option<usize>,
}

impl<'a> Model for Message<'a> {
    ghost use Rattle.occ_protocol.specs.Matching.{Asked};
    ghost use Rattle.occ_protocol.specs.inside.Seen.{asked_seen};
    ghost use Rattle.occ_types.specs.contracts.types.Item as item;
    ghost use Rattle.std.specs.Coded.{codes};
    ghost use Rattle.std.specs.Prelude.{Option, ℕ};

    ghost Value = { Asked × Option ℕ };

    ghost coded = { Prim.hlevel (codes, item.the_row.coded) };

    ghost view = { λ message. (asked_seen message.asked, message.place) };
}

impl<'a> Message<'a> {
    /// A message through `channel`, after a tag or after none. An output has a tag where its first item is a name alone and
    /// `takes_tag` says so.
    pub fn new(channel: &'a Kind, tag: Option<&'a Name>) -> Message<'a>
        ensures { result ≡ (spec_asked (spec_carrier channel.now) (name_seen tag.entry), place_after (spec_carrier channel.now) (name_seen tag.entry)) }
    {
        let carrier = carrier_of(channel);
        if let (Carrier::Variant(tags), Some(name)) = (carrier, tag) {
            let (place, tag) = found(tags, name);
            return Message {
                asked: following(name, tag),
                place,
            };
        }
        Message {
            asked: asked_of(carrier, tag),
            place: None,
        }
    }

    /// The place of the tag in the protocol, from 0: of the first tag of its name.
    pub fn place(&self) -> Option<usize>
        ensures { result ≡ self.now.1 }
    {
        self.place
    }

    /// What is wanted of each item of an output: of items of these shapes, one by one. An item of which something is wanted
    /// takes the type if it can (a free one and a table do); that it is then of another type is reported by `report`, as P1.
    ///
    /// # Errors
    ///
    /// Where memory is refused.
    pub fn wants(&self, alloc: Global, shapes: &[Shape]) -> Result<Items<Wanted>, AllocError>
        ensures { IfOk result (λ wanted. wanted ≡ spec_wants self.now.0 shapes.now) }
    {
        wanted_by(alloc, self.asked, shapes)
    }

    /// What is reported of the items, sent or received through the channel whose name is `root`.
    ///
    /// # Errors
    ///
    /// Where memory is refused.
    pub fn report(
        &self,
        alloc: Global,
        root: &Name,
        given: &[Given],
        faults: &mut Items<Fault>,
    ) -> Result<(), AllocError>
        ensures { OnOk result (faults.new ≡ faults.old ++ spec_reported root.now self.now.0 given.now) }
    {
        reported(alloc, root, self.asked, given, faults)
    }
}
