//! Outputs, inputs, `AFTER`, case inputs and their variants, as lists of items: P1 to P4. `docs/LANGUAGE.md, Items and
//! protocols`.
ghost use Rattle.std.specs.Prelude.{◌≡◌, ◌++◌, IfOk, OnOk, [], ◌∷◌};
ghost use Rattle.occ_types.specs.declared.types.Item.TheVariants as i;
ghost use Rattle.occ_typing_operands.specs.Settling.{int as spec_int};
ghost use Rattle.occ_protocol.specs.Carrying.{carrier as spec_carrier, name_seen};
ghost use Rattle.occ_protocol.specs.Lines.{alternative as spec_alternative, awaited as spec_awaited, cased as spec_cased, exchanged as spec_exchanged, is_timer as spec_is_timer, lacks as spec_lacks, received as spec_received, tag_place as spec_tag_place, takes_tag as spec_takes_tag};

use super::asked::{asked_of, following};
use super::carrier::{Carrier, carrier_of, found, place_named, tag_named};
use super::given::Given;
use super::matching::{against, report_named, reported};
use occ_base::{Code, Fault, Items, Name};
use occ_types::Item;
use occ_typing_operands::{Kind, int};
use std::alloc::{AllocError, Global};

/// Whether a name alone that is sent first through `channel` is not looked up: it is a tag, or what it is sent through
/// is not known.
pub fn takes_tag(channel: &Kind) -> bool
    ensures { result ≡ spec_takes_tag (spec_carrier channel.now) }
{
    matches!(
        carrier_of(channel),
        Carrier::Hidden | Carrier::Nothing | Carrier::Time | Carrier::Variant(_)
    )
}

/// What is reported of the items of an output, or of an input after `CASE` and a tag, through `channel`, whose name is
/// `root`. An output has a tag where its first item is a name alone and `takes_tag` says so.
///
/// # Errors
///
/// Where memory is refused.
pub fn exchanged(
    alloc: Global,
    channel: &Kind,
    root: &Name,
    tag: Option<&Name>,
    given: &[Given],
    faults: &mut Items<Fault>,
) -> Result<(), AllocError>
    ensures { OnOk result (faults.new ≡ faults.old ++ spec_exchanged (spec_carrier channel.now) root.now (name_seen tag.entry) given.now) }
{
    reported(
        alloc,
        root,
        asked_of(carrier_of(channel), tag),
        given,
        faults,
    )
}

/// What a timer gives.
fn time_items(alloc: Global) -> Result<Items<Item>, AllocError>
    ensures { IfOk result (λ items. items ≡ i.Value spec_int ∷ []) }
{
    let mut items = Items::new(alloc);
    items.push(Item::Value(int(alloc)?))?;
    Ok(items)
}

/// What is reported of the items of an input without `CASE`: a channel's, or one INT of a timer.
///
/// # Errors
///
/// Where memory is refused.
pub fn received(
    alloc: Global,
    channel: &Kind,
    root: &Name,
    given: &[Given],
    faults: &mut Items<Fault>,
) -> Result<(), AllocError>
    ensures { OnOk result (faults.new ≡ faults.old ++ spec_received (spec_carrier channel.now) root.now given.now) }
{
    let carrier = carrier_of(channel);
    match carrier {
        Carrier::Time => {
            let items = time_items(alloc)?;
            against(alloc, root, items.as_slice(), given, faults)
        }
        _ => reported(alloc, root, asked_of(carrier, None), given, faults),
    }
}

/// What is reported of what stands before `? AFTER`, which has to be a timer. Of what stands after it an INT is wanted, and
/// that is reported as of any operand, whatever this is.
///
/// # Errors
///
/// Where memory is refused.
pub fn awaited(
    alloc: Global,
    channel: &Kind,
    root: &Name,
    faults: &mut Items<Fault>,
) -> Result<(), AllocError>
    ensures { OnOk result (faults.new ≡ faults.old ++ spec_awaited (spec_carrier channel.now) root.now) }
{
    match carrier_of(channel) {
        Carrier::Hidden | Carrier::Time => Ok(()),
        Carrier::Nothing | Carrier::Data | Carrier::Sequence(_) | Carrier::Variant(_) =>
            report_named(alloc, Code::P4, root, faults),
    }
}

/// What is reported of the first line of a case input.
///
/// # Errors
///
/// Where memory is refused.
pub fn cased(
    alloc: Global,
    channel: &Kind,
    root: &Name,
    faults: &mut Items<Fault>,
) -> Result<(), AllocError>
    ensures { OnOk result (faults.new ≡ faults.old ++ spec_cased (spec_carrier channel.now) root.now) }
{
    match carrier_of(channel) {
        Carrier::Hidden | Carrier::Variant(_) => Ok(()),
        Carrier::Nothing | Carrier::Time => report_named(alloc, Code::P4, root, faults),
        Carrier::Data | Carrier::Sequence(_) => report_named(alloc, Code::P3, root, faults),
    }
}

/// What is reported of a variant of a case input: of its tag, and of the items after it. The answer is the place of the tag
/// in the protocol, as `tag_place` gives it: the tags are gone through once for both.
///
/// # Errors
///
/// Where memory is refused.
pub fn alternative(
    alloc: Global,
    channel: &Kind,
    root: &Name,
    tag: &Name,
    given: &[Given],
    faults: &mut Items<Fault>,
) -> Result<Option<usize>, AllocError>
    ensures place { IfOk result (λ place. place ≡ spec_tag_place (spec_carrier channel.now) tag.now) }
    ensures faults { OnOk result (faults.new ≡ faults.old ++ spec_alternative (spec_carrier channel.now) root.now tag.now given.now) }
{
    let Carrier::Variant(tags) = carrier_of(channel) else {
        return Ok(None);
    };
    let (place, found) = found(tags, tag);
    reported(alloc, root, following(tag, found), given, faults)?;
    Ok(place)
}

/// Whether a tag is none of the protocol's, so that P2 reports of it, and not T8 where it stands among the variants of a
/// case input a second time.
pub fn lacks(channel: &Kind, tag: &Name) -> bool
    ensures { result ≡ spec_lacks (spec_carrier channel.now) tag.now }
{
    match carrier_of(channel) {
        Carrier::Variant(tags) => tag_named(tags, tag).is_none(),
        _ => false,
    }
}

/// The place of a tag in the protocol of `channel`, from 0: of the first tag of this name.
pub fn tag_place(channel: &Kind, tag: &Name) -> Option<usize>
    ensures { result ≡ spec_tag_place (spec_carrier channel.now) tag.now }
{
    match carrier_of(channel) {
        Carrier::Variant(tags) => place_named(tags, tag),
        _ => None,
    }
}

/// Whether an input through `channel` is one from a timer.
pub fn is_timer(channel: &Kind) -> bool
    ensures { result ≡ spec_is_timer (spec_carrier channel.now) }
{
    matches!(carrier_of(channel), Carrier::Time)
}
