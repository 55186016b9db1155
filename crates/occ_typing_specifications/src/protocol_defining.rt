//! Protocols as a whole: of one line, and at the head of one with tags (T9). `docs/LANGUAGE.md, Protocols`.
ghost use Rattle.std.specs.Prelude.{◌≡◌, ◌∷◌, ◌++◌, IfOk, OnOk};
ghost use Rattle.occ_typing_specifications.specs.Entering.{unless_reported as spec_unless_reported};
ghost use Rattle.occ_typing_specifications.specs.Protocols.{defined as spec_defined, is_too_large as spec_is_too_large, limited as spec_limited, protocol as spec_protocol, protocol_name as spec_protocol_name, protocol_reported as spec_protocol_reported, tagged_protocol as spec_tagged_protocol, whole as spec_whole};

use super::item::items;
use occ_base::{Code, Fault, Items, Name, Shared, report};
use occ_forms::ItemForm;
use occ_scope::{Meaning, Scope, ScopeEntry, one_entry};
use occ_types::{Item, OccType, Protocol, Tag, holds_unknown, measure_protocol};
use std::alloc::{AllocError, Global};

/// Whether a protocol, with its name, has over 128 levels or over 4,096 types.
#[tactic(auto, unfolding(crate::specs::Protocols::is_too_large))]
fn is_too_large(protocol: &Shared<Protocol>) -> Result<bool, AllocError>
    ensures { IfOk result (λ large. large ≡ spec_is_too_large protocol.now) }
{
    let channel = OccType::Channel(protocol.share()?);
    let measure = measure_protocol(protocol.get());
    Ok((measure.levels > 128 || measure.types > 4096) && !holds_unknown(&channel))
}

/// A protocol, if it is not too large: else T9 is reported.
fn limited(
    protocol: Shared<Protocol>,
    faults: &mut Items<Fault>,
) -> Result<Option<Shared<Protocol>>, AllocError>
    ensures found { IfOk result (λ found. found ≡ (spec_limited protocol).found) }
    ensures faults { OnOk result (faults.new ≡ faults.old ++ (spec_limited protocol).faults) }
{
    if is_too_large(&protocol)? {
        report(faults, Code::T9)?;
        return Ok(None);
    }
    Ok(Some(protocol))
}

/// A protocol with this name, if it is not too large.
fn defined(
    alloc: Global,
    name: &Name,
    protocol: Protocol,
    faults: &mut Items<Fault>,
) -> Result<Option<Shared<Protocol>>, AllocError>
    ensures found { IfOk result (λ found. found ≡ (spec_defined name.now protocol).found) }
    ensures faults { OnOk result (faults.new ≡ faults.old ++ (spec_defined name.now protocol).faults) }
{
    let inner = Shared::new(alloc, protocol)?;
    let whole = Protocol::Defined(name.copied(alloc)?, inner);
    limited(Shared::new(alloc, whole)?, faults)
}

/// What the name of a protocol stands for, if that is known.
fn protocol_name(protocol: Option<Shared<Protocol>>) -> Meaning
    ensures { result ≡ spec_protocol_name protocol }
{
    match protocol {
        None => Meaning::Faulty,
        Some(protocol) => Meaning::Protocol(protocol),
    }
}

/// A protocol of these items, if they are known.
fn whole(
    alloc: Global,
    name: &Name,
    items: Option<Items<Item>>,
    faults: &mut Items<Fault>,
) -> Result<Option<Shared<Protocol>>, AllocError>
    ensures found { IfOk result (λ found. found ≡ (spec_whole name.now items).found) }
    ensures faults { OnOk result (faults.new ≡ faults.old ++ (spec_whole name.now items).faults) }
{
    match items {
        None => Ok(None),
        Some(items) => defined(alloc, name, Protocol::Sequence(items), faults),
    }
}

/// The protocol of a line, with all that the line reports.
#[tactic(auto, unfolding(crate::specs::Protocols::protocol_reported))]
fn protocol_reported(
    alloc: Global,
    name: &Name,
    first: &ItemForm,
    more: &[ItemForm],
    scope: &Scope,
    faults: &mut Items<Fault>,
) -> Result<Option<Shared<Protocol>>, AllocError>
    ensures found { IfOk result (λ found. found ≡ (spec_protocol_reported scope.now name.now (first.now ∷ more.now)).found) }
    ensures faults { OnOk result (faults.new ≡ faults.old ++ (spec_protocol_reported scope.now name.now (first.now ∷ more.now)).faults) }
{
    let items = items(alloc, first, more, scope, faults)?;
    whole(alloc, name, items, faults)
}

/// The protocol, if its line reported nothing.
fn unless_reported(
    reported: &Items<Fault>,
    protocol: Option<Shared<Protocol>>,
) -> Option<Shared<Protocol>>
    ensures { result ≡ spec_unless_reported reported.now protocol }
{
    if reported.is_empty() { protocol } else { None }
}

/// The protocol of a line, if the line reports nothing.
fn protocol_of_line(
    alloc: Global,
    name: &Name,
    first: &ItemForm,
    more: &[ItemForm],
    scope: &Scope,
    faults: &mut Items<Fault>,
) -> Result<Option<Shared<Protocol>>, AllocError>
    ensures found { IfOk result (λ found. found ≡ spec_unless_reported (spec_protocol_reported scope.now name.now (first.now ∷ more.now)).faults (spec_protocol_reported scope.now name.now (first.now ∷ more.now)).found) }
    ensures faults { OnOk result (faults.new ≡ faults.old ++ (spec_protocol_reported scope.now name.now (first.now ∷ more.now)).faults) }
{
    let mut reported = Items::new(alloc);
    let found = protocol_reported(alloc, name, first, more, scope, &mut reported)?;
    let found = unless_reported(&reported, found);
    faults.append(reported)?;
    Ok(found)
}

/// `PROTOCOL n IS item; ..:`
#[tactic(auto, unfolding(crate::specs::Protocols::protocol))]
pub fn protocol(
    alloc: Global,
    name: &Name,
    first: &ItemForm,
    more: &[ItemForm],
    scope: &Scope,
    faults: &mut Items<Fault>,
) -> Result<Items<ScopeEntry>, AllocError>
    ensures adds { IfOk result (λ adds. adds ≡ (spec_protocol scope.now name.now (first.now ∷ more.now)).adds) }
    ensures faults { OnOk result (faults.new ≡ faults.old ++ (spec_protocol scope.now name.now (first.now ∷ more.now)).faults) }
{
    let found = protocol_of_line(alloc, name, first, more, scope, faults)?;
    one_entry(alloc, name, protocol_name(found))
}

/// The head of a protocol with these tags, also where the lines of some have faults: what its name stands for.
#[tactic(auto, unfolding(crate::specs::Protocols::tagged_protocol))]
pub fn tagged_protocol(
    alloc: Global,
    name: &Name,
    tags: Items<Tag>,
    faults: &mut Items<Fault>,
) -> Result<Meaning, AllocError>
    ensures meaning { IfOk result (λ meaning. meaning ≡ (spec_tagged_protocol name.now tags).meaning) }
    ensures faults { OnOk result (faults.new ≡ faults.old ++ (spec_tagged_protocol name.now tags).faults) }
{
    let found = defined(alloc, name, Protocol::Variant(tags), faults)?;
    Ok(protocol_name(found))
}
