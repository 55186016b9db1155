//! The line of a tag, `n` or `n; d; ..`, with T8 for one that is there before.
ghost use Rattle.std.specs.Prelude.{◌≡◌, ◌∷◌, ◌++◌, [], IfOk, OnOk};
ghost use Rattle.occ_typing_specifications.specs.Tags.{tag_items as spec_tag_items, tag_line as spec_tag_line};
ghost use Rattle.occ_types.specs.declared.types.Item.TheVariants as i;
ghost use Rattle.occ_types.specs.declared.types.OccType.TheVariants as t;

use super::detail::detail_items;
use occ_base::{Fault, Items, Name, Shared, one_item};
use occ_forms::Detail;
use occ_scope::{Scope, Scopes};
use occ_types::{Item, OccType, PartName, Tag};
use occ_typing_rules::repeated;
use std::alloc::{AllocError, Global};
use std::slice;

/// What stands for the items of a tag whose line has a fault.
fn unknown(alloc: Global) -> Result<Items<Item>, AllocError>
    ensures { IfOk result (λ items. items ≡ i.Value t.Unknown ∷ []) }
{
    one_item(alloc, Item::Value(Shared::new(alloc, OccType::Unknown)?))
}

/// The items of a tag, if its line reported nothing and they are known.
fn tag_items(
    alloc: Global,
    reported: &Items<Fault>,
    items: Option<Items<Item>>,
) -> Result<Items<Item>, AllocError>
    ensures { IfOk result (λ known. known ≡ spec_tag_items reported.now items) }
{
    if !reported.is_empty() {
        return unknown(alloc);
    }
    match items {
        Some(items) => Ok(items),
        None => unknown(alloc),
    }
}

/// `n` or `n; d; ..` in a protocol, of whose lines before `before` has the names: its tag, and its name is added to those.
#[tactic(auto, using(crate::proofs::Both::both_rules, occ_base::proofs::Fronts::front_rules), unfolding(crate::specs::Tags::tag_line))]
pub fn tag(
    alloc: Global,
    name: &Name,
    first: &[Detail],
    more: &[Detail],
    before: &mut Scopes,
    scope: &Scope,
    faults: &mut Items<Fault>,
) -> Result<Tag, AllocError>
    ensures tag { IfOk result (λ tag. tag ≡ (spec_tag_line scope.now before.old name.now (first.now ++ more.now)).tag) }
    ensures names { OnOk result (before.new ≡ before.old ++ name.now ∷ []) }
    ensures faults { OnOk result (faults.new ≡ faults.old ++ (spec_tag_line scope.now before.old name.now (first.now ++ more.now)).faults) }
{
    let mut reported = Items::new(alloc);
    let items = detail_items(alloc, first, Some(Items::new(alloc)), scope, &mut reported)?;
    let items = detail_items(alloc, more, items, scope, &mut reported)?;
    repeated(alloc, slice::from_ref(name), before, &mut reported)?;
    let items = tag_items(alloc, &reported, items)?;
    faults.append(reported)?;
    let name = PartName::new(name.copied(alloc)?);
    Ok(Tag { name, items })
}
