//! The targets of an input, `el` or `el::el`, and those of a variant.
#![tactic(auto, using(occ_base::proofs::Fronts::front_rules))]

ghost use Rattle.std.specs.Prelude.{◌≡◌, ◌∷◌, ◌++◌, [], IfOk, OnOk, Some};
ghost use Rattle.occ_base.specs.Lists.{joined, one_part};
ghost use Rattle.occ_typing_statements.specs.Receiving.{counted as spec_counted, counted_target as spec_counted_target, detail_received as spec_detail_received, details_received as spec_details_received, givens as spec_givens, item_received as spec_item_received, items_received as spec_items_received, no_target as spec_no_target, received_faults as spec_received_faults, received_trees as spec_received_trees, single as spec_single, single_target as spec_single_target};

use super::exchange_tree::TypedTarget;
use occ_base::{Fault, Items, with_part};
use occ_expr::target_of;
use occ_forms::{Detail, InputItem};
use occ_forms_expressions::Element;
use occ_protocol::Given;
use occ_scope::Scope;
use occ_typing_operands::Kind;
use occ_typing_rules::TypedElement;
use std::alloc::{AllocError, Global};

/// What is received as one: what is known of where it goes, and its tree, if that has no fault.
#[derive(Drop)]
struct ReceivedOne {
    given: Given,
    tree: Option<TypedTarget>,
}

/// The tree of a target.
fn single_target(tree: Option<TypedElement>) -> Option<TypedTarget>
    ensures { result ≡ spec_single_target tree }
{
    Some(TypedTarget::Single(tree?))
}

/// The tree of a counted target.
fn counted_target(count: Option<TypedElement>, array: Option<TypedElement>) -> Option<TypedTarget>
    ensures { result ≡ spec_counted_target count array }
{
    let count = count?;
    Some(TypedTarget::Counted(count, array?))
}

/// `el`
fn single(
    alloc: Global,
    target: &Element,
    scope: &Scope,
    faults: &mut Items<Fault>,
) -> Result<ReceivedOne, AllocError>
    ensures given { IfOk result (λ one. one.given ≡ (spec_single scope.now target.now).given) }
    ensures tree { IfOk result (λ one. one.tree ≡ (spec_single scope.now target.now).tree) }
    ensures faults { OnOk result (faults.new ≡ faults.old ++ (spec_single scope.now target.now).faults) }
{
    let read = target_of(alloc, target, scope, faults)?;
    Ok(ReceivedOne {
        given: Given::Plain(read.kind),
        tree: single_target(read.tree),
    })
}

/// `el::el`
fn counted(
    alloc: Global,
    count: &Element,
    array: &Element,
    scope: &Scope,
    faults: &mut Items<Fault>,
) -> Result<ReceivedOne, AllocError>
    ensures given { IfOk result (λ one. one.given ≡ (spec_counted scope.now count.now array.now).given) }
    ensures tree { IfOk result (λ one. one.tree ≡ (spec_counted scope.now count.now array.now).tree) }
    ensures faults { OnOk result (faults.new ≡ faults.old ++ (spec_counted scope.now count.now array.now).faults) }
{
    let count = target_of(alloc, count, scope, faults)?;
    let array = target_of(alloc, array, scope, faults)?;
    Ok(ReceivedOne {
        given: Given::Counted(count.kind, array.kind),
        tree: counted_target(count.tree, array.tree),
    })
}

/// What an input receives as one.
fn item_received(
    alloc: Global,
    item: &InputItem,
    scope: &Scope,
    faults: &mut Items<Fault>,
) -> Result<ReceivedOne, AllocError>
    ensures given { IfOk result (λ one. one.given ≡ (spec_item_received scope.now item.now).given) }
    ensures tree { IfOk result (λ one. one.tree ≡ (spec_item_received scope.now item.now).tree) }
    ensures faults { OnOk result (faults.new ≡ faults.old ++ (spec_item_received scope.now item.now).faults) }
{
    match item {
        InputItem::Plain(target) => single(alloc, target, scope, faults),
        InputItem::Counted(count, array) => counted(alloc, count.get(), array.get(), scope, faults),
    }
}

/// What stands where a variant receives, and can be a type alone.
fn no_target() -> ReceivedOne
    ensures given { result.given ≡ spec_no_target.given }
    ensures tree { result.tree ≡ spec_no_target.tree }
{
    ReceivedOne {
        given: Given::Plain(Kind::Faulty),
        tree: None,
    }
}

/// What a variant receives as one.
fn detail_received(
    alloc: Global,
    detail: &Detail,
    scope: &Scope,
    faults: &mut Items<Fault>,
) -> Result<ReceivedOne, AllocError>
    ensures given { IfOk result (λ one. one.given ≡ (spec_detail_received scope.now detail.now).given) }
    ensures tree { IfOk result (λ one. one.tree ≡ (spec_detail_received scope.now detail.now).tree) }
    ensures faults { OnOk result (faults.new ≡ faults.old ++ (spec_detail_received scope.now detail.now).faults) }
{
    match detail {
        Detail::Element(target) => single(alloc, target, scope, faults),
        Detail::Counted(count, array) => counted(alloc, count, array, scope, faults),
        Detail::Array(_, _, _) => Ok(no_target()),
        Detail::Builtin(_, _) => Ok(no_target()),
        Detail::CountedType(_, _) => Ok(no_target()),
    }
}

/// What an input receives: what is known of where each goes, and the trees, if none has a fault.
#[derive(Drop)]
pub struct ReceivedAll {
    pub givens: Items<Given>,
    pub trees: Option<Items<TypedTarget>>,
}

/// Nothing yet, with room for so many: targets are large, and most inputs have one.
pub fn nothing_received(alloc: Global, count: usize) -> Result<ReceivedAll, AllocError>
    ensures givens { IfOk result (λ all. all.givens ≡ []) }
    ensures trees { IfOk result (λ all. all.trees ≡ Some []) }
{
    let trees = Items::from_vec(Vec::with_capacity(alloc, count)?);
    Ok(ReceivedAll {
        givens: Items::new(alloc),
        trees: Some(trees),
    })
}

/// One more.
fn with_received(all: ReceivedAll, one: ReceivedOne) -> Result<ReceivedAll, AllocError>
    ensures givens { IfOk result (λ more. more.givens ≡ all.givens ++ one.given ∷ []) }
    ensures trees { IfOk result (λ more. more.trees ≡ joined all.trees (one_part one.tree)) }
{
    let ReceivedAll { mut givens, trees } = all;
    let trees = with_part(trees, one.tree);
    givens.push(one.given)?;
    Ok(ReceivedAll {
        givens,
        trees: trees?,
    })
}

/// What an input receives, after what it received before.
pub fn items_received(
    alloc: Global,
    items: &[InputItem],
    mut all: ReceivedAll,
    scope: &Scope,
    faults: &mut Items<Fault>,
) -> Result<ReceivedAll, AllocError>
    ensures givens { IfOk result (λ more. more.givens ≡ all.givens ++ spec_givens (spec_items_received scope.now items.now)) }
    ensures trees { IfOk result (λ more. more.trees ≡ joined all.trees (spec_received_trees (spec_items_received scope.now items.now))) }
    ensures faults { OnOk result (faults.new ≡ faults.old ++ spec_received_faults (spec_items_received scope.now items.now)) }
{
    for item in items {
        let one = item_received(alloc, item, scope, faults)?;
        all = with_received(all, one)?;
    }
    Ok(all)
}

/// What a variant receives, after what it received before.
pub fn details_received(
    alloc: Global,
    details: &[Detail],
    mut all: ReceivedAll,
    scope: &Scope,
    faults: &mut Items<Fault>,
) -> Result<ReceivedAll, AllocError>
    ensures givens { IfOk result (λ more. more.givens ≡ all.givens ++ spec_givens (spec_details_received scope.now details.now)) }
    ensures trees { IfOk result (λ more. more.trees ≡ joined all.trees (spec_received_trees (spec_details_received scope.now details.now))) }
    ensures faults { OnOk result (faults.new ≡ faults.old ++ spec_received_faults (spec_details_received scope.now details.now)) }
{
    for detail in details {
        let one = detail_received(alloc, detail, scope, faults)?;
        all = with_received(all, one)?;
    }
    Ok(all)
}
