//! Inputs: `el ? target; ..`, `el ? AFTER e` and `el ? CASE n; ..`, as processes and as guards. `docs/LANGUAGE.md,
//! Outputs, inputs and case inputs`.
ghost use Rattle.occ_expr.specs.Trees.{int_tree as spec_int_tree};
ghost use Rattle.std.specs.Prelude.{MatchOption, Some, ◌≡◌, ◌≢◌, [], ◌∷◌, ◌++◌, IfOk, OnOk};
ghost use Rattle.occ_typing_operands.specs.Settling.{int as spec_int};
ghost use Rattle.occ_protocol.specs.Carrying.{carrier};
ghost use Rattle.occ_protocol.specs.Lines.{awaited as spec_awaited, exchanged as spec_exchanged, received as spec_received};
ghost use Rattle.occ_typing_tables.specs.Terms.{judged};
ghost use Rattle.occ_typing_rules.specs.Placing.{placed as spec_placed};
ghost use Rattle.occ_typing_statements.specs.Receiving.{givens as spec_givens, items_received as spec_items_received, received_faults as spec_received_faults, received_trees as spec_received_trees};
ghost use Rattle.occ_typing_statements.specs.Inputs.{after_faults as spec_after_faults, after_input as spec_after_input, after_tree as spec_after_tree, input_faults as spec_input_faults, input_tree as spec_input_tree, plain_faults as spec_plain_faults, plain_input as spec_plain_input, plain_of as spec_plain_of, plain_tree as spec_plain_tree, tagged_at as spec_tagged_at, tagged_faults as spec_tagged_faults, tagged_input as spec_tagged_input, tagged_tree as spec_tagged_tree, time_faults as spec_time_faults, time_of as spec_time_of};

use super::exchange_tree::{TypedInput, TypedTarget};
use super::receiving::{items_received, nothing_received};
use super::through::root_of;
use occ_base::{Boxed, Fault, Items, Name, Shared};
use occ_expr::{element, expression};
use occ_expr_operations::Reading;
use occ_forms::{Input, InputItem};
use occ_forms_expressions::{Element, Expr};
use occ_protocol::{awaited, exchanged, is_timer, received, tag_place};
use occ_scope::Scope;
use occ_typing_operands::{Kind, int};
use occ_typing_rules::{TypedElement, TypedExpr, placed};
use occ_typing_tables::under;
use std::alloc::{AllocError, Global};
use std::slice;

/// The item of a list of one.
#[tactic(auto, using(crate::proofs::Times::one_rules))]
fn only<T: Drop>(mut items: Items<T>) -> Option<T>
    ensures { MatchOption result ((item : T) → items ≢ item ∷ []) (λ item. items ≡ item ∷ []) }
{
    let item = items.pop()?;
    if items.is_empty() { Some(item) } else { None }
}

/// The one target of an input from a timer.
#[tactic(auto, using(crate::proofs::Times::time_rules))]
fn time_of(
    alloc: Global,
    timer: TypedElement,
    targets: Items<TypedTarget>,
) -> Result<Option<TypedInput>, AllocError>
    ensures { IfOk result (λ input. input ≡ spec_time_of timer targets) }
{
    let Some(TypedTarget::Single(target)) = only(targets) else {
        return Ok(None);
    };
    Ok(Some(TypedInput::Time(timer, Boxed::new(alloc, target)?)))
}

/// An input with these targets, from a timer or from a channel.
fn plain_of(
    alloc: Global,
    of_timer: bool,
    channel: TypedElement,
    targets: Items<TypedTarget>,
) -> Result<Option<TypedInput>, AllocError>
    ensures { IfOk result (λ input. input ≡ spec_plain_of of_timer channel targets) }
{
    if of_timer {
        time_of(alloc, channel, targets)
    } else {
        Ok(Some(TypedInput::Plain(channel, targets)))
    }
}

/// An input, if its channel or timer and its targets have trees.
fn plain_input(
    alloc: Global,
    of_timer: bool,
    channel: Option<TypedElement>,
    targets: Option<Items<TypedTarget>>,
) -> Result<Option<TypedInput>, AllocError>
    ensures { IfOk result (λ input. input ≡ spec_plain_input of_timer channel targets) }
{
    let Some((channel, targets)) = channel.zip(targets) else {
        return Ok(None);
    };
    plain_of(alloc, of_timer, channel, targets)
}

/// The targets of `el ? i; ..` and what is reported of them and of what they are received through, of which this is known.
#[tactic(auto, using(occ_base::proofs::Fronts::front_rules))]
fn plain_targets(
    alloc: Global,
    channel: &Kind,
    root: &Name,
    first: &InputItem,
    more: &[InputItem],
    scope: &Scope,
    faults: &mut Items<Fault>,
) -> Result<Option<Items<TypedTarget>>, AllocError>
    ensures targets { IfOk result (λ targets. targets ≡ spec_received_trees (spec_items_received scope.now (first.now ∷ more.now))) }
    ensures faults { OnOk result (faults.new ≡ faults.old ++ (spec_received_faults (spec_items_received scope.now (first.now ∷ more.now)) ++ spec_received (carrier channel.now) root.now (spec_givens (spec_items_received scope.now (first.now ∷ more.now))))) }
{
    let none = nothing_received(alloc, more.len().saturating_add(1))?;
    let all = items_received(alloc, slice::from_ref(first), none, scope, faults)?;
    let all = items_received(alloc, more, all, scope, faults)?;
    received(alloc, channel, root, all.givens.as_slice(), faults)?;
    Ok(all.trees)
}

/// `el ? i; ..`
#[tactic(auto, using(occ_base::proofs::Fronts::front_rules), unfolding(crate::specs::Inputs::plain_faults, crate::specs::Inputs::plain_tree))]
fn plain(
    alloc: Global,
    channel: &Element,
    first: &InputItem,
    more: &[InputItem],
    scope: &Scope,
    faults: &mut Items<Fault>,
) -> Result<Option<TypedInput>, AllocError>
    ensures tree { IfOk result (λ tree. tree ≡ spec_plain_tree scope.now channel.now (first.now ∷ more.now)) }
    ensures faults { OnOk result (faults.new ≡ faults.old ++ spec_plain_faults scope.now channel.now (first.now ∷ more.now)) }
{
    let read = element(alloc, channel, scope, faults)?;
    let root = root_of(scope, channel);
    let targets = plain_targets(alloc, &read.kind, root, first, more, scope, faults)?;
    plain_input(alloc, is_timer(&read.kind), read.tree, targets)
}

/// `el ? AFTER e`, if the timer and the INT have trees.
fn after_input(timer: Option<TypedElement>, time: Option<Shared<TypedExpr>>) -> Option<TypedInput>
    ensures { result ≡ spec_after_input timer time }
{
    let (timer, time) = timer.zip(time)?;
    Some(TypedInput::After(timer, time))
}

/// The tree of an INT of which this is read, if it has no fault.
fn as_time(
    alloc: Global,
    read: &Reading,
    faults: &mut Items<Fault>,
) -> Result<Option<Shared<TypedExpr>>, AllocError>
    ensures tree { IfOk result (λ tree. tree ≡ spec_placed read.now.open_expr spec_int) }
    ensures faults { OnOk result (faults.new ≡ faults.old ++ ((judged read.now.term).under spec_int).faults) }
{
    let of = int(alloc)?;
    under(alloc, &read.term, &of, faults)?;
    placed(alloc, &read.open_expr, &of)
}

/// What stands after `AFTER`, which is an INT: its tree, if it has no fault.
#[tactic(auto, unfolding(crate::specs::Inputs::time_faults, occ_expr::specs::Trees::int_tree))]
fn time(
    alloc: Global,
    expr: &Expr,
    scope: &Scope,
    faults: &mut Items<Fault>,
) -> Result<Option<Shared<TypedExpr>>, AllocError>
    ensures tree { IfOk result (λ tree. tree ≡ spec_int_tree scope.now expr.now) }
    ensures faults { OnOk result (faults.new ≡ faults.old ++ spec_time_faults scope.now expr.now) }
{
    let read = expression(alloc, expr, scope, faults)?;
    let tree = as_time(alloc, &read, faults);
    drop(read);
    tree
}

/// What stands after `AFTER`, and what is reported of the timer in front of it, of which this is known.
fn time_after(
    alloc: Global,
    timer: &Kind,
    root: &Name,
    expr: &Expr,
    scope: &Scope,
    faults: &mut Items<Fault>,
) -> Result<Option<Shared<TypedExpr>>, AllocError>
    ensures tree { IfOk result (λ tree. tree ≡ spec_int_tree scope.now expr.now) }
    ensures faults { OnOk result (faults.new ≡ faults.old ++ (spec_time_faults scope.now expr.now ++ spec_awaited (carrier timer.now) root.now)) }
{
    let tree = time(alloc, expr, scope, faults)?;
    awaited(alloc, timer, root, faults)?;
    Ok(tree)
}

/// `el ? AFTER e`
#[tactic(auto, unfolding(crate::specs::Inputs::after_faults, crate::specs::Inputs::after_tree))]
fn after(
    alloc: Global,
    timer: &Element,
    expr: &Expr,
    scope: &Scope,
    faults: &mut Items<Fault>,
) -> Result<Option<TypedInput>, AllocError>
    ensures tree { IfOk result (λ tree. tree ≡ spec_after_tree scope.now timer.now expr.now) }
    ensures faults { OnOk result (faults.new ≡ faults.old ++ spec_after_faults scope.now timer.now expr.now) }
{
    let read = element(alloc, timer, scope, faults)?;
    let root = root_of(scope, timer);
    let tree = time_after(alloc, &read.kind, root, expr, scope, faults)?;
    Ok(after_input(read.tree, tree))
}

/// `el ? CASE n; i; ..`, if the tag is in the protocol.
fn tagged_at(
    alloc: Global,
    channel: TypedElement,
    place: Option<usize>,
    tag: &Name,
    targets: Items<TypedTarget>,
) -> Result<Option<TypedInput>, AllocError>
    ensures { IfOk result (λ tree. tree ≡ spec_tagged_at channel place tag.now targets) }
{
    let Some(place) = place else {
        return Ok(None);
    };
    let tag = tag.copied(alloc)?;
    let channel = Boxed::new(alloc, channel)?;
    Ok(Some(TypedInput::Tagged(channel, place, tag, targets)))
}

/// `el ? CASE n; i; ..`, if the channel, the tag and the targets have trees.
fn tagged_input(
    alloc: Global,
    channel: Option<TypedElement>,
    place: Option<usize>,
    tag: &Name,
    targets: Option<Items<TypedTarget>>,
) -> Result<Option<TypedInput>, AllocError>
    ensures { IfOk result (λ tree. tree ≡ spec_tagged_input channel place tag.now targets) }
{
    let Some((channel, targets)) = channel.zip(targets) else {
        return Ok(None);
    };
    tagged_at(alloc, channel, place, tag, targets)
}

/// The targets of `el ? CASE n; i; ..` and what is reported of them and of what they are received through, of which this is
/// known.
#[tactic(auto, using(occ_base::proofs::Fronts::front_rules))]
fn tagged_targets(
    alloc: Global,
    channel: &Kind,
    root: &Name,
    tag: &Name,
    items: &[InputItem],
    scope: &Scope,
    faults: &mut Items<Fault>,
) -> Result<Option<Items<TypedTarget>>, AllocError>
    ensures targets { IfOk result (λ targets. targets ≡ spec_received_trees (spec_items_received scope.now items.now)) }
    ensures faults { OnOk result (faults.new ≡ faults.old ++ (spec_received_faults (spec_items_received scope.now items.now) ++ spec_exchanged (carrier channel.now) root.now (Some tag.now) (spec_givens (spec_items_received scope.now items.now)))) }
{
    let none = nothing_received(alloc, items.len())?;
    let all = items_received(alloc, items, none, scope, faults)?;
    exchanged(
        alloc,
        channel,
        root,
        Some(tag),
        all.givens.as_slice(),
        faults,
    )?;
    Ok(all.trees)
}

/// `el ? CASE n; i; ..`
#[tactic(auto, using(occ_base::proofs::Fronts::front_rules), unfolding(crate::specs::Inputs::tagged_faults, crate::specs::Inputs::tagged_tree))]
fn tagged(
    alloc: Global,
    channel: &Element,
    tag: &Name,
    items: &[InputItem],
    scope: &Scope,
    faults: &mut Items<Fault>,
) -> Result<Option<TypedInput>, AllocError>
    ensures tree { IfOk result (λ tree. tree ≡ spec_tagged_tree scope.now channel.now tag.now items.now) }
    ensures faults { OnOk result (faults.new ≡ faults.old ++ spec_tagged_faults scope.now channel.now tag.now items.now) }
{
    let read = element(alloc, channel, scope, faults)?;
    let root = root_of(scope, channel);
    let targets = tagged_targets(alloc, &read.kind, root, tag, items, scope, faults)?;
    let place = tag_place(&read.kind, tag);
    tagged_input(alloc, read.tree, place, tag, targets)
}

/// An input, as a process or as a guard.
pub fn input(
    alloc: Global,
    input: &Input,
    scope: &Scope,
    faults: &mut Items<Fault>,
) -> Result<Option<TypedInput>, AllocError>
    ensures tree { IfOk result (λ tree. tree ≡ spec_input_tree scope.now input.now) }
    ensures faults { OnOk result (faults.new ≡ faults.old ++ spec_input_faults scope.now input.now) }
{
    match input {
        Input::Plain(channel, first, more) => {
            plain(alloc, channel, first, more.as_slice(), scope, faults)
        }
        Input::After(timer, time) => after(alloc, timer, time, scope, faults),
        Input::Tagged(channel, tag, items) => {
            tagged(alloc, channel, tag, items.as_slice(), scope, faults)
        }
    }
}
