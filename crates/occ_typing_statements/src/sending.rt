//! Outputs `el ! out; ..`: the element, the items with what is wanted of each, then the list as a whole.
#![tactic(auto, using(occ_base::proofs::Fronts::front_rules))]

ghost use Rattle.std.specs.Prelude.{◌≡◌, ◌++◌, [], IfOk, OnOk};
ghost use Rattle.occ_base.specs.Lists.{joined};
ghost use Rattle.occ_protocol.specs.Carrying.{Carrier, carrier as spec_carrier, name_seen};
ghost use Rattle.occ_protocol.specs.Lines.{place_after};
ghost use Rattle.occ_protocol.specs.Wanting.{wants as spec_wants};
ghost use Rattle.occ_typing_tables.specs.Terms.{judged};
ghost use Rattle.occ_types.specs.View.{as_array};
ghost use Rattle.occ_typing_statements.specs.Sending.{after_tag as spec_after_tag, count_want as spec_count_want, counted_output as spec_counted_output, givens as spec_givens, item_faults as spec_item_faults, item_read as spec_item_read, item_sent as spec_item_sent, items_after as spec_items_after, items_faults as spec_items_faults, items_read as spec_items_read, items_sent as spec_items_sent, name_sent as spec_name_sent, operand_as as spec_operand_as, operand_under as spec_operand_under, output_faults as spec_output_faults, output_tree as spec_output_tree, outputs_after as spec_outputs_after, sending_of as spec_sending_of, sent_faults as spec_sent_faults, sent_trees as spec_sent_trees, shape_of as spec_shape_of, shapes_of as spec_shapes_of, table_as as spec_table_as, tag_at as spec_tag_at, tag_of as spec_tag_of, tag_tree as spec_tag_tree, value_output as spec_value_output, value_want as spec_value_want};

use super::exchange_tree::TypedOutput;
use super::through::root_of;
use occ_base::{Fault, Items, Name, Shared, one_item, with_part};
use occ_expr::{element, expression};
use occ_expr_operations::{Reading, name_alone};
use occ_forms::OutputItem;
use occ_forms_expressions::Element;
use occ_protocol::{Given, Message, Shape, Want, Wanted, takes_tag};
use occ_scope::Scope;
use occ_types::{OccType, array_of};
use occ_typing_operands::{Kind, settled};
use occ_typing_rules::{TypedElement, TypedExpr, tree_of};
use occ_typing_tables::{Term, alone, hidden, under};
use std::alloc::{AllocError, Global};

/// The name that an item is alone.
fn name_sent(item: &OutputItem) -> Option<&Name>
    ensures { name_seen result ≡ spec_name_sent item.now }
{
    match item {
        OutputItem::Plain(expr) => name_alone(expr),
        OutputItem::Counted(_, _) => None,
    }
}

/// The tag of an output, of which this is the first item.
fn tag_of<'a>(channel: &Kind, first: &'a OutputItem) -> Option<&'a Name>
    ensures { name_seen result ≡ spec_tag_of (spec_carrier channel.now) first.now }
{
    if takes_tag(channel) {
        name_sent(first)
    } else {
        None
    }
}

/// What is read of an item before a type is wanted of it.
#[derive(Drop)]
pub enum SentItem {
    Plain(Reading),
    Counted(Reading, Reading),
}

/// An item by itself.
fn item_read(
    alloc: Global,
    item: &OutputItem,
    scope: &Scope,
    faults: &mut Items<Fault>,
) -> Result<SentItem, AllocError>
    ensures item { IfOk result (λ read. read ≡ spec_item_read scope.now item.now) }
    ensures faults { OnOk result (faults.new ≡ faults.old ++ spec_item_faults scope.now item.now) }
{
    match item {
        OutputItem::Plain(expr) => Ok(SentItem::Plain(expression(alloc, expr, scope, faults)?)),
        OutputItem::Counted(count, array) => {
            let count = expression(alloc, count.get(), scope, faults)?;
            let array = expression(alloc, array.get(), scope, faults)?;
            Ok(SentItem::Counted(count, array))
        }
    }
}

/// Items by themselves, after others.
fn items_read(
    alloc: Global,
    items: &[OutputItem],
    scope: &Scope,
    read: &mut Items<SentItem>,
    faults: &mut Items<Fault>,
) -> Result<(), AllocError>
    ensures items { OnOk result (read.new ≡ read.old ++ spec_items_read scope.now items.now) }
    ensures faults { OnOk result (faults.new ≡ faults.old ++ spec_items_faults scope.now items.now) }
{
    for item in items {
        let item = item_read(alloc, item, scope, faults)?;
        read.push(item)?;
    }
    Ok(())
}

/// The items after a tag, or after none, by themselves.
fn items_after(
    alloc: Global,
    tag: Option<&Name>,
    first: &OutputItem,
    more: &[OutputItem],
    scope: &Scope,
    faults: &mut Items<Fault>,
) -> Result<Items<SentItem>, AllocError>
    ensures items { IfOk result (λ read. read ≡ spec_items_read scope.now (spec_items_after (name_seen tag.entry) first.now more.now)) }
    ensures faults { OnOk result (faults.new ≡ faults.old ++ spec_items_faults scope.now (spec_items_after (name_seen tag.entry) first.now more.now)) }
{
    let mut read = match tag {
        Some(_) => Items::new(alloc),
        None => one_item(alloc, item_read(alloc, first, scope, faults)?)?,
    };
    items_read(alloc, more, scope, &mut read, faults)?;
    Ok(read)
}

/// How an item is written.
fn shape_of(item: &SentItem) -> Shape
    ensures { result ≡ spec_shape_of item.now }
{
    match item {
        SentItem::Plain(_) => Shape::Plain,
        SentItem::Counted(_, _) => Shape::Counted,
    }
}

/// How items are written.
fn shapes_of(alloc: Global, items: &[SentItem]) -> Result<Items<Shape>, AllocError>
    ensures { IfOk result (λ shapes. shapes ≡ spec_shapes_of items.now) }
{
    let mut shapes = Items::new(alloc);
    for item in items {
        shapes.push(shape_of(item))?;
    }
    Ok(shapes)
}

/// A table, of which an array is wanted: it takes the components, as many as it has.
fn table_as(
    alloc: Global,
    table: &Term,
    of: &OccType,
    faults: &mut Items<Fault>,
) -> Result<Kind, AllocError>
    ensures kind { IfOk result (λ kind. kind ≡ (spec_table_as (judged table.now) (as_array of.now)).kind) }
    ensures faults { OnOk result (faults.new ≡ faults.old ++ (spec_table_as (judged table.now) (as_array of.now)).faults) }
{
    match array_of(of) {
        None => alone(alloc, table, faults),
        Some((_, component)) => {
            let array = Shared::new(alloc, OccType::Array(None, component.share()?))?;
            under(alloc, table, &array, faults)
        }
    }
}

/// An operand of which this type is wanted, which may be of another all the same.
#[tactic(auto, using(crate::proofs::Operands::operand_rules))]
fn operand_as(
    alloc: Global,
    of: &Shared<OccType>,
    term: &Term,
    faults: &mut Items<Fault>,
) -> Result<Kind, AllocError>
    ensures kind { IfOk result (λ kind. kind ≡ (spec_operand_as of.now term.now).kind) }
    ensures faults { OnOk result (faults.new ≡ faults.old ++ (spec_operand_as of.now term.now).faults) }
{
    match term {
        Term::Single(kind) => settled(alloc, of, kind, faults),
        Term::Table(_) => table_as(alloc, term, of.get(), faults),
    }
}

/// An operand, where this is wanted of it.
fn operand_under(
    alloc: Global,
    want: &Want,
    term: &Term,
    faults: &mut Items<Fault>,
) -> Result<Kind, AllocError>
    ensures kind { IfOk result (λ kind. kind ≡ (spec_operand_under want.now term.now).kind) }
    ensures faults { OnOk result (faults.new ≡ faults.old ++ (spec_operand_under want.now term.now).faults) }
{
    match want {
        Want::Hidden => {
            hidden(alloc, term, faults)?;
            Ok(Kind::Faulty)
        }
        Want::Nothing => alone(alloc, term, faults),
        Want::Of(of) => operand_as(alloc, of, term, faults),
    }
}

/// What is wanted of a plain item, and of the array of a counted one.
fn value_want(wanted: &Wanted) -> &Want
    ensures { result.now ≡ spec_value_want wanted.now }
{
    match wanted {
        Wanted::Plain(want) => want,
        Wanted::Counted(_, want) => want,
    }
}

/// What is wanted of the count of an item.
fn count_want(wanted: &Wanted) -> &Want
    ensures { result.now ≡ spec_count_want wanted.now }
{
    match wanted {
        Wanted::Plain(want) => want,
        Wanted::Counted(count, _) => count,
    }
}

/// The tree of a plain item.
fn value_output(tree: Option<Shared<TypedExpr>>) -> Option<TypedOutput>
    ensures { result ≡ spec_value_output tree }
{
    Some(TypedOutput::Value(tree?))
}

/// The tree of a counted item.
fn counted_output(
    count: Option<Shared<TypedExpr>>,
    array: Option<Shared<TypedExpr>>,
) -> Option<TypedOutput>
    ensures { result ≡ spec_counted_output count array }
{
    let (count, array) = count.zip(array)?;
    Some(TypedOutput::Counted(count, array))
}

/// An item that is sent: what is known of it, and its tree, if it has no fault.
#[derive(Drop)]
struct SentOne {
    given: Given,
    tree: Option<TypedOutput>,
}

/// An item of which this is wanted.
fn item_sent(
    alloc: Global,
    wanted: &Wanted,
    item: &SentItem,
    faults: &mut Items<Fault>,
) -> Result<SentOne, AllocError>
    ensures given { IfOk result (λ one. one.given ≡ (spec_item_sent wanted.now item.now).given) }
    ensures tree { IfOk result (λ one. one.tree ≡ (spec_item_sent wanted.now item.now).tree) }
    ensures faults { OnOk result (faults.new ≡ faults.old ++ (spec_item_sent wanted.now item.now).faults) }
{
    match item {
        SentItem::Plain(value) => {
            let kind = operand_under(alloc, value_want(wanted), &value.term, faults)?;
            let tree = value_output(tree_of(alloc, &kind, &value.open_expr)?);
            Ok(SentOne {
                given: Given::Plain(kind),
                tree,
            })
        }
        SentItem::Counted(count, array) => {
            let number = operand_under(alloc, count_want(wanted), &count.term, faults)?;
            let kind = operand_under(alloc, value_want(wanted), &array.term, faults)?;
            let counted = tree_of(alloc, &number, &count.open_expr)?;
            let tree = counted_output(counted, tree_of(alloc, &kind, &array.open_expr)?);
            Ok(SentOne {
                given: Given::Counted(number, kind),
                tree,
            })
        }
    }
}

/// Items that are sent: what is known of each, and their trees, if none has a fault.
#[derive(Drop)]
struct SentAll {
    givens: Items<Given>,
    trees: Option<Items<TypedOutput>>,
}

/// Items of each of which this is wanted.
fn items_sent(
    alloc: Global,
    wanted: &[Wanted],
    items: &[SentItem],
    faults: &mut Items<Fault>,
) -> Result<SentAll, AllocError>
    ensures givens { IfOk result (λ all. all.givens ≡ spec_givens (spec_items_sent wanted.now items.now)) }
    ensures trees { IfOk result (λ all. all.trees ≡ spec_sent_trees (spec_items_sent wanted.now items.now)) }
    ensures faults { OnOk result (faults.new ≡ faults.old ++ spec_sent_faults (spec_items_sent wanted.now items.now)) }
{
    let mut givens = Items::new(alloc);
    let mut trees = Some(Items::from_vec(Vec::with_capacity(alloc, wanted.len())?));
    let mut items = items;
    for want in wanted {
        let Some((item, rest)) = items.split_first() else {
            return Ok(SentAll { givens, trees });
        };
        let one = item_sent(alloc, want, item, faults)?;
        givens.push(one.given)?;
        trees = with_part(trees, one.tree)?;
        items = rest;
    }
    Ok(SentAll { givens, trees })
}

/// Items that are sent in this message, each with what is wanted of it.
fn sent_through(
    alloc: Global,
    message: &Message<'_>,
    items: &[SentItem],
    faults: &mut Items<Fault>,
) -> Result<SentAll, AllocError>
    ensures givens { IfOk result (λ all. all.givens ≡ spec_givens (spec_items_sent (spec_wants message.now.0 (spec_shapes_of items.now)) items.now)) }
    ensures trees { IfOk result (λ all. all.trees ≡ spec_sent_trees (spec_items_sent (spec_wants message.now.0 (spec_shapes_of items.now)) items.now)) }
    ensures faults { OnOk result (faults.new ≡ faults.old ++ spec_sent_faults (spec_items_sent (spec_wants message.now.0 (spec_shapes_of items.now)) items.now)) }
{
    let shapes = shapes_of(alloc, items)?;
    let wanted = message.wants(alloc, shapes.as_slice())?;
    items_sent(alloc, wanted.as_slice(), items, faults)
}

/// A tag at its place in the protocol, if it is there.
fn tag_at(
    alloc: Global,
    name: &Name,
    place: Option<usize>,
) -> Result<Option<Items<TypedOutput>>, AllocError>
    ensures { IfOk result (λ tree. tree ≡ spec_tag_at name.now place) }
{
    let Some(place) = place else {
        return Ok(None);
    };
    let tag = TypedOutput::Tag(place, name.copied(alloc)?);
    Ok(Some(one_item(alloc, tag)?))
}

/// The tree of a tag, of which this is the place in the protocol; no items without one.
fn tag_tree(
    alloc: Global,
    tag: Option<&Name>,
    place: Option<usize>,
) -> Result<Option<Items<TypedOutput>>, AllocError>
    ensures { (c : Carrier) → place ≡ place_after c (name_seen tag.entry) → IfOk result (λ tree. tree ≡ spec_tag_tree c (name_seen tag.entry)) }
{
    match tag {
        None => Ok(Some(Items::new(alloc))),
        Some(name) => tag_at(alloc, name, place),
    }
}

/// A tag and the items after it, if all are there.
fn with_outputs(
    tag: Option<Items<TypedOutput>>,
    items: Option<Items<TypedOutput>>,
) -> Result<Option<Items<TypedOutput>>, AllocError>
    ensures { IfOk result (λ all. all ≡ joined tag items) }
{
    let Some((mut all, items)) = tag.zip(items) else {
        return Ok(None);
    };
    if all.is_empty() {
        return Ok(Some(items));
    }
    all.append(items)?;
    Ok(Some(all))
}

/// What an output sends, after a tag or after none, with what is reported of it; the trees, if nothing has a fault.
fn after_tag(
    alloc: Global,
    channel: &Kind,
    root: &Name,
    tag: Option<&Name>,
    first: &OutputItem,
    more: &[OutputItem],
    scope: &Scope,
    faults: &mut Items<Fault>,
) -> Result<Option<Items<TypedOutput>>, AllocError>
    ensures trees { IfOk result (λ trees. trees ≡ spec_outputs_after scope.now (spec_carrier channel.now) (name_seen tag.entry) (spec_items_after (name_seen tag.entry) first.now more.now)) }
    ensures faults { OnOk result (faults.new ≡ faults.old ++ spec_after_tag scope.now (spec_carrier channel.now) root.now (name_seen tag.entry) (spec_items_after (name_seen tag.entry) first.now more.now)) }
{
    let items = items_after(alloc, tag, first, more, scope, faults)?;
    let message = Message::new(channel, tag);
    let sent = sent_through(alloc, &message, items.as_slice(), faults)?;
    message.report(alloc, root, sent.givens.as_slice(), faults)?;
    with_outputs(tag_tree(alloc, tag, message.place())?, sent.trees)
}

/// An output: what it sends through, and what it sends, a tag first.
#[derive(Drop)]
pub struct TypedSending {
    pub channel: TypedElement,
    pub outputs: Items<TypedOutput>,
}

/// An output, if its channel and what it sends have trees.
fn sending_of(
    channel: Option<TypedElement>,
    outputs: Option<Items<TypedOutput>>,
) -> Option<TypedSending>
    ensures { result ≡ spec_sending_of channel outputs }
{
    let (channel, outputs) = channel.zip(outputs)?;
    Some(TypedSending { channel, outputs })
}

/// `el ! o; ..`
#[tactic(auto, unfolding(crate::specs::Sending::output_faults, crate::specs::Sending::output_tree))]
pub fn output(
    alloc: Global,
    channel: &Element,
    first: &OutputItem,
    more: &[OutputItem],
    scope: &Scope,
    faults: &mut Items<Fault>,
) -> Result<Option<TypedSending>, AllocError>
    ensures tree { IfOk result (λ tree. tree ≡ spec_output_tree scope.now channel.now first.now more.now) }
    ensures faults { OnOk result (faults.new ≡ faults.old ++ spec_output_faults scope.now channel.now first.now more.now) }
{
    let read = element(alloc, channel, scope, faults)?;
    let root = root_of(scope, channel);
    let tag = tag_of(&read.kind, first);
    let outputs = after_tag(alloc, &read.kind, root, tag, first, more, scope, faults)?;
    Ok(sending_of(read.tree, outputs))
}
