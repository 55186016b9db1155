//! The items of a protocol of one line: types of data and `T::[]U`.
ghost use Rattle.std.specs.Prelude.{◌≡◌, ◌∷◌, ◌++◌, [], IfOk, OnOk};
ghost use Rattle.occ_base.specs.Lists.{joined};
ghost use Rattle.occ_typing_specifications.specs.Items.{counted_if as spec_counted_if, counted_item as spec_counted_item, item_of as spec_item_of, items_of as spec_items_of, row_of as spec_row_of, value_if as spec_value_if, written as spec_written};

use occ_base::{Code, Fault, Items, Shared, report, with_part};
use occ_expr::data_form;
use occ_expr_operations::{Opening, count_type};
use occ_forms::ItemForm;
use occ_forms_expressions::DataForm;
use occ_scope::Scope;
use occ_types::{Item, OccType, Primitive};
use occ_typing_tables::is_too_large;
use std::alloc::{AllocError, Global};

/// A data type as it is written, if nothing is wrong with it.
fn written(
    alloc: Global,
    of: &DataForm,
    scope: &Scope,
    faults: &mut Items<Fault>,
) -> Result<Option<Shared<OccType>>, AllocError>
    ensures found { IfOk result (λ found. found ≡ (spec_written scope.now of.now).found) }
    ensures faults { OnOk result (faults.new ≡ faults.old ++ (spec_written scope.now of.now).faults) }
{
    data_form(
        alloc,
        of.dimensions.as_slice(),
        &of.base,
        Opening::Refused,
        scope,
        faults,
    )
}

/// An item of this type, if that is known.
pub fn value_if(of: Option<Shared<OccType>>) -> Option<Item>
    ensures { result ≡ spec_value_if of }
{
    of.map(|of| Item::Value(of))
}

/// A type of which any number of values may follow a count, if that is not too large: else T9 is reported.
fn row_of(
    alloc: Global,
    of: Option<Shared<OccType>>,
    faults: &mut Items<Fault>,
) -> Result<Option<Shared<OccType>>, AllocError>
    ensures found { IfOk result (λ found. found ≡ (spec_row_of of).found) }
    ensures faults { OnOk result (faults.new ≡ faults.old ++ (spec_row_of of).faults) }
{
    let Some(of) = of else {
        return Ok(None);
    };
    if is_too_large(&OccType::Array(None, of.share()?)) {
        report(faults, Code::T9)?;
        return Ok(None);
    }
    Ok(Some(of))
}

/// A counted item, if the types of its count and of its values are known.
fn counted_if(count: Option<Primitive>, of: Option<Shared<OccType>>) -> Option<Item>
    ensures { result ≡ spec_counted_if count of }
{
    match (count, of) {
        (Some(count), Some(of)) => Some(Item::Counted(count, of)),
        _ => None,
    }
}

/// `T::[]U`
#[tactic(auto, unfolding(crate::specs::Items::counted_item))]
pub fn counted_item(
    alloc: Global,
    count: &DataForm,
    of: &DataForm,
    scope: &Scope,
    faults: &mut Items<Fault>,
) -> Result<Option<Item>, AllocError>
    ensures found { IfOk result (λ found. found ≡ (spec_counted_item scope.now count.now of.now).found) }
    ensures faults { OnOk result (faults.new ≡ faults.old ++ (spec_counted_item scope.now count.now of.now).faults) }
{
    let count = written(alloc, count, scope, faults)?;
    let count = count_type(count, faults)?;
    let of = written(alloc, of, scope, faults)?;
    let of = row_of(alloc, of, faults)?;
    Ok(counted_if(count, of))
}

/// An item of a protocol of one line, if nothing is wrong with its types.
fn item(
    alloc: Global,
    item: &ItemForm,
    scope: &Scope,
    faults: &mut Items<Fault>,
) -> Result<Option<Item>, AllocError>
    ensures found { IfOk result (λ found. found ≡ (spec_item_of scope.now item.now).found) }
    ensures faults { OnOk result (faults.new ≡ faults.old ++ (spec_item_of scope.now item.now).faults) }
{
    match item {
        ItemForm::Plain(of) => {
            let of = written(alloc, of, scope, faults)?;
            Ok(value_if(of))
        }
        ItemForm::Counted(count, of) => counted_item(alloc, count, of, scope, faults),
    }
}

/// Items after others, if nothing is wrong with any.
#[tactic(auto, using(occ_base::proofs::Fronts::front_rules))]
fn more_items(
    alloc: Global,
    forms: &[ItemForm],
    mut items: Option<Items<Item>>,
    scope: &Scope,
    faults: &mut Items<Fault>,
) -> Result<Option<Items<Item>>, AllocError>
    ensures items { IfOk result (λ all. all ≡ joined items (spec_items_of scope.now forms.now).items) }
    ensures faults { OnOk result (faults.new ≡ faults.old ++ (spec_items_of scope.now forms.now).faults) }
{
    for form in forms {
        let next = item(alloc, form, scope, faults)?;
        items = with_part(items, next)?;
    }
    Ok(items)
}

/// The items of a protocol of one line, if nothing is wrong with any.
#[tactic(auto, using(occ_base::proofs::Fronts::front_rules))]
pub fn items(
    alloc: Global,
    first: &ItemForm,
    more: &[ItemForm],
    scope: &Scope,
    faults: &mut Items<Fault>,
) -> Result<Option<Items<Item>>, AllocError>
    ensures items { IfOk result (λ items. items ≡ (spec_items_of scope.now (first.now ∷ more.now)).items) }
    ensures faults { OnOk result (faults.new ≡ faults.old ++ (spec_items_of scope.now (first.now ∷ more.now)).faults) }
{
    let first = item(alloc, first, scope, faults)?;
    let items = with_part(Some(Items::new(alloc)), first)?;
    more_items(alloc, more, items, scope, faults)
}
