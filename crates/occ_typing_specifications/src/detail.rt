//! The items after a tag, each a type of data.
ghost use Rattle.std.specs.Prelude.{◌≡◌, ◌++◌, IfOk, OnOk};
ghost use Rattle.occ_expr_operations.specs.Views.{builtin_view, dimension_views, each, element_view};
ghost use Rattle.occ_expr_operations.specs.Written.{array_over};
ghost use Rattle.occ_expr_operations.specs.declared.written.Opening.TheVariants as opened;
ghost use Rattle.occ_base.specs.Lists.{joined};
ghost use Rattle.occ_typing_specifications.specs.Tags.{data_only as spec_data_only, detail_item as spec_detail_item, detail_items as spec_detail_items, named as spec_named};

use super::defining::data_of;
use super::item::{counted_item, value_if};
use occ_base::{Fault, Items, Shared, with_part};
use occ_expr::{array_form, named_type, word_form};
use occ_expr_operations::{Opening, element_name};
use occ_forms::Detail;
use occ_forms_expressions::{Builtin, Dimension, Element};
use occ_scope::Scope;
use occ_types::{Item, OccType};
use std::alloc::{AllocError, Global};

/// The type that a name alone stands for.
fn named(
    alloc: Global,
    element: &Element,
    scope: &Scope,
    faults: &mut Items<Fault>,
) -> Result<Option<Shared<OccType>>, AllocError>
    ensures found { IfOk result (λ found. found ≡ (spec_named scope.now (element_view element.now).name).found) }
    ensures faults { OnOk result (faults.new ≡ faults.old ++ (spec_named scope.now (element_view element.now).name).faults) }
{
    match element_name(element) {
        Some(name) => named_type(alloc, name, scope, faults),
        None => Ok(None),
    }
}

/// A type that begins with a reserved word, if it is one of data.
fn word(
    alloc: Global,
    dims: &[Dimension],
    word: &Builtin,
    scope: &Scope,
    faults: &mut Items<Fault>,
) -> Result<Option<Shared<OccType>>, AllocError>
    ensures found { IfOk result (λ found. found ≡ (spec_data_only (array_over (each opened.Refused scope.now (dimension_views dims.now)) (builtin_view word.now scope.now))).found) }
    ensures faults { OnOk result (faults.new ≡ faults.old ++ (spec_data_only (array_over (each opened.Refused scope.now (dimension_views dims.now)) (builtin_view word.now scope.now))).faults) }
{
    let of = word_form(alloc, dims, word, Opening::Refused, scope, faults)?;
    data_of(of, faults)
}

/// What stands after a tag as an item, if nothing is wrong with its type.
fn detail_item(
    alloc: Global,
    detail: &Detail,
    scope: &Scope,
    faults: &mut Items<Fault>,
) -> Result<Option<Item>, AllocError>
    ensures found { IfOk result (λ found. found ≡ (spec_detail_item scope.now detail.now).found) }
    ensures faults { OnOk result (faults.new ≡ faults.old ++ (spec_detail_item scope.now detail.now).faults) }
{
    match detail {
        Detail::Element(element) => Ok(value_if(named(alloc, element, scope, faults)?)),
        Detail::Counted(_, _) => Ok(None),
        Detail::Array(first, more, name) => {
            let of = array_form(
                alloc,
                first,
                more.as_slice(),
                name,
                Opening::Refused,
                scope,
                faults,
            )?;
            Ok(value_if(of))
        }
        Detail::Builtin(dims, following) => {
            let of = word(alloc, dims.as_slice(), following.get(), scope, faults)?;
            Ok(value_if(of))
        }
        Detail::CountedType(count, of) => counted_item(alloc, count, of, scope, faults),
    }
}

/// Items after others, if nothing is wrong with any.
#[tactic(auto, using(occ_base::proofs::Fronts::front_rules))]
pub fn detail_items(
    alloc: Global,
    details: &[Detail],
    mut items: Option<Items<Item>>,
    scope: &Scope,
    faults: &mut Items<Fault>,
) -> Result<Option<Items<Item>>, AllocError>
    ensures items { IfOk result (λ all. all ≡ joined items (spec_detail_items scope.now details.now).items) }
    ensures faults { OnOk result (faults.new ≡ faults.old ++ (spec_detail_items scope.now details.now).faults) }
{
    for detail in details {
        let next = detail_item(alloc, detail, scope, faults)?;
        items = with_part(items, next)?;
    }
    Ok(items)
}
