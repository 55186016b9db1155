//! The part that an element selects, as far as indices are known in scope.
ghost use Rattle.std.specs.Prelude.{◌≡◌, IfOk, OnOk};
ghost use Rattle.occ_usage_values.specs.Views.{element_view, placed, selector_view, selector_views};

use super::bound::{Bound, place_with_room, size_at};
use super::valuing::{count, int, less, size_within, value, whole};
use occ_typing_rules::{Selector, TypedElement};
use occ_usage_parts::SelectedPart;
use std::alloc::{AllocError, Global};

/// Selects from a place of so many components, if their number is known.
#[tactic(auto, using(crate::proofs::Views::selector_place_rules))]
fn select(
    alloc: Global,
    place: &mut SelectedPart,
    selector: &Selector,
    size: Option<i64>,
    env: &[Bound],
) -> Result<(), AllocError>
    ensures { OnOk result (place.new ≡ (selector_view selector.now).place env.now size place.old) }
{
    match selector {
        Selector::Field(_, name) => place.select_field(name.copied(alloc)?),
        Selector::Component(at) => place.select_subscript(int(value(at.get(), env))),
        Selector::From(typed, base) => {
            let base = int(value(base.get(), env));
            place.select_segment(base, less(whole(*typed, size), base));
            Ok(())
        }
        Selector::For(_, length) => {
            place.select_segment(Some(0), count(value(length.get(), env)));
            Ok(())
        }
        Selector::FromFor(_, base, length) => {
            let base = int(value(base.get(), env));
            place.select_segment(base, count(value(length.get(), env)));
            Ok(())
        }
    }
}

/// What an element selects, where these specifications are in scope: nothing that is used, where its name is VAL, an index
/// or a timer.
#[tactic(auto, using(crate::proofs::Views::element_place_rules))]
pub fn place(
    alloc: Global,
    element: &TypedElement,
    env: &[Bound],
) -> Result<Option<SelectedPart>, AllocError>
    ensures { IfOk result (λ found. found ≡ (element_view element.now).place env.now) }
{
    let spec = element.referent.spec;
    let room = element.selectors.len();
    let Some(mut place) = place_with_room(alloc, env, spec, room)? else {
        return Ok(None);
    };
    let size = size_at(env, spec);
    select_all(alloc, &mut place, element.selectors.as_slice(), size, env)?;
    Ok(Some(place))
}

/// Selects by selectors from a place of so many components, if their number is known.
pub(crate) fn select_all(
    alloc: Global,
    place: &mut SelectedPart,
    selectors: &[Selector],
    size: Option<i64>,
    env: &[Bound],
) -> Result<(), AllocError>
    ensures { OnOk result (place.new ≡ placed (selector_views selectors.now) env.now size place.old) }
{
    let mut number = size;
    for selector in selectors {
        select(alloc, place, selector, number, env)?;
        number = size_within(selector, number, env);
    }
    Ok(())
}
