//! What is wanted of each item of an output, by the protocol, its tag and the number and shapes of the items.
#![tactic(auto, using(crate::proofs::Meeting::wanting_rules))]

ghost use Rattle.std.specs.Prelude.{◌≡◌, IfOk, map};
ghost use Rattle.occ_protocol.specs.Wanting.{counted_wanted, each_wanted as spec_each_wanted, hidden as spec_hidden, nothing as spec_nothing, wanted_against as spec_wanted_against, wanted_for as spec_wanted_for, wants as spec_wants};
ghost use Rattle.occ_protocol.specs.inside.Seen.{asked_seen};

use super::asked::Asked;
use super::given::{Shape, Want, Wanted};
use occ_base::{Items, Shared};
use occ_types::{Item, OccType, Primitive};
use std::alloc::{AllocError, Global};

/// A fault hides what is wanted of an item.
fn hidden(shape: Shape) -> Wanted
    ensures { result ≡ spec_hidden shape }
{
    match shape {
        Shape::Plain => Wanted::Plain(Want::Hidden),
        Shape::Counted => Wanted::Counted(Want::Hidden, Want::Hidden),
    }
}

/// Nothing is wanted of an item.
fn nothing(shape: Shape) -> Wanted
    ensures { result ≡ spec_nothing shape }
{
    match shape {
        Shape::Plain => Wanted::Plain(Want::Nothing),
        Shape::Counted => Wanted::Counted(Want::Nothing, Want::Nothing),
    }
}

fn all_hidden(alloc: Global, shapes: &[Shape]) -> Result<Items<Wanted>, AllocError>
    ensures { IfOk result (λ wanted. wanted ≡ map spec_hidden shapes.now) }
{
    let mut wanted = Items::new(alloc);
    for shape in shapes {
        wanted.push(hidden(*shape))?;
    }
    Ok(wanted)
}

fn all_nothing(alloc: Global, shapes: &[Shape]) -> Result<Items<Wanted>, AllocError>
    ensures { IfOk result (λ wanted. wanted ≡ map spec_nothing shapes.now) }
{
    let mut wanted = Items::new(alloc);
    for shape in shapes {
        wanted.push(nothing(*shape))?;
    }
    Ok(wanted)
}

/// What is wanted of the count and the array of an item.
fn counted(alloc: Global, count: Primitive, of: &Shared<OccType>) -> Result<Wanted, AllocError>
    ensures { IfOk result (λ wanted. wanted ≡ counted_wanted count of.now) }
{
    let count = Shared::new(alloc, OccType::Primitive(count))?;
    let array = Shared::new(alloc, OccType::Array(None, of.share()?))?;
    Ok(Wanted::Counted(Want::Of(count), Want::Of(array)))
}

/// What is wanted of an item for one of the protocol.
fn wanted_for(alloc: Global, item: &Item, shape: Shape) -> Result<Wanted, AllocError>
    ensures { IfOk result (λ wanted. wanted ≡ spec_wanted_for item.now shape) }
{
    match (item, shape) {
        (Item::Value(of), Shape::Plain) => Ok(Wanted::Plain(Want::Of(of.share()?))),
        (Item::Value(_), Shape::Counted) => Ok(nothing(shape)),
        (Item::Counted(_, _), Shape::Plain) => Ok(nothing(shape)),
        (Item::Counted(count, of), Shape::Counted) => counted(alloc, *count, of),
    }
}

/// As many items as the protocol has.
fn each_wanted(alloc: Global, items: &[Item], shapes: &[Shape]) -> Result<Items<Wanted>, AllocError>
    ensures { IfOk result (λ wanted. wanted ≡ spec_each_wanted items.now shapes.now) }
{
    let mut wanted = Items::new(alloc);
    let mut shapes = shapes;
    for item in items {
        let Some((shape, rest)) = shapes.split_first() else {
            return Ok(wanted);
        };
        wanted.push(wanted_for(alloc, item, *shape)?)?;
        shapes = rest;
    }
    Ok(wanted)
}

fn wanted_against(
    alloc: Global,
    items: &[Item],
    shapes: &[Shape],
) -> Result<Items<Wanted>, AllocError>
    ensures { IfOk result (λ wanted. wanted ≡ spec_wanted_against items.now shapes.now) }
{
    if items.len() == shapes.len() {
        return each_wanted(alloc, items, shapes);
    }
    all_nothing(alloc, shapes)
}

/// What is wanted of items of these shapes that are compared with this.
pub(super) fn wanted_by(
    alloc: Global,
    asked: Asked<'_>,
    shapes: &[Shape],
) -> Result<Items<Wanted>, AllocError>
    ensures { IfOk result (λ wanted. wanted ≡ spec_wants (asked_seen asked.entry) shapes.now) }
{
    match asked {
        Asked::Silent | Asked::Instead(_) | Asked::NoTag(_) => all_hidden(alloc, shapes),
        Asked::AnyData => all_nothing(alloc, shapes),
        Asked::These(items) => wanted_against(alloc, items, shapes),
    }
}
