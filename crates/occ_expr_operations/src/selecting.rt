//! What selects a part of an element: fields, subscripts and bounds of segments, as typed trees.
#![tactic(auto, using(crate::proofs::Fields::front_rules))]

ghost use Rattle.std.specs.Prelude.{◌≡◌, IfOk, None, Some};
ghost use Rattle.occ_expr_operations.specs.Elements.{component_at as spec_component_at, element_open as spec_element_open, element_of as spec_element_of, field_at, field_place as spec_field_place, one_selector, with_selectors};
ghost use Rattle.occ_expr_operations.specs.Views.{components_of as spec_components_of, for_of as spec_for_of, from_for_of as spec_from_for_of, from_of as spec_from_of, part_of as spec_part_of};
ghost use Rattle.occ_typing_operands.specs.Settling.{int as spec_int};
ghost use Rattle.occ_typing_operands.specs.declared.kind.Kind.TheVariants as k;
ghost use Rattle.occ_typing_tables.specs.declared.term.Term.TheVariants as v;
ghost use Rattle.occ_typing_rules.specs.Placing.{placed as spec_placed};

use super::reading::Reading;
use occ_base::{Items, Name, Shared};
use occ_scope::Referent;
use occ_types::{Field, OccType, Primitive, SoughtPart, array_of, unnamed};
use occ_typing_operands::{Kind, Known, int};
use occ_typing_rules::{OpenExpr, Selector, TypedElement, TypedExpr, placed};
use occ_typing_tables::{BoundTerms, Term};
use std::alloc::{AllocError, Global};

/// What is read of an element: what is known of it, and its tree, if it has no fault.
#[derive(Drop)]
pub struct ElementReading {
    pub kind: Kind,
    pub tree: Option<TypedElement>,
}

/// What is read of the bounds of a segment: what is known of each, and what they select, if they have no fault.
#[derive(Drop)]
pub struct BoundsReading {
    pub bounds: BoundTerms,
    pub selector: Option<Selector>,
}

/// INT, the type of a place in a value of this type: that of its components, if they are INT, so that it takes no memory.
fn place_type(alloc: Global, of: &OccType) -> Result<Shared<OccType>, AllocError>
    ensures { IfOk result (λ place. place ≡ spec_int) }
{
    match array_of(unnamed(of)) {
        Some((_, component)) if matches!(component.get(), OccType::Primitive(Primitive::Int)) => {
            component.share()
        }
        _ => int(alloc),
    }
}

/// The tree of a place in a value of this type, which is an INT.
fn place_in(
    alloc: Global,
    place: &OpenExpr,
    of: &OccType,
) -> Result<Option<Shared<TypedExpr>>, AllocError>
    ensures { IfOk result (λ tree. tree ≡ spec_placed place.now spec_int) }
{
    match place {
        OpenExpr::Typed(tree) => Ok(Some(tree.share()?)),
        _ => placed(alloc, place, &place_type(alloc, of)?),
    }
}

/// The component at a place in a value of this type.
#[inline(always)]
pub fn component_at(
    alloc: Global,
    place: &OpenExpr,
    of: &OccType,
) -> Result<Option<Selector>, AllocError>
    ensures { IfOk result (λ selector. selector ≡ spec_component_at (spec_placed place.now spec_int)) }
{
    let Some(tree) = place_in(alloc, place, of)? else {
        return Ok(None);
    };
    Ok(Some(Selector::Component(tree)))
}

/// The place of the first field of a name.
fn field_place(name: &Name, fields: &[Field]) -> Option<usize>
    ensures { result ≡ spec_field_place name.now fields.now }
{
    let sought = SoughtPart::new(name);
    let mut place = 0;
    for field in fields {
        if field.name.is(&sought) {
            return Some(place);
        }
        place += 1;
    }
    None
}

/// The field of a name.
pub fn field_selector(
    alloc: Global,
    name: &Name,
    fields: &[Field],
) -> Result<Option<Selector>, AllocError>
    ensures { IfOk result (λ selector. selector ≡ field_at name.now (spec_field_place name.now fields.now)) }
{
    let Some(place) = field_place(name, fields) else {
        return Ok(None);
    };
    Ok(Some(Selector::Field(place, name.copied(alloc)?)))
}

/// One selector more, if all are there.
#[inline(always)]
pub fn with_selector(
    selectors: Option<Items<Selector>>,
    next: Option<Selector>,
) -> Result<Option<Items<Selector>>, AllocError>
    ensures { IfOk result (λ all. all ≡ with_selectors selectors (one_selector next)) }
{
    let Some((mut selectors, next)) = selectors.zip(next) else {
        return Ok(None);
    };
    selectors.push(next)?;
    Ok(Some(selectors))
}

/// Selectors and those after them, if all are there.
fn with_more(
    selectors: Option<Items<Selector>>,
    more: Option<Items<Selector>>,
) -> Result<Option<Items<Selector>>, AllocError>
    ensures { IfOk result (λ all. all ≡ with_selectors selectors more) }
{
    let Some((mut selectors, more)) = selectors.zip(more) else {
        return Ok(None);
    };
    selectors.append(more)?;
    Ok(Some(selectors))
}

/// The number of components of what is known, if it is an array and its number is known.
pub fn components_of(kind: &Kind) -> Option<u32>
    ensures { result ≡ spec_components_of kind.now }
{
    match kind {
        Kind::Known(known) => match array_of(unnamed(known.of.get())) {
            Some((count, _)) => count,
            None => None,
        },
        Kind::Faulty => None,
        Kind::Untyped(_) => None,
    }
}

/// `FROM e` of so many components.
pub fn from_of(count: Option<u32>, base: Option<Shared<TypedExpr>>) -> Option<Selector>
    ensures { result ≡ spec_from_of count base }
{
    match base {
        Some(base) => Some(Selector::From(count, base)),
        None => None,
    }
}

/// `FOR e` of so many components.
pub fn for_of(components: Option<u32>, count: Option<Shared<TypedExpr>>) -> Option<Selector>
    ensures { result ≡ spec_for_of components count }
{
    match count {
        Some(count) => Some(Selector::For(components, count)),
        None => None,
    }
}

/// `FROM e FOR e` of so many components.
pub fn from_for_of(
    components: Option<u32>,
    base: Option<Shared<TypedExpr>>,
    count: Option<Shared<TypedExpr>>,
) -> Option<Selector>
    ensures { result ≡ spec_from_for_of components base count }
{
    let (base, count) = base.zip(count)?;
    Some(Selector::FromFor(components, base, count))
}

/// An element of which this is known, with its specification and its selectors, if none of these is missing.
#[tactic(auto, unfolding(crate::specs::Elements::element_of))]
#[inline(always)]
pub fn element_of(
    kind: &Kind,
    name: Name,
    referent: Option<Referent>,
    selectors: Option<Items<Selector>>,
) -> Result<Option<TypedElement>, AllocError>
    ensures { IfOk result (λ tree. tree ≡ spec_element_of kind.now name referent selectors) }
{
    let (Kind::Known(known), Some((referent, selectors))) = (kind, referent.zip(selectors)) else {
        return Ok(None);
    };
    Ok(Some(TypedElement {
        known: known.share()?,
        name,
        referent,
        selectors,
    }))
}

/// The selectors of an element, that of a segment of it and those after that, if all are there.
fn part_selectors(
    whole: Items<Selector>,
    part: Option<Selector>,
    following: Option<Items<Selector>>,
) -> Result<Option<Items<Selector>>, AllocError>
    ensures { IfOk result (λ all. all ≡ with_selectors (with_selectors (Some whole) (one_selector part)) following) }
{
    let selectors = with_selector(Some(whole), part)?;
    with_more(selectors, following)
}

/// The part of an element that a segment and subscripts after it select.
#[tactic(auto, unfolding(crate::specs::Views::part_of))]
pub fn part_of(
    kind: &Kind,
    whole: Option<TypedElement>,
    part: Option<Selector>,
    following: Option<Items<Selector>>,
) -> Result<Option<TypedElement>, AllocError>
    ensures { IfOk result (λ tree. tree ≡ spec_part_of kind.now whole part following) }
{
    let Some(
        TypedElement {
            known: _,
            name,
            referent,
            selectors,
        },
    ) = whole
    else {
        return Ok(None);
    };
    let selectors = part_selectors(selectors, part, following)?;
    element_of(kind, name, Some(referent), selectors)
}

/// The open expression of an element.
fn element_open(alloc: Global, tree: Option<TypedElement>) -> Result<OpenExpr, AllocError>
    ensures { IfOk result (λ open_expr. open_expr ≡ spec_element_open tree) }
{
    let Some(tree) = tree else {
        return Ok(OpenExpr::Faulty);
    };
    Ok(OpenExpr::Typed(Shared::new(alloc, TypedExpr::Element(tree))?))
}

/// An element as an expression.
pub fn element_reading(alloc: Global, element: ElementReading) -> Result<Reading, AllocError>
    ensures term { IfOk result (λ whole. whole.term ≡ v.Single element.kind) }
    ensures open_expr { IfOk result (λ whole. whole.open_expr ≡ spec_element_open element.tree) }
{
    let ElementReading { kind, tree } = element;
    let open_expr = element_open(alloc, tree)?;
    Ok(Reading {
        term: Term::Single(kind),
        open_expr,
    })
}
