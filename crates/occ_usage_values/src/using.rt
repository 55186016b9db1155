//! The uses of expressions, elements and instances where they are evaluated. Nothing under SIZE is used.
//! `docs/LANGUAGE.md, Uses`.
ghost use Rattle.std.specs.Prelude.{◌≡◌, ◌++◌, ◌∷◌, [], IfOk, None, OnOk, Some};
ghost use Rattle.occ_usage_parts.specs.Selecting.{whole as spec_whole, with_subscript};
ghost use Rattle.occ_usage_values.specs.Calls.{made as spec_made};
ghost use Rattle.occ_usage_values.specs.Values.{int_of};
ghost use Rattle.occ_usage_values.specs.Views.{actual_view, actual_views, call_uses as spec_call_uses, called_uses as spec_called_uses, element_view, expr_view, expr_views, placed, places_of, selector_view, selector_views, actuals_uses as spec_actuals_uses, each_uses as spec_each_uses, selectors_uses as spec_selectors_uses};

use super::bound::{Bound, body_at, is_placed, is_root};
use super::call::{called, push_made};
use super::placing::{place, select_all};
use super::uses::Use;
use super::valuing::{int, value};
use occ_base::{Items, Shared};
use occ_project::Location;
use occ_types::UseKind;
use occ_typing_rules::{Selector, TypedActual, TypedElement, TypedExpr};
use occ_usage_parts::{Chain, Part, SelectedPart, Selectors};
use std::alloc::{AllocError, Global};

/// A use of an element at a line, without those of its subscripts and bounds.
#[tactic(auto, using(crate::proofs::Views::element_place_rules))]
pub fn use_of(
    alloc: Global,
    kind: UseKind,
    element: &TypedElement,
    env: &[Bound],
    line: &Location,
    uses: &mut Items<Use>,
) -> Result<(), AllocError>
    ensures { OnOk result (uses.new ≡ uses.old ++ spec_made line.now kind ((element_view element.now).place env.now)) }
{
    let spec = element.referent.spec;
    if is_root(env, spec) {
        let selectors = element.selectors.as_slice();
        return use_of_root(alloc, kind, spec, selectors, env, line, uses);
    }
    if !is_placed(env, spec) {
        return Ok(());
    }
    use_of_place(alloc, kind, element, env, line, uses)
}

/// The same, whatever its name stands for.
#[inline(never)]
fn use_of_place(
    alloc: Global,
    kind: UseKind,
    element: &TypedElement,
    env: &[Bound],
    line: &Location,
    uses: &mut Items<Use>,
) -> Result<(), AllocError>
    ensures { OnOk result (uses.new ≡ uses.old ++ spec_made line.now kind ((element_view element.now).place env.now)) }
{
    let place = place(alloc, element, env)?;
    push_made(kind, line, place, uses)
}

/// A use of a part that no abbreviation leads to.
#[inline(always)]
fn push_part(
    kind: UseKind,
    part: Part,
    line: &Location,
    uses: &mut Items<Use>,
) -> Result<(), AllocError>
    ensures { OnOk result (uses.new ≡ uses.old ++ record { part = part; kind = kind; line = line.now; chain = [] } ∷ []) }
{
    uses.push(Use {
        part,
        kind,
        line: line.share()?,
        chain: Chain::none(),
    })
}

/// A use of the whole of a root.
#[inline(always)]
fn use_of_whole(
    alloc: Global,
    kind: UseKind,
    root: usize,
    line: &Location,
    uses: &mut Items<Use>,
) -> Result<(), AllocError>
    ensures { OnOk result (uses.new ≡ uses.old ++ spec_made line.now kind (Some (spec_whole root))) }
{
    let selectors = Selectors::listed(Items::new(alloc));
    push_part(kind, Part { root, selectors }, line, uses)
}

/// A use of the component of a root that a subscript selects.
#[inline(always)]
fn use_of_component(
    kind: UseKind,
    root: usize,
    at: &TypedExpr,
    env: &[Bound],
    line: &Location,
    uses: &mut Items<Use>,
) -> Result<(), AllocError>
    ensures { OnOk result (uses.new ≡ uses.old ++ spec_made line.now kind (Some (with_subscript (spec_whole root) (int_of ((expr_view at.now).value env.now))))) }
{
    let part = Part::component(root, int(value(at, env)));
    push_part(kind, part, line, uses)
}

/// A use of what these select from a root. Most select nothing or a component: then no place is made.
#[tactic(auto, using(crate::proofs::Views::selector_place_rules))]
#[inline(always)]
fn use_of_root(
    alloc: Global,
    kind: UseKind,
    root: usize,
    selectors: &[Selector],
    env: &[Bound],
    line: &Location,
    uses: &mut Items<Use>,
) -> Result<(), AllocError>
    ensures { OnOk result (uses.new ≡ uses.old ++ spec_made line.now kind (Some (placed (selector_views selectors.now) env.now None (spec_whole root)))) }
{
    match selectors {
        [] => use_of_whole(alloc, kind, root, line, uses),
        [Selector::Component(at)] => use_of_component(kind, root, at.get(), env, line, uses),
        _ => use_of_selected(alloc, kind, root, selectors, env, line, uses),
    }
}

/// The same, of any selectors.
#[inline(never)]
fn use_of_selected(
    alloc: Global,
    kind: UseKind,
    root: usize,
    selectors: &[Selector],
    env: &[Bound],
    line: &Location,
    uses: &mut Items<Use>,
) -> Result<(), AllocError>
    ensures { OnOk result (uses.new ≡ uses.old ++ spec_made line.now kind (Some (placed (selector_views selectors.now) env.now None (spec_whole root)))) }
{
    let mut place = SelectedPart::with_room(alloc, root, selectors.len())?;
    select_all(alloc, &mut place, selectors, None, env)?;
    push_made(kind, line, Some(place), uses)
}

/// What the actual is for a formal that is not VAL.
#[tactic(auto, using(crate::proofs::Views::actual_place_rules))]
fn actual_place(
    alloc: Global,
    actual: &TypedActual,
    env: &[Bound],
) -> Result<Option<SelectedPart>, AllocError>
    ensures { IfOk result (λ found. found ≡ (actual_view actual.now).place env.now) }
{
    match actual {
        TypedActual::Value(_) => Ok(None),
        TypedActual::Variable(element) => place(alloc, element.get(), env),
    }
}

/// What each actual is for a formal that is not VAL.
pub(crate) fn places(
    alloc: Global,
    actuals: &[TypedActual],
    env: &[Bound],
) -> Result<Items<Option<SelectedPart>>, AllocError>
    ensures { IfOk result (λ found. found ≡ places_of (actual_views actuals.now) env.now) }
{
    let mut found = Items::new(alloc);
    for actual in actuals {
        found.push(actual_place(alloc, actual, env)?)?;
    }
    Ok(found)
}

/// What a call of the specification with this number does by the uses of its body.
pub(crate) fn called_uses(
    alloc: Global,
    callee: usize,
    actuals: &[TypedActual],
    env: &[Bound],
    line: &Location,
    uses: &mut Items<Use>,
) -> Result<(), AllocError>
    ensures { OnOk result (uses.new ≡ uses.old ++ spec_called_uses callee (actual_views actuals.now) env.now line.now) }
{
    match body_at(env, callee) {
        [] => Ok(()),
        body => {
            let places = places(alloc, actuals, env)?;
            called(alloc, line, callee, places.as_slice(), body, uses)
        }
    }
}

/// The uses of an expression that is evaluated at a line.
#[tactic(auto, using(crate::proofs::Views::expr_uses_rules))]
#[cycle(using)]
pub fn expression_uses(
    alloc: Global,
    expr: &TypedExpr,
    env: &[Bound],
    line: &Location,
    uses: &mut Items<Use>,
) -> Result<(), AllocError>
    ensures { OnOk result (uses.new ≡ uses.old ++ (expr_view expr.now).uses env.now line.now) }
{
    match expr {
        TypedExpr::Literal(_) => Ok(()),
        TypedExpr::Element(element) => {
            element_uses(alloc, element, env, line, uses)?;
            use_of(alloc, UseKind::Read, element, env, line, uses)
        }
        TypedExpr::Operation(_, _, operands) => {
            each_uses(alloc, operands.as_slice(), env, line, uses)
        }
        TypedExpr::Applied(_, _, operand) => expression_uses(alloc, operand.get(), env, line, uses),
        TypedExpr::Size(_, _) => Ok(()),
        TypedExpr::Converted(_, operand) => expression_uses(alloc, operand.get(), env, line, uses),
        TypedExpr::Table(_, items) => each_uses(alloc, items.as_slice(), env, line, uses),
        TypedExpr::Call(_, callee, actuals) => instance_uses(
            alloc,
            callee.spec,
            actuals.as_slice(),
            env,
            line,
            uses,
        ),
    }
}

/// The uses of expressions.
#[cycle(using)]
fn each_uses(
    alloc: Global,
    exprs: &[Shared<TypedExpr>],
    env: &[Bound],
    line: &Location,
    uses: &mut Items<Use>,
) -> Result<(), AllocError>
    ensures { OnOk result (uses.new ≡ uses.old ++ spec_each_uses (expr_views exprs.now) env.now line.now) }
{
    for expr in exprs {
        match expr.get() {
            TypedExpr::Literal(_) => {}
            one => expression_uses(alloc, one, env, line, uses)?,
        }
    }
    Ok(())
}

/// The uses of the subscripts and bounds of an element.
#[tactic(auto, using(crate::proofs::Views::element_uses_rules))]
#[cycle(using)]
pub fn element_uses(
    alloc: Global,
    element: &TypedElement,
    env: &[Bound],
    line: &Location,
    uses: &mut Items<Use>,
) -> Result<(), AllocError>
    ensures { OnOk result (uses.new ≡ uses.old ++ (element_view element.now).uses env.now line.now) }
{
    selectors_uses(alloc, element.selectors.as_slice(), env, line, uses)
}

/// The uses of the subscripts and bounds of selectors.
#[cycle(using)]
fn selectors_uses(
    alloc: Global,
    selectors: &[Selector],
    env: &[Bound],
    line: &Location,
    uses: &mut Items<Use>,
) -> Result<(), AllocError>
    ensures { OnOk result (uses.new ≡ uses.old ++ spec_selectors_uses (selector_views selectors.now) env.now line.now) }
{
    for selector in selectors {
        selector_uses(alloc, selector, env, line, uses)?;
    }
    Ok(())
}

/// The uses of the subscript or the bounds of a selector.
#[tactic(auto, using(crate::proofs::Views::selector_uses_rules))]
#[cycle(using)]
fn selector_uses(
    alloc: Global,
    selector: &Selector,
    env: &[Bound],
    line: &Location,
    uses: &mut Items<Use>,
) -> Result<(), AllocError>
    ensures { OnOk result (uses.new ≡ uses.old ++ (selector_view selector.now).uses env.now line.now) }
{
    match selector {
        Selector::Field(_, _) => Ok(()),
        Selector::Component(at) => expression_uses(alloc, at.get(), env, line, uses),
        Selector::From(_, base) => expression_uses(alloc, base.get(), env, line, uses),
        Selector::For(_, length) => expression_uses(alloc, length.get(), env, line, uses),
        Selector::FromFor(_, base, length) => {
            expression_uses(alloc, base.get(), env, line, uses)?;
            expression_uses(alloc, length.get(), env, line, uses)
        }
    }
}

/// The uses of an actual: of its value, or of its subscripts and bounds.
#[tactic(auto, using(crate::proofs::Views::actual_uses_rules))]
#[cycle(using)]
fn actual_uses(
    alloc: Global,
    actual: &TypedActual,
    env: &[Bound],
    line: &Location,
    uses: &mut Items<Use>,
) -> Result<(), AllocError>
    ensures { OnOk result (uses.new ≡ uses.old ++ (actual_view actual.now).uses env.now line.now) }
{
    match actual {
        TypedActual::Value(expr) => expression_uses(alloc, expr.get(), env, line, uses),
        TypedActual::Variable(element) => element_uses(alloc, element.get(), env, line, uses),
    }
}

/// The uses of actuals.
#[cycle(using)]
pub(crate) fn actuals_uses(
    alloc: Global,
    actuals: &[TypedActual],
    env: &[Bound],
    line: &Location,
    uses: &mut Items<Use>,
) -> Result<(), AllocError>
    ensures { OnOk result (uses.new ≡ uses.old ++ spec_actuals_uses (actual_views actuals.now) env.now line.now) }
{
    for actual in actuals {
        actual_uses(alloc, actual, env, line, uses)?;
    }
    Ok(())
}

/// The uses of a call of the specification with this number.
#[cycle(using)]
pub fn instance_uses(
    alloc: Global,
    callee: usize,
    actuals: &[TypedActual],
    env: &[Bound],
    line: &Location,
    uses: &mut Items<Use>,
) -> Result<(), AllocError>
    ensures { OnOk result (uses.new ≡ uses.old ++ spec_call_uses callee (actual_views actuals.now) env.now line.now) }
{
    actuals_uses(alloc, actuals, env, line, uses)?;
    called_uses(alloc, callee, actuals, env, line, uses)
}
