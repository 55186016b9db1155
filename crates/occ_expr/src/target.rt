//! Targets: the name of which an element is a part, and what is read of an element that is written to.
ghost use Rattle.std.specs.Prelude.{◌≡◌, ◌++◌, [], IfOk, OnOk};
ghost use Rattle.occ_scope.specs.Visible.{visible};
ghost use Rattle.occ_expr.specs.Targets.{reached as spec_reached, root as spec_root, target_of as spec_target_of};
ghost use Rattle.occ_expr_operations.specs.Views.{element_view, expr_views, named_tree as spec_named_tree};
ghost use Rattle.occ_forms_expressions.specs.declared.tree.Element.TheVariants as form;

use super::walk::{element, named_element};
use occ_base::{Fault, Items, Name};
use occ_expr_operations::ElementReading;
use occ_forms_expressions::{Element, Expr};
use occ_scope::{Meaning, Scope};
use occ_typing_operands::{Kind, Known, known_as};
use occ_typing_rules::{TypedElement, target};
use std::alloc::{AllocError, Global};

/// The name of which an element is a part.
#[tactic(auto, using(crate::proofs::Roots::root_rules))]
pub fn root(element: &Element) -> &Name
    ensures { result.now ≡ spec_root element.now }
{
    match element {
        Element::Named(name, _) => name,
        Element::Segment(whole, _, _) => root(whole.get()),
    }
}

/// A target, by what its name stands for.
fn reached(
    alloc: Global,
    scope: &Scope,
    name: &Name,
    kind: Kind,
    faults: &mut Items<Fault>,
) -> Result<Kind, AllocError>
    ensures kind { IfOk result (λ target. target ≡ (spec_reached (visible scope.now name.now) kind).kind) }
    ensures faults { OnOk result (faults.new ≡ faults.old ++ (spec_reached (visible scope.now name.now) kind).faults) }
{
    match scope.find(name) {
        Some(Meaning::Element(whole)) => target(alloc, kind, whole, faults),
        Some(Meaning::Faulty) => Ok(Kind::Faulty),
        Some(Meaning::Type(_)) => Ok(Kind::Faulty),
        Some(Meaning::Protocol(_)) => Ok(Kind::Faulty),
        Some(Meaning::Procedure(_)) => Ok(Kind::Faulty),
        Some(Meaning::Function(_, _)) => Ok(Kind::Faulty),
        None => Ok(Kind::Faulty),
    }
}

/// What is read of a name with subscripts as a target, whatever it stands for.
#[tactic(auto, using(crate::proofs::Roots::root_rules, occ_expr_operations::proofs::Views::element_rules), unfolding(crate::specs::Targets::target_of))]
fn named_target(
    alloc: Global,
    name: &Name,
    exprs: &[Expr],
    scope: &Scope,
    faults: &mut Items<Fault>,
) -> Result<ElementReading, AllocError>
    ensures kind { IfOk result (λ target. target.kind ≡ (spec_target_of scope.now (form.Named name.now exprs.now)).kind) }
    ensures tree { IfOk result (λ target. target.tree ≡ spec_named_tree scope.now name.now (expr_views exprs.now)) }
    ensures faults { OnOk result (faults.new ≡ faults.old ++ (spec_target_of scope.now (form.Named name.now exprs.now)).faults) }
{
    let read = named_element(alloc, name, exprs, scope, faults)?;
    let kind = reached(alloc, scope, name, read.kind, faults)?;
    Ok(ElementReading {
        kind,
        tree: read.tree,
    })
}

/// What is read of a name without subscripts as a target. Of one that stands for an element nothing is looked up again.
#[tactic(auto, using(crate::proofs::Roots::root_rules, occ_expr_operations::proofs::Views::element_rules, occ_expr_operations::proofs::Referring::seen), unfolding(crate::specs::Targets::target_of, occ_expr_operations::specs::Parts::named_element, occ_expr_operations::specs::Views::named_tree, occ_expr_operations::specs::Elements::element_of))]
fn name_target(
    alloc: Global,
    name: &Name,
    scope: &Scope,
    faults: &mut Items<Fault>,
) -> Result<ElementReading, AllocError>
    ensures kind { IfOk result (λ target. target.kind ≡ (spec_target_of scope.now (form.Named name.now [])).kind) }
    ensures tree { IfOk result (λ target. target.tree ≡ spec_named_tree scope.now name.now []) }
    ensures faults { OnOk result (faults.new ≡ faults.old ++ (spec_target_of scope.now (form.Named name.now [])).faults) }
{
    let Some(referent) = scope.referent(name)? else {
        return named_target(alloc, name, &[], scope, faults);
    };
    let Meaning::Element(whole) = referent.meaning.get() else {
        return named_target(alloc, name, &[], scope, faults);
    };
    let kind = target(alloc, known_as(&whole.of, whole.value)?, whole, faults)?;
    let known = Known {
        of: whole.of.share()?,
        value: whole.value,
    };
    Ok(ElementReading {
        kind,
        tree: Some(TypedElement {
            known,
            name: name.copied(alloc)?,
            referent,
            selectors: Items::new(alloc),
        }),
    })
}

/// What is read of a segment as a target.
#[tactic(auto, unfolding(crate::specs::Targets::target_of))]
fn segment_target(
    alloc: Global,
    written: &Element,
    scope: &Scope,
    faults: &mut Items<Fault>,
) -> Result<ElementReading, AllocError>
    ensures kind { IfOk result (λ target. target.kind ≡ (spec_target_of scope.now written.now).kind) }
    ensures tree { IfOk result (λ target. target.tree ≡ (element_view written.now).tree scope.now) }
    ensures faults { OnOk result (faults.new ≡ faults.old ++ (spec_target_of scope.now written.now).faults) }
{
    let read = element(alloc, written, scope, faults)?;
    let kind = reached(alloc, scope, root(written), read.kind, faults)?;
    Ok(ElementReading {
        kind,
        tree: read.tree,
    })
}

/// What is read of an element as a target: what is known of it, and its tree as an element.
#[tactic(auto, using(occ_expr_operations::proofs::Views::element_rules))]
pub fn target_of(
    alloc: Global,
    written: &Element,
    scope: &Scope,
    faults: &mut Items<Fault>,
) -> Result<ElementReading, AllocError>
    ensures kind { IfOk result (λ target. target.kind ≡ (spec_target_of scope.now written.now).kind) }
    ensures tree { IfOk result (λ target. target.tree ≡ (element_view written.now).tree scope.now) }
    ensures faults { OnOk result (faults.new ≡ faults.old ++ (spec_target_of scope.now written.now).faults) }
{
    match written {
        Element::Named(name, exprs) => {
            if exprs.is_empty() {
                return name_target(alloc, name, scope, faults);
            }
            named_target(alloc, name, exprs.as_slice(), scope, faults)
        }
        Element::Segment(_, _, _) => segment_target(alloc, written, scope, faults),
    }
}
