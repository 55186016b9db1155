//! Targets of an assignment, and the root of an element.
ghost use Rattle.std.specs.Prelude.{◌≡◌, ◌∷◌, ◌++◌, IfOk, OnOk};
ghost use Rattle.occ_typing_operands.specs.Operators.{all_faults, kinds as spec_kinds};
ghost use Rattle.occ_expr.specs.Targets.{target_of as spec_target_of};
ghost use Rattle.occ_typing_statements.specs.StatementTrees.{one_element, target_trees as spec_target_trees, with_elements};
ghost use Rattle.occ_typing_statements.specs.Targets.{targets as spec_targets};

use occ_base::{Fault, Items, one_item};
use occ_expr::target_of;
use occ_forms_expressions::Element;
use occ_scope::Scope;
use occ_typing_operands::Kind;
use occ_typing_rules::TypedElement;
use std::alloc::{AllocError, Global};

/// Targets: what is known of each, and their trees, if none has a fault.
#[derive(Drop)]
pub struct Targets {
    pub kinds: Items<Kind>,
    pub trees: Option<Items<TypedElement>>,
}

/// One target more, if all are there.
fn with_target(
    targets: Option<Items<TypedElement>>,
    next: Option<TypedElement>,
) -> Result<Option<Items<TypedElement>>, AllocError>
    ensures { IfOk result (λ all. all ≡ with_elements targets (one_element next)) }
{
    let (Some(mut targets), Some(next)) = (targets, next) else {
        return Ok(None);
    };
    targets.push(next)?;
    Ok(Some(targets))
}

/// Targets after those that were read.
#[tactic(auto, using(crate::proofs::Elements::front_rules))]
fn more_targets(
    alloc: Global,
    elements: &[Element],
    mut targets: Targets,
    scope: &Scope,
    faults: &mut Items<Fault>,
) -> Result<Targets, AllocError>
    ensures kinds { IfOk result (λ all. all.kinds ≡ targets.kinds ++ spec_kinds (spec_targets scope.now elements.now)) }
    ensures trees { IfOk result (λ all. all.trees ≡ with_elements targets.trees (spec_target_trees scope.now elements.now)) }
    ensures faults { OnOk result (faults.new ≡ faults.old ++ all_faults (spec_targets scope.now elements.now)) }
{
    for written in elements {
        let read = target_of(alloc, written, scope, faults)?;
        targets.kinds.push(read.kind)?;
        targets.trees = with_target(targets.trees, read.tree)?;
    }
    Ok(targets)
}

/// What is read of each target.
#[tactic(auto, using(crate::proofs::Elements::front_rules))]
pub fn all_targets(
    alloc: Global,
    first: &Element,
    more: &[Element],
    scope: &Scope,
    faults: &mut Items<Fault>,
) -> Result<Targets, AllocError>
    ensures kinds { IfOk result (λ all. all.kinds ≡ spec_kinds (spec_targets scope.now (first.now ∷ more.now))) }
    ensures trees { IfOk result (λ all. all.trees ≡ spec_target_trees scope.now (first.now ∷ more.now)) }
    ensures faults { OnOk result (faults.new ≡ faults.old ++ all_faults (spec_targets scope.now (first.now ∷ more.now))) }
{
    let read = target_of(alloc, first, scope, faults)?;
    let kinds = one_item(alloc, read.kind)?;
    let room = Items::from_vec(Vec::with_capacity(alloc, more.len().saturating_add(1))?);
    let trees = with_target(Some(room), read.tree)?;
    more_targets(alloc, more, Targets { kinds, trees }, scope, faults)
}
