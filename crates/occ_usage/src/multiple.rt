//! Assignments of several targets, each target as a component with what its subscripts read.
ghost use Rattle.std.specs.Prelude.{◌≡◌, ◌++◌, IfOk, OnOk};
ghost use Rattle.occ_alias.specs.Forms.{used as spec_used};
ghost use Rattle.occ_types.specs.declared.interface.UseKind.TheVariants as kinds;
ghost use Rattle.occ_usage.specs.ParallelRule.{assignment_faults as spec_assignment_faults, targets as spec_targets};

use occ_alias::used;
use occ_base::{Diag, Items};
use occ_project::Location;
use occ_types::UseKind;
use occ_typing_rules::TypedElement;
use occ_usage_conflicts::target_faults;
use occ_usage_values::{Bound, Use};
use std::alloc::{AllocError, Global};

/// What a target of an assignment uses.
fn target(
    alloc: Global,
    element: &TypedElement,
    env: &[Bound],
    line: &Location,
) -> Result<Items<Use>, AllocError>
    ensures { IfOk result (λ own. own ≡ spec_used kinds.Write element.now env.now line.now) }
{
    let mut own = Items::new(alloc);
    used(alloc, UseKind::Write, element, env, line, &mut own)?;
    Ok(own)
}

/// The targets of an assignment as components.
fn targets(
    alloc: Global,
    elements: &[TypedElement],
    env: &[Bound],
    line: &Location,
) -> Result<Vec<Items<Use>>, AllocError>
    ensures { IfOk result (λ found. found.items ≡ spec_targets elements.now env.now line.now) }
{
    let mut found = Vec::new(alloc);
    for element in elements {
        found.push(target(alloc, element, env, line)?)?;
    }
    Ok(found)
}

/// What is reported of an assignment to these targets.
pub(crate) fn assignment_faults(
    alloc: Global,
    elements: &[TypedElement],
    env: &[Bound],
    line: &Location,
    faults: &mut Items<Diag>,
) -> Result<(), AllocError>
    ensures { OnOk result (faults.new ≡ faults.old ++ spec_assignment_faults elements.now env.now line.now) }
{
    if elements.len() < 2 {
        return Ok(());
    }
    let components = targets(alloc, elements, env, line)?;
    target_faults(alloc, line, env, components.as_slice(), faults)
}
