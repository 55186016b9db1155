//! The targets of one assignment, each with each: U1 where their parts surely meet.
ghost use Rattle.std.specs.Prelude.{◌≡◌, ◌≢◌, ◌<◌, ◌≤◌, ◌++◌, ℕ, List, OnOk, Some, false, slice_get};
ghost use Rattle.occ_usage_conflicts.specs.declared.rule.Least.{Least as ALeast};
ghost use Rattle.occ_usage_conflicts.specs.declared.rule.Least.TheVariants as least;
ghost use Rattle.occ_usage_conflicts.specs.declared.rule.Rule.{Rule as ARule};
ghost use Rattle.occ_usage_conflicts.specs.declared.rule.Rule.TheVariants as rule;
ghost use Rattle.occ_usage_conflicts.specs.declared.presence.Presence.TheVariants as presence;
ghost use Rattle.occ_usage_conflicts.specs.ParallelRule.{clash, clash_between, some_clash as spec_some_clash, target_faults as spec_target_faults, uses_clash};
ghost use Rattle.std.specs.List.{list_any};
ghost use Rattle.occ_usage_values.specs.declared.uses.Use.{Use as AUse};

use super::presence::{Presence, presences};
use super::reporting::root_fault;
use super::rule::{Least, Rule, conflict, counts};
use occ_base::{Diag, Items};
use occ_project::Location;
use occ_usage_parts::overlap;
use occ_usage_values::{Bound, Use};
use std::alloc::{AllocError, Global};

/// Whether two uses of this root clash.
fn do_clash(rule: Rule, least: Least, root: usize, a: &Use, b: &Use) -> bool
    ensures { result ≡ clash rule least root a.now b.now }
{
    a.part.root == root
        && b.part.root == root
        && conflict(rule, a.kind, b.kind)
        && counts(least, overlap(&a.part, &b.part))
}

/// Whether a use clashes with one of these.
fn with_some(rule: Rule, least: Least, root: usize, a: &Use, others: &[Use]) -> bool
    ensures { result ≡ uses_clash rule least root a.now others.now }
{
    for b in others {
        if do_clash(rule, least, root, a, b) {
            return true;
        }
    }
    false
}

/// Whether a use of one component clashes with one of another.
fn between(rule: Rule, least: Least, root: usize, some: &[Use], others: &[Use]) -> bool
    ensures { result ≡ clash_between rule least root some.now others.now }
{
    for a in some {
        if with_some(rule, least, root, a, others) {
            return true;
        }
    }
    false
}

/// Whether a use of one component clashes with one of some other.
fn between_any(rule: Rule, least: Least, root: usize, some: &[Use], others: &[Items<Use>]) -> bool
    ensures { result ≡ list_any (λ (vs : List AUse). clash_between rule least root some.now vs) others.now }
{
    for other in others {
        if between(rule, least, root, some, other.as_slice()) {
            return true;
        }
    }
    false
}

/// Whether two different components clash in a root.
pub(crate) fn some_clash(rule: Rule, least: Least, root: usize, components: &[Items<Use>]) -> bool
    ensures { result ≡ spec_some_clash rule least root components.now }
{
    for (place, one) in components.iter().enumerate() {
        let others = components.split_at(place + 1).1;
        if between_any(rule, least, root, one.as_slice(), others) {
            return true;
        }
    }
    false
}

/// The least root of uses that is not below this one, if it is below the other: else the other.
pub(crate) fn next_root(components: &[Items<Use>], from: usize, count: usize) -> usize
    requires { from ≤ count }
    ensures from { from ≤ result }
    ensures within { result ≤ count }
    ensures none { (r : ARule) (l : ALeast) (root : ℕ) → from ≤ root → root < result → spec_some_clash r l root components.now ≡ false }
{
    let mut next = count;
    for component in components {
        next = next_root_of(component.as_slice(), from, next);
    }
    next
}

/// The same of uses.
fn next_root_of(uses: &[Use], from: usize, count: usize) -> usize
    requires { from ≤ count }
    ensures from { from ≤ result }
    ensures within { result ≤ count }
    ensures none { (k : ℕ) (u : AUse) → slice_get uses.now k ≡ Some u → from ≤ u.part.root → result ≤ u.part.root }
{
    let mut next = count;
    for one in uses {
        if from <= one.part.root {
            next = next.min(one.part.root);
        }
    }
    next
}

/// So many targets are compared root by root of those that they use.
const FEW: usize = 8;

/// What is reported of an assignment of few targets with these uses.
fn few_target_faults(
    alloc: Global,
    line: &Location,
    env: &[Bound],
    components: &[Items<Use>],
    faults: &mut Items<Diag>,
) -> Result<(), AllocError>
    ensures { OnOk result (faults.new ≡ faults.old ++ spec_target_faults line.now env.now components.now) }
{
    let mut root = next_root(components, 0, env.len());
    while root < env.len() {
        let is_broken = some_clash(Rule::Written, Least::Must, root, components);
        root_fault(alloc, is_broken, Rule::Written, line, env, root, faults)?;
        root = next_root(components, root + 1, env.len());
    }
    Ok(())
}

/// Whether components clash in a root of which the uses stand so.
fn do_targets_clash(stand: Presence, root: usize, components: &[Items<Use>]) -> bool
    requires { stand ≢ presence.Several → spec_some_clash rule.Written least.Must root components.now ≡ false }
    ensures { result ≡ spec_some_clash rule.Written least.Must root components.now }
{
    match stand {
        Presence::Several => some_clash(Rule::Written, Least::Must, root, components),
        Presence::Nowhere | Presence::One(_) => false,
    }
}

/// What is reported of an assignment of several targets with these uses.
pub fn target_faults(
    alloc: Global,
    line: &Location,
    env: &[Bound],
    components: &[Items<Use>],
    faults: &mut Items<Diag>,
) -> Result<(), AllocError>
    ensures { OnOk result (faults.new ≡ faults.old ++ spec_target_faults line.now env.now components.now) }
{
    if components.len() <= FEW {
        return few_target_faults(alloc, line, env, components, faults);
    }
    let stands = presences(alloc, env.len(), components)?;
    for (root, stand) in stands.as_slice().iter().enumerate() {
        let is_broken = do_targets_clash(*stand, root, components);
        root_fault(alloc, is_broken, Rule::Written, line, env, root, faults)?;
    }
    Ok(())
}
