//! The faults of a PAR, root by root and rule by rule, from what its components were found to use.
ghost use Rattle.std.specs.Prelude.{◌≡◌, ◌<◌, ◌≤◌, ◌++◌, ◌∷◌, [], ℕ, OnOk, Some, length};
ghost use Rattle.occ_usage_conflicts.specs.Components.{parted};
ghost use Rattle.occ_usage_conflicts.specs.ParallelRule.{below, component_faults as spec_component_faults, fault_if, root_faults as spec_root_faults};
ghost use Rattle.occ_usage_conflicts.specs.inside.Accumulating.{broken_faults, faults_in};

use super::accumulate::{RootUses, parted_root_uses, root_uses, twice_root_uses};
use super::pairs::{next_root, some_clash};
use super::reach::{last_parted_root, last_root, last_root_of};
use super::rule::{Least, Rule, code, root_name};
use occ_base::{Diag, Items};
use occ_project::Location;
use occ_usage_values::{Bound, Use};
use std::alloc::{AllocError, Global};

/// Adds the fault of a root, if the rule is broken there.
pub(crate) fn root_fault(
    alloc: Global,
    is_broken: bool,
    rule: Rule,
    line: &Location,
    env: &[Bound],
    root: usize,
    faults: &mut Items<Diag>,
) -> Result<(), AllocError>
    ensures { OnOk result (faults.new ≡ faults.old ++ fault_if is_broken rule line.now env.now root) }
{
    if !is_broken {
        return Ok(());
    }
    let name = root_name(alloc, env, root)?;
    faults.push(Diag::error(*line.file.get(), line.line, code(rule), name))
}

/// Adds the faults of a root, by each rule that is broken there.
fn root_faults(
    alloc: Global,
    line: &Location,
    env: &[Bound],
    root: usize,
    uses: &RootUses,
    faults: &mut Items<Diag>,
) -> Result<(), AllocError>
    ensures { OnOk result (faults.new ≡ faults.old ++ broken_faults line.now env.now root (Some uses.now)) }
{
    root_fault(
        alloc,
        uses.breaks_written,
        Rule::Written,
        line,
        env,
        root,
        faults,
    )?;
    root_fault(
        alloc,
        uses.breaks_input,
        Rule::Input,
        line,
        env,
        root,
        faults,
    )?;
    root_fault(
        alloc,
        uses.breaks_output,
        Rule::Output,
        line,
        env,
        root,
        faults,
    )
}

/// Adds the faults of all roots.
fn report(
    alloc: Global,
    line: &Location,
    env: &[Bound],
    table: &[RootUses],
    faults: &mut Items<Diag>,
) -> Result<(), AllocError>
    ensures { OnOk result (faults.new ≡ faults.old ++ below (length table.now) (faults_in line.now env.now table.now)) }
{
    for (root, uses) in table.iter().enumerate() {
        root_faults(alloc, line, env, root, uses, faults)?;
    }
    Ok(())
}

/// How many of so many roots there are up to one.
fn count_to(last: usize, count: usize) -> usize
    ensures within { result ≤ count }
    ensures following { (root : ℕ) → result ≤ root → root < count → last < root }
{
    if last < count { last + 1 } else { count }
}

/// So many components with so many uses are compared each with each: else their uses are joined root by root.
const FEW: usize = 32;

/// Whether so few components have so few uses.
fn are_few(components: &[Items<Use>]) -> bool {
    let mut left = FEW;
    for component in components {
        if component.len() > left {
            return false;
        }
        left -= component.len();
    }
    components.len() <= FEW
}

/// Adds the faults of a root, by each rule, of components that are compared each with each.
fn clash_faults(
    alloc: Global,
    line: &Location,
    env: &[Bound],
    root: usize,
    components: &[Items<Use>],
    faults: &mut Items<Diag>,
) -> Result<(), AllocError>
    ensures { OnOk result (faults.new ≡ faults.old ++ spec_root_faults line.now env.now components.now root) }
{
    let is_written = some_clash(Rule::Written, Least::May, root, components);
    root_fault(alloc, is_written, Rule::Written, line, env, root, faults)?;
    let is_input = some_clash(Rule::Input, Least::May, root, components);
    root_fault(alloc, is_input, Rule::Input, line, env, root, faults)?;
    let is_output = some_clash(Rule::Output, Least::May, root, components);
    root_fault(alloc, is_output, Rule::Output, line, env, root, faults)
}

/// What is reported of a PAR with few components, of which the roots that they use are gone through.
fn few_faults(
    alloc: Global,
    line: &Location,
    env: &[Bound],
    components: &[Items<Use>],
    faults: &mut Items<Diag>,
) -> Result<(), AllocError>
    ensures { OnOk result (faults.new ≡ faults.old ++ spec_component_faults line.now env.now components.now) }
{
    let mut root = next_root(components, 0, env.len());
    while root < env.len() {
        clash_faults(alloc, line, env, root, components, faults)?;
        root = next_root(components, root + 1, env.len());
    }
    Ok(())
}

/// What is reported of a PAR with these components, where these specifications stand round it.
pub fn component_faults(
    alloc: Global,
    line: &Location,
    env: &[Bound],
    components: &[Items<Use>],
    faults: &mut Items<Diag>,
) -> Result<(), AllocError>
    ensures { OnOk result (faults.new ≡ faults.old ++ spec_component_faults line.now env.now components.now) }
{
    if components.len() < 2 {
        return Ok(());
    }
    if are_few(components) {
        return few_faults(alloc, line, env, components, faults);
    }
    let table = root_uses(
        alloc,
        count_to(last_root(components), env.len()),
        components,
    )?;
    report(alloc, line, env, table.as_slice(), faults)
}

/// What is reported of a PAR with components of which the uses stand one after the other, so many in each, where these
/// specifications stand round it.
pub fn parted_faults(
    alloc: Global,
    line: &Location,
    env: &[Bound],
    uses: &[Use],
    sizes: &[usize],
    faults: &mut Items<Diag>,
) -> Result<(), AllocError>
    ensures { OnOk result (faults.new ≡ faults.old ++ spec_component_faults line.now env.now (parted sizes.now uses.now)) }
{
    if sizes.len() < 2 {
        return Ok(());
    }
    let count = count_to(last_parted_root(uses, sizes), env.len());
    let table = parted_root_uses(alloc, count, uses, sizes)?;
    report(alloc, line, env, table.as_slice(), faults)
}

/// What is reported of a PAR with two components that both use this, where these specifications stand round it.
pub fn twice_faults(
    alloc: Global,
    line: &Location,
    env: &[Bound],
    uses: &[Use],
    faults: &mut Items<Diag>,
) -> Result<(), AllocError>
    ensures { OnOk result (faults.new ≡ faults.old ++ spec_component_faults line.now env.now (uses.now ∷ uses.now ∷ [])) }
{
    let count = count_to(last_root_of(uses), env.len());
    let table = twice_root_uses(alloc, count, uses)?;
    report(alloc, line, env, table.as_slice(), faults)
}
