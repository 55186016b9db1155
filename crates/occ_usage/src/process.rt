//! What one process uses of what is around it. Processes count from 0 in the order of the lines.
#![tactic(auto, using(crate::proofs::Trees::first_tree))]

ghost use Rattle.std.specs.Prelude.{◌≡◌, ◌≤◌, ◌++◌, ◌∷◌, [], IfOk, OnOk, length, take};
ghost use Rattle.occ_usage.specs.Effect.{inner as spec_inner};
ghost use Rattle.occ_usage.specs.Lines.{after_line};
ghost use Rattle.occ_usage.specs.Processes.{all_passed, from_round, is_asked, own_uses as spec_own_uses, passed, process_uses as spec_process_uses, uses_in, whole_uses as spec_whole_uses};
ghost use Rattle.occ_usage.specs.Trees.{head_of, trees_of, under as spec_under};

use super::each_line::add_line;
use super::function::go_after;
use occ_alias::{UsageScope, enter_all};
use occ_base::Items;
use occ_typing::{Typed, TypedLine};
use occ_usage_values::Use;
use std::alloc::{AllocError, Global};

/// The number of a process of a unit: how many stand before it in the listing.
pub type ProcessId = usize;

/// What a process uses of what stands round it.
#[derive(Drop)]
pub struct Summary {
    /// In no order, some perhaps more than once.
    pub uses: Items<Use>,
}

/// Adds a use, if it is one of what so many specifications are.
fn push_from_round(
    alloc: Global,
    depth: usize,
    one: &Use,
    found: &mut Items<Use>,
) -> Result<(), AllocError>
    ensures { OnOk result (found.new ≡ found.old ++ from_round depth (one.now ∷ [])) }
{
    if one.part.root < depth {
        found.push(one.at_line(alloc, &one.line)?)
    } else {
        Ok(())
    }
}

/// Adds the uses of what so many specifications are.
fn add_from_round(
    alloc: Global,
    depth: usize,
    uses: &[Use],
    found: &mut Items<Use>,
) -> Result<(), AllocError>
    ensures { OnOk result (found.new ≡ found.old ++ from_round depth uses.now) }
{
    for one in uses {
        push_from_round(alloc, depth, one, found)?;
    }
    Ok(())
}

/// Whether a line is the process that is asked for, where so many processes are still to be passed.
fn pass(is_process: bool, left: &mut Option<usize>) -> bool
    ensures asked { result ≡ is_asked is_process left.old }
    ensures left { left.new ≡ passed is_process left.old }
{
    if !is_process {
        return false;
    }
    match *left {
        None => false,
        Some(0) => {
            *left = None;
            true
        }
        Some(more) => {
            *left = Some(more - 1);
            false
        }
    }
}

/// Adds the uses of a line, if it is the process that is asked for.
fn add_own_uses(
    alloc: Global,
    line: &TypedLine,
    left: &mut Option<usize>,
    env: &mut UsageScope,
    found: &mut Items<Use>,
) -> Result<(), AllocError>
    ensures found { OnOk result (found.new ≡ found.old ++ spec_own_uses left.old (head_of line.now) (spec_under line.now) env.old) }
    ensures left { OnOk result (left.new ≡ passed (head_of line.now).is_process left.old) }
    ensures env { OnOk result (env.new ≡ env.old) }
{
    if !pass(line.is_process, left) {
        return Ok(());
    }
    let mut uses = Items::new(alloc);
    add_line(alloc, line, env, &mut uses)?;
    add_from_round(alloc, env.len(), uses.as_slice(), found)
}

/// Adds the uses of the process that is asked for, if it stands under a line.
#[cycle(process)]
fn add_under(
    alloc: Global,
    line: &TypedLine,
    left: &mut Option<usize>,
    env: &mut UsageScope,
    found: &mut Items<Use>,
) -> Result<(), AllocError>
    ensures found { OnOk result (found.new ≡ found.old ++ spec_process_uses left.old (spec_under line.now) (spec_inner env.old (head_of line.now)) (spec_inner env.old (head_of line.now))) }
    ensures left { OnOk result (left.new ≡ all_passed (spec_under line.now) left.old) }
    ensures env { OnOk result (env.new ≡ env.old) }
{
    let depth = env.len();
    enter_all(alloc, line.enters.as_slice(), env)?;
    lines(alloc, line.under.as_slice(), left, env, found)?;
    env.cut(depth);
    Ok(())
}

/// Adds the uses of the process that is asked for, if it is a line or stands under it, and goes after the line.
#[cycle(process)]
fn line(
    alloc: Global,
    line: &TypedLine,
    depth: usize,
    left: &mut Option<usize>,
    env: &mut UsageScope,
    found: &mut Items<Use>,
) -> Result<(), AllocError>
    ensures found { OnOk result (found.new ≡ found.old ++ spec_whole_uses left.old (head_of line.now) (spec_under line.now) env.old) }
    ensures left { OnOk result (left.new ≡ all_passed (spec_under line.now) (passed (head_of line.now).is_process left.old)) }
    ensures env { OnOk result (depth ≤ length env.old → env.new ≡ after_line (take depth env.old) env.old (head_of line.now) (spec_under line.now)) }
{
    add_own_uses(alloc, line, left, env, found)?;
    add_under(alloc, line, left, env, found)?;
    go_after(alloc, line, depth, env)
}

/// Adds the uses of the process that is asked for, if it stands in lines.
#[cycle(process)]
fn lines(
    alloc: Global,
    lines: &[TypedLine],
    left: &mut Option<usize>,
    env: &mut UsageScope,
    found: &mut Items<Use>,
) -> Result<(), AllocError>
    ensures found { OnOk result (found.new ≡ found.old ++ spec_process_uses left.old (trees_of lines.now) env.old env.old) }
    ensures left { OnOk result (left.new ≡ all_passed (trees_of lines.now) left.old) }
    ensures env { OnOk result (env.new ≡ env.old) }
{
    let depth = env.len();
    for one in lines {
        line(alloc, one, depth, left, env, found)?;
    }
    env.cut(depth);
    Ok(())
}

/// What the process with this number uses of what stands round it, each use at its line, where no index round it is known.
pub fn uses_of(alloc: Global, typed: &Typed, process: ProcessId) -> Result<Summary, AllocError>
    ensures { IfOk result (λ summary. summary.uses ≡ uses_in typed.now.lines process) }
{
    let mut left = Some(process);
    let mut env = UsageScope::new(alloc);
    let mut uses = Items::new(alloc);
    lines(
        alloc,
        typed.lines.as_slice(),
        &mut left,
        &mut env,
        &mut uses,
    )?;
    Ok(Summary { uses })
}
