//! What a process uses, each use at the line that has it: in each round of a known replicator once more.
#![tactic(auto, using(crate::proofs::Trees::first_tree))]

ghost use Rattle.std.specs.Prelude.{◌≡◌, ◌≤◌, ◌++◌, OnOk, length, take};
ghost use Rattle.occ_usage.specs.EachLine.{line_use, lines_use, rounds_use};
ghost use Rattle.occ_usage.specs.Effect.{inner as spec_inner};
ghost use Rattle.occ_usage.specs.Lines.{with_index};
ghost use Rattle.occ_usage.specs.Trees.{head_of, trees_of, under as spec_under};
ghost use Rattle.occ_usage_values.specs.Bounds.{Env};

use super::effect::is_body;
use super::function::go_after;
use super::walk::known_replicator;
use occ_alias::{UsageScope, enter_all, enter_index, form_uses, index_value};
use occ_base::Items;
use occ_typing::TypedLine;
use occ_typing_statements::KnownReplicator;
use occ_usage_values::Use;
use std::alloc::{AllocError, Global};

/// Adds the uses of the lines under a line in one round of its replicator.
#[cycle(each)]
fn add_round(
    alloc: Global,
    base: i32,
    index: u32,
    lines: &[TypedLine],
    env: &mut UsageScope,
    uses: &mut Items<Use>,
) -> Result<(), AllocError>
    ensures uses { OnOk result (uses.new ≡ uses.old ++ lines_use (trees_of lines.now) (with_index env.old base index) (with_index env.old base index)) }
    ensures env { OnOk result (env.new ≡ env.old) }
{
    let depth = env.len();
    enter_index(alloc, index_value(base, index), env)?;
    add_lines(alloc, lines, env, uses)?;
    env.cut(depth);
    Ok(())
}

/// Adds the uses of the lines under a line in each round of its replicator.
#[cycle(each)]
fn add_rounds(
    alloc: Global,
    known: KnownReplicator,
    lines: &[TypedLine],
    env: &mut UsageScope,
    uses: &mut Items<Use>,
) -> Result<(), AllocError>
    ensures uses { OnOk result (uses.new ≡ uses.old ++ rounds_use known.count known.base env.old (λ (e : Env). lines_use (trees_of lines.now) e e)) }
    ensures env { OnOk result (env.new ≡ env.old) }
{
    for index in 0..known.count {
        add_round(alloc, known.base, index, lines, env, uses)?;
    }
    Ok(())
}

/// Adds the uses of the lines under a line that has no known replicator.
#[cycle(each)]
fn add_inner(
    alloc: Global,
    line: &TypedLine,
    env: &mut UsageScope,
    uses: &mut Items<Use>,
) -> Result<(), AllocError>
    ensures uses { OnOk result (uses.new ≡ uses.old ++ lines_use (spec_under line.now) (spec_inner env.old (head_of line.now)) (spec_inner env.old (head_of line.now))) }
    ensures env { OnOk result (env.new ≡ env.old) }
{
    let depth = env.len();
    enter_all(alloc, line.enters.as_slice(), env)?;
    add_lines(alloc, line.under.as_slice(), env, uses)?;
    env.cut(depth);
    Ok(())
}

/// Adds the uses of a line with those under it.
#[cycle(each)]
pub(crate) fn add_line(
    alloc: Global,
    line: &TypedLine,
    env: &mut UsageScope,
    uses: &mut Items<Use>,
) -> Result<(), AllocError>
    ensures uses { OnOk result (uses.new ≡ uses.old ++ line_use env.old (head_of line.now) (spec_under line.now)) }
    ensures env { OnOk result (env.new ≡ env.old) }
{
    let form = line.form.get();
    form_uses(alloc, form, env.as_slice(), &line.place, uses)?;
    if is_body(form) {
        return Ok(());
    }
    match known_replicator(form) {
        Some(known) => add_rounds(alloc, known, line.under.as_slice(), env, uses),
        None => add_inner(alloc, line, env, uses),
    }
}

/// Adds the uses of lines.
#[cycle(each)]
fn add_lines(
    alloc: Global,
    lines: &[TypedLine],
    env: &mut UsageScope,
    uses: &mut Items<Use>,
) -> Result<(), AllocError>
    ensures uses { OnOk result (uses.new ≡ uses.old ++ lines_use (trees_of lines.now) env.old env.old) }
    ensures env { OnOk result (env.new ≡ env.old) }
{
    let depth = env.len();
    for one in lines {
        add_line(alloc, one, env, uses)?;
        go_after(alloc, one, depth, env)?;
    }
    env.cut(depth);
    Ok(())
}
