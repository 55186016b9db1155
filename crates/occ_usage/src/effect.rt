//! Whether the lines under a line have an effect, and which lines are heads of bodies.
#![tactic(auto, using(crate::proofs::Trees::first_tree))]

ghost use Rattle.std.specs.Prelude.{◌≡◌, ◌||◌, IfOk, OnOk, take};
ghost use Rattle.occ_usage.specs.Effect.{effect_after as spec_effect_after, effect_under as spec_effect_under, is_body as spec_is_body, line_effect as spec_line_effect, lines_effect as spec_lines_effect};
ghost use Rattle.occ_usage.specs.Trees.{head_of, trees_of, under as spec_under};

use occ_alias::{UsageScope, body_bound, enter_all, enter_line, form_effect};
use occ_base::Items;
use occ_typing::{TypedForm, TypedLine};
use std::alloc::{AllocError, Global};

/// Whether a line is the head of a PROC or of a FUNCTION: the lines under it are a body, and no part of what the line does.
pub(crate) fn is_body(form: &TypedForm) -> bool
    ensures { result ≡ spec_is_body form.now }
{
    matches!(form, TypedForm::ProcedureHead | TypedForm::FunctionHead)
}

/// Whether one of the two is so.
fn either(one: bool, other: bool) -> bool
    ensures { result ≡ (one || other) }
{
    one || other
}

/// Goes after a line, where a body has this effect: its uses are not asked for. So many specifications stand round its item.
fn go_after(
    alloc: Global,
    line: &TypedLine,
    has_effect: bool,
    depth: usize,
    env: &mut UsageScope,
) -> Result<(), AllocError>
    ensures { OnOk result (env.new ≡ spec_effect_after (take depth env.old) env.old (head_of line.now) has_effect (head_of line.now).adds) }
{
    let Some(entries) = &line.adds else {
        env.cut(depth);
        return Ok(());
    };
    if is_body(line.form.get()) {
        return env.enter(alloc, body_bound(Items::new(alloc), has_effect));
    }
    enter_line(alloc, line.form.get(), &line.place, entries.as_slice(), env)
}

/// Whether the lines under a line have an effect.
#[cycle(effect)]
pub(crate) fn effect_under(
    alloc: Global,
    line: &TypedLine,
    env: &mut UsageScope,
) -> Result<bool, AllocError>
    ensures found { IfOk result (λ found. found ≡ spec_effect_under (spec_under line.now) env.old (head_of line.now)) }
    ensures env { OnOk result (env.new ≡ env.old) }
{
    if line.under.is_empty() {
        return Ok(false);
    }
    let depth = env.len();
    enter_all(alloc, line.enters.as_slice(), env)?;
    let found = lines_effect(alloc, line.under.as_slice(), env)?;
    env.cut(depth);
    Ok(found)
}

/// Whether a line has an effect, with those under it unless they are a body; and what stands in scope after it.
#[cycle(effect)]
fn line_effect(
    alloc: Global,
    line: &TypedLine,
    depth: usize,
    env: &mut UsageScope,
) -> Result<bool, AllocError>
    ensures found { IfOk result (λ found. found ≡ spec_line_effect env.old (head_of line.now) (spec_effect_under (spec_under line.now) env.old (head_of line.now))) }
    ensures env { OnOk result (env.new ≡ spec_effect_after (take depth env.old) env.old (head_of line.now) (spec_effect_under (spec_under line.now) env.old (head_of line.now)) (head_of line.now).adds) }
{
    let own = form_effect(line.form.get(), env.as_slice());
    let below = effect_under(alloc, line, env)?;
    go_after(alloc, line, below, depth, env)?;
    Ok(own || (below && !is_body(line.form.get())))
}

/// Whether lines have an input, an output, a PAR or an ALT, or call a body with one.
#[cycle(effect)]
fn lines_effect(
    alloc: Global,
    lines: &[TypedLine],
    env: &mut UsageScope,
) -> Result<bool, AllocError>
    ensures found { IfOk result (λ found. found ≡ spec_lines_effect (trees_of lines.now) env.old env.old) }
    ensures env { OnOk result (env.new ≡ env.old) }
{
    let depth = env.len();
    let mut found = false;
    for line in lines {
        let has_effect = line_effect(alloc, line, depth, env)?;
        found = either(found, has_effect);
    }
    env.cut(depth);
    Ok(found)
}
