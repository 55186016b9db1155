//! The walk over the typed lines. It yields the uses of each item, in each round of known replicators, and the faults of
//! the parallel and the abbreviation rule. The uses of a line are made once. `docs/LANGUAGE.md, The parallel rule`.
#![tactic(auto, using(crate::proofs::Trees::first_tree))]

ghost use Rattle.std.specs.Prelude.{IsTrue, ◌≡◌, ◌≤◌, ◌++◌, ◌∷◌, [], if◌then◌else◌, true, false, IfOk, None, OnOk, Some, length, replicate, take};
ghost use Rattle.occ_alias.specs.AbbreviationRule.{line_faults as spec_line_faults};
ghost use Rattle.occ_usage_conflicts.specs.Components.{joined as spec_joined, parted};
ghost use Rattle.occ_usage_conflicts.specs.Distinct.{gathered as spec_gathered};
ghost use Rattle.occ_alias.specs.Forms.{form_uses as spec_form_uses};
ghost use Rattle.occ_usage.specs.Comparing.{are_compared as spec_are_compared};
ghost use Rattle.occ_usage.specs.Effect.{effect_under as spec_effect_under, inner as spec_inner, is_body as spec_is_body};
ghost use Rattle.occ_usage_values.specs.Bounds.{Env};
ghost use Rattle.occ_usage.specs.Lines.{added as spec_added, after_line, after_lines, after_unit, added_by as spec_added_by, body_over as spec_body_over, components as spec_components, ends_item, entered as spec_entered, is_replicated as spec_is_replicated, items_of, known_replicator as spec_known_replicator, line_uses as spec_line_uses, rounds_to, under_uses as spec_under_uses, with_index};
ghost use Rattle.occ_usage.specs.AbbreviationRule.{abbreviation_at, abbreviation_faults};
ghost use Rattle.occ_usage.specs.ParallelRule.{block_faults as spec_block_faults, own_faults as spec_own_faults, parallel_at, parallel_faults};
ghost use Rattle.occ_usage.specs.Walk.{line_reported, rounds_reported, reported_of, under_reported};
ghost use Rattle.occ_usage.specs.Naming.{lines_depend as spec_lines_depend};
ghost use Rattle.occ_usage.specs.Trees.{head_of, trees_of, under as spec_under};

use super::effect::{effect_under, is_body};
use super::finding::{Finding, Told};
use super::multiple::assignment_faults;
use super::rounds::alike_rounds;
use occ_alias::{
    Reported, UsageScope, body_bound, enter_all, enter_index, enter_line, form_uses, graver,
    index_value, line_faults, number_after,
};
use occ_base::{Diag, Items};
use occ_scope::ScopeEntry;
use occ_typing::{BlockKind, Typed, TypedForm, TypedLine};
use occ_typing_statements::KnownReplicator;
use occ_usage_conflicts::{
    Gathered, append, append_joined, component_faults, gather, outside_uses, parted_faults,
    twice_faults,
};
use occ_usage_values::{Bound, Use};
use std::alloc::{AllocError, Global};

/// The replicator of a line, if it is known.
pub(crate) fn known_replicator(form: &TypedForm) -> Option<KnownReplicator>
    ensures { result ≡ spec_known_replicator form.now }
{
    match form {
        TypedForm::Block(_, Some(replicator)) => replicator.known,
        _ => None,
    }
}

/// Whether a line has a replicator.
fn is_replicated(form: &TypedForm) -> bool
    ensures { result ≡ spec_is_replicated form.now }
{
    matches!(form, TypedForm::Block(_, Some(_)))
}

/// Whether the components of a line are compared.
fn is_parallel(form: &TypedForm) -> bool
    ensures { result ≡ spec_are_compared form.now }
{
    matches!(form, TypedForm::Block(BlockKind::Parallel, _))
}

/// Adds the uses of the lines under a line in one round of its replicator, and what is reported of them.
#[cycle(walk)]
#[inline(always)]
fn add_round(
    alloc: Global,
    base: i32,
    index: u32,
    lines: &[TypedLine],
    env: &mut UsageScope,
    uses: &mut Items<Use>,
    reported: &mut Finding,
) -> Result<(), AllocError>
    ensures uses { OnOk result (uses.new ≡ uses.old ++ spec_joined (items_of (trees_of lines.now) (with_index env.old base index))) }
    ensures env { OnOk result (env.new ≡ env.old) }
    ensures parallel { OnOk result (reported.new.parallel ≡ reported.old.parallel ++ reported_of parallel_at (trees_of lines.now) (with_index env.old base index)) }
    ensures abbreviations { OnOk result (reported.new.abbreviations ≡ reported.old.abbreviations ++ reported_of abbreviation_at (trees_of lines.now) (with_index env.old base index)) }
{
    let depth = env.len();
    enter_index(alloc, index_value(base, index), env)?;
    add_items(alloc, lines, env, uses, reported)?;
    env.cut(depth);
    Ok(())
}

/// The uses of the rounds of a replicator, one after the other, and how many each has.
#[derive(Drop)]
struct EachRound {
    uses: Items<Use>,
    sizes: Vec<usize>,
}

/// The uses of the lines under a line in each round of its replicator, and what is reported of them.
#[cycle(walk)]
fn rounds(
    alloc: Global,
    known: KnownReplicator,
    lines: &[TypedLine],
    env: &mut UsageScope,
    reported: &mut Finding,
) -> Result<EachRound, AllocError>
    ensures found { IfOk result (λ found. parted found.sizes.items found.uses ≡ rounds_to known.count known.base env.old (items_of (trees_of lines.now))) }
    ensures uses { IfOk result (λ found. found.uses ≡ spec_joined (rounds_to known.count known.base env.old (items_of (trees_of lines.now)))) }
    ensures env { OnOk result (env.new ≡ env.old) }
    ensures parallel { OnOk result (reported.new.parallel ≡ reported.old.parallel ++ rounds_reported known.count known.base env.old (reported_of parallel_at (trees_of lines.now))) }
    ensures abbreviations { OnOk result (reported.new.abbreviations ≡ reported.old.abbreviations ++ rounds_reported known.count known.base env.old (reported_of abbreviation_at (trees_of lines.now))) }
{
    let mut uses = Items::new(alloc);
    let mut sizes = Vec::new(alloc);
    let mut told = Told::nothing(alloc);
    for i in 0..known.count {
        let before = uses.len();
        let mut found = Finding::nothing(alloc);
        add_round(alloc, known.base, i, lines, env, &mut uses, &mut found)?;
        told.add(found)?;
        sizes.push(uses.len().saturating_sub(before))?;
    }
    reported.report(alloc, told)?;
    Ok(EachRound { uses, sizes })
}

/// The uses of the lines under a line in each round of its replicator, told at the line, each once, and what is reported of the
/// lines.
#[cycle(walk)]
fn gather_rounds(
    alloc: Global,
    known: KnownReplicator,
    line: &TypedLine,
    env: &mut UsageScope,
    reported: &mut Finding,
) -> Result<Items<Use>, AllocError>
    ensures uses { IfOk result (λ uses. uses ≡ spec_gathered (head_of line.now).place [] (spec_joined (rounds_to known.count known.base env.old (items_of (spec_under line.now))))) }
    ensures env { OnOk result (env.new ≡ env.old) }
    ensures parallel { OnOk result (reported.new.parallel ≡ reported.old.parallel ++ rounds_reported known.count known.base env.old (reported_of parallel_at (spec_under line.now))) }
    ensures abbreviations { OnOk result (reported.new.abbreviations ≡ reported.old.abbreviations ++ rounds_reported known.count known.base env.old (reported_of abbreviation_at (spec_under line.now))) }
{
    let mut uses = Gathered::nothing(alloc)?;
    let mut told = Told::nothing(alloc);
    for index in 0..known.count {
        let mut own = Items::new(alloc);
        let mut found = Finding::nothing(alloc);
        add_round(
            alloc,
            known.base,
            index,
            line.under.as_slice(),
            env,
            &mut own,
            &mut found,
        )?;
        uses = uses.with(alloc, own.as_slice(), &line.place)?;
        told.add(found)?;
    }
    reported.report(alloc, told)?;
    Ok(uses.into_uses())
}

/// The uses of each item under a line, with what the line enters in scope, and what is reported of them.
#[cycle(walk)]
fn inner(
    alloc: Global,
    line: &TypedLine,
    env: &mut UsageScope,
    reported: &mut Finding,
) -> Result<Vec<Items<Use>>, AllocError>
    ensures found { IfOk result (λ found. found.items ≡ items_of (spec_under line.now) (spec_inner env.old (head_of line.now))) }
    ensures env { OnOk result (env.new ≡ env.old) }
    ensures parallel { OnOk result (reported.new.parallel ≡ reported.old.parallel ++ reported_of parallel_at (spec_under line.now) (spec_inner env.old (head_of line.now))) }
    ensures abbreviations { OnOk result (reported.new.abbreviations ≡ reported.old.abbreviations ++ reported_of abbreviation_at (spec_under line.now) (spec_inner env.old (head_of line.now))) }
{
    let depth = env.len();
    enter_all(alloc, line.enters.as_slice(), env)?;
    let found = items(alloc, line.under.as_slice(), env, reported)?;
    env.cut(depth);
    Ok(found)
}

/// Adds the uses of the items under a line, with what the line enters in scope, and what is reported of them.
#[cycle(walk)]
fn add_inner(
    alloc: Global,
    line: &TypedLine,
    env: &mut UsageScope,
    uses: &mut Items<Use>,
    reported: &mut Finding,
) -> Result<(), AllocError>
    ensures uses { OnOk result (uses.new ≡ uses.old ++ spec_joined (items_of (spec_under line.now) (spec_inner env.old (head_of line.now)))) }
    ensures env { OnOk result (env.new ≡ env.old) }
    ensures parallel { OnOk result (reported.new.parallel ≡ reported.old.parallel ++ reported_of parallel_at (spec_under line.now) (spec_inner env.old (head_of line.now))) }
    ensures abbreviations { OnOk result (reported.new.abbreviations ≡ reported.old.abbreviations ++ reported_of abbreviation_at (spec_under line.now) (spec_inner env.old (head_of line.now))) }
{
    if line.under.is_empty() {
        return Ok(());
    }
    let depth = env.len();
    enter_all(alloc, line.enters.as_slice(), env)?;
    add_items(alloc, line.under.as_slice(), env, uses, reported)?;
    env.cut(depth);
    Ok(())
}

/// What is reported of a block with these components.
fn block_faults(
    alloc: Global,
    block: BlockKind,
    line: &TypedLine,
    components: &[Items<Use>],
    env: &[Bound],
    faults: &mut Items<Diag>,
) -> Result<(), AllocError>
    ensures { OnOk result (faults.new ≡ faults.old ++ spec_block_faults block (head_of line.now).place env.now components.now) }
{
    match block {
        BlockKind::Parallel => component_faults(alloc, &line.place, env, components, faults),
        BlockKind::Sequence => Ok(()),
        BlockKind::Conditional => Ok(()),
        BlockKind::Alternation => Ok(()),
    }
}

/// What is reported of a line with these components.
#[inline(always)]
fn own_faults(
    alloc: Global,
    line: &TypedLine,
    components: &[Items<Use>],
    env: &[Bound],
    faults: &mut Items<Diag>,
) -> Result<(), AllocError>
    ensures { OnOk result (faults.new ≡ faults.old ++ spec_own_faults (head_of line.now).form (head_of line.now).place env.now components.now) }
{
    match line.form.get() {
        TypedForm::Block(block, _) => { block_faults(alloc, *block, line, components, env, faults) }
        TypedForm::Assignment(targets, _) => {
            assignment_faults(alloc, targets.as_slice(), env, &line.place, faults)
        }
        _ => Ok(()),
    }
}

/// The uses of the rounds of a PAR, what is reported of the lines under it, and what the rounds have in common.
#[cycle(walk)]
fn compared_rounds(
    alloc: Global,
    known: KnownReplicator,
    line: &TypedLine,
    env: &mut UsageScope,
    reported: &mut Finding,
) -> Result<Items<Use>, AllocError>
    requires parallel { spec_are_compared (head_of line.now).form ≡ true }
    requires rounds { spec_known_replicator (head_of line.now).form ≡ Some known }
    ensures uses { IfOk result (λ uses. uses ≡ spec_joined (spec_components env.old (head_of line.now) (items_of (spec_under line.now)))) }
    ensures env { OnOk result (env.new ≡ env.old) }
    ensures parallel { OnOk result (reported.new.parallel ≡ reported.old.parallel ++ line_reported parallel_at env.old (head_of line.now) (spec_under line.now) (reported_of parallel_at (spec_under line.now))) }
    ensures abbreviations { OnOk result (reported.new.abbreviations ≡ reported.old.abbreviations ++ under_reported env.old (head_of line.now) (reported_of abbreviation_at (spec_under line.now))) }
{
    let EachRound { uses, sizes } = rounds(alloc, known, line.under.as_slice(), env, reported)?;
    parted_faults(
        alloc,
        &line.place,
        env.as_slice(),
        uses.as_slice(),
        sizes.as_slice(),
        &mut reported.parallel,
    )?;
    Ok(uses)
}

/// Adds the uses of the items of a line, what is reported of the lines under it, and what the items have in common.
#[cycle(walk)]
fn add_compared_items(
    alloc: Global,
    line: &TypedLine,
    env: &mut UsageScope,
    uses: &mut Items<Use>,
    reported: &mut Finding,
) -> Result<(), AllocError>
    requires { spec_known_replicator (head_of line.now).form ≡ None }
    ensures uses { OnOk result (uses.new ≡ uses.old ++ spec_joined (spec_components env.old (head_of line.now) (items_of (spec_under line.now)))) }
    ensures env { OnOk result (env.new ≡ env.old) }
    ensures parallel { OnOk result (reported.new.parallel ≡ reported.old.parallel ++ line_reported parallel_at env.old (head_of line.now) (spec_under line.now) (reported_of parallel_at (spec_under line.now))) }
    ensures abbreviations { OnOk result (reported.new.abbreviations ≡ reported.old.abbreviations ++ under_reported env.old (head_of line.now) (reported_of abbreviation_at (spec_under line.now))) }
{
    let components = inner(alloc, line, env, reported)?;
    own_faults(
        alloc,
        line,
        components.as_slice(),
        env.as_slice(),
        &mut reported.parallel,
    )?;
    append_joined(components, uses)
}

/// Adds the uses of the items under a line without a known replicator, what is reported of them, and what the parallel rule reports
/// of the line.
#[cycle(walk)]
fn add_judged(
    alloc: Global,
    line: &TypedLine,
    env: &mut UsageScope,
    uses: &mut Items<Use>,
    reported: &mut Finding,
) -> Result<(), AllocError>
    requires { spec_known_replicator (head_of line.now).form ≡ None }
    ensures uses { OnOk result (uses.new ≡ uses.old ++ spec_joined (spec_components env.old (head_of line.now) (items_of (spec_under line.now)))) }
    ensures env { OnOk result (env.new ≡ env.old) }
    ensures parallel { OnOk result (reported.new.parallel ≡ reported.old.parallel ++ line_reported parallel_at env.old (head_of line.now) (spec_under line.now) (reported_of parallel_at (spec_under line.now))) }
    ensures abbreviations { OnOk result (reported.new.abbreviations ≡ reported.old.abbreviations ++ under_reported env.old (head_of line.now) (reported_of abbreviation_at (spec_under line.now))) }
{
    if is_parallel(line.form.get()) {
        return add_compared_items(alloc, line, env, uses, reported);
    }
    add_inner(alloc, line, env, uses, reported)?;
    own_faults(alloc, line, &[], env.as_slice(), &mut reported.parallel)
}

/// What is reported of a line with so many rounds that each use this.
fn repeated_faults(
    alloc: Global,
    known: KnownReplicator,
    line: &TypedLine,
    env: &[Bound],
    uses: &[Use],
    faults: &mut Items<Diag>,
) -> Result<(), AllocError>
    requires { spec_known_replicator (head_of line.now).form ≡ Some known }
    ensures { OnOk result (faults.new ≡ faults.old ++ spec_own_faults (head_of line.now).form (head_of line.now).place env.now (replicate known.count uses.now)) }
{
    if !is_parallel(line.form.get()) {
        return Ok(());
    }
    if known.count < 2 {
        return Ok(());
    }
    twice_faults(alloc, &line.place, env, uses, faults)
}

/// The uses of one round, which all rounds of a replicator do, and what is reported of the lines under a line and of the line by
/// the parallel rule.
#[cycle(walk)]
fn alike_uses(
    alloc: Global,
    known: KnownReplicator,
    line: &TypedLine,
    env: &mut UsageScope,
    reported: &mut Finding,
) -> Result<Items<Use>, AllocError>
    requires known { spec_known_replicator (head_of line.now).form ≡ Some known }
    requires alike { spec_lines_depend (length env.now) (spec_under line.now) ≡ false }
    requires some { 1 ≤ known.count }
    ensures uses { IfOk result (λ uses. spec_gathered (head_of line.now).place [] uses ≡ spec_gathered (head_of line.now).place [] (spec_joined (spec_components env.old (head_of line.now) (items_of (spec_under line.now))))) }
    ensures env { OnOk result (env.new ≡ env.old) }
    ensures parallel { OnOk result (reported.new.parallel ≡ reported.old.parallel ++ line_reported parallel_at env.old (head_of line.now) (spec_under line.now) (reported_of parallel_at (spec_under line.now))) }
    ensures abbreviations { OnOk result (reported.new.abbreviations ≡ reported.old.abbreviations ++ under_reported env.old (head_of line.now) (reported_of abbreviation_at (spec_under line.now))) }
{
    let mut uses = Items::new(alloc);
    let mut found = Finding::nothing(alloc);
    add_round(
        alloc,
        known.base,
        0,
        line.under.as_slice(),
        env,
        &mut uses,
        &mut found,
    )?;
    let mut told = Told::nothing(alloc);
    told.add(found)?;
    reported.report(alloc, told)?;
    repeated_faults(
        alloc,
        known,
        line,
        env.as_slice(),
        uses.as_slice(),
        &mut reported.parallel,
    )?;
    Ok(uses)
}

/// The uses of the rounds of a known replicator, told at its line, each once. And what is reported of the lines under it and of the
/// line by the parallel rule.
#[cycle(walk)]
fn known_uses(
    alloc: Global,
    known: KnownReplicator,
    line: &TypedLine,
    env: &mut UsageScope,
    reported: &mut Finding,
) -> Result<Items<Use>, AllocError>
    requires { spec_known_replicator (head_of line.now).form ≡ Some known }
    ensures uses { IfOk result (λ uses. uses ≡ spec_gathered (head_of line.now).place [] (spec_joined (spec_components env.old (head_of line.now) (items_of (spec_under line.now))))) }
    ensures env { OnOk result (env.new ≡ env.old) }
    ensures parallel { OnOk result (reported.new.parallel ≡ reported.old.parallel ++ line_reported parallel_at env.old (head_of line.now) (spec_under line.now) (reported_of parallel_at (spec_under line.now))) }
    ensures abbreviations { OnOk result (reported.new.abbreviations ≡ reported.old.abbreviations ++ under_reported env.old (head_of line.now) (reported_of abbreviation_at (spec_under line.now))) }
{
    if let Some(known) = alike_rounds(line, env.len()) {
        let uses = alike_uses(alloc, known, line, env, reported)?;
        return gather(alloc, uses.as_slice(), &line.place);
    }
    if is_parallel(line.form.get()) {
        let uses = compared_rounds(alloc, known, line, env, reported)?;
        return gather(alloc, uses.as_slice(), &line.place);
    }
    gather_rounds(alloc, known, line, env, reported)
}

/// The uses of the lines under a replicated line, told there, each once. And what is reported of these lines and of the line by the
/// parallel rule.
#[cycle(walk)]
fn replicated_uses(
    alloc: Global,
    line: &TypedLine,
    env: &mut UsageScope,
    reported: &mut Finding,
) -> Result<Items<Use>, AllocError>
    ensures uses { IfOk result (λ uses. uses ≡ spec_gathered (head_of line.now).place [] (spec_joined (spec_components env.old (head_of line.now) (items_of (spec_under line.now))))) }
    ensures env { OnOk result (env.new ≡ env.old) }
    ensures parallel { OnOk result (reported.new.parallel ≡ reported.old.parallel ++ line_reported parallel_at env.old (head_of line.now) (spec_under line.now) (reported_of parallel_at (spec_under line.now))) }
    ensures abbreviations { OnOk result (reported.new.abbreviations ≡ reported.old.abbreviations ++ under_reported env.old (head_of line.now) (reported_of abbreviation_at (spec_under line.now))) }
{
    if let Some(known) = known_replicator(line.form.get()) {
        return known_uses(alloc, known, line, env, reported);
    }
    let mut uses = Items::new(alloc);
    add_judged(alloc, line, env, &mut uses, reported)?;
    gather(alloc, uses.as_slice(), &line.place)
}

/// A PROC or a FUNCTION over lines that use these.
fn body_over(
    alloc: Global,
    line: &TypedLine,
    uses: Items<Use>,
    env: &mut UsageScope,
) -> Result<Bound, AllocError>
    ensures bound { IfOk result (λ bound. bound ≡ spec_body_over env.old (head_of line.now) uses (spec_effect_under (spec_under line.now) env.old (head_of line.now))) }
    ensures env { OnOk result (env.new ≡ env.old) }
{
    let has_effect = effect_under(alloc, line, env)?;
    let number = env.len();
    let locals = number_after(number, line.enters.len())?;
    let uses = outside_uses(alloc, uses, number, locals, &line.place)?;
    Ok(body_bound(uses, has_effect))
}

/// Enters what the head of a PROC or of a FUNCTION specifies, over lines that use these.
fn enter_body(
    alloc: Global,
    line: &TypedLine,
    uses: Items<Use>,
    env: &mut UsageScope,
) -> Result<(), AllocError>
    requires { spec_is_body (head_of line.now).form ≡ true }
    ensures { OnOk result (env.new ≡ env.old ++ spec_added_by env.old (head_of line.now) uses (spec_effect_under (spec_under line.now) env.old (head_of line.now)) (head_of line.now).adds) }
{
    if line.adds.is_none() {
        return Ok(());
    }
    let body = body_over(alloc, line, uses, env)?;
    env.enter(alloc, body)
}

/// Goes after a line that is no PROC and no FUNCTION.
fn go_after(alloc: Global, line: &TypedLine, env: &mut UsageScope) -> Result<(), AllocError>
    requires { spec_is_body (head_of line.now).form ≡ false }
    ensures { OnOk result (env.new ≡ env.old ++ spec_added env.old (head_of line.now) (spec_under line.now) (items_of (spec_under line.now))) }
{
    match &line.adds {
        Some(entries) => enter_line(alloc, line.form.get(), &line.place, entries.as_slice(), env),
        None => Ok(()),
    }
}

/// Adds the uses of the lines under a line that is no PROC and no FUNCTION, as they are uses of the line, and what is reported
/// of them and of the line by the parallel rule.
#[cycle(walk)]
fn under_uses(
    alloc: Global,
    line: &TypedLine,
    env: &mut UsageScope,
    uses: &mut Items<Use>,
    reported: &mut Finding,
) -> Result<(), AllocError>
    requires { spec_is_body (head_of line.now).form ≡ false }
    ensures uses { OnOk result (uses.new ≡ uses.old ++ spec_under_uses (head_of line.now).form (head_of line.now).place (spec_joined (spec_components env.old (head_of line.now) (items_of (spec_under line.now))))) }
    ensures env { OnOk result (env.new ≡ env.old) }
    ensures parallel { OnOk result (reported.new.parallel ≡ reported.old.parallel ++ line_reported parallel_at env.old (head_of line.now) (spec_under line.now) (reported_of parallel_at (spec_under line.now))) }
    ensures abbreviations { OnOk result (reported.new.abbreviations ≡ reported.old.abbreviations ++ under_reported env.old (head_of line.now) (reported_of abbreviation_at (spec_under line.now))) }
{
    if is_replicated(line.form.get()) {
        let found = replicated_uses(alloc, line, env, reported)?;
        return append(uses, found);
    }
    add_judged(alloc, line, env, uses, reported)
}

/// Adds what a line uses itself, and what the abbreviation rule reports of that.
fn own_uses(
    alloc: Global,
    line: &TypedLine,
    env: &mut UsageScope,
    uses: &mut Items<Use>,
    faults: &mut Reported,
) -> Result<(), AllocError>
    ensures env { OnOk result (env.new ≡ env.old) }
    ensures uses { OnOk result (uses.new ≡ uses.old ++ spec_form_uses (head_of line.now).form env.old (head_of line.now).place) }
    ensures faults { OnOk result (faults.new ≡ faults.old ++ spec_line_faults (head_of line.now).form env.old (head_of line.now).place) }
{
    let form = line.form.get();
    let before = uses.len();
    form_uses(alloc, form, env.as_slice(), &line.place, uses)?;
    let (_, own) = uses.as_slice().split_at(before);
    line_faults(alloc, form, &line.place, own, env, faults)
}

/// A line with those under it: its uses, what comes into scope after it, and what is reported of them. A main line leaves what
/// stands in scope.
#[cycle(walk)]
pub(crate) fn line(
    alloc: Global,
    line: &TypedLine,
    env: &mut UsageScope,
    uses: &mut Items<Use>,
    reported: &mut Finding,
) -> Result<(), AllocError>
    ensures env { OnOk result (env.new ≡ env.old ++ spec_added env.old (head_of line.now) (spec_under line.now) (items_of (spec_under line.now))) }
    ensures uses { OnOk result (uses.new ≡ uses.old ++ spec_line_uses env.old (head_of line.now) (items_of (spec_under line.now))) }
    ensures parallel { OnOk result (reported.new.parallel ≡ reported.old.parallel ++ line_reported parallel_at env.old (head_of line.now) (spec_under line.now) (reported_of parallel_at (spec_under line.now))) }
    ensures abbreviations { OnOk result (reported.new.abbreviations ≡ reported.old.abbreviations ++ line_reported abbreviation_at env.old (head_of line.now) (spec_under line.now) (reported_of abbreviation_at (spec_under line.now))) }
{
    let mut faults = Reported::nothing(alloc);
    own_uses(alloc, line, env, uses, &mut faults)?;
    if is_body(line.form.get()) {
        return body_line(alloc, line, faults, env, reported);
    }
    under_uses(alloc, line, env, uses, reported)?;
    if !faults.is_empty() {
        reported.abbreviations.append(faults)?;
    }
    go_after(alloc, line, env)
}

/// A PROC or a FUNCTION of which the abbreviation rule reports this itself: what comes into scope after it, and what is
/// reported of the lines under it. Their uses are no uses of the line.
#[cycle(walk)]
fn body_line(
    alloc: Global,
    line: &TypedLine,
    own: Reported,
    env: &mut UsageScope,
    reported: &mut Finding,
) -> Result<(), AllocError>
    requires { spec_is_body (head_of line.now).form ≡ true }
    ensures env { OnOk result (env.new ≡ env.old ++ spec_added env.old (head_of line.now) (spec_under line.now) (items_of (spec_under line.now))) }
    ensures parallel { OnOk result (reported.new.parallel ≡ reported.old.parallel ++ line_reported parallel_at env.old (head_of line.now) (spec_under line.now) (reported_of parallel_at (spec_under line.now))) }
    ensures abbreviations { OnOk result (reported.new.abbreviations ≡ reported.old.abbreviations ++ (under_reported env.old (head_of line.now) (reported_of abbreviation_at (spec_under line.now)) ++ own)) }
{
    let mut uses = Items::new(alloc);
    add_judged(alloc, line, env, &mut uses, reported)?;
    reported.abbreviations.append(own)?;
    enter_body(alloc, line, uses, env)
}

/// Ends an item after its main line in what stands in scope: so many specifications stand round it.
fn end_scope(line: &TypedLine, depth: usize, env: &mut UsageScope)
    ensures { env.new ≡ (if ends_item (head_of line.now).adds then take depth env.old else env.old) }
{
    if line.adds.is_none() {
        env.cut(depth);
    }
}

/// Ends an item after its main line: so many specifications stand round it.
fn end_item(
    alloc: Global,
    line: &TypedLine,
    depth: usize,
    env: &mut UsageScope,
    own: &mut Items<Use>,
    found: &mut Vec<Items<Use>>,
) -> Result<(), AllocError>
    ensures env { OnOk result (env.new ≡ (if ends_item (head_of line.now).adds then take depth env.old else env.old)) }
    ensures own { OnOk result (own.new ≡ (if ends_item (head_of line.now).adds then [] else own.old)) }
    ensures found { OnOk result (found.new.items ≡ (if ends_item (head_of line.now).adds then found.old.items ++ own.old ∷ [] else found.old.items)) }
{
    if line.adds.is_some() {
        return Ok(());
    }
    env.cut(depth);
    found.push(std::mem::replace(own, Items::new(alloc)))?;
    Ok(())
}

/// The uses of each item of lines, and what is reported of them.
#[cycle(walk)]
fn items(
    alloc: Global,
    lines: &[TypedLine],
    env: &mut UsageScope,
    reported: &mut Finding,
) -> Result<Vec<Items<Use>>, AllocError>
    ensures found { IfOk result (λ found. found.items ≡ items_of (trees_of lines.now) env.old) }
    ensures env { OnOk result (env.new ≡ env.old) }
    ensures parallel { OnOk result (reported.new.parallel ≡ reported.old.parallel ++ reported_of parallel_at (trees_of lines.now) env.old) }
    ensures abbreviations { OnOk result (reported.new.abbreviations ≡ reported.old.abbreviations ++ reported_of abbreviation_at (trees_of lines.now) env.old) }
{
    let depth = env.len();
    let mut found = Vec::new(alloc);
    let mut own = Items::new(alloc);
    for one in lines {
        line(alloc, one, env, &mut own, reported)?;
        end_item(alloc, one, depth, env, &mut own, &mut found)?;
    }
    env.cut(depth);
    found.push(own)?;
    Ok(found)
}

/// Adds the uses of the items of lines, and what is reported of them.
#[cycle(walk)]
fn add_items(
    alloc: Global,
    lines: &[TypedLine],
    env: &mut UsageScope,
    uses: &mut Items<Use>,
    reported: &mut Finding,
) -> Result<(), AllocError>
    ensures uses { OnOk result (uses.new ≡ uses.old ++ spec_joined (items_of (trees_of lines.now) env.old)) }
    ensures env { OnOk result (env.new ≡ env.old) }
    ensures parallel { OnOk result (reported.new.parallel ≡ reported.old.parallel ++ reported_of parallel_at (trees_of lines.now) env.old) }
    ensures abbreviations { OnOk result (reported.new.abbreviations ≡ reported.old.abbreviations ++ reported_of abbreviation_at (trees_of lines.now) env.old) }
{
    let depth = env.len();
    for one in lines {
        line(alloc, one, env, uses, reported)?;
        end_scope(one, depth, env);
    }
    env.cut(depth);
    Ok(())
}

/// What is reported of lines, after the last of which stands in scope what is in scope then.
fn go_through(
    alloc: Global,
    lines: &[TypedLine],
    env: &mut UsageScope,
    reported: &mut Finding,
) -> Result<(), AllocError>
    ensures env { OnOk result (env.new ≡ after_lines (trees_of lines.now) env.old env.old) }
    ensures parallel { OnOk result (reported.new.parallel ≡ reported.old.parallel ++ reported_of parallel_at (trees_of lines.now) env.old) }
    ensures abbreviations { OnOk result (reported.new.abbreviations ≡ reported.old.abbreviations ++ reported_of abbreviation_at (trees_of lines.now) env.old) }
{
    let depth = env.len();
    for one in lines {
        go_over(alloc, one, depth, env, reported)?;
    }
    Ok(())
}

/// Whether the line is a `#USE` over no line, as nearly all are. Nothing is reported of it.
fn is_idle(line: &TypedLine) -> bool
    ensures body { IsTrue result → spec_is_body (head_of line.now).form ≡ false }
    ensures parallel { IsTrue result → (env : Env) → line_reported parallel_at env (head_of line.now) (spec_under line.now) (reported_of parallel_at (spec_under line.now)) ≡ [] }
    ensures abbreviations { IsTrue result → (env : Env) → line_reported abbreviation_at env (head_of line.now) (spec_under line.now) (reported_of abbreviation_at (spec_under line.now)) ≡ [] }
{
    match line.form.get() {
        TypedForm::Uses(_) => line.under.is_empty(),
        _ => false,
    }
}

/// What is reported of a line with those under it, and what comes into scope after it.
fn outer_line(
    alloc: Global,
    one: &TypedLine,
    env: &mut UsageScope,
    reported: &mut Finding,
) -> Result<(), AllocError>
    ensures env { OnOk result (env.new ≡ env.old ++ spec_added env.old (head_of one.now) (spec_under one.now) (items_of (spec_under one.now))) }
    ensures parallel { OnOk result (reported.new.parallel ≡ reported.old.parallel ++ line_reported parallel_at env.old (head_of one.now) (spec_under one.now) (reported_of parallel_at (spec_under one.now))) }
    ensures abbreviations { OnOk result (reported.new.abbreviations ≡ reported.old.abbreviations ++ line_reported abbreviation_at env.old (head_of one.now) (spec_under one.now) (reported_of abbreviation_at (spec_under one.now))) }
{
    if is_idle(one) {
        return go_after(alloc, one, env);
    }
    let mut uses = Items::new(alloc);
    line(alloc, one, env, &mut uses, reported)
}

/// What is reported of a line with those under it, after which stands in scope what is in scope then: so many specifications stand
/// round its item.
pub(crate) fn go_over(
    alloc: Global,
    one: &TypedLine,
    depth: usize,
    env: &mut UsageScope,
    reported: &mut Finding,
) -> Result<(), AllocError>
    ensures env { OnOk result (depth ≤ length env.old → env.new ≡ after_line (take depth env.old) env.old (head_of one.now) (spec_under one.now)) }
    ensures parallel { OnOk result (reported.new.parallel ≡ reported.old.parallel ++ line_reported parallel_at env.old (head_of one.now) (spec_under one.now) (reported_of parallel_at (spec_under one.now))) }
    ensures abbreviations { OnOk result (reported.new.abbreviations ≡ reported.old.abbreviations ++ line_reported abbreviation_at env.old (head_of one.now) (spec_under one.now) (reported_of abbreviation_at (spec_under one.now))) }
{
    outer_line(alloc, one, env, reported)?;
    if one.adds.is_none() {
        env.cut(depth);
    }
    Ok(())
}

/// What the rules of uses that are said line by line report of a unit, and what stands in scope after its last line.
#[derive(Drop)]
pub struct UnitUses {
    /// What the parallel rule reports, in no order, some perhaps more than once.
    pub parallel: Items<Diag>,
    /// What the abbreviation rule reports: an error or a check, never both.
    pub abbreviations: Items<Diag>,
    pub bounds: Items<Bound>,
}

/// What the parallel rule and the abbreviation rule report of a unit, and what stands in scope after its last line.
pub fn unit_uses(alloc: Global, typed: &Typed) -> Result<UnitUses, AllocError>
    ensures parallel { IfOk result (λ found. found.parallel ≡ parallel_faults typed.now.lines) }
    ensures abbreviations { IfOk result (λ found. found.abbreviations ≡ abbreviation_faults typed.now.lines) }
    ensures bounds { IfOk result (λ found. found.bounds ≡ after_unit typed.now.lines) }
{
    let mut env = UsageScope::new(alloc);
    let mut reported = Finding::nothing(alloc);
    go_through(alloc, typed.lines.as_slice(), &mut env, &mut reported)?;
    let Finding {
        parallel,
        abbreviations,
    } = reported;
    let abbreviations = graver(alloc, abbreviations)?;
    Ok(UnitUses {
        parallel,
        abbreviations,
        bounds: env.into_bounds(),
    })
}

/// What the parallel rule reports of a unit, in no order, some perhaps more than once.
pub fn par_faults(alloc: Global, typed: &Typed) -> Result<Items<Diag>, AllocError>
    ensures { IfOk result (λ faults. faults ≡ parallel_faults typed.now.lines) }
{
    Ok(unit_uses(alloc, typed)?.parallel)
}

/// What the abbreviation rule reports of a unit, in no order: an error or a check, never both.
pub fn alias_faults(alloc: Global, typed: &Typed) -> Result<Items<Diag>, AllocError>
    ensures { IfOk result (λ faults. faults ≡ abbreviation_faults typed.now.lines) }
{
    Ok(unit_uses(alloc, typed)?.abbreviations)
}
