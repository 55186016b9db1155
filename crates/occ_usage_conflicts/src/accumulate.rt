//! Accumulates the uses of a PAR, component by component: for each root and kind the parts so far, and which rules are
//! broken.
ghost use Rattle.std.specs.Prelude.{◌≡◌, ◌++◌, ◌∷◌, [], IfOk, List, OnOk, false, length};
ghost use Rattle.occ_usage_values.specs.declared.uses.Use.{Use as AUse};
ghost use Rattle.occ_usage_conflicts.specs.Components.{joined, parted};
ghost use Rattle.occ_usage_conflicts.specs.inside.Accumulating.{Adds, IsTable, breaks as spec_breaks, judged, judged_by, judged_in};

use super::accumulated::Accumulated;
use super::rule::Rule;
use occ_base::Items;
use occ_types::{PartSelector, UseKind};
use occ_usage_values::Use;
use std::alloc::{AllocError, Global};

/// How the components so far use one root: the parts that they use, by the kind of use, and which rules they break.
#[derive(Drop)]
pub struct RootUses {
    reads: Accumulated,
    writes: Accumulated,
    inputs: Accumulated,
    outputs: Accumulated,
    pub(crate) breaks_written: bool,
    pub(crate) breaks_input: bool,
    pub(crate) breaks_output: bool,
}

impl RootUses {
    /// No use.
    fn none(alloc: Global) -> RootUses
        ensures { result ≡ record { reads = []; writes = []; inputs = []; outputs = []; breaks_written = false; breaks_input = false; breaks_output = false } }
    {
        RootUses {
            reads: Accumulated::none(alloc),
            writes: Accumulated::none(alloc),
            inputs: Accumulated::none(alloc),
            outputs: Accumulated::none(alloc),
            breaks_written: false,
            breaks_input: false,
            breaks_output: false,
        }
    }

    /// Whether a use of a part breaks a rule with one of the uses so far.
    fn breaks(&self, rule: Rule, kind: UseKind, part: &[PartSelector]) -> bool
        ensures { result ≡ spec_breaks rule self.now kind part.now }
    {
        match (rule, kind) {
            (Rule::Written, UseKind::Write) => { self.reads.meets(part) || self.writes.meets(part) }
            (Rule::Written, UseKind::Read) => self.writes.meets(part),
            (Rule::Input, UseKind::Input) => self.inputs.meets(part),
            (Rule::Output, UseKind::Output) => self.outputs.meets(part),
            _ => false,
        }
    }

    /// Finds which rules a use of a part breaks.
    fn judge(&mut self, kind: UseKind, part: &[PartSelector])
        ensures { self.new ≡ judged self.old kind part.now }
    {
        self.breaks_written = self.breaks_written || self.breaks(Rule::Written, kind, part);
        self.breaks_input = self.breaks_input || self.breaks(Rule::Input, kind, part);
        self.breaks_output = self.breaks_output || self.breaks(Rule::Output, kind, part);
    }

    /// From now on a part is used.
    fn add(&mut self, alloc: Global, kind: UseKind, part: &[PartSelector]) -> Result<(), AllocError>
        ensures { OnOk result (Adds kind part.now self.old self.new) }
    {
        match kind {
            UseKind::Read => self.reads.add(alloc, part),
            UseKind::Write => self.writes.add(alloc, part),
            UseKind::Input => self.inputs.add(alloc, part),
            UseKind::Output => self.outputs.add(alloc, part),
        }
    }
}

/// Finds which rules a use breaks.
fn judge_use(one: &Use, table: &mut Vec<RootUses>)
    ensures { table.new.items ≡ judged_in table.old.items one.now }
{
    if let Some(root) = table.get_mut(one.part.root) {
        root.judge(one.kind, one.part.selectors.as_slice());
    }
}

/// Finds which rules the uses of a component break with those of the components before it.
fn judge(component: &[Use], table: &mut Vec<RootUses>)
    ensures { table.new.items ≡ judged_by table.old.items component.now }
{
    for one in component {
        judge_use(one, table);
    }
}

/// From now on a part is used.
fn add_use(alloc: Global, one: &Use, table: &mut Vec<RootUses>) -> Result<(), AllocError>
    ensures { OnOk result ((length table.new.items ≡ length table.old.items) × ((reported : List (List AUse)) (accumulated : List AUse) → IsTable reported accumulated table.old.items → IsTable reported (accumulated ++ one.now ∷ []) table.new.items)) }
{
    if let Some(root) = table.get_mut(one.part.root) {
        root.add(alloc, one.kind, one.part.selectors.as_slice())?;
    }
    Ok(())
}

/// From now on the parts of a component are used.
fn add(alloc: Global, component: &[Use], table: &mut Vec<RootUses>) -> Result<(), AllocError>
    ensures { OnOk result ((length table.new.items ≡ length table.old.items) × ((reported : List (List AUse)) (accumulated : List AUse) → IsTable reported accumulated table.old.items → IsTable reported (accumulated ++ component.now) table.new.items)) }
{
    for one in component {
        add_use(alloc, one, table)?;
    }
    Ok(())
}

/// One component more.
fn step(alloc: Global, component: &[Use], table: &mut Vec<RootUses>) -> Result<(), AllocError>
    ensures { OnOk result ((length table.new.items ≡ length table.old.items) × ((seen : List (List AUse)) → IsTable seen (joined seen) table.old.items → IsTable (seen ++ component.now ∷ []) (joined (seen ++ component.now ∷ [])) table.new.items)) }
{
    judge(component, table);
    add(alloc, component, table)
}

/// No use, of so many roots.
fn none(alloc: Global, count: usize) -> Result<Vec<RootUses>, AllocError>
    ensures { IfOk result (λ table. (length table.items ≡ count) × IsTable [] [] table.items) }
{
    let mut table = Vec::new(alloc);
    for _made in 0..count {
        table.push(RootUses::none(alloc))?;
    }
    Ok(table)
}

/// How components use each of so many roots.
pub(crate) fn root_uses(
    alloc: Global,
    count: usize,
    components: &[Items<Use>],
) -> Result<Vec<RootUses>, AllocError>
    ensures { IfOk result (λ table. (length table.items ≡ count) × IsTable components.now (joined components.now) table.items) }
{
    let mut table = none(alloc, count)?;
    for component in components {
        step(alloc, component.as_slice(), &mut table)?;
    }
    Ok(table)
}

/// How components use each of so many roots: their uses stand one after the other, so many in each.
pub(crate) fn parted_root_uses(
    alloc: Global,
    count: usize,
    uses: &[Use],
    sizes: &[usize],
) -> Result<Vec<RootUses>, AllocError>
    ensures { IfOk result (λ table. (length table.items ≡ count) × IsTable (parted sizes.now uses.now) (joined (parted sizes.now uses.now)) table.items) }
{
    let mut roots = none(alloc, count)?;
    let mut rest = uses;
    for size in sizes {
        let (component, following) = rest.split_at((*size).min(rest.len()));
        step(alloc, component, &mut roots)?;
        rest = following;
    }
    Ok(roots)
}

/// What two components that both use this use of each root, and what they have in common there.
pub(crate) fn twice_root_uses(
    alloc: Global,
    count: usize,
    uses: &[Use],
) -> Result<Vec<RootUses>, AllocError>
    ensures { IfOk result (λ table. (length table.items ≡ count) × IsTable (uses.now ∷ uses.now ∷ []) (joined (uses.now ∷ uses.now ∷ [])) table.items) }
{
    let mut roots = none(alloc, count)?;
    step(alloc, uses, &mut roots)?;
    step(alloc, uses, &mut roots)?;
    Ok(roots)
}
