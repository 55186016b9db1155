//! What the rules of uses report of lines, and of the rounds of a replicator: of these each diagnostic once.
ghost use Rattle.std.specs.Prelude.{◌≡◌, ◌++◌, [], OnOk};
ghost use Rattle.occ_base.specs.Order.{diag_order, placed};

use occ_alias::{Reported, Run};
use occ_base::{Diag, Items};
use std::alloc::{AllocError, Global};
use std::collections::BTreeSet;

/// What the rules of uses report of lines, in no order, some perhaps more than once.
#[derive(Drop)]
pub(crate) struct Finding {
    /// What the parallel rule reports.
    pub(crate) parallel: Items<Diag>,
    /// What the abbreviation rule reports, with both grades.
    pub(crate) abbreviations: Reported,
}

/// What the rules of uses report of rounds, each once.
#[derive(Drop)]
pub(crate) struct Told {
    /// What the parallel rule reports.
    parallel: BTreeSet<Diag>,
    /// What the abbreviation rule reports, with both grades.
    abbreviations: BTreeSet<Diag>,
}

/// Puts diagnostics to those that are told.
#[tactic(auto, using(occ_base::proofs::Placed::placed_last))]
fn tell(mut found: Items<Diag>, told: &mut BTreeSet<Diag>) -> Result<(), AllocError>
    ensures { OnOk result (told.new.keys ≡ placed diag_order found told.old.keys) }
{
    while let Some(diag) = found.pop() {
        told.insert(diag)?;
    }
    Ok(())
}

/// Puts diagnostics to those that are told: one that comes several times in a row is put once.
fn tell_runs(mut found: Reported, told: &mut BTreeSet<Diag>) -> Result<(), AllocError>
    ensures { OnOk result (told.new.keys ≡ placed diag_order found told.old.keys) }
{
    while let Some(run) = found.pop() {
        told.insert(run.diag)?;
    }
    Ok(())
}

/// Adds what is told.
fn add_told(alloc: Global, told: BTreeSet<Diag>, all: &mut Items<Diag>) -> Result<(), AllocError>
    ensures { OnOk result (all.new ≡ all.old ++ told.keys) }
{
    if told.is_empty() {
        return Ok(());
    }
    let diags = told.into_iter().collect(alloc)?;
    all.append(Items::from_vec(diags))
}

/// Reports each of these.
fn report_each(diags: Vec<Diag>, all: &mut Reported) -> Result<(), AllocError>
    ensures { OnOk result (all.new ≡ all.old ++ diags.items) }
{
    for diag in diags {
        all.push_run(Run { diag, more: 0 })?;
    }
    Ok(())
}

/// Reports what is told.
fn report_told(alloc: Global, told: BTreeSet<Diag>, all: &mut Reported) -> Result<(), AllocError>
    ensures { OnOk result (all.new ≡ all.old ++ told.keys) }
{
    if told.is_empty() {
        return Ok(());
    }
    report_each(told.into_iter().collect(alloc)?, all)
}

impl Finding {
    /// Nothing is reported.
    pub(crate) fn nothing(alloc: Global) -> Finding
        ensures { result ≡ record { parallel = []; abbreviations = [] } }
    {
        Finding {
            parallel: Items::new(alloc),
            abbreviations: Reported::nothing(alloc),
        }
    }

    /// What is told of rounds is reported, too.
    pub(crate) fn report(&mut self, alloc: Global, told: Told) -> Result<(), AllocError>
        ensures parallel { OnOk result (self.new.parallel ≡ self.old.parallel ++ told.parallel.keys) }
        ensures abbreviations { OnOk result (self.new.abbreviations ≡ self.old.abbreviations ++ told.abbreviations.keys) }
    {
        let Told {
            parallel,
            abbreviations,
        } = told;
        add_told(alloc, parallel, &mut self.parallel)?;
        report_told(alloc, abbreviations, &mut self.abbreviations)
    }
}

impl Told {
    /// Nothing is told.
    pub(crate) fn nothing(alloc: Global) -> Told
        ensures parallel { result.parallel.keys ≡ [] }
        ensures abbreviations { result.abbreviations.keys ≡ [] }
    {
        Told {
            parallel: BTreeSet::new(alloc),
            abbreviations: BTreeSet::new(alloc),
        }
    }

    /// What is reported of one round more is told, too.
    pub(crate) fn add(&mut self, found: Finding) -> Result<(), AllocError>
        ensures parallel { OnOk result (self.new.parallel.keys ≡ placed diag_order found.parallel self.old.parallel.keys) }
        ensures abbreviations { OnOk result (self.new.abbreviations.keys ≡ placed diag_order found.abbreviations self.old.abbreviations.keys) }
    {
        let Finding {
            parallel,
            abbreviations,
        } = found;
        tell(parallel, &mut self.parallel)?;
        tell_runs(abbreviations, &mut self.abbreviations)
    }
}
