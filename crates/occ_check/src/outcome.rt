//! The check of a job. An outcome has, by its type, the diagnostics and the interface that the rules give for its input.
ghost use Rattle.std.specs.Option.{option_copied};
ghost use Rattle.std.specs.Prelude.{◌≡◌, if◌then◌else◌, IfErr, IfOk, None};
ghost use Rattle.occ_base.specs.Errors.{has_error as spec_has_error};
ghost use Rattle.occ_check.specs.Diagnostics.{diags_of, interface_of, judged as spec_judged};
ghost use Rattle.occ_check.specs.Input.{expansion_in};

use super::faults::find_line_faults;
use super::job::Job;
use super::language::{Judgement, judge};
use super::order::in_order;
use occ_base::{Diag, Items, Shared, has_error};
use occ_project::expanded_lines;
use occ_types::Interface;
use std::alloc::{AllocError, Global};
use std::marker::Model;

/// What the check of a job gave: in contracts what the job looks at, which decides all the rest.
pub struct Outcome {
    job: Job,
    /// Shared, since a job with the same lines has the same.
    diags: Shared<Items<Diag>>,
    interface: Option<Shared<Interface>>,
}

/// Written out: crates above call it, where each would prove a derived one anew.
impl Drop for Outcome {
    fn drop(self) {
        let Outcome {
            job: _,
            diags: _,
            interface: _,
        } = self;
    }
}

impl Model for Outcome {
    ghost use Rattle.std.specs.Prelude.{◌≡◌};
    ghost use Rattle.occ_forms_expressions.specs.contracts.tree.Builtin as builtins;
    ghost use Rattle.occ_forms_expressions.specs.contracts.tree.Dimension as dimensions;
    ghost use Rattle.occ_forms_expressions.specs.contracts.tree.Element as elements;
    ghost use Rattle.occ_forms_expressions.specs.contracts.tree.Expr as expressions;
    ghost use Rattle.occ_forms_expressions.specs.contracts.tree.TypeForm as type_forms;
    ghost use Rattle.occ_types.specs.contracts.types.OccType as types;
    ghost use Rattle.occ_check.specs.Input.{Input};
    ghost use Rattle.std.specs.Coded.{codes};

    ghost Value = { Input };

    ghost coded = { Prim.hlevel (codes, builtins.the_row.coded, dimensions.the_row.coded, elements.the_row.coded, expressions.the_row.coded, type_forms.the_row.coded, types.the_row.coded) };

    ghost use Rattle.occ_base.specs.Errors.{has_error as spec_has_error};
    ghost use Rattle.occ_check.specs.Diagnostics.{diags_of, interface_of};

    ghost view = { λ o. o.job };

    ghost invariant = { λ o. (o.diags ≡ diags_of o.job) × (o.interface ≡ interface_of o.job) };
}

impl Outcome {
    /// The job that was checked.
    pub fn job(&self) -> &Job
        ensures { result.now ≡ self.now }
    {
        &self.job
    }

    /// The diagnostics of the unit, in their order, each once.
    pub fn diags(&self) -> &[Diag]
        ensures { result.now ≡ diags_of self.now }
    {
        self.diags.get().as_slice()
    }

    /// The same, to be shared.
    pub fn shared_diags(&self) -> &Shared<Items<Diag>>
        ensures { result.now ≡ diags_of self.now }
    {
        &self.diags
    }

    /// What the unit shows to those that use it, if it has no diagnostic of the grade error.
    pub fn interface(&self) -> Option<&Shared<Interface>>
        ensures { option_copied result ≡ interface_of self.now }
    {
        self.interface.as_ref()
    }

    /// What the rules give for its job, to be shared.
    fn share_parts(&self) -> Result<OutcomeParts, AllocError>
        ensures diags { IfOk result (λ parts. parts.0 ≡ diags_of self.now) }
        ensures interface { IfOk result (λ parts. parts.1 ≡ interface_of self.now) }
    {
        let diags = self.diags.share()?;
        let interface = match &self.interface {
            Some(interface) => Some(interface.share()?),
            None => None,
        };
        Ok((diags, interface))
    }

    /// The outcome of a job that has the same expansion as the one of this outcome, and uses the same units. Where the count of
    /// owners is full the job comes back.
    pub fn again(&self, job: Job) -> Result<Outcome, (Job, AllocError)>
        requires expansion { expansion_in job ≡ expansion_in self.now }
        requires used { job.used ≡ self.now.used }
        ensures ok { IfOk result (λ outcome. outcome ≡ job) }
        ensures err { IfErr result (λ refused. refused.0 ≡ job) }
    {
        match self.share_parts() {
            Ok((diags, interface)) => Ok(Outcome {
                job,
                diags,
                interface,
            }),
            Err(refused) => Err((job, refused)),
        }
    }
}

/// Diagnostics and an interface.
type OutcomeParts = (Shared<Items<Diag>>, Option<Shared<Interface>>);

/// What is reported of the files of the unit, of its lines and of the units that it uses, if anything is; else what the
/// language says.
#[tactic(auto, using(crate::proofs::Firsts::first_is_all))]
fn judged(alloc: Global, job: &Job) -> Result<Judgement, AllocError>
    ensures { IfOk result (λ judgement. judgement ≡ spec_judged job.now) }
{
    let (lines, mut faults) = expanded_lines(alloc, job.reads(), job.unit())?;
    find_line_faults(alloc, job.used(), lines.as_slice(), &mut faults)?;
    if faults.is_empty() {
        judge(alloc, lines, job.used())
    } else {
        Ok(Judgement::of_faults(faults))
    }
}

/// The interface, unless there is an error; others may then have it too.
fn shown(
    alloc: Global,
    diags: &[Diag],
    interface: Option<Interface>,
) -> Result<Option<Shared<Interface>>, AllocError>
    ensures { IfOk result (λ shown. shown ≡ (if spec_has_error diags.now then None else interface)) }
{
    match interface {
        Some(interface) if !has_error(diags) => Ok(Some(Shared::new(alloc, interface)?)),
        _ => Ok(None),
    }
}

/// What the rules give for a job.
#[tactic(auto, unfolding(crate::specs::Diagnostics::diags_of, crate::specs::Diagnostics::interface_of))]
fn outcome_parts(alloc: Global, job: &Job) -> Result<OutcomeParts, AllocError>
    ensures diags { IfOk result (λ parts. parts.0 ≡ diags_of job.now) }
    ensures interface { IfOk result (λ parts. parts.1 ≡ interface_of job.now) }
{
    let Judgement { faults, interface } = judged(alloc, job)?;
    let diags = in_order(alloc, faults)?;
    let interface = shown(alloc, diags.as_slice(), interface)?;
    Ok((Shared::new(alloc, diags)?, interface))
}

/// Checks a job. Where memory is refused the job comes back.
pub fn check(alloc: Global, job: Job) -> Result<Outcome, (Job, AllocError)>
    ensures ok { IfOk result (λ outcome. outcome ≡ job) }
    ensures err { IfErr result (λ refused. refused.0 ≡ job) }
{
    match outcome_parts(alloc, &job) {
        Ok((diags, interface)) => Ok(Outcome {
            job,
            diags,
            interface,
        }),
        Err(refused) => Err((job, refused)),
    }
}
