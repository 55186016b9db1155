//! A job: a unit with exactly the files that it reads and the units that it uses. In contracts it is that input.
ghost use Rattle.std.specs.Option.{is_some};
ghost use Rattle.std.specs.Prelude.{◌≡◌, ◌↔◌, Err, false, IfOk, IsErrOf, IsTrue, map};
ghost use Rattle.occ_check.specs.Input.{HasReads, HasUsed, IsInput, is_present};
ghost use Rattle.occ_check.specs.Ordered.{ordered};
ghost use Rattle.occ_check.specs.declared.job.JobFault.TheVariants as fault;
ghost use Rattle.occ_project.specs.Reads.{open_lines};

use super::ordered::ordered as in_order;
use super::used::UsedUnit;
use occ_base::{FileName, Items};
use occ_project::{Read, Reads, expand_over, used_units};
use std::alloc::{AllocError, Global};
use std::marker::Model;
use thiserror::Error;

/// Why there is no such job. Where several hold, the first of this order is reported.
#[derive(Clone, Copy, Debug, Error)]
pub enum JobFault {
    /// The file is no unit, it is not open, or the names of the reads are not exactly those that its expansion looks
    /// up, in order.
    #[error("the reads are not those of the unit")]
    Reads,
    /// The names of the used units are not exactly those that the unit uses, in order of name.
    #[error("the used units are not those of the unit")]
    Used,
    /// Memory was refused.
    #[error("out of memory")]
    Memory,
}

impl From<AllocError> for JobFault {
    ghost from_gives = { λ _ e. e ≡ fault.Memory };

    fn from(_error: AllocError) -> JobFault {
        JobFault::Memory
    }
}

/// The check of a unit that is to be made: in contracts what it looks at.
pub struct Job {
    unit: FileName,
    reads: Reads,
    used: Items<UsedUnit>,
}

/// Written out: crates above call it, where each would prove a derived one anew.
impl Drop for Job {
    fn drop(self) {
        let Job {
            unit: _,
            reads: _,
            used: _,
        } = self;
    }
}

impl Model for Job {
    ghost use Rattle.occ_forms_expressions.specs.contracts.tree.Builtin as builtins;
    ghost use Rattle.occ_forms_expressions.specs.contracts.tree.Dimension as dimensions;
    ghost use Rattle.occ_forms_expressions.specs.contracts.tree.Element as elements;
    ghost use Rattle.occ_forms_expressions.specs.contracts.tree.Expr as expressions;
    ghost use Rattle.occ_forms_expressions.specs.contracts.tree.TypeForm as type_forms;
    ghost use Rattle.occ_types.specs.contracts.types.OccType as types;
    ghost use Rattle.occ_check.specs.Input.{Input, IsInput};
    ghost use Rattle.std.specs.Coded.{codes};

    ghost Value = { Input };

    ghost coded = { Prim.hlevel (codes, builtins.the_row.coded, dimensions.the_row.coded, elements.the_row.coded, expressions.the_row.coded, type_forms.the_row.coded, types.the_row.coded) };

    ghost view = { λ a. record { unit = a.unit; reads = a.reads; used = a.used } };

    ghost invariant = { λ a. IsInput (record { unit = a.unit; reads = a.reads; used = a.used }) };
}

/// Whether the names are those of the reads, in order.
fn are_names(reads: &[Read], names: &[FileName]) -> bool
    ensures { IsTrue result ↔ (map (λ r. r.name) reads.now ≡ names.now) }
{
    if reads.len() != names.len() {
        return false;
    }
    for i in 0..reads.len() {
        if reads[i].name != names[i] {
            return false;
        }
    }
    true
}

/// Whether the names are those of the used units, in order.
fn are_units(used: &[UsedUnit], names: &[FileName]) -> bool
    ensures { IsTrue result ↔ (map (λ u. u.unit) used.now ≡ names.now) }
{
    if used.len() != names.len() {
        return false;
    }
    for i in 0..used.len() {
        if used[i].unit != names[i] {
            return false;
        }
    }
    true
}

/// Whether the file of that name is open, by the first read of that name.
fn is_open(reads: &[Read], name: FileName) -> bool
    ensures { result ≡ is_some (open_lines reads.now name) }
{
    for read in reads {
        if read.name == name {
            return read.source.is_some();
        }
    }
    false
}

impl Job {
    /// The job that looks at these, which stand in its input as they are given; but of each export of a used unit the uses stand in
    /// the order of their codes, each once, so that it does not matter how they are given.
    pub fn new(
        alloc: Global,
        unit: FileName,
        reads: Reads,
        used: Items<UsedUnit>,
    ) -> Result<Job, JobFault>
        ensures given { IfOk result (λ job. job ≡ record { unit = unit; reads = reads; used = map ordered used }) }
        ensures accepted { IfOk result (λ job. IsInput job) }
        ensures closed { is_present (record { unit = unit; reads = reads; used = used }) ≡ false → result ≡ Err fault.Reads }
        ensures reads { IsErrOf result fault.Reads → HasReads (record { unit = unit; reads = reads; used = used }) → ⊥ }
        ensures used { IsErrOf result fault.Used → HasReads (record { unit = unit; reads = reads; used = used }) × (HasUsed (record { unit = unit; reads = reads; used = used }) → ⊥) }
    {
        if !unit.is_unit() || !is_open(reads.as_slice(), unit) {
            return Err(JobFault::Reads);
        }
        let expanded = expand_over(alloc, &reads, unit)?;
        if !are_names(reads.as_slice(), expanded.reads()) {
            return Err(JobFault::Reads);
        }
        let units = used_units(alloc, expanded.lines())?;
        if !are_units(used.as_slice(), units.as_slice()) {
            return Err(JobFault::Used);
        }
        let used = in_order(alloc, used.as_slice())?;
        Ok(Job { unit, reads, used })
    }

    /// The job that looks at these, of which it is known that there is one.
    pub fn of(unit: FileName, reads: Reads, used: Items<UsedUnit>) -> Job
        requires { IsInput (record { unit = unit; reads = reads; used = used }) }
        ensures { result ≡ record { unit = unit; reads = reads; used = used } }
    {
        Job { unit, reads, used }
    }

    /// The unit that is checked.
    pub fn unit(&self) -> FileName
        ensures value { result ≡ self.now.unit }
        ensures input { IsInput self.now }
    {
        self.unit
    }

    /// The files that its expansion looks up, in the order of their first look-ups.
    pub fn reads(&self) -> &Reads
        ensures { result.now ≡ self.now.reads }
    {
        &self.reads
    }

    /// The units that it uses, in order of name, and how each stands.
    pub fn used(&self) -> &[UsedUnit]
        ensures { result.now ≡ self.now.used }
    {
        self.used.as_slice()
    }
}
