//! Copies of a job and of a base, which share their texts and all that the job looks at.
ghost use Rattle.std.specs.Prelude.{◌≡◌, IfOk};

use super::base::Base;
use occ_base::Items;
use occ_check::{Job, Used, UsedUnit};
use occ_project::{Read, Reads};
use occ_project_units::share;
use std::alloc::{AllocError, Global};

/// The same reads.
fn copied_reads(alloc: Global, reads: &[Read]) -> Result<Reads, AllocError>
    ensures { IfOk result (λ copies. copies ≡ reads.now) }
{
    let mut copies = Items::new(alloc);
    for read in reads {
        copies.push(share(read)?)?;
    }
    Ok(copies)
}

/// The same base, which shares its texts.
pub fn copied_base(alloc: Global, base: &Base) -> Result<Base, AllocError>
    ensures { IfOk result (λ copy. copy ≡ base.now) }
{
    Ok(Base {
        number: base.number,
        files: base.files.share(alloc)?,
    })
}

/// How a unit is used, which shares what it shows.
fn copied_use(used: &Used) -> Result<Used, AllocError>
    ensures { IfOk result (λ copy. copy ≡ used.now) }
{
    match used {
        Used::Absent => Ok(Used::Absent),
        Used::Circular => Ok(Used::Circular),
        Used::Faulty => Ok(Used::Faulty),
        Used::Clean(shown) => Ok(Used::Clean(shown.share()?)),
    }
}

/// The same used unit.
fn copied_unit(one: &UsedUnit) -> Result<UsedUnit, AllocError>
    ensures { IfOk result (λ copy. copy ≡ one.now) }
{
    Ok(UsedUnit {
        unit: one.unit,
        used: copied_use(&one.used)?,
    })
}

/// The same used units.
fn copied_units(alloc: Global, used: &[UsedUnit]) -> Result<Items<UsedUnit>, AllocError>
    ensures { IfOk result (λ copies. copies ≡ used.now) }
{
    let mut copies = Items::new(alloc);
    for one in used {
        copies.push(copied_unit(one)?)?;
    }
    Ok(copies)
}

/// The same job, which shares what it looks at.
pub fn copied_job(alloc: Global, job: &Job) -> Result<Job, AllocError>
    ensures { IfOk result (λ copy. copy ≡ job.now) }
{
    let unit = job.unit();
    let reads = copied_reads(alloc, job.reads().as_slice())?;
    let used = copied_units(alloc, job.used())?;
    Ok(Job::of(unit, reads, used))
}
