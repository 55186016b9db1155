//! Of each file the indices of the others that read it, which are few: most units read themselves alone.
ghost use Rattle.occ_project_units.specs.Indices.{readers_at};
ghost use Rattle.occ_project_units.specs.inside.Keeping.{AreReaders, all_facts as spec_all_facts, others as spec_others};
ghost use Rattle.std.specs.List.{AllByRecursion};
ghost use Rattle.std.specs.Prelude.{IfOk, List, Some, drop, length, ℕ, ◌++◌, ◌∷◌, ◌≡◌, ◌<◌};

use super::facts::{Facts, indices_of};
use super::project::Project;
use occ_base::{FileName, Items, Shared};
use occ_project_graph::{add_sources, no_sources};
use std::alloc::{AllocError, Global};

/// What a file reads behind its own name, which comes first.
fn but_itself(reads: &[FileName]) -> &[FileName]
    ensures { result.now ≡ drop 1 reads.now }
{
    match reads.split_first() {
        Some((_own, others)) => others,
        None => reads,
    }
}

/// Of each file the indices of the others that read it.
pub fn find_readers(
    alloc: Global,
    project: &Project,
    facts: &[Shared<Facts>],
) -> Result<Items<Items<usize>>, AllocError>
    requires { facts.now ≡ spec_all_facts project.now }
    ensures { IfOk result (λ rows. AreReaders project.now (Some rows)) }
{
    let mut rows = no_sources(alloc, project.files().len())?;
    for (index, known) in facts.iter().enumerate() {
        let others = but_itself(known.get().reads.as_slice());
        let nodes = indices_of(alloc, project, index, None, others)?;
        add_sources(&mut rows, nodes.as_slice(), index)?;
    }
    Ok(Items::from_vec(rows))
}

/// An index among others that rise.
fn with_index(alloc: Global, others: &[usize], index: usize) -> Result<Items<usize>, AllocError>
    ensures { IfOk result (λ all. (before behind : List ℕ) → others.now ≡ before ++ behind → AllByRecursion (λ p. p < index) before → AllByRecursion (λ p. index < p) behind → all ≡ before ++ index ∷ behind) }
{
    let (before, behind) = others.split_at(others.partition_point(|other| *other < index));
    let mut all = Vec::with_capacity(alloc, others.len().saturating_add(1))?;
    all.extend_from_slice(before)?;
    all.push(index)?;
    all.extend_from_slice(behind)?;
    Ok(Items::from_vec(all))
}

/// The indices of the units that read the file at an index, in order, by those of the others that do: it reads itself if it is a unit.
pub fn with_itself(
    alloc: Global,
    project: &Project,
    others: &[usize],
    index: usize,
) -> Result<Items<usize>, AllocError>
    requires within { index < length project.now }
    requires others { others.now ≡ spec_others index (readers_at project.now index) }
    ensures { IfOk result (λ readers. readers ≡ readers_at project.now index) }
{
    let _files = project.files();
    if project.name_at(index).is_unit() {
        with_index(alloc, others, index)
    } else {
        Items::from_slice(alloc, others)
    }
}
