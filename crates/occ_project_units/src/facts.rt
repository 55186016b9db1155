//! What is cached of each file: its reads, its used units, and their indices. Hints at indices cost time if they are
//! wrong, and no answer.
ghost use Rattle.occ_project_units.specs.Indices.{indices_of as spec_indices_of};
ghost use Rattle.occ_project.specs.Entries.{is_among};
ghost use Rattle.occ_project.specs.Reads.{index as spec_index};
ghost use Rattle.occ_project_units.specs.inside.Keeping.{facts_of as spec_facts_of};
ghost use Rattle.std.specs.Prelude.{[], map, IfOk, OnOk, ◌++◌, ◌∷◌, ◌≡◌};

use super::ordering::Ordered;
use super::project::Project;
use super::skimming::skim;
use occ_base::{FileName, Items, Shared};
use occ_project_graph::{Linked, Nodes};
use std::alloc::{AllocError, Global};

/// Whether the name is one of these.
pub fn is_name_among(names: &[FileName], name: FileName) -> bool
    ensures { result ≡ is_among names.now name }
{
    names.iter().any(|other| *other == name)
}

/// What is known of a file of a project. A file that is no unit reads and uses nothing.
pub struct Facts {
    /// The names that its expansion looks up.
    pub reads: Items<FileName>,
    /// The units that it uses, in order of name. Units that use the same share them.
    pub uses: Shared<Items<FileName>>,
}

/// Written out: crates above call it, where each would prove a derived one anew.
impl Drop for Facts {
    fn drop(self) {
        let Facts { reads: _, uses: _ } = self;
    }
}

/// Whether a file reads that one.
pub fn does_read(facts: &Facts, name: FileName) -> bool
    ensures { result ≡ is_among facts.now.reads name }
{
    is_name_among(facts.reads.as_slice(), name)
}

/// What is known of the file of that name, which is looked for at an index first. What was put in order last spares time.
pub fn facts_of(
    alloc: Global,
    project: &Project,
    hint: usize,
    name: FileName,
    last: &mut Option<Ordered>,
) -> Result<Facts, AllocError>
    ensures { IfOk result (λ facts. facts ≡ spec_facts_of project.now name) }
{
    if !name.is_unit() {
        return Ok(Facts {
            reads: Items::new(alloc),
            uses: Shared::new(alloc, Items::new(alloc))?,
        });
    }
    skim(alloc, project, hint, name, last)
}

/// What is known of each file.
pub fn all_facts(alloc: Global, project: &Project) -> Result<Vec<Shared<Facts>>, AllocError>
    ensures { IfOk result (λ all. all.items ≡ map (λ file. spec_facts_of project.now file.name) project.now) }
{
    let mut all = Vec::new(alloc);
    let mut last = None;
    for (index, file) in project.files().iter().enumerate() {
        let facts = facts_of(alloc, project, index, file.get().name, &mut last)?;
        all.push(Shared::new(alloc, facts)?)?;
    }
    Ok(all)
}

/// Where the last of some files was found.
#[derive(Drop)]
struct Last {
    /// The index behind it, since names in order often follow one another.
    behind: usize,
    /// How far behind its hint the next is looked for, since hints are often wrong alike: not at all if this one was at its own, and
    /// else by one.
    step: usize,
}

/// The place of the file of that name, which is looked for at one index first, and then at another.
fn find_index(project: &Project, first: usize, then: usize, name: FileName) -> Option<usize>
    ensures { result ≡ spec_index name project.now }
{
    if project.is_at(first, name) {
        return Some(first);
    }
    if project.is_at(then, name) {
        return Some(then);
    }
    if project.is_gap(then, name) {
        return None;
    }
    project.index_near(first, name)
}

/// Adds the place of the file of that name, if it is in the project. It is looked for first near its hint, and then behind the last one.
fn add_index(
    project: &Project,
    hint: usize,
    name: FileName,
    last: &mut Last,
    indices: &mut Items<usize>,
) -> Result<(), AllocError>
    ensures { OnOk result (indices.new ≡ indices.old ++ spec_indices_of project.now (name ∷ [])) }
{
    let first = hint.saturating_add(last.step);
    let Some(index) = find_index(project, first, last.behind, name) else {
        return Ok(());
    };
    last.behind = index.saturating_add(1);
    last.step = if index == hint { 0 } else { 1 };
    indices.push(index)
}

/// What stands at a place of these, or this one if nothing does.
pub fn place_or(hints: &Nodes<'_>, place: usize, otherwise: usize) -> usize {
    if place < hints.count() {
        hints.at(place)
    } else {
        otherwise
    }
}

/// The hint for the file of a name at a place.
fn hint_at(hint: usize, hints: Option<&Nodes<'_>>, place: usize) -> usize {
    match hints {
        Some(hints) => place_or(hints, place, hint),
        None => hint,
    }
}

/// The indices of the files of these names. Each is looked for near its hint first. Where it has none, it is looked for behind the one
/// before it, and the first at the hint.
pub fn indices_of(
    alloc: Global,
    project: &Project,
    hint: usize,
    hints: Option<&Nodes<'_>>,
    names: &[FileName],
) -> Result<Items<usize>, AllocError>
    ensures { IfOk result (λ indices. indices ≡ spec_indices_of project.now names.now) }
{
    let mut indices = Items::from_vec(Vec::with_capacity(alloc, names.len())?);
    let mut last = Last {
        behind: hint_at(hint, hints, 0),
        step: 1,
    };
    for (i, name) in names.iter().enumerate() {
        let hint = hint_at(last.behind, hints, i);
        add_index(project, hint, *name, &mut last, &mut indices)?;
    }
    Ok(indices)
}

/// The edges that before led from the file at an index, where none was new but that at this one.
fn hints_at(before: Option<&Linked>, new: usize, index: usize) -> Option<Nodes<'_>> {
    let node = if index > new { index - 1 } else { index };
    before.map(|links| links.targets(node))
}

/// An edge from each unit to each that it uses and that is in the project. What an edge leads to is looked for first near the
/// index to which one led before, when the file at the new index was not there; a hint that is wrong costs time.
pub fn edges(
    alloc: Global,
    project: &Project,
    all: &[Shared<Facts>],
    before: Option<&Linked>,
    new: usize,
) -> Result<Vec<Items<usize>>, AllocError>
    ensures { IfOk result (λ edges. edges.items ≡ map (λ facts. spec_indices_of project.now facts.uses) all.now) }
{
    let mut edges = Vec::new(alloc);
    for (index, facts) in all.iter().enumerate() {
        let hints = hints_at(before, new, index);
        let uses = facts.get().uses.get().as_slice();
        edges.push(indices_of(alloc, project, 0, hints.as_ref(), uses)?)?;
    }
    Ok(edges)
}
