//! Puts a file where one of its name is, if all its readers read and use the same as before. Else nothing is changed.
ghost use Rattle.occ_project_graph.specs.Graph.{IsWhole, is_among as spec_is_among};
ghost use Rattle.occ_project.specs.Reads.{index as spec_index};
ghost use Rattle.occ_project_units.specs.Along.{name_at};
ghost use Rattle.occ_project_units.specs.Indices.{graph_of, readers_at as spec_readers_at};
ghost use Rattle.occ_project_units.specs.Project.{IsProject, put};
ghost use Rattle.occ_project_units.specs.inside.Keeping.{AreAsBefore, AreReading, DoUseAsBefore, IsAsBefore, IsLed, IsRenewed, IsUsingAsBefore, all_facts as spec_all_facts, facts_of as spec_facts_of};
ghost use Rattle.std.specs.Option.{option_copied};
ghost use Rattle.std.specs.Prelude.{get_or, false, IfOk, IsTrue, length, map, OnErr, slice_get, slice_set, Some, true, ℕ, ◌≡◌, ◌<◌, ◌≤◌, ◌⊎◌};

use super::facts::{Facts, facts_of, indices_of};
use super::following::are_same_names;
use super::project::Project;
use occ_base::{Items, Shared};
use occ_project::Read;
use occ_project_graph::Linked;
use occ_project_graph::laws::sources_law;
use std::alloc::{AllocError, Global};

/// What is known of the files at these indices.
pub fn facts_of_all(
    alloc: Global,
    project: &Project,
    indices: &[usize],
) -> Result<Items<Shared<Facts>>, AllocError>
    requires { (p : ℕ) → spec_is_among indices.now p ≡ true → p < length project.now }
    ensures { IfOk result (λ found. found ≡ map (λ index. spec_facts_of project.now (name_at project.now index)) indices.now) }
{
    let mut found = Items::new(alloc);
    let mut last = None;
    for index in indices {
        let name = project.name_at(*index);
        let facts = facts_of(alloc, project, *index, name, &mut last)?;
        found.push(Shared::new(alloc, facts)?)?;
    }
    Ok(found)
}

/// Whether a file reads and uses the same as before, by what is known of it.
fn is_as_before(before: Option<&Shared<Facts>>, now: Option<&Shared<Facts>>) -> bool
    ensures { IsTrue result → IsAsBefore (option_copied before.entry) (option_copied now.entry) }
{
    match (before, now) {
        (Some(before), Some(now)) => {
            are_same_names(before.get().reads.as_slice(), now.get().reads.as_slice())
                && are_same_names(
                    before.get().uses.get().as_slice(),
                    now.get().uses.get().as_slice(),
                )
        }
        _ => false,
    }
}

/// Whether each of the files at these indices reads and uses the same as before, by what was found.
pub fn are_as_before(facts: &[Shared<Facts>], indices: &[usize], found: &[Shared<Facts>]) -> bool
    ensures { IsTrue result → AreAsBefore facts.now indices.now found.now }
{
    for i in 0..indices.len() {
        if !is_as_before(facts.get(indices[i]), found.get(i)) {
            return false;
        }
    }
    true
}

/// Puts what is known of a file at the index that stands among these.
fn put_at(facts: &mut Vec<Shared<Facts>>, indices: &[usize], i: usize, known: Shared<Facts>)
    requires { i < length indices.now }
    ensures { facts.new.items ≡ slice_set facts.old.items (get_or indices.now i 0) known }
{
    let index = indices[i];
    if index < facts.len() {
        facts[index] = known;
    }
}

/// Puts what was found of the files at these indices there. Of the others it was known.
pub fn put_all(
    facts: &mut Vec<Shared<Facts>>,
    project: &Project,
    indices: &[usize],
    mut found: Items<Shared<Facts>>,
)
    requires len { length facts.old.items ≡ length project.now }
    requires found { found ≡ map (λ index. spec_facts_of project.now (name_at project.now index)) indices.now }
    requires others { (p : ℕ) → p < length project.now → spec_is_among indices.now p ≡ true ⊎ slice_get facts.old.items p ≡ Some (spec_facts_of project.now (name_at project.now p)) }
    ensures { facts.new.items ≡ spec_all_facts project.now }
{
    while let Some(known) = found.pop() {
        put_at(facts, indices, found.len(), known);
    }
}

/// Finds what is known of the files at these indices after an edit. If all these read and use the same as before it is put
/// there, and else nothing is changed.
fn renew_facts(
    alloc: Global,
    project: &Project,
    facts: &mut Vec<Shared<Facts>>,
    indices: &[usize],
) -> Result<bool, AllocError>
    requires within { (p : ℕ) → spec_is_among indices.now p ≡ true → p < length project.now }
    requires len { length facts.old.items ≡ length project.now }
    requires others { (p : ℕ) → p < length project.now → spec_is_among indices.now p ≡ true ⊎ slice_get facts.old.items p ≡ Some (spec_facts_of project.now (name_at project.now p)) }
    ensures facts { IfOk result (λ done. done ≡ true → facts.new.items ≡ spec_all_facts project.now) }
    ensures same { IfOk result (λ done. done ≡ true → AreAsBefore facts.old.items indices.now (map (λ index. spec_facts_of project.now (name_at project.now index)) indices.now)) }
    ensures other { IfOk result (λ done. done ≡ false → facts.new.items ≡ facts.old.items) }
    ensures err { OnErr result (facts.new.items ≡ facts.old.items) }
{
    let found = facts_of_all(alloc, project, indices)?;
    if !are_as_before(facts.as_slice(), indices, found.as_slice()) {
        return Ok(false);
    }
    put_all(facts, project, indices, found);
    Ok(true)
}

/// Puts a file in the place of the one of its name, which the files at these indices read, with what is then known of them, if
/// all these read and use the same as before. Else nothing is changed. Where it has the lines that it had, that is known.
pub fn renew(
    alloc: Global,
    project: &mut Project,
    facts: &mut Vec<Shared<Facts>>,
    index: usize,
    readers: &[usize],
    file: Shared<Read>,
) -> Result<bool, AllocError>
    requires project { IsProject project.old }
    requires index { spec_index file.name project.old ≡ Some index }
    requires readers { readers.now ≡ spec_readers_at project.old index }
    requires facts { facts.old.items ≡ spec_all_facts project.old }
    ensures done { IfOk result (λ done. done ≡ true → IsRenewed project.old (put project.old file) × (project.new ≡ put project.old file × facts.new.items ≡ spec_all_facts project.new)) }
    ensures other { IfOk result (λ done. done ≡ false → project.new ≡ project.old × facts.new.items ≡ facts.old.items) }
    ensures err { OnErr result (project.new ≡ project.old × facts.new.items ≡ facts.old.items) }
{
    sources_law();
    let before = project.shared_near(alloc, index, file.get().name)?;
    if before.get().is_alike(file.get()) {
        project.replace(index, file);
        return Ok(true);
    }
    project.replace(index, file);
    match renew_facts(alloc, project, facts, readers) {
        Ok(true) => Ok(true),
        Ok(false) => {
            project.replace(index, before);
            Ok(false)
        }
        Err(refused) => {
            project.replace(index, before);
            Err(refused)
        }
    }
}

/// Whether a file uses the same units as before, by what is known of it.
fn uses_as_before(before: Option<&Shared<Facts>>, now: Option<&Shared<Facts>>) -> bool
    ensures { IsTrue result → IsUsingAsBefore (option_copied before.entry) (option_copied now.entry) }
{
    match (before, now) {
        (Some(before), Some(now)) => are_same_names(
            before.get().uses.get().as_slice(),
            now.get().uses.get().as_slice(),
        ),
        _ => false,
    }
}

/// The first place, from one on, of a file at these indices that uses other units than before, by what was found; if there is none, how
/// many they are.
fn first_other(
    facts: &[Shared<Facts>],
    indices: &[usize],
    found: &[Shared<Facts>],
    from: usize,
) -> usize
    ensures before { DoUseAsBefore facts.now indices.now found.now from result }
    ensures most { result ≤ length indices.now }
{
    for i in from..indices.len() {
        if !uses_as_before(facts.get(indices[i]), found.get(i)) {
            return i;
        }
    }
    indices.len()
}

/// Lets edges lead from the one of the files at these indices that uses others than before to these, if there is one. It says whether
/// that is done, which it is if there is one at most. Else nothing is changed.
fn lead_other(
    alloc: Global,
    project: &Project,
    facts: &[Shared<Facts>],
    links: &mut Linked,
    indices: &[usize],
    found: &[Shared<Facts>],
) -> Result<bool, AllocError>
    requires within { (p : ℕ) → spec_is_among indices.now p ≡ true → p < length project.now }
    requires len { length links.old ≡ length project.now }
    requires whole { IsWhole links.old }
    requires found { length found.now ≡ length indices.now }
    ensures led { IfOk result (λ done. done ≡ true → IsLed project.now facts.now indices.now found.now links.old links.new) }
    ensures other { IfOk result (λ done. done ≡ false → links.new ≡ links.old) }
    ensures err { OnErr result (links.new ≡ links.old) }
{
    let _files = project.files();
    let place = first_other(facts, indices, found, 0);
    if place >= indices.len() {
        return Ok(true);
    }
    if first_other(facts, indices, found, place + 1) < indices.len() {
        return Ok(false);
    }
    let names = found[place].get().uses.get().as_slice();
    let targets = indices_of(alloc, project, 0, None, names)?;
    if !links.lead_to(alloc, indices[place], targets.as_slice())? {
        links.lead_anew(alloc, indices[place], targets.as_slice())?;
    }
    Ok(true)
}

/// Finds what is known of the files at these indices after an edit, and lets edges lead from the one that uses others than before. If
/// that is done it is put there, and else nothing is changed.
fn lead_facts(
    alloc: Global,
    project: &Project,
    facts: &mut Vec<Shared<Facts>>,
    links: &mut Linked,
    indices: &[usize],
) -> Result<bool, AllocError>
    requires within { (p : ℕ) → spec_is_among indices.now p ≡ true → p < length project.now }
    requires len { length facts.old.items ≡ length project.now }
    requires links { length links.old ≡ length project.now }
    requires whole { IsWhole links.old }
    requires others { (p : ℕ) → p < length project.now → spec_is_among indices.now p ≡ true ⊎ slice_get facts.old.items p ≡ Some (spec_facts_of project.now (name_at project.now p)) }
    ensures facts { IfOk result (λ done. done ≡ true → facts.new.items ≡ spec_all_facts project.now) }
    ensures led { IfOk result (λ done. done ≡ true → IsLed project.now facts.old.items indices.now (map (λ index. spec_facts_of project.now (name_at project.now index)) indices.now) links.old links.new) }
    ensures other { IfOk result (λ done. done ≡ false → facts.new.items ≡ facts.old.items × links.new ≡ links.old) }
    ensures err { OnErr result (facts.new.items ≡ facts.old.items × links.new ≡ links.old) }
{
    let found = facts_of_all(alloc, project, indices)?;
    let done = lead_other(
        alloc,
        project,
        facts.as_slice(),
        links,
        indices,
        found.as_slice(),
    )?;
    if !done {
        return Ok(false);
    }
    put_all(facts, project, indices, found);
    Ok(true)
}

/// Puts a file in the place of the one of its name, which the files at these indices read, with what is then known of them, if one of
/// these at most uses others than before. Else nothing is changed.
pub fn renew_leading(
    alloc: Global,
    project: &mut Project,
    facts: &mut Vec<Shared<Facts>>,
    links: &mut Linked,
    index: usize,
    readers: &[usize],
    file: Shared<Read>,
) -> Result<bool, AllocError>
    requires project { IsProject project.old }
    requires index { spec_index file.name project.old ≡ Some index }
    requires readers { readers.now ≡ spec_readers_at project.old index }
    requires facts { facts.old.items ≡ spec_all_facts project.old }
    requires links { links.old ≡ graph_of project.old }
    ensures done { IfOk result (λ done. done ≡ true → project.new ≡ put project.old file × (facts.new.items ≡ spec_all_facts project.new × links.new ≡ graph_of project.new)) }
    ensures readers { IfOk result (λ done. done ≡ true → AreReading project.new file.name readers.now) }
    ensures other { IfOk result (λ done. done ≡ false → project.new ≡ project.old × (facts.new.items ≡ facts.old.items × links.new ≡ links.old)) }
    ensures err { OnErr result (project.new ≡ project.old × (facts.new.items ≡ facts.old.items × links.new ≡ links.old)) }
{
    sources_law();
    let before = project.shared_near(alloc, index, file.get().name)?;
    project.replace(index, file);
    match lead_facts(alloc, project, facts, links, readers) {
        Ok(true) => Ok(true),
        Ok(false) => {
            project.replace(index, before);
            Ok(false)
        }
        Err(refused) => {
            project.replace(index, before);
            Err(refused)
        }
    }
}
