//! Puts in a file that is new, that others may use and that none reads. What is known of the others stays; and if it is in no
//! circle, so does what they rest on.
ghost use Rattle.occ_project_graph.specs.Adding.{IsParted, with_used_node};
ghost use Rattle.occ_project_graph.specs.Graph.{is_among as spec_is_among, targets as spec_targets};
ghost use Rattle.occ_project_units.specs.Along.{name_at};
ghost use Rattle.occ_project.specs.Entries.{is_among};
ghost use Rattle.occ_project_units.specs.Indices.{graph_of};
ghost use Rattle.occ_project_units.specs.Project.{IsProject, put};
ghost use Rattle.occ_project_units.specs.inside.Keeping.{IsJoining, IsUnread, all_facts as spec_all_facts};
ghost use Rattle.std.specs.List.{insert};
ghost use Rattle.std.specs.Prelude.{◌≡◌, ◌<◌, ◌≤◌, ℕ, IfOk, IsTrue, OnErr, OnOk, cond, false, get_or, length, map, slice_set, true};

use super::facts::{Facts, facts_of, indices_of, is_name_among};
use super::inserting::insert_at;
use super::links::links_of;
use super::project::Project;
use occ_base::{FileName, Items, Shared};
use occ_project::Read;
use occ_project_graph::Linked;
use std::alloc::{AllocError, Global};

/// Whether the name stands at a place of these.
fn is_name_at(names: &[FileName], place: usize, name: FileName) -> bool
    ensures { IsTrue result → is_among names.now name ≡ true }
{
    match names.get(place) {
        Some(other) => *other == name,
        None => false,
    }
}

/// Whether the name is found among these where they stand in order. Where they do not, it may be missed.
fn is_name_found(names: &[FileName], name: FileName) -> bool
    ensures { IsTrue result → is_among names.now name ≡ true }
{
    is_name_at(names, names.partition_point(|other| *other < name), name)
}

/// Whether a file uses one of that name, which is looked for at a place of those that it uses first.
fn does_use(facts: &Facts, place: usize, name: FileName) -> bool
    ensures { result ≡ is_among facts.now.uses name }
{
    let names = facts.uses.get().as_slice();
    is_name_at(names, place, name) || is_name_found(names, name) || is_name_among(names, name)
}

/// Whether the file at an index uses one of that name. It is looked for first behind as many as are there.
fn does_use_at(all: &[Shared<Facts>], links: &Linked, index: usize, name: FileName) -> bool
    requires { index < length all.now }
    ensures { result ≡ get_or (map (λ facts. is_among facts.uses name) all.now) index false }
{
    does_use(all[index].get(), links.targets(index).count(), name)
}

/// Marks the file at an index, if there is one and it uses one of that name.
fn mark_user(
    marks: &mut Items<bool>,
    all: &[Shared<Facts>],
    links: &Linked,
    index: usize,
    name: FileName,
)
    requires { length marks.old ≡ length all.now }
    ensures { marks.new ≡ cond (get_or (map (λ facts. is_among facts.uses name) all.now) index false) (slice_set marks.old index true) marks.old }
{
    if index < all.len() && does_use_at(all, links, index, name) {
        marks.set(index, true);
    }
}

/// Of each file whether it uses one of that name, where none does but those at these indices.
pub fn users_among(
    alloc: Global,
    all: &[Shared<Facts>],
    links: &Linked,
    indices: &[usize],
    name: FileName,
) -> Result<Items<bool>, AllocError>
    requires { (p : ℕ) → spec_is_among indices.now p ≡ false → get_or (map (λ facts. is_among facts.uses name) all.now) p false ≡ false }
    ensures { IfOk result (λ marks. marks ≡ map (λ facts. is_among facts.uses name) all.now) }
{
    let mut marks = Items::from_vec(vec![in alloc; false; all.len()]?);
    for index in indices {
        mark_user(&mut marks, all, links, *index, name);
    }
    Ok(marks)
}

/// Of each file whether it uses one of that name.
pub fn users_of(
    alloc: Global,
    all: &[Shared<Facts>],
    links: &Linked,
    name: FileName,
) -> Result<Items<bool>, AllocError>
    ensures { IfOk result (λ marks. marks ≡ map (λ facts. is_among facts.uses name) all.now) }
{
    let mut marks = Items::new(alloc);
    for (index, facts) in all.iter().enumerate() {
        let place = links.targets(index).count();
        marks.push(does_use(facts.get(), place, name))?;
    }
    Ok(marks)
}

/// Adds what is known of the file at an index, which is new, and finds anew what rests on what.
fn add_known_anew(
    alloc: Global,
    project: &Project,
    facts: &mut Vec<Shared<Facts>>,
    links: &mut Linked,
    at: usize,
    known: Shared<Facts>,
) -> Result<(), AllocError>
    requires fits { at ≤ length facts.old.items }
    requires known { insert facts.old.items at known ≡ spec_all_facts project.now }
    ensures facts { OnOk result (facts.new.items ≡ spec_all_facts project.now) }
    ensures links { OnOk result (links.new ≡ graph_of project.now) }
    ensures err { OnErr result (facts.new.items ≡ facts.old.items × links.new ≡ links.old) }
{
    insert_at(facts, at, known)?;
    match links_of(alloc, project, facts.as_slice(), Some(links), at) {
        Ok(found) => {
            *links = found;
            Ok(())
        }
        Err(refused) => {
            facts.remove(at);
            Err(refused)
        }
    }
}

/// Adds what is known of the file at an index, which is new, where no edge leads from it and one to it from each that has a mark.
fn add_known_used(
    alloc: Global,
    facts: &mut Vec<Shared<Facts>>,
    links: &mut Linked,
    at: usize,
    known: Shared<Facts>,
    marks: &[bool],
) -> Result<(), AllocError>
    requires facts_fit { at ≤ length facts.old.items }
    requires links_fit { at ≤ length links.old }
    requires parted { (u : ℕ) → get_or marks.now u false ≡ true → IsParted at (spec_targets links.old u) }
    ensures facts { OnOk result (facts.new.items ≡ insert facts.old.items at known) }
    ensures links { OnOk result (links.new ≡ with_used_node links.old at marks.now) }
    ensures err { OnErr result (facts.new.items ≡ facts.old.items × links.new ≡ links.old) }
{
    insert_at(facts, at, known)?;
    match links.add_used(alloc, at, marks) {
        Ok(()) => Ok(()),
        Err(refused) => {
            facts.remove(at);
            Err(refused)
        }
    }
}

/// Adds what is known of the file at an index, which is new, where edges lead from it to these, and one to it from each that has a
/// mark, if it then stands in no circle; and whether that is so. Else nothing is changed.
fn add_known_between(
    alloc: Global,
    facts: &mut Vec<Shared<Facts>>,
    links: &mut Linked,
    at: usize,
    known: &Shared<Facts>,
    marks: &[bool],
    targets: &[usize],
) -> Result<bool, AllocError>
    requires facts_fit { at ≤ length facts.old.items }
    requires links_fit { at ≤ length links.old }
    requires parted { (u : ℕ) → get_or marks.now u false ≡ true → IsParted at (spec_targets links.old u) }
    requires within { (v : ℕ) → spec_is_among targets.now v ≡ true → v ≤ length links.old }
    ensures facts { IfOk result (λ done. done ≡ true → facts.new.items ≡ insert facts.old.items at known.now) }
    ensures links { IfOk result (λ done. done ≡ true → links.new ≡ slice_set (with_used_node links.old at marks.now) at targets.now) }
    ensures other { IfOk result (λ done. done ≡ false → facts.new.items ≡ facts.old.items × links.new ≡ links.old) }
    ensures err { OnErr result (facts.new.items ≡ facts.old.items × links.new ≡ links.old) }
{
    insert_at(facts, at, known.share()?)?;
    match links.add_between(alloc, at, marks, targets) {
        Ok(true) => Ok(true),
        Ok(false) => {
            facts.remove(at);
            Ok(false)
        }
        Err(refused) => {
            facts.remove(at);
            Err(refused)
        }
    }
}

/// Adds what is known of the file at an index, which is new and used by those that have a mark.
fn add_known(
    alloc: Global,
    project: &Project,
    facts: &mut Vec<Shared<Facts>>,
    links: &mut Linked,
    at: usize,
    marks: &[bool],
) -> Result<(), AllocError>
    requires joining { IsJoining facts.old.items links.old project.now at }
    requires marks { marks.now ≡ map (λ f. is_among f.uses (name_at project.now at)) facts.old.items }
    ensures facts { OnOk result (facts.new.items ≡ spec_all_facts project.now) }
    ensures links { OnOk result (links.new ≡ graph_of project.now) }
    ensures err { OnErr result (facts.new.items ≡ facts.old.items × links.new ≡ links.old) }
{
    let name = project.name_at(at);
    let known = facts_of(alloc, project, at, name, &mut None)?;
    let targets = indices_of(alloc, project, 0, None, known.uses.get().as_slice())?;
    let shared = Shared::new(alloc, known)?;
    if targets.is_empty() {
        return add_known_used(alloc, facts, links, at, shared, marks);
    }
    if add_known_between(alloc, facts, links, at, &shared, marks, targets.as_slice())? {
        return Ok(());
    }
    add_known_anew(alloc, project, facts, links, at, shared)
}

/// Puts a file into a project that is new to it and that no file reads, and those use that have a mark, with what is then known. What
/// is known of the others stays.
pub fn add_used_file(
    alloc: Global,
    project: &mut Project,
    facts: &mut Vec<Shared<Facts>>,
    links: &mut Linked,
    at: usize,
    marks: &[bool],
    file: Read,
) -> Result<(), AllocError>
    requires project { IsProject project.old }
    requires new { IsUnread project.old file.name at }
    requires facts { facts.old.items ≡ spec_all_facts project.old }
    requires links { links.old ≡ graph_of project.old }
    requires marks { marks.now ≡ map (λ f. is_among f.uses file.name) facts.old.items }
    ensures project { OnOk result (project.new ≡ put project.old file) }
    ensures facts { OnOk result (facts.new.items ≡ spec_all_facts project.new) }
    ensures links { OnOk result (links.new ≡ graph_of project.new) }
    ensures err { OnErr result (project.new ≡ project.old × (facts.new.items ≡ facts.old.items × links.new ≡ links.old)) }
{
    project.insert(alloc, at, file)?;
    match add_known(alloc, project, facts, links, at, marks) {
        Ok(()) => Ok(()),
        Err(refused) => {
            project.remove(at);
            Err(refused)
        }
    }
}
