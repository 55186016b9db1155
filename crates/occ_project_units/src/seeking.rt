//! Notes who looks for what, by what is known of files. Where there is no room for a note, or no memory, nothing is known, until all
//! are noted anew.
ghost use Rattle.occ_project_graph.specs.Graph.{is_among as spec_is_among};
ghost use Rattle.occ_project.specs.Entries.{is_among};
ghost use Rattle.occ_project_units.specs.Along.{name_at};
ghost use Rattle.occ_project_units.specs.Indices.{graph_of};
ghost use Rattle.occ_project_units.specs.Units.{read_names};
ghost use Rattle.occ_project_units.specs.inside.Keeping.{AreLookers, AreNotedAfter, AreNotedThen, AreNotedWith, AreReading, IsMore, IsNoted, IsNotedBy, IsNotedOf, all_facts as spec_all_facts, looking_for};
ghost use Rattle.std.specs.Prelude.{◌≡◌, ◌<◌, false, IfSome, IsTrue, length, List, true, ℕ};
ghost use Rattle.std.specs.Str.{bytes_eq};

use super::adding::is_whole;
use super::facts::{Facts, does_read};
use super::lookers::Lookers;
use super::project::Project;
use occ_base::{FileName, Shared};
use occ_project_graph::Linked;
use sqlite_items::at;
use std::alloc::Global;

/// Where there are fewer files, all are asked what they look for.
const FEW: usize = 16;

/// Notes that a file looks for one of that name, unless it is its own, and says whether that is noted.
fn note_name(lookers: &mut Lookers, unit: &Shared<FileName>, name: FileName) -> bool
    ensures more { IsMore lookers.old lookers.new }
    ensures noted { IsTrue result → bytes_eq unit.now name ≡ false → is_among (looking_for lookers.new name) unit.now ≡ true }
{
    if name == *unit.get() {
        return true;
    }
    lookers.add(name, unit)
}

/// The same of all of these names.
fn note_names(lookers: &mut Lookers, unit: &Shared<FileName>, names: &[FileName]) -> bool
    ensures more { IsMore lookers.old lookers.new }
    ensures noted { IsTrue result → (name : List ℕ) → is_among names.now name ≡ true → bytes_eq unit.now name ≡ false → is_among (looking_for lookers.new name) unit.now ≡ true }
{
    for name in names {
        if !note_name(lookers, unit, *name) {
            return false;
        }
    }
    true
}

/// Notes that a file looks for all that it reads but itself, and for all that it uses, unless these are all there.
fn note_all(lookers: &mut Lookers, unit: &Shared<FileName>, known: &Facts, are_there: bool) -> bool
    ensures more { IsMore lookers.old lookers.new }
    ensures noted { IsTrue result → IsNotedOf known.now unit.now are_there lookers.new }
{
    if !note_names(lookers, unit, known.reads.as_slice()) {
        return false;
    }
    if are_there {
        return true;
    }
    note_names(lookers, unit, known.uses.get().as_slice())
}

/// The same of a file from which so many edges lead, one to each that it uses and that is there.
fn note(alloc: Global, lookers: &mut Lookers, unit: FileName, known: &Facts, edges: usize) -> bool
    ensures more { IsMore lookers.old lookers.new }
    ensures noted { IsTrue result → IsNotedBy known.now unit edges lookers.new }
{
    if is_whole(known, edges) {
        return true;
    }
    match Shared::new(alloc, unit) {
        Ok(unit) => note_all(lookers, &unit, known, edges == known.uses.get().len()),
        Err(_refused) => false,
    }
}

/// Notes all that the file at an index looks for.
fn note_at(
    alloc: Global,
    lookers: &mut Lookers,
    project: &Project,
    facts: &[Shared<Facts>],
    links: &Linked,
    index: usize,
) -> bool
    requires within { index < length project.now }
    requires facts { facts.now ≡ spec_all_facts project.now }
    requires links { links.now ≡ graph_of project.now }
    ensures more { IsMore lookers.old lookers.new }
    ensures noted { IsTrue result → IsNoted project.now (name_at project.now index) lookers.new }
{
    let _files = project.files();
    let Some(known) = at(facts, index) else {
        return false;
    };
    let edges = links.targets(index).count();
    note(alloc, lookers, project.name_at(index), known.get(), edges)
}

/// The same, if it reads an edited file.
fn note_reader(
    alloc: Global,
    lookers: &mut Lookers,
    project: &Project,
    facts: &[Shared<Facts>],
    links: &Linked,
    index: usize,
    edited: FileName,
) -> bool
    requires within { index < length project.now }
    requires facts { facts.now ≡ spec_all_facts project.now }
    requires links { links.now ≡ graph_of project.now }
    ensures more { IsMore lookers.old lookers.new }
    ensures noted { IsTrue result → is_among (read_names project.now (name_at project.now index)) edited ≡ true → IsNoted project.now (name_at project.now index) lookers.new }
{
    let Some(known) = at(facts, index) else {
        return false;
    };
    if !does_read(known.get(), edited) {
        return true;
    }
    note_at(alloc, lookers, project, facts, links, index)
}

/// Notes all that the files look for that read an edited one.
fn note_readers(
    alloc: Global,
    lookers: &mut Lookers,
    project: &Project,
    facts: &[Shared<Facts>],
    links: &Linked,
    edited: FileName,
) -> bool
    requires facts { facts.now ≡ spec_all_facts project.now }
    requires links { links.now ≡ graph_of project.now }
    ensures more { IsMore lookers.old lookers.new }
    ensures noted { IsTrue result → (p : ℕ) → p < length project.now → is_among (read_names project.now (name_at project.now p)) edited ≡ true → IsNoted project.now (name_at project.now p) lookers.new }
{
    for index in 0..facts.len() {
        if !note_reader(alloc, lookers, project, facts, links, index, edited) {
            return false;
        }
    }
    true
}

/// How many notes the file at an index wants.
fn count_at(facts: &[Shared<Facts>], links: &Linked, index: usize) -> usize {
    let Some(known) = at(facts, index) else {
        return 0;
    };
    let known = known.get();
    let uses = known.uses.get().len();
    let used = if links.targets(index).count() == uses {
        0
    } else {
        uses
    };
    known.reads.len().saturating_sub(1).saturating_add(used)
}

/// How many notes all want.
fn count_all(facts: &[Shared<Facts>], links: &Linked) -> usize {
    let mut count: usize = 0;
    for index in 0..facts.len() {
        count = count.saturating_add(count_at(facts, links, index));
    }
    count
}

/// Who looks for what in a project, unless its files are few.
fn lookers_of(
    alloc: Global,
    project: &Project,
    facts: &[Shared<Facts>],
    links: &Linked,
) -> Option<Lookers>
    requires facts { facts.now ≡ spec_all_facts project.now }
    requires links { links.now ≡ graph_of project.now }
    ensures { IfSome result (λ lookers. AreLookers project.now lookers) }
{
    if facts.len() < FEW {
        return None;
    }
    let room = count_all(facts, links).saturating_add(facts.len() / FEW);
    let mut lookers = Lookers::with_room(alloc, room).ok()?;
    for index in 0..facts.len() {
        if !note_at(alloc, &mut lookers, project, facts, links, index) {
            return None;
        }
    }
    Some(lookers)
}

/// Who looks for what once a file is at an index that was not there, where this was known before.
pub fn lookers_with(
    alloc: Global,
    lookers: Option<Lookers>,
    project: &Project,
    facts: &[Shared<Facts>],
    links: &Linked,
    at: usize,
) -> Option<Lookers>
    requires within { at < length project.now }
    requires facts { facts.now ≡ spec_all_facts project.now }
    requires links { links.now ≡ graph_of project.now }
    ensures { IfSome result (λ next. AreNotedWith project.now at lookers next) }
{
    if let Some(mut lookers) = lookers {
        if note_at(alloc, &mut lookers, project, facts, links, at) {
            return Some(lookers);
        }
    }
    lookers_of(alloc, project, facts, links)
}

/// Who looks for what after the edit of a file, where this was known before.
pub fn lookers_after(
    alloc: Global,
    lookers: Option<Lookers>,
    project: &Project,
    facts: &[Shared<Facts>],
    links: &Linked,
    edited: FileName,
) -> Option<Lookers>
    requires facts { facts.now ≡ spec_all_facts project.now }
    requires links { links.now ≡ graph_of project.now }
    ensures { IfSome result (λ next. AreNotedAfter project.now edited lookers next) }
{
    let mut lookers = lookers?;
    if note_readers(alloc, &mut lookers, project, facts, links, edited) {
        Some(lookers)
    } else {
        None
    }
}

/// Notes all that the files at these indices look for.
fn note_among(
    alloc: Global,
    lookers: &mut Lookers,
    project: &Project,
    facts: &[Shared<Facts>],
    links: &Linked,
    indices: &[usize],
) -> bool
    requires within { (p : ℕ) → spec_is_among indices.now p ≡ true → p < length project.now }
    requires facts { facts.now ≡ spec_all_facts project.now }
    requires links { links.now ≡ graph_of project.now }
    ensures more { IsMore lookers.old lookers.new }
    ensures noted { IsTrue result → (p : ℕ) → spec_is_among indices.now p ≡ true → IsNoted project.now (name_at project.now p) lookers.new }
{
    for index in indices {
        if !note_at(alloc, lookers, project, facts, links, *index) {
            return false;
        }
    }
    true
}

/// The same, where the files at these indices read the edited one.
pub fn lookers_among(
    alloc: Global,
    lookers: Option<Lookers>,
    project: &Project,
    facts: &[Shared<Facts>],
    links: &Linked,
    edited: FileName,
    readers: &[usize],
) -> Option<Lookers>
    requires facts { facts.now ≡ spec_all_facts project.now }
    requires links { links.now ≡ graph_of project.now }
    requires readers { AreReading project.now edited readers.now }
    ensures { IfSome result (λ next. AreNotedThen project.now edited lookers next) }
{
    let Some(mut lookers) = lookers else {
        return lookers_of(alloc, project, facts, links);
    };
    if note_among(alloc, &mut lookers, project, facts, links, readers) {
        return Some(lookers);
    }
    lookers_of(alloc, project, facts, links)
}
