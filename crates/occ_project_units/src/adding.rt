//! Puts in a file that is new and that no other looks for: others are left alone but for their indices.
ghost use Rattle.occ_project_graph.specs.Adding.{with_node};
ghost use Rattle.occ_project.specs.Entries.{is_among};
ghost use Rattle.occ_project_units.specs.Along.{name_at};
ghost use Rattle.occ_project_units.specs.New.{IsNew};
ghost use Rattle.occ_project_units.specs.Indices.{graph_of, indices_of as spec_indices_of};
ghost use Rattle.occ_project_units.specs.Project.{IsProject, put};
ghost use Rattle.occ_project_units.specs.Units.{used_units};
ghost use Rattle.occ_project_units.specs.inside.Keeping.{all_facts as spec_all_facts, facts_of as spec_facts_of};
ghost use Rattle.std.specs.List.{insert};
ghost use Rattle.std.specs.Prelude.{◌≡◌, ◌<◌, ◌≤◌, ◌+◌, ◌⊎◌, IfOk, IsFalse, IsTrue, OnErr, OnOk, false, length, true};

use super::facts::{Facts, facts_of, indices_of, is_name_among};
use super::inserting::insert_at;
use super::project::Project;
use occ_base::{FileName, Shared};
use occ_project::Read;
use occ_project_graph::Linked;
use std::alloc::{AllocError, Global};

/// Whether a file may read another of that name: only one that reads more than itself does.
pub fn may_read(facts: &Facts, name: FileName) -> bool
    ensures { IsFalse result → length facts.now.reads ≤ 1 ⊎ is_among facts.now.reads name ≡ false }
{
    let names = facts.reads.as_slice();
    names.len() > 1 && is_name_among(names, name)
}

/// Whether a file from which so many edges lead may use one of that name that is not there: only one that uses more does.
pub fn may_use(facts: &Facts, edges: usize, name: FileName) -> bool
    ensures { IsFalse result → edges ≡ length facts.now.uses ⊎ is_among facts.now.uses name ≡ false }
{
    edges != facts.uses.get().len() && is_name_among(facts.uses.get().as_slice(), name)
}

/// Whether a file from which so many edges lead looks for none that is not there: it reads itself alone, and all that it uses are
/// there.
pub fn is_whole(facts: &Facts, edges: usize) -> bool
    ensures { IsTrue result → (length facts.now.reads ≤ 1) × (edges ≡ length facts.now.uses) }
{
    facts.reads.len() <= 1 && edges == facts.uses.get().len()
}

/// Adds what is known of the file at an index, which is new. What it uses is looked for first near what the file before it uses.
fn add_known(
    alloc: Global,
    project: &Project,
    facts: &mut Vec<Shared<Facts>>,
    links: &mut Linked,
    at: usize,
) -> Result<(), AllocError>
    requires within { at < length project.now }
    requires facts { length project.now ≡ length facts.old.items + 1 }
    requires links { length project.now ≡ length links.old + 1 }
    ensures facts { OnOk result (facts.new.items ≡ insert facts.old.items at (spec_facts_of project.now (name_at project.now at))) }
    ensures links { OnOk result (links.new ≡ with_node links.old at (spec_indices_of project.now (used_units project.now (name_at project.now at)))) }
    ensures err { OnErr result (facts.new.items ≡ facts.old.items × links.new ≡ links.old) }
{
    let known = facts_of(alloc, project, at, project.name_at(at), &mut None)?;
    let hints = links.targets(at.saturating_sub(1));
    let targets = indices_of(alloc, project, 0, Some(&hints), known.uses.get().as_slice())?;
    let shared = Shared::new(alloc, known)?;
    insert_at(facts, at, shared)?;
    match links.add(alloc, at, targets) {
        Ok(()) => Ok(()),
        Err(refused) => {
            facts.remove(at);
            Err(refused)
        }
    }
}

/// Puts a file into a project that is new to it and that no file looks for, with what is then known. What is known of the others
/// stays, but for their indices.
pub fn add_file(
    alloc: Global,
    project: &mut Project,
    facts: &mut Vec<Shared<Facts>>,
    links: &mut Linked,
    at: usize,
    file: Read,
) -> Result<(), AllocError>
    requires project { IsProject project.old }
    requires new { IsNew project.old file.name at }
    requires facts { facts.old.items ≡ spec_all_facts project.old }
    requires links { links.old ≡ graph_of project.old }
    ensures project { OnOk result (project.new ≡ put project.old file) }
    ensures facts { OnOk result (facts.new.items ≡ spec_all_facts project.new) }
    ensures links { OnOk result (links.new ≡ graph_of project.new) }
    ensures err { OnErr result (project.new ≡ project.old × (facts.new.items ≡ facts.old.items × links.new ≡ links.old)) }
{
    project.insert(alloc, at, file)?;
    match add_known(alloc, project, facts, links, at) {
        Ok(()) => Ok(()),
        Err(refused) => {
            project.remove(at);
            Err(refused)
        }
    }
}
