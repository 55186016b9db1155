//! What rests on what and who uses whom, by indices, from what is known of each file.
ghost use Rattle.occ_project_units.specs.Indices.{graph_of};
ghost use Rattle.occ_project_units.specs.inside.Keeping.{all_facts as spec_all_facts};
ghost use Rattle.std.specs.Prelude.{IfOk, ◌≡◌};

use super::facts::{Facts, edges};
use super::project::Project;
use occ_base::Shared;
use occ_project_graph::Linked;
use std::alloc::{AllocError, Global};

/// What rests on what and what uses what in a project of whose files this is known. It is found sooner with the edges of
/// before, when the file at the new index was not there.
pub fn links_of(
    alloc: Global,
    project: &Project,
    facts: &[Shared<Facts>],
    before: Option<&Linked>,
    new: usize,
) -> Result<Linked, AllocError>
    requires { facts.now ≡ spec_all_facts project.now }
    ensures { IfOk result (λ links. links ≡ graph_of project.now) }
{
    let edges = edges(alloc, project, facts, before, new)?;
    Linked::of(alloc, edges)
}
