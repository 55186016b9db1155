//! The graph turned around: for each node those from which edges lead to it.
ghost use Rattle.std.specs.Prelude.{◌≡◌, ◌<◌, ◌++◌, ◌∷◌, ℕ, [], get_or, length, replicate, slice_set, IfOk, OnErr, OnOk};
ghost use Rattle.occ_project_graph.specs.Sources.{once_each, sources};

use sqlite_items::Items;
use std::alloc::{AllocError, Global};

/// None, for each of so many nodes.
pub fn no_sources(alloc: Global, count: usize) -> Result<Vec<Items<usize>>, AllocError>
    ensures { IfOk result (λ rows. rows.items ≡ replicate count []) }
{
    let mut rows = Vec::with_capacity(alloc, count)?;
    for _ in 0..count {
        rows.push(Items::new(alloc))?;
    }
    Ok(rows)
}

/// One more edge leads from the source to this node.
pub fn add_source(
    rows: &mut Vec<Items<usize>>,
    node: usize,
    source: usize,
) -> Result<(), AllocError>
    ensures ok { OnOk result (rows.new.items ≡ slice_set rows.old.items node (get_or rows.old.items node [] ++ source ∷ [])) }
    ensures err { OnErr result (rows.new.items ≡ rows.old.items) }
{
    if node < rows.len() {
        rows[node].push(source)?;
    }
    Ok(())
}

/// Edges lead from the source to these nodes.
pub fn add_sources(
    rows: &mut Vec<Items<usize>>,
    nodes: &[usize],
    source: usize,
) -> Result<(), AllocError>
    ensures len { OnOk result (length rows.new.items ≡ length rows.old.items) }
    ensures rows { OnOk result ((v : ℕ) → v < length rows.old.items → get_or rows.new.items v [] ≡ get_or rows.old.items v [] ++ once_each source nodes.now v) }
{
    for node in nodes {
        add_source(rows, *node, source)?;
    }
    Ok(())
}

/// For each node of a graph those from which edges lead to it, in order, once for each edge.
pub fn find_sources(alloc: Global, graph: &[Items<usize>]) -> Result<Vec<Items<usize>>, AllocError>
    ensures len { IfOk result (λ rows. length rows.items ≡ length graph.now) }
    ensures rows { IfOk result (λ rows. (v : ℕ) → v < length graph.now → get_or rows.items v [] ≡ sources graph.now v) }
{
    let mut rows = no_sources(alloc, graph.len())?;
    for (source, nodes) in graph.iter().enumerate() {
        add_sources(&mut rows, nodes.as_slice(), source)?;
    }
    Ok(rows)
}
