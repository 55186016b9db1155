//! The rows of a graph where edges lead elsewhere from a node that was there.
ghost use Rattle.occ_project_graph.specs.Graph.{is_among, reaches, targets as spec_targets};
ghost use Rattle.occ_project_graph.specs.inside.Leading.{later_row, later_rows, nodes_before, nodes_behind};
ghost use Rattle.occ_project_graph.specs.inside.Numbering.{graph_by, indexed};
ghost use Rattle.std.specs.Prelude.{◌≡◌, ◌<◌, ◌++◌, ℕ, IfOk, OnOk, get_or, length, map, slice_set};

use super::adding::{add_times, count_of};
use super::search::{number_at, search, targets as row, unseen};
use sqlite_items::Items;
use std::alloc::{AllocError, Global};
use std::mem;

/// The numbers of the nodes of these indices.
pub fn numbers_of(
    alloc: Global,
    numbers: &[usize],
    indices: &[usize],
) -> Result<Items<usize>, AllocError>
    ensures { IfOk result (λ found. found ≡ map (λ p. get_or numbers.now p 0) indices.now) }
{
    let mut found = Items::from_vec(Vec::with_capacity(alloc, indices.len())?);
    for index in indices {
        found.push(number_at(numbers, *index))?;
    }
    Ok(found)
}

/// These nodes, and those.
pub fn both(alloc: Global, nodes: &[usize], others: &[usize]) -> Result<Items<usize>, AllocError>
    ensures { IfOk result (λ all. all ≡ nodes.now ++ others.now) }
{
    let mut all = Vec::with_capacity(alloc, nodes.len().saturating_add(others.len()))?;
    all.extend_from_slice(nodes)?;
    all.extend_from_slice(others)?;
    Ok(Items::from_vec(all))
}

/// Adds those of the nodes that stand before an index.
fn add_before(
    row: &mut Vec<usize>,
    indices: &[usize],
    nodes: &[usize],
    at: usize,
) -> Result<(), AllocError>
    ensures { OnOk result (row.new.items ≡ row.old.items ++ nodes_before indices.now at nodes.now) }
{
    for node in nodes {
        if number_at(indices, *node) < at {
            row.push(*node)?;
        }
    }
    Ok(())
}

/// Adds those of the nodes that stand behind an index.
fn add_behind(
    row: &mut Vec<usize>,
    indices: &[usize],
    nodes: &[usize],
    at: usize,
) -> Result<(), AllocError>
    ensures { OnOk result (row.new.items ≡ row.old.items ++ nodes_behind indices.now at nodes.now) }
{
    for node in nodes {
        if at < number_at(indices, *node) {
            row.push(*node)?;
        }
    }
    Ok(())
}

/// Those from which edges lead to a node, where so many lead from the node of a number, which has this index.
fn row_later(
    alloc: Global,
    indices: &[usize],
    before: &[usize],
    at: usize,
    number: usize,
    times: usize,
) -> Result<Items<usize>, AllocError>
    ensures { IfOk result (λ row. row ≡ later_row indices.now at number times before.now) }
{
    let mut row = Vec::with_capacity(alloc, before.len().saturating_add(times))?;
    add_before(&mut row, indices, before, at)?;
    add_times(&mut row, number, times)?;
    add_behind(&mut row, indices, before, at)?;
    Ok(Items::from_vec(row))
}

/// The rows of these nodes, where edges lead from the node of a number, which has this index, to those nodes.
pub fn rows_later(
    alloc: Global,
    indices: &[usize],
    sources: &[Items<usize>],
    at: usize,
    number: usize,
    nodes: &[usize],
    leading: &[usize],
) -> Result<Items<Items<usize>>, AllocError>
    ensures { IfOk result (λ rows. rows ≡ later_rows indices.now sources.now at number leading.now nodes.now) }
{
    let mut rows = Items::from_vec(Vec::with_capacity(alloc, nodes.len())?);
    for node in nodes {
        let times = count_of(leading, *node, false);
        let before = row(sources, *node);
        rows.push(row_later(alloc, indices, before, at, number, times)?)?;
    }
    Ok(rows)
}

/// Replaces the row of a node, and hands out the one that was there.
pub fn replaced(rows: &mut Vec<Items<usize>>, node: usize, row: Items<usize>) -> Items<usize>
    requires { node < length rows.old.items }
    ensures rows { rows.new.items ≡ slice_set rows.old.items node row }
    ensures before { result ≡ spec_targets rows.old.items node }
{
    mem::replace(&mut rows[node], row)
}

/// Whether a node reaches itself.
pub fn is_reached(alloc: Global, graph: &[Items<usize>], node: usize) -> Result<bool, AllocError>
    requires { node < length graph.now }
    ensures { IfOk result (λ is. is ≡ reaches graph.now node node) }
{
    let mut seen = unseen(alloc, graph.len())?;
    search(alloc, graph, &[], 0, node, &mut seen)?;
    Ok(number_at(seen.marks.as_slice(), node) > 0)
}

/// The indices of the nodes of these numbers.
fn indices_of(alloc: Global, indices: &[usize], nodes: &[usize]) -> Result<Items<usize>, AllocError>
    ensures { IfOk result (λ found. found ≡ indexed indices.now nodes.now) }
{
    let mut found = Items::from_vec(Vec::with_capacity(alloc, nodes.len())?);
    for node in nodes {
        found.push(number_at(indices, *node))?;
    }
    Ok(found)
}

/// The edges of a graph by indices.
fn edges_by(
    alloc: Global,
    numbers: &[usize],
    indices: &[usize],
    edges: &[Items<usize>],
) -> Result<Vec<Items<usize>>, AllocError>
    ensures { IfOk result (λ rows. rows.items ≡ graph_by numbers.now indices.now edges.now) }
{
    let mut rows = Vec::with_capacity(alloc, numbers.len())?;
    for number in numbers {
        rows.push(indices_of(alloc, indices, row(edges, *number))?)?;
    }
    Ok(rows)
}

/// The same where edges lead from the node at an index to these.
pub fn later_edges(
    alloc: Global,
    numbers: &[usize],
    indices: &[usize],
    edges: &[Items<usize>],
    node: usize,
    targets: &[usize],
) -> Result<Vec<Items<usize>>, AllocError>
    requires { node < length numbers.now }
    ensures { IfOk result (λ rows. rows.items ≡ slice_set (graph_by numbers.now indices.now edges.now) node targets.now) }
{
    let mut rows = edges_by(alloc, numbers, indices, edges)?;
    rows[node] = Items::from_slice(alloc, targets)?;
    Ok(rows)
}
