//! From where edges lead to the nodes of a graph, where one more comes to an index. Rows hold numbers, in the order of the
//! indices of their nodes.
ghost use Rattle.occ_project_graph.specs.Graph.{Graph};
ghost use Rattle.occ_project_graph.specs.inside.Linking.{AreLeading, IsBehindAll, IsLedFrom, pushed, with_rows};
ghost use Rattle.occ_project_graph.specs.inside.Numbering.{AreSourceRows, IsFrontBefore, IsSourceRow, times_in};
ghost use Rattle.std.specs.Prelude.{◌≡◌, ◌<◌, ◌++◌, ◌∷◌, [], ℕ, IfOk, IfSome, IsTrue, List, OnErr, OnOk, get_or, length, replicate, slice_set};

use super::search::{number_at, targets as row};
use super::sources::add_source;
use sqlite_items::Items;
use std::alloc::{AllocError, Global};

/// How many nodes in front stand before an index, where the others stand behind it.
fn front_of(nodes: &[usize], indices: &[usize], at: usize) -> usize
    ensures { IsFrontBefore indices.now at nodes.now result }
{
    let mut front = nodes.len();
    while front > 0 && number_at(indices, nodes[front - 1]) >= at {
        front -= 1;
    }
    front
}

/// Whether the indices of these nodes rise. Then each stands among them once.
fn do_rise(indices: &[usize], nodes: &[usize]) -> bool
    ensures { IsTrue result → (i : ℕ) → i < length nodes.now → times_in nodes.now (get_or nodes.now i 0) ≡ 1 }
{
    for i in 1..nodes.len() {
        if number_at(indices, nodes[i - 1]) >= number_at(indices, nodes[i]) {
            return false;
        }
    }
    true
}

/// How often a node is one of these, which is once where it is known.
pub fn count_of(nodes: &[usize], node: usize, is_once: bool) -> usize
    requires { IsTrue is_once → times_in nodes.now node ≡ 1 }
    ensures { result ≡ times_in nodes.now node }
{
    if is_once {
        return 1;
    }
    nodes.iter().filter(|other| **other == node).count()
}

/// Adds a node so often.
pub fn add_times(row: &mut Vec<usize>, node: usize, count: usize) -> Result<(), AllocError>
    ensures { OnOk result (row.new.items ≡ row.old.items ++ replicate count node) }
{
    for _ in 0..count {
        row.push(node)?;
    }
    Ok(())
}

/// Those from which edges lead to a node of a number, where the next number is that of a node that comes to an index, and edges
/// lead from it to these.
pub fn source_row(
    alloc: Global,
    indices: &[usize],
    before: &[usize],
    at: usize,
    number: usize,
    times: usize,
) -> Result<Items<usize>, AllocError>
    ensures { IfOk result (λ row. IsSourceRow indices.now at number times before.now row) }
{
    let front = front_of(before, indices, at);
    let (first, rest) = before.split_at(front);
    let mut row = Vec::with_capacity(alloc, before.len().saturating_add(times))?;
    row.extend_from_slice(first)?;
    add_times(&mut row, number, times)?;
    row.extend_from_slice(rest)?;
    Ok(Items::from_vec(row))
}

/// The same of each node to which an edge leads from the new one.
pub fn source_rows(
    alloc: Global,
    indices: &[usize],
    sources: &[Items<usize>],
    at: usize,
    number: usize,
    nodes: &[usize],
) -> Result<Items<Items<usize>>, AllocError>
    ensures { IfOk result (λ rows. AreSourceRows indices.now sources.now at number nodes.now nodes.now rows) }
{
    let is_once = do_rise(indices, nodes);
    let mut rows = Vec::with_capacity(alloc, nodes.len())?;
    for node in nodes {
        let times = count_of(nodes, *node, is_once);
        let before = row(sources, *node);
        rows.push(source_row(alloc, indices, before, at, number, times)?)?;
    }
    Ok(Items::from_vec(rows))
}

/// Replaces the row at the index that stands among these.
fn put_row(rows: &mut Vec<Items<usize>>, nodes: &[usize], i: usize, row: Items<usize>)
    requires { i < length nodes.now }
    ensures { rows.new.items ≡ slice_set rows.old.items (get_or nodes.now i 0) row }
{
    let node = nodes[i];
    if node < rows.len() {
        rows[node] = row;
    }
}

/// Replaces the rows at these indices.
pub fn put_rows(rows: &mut Vec<Items<usize>>, nodes: &[usize], mut found: Items<Items<usize>>)
    requires { length found ≡ length nodes.now }
    ensures { rows.new.items ≡ with_rows rows.old.items nodes.now found }
{
    while let Some(row) = found.pop() {
        put_row(rows, nodes, found.len(), row);
    }
}

/// Whether the node of the last of these numbers, if there is one, stands before an index.
fn is_behind(indices: &[usize], nodes: &[usize], at: usize) -> bool
    ensures { IsTrue result → IsFrontBefore indices.now at nodes.now (length nodes.now) }
{
    nodes.is_empty() || number_at(indices, nodes[nodes.len() - 1]) < at
}

/// Whether a node that comes to an index comes behind all in the rows of these, which are there.
fn is_behind_all(indices: &[usize], sources: &[Items<usize>], at: usize, nodes: &[usize]) -> bool
    ensures { IsTrue result → IsBehindAll indices.now sources.now at nodes.now }
{
    for node in nodes {
        if *node >= sources.len() || !is_behind(indices, row(sources, *node), at) {
            return false;
        }
    }
    true
}

/// Takes the last number from the row of a node.
fn pop_number(rows: &mut Vec<Items<usize>>, node: usize)
    ensures { (g : Graph) (number : ℕ) → rows.old.items ≡ slice_set g node (get_or g node [] ++ number ∷ []) → rows.new.items ≡ g }
{
    if node < rows.len() {
        rows[node].pop();
    }
}

/// Takes the last number from the row of each of these nodes.
fn pop_numbers(rows: &mut Vec<Items<usize>>, nodes: &[usize])
    ensures { (g : Graph) (number : ℕ) → rows.old.items ≡ pushed g nodes.now number → rows.new.items ≡ g }
{
    for node in nodes {
        pop_number(rows, *node);
    }
}

/// Adds a number to the row of each of these nodes.
fn push_numbers(
    rows: &mut Vec<Items<usize>>,
    nodes: &[usize],
    number: usize,
) -> Result<(), AllocError>
    ensures ok { OnOk result (rows.new.items ≡ pushed rows.old.items nodes.now number) }
    ensures err { OnErr result (rows.new.items ≡ rows.old.items) }
{
    let mut left = nodes.len();
    while left > 0 {
        if let Err(refused) = add_source(rows, nodes[left - 1], number) {
            let (_, done) = nodes.split_at(left);
            pop_numbers(rows, done);
            return Err(refused);
        }
        left -= 1;
    }
    Ok(())
}

/// Adds the node of the next number, which comes to an index, to the rows of those to which edges lead from it, if it comes behind all
/// there. Else it makes the rows that are to be put.
pub fn lead(
    alloc: Global,
    indices: &[usize],
    sources: &mut Vec<Items<usize>>,
    at: usize,
    number: usize,
    nodes: &[usize],
) -> Result<Option<Items<Items<usize>>>, AllocError>
    ensures ok { IfOk result (λ found. AreLeading indices.now at number nodes.now sources.old.items sources.new.items found) }
    ensures many { IfOk result (λ found. IfSome found (λ rows. length rows ≡ length nodes.now)) }
    ensures err { OnErr result (sources.new.items ≡ sources.old.items) }
{
    if is_behind_all(indices, sources.as_slice(), at, nodes) {
        push_numbers(sources, nodes, number)?;
        return Ok(None);
    }
    let found = source_rows(alloc, indices, sources.as_slice(), at, number, nodes)?;
    Ok(Some(found))
}

/// Takes away what was added, if no rows are to be put.
pub fn lead_no_more(
    sources: &mut Vec<Items<usize>>,
    nodes: &[usize],
    found: Option<Items<Items<usize>>>,
)
    ensures { (indices : List ℕ) (at number : ℕ) (before : Graph) → AreLeading indices at number nodes.now before sources.old.items found → sources.new.items ≡ before }
{
    if found.is_none() {
        pop_numbers(sources, nodes);
    }
}

/// Puts the rows, if there are any, where the row of the new node, to which no edge leads, stands behind the others.
pub fn put_found(
    sources: &mut Vec<Items<usize>>,
    nodes: &[usize],
    found: Option<Items<Items<usize>>>,
)
    requires { IfSome found (λ rows. length rows ≡ length nodes.now) }
    ensures { (indices : List ℕ) (at number : ℕ) (before led : Graph) → AreLeading indices at number nodes.now before led found → sources.old.items ≡ led ++ [] ∷ [] → IsLedFrom indices at number nodes.now before sources.new.items }
{
    if let Some(rows) = found {
        put_rows(sources, nodes, rows);
    }
}
