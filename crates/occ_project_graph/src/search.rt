//! Goes along edges from one node and gives a mark to all that it comes to. It goes breadth first, with a queue.
ghost use Rattle.std.specs.Prelude.{◌≡◌, ◌<◌, ◌+◌, List, ℕ, get_or, length, replicate, IfOk, IsTrue, OnOk};
ghost use Rattle.occ_project_graph.specs.Graph.{targets as spec_targets};
ghost use Rattle.occ_project_graph.specs.inside.Searching.{IsFound, IsFresh, IsSearch, is_next as spec_is_next, seen_all, seen_with};

use sqlite_items::Items;
use std::alloc::{AllocError, Global};

/// What a search has come to.
#[derive(Drop)]
pub struct Seen {
    /// The mark of each node.
    pub marks: Items<usize>,
    /// The nodes that the last search came to, in that order.
    pub queue: Items<usize>,
}

/// Where edges lead from a node.
pub fn targets(graph: &[Items<usize>], node: usize) -> &[usize]
    ensures { result.now ≡ spec_targets graph.now node }
{
    match graph.get(node) {
        Some(targets) => targets.as_slice(),
        None => &[],
    }
}

/// What stands at an index, and 0 where nothing does.
pub fn number_at(numbers: &[usize], index: usize) -> usize
    ensures { result ≡ get_or numbers.now index 0 }
{
    match numbers.get(index) {
        Some(number) => *number,
        None => 0,
    }
}

/// Before any search no node has a mark.
pub fn unseen(alloc: Global, count: usize) -> Result<Seen, AllocError>
    ensures { IfOk result (λ seen. seen.marks ≡ replicate count 0) }
{
    Ok(Seen {
        marks: Items::from_vec(vec![in alloc; 0; count]?),
        queue: Items::new(alloc),
    })
}

/// Whether a search goes on to a node, which has this mark among others, and not yet the one that the search gives.
fn is_next(marks: &[usize], others: &[usize], other: usize, mark: usize, node: usize) -> bool
    ensures value { result ≡ spec_is_next others.now other mark marks.now node }
    ensures within { IsTrue result → node < length marks.now }
{
    node < marks.len() && number_at(others, node) == other && number_at(marks, node) != mark
}

/// A node is come to: it gets the mark and is queued, if the search goes on to it.
fn see(
    seen: &mut Seen,
    others: &[usize],
    other: usize,
    mark: usize,
    node: usize,
) -> Result<(), AllocError>
    ensures { OnOk result (seen.new ≡ seen_with others.now other mark seen.old node) }
{
    if is_next(seen.marks.as_slice(), others, other, mark, node) {
        seen.queue.push(node)?;
        seen.marks.set(node, mark);
    }
    Ok(())
}

/// These nodes are come to, one after the other.
fn see_all(
    seen: &mut Seen,
    others: &[usize],
    other: usize,
    mark: usize,
    nodes: &[usize],
) -> Result<(), AllocError>
    ensures { OnOk result (seen.new ≡ seen_all others.now other mark seen.old nodes.now) }
{
    for node in nodes {
        see(seen, others, other, mark, *node)?;
    }
    Ok(())
}

/// Goes on from each node of the queue, until no node is left in it.
fn go_on(
    graph: &[Items<usize>],
    others: &[usize],
    other: usize,
    mark: usize,
    seen: &mut Seen,
) -> Result<(), AllocError>
    ensures { OnOk result ((from : ℕ) (old : List ℕ) → mark ≡ from + 1 → IsSearch graph.now others.now other from old seen.old 0 → IsFound graph.now others.now other from old seen.new.marks) }
{
    let mut index = 0;
    while index < seen.queue.len() {
        let node = number_at(seen.queue.as_slice(), index);
        see_all(seen, others, other, mark, targets(graph, node))?;
        index += 1;
    }
    Ok(())
}

/// Gives a mark, which is the node's index and 1, to nodes that it reaches and that have a mark among others: to all that it reaches
/// through such. No node may have it before.
pub fn search(
    alloc: Global,
    graph: &[Items<usize>],
    others: &[usize],
    other: usize,
    from: usize,
    seen: &mut Seen,
) -> Result<(), AllocError>
    requires from { from < length graph.now }
    requires fresh { IsFresh from seen.old.marks }
    ensures { OnOk result (IsFound graph.now others.now other from seen.old.marks seen.new.marks) }
{
    seen.queue = Items::new(alloc);
    see_all(seen, others, other, from + 1, targets(graph, from))?;
    go_on(graph, others, other, from + 1, seen)
}
