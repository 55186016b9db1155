//! An order of nodes for which components are found at once. It has no contract: in another one they are found too, in more time.
use super::search::targets;
use sqlite_items::Items;
use std::alloc::{AllocError, Global};

/// A walk along edges, depth first.
#[derive(Drop)]
struct Walk {
    /// Of each node whether the walk has come to it.
    seen: Items<bool>,
    /// The nodes that it has not left yet, each with the number of its edges that it has gone along.
    path: Vec<(usize, usize)>,
    /// The nodes that it has left, in that order.
    left: Vec<usize>,
}

/// Whether the walk has still to come to a node.
fn is_new(seen: &[bool], node: usize) -> bool {
    matches!(seen.get(node), Some(false))
}

/// The walk comes to a node, if it has not yet.
fn enter(walk: &mut Walk, node: usize) -> Result<(), AllocError> {
    if node < walk.seen.len() && is_new(walk.seen.as_slice(), node) {
        walk.seen.set(node, true);
        walk.path.push((node, 0))?;
    }
    Ok(())
}

/// The number of the first of these nodes, from one on, that the walk has still to come to; if there is none, how many they are.
fn next_new(seen: &[bool], nodes: &[usize], from: usize) -> usize {
    for number in from..nodes.len() {
        if is_new(seen, nodes[number]) {
            return number;
        }
    }
    nodes.len()
}

/// The walk goes along an edge of the node that it is at to the next one that it has not come to, or leaves it. It says whether it
/// was at one.
fn step(graph: &[Items<usize>], walk: &mut Walk) -> Result<bool, AllocError> {
    let Some((node, gone)) = walk.path.pop() else {
        return Ok(false);
    };
    let targets = targets(graph, node);
    let next = next_new(walk.seen.as_slice(), targets, gone);
    match targets.get(next) {
        Some(target) => {
            walk.path.push((node, next + 1))?;
            enter(walk, *target)?;
        }
        None => walk.left.push(node)?,
    }
    Ok(true)
}

/// The walk goes on until it has left all that it came to.
fn finish(graph: &[Items<usize>], walk: &mut Walk) -> Result<(), AllocError> {
    for _ in 0..u64::MAX {
        if !step(graph, walk)? {
            break;
        }
    }
    Ok(())
}

/// The nodes of a graph in the order in which a walk along all edges, depth first, leaves them.
pub fn left_in_order(alloc: Global, graph: &[Items<usize>]) -> Result<Vec<usize>, AllocError> {
    let mut walk = Walk {
        seen: Items::from_vec(vec![in alloc; false; graph.len()]?),
        path: Vec::new(alloc),
        left: Vec::with_capacity(alloc, graph.len())?,
    };
    for node in 0..graph.len() {
        enter(&mut walk, node)?;
        finish(graph, &mut walk)?;
    }
    Ok(walk.left)
}
