//! What nodes rest on after a node was inserted. Where no edge stands in a circle that is their targets, which are not kept again.
ghost use Rattle.occ_project_graph.specs.Graph.{is_among};
ghost use Rattle.occ_project_graph.specs.inside.Linking.{others as spec_others, rests_kept};
ghost use Rattle.std.specs.Prelude.{◌≡◌, ◌++◌, ◌∷◌, [], IfOk, OnErr, OnOk};

use sqlite_items::Items;
use std::alloc::{AllocError, Global};

/// Those of the nodes that are not this one.
fn others(alloc: Global, at: usize, nodes: &[usize]) -> Result<Items<usize>, AllocError>
    ensures { IfOk result (λ others. others ≡ spec_others at nodes.now) }
{
    let mut others = Items::new(alloc);
    for node in nodes {
        add_other(&mut others, at, *node)?;
    }
    Ok(others)
}

/// Adds a node, unless it is this one.
fn add_other(others: &mut Items<usize>, at: usize, node: usize) -> Result<(), AllocError>
    ensures { OnOk result (others.new ≡ others.old ++ spec_others at (node ∷ [])) }
{
    if node == at {
        return Ok(());
    }
    others.push(node)
}

/// Whether the node is one of these.
pub fn is_one(nodes: &[usize], node: usize) -> bool
    ensures { result ≡ is_among nodes.now node }
{
    nodes.iter().any(|other| *other == node)
}

/// The same rows.
fn copied(alloc: Global, rows: &[Items<usize>]) -> Result<Vec<Items<usize>>, AllocError>
    ensures { IfOk result (λ copy. copy.items ≡ rows.now) }
{
    let mut copy = Vec::new(alloc);
    for row in rows {
        copy.push(Items::from_slice(alloc, row.as_slice())?)?;
    }
    Ok(copy)
}

/// One node more comes behind the others, which rests on all that its edges lead to but itself.
fn add_rest_row(
    alloc: Global,
    rows: &mut Vec<Items<usize>>,
    number: usize,
    targets: &[usize],
) -> Result<(), AllocError>
    ensures ok { OnOk result (rows.new.items ≡ rows.old.items ++ spec_others number targets.now ∷ []) }
    ensures err { OnErr result (rows.new.items ≡ rows.old.items) }
{
    let row = others(alloc, number, targets)?;
    Ok(rows.push(row)?)
}

/// What the nodes of a graph without circles rest on, where one comes behind them from which an edge leads to itself.
fn first_rests(
    alloc: Global,
    edges: &[Items<usize>],
    number: usize,
    targets: &[usize],
) -> Result<Vec<Items<usize>>, AllocError>
    ensures { IfOk result (λ rows. rows.items ≡ edges.now ++ spec_others number targets.now ∷ []) }
{
    let mut rows = copied(alloc, edges)?;
    add_rest_row(alloc, &mut rows, number, targets)?;
    Ok(rows)
}

/// One node more comes behind the others, which rests on all that its edges lead to but itself. Where no edge stands in a circle
/// nothing is kept of that, and nothing is kept then if none leads from the new node to itself.
pub fn add_rests(
    alloc: Global,
    rests: &mut Option<Vec<Items<usize>>>,
    edges: &[Items<usize>],
    number: usize,
    targets: &[usize],
) -> Result<(), AllocError>
    ensures ok { OnOk result (rests_kept (edges.now ++ targets.now ∷ []) rests.new ≡ rests_kept edges.now rests.old ++ spec_others number targets.now ∷ []) }
    ensures err { OnErr result (rests_kept edges.now rests.new ≡ rests_kept edges.now rests.old) }
{
    if let Some(rows) = rests {
        return add_rest_row(alloc, rows, number, targets);
    }
    if is_one(targets, number) {
        *rests = Some(first_rests(alloc, edges, number, targets)?);
    }
    Ok(())
}
