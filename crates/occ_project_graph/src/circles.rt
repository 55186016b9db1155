//! Finds the strong components of a graph, and for each node those that it rests on: its targets in other components.
#![tactic(auto, using(crate::proofs::Circled::all_is))]

ghost use Rattle.std.specs.Prelude.{[], ◌∷◌, ◌≡◌, ◌<◌, ◌++◌, ℕ, IfOk, OnOk, length};
ghost use Rattle.occ_project_graph.specs.Graph.{IsWhole, all_rests};
ghost use Rattle.occ_project_graph.specs.inside.Components.{AreAll, AreComponents, IsTurned, all_apart as spec_all_apart, all_rests_by as spec_all_rests_by, are_apart as spec_are_apart, component_at, is_one as spec_is_one, rests_by as spec_rests_by};
ghost use Rattle.occ_project_graph.specs.inside.Linking.{rests_kept};

use super::order::left_in_order;
use super::search::{Seen, number_at, search, unseen};
use sqlite_items::Items;
use std::alloc::{AllocError, Global};

/// Components of a graph, as far as they are found: nodes that reach one another.
#[derive(Drop)]
pub struct Components {
    /// Of each node the number of its component; 0, if it is not found yet. The number is the index of one of its nodes and 1.
    pub found: Seen,
    /// Of each node the number of the component from which a search against edges last came to it; 0, if none did.
    pub back: Seen,
}

/// Finds the component of a node: the nodes that it reaches through such as reach it. None of these is in a component before.
fn add_component(
    alloc: Global,
    graph: &[Items<usize>],
    sources: &[Items<usize>],
    node: usize,
    components: &mut Components,
) -> Result<(), AllocError>
    requires whole { IsWhole graph.now }
    requires turned { IsTurned graph.now sources.now }
    requires node { node < length graph.now }
    requires open { component_at components.old.found.marks node ≡ 0 }
    requires components { AreComponents graph.now components.old.found.marks components.old.back.marks }
    ensures components { OnOk result (AreComponents graph.now components.new.found.marks components.new.back.marks) }
    ensures node { OnOk result (0 < component_at components.new.found.marks node) }
    ensures others { OnOk result ((v : ℕ) → 0 < component_at components.old.found.marks v → 0 < component_at components.new.found.marks v) }
{
    let found = components.found.marks.as_slice();
    search(alloc, sources, found, 0, node, &mut components.back)?;
    let back = components.back.marks.as_slice();
    search(alloc, graph, back, node + 1, node, &mut components.found)?;
    components.found.marks.set(node, node + 1);
    Ok(())
}

/// Finds the component of a node, if that is not found yet.
fn add_component_of(
    alloc: Global,
    graph: &[Items<usize>],
    sources: &[Items<usize>],
    node: usize,
    components: &mut Components,
) -> Result<(), AllocError>
    requires whole { IsWhole graph.now }
    requires turned { IsTurned graph.now sources.now }
    requires components { AreComponents graph.now components.old.found.marks components.old.back.marks }
    ensures components { OnOk result (AreComponents graph.now components.new.found.marks components.new.back.marks) }
    ensures node { node < length graph.now → OnOk result (0 < component_at components.new.found.marks node) }
    ensures others { OnOk result ((v : ℕ) → 0 < component_at components.old.found.marks v → 0 < component_at components.new.found.marks v) }
{
    if node < graph.len() && number_at(components.found.marks.as_slice(), node) == 0 {
        add_component(alloc, graph, sources, node, components)?;
    }
    Ok(())
}

/// Finds the components of the nodes of an order, the last node first. In the order in which a walk leaves them each search stays
/// in its component.
fn in_this_order(
    alloc: Global,
    graph: &[Items<usize>],
    sources: &[Items<usize>],
    order: &[usize],
) -> Result<Components, AllocError>
    requires whole { IsWhole graph.now }
    requires turned { IsTurned graph.now sources.now }
    ensures { IfOk result (λ components. AreComponents graph.now components.found.marks components.back.marks) }
{
    let mut components = Components {
        found: unseen(alloc, graph.len())?,
        back: unseen(alloc, graph.len())?,
    };
    for node in order.iter().rev() {
        add_component_of(alloc, graph, sources, *node, &mut components)?;
    }
    Ok(components)
}

/// Finds the components that are not found yet.
fn add_all(
    alloc: Global,
    graph: &[Items<usize>],
    sources: &[Items<usize>],
    components: &mut Components,
) -> Result<(), AllocError>
    requires whole { IsWhole graph.now }
    requires turned { IsTurned graph.now sources.now }
    requires components { AreComponents graph.now components.old.found.marks components.old.back.marks }
    ensures { OnOk result (AreAll graph.now components.new.found.marks) }
{
    for node in 0..graph.len() {
        add_component_of(alloc, graph, sources, node, components)?;
    }
    Ok(())
}

/// Of each node the number of its strong component: two have one number exactly if they are one, or each reaches the other.
pub fn find_components(
    alloc: Global,
    graph: &[Items<usize>],
    sources: &[Items<usize>],
) -> Result<Items<usize>, AllocError>
    requires whole { IsWhole graph.now }
    requires turned { IsTurned graph.now sources.now }
    ensures { IfOk result (λ numbers. AreAll graph.now numbers) }
{
    let order = left_in_order(alloc, graph)?;
    let mut components = in_this_order(alloc, graph, sources, order.as_slice())?;
    add_all(alloc, graph, sources, &mut components)?;
    Ok(components.found.marks)
}

/// Whether two nodes are in one component.
fn is_one(numbers: &[usize], from: usize, to: usize) -> bool
    ensures { result ≡ spec_is_one numbers.now from to }
{
    number_at(numbers, from) == number_at(numbers, to)
}

/// Whether none of these nodes is in the component of a node.
fn are_apart(numbers: &[usize], from: usize, targets: &[usize]) -> bool
    ensures { result ≡ spec_are_apart numbers.now from targets.now }
{
    for to in targets {
        if is_one(numbers, from, *to) {
            return false;
        }
    }
    true
}

/// Whether no edge leads to a node of the component that it comes from.
fn all_apart(numbers: &[usize], graph: &[Items<usize>]) -> bool
    ensures { result ≡ spec_all_apart numbers.now 0 graph.now }
{
    for (from, targets) in graph.iter().enumerate() {
        if !are_apart(numbers, from, targets.as_slice()) {
            return false;
        }
    }
    true
}

/// Those of the nodes that are in other components than this one.
fn rests_of(
    alloc: Global,
    numbers: &[usize],
    from: usize,
    targets: &[usize],
) -> Result<Items<usize>, AllocError>
    ensures { IfOk result (λ rests. rests ≡ spec_rests_by numbers.now from targets.now) }
{
    let mut rests = Items::new(alloc);
    for to in targets {
        add_rest(numbers, from, *to, &mut rests)?;
    }
    Ok(rests)
}

/// A node is added, unless it is in the component of this one.
fn add_rest(
    numbers: &[usize],
    from: usize,
    to: usize,
    rests: &mut Items<usize>,
) -> Result<(), AllocError>
    ensures { OnOk result (rests.new ≡ rests.old ++ spec_rests_by numbers.now from (to ∷ [])) }
{
    if is_one(numbers, from, to) {
        return Ok(());
    }
    rests.push(to)
}

/// For each node those to which edges lead from it into other components.
fn all_rests_of(
    alloc: Global,
    graph: &[Items<usize>],
    numbers: &[usize],
) -> Result<Vec<Items<usize>>, AllocError>
    ensures { IfOk result (λ all. all.items ≡ spec_all_rests_by numbers.now 0 graph.now) }
{
    let mut all = Vec::with_capacity(alloc, graph.len())?;
    for (from, targets) in graph.iter().enumerate() {
        all.push(rests_of(alloc, numbers, from, targets.as_slice())?)?;
    }
    Ok(all)
}

/// For each node of a graph those that it rests on; nothing, only if these are all its targets. An edge stands in a circle if it leads
/// to a node of the component that it comes from. The graph is given turned round, too.
pub fn find_rests(
    alloc: Global,
    graph: &[Items<usize>],
    sources: &[Items<usize>],
) -> Result<Option<Vec<Items<usize>>>, AllocError>
    requires whole { IsWhole graph.now }
    requires turned { IsTurned graph.now sources.now }
    ensures { IfOk result (λ rests. rests_kept graph.now rests ≡ all_rests graph.now) }
{
    let numbers = find_components(alloc, graph, sources)?;
    if all_apart(numbers.as_slice(), graph) {
        return Ok(None);
    }
    Ok(Some(all_rests_of(alloc, graph, numbers.as_slice())?))
}
