//! The rows of a graph where one node more comes to an index, to which edges lead from others.
ghost use Rattle.occ_project_graph.specs.inside.Linking.{AreLed, AreLedRests, IsBetween, IsLed, marked, rests_kept};
ghost use Rattle.occ_project_graph.specs.Graph.{Graph, is_among, reaches, targets as spec_targets};
ghost use Rattle.std.specs.Prelude.{◌≡◌, ◌<◌, ◌+◌, ◌++◌, ◌∷◌, [], ℕ, IfOk, OnErr, OnOk, cond, false, get_or, length, map, true};

use super::adding::{put_rows, source_row};
use super::leading::{is_reached, replaced};
use super::search::targets as row;
use sqlite_items::Items;
use std::alloc::{AllocError, Global};

/// Whether a node is marked.
fn is_known(marks: &[bool], node: usize) -> bool
    ensures { result ≡ get_or marks.now node false }
{
    match marks.get(node) {
        Some(mark) => *mark,
        None => false,
    }
}

/// The rows of these nodes, to each of which the one of the next number is added, which comes to an index.
pub fn led_rows(
    alloc: Global,
    indices: &[usize],
    before: &[Items<usize>],
    at: usize,
    number: usize,
    nodes: &[usize],
) -> Result<Items<Items<usize>>, AllocError>
    ensures { IfOk result (λ rows. AreLed indices.now at number before.now nodes.now rows) }
{
    let mut rows = Vec::with_capacity(alloc, nodes.len())?;
    for node in nodes {
        let before = row(before, *node);
        rows.push(source_row(alloc, indices, before, at, number, 1)?)?;
    }
    Ok(Items::from_vec(rows))
}

/// The node of the next number, from which no edge leads, comes behind the others, and is added to the rows of these.
fn lead_rows(
    alloc: Global,
    indices: &[usize],
    rows: &mut Vec<Items<usize>>,
    at: usize,
    number: usize,
    nodes: &[usize],
) -> Result<(), AllocError>
    ensures ok { OnOk result (IsLed indices.now at number nodes.now rows.old.items rows.new.items) }
    ensures err { OnErr result (rows.new.items ≡ rows.old.items) }
{
    let found = led_rows(alloc, indices, rows.as_slice(), at, number, nodes)?;
    rows.push(Items::new(alloc))?;
    put_rows(rows, nodes, found);
    Ok(())
}

/// The same of what is kept of what nodes rest on, if something is.
pub fn lead_rests(
    alloc: Global,
    indices: &[usize],
    rests: &mut Option<Vec<Items<usize>>>,
    at: usize,
    number: usize,
    nodes: &[usize],
) -> Result<(), AllocError>
    ensures ok { OnOk result (AreLedRests indices.now at number nodes.now rests.old rests.new) }
    ensures err { OnErr result ((edges : Graph) → rests_kept edges rests.new ≡ rests_kept edges rests.old) }
{
    if let Some(rows) = rests {
        return lead_rows(alloc, indices, rows, at, number, nodes);
    }
    Ok(())
}

/// The same rows of these nodes.
fn rows_of(
    alloc: Global,
    rows: &[Items<usize>],
    nodes: &[usize],
) -> Result<Items<Items<usize>>, AllocError>
    ensures { IfOk result (λ copy. copy ≡ map (λ n. spec_targets rows.now n) nodes.now) }
{
    let mut copy = Items::from_vec(Vec::with_capacity(alloc, nodes.len())?);
    for node in nodes {
        copy.push(Items::from_slice(alloc, row(rows, *node))?)?;
    }
    Ok(copy)
}

/// Takes the last row away, and puts the rows of these nodes back.
fn take_back(rows: &mut Vec<Items<usize>>, nodes: &[usize], before: Items<Items<usize>>)
    requires { length before ≡ length nodes.now }
    ensures { (all : Graph) → length rows.old.items ≡ length all + 1 → before ≡ map (λ n. spec_targets all n) nodes.now → ((q : ℕ) → q < length all → is_among nodes.now q ≡ false → spec_targets rows.old.items q ≡ spec_targets all q) → rows.new.items ≡ all }
{
    put_rows(rows, nodes, before);
    let _last = rows.pop();
}

/// Whether one of these nodes is the one that comes to an index, or one that uses it, which has a mark. Then there is a circle.
pub fn leads_back(marks: &[bool], at: usize, targets: &[usize]) -> bool {
    for target in targets {
        let before = if *target > at { *target - 1 } else { *target };
        if *target == at || is_known(marks, before) {
            return true;
        }
    }
    false
}

/// Whether a node reaches itself by no way. If so, it is added to the rows of what its users rest on, if something is kept of that.
fn lead_free(
    alloc: Global,
    indices: &[usize],
    edges: &[Items<usize>],
    rests: &mut Option<Vec<Items<usize>>>,
    at: usize,
    number: usize,
    users: &[usize],
) -> Result<bool, AllocError>
    requires { number < length edges.now }
    ensures done { IfOk result (λ done. done ≡ true → AreLedRests indices.now at number users.now rests.old rests.new × (reaches edges.now number number ≡ false)) }
    ensures other { IfOk result (λ done. done ≡ false → (g : Graph) → rests_kept g rests.new ≡ rests_kept g rests.old) }
    ensures err { OnErr result ((g : Graph) → rests_kept g rests.new ≡ rests_kept g rests.old) }
{
    if is_reached(alloc, edges, number)? {
        return Ok(false);
    }
    lead_rests(alloc, indices, rests, at, number, users)?;
    Ok(true)
}

/// The node of the next number comes behind the others, if it then reaches itself by no way. Edges lead from it to these, and to it from
/// those users. What is kept of what nodes rest on gets the same, but no row of the node yet. Else nothing is changed.
pub fn lead_between(
    alloc: Global,
    indices: &[usize],
    edges: &mut Vec<Items<usize>>,
    rests: &mut Option<Vec<Items<usize>>>,
    at: usize,
    users: &[usize],
    led: &[usize],
) -> Result<bool, AllocError>
    ensures done { IfOk result (λ done. done ≡ true → IsBetween indices.now at users.now led.now edges.old.items edges.new.items rests.old rests.new) }
    ensures other { IfOk result (λ done. done ≡ false → edges.new.items ≡ edges.old.items × ((g : Graph) → rests_kept g rests.new ≡ rests_kept g rests.old)) }
    ensures err { OnErr result (edges.new.items ≡ edges.old.items × ((g : Graph) → rests_kept g rests.new ≡ rests_kept g rests.old)) }
{
    let number = edges.len();
    let before = rows_of(alloc, edges.as_slice(), users)?;
    let row = Items::from_slice(alloc, led)?;
    lead_rows(alloc, indices, edges, at, number, users)?;
    let _none = replaced(edges, number, row);
    match lead_free(alloc, indices, edges.as_slice(), rests, at, number, users) {
        Ok(true) => Ok(true),
        Ok(false) => {
            take_back(edges, users, before);
            Ok(false)
        }
        Err(refused) => {
            take_back(edges, users, before);
            Err(refused)
        }
    }
}

/// Adds a number, if so.
fn add_if(numbers: &mut Items<usize>, number: usize, is_marked: bool) -> Result<(), AllocError>
    ensures { OnOk result (numbers.new ≡ numbers.old ++ cond is_marked (number ∷ []) []) }
{
    if is_marked {
        numbers.push(number)?;
    }
    Ok(())
}

/// The numbers of the nodes that have a mark at their index, in the order of these.
pub fn marked_numbers(
    alloc: Global,
    numbers: &[usize],
    marks: &[bool],
) -> Result<Items<usize>, AllocError>
    ensures { IfOk result (λ found. found ≡ marked numbers.now marks.now) }
{
    let mut found = Items::new(alloc);
    for (index, number) in numbers.iter().enumerate() {
        add_if(&mut found, *number, is_known(marks, index))?;
    }
    Ok(found)
}
