//! The numbers of nodes stay. Their indices rise where a node comes before them.
ghost use Rattle.occ_project_graph.specs.Adding.{raised as spec_raised};
ghost use Rattle.occ_project_graph.specs.Graph.{is_among};
ghost use Rattle.occ_project_graph.specs.inside.Numbering.{IsNumbered, IsRaising};
ghost use Rattle.std.specs.List.{insert, range_with_len};
ghost use Rattle.std.specs.Prelude.{◌≡◌, ◌<◌, ◌≤◌, ◌+◌, ◌++◌, ◌∷◌, [], ℕ, IfOk, get_or, length, map, slice_set, true, vec_len, vec_capacity};

use sqlite_items::Items;
use std::alloc::{AllocError, Global};

/// The numbers of so many nodes, each of which has its index for it.
pub fn first_numbers(alloc: Global, count: usize) -> Result<Vec<usize>, AllocError>
    ensures { IfOk result (λ numbers. numbers.items ≡ range_with_len 0 count) }
{
    let mut numbers = Vec::with_capacity(alloc, count)?;
    for number in 0..count {
        numbers.push(number)?;
    }
    Ok(numbers)
}

/// The number of the node that then has an index, where the node of the next number comes to an index.
fn number_then(numbers: &[usize], at: usize, index: usize) -> usize
    requires at { at ≤ length numbers.now }
    requires index { index ≤ length numbers.now }
    ensures { result ≡ get_or (insert numbers.now at (length numbers.now)) index 0 }
{
    if index == at {
        numbers.len()
    } else if index < at {
        numbers[index]
    } else {
        numbers[index - 1]
    }
}

/// The numbers of the nodes that then have these indices.
pub fn numbers_then(
    alloc: Global,
    numbers: &[usize],
    at: usize,
    indices: &[usize],
) -> Result<Items<usize>, AllocError>
    requires at { at ≤ length numbers.now }
    requires within { (p : ℕ) → is_among indices.now p ≡ true → p ≤ length numbers.now }
    ensures { IfOk result (λ found. found ≡ map (λ p. get_or (insert numbers.now at (length numbers.now)) p 0) indices.now) }
{
    let mut found = Vec::with_capacity(alloc, indices.len())?;
    for index in indices {
        found.push(number_then(numbers, at, *index))?;
    }
    Ok(Items::from_vec(found))
}

/// The index of the node of a number rises by one.
fn raise(indices: &mut [usize], number: usize, count: usize)
    requires within { number < length indices.old }
    requires fits { get_or indices.old number 0 < count }
    ensures { indices.new ≡ slice_set indices.old number (get_or indices.old number 0 + 1) }
{
    indices[number] += 1;
}

/// The same of each node that has an index or a later one, four at a time. It says before which index all have risen: three are left
/// at most.
fn raise_fours(indices: &mut [usize], numbers: &[usize], at: usize) -> usize
    requires { IsNumbered numbers.now indices.old }
    ensures { IsRaising numbers.now indices.old indices.new at result }
{
    let count = numbers.len();
    let mut place = at;
    while count.saturating_sub(place) >= 4 {
        raise(indices, numbers[place], count);
        raise(indices, numbers[place + 1], count);
        raise(indices, numbers[place + 2], count);
        raise(indices, numbers[place + 3], count);
        place += 4;
    }
    place
}

/// The same of all of them.
fn raise_from(indices: &mut [usize], numbers: &[usize], at: usize)
    requires { IsNumbered numbers.now indices.old }
    ensures { indices.new ≡ map (spec_raised at) indices.old }
{
    for place in raise_fours(indices, numbers, at)..numbers.len() {
        raise(indices, numbers[place], numbers.len());
    }
}

/// Adds an item for which there is room.
pub fn push_within<T: Drop>(items: &mut Vec<T>, item: T)
    requires { vec_len items.old < vec_capacity items.old }
    ensures { items.new.items ≡ items.old.items ++ item ∷ [] }
{
    let _ = items.push(item);
}

/// The same numbers, with room for one more.
pub fn with_room(alloc: Global, numbers: &[usize]) -> Result<Vec<usize>, AllocError>
    ensures items { IfOk result (λ copy. copy.items ≡ numbers.now) }
    ensures room { IfOk result (λ copy. vec_len copy < vec_capacity copy) }
{
    let mut copy = Vec::with_capacity(alloc, numbers.len().saturating_add(1))?;
    copy.extend_from_slice(numbers)?;
    copy.reserve(1)?;
    Ok(copy)
}

/// The node of the next number comes to an index.
pub fn insert_node(numbers: &mut Vec<usize>, indices: &mut Vec<usize>, at: usize)
    requires at { at ≤ vec_len numbers.old }
    requires room { vec_len numbers.old < vec_capacity numbers.old }
    requires more_room { vec_len indices.old < vec_capacity indices.old }
    requires numbered { IsNumbered numbers.old.items indices.old.items }
    ensures numbers { numbers.new.items ≡ insert numbers.old.items at (length numbers.old.items) }
    ensures indices { indices.new.items ≡ map (spec_raised at) indices.old.items ++ at ∷ [] }
{
    let number = numbers.len();
    raise_from(indices.as_mut_slice(), numbers.as_slice(), at);
    let _ = numbers.insert(at, number);
    push_within(indices, at);
}
