//! Lists in which specifications are noted by parts: which of them are names for a part, or read one. A part that begins with a
//! field or with one place is in a list with all such parts of its root, and in one with those that begin as it does. What
//! is noted may be too much, never too little.
ghost use Rattle.std.specs.Prelude.{◌≡◌, ◌<◌, ℕ, IfSome, OnOk, length, true};
ghost use Rattle.occ_usage_conflicts.specs.inside.Beginning.{list_of as spec_list_of};
ghost use Rattle.occ_usage_lines.specs.inside.Noting.{AreKept, AreKeptBelow, are_in as spec_are_in, asked_list as spec_asked_list, beginning_of, begun_list as spec_begun_list, ends_from as spec_ends_from, has_read as spec_has_read, is_in, is_in_list, is_noted, is_placed_in, like_list as spec_like_list, names_in, noted as spec_noted, whole_list as spec_whole_list};

use occ_base::Items;
use occ_types::PartSelector;
use occ_usage_conflicts::list_of;
use occ_usage_parts::{Part, SelectedPart};
use occ_usage_values::{Bound, Use};
use std::alloc::{AllocError, Global};

/// So many roots have lists of their own; those after them share these lists.
const ROOTS: usize = 1021;

/// So many lists are told apart by the beginnings of parts.
const BEGINNINGS: usize = 1021;

/// How a part begins: with which field or place, if it is one.
#[inline(always)]
fn beginning(selectors: &[PartSelector]) -> Option<usize>
    ensures beginning { result ≡ beginning_of selectors.now }
    ensures within { IfSome result (λ at. at < 1021) }
{
    list_of(selectors, BEGINNINGS)
}

/// The list of the parts of a root that begin otherwise.
fn whole_list(root: usize) -> usize
    ensures { result ≡ spec_whole_list root }
{
    root % ROOTS * 3
}

/// The list of the parts of a root that begin with a field or one place.
fn begun_list(root: usize) -> usize
    ensures { result ≡ spec_begun_list root }
{
    root % ROOTS * 3 + 1
}

/// The list of the parts of a root that begin with this field or place.
fn like_list(root: usize, at: usize) -> usize
    requires { at < 1021 }
    ensures { result ≡ spec_like_list root at }
{
    (root % ROOTS + at) % ROOTS * 3 + 2
}

/// Makes lists, so that there is one with this number.
fn make_lists(alloc: Global, lists: &mut Vec<Items<usize>>, list: usize) -> Result<(), AllocError>
    ensures kept { AreKept lists.old.items lists.new.items }
    ensures room { OnOk result (list < length lists.new.items) }
{
    while lists.len() <= list {
        lists.push(Items::new(alloc))?;
    }
    Ok(())
}

/// Notes a number in a list that is there.
fn put(lists: &mut Vec<Items<usize>>, list: usize, number: usize) -> Result<(), AllocError>
    requires { list < length lists.old.items }
    ensures kept { AreKept lists.old.items lists.new.items }
    ensures noted { OnOk result (is_noted lists.new.items list number ≡ true) }
{
    lists[list].push(number)
}

/// Notes a number in a list.
fn note(
    alloc: Global,
    lists: &mut Vec<Items<usize>>,
    list: usize,
    number: usize,
) -> Result<(), AllocError>
    ensures kept { AreKept lists.old.items lists.new.items }
    ensures noted { OnOk result (is_noted lists.new.items list number ≡ true) }
{
    make_lists(alloc, lists, list)?;
    put(lists, list, number)
}

/// Notes a number in both lists of a part that begins with a field or one place.
fn note_begun(
    alloc: Global,
    lists: &mut Vec<Items<usize>>,
    root: usize,
    at: usize,
    number: usize,
) -> Result<(), AllocError>
    requires { at < 1021 }
    ensures kept { AreKept lists.old.items lists.new.items }
    ensures begun { OnOk result (is_noted lists.new.items (spec_begun_list root) number ≡ true) }
    ensures like { OnOk result (is_noted lists.new.items (spec_like_list root at) number ≡ true) }
{
    note(alloc, lists, begun_list(root), number)?;
    note(alloc, lists, like_list(root, at), number)
}

/// Notes a number in the lists of a part of this root, which begins so.
fn note_part(
    alloc: Global,
    lists: &mut Vec<Items<usize>>,
    root: usize,
    begins: Option<usize>,
    number: usize,
) -> Result<(), AllocError>
    requires { IfSome begins (λ at. at < 1021) }
    ensures kept { AreKept lists.old.items lists.new.items }
    ensures noted { OnOk result ((list : ℕ) → is_in_list list root begins ≡ true → is_noted lists.new.items list number ≡ true) }
{
    match begins {
        Some(at) => note_begun(alloc, lists, root, at, number),
        None => note(alloc, lists, whole_list(root), number),
    }
}

/// Notes a number in the lists of a place.
fn note_place(
    alloc: Global,
    lists: &mut Vec<Items<usize>>,
    place: &Option<SelectedPart>,
    number: usize,
) -> Result<(), AllocError>
    ensures kept { AreKept lists.old.items lists.new.items }
    ensures noted { OnOk result ((list : ℕ) → is_placed_in list place.now ≡ true → is_noted lists.new.items list number ≡ true) }
{
    match place {
        Some(place) => {
            let begins = beginning(place.selectors.as_slice());
            note_part(alloc, lists, place.root, begins, number)
        }
        None => Ok(()),
    }
}

/// Notes a number in the lists of uses.
fn note_uses(
    alloc: Global,
    lists: &mut Vec<Items<usize>>,
    uses: &[Use],
    number: usize,
) -> Result<(), AllocError>
    ensures kept { AreKept lists.old.items lists.new.items }
    ensures noted { OnOk result ((list : ℕ) → spec_are_in list uses.now ≡ true → is_noted lists.new.items list number ≡ true) }
{
    for found in uses {
        let begins = beginning(found.part.selectors.as_slice());
        note_part(alloc, lists, found.part.root, begins, number)?;
    }
    Ok(())
}

/// Notes the number of a specification.
pub(crate) fn note_bound(
    alloc: Global,
    named: &mut Vec<Items<usize>>,
    read: &mut Vec<Items<usize>>,
    bound: &Bound,
    number: usize,
) -> Result<(), AllocError>
    ensures named_kept { AreKept named.old.items named.new.items }
    ensures named { OnOk result ((list : ℕ) → names_in list bound.now ≡ true → is_noted named.new.items list number ≡ true) }
    ensures read_kept { AreKept read.old.items read.new.items }
    ensures read { OnOk result ((list : ℕ) → spec_has_read list bound.now ≡ true → is_noted read.new.items list number ≡ true) }
{
    match bound {
        Bound::Abbreviation(place, _, reads) => {
            note_place(alloc, named, place, number)?;
            note_uses(alloc, read, reads.as_slice(), number)
        }
        Bound::Value(_, _, reads) => note_uses(alloc, read, reads.as_slice(), number),
        Bound::Root(_) => Ok(()),
        Bound::Body(_, _) => Ok(()),
        Bound::Other => Ok(()),
    }
}

/// Whether the last of these numbers is not below this one.
fn ends_from(numbers: &[usize], depth: usize) -> bool
    ensures { result ≡ spec_ends_from numbers.now depth }
{
    match numbers.last() {
        Some(last) => *last >= depth,
        None => false,
    }
}

/// Strikes the last of these numbers that are not below this one.
fn strike_last(numbers: &mut Items<usize>, depth: usize)
    ensures { (n : ℕ) → n < depth → is_in numbers.old n ≡ true → is_in numbers.new n ≡ true }
{
    while ends_from(numbers.as_slice(), depth) {
        numbers.pop();
    }
}

/// Gives back the room of a list without a number: other rounds of a replicator may fill others.
fn release(alloc: Global, numbers: &mut Items<usize>)
    ensures { numbers.new ≡ numbers.old }
{
    if numbers.is_empty() {
        *numbers = Items::new(alloc);
    }
}

/// Strikes numbers that are in a list and not below this one.
fn strike(lists: &mut Vec<Items<usize>>, list: usize, depth: usize)
    ensures { AreKeptBelow depth lists.old.items lists.new.items }
{
    if list < lists.len() {
        let alloc = *lists.allocator();
        strike_last(&mut lists[list], depth);
        release(alloc, &mut lists[list]);
    }
}

/// Strikes numbers that are in the lists of a part of this root, which begins so, and not below this one.
fn strike_part(lists: &mut Vec<Items<usize>>, root: usize, begins: Option<usize>, depth: usize)
    requires { IfSome begins (λ at. at < 1021) }
    ensures { AreKeptBelow depth lists.old.items lists.new.items }
{
    match begins {
        Some(at) => {
            strike(lists, begun_list(root), depth);
            strike(lists, like_list(root, at), depth);
        }
        None => strike(lists, whole_list(root), depth),
    }
}

/// Strikes numbers that are in the lists of a place and not below this one.
fn strike_place(lists: &mut Vec<Items<usize>>, place: &Option<SelectedPart>, depth: usize)
    ensures { AreKeptBelow depth lists.old.items lists.new.items }
{
    if let Some(place) = place {
        let begins = beginning(place.selectors.as_slice());
        strike_part(lists, place.root, begins, depth);
    }
}

/// Strikes numbers that are in the lists of uses and not below this one.
fn strike_uses(lists: &mut Vec<Items<usize>>, uses: &[Use], depth: usize)
    ensures { AreKeptBelow depth lists.old.items lists.new.items }
{
    for found in uses {
        let begins = beginning(found.part.selectors.as_slice());
        strike_part(lists, found.part.root, begins, depth);
    }
}

/// Strikes numbers that are in the lists of a specification and not below this one.
pub(crate) fn strike_bound(
    named: &mut Vec<Items<usize>>,
    read: &mut Vec<Items<usize>>,
    bound: &Bound,
    depth: usize,
)
    ensures named { AreKeptBelow depth named.old.items named.new.items }
    ensures read { AreKeptBelow depth read.old.items read.new.items }
{
    match bound {
        Bound::Abbreviation(place, _, reads) => {
            strike_place(named, place, depth);
            strike_uses(read, reads.as_slice(), depth);
        }
        Bound::Value(_, _, reads) => strike_uses(read, reads.as_slice(), depth),
        Bound::Root(_) => {}
        Bound::Body(_, _) => {}
        Bound::Other => {}
    }
}

/// The numbers in a list.
fn noted(lists: &[Items<usize>], list: usize) -> &[usize]
    ensures { result.now ≡ spec_noted lists.now list }
{
    match lists.get(list) {
        Some(numbers) => numbers.as_slice(),
        None => &[],
    }
}

/// The list beside that of the whole of a root which is asked for a part that begins so: where it begins otherwise, it may
/// meet all parts of the root.
fn asked_list(root: usize, begins: Option<usize>) -> usize
    requires { IfSome begins (λ at. at < 1021) }
    ensures { result ≡ spec_asked_list root begins }
{
    match begins {
        Some(at) => like_list(root, at),
        None => begun_list(root),
    }
}

/// The numbers of those that are noted with a part which is not apart from this one, and perhaps others: two lists.
pub(crate) fn asked<'a>(lists: &'a [Items<usize>], part: &Part) -> (&'a [usize], &'a [usize])
    ensures whole { result.0.now ≡ spec_noted lists.now (spec_whole_list part.now.root) }
    ensures other { result.1.now ≡ spec_noted lists.now (spec_asked_list part.now.root (beginning_of part.now.selectors)) }
{
    let begins = beginning(part.selectors.as_slice());
    (
        noted(lists, whole_list(part.root)),
        noted(lists, asked_list(part.root, begins)),
    )
}
