//! The flags of done units and how many are set. After an accepted outcome they are set along users, after some edits in
//! passes. If no flag is wrong and none is missing, exactly the done units are flagged.
ghost use Rattle.occ_board.specs.Done.{done, done_step};
ghost use Rattle.occ_board.specs.inside.Verified.{AreVerified};
ghost use Rattle.occ_board.specs.inside.Flagged.{AreFlags, IsFull, IsFullAt, IsSound, flag_of, flagged, rest_flag, unflagged};
ghost use Rattle.occ_board.specs.inside.Ready.{AreAwaited};
ghost use Rattle.occ_board.specs.inside.Revisions.{AllGivenByRevision};
ghost use Rattle.occ_project_graph.specs.Graph.{is_among as spec_is_among, rests};
ghost use Rattle.occ_project_units.specs.Along.{name_at};
ghost use Rattle.occ_project_units.specs.Indices.{graph_of, rest_units};
ghost use Rattle.occ_project_units.specs.Project.{IsProject};
ghost use Rattle.std.specs.List.{insert, list_all};
ghost use Rattle.std.specs.Prelude.{◌≡◌, ◌<◌, ◌≤◌, ◌&&◌, ◌⊎◌, [], IsFalse, IsTrue, OnErr, OnOk, Some, false, get_or, length, not, remove, slice_get, slice_set, true, ℕ};
ghost use Rattle.std.specs.Str.{bytes_eq};

use super::cached::Cached;
use super::laws::{done_law, height_law};
use super::verified::{is_current, verified_law};
use super::waiting::Waiting;
use occ_base::{FileName, Shared};
use occ_project::Read;
use occ_project_graph::Nodes;
use occ_project_units::Graph;
use occ_project_units::laws::users_law;
use sqlite_items::at;
use std::alloc::{AllocError, Global};
use std::marker::Model;

/// A flag for each index, and how many are set. In contracts it is the list of the flags.
#[derive(Drop)]
pub struct Flags {
    flags: Vec<bool>,
    set: usize,
}

impl Model for Flags {
    ghost use Rattle.occ_board.specs.inside.Flagged.{flagged};
    ghost use Rattle.std.specs.Coded.{coded_bool, coded_list};
    ghost use Rattle.std.specs.Prelude.{◌≡◌, Bool, List};

    ghost Value = { List Bool };

    ghost coded = { coded_list coded_bool };

    ghost view = { λ flags. flags.flags.items };

    ghost invariant = { λ flags. flags.set ≡ flagged flags.flags.items };
}

impl Flags {
    /// For no index.
    pub fn new(alloc: Global) -> Flags
        ensures { result ≡ [] }
    {
        Flags {
            flags: Vec::new(alloc),
            set: 0,
        }
    }

    /// Takes memory for one more, so that the next is put in without a request.
    pub fn make_room(&mut self) -> Result<(), AllocError>
        ensures { self.new ≡ self.old }
    {
        self.flags.reserve(1)?;
        Ok(())
    }

    /// Puts one in that is not set, where an index is new.
    pub fn insert(&mut self, index: usize) -> Result<(), AllocError>
        requires { index ≤ length self.old }
        ensures ok { OnOk result (self.new ≡ insert self.old index false) }
        ensures err { OnErr result (self.new ≡ self.old) }
    {
        self.flags.insert(index, false)?;
        Ok(())
    }

    /// Takes the one of an index out, which is not set.
    pub fn remove(&mut self, index: usize)
        requires within { index < length self.old }
        requires unset { get_or self.old index false ≡ false }
        ensures { self.new ≡ remove self.old index }
    {
        self.flags.remove(index);
    }

    /// For no index any more.
    pub fn clear(&mut self)
        ensures { self.new ≡ [] }
    {
        self.flags.clear();
        self.set = 0;
    }

    /// The flags, in order of their indices.
    pub fn as_slice(&self) -> &[bool]
        ensures { result.now ≡ self.now }
    {
        self.flags.as_slice()
    }

    /// How many are set.
    pub fn count(&self) -> usize
        ensures { result ≡ flagged self.now }
    {
        self.set
    }

    /// Sets the flag of an index.
    pub fn set(&mut self, index: usize)
        ensures { self.new ≡ slice_set self.old index true }
    {
        if index < self.flags.len() && !is_flagged(self.flags.as_slice(), index) {
            self.flags[index] = true;
            self.set += 1;
        }
    }

    /// Takes the flag of an index.
    pub fn unset(&mut self, index: usize)
        ensures { self.new ≡ slice_set self.old index false }
    {
        if is_flagged(self.flags.as_slice(), index) {
            self.flags[index] = false;
            self.set -= 1;
        }
    }
}

/// Takes the flags of these indices.
pub fn unflag(flags: &mut Flags, indices: &Nodes<'_>)
    ensures len { length flags.new ≡ length flags.old }
    ensures flags { (p : ℕ) → get_or flags.new p false ≡ (get_or flags.old p false && not (spec_is_among indices.now p)) }
{
    for place in 0..indices.count() {
        flags.unset(indices.at(place));
    }
}

/// Takes all flags.
pub fn unflag_all(flags: &mut Flags)
    ensures len { length flags.new ≡ length flags.old }
    ensures flags { (p : ℕ) → get_or flags.new p false ≡ false }
{
    for index in 0..flags.as_slice().len() {
        flags.unset(index);
    }
}

/// Whether the flag at an index is set.
pub fn is_flagged(flags: &[bool], index: usize) -> bool
    ensures { result ≡ get_or flags.now index false }
{
    match flags.get(index) {
        Some(flag) => *flag,
        None => false,
    }
}

/// Whether a unit, which is looked for at an index first, has its flag.
pub fn has_flag(graph: &Graph, flags: &[bool], hint: usize, unit: FileName) -> bool
    ensures { result ≡ flag_of graph.now flags.now unit }
{
    match graph.project().index_near(hint, unit) {
        Some(index) => is_flagged(flags, index),
        None => false,
    }
}

/// Whether the file at an index is absent, or has its flag.
fn is_rest_flagged(files: &[Shared<Read>], flags: &[bool], index: usize) -> bool
    ensures { result ≡ rest_flag files.now flags.now index }
{
    if is_flagged(flags, index) {
        return true;
    }
    match at(files, index) {
        Some(file) => file.get().source.is_none(),
        None => true,
    }
}

/// Whether the file at the last of these indices, if there is one, is absent or has its flag.
fn is_last_flagged(files: &[Shared<Read>], flags: &[bool], indices: &Nodes<'_>) -> bool
    ensures { IsFalse result → list_all (rest_flag files.now flags.now) indices.now ≡ false }
{
    match indices.count().checked_sub(1) {
        Some(place) => is_rest_flagged(files, flags, indices.at(place)),
        None => true,
    }
}

/// Whether the files at these indices are absent, or have their flags. The last is looked at first: in order of name what has no
/// flag yet often stands at one of both ends.
#[inline(always)]
fn are_flagged(files: &[Shared<Read>], flags: &[bool], indices: &Nodes<'_>) -> bool
    ensures { result ≡ list_all (rest_flag files.now flags.now) indices.now }
{
    if !is_last_flagged(files, flags, indices) {
        return false;
    }
    are_all_flagged(files, flags, indices)
}

/// The same, from the first on.
fn are_all_flagged(files: &[Shared<Read>], flags: &[bool], indices: &Nodes<'_>) -> bool
    ensures { result ≡ list_all (rest_flag files.now flags.now) indices.now }
{
    for place in 0..indices.count() {
        if !is_rest_flagged(files, flags, indices.at(place)) {
            return false;
        }
    }
    true
}

/// Whether all units that the one at an index rests on have their flags.
#[inline(always)]
pub fn are_rests_flagged(graph: &Graph, flags: &[bool], index: usize) -> bool
    requires { index < length graph.now }
    ensures { result ≡ list_all (flag_of graph.now flags.now) (rest_units graph.now (name_at graph.now index)) }
{
    are_flagged(graph.project().files(), flags, &graph.rests(index))
}

/// Whether the last unit that the one at an index rests on, if there is one, is open and has no flag. That one is not done then.
#[inline(always)]
fn is_waiting(graph: &Graph, flags: &[bool], index: usize) -> bool
    requires { index < length graph.now }
    ensures { IsTrue result → list_all (flag_of graph.now flags.now) (rest_units graph.now (name_at graph.now index)) ≡ false }
{
    !is_last_flagged(graph.project().files(), flags, &graph.rests(index))
}

/// Whether the file at an index is done, as far as the flags report.
fn is_file_done(
    graph: &Graph,
    cached: &Cached,
    flags: &[bool],
    verified: &[bool],
    index: usize,
    file: &Read,
) -> bool
    requires project { IsProject graph.now }
    requires file { slice_get graph.now index ≡ Some file.now }
    requires sound { IsSound graph.now cached.now flags.now }
    requires reported { AllGivenByRevision graph.now cached.now }
    requires verified { AreVerified graph.now cached.now verified.now }
    ensures { result ≡ done_step graph.now cached.now file.now.name (flag_of graph.now flags.now) }
{
    if file.source.is_none() {
        return false;
    }
    if !are_rests_flagged(graph, flags, index) {
        return false;
    }
    is_current(graph, cached, verified, index, file.name)
}

/// The same of an index.
fn is_done_by(
    graph: &Graph,
    cached: &Cached,
    flags: &[bool],
    verified: &[bool],
    index: usize,
) -> bool
    requires within { index < length graph.now }
    requires sound { IsSound graph.now cached.now flags.now }
    requires reported { AllGivenByRevision graph.now cached.now }
    requires verified { AreVerified graph.now cached.now verified.now }
    ensures value { result ≡ done_step graph.now cached.now (name_at graph.now index) (flag_of graph.now flags.now) }
    ensures done { IsTrue result → done graph.now cached.now (name_at graph.now index) ≡ true }
{
    done_law();
    match at(graph.project().files(), index) {
        Some(file) => is_file_done(graph, cached, flags, verified, index, file.get()),
        None => false,
    }
}

/// Sets the flag of a unit that is done by the flags that are set, and says whether it did.
fn advance(
    graph: &Graph,
    cached: &Cached,
    flags: &mut Flags,
    verified: &mut Flags,
    index: usize,
) -> bool
    requires within { index < length graph.now }
    requires len { length flags.old ≡ length graph.now }
    requires sound { IsSound graph.now cached.now flags.old }
    requires reported { AllGivenByRevision graph.now cached.now }
    requires verified { AreVerified graph.now cached.now verified.old }
    ensures len { length flags.new ≡ length graph.now }
    ensures sound { IsSound graph.now cached.now flags.new }
    ensures verified { AreVerified graph.now cached.now verified.new }
    ensures fewer { IsTrue result → unflagged flags.new < unflagged flags.old }
    ensures set { IsTrue result → flags.new ≡ slice_set flags.old index true }
    ensures same { IsFalse result → flags.new ≡ flags.old }
    ensures full { IsFalse result → IsFullAt graph.now cached.now flags.new index }
{
    let _files = graph.project().files();
    verified_law();
    if is_flagged(flags.as_slice(), index)
        || !is_done_by(graph, cached, flags.as_slice(), verified.as_slice(), index)
    {
        return false;
    }
    flags.set(index);
    verified.set(index);
    true
}

/// Goes once through all units, and says whether it set a flag.
fn pass(graph: &Graph, cached: &Cached, flags: &mut Flags, verified: &mut Flags) -> bool
    requires len { length flags.old ≡ length graph.now }
    requires sound { IsSound graph.now cached.now flags.old }
    requires reported { AllGivenByRevision graph.now cached.now }
    requires verified { AreVerified graph.now cached.now verified.old }
    ensures len { length flags.new ≡ length graph.now }
    ensures sound { IsSound graph.now cached.now flags.new }
    ensures verified { AreVerified graph.now cached.now verified.new }
    ensures fewer { IsTrue result → unflagged flags.new < unflagged flags.old }
    ensures full { IsFalse result → IsFull graph.now cached.now flags.new (length graph.now) }
{
    let mut advanced = false;
    for index in 0..flags.as_slice().len() {
        if advance(graph, cached, flags, verified, index) {
            advanced = true;
        }
    }
    advanced
}

/// Sets the flags of all units that are done, which none is where no outcome is cached. It takes no memory.
pub fn settle(graph: &Graph, cached: &Cached, flags: &mut Flags, verified: &mut Flags)
    requires len { length flags.old ≡ length graph.now }
    requires sound { IsSound graph.now cached.now flags.old }
    requires reported { AllGivenByRevision graph.now cached.now }
    requires verified { AreVerified graph.now cached.now verified.old }
    ensures len { length flags.new ≡ length graph.now }
    ensures flags { AreFlags graph.now cached.now flags.new }
    ensures verified { AreVerified graph.now cached.now verified.new }
{
    let _files = graph.project().files();
    done_law();
    height_law();
    if cached.is_empty() {
        return;
    }
    while pass(graph, cached, flags, verified) {}
}

/// Sets the flag of the unit at an index, if it is done by the flags that are set, and then so of each that rests on it. If
/// no other flag was missing, none is then. It takes no memory, and goes no deeper than there are units.
#[cycle(spread)]
fn spread(graph: &Graph, cached: &Cached, flags: &mut Flags, verified: &mut Flags, index: usize)
    requires within { index < length graph.now }
    requires len { length flags.old ≡ length graph.now }
    requires sound { IsSound graph.now cached.now flags.old }
    requires reported { AllGivenByRevision graph.now cached.now }
    requires verified { AreVerified graph.now cached.now verified.old }
    ensures len { length flags.new ≡ length graph.now }
    ensures sound { IsSound graph.now cached.now flags.new }
    ensures verified { AreVerified graph.now cached.now verified.new }
    ensures least { unflagged flags.new ≤ unflagged flags.old }
    ensures full { (p : ℕ) → p < length graph.now → IsFullAt graph.now cached.now flags.old p ⊎ (index ≡ p) → IsFullAt graph.now cached.now flags.new p }
{
    let _files = graph.project().files();
    users_law();
    if !advance(graph, cached, flags, verified, index) {
        return;
    }
    let users = graph.users(index);
    for place in 0..users.count() {
        spread_to(graph, cached, flags, verified, users.at(place));
    }
}

/// The same. Most units that are not done by the flags wait for one unit, which is looked at first.
#[cycle(spread)]
#[inline(always)]
fn spread_to(graph: &Graph, cached: &Cached, flags: &mut Flags, verified: &mut Flags, index: usize)
    requires within { index < length graph.now }
    requires len { length flags.old ≡ length graph.now }
    requires sound { IsSound graph.now cached.now flags.old }
    requires reported { AllGivenByRevision graph.now cached.now }
    requires verified { AreVerified graph.now cached.now verified.old }
    ensures len { length flags.new ≡ length graph.now }
    ensures sound { IsSound graph.now cached.now flags.new }
    ensures verified { AreVerified graph.now cached.now verified.new }
    ensures least { unflagged flags.new ≤ unflagged flags.old }
    ensures full { (p : ℕ) → p < length graph.now → IsFullAt graph.now cached.now flags.old p ⊎ (index ≡ p) → IsFullAt graph.now cached.now flags.new p }
{
    if is_waiting(graph, flags.as_slice(), index) {
        return;
    }
    spread(graph, cached, flags, verified, index);
}

/// Sets the flags of all units that are done, where none was missing but those of the units at these indices. It takes no
/// memory.
pub fn settle_among(
    graph: &Graph,
    cached: &Cached,
    flags: &mut Flags,
    verified: &mut Flags,
    indices: &Nodes<'_>,
)
    requires within { (p : ℕ) → spec_is_among indices.now p ≡ true → p < length graph.now }
    requires len { length flags.old ≡ length graph.now }
    requires sound { IsSound graph.now cached.now flags.old }
    requires reported { AllGivenByRevision graph.now cached.now }
    requires verified { AreVerified graph.now cached.now verified.old }
    requires full { (p : ℕ) → p < length graph.now → IsFullAt graph.now cached.now flags.old p ⊎ (spec_is_among indices.now p ≡ true) }
    ensures len { length flags.new ≡ length graph.now }
    ensures flags { AreFlags graph.now cached.now flags.new }
    ensures verified { AreVerified graph.now cached.now verified.new }
{
    let _files = graph.project().files();
    done_law();
    height_law();
    for place in 0..indices.count() {
        spread_to(graph, cached, flags, verified, indices.at(place));
    }
}

/// Sets the flags of all units that are done, where none was missing but that of the unit at an index, which is done, and those
/// of units that rest on it. It says whether no other was. It takes no memory.
fn settle_done(
    graph: &Graph,
    cached: &Cached,
    flags: &mut Flags,
    verified: &mut Flags,
    index: usize,
) -> bool
    requires within { index < length graph.now }
    requires len { length flags.old ≡ length graph.now }
    requires sound { IsSound graph.now cached.now flags.old }
    requires reported { AllGivenByRevision graph.now cached.now }
    requires verified { AreVerified graph.now cached.now verified.old }
    requires done { done graph.now cached.now (name_at graph.now index) ≡ true }
    requires full { (p : ℕ) → p < length graph.now → IsFullAt graph.now cached.now flags.old p ⊎ (index ≡ p) }
    ensures len { length flags.new ≡ length graph.now }
    ensures flags { AreFlags graph.now cached.now flags.new }
    ensures verified { AreVerified graph.now cached.now verified.new }
    ensures alone { IsTrue result → flags.new ≡ slice_set flags.old index true }
{
    let _files = graph.project().files();
    users_law();
    verified_law();
    flags.set(index);
    verified.set(index);
    let count = flags.count();
    settle_among(graph, cached, flags, verified, &graph.users(index));
    flags.count() == count
}

/// Sets the flags of all units that are done, where none was missing but that of this unit, which is done and looked for at a
/// index first, and those of units that rest on it. What is known of ready units follows.
pub fn settle_cached(
    graph: &Graph,
    cached: &Cached,
    flags: &mut Flags,
    verified: &mut Flags,
    waiting: &mut Waiting,
    hint: usize,
    unit: FileName,
)
    requires len { length flags.old ≡ length graph.now }
    requires sound { IsSound graph.now cached.now flags.old }
    requires reported { AllGivenByRevision graph.now cached.now }
    requires verified { AreVerified graph.now cached.now verified.old }
    requires awaited { AreAwaited graph.now flags.old waiting.old.early waiting.old.from }
    requires done { done graph.now cached.now unit ≡ true }
    requires full { (p : ℕ) → p < length graph.now → bytes_eq unit (name_at graph.now p) ≡ false → IsFullAt graph.now cached.now flags.old p }
    ensures len { length flags.new ≡ length graph.now }
    ensures flags { AreFlags graph.now cached.now flags.new }
    ensures verified { AreVerified graph.now cached.now verified.new }
    ensures awaited { AreAwaited graph.now flags.new waiting.new.early waiting.new.from }
{
    let _files = graph.project().files();
    done_law();
    height_law();
    users_law();
    let Some(index) = graph.project().index_near(hint, unit) else {
        waiting.forget();
        return;
    };
    if settle_done(graph, cached, flags, verified, index) {
        waiting.follow(graph, flags.as_slice(), index, &graph.users(index));
    } else {
        waiting.forget();
    }
}

/// Sets the flags of all units that are done, where none was missing but that of this unit, which is looked for at an index
/// first. It takes no memory.
pub fn settle_from(
    graph: &Graph,
    cached: &Cached,
    flags: &mut Flags,
    verified: &mut Flags,
    hint: usize,
    unit: FileName,
)
    requires len { length flags.old ≡ length graph.now }
    requires sound { IsSound graph.now cached.now flags.old }
    requires reported { AllGivenByRevision graph.now cached.now }
    requires verified { AreVerified graph.now cached.now verified.old }
    requires full { (p : ℕ) → p < length graph.now → bytes_eq unit (name_at graph.now p) ≡ false → IsFullAt graph.now cached.now flags.old p }
    ensures len { length flags.new ≡ length graph.now }
    ensures flags { AreFlags graph.now cached.now flags.new }
    ensures verified { AreVerified graph.now cached.now verified.new }
{
    let _files = graph.project().files();
    done_law();
    height_law();
    if cached.is_empty() {
        return;
    }
    let Some(index) = graph.project().index_near(hint, unit) else {
        return;
    };
    spread(graph, cached, flags, verified, index);
}
