//! Edits of the project with the flags after them. Flags are taken from units that read the file or reach one that does,
//! and set again where that is right.
ghost use Rattle.occ_board.specs.Done.{done};
ghost use Rattle.occ_board.specs.Edits.{IsApart};
ghost use Rattle.occ_board.specs.inside.Flagged.{AreFlags, IsFullAt, IsSound, unflagged};
ghost use Rattle.occ_board.specs.inside.Verified.{AreVerified, looked};
ghost use Rattle.occ_board.specs.inside.Revisions.{AllGivenByRevision, AreBefore};
ghost use Rattle.occ_board.specs.inside.Ready.{AreAwaited, is_ready};
ghost use Rattle.occ_board.specs.inside.Touched.{IsClosed};
ghost use Rattle.occ_board.specs.inside.Untouched.{AreFlagsOfOthers, AreVerifiedOfOthers};
ghost use Rattle.occ_check.specs.Input.{Input};
ghost use Rattle.occ_project_graph.specs.Graph.{has_edge, is_among as spec_is_among};
ghost use Rattle.occ_project.specs.Reads.{index as spec_index};
ghost use Rattle.occ_project.specs.declared.reads.Read.{Read as ARead};
ghost use Rattle.occ_project_units.specs.New.{IsGap, IsNew};
ghost use Rattle.occ_project_units.specs.Indices.{graph_of, readers_at};
ghost use Rattle.occ_project_units.specs.Project.{IsProject, put};
ghost use Rattle.occ_project_units.specs.Spelled.{AreSpelled, IsSpelled};
ghost use Rattle.std.specs.BTreeSet.{contains};
ghost use Rattle.std.specs.List.{insert};
ghost use Rattle.std.specs.Ordering.{nat_cmp};
ghost use Rattle.std.specs.Prelude.{◌≡◌, ◌<◌, ◌≤◌, ◌&&◌, ◌||◌, IfOk, List, OnErr, OnOk, Some, false, get_or, length, not, slice_get, true, ℕ};

use super::cached::Cached;
use super::flags::{Flags, is_flagged, settle, settle_among, settle_from, unflag, unflag_all};
use super::laws::{done_law, height_law};
use super::touched::Touched;
use super::verified::{forget_readers, verified_law, verify_none_at};
use super::waiting::Waiting;
use occ_base::{FileName, Shared};
use occ_check::Checked;
use occ_forms::Source;
use occ_project::Read;
use occ_project_graph::Nodes;
use occ_project_units::Graph;
use occ_project_units::laws::{
    along_law, circle_law, names_law, put_law, readers_law, reads_law, users_law,
};
use std::alloc::{AllocError, Global};

/// Where a new unit has more users than these, all flags are set anew.
const FEW_USERS: usize = 64;

/// An edit of a file changes neither whether a unit is done nor what a verified outcome of it looked at, if the file is a read neither
/// of the unit nor of a unit that it reaches.
fn apart_law()
    ensures done { (files : List ARead) (file : ARead) (cached : List Input) (u : List ℕ) → IsProject files → IsApart files file.name u → done (put files file) cached u ≡ done files cached u }
    ensures looked { (files : List ARead) (file : ARead) (cached : List Input) (u : List ℕ) → IsApart files file.name u → looked (put files file) cached u ≡ looked files cached u }
{
    put_law();
    reads_law();
    circle_law();
    done_law();
    height_law();
    along_law::<Checked>();
}

/// Whether what uses the file at an index is marked with it: where all is, or else it has its flag.
fn goes_on(flags: &Flags, all: bool, index: usize) -> bool
    ensures { result ≡ (all || get_or flags.now index false) }
{
    all || is_flagged(flags.as_slice(), index)
}

/// Marks the unit at an index, unless it is marked, and then so each that uses it: where not all are to be marked that reach it, if
/// it has its flag, since without it none has one that rests on it. It goes no deeper than there are units.
#[cycle(touch)]
#[inline(always)]
fn touch(
    graph: &Graph,
    flags: &Flags,
    all: bool,
    touched: &mut Touched,
    index: usize,
) -> Result<(), AllocError>
    requires within { index < length graph.now }
    requires len { length touched.old ≡ length graph.now }
    ensures len { OnOk result (length touched.new ≡ length graph.now) }
    ensures least { OnOk result (unflagged touched.new ≤ unflagged touched.old) }
    ensures more { OnOk result ((p : ℕ) → get_or touched.old p false ≡ true → get_or touched.new p false ≡ true) }
    ensures here { OnOk result (get_or touched.new index false ≡ true) }
    ensures closed { OnOk result ((p q : ℕ) → has_edge (graph_of graph.now) p q ≡ true → (all || get_or flags.now q false) ≡ true → get_or touched.old q false ≡ false → get_or touched.new q false ≡ true → get_or touched.new p false ≡ true) }
{
    if touched.has(index) {
        return Ok(());
    }
    touch_first(graph, flags, all, touched, index)
}

/// The same of a unit that is not marked.
#[cycle(touch)]
fn touch_first(
    graph: &Graph,
    flags: &Flags,
    all: bool,
    touched: &mut Touched,
    index: usize,
) -> Result<(), AllocError>
    requires within { index < length graph.now }
    requires len { length touched.old ≡ length graph.now }
    requires unmarked { get_or touched.old index false ≡ false }
    ensures len { OnOk result (length touched.new ≡ length graph.now) }
    ensures least { OnOk result (unflagged touched.new ≤ unflagged touched.old) }
    ensures more { OnOk result ((p : ℕ) → get_or touched.old p false ≡ true → get_or touched.new p false ≡ true) }
    ensures here { OnOk result (get_or touched.new index false ≡ true) }
    ensures closed { OnOk result ((p q : ℕ) → has_edge (graph_of graph.now) p q ≡ true → (all || get_or flags.now q false) ≡ true → get_or touched.old q false ≡ false → get_or touched.new q false ≡ true → get_or touched.new p false ≡ true) }
{
    users_law();
    touched.mark(index)?;
    if !goes_on(flags, all, index) {
        return Ok(());
    }
    let users = graph.users(index);
    for place in 0..users.count() {
        touch(graph, flags, all, touched, users.at(place))?;
    }
    Ok(())
}

/// The same where what uses a marked one is marked, which is so after it.
fn touch_also(
    graph: &Graph,
    flags: &Flags,
    all: bool,
    touched: &mut Touched,
    index: usize,
) -> Result<(), AllocError>
    requires within { index < length graph.now }
    requires len { length touched.old ≡ length graph.now }
    requires closed { IsClosed (graph_of graph.now) flags.now all touched.old }
    ensures len { OnOk result (length touched.new ≡ length graph.now) }
    ensures more { OnOk result ((p : ℕ) → get_or touched.old p false ≡ true → get_or touched.new p false ≡ true) }
    ensures here { OnOk result (get_or touched.new index false ≡ true) }
    ensures closed { OnOk result (IsClosed (graph_of graph.now) flags.now all touched.new) }
{
    touch(graph, flags, all, touched, index)?;
    Ok(())
}

/// Marks of the files that an edit of the one at an index may concern: that file, the units that read it, and those that reach
/// one of these, or else of them those that rest on one by units that have their flags.
fn touched_by(
    alloc: Global,
    graph: &Graph,
    flags: &Flags,
    all: bool,
    index: usize,
    readers: &[usize],
) -> Result<Touched, AllocError>
    requires within { index < length graph.now }
    requires readers { readers.now ≡ readers_at graph.now index }
    ensures len { IfOk result (λ touched. length touched ≡ length graph.now) }
    ensures here { IfOk result (λ touched. get_or touched index false ≡ true) }
    ensures readers { IfOk result (λ touched. (p : ℕ) → spec_is_among readers.now p ≡ true → get_or touched p false ≡ true) }
    ensures closed { IfOk result (λ touched. IsClosed (graph_of graph.now) flags.now all touched) }
{
    readers_law();
    let mut touched = Touched::none(alloc, graph.project().files().len());
    touch_also(graph, flags, all, &mut touched, index)?;
    for reader in readers {
        touch_also(graph, flags, all, &mut touched, *reader)?;
    }
    Ok(touched)
}

/// Sets the flags of all units that are done, where none was missing but those of marked units. It takes no memory.
fn resettle(
    graph: &Graph,
    cached: &Cached,
    flags: &mut Flags,
    verified: &mut Flags,
    touched: &Touched,
)
    requires len { length flags.old ≡ length graph.now }
    requires marks { length touched.now ≡ length graph.now }
    requires sound { IsSound graph.now cached.now flags.old }
    requires reported { AllGivenByRevision graph.now cached.now }
    requires verified { AreVerified graph.now cached.now verified.old }
    requires full { (p : ℕ) → p < length graph.now → get_or touched.now p false ≡ false → IsFullAt graph.now cached.now flags.old p }
    ensures len { length flags.new ≡ length graph.now }
    ensures flags { AreFlags graph.now cached.now flags.new }
    ensures verified { AreVerified graph.now cached.now verified.new }
{
    settle_among(
        graph,
        cached,
        flags,
        verified,
        &Nodes::of_indices(touched.indices()),
    );
}

/// The same, where of the units that are ready only marked ones may be unknown. What is known of ready units follows.
fn resettle_waiting(
    graph: &Graph,
    cached: &Cached,
    flags: &mut Flags,
    verified: &mut Flags,
    waiting: &mut Waiting,
    touched: &Touched,
)
    requires len { length flags.old ≡ length graph.now }
    requires marks { length touched.now ≡ length graph.now }
    requires sound { IsSound graph.now cached.now flags.old }
    requires reported { AllGivenByRevision graph.now cached.now }
    requires verified { AreVerified graph.now cached.now verified.old }
    requires full { (p : ℕ) → p < length graph.now → get_or touched.now p false ≡ false → IsFullAt graph.now cached.now flags.old p }
    requires awaited { (p : ℕ) (file : ARead) → p < waiting.old.from → slice_get graph.now p ≡ Some file → get_or touched.now p false ≡ false → is_ready graph.now flags.old p file ≡ true → contains nat_cmp waiting.old.early p ≡ true }
    ensures len { length flags.new ≡ length graph.now }
    ensures flags { AreFlags graph.now cached.now flags.new }
    ensures verified { AreVerified graph.now cached.now verified.new }
    ensures awaited { AreAwaited graph.now flags.new waiting.new.early waiting.new.from }
{
    let _files = graph.project().files();
    let count = flags.count();
    resettle(graph, cached, flags, verified, touched);
    if flags.count() == count {
        waiting.begin_with(
            graph,
            flags.as_slice(),
            &Nodes::of_indices(touched.indices()),
        );
    } else {
        waiting.forget();
    }
}

/// The graph, the flags and what is verified after the edit of a file that was not there, and that no file looks for. What there
/// was stays, but for its indices. Memory for what is verified is taken before the graph changes, so that no refusal is passed over.
fn renew_new(
    alloc: Global,
    graph: &mut Graph,
    cached: &Cached,
    flags: &mut Flags,
    verified: &mut Flags,
    index: usize,
    name: FileName,
    revision: u32,
    source: Option<Shared<Source>>,
) -> Result<(), AllocError>
    requires new { IsNew graph.old name index }
    requires spelled { AreSpelled graph.old }
    requires len { length flags.old ≡ length graph.old }
    requires flags { AreFlags graph.old cached.now flags.old }
    requires reported { AllGivenByRevision graph.old cached.now }
    requires verified { AreVerified graph.old cached.now verified.old }
    requires before { AreBefore revision cached.now }
    ensures graph { OnOk result (graph.new ≡ put graph.old (record { name = name; revision = revision; source = source })) }
    ensures len { OnOk result (length flags.new ≡ length graph.new) }
    ensures flags { OnOk result (AreFlags graph.new cached.now flags.new) }
    ensures verified { OnOk result (AreVerified graph.new cached.now verified.new) }
    ensures err { OnErr result ((graph.new ≡ graph.old) × (flags.new ≡ flags.old) × (verified.new ≡ verified.old)) }
{
    let _files = graph.project().files();
    apart_law();
    put_law();
    done_law();
    height_law();
    names_law();
    verified.make_room()?;
    flags.insert(index)?;
    if let Err(refused) = graph.add(alloc, index, name, revision, source) {
        flags.remove(index);
        return Err(refused);
    }
    let _ = verify_none_at(verified, index);
    if !name.is_unit() {
        settle_from(graph, cached, flags, verified, index, name);
    }
    Ok(())
}

/// Whether the file at an index is a unit that few use. The edit that puts it mostly concerns few units then. It promises nothing.
fn is_used_by_few(graph: &Graph, name: FileName, index: usize) -> bool
    requires { index < length graph.now }
{
    name.is_unit() && graph.users(index).count() <= FEW_USERS
}

/// The files that the edit may concern that put the one at an index: it, its readers, and all that reach one of these.
fn touched_at(
    alloc: Global,
    graph: &mut Graph,
    flags: &Flags,
    index: usize,
) -> Result<Touched, AllocError>
    requires { index < length graph.old }
    ensures same { graph.new ≡ graph.old }
    ensures len { IfOk result (λ touched. length touched ≡ length graph.new) }
    ensures here { IfOk result (λ touched. get_or touched index false ≡ true) }
    ensures readers { IfOk result (λ touched. (p : ℕ) → spec_is_among (readers_at graph.new index) p ≡ true → get_or touched p false ≡ true) }
    ensures closed { IfOk result (λ touched. IsClosed (graph_of graph.new) flags.now true touched) }
{
    let readers = graph.readers(alloc, index)?;
    touched_by(alloc, graph, flags, true, index, readers.as_slice())
}

/// Sets the flags of all done units after the edit of a file. Only of what the edit concerns, which is marked, flags and verified
/// outcomes may be wrong before. It takes no memory.
fn settle_touched(
    graph: &Graph,
    cached: &Cached,
    flags: &mut Flags,
    verified: &mut Flags,
    name: FileName,
    index: usize,
    touched: &Touched,
)
    requires index { spec_index name graph.now ≡ Some index }
    requires spelled { AreSpelled graph.now }
    requires len { length flags.old ≡ length graph.now }
    requires flags { AreFlagsOfOthers graph.now cached.now flags.old name }
    requires reported { AllGivenByRevision graph.now cached.now }
    requires verified { AreVerifiedOfOthers graph.now cached.now verified.old name }
    requires marks { length touched.now ≡ length graph.now }
    requires here { get_or touched.now index false ≡ true }
    requires readers { (p : ℕ) → spec_is_among (readers_at graph.now index) p ≡ true → get_or touched.now p false ≡ true }
    requires closed { IsClosed (graph_of graph.now) flags.old true touched.now }
    ensures len { length flags.new ≡ length graph.now }
    ensures flags { AreFlags graph.now cached.now flags.new }
    ensures verified { AreVerified graph.now cached.now verified.new }
{
    let _files = graph.project().files();
    names_law();
    readers_law();
    done_law();
    let indices = Nodes::of_indices(touched.indices());
    unflag(verified, &indices);
    unflag(flags, &indices);
    resettle(graph, cached, flags, verified, touched);
}

/// Sets the flags of all units that are done, whichever were set before. It takes no memory.
fn settle_anew(graph: &Graph, cached: &Cached, flags: &mut Flags, verified: &mut Flags)
    requires len { length flags.old ≡ length graph.now }
    requires reported { AllGivenByRevision graph.now cached.now }
    ensures len { length flags.new ≡ length graph.now }
    ensures flags { AreFlags graph.now cached.now flags.new }
    ensures verified { AreVerified graph.now cached.now verified.new }
{
    unflag_all(flags);
    unflag_all(verified);
    settle(graph, cached, flags, verified);
}

/// The same, where nothing is marked yet. All flags are set anew if the file is an include or has many users. So they are where no
/// outcome is cached, or memory for marks is refused.
fn settle_others(
    alloc: Global,
    graph: &mut Graph,
    cached: &Cached,
    flags: &mut Flags,
    verified: &mut Flags,
    name: FileName,
    index: usize,
)
    requires index { spec_index name graph.old ≡ Some index }
    requires spelled { AreSpelled graph.old }
    requires len { length flags.old ≡ length graph.old }
    requires flags { AreFlagsOfOthers graph.old cached.now flags.old name }
    requires reported { AllGivenByRevision graph.old cached.now }
    requires verified { AreVerifiedOfOthers graph.old cached.now verified.old name }
    ensures graph { graph.new ≡ graph.old }
    ensures len { length flags.new ≡ length graph.new }
    ensures flags { AreFlags graph.new cached.now flags.new }
    ensures verified { AreVerified graph.new cached.now verified.new }
{
    if cached.is_empty() || !is_used_by_few(graph, name, index) {
        settle_anew(graph, cached, flags, verified);
        return;
    }
    match touched_at(alloc, graph, flags, index) {
        Ok(touched) => settle_touched(graph, cached, flags, verified, name, index, &touched),
        Err(_refused) => settle_anew(graph, cached, flags, verified),
    }
}

/// A file has the lines that its text spells.
fn spelled_law(source: &Option<Shared<Source>>)
    ensures { IsSpelled source.now }
{
    if let Some(source) = source {
        let _lines = source.get().lines();
    }
}

/// The graph, the flags and what is verified after the edit of a file that was not there, and that others may look for.
fn renew_used(
    alloc: Global,
    graph: &mut Graph,
    cached: &Cached,
    flags: &mut Flags,
    verified: &mut Flags,
    at: usize,
    name: FileName,
    revision: u32,
    source: Option<Shared<Source>>,
) -> Result<(), AllocError>
    requires gap { IsGap name graph.old at }
    requires spelled { AreSpelled graph.old }
    requires len { length flags.old ≡ length graph.old }
    requires flags { AreFlags graph.old cached.now flags.old }
    requires reported { AllGivenByRevision graph.old cached.now }
    requires verified { AreVerified graph.old cached.now verified.old }
    requires before { AreBefore revision cached.now }
    ensures graph { OnOk result (graph.new ≡ put graph.old (record { name = name; revision = revision; source = source })) }
    ensures len { OnOk result (length flags.new ≡ length graph.new) }
    ensures flags { OnOk result (AreFlags graph.new cached.now flags.new) }
    ensures verified { OnOk result (AreVerified graph.new cached.now verified.new) }
    ensures err { OnErr result ((graph.new ≡ graph.old) × (flags.new ≡ flags.old) × (verified.new ≡ verified.old)) }
{
    let _files = graph.project().files();
    apart_law();
    put_law();
    done_law();
    reads_law();
    spelled_law(&source);
    verified.make_room()?;
    flags.insert(at)?;
    if let Err(refused) = graph.put(alloc, name, revision, source) {
        flags.remove(at);
        return Err(refused);
    }
    let _ = verify_none_at(verified, at);
    settle_others(alloc, graph, cached, flags, verified, name, at);
    Ok(())
}

/// The graph, the flags and what is verified after a file comes in the place of the one at an index, which the units at these indices
/// read, if it is open as that was and these read and use the same as before; and whether that is so. Else nothing is changed. Only the
/// readers look at something else then, so of the others none loses its flag but those that rest on one.
fn renew_alike(
    alloc: Global,
    graph: &mut Graph,
    cached: &Cached,
    flags: &mut Flags,
    verified: &mut Flags,
    waiting: &mut Waiting,
    index: usize,
    readers: &[usize],
    file: &Read,
) -> Result<bool, AllocError>
    requires index { spec_index file.now.name graph.old ≡ Some index }
    requires readers { readers.now ≡ readers_at graph.old index }
    requires len { length flags.old ≡ length graph.old }
    requires flags { AreFlags graph.old cached.now flags.old }
    requires reported { AllGivenByRevision graph.old cached.now }
    requires verified { AreVerified graph.old cached.now verified.old }
    requires awaited { AreAwaited graph.old flags.old waiting.old.early waiting.old.from }
    requires before { AreBefore file.now.revision cached.now }
    ensures graph { IfOk result (λ alike. alike ≡ true → graph.new ≡ put graph.old file.now) }
    ensures len { IfOk result (λ alike. alike ≡ true → length flags.new ≡ length graph.new) }
    ensures flags { IfOk result (λ alike. alike ≡ true → AreFlags graph.new cached.now flags.new) }
    ensures verified { IfOk result (λ alike. alike ≡ true → AreVerified graph.new cached.now verified.new) }
    ensures awaited { AreAwaited graph.new flags.new waiting.new.early waiting.new.from }
    ensures other { IfOk result (λ alike. alike ≡ false → (graph.new ≡ graph.old) × (flags.new ≡ flags.old) × (verified.new ≡ verified.old)) }
    ensures err { OnErr result ((graph.new ≡ graph.old) × (flags.new ≡ flags.old) × (verified.new ≡ verified.old)) }
{
    let _files = graph.project().files();
    verified_law();
    put_law();
    done_law();
    height_law();
    readers_law();
    reads_law();
    let touched = touched_by(alloc, graph, flags, false, index, readers)?;
    if !graph.set_alike(alloc, index, readers, file)? {
        return Ok(false);
    }
    unflag(verified, &Nodes::of_indices(readers));
    unflag(flags, &Nodes::of_indices(touched.indices()));
    resettle_waiting(graph, cached, flags, verified, waiting, &touched);
    Ok(true)
}

/// The graph, the flags and what is verified after a file comes in the place of the one at an index, which the units at these indices
/// read. What the edit does not concern stays where it is.
fn renew_other(
    alloc: Global,
    graph: &mut Graph,
    cached: &Cached,
    flags: &mut Flags,
    verified: &mut Flags,
    index: usize,
    readers: &[usize],
    file: Read,
) -> Result<(), AllocError>
    requires index { spec_index file.name graph.old ≡ Some index }
    requires readers { readers.now ≡ readers_at graph.old index }
    requires spelled { AreSpelled graph.old }
    requires len { length flags.old ≡ length graph.old }
    requires flags { AreFlags graph.old cached.now flags.old }
    requires reported { AllGivenByRevision graph.old cached.now }
    requires verified { AreVerified graph.old cached.now verified.old }
    requires before { AreBefore file.revision cached.now }
    ensures graph { OnOk result (graph.new ≡ put graph.old file) }
    ensures len { OnOk result (length flags.new ≡ length graph.new) }
    ensures flags { OnOk result (AreFlags graph.new cached.now flags.new) }
    ensures verified { OnOk result (AreVerified graph.new cached.now verified.new) }
    ensures err { OnErr result ((graph.new ≡ graph.old) × (flags.new ≡ flags.old) × (verified.new ≡ verified.old)) }
{
    let _files = graph.project().files();
    apart_law();
    put_law();
    done_law();
    names_law();
    readers_law();
    reads_law();
    let touched = touched_by(alloc, graph, flags, true, index, readers)?;
    let alike = graph.set(alloc, index, file)?;
    forget_readers(verified, readers, &touched, alike);
    unflag(flags, &Nodes::of_indices(touched.indices()));
    resettle(graph, cached, flags, verified, &touched);
    Ok(())
}

/// The graph, the flags and what is verified after the edit of the file at an index.
fn renew_at(
    alloc: Global,
    graph: &mut Graph,
    cached: &Cached,
    flags: &mut Flags,
    verified: &mut Flags,
    waiting: &mut Waiting,
    index: usize,
    file: Read,
) -> Result<(), AllocError>
    requires index { spec_index file.name graph.old ≡ Some index }
    requires spelled { AreSpelled graph.old }
    requires len { length flags.old ≡ length graph.old }
    requires flags { AreFlags graph.old cached.now flags.old }
    requires reported { AllGivenByRevision graph.old cached.now }
    requires verified { AreVerified graph.old cached.now verified.old }
    requires awaited { AreAwaited graph.old flags.old waiting.old.early waiting.old.from }
    requires before { AreBefore file.revision cached.now }
    ensures graph { OnOk result (graph.new ≡ put graph.old file) }
    ensures len { OnOk result (length flags.new ≡ length graph.new) }
    ensures flags { OnOk result (AreFlags graph.new cached.now flags.new) }
    ensures verified { OnOk result (AreVerified graph.new cached.now verified.new) }
    ensures awaited { AreAwaited graph.new flags.new waiting.new.early waiting.new.from }
    ensures err { OnErr result ((graph.new ≡ graph.old) × (flags.new ≡ flags.old) × (verified.new ≡ verified.old)) }
{
    let readers = graph.readers(alloc, index)?;
    let readers = readers.as_slice();
    if renew_alike(
        alloc, graph, cached, flags, verified, waiting, index, readers, &file,
    )? {
        return Ok(());
    }
    waiting.forget();
    renew_other(alloc, graph, cached, flags, verified, index, readers, file)
}

/// Gives a file, which is looked for at an index first, this text, or takes it away, by the edit of that number. Where these were the
/// flags of the units that are done, they are so after it. It says where the file is looked for first, which promises nothing.
pub fn renew(
    alloc: Global,
    graph: &mut Graph,
    cached: &Cached,
    flags: &mut Flags,
    verified: &mut Flags,
    waiting: &mut Waiting,
    hint: usize,
    name: FileName,
    revision: u32,
    source: Option<Shared<Source>>,
) -> Result<usize, AllocError>
    requires spelled { AreSpelled graph.old }
    requires len { length flags.old ≡ length graph.old }
    requires flags { AreFlags graph.old cached.now flags.old }
    requires reported { AllGivenByRevision graph.old cached.now }
    requires verified { AreVerified graph.old cached.now verified.old }
    requires awaited { AreAwaited graph.old flags.old waiting.old.early waiting.old.from }
    requires before { AreBefore revision cached.now }
    ensures graph { OnOk result (graph.new ≡ put graph.old (record { name = name; revision = revision; source = source })) }
    ensures len { OnOk result (length flags.new ≡ length graph.new) }
    ensures flags { OnOk result (AreFlags graph.new cached.now flags.new) }
    ensures verified { OnOk result (AreVerified graph.new cached.now verified.new) }
    ensures awaited { AreAwaited graph.new flags.new waiting.new.early waiting.new.from }
    ensures err { OnErr result ((graph.new ≡ graph.old) × (flags.new ≡ flags.old) × (verified.new ≡ verified.old)) }
{
    if let Some(index) = graph.project().index_near(hint, name) {
        let file = Read {
            name,
            revision,
            source,
        };
        renew_at(alloc, graph, cached, flags, verified, waiting, index, file)?;
        return Ok(index);
    }
    waiting.forget();
    if let Some(index) = graph.index_for(name) {
        renew_new(
            alloc, graph, cached, flags, verified, index, name, revision, source,
        )?;
        return Ok(index);
    }
    let index = graph.project().gap_of(name);
    renew_used(
        alloc, graph, cached, flags, verified, index, name, revision, source,
    )?;
    Ok(index)
}
