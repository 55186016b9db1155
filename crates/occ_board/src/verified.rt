//! Which cached outcomes are verified, so that nothing is compared. What an edit, or another interface, makes doubtful is
//! forgotten; to forget too much costs time and no answer.
ghost use Rattle.occ_board.specs.Done.{done, is_cached, cached_of};
ghost use Rattle.occ_board.specs.Journal.{is_open};
ghost use Rattle.occ_board.specs.inside.Flagged.{flag_of};
ghost use Rattle.occ_board.specs.inside.Verified.{AreVerified, looked};
ghost use Rattle.occ_board.specs.inside.Ready.{is_rested};
ghost use Rattle.occ_board.specs.inside.Revisions.{AllGivenByRevision};
ghost use Rattle.occ_project_graph.specs.Graph.{is_among as spec_is_among};
ghost use Rattle.occ_project.specs.Entries.{is_among};
ghost use Rattle.occ_project.specs.Reads.{index as spec_index};
ghost use Rattle.occ_project.specs.declared.reads.Read.{Read};
ghost use Rattle.occ_check.specs.Checks.{input};
ghost use Rattle.occ_check.specs.Input.{Input};
ghost use Rattle.occ_project_units.specs.Project.{IsProject};
ghost use Rattle.occ_project_units.specs.Units.{used_units};
ghost use Rattle.std.specs.List.{insert};
ghost use Rattle.std.specs.Prelude.{◌≡◌, ◌≤◌, ◌⊎◌, [], List, OnOk, Some, false, get_or, length, true, ℕ};

use super::cached::Cached;
use super::flags::{Flags, is_flagged, unflag};
use super::laws::{cached_law, done_law};
use super::present::is_cached_now;
use super::touched::Touched;
use occ_base::FileName;
use occ_check::laws::input_law;
use occ_project_graph::Nodes;
use occ_project_units::Graph;
use occ_project_units::laws::users_law;
use std::alloc::AllocError;

/// Where all that a unit rests on is done, what its check looks at is what it would look at if what is cached of each unit were
/// what it shows; and of a unit that is done an outcome that looked at this is cached.
pub fn verified_law()
    ensures looked { (files : List Read) (cached : List Input) (u : List ℕ) → IsProject files → is_rested files cached u ≡ true → looked files cached u ≡ input files u }
    ensures done { (files : List Read) (cached : List Input) (u : List ℕ) → IsProject files → done files cached u ≡ true → cached_of cached u ≡ Some (looked files cached u) }
{
    done_law();
    cached_law();
    input_law();
}

/// Whether the outcome that is cached of the unit at an index looked at what is so at present, where all that it rests on is done.
/// Nothing is compared where it is verified.
pub fn is_current(
    graph: &Graph,
    cached: &Cached,
    verified: &[bool],
    index: usize,
    unit: FileName,
) -> bool
    requires index { spec_index unit graph.now ≡ Some index }
    requires rested { is_rested graph.now cached.now unit ≡ true }
    requires reported { AllGivenByRevision graph.now cached.now }
    requires verified { AreVerified graph.now cached.now verified.now }
    ensures { result ≡ is_cached cached.now (input graph.now unit) }
{
    let _files = graph.project().files();
    verified_law();
    if is_flagged(verified, index) {
        return true;
    }
    is_cached_now(graph, cached, index, unit)
}

/// After an edit of a file that these units read none of them is verified; nor is any marked one, if who uses whom or which files
/// are open is not as before.
pub fn forget_readers(verified: &mut Flags, readers: &[usize], touched: &Touched, alike: bool)
    ensures { (p : ℕ) → get_or verified.new p false ≡ true → (get_or verified.old p false ≡ true) × (((alike ≡ true) × (spec_is_among readers.now p ≡ false)) ⊎ (get_or touched.now p false ≡ false)) }
{
    if alike {
        unflag(verified, &Nodes::of_indices(readers));
        return;
    }
    unflag(verified, &Nodes::of_indices(touched.indices()));
}

/// Of an index that is new nothing is verified, nor of any other if there is no such index yet. Where memory is refused nothing is
/// known to be verified any more.
pub fn verify_none_at(verified: &mut Flags, index: usize) -> Result<(), AllocError>
    ensures known { ((index ≤ length verified.old) × (verified.new ≡ insert verified.old index false)) ⊎ (verified.new ≡ []) }
    ensures kept { OnOk result (index ≤ length verified.old → verified.new ≡ insert verified.old index false) }
{
    if index > verified.as_slice().len() {
        verified.clear();
        return Ok(());
    }
    if let Err(refused) = verified.insert(index) {
        verified.clear();
        return Err(refused);
    }
    Ok(())
}

/// After an accepted outcome of an open unit, which is looked for at an index first: of the units that use it none is verified,
/// unless it shows the same as before.
pub fn forget_users(graph: &Graph, verified: &mut Flags, hint: usize, unit: FileName, same: bool)
    requires { is_open graph.now unit ≡ true }
    ensures { (u : List ℕ) → flag_of graph.now verified.new u ≡ true → (flag_of graph.now verified.old u ≡ true) × ((same ≡ true) ⊎ (is_among (used_units graph.now u) unit ≡ false)) }
{
    users_law();
    if same {
        return;
    }
    let Some(index) = graph.project().index_near(hint, unit) else {
        return;
    };
    unflag(verified, &graph.users(index));
}
