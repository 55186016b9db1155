//! Why an edit is refused, the first reason that holds; when a journal is full; and how many files are open after one that is not.
ghost use Rattle.occ_board.specs.Journal.{else_fault, if_full as spec_if_full, is_full as spec_is_full, is_open, open_number, refusal_of};
ghost use Rattle.occ_board.specs.declared.entry.Edit.TheVariants as an_edit;
ghost use Rattle.occ_board.specs.declared.entry.EditFault.TheVariants as fault;
ghost use Rattle.occ_board.specs.inside.Holding.{count_then};
ghost use Rattle.std.specs.Prelude.{◌≡◌, ◌<◌, ◌^◌, ℕ, IsTrue, List, nat_le, not};

use super::entry::{Edit, EditFault};
use occ_base::FileName;
use occ_project_units::Project;

/// No more edits are accepted after so many since the base.
const ENTRY_LIMIT: usize = 100_000;
/// No more edits are accepted after the one with this number.
const LAST_NUMBER: usize = 4_294_967_295;
/// No more files are open.
const FILE_LIMIT: usize = 4096;

/// Whether no more edits are accepted, where so many were since the base, and the last one has this number.
pub fn is_full(accepted: usize, last: usize) -> bool
    ensures { result ≡ spec_is_full accepted last }
{
    accepted >= ENTRY_LIMIT || last >= LAST_NUMBER
}

/// The refusal of a full journal.
fn if_full(full: bool) -> Option<EditFault>
    ensures { result ≡ spec_if_full full }
{
    if full {
        Some(EditFault::JournalFull)
    } else {
        None
    }
}

/// Why a file is not opened, where so many are open.
fn opening(
    project: &Project,
    opened: usize,
    full: bool,
    hint: usize,
    name: FileName,
) -> Option<EditFault>
    requires { opened ≡ open_number project.now }
    ensures { result ≡ else_fault (is_open project.now name) fault.AlreadyOpen (else_fault (nat_le 4096 (open_number project.now)) fault.TooManyFiles (spec_if_full full)) }
{
    if project.get_near(hint, name).is_some() {
        Some(EditFault::AlreadyOpen)
    } else if opened >= FILE_LIMIT {
        Some(EditFault::TooManyFiles)
    } else {
        if_full(full)
    }
}

/// Why an open file is neither changed nor closed.
fn changing(project: &Project, full: bool, hint: usize, name: FileName) -> Option<EditFault>
    ensures { result ≡ else_fault (not (is_open project.now name)) fault.NotOpen (spec_if_full full) }
{
    if project.get_near(hint, name).is_none() {
        Some(EditFault::NotOpen)
    } else {
        if_full(full)
    }
}

/// Why an edit is refused, the first that holds, where so many files are open and the journal is full or not.
pub fn refusal(
    project: &Project,
    opened: usize,
    full: bool,
    hint: usize,
    edit: &Edit,
) -> Option<EditFault>
    requires { opened ≡ open_number project.now }
    ensures { result ≡ refusal_of project.now full edit.now }
{
    match edit {
        Edit::Added(name, _) => opening(project, opened, full, hint, *name),
        Edit::Changed(name, _) | Edit::Removed(name) => changing(project, full, hint, *name),
    }
}

/// How many open files of a sort there are after an edit that is not refused, where there are so many before it, and this
/// says whether the edit's file is of that sort.
pub fn count_after(count: usize, edit: &Edit, is_counted: bool) -> usize
    requires most { count < 2 ^ 62 }
    requires least { (name : List ℕ) → edit.now ≡ an_edit.Removed name → IsTrue is_counted → 0 < count }
    ensures { result ≡ count_then is_counted count edit.now }
{
    if !is_counted {
        return count;
    }
    match edit {
        Edit::Added(_, _) => count + 1,
        Edit::Changed(_, _) => count,
        Edit::Removed(_) => count - 1,
    }
}
