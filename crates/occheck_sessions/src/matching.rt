//! Finds the next edit of a session in the journal, and compares it with what a command asks for.
ghost use Rattle.occ_board.specs.Journal.{IsBase, nothing};
ghost use Rattle.occ_board.specs.declared.entry.Edit.TheVariants as an_edit;
ghost use Rattle.occ_lines.specs.Lines.{limit_fault};
ghost use Rattle.occheck_script.specs.Machine.{AreLines, Reading, text_read};
ghost use Rattle.occheck_sessions.specs.Sessions.{edits_of, refuses_opening, refuses_other};
ghost use Rattle.std.specs.Prelude.{◌≡◌, ◌≤◌, ◌++◌, ◌∷◌, [], IfNone, IfSome, None, length, take, true};

use occ_base::FileName;
use occ_board::laws::base_law;
use occ_board::{Base, Edit, EditFault, Entry};
use occ_forms::{Source, source_law};
use occ_server::is_same_entry;

/// The number of the next edit of a session after a number, and the edit, if there is one.
pub fn next_edit(entries: &[Entry], session: u32, last: usize) -> Option<(usize, &Edit)>
    requires { last ≤ length entries.now }
    ensures within { IfSome result (λ next. next.0 ≤ length entries.now) }
    ensures next { IfSome result (λ next. edits_of session (take next.0 entries.now) ≡ edits_of session (take last entries.now) ++ next.1.now ∷ []) }
    ensures none { IfNone result (edits_of session entries.now ≡ edits_of session (take last entries.now)) }
{
    for place in last..entries.len() {
        let entry = &entries[place];
        if entry.session == session {
            return Some((place + 1, &entry.edit));
        }
    }
    None
}

/// Whether these are the first of the entries.
pub fn is_front(front: &[Entry], entries: &[Entry]) -> bool
    ensures within { result ≡ true → length front.now ≤ length entries.now }
    ensures front { result ≡ true → take (length front.now) entries.now ≡ front.now }
{
    if front.len() > entries.len() {
        return false;
    }
    for place in 0..front.len() {
        if !is_same_entry(&front[place], &entries[place]) {
            return false;
        }
    }
    true
}

/// Whether a base is the one before any edit, so that no edit was cut off.
pub fn is_first(base: &Base) -> bool
    requires { IsBase base.now }
    ensures { result ≡ true → base.now ≡ nothing }
{
    base_law();
    base.number == 0
}

/// Whether a text within the limits is that of a source.
fn is_text(source: &Source, text: &[u8]) -> bool
    requires { limit_fault text.now ≡ None }
    ensures { (read : Reading) → AreLines text.now (read text.now) → result ≡ true → source.now ≡ text_read read text.now }
{
    source_law();
    let _lines = source.lines();
    source.text() == text
}

fn is_named(file: &FileName, name: &[u8]) -> bool
    ensures { result ≡ true → file.now ≡ name.now }
{
    file.as_bytes() == name
}

/// Whether the edit opens this file with this text.
pub fn is_added(edit: &Edit, name: &[u8], text: &[u8]) -> bool
    requires { limit_fault text.now ≡ None }
    ensures { (read : Reading) → AreLines text.now (read text.now) → result ≡ true → edit.now ≡ an_edit.Added name.now (text_read read text.now) }
{
    match edit {
        Edit::Added(file, source) => is_named(file, name) && is_text(source.get(), text),
        Edit::Changed(_, _) | Edit::Removed(_) => false,
    }
}

/// Whether the edit gives this file this text.
pub fn is_changed(edit: &Edit, name: &[u8], text: &[u8]) -> bool
    requires { limit_fault text.now ≡ None }
    ensures { (read : Reading) → AreLines text.now (read text.now) → result ≡ true → edit.now ≡ an_edit.Changed name.now (text_read read text.now) }
{
    match edit {
        Edit::Changed(file, source) => is_named(file, name) && is_text(source.get(), text),
        Edit::Added(_, _) | Edit::Removed(_) => false,
    }
}

/// Whether the edit closes this file.
pub fn is_removed(edit: &Edit, name: &[u8]) -> bool
    ensures { result ≡ true → edit.now ≡ an_edit.Removed name.now }
{
    match edit {
        Edit::Removed(file) => is_named(file, name),
        Edit::Added(_, _) | Edit::Changed(_, _) => false,
    }
}

/// Whether a file may be refused to be opened for this.
pub fn may_refuse_opening(fault: EditFault) -> bool
    ensures { result ≡ refuses_opening fault }
{
    match fault {
        EditFault::AlreadyOpen | EditFault::TooManyFiles | EditFault::JournalFull => true,
        EditFault::NotOpen | EditFault::Memory => false,
    }
}

/// Whether an open file may be refused to be changed or closed for this.
pub fn may_refuse_other(fault: EditFault) -> bool
    ensures { result ≡ refuses_other fault }
{
    match fault {
        EditFault::NotOpen | EditFault::JournalFull => true,
        EditFault::AlreadyOpen | EditFault::TooManyFiles | EditFault::Memory => false,
    }
}
