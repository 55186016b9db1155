//! Edits, the entries of the journal, and why an edit is refused.
ghost use Rattle.occ_board.specs.Journal.{edited};
ghost use Rattle.occ_board.specs.declared.entry.EditFault.TheVariants as fault;
ghost use Rattle.occ_project_units.specs.Spelled.{IsSpelled};
ghost use Rattle.std.specs.Option.{option_copied};
ghost use Rattle.std.specs.Prelude.{◌≡◌, IfOk};

use occ_base::{FileName, Shared};
use occ_forms::Source;
use std::alloc::{AllocError, AllocFailed};

/// What happens to a file.
#[derive(Drop)]
pub enum Edit {
    /// It is opened with this text.
    Added(FileName, Shared<Source>),
    /// An open file gets this text.
    Changed(FileName, Shared<Source>),
    /// An open file is closed.
    Removed(FileName),
}

impl Edit {
    /// The file that it is of.
    pub fn name(&self) -> FileName
        ensures { result ≡ (edited 0 self.now).name }
    {
        match self {
            Edit::Added(name, _) | Edit::Changed(name, _) | Edit::Removed(name) => *name,
        }
    }

    /// The text that the file has from then on, if it is open.
    pub fn source(&self) -> Option<&Shared<Source>>
        ensures { option_copied result ≡ (edited 0 self.now).source }
    {
        match self {
            Edit::Added(_, source) | Edit::Changed(_, source) => Some(source),
            Edit::Removed(_) => None,
        }
    }

    /// That text, with one more owner. Its lines are those that it spells.
    pub(crate) fn shared(&self) -> Result<Option<Shared<Source>>, AllocError>
        ensures value { IfOk result (λ source. source ≡ (edited 0 self.now).source) }
        ensures spelled { IfOk result (λ source. IsSpelled source) }
    {
        match self.source() {
            Some(source) => {
                let _lines = source.get().lines();
                Ok(Some(source.share()?))
            }
            None => Ok(None),
        }
    }
}

/// An edit that was accepted, and the session that made it.
pub struct Entry {
    pub session: u32,
    pub edit: Edit,
}

/// Written out: crates above call it, where each would prove a derived one anew.
impl Drop for Entry {
    fn drop(self) {
        let Entry {
            session: _,
            edit: _,
        } = self;
    }
}

/// Why an edit is refused. Where several hold, the first of this order is reported.
#[derive(Clone, Copy)]
pub enum EditFault {
    /// The file that is to be opened is open.
    AlreadyOpen,
    /// The file that is to be changed or closed is not open.
    NotOpen,
    /// 4,096 files are open.
    TooManyFiles,
    /// 100,000 edits were accepted since the base, or the last one has the greatest number of 32 bits.
    JournalFull,
    /// Memory was refused.
    Memory,
}

impl From<AllocError> for EditFault {
    ghost from_gives = { λ _ e. e ≡ fault.Memory };

    fn from(_error: AllocError) -> EditFault {
        EditFault::Memory
    }
}

impl<T: Drop> From<AllocFailed<T>> for EditFault {
    ghost from_gives = { λ _ e. e ≡ fault.Memory };

    fn from(_error: AllocFailed<T>) -> EditFault {
        EditFault::Memory
    }
}
