//! What a session is told of a command, and what a whole session is told, with the receipts of its edits.
ghost use Rattle.occheck_sessions.specs.declared.talk.Broken.TheVariants as broken;
ghost use Rattle.std.specs.Prelude.{◌≡◌};

use super::heard::Heard;
use occ_board::EditFault;
use occ_server::Receipt;
use std::alloc::{AllocError, AllocFailed};

/// A report as bytes, and how many edits it has seen.
#[derive(Drop)]
pub struct Told {
    pub seen: usize,
    pub text: Vec<u8>,
}

/// What a session was told by the server.
#[derive(Drop)]
pub enum Said {
    /// The edit was made.
    Edited,
    /// The name or the text is wrong; the server was not asked.
    Wrong,
    /// The server refuses the edit.
    Refused(EditFault),
    /// No unit was pending.
    Settled,
    /// The report.
    Reported(Told),
}

/// What a session was told, command by command, and the receipts of its edits.
#[derive(Drop)]
pub struct Talk {
    pub heard: Heard,
    pub receipts: Vec<Receipt>,
}

/// Why a run of sessions gives no output.
#[derive(Clone, Copy)]
pub enum Broken {
    /// Memory was refused, or a thread could not be started.
    Memory,
    /// What a session was told does not agree with the edits that were made.
    Disagree,
}

impl From<AllocError> for Broken {
    ghost from_gives = { λ _ e. e ≡ broken.Memory };

    fn from(_error: AllocError) -> Broken {
        Broken::Memory
    }
}

impl<T: Drop> From<AllocFailed<T>> for Broken {
    ghost from_gives = { λ _ e. e ≡ broken.Memory };

    fn from(_error: AllocFailed<T>) -> Broken {
        Broken::Memory
    }
}
