//! Scripts that run beside one another, each as a session of one server, with workers beside them. A private part of occheck.
//!
//! Nothing rests on what threads do: once they have ended, what each session was told is held against the edits that the
//! server ends with, command by command, and only what agrees is written.
//!
//! `specs/Sessions.antt` says what a session may be told beside a journal, `specs/Output.antt` what a whole run writes;
//! `run_sessions` carries that.
#![tactic(auto)]

mod announcing;
mod answering;
mod editing;
mod heard;
mod judging;
mod matching;
mod output;
mod reading;
mod run;
mod script;
mod session;
mod talk;

pub use occ_server::Gate;
pub use occheck_script::{Status, StdIn, StdOut, run_script};
pub use run::run_sessions;
