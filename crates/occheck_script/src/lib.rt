//! The run of a script, from its bytes to the bytes of its answers: each command is an event of the board, or several. A
//! private part of occheck.
//!
//! `specs/Machine.antt` says what each command answers, `specs/Settling.antt` what it is to settle, `specs/Output.antt`
//! what a whole run writes; `run_script` carries that.
#![tactic(auto)]

mod again;
mod answer;
mod answering;
mod begun;
mod desk;
mod devices;
mod edit;
mod fault;
mod held;
mod input;
mod jobs;
mod report;
mod run;
mod settling;
mod status;
mod written;

pub use answer::{line, line_naming};
pub use devices::{ByteIn, ByteOut, Failed, StdIn, StdOut};
pub use edit::{RequestedEdit, board_word, named, read_edit, wrong_edit, wrong_name};
pub use input::{ReadFault, read_script};
pub use report::{report_lines, reports_errors};
pub use run::run_script;
pub use settling::settle;
pub use status::Status;
pub use written::write_all;
