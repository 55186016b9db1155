//! How a run ended, and the exit status for it. `docs/MACHINE.md, Status`.
ghost use Rattle.std.specs.Prelude.{◌≡◌};
ghost use Rattle.occheck_script.specs.Status.{exit_code};

/// How the run of a script ended.
#[derive(Clone, Copy, PartialEq, Eq)]
pub enum Status {
    /// The last report had no line of grade error, or there was none.
    Clean,
    /// The last report had a line of grade error.
    Errors,
    /// The script is wrong.
    ScriptFault,
    /// A read or a write failed.
    DeviceFault,
    /// Memory was refused.
    NoMemory,
    /// What sessions were reported does not agree with the edits that were made. The run of one script does not end so.
    Disagree,
}

impl Status {
    /// The exit status of the program.
    pub fn code(self) -> u8
        ensures { result ≡ exit_code self }
    {
        match self {
            Status::Clean => 0,
            Status::Errors => 1,
            Status::ScriptFault => 2,
            Status::DeviceFault => 3,
            Status::NoMemory => 4,
            Status::Disagree => 5,
        }
    }
}
