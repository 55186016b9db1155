//! The codes and grades of diagnostics, in their order, and how they print. `docs/LANGUAGE.md, Codes`.
ghost use Rattle.std.specs.Prelude.{◌≡◌};
ghost use Rattle.occ_base.specs.Diag.{code_text, grade_text};

/// The codes of diagnostics, in the order in which diagnostics at one line are reported. docs/LANGUAGE.md says
/// where those stand that are reported today.
#[derive(Clone, Copy, Debug, PartialEq, Eq, PartialOrd, Ord)]
pub enum Code {
    G1,
    G2,
    G3,
    G4,
    G5,
    G6,
    G7,
    L1,
    L2,
    L3,
    L4,
    S1,
    S2,
    S3,
    S4,
    N1,
    N2,
    T1,
    T2,
    T3,
    T4,
    T5,
    T6,
    T7,
    T8,
    T9,
    P1,
    P2,
    P3,
    P4,
    R1,
    R2,
    U1,
    U2,
    U3,
    A1,
    A2,
    A3,
    A4,
    F1,
}

/// How sure a diagnostic is. An `Error` makes its unit faulty; a `Check` is a place to look at.
#[derive(Clone, Copy, Debug, PartialEq, Eq, PartialOrd, Ord)]
pub enum Grade {
    Error,
    Check,
}

impl Code {
    /// The code as it prints.
    pub fn as_str(self) -> &'static str
        ensures { result.now ≡ code_text self }
    {
        match self {
            Code::G1 => "G1",
            Code::G2 => "G2",
            Code::G3 => "G3",
            Code::G4 => "G4",
            Code::G5 => "G5",
            Code::G6 => "G6",
            Code::G7 => "G7",
            Code::L1 => "L1",
            Code::L2 => "L2",
            Code::L3 => "L3",
            Code::L4 => "L4",
            Code::S1 => "S1",
            Code::S2 => "S2",
            Code::S3 => "S3",
            Code::S4 => "S4",
            Code::N1 => "N1",
            Code::N2 => "N2",
            Code::T1 => "T1",
            Code::T2 => "T2",
            Code::T3 => "T3",
            Code::T4 => "T4",
            Code::T5 => "T5",
            Code::T6 => "T6",
            Code::T7 => "T7",
            Code::T8 => "T8",
            Code::T9 => "T9",
            Code::P1 => "P1",
            Code::P2 => "P2",
            Code::P3 => "P3",
            Code::P4 => "P4",
            Code::R1 => "R1",
            Code::R2 => "R2",
            Code::U1 => "U1",
            Code::U2 => "U2",
            Code::U3 => "U3",
            Code::A1 => "A1",
            Code::A2 => "A2",
            Code::A3 => "A3",
            Code::A4 => "A4",
            Code::F1 => "F1",
        }
    }
}

impl Grade {
    /// The grade as it prints.
    pub fn as_str(self) -> &'static str
        ensures { result.now ≡ grade_text self }
    {
        match self {
            Grade::Error => "error",
            Grade::Check => "check",
        }
    }
}
