//! The entry of a code, as `occ explain` prints it and docs/CODES.md has it.
ghost use Rattle.occ_base.specs.Diag.{code_text};
ghost use Rattle.std.specs.Prelude.{◌≡◌, IfSome};

use super::table::{CodeEntry, entry_of};
use occ_base::Code;
use std::alloc::{AllocError, Global};

/// All codes, in their order.
pub const CODES: [Code; 40] = [
    Code::G1,
    Code::G2,
    Code::G3,
    Code::G4,
    Code::G5,
    Code::G6,
    Code::G7,
    Code::L1,
    Code::L2,
    Code::L3,
    Code::L4,
    Code::S1,
    Code::S2,
    Code::S3,
    Code::S4,
    Code::N1,
    Code::N2,
    Code::T1,
    Code::T2,
    Code::T3,
    Code::T4,
    Code::T5,
    Code::T6,
    Code::T7,
    Code::T8,
    Code::T9,
    Code::P1,
    Code::P2,
    Code::P3,
    Code::P4,
    Code::R1,
    Code::R2,
    Code::U1,
    Code::U2,
    Code::U3,
    Code::A1,
    Code::A2,
    Code::A3,
    Code::A4,
    Code::F1,
];

/// The code that is written so.
pub fn code_named(text: &str) -> Option<Code>
    ensures { IfSome result (λ code. code_text code ≡ text.now) }
{
    for code in CODES {
        if code.as_str() == text {
            return Some(code);
        }
    }
    None
}

/// What is said of a code: what it says, why, an example, and what to write instead.
pub fn explained(alloc: Global, code: Code) -> Result<String, AllocError> {
    let name = code.as_str();
    let CodeEntry {
        title,
        why,
        body,
        ..
    } = entry_of(code);
    format!(in alloc; "{name}: {title}\n\n{why}\n\n{body}\n")
}

/// What of a unit is not looked at while it has an error of a code.
#[derive(Clone, Copy, Debug, PartialEq, Eq)]
pub enum Hiding {
    /// Names, types and uses.
    Lines,
    /// Uses.
    Types,
    /// Nothing: it is about uses itself.
    Nothing,
}

/// What of a unit is not looked at while it has an error of this code.
pub fn hidden_by(code: Code) -> Hiding {
    match code {
        Code::U1 | Code::U2 | Code::U3 | Code::A1 | Code::A2 | Code::A3 | Code::A4 | Code::F1 => {
            Hiding::Nothing
        }
        Code::N1 | Code::N2 | Code::R1 | Code::R2 => Hiding::Types,
        Code::T1
        | Code::T2
        | Code::T3
        | Code::T4
        | Code::T5
        | Code::T6
        | Code::T7
        | Code::T8
        | Code::T9 => Hiding::Types,
        Code::P1 | Code::P2 | Code::P3 | Code::P4 => Hiding::Types,
        _ => Hiding::Lines,
    }
}
