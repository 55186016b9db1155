//! Files that are not checked, and why.
ghost use Rattle.occ_files.specs.Refusals.{Held, IsRight, MayFail};
ghost use Rattle.occ_files.specs.Words.{why_words};
ghost use Rattle.occ_files.specs.declared.gathering.Text.{Text as AText};
ghost use Rattle.std.specs.Prelude.{◌≡◌, IfOk, List, ℕ};
ghost use Rattle.std.specs.String.{string_bytes};

use super::finding::DiskFault;
use occ_base::NameFault;
use occ_lines::TextFault;
use std::alloc::{AllocError, Global};
use std::io::ErrorKind;

/// Why a file is not checked.
#[derive(Clone, Copy, Debug)]
pub enum Why {
    /// There is none.
    NotThere,
    /// It is no unit.
    NoUnit,
    /// The system refuses it.
    Disk(ErrorKind),
    /// Its name is none of a file of occam.
    Name(NameFault),
    /// Its text is too large.
    Text(TextFault),
    /// Another file of its name is checked there.
    Twice,
    /// Over 4,096 files would be checked together.
    TooMany,
}

/// A file that is not checked.
#[derive(Drop)]
pub struct Refusal {
    pub path: String,
    pub why: Why,
}

impl Refusal {
    /// The file at that path is not checked.
    pub fn of(alloc: Global, path: &str, why: Why) -> Result<Refusal, AllocError>
        ensures path { IfOk result (λ refusal. string_bytes refusal.path ≡ path.now) }
        ensures why { IfOk result (λ refusal. refusal.why ≡ why) }
    {
        Ok(Refusal {
            path: String::from_str(alloc, path)?,
            why,
        })
    }
}

impl Why {
    /// Why a file that cannot be read is not checked, if it is not for want of memory.
    pub fn of_fault(fault: DiskFault) -> Result<Why, AllocError>
        ensures { IfOk result (λ why. (held : Held) (texts : List AText) (path : List ℕ) → MayFail held fault → IsRight held texts path why) }
    {
        match fault {
            DiskFault::Refused(kind) => Ok(Why::Disk(kind)),
            DiskFault::Memory => Err(AllocError),
        }
    }

    /// The same in words.
    pub fn as_str(self) -> &'static str
        ensures { result.now ≡ why_words self }
    {
        match self {
            Why::NotThere => "there is no such file",
            Why::NoUnit => "no unit: the name of a unit ends in .occ",
            Why::Disk(ErrorKind::PermissionDenied) => "may not be read",
            Why::Disk(ErrorKind::IsADirectory) => "is a folder",
            Why::Disk(_) => "cannot be read",
            Why::Name(NameFault::Length) => "the name of a file has 1 to 64 bytes",
            Why::Name(NameFault::Byte) =>
                "the name of a file has letters, digits, '.', '_' and '-' alone",
            Why::Name(NameFault::Suffix) => "the name of a file ends in .occ, .inc or .lbb",
            Why::Text(TextFault::TooLarge) => "a text has 262,144 bytes at most",
            Why::Text(TextFault::TooManyLines) => "a text has 16,384 lines at most",
            Why::Text(TextFault::Memory) => "memory is refused",
            Why::Twice => "another file of that name is checked there",
            Why::TooMany => "over 4,096 files would be checked together",
        }
    }
}
