//! Diagnostics: file, line, code, grade and perhaps a name. Their order, and their line as a report prints it.
ghost use Rattle.std.specs.Prelude.{◌≡◌, ◌++◌, IfOk, OnErr, OnOk};
ghost use Rattle.occ_base.specs.Diag.{diag_line, name_text};
ghost use Rattle.occ_base.specs.Errors.{error_at, error_if, has_error as spec_has_error};

use super::code::{Code, Grade};
use super::file_name::FileName;
use super::name::Name;
use sqlite_items::Items;
use std::alloc::{AllocError, Global};

/// One diagnostic. The order is by file, line (from 1), code, grade and name; a diagnostic without a name,
/// which prints as `-`, comes before those with one.
#[derive(Debug, Drop, PartialEq, Eq, PartialOrd, Ord)]
pub struct Diag {
    pub file: FileName,
    pub line: u32,
    pub code: Code,
    pub grade: Grade,
    pub name: Option<Name>,
}

impl Diag {
    /// An error at a line of a file, with the name that it reports.
    pub fn error(file: FileName, line: u32, code: Code, name: Option<Name>) -> Diag
        ensures { result ≡ error_at file line code name }
    {
        Diag {
            file,
            line,
            code,
            grade: Grade::Error,
            name,
        }
    }
}

/// Adds the error without a name at a line of a file, if the test holds. Where memory is refused `found` stays.
pub fn add_error_if(
    test: bool,
    file: FileName,
    line: u32,
    code: Code,
    found: &mut Items<Diag>,
) -> Result<(), AllocError>
    ensures ok { OnOk result (found.new ≡ found.old ++ error_if test file line code) }
    ensures err { OnErr result (found.new ≡ found.old) }
{
    if test {
        found.push(Diag::error(file, line, code, None))?;
    }
    Ok(())
}

/// Whether one of the diagnostics has the grade error.
pub fn has_error(diags: &[Diag]) -> bool
    ensures { result ≡ spec_has_error diags.now }
{
    diags.iter().any(|diag| diag.grade == Grade::Error)
}

/// Appends the line of a diagnostic, `FILE:LINE CODE GRADE NAME`. Where memory is refused `out` stays.
pub fn write_diag(alloc: Global, diag: &Diag, out: &mut Vec<u8>) -> Result<(), AllocError>
    ensures ok { OnOk result (out.new.items ≡ out.old.items ++ diag_line diag.now) }
    ensures err { OnErr result (out.new.items ≡ out.old.items) }
{
    let line = line_of(alloc, diag)?;
    out.extend_from_slice(line.as_slice())
}

/// The line of a diagnostic.
fn line_of(alloc: Global, diag: &Diag) -> Result<Vec<u8>, AllocError>
    ensures { IfOk result (λ line. line.items ≡ diag_line diag.now) }
{
    let number = diag.line.to_string(alloc)?;
    let mut line = Vec::new(alloc);
    line.extend_from_slice(diag.file.as_bytes())?;
    line.extend_from_slice(b":")?;
    line.extend_from_slice(number.as_bytes())?;
    line.extend_from_slice(b" ")?;
    line.extend_from_slice(diag.code.as_str().as_bytes())?;
    line.extend_from_slice(b" ")?;
    line.extend_from_slice(diag.grade.as_str().as_bytes())?;
    line.extend_from_slice(b" ")?;
    line.extend_from_slice(name_of(diag))?;
    Ok(line)
}

/// The bytes that report the name of a diagnostic.
fn name_of(diag: &Diag) -> &[u8]
    ensures { result.now ≡ name_text diag.now.name }
{
    match &diag.name {
        Some(name) => name.as_bytes(),
        None => b"-",
    }
}
