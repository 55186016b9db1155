//! The diagnostics of faults, once their line is known.
ghost use Rattle.occ_typing_lines.specs.Placed.{diag_of, placed};
ghost use Rattle.std.specs.Prelude.{◌≡◌, ◌++◌, IfOk, OnOk};

use occ_base::{Diag, Fault, Items, Name};
use occ_project::ExpandedLine;
use std::alloc::{AllocError, Global};

/// The name of a fault.
fn name_of(alloc: Global, fault: &Fault) -> Result<Option<Name>, AllocError>
    ensures { IfOk result (λ name. name ≡ fault.now.name) }
{
    match &fault.name {
        None => Ok(None),
        Some(name) => Ok(Some(name.copied(alloc)?)),
    }
}

/// The diagnostic of a fault at a line.
fn diag(alloc: Global, line: &ExpandedLine, fault: &Fault) -> Result<Diag, AllocError>
    ensures { IfOk result (λ diag. diag ≡ diag_of line.now fault.now) }
{
    let name = name_of(alloc, fault)?;
    Ok(Diag::error(*line.file.get(), line.line, fault.code, name))
}

/// Adds the diagnostics of faults at a line.
pub fn place(
    alloc: Global,
    line: &ExpandedLine,
    faults: &[Fault],
    found: &mut Items<Diag>,
) -> Result<(), AllocError>
    ensures { OnOk result (found.new ≡ found.old ++ placed line.now faults.now) }
{
    for fault in faults {
        let diag = diag(alloc, line, fault)?;
        found.push(diag)?;
    }
    Ok(())
}
