//! The bytes of a report, and whether it has an error.
ghost use Rattle.std.specs.Fmt.{decimal};
ghost use Rattle.std.specs.List.{flat_map};
ghost use Rattle.std.specs.Prelude.{◌≡◌, ◌++◌, IfOk, OnOk, codes, length};
ghost use Rattle.occheck_script.specs.Machine.{diag_text, report_text, shows_error, reports_errors as spec_reports_errors, with_line_end, unit_text};

use occ_base::{Diag, has_error, write_diag};
use occ_board::{Row, Shown};
use std::alloc::{AllocError, Global};

/// What a report writes.
pub fn report_lines(alloc: Global, rows: &[Row]) -> Result<Vec<u8>, AllocError>
    ensures { IfOk result (λ bytes. bytes.items ≡ report_text rows.now) }
{
    let mut bytes = Vec::new(alloc);
    for row in rows {
        add_unit(alloc, row.unit.as_bytes(), &row.shown, &mut bytes)?;
    }
    bytes.extend_from_slice(b"end\n")?;
    Ok(bytes)
}

/// Appends what a report reports of a unit: its diagnostics in order, or that it is pending.
fn add_unit(
    alloc: Global,
    unit: &[u8],
    shown: &Shown,
    bytes: &mut Vec<u8>,
) -> Result<(), AllocError>
    ensures { OnOk result (bytes.new.items ≡ bytes.old.items ++ unit_text unit.now shown.now) }
{
    match shown {
        Shown::Pending => add_pending(unit, bytes),
        Shown::Done(diags) => match diags.get().as_slice() {
            [] => add_clean(unit, bytes),
            diags => add_faulty(alloc, unit, diags, bytes),
        },
    }
}

/// Whether one of the units has an error.
pub fn reports_errors(rows: &[Row]) -> bool
    ensures { result ≡ spec_reports_errors rows.now }
{
    rows.iter().any(has_errors)
}

/// Whether the unit is shown with an error.
fn has_errors(row: &Row) -> bool
    ensures { result ≡ shows_error row.now.shown }
{
    match &row.shown {
        Shown::Pending => false,
        Shown::Done(diags) => has_error(diags.get().as_slice()),
    }
}

/// Appends the line of a unit that is pending.
fn add_pending(file: &[u8], bytes: &mut Vec<u8>) -> Result<(), AllocError>
    ensures { OnOk result (bytes.new.items ≡ bytes.old.items ++ with_line_end (codes "pending " ++ file.now)) }
{
    bytes.extend_from_slice(b"pending ")?;
    bytes.extend_from_slice(file)?;
    bytes.push(b'\n')?;
    Ok(())
}

/// Appends the line of a unit without diagnostics.
fn add_clean(file: &[u8], bytes: &mut Vec<u8>) -> Result<(), AllocError>
    ensures { OnOk result (bytes.new.items ≡ bytes.old.items ++ with_line_end (codes "unit " ++ file.now ++ codes " ok")) }
{
    bytes.extend_from_slice(b"unit ")?;
    bytes.extend_from_slice(file)?;
    bytes.extend_from_slice(b" ok\n")?;
    Ok(())
}

/// Appends the lines of a unit with diagnostics.
fn add_faulty(
    alloc: Global,
    file: &[u8],
    diags: &[Diag],
    bytes: &mut Vec<u8>,
) -> Result<(), AllocError>
    ensures { OnOk result (bytes.new.items ≡ bytes.old.items ++ (with_line_end (codes "unit " ++ file.now ++ codes " " ++ decimal (length diags.now)) ++ flat_map diag_text diags.now)) }
{
    add_head(alloc, file, diags.len(), bytes)?;
    for diag in diags {
        bytes.extend_from_slice(b"  ")?;
        write_diag(alloc, diag, bytes)?;
        bytes.push(b'\n')?;
    }
    Ok(())
}

/// Appends the line of a unit with so many diagnostics.
fn add_head(alloc: Global, file: &[u8], count: usize, bytes: &mut Vec<u8>) -> Result<(), AllocError>
    ensures { OnOk result (bytes.new.items ≡ bytes.old.items ++ with_line_end (codes "unit " ++ file.now ++ codes " " ++ decimal count)) }
{
    let number = count.to_string(alloc)?;
    bytes.extend_from_slice(b"unit ")?;
    bytes.extend_from_slice(file)?;
    bytes.extend_from_slice(b" ")?;
    bytes.extend_from_slice(number.as_bytes())?;
    bytes.push(b'\n')?;
    Ok(())
}
