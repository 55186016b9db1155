//! Faults of lines (L1 to L4, S1, S3), and of used units (G1 to G3). `docs/LANGUAGE.md, Codes`.
ghost use Rattle.std.specs.List.{HoldsAt, flat_map};
ghost use Rattle.std.specs.Prelude.{◌≡◌, ◌<◌, ◌++◌, IfSome, IsTrue, MatchOption, OnOk, length};
ghost use Rattle.occ_check.specs.inside.Sorted.{AreSorted};
ghost use Rattle.occ_check.specs.declared.used.Used.TheVariants as how;
ghost use Rattle.occ_check.specs.Faults.{line_faults, own_faults, standing, use_code as spec_use_code, use_faults};

use super::used::{Used, UsedUnit};
use occ_base::{Code, Diag, FileName, Items, Name};
use occ_project::{ExpandedBody, ExpandedLine};
use std::alloc::{AllocError, Global};

/// What is wrong with a use of a unit that stands so.
fn code_of(used: &Used) -> Option<Code>
    ensures { result ≡ spec_use_code used.now }
{
    match used {
        Used::Absent => Some(Code::G1),
        Used::Circular => Some(Code::G2),
        Used::Faulty => Some(Code::G3),
        Used::Clean(_) => None,
    }
}

/// Whether the unit is the one at this place.
fn is_at(used: &[UsedUnit], place: usize, unit: FileName) -> bool
    ensures { IsTrue result → (place < length used.now) × HoldsAt (λ one. one.unit ≡ unit) used.now place }
{
    match used.get(place) {
        Some(one) => one.unit == unit,
        None => false,
    }
}

/// The place of the unit, if it is one of these. It is looked for at the hint first.
fn place_of(used: &[UsedUnit], hint: usize, unit: FileName) -> Option<usize>
    requires { AreSorted used.now }
    ensures within { IfSome result (λ place. place < length used.now) }
    ensures value { MatchOption result (standing used.now unit ≡ how.Absent) (λ place. HoldsAt (λ one. standing used.now unit ≡ one.used) used.now place) }
{
    if is_at(used, hint, unit) {
        return Some(hint);
    }
    match used.binary_search_by(|one| one.unit.cmp(&unit)) {
        Ok(place) => Some(place),
        Err(_place) => None,
    }
}

/// What is wrong with a use of the unit, as it stands among these: one that is not among them is absent. Where it is found, the
/// next one is looked for behind it first.
fn use_code(used: &[UsedUnit], hint: &mut usize, unit: FileName) -> Option<Code>
    requires { AreSorted used.now }
    ensures { result ≡ spec_use_code (standing used.now unit) }
{
    let Some(place) = place_of(used, *hint, unit) else {
        return Some(Code::G1);
    };
    *hint = place + 1;
    code_of(&used[place].used)
}

/// Adds the fault of a use of the unit at the line, if it has one.
fn add_use_fault(
    alloc: Global,
    used: &[UsedUnit],
    hint: &mut usize,
    line: &ExpandedLine,
    unit: FileName,
    found: &mut Items<Diag>,
) -> Result<(), AllocError>
    requires { AreSorted used.now }
    ensures { OnOk result (found.new ≡ found.old ++ use_faults used.now line.now unit) }
{
    let Some(code) = use_code(used, hint, unit) else {
        return Ok(());
    };
    let name = Name::from_slice(alloc, unit.as_bytes())?;
    found.push(Diag::error(*line.file.get(), line.line, code, Some(name)))
}

/// Adds the faults of uses of these units at the line.
fn add_use_faults(
    alloc: Global,
    used: &[UsedUnit],
    hint: &mut usize,
    line: &ExpandedLine,
    units: &[FileName],
    found: &mut Items<Diag>,
) -> Result<(), AllocError>
    requires { AreSorted used.now }
    ensures { OnOk result (found.new ≡ found.old ++ flat_map (use_faults used.now line.now) units.now) }
{
    for unit in units {
        add_use_fault(alloc, used, hint, line, *unit, found)?;
    }
    Ok(())
}

/// Adds the fault that the line has instead of a form, or those of the units that it uses.
fn add_own_faults(
    alloc: Global,
    used: &[UsedUnit],
    hint: &mut usize,
    line: &ExpandedLine,
    found: &mut Items<Diag>,
) -> Result<(), AllocError>
    requires { AreSorted used.now }
    ensures { OnOk result (found.new ≡ found.old ++ own_faults used.now line.now) }
{
    match &line.body {
        ExpandedBody::Form(_) => Ok(()),
        ExpandedBody::Uses(units) => {
            add_use_faults(alloc, used, hint, line, units.as_slice(), found)
        }
        ExpandedBody::Fault(code) => {
            found.push(Diag::error(*line.file.get(), line.line, *code, None))
        }
    }
}

/// Adds the faults of the lines, and of the units that they use.
pub fn find_line_faults(
    alloc: Global,
    used: &[UsedUnit],
    lines: &[ExpandedLine],
    found: &mut Items<Diag>,
) -> Result<(), AllocError>
    requires { AreSorted used.now }
    ensures { OnOk result (found.new ≡ found.old ++ line_faults used.now lines.now) }
{
    let mut hint = 0;
    for line in lines {
        add_own_faults(alloc, used, &mut hint, line, found)?;
    }
    Ok(())
}
