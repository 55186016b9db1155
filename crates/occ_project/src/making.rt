//! Collects the entries of an expansion, up to the limit of 65,535.
ghost use Rattle.occ_project.specs.Expansion.{fault_names, held_faults, limit_fault};
ghost use Rattle.occ_project.specs.inside.Making.{step};
ghost use Rattle.occ_project.specs.declared.entry.Held.TheVariants as held;
ghost use Rattle.std.specs.Prelude.{IfOk, OnOk, [], false, ◌≡◌, ◌++◌, ◌∷◌};

use super::entry::{ExpansionEntry, Held};
use super::expanded::{ExpandedBody, ExpandedLine};
use occ_base::{Code, Diag, FileName, Items, Name};
use std::alloc::{AllocError, Global};

/// An expansion that is being made.
#[derive(Drop)]
pub struct Made {
    pub lines: Items<ExpandedLine>,
    pub faults: Items<Diag>,
    /// The names that were looked up.
    pub names: Items<FileName>,
    /// How many more entries may come.
    pub room: usize,
    /// An entry came for which there was no room.
    pub is_over: bool,
}

/// Adds the name of an include, if its file was looked up.
fn add_name(
    name: FileName,
    fault: Option<Code>,
    names: &mut Items<FileName>,
) -> Result<(), AllocError>
    ensures { OnOk result (names.new ≡ names.old ++ fault_names name fault) }
{
    match fault {
        Some(Code::G5 | Code::G6) => Ok(()),
        _ => names.push(name),
    }
}

/// Adds the fault of a file that is looked up, if it has one.
fn add_fault(
    alloc: Global,
    file: FileName,
    line: u32,
    name: FileName,
    fault: Option<Code>,
    faults: &mut Items<Diag>,
) -> Result<(), AllocError>
    ensures { OnOk result (faults.new ≡ faults.old ++ held_faults file line (held.Include name fault)) }
{
    match fault {
        Some(code) => {
            let name = Name::from_slice(alloc, name.as_bytes())?;
            faults.push(Diag::error(file, line, code, Some(name)))
        }
        None => Ok(()),
    }
}

/// The fault of the entry that is one too many.
fn too_many(entry: &ExpansionEntry) -> Diag
    ensures { result ≡ limit_fault entry.now }
{
    Diag::error(*entry.file.get(), entry.line, Code::G6, None)
}

impl Made {
    /// The unit is looked up, and nothing comes yet; so many lines and so many further look-ups are expected, and so many
    /// entries may come.
    pub fn new(
        alloc: Global,
        unit: FileName,
        lines: usize,
        looked_up: usize,
        room: usize,
    ) -> Result<Made, AllocError>
        ensures { IfOk result (λ made. made ≡ record { lines = []; faults = []; names = unit ∷ []; room = room; is_over = false }) }
    {
        let lines = Items::from_vec(Vec::with_capacity(alloc, lines.min(room))?);
        let faults = Items::from_vec(Vec::with_capacity(alloc, looked_up)?);
        let mut names = Items::from_vec(Vec::with_capacity(alloc, looked_up.saturating_add(1))?);
        names.push(unit)?;
        Ok(Made {
            lines,
            faults,
            names,
            room,
            is_over: false,
        })
    }

    /// Adds an entry, or ends the expansion before it if there is no room.
    #[inline(always)]
    pub fn add(&mut self, alloc: Global, entry: ExpansionEntry) -> Result<(), AllocError>
        ensures { OnOk result (self.new ≡ step self.old entry) }
    {
        if self.is_over {
            return Ok(());
        }
        if self.room == 0 {
            self.is_over = true;
            return self.faults.push(too_many(&entry));
        }
        self.room -= 1;
        let ExpansionEntry { file, line, held } = entry;
        match held {
            Held::Line(depth, body) => self.lines.push(ExpandedLine {
                file,
                line,
                depth,
                body,
            }),
            Held::Library(depth, units, list, fault) => {
                self.names.push(list)?;
                add_fault(alloc, *file.get(), line, list, fault, &mut self.faults)?;
                self.lines.push(ExpandedLine {
                    file,
                    line,
                    depth,
                    body: ExpandedBody::Uses(units),
                })
            }
            Held::Include(name, fault) => {
                add_name(name, fault, &mut self.names)?;
                add_fault(alloc, *file.get(), line, name, fault, &mut self.faults)
            }
        }
    }
}
