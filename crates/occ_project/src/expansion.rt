//! Makes the expansion of a unit, file by file, and after each `#INCLUDE` the lines of its file. The line of a `#USE` of a library
//! gets the units of its list. `docs/LANGUAGE.md, Expansion`.
ghost use Rattle.occ_base.specs.Firsts.{first_indices as spec_first_indices};
ghost use Rattle.occ_project.specs.Entries.{entries, held as spec_held, included, put_in, use_line as spec_use_line};
ghost use Rattle.occ_project.specs.Expansion.{expansion, not_given};
ghost use Rattle.occ_project.specs.inside.Making.{after, shown, started, step};
ghost use Rattle.occ_project.specs.declared.entry.Held.TheVariants as holds;
ghost use Rattle.occ_project.specs.declared.expanded.ExpandedBody.TheVariants as to;
ghost use Rattle.occ_project.specs.declared.expansion.ExpandFault.TheVariants.{Memory, NotGiven};
ghost use Rattle.std.specs.Option.{option_map};
ghost use Rattle.std.specs.Prelude.{Err, IfOk, List, None, OnOk, Some, ℕ, ◌*◌, ◌+◌, ◌^◌, ◌≡◌, ◌≤◌};

use super::entry::{ExpansionEntry, Held};
use super::expanded::{Expanded, ExpandedBody, ExpandedLine};
use super::files::Files;
use super::line_units::UsedUnits;
use super::making::Made;
use super::reads::Reads;
use occ_base::{Boxed, Diag, FileName, Items, Shared, first_indices, one_item};
use occ_forms::{Form, LineBody, SourceLine};
use std::alloc::{AllocError, Global};
use thiserror::Error;

/// The greatest number of lines of an expansion. An `#INCLUDE` counts as one, and a `#USE`.
const LINE_LIMIT: usize = 65_535;

/// How many inclusions may be nested below the unit.
const INCLUSION_LIMIT: u32 = 16;

/// Why a unit has no expansion.
#[derive(Clone, Copy, Debug, Error)]
pub enum ExpandFault {
    /// The expansion looks up this file, and it is not among the reads.
    #[error("a file that is looked up is not given")]
    NotGiven(FileName),
    /// Memory was refused.
    #[error("out of memory")]
    Memory,
}

impl From<AllocError> for ExpandFault {
    ghost from_gives = { λ _ e. e ≡ Memory };

    fn from(_e: AllocError) -> ExpandFault {
        ExpandFault::Memory
    }
}

/// A file whose lines are added, which share its name.
#[derive(Drop)]
struct Opened {
    file: Shared<FileName>,
    /// How many inclusions may be nested in it.
    left: u32,
    /// What the depths of its lines are raised by.
    raise: u64,
}

/// A file that is put in.
#[derive(Clone, Copy)]
struct Inner<'a> {
    name: FileName,
    lines: &'a [SourceLine],
}

/// The units that a library stands for, none where its list has a fault.
fn library(
    alloc: Global,
    files: &Files<'_>,
    depth: u64,
    unit: &Shared<FileName>,
    list: FileName,
) -> Result<Held, AllocError>
    ensures { IfOk result (λ held. held ≡ spec_use_line files.now.reads.now depth unit.now (Some list)) }
{
    match files.listing(unit, list)? {
        Ok(units) => Ok(Held::Library(depth, units, list, None)),
        Err(fault) => {
            let none = UsedUnits::listed(Shared::new(alloc, Items::new(alloc))?);
            Ok(Held::Library(depth, none, list, Some(fault)))
        }
    }
}

/// The line of a `#USE`, of a library if there is a list.
fn use_line(
    alloc: Global,
    files: &Files<'_>,
    depth: u64,
    unit: &Shared<FileName>,
    list: &Option<Boxed<FileName>>,
) -> Result<Held, AllocError>
    ensures { IfOk result (λ held. held ≡ spec_use_line files.now.reads.now depth unit.now list.now) }
{
    match list {
        Some(list) => library(alloc, files, depth, unit, *list.get()),
        None => {
            let units = UsedUnits::one(unit.share()?);
            Ok(Held::Line(depth, ExpandedBody::Uses(units)))
        }
    }
}

/// What the entry of a line with this form holds.
#[inline(always)]
fn held_form(depth: u64, form: &Shared<Form>) -> Result<Held, AllocError>
    ensures { IfOk result (λ held. held ≡ holds.Line depth (to.Form form.now)) }
{
    Ok(Held::Line(depth, ExpandedBody::Form(form.share()?)))
}

/// What the entry of a line holds, and the file that the line puts in.
fn held<'a>(
    alloc: Global,
    files: &'a Files<'_>,
    way: &[FileName],
    left: u32,
    depth: u64,
    body: &LineBody,
) -> Result<(Held, Option<Inner<'a>>), AllocError>
    ensures entry { IfOk result (λ found. found.0 ≡ spec_held files.now.reads.now (included files.now.reads.now way.now left) depth body.now) }
    ensures inner { IfOk result (λ found. option_map (λ inner. (inner.name, inner.lines.now)) found.1 ≡ put_in (included files.now.reads.now way.now left) body.now) }
{
    match body {
        LineBody::Form(form) => Ok((held_form(depth, form)?, None)),
        LineBody::Uses(unit, list) => { Ok((use_line(alloc, files, depth, unit, list)?, None)) }
        LineBody::Fault(fault) => Ok((Held::Line(depth, ExpandedBody::Fault(*fault)), None)),
        LineBody::Include(name) => {
            let name = *name.get();
            Ok(match files.included(way, left, name) {
                Ok(lines) => (Held::Include(name, None), Some(Inner { name, lines })),
                Err(fault) => (Held::Include(name, Some(fault)), None),
            })
        }
    }
}

/// Adds the entry of a line with this form. By itself, since most lines have one and put no file in.
fn add_form(
    alloc: Global,
    file: &Shared<FileName>,
    line: u32,
    depth: u64,
    form: &Shared<Form>,
    made: &mut Made,
) -> Result<(), AllocError>
    ensures { OnOk result (made.new ≡ step made.old (record { file = file.now; line = line; held = holds.Line depth (to.Form form.now) })) }
{
    let held = held_form(depth, form)?;
    let file = file.share()?;
    made.add(alloc, ExpansionEntry { file, line, held })
}

/// Adds the entries of the lines of a file, each with those of the file that it puts in.
fn add_file(
    alloc: Global,
    files: &Files<'_>,
    way: &mut Items<FileName>,
    opened: &Opened,
    lines: &[SourceLine],
    made: &mut Made,
) -> Result<(), AllocError>
    requires { opened.now.raise + (opened.now.left + 1) * 2 ^ 32 ≤ 2 ^ 63 }
    ensures way { OnOk result (way.new ≡ way.old) }
    ensures made { OnOk result (made.new ≡ after made.old (entries files.now.reads.now opened.now.left way.old opened.now.file opened.now.raise lines.now)) }
{
    for line in lines {
        if made.is_over {
            return Ok(());
        }
        let depth = opened.raise + u64::from(line.depth);
        if let LineBody::Form(form) = &line.body {
            add_form(alloc, &opened.file, line.line, depth, form, made)?;
            continue;
        }
        let (held, found) = held(alloc, files, way.as_slice(), opened.left, depth, &line.body)?;
        let file = opened.file.share()?;
        made.add(
            alloc,
            ExpansionEntry {
                file,
                line: line.line,
                held,
            },
        )?;
        let Some(inner) = found else {
            continue;
        };
        let name = Shared::new(alloc, inner.name)?;
        let next = Opened {
            file: name,
            left: opened.left - 1,
            raise: depth,
        };
        way.push(inner.name)?;
        add_file(alloc, files, way, &next, inner.lines, made)?;
        way.pop();
    }
    Ok(())
}

/// How many of the lines look a file up that they include.
fn includes(lines: &[SourceLine]) -> usize {
    let mut count: usize = 0;
    for line in lines {
        if matches!(line.body, LineBody::Include(_)) {
            count = count.saturating_add(1);
        }
    }
    count
}

/// Nothing is made yet of the unit, which has these lines if it is open. There is room for what they come to by themselves.
fn nothing_made(
    alloc: Global,
    unit: FileName,
    found: Option<&[SourceLine]>,
) -> Result<Made, AllocError>
    ensures { IfOk result (λ made. made ≡ started 65535 unit) }
{
    let (lines, looked_up) = match found {
        Some(lines) => (lines.len(), includes(lines)),
        None => (0, 0),
    };
    Made::new(alloc, unit, lines, looked_up, LINE_LIMIT)
}

/// Each name once, at its first index. Most units look up no file but their own.
fn each_once(alloc: Global, names: Items<FileName>) -> Result<Items<FileName>, AllocError>
    ensures { IfOk result (λ found. found ≡ spec_first_indices names) }
{
    if names.len() < 2 {
        return Ok(names);
    }
    first_indices(alloc, names.as_slice())
}

/// What the lines of the unit over these files come to.
fn made(alloc: Global, files: &Files<'_>, unit: FileName) -> Result<Made, AllocError>
    ensures { IfOk result (λ made. shown made ≡ expansion files.now.reads.now unit) }
{
    let found = files.open_lines(unit);
    let mut made = nothing_made(alloc, unit, found)?;
    if let Some(lines) = found {
        let file = Shared::new(alloc, unit)?;
        let opened = Opened {
            file,
            left: INCLUSION_LIMIT,
            raise: 0,
        };
        let mut way = one_item(alloc, unit)?;
        add_file(alloc, files, &mut way, &opened, lines, &mut made)?;
    }
    Ok(made)
}

/// The expansion of the unit over these files.
fn expanded(alloc: Global, files: &Files<'_>, unit: FileName) -> Result<Expanded, AllocError>
    ensures { IfOk result (λ expanded. expanded ≡ expansion files.now.reads.now unit) }
{
    let Made {
        lines,
        faults,
        names,
        ..
    } = made(alloc, files, unit)?;
    let reads = each_once(alloc, names)?;
    Ok(Expanded::of(lines, reads, faults))
}

/// The lines and the faults of the expansion of the unit over these files: one that is not among them counts as absent.
/// What it looks up is not gone through.
pub fn expanded_lines(
    alloc: Global,
    reads: &Reads,
    unit: FileName,
) -> Result<(Items<ExpandedLine>, Items<Diag>), AllocError>
    ensures lines { IfOk result (λ found. found.0 ≡ (expansion reads.now unit).lines) }
    ensures faults { IfOk result (λ found. found.1 ≡ (expansion reads.now unit).faults) }
{
    let files = Files::new(alloc, reads)?;
    let Made { lines, faults, .. } = made(alloc, &files, unit)?;
    Ok((lines, faults))
}

/// The expansion of the unit over these files: one that is not among them counts as absent.
pub fn expand_over(alloc: Global, reads: &Reads, unit: FileName) -> Result<Expanded, AllocError>
    ensures { IfOk result (λ expanded. expanded ≡ expansion reads.now unit) }
{
    let files = Files::new(alloc, reads)?;
    expanded(alloc, &files, unit)
}

/// The expansion of the unit, if each file that it looks up is among the reads; else the first that is not.
pub fn expand(alloc: Global, reads: &Reads, unit: FileName) -> Result<Expanded, ExpandFault>
    ensures found { IfOk result (λ expanded. expanded ≡ expansion reads.now unit) }
    ensures given { IfOk result (λ expanded. not_given reads.now unit ≡ None) }
    ensures missing { (name : List ℕ) → result ≡ Err (NotGiven name) → not_given reads.now unit ≡ Some name }
{
    let files = Files::new(alloc, reads)?;
    let expanded = expanded(alloc, &files, unit)?;
    match files.first_without(expanded.reads()) {
        Some(name) => Err(ExpandFault::NotGiven(name)),
        None => Ok(expanded),
    }
}
