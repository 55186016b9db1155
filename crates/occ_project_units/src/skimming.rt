//! What a unit reads and which units it uses. Its expansion is gone through for these alone: no line of it is made.
ghost use Rattle.occ_forms.specs.declared.source.SourceLine.{SourceLine};
ghost use Rattle.occ_project.specs.Entries.{entries, held, included, is_among, listing as spec_listing, put_in, use_line};
ghost use Rattle.occ_project.specs.declared.entry.Held.TheVariants.{Include};
ghost use Rattle.occ_project.specs.Expansion.{expansion, unit_entries};
ghost use Rattle.occ_project.specs.Reads.{open_lines as spec_open_lines, open_text};
ghost use Rattle.occ_project.specs.declared.reads.Read.{Read as ARead};
ghost use Rattle.occ_project.specs.Uses.{names_in_order, used_in};
ghost use Rattle.occ_project_units.specs.inside.Skimming.{after, noted_also, started, step};
ghost use Rattle.std.specs.Option.{option_copied, option_map, unwrap_or};
ghost use Rattle.std.specs.Prelude.{[], ◌&&◌, ◌++◌, IfOk, IsFalse, IsTrue, List, OnOk, nat_eq, not, ℕ, ◌≡◌};
ghost use Rattle.std.specs.Result.{result_err, result_ok};

use super::facts::Facts;
use super::ordering::{Ordered, in_order};
use super::project::Project;
use occ_base::{Boxed, FileName, Items, first_indices, one_item};
use occ_forms::{LineBody, SourceLine};
use std::alloc::{AllocError, Global};

/// The greatest number of lines of an expansion. An `#INCLUDE` counts as one, and a `#USE`.
const LINE_LIMIT: usize = 65_535;

/// How many inclusions may be nested below the unit.
const INCLUSION_LIMIT: u32 = 16;

/// What is noted of an expansion that is gone through.
#[derive(Drop)]
pub struct Noted {
    /// The names that were looked up.
    pub names: Items<FileName>,
    /// The units that are used.
    pub units: Items<FileName>,
    /// How many more entries may come.
    pub room: usize,
    /// An entry came for which there was no room.
    pub is_over: bool,
}

/// A file that is put in.
#[derive(Clone, Copy)]
struct Inner<'a> {
    name: FileName,
    lines: &'a [SourceLine],
}

impl Noted {
    /// The unit alone was looked up.
    fn new(alloc: Global, unit: FileName) -> Result<Noted, AllocError>
        ensures { IfOk result (λ noted. noted ≡ started unit) }
    {
        Ok(Noted {
            names: one_item(alloc, unit)?,
            units: Items::new(alloc),
            room: LINE_LIMIT,
            is_over: false,
        })
    }

    /// Whether there is room for an entry, which is taken then. Where there is none, it is over.
    fn takes_one(&mut self) -> bool
        ensures room { IsTrue result → (names units : List (List ℕ)) → record { names = self.new.names ++ names; units = self.new.units ++ units; room = self.new.room; is_over = self.new.is_over } ≡ noted_also self.old names units }
        ensures over { IsFalse result → (names units : List (List ℕ)) → self.new ≡ noted_also self.old names units }
    {
        if self.is_over {
            return false;
        }
        if self.room == 0 {
            self.is_over = true;
            return false;
        }
        self.room -= 1;
        true
    }
}

/// The lines of the file of that name, which is looked for at an index first, if it is open.
fn open_lines(project: &Project, hint: usize, name: FileName) -> Option<&[SourceLine]>
    ensures { option_copied result ≡ spec_open_lines project.now name }
{
    match project.get_near(hint, name) {
        Some(source) => Some(source.get().lines()),
        None => None,
    }
}

/// Whether the file of an include is looked up: it is not under way, and more inclusions may be nested.
fn is_looked_up(way: &[FileName], left: u32, name: FileName) -> bool
    ensures { result ≡ (not (is_among way.now name) && not (nat_eq left 0)) }
{
    !way.contains(&name) && left != 0
}

/// The file that a line puts in.
fn found_in<'a>(
    project: &'a Project,
    way: &[FileName],
    left: u32,
    body: &LineBody,
) -> Option<Inner<'a>>
    ensures { option_map {U = List ℕ × List SourceLine} (λ inner. (inner.name, inner.lines.now)) result ≡ put_in (included project.now way.now left) body.now }
{
    match body {
        LineBody::Include(name) => file_put_in(project, way, left, *name.get()),
        _ => None,
    }
}

/// The file that an include of that name puts in.
fn file_put_in<'a>(
    project: &'a Project,
    way: &[FileName],
    left: u32,
    name: FileName,
) -> Option<Inner<'a>>
    ensures { option_map {U = List ℕ × List SourceLine} (λ inner. (inner.name, inner.lines.now)) result ≡ option_map (λ lines. (name, lines)) (result_ok (included project.now way.now left name)) }
{
    if !is_looked_up(way, left, name) {
        return None;
    }
    let lines = open_lines(project, 0, name)?;
    Some(Inner { name, lines })
}

/// The units that a library stands for, none where its list has a fault.
fn listing(
    alloc: Global,
    project: &Project,
    unit: FileName,
    list: FileName,
) -> Result<Items<FileName>, AllocError>
    ensures { IfOk result (λ units. units ≡ unwrap_or (result_ok (spec_listing unit (open_text project.now list))) []) }
{
    let Some(source) = project.get(list) else {
        return one_item(alloc, unit);
    };
    match source.get().listed() {
        Some(units) => Items::from_slice(alloc, units),
        None => Ok(Items::new(alloc)),
    }
}

/// Notes a `#USE`, of a library if there is a list.
fn note_use(
    alloc: Global,
    project: &Project,
    unit: FileName,
    list: &Option<Boxed<FileName>>,
    noted: &mut Noted,
) -> Result<(), AllocError>
    ensures { OnOk result ((depth : ℕ) → noted.new ≡ step noted.old (use_line project.now depth unit list.now)) }
{
    if !noted.takes_one() {
        return Ok(());
    }
    match list {
        Some(list) => {
            let list = *list.get();
            noted.names.push(list)?;
            noted.units.append(listing(alloc, project, unit, list)?)
        }
        None => noted.units.push(unit),
    }
}

/// Notes an include.
fn note_include(
    way: &[FileName],
    left: u32,
    name: FileName,
    noted: &mut Noted,
) -> Result<(), AllocError>
    ensures { OnOk result ((reads : List ARead) → noted.new ≡ step noted.old (Include name (result_err (included reads way.now left name)))) }
{
    if noted.takes_one() && is_looked_up(way, left, name) {
        noted.names.push(name)?;
    }
    Ok(())
}

/// Notes a line.
fn note_line(
    alloc: Global,
    project: &Project,
    way: &[FileName],
    left: u32,
    body: &LineBody,
    noted: &mut Noted,
) -> Result<(), AllocError>
    ensures { OnOk result ((depth : ℕ) → noted.new ≡ step noted.old (held project.now (included project.now way.now left) depth body.now)) }
{
    match body {
        LineBody::Form(_) | LineBody::Fault(_) => {
            noted.takes_one();
            Ok(())
        }
        LineBody::Uses(unit, list) => note_use(alloc, project, *unit.get(), list, noted),
        LineBody::Include(name) => note_include(way, left, *name.get(), noted),
    }
}

/// Notes the lines of a file, each with those of the file that it puts in.
fn note_lines(
    alloc: Global,
    project: &Project,
    way: &mut Items<FileName>,
    left: u32,
    lines: &[SourceLine],
    noted: &mut Noted,
) -> Result<(), AllocError>
    ensures way { OnOk result (way.new ≡ way.old) }
    ensures noted { OnOk result ((file : List ℕ) (raise : ℕ) → noted.new ≡ after noted.old (entries project.now left way.old file raise lines.now)) }
{
    for line in lines {
        if noted.is_over {
            return Ok(());
        }
        note_line(alloc, project, way.as_slice(), left, &line.body, noted)?;
        let Some(inner) = found_in(project, way.as_slice(), left, &line.body) else {
            continue;
        };
        way.push(inner.name)?;
        note_lines(alloc, project, way, left - 1, inner.lines, noted)?;
        way.pop();
    }
    Ok(())
}

/// What is noted of the expansion of a unit, which is looked for at an index first.
fn note(alloc: Global, project: &Project, hint: usize, unit: FileName) -> Result<Noted, AllocError>
    ensures { IfOk result (λ noted. noted ≡ after (started unit) (unit_entries project.now unit (spec_open_lines project.now unit))) }
{
    let mut noted = Noted::new(alloc, unit)?;
    if let Some(lines) = open_lines(project, hint, unit) {
        let mut way = one_item(alloc, unit)?;
        note_lines(alloc, project, &mut way, INCLUSION_LIMIT, lines, &mut noted)?;
    }
    Ok(noted)
}

/// What a unit, which is looked for at an index first, reads and uses. What was put in order last spares time.
pub fn skim(
    alloc: Global,
    project: &Project,
    hint: usize,
    unit: FileName,
    last: &mut Option<Ordered>,
) -> Result<Facts, AllocError>
    ensures reads { IfOk result (λ facts. facts.reads ≡ (expansion project.now unit).reads) }
    ensures uses { IfOk result (λ facts. facts.uses ≡ used_in (expansion project.now unit).lines) }
{
    let Noted { names, units, .. } = note(alloc, project, hint, unit)?;
    Ok(Facts {
        reads: first_indices(alloc, names.as_slice())?,
        uses: in_order(alloc, units, last)?,
    })
}
