//! Looks files up by name, and says what an `#INCLUDE` puts in, or why nothing (G4 to G6), and which units a library stands for.
ghost use Rattle.occ_project.specs.Entries.{included as spec_included, listing as spec_listing};
ghost use Rattle.occ_project.specs.Reads.{member as spec_member, name_cmp, open_lines as spec_open_lines, open_source as spec_open_source, open_text as spec_open_text, index};
ghost use Rattle.std.specs.BTreeMap.{get};
ghost use Rattle.std.specs.List.{find};
ghost use Rattle.std.specs.Option.{is_some, option_copied};
ghost use Rattle.std.specs.Prelude.{Err, IfOk, List, MatchResult, Ok, length, not, ℕ, ◌≡◌, ◌≤◌};

use super::line_units::UsedUnits;
use super::reads::{Read, Reads};
use occ_base::{Code, FileName, Shared};
use occ_forms::{Source, SourceLine};
use std::alloc::{AllocError, Global};
use std::collections::BTreeMap;

/// The files that an expansion may look up, by name.
#[derive(Drop)]
pub struct Files<'a> {
    reads: &'a Reads,
    /// The place of the first member of each name. Where there is one member alone it is looked at itself.
    indices: BTreeMap<FileName, usize>,
    ghost placed: { 2 ≤ length reads.now → (name : List ℕ) → get name_cmp indices name ≡ index name reads.now },
}

/// The place of the first member of each name.
fn indices(alloc: Global, reads: &[Read]) -> Result<BTreeMap<FileName, usize>, AllocError>
    ensures { IfOk result (λ indices. (name : List ℕ) → get name_cmp indices name ≡ index name reads.now) }
{
    let mut indices = BTreeMap::new(alloc);
    for (i, read) in reads.iter().enumerate() {
        if !indices.contains_key(&read.name) {
            indices.insert(read.name, i)?;
        }
    }
    Ok(indices)
}

/// The first member of that name.
fn first_of(reads: &[Read], name: FileName) -> Option<&Read>
    ensures { option_copied result ≡ spec_member reads.now name }
{
    for read in reads {
        if read.name == name {
            return Some(read);
        }
    }
    None
}

impl<'a> Files<'a> {
    pub fn new(alloc: Global, reads: &'a Reads) -> Result<Files<'a>, AllocError>
        ensures { IfOk result (λ files. files.reads.now ≡ reads.now) }
    {
        let indices = if reads.len() < 2 {
            BTreeMap::new(alloc)
        } else {
            indices(alloc, reads.as_slice())?
        };
        Ok(Files { reads, indices })
    }

    /// The first member of that name.
    fn member(&self, name: FileName) -> Option<&Read>
        ensures { option_copied result ≡ spec_member self.now.reads.now name }
    {
        if self.reads.len() < 2 {
            return first_of(self.reads.as_slice(), name);
        }
        let index = self.indices.get(&name)?;
        self.reads.get(*index)
    }

    /// The file of that name, if it is open.
    fn open_source(&self, name: FileName) -> Option<&Source>
        ensures { option_copied result ≡ spec_open_source self.now.reads.now name }
    {
        let source = self.member(name)?.source.as_ref();
        source.map(|source| source.get())
    }

    /// The lines of the file of that name, if it is open.
    pub fn open_lines(&self, name: FileName) -> Option<&[SourceLine]>
        ensures { option_copied result ≡ spec_open_lines self.now.reads.now name }
    {
        self.open_source(name).map(|source| source.lines())
    }

    /// What stands in the place of an include of that file: its lines, or the fault for which nothing does.
    pub fn included(
        &self,
        way: &[FileName],
        left: u32,
        name: FileName,
    ) -> Result<&[SourceLine], Code>
        ensures { MatchResult result (λ lines. spec_included self.now.reads.now way.now left name ≡ Ok lines.now) (λ fault. spec_included self.now.reads.now way.now left name ≡ Err fault) }
    {
        if way.contains(&name) {
            return Err(Code::G5);
        }
        if left == 0 {
            return Err(Code::G6);
        }
        self.open_lines(name).ok_or(Code::G4)
    }

    /// The units that a library stands for by its list; the unit of its own name if the list is not open, and a fault if the text of
    /// that is none.
    pub fn listing(
        &self,
        unit: &Shared<FileName>,
        list: FileName,
    ) -> Result<Result<UsedUnits, Code>, AllocError>
        ensures { IfOk result (λ found. found ≡ spec_listing unit.now (spec_open_text self.now.reads.now list)) }
    {
        let Some(source) = self.open_source(list) else {
            return Ok(Ok(UsedUnits::one(unit.share()?)));
        };
        match source.shared_list() {
            Some(units) => Ok(Ok(UsedUnits::listed(units.share()?))),
            None => Ok(Err(Code::G7)),
        }
    }

    /// The first of the names that is none of a member.
    pub fn first_without(&self, names: &[FileName]) -> Option<FileName>
        ensures { result ≡ find (λ name. not (is_some (spec_member self.now.reads.now name))) names.now }
    {
        names
            .iter()
            .copied()
            .find(|name| self.member(*name).is_none())
    }
}
