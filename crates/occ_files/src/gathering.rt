//! The files that are checked together: those that are asked for, and all that they use and include. A name is one file there:
//! that which is found first.
ghost use Rattle.occ_files.specs.Gathering.{AreGiven, AreNamed, are_apart, has_name, has_path, is_met};
ghost use Rattle.occ_files.specs.Paths.{Gives, name_of as spec_name_of};
ghost use Rattle.occ_files.specs.Refusals.{AreRight, Held, IsRight, has_other};
ghost use Rattle.occ_files.specs.inside.Found.{AreFound, IsMet, Keeps};
ghost use Rattle.occ_files.specs.declared.gathering.Text.{Text as AText};
ghost use Rattle.std.specs.List.{All};
ghost use Rattle.std.specs.Prelude.{◌≡◌, IfErr, IfOk, IfSome, List, OnOk, Some, false, is_some, true, ℕ};
ghost use Rattle.std.specs.Str.{bytes_eq};
ghost use Rattle.std.specs.String.{string_bytes};

use super::finding::{Disk, Found, Search, find, folder_of, name_of};
use super::refusal::{Refusal, Why};
use occ_base::{FileName, Items, Shared};
use occ_forms::{LineBody, Source, prepare};
use occ_lines::TextFault;
use occ_project::{Expanded, Read, Reads, expand_over};
use std::alloc::{AllocError, Global};
use std::collections::BTreeMap;
use std::str;

/// How many files may be checked together.
const FILE_LIMIT: usize = 4_096;

/// How often an expansion may look up further files: each time it looks up one more at least.
const ROUND_LIMIT: usize = 65_536;

/// A file that was read.
#[derive(Drop)]
pub struct Text {
    pub path: String,
    pub name: FileName,
    pub source: Shared<Source>,
}

/// What a directive names, and the file in which it stands.
#[derive(Clone, Copy)]
struct Mention {
    file: FileName,
    name: FileName,
}

/// Files that are checked together.
#[derive(Drop)]
pub struct Gathered {
    /// The files that were read, mostly after those that they use or include. No two have one name.
    pub texts: Vec<Text>,
    /// The units among them that are asked for or used, in the order in which they were found.
    pub units: Vec<FileName>,
    /// The files that are not checked.
    pub refusals: Vec<Refusal>,
}

/// Files that are being found.
#[derive(Drop)]
struct Gathering<'a, D: Disk> {
    disk: &'a D,
    folders: &'a [String],
    found: Gathered,
    /// The place of the text of each name.
    places: BTreeMap<FileName, usize>,
}

/// The files at these paths that are units, and all that they use and include.
pub fn gather<D: Disk>(
    alloc: Global,
    disk: &D,
    folders: &[String],
    paths: &[String],
) -> Result<Gathered, AllocError>
    ensures given { IfOk result (λ found. AreGiven (D.known disk.now) found.texts.items) }
    ensures named { IfOk result (λ found. AreNamed found.texts.items) }
    ensures apart { IfOk result (λ found. are_apart found.texts.items ≡ true) }
    ensures right { IfOk result (λ found. AreRight (D.known disk.now) found.texts.items found.refusals.items) }
    ensures met { IfOk result (λ found. All (λ path. is_met found.texts.items found.refusals.items (string_bytes path) ≡ true) paths.now) }
{
    let mut gathering = Gathering {
        disk,
        folders,
        found: Gathered {
            texts: Vec::new(alloc),
            units: Vec::new(alloc),
            refusals: Vec::new(alloc),
        },
        places: BTreeMap::new(alloc),
    };
    for path in paths {
        gathering.add_asked(alloc, path.as_str())?;
    }
    for index in 0..FILE_LIMIT {
        let Some(unit) = gathering.unit_at(index) else {
            break;
        };
        gathering.follow(alloc, unit)?;
    }
    let Gathering { mut found, .. } = gathering;
    found.texts.reverse();
    Ok(found)
}

/// The text of a file, or why there is none.
fn prepared(alloc: Global, bytes: &[u8]) -> Result<Result<Shared<Source>, Why>, AllocError>
    ensures made { IfOk result (λ made. IfOk made (λ source. source.text ≡ bytes.now)) }
    ensures right { IfOk result (λ made. IfErr made (λ why. (held : Held) (texts : List AText) (path : List ℕ) → IfSome held (λ file. Some bytes.now ≡ file) → IsRight held texts path why)) }
{
    match prepare(alloc, bytes) {
        Ok(source) => Ok(Ok(Shared::new(alloc, source)?)),
        Err(TextFault::Memory) => Err(AllocError),
        Err(fault) => Ok(Err(Why::Text(fault))),
    }
}

/// The name of the unit at a path, or why it is none.
fn unit_named(path: &str) -> Result<FileName, Why>
    ensures named { IfOk result (λ name. name ≡ spec_name_of path.now) }
    ensures right { IfErr result (λ why. (held : Held) (texts : List AText) → IsRight held texts path.now why) }
{
    match FileName::read(name_of(path).as_bytes()) {
        Ok(name) if name.is_unit() => Ok(name),
        Ok(_) => Err(Why::NoUnit),
        Err(fault) => Err(Why::Name(fault)),
    }
}

/// Whether the name is one of those.
fn is_read(reads: &Reads, name: FileName) -> bool {
    reads.as_slice().iter().any(|read| read.name == name)
}

/// Whether a line of a text names that file: to include it, or as the list of a library.
fn does_name(source: &Source, name: FileName) -> bool {
    source.lines().iter().any(|line| match &line.body {
        LineBody::Include(file) => *file.get() == name,
        LineBody::Uses(_, Some(list)) => *list.get() == name,
        LineBody::Uses(_, None) | LineBody::Form(_) | LineBody::Fault(_) => false,
    })
}

/// The first of these files that names that one, or else the unit.
fn file_naming(reads: &Reads, unit: FileName, name: FileName) -> FileName {
    for read in reads.as_slice() {
        if let Some(source) = &read.source
            && does_name(source.get(), name)
        {
            return read.name;
        }
    }
    unit
}

/// What an expansion looks up and is not among these files.
fn missing(
    alloc: Global,
    expanded: &Expanded,
    unit: FileName,
    reads: &Reads,
) -> Result<Vec<Mention>, AllocError> {
    let mut missing = Vec::new(alloc);
    for name in expanded.reads() {
        if !is_read(reads, *name) {
            let file = file_naming(reads, unit, *name);
            missing.push(Mention { file, name: *name })?;
        }
    }
    Ok(missing)
}

impl<'a, D: Disk> Gathering<'a, D> {
    /// The unit of that number.
    fn unit_at(&self, index: usize) -> Option<FileName> {
        self.found.units.get(index).copied()
    }

    /// The text of that name, if there is one.
    fn text(&self, name: FileName) -> Option<&Text>
        requires { AreFound (D.known self.now.disk.now) self.now.found.texts.items self.now.found.refusals.items self.now.places }
        ensures named { is_some result ≡ has_name self.now.found.texts.items name }
        ensures there { IfSome result (λ text. has_path self.now.found.texts.items (string_bytes text.now.path) ≡ true) }
        ensures other { IfSome result (λ text. (path : List ℕ) → name ≡ spec_name_of path → bytes_eq (string_bytes text.now.path) path ≡ false → has_other self.now.found.texts.items path ≡ true) }
    {
        let place = self.places.get(&name)?;
        self.found.texts.get(*place)
    }

    /// The file at that path is not checked.
    fn refuse(&mut self, alloc: Global, path: &str, why: Why) -> Result<(), AllocError>
        requires found { AreFound (D.known self.old.disk.now) self.old.found.texts.items self.old.found.refusals.items self.old.places }
        requires right { IsRight (D.known self.old.disk.now path.now) self.old.found.texts.items path.now why }
        ensures found { OnOk result (AreFound (D.known self.new.disk.now) self.new.found.texts.items self.new.found.refusals.items self.new.places) }
        ensures disk { self.new.disk ≡ self.old.disk }
        ensures met { OnOk result (IsMet self.new.found path.now) }
        ensures keeps { OnOk result (Keeps self.old.found self.new.found) }
    {
        self.add_refusal(Refusal::of(alloc, path, why)?)
    }

    /// Adds a file that is not checked.
    fn add_refusal(&mut self, refusal: Refusal) -> Result<(), AllocError>
        requires found { AreFound (D.known self.old.disk.now) self.old.found.texts.items self.old.found.refusals.items self.old.places }
        requires right { IsRight (D.known self.old.disk.now (string_bytes refusal.path)) self.old.found.texts.items (string_bytes refusal.path) refusal.why }
        ensures found { OnOk result (AreFound (D.known self.new.disk.now) self.new.found.texts.items self.new.found.refusals.items self.new.places) }
        ensures disk { self.new.disk ≡ self.old.disk }
        ensures met { OnOk result (IsMet self.new.found (string_bytes refusal.path)) }
        ensures keeps { OnOk result (Keeps self.old.found self.new.found) }
    {
        self.found.refusals.push(refusal)?;
        Ok(())
    }

    /// Adds a unit that is asked for.
    fn add_asked(&mut self, alloc: Global, path: &str) -> Result<(), AllocError>
        requires found { AreFound (D.known self.old.disk.now) self.old.found.texts.items self.old.found.refusals.items self.old.places }
        ensures found { OnOk result (AreFound (D.known self.new.disk.now) self.new.found.texts.items self.new.found.refusals.items self.new.places) }
        ensures disk { self.new.disk ≡ self.old.disk }
        ensures met { OnOk result (IsMet self.new.found path.now) }
        ensures keeps { OnOk result (Keeps self.old.found self.new.found) }
    {
        let name = match unit_named(path) {
            Ok(name) => name,
            Err(why) => return self.refuse(alloc, path, why),
        };
        match self.text(name) {
            Some(text) if text.path.as_str() == path => return Ok(()),
            Some(_) => return self.refuse(alloc, path, Why::Twice),
            None => {}
        }
        match self.disk.read(alloc, path) {
            Ok(Some(bytes)) => {
                let path = String::from_str(alloc, path)?;
                self.add(alloc, name, Found { path, bytes })?;
                self.add_unit(name)
            }
            Ok(None) => self.refuse(alloc, path, Why::NotThere),
            Err(fault) => self.refuse(alloc, path, Why::of_fault(fault)?),
        }
    }

    /// Adds a file that was found, unless its text is refused.
    fn add(&mut self, alloc: Global, name: FileName, found: Found) -> Result<(), AllocError>
        requires found { AreFound (D.known self.old.disk.now) self.old.found.texts.items self.old.found.refusals.items self.old.places }
        requires new { has_name self.old.found.texts.items name ≡ false }
        requires named { name ≡ spec_name_of (string_bytes found.path) }
        requires given { Gives (D.known self.old.disk.now) (string_bytes found.path) (Some found.bytes.items) }
        ensures found { OnOk result (AreFound (D.known self.new.disk.now) self.new.found.texts.items self.new.found.refusals.items self.new.places) }
        ensures disk { self.new.disk ≡ self.old.disk }
        ensures met { OnOk result (IsMet self.new.found (string_bytes found.path)) }
        ensures keeps { OnOk result (Keeps self.old.found self.new.found) }
    {
        let Found { path, bytes } = found;
        if self.found.texts.len() >= FILE_LIMIT {
            return self.refuse(alloc, path.as_str(), Why::TooMany);
        }
        match prepared(alloc, bytes.as_slice())? {
            Ok(source) => {
                self.places.insert(name, self.found.texts.len())?;
                self.found.texts.push(Text { path, name, source })?;
                Ok(())
            }
            Err(why) => self.refuse(alloc, path.as_str(), why),
        }
    }

    /// Adds a unit of which there is a text, once.
    fn add_unit(&mut self, unit: FileName) -> Result<(), AllocError>
        requires found { AreFound (D.known self.old.disk.now) self.old.found.texts.items self.old.found.refusals.items self.old.places }
        ensures texts { self.new.found.texts ≡ self.old.found.texts }
        ensures refusals { self.new.found.refusals ≡ self.old.found.refusals }
        ensures places { self.new.places ≡ self.old.places }
        ensures disk { self.new.disk ≡ self.old.disk }
        ensures keeps { OnOk result (Keeps self.old.found self.new.found) }
    {
        if self.text(unit).is_some() && !self.found.units.contains(&unit) {
            self.found.units.push(unit)?;
        }
        Ok(())
    }

    /// Where a file is looked for that another one names: beside that, then in the other folders.
    fn folders_from(&self, alloc: Global, file: FileName) -> Result<Vec<String>, AllocError>
        requires { AreFound (D.known self.now.disk.now) self.now.found.texts.items self.now.found.refusals.items self.now.places }
    {
        let mut folders = Vec::new(alloc);
        if let Some(text) = self.text(file) {
            folders.push(String::from_str(alloc, folder_of(text.path.as_str()))?)?;
        }
        for folder in self.folders {
            folders.push(String::from_str(alloc, folder.as_str())?)?;
        }
        Ok(folders)
    }

    /// Looks the file up that a directive names, unless its name was found before.
    fn look_up(&mut self, alloc: Global, mention: Mention) -> Result<(), AllocError>
        requires found { AreFound (D.known self.old.disk.now) self.old.found.texts.items self.old.found.refusals.items self.old.places }
        ensures found { OnOk result (AreFound (D.known self.new.disk.now) self.new.found.texts.items self.new.found.refusals.items self.new.places) }
        ensures disk { self.new.disk ≡ self.old.disk }
        ensures keeps { OnOk result (Keeps self.old.found self.new.found) }
    {
        if self.text(mention.name).is_some() {
            return Ok(());
        }
        let folders = self.folders_from(alloc, mention.file)?;
        let Ok(name) = str::from_utf8(mention.name.as_bytes()) else {
            return Ok(());
        };
        match find(alloc, self.disk, folders.as_slice(), name)? {
            Search::Found(found) => self.add(alloc, mention.name, found),
            Search::Nowhere => Ok(()),
            Search::Refused(refusal) => self.add_refusal(refusal),
        }
    }

    /// A file as an expansion reads it.
    fn read_of(&self, name: FileName) -> Result<Read, AllocError>
        requires { AreFound (D.known self.now.disk.now) self.now.found.texts.items self.now.found.refusals.items self.now.places }
    {
        let source = match self.text(name) {
            Some(text) => Some(text.source.share()?),
            None => None,
        };
        Ok(Read {
            name,
            revision: 0,
            source,
        })
    }

    /// Looks up all that the expansion of a unit looks up, and then the units that it uses.
    fn follow(&mut self, alloc: Global, unit: FileName) -> Result<(), AllocError>
        requires found { AreFound (D.known self.old.disk.now) self.old.found.texts.items self.old.found.refusals.items self.old.places }
        ensures found { OnOk result (AreFound (D.known self.new.disk.now) self.new.found.texts.items self.new.found.refusals.items self.new.places) }
        ensures disk { self.new.disk ≡ self.old.disk }
        ensures keeps { OnOk result (Keeps self.old.found self.new.found) }
    {
        let mut reads = Items::new(alloc);
        reads.push(self.read_of(unit)?)?;
        for _ in 0..ROUND_LIMIT {
            let expanded = expand_over(alloc, &reads, unit)?;
            let missing = missing(alloc, &expanded, unit, &reads)?;
            if missing.is_empty() {
                return self.add_uses(alloc, &expanded);
            }
            for mention in missing.as_slice() {
                self.look_up(alloc, *mention)?;
                reads.push(self.read_of(mention.name)?)?;
            }
        }
        Ok(())
    }

    /// Looks up the units that the lines of an expansion use.
    fn add_uses(&mut self, alloc: Global, expanded: &Expanded) -> Result<(), AllocError>
        requires found { AreFound (D.known self.old.disk.now) self.old.found.texts.items self.old.found.refusals.items self.old.places }
        ensures found { OnOk result (AreFound (D.known self.new.disk.now) self.new.found.texts.items self.new.found.refusals.items self.new.places) }
        ensures disk { self.new.disk ≡ self.old.disk }
        ensures keeps { OnOk result (Keeps self.old.found self.new.found) }
    {
        for line in expanded.lines() {
            self.add_used(alloc, *line.file.get(), line.used_units())?;
        }
        Ok(())
    }

    /// Looks up these units, which a line of a file uses.
    fn add_used(
        &mut self,
        alloc: Global,
        file: FileName,
        units: &[FileName],
    ) -> Result<(), AllocError>
        requires found { AreFound (D.known self.old.disk.now) self.old.found.texts.items self.old.found.refusals.items self.old.places }
        ensures found { OnOk result (AreFound (D.known self.new.disk.now) self.new.found.texts.items self.new.found.refusals.items self.new.places) }
        ensures disk { self.new.disk ≡ self.old.disk }
        ensures keeps { OnOk result (Keeps self.old.found self.new.found) }
    {
        for name in units {
            self.look_up(alloc, Mention { file, name: *name })?;
            self.add_unit(*name)?;
        }
        Ok(())
    }
}
