//! The files of one folder that are open, with all that they use and include, on a board of their own.
ghost use Rattle.occ_editor_edits.specs.Documents.{ChangesAt};
ghost use Rattle.occ_editor.specs.Publishing.{HasCode, refusal_at, text_at as spec_text_at, told_at};
ghost use Rattle.occ_messages.specs.Located.{head_of};
ghost use Rattle.occ_editor.specs.Rooms.{IsSettled, Knows, Stands, is_of as spec_is_of, is_unit as spec_is_unit, is_vacant};
ghost use Rattle.occ_files.specs.Paths.{folder_of as spec_folder_of};
ghost use Rattle.occ_base.specs.declared.code.Code.{Code as ACode};
ghost use Rattle.occ_base.specs.declared.diag.Diag.{Diag as ADiag};
ghost use Rattle.occ_files.specs.Gathering.{are_apart};
ghost use Rattle.std.specs.Str.{bytes_eq};
ghost use Rattle.std.specs.String.{string_bytes};
ghost use Rattle.occ_editor_edits.specs.declared.documents.Document.{Document as ADocument};
ghost use Rattle.occ_editor.specs.inside.Codes.{IsAt};
ghost use Rattle.occ_editor.specs.inside.Placed.{AreAsked, AreFound, HasAt, place_at};
ghost use Rattle.occ_editor.specs.inside.Shown.{Grows, HasFile, IsIn, IsQuiet, RoomTellsSame, has_key, text_named};
ghost use Rattle.occ_files.specs.declared.gathering.Text.{Text as AText};
ghost use Rattle.std.specs.List.{Contains, slice_get};
ghost use Rattle.std.specs.Option.{option_copied};
ghost use Rattle.std.specs.Prelude.{◌≡◌, ◌⊎◌, ◌↔◌, IfOk, IfSome, IsTrue, List, None, OnOk, Some, false, map, option_map, slice_set, true, ℕ};

use super::bringing::{brought, put_one};
use super::found::name_alike;
use super::placing::told;
use occ_base::{Code, Diag, FileName, Items, Shared};
use occ_board::Board;
use occ_files::{Disk, Gathered, Refusal, Text, Why, folder_of, gather};
use occ_files_check::{CheckFault, diags_in, messages};
use occ_forms::{Source, prepare};
use occ_lines::TextFault;
use occ_messages::Message;
use std::alloc::{AllocError, Global};
use std::collections::BTreeSet;
use std::mem;

/// A board with its files.
#[derive(Drop)]
pub struct Room {
    pub folder: String,
    board: Board,
    /// The files on the board.
    texts: Vec<Text>,
    /// The files that are not checked.
    refusals: Vec<Refusal>,
    /// What its report showed last.
    told: Items<Diag>,
    /// Whether its files have to be found again.
    pub is_loose: bool,
    /// Whether its report may show something else by now.
    is_changed: bool,
}

impl Room {
    /// A room without files, which have to be found.
    pub fn new(alloc: Global, folder: &str) -> Result<Room, AllocError>
        ensures stands { IfOk result (λ room. (documents : List ADocument) → Stands documents room) }
        ensures quiet { IfOk result (λ room. (path : List ℕ) → IsQuiet room path) }
        ensures folder { IfOk result (λ room. string_bytes room.folder ≡ folder.now) }
    {
        Ok(Room {
            folder: String::from_str(alloc, folder)?,
            board: Board::new(alloc),
            texts: Vec::new(alloc),
            refusals: Vec::new(alloc),
            told: Items::new(alloc),
            is_loose: true,
            is_changed: false,
        })
    }

    /// Whether the file at a path is a unit of its folder.
    pub fn wants(&self, path: &str) -> bool
        ensures { result ≡ spec_is_of self.now path.now }
    {
        is_unit(path) && self.is_for(path)
    }

    /// Whether it is for the folder of the file at a path.
    pub fn is_for(&self, path: &str) -> bool
        ensures { result ≡ bytes_eq (string_bytes self.now.folder) (spec_folder_of path.now) }
    {
        self.folder.as_str() == folder_of(path)
    }

    /// Where the file at a path stands among its texts.
    fn place_of(&self, path: &str) -> Option<usize>
        ensures { result ≡ place_at self.now.texts.items path.now }
    {
        for (place, text) in self.texts.iter().enumerate() {
            if text.path.as_str() == path {
                return Some(place);
            }
        }
        None
    }

    /// The file at a path.
    fn text_at(&self, path: &str) -> Option<&Text>
        ensures { option_copied result ≡ spec_text_at self.now.texts.items path.now }
    {
        for text in &self.texts {
            if text.path.as_str() == path {
                return Some(text);
            }
        }
        None
    }

    /// The file at a path has this text now. If its text names other files, or it is or was refused, all files have to be found
    /// again.
    pub fn follow(&mut self, alloc: Global, path: &str, bytes: &[u8]) -> Result<(), CheckFault>
        ensures stands { OnOk result ((before now : List ADocument) → ChangesAt before now path.now (Some bytes.now) → Stands before self.old → Stands now self.new) }
        ensures told { OnOk result ((path : List ℕ) → RoomTellsSame self.old self.new path) }
        ensures folder { self.new.folder ≡ self.old.folder }
    {
        if self.refusal_of(path).is_some() {
            self.is_loose = true;
            return Ok(());
        }
        let Some(place) = self.place_of(path) else {
            self.is_loose |= self.wants(path);
            return Ok(());
        };
        match prepare(alloc, bytes) {
            Ok(source) => {
                self.change(alloc, place, Shared::new(alloc, source)?)?;
                Ok(())
            }
            Err(TextFault::Memory) => Err(CheckFault::Memory),
            Err(_) => {
                self.is_loose = true;
                Ok(())
            }
        }
    }

    /// The file at a place has this text now.
    fn change(
        &mut self,
        alloc: Global,
        place: usize,
        source: Shared<Source>,
    ) -> Result<(), CheckFault>
        ensures folder { self.new.folder ≡ self.old.folder }
        ensures stands { OnOk result ((before now : List ADocument) (path : List ℕ) → place_at self.old.texts.items path ≡ Some place → refusal_at self.old.refusals.items path ≡ None → ChangesAt before now path (Some source.text) → Stands before self.old → Stands now self.new) }
        ensures told { OnOk result ((path : List ℕ) → RoomTellsSame self.old self.new path) }
    {
        let Some(text) = self.texts.get(place) else {
            return Ok(());
        };
        let name = text.name;
        let is_alike = name_alike(alloc, text.source.get(), source.get())?;
        put_one(alloc, &mut self.board, name, source.share()?)?;
        put_source(&mut self.texts, place, source);
        self.is_loose |= !is_alike;
        self.is_changed = true;
        Ok(())
    }

    /// The file at a path is open with this text now, or no more. If it had another one, or is refused, or may be one that was
    /// not there, all files have to be found again.
    pub fn meet(&mut self, path: &str, bytes: Option<&[u8]>)
        ensures folder { self.new.folder ≡ self.old.folder }
        ensures closed { bytes.entry ≡ None → self.new.is_loose ≡ true }
        ensures stands { (before now : List ADocument) → ChangesAt before now path.now (option_map (λ text. text.now) bytes.entry) → Stands before self.old → Stands now self.new }
        ensures told { (path : List ℕ) → RoomTellsSame self.old self.new path }
    {
        if self.refusal_of(path).is_some() || !self.has(path, bytes) {
            self.is_loose = true;
        }
    }

    /// Whether the file at a path is there with this text.
    fn has(&self, path: &str, bytes: Option<&[u8]>) -> bool
        ensures { IsTrue result → HasAt self.now.texts.items path.now (option_map (λ text. text.now) bytes.entry) }
    {
        let Some(bytes) = bytes else {
            return false;
        };
        let Some(place) = self.place_of(path) else {
            return false;
        };
        match self.texts.get(place) {
            Some(text) => text.source.get().text() == bytes,
            None => false,
        }
    }

    /// Finds its files again, if that has to be, and checks what is pending. Adds the paths of which something else is told now.
    pub fn renew<D: Disk>(
        &mut self,
        alloc: Global,
        disk: &D,
        folders: &[String],
        paths: &[String],
        stale: &mut BTreeSet<String>,
    ) -> Result<(), CheckFault>
        ensures folder { OnOk result (self.new.folder ≡ self.old.folder) }
        ensures settled { OnOk result ((documents : List ADocument) → Knows (D.known disk.now) documents → AreAsked documents self.old paths.now → Stands documents self.old → IsSettled documents self.new) }
        ensures grows { OnOk result (Grows stale.old stale.new) }
        ensures told { OnOk result ((documents : List ADocument) → Stands documents self.old → (path : List ℕ) → has_key stale.new path ≡ false → RoomTellsSame self.old self.new path) }
    {
        if self.is_loose {
            self.find_anew(alloc, disk, folders, paths, stale)?;
        } else if self.is_changed {
            self.tell_anew(alloc, stale)?;
        }
        Ok(())
    }

    /// Finds its files again, and checks what is pending. Adds the paths of which something was told or is told now.
    fn find_anew<D: Disk>(
        &mut self,
        alloc: Global,
        disk: &D,
        folders: &[String],
        paths: &[String],
        stale: &mut BTreeSet<String>,
    ) -> Result<(), CheckFault>
        ensures folder { OnOk result (self.new.folder ≡ self.old.folder) }
        ensures settled { OnOk result ((documents : List ADocument) → Knows (D.known disk.now) documents → AreAsked documents self.old paths.now → Stands documents self.old → IsSettled documents self.new) }
        ensures grows { OnOk result (Grows stale.old stale.new) }
        ensures told { OnOk result ((documents : List ADocument) → Stands documents self.old → (path : List ℕ) → has_key stale.new path ≡ false → RoomTellsSame self.old self.new path) }
    {
        self.add_shown(alloc, stale)?;
        self.find(alloc, disk, folders, paths)?;
        self.told = told(alloc, &mut self.board)?;
        self.add_shown(alloc, stale)?;
        self.is_loose = false;
        self.is_changed = false;
        Ok(())
    }

    /// Checks what is pending. Adds the paths of which something else is told now.
    fn tell_anew(&mut self, alloc: Global, stale: &mut BTreeSet<String>) -> Result<(), CheckFault>
        requires { self.old.is_loose ≡ false }
        ensures folder { OnOk result (self.new.folder ≡ self.old.folder) }
        ensures settled { OnOk result ((documents : List ADocument) → Stands documents self.old → IsSettled documents self.new) }
        ensures grows { OnOk result (Grows stale.old stale.new) }
        ensures told { OnOk result ((documents : List ADocument) → Stands documents self.old → (path : List ℕ) → has_key stale.new path ≡ false → RoomTellsSame self.old self.new path) }
    {
        let now = told(alloc, &mut self.board)?;
        let before = mem::replace(&mut self.told, now);
        self.add_changed(alloc, before.as_slice(), stale)?;
        self.is_changed = false;
        Ok(())
    }

    /// Finds its files again.
    fn find<D: Disk>(
        &mut self,
        alloc: Global,
        disk: &D,
        folders: &[String],
        paths: &[String],
    ) -> Result<(), CheckFault>
        ensures folder { OnOk result (self.new.folder ≡ self.old.folder) }
        ensures apart { OnOk result (are_apart self.new.texts.items ≡ true) }
        ensures found { OnOk result ((documents : List ADocument) → Knows (D.known disk.now) documents → Stands documents self.old → AreFound documents self.new.board self.new.texts.items self.new.refusals.items paths.now) }
    {
        let Gathered {
            texts,
            refusals,
            ..
        } = gather(alloc, disk, folders, paths)?;
        let before = mem::replace(&mut self.texts, Vec::new(alloc));
        self.texts = brought(alloc, &mut self.board, before.as_slice(), texts)?;
        self.refusals = refusals;
        Ok(())
    }

    /// Adds the paths of which something is told.
    pub fn add_shown(&self, alloc: Global, paths: &mut BTreeSet<String>) -> Result<(), AllocError>
        ensures grows { OnOk result (Grows paths.old paths.new) }
        ensures added { OnOk result (are_apart self.now.texts.items ≡ true → (path : List ℕ) → has_key paths.new path ≡ false → IsQuiet self.now path) }
    {
        self.add_refused(alloc, paths)?;
        self.add_paths(alloc, self.told.as_slice(), &[], paths)?;
        Ok(())
    }

    /// Adds the paths that are refused.
    fn add_refused(&self, alloc: Global, paths: &mut BTreeSet<String>) -> Result<(), AllocError>
        ensures grows { OnOk result (Grows paths.old paths.new) }
        ensures added { OnOk result ((path : List ℕ) → has_key paths.new path ≡ false → refusal_at self.now.refusals.items path ≡ None) }
    {
        for refusal in &self.refusals {
            paths.insert(String::from_str(alloc, refusal.path.as_str())?)?;
        }
        Ok(())
    }

    /// Adds the paths of the files of those diagnostics that are not among the others.
    fn add_paths(
        &self,
        alloc: Global,
        diags: &[Diag],
        others: &[Diag],
        paths: &mut BTreeSet<String>,
    ) -> Result<(), AllocError>
        ensures grows { OnOk result (Grows paths.old paths.new) }
        ensures added { OnOk result (are_apart self.now.texts.items ≡ true → (path : List ℕ) → has_key paths.new path ≡ false → (diag : ADiag) → Contains diags.now diag → IsIn self.now.texts.items path diag → Contains others.now diag) }
    {
        let mut last = None;
        for diag in diags {
            last = self.add_missing(alloc, diag, others, last, paths)?;
        }
        Ok(())
    }

    /// Adds the path of the file of a diagnostic, unless it was the last that was added, or the others have the diagnostic. Gives
    /// the last file that was added.
    fn add_missing(
        &self,
        alloc: Global,
        diag: &Diag,
        others: &[Diag],
        last: Option<FileName>,
        paths: &mut BTreeSet<String>,
    ) -> Result<Option<FileName>, AllocError>
        requires { IfSome last (HasFile self.now.texts.items paths.old) }
        ensures last { IfOk result (λ last. IfSome last (HasFile self.now.texts.items paths.new)) }
        ensures grows { OnOk result (Grows paths.old paths.new) }
        ensures added { OnOk result (are_apart self.now.texts.items ≡ true → (path : List ℕ) → has_key paths.new path ≡ false → IsIn self.now.texts.items path diag.now → Contains others.now diag.now) }
    {
        if let Some(name) = last
            && name == diag.file
        {
            return Ok(last);
        }
        if has_diag(others, diag) {
            return Ok(last);
        }
        self.add_path(alloc, diag.file, paths)?;
        Ok(Some(diag.file))
    }

    /// Adds the path of a file, if it is there.
    fn add_path(
        &self,
        alloc: Global,
        name: FileName,
        paths: &mut BTreeSet<String>,
    ) -> Result<(), AllocError>
        ensures grows { OnOk result (Grows paths.old paths.new) }
        ensures added { OnOk result (HasFile self.now.texts.items paths.new name) }
    {
        if let Some(text) = self.text_named(name) {
            paths.insert(String::from_str(alloc, text.path.as_str())?)?;
        }
        Ok(())
    }

    /// The file of a name.
    fn text_named(&self, name: FileName) -> Option<&Text>
        ensures { option_copied result ≡ text_named self.now.texts.items name }
    {
        for text in &self.texts {
            if text.name == name {
                return Some(text);
            }
        }
        None
    }

    /// Adds the paths of the files of which other diagnostics are told than before.
    fn add_changed(
        &self,
        alloc: Global,
        before: &[Diag],
        paths: &mut BTreeSet<String>,
    ) -> Result<(), AllocError>
        ensures grows { OnOk result (Grows paths.old paths.new) }
        ensures added { OnOk result (are_apart self.now.texts.items ≡ true → (path : List ℕ) → has_key paths.new path ≡ false → (diag : ADiag) → IsIn self.now.texts.items path diag → Contains before.now diag ↔ Contains self.now.told diag) }
    {
        let now = self.told.as_slice();
        self.add_paths(alloc, before, now, paths)?;
        self.add_paths(alloc, now, before, paths)?;
        Ok(())
    }

    /// Why the file at a path is not checked, if so it is.
    pub fn refusal_of(&self, path: &str) -> Option<Why>
        ensures { result ≡ refusal_at self.now.refusals.items path.now }
    {
        for refusal in &self.refusals {
            if refusal.path.as_str() == path {
                return Some(refusal.why);
            }
        }
        None
    }

    /// Whether it has no file.
    pub fn is_empty(&self) -> bool
        ensures { result ≡ is_vacant self.now }
    {
        self.texts.is_empty() && self.refusals.is_empty()
    }

    /// Adds the codes that are told of a line of the file at a path.
    pub fn add_codes(
        &self,
        path: &str,
        line: u32,
        codes: &mut BTreeSet<Code>,
    ) -> Result<(), AllocError>
        ensures { OnOk result ((code : ACode) → Contains codes.new.keys code ↔ (Contains codes.old.keys code ⊎ HasCode (Contains (told_at self.now path.now)) line code)) }
    {
        let Some(text) = self.text_at(path) else {
            return Ok(());
        };
        for diag in self.told.as_slice() {
            add_code(diag, text.name, line, codes)?;
        }
        Ok(())
    }

    /// What is told of the file at a path.
    pub fn messages_of(&self, alloc: Global, path: &str) -> Result<Vec<Message>, AllocError>
        ensures { IfOk result (λ messages. map head_of messages.items ≡ told_at self.now path.now) }
    {
        let Some(text) = self.text_at(path) else {
            return Ok(Vec::new(alloc));
        };
        let diags = diags_in(alloc, self.told.as_slice(), text.name)?;
        messages(alloc, diags.as_slice(), self.texts.as_slice())
    }
}

/// The text at a place is this one.
fn put_source(texts: &mut Vec<Text>, place: usize, source: Shared<Source>)
    ensures { (text : AText) → slice_get texts.old.items place ≡ Some text → texts.new.items ≡ slice_set texts.old.items place (record { path = text.path; name = text.name; source = source }) }
{
    if let Some(text) = texts.get_mut(place) {
        text.source = source;
    }
}

/// Adds the code of a diagnostic, if that is at the line of the file.
fn add_code(
    diag: &Diag,
    file: FileName,
    line: u32,
    codes: &mut BTreeSet<Code>,
) -> Result<(), AllocError>
    ensures { OnOk result ((code : ACode) → Contains codes.new.keys code ↔ (Contains codes.old.keys code ⊎ IsAt file line code diag.now)) }
{
    if diag.file == file && diag.line == line {
        codes.insert(diag.code)?;
    }
    Ok(())
}

/// Whether a diagnostic is among those that stand in order.
fn has_diag(diags: &[Diag], diag: &Diag) -> bool
    ensures { IsTrue result → Contains diags.now diag.now }
{
    diags.binary_search(diag).is_ok()
}

/// Whether a file is a unit, by its name.
pub fn is_unit(path: &str) -> bool
    ensures { result ≡ spec_is_unit path.now }
{
    path.ends_with(".occ")
}
