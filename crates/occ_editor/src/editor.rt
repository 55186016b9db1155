//! The open files with their boards, one for each folder: notes are taken, and what is told of files is published where it changed.
ghost use Rattle.occ_editor_edits.specs.Documents.{ChangesAt, IsAfter, text_in};
ghost use Rattle.occ_editor.specs.Rooms.{AllSettled, AllStand, HaveOthers, HaveRooms, Stands, has_folder, is_vacant};
ghost use Rattle.occ_files.specs.Paths.{folder_of as spec_folder_of};
ghost use Rattle.occ_editor.specs.Standing.{AreServed, IsStanding, IsUpToDate};
ghost use Rattle.occ_editor_edits.specs.declared.documents.Document.{Document as ADocument};
ghost use Rattle.occ_editor.specs.inside.Followed.{AreSettled, HaveFollowed};
ghost use Rattle.occ_editor.specs.inside.Placed.{AreAsked};
ghost use Rattle.occ_base.specs.declared.code.Code.{Code as ACode};
ghost use Rattle.occ_editor_edits.specs.Messages.{said};
ghost use Rattle.occ_editor_edits.specs.Texts.{after_saying};
ghost use Rattle.std.specs.String.{string_bytes};
ghost use Rattle.occ_editor.specs.Publishing.{AreWhole, HasCode, IsPublished, IsTold, BoardsTellSame, why_of};
ghost use Rattle.occ_editor.specs.inside.Shown.{AllTellBut, AllTellSame, Grows, RoomTellsSame};
ghost use Rattle.occ_messages.specs.Located.{Head, head_of};
ghost use Rattle.std.specs.List.{All, Contains, filter};
ghost use Rattle.std.specs.Prelude.{◌≡◌, ◌⊎◌, ◌↔◌, ◌+◌, [], IfOk, IsTrue, List, OnOk, length, map, not, option_map, ℕ};

use super::overlay::Overlay;
use super::room::{Room, is_unit};
use occ_base::Code;
use occ_editor_edits::{Documents, Note};
use occ_files::{Disk, Why, folder_of};
use occ_files_check::CheckFault;
use occ_messages::Message;
use std::alloc::{AllocError, Global};
use std::collections::BTreeSet;

/// What is told of a file from now on.
#[derive(Drop)]
pub struct Published {
    pub path: String,
    pub messages: Vec<Message>,
    /// Why it is not checked, if so it is.
    pub refusal: Option<Why>,
}

/// What is open in an editor, and the boards on which it is checked.
#[derive(Drop)]
pub struct Editor {
    pub documents: Documents,
    rooms: Vec<Room>,
    /// Where used and included files are looked for, after the folder of the file that names them.
    folders: Vec<String>,
    /// The files of which perhaps something else is told than was published.
    stale: BTreeSet<String>,
}

impl Editor {
    /// Nothing is open.
    pub fn new(alloc: Global, folders: Vec<String>) -> Editor
        ensures documents { result.documents.all.items ≡ [] }
        ensures boards { IsStanding result }
    {
        Editor {
            documents: Documents::new(alloc),
            rooms: Vec::new(alloc),
            folders,
            stale: BTreeSet::new(alloc),
        }
    }

    /// Takes a note. The open files have the texts then that it gives them, and the boards follow.
    pub fn take(&mut self, alloc: Global, note: Note) -> Result<(), CheckFault>
        ensures documents { OnOk result (IsAfter self.old.documents.all.items note self.new.documents.all.items) }
        ensures texts { OnOk result ((path : List ℕ) → text_in self.new.documents.all.items path ≡ after_saying (text_in self.old.documents.all.items) (said note) path) }
        ensures boards { OnOk result (IsStanding self.old → IsStanding self.new) }
        ensures told { OnOk result (BoardsTellSame self.old.rooms.items self.new.rooms.items) }
    {
        let path = String::from_str(alloc, note.path())?;
        let is_change = matches!(&note, Note::Changed(_, _));
        self.documents.take(alloc, note)?;
        self.tell_all(alloc, path.as_str(), is_change)?;
        self.add_room(alloc, path.as_str())?;
        self.stale.insert(path)?;
        Ok(())
    }

    /// All boards follow the file at a path, of which alone the text may have changed.
    fn tell_all(&mut self, alloc: Global, path: &str, is_change: bool) -> Result<(), CheckFault>
        ensures documents { self.new.documents ≡ self.old.documents }
        ensures folders { OnOk result (map (λ room. string_bytes room.folder) self.new.rooms.items ≡ map (λ room. string_bytes room.folder) self.old.rooms.items) }
        ensures boards { OnOk result ((before : List ADocument) → ChangesAt before self.old.documents.all.items path.now (text_in self.old.documents.all.items path.now) → AllStand before self.old.rooms.items → AllStand self.old.documents.all.items self.new.rooms.items) }
        ensures told { OnOk result (AllTellSame self.old.rooms.items self.new.rooms.items) }
    {
        for index in 0..self.rooms.len() {
            self.tell(alloc, index, path, is_change)?;
        }
        Ok(())
    }

    /// The board of that number follows the file at a path.
    fn tell(
        &mut self,
        alloc: Global,
        index: usize,
        path: &str,
        is_change: bool,
    ) -> Result<(), CheckFault>
        ensures documents { self.new.documents ≡ self.old.documents }
        ensures folders { OnOk result (map (λ room. string_bytes room.folder) self.new.rooms.items ≡ map (λ room. string_bytes room.folder) self.old.rooms.items) }
        ensures count { length self.new.rooms.items ≡ length self.old.rooms.items }
        ensures boards { OnOk result ((before : List ADocument) → ChangesAt before self.old.documents.all.items path.now (text_in self.old.documents.all.items path.now) → HaveFollowed before self.old.documents.all.items index self.old.rooms.items → HaveFollowed before self.old.documents.all.items (index + 1) self.new.rooms.items) }
        ensures told { OnOk result (AllTellSame self.old.rooms.items self.new.rooms.items) }
    {
        let text = self.documents.text_of(path);
        if let Some(room) = self.rooms.get_mut(index) {
            told(alloc, room, path, text, is_change)?;
        }
        Ok(())
    }

    /// Adds the room of a unit that is open, unless there is one.
    fn add_room(&mut self, alloc: Global, path: &str) -> Result<(), AllocError>
        ensures documents { self.new.documents ≡ self.old.documents }
        ensures rooms { OnOk result (HaveOthers path.now self.old.documents.all.items self.old.rooms.items → HaveRooms self.old.documents.all.items self.new.rooms.items) }
        ensures boards { OnOk result ((documents : List ADocument) → AllStand documents self.old.rooms.items → AllStand documents self.new.rooms.items) }
        ensures told { OnOk result (BoardsTellSame self.old.rooms.items self.new.rooms.items) }
    {
        let is_open = is_unit(path) && self.documents.text_of(path).is_some();
        if is_open && !self.has_room(path) {
            self.rooms.push(Room::new(alloc, folder_of(path))?)?;
        }
        Ok(())
    }

    /// Whether the folder of the file at a path has a room.
    fn has_room(&self, path: &str) -> bool
        ensures { result ≡ has_folder self.now.rooms.items (spec_folder_of path.now) }
    {
        for room in &self.rooms {
            if room.is_for(path) {
                return true;
            }
        }
        false
    }

    /// Files that are not open may have changed: all are found again.
    pub fn look_again(&mut self)
        ensures documents { self.new.documents ≡ self.old.documents }
        ensures boards { IsStanding self.old → IsStanding self.new }
        ensures told { BoardsTellSame self.old.rooms.items self.new.rooms.items }
    {
        for index in 0..self.rooms.len() {
            self.loosen(index);
        }
    }

    /// The files of the room of that number are found again.
    fn loosen(&mut self, index: usize)
        ensures documents { self.new.documents ≡ self.old.documents }
        ensures folders { map (λ room. string_bytes room.folder) self.new.rooms.items ≡ map (λ room. string_bytes room.folder) self.old.rooms.items }
        ensures boards { (documents : List ADocument) → AllStand documents self.old.rooms.items → AllStand documents self.new.rooms.items }
        ensures told { AllTellSame self.old.rooms.items self.new.rooms.items }
    {
        if let Some(room) = self.rooms.get_mut(index) {
            room.is_loose = true;
        }
    }

    /// Checks what is pending, and gives what is told of each file of which perhaps something else is told than before. All boards
    /// are up to date then.
    pub fn publish<D: Disk>(
        &mut self,
        alloc: Global,
        disk: &D,
    ) -> Result<Vec<Published>, CheckFault>
        ensures documents { self.new.documents ≡ self.old.documents }
        ensures boards { OnOk result (IsStanding self.old → IsUpToDate self.new) }
        ensures stands { OnOk result (IsStanding self.old → IsStanding self.new) }
        ensures served { OnOk result (IsStanding self.old → AreServed self.new) }
        ensures told { IfOk result (λ all. All (IsPublished self.new.rooms.items) all.items) }
        ensures whole { IfOk result (λ all. IsStanding self.old → AreWhole self.old.rooms.items self.new.rooms.items all.items) }
    {
        self.renew_all(alloc, disk)?;
        self.leave_empty();
        let published = told_all(alloc, self.rooms.as_slice(), &self.stale)?;
        self.stale.clear();
        Ok(published)
    }

    /// Renews all rooms.
    fn renew_all<D: Disk>(&mut self, alloc: Global, disk: &D) -> Result<(), CheckFault>
        ensures documents { self.new.documents ≡ self.old.documents }
        ensures folders { OnOk result (map (λ room. string_bytes room.folder) self.new.rooms.items ≡ map (λ room. string_bytes room.folder) self.old.rooms.items) }
        ensures boards { OnOk result (AllStand self.old.documents.all.items self.old.rooms.items → AllSettled self.old.documents.all.items self.new.rooms.items) }
        ensures told { OnOk result (AllStand self.old.documents.all.items self.old.rooms.items → AllTellBut self.new.stale self.old.rooms.items self.new.rooms.items) }
    {
        for index in 0..self.rooms.len() {
            self.renew(alloc, disk, index)?;
        }
        Ok(())
    }

    /// Renews the room of that number.
    fn renew<D: Disk>(&mut self, alloc: Global, disk: &D, index: usize) -> Result<(), CheckFault>
        ensures documents { self.new.documents ≡ self.old.documents }
        ensures folders { OnOk result (map (λ room. string_bytes room.folder) self.new.rooms.items ≡ map (λ room. string_bytes room.folder) self.old.rooms.items) }
        ensures count { length self.new.rooms.items ≡ length self.old.rooms.items }
        ensures boards { OnOk result (AreSettled self.old.documents.all.items index self.old.rooms.items → AreSettled self.old.documents.all.items (index + 1) self.new.rooms.items) }
        ensures grows { OnOk result (Grows self.old.stale self.new.stale) }
        ensures told { OnOk result (AreSettled self.old.documents.all.items index self.old.rooms.items → AllTellBut self.new.stale self.old.rooms.items self.new.rooms.items) }
    {
        let overlay = Overlay {
            documents: &self.documents,
            disk,
        };
        let folders = self.folders.as_slice();
        if let Some(room) = self.rooms.get_mut(index) {
            let paths = paths_in(alloc, &self.documents, room)?;
            room.renew(alloc, &overlay, folders, paths.as_slice(), &mut self.stale)?;
        }
        Ok(())
    }

    /// Rooms without files are left.
    fn leave_empty(&mut self)
        ensures documents { self.new.documents ≡ self.old.documents }
        ensures rooms { self.new.rooms.items ≡ filter (λ room. not (is_vacant room)) self.old.rooms.items }
        ensures folders { (documents : List ADocument) → AllSettled documents self.old.rooms.items → HaveRooms documents self.old.rooms.items → HaveRooms documents self.new.rooms.items }
        ensures boards { (documents : List ADocument) → AllSettled documents self.old.rooms.items → AllSettled documents self.new.rooms.items }
        ensures stale { self.new.stale ≡ self.old.stale }
        ensures told { BoardsTellSame self.old.rooms.items self.new.rooms.items }
    {
        self.rooms.retain(|room| !room.is_empty());
    }

    /// The codes that are told of a line of a file, from 1, and no others.
    pub fn codes_at(
        &self,
        alloc: Global,
        path: &str,
        line: u32,
    ) -> Result<BTreeSet<Code>, AllocError>
        ensures { IfOk result (λ codes. (code : ACode) → Contains codes.keys code ↔ HasCode (IsTold self.now.rooms.items path.now) line code) }
    {
        let mut codes = BTreeSet::new(alloc);
        for room in &self.rooms {
            room.add_codes(path, line, &mut codes)?;
        }
        Ok(codes)
    }
}

/// A room follows the file at a path, which is open with this text or no more.
fn told(
    alloc: Global,
    room: &mut Room,
    path: &str,
    text: Option<&[u8]>,
    is_change: bool,
) -> Result<(), CheckFault>
    ensures folder { room.new.folder ≡ room.old.folder }
    ensures stands { OnOk result ((before now : List ADocument) → ChangesAt before now path.now (option_map (λ text. text.now) text.entry) → Stands before room.old → Stands now room.new) }
    ensures told { OnOk result ((path : List ℕ) → RoomTellsSame room.old room.new path) }
{
    match text {
        Some(bytes) if is_change => room.follow(alloc, path, bytes)?,
        _ => room.meet(path, text),
    }
    Ok(())
}

/// The open units of a room, by their paths.
fn paths_in(alloc: Global, documents: &Documents, room: &Room) -> Result<Vec<String>, AllocError>
    ensures { IfOk result (λ paths. AreAsked documents.now.all.items room.now paths.items) }
{
    let mut paths = Vec::new(alloc);
    for document in documents.as_slice() {
        let path = document.path.as_str();
        if room.wants(path) {
            paths.push(String::from_str(alloc, path)?)?;
        }
    }
    Ok(paths)
}

/// What is told of the files at these paths.
fn told_all(
    alloc: Global,
    rooms: &[Room],
    paths: &BTreeSet<String>,
) -> Result<Vec<Published>, AllocError>
    ensures told { IfOk result (λ all. All (IsPublished rooms.now) all.items) }
    ensures paths { IfOk result (λ all. map (λ p. string_bytes p.path) all.items ≡ map string_bytes paths.now.keys) }
{
    let mut published = Vec::new(alloc);
    for path in paths {
        published.push(told_of(alloc, rooms, path.as_str())?)?;
    }
    Ok(published)
}

/// What is told of the file at a path.
fn told_of(alloc: Global, rooms: &[Room], path: &str) -> Result<Published, AllocError>
    ensures told { IfOk result (IsPublished rooms.now) }
    ensures path { IfOk result (λ published. string_bytes published.path ≡ path.now) }
{
    let mut published = Published {
        path: String::from_str(alloc, path)?,
        messages: Vec::new(alloc),
        refusal: refusal_in(rooms, path),
    };
    for room in rooms {
        published.add_all(room.messages_of(alloc, path)?)?;
    }
    Ok(published)
}

/// Why the file at a path is not checked, as the first board tells it that does not check it.
fn refusal_in(rooms: &[Room], path: &str) -> Option<Why>
    ensures { result ≡ why_of rooms.now path.now }
{
    for room in rooms {
        if let Some(why) = room.refusal_of(path) {
            return Some(why);
        }
    }
    None
}

impl Published {
    /// Adds messages, but for those that are there.
    fn add_all(&mut self, mut messages: Vec<Message>) -> Result<(), AllocError>
        ensures path { self.new.path ≡ self.old.path }
        ensures refusal { self.new.refusal ≡ self.old.refusal }
        ensures messages { OnOk result ((head : Head) → Contains (map head_of self.new.messages.items) head ↔ (Contains (map head_of self.old.messages.items) head ⊎ Contains (map head_of messages.items) head)) }
    {
        if self.messages.is_empty() {
            self.messages = messages;
            return Ok(());
        }
        while let Some(message) = messages.pop() {
            self.add(message)?;
        }
        Ok(())
    }

    /// Adds a message, unless it is there.
    fn add(&mut self, message: Message) -> Result<(), AllocError>
        ensures path { self.new.path ≡ self.old.path }
        ensures refusal { self.new.refusal ≡ self.old.refusal }
        ensures messages { OnOk result ((head : Head) → Contains (map head_of self.new.messages.items) head ↔ (Contains (map head_of self.old.messages.items) head ⊎ (head_of message ≡ head))) }
    {
        if self.has(&message) {
            return Ok(());
        }
        self.messages.push(message)?;
        Ok(())
    }

    /// Whether a message is there.
    fn has(&self, message: &Message) -> bool
        ensures { IsTrue result → Contains (map head_of self.now.messages.items) (head_of message.now) }
    {
        for other in &self.messages {
            if is_same(other, message) {
                return true;
            }
        }
        false
    }
}

/// Whether two messages tell the same at one place.
fn is_same(one: &Message, other: &Message) -> bool
    ensures { IsTrue result → head_of one.now ≡ head_of other.now }
{
    one.path.as_str() == other.path.as_str()
        && one.line == other.line
        && one.code == other.code
        && one.grade == other.grade
        && one.words == other.words
}
