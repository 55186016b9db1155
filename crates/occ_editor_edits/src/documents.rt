//! The files that are open in an editor: their paths and texts, as its notes leave them.
ghost use Rattle.occ_editor_edits.specs.Documents.{IsAfter, IsTextOf, path_of, text_in, without};
ghost use Rattle.occ_editor_edits.specs.Messages.{said};
ghost use Rattle.occ_editor_edits.specs.Texts.{after_saying};
ghost use Rattle.std.specs.Prelude.{◌≡◌, ◌++◌, ◌∷◌, [], List, OnOk, option_map, ℕ};
ghost use Rattle.std.specs.String.{string_bytes};

use super::changes::{Change, changed_all};
use std::alloc::{AllocError, Global};

/// A file that is open in the editor.
#[derive(Drop)]
pub struct Document {
    pub path: String,
    pub text: Vec<u8>,
}

/// What an editor tells of a file.
#[derive(Drop)]
pub enum Note {
    /// It is open from then on, with this text.
    Opened(String, Vec<u8>),
    /// These changes are made to its text, one after the other.
    Changed(String, Vec<Change>),
    /// It is open no more.
    Closed(String),
}

/// The files that are open. Each path is there once.
#[derive(Drop)]
pub struct Documents {
    pub all: Vec<Document>,
}

impl Note {
    /// The file that it is of.
    pub fn path(&self) -> &str
        ensures { result.now ≡ path_of self.now }
    {
        match self {
            Note::Opened(path, _) | Note::Changed(path, _) | Note::Closed(path) => path.as_str(),
        }
    }
}

impl Documents {
    /// No file is open.
    pub fn new(alloc: Global) -> Documents
        ensures { result.all.items ≡ [] }
    {
        Documents {
            all: Vec::new(alloc),
        }
    }

    /// All of them.
    pub fn as_slice(&self) -> &[Document]
        ensures { result.now ≡ self.now.all.items }
    {
        self.all.as_slice()
    }

    /// The text of the file at a path, if it is open.
    pub fn text_of(&self, path: &str) -> Option<&[u8]>
        ensures { option_map (λ text. text.now) result ≡ text_in self.now.all.items path.now }
    {
        for document in &self.all {
            if document.path.as_str() == path {
                return Some(document.text.as_slice());
            }
        }
        None
    }

    /// Takes a note.
    pub fn take(&mut self, alloc: Global, note: Note) -> Result<(), AllocError>
        ensures after { OnOk result (IsAfter self.old.all.items note self.new.all.items) }
        ensures texts { OnOk result ((path : List ℕ) → text_in self.new.all.items path ≡ after_saying (text_in self.old.all.items) (said note) path) }
    {
        match note {
            Note::Opened(path, text) => self.put(path, text)?,
            Note::Changed(path, changes) => self.change(alloc, path, changes.as_slice())?,
            Note::Closed(path) => self.close(path.as_str()),
        }
        Ok(())
    }

    /// The file at a path is open no more.
    fn close(&mut self, path: &str)
        ensures { self.new.all.items ≡ without path.now self.old.all.items }
    {
        let mut index = 0;
        while index < self.all.len() {
            if self.all[index].path.as_str() == path {
                self.all.remove(index);
            } else {
                index += 1;
            }
        }
    }

    /// The file at a path is open with this text, and is the last one.
    fn put(&mut self, path: String, text: Vec<u8>) -> Result<(), AllocError>
        ensures { OnOk result (self.new.all.items ≡ without (string_bytes path) self.old.all.items ++ record { path = path; text = text } ∷ []) }
    {
        self.close(path.as_str());
        self.all.push(Document { path, text })?;
        Ok(())
    }

    /// Changes the text of the file at a path, if it is open.
    fn change(&mut self, alloc: Global, path: String, changes: &[Change]) -> Result<(), AllocError>
        ensures { OnOk result (IsTextOf self.old.all.items (string_bytes path) changes.now (text_in self.old.all.items (string_bytes path)) self.new.all.items) }
    {
        if let Some(text) = self.text_of(path.as_str()) {
            let text = changed_all(alloc, text, changes)?;
            self.put(path, text)?;
        }
        Ok(())
    }
}
