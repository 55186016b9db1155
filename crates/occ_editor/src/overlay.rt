//! The files of a disk, with those that are open in the editor in place of what is there.
ghost use Rattle.occ_editor.specs.Rooms.{over};
ghost use Rattle.occ_editor_edits.specs.Documents.{text_in};

use occ_editor_edits::Documents;
use occ_files::{Disk, DiskFault, Seen};
use std::alloc::Global;

/// A disk behind the files that are open.
#[derive(Drop)]
pub struct Overlay<'a, D: Disk> {
    pub documents: &'a Documents,
    pub disk: &'a D,
}

impl<'a, D: Disk> Disk for Overlay<'a, D> {
    ghost known = { λ overlay path. over (text_in overlay.documents.now.all.items path) (D.known overlay.disk.now path) };

    fn read(&self, alloc: Global, path: &str) -> Result<Option<Vec<u8>>, DiskFault> {
        match self.documents.text_of(path) {
            Some(text) => Ok(Some(Vec::from_slice(alloc, text)?)),
            None => self.disk.read(alloc, path),
        }
    }

    fn list(&self, alloc: Global, path: &str) -> Result<Option<Vec<Seen>>, DiskFault> {
        self.disk.list(alloc, path)
    }
}
