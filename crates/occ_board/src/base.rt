//! Where a journal begins: the files that earlier edits made. A checkpoint makes a new base, and hands out the edits between
//! the two.
ghost use Rattle.occ_board.specs.Journal.{base_after, edited as spec_edited, last_number, replay};
ghost use Rattle.occ_board.specs.inside.Following.{edited_back};
ghost use Rattle.std.specs.Prelude.{◌≡◌, ◌<◌, ◌≤◌, ◌+◌, ◌^◌, IfOk, OnErr, OnOk, length};

use super::entry::{Edit, Entry};
use occ_base::{Items, Shared};
use occ_project::Read;
use occ_project_units::Project;
use std::alloc::{AllocError, Global};

/// Where edits are fewer than one for so many files, their files alone are put into a base.
const FEWER: usize = 8;

/// The files after the edits up to a number: in order of name, each name that was edited, closed files too, with the number of
/// its last edit. The first base has number 0 and no files.
pub struct Base {
    pub number: u32,
    pub files: Project,
}

/// Written out: crates above call it, where each would prove a derived one anew.
impl Drop for Base {
    fn drop(self) {
        let Base {
            number: _,
            files: _,
        } = self;
    }
}

/// The file after the edit of a number.
#[tactic(auto, using(crate::proofs::Edits::edited_is))]
fn edited(alloc: Global, number: u32, edit: &Edit) -> Result<Shared<Read>, AllocError>
    ensures { IfOk result (λ file. file ≡ spec_edited number edit.now) }
{
    Shared::new(
        alloc,
        Read {
            name: edit.name(),
            revision: number,
            source: edit.shared()?,
        },
    )
}

/// The files after each of these edits, the last of them first. The one before them has this number.
fn edited_files(
    alloc: Global,
    number: u32,
    entries: &[Entry],
) -> Result<Items<Shared<Read>>, AllocError>
    requires { number + length entries.now < 2 ^ 32 }
    ensures { IfOk result (λ files. files ≡ edited_back (number + 1) entries.now) }
{
    let mut files = Items::from_vec(Vec::with_capacity(alloc, entries.len())?);
    let mut left = entries.len();
    while left > 0 {
        let place = number as usize + left;
        files.push(edited(alloc, place as u32, &entries[left - 1].edit)?)?;
        left -= 1;
    }
    Ok(files)
}

impl Base {
    /// It becomes the base that the edits since make of it, whose files are those of the project. Where memory is refused nothing is
    /// changed.
    pub(crate) fn follow(
        &mut self,
        alloc: Global,
        project: &Project,
        entries: &[Entry],
    ) -> Result<(), AllocError>
        requires files { project.now ≡ replay self.old entries.now }
        requires few { last_number self.old entries.now < 2 ^ 32 }
        ensures ok { OnOk result (self.new ≡ base_after self.old entries.now) }
        ensures err { OnErr result (self.new ≡ self.old) }
    {
        if entries.len() < project.files().len() / FEWER {
            self.files
                .put_all(edited_files(alloc, self.number, entries)?)?;
        } else {
            self.files = project.share(alloc)?;
        }
        let number = self.number as usize + entries.len();
        self.number = number as u32;
        Ok(())
    }
}

/// What a checkpoint takes out of the journal: the edits since the base before, in order, and the number of the last one, which
/// is that of the new base.
pub struct Cut {
    pub number: u32,
    pub entries: Items<Entry>,
}

/// Written out: crates above call it, where each would prove a derived one anew.
impl Drop for Cut {
    fn drop(self) {
        let Cut {
            number: _,
            entries: _,
        } = self;
    }
}
