//! Who looks for a file: of each name the files that were found to read or use one of that name, so that not all are asked.
ghost use Rattle.occ_project.specs.Entries.{is_among};
ghost use Rattle.occ_project_units.specs.inside.Keeping.{IsMore, looking_for, row_of as spec_row_of};
ghost use Rattle.std.specs.Prelude.{[], ◌≡◌, ◌<◌, IfOk, IfSome, IsTrue, List, OnOk, get_or, true, ℕ};

use occ_base::{FileName, Items, Shared, number_of_bytes};
use std::alloc::{AllocError, Global};

/// So many rows there are at least.
const FEW: usize = 64;

/// Of each name the files that may read or use one of that name: they are in the row of its number. One that did so before may be
/// among them still, and so may those that look for a name of the same row.
pub struct Lookers {
    /// The files of each row.
    pub rows: Vec<Items<Shared<FileName>>>,
    /// How many more files may be put into rows. No answer rests on it.
    pub room: usize,
}

/// Written out: crates above call it, where each would prove a derived one anew.
impl Drop for Lookers {
    fn drop(self) {
        let Lookers { rows: _, room: _ } = self;
    }
}

/// Which of so many rows is that of a name, if there are any.
fn row_of(name: FileName, count: usize) -> Option<usize>
    ensures row { result ≡ spec_row_of name count }
    ensures within { IfSome result (λ at. at < count) }
{
    if count == 0 {
        return None;
    }
    Some((number_of_bytes(name.as_bytes()) % count as u64) as usize)
}

/// Adds a file to a row.
fn add_file(row: &mut Items<Shared<FileName>>, unit: &Shared<FileName>) -> Result<(), AllocError>
    ensures more { (u : List ℕ) → is_among row.old u ≡ true → is_among row.new u ≡ true }
    ensures here { OnOk result (is_among row.new unit.now ≡ true) }
{
    row.push(unit.share()?)
}

/// The files of a row, if there is one.
fn row_at(rows: &[Items<Shared<FileName>>], at: usize) -> &[Shared<FileName>]
    ensures { result.now ≡ get_or rows.now at [] }
{
    match rows.get(at) {
        Some(row) => row.as_slice(),
        None => &[],
    }
}

/// The names of files.
pub fn names_of(alloc: Global, files: &[Shared<FileName>]) -> Result<Items<FileName>, AllocError>
    ensures { IfOk result (λ names. names ≡ files.now) }
{
    let mut names = Items::from_vec(Vec::with_capacity(alloc, files.len())?);
    for file in files {
        names.push(*file.get())?;
    }
    Ok(names)
}

impl Lookers {
    /// Nothing is looked for. There is room for twice so many notes, and a few more.
    pub fn with_room(alloc: Global, count: usize) -> Result<Lookers, AllocError> {
        let count_rows = (count / 2).saturating_add(FEW);
        let mut rows = Vec::with_capacity(alloc, count_rows)?;
        for _made in 0..count_rows {
            rows.push(Items::new(alloc))?;
        }
        Ok(Lookers {
            rows,
            room: count.saturating_mul(2).saturating_add(FEW),
        })
    }

    /// The files that may look for one of that name.
    pub fn row(&self, name: FileName) -> &[Shared<FileName>]
        ensures { result.now ≡ looking_for self.now name }
    {
        match row_of(name, self.rows.len()) {
            Some(at) => row_at(self.rows.as_slice(), at),
            None => &[],
        }
    }

    /// Adds a file that looks for one of that name, and says whether there was room for it.
    pub fn add(&mut self, name: FileName, unit: &Shared<FileName>) -> bool
        ensures more { IsMore self.old self.new }
        ensures here { IsTrue result → is_among (looking_for self.new name) unit.now ≡ true }
    {
        if self.room == 0 {
            return false;
        }
        self.room -= 1;
        match row_of(name, self.rows.len()) {
            Some(at) => add_file(&mut self.rows[at], unit).is_ok(),
            None => false,
        }
    }
}
