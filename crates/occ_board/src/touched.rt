//! The files that an edit may concern: their indices, and marks of them where these are many.
ghost use Rattle.occ_board.specs.inside.Touched.{marked};
ghost use Rattle.occ_project_graph.specs.Graph.{is_among as spec_is_among};
ghost use Rattle.std.specs.Prelude.{◌≡◌, ◌<◌, [], ℕ, OnErr, OnOk, false, get_or, length, replicate, slice_set, true};

use super::flags::is_flagged;
use occ_base::Items;
use std::alloc::{AllocError, Global};
use std::marker::Model;

/// Of so many indices each is looked at. Where there are more, there are marks.
const FEW: usize = 16;

/// The files that an edit may concern, of so many. Few of them take no time for each file that there is. In contracts it is the list
/// of the marks of all files.
#[derive(Drop)]
pub struct Touched {
    count: usize,
    indices: Items<usize>,
    /// Of each file whether its index is among these; nothing as long as they are few.
    marks: Vec<bool>,
}

impl Model for Touched {
    ghost use Rattle.occ_board.specs.inside.Touched.{AreMarked, AreMarks, marked};
    ghost use Rattle.std.specs.Coded.{coded_bool, coded_list};
    ghost use Rattle.std.specs.Prelude.{Bool, List};

    ghost Value = { List Bool };

    ghost coded = { coded_list coded_bool };

    ghost view = { λ touched. marked touched.count touched.indices };

    ghost invariant = { λ touched. AreMarked (marked touched.count touched.indices) touched.indices × AreMarks touched.marks.items (marked touched.count touched.indices) };
}

/// Makes the marks of so many files, of which those at these indices are marked, where there are none yet.
fn make_marks(marks: &mut Vec<bool>, count: usize, indices: &[usize]) -> Result<(), AllocError>
    requires none { marks.old.items ≡ [] }
    requires within { (p : ℕ) → spec_is_among indices.now p ≡ true → p < count }
    ensures ok { OnOk result (marks.new.items ≡ marked count indices.now) }
    ensures err { OnErr result (marks.new.items ≡ []) }
{
    marks.resize(count, false)?;
    for index in indices {
        marks[*index] = true;
    }
    Ok(())
}

impl Touched {
    /// For so many files, none of which is marked.
    pub fn none(alloc: Global, count: usize) -> Touched
        ensures { result ≡ replicate count false }
    {
        Touched {
            count,
            indices: Items::new(alloc),
            marks: Vec::new(alloc),
        }
    }

    /// Whether the file at an index is marked.
    pub fn has(&self, index: usize) -> bool
        ensures { result ≡ get_or self.now index false }
    {
        if self.marks.is_empty() {
            self.indices.as_slice().contains(&index)
        } else {
            is_flagged(self.marks.as_slice(), index)
        }
    }

    /// Marks the file at an index.
    pub fn mark(&mut self, index: usize) -> Result<(), AllocError>
        requires { index < length self.old }
        ensures { OnOk result (self.new ≡ slice_set self.old index true) }
    {
        self.indices.push(index)?;
        if !self.marks.is_empty() {
            self.marks[index] = true;
            return Ok(());
        }
        if self.indices.len() <= FEW {
            return Ok(());
        }
        make_marks(&mut self.marks, self.count, self.indices.as_slice())?;
        Ok(())
    }

    /// The indices of the files that are marked.
    pub fn indices(&self) -> &[usize]
        ensures { (p : ℕ) → spec_is_among result.now p ≡ get_or self.now p false }
    {
        self.indices.as_slice()
    }
}
