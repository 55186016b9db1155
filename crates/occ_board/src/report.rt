//! The rows of a report: each open unit with its diagnostics, or as pending.
ghost use Rattle.occ_board.specs.Done.{done as spec_done};
ghost use Rattle.occ_board.specs.Machine.{row_of, rows_of};
ghost use Rattle.occ_board.specs.declared.report.Shown.TheVariants as variants;
ghost use Rattle.occ_board.specs.inside.Flagged.{AreFlags};
ghost use Rattle.occ_check.specs.Checks.{diags as spec_diags};
ghost use Rattle.occ_check.specs.Report.{is_open_unit};
ghost use Rattle.std.specs.Prelude.{◌≡◌, ◌&&◌, ◌∷◌, ◌++◌, [], IfOk, OnOk, cond, not, true};

use super::cached::Cached;
use super::flags::is_flagged;
use super::laws::cached_law;
use occ_base::{Diag, FileName, Items, Shared};
use occ_check::laws::input_law;
use occ_project::Read;
use occ_project_units::Graph;
use std::alloc::{AllocError, Global};

/// What a report shows of a unit.
pub enum Shown {
    /// Its check is still to come.
    Pending,
    /// Its diagnostics, in their order, each once.
    Done(Shared<Items<Diag>>),
}

/// Written out: crates above call it, where each would prove a derived one anew.
impl Drop for Shown {
    fn drop(self) {
        match self {
            Shown::Pending => {}
            Shown::Done(_) => {}
        }
    }
}

/// A unit in a report.
pub struct Row {
    pub unit: FileName,
    pub shown: Shown,
}

/// Written out: crates above call it, where each would prove a derived one anew.
impl Drop for Row {
    fn drop(self) {
        let Row { unit: _, shown: _ } = self;
    }
}

/// The diagnostics of a unit that is done, whose outcome is looked for at an index first.
fn diags_of(
    graph: &Graph,
    cached: &Cached,
    hint: usize,
    unit: FileName,
) -> Result<Shared<Items<Diag>>, AllocError>
    requires { spec_done graph.now cached.now unit ≡ true }
    ensures { IfOk result (λ diags. diags ≡ spec_diags graph.now unit) }
{
    let _files = graph.project().files();
    cached_law();
    input_law();
    match cached.get_near(hint, unit) {
        Some(outcome) => outcome.shared_diags().share(),
        None => unreachable!(),
    }
}

/// What is shown of a unit, whose outcome is looked for at an index first, if it is done, or if it is not.
fn show(
    graph: &Graph,
    cached: &Cached,
    hint: usize,
    done: bool,
    unit: FileName,
) -> Result<Shown, AllocError>
    requires { done ≡ spec_done graph.now cached.now unit }
    ensures { IfOk result (λ shown. shown ≡ (row_of graph.now cached.now unit).shown) }
{
    if done {
        Ok(Shown::Done(diags_of(graph, cached, hint, unit)?))
    } else {
        Ok(Shown::Pending)
    }
}

/// Adds the row of a file, if it is an open unit. Its outcome is looked for at an index first.
fn add_row(
    graph: &Graph,
    cached: &Cached,
    hint: usize,
    done: bool,
    file: &Read,
    rows: &mut Items<Row>,
) -> Result<(), AllocError>
    requires { done ≡ spec_done graph.now cached.now file.now.name }
    ensures { OnOk result (rows.new ≡ rows.old ++ cond (is_open_unit file.now) (row_of graph.now cached.now file.now.name ∷ []) []) }
{
    if file.name.is_unit() && file.source.is_some() {
        rows.push(Row {
            unit: file.name,
            shown: show(graph, cached, hint, done, file.name)?,
        })?;
    }
    Ok(())
}

/// The row of each open unit, in order of name.
pub fn rows(
    alloc: Global,
    graph: &Graph,
    cached: &Cached,
    flags: &[bool],
) -> Result<Items<Row>, AllocError>
    requires { AreFlags graph.now cached.now flags.now }
    ensures { IfOk result (λ rows. rows ≡ rows_of graph.now cached.now) }
{
    let mut rows = Items::new(alloc);
    for (index, file) in graph.project().files().iter().enumerate() {
        let done = is_flagged(flags, index);
        add_row(graph, cached, index, done, file.get(), &mut rows)?;
    }
    Ok(rows)
}

/// Whether a file is an open unit that is not done.
pub fn is_pending(file: &Read, done: bool) -> bool
    ensures { result ≡ (is_open_unit file.now && not done) }
{
    !done && file.source.is_some() && file.name.is_unit()
}
