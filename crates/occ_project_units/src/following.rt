//! What is known of all files after an edit: only readers of the edited file are expanded anew, the rest is shared.
ghost use Rattle.occ_project.specs.Entries.{is_among};
ghost use Rattle.occ_project_units.specs.inside.Keeping.{AreOthers, all_facts, facts_of as spec_facts_of};
ghost use Rattle.std.specs.Option.{option_copied};
ghost use Rattle.std.specs.Prelude.{IfOk, IfSome, IsTrue, false, map, ◌≡◌};

use super::facts::{Facts, does_read, facts_of};
use super::ordering::Ordered;
use super::project::Project;
use occ_base::{FileName, Shared};
use occ_project::Read;
use sqlite_items::at;
use std::alloc::{AllocError, Global};

/// What was known of the file of that name, if it stood at this index.
fn known_at<'a>(
    files: &[Shared<Read>],
    facts: &'a [Shared<Facts>],
    index: usize,
    name: FileName,
) -> Option<&'a Shared<Facts>>
    requires { facts.now ≡ all_facts files.now }
    ensures { IfSome (option_copied result) (λ known. known ≡ spec_facts_of files.now name) }
{
    if at(files, index)?.get().name != name {
        return None;
    }
    at(facts, index)
}

/// What was known of the file of that name, if it stood at this index or at the one before it.
fn known_near<'a>(
    files: &[Shared<Read>],
    facts: &'a [Shared<Facts>],
    index: usize,
    name: FileName,
) -> Option<&'a Shared<Facts>>
    requires { facts.now ≡ all_facts files.now }
    ensures { IfSome (option_copied result) (λ known. known ≡ spec_facts_of files.now name) }
{
    match known_at(files, facts, index, name) {
        Some(known) => Some(known),
        None => known_at(files, facts, index.checked_sub(1)?, name),
    }
}

/// The same, if the file does not read the one that is edited.
fn still_known<'a>(
    files: &[Shared<Read>],
    facts: &'a [Shared<Facts>],
    index: usize,
    name: FileName,
    edited: FileName,
) -> Option<&'a Shared<Facts>>
    requires { facts.now ≡ all_facts files.now }
    ensures known { IfSome (option_copied result) (λ known. known ≡ spec_facts_of files.now name) }
    ensures apart { IfSome (option_copied result) (λ known. is_among known.reads edited ≡ false) }
{
    let known = known_near(files, facts, index, name)?;
    if does_read(known.get(), edited) {
        return None;
    }
    Some(known)
}

/// What is known of a file: what was known before, if that is so still. What was put in order last spares time.
fn facts_now(
    alloc: Global,
    project: &Project,
    index: usize,
    name: FileName,
    known: Option<&Shared<Facts>>,
    last: &mut Option<Ordered>,
) -> Result<Shared<Facts>, AllocError>
    requires { IfSome (option_copied known) (λ known. known ≡ spec_facts_of project.now name) }
    ensures { IfOk result (λ found. found ≡ spec_facts_of project.now name) }
{
    match known {
        Some(known) => known.share(),
        None => Shared::new(alloc, facts_of(alloc, project, index, name, last)?),
    }
}

/// What is known of each file after the edit of one. Only those that read it are expanded anew.
pub fn all_facts_after(
    alloc: Global,
    files: &[Shared<Read>],
    facts: &[Shared<Facts>],
    project: &Project,
    edited: FileName,
) -> Result<Vec<Shared<Facts>>, AllocError>
    requires facts { facts.now ≡ all_facts files.now }
    requires others { AreOthers edited files.now project.now }
    ensures { IfOk result (λ all. all.items ≡ all_facts project.now) }
{
    let mut all = Vec::new(alloc);
    let mut last = None;
    for (index, file) in project.files().iter().enumerate() {
        let name = file.get().name;
        let known = still_known(files, facts, index, name, edited);
        all.push(facts_now(alloc, project, index, name, known, &mut last)?)?;
    }
    Ok(all)
}

/// Whether two names are one.
fn is_same_name(a: FileName, b: FileName) -> bool
    ensures { IsTrue result → a ≡ b }
{
    a == b
}

/// Whether two lists of names are one.
pub fn are_same_names(a: &[FileName], b: &[FileName]) -> bool
    ensures { IsTrue result → a.now ≡ b.now }
{
    if a.len() != b.len() {
        return false;
    }
    for i in 0..a.len() {
        if !is_same_name(a[i], b[i]) {
            return false;
        }
    }
    true
}

/// Whether each file uses the same units as the one at its place among others.
pub fn use_same(a: &[Shared<Facts>], b: &[Shared<Facts>]) -> bool
    ensures { IsTrue result → map (λ facts. facts.uses) a.now ≡ map (λ facts. facts.uses) b.now }
{
    if a.len() != b.len() {
        return false;
    }
    for i in 0..a.len() {
        if !are_same_names(
            a[i].get().uses.get().as_slice(),
            b[i].get().uses.get().as_slice(),
        ) {
            return false;
        }
    }
    true
}
