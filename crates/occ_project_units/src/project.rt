//! A project: files in order of name, each with revision and text, found by hint or binary search.
ghost use Rattle.occ_project.specs.Reads.{member, index as spec_index, name_cmp};
ghost use Rattle.occ_project.specs.declared.reads.Read.{Read as ARead};
ghost use Rattle.occ_project_units.specs.Along.{name_at as spec_name_at};
ghost use Rattle.occ_project_units.specs.Project.{IsProject, file_of, put, put_back};
ghost use Rattle.occ_project_units.specs.New.{IsGap};
ghost use Rattle.std.specs.List.{remove};
ghost use Rattle.std.specs.Option.{is_some, option_copied};
ghost use Rattle.std.specs.Prelude.{[], map, get_or, IfOk, IfSome, IsTrue, MatchResult, List, None, OnErr, OnOk, Some, length, vec_capacity, vec_len, ℕ, ◌≡◌, ◌<◌, ◌≤◌, ◌+◌};
ghost use Rattle.std.specs.declared.cmp.Ordering.TheVariants.{Less, Greater};

use super::inserting::insert_at;
use occ_base::{FileName, Items, Shared};
use occ_forms::Source;
use occ_project::{Read, Reads};
use sqlite_items::at;
use std::alloc::{AllocError, Global};
use std::marker::Model;

/// Files in order of name, each with the number of the edit that gave it its text or took it away.
pub struct Project {
    /// Each file is shared, so that little is moved where one comes between others.
    files: Vec<Shared<Read>>,
}

/// Written out: crates above call it, where each would prove a derived one anew.
impl Drop for Project {
    fn drop(self) {
        let Project { files: _ } = self;
    }
}

impl Model for Project {
    ghost use Rattle.occ_forms_expressions.specs.contracts.tree.Builtin as builtins;
    ghost use Rattle.occ_forms_expressions.specs.contracts.tree.Dimension as dimensions;
    ghost use Rattle.occ_forms_expressions.specs.contracts.tree.Element as elements;
    ghost use Rattle.occ_forms_expressions.specs.contracts.tree.Expr as expressions;
    ghost use Rattle.occ_forms_expressions.specs.contracts.tree.TypeForm as types;
    ghost use Rattle.occ_project.specs.declared.reads.Read.{Read};
    ghost use Rattle.occ_project_units.specs.Project.{IsProject};
    ghost use Rattle.std.specs.Coded.{codes};
    ghost use Rattle.std.specs.Prelude.{List};

    ghost Value = { List Read };

    ghost coded = { Prim.hlevel (codes, builtins.the_row.coded, dimensions.the_row.coded, elements.the_row.coded, expressions.the_row.coded, types.the_row.coded) };

    ghost view = { λ project. project.files.items };

    ghost invariant = { λ project. IsProject project.files.items };
}

/// A file with the same name, revision and text, which is shared.
pub fn share(file: &Read) -> Result<Read, AllocError>
    ensures { IfOk result (λ shared. shared ≡ file.now) }
{
    let source = match &file.source {
        Some(source) => Some(source.share()?),
        None => None,
    };
    Ok(Read {
        name: file.name,
        revision: file.revision,
        source,
    })
}

/// Where a file of that name stands among files in order of name, or where one would.
#[inline(always)]
fn find_in(files: &[Shared<Read>], name: FileName) -> Result<usize, usize>
    requires { IsProject files.now }
    ensures { MatchResult result (λ at. spec_index name files.now ≡ Some at) (λ at. IsGap name files.now at) }
{
    files.binary_search_by(|file| file.get().name.cmp(&name))
}

/// Puts a file among files in order of name, where there is room for one more.
fn put_within(files: &mut Vec<Shared<Read>>, file: Shared<Read>)
    requires project { IsProject files.old.items }
    requires room { vec_len files.old < vec_capacity files.old }
    ensures files { files.new.items ≡ put files.old.items file }
    ensures capacity { vec_capacity files.old ≤ vec_capacity files.new }
    ensures len { vec_len files.new ≤ vec_len files.old + 1 }
{
    match find_in(files.as_slice(), file.get().name) {
        Ok(at) => files[at] = file,
        Err(at) => {
            let _ = files.insert(at, file);
        }
    }
}

/// Puts files among others, the last of them first, where there is room for all.
fn put_all_within(files: &mut Vec<Shared<Read>>, mut found: Items<Shared<Read>>)
    requires project { IsProject files.old.items }
    requires room { vec_len files.old + length found ≤ vec_capacity files.old }
    ensures { files.new.items ≡ put_back files.old.items found }
{
    while let Some(file) = found.pop() {
        put_within(files, file);
    }
}

/// The same files.
fn share_all(alloc: Global, files: &[Shared<Read>]) -> Result<Vec<Shared<Read>>, AllocError>
    ensures { IfOk result (λ shared. shared.items ≡ files.now) }
{
    let mut shared = Vec::with_capacity(alloc, files.len())?;
    for file in files {
        shared.push(file.share()?)?;
    }
    Ok(shared)
}

impl Project {
    /// A project without files.
    pub fn new(alloc: Global) -> Project
        ensures { result ≡ [] }
    {
        Project {
            files: Vec::new(alloc),
        }
    }

    /// Its files, in order of name.
    pub fn files(&self) -> &[Shared<Read>]
        ensures files { result.now ≡ self.now }
        ensures in_order { IsProject self.now }
    {
        self.files.as_slice()
    }

    /// Where a file of that name stands, or where one would.
    #[inline(always)]
    fn find(&self, name: FileName) -> Result<usize, usize>
        ensures { MatchResult result (λ at. spec_index name self.now ≡ Some at) (λ at. IsGap name self.now at) }
    {
        find_in(self.files.as_slice(), name)
    }

    /// The place of the file of that name.
    pub fn index(&self, name: FileName) -> Option<usize>
        ensures { result ≡ spec_index name self.now }
    {
        self.find(name).ok()
    }

    /// The same, or the first index: where a file is looked for first. It promises nothing: an index that is wrong costs time.
    pub fn index_or_first(&self, name: FileName) -> usize {
        match self.index(name) {
            Some(index) => index,
            None => 0,
        }
    }

    /// Whether the file of that name stands at this index.
    pub(crate) fn is_at(&self, index: usize, name: FileName) -> bool
        ensures { IsTrue result → spec_index name self.now ≡ Some index }
    {
        match at(self.files.as_slice(), index) {
            Some(file) => file.get().name == name,
            None => false,
        }
    }

    /// Whether a file of that name would stand at this index, and there is none.
    pub(crate) fn is_gap(&self, index: usize, name: FileName) -> bool
        ensures { IsTrue result → spec_index name self.now ≡ None }
    {
        self.is_before(index, name) && self.is_after(index, name)
    }

    /// Whether the file before an index, if there is one, has a smaller name; then all before it have.
    fn is_before(&self, index: usize, name: FileName) -> bool
        ensures { IsTrue result → (k : ℕ) (d : ARead) → k < index → k < length self.now → name_cmp (get_or self.now k d).name name ≡ Less }
    {
        if index == 0 {
            return true;
        }
        match at(self.files.as_slice(), index - 1) {
            Some(file) => file.get().name.cmp(&name).is_lt(),
            None => false,
        }
    }

    /// Whether the file at an index, if there is one, has a greater name; then all from it on have.
    fn is_after(&self, index: usize, name: FileName) -> bool
        ensures { IsTrue result → (k : ℕ) (d : ARead) → index ≤ k → k < length self.now → name_cmp (get_or self.now k d).name name ≡ Greater }
    {
        match at(self.files.as_slice(), index) {
            Some(file) => file.get().name.cmp(&name).is_gt(),
            None => true,
        }
    }

    /// The place of the file of that name. One that stands at this index, or after it, is found at once, and so is that none stands
    /// there.
    pub fn index_near(&self, hint: usize, name: FileName) -> Option<usize>
        ensures { result ≡ spec_index name self.now }
    {
        if self.is_at(hint, name) {
            return Some(hint);
        }
        let next = hint.saturating_add(1);
        if self.is_at(next, name) {
            return Some(next);
        }
        if self.is_gap(next, name) {
            return None;
        }
        self.index(name)
    }

    /// Gives the file of that name this text, or takes it away, by the edit of that number.
    pub fn set(
        &mut self,
        alloc: Global,
        name: FileName,
        revision: u32,
        source: Option<Shared<Source>>,
    ) -> Result<(), AllocError>
        ensures ok { OnOk result (self.new ≡ put self.old (record { name = name; revision = revision; source = source })) }
        ensures err { OnErr result (self.new ≡ self.old) }
    {
        let file = Read {
            name,
            revision,
            source,
        };
        let file = Shared::new(alloc, file)?;
        match self.find(name) {
            Ok(at) => {
                self.files[at] = file;
                Ok(())
            }
            Err(at) => {
                insert_at(&mut self.files, at, file)?;
                Ok(())
            }
        }
    }

    /// Puts these files, the last of them first. All memory is taken before the first change.
    pub fn put_all(&mut self, found: Items<Shared<Read>>) -> Result<(), AllocError>
        ensures ok { OnOk result (self.new ≡ put_back self.old found) }
        ensures err { OnErr result (self.new ≡ self.old) }
    {
        self.files.reserve(found.len())?;
        put_all_within(&mut self.files, found);
        Ok(())
    }

    /// Where a file of that name would stand, if there is none.
    pub(crate) fn gap(&self, name: FileName) -> Option<usize>
        ensures { IfSome result (λ at. IsGap name self.now at) }
    {
        match self.find(name) {
            Ok(_index) => None,
            Err(at) => Some(at),
        }
    }

    /// Where a file of that name would stand, of which there is none.
    pub fn gap_of(&self, name: FileName) -> usize
        requires { spec_index name self.now ≡ None }
        ensures { IsGap name self.now result }
    {
        match self.find(name) {
            Ok(at) | Err(at) => at,
        }
    }

    /// Puts a file of a new name where it stands from then on.
    pub(crate) fn insert(&mut self, alloc: Global, at: usize, file: Read) -> Result<(), AllocError>
        requires { IsGap file.name self.old at }
        ensures ok { OnOk result (self.new ≡ put self.old file) }
        ensures err { OnErr result (self.new ≡ self.old) }
    {
        let file = Shared::new(alloc, file)?;
        insert_at(&mut self.files, at, file)?;
        Ok(())
    }

    /// Takes away the file at an index.
    pub(crate) fn remove(&mut self, at: usize)
        requires within { at < length self.old }
        requires project { IsProject (remove self.old at) }
        ensures { self.new ≡ remove self.old at }
    {
        self.files.remove(at);
    }

    /// The name of the file at an index.
    pub(crate) fn name_at(&self, index: usize) -> FileName
        requires { index < length self.now }
        ensures { result ≡ spec_name_at self.now index }
    {
        self.files[index].get().name
    }

    /// Puts a file in the place of the one of its name.
    pub(crate) fn replace(&mut self, index: usize, file: Shared<Read>)
        requires { spec_index file.name self.old ≡ Some index }
        ensures { self.new ≡ put self.old file }
    {
        self.files[index] = file;
    }

    /// The file of that name, which is looked for at an index first.
    fn file_near(&self, hint: usize, name: FileName) -> Option<&Shared<Read>>
        ensures { option_copied result ≡ member self.now name }
    {
        match self.index_near(hint, name) {
            Some(index) => at(self.files.as_slice(), index),
            None => None,
        }
    }

    /// Whether the file at an index is open.
    pub(crate) fn is_open_at(&self, index: usize) -> bool
        ensures { (name : List ℕ) → spec_index name self.now ≡ Some index → result ≡ is_some (file_of self.now name).source }
    {
        match at(self.files.as_slice(), index) {
            Some(file) => file.get().source.is_some(),
            None => false,
        }
    }

    /// The text of the file of that name, if it is open.
    pub fn get(&self, name: FileName) -> Option<&Shared<Source>>
        ensures { option_copied result ≡ (file_of self.now name).source }
    {
        self.get_near(0, name)
    }

    /// The same where the file is looked for at an index first.
    pub fn get_near(&self, hint: usize, name: FileName) -> Option<&Shared<Source>>
        ensures { option_copied result ≡ (file_of self.now name).source }
    {
        match self.file_near(hint, name) {
            Some(file) => file.get().source.as_ref(),
            None => None,
        }
    }

    /// The number of the edit that gave the file of that name its text or took it away, 0 if there was none.
    pub fn revision(&self, name: FileName) -> u32
        ensures { result ≡ (file_of self.now name).revision }
    {
        self.revision_near(0, name)
    }

    /// The same where the file is looked for at an index first.
    pub fn revision_near(&self, hint: usize, name: FileName) -> u32
        ensures { result ≡ (file_of self.now name).revision }
    {
        match self.file_near(hint, name) {
            Some(file) => file.get().revision,
            None => 0,
        }
    }

    /// The file of that name as it is read: its revision, and its text unless it is absent. It is looked for at an index first.
    pub(crate) fn read_near(&self, hint: usize, name: FileName) -> Result<Read, AllocError>
        ensures { IfOk result (λ read. read ≡ file_of self.now name) }
    {
        match self.file_near(hint, name) {
            Some(file) => share(file.get()),
            None => Ok(Read {
                name,
                revision: 0,
                source: None,
            }),
        }
    }

    /// The same, which is shared.
    pub(crate) fn shared_near(
        &self,
        alloc: Global,
        hint: usize,
        name: FileName,
    ) -> Result<Shared<Read>, AllocError>
        ensures { IfOk result (λ shared. shared ≡ file_of self.now name) }
    {
        match self.file_near(hint, name) {
            Some(file) => file.share(),
            None => Shared::new(
                alloc,
                Read {
                    name,
                    revision: 0,
                    source: None,
                },
            ),
        }
    }

    /// The files of these names as they are read. Each is looked for at an index first.
    pub fn reads_near(
        &self,
        alloc: Global,
        hint: usize,
        names: &[FileName],
    ) -> Result<Reads, AllocError>
        ensures { IfOk result (λ reads. reads ≡ map (file_of self.now) names.now) }
    {
        let mut reads = Vec::with_capacity(alloc, names.len())?;
        for name in names {
            reads.push(self.read_near(hint, *name)?)?;
        }
        Ok(Items::from_vec(reads))
    }

    /// The same project, which shares its texts.
    pub fn share(&self, alloc: Global) -> Result<Project, AllocError>
        ensures { IfOk result (λ project. project ≡ self.now) }
    {
        Ok(Project {
            files: share_all(alloc, self.files.as_slice())?,
        })
    }
}
