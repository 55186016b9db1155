//! The graph of a project: what units read and use, circles, and how a used unit is found. Edits change it in place where
//! they can.
ghost use Rattle.occ_base.specs.FileName.{is_unit};
ghost use Rattle.occ_project_graph.specs.Graph.{is_among as spec_is_among, rests as spec_rests, targets};
ghost use Rattle.occ_project.specs.Entries.{is_among};
ghost use Rattle.occ_project.specs.Reads.{index, index as spec_index};
ghost use Rattle.occ_project_units.specs.Alike.{AreAlike};
ghost use Rattle.occ_project_units.specs.Along.{name_at};
ghost use Rattle.occ_project_units.specs.New.{IsNew};
ghost use Rattle.occ_project_units.specs.Indices.{graph_of, is_circular as spec_is_circular, readers_at, standing_of, users_at};
ghost use Rattle.occ_project_units.specs.Project.{file_of, put};
ghost use Rattle.occ_project_units.specs.Units.{read_names, used_units};
ghost use Rattle.occ_project_units.specs.inside.Keeping.{AreLookers, IsUnread, all_facts as spec_all_facts, facts_of as spec_facts_of, others as spec_others};
ghost use Rattle.std.specs.Str.{bytes_eq};
ghost use Rattle.std.specs.Option.{is_some, option_and_then, option_copied, option_map};
ghost use Rattle.std.specs.Prelude.{[], ◌∷◌, cond, false, get_or, IfOk, IfSome, IsFalse, IsTrue, MatchOption, None, OnErr, OnOk, Some, length, List, map, not, slice_get, true, ℕ, ◌&&◌, ◌≡◌, ◌<◌};

use super::adding::{add_file, may_read, may_use};
use super::facts::{Facts, all_facts, does_read, indices_of, place_or};
use super::following::{all_facts_after, use_same};
use super::joining::{add_used_file, users_among, users_of};
use super::links::links_of;
use super::lookers::{Lookers, names_of};
use super::project::{Project, share};
use super::readers::{find_readers, with_itself};
use super::renewing::{renew, renew_leading};
use super::seeking::{lookers_after, lookers_among, lookers_with};
use super::standing::Standing;
use occ_base::{FileName, Items, Shared};
use occ_forms::Source;
use occ_project::Read;
use occ_project_graph::{Linked, Nodes};
use std::alloc::{AllocError, Global};
use std::marker::Model;
use std::slice;

/// So many units read a file that is put in place, if they do not read and use the same as before.
const FEW: usize = 8;

/// The indices in a row, if there is one.
fn row(rows: &[Items<usize>], index: usize) -> &[usize]
    ensures { result.now ≡ get_or rows.now index [] }
{
    match rows.get(index) {
        Some(row) => row.as_slice(),
        None => &[],
    }
}

/// What is known of the file at an index, if there is one.
fn facts_at(all: &[Shared<Facts>], index: usize) -> Option<&Facts>
    ensures { option_copied result ≡ slice_get all.now index }
{
    all.get(index).map(|facts| facts.get())
}

/// The name of a unit, and of an include nothing: what the expansion looks up of a file that is not there.
fn own_name(unit: &FileName) -> &[FileName]
    ensures { result.now ≡ cond (is_unit unit.now) (unit.now ∷ []) [] }
{
    if unit.is_unit() {
        slice::from_ref(unit)
    } else {
        &[]
    }
}

/// What was found, or what there was where nothing was.
fn found_or<'a>(found: &'a Option<Linked>, before: &'a Linked) -> &'a Linked
    ensures { MatchOption found.now (result.now ≡ before.now) (λ links. result.now ≡ links) }
{
    match found {
        Some(links) => links,
        None => before,
    }
}

/// What the units of a project read and use, and which of them in circles. In contracts it is the project: all that it
/// answers is what the definitions give of that.
pub struct Graph {
    project: Project,
    /// What is known of each file, in order of name.
    facts: Vec<Shared<Facts>>,
    /// What rests on what and what uses what.
    links: Linked,
    /// Of each file the indices of the others that read it, once they were asked for; after edits that leave all reads as they
    /// were they are the same.
    readers: Option<Items<Items<usize>>>,
    /// Of each name the files among which are all others that read it, and all that use it if it is not there, if that is known.
    lookers: Option<Lookers>,
}

/// Written out: crates above call it, where each would prove a derived one anew.
impl Drop for Graph {
    fn drop(self) {
        let Graph {
            project: _,
            facts: _,
            links: _,
            readers: _,
            lookers: _,
        } = self;
    }
}

impl Model for Graph {
    ghost use Rattle.occ_forms_expressions.specs.contracts.tree.Builtin as builtins;
    ghost use Rattle.occ_forms_expressions.specs.contracts.tree.Dimension as dimensions;
    ghost use Rattle.occ_forms_expressions.specs.contracts.tree.Element as elements;
    ghost use Rattle.occ_forms_expressions.specs.contracts.tree.Expr as expressions;
    ghost use Rattle.occ_forms_expressions.specs.contracts.tree.TypeForm as types;
    ghost use Rattle.occ_project.specs.declared.reads.Read.{Read};
    ghost use Rattle.occ_project_units.specs.inside.Keeping.{IsGraph};
    ghost use Rattle.std.specs.Coded.{codes};
    ghost use Rattle.std.specs.Prelude.{List};

    ghost Value = { List Read };

    ghost coded = { Prim.hlevel (codes, builtins.the_row.coded, dimensions.the_row.coded, elements.the_row.coded, expressions.the_row.coded, types.the_row.coded) };

    ghost view = { λ graph. graph.project };

    ghost invariant = { λ graph. IsGraph graph.project graph.facts.items graph.links graph.readers graph.lookers };
}

/// The graph of a project, which it keeps.
fn keep(alloc: Global, project: Project) -> Result<Graph, AllocError>
    ensures { IfOk result (λ graph. graph ≡ project) }
{
    let facts = all_facts(alloc, &project)?;
    let links = links_of(alloc, &project, facts.as_slice(), None, 0)?;
    Ok(Graph {
        project,
        facts,
        links,
        readers: None,
        lookers: None,
    })
}

impl Graph {
    /// The graph of a project without files.
    pub fn new(alloc: Global) -> Graph
        ensures { result ≡ [] }
    {
        Graph {
            project: Project::new(alloc),
            facts: Vec::new(alloc),
            links: Linked::new(alloc),
            readers: None,
            lookers: None,
        }
    }

    /// The graph of a project.
    pub fn of(alloc: Global, project: &Project) -> Result<Graph, AllocError>
        ensures { IfOk result (λ graph. graph ≡ project.now) }
    {
        keep(alloc, project.share(alloc)?)
    }

    /// Gives the file of that name this text, or takes it away, by the edit of that number. What is kept of units that do not
    /// read it stays, and what rests on what if no file is new and each uses the same units.
    pub fn put(
        &mut self,
        alloc: Global,
        name: FileName,
        revision: u32,
        source: Option<Shared<Source>>,
    ) -> Result<(), AllocError>
        ensures ok { OnOk result (self.new ≡ put self.old (record { name = name; revision = revision; source = source })) }
        ensures err { OnErr result (self.new ≡ self.old) }
    {
        match self.unread_index(name) {
            Some(at) => self.put_unread(alloc, at, name, revision, source),
            None => {
                self.put_read(alloc, name, revision, source)?;
                Ok(())
            }
        }
    }

    /// Where a file of that name would stand, if there is none, and no file is found to read one.
    fn unread_index(&self, name: FileName) -> Option<usize>
        ensures { IfSome result (λ at. IsUnread self.now name at) }
    {
        let at = self.project.gap(name)?;
        if self.may_any_read(name) {
            return None;
        }
        Some(at)
    }

    /// Whether a file of the one name, if there is one, may read one of the other, which is not there.
    fn may_file_read(&self, unit: FileName, name: FileName) -> bool
        requires { spec_index name self.now ≡ None }
        ensures { IsFalse result → is_some (index unit self.now) ≡ true → is_among (read_names self.now unit) name ≡ false }
    {
        match self.project.index(unit) {
            Some(index) => self.may_read(index, name),
            None => false,
        }
    }

    /// Whether any file may read one of that name, which is not there.
    fn may_any_read(&self, name: FileName) -> bool
        requires { spec_index name self.now ≡ None }
        ensures { IsFalse result → (p : ℕ) → p < length self.now → is_among (read_names self.now (name_at self.now p)) name ≡ false }
    {
        match &self.lookers {
            Some(lookers) => self.may_one_read(lookers, name),
            None => self.may_all_read(name),
        }
    }

    /// The same, where it is known who looks for it.
    fn may_one_read(&self, lookers: &Lookers, name: FileName) -> bool
        requires lookers { AreLookers self.now lookers.now }
        requires absent { spec_index name self.now ≡ None }
        ensures { IsFalse result → (p : ℕ) → p < length self.now → is_among (read_names self.now (name_at self.now p)) name ≡ false }
    {
        let _files = self.project.files();
        let row = lookers.row(name);
        for unit in row {
            if self.may_file_read(*unit.get(), name) {
                return true;
            }
        }
        false
    }

    /// The same, where it is not known which do.
    fn may_all_read(&self, name: FileName) -> bool
        requires { spec_index name self.now ≡ None }
        ensures { IsFalse result → (p : ℕ) → p < length self.now → is_among (read_names self.now (name_at self.now p)) name ≡ false }
    {
        for index in 0..self.project.files().len() {
            if self.may_read(index, name) {
                return true;
            }
        }
        false
    }

    /// Whether the file at an index may read one of that name, which is not there.
    fn may_read(&self, index: usize, name: FileName) -> bool
        requires within { index < length self.now }
        requires absent { spec_index name self.now ≡ None }
        ensures { IsFalse result → is_among (read_names self.now (name_at self.now index)) name ≡ false }
    {
        let _files = self.project.files();
        match facts_at(self.facts.as_slice(), index) {
            Some(facts) => may_read(facts, name),
            None => true,
        }
    }

    /// Puts a file that is new, and that no file reads. What is kept of the others stays.
    fn put_unread(
        &mut self,
        alloc: Global,
        at: usize,
        name: FileName,
        revision: u32,
        source: Option<Shared<Source>>,
    ) -> Result<(), AllocError>
        requires { IsUnread self.old name at }
        ensures ok { OnOk result (self.new ≡ put self.old (record { name = name; revision = revision; source = source })) }
        ensures err { OnErr result (self.new ≡ self.old) }
    {
        let _files = self.project.files();
        let file = Read {
            name,
            revision,
            source,
        };
        let marks = self.users_of(alloc, name)?;
        add_used_file(
            alloc,
            &mut self.project,
            &mut self.facts,
            &mut self.links,
            at,
            marks.as_slice(),
            file,
        )?;
        self.readers = None;
        self.lookers = lookers_with(
            alloc,
            self.lookers.take(),
            &self.project,
            self.facts.as_slice(),
            &self.links,
            at,
        );
        Ok(())
    }

    /// Puts a file that others may read, which are expanded anew. It says whether who uses whom is known to be as before.
    fn put_read(
        &mut self,
        alloc: Global,
        name: FileName,
        revision: u32,
        source: Option<Shared<Source>>,
    ) -> Result<bool, AllocError>
        ensures ok { OnOk result (self.new ≡ put self.old (record { name = name; revision = revision; source = source })) }
        ensures same { IfOk result (λ same. same ≡ true → graph_of self.new ≡ graph_of self.old) }
        ensures err { OnErr result (self.new ≡ self.old) }
    {
        let mut project = self.project.share(alloc)?;
        project.set(alloc, name, revision, source)?;
        let facts = all_facts_after(
            alloc,
            self.project.files(),
            self.facts.as_slice(),
            &project,
            name,
        )?;
        let found = self.links_after(alloc, &project, facts.as_slice(), name)?;
        self.lookers = lookers_after(
            alloc,
            self.lookers.take(),
            &project,
            facts.as_slice(),
            found_or(&found, &self.links),
            name,
        );
        self.project = project;
        self.facts = facts;
        self.readers = None;
        let Some(links) = found else {
            return Ok(true);
        };
        self.links = links;
        Ok(false)
    }

    /// Whether the file at an index may read or use one of that name, which is not there.
    fn may_look_for(&self, index: usize, name: FileName) -> bool
        requires within { index < length self.now }
        requires absent { spec_index name self.now ≡ None }
        ensures unread { IsFalse result → is_among (read_names self.now (name_at self.now index)) name ≡ false }
        ensures unused { IsFalse result → is_among (used_units self.now (name_at self.now index)) name ≡ false }
    {
        let _files = self.project.files();
        let Some(facts) = facts_at(self.facts.as_slice(), index) else {
            return true;
        };
        if may_read(facts, name) {
            return true;
        }
        may_use(facts, self.links.targets(index).count(), name)
    }

    /// The same of a file of that name, if there is one.
    fn may_file_look_for(&self, unit: FileName, name: FileName) -> bool
        requires { spec_index name self.now ≡ None }
        ensures unread { IsFalse result → is_some (index unit self.now) ≡ true → is_among (read_names self.now unit) name ≡ false }
        ensures unused { IsFalse result → is_some (index unit self.now) ≡ true → is_among (used_units self.now unit) name ≡ false }
    {
        match self.project.index(unit) {
            Some(index) => self.may_look_for(index, name),
            None => false,
        }
    }

    /// Whether any file may do so.
    fn may_any_look_for(&self, name: FileName) -> bool
        requires { spec_index name self.now ≡ None }
        ensures unread { IsFalse result → (p : ℕ) → p < length self.now → is_among (read_names self.now (name_at self.now p)) name ≡ false }
        ensures unused { IsFalse result → (p : ℕ) → p < length self.now → is_among (used_units self.now (name_at self.now p)) name ≡ false }
    {
        match &self.lookers {
            Some(lookers) => self.may_one_look_for(lookers, name),
            None => self.may_all_look_for(name),
        }
    }

    /// The same, where it is known who looks for it.
    fn may_one_look_for(&self, lookers: &Lookers, name: FileName) -> bool
        requires lookers { AreLookers self.now lookers.now }
        requires absent { spec_index name self.now ≡ None }
        ensures unread { IsFalse result → (p : ℕ) → p < length self.now → is_among (read_names self.now (name_at self.now p)) name ≡ false }
        ensures unused { IsFalse result → (p : ℕ) → p < length self.now → is_among (used_units self.now (name_at self.now p)) name ≡ false }
    {
        let _files = self.project.files();
        let row = lookers.row(name);
        for unit in row {
            if self.may_file_look_for(*unit.get(), name) {
                return true;
            }
        }
        false
    }

    /// The same, where it is not known which do.
    fn may_all_look_for(&self, name: FileName) -> bool
        requires { spec_index name self.now ≡ None }
        ensures unread { IsFalse result → (p : ℕ) → p < length self.now → is_among (read_names self.now (name_at self.now p)) name ≡ false }
        ensures unused { IsFalse result → (p : ℕ) → p < length self.now → is_among (used_units self.now (name_at self.now p)) name ≡ false }
    {
        for index in 0..self.project.files().len() {
            if self.may_look_for(index, name) {
                return true;
            }
        }
        false
    }

    /// Of each file whether it uses one of that name, which is not there.
    fn users_of(&self, alloc: Global, name: FileName) -> Result<Items<bool>, AllocError>
        requires { spec_index name self.now ≡ None }
        ensures { IfOk result (λ marks. marks ≡ map (λ facts. is_among facts.uses name) (spec_all_facts self.now)) }
    {
        match &self.lookers {
            Some(lookers) => self.noted_users_of(alloc, lookers, name),
            None => users_of(alloc, self.facts.as_slice(), &self.links, name),
        }
    }

    /// The same, where it is known who looks for it.
    fn noted_users_of(
        &self,
        alloc: Global,
        lookers: &Lookers,
        name: FileName,
    ) -> Result<Items<bool>, AllocError>
        requires lookers { AreLookers self.now lookers.now }
        requires absent { spec_index name self.now ≡ None }
        ensures { IfOk result (λ marks. marks ≡ map (λ facts. is_among facts.uses name) (spec_all_facts self.now)) }
    {
        let _files = self.project.files();
        let names = names_of(alloc, lookers.row(name))?;
        let indices = indices_of(alloc, &self.project, 0, None, names.as_slice())?;
        users_among(
            alloc,
            self.facts.as_slice(),
            &self.links,
            indices.as_slice(),
            name,
        )
    }

    /// Where a file of that name would stand, if there is none, and no file is found to read or use one.
    pub fn index_for(&self, name: FileName) -> Option<usize>
        ensures { IfSome result (λ at. IsNew self.now name at) }
    {
        let at = self.project.gap(name)?;
        if self.may_any_look_for(name) {
            return None;
        }
        Some(at)
    }

    /// Puts a file that is new, and that no file reads or uses, where it stands from then on. What is kept of the others stays,
    /// but for their indices.
    pub fn add(
        &mut self,
        alloc: Global,
        at: usize,
        name: FileName,
        revision: u32,
        source: Option<Shared<Source>>,
    ) -> Result<(), AllocError>
        requires { IsNew self.old name at }
        ensures ok { OnOk result (self.new ≡ put self.old (record { name = name; revision = revision; source = source })) }
        ensures err { OnErr result (self.new ≡ self.old) }
    {
        let _files = self.project.files();
        let file = Read {
            name,
            revision,
            source,
        };
        add_file(
            alloc,
            &mut self.project,
            &mut self.facts,
            &mut self.links,
            at,
            file,
        )?;
        self.readers = None;
        self.lookers = lookers_with(
            alloc,
            self.lookers.take(),
            &self.project,
            self.facts.as_slice(),
            &self.links,
            at,
        );
        Ok(())
    }

    /// Whether a file of the one name, if there is one, is another and reads one of the other name.
    fn does_other_read(&self, unit: FileName, name: FileName) -> bool
        ensures { IsFalse result → bytes_eq unit name ≡ false → is_some (index unit self.now) ≡ true → is_among (read_names self.now unit) name ≡ false }
    {
        if unit == name {
            return false;
        }
        match self.facts_of(0, unit) {
            Some(facts) => does_read(facts, name),
            None => false,
        }
    }

    /// Whether no file reads the one at an index but itself, if it is known who looks for what.
    fn is_read_by_no_other(&self, index: usize) -> bool
        requires { index < length self.now }
        ensures { IsTrue result → spec_others index (readers_at self.now index) ≡ [] }
    {
        let _files = self.project.files();
        match &self.lookers {
            Some(lookers) => self.does_none_read(lookers, self.project.name_at(index)),
            None => false,
        }
    }

    /// Whether no other file reads one of that name, where it is known who looks for it.
    fn does_none_read(&self, lookers: &Lookers, name: FileName) -> bool
        requires { AreLookers self.now lookers.now }
        ensures { IsTrue result → (p : ℕ) → p < length self.now → bytes_eq (name_at self.now p) name ≡ false → is_among (read_names self.now (name_at self.now p)) name ≡ false }
    {
        let _files = self.project.files();
        let row = lookers.row(name);
        for unit in row {
            if self.does_other_read(*unit.get(), name) {
                return false;
            }
        }
        true
    }

    /// The indices of the units that read the file at an index, in order. The first time all are found.
    pub fn readers(&mut self, alloc: Global, index: usize) -> Result<Items<usize>, AllocError>
        requires { index < length self.old }
        ensures same { self.new ≡ self.old }
        ensures readers { IfOk result (λ readers. readers ≡ readers_at self.old index) }
    {
        if let Some(rows) = &self.readers {
            return with_itself(alloc, &self.project, row(rows.as_slice(), index), index);
        }
        if self.is_read_by_no_other(index) {
            return with_itself(alloc, &self.project, &[], index);
        }
        let rows = find_readers(alloc, &self.project, self.facts.as_slice())?;
        let readers = with_itself(alloc, &self.project, row(rows.as_slice(), index), index)?;
        self.readers = Some(rows);
        Ok(readers)
    }

    /// Whether a file is open, and so is the one of its name, which stands at this index.
    fn is_open_as(&self, index: usize, file: &Read) -> bool
        requires { spec_index file.now.name self.now ≡ Some index }
        ensures { IsTrue result → (is_some file.now.source ≡ true) × (is_some (file_of self.now file.now.name).source ≡ true) }
    {
        file.source.is_some() && self.project.is_open_at(index)
    }

    /// The same, but of a list it is not said: what its readers use mostly changes with it, and each would be expanded twice.
    fn is_tried(&self, index: usize, file: &Read) -> bool
        requires { spec_index file.now.name self.now ≡ Some index }
        ensures { IsTrue result → (is_some file.now.source ≡ true) × (is_some (file_of self.now file.now.name).source ≡ true) }
    {
        !file.name.as_bytes().ends_with(b".lbb") && self.is_open_as(index, file)
    }

    /// Puts a file in the place of the one at an index, which is read by the units at these indices, if it is open as that was and
    /// all these read and use the same as before, and says whether that is so. All that is kept but what is known of them stays
    /// where it is then. Else nothing is changed. Of a list that is not tried.
    pub fn set_alike(
        &mut self,
        alloc: Global,
        index: usize,
        readers: &[usize],
        file: &Read,
    ) -> Result<bool, AllocError>
        requires index { spec_index file.now.name self.old ≡ Some index }
        requires readers { readers.now ≡ readers_at self.old index }
        ensures ok { IfOk result (λ alike. alike ≡ true → self.new ≡ put self.old file.now) }
        ensures alike { IfOk result (λ alike. alike ≡ true → AreAlike self.old self.new) }
        ensures other { IfOk result (λ alike. alike ≡ false → self.new ≡ self.old) }
        ensures err { OnErr result (self.new ≡ self.old) }
    {
        if !self.is_tried(index, file) {
            return Ok(false);
        }
        let _files = self.project.files();
        let again = Shared::new(alloc, share(file)?)?;
        let alike = renew(
            alloc,
            &mut self.project,
            &mut self.facts,
            index,
            readers,
            again,
        )?;
        Ok(alike)
    }

    /// The same, where its readers are few, and at most one of them uses others than before.
    fn set_leading(
        &mut self,
        alloc: Global,
        index: usize,
        readers: &[usize],
        file: &Read,
    ) -> Result<bool, AllocError>
        requires index { spec_index file.now.name self.old ≡ Some index }
        requires readers { readers.now ≡ readers_at self.old index }
        ensures ok { IfOk result (λ done. done ≡ true → self.new ≡ put self.old file.now) }
        ensures other { IfOk result (λ done. done ≡ false → self.new ≡ self.old) }
        ensures err { OnErr result (self.new ≡ self.old) }
    {
        if readers.len() > FEW {
            return Ok(false);
        }
        let _files = self.project.files();
        let again = Shared::new(alloc, share(file)?)?;
        let done = renew_leading(
            alloc,
            &mut self.project,
            &mut self.facts,
            &mut self.links,
            index,
            readers,
            again,
        )?;
        if done {
            self.readers = None;
            self.lookers = lookers_among(
                alloc,
                self.lookers.take(),
                &self.project,
                self.facts.as_slice(),
                &self.links,
                file.name,
                readers,
            );
        }
        Ok(done)
    }

    /// Puts a file in the place of the one at an index, and expands its readers anew. It says whether who uses whom is known to be as
    /// before, and the file is open as before.
    pub fn set(&mut self, alloc: Global, index: usize, file: Read) -> Result<bool, AllocError>
        requires { spec_index file.name self.old ≡ Some index }
        ensures ok { OnOk result (self.new ≡ put self.old file) }
        ensures alike { IfOk result (λ alike. alike ≡ true → AreAlike self.old self.new) }
        ensures err { OnErr result (self.new ≡ self.old) }
    {
        let readers = self.readers(alloc, index)?;
        if self.set_leading(alloc, index, readers.as_slice(), &file)? {
            return Ok(false);
        }
        if !self.is_open_as(index, &file) {
            self.put_read(alloc, file.name, file.revision, file.source)?;
            return Ok(false);
        }
        let same = self.put_read(alloc, file.name, file.revision, file.source)?;
        Ok(same)
    }

    /// What rests on what and uses what after the edit of a file; nothing, if that is the same as before, since no file is new
    /// and each uses the same units.
    fn links_after(
        &self,
        alloc: Global,
        project: &Project,
        facts: &[Shared<Facts>],
        edited: FileName,
    ) -> Result<Option<Linked>, AllocError>
        requires facts { facts.now ≡ spec_all_facts project.now }
        requires indices { is_some (index edited self.now) ≡ true → (name : List ℕ) → index name project.now ≡ index name self.now }
        ensures { IfOk result (λ found. MatchOption found (graph_of self.now ≡ graph_of project.now) (λ links. links ≡ graph_of project.now)) }
    {
        if self.project.index(edited).is_none() {
            let new = project.index_or_first(edited);
            return self.found_links(alloc, project, facts, new);
        }
        if !use_same(self.facts.as_slice(), facts) {
            return self.found_links(alloc, project, facts, facts.len());
        }
        Ok(None)
    }

    /// What rests on what and uses what in a project of whose files this is known. It is found sooner when the file at the new
    /// index was not there.
    fn found_links(
        &self,
        alloc: Global,
        project: &Project,
        facts: &[Shared<Facts>],
        new: usize,
    ) -> Result<Option<Linked>, AllocError>
        requires { facts.now ≡ spec_all_facts project.now }
        ensures { IfOk result (λ found. MatchOption found (graph_of self.now ≡ graph_of project.now) (λ links. links ≡ graph_of project.now)) }
    {
        let links = links_of(alloc, project, facts, Some(&self.links), new)?;
        Ok(Some(links))
    }

    /// Where the file that the one at an index uses under this number, from 0, is looked for first. It promises nothing: an index
    /// that is wrong costs time.
    pub fn used_hint(&self, index: usize, number: usize) -> usize {
        place_or(&self.links.targets(index), number, 0)
    }

    /// The project that it is of.
    pub fn project(&self) -> &Project
        ensures { result.now ≡ self.now }
    {
        &self.project
    }

    /// What is known of the file of that name, if it is in the project.
    fn facts_of(&self, hint: usize, name: FileName) -> Option<&Facts>
        ensures { option_copied result ≡ option_map (λ at. spec_facts_of self.now name) (index name self.now) }
    {
        match self.project.index_near(hint, name) {
            Some(index) => facts_at(self.facts.as_slice(), index),
            None => None,
        }
    }

    /// The units that a unit uses, in order of name.
    pub fn uses(&self, unit: FileName) -> &[FileName]
        ensures { result.now ≡ used_units self.now unit }
    {
        self.uses_near(0, unit)
    }

    /// The same of a unit that is looked for at an index first.
    pub fn uses_near(&self, hint: usize, unit: FileName) -> &[FileName]
        ensures { result.now ≡ used_units self.now unit }
    {
        match self.facts_of(hint, unit) {
            Some(facts) => facts.uses.get().as_slice(),
            None => &[],
        }
    }

    /// The names that the expansion of a unit looks up, the unit first, each once, in the order of their first look-ups.
    pub fn reads<'a>(&'a self, unit: &'a FileName) -> &'a [FileName]
        ensures { result.now ≡ read_names self.now unit.now }
    {
        self.reads_near(0, unit)
    }

    /// The same of a unit that is looked for at an index first.
    pub fn reads_near<'a>(&'a self, hint: usize, unit: &'a FileName) -> &'a [FileName]
        ensures { result.now ≡ read_names self.now unit.now }
    {
        match self.facts_of(hint, *unit) {
            Some(facts) => facts.reads.as_slice(),
            None => own_name(unit),
        }
    }

    /// Whether the expansion of the file at an index looks up that name, if it is a unit.
    pub fn does_read(&self, index: usize, name: FileName) -> bool
        requires { index < length self.now }
        ensures { result ≡ is_among (read_names self.now (name_at self.now index)) name }
    {
        match facts_at(self.facts.as_slice(), index) {
            Some(facts) => does_read(facts, name),
            None => false,
        }
    }

    /// The indices of the units that the unit at an index rests on.
    pub fn rests(&self, index: usize) -> Nodes<'_>
        ensures { result ≡ spec_rests (graph_of self.now) index }
    {
        self.links.rests(index)
    }

    /// The indices of the units that use the one at an index, in order.
    pub fn users(&self, index: usize) -> Nodes<'_>
        requires { index < length self.now }
        ensures { result ≡ users_at self.now index }
    {
        self.links.sources(index)
    }

    /// Whether the one unit uses the other, which is the same or reaches it by units that each use the next.
    pub fn is_circular(&self, unit: FileName, used: FileName) -> bool
        ensures { result ≡ spec_is_circular self.now unit used }
    {
        match self.project.index(used) {
            Some(to) => self.is_circular_to(0, unit, used, to),
            None => false,
        }
    }

    /// The same where the one that is used stands at this index, and the one that uses it is looked for at an index first.
    fn is_circular_to(&self, hint: usize, unit: FileName, used: FileName, to: usize) -> bool
        requires { spec_index used self.now ≡ Some to }
        ensures { result ≡ spec_is_circular self.now unit used }
    {
        match self.project.index_near(hint, unit) {
            Some(from) => self.is_in_circle(from, to),
            None => false,
        }
    }

    /// Whether an edge that stands in a circle leads from the one index to the other. Most of those that are asked for stand in none.
    fn is_in_circle(&self, from: usize, to: usize) -> bool
        ensures { result ≡ (not (spec_is_among (spec_rests (graph_of self.now) from) to) && spec_is_among (targets (graph_of self.now) from) to) }
    {
        !self.links.rests_on(from, to) && self.links.has_edge(from, to)
    }

    /// How a unit stands to one that uses it.
    pub fn standing(&self, unit: FileName, used: FileName) -> Standing
        ensures { result ≡ standing_of self.now unit used }
    {
        self.standing_near(0, 0, unit, used)
    }

    /// The same where the one that uses it, and the one that is used, are looked for at these indices first.
    pub fn standing_near(
        &self,
        hint: usize,
        used_hint: usize,
        unit: FileName,
        used: FileName,
    ) -> Standing
        ensures { result ≡ standing_of self.now unit used }
    {
        let Some(to) = self.project.index_near(used_hint, used) else {
            return Standing::Absent;
        };
        if !self.project.is_open_at(to) {
            Standing::Absent
        } else if self.is_circular_to(hint, unit, used, to) {
            Standing::Circular
        } else {
            Standing::Below
        }
    }
}
