//! The board: edits, jobs, outcomes and reports. Each public call is one event of the machine. The graph, the flags of
//! done units and the marks of verified outcomes are cached beside its state. `docs/MACHINE.md, The board`.
ghost use Rattle.occ_board.specs.Done.{NoneIsHanded};
ghost use Rattle.occ_board.specs.Journal.{IsBase, IsLegal, base_after, refusal as spec_refusal};
ghost use Rattle.occ_board.specs.Machine.{Answer, Event, after, answer, edit_number, expanded_answer, files_of, finish_answer, number_of, pending_answer, report_answer, start, take_answer, unhanded, with_cached};
ghost use Rattle.occ_board.specs.declared.entry.Edit.TheVariants as an_edit;
ghost use Rattle.occ_board.specs.declared.entry.EditFault.TheVariants as fault;
ghost use Rattle.occ_board.specs.declared.entry.EditFault.{EditFault as AFault};
ghost use Rattle.occ_board.specs.declared.verdict.Verdict.TheVariants as verdicts;
ghost use Rattle.occ_board.specs.inside.Ready.{HasJob, IsAcceptable};
ghost use Rattle.occ_check.specs.Checks.{input};
ghost use Rattle.occ_check.specs.Input.{Input};
ghost use Rattle.occ_forms.specs.Prepared.{IsPrepared};
ghost use Rattle.occ_forms.specs.declared.source.SourceLine.{SourceLine as ASourceLine};
ghost use Rattle.occ_lines.specs.Lines.{limit_fault, line_count};
ghost use Rattle.occ_project_units.specs.Spelled.{AreSpelled};
ghost use Rattle.std.specs.Option.{is_some, option_map};
ghost use Rattle.std.specs.Prelude.{◌≡◌, ◌<◌, ◌≤◌, ◌^◌, ◌↔◌, ◌⊎◌, Err, IfErr, IfOk, IfSome, IsErrOf, List, None, OnErr, OnOk, Some, length, true, ℕ};

use super::base::{Base, Cut};
use super::cached::Cached;
use super::caching::unhand;
use super::comparing::is_alike_job;
use super::copying::copied_job;
use super::entry::{Edit, EditFault, Entry};
use super::expanding::count_expanded;
use super::flags::{Flags, settle_cached};
use super::journal::{count_after, is_full, refusal};
use super::judging::judge;
use super::laws::{base_law, done_law, height_law, ready_law, taking_law};
use super::report::{Row, rows};
use super::taking::{first_ready, job_now, next_unit};
use super::touching::renew;
use super::verdict::Verdict;
use super::verified::{forget_users, verified_law};
use super::waiting::Waiting;
use super::working::working_law;
use occ_base::{FileName, Items, Shared};
use occ_check::{Job, Outcome, check};
use occ_forms::{Source, prepare, source_law};
use occ_lines::{TextFault, text_fault};
use occ_project_units::laws::put_law;
use occ_project_units::{Graph, Project};
use std::alloc::{AllocError, Global};
use std::marker::Model;
use std::mem;

/// Among so many of the last edits the one is looked for that is taken back.
const LOOK_BACK: usize = 8;

/// The state of everything. In contracts it is the state of the machine: a base and the edits that were accepted since, the
/// inputs of the outcomes that are cached, and those that are handed out.
pub struct Board {
    base: Base,
    journal: Vec<Entry>,
    cached: Cached,
    handed: Vec<Job>,
    /// The graph of the project that the edits make of the base.
    graph: Graph,
    /// Of each file of the project whether it is a unit that is done.
    flags: Flags,
    /// Of each file of the project whether it is a unit of which a verified outcome is cached, as far as that is known.
    verified: Flags,
    /// How many files are open.
    opened: usize,
    /// How many units are open.
    units: usize,
    /// The units that may be ready.
    waiting: Waiting,
    /// An index before which each unit that is ready is handed out with its present job.
    passed: usize,
    /// Where the last file stood that was edited, or the last job that was looked for. It promises nothing: an index that is
    /// wrong costs time.
    near: usize,
}

/// Written out: crates above call it, where each would prove a derived one anew.
impl Drop for Board {
    fn drop(self) {
        let Board {
            base: _,
            journal: _,
            cached: _,
            handed: _,
            graph: _,
            flags: _,
            verified: _,
            opened: _,
            units: _,
            waiting: _,
            passed: _,
            near: _,
        } = self;
    }
}

impl Model for Board {
    ghost use Rattle.occ_forms_expressions.specs.contracts.tree.Builtin as builtins;
    ghost use Rattle.occ_forms_expressions.specs.contracts.tree.Dimension as dimensions;
    ghost use Rattle.occ_forms_expressions.specs.contracts.tree.Element as elements;
    ghost use Rattle.occ_forms_expressions.specs.contracts.tree.Expr as expressions;
    ghost use Rattle.occ_forms_expressions.specs.contracts.tree.TypeForm as type_forms;
    ghost use Rattle.occ_types.specs.contracts.types.OccType as types;
    ghost use Rattle.occ_board.specs.Machine.{State};
    ghost use Rattle.std.specs.Coded.{codes};

    ghost Value = { State };

    ghost coded = { Prim.hlevel (codes, builtins.the_row.coded, dimensions.the_row.coded, elements.the_row.coded, expressions.the_row.coded, type_forms.the_row.coded, types.the_row.coded) };

    ghost use Rattle.occ_board.specs.inside.Verified.{AreVerified};
    ghost use Rattle.occ_board.specs.inside.Holding.{IsBoard};
    ghost use Rattle.occ_board.specs.inside.Ready.{AreAwaited, NoneIsNext};

    ghost view = { λ b. record { base = b.base; journal = b.journal.items; cached = b.cached; handed = b.handed.items } };

    ghost invariant = { λ b. IsBoard b.base b.journal.items b.cached b.graph b.flags b.opened b.units × AreAwaited b.graph b.flags b.waiting.early b.waiting.from × AreVerified b.graph b.cached b.verified × NoneIsNext b.graph b.cached b.handed.items b.passed };
}

/// The text that a file had before its last edit, if that is one of the last of all. It promises nothing: a text that is left out costs
/// time.
fn text_before(entries: &[Entry], name: FileName) -> Option<&Shared<Source>> {
    let (_, last) = entries.split_at(entries.len().saturating_sub(LOOK_BACK));
    let mut edits = last.iter().rev().filter(|entry| entry.edit.name() == name);
    edits.next()?;
    edits.next()?.edit.source()
}

/// The greater of two indices.
fn greater(a: usize, b: usize) -> usize
    ensures { (p : ℕ) → p < result → (p < a) ⊎ (p < b) }
{
    if a < b { b } else { a }
}

/// The source of a text, of which there is no other.
fn only_source(source: Source) -> Source
    ensures same { result ≡ source }
    ensures lines { IsPrepared source.text source.lines }
    ensures only { (lines : List ASourceLine) → IsPrepared source.text lines → lines ≡ source.lines }
{
    source_law();
    let _lines = source.lines();
    source
}

impl Board {
    /// A board without files.
    pub fn new(alloc: Global) -> Board
        ensures { result ≡ start }
    {
        done_law();
        Board {
            base: Base {
                number: 0,
                files: Project::new(alloc),
            },
            journal: Vec::new(alloc),
            cached: Cached::new(alloc),
            handed: Vec::new(alloc),
            graph: Graph::new(alloc),
            flags: Flags::new(alloc),
            verified: Flags::new(alloc),
            opened: 0,
            units: 0,
            waiting: Waiting::new(alloc),
            passed: 0,
            near: 0,
        }
    }

    /// A session opens a file with this text. The answer is the number of the edit.
    pub fn open(
        &mut self,
        alloc: Global,
        session: u32,
        name: FileName,
        source: Shared<Source>,
    ) -> Result<u32, EditFault>
        ensures answered { IfOk result (λ number. Answer.Number number ≡ answer self.old (Event.Edited session (an_edit.Added name source))) }
        ensures after { OnOk result (self.new ≡ after self.old (Event.Edited session (an_edit.Added name source))) }
        ensures fault { IfErr result (λ f. (f ≡ fault.Memory) ⊎ (Answer.Refused f ≡ answer self.old (Event.Edited session (an_edit.Added name source)))) }
        ensures refused { (f : AFault) → answer self.old (Event.Edited session (an_edit.Added name source)) ≡ Answer.Refused f → result ≡ Err f }
        ensures err { OnErr result (self.new ≡ self.old) }
    {
        self.edit(alloc, session, Edit::Added(name, source))
    }

    /// A session gives an open file this text.
    pub fn change(
        &mut self,
        alloc: Global,
        session: u32,
        name: FileName,
        source: Shared<Source>,
    ) -> Result<u32, EditFault>
        ensures answered { IfOk result (λ number. Answer.Number number ≡ answer self.old (Event.Edited session (an_edit.Changed name source))) }
        ensures after { OnOk result (self.new ≡ after self.old (Event.Edited session (an_edit.Changed name source))) }
        ensures fault { IfErr result (λ f. (f ≡ fault.Memory) ⊎ (Answer.Refused f ≡ answer self.old (Event.Edited session (an_edit.Changed name source)))) }
        ensures refused { (f : AFault) → answer self.old (Event.Edited session (an_edit.Changed name source)) ≡ Answer.Refused f → result ≡ Err f }
        ensures err { OnErr result (self.new ≡ self.old) }
    {
        self.edit(alloc, session, Edit::Changed(name, source))
    }

    /// A session closes an open file.
    pub fn remove(&mut self, alloc: Global, session: u32, name: FileName) -> Result<u32, EditFault>
        ensures answered { IfOk result (λ number. Answer.Number number ≡ answer self.old (Event.Edited session (an_edit.Removed name))) }
        ensures after { OnOk result (self.new ≡ after self.old (Event.Edited session (an_edit.Removed name))) }
        ensures fault { IfErr result (λ f. (f ≡ fault.Memory) ⊎ (Answer.Refused f ≡ answer self.old (Event.Edited session (an_edit.Removed name)))) }
        ensures refused { (f : AFault) → answer self.old (Event.Edited session (an_edit.Removed name)) ≡ Answer.Refused f → result ≡ Err f }
        ensures err { OnErr result (self.new ≡ self.old) }
    {
        self.edit(alloc, session, Edit::Removed(name))
    }

    /// The number of the last edit, 0 before any.
    fn number(&self) -> usize
        ensures { result ≡ number_of self.now }
    {
        self.base.number as usize + self.journal.len()
    }

    /// Why an edit is refused, the first that holds.
    fn refusal(&self, edit: &Edit) -> Option<EditFault>
        ensures { result ≡ spec_refusal self.now.base self.now.journal edit.now }
    {
        let full = is_full(self.journal.len(), self.number());
        refusal(self.graph.project(), self.opened, full, self.near, edit)
    }

    fn edit(&mut self, alloc: Global, session: u32, edit: Edit) -> Result<u32, EditFault>
        ensures answered { IfOk result (λ number. Answer.Number number ≡ answer self.old (Event.Edited session edit)) }
        ensures after { OnOk result (self.new ≡ after self.old (Event.Edited session edit)) }
        ensures fault { IfErr result (λ f. (f ≡ fault.Memory) ⊎ (Answer.Refused f ≡ answer self.old (Event.Edited session edit))) }
        ensures refused { (f : AFault) → answer self.old (Event.Edited session edit) ≡ Answer.Refused f → result ≡ Err f }
        ensures err { OnErr result (self.new ≡ self.old) }
    {
        if let Some(fault) = self.refusal(&edit) {
            return Err(fault);
        }
        Ok(self.accept(alloc, session, edit)?)
    }

    /// Makes an edit that is not refused. All that takes memory comes before the first change but that of the journal.
    fn accept(&mut self, alloc: Global, session: u32, edit: Edit) -> Result<u32, AllocError>
        requires { spec_refusal self.old.base self.old.journal edit ≡ None }
        ensures number { IfOk result (λ number. number ≡ edit_number self.old) }
        ensures after { OnOk result (self.new ≡ after self.old (Event.Edited session edit)) }
        ensures err { OnErr result (self.new ≡ self.old) }
    {
        put_law();
        done_law();
        let number = self.number() as u32 + 1;
        let name = edit.name();
        let opened = count_after(self.opened, &edit, true);
        let units = count_after(self.units, &edit, name.is_unit());
        let source = edit.shared()?;
        self.journal.push(Entry { session, edit })?;
        let renewed = renew(
            alloc,
            &mut self.graph,
            &self.cached,
            &mut self.flags,
            &mut self.verified,
            &mut self.waiting,
            self.near,
            name,
            number,
            source,
        );
        let file = match renewed {
            Ok(file) => file,
            Err(refused) => {
                self.journal.pop();
                return Err(refused);
            }
        };
        self.opened = opened;
        self.units = units;
        self.passed = 0;
        self.near = file;
        self.cached.follow(self.graph.project(), file);
        Ok(number)
    }

    /// Hands out the job of the least unit that is ready and whose present job is not handed out, if there is one. There is
    /// one where a unit is pending and no unit that is pending is handed out with its present job.
    pub fn take(&mut self, alloc: Global) -> Result<Option<Job>, AllocError>
        ensures answered { IfOk result (λ job. Answer.Job job ≡ answer self.old Event.Take) }
        ensures after { OnOk result (self.new ≡ after self.old Event.Take) }
        ensures given { IfOk result (λ job. 0 < pending_answer self.old → NoneIsHanded (files_of self.old) self.old.cached self.old.handed → is_some job ≡ true) }
        ensures err { OnErr result (self.new ≡ self.old) }
    {
        let Some(job) = self.next_job(alloc)? else {
            return Ok(None);
        };
        self.handed.push(copied_job(alloc, &job)?)?;
        Ok(Some(job))
    }

    /// The job of the least unit that is ready and whose present job is not handed out, if there is one.
    fn next_job(&mut self, alloc: Global) -> Result<Option<Job>, AllocError>
        ensures same { self.new ≡ self.old }
        ensures next { IfOk result (λ job. job ≡ take_answer self.old) }
        ensures given { IfOk result (λ job. 0 < pending_answer self.old → NoneIsHanded (files_of self.old) self.old.cached self.old.handed → is_some job ≡ true) }
    {
        ready_law();
        taking_law();
        let _files = self.graph.project().files();
        if self.pending() == 0 {
            self.waiting.pass(self.graph.project().files().len());
            return Ok(None);
        }
        let from = first_ready(&self.graph, self.flags.as_slice(), self.waiting.least());
        self.waiting.pass(from);
        let next = next_unit(
            &self.graph,
            &self.cached,
            self.handed.as_slice(),
            self.flags.as_slice(),
            greater(from, self.passed),
        );
        let Some(index) = next else {
            return Ok(None);
        };
        self.passed = index;
        self.near = index;
        let unit = self.graph.project().files()[index].get().name;
        Ok(Some(self.job(alloc, index, unit)?))
    }

    /// Takes the next job, checks it and caches its outcome, and says whether there was one: what a take and a finish come to
    /// where nothing happens between them. Such an outcome is accepted, so it is not judged. Where memory is refused nothing is
    /// changed.
    pub fn work(&mut self, alloc: Global) -> Result<bool, AllocError>
        ensures worked { IfOk result (λ worked. worked ≡ is_some (take_answer self.old)) }
        ensures after { (i : Input) → take_answer self.old ≡ Some i → OnOk result (self.new ≡ after (after self.old Event.Take) (Event.Finish i)) }
        ensures none { take_answer self.old ≡ None → OnOk result (self.new ≡ self.old) }
        ensures err { OnErr result (self.new ≡ self.old) }
    {
        working_law();
        let Some(job) = self.next_job(alloc)? else {
            return Ok(false);
        };
        let Ok(outcome) = self.check(alloc, job) else {
            return Err(AllocError);
        };
        let file = self.near;
        match self.accept_outcome(file, outcome) {
            Ok(()) => Ok(true),
            Err(_refused) => Err(AllocError),
        }
    }

    /// The job of an open unit, which is looked for at an index first, that looks at what is so at present.
    fn job(&self, alloc: Global, file: usize, unit: FileName) -> Result<Job, AllocError>
        requires { HasJob (files_of self.now) self.now.cached unit }
        ensures { IfOk result (λ job. job ≡ input (files_of self.now) unit) }
    {
        job_now(alloc, &self.graph, &self.cached, file, unit)
    }

    /// Judges an outcome, and caches it if it is accepted. Its job is handed out no more. Where memory is refused, which
    /// only an outcome wants that is accepted, nothing is changed and it comes back.
    pub fn finish(&mut self, outcome: Outcome) -> Result<Verdict, (Outcome, AllocError)>
        ensures answered { IfOk result (λ verdict. Answer.Judged verdict ≡ answer self.old (Event.Finish outcome)) }
        ensures after { OnOk result (self.new ≡ after self.old (Event.Finish outcome)) }
        ensures present { IfOk result (λ verdict. verdict ≡ verdicts.Accepted → outcome ≡ input (files_of self.old) outcome.unit) }
        ensures fewer { IfOk result (λ verdict. verdict ≡ verdicts.Accepted → pending_answer self.new < pending_answer self.old) }
        ensures err { IfErr result (λ refused. (refused.0 ≡ outcome) × ((self.new ≡ self.old) × (finish_answer self.old outcome ≡ verdicts.Accepted))) }
    {
        let file = self.hint(outcome.job().unit());
        let verdict = self.judge(file, outcome.job());
        match verdict {
            Verdict::Accepted => self.accept_outcome(file, outcome)?,
            _ => self.abandon(outcome.job()),
        }
        Ok(verdict)
    }

    /// Checks a job. Where an outcome of its unit is cached that looked at the same lines and used units, and stands where it is
    /// looked for first, its diagnostics and its interface are those. Where memory is refused the job comes back.
    pub fn check(&self, alloc: Global, job: Job) -> Result<Outcome, (Job, AllocError)>
        ensures ok { IfOk result (λ outcome. outcome ≡ job) }
        ensures err { IfErr result (λ refused. refused.0 ≡ job) }
    {
        let unit = job.unit();
        match self.cached.get_hinted(self.hint(unit), unit) {
            Some(before) if is_alike_job(before.job(), &job) => before.again(job),
            _ => check(alloc, job),
        }
    }

    /// A text with its lines, for an edit of a file. Where that is open with a text that differs in skipped lines alone, the lines
    /// are those.
    pub fn prepare(&self, alloc: Global, name: FileName, text: &[u8]) -> Result<Source, TextFault>
        ensures text { IfOk result (λ source. source.text ≡ text.now) }
        ensures lines { IfOk result (λ source. IsPrepared text.now source.lines) }
        ensures only { IfOk result (λ source. (lines : List ASourceLine) → IsPrepared text.now lines → lines ≡ source.lines) }
        ensures large { IsErrOf result TextFault.TooLarge ↔ (262144 < length text.now) }
        ensures many { IsErrOf result TextFault.TooManyLines ↔ ((length text.now ≤ 262144) × (16384 < line_count text.now)) }
    {
        match self.prepared_again(alloc, name, text) {
            Ok(Some(source)) => Ok(only_source(source)),
            Ok(None) => prepare(alloc, text),
            Err(_refused) => Err(TextFault::Memory),
        }
    }

    /// The text with the lines of the file, if it is within the limits and differs from that in skipped lines alone.
    fn prepared_again(
        &self,
        alloc: Global,
        name: FileName,
        text: &[u8],
    ) -> Result<Option<Source>, AllocError>
        ensures limit { IfOk result (λ found. IfSome found (λ source. limit_fault text.now ≡ None)) }
        ensures within { IfErr result (λ refused. limit_fault text.now ≡ None) }
        ensures text { IfOk result (λ found. IfSome found (λ source. source.text ≡ text.now)) }
    {
        let Some(known) = self.graph.project().get_near(self.near, name) else {
            return Ok(None);
        };
        if text_fault(text).is_some() {
            return Ok(None);
        }
        match known.get().again(alloc, text)? {
            Some(source) => Ok(Some(source)),
            None => self.prepared_before(alloc, name, text),
        }
    }

    /// The text with the lines that the file had before its last edit, where that is taken back.
    fn prepared_before(
        &self,
        alloc: Global,
        name: FileName,
        text: &[u8],
    ) -> Result<Option<Source>, AllocError>
        ensures limit { IfOk result (λ found. IfSome found (λ source. limit_fault text.now ≡ None)) }
        ensures text { IfOk result (λ found. IfSome found (λ source. source.text ≡ text.now)) }
    {
        match text_before(self.journal.as_slice(), name) {
            Some(source) => source.get().again(alloc, text),
            None => Ok(None),
        }
    }

    /// Where a unit is looked for first. It promises nothing: an index that is wrong costs time.
    fn hint(&self, unit: FileName) -> usize {
        match self.graph.project().index_near(self.near, unit) {
            Some(index) => index,
            None => 0,
        }
    }

    /// Keeps an outcome that looked at what is so at present, and hands its job out no more. What was done stays so. Its unit is
    /// looked for at an index first.
    fn accept_outcome(&mut self, file: usize, outcome: Outcome) -> Result<(), (Outcome, AllocError)>
        requires { IsAcceptable (files_of self.old) self.old.cached outcome }
        ensures ok { OnOk result (self.new ≡ record { base = self.old.base; journal = self.old.journal; cached = with_cached self.old.cached outcome; handed = unhanded self.old.handed outcome }) }
        ensures fewer { OnOk result (pending_answer self.new < pending_answer self.old) }
        ensures err { IfErr result (λ refused. (refused.0 ≡ outcome) × (self.new ≡ self.old)) }
    {
        put_law();
        done_law();
        height_law();
        verified_law();
        let found = self.cached.cache(file, outcome)?;
        self.passed = 0;
        let job = self.cached.at(found.0).job();
        unhand(&mut self.handed, job);
        forget_users(&self.graph, &mut self.verified, file, job.unit(), found.1);
        settle_cached(
            &self.graph,
            &self.cached,
            &mut self.flags,
            &mut self.verified,
            &mut self.waiting,
            file,
            job.unit(),
        );
        Ok(())
    }

    /// What becomes of the outcome of a job, whose unit is looked for at an index first.
    fn judge(&self, file: usize, job: &Job) -> Verdict
        ensures value { result ≡ finish_answer self.now job.now }
        ensures acceptable { result ≡ verdicts.Accepted → IsAcceptable (files_of self.now) self.now.cached job.now }
    {
        judge(
            &self.graph,
            self.number(),
            &self.cached,
            self.flags.as_slice(),
            file,
            job,
        )
    }

    /// A job is handed out no more, and nothing is cached.
    pub fn abandon(&mut self, job: &Job)
        ensures { self.new ≡ after self.old (Event.Abandon job.now) }
    {
        self.passed = 0;
        unhand(&mut self.handed, job);
    }

    /// Each open unit in order of name, with its diagnostics in order, or as pending.
    pub fn report(&self, alloc: Global) -> Result<Items<Row>, AllocError>
        ensures { IfOk result (λ rows. rows ≡ report_answer self.now) }
    {
        rows(alloc, &self.graph, &self.cached, self.flags.as_slice())
    }

    /// How many open units are pending.
    pub fn pending(&self) -> usize
        ensures { result ≡ pending_answer self.now }
    {
        done_law();
        self.units - self.flags.count()
    }

    /// How many units the last edit made to be expanded anew: the open units that have its file among their reads. 0 before
    /// any edit.
    pub fn expanded(&self) -> u32
        ensures { result ≡ expanded_answer self.now }
    {
        count_expanded(&self.graph, self.number())
    }

    /// Makes the present project the base, and hands out the edits that the journal had; the journal is empty then. What is
    /// cached, handed out or pending stays so.
    pub fn checkpoint(&mut self, alloc: Global) -> Result<Cut, AllocError>
        ensures answered { IfOk result (λ cut. Answer.Gives cut ≡ answer self.old Event.Checkpoint) }
        ensures after { OnOk result (self.new ≡ after self.old Event.Checkpoint) }
        ensures replayed { IfOk result (λ cut. self.new.base ≡ base_after self.old.base cut.entries) }
        ensures err { OnErr result (self.new ≡ self.old) }
    {
        base_law();
        self.base
            .follow(alloc, self.graph.project(), self.journal.as_slice())?;
        let entries = mem::replace(&mut self.journal, Vec::new(alloc));
        Ok(Cut {
            number: self.base.number,
            entries: Items::from_vec(entries),
        })
    }

    /// The base: the files after the edits that checkpoints took out of the journal.
    pub fn base(&self) -> &Base
        ensures base { result.now ≡ self.now.base }
        ensures known { IsBase self.now.base }
    {
        &self.base
    }

    /// The edits that were accepted since the base, in order. The first has the number after that of the base. The files that
    /// they make of it have the lines that their texts spell.
    pub fn entries(&self) -> &[Entry]
        ensures entries { result.now ≡ self.now.journal }
        ensures legal { IsLegal self.now.base self.now.journal }
        ensures few { number_of self.now < 2 ^ 32 }
        ensures spelled { AreSpelled (files_of self.now) }
    {
        self.journal.as_slice()
    }
}
