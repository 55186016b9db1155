//! The state of a script, and the answer to each command. It has the board, the jobs that workers hold, and whether the
//! last report had an error. `docs/MACHINE.md, Scripts`.
ghost use Rattle.occheck_commands.specs.Left.{meant};
ghost use Rattle.occheck_commands.specs.Script.Command.{Change, Checkpoint, Drop as LetGo, Finish as FinishBy, Open, Remove, Report, Settle, Take as TakeBy};
ghost use Rattle.occheck_script.specs.Machine.{AreLines, Reading, ReadsCommand, after, answer as spec_answer, job_of, start, without};
ghost use Rattle.std.specs.List.{position};
ghost use Rattle.std.specs.Prelude.{◌≡◌, ◌==◌, IfOk, OnOk};

use super::answer::{line, line_naming};
use super::edit::{RequestedEdit, edited, named, read_edit, refused};
use super::jobs::{checked, verdict_line};
use super::report::{report_lines, reports_errors};
use super::settling::settle;
use occ_base::Items;
use occ_board::{Board, Job};
use occheck_commands::Command;
use std::alloc::{AllocError, Global};

/// All commands of a script are of one session.
const SESSION: u32 = 0;

/// A worker, and the job that it holds.
#[derive(Drop)]
pub struct Held {
    pub worker: u8,
    pub job: Job,
}

/// What a script works on: the board, the jobs that workers hold, and whether the last report reported an error.
#[derive(Drop)]
pub struct Desk {
    pub board: Board,
    pub held: Items<Held>,
    pub errors: bool,
}

impl Desk {
    /// No file is open, and no worker holds a job.
    pub fn new(alloc: Global) -> Desk
        ensures { result ≡ start }
    {
        Desk {
            board: Board::new(alloc),
            held: Items::new(alloc),
            errors: false,
        }
    }

    /// Carries a command out and gives its answer. Where memory is refused, a part of it may have been done.
    pub fn answer(&mut self, alloc: Global, command: Command<'_>) -> Result<Vec<u8>, AllocError>
        ensures answered { (read : Reading) → ReadsCommand read (meant command.entry) → IfOk result (λ bytes. bytes.items ≡ spec_answer read self.old (meant command.entry)) }
        ensures after { (read : Reading) → ReadsCommand read (meant command.entry) → OnOk result (self.new ≡ after read self.old (meant command.entry)) }
    {
        match command {
            Command::Open(name, text) => self.open(alloc, name, text),
            Command::Change(name, text) => self.change(alloc, name, text),
            Command::Remove(name) => self.remove(alloc, name),
            Command::Take(worker) => self.take(alloc, worker),
            Command::Finish(worker) => self.finish(alloc, worker),
            Command::Drop(worker) => self.drop_job(alloc, worker),
            Command::Settle => self.settle(alloc),
            Command::Checkpoint => self.checkpoint(alloc),
            Command::Report => self.report(alloc),
        }
    }

    fn open(&mut self, alloc: Global, name: &[u8], text: &[u8]) -> Result<Vec<u8>, AllocError>
        ensures answered { (read : Reading) → AreLines text.now (read text.now) → IfOk result (λ bytes. bytes.items ≡ spec_answer read self.old (Open name.now text.now)) }
        ensures after { (read : Reading) → AreLines text.now (read text.now) → OnOk result (self.new ≡ after read self.old (Open name.now text.now)) }
    {
        let given = read_edit(alloc, Some(&self.board), name, text)?;
        match given {
            RequestedEdit::File(file, source) => {
                edited(alloc, self.board.open(alloc, SESSION, file, source))
            }
            RequestedEdit::Refused(word) => refused(alloc, word),
        }
    }

    fn change(&mut self, alloc: Global, name: &[u8], text: &[u8]) -> Result<Vec<u8>, AllocError>
        ensures answered { (read : Reading) → AreLines text.now (read text.now) → IfOk result (λ bytes. bytes.items ≡ spec_answer read self.old (Change name.now text.now)) }
        ensures after { (read : Reading) → AreLines text.now (read text.now) → OnOk result (self.new ≡ after read self.old (Change name.now text.now)) }
    {
        let given = read_edit(alloc, Some(&self.board), name, text)?;
        match given {
            RequestedEdit::File(file, source) => {
                edited(alloc, self.board.change(alloc, SESSION, file, source))
            }
            RequestedEdit::Refused(word) => refused(alloc, word),
        }
    }

    fn remove(&mut self, alloc: Global, name: &[u8]) -> Result<Vec<u8>, AllocError>
        ensures answered { (read : Reading) → IfOk result (λ bytes. bytes.items ≡ spec_answer read self.old (Remove name.now)) }
        ensures after { (read : Reading) → OnOk result (self.new ≡ after read self.old (Remove name.now)) }
    {
        match named(name) {
            Ok(file) => edited(alloc, self.board.remove(alloc, SESSION, file)),
            Err(word) => refused(alloc, word),
        }
    }

    fn take(&mut self, alloc: Global, worker: u8) -> Result<Vec<u8>, AllocError>
        ensures answered { (read : Reading) → IfOk result (λ bytes. bytes.items ≡ spec_answer read self.old (TakeBy worker)) }
        ensures after { (read : Reading) → OnOk result (self.new ≡ after read self.old (TakeBy worker)) }
    {
        if self.place_of(worker).is_some() {
            return line(alloc, "busy");
        }
        let Some(job) = self.board.take(alloc)? else {
            return line(alloc, "none");
        };
        let answer = line_naming(alloc, "job ", job.unit().as_bytes())?;
        self.held.push(Held { worker, job })?;
        Ok(answer)
    }

    fn finish(&mut self, alloc: Global, worker: u8) -> Result<Vec<u8>, AllocError>
        ensures answered { (read : Reading) → IfOk result (λ bytes. bytes.items ≡ spec_answer read self.old (FinishBy worker)) }
        ensures after { (read : Reading) → OnOk result (self.new ≡ after read self.old (FinishBy worker)) }
    {
        let Some(job) = self.release(worker) else {
            return line(alloc, "idle");
        };
        let unit = job.unit();
        let outcome = checked(alloc, &self.board, job)?;
        match self.board.finish(outcome) {
            Ok(verdict) => verdict_line(alloc, unit, verdict),
            Err(_refused) => Err(AllocError),
        }
    }

    fn drop_job(&mut self, alloc: Global, worker: u8) -> Result<Vec<u8>, AllocError>
        ensures answered { (read : Reading) → IfOk result (λ bytes. bytes.items ≡ spec_answer read self.old (LetGo worker)) }
        ensures after { (read : Reading) → OnOk result (self.new ≡ after read self.old (LetGo worker)) }
    {
        let Some(job) = self.release(worker) else {
            return line(alloc, "idle");
        };
        self.board.abandon(&job);
        line_naming(alloc, "dropped ", job.unit().as_bytes())
    }

    fn settle(&mut self, alloc: Global) -> Result<Vec<u8>, AllocError>
        ensures answered { (read : Reading) → IfOk result (λ bytes. bytes.items ≡ spec_answer read self.old Settle) }
        ensures after { (read : Reading) → OnOk result (self.new ≡ after read self.old Settle) }
    {
        settle(alloc, &mut self.board)?;
        let number = self.board.pending().to_string(alloc)?;
        line_naming(alloc, "settled ", number.as_bytes())
    }

    #[tactic(auto, using(crate::proofs::Cuts::cut_number))]
    fn checkpoint(&mut self, alloc: Global) -> Result<Vec<u8>, AllocError>
        ensures answered { (read : Reading) → IfOk result (λ bytes. bytes.items ≡ spec_answer read self.old Checkpoint) }
        ensures after { (read : Reading) → OnOk result (self.new ≡ after read self.old Checkpoint) }
    {
        let cut = self.board.checkpoint(alloc)?;
        let number = cut.number.to_string(alloc)?;
        line_naming(alloc, "checkpoint ", number.as_bytes())
    }

    fn report(&mut self, alloc: Global) -> Result<Vec<u8>, AllocError>
        ensures answered { (read : Reading) → IfOk result (λ bytes. bytes.items ≡ spec_answer read self.old Report) }
        ensures after { (read : Reading) → OnOk result (self.new ≡ after read self.old Report) }
    {
        let report = self.board.report(alloc)?;
        let answer = report_lines(alloc, report.as_slice())?;
        self.errors = reports_errors(report.as_slice());
        Ok(answer)
    }

    /// Where the worker's job stands among those that are held.
    fn place_of(&self, worker: u8) -> Option<usize>
        ensures { result ≡ position (λ held. held.worker == worker) self.now.held }
    {
        self.held
            .as_slice()
            .iter()
            .position(|held| held.worker == worker)
    }

    /// The job that the worker held; it holds none any more.
    fn release(&mut self, worker: u8) -> Option<Job>
        ensures job { result ≡ job_of worker self.old.held }
        ensures held { self.new.held ≡ without worker self.old.held }
        ensures board { self.new.board ≡ self.old.board }
        ensures errors { self.new.errors ≡ self.old.errors }
    {
        let place = self.place_of(worker)?;
        Some(self.held.remove(place).job)
    }
}
