//! What is reported, in the order of reporting. What is reported several times in a row takes the room of one diagnostic.
ghost use Rattle.std.specs.Option.{option_copied};
ghost use Rattle.std.specs.Prelude.{◌≡◌, ◌++◌, ◌∷◌, ◌↔◌, [], IfOk, IsTrue, MatchOption, OnOk};
ghost use Rattle.occ_alias.specs.Repeated.{all_diags, run_diags};

use occ_base::{Code, Diag, Grade, Items, Name};
use occ_project::Location;
use std::alloc::{AllocError, Global};
use std::marker::Model;

/// A diagnostic, and how many times more it comes in a row.
#[derive(Drop)]
pub struct Run {
    pub diag: Diag,
    pub more: usize,
}

/// Diagnostics in the order of reporting, of which one that comes several times in a row takes the room of one: in contracts
/// their list.
#[derive(Drop)]
pub struct Reported {
    runs: Items<Run>,
}

impl Model for Reported {
    ghost use Rattle.std.specs.Coded.{codes};
    ghost use Rattle.std.specs.Prelude.{List};
    ghost use Rattle.occ_alias.specs.Repeated.{all_diags};
    ghost use Rattle.occ_base.specs.declared.diag.Diag.{Diag};

    ghost Value = { List Diag };

    ghost coded = { Prim.hlevel codes };

    ghost view = { λ reported. all_diags reported.runs };
}

/// Whether a diagnostic is of this line.
fn is_of_line(diag: &Diag, line: &Location) -> bool
    ensures file { IsTrue result → diag.now.file ≡ line.now.file }
    ensures line { IsTrue result → diag.now.line ≡ line.now.line }
{
    diag.line == line.line && diag.file == *line.file.get()
}

/// Whether a diagnostic has this code and this grade.
fn is_of_code(diag: &Diag, code: Code, grade: Grade) -> bool
    ensures code { IsTrue result → diag.now.code ≡ code }
    ensures grade { IsTrue result → diag.now.grade ≡ grade }
{
    diag.code == code && diag.grade == grade
}

/// Whether a diagnostic has this name, or none.
fn is_named(diag: &Diag, name: Option<&Name>) -> bool
    ensures { IsTrue result → diag.now.name ≡ option_copied name.entry }
{
    match (&diag.name, name) {
        (Some(own), Some(name)) => own == name,
        (None, None) => true,
        _ => false,
    }
}

/// Whether a diagnostic is this one.
#[tactic(auto, using(crate::proofs::Repeating::one_diag))]
fn is_that(diag: &Diag, line: &Location, code: Code, grade: Grade, name: Option<&Name>) -> bool
    ensures { IsTrue result → diag.now ≡ record { file = line.now.file; line = line.now.line; code = code; grade = grade; name = option_copied name.entry } }
{
    is_of_line(diag, line) && is_of_code(diag, code, grade) && is_named(diag, name)
}

/// This diagnostic, once.
fn run_of(
    alloc: Global,
    line: &Location,
    code: Code,
    grade: Grade,
    name: Option<&Name>,
) -> Result<Run, AllocError>
    ensures { IfOk result (λ run. run_diags run ≡ record { file = line.now.file; line = line.now.line; code = code; grade = grade; name = option_copied name.entry } ∷ []) }
{
    let name = match name {
        Some(name) => Some(name.copied(alloc)?),
        None => None,
    };
    let diag = Diag {
        file: *line.file.get(),
        line: line.line,
        code,
        grade,
        name,
    };
    Ok(Run { diag, more: 0 })
}

/// The same diagnostic again.
pub fn again(alloc: Global, diag: &Diag) -> Result<Diag, AllocError>
    ensures { IfOk result (λ copy. copy ≡ diag.now) }
{
    let name = match &diag.name {
        Some(name) => Some(name.copied(alloc)?),
        None => None,
    };
    Ok(Diag {
        file: diag.file,
        line: diag.line,
        code: diag.code,
        grade: diag.grade,
        name,
    })
}

impl Run {
    /// Adds the diagnostic so often as it comes.
    #[tactic(auto, using(crate::proofs::Repeating::one_more))]
    pub(crate) fn add_to(self, alloc: Global, all: &mut Items<Diag>) -> Result<(), AllocError>
        ensures { OnOk result (all.new ≡ all.old ++ run_diags self) }
    {
        all.push(again(alloc, &self.diag)?)?;
        for index in 0..self.more {
            all.push(again(alloc, &self.diag)?)?;
        }
        Ok(())
    }
}

impl Reported {
    /// Nothing is reported.
    pub fn nothing(alloc: Global) -> Reported
        ensures { result ≡ [] }
    {
        Reported {
            runs: Items::new(alloc),
        }
    }

    /// Whether nothing is reported.
    #[tactic(auto, using(crate::proofs::Repeating::none_told))]
    pub fn is_empty(&self) -> bool
        ensures { IsTrue result ↔ (self.now ≡ []) }
    {
        self.runs.is_empty()
    }

    /// The diagnostics, with how often each comes in a row.
    pub fn runs(&self) -> &[Run]
        ensures { all_diags result.now ≡ self.now }
    {
        self.runs.as_slice()
    }

    /// One more is reported. It is made only where another was reported last.
    #[tactic(auto, using(crate::proofs::Repeating::runs_last))]
    pub(crate) fn report(
        &mut self,
        alloc: Global,
        line: &Location,
        code: Code,
        grade: Grade,
        name: Option<&Name>,
    ) -> Result<(), AllocError>
        ensures { OnOk result (self.new ≡ self.old ++ record { file = line.now.file; line = line.now.line; code = code; grade = grade; name = option_copied name.entry } ∷ []) }
    {
        match self.runs.pop() {
            Some(last) => self.report_after(alloc, last, line, code, grade, name),
            None => self.push_run(run_of(alloc, line, code, grade, name)?),
        }
    }

    /// One is reported so often.
    #[tactic(auto, using(crate::proofs::Repeating::runs_last))]
    pub fn push_run(&mut self, run: Run) -> Result<(), AllocError>
        ensures { OnOk result (self.new ≡ self.old ++ run_diags run) }
    {
        self.runs.push(run)
    }

    /// One is reported so often, and then one more.
    #[tactic(auto, using(crate::proofs::Repeating::one_more))]
    fn report_after(
        &mut self,
        alloc: Global,
        last: Run,
        line: &Location,
        code: Code,
        grade: Grade,
        name: Option<&Name>,
    ) -> Result<(), AllocError>
        ensures { OnOk result (self.new ≡ (self.old ++ run_diags last) ++ record { file = line.now.file; line = line.now.line; code = code; grade = grade; name = option_copied name.entry } ∷ []) }
    {
        if last.more < usize::MAX && is_that(&last.diag, line, code, grade, name) {
            let Run { diag, more } = last;
            return self.push_run(Run {
                diag,
                more: more + 1,
            });
        }
        self.push_run(last)?;
        self.push_run(run_of(alloc, line, code, grade, name)?)
    }

    /// These are reported, too.
    #[tactic(auto, using(crate::proofs::Repeating::runs_both))]
    pub fn append(&mut self, more: Reported) -> Result<(), AllocError>
        ensures { OnOk result (self.new ≡ self.old ++ more) }
    {
        let Reported { runs } = more;
        self.runs.append(runs)
    }

    /// Takes away what is reported last, with how often it comes in a row.
    #[tactic(auto, using(crate::proofs::Repeating::runs_last))]
    pub fn pop(&mut self) -> Option<Run>
        ensures { MatchOption result ((self.old ≡ []) × (self.new ≡ [])) (λ last. self.old ≡ self.new ++ run_diags last) }
    {
        self.runs.pop()
    }
}
