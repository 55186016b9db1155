//! The cached outcomes, one for each unit at most, found by a hint at the index of the file, else by name.
ghost use Rattle.occ_board.specs.Done.{cached_of};
ghost use Rattle.occ_board.specs.Machine.{with_cached};
ghost use Rattle.occ_board.specs.inside.Verified.{shown_of};
ghost use Rattle.occ_board.specs.inside.Holding.{index_in};
ghost use Rattle.occ_check.specs.Diagnostics.{interface_of};
ghost use Rattle.std.specs.Option.{option_copied};
ghost use Rattle.std.specs.Prelude.{◌≡◌, ◌↔◌, ◌<◌, [], IfErr, IfOk, IfSome, IsTrue, None, Some, length, slice_get, true};

use super::comparing::are_same_interfaces;
use occ_base::{FileName, Shared};
use occ_check::Outcome;
use occ_project_units::Project;
use occ_types::Interface;
use sqlite_items::at;
use std::alloc::{AllocError, Global};
use std::collections::BTreeMap;
use std::marker::Model;

/// The outcomes that are cached, one for each unit at most. In contracts it is the list of what they looked at.
#[derive(Drop)]
pub struct Cached {
    outcomes: Vec<Outcome>,
    /// The place of the outcome of each unit that has one.
    indices: BTreeMap<FileName, usize>,
    /// Where the outcome of the unit at each place of the project is looked for first. It promises nothing: a hint that is
    /// wrong costs time.
    hints: Vec<usize>,
}

impl Model for Cached {
    ghost use Rattle.occ_forms_expressions.specs.contracts.tree.Builtin as builtins;
    ghost use Rattle.occ_forms_expressions.specs.contracts.tree.Dimension as dimensions;
    ghost use Rattle.occ_forms_expressions.specs.contracts.tree.Element as elements;
    ghost use Rattle.occ_forms_expressions.specs.contracts.tree.Expr as expressions;
    ghost use Rattle.occ_forms_expressions.specs.contracts.tree.TypeForm as type_forms;
    ghost use Rattle.occ_types.specs.contracts.types.OccType as types;
    ghost use Rattle.occ_check.specs.Input.{Input};
    ghost use Rattle.std.specs.Coded.{codes};
    ghost use Rattle.std.specs.Prelude.{List};

    ghost Value = { List Input };

    ghost coded = { Prim.hlevel (codes, builtins.the_row.coded, dimensions.the_row.coded, elements.the_row.coded, expressions.the_row.coded, type_forms.the_row.coded, types.the_row.coded) };

    ghost use Rattle.occ_board.specs.inside.Holding.{IsCaching};

    ghost view = { λ cached. cached.outcomes.items };

    ghost invariant = { λ cached. IsCaching cached.indices cached.outcomes.items };
}

impl Cached {
    /// Where no outcome is cached.
    pub fn new(alloc: Global) -> Cached
        ensures { result ≡ [] }
    {
        Cached {
            outcomes: Vec::new(alloc),
            indices: BTreeMap::new(alloc),
            hints: Vec::new(alloc),
        }
    }

    /// Whether none is.
    pub fn is_empty(&self) -> bool
        ensures { IsTrue result ↔ (self.now ≡ []) }
    {
        self.outcomes.is_empty()
    }

    /// Lets the indices where outcomes are looked for first follow the indices of a project after an edit of the file at one,
    /// which may be new to it. Where no outcome is cached they are all the same, and one comes behind them.
    pub fn follow(&mut self, project: &Project, edited: usize)
        ensures { self.new ≡ self.old }
    {
        if self.hints.len() >= project.files().len() {
            return;
        }
        if self.outcomes.is_empty() {
            let _ = self.hints.push(0);
        } else if edited <= self.hints.len() {
            let _ = self.hints.insert(edited, 0);
        }
    }

    /// The outcome of the unit that stands at a place of the project is looked for first at this index among the outcomes.
    fn hint(&mut self, file: usize, index: usize)
        ensures { self.new ≡ self.old }
    {
        if file < self.hints.len() {
            self.hints[file] = index;
        }
    }

    /// The place of the outcome that is cached of a unit, if it stands where it is looked for first.
    fn hinted(&self, file: usize, unit: FileName) -> Option<usize>
        ensures { IfSome result (λ index. index_in self.now unit ≡ Some index) }
    {
        let hint = self.hints.get(file)?;
        let outcome = at(self.outcomes.as_slice(), *hint)?;
        if outcome.job().unit() == unit {
            Some(*hint)
        } else {
            None
        }
    }

    /// The place of the outcome that is cached of a unit, which is looked for at a place of the project first, and then at the one before
    /// it: the hints have not followed yet where flags are set after a new file came.
    fn index_near(&self, file: usize, unit: FileName) -> Option<usize>
        ensures { result ≡ index_in self.now unit }
    {
        if let Some(index) = self.hinted(file, unit) {
            return Some(index);
        }
        match self.hinted(file.saturating_sub(1), unit) {
            Some(index) => Some(index),
            None => self.index(unit),
        }
    }

    /// The outcome that is cached of a unit, which is looked for at a place of the project first.
    pub fn get_near(&self, file: usize, unit: FileName) -> Option<&Outcome>
        ensures { option_copied result ≡ cached_of self.now unit }
    {
        match self.index_near(file, unit) {
            Some(index) => at(self.outcomes.as_slice(), index),
            None => None,
        }
    }

    /// The outcome that is cached of a unit, if it stands where it is looked for first.
    pub fn get_hinted(&self, file: usize, unit: FileName) -> Option<&Outcome>
        ensures { IfSome result (λ outcome. cached_of self.now unit ≡ Some outcome.now) }
    {
        let index = self.hinted(file, unit)?;
        at(self.outcomes.as_slice(), index)
    }

    /// What a unit, which is looked for at a place of the project first, shows by the outcome that is cached of it.
    pub fn shown_near(&self, file: usize, unit: FileName) -> Option<&Shared<Interface>>
        ensures { option_copied result ≡ shown_of self.now unit }
    {
        self.get_near(file, unit)?.interface()
    }

    /// The place of the outcome that is cached of a unit.
    fn index(&self, unit: FileName) -> Option<usize>
        ensures { result ≡ index_in self.now unit }
    {
        match self.indices.get(&unit) {
            Some(index) => Some(*index),
            None => None,
        }
    }

    /// The outcome at an index.
    pub fn at(&self, index: usize) -> &Outcome
        requires { index < length self.now }
        ensures { slice_get self.now index ≡ Some result.now }
    {
        &self.outcomes[index]
    }

    /// Keeps an outcome of the unit at a place of the project, in place of the one that is cached of its unit if one is. It reports its
    /// index, and whether the unit shows the same by it as before. Where memory is refused it comes back.
    pub fn cache(
        &mut self,
        file: usize,
        outcome: Outcome,
    ) -> Result<(usize, bool), (Outcome, AllocError)>
        ensures cached { IfOk result (λ _. self.new ≡ with_cached self.old outcome) }
        ensures index { IfOk result (λ found. slice_get self.new found.0 ≡ Some outcome) }
        ensures shown { IfOk result (λ found. (found.1 ≡ true) ↔ (interface_of outcome ≡ shown_of self.old outcome.unit)) }
        ensures err { IfErr result (λ refused. (refused.0 ≡ outcome) × (self.new ≡ self.old)) }
    {
        match self.index_near(file, outcome.job().unit()) {
            Some(index) => {
                let same = self.replace(index, outcome);
                self.hint(file, index);
                Ok((index, same))
            }
            None => {
                let same = outcome.interface().is_none();
                let index = self.cache_first(outcome)?;
                self.hint(file, index);
                Ok((index, same))
            }
        }
    }

    /// Keeps an outcome in place of the one that is cached of its unit, and says whether the unit shows the same by both.
    fn replace(&mut self, index: usize, outcome: Outcome) -> bool
        requires within { index < length self.old }
        requires index { index_in self.old outcome.unit ≡ Some index }
        ensures cached { self.new ≡ with_cached self.old outcome }
        ensures index { slice_get self.new index ≡ Some outcome }
        ensures shown { IsTrue result ↔ (interface_of outcome ≡ shown_of self.old outcome.unit) }
    {
        let before = self.at(index).interface();
        let same = are_same_interfaces(outcome.interface(), before);
        self.outcomes[index] = outcome;
        same
    }

    /// Keeps the first outcome of a unit, and reports its place.
    fn cache_first(&mut self, outcome: Outcome) -> Result<usize, (Outcome, AllocError)>
        requires { index_in self.old outcome.unit ≡ None }
        ensures cached { IfOk result (λ _. self.new ≡ with_cached self.old outcome) }
        ensures index { IfOk result (λ index. slice_get self.new index ≡ Some outcome) }
        ensures err { IfErr result (λ refused. (refused.0 ≡ outcome) × (self.new ≡ self.old)) }
    {
        let unit = outcome.job().unit();
        let index = self.outcomes.len();
        if let Err(refused) = self.outcomes.push(outcome) {
            return Err((refused.value, AllocError));
        }
        if self.indices.insert(unit, index).is_err() {
            return match self.outcomes.pop() {
                Some(outcome) => Err((outcome, AllocError)),
                None => unreachable!(),
            };
        }
        Ok(index)
    }
}
