//! Where the next job is looked for: the ready units below an index, as they are known, and that index.
ghost use Rattle.occ_board.specs.inside.Ready.{AreAwaited, NoneIsReady, is_ready as spec_is_ready};
ghost use Rattle.occ_project.specs.declared.reads.Read.{Read as ARead};
ghost use Rattle.occ_project_graph.specs.Graph.{is_among as spec_is_among};
ghost use Rattle.std.specs.BTreeSet.{contains};
ghost use Rattle.std.specs.Ordering.{nat_cmp};
ghost use Rattle.std.specs.Prelude.{◌≡◌, ◌<◌, ◌⊎◌, Bool, List, Some, false, get_or, slice_get, true, ℕ};

use super::taking::is_ready_at;
use occ_project_graph::Nodes;
use occ_project_units::Graph;
use std::alloc::Global;
use std::collections::BTreeSet;

/// The indices of units below an index among which all are that are ready there, and that index. So a job is found at once
/// where units get ready one after the other, in whatever order.
#[derive(Drop)]
pub struct Waiting {
    early: BTreeSet<usize>,
    from: usize,
}

impl Waiting {
    /// Nothing is known: any unit may be ready.
    pub fn new(alloc: Global) -> Waiting
        ensures { result.from ≡ 0 }
    {
        Waiting {
            early: BTreeSet::new(alloc),
            from: 0,
        }
    }

    /// Nothing is known any more.
    pub fn forget(&mut self)
        ensures { self.new.from ≡ 0 }
    {
        self.early.clear();
        self.from = 0;
    }

    /// An index before which no unit is ready.
    pub fn least(&self) -> usize
        ensures { (files : List ARead) (flags : List Bool) → AreAwaited files flags self.now.early self.now.from → NoneIsReady files flags result }
    {
        match self.early.first() {
            Some(index) if *index < self.from => *index,
            _ => self.from,
        }
    }

    /// No unit before this index is ready.
    pub fn pass(&mut self, index: usize)
        ensures { (files : List ARead) (flags : List Bool) → NoneIsReady files flags index → AreAwaited files flags self.old.early self.old.from → AreAwaited files flags self.new.early self.new.from }
    {
        if self.from < index {
            self.from = index;
        }
    }

    /// The unit at this index is done, and of others those at these indices may have got ready. Where memory is refused nothing
    /// is known any more.
    pub fn follow(&mut self, graph: &Graph, flags: &[bool], index: usize, users: &Nodes<'_>)
        requires done { get_or flags.now index false ≡ true }
        requires awaited { (p : ℕ) (file : ARead) → p < self.old.from → slice_get graph.now p ≡ Some file → spec_is_ready graph.now flags.now p file ≡ true → (contains nat_cmp self.old.early p ≡ true) ⊎ (spec_is_among users.now p ≡ true) }
        ensures { AreAwaited graph.now flags.now self.new.early self.new.from }
    {
        self.early.remove(&index);
        for place in 0..users.count() {
            let user = users.at(place);
            if user < self.from
                && is_ready_at(graph, flags, user)
                && self.early.insert(user).is_err()
            {
                self.forget();
                return;
            }
        }
    }

    /// Of others only those at these indices may have got ready. It begins with the least of them that did, or before it.
    pub fn begin_with(&mut self, graph: &Graph, flags: &[bool], indices: &Nodes<'_>)
        requires { (p : ℕ) (file : ARead) → p < self.old.from → slice_get graph.now p ≡ Some file → spec_is_ready graph.now flags.now p file ≡ true → (contains nat_cmp self.old.early p ≡ true) ⊎ (spec_is_among indices.now p ≡ true) }
        ensures { AreAwaited graph.now flags.now self.new.early self.new.from }
    {
        for place in 0..indices.count() {
            let index = indices.at(place);
            if index < self.from && is_ready_at(graph, flags, index) {
                self.from = index;
            }
        }
    }
}
