//! A graph with what its nodes rest on and with its edges turned around, cached. Contracts see the edges alone.
ghost use Rattle.occ_project_graph.specs.Adding.{IsParted, with_node, with_used_node};
ghost use Rattle.occ_project_graph.specs.Graph.{Graph, IsWhole, has_edge as spec_has_edge, is_among, rests as spec_rests, targets as spec_targets};
ghost use Rattle.occ_project_graph.specs.Sources.{sources as spec_sources};
ghost use Rattle.occ_project_graph.specs.inside.Linking.{others, rests_kept};
ghost use Rattle.occ_project_graph.specs.inside.Numbering.{IsNumbered, indexed, row_by};
ghost use Rattle.std.specs.Prelude.{◌≡◌, ◌<◌, ◌≤◌, ◌++◌, ◌∷◌, [], ℕ, IfOk, IsTrue, OnErr, OnOk, false, get_or, length, slice_set, true, vec_capacity, vec_len};

use super::adding::{lead, lead_no_more, put_found, put_rows};
use super::circles::find_rests;
use super::joining::{lead_between, lead_rests, leads_back, led_rows, marked_numbers};
use super::leading::{both, is_reached, later_edges, numbers_of, replaced, rows_later};
use super::nodes::Nodes;
use super::numbering::{first_numbers, insert_node, numbers_then, push_within, with_room};
use super::resting::{add_rests, is_one};
use super::search::{number_at, targets as row};
use super::sources::find_sources;
use sqlite_items::Items;
use std::alloc::{AllocError, Global};
use std::marker::Model;

/// A graph, with what its nodes rest on and from where edges lead to them. In contracts it is the graph. Each node has a number
/// that stays, so that a node that comes before others moves none of their rows.
pub struct Linked {
    /// Of each index the number of its node.
    numbers: Vec<usize>,
    /// Of each number the index of its node.
    indices: Vec<usize>,
    /// Of each node those to which edges lead from it, all by numbers.
    edges: Vec<Items<usize>>,
    /// Of each node those that it rests on; nothing says that these are all to which edges lead from it.
    rests: Option<Vec<Items<usize>>>,
    /// Of each node those from which edges lead to it, in the order of their indices.
    sources: Vec<Items<usize>>,
}

/// Written out: crates above call it, where each would prove a derived one anew.
impl Drop for Linked {
    fn drop(self) {
        let Linked {
            numbers: _,
            indices: _,
            edges: _,
            rests: _,
            sources: _,
        } = self;
    }
}

impl Model for Linked {
    ghost use Rattle.occ_project_graph.specs.inside.Linking.{IsLinked, rests_kept};
    ghost use Rattle.occ_project_graph.specs.inside.Numbering.{graph_by};
    ghost use Rattle.std.specs.Coded.{coded_list, coded_ℕ};
    ghost use Rattle.std.specs.Prelude.{List, ℕ};

    ghost Value = { List (List ℕ) };

    ghost coded = { coded_list (coded_list coded_ℕ) };

    ghost view = { λ linked. graph_by linked.numbers.items linked.indices.items linked.edges.items };

    ghost invariant = { λ linked. IsLinked linked.numbers.items linked.indices.items linked.edges.items (rests_kept linked.edges.items linked.rests) linked.sources.items };
}

/// The row of the node of an index, in rows by number.
fn row_of<'a>(numbers: &[usize], rows: &'a [Items<usize>], index: usize) -> &'a [usize]
    ensures { result.now ≡ row_by numbers.now rows.now index }
{
    match numbers.get(index) {
        Some(number) => row(rows, *number),
        None => &[],
    }
}

/// The row of the node of an index among those that are kept of what nodes rest on.
fn rests_of<'a>(
    numbers: &[usize],
    edges: &'a [Items<usize>],
    rests: &'a Option<Vec<Items<usize>>>,
    index: usize,
) -> &'a [usize]
    ensures { result.now ≡ row_by numbers.now (rests_kept edges.now rests.now) index }
{
    match rests {
        Some(rests) => row_of(numbers, rests.as_slice(), index),
        None => row_of(numbers, edges, index),
    }
}

/// Whether the node of an index, whose number this is, is found among those of these numbers where these stand in the order of
/// their indices. Where they do not, it may be missed.
fn is_found(indices: &[usize], nodes: &[usize], number: usize, index: usize) -> bool
    ensures { IsTrue result → is_among nodes.now number ≡ true }
{
    let place = nodes.partition_point(|node| number_at(indices, *node) < index);
    match nodes.get(place) {
        Some(node) => *node == number,
        None => false,
    }
}

/// Whether the node of an index, whose number this is, is one of those of these numbers.
fn is_node(indices: &[usize], nodes: &[usize], number: usize, index: usize) -> bool
    ensures { result ≡ is_among nodes.now number }
{
    is_found(indices, nodes, number, index) || is_one(nodes, number)
}

/// Whether the node of an index is one of those of these numbers.
fn has_node(numbers: &[usize], indices: &[usize], nodes: &[usize], index: usize) -> bool
    requires numbered { IsNumbered numbers.now indices.now }
    requires within { (n : ℕ) → is_among nodes.now n ≡ true → n < length numbers.now }
    ensures { result ≡ is_among (indexed indices.now nodes.now) index }
{
    index < numbers.len() && is_node(indices, nodes, numbers[index], index)
}

/// One node more comes behind the others, which rests on all that its edges lead to but itself, and there is room for one row more.
fn make_ready(
    alloc: Global,
    sources: &mut Vec<Items<usize>>,
    rests: &mut Option<Vec<Items<usize>>>,
    edges: &[Items<usize>],
    number: usize,
    targets: &[usize],
) -> Result<(), AllocError>
    ensures same { sources.new.items ≡ sources.old.items }
    ensures room { OnOk result (vec_len sources.new < vec_capacity sources.new) }
    ensures ok { OnOk result (rests_kept (edges.now ++ targets.now ∷ []) rests.new ≡ rests_kept edges.now rests.old ++ others number targets.now ∷ []) }
    ensures err { OnErr result (rests_kept edges.now rests.new ≡ rests_kept edges.now rests.old) }
{
    sources.reserve(1)?;
    add_rests(alloc, rests, edges, number, targets)
}

/// Whether a node rests on all to which edges lead from it, so that it stands in no circle.
fn is_free(edges: &[Items<usize>], rests: &Option<Vec<Items<usize>>>, number: usize) -> bool
    ensures { IsTrue result → length (spec_targets (rests_kept edges.now rests.now) number) ≡ length (spec_targets edges.now number) }
{
    match rests {
        Some(rests) => row(rests.as_slice(), number).len() == row(edges, number).len(),
        None => true,
    }
}

/// Puts the row of a node among those that are kept of what nodes rest on, if these are, where edges lead from it to these then.
fn put_rest(rests: &mut Option<Vec<Items<usize>>>, number: usize, row: Items<usize>)
    ensures { (edges : Graph) → rests_kept (slice_set edges number row) rests.new ≡ slice_set (rests_kept edges rests.old) number row }
{
    if let Some(rows) = rests {
        if number < rows.len() {
            rows[number] = row;
        }
    }
}

impl Linked {
    /// The graph without nodes.
    pub fn new(alloc: Global) -> Linked
        ensures { result ≡ [] }
    {
        Linked {
            numbers: Vec::new(alloc),
            indices: Vec::new(alloc),
            edges: Vec::new(alloc),
            rests: None,
            sources: Vec::new(alloc),
        }
    }

    /// The graph of these edges: for each node those to which edges lead from it.
    pub fn of(alloc: Global, edges: Vec<Items<usize>>) -> Result<Linked, AllocError>
        requires { IsWhole edges.items }
        ensures { IfOk result (λ linked. linked ≡ edges.items) }
    {
        let sources = find_sources(alloc, edges.as_slice())?;
        let rests = find_rests(alloc, edges.as_slice(), sources.as_slice())?;
        let numbers = first_numbers(alloc, edges.len())?;
        let indices = first_numbers(alloc, edges.len())?;
        Ok(Linked {
            numbers,
            indices,
            edges,
            rests,
            sources,
        })
    }

    /// Those to which edges lead from a node.
    pub fn targets(&self, node: usize) -> Nodes<'_>
        ensures { result ≡ spec_targets self.now node }
    {
        let targets = row_of(self.numbers.as_slice(), self.edges.as_slice(), node);
        Nodes::of(targets, self.indices.as_slice())
    }

    /// Whether an edge leads from the one node to the other.
    pub fn has_edge(&self, from: usize, to: usize) -> bool
        ensures { result ≡ spec_has_edge self.now from to }
    {
        let targets = row_of(self.numbers.as_slice(), self.edges.as_slice(), from);
        has_node(
            self.numbers.as_slice(),
            self.indices.as_slice(),
            targets,
            to,
        )
    }

    /// Those that a node rests on.
    pub fn rests(&self, node: usize) -> Nodes<'_>
        ensures { result ≡ spec_rests self.now node }
    {
        let rests = rests_of(
            self.numbers.as_slice(),
            self.edges.as_slice(),
            &self.rests,
            node,
        );
        Nodes::of(rests, self.indices.as_slice())
    }

    /// Whether the one node rests on the other.
    pub fn rests_on(&self, from: usize, to: usize) -> bool
        ensures { result ≡ is_among (spec_rests self.now from) to }
    {
        let rests = rests_of(
            self.numbers.as_slice(),
            self.edges.as_slice(),
            &self.rests,
            from,
        );
        has_node(self.numbers.as_slice(), self.indices.as_slice(), rests, to)
    }

    /// Those from which edges lead to a node, in order, once for each edge.
    pub fn sources(&self, node: usize) -> Nodes<'_>
        requires { node < length self.now }
        ensures { result ≡ spec_sources self.now node }
    {
        let sources = row_of(self.numbers.as_slice(), self.sources.as_slice(), node);
        Nodes::of(sources, self.indices.as_slice())
    }

    /// One node more comes to an index, from which edges lead to these, and to which none leads but its own. What the others
    /// rest on and from where edges lead to them stays. Where memory is refused, all is as it was.
    pub fn add(&mut self, alloc: Global, at: usize, targets: Items<usize>) -> Result<(), AllocError>
        requires index { at ≤ length self.old }
        requires within { (v : ℕ) → is_among targets v ≡ true → v ≤ length self.old }
        ensures ok { OnOk result (self.new ≡ with_node self.old at targets) }
        ensures err { OnErr result (self.new ≡ self.old) }
    {
        let number = self.numbers.len();
        let row = numbers_then(alloc, self.numbers.as_slice(), at, targets.as_slice())?;
        self.numbers.reserve(1)?;
        self.indices.reserve(1)?;
        self.edges.reserve(1)?;
        let found = lead(
            alloc,
            self.indices.as_slice(),
            &mut self.sources,
            at,
            number,
            row.as_slice(),
        )?;
        let ready = make_ready(
            alloc,
            &mut self.sources,
            &mut self.rests,
            self.edges.as_slice(),
            number,
            row.as_slice(),
        );
        if let Err(refused) = ready {
            lead_no_more(&mut self.sources, row.as_slice(), found);
            return Err(refused);
        }
        insert_node(&mut self.numbers, &mut self.indices, at);
        push_within(&mut self.sources, Items::new(alloc));
        put_found(&mut self.sources, row.as_slice(), found);
        push_within(&mut self.edges, row);
        Ok(())
    }

    /// One node more comes to an index, from which no edge leads, and to which one leads from each node that has a mark. What the
    /// others rest on and from where edges lead to them stays. All memory is taken before the first change.
    pub fn add_used(&mut self, alloc: Global, at: usize, marks: &[bool]) -> Result<(), AllocError>
        requires index { at ≤ length self.old }
        requires parted { (u : ℕ) → get_or marks.now u false ≡ true → IsParted at (spec_targets self.old u) }
        ensures ok { OnOk result (self.new ≡ with_used_node self.old at marks.now) }
        ensures err { OnErr result (self.new ≡ self.old) }
    {
        let number = self.numbers.len();
        let users = marked_numbers(alloc, self.numbers.as_slice(), marks)?;
        let found = led_rows(
            alloc,
            self.indices.as_slice(),
            self.edges.as_slice(),
            at,
            number,
            users.as_slice(),
        )?;
        self.numbers.reserve(1)?;
        self.indices.reserve(1)?;
        self.edges.reserve(1)?;
        self.sources.reserve(1)?;
        lead_rests(
            alloc,
            self.indices.as_slice(),
            &mut self.rests,
            at,
            number,
            users.as_slice(),
        )?;
        insert_node(&mut self.numbers, &mut self.indices, at);
        push_within(&mut self.edges, Items::new(alloc));
        put_rows(&mut self.edges, users.as_slice(), found);
        push_within(&mut self.sources, users);
        Ok(())
    }

    /// One node more comes to an index, if it is found that it then stands in no circle; and whether that is so. Edges lead from it to
    /// these, and one to it from each node that has a mark. Else nothing is changed, nor where memory is refused.
    pub fn add_between(
        &mut self,
        alloc: Global,
        at: usize,
        marks: &[bool],
        targets: &[usize],
    ) -> Result<bool, AllocError>
        requires index { at ≤ length self.old }
        requires parted { (u : ℕ) → get_or marks.now u false ≡ true → IsParted at (spec_targets self.old u) }
        requires within { (v : ℕ) → is_among targets.now v ≡ true → v ≤ length self.old }
        ensures done { IfOk result (λ done. done ≡ true → self.new ≡ slice_set (with_used_node self.old at marks.now) at targets.now) }
        ensures other { IfOk result (λ done. done ≡ false → self.new ≡ self.old) }
        ensures err { OnErr result (self.new ≡ self.old) }
    {
        if leads_back(marks, at, targets) {
            return Ok(false);
        }
        let number = self.numbers.len();
        let mut numbers = with_room(alloc, self.numbers.as_slice())?;
        let mut indices = with_room(alloc, self.indices.as_slice())?;
        insert_node(&mut numbers, &mut indices, at);
        let users = marked_numbers(alloc, self.numbers.as_slice(), marks)?;
        let led = numbers_of(alloc, numbers.as_slice(), targets)?;
        let found = rows_later(
            alloc,
            indices.as_slice(),
            self.sources.as_slice(),
            at,
            number,
            led.as_slice(),
            led.as_slice(),
        )?;
        let rest = Items::from_slice(alloc, led.as_slice())?;
        self.sources.reserve(1)?;
        let done = lead_between(
            alloc,
            self.indices.as_slice(),
            &mut self.edges,
            &mut self.rests,
            at,
            users.as_slice(),
            led.as_slice(),
        )?;
        if !done {
            return Ok(false);
        }
        put_rest(&mut self.rests, number, rest);
        push_within(&mut self.sources, users);
        put_rows(&mut self.sources, led.as_slice(), found);
        self.numbers = numbers;
        self.indices = indices;
        Ok(true)
    }

    /// Edges lead from a node to these from then on, if it stands in no circle, neither before nor then; and whether that is so. Else
    /// nothing is changed. All memory is taken before the first change that stays.
    pub fn lead_to(
        &mut self,
        alloc: Global,
        node: usize,
        targets: &[usize],
    ) -> Result<bool, AllocError>
        requires node { node < length self.old }
        requires within { (v : ℕ) → is_among targets.now v ≡ true → v < length self.old }
        ensures done { IfOk result (λ done. done ≡ true → self.new ≡ slice_set self.old node targets.now) }
        ensures other { IfOk result (λ done. done ≡ false → self.new ≡ self.old) }
        ensures err { OnErr result (self.new ≡ self.old) }
    {
        let number = self.numbers[node];
        if !is_free(self.edges.as_slice(), &self.rests, number) {
            return Ok(false);
        }
        let led = numbers_of(alloc, self.numbers.as_slice(), targets)?;
        let nodes = both(alloc, row(self.edges.as_slice(), number), led.as_slice())?;
        let found = rows_later(
            alloc,
            self.indices.as_slice(),
            self.sources.as_slice(),
            node,
            number,
            nodes.as_slice(),
            led.as_slice(),
        )?;
        let kept = Items::from_slice(alloc, led.as_slice())?;
        let before = replaced(&mut self.edges, number, led);
        match is_reached(alloc, self.edges.as_slice(), number) {
            Ok(false) => {
                put_rows(&mut self.sources, nodes.as_slice(), found);
                put_rest(&mut self.rests, number, kept);
                Ok(true)
            }
            Ok(true) => {
                let _led = replaced(&mut self.edges, number, before);
                Ok(false)
            }
            Err(refused) => {
                let _led = replaced(&mut self.edges, number, before);
                Err(refused)
            }
        }
    }

    /// The same of any node, where all that nodes rest on is found anew.
    pub fn lead_anew(
        &mut self,
        alloc: Global,
        node: usize,
        targets: &[usize],
    ) -> Result<(), AllocError>
        requires node { node < length self.old }
        requires whole { IsWhole self.old }
        requires within { (v : ℕ) → is_among targets.now v ≡ true → v < length self.old }
        ensures ok { OnOk result (self.new ≡ slice_set self.old node targets.now) }
        ensures err { OnErr result (self.new ≡ self.old) }
    {
        let edges = later_edges(
            alloc,
            self.numbers.as_slice(),
            self.indices.as_slice(),
            self.edges.as_slice(),
            node,
            targets,
        )?;
        *self = Linked::of(alloc, edges)?;
        Ok(())
    }
}
