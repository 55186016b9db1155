//! That the tests for ways and circles mean lists of edges, and that recursion along what nodes rest on has one solution.
ghost use Rattle.std.specs.Prelude.{◌≡◌, ◌↔◌, ℕ, true};
ghost use Rattle.occ_project_graph.specs.Along.{IsLocal, along};
ghost use Rattle.occ_project_graph.specs.Graph.{Graph, IsCircular, Reaches, has_edge, is_among, is_circular, reaches};
ghost use Rattle.occ_project_graph.specs.Sources.{sources};

/// The test for a way says whether edges lead from the one node to the other, and the test for a circle whether an edge
/// stands in one.
pub fn circle_law()
    ensures way { (g : Graph) (u v : ℕ) → (reaches g u v ≡ true) ↔ Reaches g u v }
    ensures circle { (g : Graph) (u v : ℕ) → (is_circular g u v ≡ true) ↔ IsCircular g u v }
{}

/// What recursion gives at a node is what the step gives there from what recursion gives elsewhere, and nothing else is
/// so: for every step that asks only for nodes that the node rests on.
pub fn along_law<A>()
    ensures step { (g : Graph) (step : ℕ → (ℕ → A) → A) (base : A) → IsLocal g step → (u : ℕ) → along g step base u ≡ step u (along g step base) }
    ensures only { (g : Graph) (step : ℕ → (ℕ → A) → A) (base : A) → IsLocal g step → (f : ℕ → A) → ((u : ℕ) → f u ≡ step u f) → (u : ℕ) → f u ≡ along g step base u }
{}

/// A graph that is turned round has an edge for each that it had, the other way, and no other.
pub fn sources_law()
    ensures { (g : Graph) (u v : ℕ) → (is_among (sources g v) u ≡ true) ↔ (has_edge g u v ≡ true) }
{}
