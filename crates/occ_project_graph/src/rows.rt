//! Worked rows: circles, edges to oneself, an inserted node.
ghost use Rattle.std.specs.Prelude.{[], ◌∷◌, ◌≡◌, true, false};
ghost use Rattle.occ_project_graph.specs.Adding.{with_node};
ghost use Rattle.occ_project_graph.specs.Graph.{all_rests, is_circular, reaches};

/// Nodes 0, 1 and 2 in a circle, 3 with an edge to 0.
pub fn circle_rows()
    ensures inside { is_circular ((1 ∷ []) ∷ (2 ∷ []) ∷ (0 ∷ []) ∷ (0 ∷ []) ∷ []) 0 1 ≡ true }
    ensures into { is_circular ((1 ∷ []) ∷ (2 ∷ []) ∷ (0 ∷ []) ∷ (0 ∷ []) ∷ []) 3 0 ≡ false }
    ensures round { reaches ((1 ∷ []) ∷ (2 ∷ []) ∷ (0 ∷ []) ∷ (0 ∷ []) ∷ []) 1 1 ≡ true }
    ensures back { reaches ((1 ∷ []) ∷ (2 ∷ []) ∷ (0 ∷ []) ∷ (0 ∷ []) ∷ []) 0 3 ≡ false }
    ensures rests { all_rests ((1 ∷ []) ∷ (2 ∷ []) ∷ (0 ∷ []) ∷ (0 ∷ []) ∷ []) ≡ [] ∷ [] ∷ [] ∷ (0 ∷ []) ∷ [] }
{}

/// Node 0 with an edge to itself and two to 1, which has none.
pub fn edge_rows()
    ensures itself { is_circular ((0 ∷ 1 ∷ 1 ∷ []) ∷ [] ∷ []) 0 0 ≡ true }
    ensures rests { all_rests ((0 ∷ 1 ∷ 1 ∷ []) ∷ [] ∷ []) ≡ (1 ∷ 1 ∷ []) ∷ [] ∷ [] }
{}

/// A node comes before two that lead to each other, and leads to the first of them: that has index 1 from then on.
pub fn adding_rows()
    ensures graph { with_node ((1 ∷ []) ∷ (0 ∷ []) ∷ []) 0 (1 ∷ []) ≡ (1 ∷ []) ∷ (2 ∷ []) ∷ (1 ∷ []) ∷ [] }
    ensures rests { all_rests (with_node ((1 ∷ []) ∷ (0 ∷ []) ∷ []) 0 (1 ∷ [])) ≡ (1 ∷ []) ∷ [] ∷ [] ∷ [] }
    ensures between { with_node ((1 ∷ []) ∷ (0 ∷ []) ∷ []) 1 (1 ∷ []) ≡ (2 ∷ []) ∷ (1 ∷ []) ∷ (0 ∷ []) ∷ [] }
{}
