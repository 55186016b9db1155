//! Worked rows of the nearest specification, and what the nearest one is in plain words.
ghost use Rattle.occ_scope.specs.Nearest.{nearest};
ghost use Rattle.std.specs.Prelude.{None, Some, [], ◌∷◌, ◌≡◌};

/// The nearest of some names, where a is 97 and b is 98.
pub fn nearest_rows()
    ensures nothing { nearest [] (97 ∷ []) ≡ None }
    ensures inner { nearest ((97 ∷ []) ∷ (98 ∷ []) ∷ (97 ∷ []) ∷ []) (97 ∷ []) ≡ Some 2 }
    ensures outer { nearest ((97 ∷ []) ∷ (98 ∷ []) ∷ (97 ∷ []) ∷ []) (98 ∷ []) ≡ Some 1 }
    ensures another { nearest ((97 ∷ []) ∷ (98 ∷ []) ∷ (97 ∷ []) ∷ []) (97 ∷ 98 ∷ []) ≡ None }
    ensures first { nearest ((97 ∷ []) ∷ (98 ∷ []) ∷ []) (97 ∷ []) ≡ Some 0 }
{}
