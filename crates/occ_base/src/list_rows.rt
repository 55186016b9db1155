//! Worked rows: lists with a part that is missing.
ghost use Rattle.std.specs.Prelude.{◌≡◌, List, None, Some, codes, ℕ};
ghost use Rattle.occ_base.specs.Lists.{joined, one_part};

/// A list with another one after it; with a part that is not there, and after one, no list is.
pub fn list_rows()
    ensures both { joined (Some (codes "a")) (Some (codes "b")) ≡ Some (codes "ab") }
    ensures following { (xs : List ℕ) → joined (Some xs) (one_part None) ≡ None }
    ensures front { (xs : List ℕ) → joined None (Some xs) ≡ None }
{}
