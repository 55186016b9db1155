//! Worked rows of the definitions.
#![tactic(auto, unfolding(crate::specs::Entries::entries, crate::specs::Expansion::expansion))]

ghost use Rattle.occ_base.specs.Errors.{error_at};
ghost use Rattle.occ_base.specs.declared.code.Code.TheVariants.{G4, G5, G6, G7};
ghost use Rattle.occ_base.specs.Firsts.{first_indices};
ghost use Rattle.occ_project.specs.Expansion.{expansion, not_given};
ghost use Rattle.occ_project.specs.Samples.{absent_file, chain, close_at, close_in, include_at, library_at, limited, open_file, open_list, some_names, use_at, use_in};
ghost use Rattle.occ_project.specs.Uses.{units_of};
ghost use Rattle.occ_lines.specs.Listing.{listed as spec_listed};
ghost use Rattle.std.specs.Prelude.{List, None, Some, [], codes, ℕ, ◌∷◌, ◌≡◌};

/// The lines of an included file stand in the place of the directive, whose depth is added to theirs.
pub fn include_rows()
    ensures lines { (expansion (open_file (codes "a") (close_at 1 0 ∷ include_at 2 2 (codes "k") ∷ close_at 3 0 ∷ []) ∷ open_file (codes "k") (close_at 1 1 ∷ close_at 4 0 ∷ []) ∷ []) (codes "a")).lines
        ≡ close_in (codes "a") 1 0 ∷ close_in (codes "k") 1 3 ∷ close_in (codes "k") 4 2 ∷ close_in (codes "a") 3 0 ∷ [] }
    ensures twice { (expansion (open_file (codes "a") (include_at 1 1 (codes "k") ∷ include_at 2 2 (codes "k") ∷ []) ∷ open_file (codes "k") (close_at 1 0 ∷ []) ∷ []) (codes "a")).lines
        ≡ close_in (codes "k") 1 1 ∷ close_in (codes "k") 1 2 ∷ [] }
    ensures within { (expansion (open_file (codes "a") (include_at 1 1 (codes "k") ∷ []) ∷ open_file (codes "k") (include_at 2 3 (codes "j") ∷ []) ∷ open_file (codes "j") (close_at 1 5 ∷ []) ∷ []) (codes "a")).lines
        ≡ close_in (codes "j") 1 9 ∷ [] }
    ensures first { (expansion (open_file (codes "a") (close_at 1 0 ∷ []) ∷ open_file (codes "a") [] ∷ []) (codes "a")).lines ≡ close_in (codes "a") 1 0 ∷ [] }
    ensures absent { (expansion (absent_file (codes "a") ∷ []) (codes "a")).lines ≡ [] }
{}

/// The names that are looked up, each once: those of absent files too, and none that is under way.
pub fn read_rows()
    ensures once { (expansion (open_file (codes "a") (include_at 1 0 (codes "k") ∷ include_at 2 0 (codes "j") ∷ include_at 3 0 (codes "k") ∷ []) ∷ open_file (codes "j") [] ∷ []) (codes "a")).reads
        ≡ codes "a" ∷ codes "k" ∷ codes "j" ∷ [] }
    ensures itself { (expansion (open_file (codes "a") (include_at 1 0 (codes "a") ∷ []) ∷ []) (codes "a")).reads ≡ codes "a" ∷ [] }
    ensures absent { (expansion [] (codes "a")).reads ≡ codes "a" ∷ [] }
    ensures indices { first_indices (codes "b" ∷ codes "a" ∷ codes "b" ∷ codes "c" ∷ codes "a" ∷ []) ≡ codes "b" ∷ codes "a" ∷ codes "c" ∷ [] }
    ensures given { not_given (open_file (codes "a") (include_at 1 0 (codes "k") ∷ []) ∷ absent_file (codes "k") ∷ []) (codes "a") ≡ None }
    ensures missing { not_given (open_file (codes "a") (include_at 1 0 (codes "j") ∷ include_at 2 0 (codes "k") ∷ include_at 3 0 (codes "m") ∷ []) ∷ absent_file (codes "j") ∷ []) (codes "a") ≡ Some (codes "k") }
    ensures alone { not_given [] (codes "a") ≡ Some (codes "a") }
{}

/// A `#USE` is a line, which has the units that it uses.
pub fn use_rows()
    ensures lines { (expansion (open_file (codes "a") (include_at 1 0 (codes "k") ∷ use_at 2 0 (codes "b") ∷ []) ∷ open_file (codes "k") (use_at 7 0 (codes "c") ∷ []) ∷ []) (codes "a")).lines
        ≡ use_in (codes "k") 7 0 (codes "c" ∷ []) ∷ use_in (codes "a") 2 0 (codes "b" ∷ []) ∷ [] }
    ensures units { units_of (use_in (codes "a") 2 0 (codes "b" ∷ [])) ≡ codes "b" ∷ [] }
    ensures none { units_of (close_in (codes "a") 1 0) ≡ [] }
{}

/// A `#USE` of a library looks its list up: it uses the units that are listed, none of a text that is no list, and where the list is
/// not open the unit of the library's own name.
pub fn library_rows()
    ensures listed { (text : List ℕ) → spec_listed text ≡ Some (codes "q.occ" ∷ codes "s.occ" ∷ []) → (expansion (open_file (codes "a") (library_at 2 1 (codes "z") (codes "l") ∷ []) ∷ open_list (codes "l") text ∷ []) (codes "a")).lines
        ≡ use_in (codes "a") 2 1 (codes "q.occ" ∷ codes "s.occ" ∷ []) ∷ [] }
    ensures fine { (text : List ℕ) (units : List (List ℕ)) → spec_listed text ≡ Some units → (expansion (open_file (codes "a") (library_at 2 1 (codes "z") (codes "l") ∷ []) ∷ open_list (codes "l") text ∷ []) (codes "a")).faults ≡ [] }
    ensures bad { (text : List ℕ) → spec_listed text ≡ None → (expansion (open_file (codes "a") (library_at 2 1 (codes "z") (codes "l") ∷ []) ∷ open_list (codes "l") text ∷ []) (codes "a")).lines ≡ use_in (codes "a") 2 1 [] ∷ [] }
    ensures fault { (text : List ℕ) → spec_listed text ≡ None → (expansion (open_file (codes "a") (library_at 2 1 (codes "z") (codes "l") ∷ []) ∷ open_list (codes "l") text ∷ []) (codes "a")).faults ≡ error_at (codes "a") 2 G7 (Some (codes "l")) ∷ [] }
    ensures reads { (text : List ℕ) → (expansion (open_file (codes "a") (library_at 2 1 (codes "z") (codes "l") ∷ []) ∷ open_list (codes "l") text ∷ []) (codes "a")).reads ≡ codes "a" ∷ codes "l" ∷ [] }
    ensures closed { (expansion (open_file (codes "a") (library_at 2 1 (codes "z") (codes "l") ∷ []) ∷ []) (codes "a")).lines ≡ use_in (codes "a") 2 1 (codes "z" ∷ []) ∷ [] }
    ensures looked_up { (expansion (open_file (codes "a") (library_at 2 1 (codes "z") (codes "l") ∷ []) ∷ []) (codes "a")).reads ≡ codes "a" ∷ codes "l" ∷ [] }
{}

/// An include puts nothing in if its file is under way, if 16 are nested, or if it is not open, in this order.
pub fn fault_rows()
    ensures absent { (expansion (open_file (codes "a") (include_at 2 0 (codes "k") ∷ []) ∷ []) (codes "a")).faults ≡ error_at (codes "a") 2 G4 (Some (codes "k")) ∷ [] }
    ensures itself { (expansion (open_file (codes "a") (include_at 2 0 (codes "a") ∷ []) ∷ []) (codes "a")).faults ≡ error_at (codes "a") 2 G5 (Some (codes "a")) ∷ [] }
    ensures circle { (expansion (open_file (codes "a") (include_at 1 0 (codes "j") ∷ []) ∷ open_file (codes "j") (include_at 1 0 (codes "k") ∷ []) ∷ open_file (codes "k") (include_at 3 0 (codes "j") ∷ []) ∷ []) (codes "a")).faults
        ≡ error_at (codes "k") 3 G5 (Some (codes "j")) ∷ [] }
    ensures deep { (expansion (chain (some_names 17)) (1 ∷ [])).faults ≡ [] }
    ensures deeper { (expansion (chain (some_names 18)) (1 ∷ [])).faults ≡ error_at (17 ∷ []) 1 G6 (Some (18 ∷ [])) ∷ [] }
    ensures deeper_reads { (expansion (chain (some_names 18)) (1 ∷ [])).reads ≡ some_names 17 }
{}

/// The expansion ends before an entry that is one too many: that is not looked at, and an include counts as an entry.
pub fn limit_rows()
    ensures whole { (limited 3 (open_file (codes "a") (close_at 1 0 ∷ include_at 2 0 (codes "k") ∷ []) ∷ open_file (codes "k") (close_at 1 0 ∷ []) ∷ []) (codes "a")).faults ≡ [] }
    ensures inner { (limited 2 (open_file (codes "a") (close_at 1 0 ∷ include_at 2 0 (codes "k") ∷ []) ∷ open_file (codes "k") (close_at 1 0 ∷ []) ∷ []) (codes "a")).faults ≡ error_at (codes "k") 1 G6 None ∷ [] }
    ensures lines { (limited 2 (open_file (codes "a") (close_at 1 0 ∷ include_at 2 0 (codes "k") ∷ []) ∷ open_file (codes "k") (close_at 1 0 ∷ []) ∷ []) (codes "a")).lines ≡ close_in (codes "a") 1 0 ∷ [] }
    ensures include { (limited 1 (open_file (codes "a") (close_at 1 0 ∷ include_at 2 0 (codes "k") ∷ []) ∷ []) (codes "a")).faults ≡ error_at (codes "a") 2 G6 None ∷ [] }
    ensures unread { (limited 1 (open_file (codes "a") (close_at 1 0 ∷ include_at 2 0 (codes "k") ∷ []) ∷ []) (codes "a")).reads ≡ codes "a" ∷ [] }
{}
