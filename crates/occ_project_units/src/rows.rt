//! Worked rows of the definitions.
#![tactic(auto, unfolding(occ_project::specs::Entries::entries, occ_project::specs::Expansion::expansion))]

ghost use Rattle.occ_project.specs.Samples.{absent_file, include_at, open_file, use_at};
ghost use Rattle.occ_project_units.specs.Indices.{is_circular, rest_units, standing_of};
ghost use Rattle.occ_project_units.specs.Project.{file_of, put};
ghost use Rattle.occ_project_units.specs.Samples.{circle_of_three};
ghost use Rattle.occ_project_units.specs.Units.{read_names, unit_reads, used_units};
ghost use Rattle.occ_project_units.specs.declared.standing.Standing.TheVariants.{Absent, Below, Circular};
ghost use Rattle.std.specs.Prelude.{[], codes, false, true, ◌∷◌, ◌≡◌};

/// A file comes to its place among the names, or in the place of the one of its name.
pub fn project_rows()
    ensures between { put (open_file (codes "a.occ") [] ∷ open_file (codes "c.occ") [] ∷ []) (absent_file (codes "b.occ")) ≡ open_file (codes "a.occ") [] ∷ absent_file (codes "b.occ") ∷ open_file (codes "c.occ") [] ∷ [] }
    ensures again { put (open_file (codes "a.occ") [] ∷ open_file (codes "c.occ") [] ∷ []) (absent_file (codes "c.occ")) ≡ open_file (codes "a.occ") [] ∷ absent_file (codes "c.occ") ∷ [] }
    ensures unknown { file_of (open_file (codes "a.occ") [] ∷ []) (codes "b.occ") ≡ absent_file (codes "b.occ") }
{}

/// What a unit reads, and what it uses, in order of name: what uses it does not matter, and no other file uses any.
pub fn unit_rows()
    ensures reads { read_names (open_file (codes "a.occ") (include_at 1 0 (codes "k.inc") ∷ include_at 2 0 (codes "j.inc") ∷ []) ∷ open_file (codes "j.inc") [] ∷ []) (codes "a.occ") ≡ codes "a.occ" ∷ codes "k.inc" ∷ codes "j.inc" ∷ [] }
    ensures given { unit_reads (open_file (codes "a.occ") (include_at 1 0 (codes "k.inc") ∷ []) ∷ open_file (codes "j.inc") [] ∷ []) (codes "a.occ") ≡ open_file (codes "a.occ") (include_at 1 0 (codes "k.inc") ∷ []) ∷ absent_file (codes "k.inc") ∷ [] }
    ensures absent { read_names [] (codes "a.occ") ≡ codes "a.occ" ∷ [] }
    ensures uses { used_units (open_file (codes "a.occ") (use_at 1 0 (codes "c.occ") ∷ include_at 2 0 (codes "k.inc") ∷ use_at 3 0 (codes "c.occ") ∷ []) ∷ open_file (codes "k.inc") (use_at 1 0 (codes "b.occ") ∷ []) ∷ []) (codes "a.occ") ≡ codes "b.occ" ∷ codes "c.occ" ∷ [] }
    ensures other { used_units (open_file (codes "k.inc") (use_at 1 0 (codes "b.occ") ∷ []) ∷ []) (codes "k.inc") ≡ [] }
{}

/// Of three units in a circle each uses the next in it, and one that uses one of them stands outside.
pub fn circle_rows()
    ensures first { is_circular circle_of_three (codes "a.occ") (codes "b.occ") ≡ true }
    ensures second { is_circular circle_of_three (codes "b.occ") (codes "c.occ") ≡ true }
    ensures third { is_circular circle_of_three (codes "c.occ") (codes "a.occ") ≡ true }
    ensures outside { is_circular circle_of_three (codes "d.occ") (codes "a.occ") ≡ false }
    ensures not_used { is_circular circle_of_three (codes "a.occ") (codes "c.occ") ≡ false }
    ensures itself { is_circular (open_file (codes "a.occ") (use_at 1 0 (codes "a.occ") ∷ []) ∷ []) (codes "a.occ") (codes "a.occ") ≡ true }
{}

/// How used units stand to their user.
pub fn standing_rows()
    ensures circular { standing_of circle_of_three (codes "a.occ") (codes "b.occ") ≡ Circular }
    ensures below { standing_of circle_of_three (codes "d.occ") (codes "a.occ") ≡ Below }
    ensures absent { standing_of (open_file (codes "a.occ") (use_at 1 0 (codes "b.occ") ∷ []) ∷ absent_file (codes "b.occ") ∷ []) (codes "a.occ") (codes "b.occ") ≡ Absent }
    ensures rests { rest_units circle_of_three (codes "d.occ") ≡ codes "a.occ" ∷ [] }
    ensures no_rest { rest_units circle_of_three (codes "a.occ") ≡ [] }
{}
