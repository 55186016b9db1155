//! That an expansion looks at its reads alone, that names of used units are names of units, and what recursion over units
//! gives.
ghost use Rattle.occ_base.specs.FileName.{is_unit};
ghost use Rattle.occ_project_graph.specs.Graph.{has_edge, is_among as spec_is_among, rests};
ghost use Rattle.occ_project.specs.Entries.{is_among};
ghost use Rattle.occ_project.specs.Expansion.{expansion, not_given};
ghost use Rattle.occ_project.specs.Reads.{open_source};
ghost use Rattle.occ_project.specs.declared.reads.Read.{Read};
ghost use Rattle.occ_project_units.specs.Along.{IsLocal, along, name_at};
ghost use Rattle.occ_project_units.specs.Indices.{graph_of, is_circular, readers_at, users_at};
ghost use Rattle.occ_project_units.specs.Project.{IsProject, file_of, put};
ghost use Rattle.occ_project_units.specs.Spelled.{AreSpelled, IsSpelled};
ghost use Rattle.occ_project_units.specs.Units.{IsCircular, Uses, read_names, unit_reads};
ghost use Rattle.std.specs.Prelude.{List, None, ℕ, cond, length, true, ◌≡◌, ◌<◌, ◌↔◌};
ghost use Rattle.std.specs.Str.{bytes_eq};

use occ_project_graph::laws;

/// An expansion looks at nothing but its reads: over other files, among which these have the same texts or are absent
/// as well, it is the same. The unit is one of them. So a unit has the same expansion over its reads alone.
pub fn reads_law()
    ensures alone { (files others : List Read) (unit : List ℕ) → ((name : List ℕ) → is_among (expansion files unit).reads name ≡ true → open_source others name ≡ open_source files name) → expansion others unit ≡ expansion files unit }
    ensures itself { (files : List Read) (unit : List ℕ) → is_among (expansion files unit).reads unit ≡ true }
    ensures own { (files : List Read) (unit : List ℕ) → is_unit unit ≡ true → expansion (unit_reads files unit) unit ≡ expansion files unit }
    ensures given { (files : List Read) (unit : List ℕ) → is_unit unit ≡ true → not_given (unit_reads files unit) unit ≡ None }
{}

/// A file that is put into a project is the file of its name from then on, and those of other names stay. The names stay in
/// order. If the files had the lines that their texts spell, and this one has, so it is then.
pub fn put_law()
    ensures in_order { (files : List Read) (file : Read) → IsProject files → IsProject (put files file) }
    ensures files { (files : List Read) (file : Read) (name : List ℕ) → file_of (put files file) name ≡ cond (bytes_eq file.name name) file (file_of files name) }
    ensures spelled { (files : List Read) (file : Read) → AreSpelled files → IsSpelled file.source → AreSpelled (put files file) }
{}

/// What a unit uses has the name of a unit, where the files have the lines that their texts spell.
pub fn names_law()
    ensures { (files : List Read) (u v : List ℕ) → AreSpelled files → Uses files u v → is_unit v ≡ true }
{}

/// The test for a circle says whether a unit uses another in one.
pub fn circle_law()
    ensures { (files : List Read) (u v : List ℕ) → (is_circular files u v ≡ true) ↔ IsCircular files u v }
{
    laws::circle_law();
}

/// What recursion gives of a unit is what the step gives of it from what recursion gives of others, for every step that
/// asks only for units that the unit rests on.
pub fn along_law<A>()
    ensures { (files : List Read) (step : List ℕ → (List ℕ → A) → A) (base : A) → IsProject files → IsLocal files step → (u : List ℕ) → along files step base u ≡ step u (along files step base) }
{
    laws::along_law::<A>();
}

/// The users of the unit at an index are the indices of those that use it, those among them that rest on it, and no others.
pub fn users_law()
    ensures users { (files : List Read) (p q : ℕ) → (spec_is_among (users_at files q) p ≡ true) ↔ (has_edge (graph_of files) p q ≡ true) }
    ensures rests { (files : List Read) (p q : ℕ) → spec_is_among (rests (graph_of files) p) q ≡ true → spec_is_among (users_at files q) p ≡ true }
    ensures within { (files : List Read) (p q : ℕ) → spec_is_among (users_at files q) p ≡ true → p < length files }
{
    laws::sources_law();
}

/// The readers of the file at an index are the indices of the files whose expansions look it up, and no others.
pub fn readers_law()
    ensures readers { (files : List Read) (p q : ℕ) → IsProject files → p < length files → q < length files → spec_is_among (readers_at files q) p ≡ is_among (read_names files (name_at files p)) (name_at files q) }
    ensures within { (files : List Read) (p q : ℕ) → spec_is_among (readers_at files q) p ≡ true → p < length files }
{
    laws::sources_law();
}
