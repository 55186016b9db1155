//! Worked rows of the definitions.
#![tactic(auto, unfolding(crate::specs::Diagnostics::diags_of, occ_project::specs::Expansion::expansion, occ_project::specs::Entries::entries))]

ghost use Rattle.std.specs.Prelude.{◌≡◌, ◌≢◌, [], ◌∷◌, Some, codes};
ghost use Rattle.occ_base.specs.declared.code.Code.TheVariants.{G1, G2, G3};
ghost use Rattle.occ_base.specs.Errors.{error_at};
ghost use Rattle.occ_check.specs.Diagnostics.{diags_of, unit_faults};
ghost use Rattle.occ_check.specs.Samples.{user_of};
ghost use Rattle.occ_check.specs.declared.used.Used.TheVariants as how;
ghost use Rattle.occ_types.specs.declared.interface.Interface.{Interface};

/// A check looks at how a used unit stands: a faulty one is another input than a clean one, whatever that shows.
pub fn input_rows()
    ensures faulty { (interface : Interface) → user_of how.Faulty ≢ user_of (how.Clean interface) }
{}

/// The lone line of a unit uses another, which stands so.
pub fn use_rows()
    ensures absent { diags_of (user_of how.Absent) ≡ error_at (codes "a.occ") 1 G1 (Some (codes "b.occ")) ∷ [] }
    ensures circular { diags_of (user_of how.Circular) ≡ error_at (codes "a.occ") 1 G2 (Some (codes "b.occ")) ∷ [] }
    ensures faulty { diags_of (user_of how.Faulty) ≡ error_at (codes "a.occ") 1 G3 (Some (codes "b.occ")) ∷ [] }
    ensures clean { (interface : Interface) → unit_faults (user_of (how.Clean interface)) ≡ [] }
{}
