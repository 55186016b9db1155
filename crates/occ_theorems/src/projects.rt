//! Laws of projects: units that use one another, and what a report of them has.
ghost use Rattle.occ_base.specs.Order.{diag_order};
ghost use Rattle.occ_base.specs.declared.code.Code.TheVariants.{G2};
ghost use Rattle.occ_base.specs.declared.diag.Diag.{Diag};
ghost use Rattle.occ_check.specs.Diagnostics.{diags_of, interface_of, unit_faults};
ghost use Rattle.occ_check.specs.Order.{in_order};
ghost use Rattle.occ_project.specs.Uses.{names_in_order};
ghost use Rattle.occ_project_graph.specs.Along.{done, done_step};
ghost use Rattle.occ_project_graph.specs.Graph.{Graph};
ghost use Rattle.occ_project.specs.Reads.{name_cmp};
ghost use Rattle.occ_project.specs.declared.reads.Read.{Read};
ghost use Rattle.occ_check.specs.Checks.{diags, input, interface};
ghost use Rattle.occ_check.specs.Report.{AreReporting};
ghost use Rattle.occ_project_units.specs.Project.{IsProject};
ghost use Rattle.occ_project_units.specs.Units.{IsCircular};
ghost use Rattle.occ_base.specs.FileName.{is_unit};
ghost use Rattle.occ_project.specs.Expansion.{expansion};
ghost use Rattle.occ_project.specs.declared.expanded.ExpandedLine.{ExpandedLine};
ghost use Rattle.occ_theorems.specs.Anew.{IsOfCircle, IsUseOf, circle_at, diags_anew, interface_anew};
ghost use Rattle.std.specs.List.{Contains};
ghost use Rattle.std.specs.List.Sorted.{IsStrictlySortedBy};
ghost use Rattle.occ_theorems.specs.Orders.{by_parts};
ghost use Rattle.std.specs.declared.cmp.Ordering.TheVariants.{Equal};
ghost use Rattle.std.specs.Prelude.{Bool, List, Some, [], true, ◌↔◌, ℕ, ◌≡◌};

use occ_check::laws;
use occ_project_units::laws::{circle_law, reads_law};

/// Of a project, whose files stand in order and once each, the rules give for a unit what they give for the input of its check.
/// So units are checked apart from each other, in any order and by any worker.
pub fn input_law()
    ensures diags { (files : List Read) (u : List ℕ) → IsProject files → diags files u ≡ diags_of (input files u) }
    ensures interface { (files : List Read) (u : List ℕ) → IsProject files → interface files u ≡ interface_of (input files u) }
{
    laws::input_law();
}

/// The diagnostics and the interface of a unit are said by its own expansion, by how the units stand there that it uses, and by what
/// these show. Its input has enough of the project to say the same.
pub fn anew_law()
    ensures diags { (files : List Read) (u : List ℕ) → IsProject files → is_unit u ≡ true → diags files u ≡ diags_anew files u }
    ensures interface { (files : List Read) (u : List ℕ) → IsProject files → is_unit u ≡ true → interface files u ≡ interface_anew files u }
    ensures input { (files : List Read) (u : List ℕ) → is_unit u ≡ true → diags_of (input files u) ≡ diags_anew files u }
{
    reads_law();
    input_law();
}

/// A unit that uses another in a circle has a G2 with its name at each line that uses it, and beside faults of files, lines or uses
/// no other G2. So a circle of `#USE` is never passed over, and beside such faults none is made up.
pub fn circular_use_law()
    ensures named { (files : List Read) (u v : List ℕ) → IsProject files → IsCircular files u v → AreReporting (diags files u) G2 v }
    ensures placed { (files : List Read) (u v : List ℕ) (line : ExpandedLine) → IsProject files → IsCircular files u v → Contains (expansion files u).lines line → IsUseOf line v → Contains (diags files u) (circle_at line v) }
    ensures only { (files : List Read) (u v : List ℕ) → IsProject files → (unit_faults (input files u) ≡ [] → ⊥) → AreReporting (diags files u) G2 v → IsCircular files u v }
    ensures at_lines { (files : List Read) (u v : List ℕ) (d : Diag) → IsProject files → (unit_faults (input files u) ≡ [] → ⊥) → Contains (diags files u) d → d.code ≡ G2 → d.name ≡ Some v → IsOfCircle files u v d }
{
    circle_law();
    reads_law();
    input_law();
}

/// A node of a graph is done exactly where it is good and all that it rests on are done.
/// If no flag is wrong and none is missing, exactly the done nodes are flagged. Where more is good, no less is done.
pub fn done_law()
    ensures step { (g : Graph) (good : ℕ → Bool) (u : ℕ) → done g good u ≡ done_step g good u (done g good) }
    ensures only { (g : Graph) (good f : ℕ → Bool) → ((u : ℕ) → f u ≡ true → done g good u ≡ true) → ((u : ℕ) → done_step g good u f ≡ true → f u ≡ true) → (u : ℕ) → f u ≡ done g good u }
    ensures more { (g : Graph) (good better : ℕ → Bool) → ((u : ℕ) → good u ≡ true → better u ≡ true) → (u : ℕ) → done g good u ≡ true → done g better u ≡ true }
{}

/// Diagnostics and names that were put in order rise strictly, whatever was found, and of diagnostics none is lost. They are ordered
/// by file, line, code, grade and name. So each stands once, and two lists of the same items are one.
#[tactic(auto, using(crate::proofs::Rising::diags_rise, crate::proofs::Rising::names_rise, crate::proofs::Alone::parts))]
pub fn order_law()
    ensures parts { (d e : Diag) → diag_order d e ≡ by_parts d e }
    ensures alone { (d e : Diag) → diag_order d e ≡ Equal → d ≡ e }
    ensures kept { (ds : List Diag) (d : Diag) → Contains (in_order ds) d ↔ Contains ds d }
    ensures diags { (ds : List Diag) → IsStrictlySortedBy diag_order (in_order ds) }
    ensures names { (ns : List (List ℕ)) → IsStrictlySortedBy name_cmp (names_in_order ns) }
{}
