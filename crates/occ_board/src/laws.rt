//! Laws of the machine.
ghost use Rattle.occ_board.specs.Done.{NoneIsHanded, done, done_step, cached_of};
ghost use Rattle.occ_board.specs.Journal.{IsBase, base_after, nothing, replay};
ghost use Rattle.occ_board.specs.Machine.{Event, State, after, files_of, finish_answer, pending_answer, report_answer, take_answer};
ghost use Rattle.occ_board.specs.declared.base.Base.{Base as ABase};
ghost use Rattle.occ_board.specs.declared.entry.Entry.{Entry as AnEntry};
ghost use Rattle.occ_board.specs.declared.report.Shown.TheVariants as shown;
ghost use Rattle.occ_board.specs.declared.verdict.Verdict.TheVariants as verdict;
ghost use Rattle.occ_check.specs.Input.{Input};
ghost use Rattle.occ_project.specs.Entries.{is_among};
ghost use Rattle.occ_project.specs.declared.reads.Read.{Read};
ghost use Rattle.occ_check.specs.Checks.{input};
ghost use Rattle.occ_check.specs.Report.{whole_report};
ghost use Rattle.occ_project_units.specs.Indices.{rest_units};
ghost use Rattle.occ_project_units.specs.Project.{IsProject};
ghost use Rattle.occ_project_units.specs.Spelled.{AreSpelled};
ghost use Rattle.std.specs.Option.{is_some};
ghost use Rattle.std.specs.Prelude.{◌≡◌, ◌<◌, ℕ, List, None, Some, map, true};

use occ_project_units::laws::{along_law, names_law, put_law};

/// What edits make of a base is a base, and so is what a state has as its base after any event. Before any edit there is one
/// base alone.
pub fn base_law()
    ensures only { (base : ABase) → IsBase base → base.number ≡ 0 → base ≡ nothing }
    ensures later { (base : ABase) (es : List AnEntry) → IsBase base → IsBase (base_after base es) }
    ensures after { (s : State) (event : Event) → IsBase s.base → IsBase (after s event).base }
{}

/// With no unit pending the report is the report from nothing.
pub fn report_law()
    ensures { (s : State) → pending_answer s ≡ 0 → report_answer s ≡ map (λ row. record { unit = row.0; shown = shown.Done row.1 }) (whole_report (files_of s)) }
{}

/// The files that edits make of a base stand in order of name. A unit is done exactly if it is open, its present input is the one
/// that is cached of it, and all units that it rests on are done.
pub fn done_law()
    ensures project { (base : ABase) (es : List AnEntry) → IsBase base → IsProject (replay base es) }
    ensures done { (files : List Read) (cached : List Input) (u : List ℕ) → IsProject files → done files cached u ≡ done_step files cached u (done files cached) }
{
    put_law();
    along_law::<bool>();
}

/// Units have heights: each unit is higher than those that it rests on.
pub fn height_law()
    ensures { (files : List Read) → IsProject files → (height : List ℕ → ℕ) × ((u v : List ℕ) → is_among (rest_units files u) v ≡ true → height v < height u) }
{
    along_law::<usize>();
}

/// Of a unit that is done the present input is cached.
pub fn cached_law()
    ensures { (files : List Read) (cached : List Input) (u : List ℕ) → IsProject files → done files cached u ≡ true → cached_of cached u ≡ Some (input files u) }
{
    done_law();
}

/// Where a unit is pending, and no unit that is pending is handed out with its present input, there is a job: of the units
/// that are pending one rests on none that is. The files have the lines that their texts spell, as those of a board have.
pub fn ready_law()
    ensures { (s : State) → IsBase s.base → AreSpelled (files_of s) → 0 < pending_answer s → NoneIsHanded (files_of s) s.cached s.handed → is_some (take_answer s) ≡ true }
{
    names_law();
    done_law();
    height_law();
}

/// A job that is taken and finished at once is accepted, and the number of pending units falls. With none pending there is
/// no job.
pub fn taking_law()
    ensures accepted { (s : State) (i : Input) → IsBase s.base → take_answer s ≡ Some i → finish_answer (after s Event.Take) i ≡ verdict.Accepted }
    ensures fewer { (s : State) (i : Input) → IsBase s.base → take_answer s ≡ Some i → pending_answer (after (after s Event.Take) (Event.Finish i)) < pending_answer s }
    ensures none { (s : State) → pending_answer s ≡ 0 → take_answer s ≡ None }
{
    done_law();
    height_law();
}
