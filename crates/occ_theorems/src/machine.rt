//! Laws of the machine: what its definitions say of any state, without a program.
ghost use Rattle.occ_board.specs.Done.{done};
ghost use Rattle.occ_board.specs.Edits.{IsApart};
ghost use Rattle.occ_board.specs.Journal.{IsBase, edited};
ghost use Rattle.occ_board.specs.Machine.{Event, IsWork, State, accepted_number, after, after_all, files_of, finish_answer, pending_answer, start};
ghost use Rattle.occ_board.specs.Same.{same_input, same_used};
ghost use Rattle.occ_board.specs.declared.entry.Edit.{Edit as AnEdit};
ghost use Rattle.occ_board.specs.declared.verdict.Verdict.TheVariants as verdict;
ghost use Rattle.occheck_commands.specs.Says.{ScriptSays};
ghost use Rattle.occheck_commands.specs.Script.{Script, script_of};
ghost use Rattle.occ_check.specs.Checks.{input};
ghost use Rattle.occ_check.specs.Input.{Input};
ghost use Rattle.occ_check.specs.declared.used.UsedUnit.{UsedUnit};
ghost use Rattle.occheck_script.specs.Settling.{Settles, settled};
ghost use Rattle.occ_project_units.specs.Spelled.{AreSpelled};
ghost use Rattle.occ_theorems.specs.Reached.{IsSound};
ghost use Rattle.std.specs.List.{AllByRecursion};
ghost use Rattle.std.specs.Prelude.{List, [], true, ℕ, ◌+◌, ◌<◌, ◌↔◌, ◌≡◌, ◌≤◌};

use occ_board::laws::{base_law, done_law, height_law, ready_law, taking_law};
use occ_check::Checked;
use occ_forms::source_law;
use occ_project_units::laws::{along_law, circle_law, put_law, reads_law};

/// The bytes of a script say the commands and the fault that are found in them, and nothing else.
/// So no script can be read in two ways.
pub fn script_law()
    ensures found { (bytes : List ℕ) → ScriptSays bytes (script_of bytes) }
    ensures only { (bytes : List ℕ) (script : Script) → ScriptSays bytes script → script ≡ script_of bytes }
{}

/// Whatever the events are, the base is what legal journals made of nothing, one after the other, and the journal is legal over it.
/// So no edit stands in a journal, present or cut off, that should have been refused.
pub fn sound_law()
    ensures { (es : List Event) → IsSound (after_all start es) }
{}

/// The tests for inputs and for used units answer exactly whether two are one.
/// So an outcome counts for the input that was checked, and for no other.
#[tactic(auto, using(occ_board::proofs::Trees::inputs_are_one, occ_board::proofs::Trees::used_are_one))]
pub fn same_input_law()
    ensures inputs { (i j : Input) → (same_input i j ≡ true) ↔ (i ≡ j) }
    ensures used { (a b : UsedUnit) → (same_used a b ≡ true) ↔ (a ≡ b) }
{}

/// Only an edit or an accepted outcome changes the number of pending units.
/// So nothing else that is asked of a board brings work back.
pub fn pending_number_law()
    ensures take { (s : State) → pending_answer (after s Event.Take) ≡ pending_answer s }
    ensures abandon { (s : State) (i : Input) → pending_answer (after s (Event.Abandon i)) ≡ pending_answer s }
    ensures judged { (s : State) (i : Input) → (finish_answer s i ≡ verdict.Accepted → ⊥) → pending_answer (after s (Event.Finish i)) ≡ pending_answer s }
    ensures checkpoint { (s : State) → pending_answer (after s Event.Checkpoint) ≡ pending_answer s }
    ensures report { (s : State) → pending_answer (after s Event.Report) ≡ pending_answer s }
    ensures pending { (s : State) → pending_answer (after s Event.Pending) ≡ pending_answer s }
{}

/// Work alone lowers the number of pending units by the number of accepted outcomes, at least.
/// So work ends: no more outcomes are accepted than units were pending.
pub fn work_law()
    ensures { (s : State) (es : List Event) → IsBase s.base → AreSpelled (files_of s) → AllByRecursion IsWork es → pending_answer (after_all s es) + accepted_number s es ≤ pending_answer s }
{
    base_law();
    source_law();
    reads_law();
    done_law();
    height_law();
}

/// A board settles: after at most as many jobs as units are pending, there is none to take.
/// Where no worker has a job before, no unit is pending then, so a script that settles gets the whole report.
pub fn settling_law()
    ensures settles { (s : State) → IsBase s.base → Settles s (settled s) }
    ensures done { (s : State) → IsBase s.base → AreSpelled (files_of s) → s.handed ≡ [] → pending_answer (settled s) ≡ 0 }
{
    taking_law();
    ready_law();
    same_input_law();
}

/// An edit of a file changes neither the input of a unit nor whether it is done, where the file does not concern the unit.
/// A file concerns a unit that reads it or reaches a unit that does. So other units are not checked again.
pub fn edit_apart_law()
    ensures input { (s : State) (session : ℕ) (e : AnEdit) (u : List ℕ) → IsBase s.base → IsApart (files_of s) (edited 0 e).name u → input (files_of (after s (Event.Edited session e))) u ≡ input (files_of s) u }
    ensures done { (s : State) (session : ℕ) (e : AnEdit) (u : List ℕ) → IsBase s.base → IsApart (files_of s) (edited 0 e).name u → done (files_of (after s (Event.Edited session e))) s.cached u ≡ done (files_of s) s.cached u }
{
    put_law();
    reads_law();
    circle_law();
    done_law();
    height_law();
    along_law::<Checked>();
}
