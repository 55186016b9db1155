//! What a take and a finish come to where nothing happens between them.
ghost use Rattle.occ_board.specs.Journal.{IsBase};
ghost use Rattle.occ_board.specs.Machine.{Event, State, after, files_of, take_answer, unhanded, with_cached};
ghost use Rattle.occ_board.specs.inside.Ready.{IsAcceptable};
ghost use Rattle.occ_check.specs.Input.{Input};
ghost use Rattle.std.specs.Prelude.{◌≡◌, Some};

use super::laws::{done_law, height_law, taking_law};

/// A job that is next looks at what is so at present, and its outcome is not cached yet. Taken and finished at once it is cached,
/// and handed out no more than before.
pub fn working_law()
    ensures acceptable { (s : State) (i : Input) → IsBase s.base → take_answer s ≡ Some i → IsAcceptable (files_of s) s.cached i }
    ensures after { (s : State) (i : Input) → IsBase s.base → take_answer s ≡ Some i → after (after s Event.Take) (Event.Finish i) ≡ record { base = s.base; journal = s.journal; cached = with_cached s.cached i; handed = unhanded s.handed i } }
{
    done_law();
    height_law();
    taking_law();
}
