//! Worked rows of the definitions.
ghost use Rattle.occ_board.specs.Journal.{IsLegal, base_after, edited, is_full, nothing, refusal, replay};
ghost use Rattle.occ_board.specs.Machine.{after, finish_answer, pending_answer, start, take_answer};
ghost use Rattle.occ_board.specs.Machine.Event.{Edited, Take};
ghost use Rattle.occ_board.specs.Samples.{blank, checked_unit, entries, its_input, one_unit, opened_and_closed, using};
ghost use Rattle.occ_board.specs.Verdicts.{reads_verdict};
ghost use Rattle.occ_board.specs.declared.entry.Edit.TheVariants as edit;
ghost use Rattle.occ_board.specs.declared.entry.EditFault.TheVariants as fault;
ghost use Rattle.occ_board.specs.declared.verdict.Verdict.TheVariants as verdict;
ghost use Rattle.std.specs.Prelude.{◌≡◌, ◌∷◌, [], None, Some, codes, false, true};

/// Why an edit is refused; the revision of a file is the number of its last edit, also where that closed it.
pub fn edit_rows()
    ensures opened { refusal nothing [] (edit.Added (codes "a.occ") (blank [])) ≡ None }
    ensures twice { refusal nothing (entries (edit.Added (codes "a.occ") (blank []) ∷ [])) (edit.Added (codes "a.occ") (blank (codes "x"))) ≡ Some fault.AlreadyOpen }
    ensures other { refusal nothing (entries (edit.Added (codes "a.occ") (blank []) ∷ [])) (edit.Changed (codes "b.occ") (blank [])) ≡ Some fault.NotOpen }
    ensures closed { refusal nothing (opened_and_closed (codes "a.occ")) (edit.Removed (codes "a.occ")) ≡ Some fault.NotOpen }
    ensures again { refusal nothing (opened_and_closed (codes "a.occ")) (edit.Added (codes "a.occ") (blank [])) ≡ None }
    ensures gone { replay nothing (opened_and_closed (codes "a.occ")) ≡ edited 2 (edit.Removed (codes "a.occ")) ∷ [] }
    ensures in_order { replay nothing (entries (edit.Added (codes "b.occ") (blank []) ∷ edit.Added (codes "a.occ") (blank []) ∷ edit.Changed (codes "b.occ") (blank (codes "x")) ∷ []))
        ≡ edited 2 (edit.Added (codes "a.occ") (blank [])) ∷ edited 3 (edit.Changed (codes "b.occ") (blank (codes "x"))) ∷ [] }
    ensures legal { IsLegal nothing (opened_and_closed (codes "a.occ")) }
{}

/// A base has the names of closed files too. Edits over it go on with the numbers after its own, up to the greatest; so many of
/// them are accepted until there is another base.
pub fn base_rows()
    ensures closed { base_after nothing (opened_and_closed (codes "a.occ")) ≡ record { number = 2; files = edited 2 (edit.Removed (codes "a.occ")) ∷ [] } }
    ensures goes_on { replay (base_after nothing (opened_and_closed (codes "a.occ"))) (entries (edit.Added (codes "a.occ") (blank []) ∷ [])) ≡ edited 3 (edit.Added (codes "a.occ") (blank [])) ∷ [] }
    ensures last { refusal (record { number = 4294967295; files = [] }) [] (edit.Added (codes "a.occ") (blank [])) ≡ Some fault.JournalFull }
    ensures full { is_full 100000 100000 ≡ true }
    ensures room { is_full 99999 4294967294 ≡ false }
{}

/// The first read that is not at present as it was read decides: an earlier revision is stale, the same text or not; one
/// that is still to come, or the present one with another text, is foreign.
pub fn read_rows()
    ensures present { reads_verdict (edited 2 (edit.Added (codes "a.occ") (blank [])) ∷ []) 3 (edited 2 (edit.Changed (codes "a.occ") (blank [])) ∷ []) ≡ None }
    ensures stale { reads_verdict (edited 2 (edit.Added (codes "a.occ") (blank [])) ∷ []) 3 (edited 1 (edit.Added (codes "a.occ") (blank [])) ∷ []) ≡ Some (verdict.Stale (codes "a.occ")) }
    ensures to_come { reads_verdict (edited 2 (edit.Added (codes "a.occ") (blank [])) ∷ []) 3 (edited 4 (edit.Added (codes "a.occ") (blank [])) ∷ []) ≡ Some (verdict.Foreign (codes "a.occ")) }
    ensures forged { reads_verdict (edited 2 (edit.Added (codes "a.occ") (blank [])) ∷ []) 3 (edited 2 (edit.Added (codes "a.occ") (blank (codes "x"))) ∷ []) ≡ Some (verdict.Foreign (codes "a.occ")) }
    ensures absent { reads_verdict [] 3 (edited 0 (edit.Removed (codes "k.inc")) ∷ []) ≡ None }
    ensures first { reads_verdict [] 3 (edited 1 (edit.Removed (codes "k.inc")) ∷ edited 9 (edit.Removed (codes "j.inc")) ∷ []) ≡ Some (verdict.Stale (codes "k.inc")) }
{}

/// A unit is pending until an outcome of it is cached that has looked at what is so at present; its job is handed out once.
#[tactic(auto, unfolding(crate::specs::Done::done, occ_project_units::specs::Along::along, occ_project::specs::Expansion::expansion, occ_project::specs::Entries::entries))]
pub fn machine_rows()
    ensures nothing { pending_answer start ≡ 0 }
    ensures pending { pending_answer one_unit ≡ 1 }
    ensures job { take_answer one_unit ≡ Some its_input }
    ensures handed { take_answer (after one_unit Take) ≡ None }
    ensures accepted { finish_answer one_unit its_input ≡ verdict.Accepted }
    ensures done { pending_answer checked_unit ≡ 0 }
    ensures repeated { finish_answer checked_unit its_input ≡ verdict.Repeated }
    ensures no_job { take_answer checked_unit ≡ None }
    ensures stale { finish_answer (after checked_unit (Edited 2 (edit.Changed (codes "a.occ") (using (codes "x") (codes "b.occ"))))) its_input ≡ verdict.Stale (codes "a.occ") }
{}
