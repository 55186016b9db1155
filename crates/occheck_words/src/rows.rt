//! Words and what they ask for, worked out.
ghost use Rattle.occheck_words.specs.Line.{asked, steps, workers};
ghost use Rattle.std.specs.Prelude.{◌≡◌, ◌∷◌, [], None, Some, codes};

/// One script, step by step.
#[tactic(auto, using(crate::proofs::Samples::one_script))]
pub fn steps_row()
    ensures { asked (codes "--steps" ∷ codes "one" ∷ []) ≡ Some (steps (codes "one")) }
{}

/// Sessions of two scripts beside two workers; the words stand in any order.
#[tactic(auto, using(crate::proofs::Samples::two_scripts, crate::proofs::Samples::other_order))]
pub fn workers_row()
    ensures option_first { asked (codes "--workers" ∷ codes "2" ∷ codes "one" ∷ codes "-" ∷ []) ≡ Some (workers 2 (codes "one" ∷ codes "-" ∷ [])) }
    ensures script_first { asked (codes "one" ∷ codes "--workers=+2" ∷ codes "-" ∷ []) ≡ Some (workers 2 (codes "one" ∷ codes "-" ∷ [])) }
{}

/// Both, neither, a number of workers that is none, help, and standard input twice ask for nothing.
#[tactic(auto, using(crate::proofs::Samples::both, crate::proofs::Samples::neither, crate::proofs::Samples::no_number, crate::proofs::Samples::help, crate::proofs::Samples::twice))]
pub fn refused_row()
    ensures both { asked (codes "--steps" ∷ codes "--workers" ∷ codes "2" ∷ codes "one" ∷ []) ≡ None }
    ensures neither { asked (codes "one" ∷ []) ≡ None }
    ensures no_number { asked (codes "--workers" ∷ codes "two" ∷ codes "one" ∷ []) ≡ None }
    ensures help { asked (codes "--help" ∷ []) ≡ None }
    ensures twice { asked (codes "--workers" ∷ codes "2" ∷ codes "-" ∷ codes "-" ∷ []) ≡ None }
{}
