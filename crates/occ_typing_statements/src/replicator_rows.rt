//! Worked rows: constants, R1 and R2, how often lines are repeated, the index.
ghost use Rattle.std.specs.Prelude.{[], ◌≡◌, None, Some, codes, false, negsuc, pos, true};
ghost use Rattle.occ_base.specs.declared.code.Code.TheVariants as code;
ghost use Rattle.occ_scope.specs.declared.meaning.Access.TheVariants as access;
ghost use Rattle.occ_scope.specs.declared.meaning.Meaning.TheVariants as m;
ghost use Rattle.occ_typing_operands.specs.Settling.{int, known, silent};
ghost use Rattle.occ_types.specs.declared.value.Value.TheVariants as v;
ghost use Rattle.occ_typing_statements.specs.Bounds.{constant, constants};
ghost use Rattle.occ_typing_statements.specs.Counting.{counted, named, parallel_faults, uncounted};
ghost use Rattle.occ_typing_statements.specs.Replicating.{faults_of, index_of, read_of};
ghost use Rattle.occ_typing_statements.specs.declared.replicating.Replicating.TheVariants as by;

/// The constants of a base 0 and a count 4; of a count -1, and of a base that is not constant, there are none.
pub fn constant_rows()
    ensures known { constants (Some (pos 0)) (Some (pos 4)) ≡ Some (record { base = pos 0; count = 4 }) }
    ensures negative { constants (Some (pos 0)) (Some (negsuc 0)) ≡ None }
    ensures varying { constants (constant (known int None)) (Some (pos 4)) ≡ None }
    ensures number { constant (known int (Some (v.Int (pos 4)))) ≡ Some (pos 4) }
{}

/// A `PAR` of 0, 1, 256 and 257, where nothing is replicated round it, and one that is not constant; of 16 where the lines
/// round it stand 256 times, and of 17.
pub fn parallel_rows()
    ensures zero { parallel_faults (codes "i") 1 (Some (record { base = pos 0; count = 0 })) ≡ [] }
    ensures one { parallel_faults (codes "i") 1 (Some (record { base = pos 0; count = 1 })) ≡ [] }
    ensures most { parallel_faults (codes "i") 1 (Some (record { base = pos 0; count = 256 })) ≡ [] }
    ensures more { parallel_faults (codes "i") 1 (Some (record { base = pos 0; count = 257 })) ≡ named code.R1 (codes "i") }
    ensures varying { parallel_faults (codes "i") 1 None ≡ named code.R1 (codes "i") }
    ensures within { parallel_faults (codes "j") 256 (Some (record { base = pos 0; count = 16 })) ≡ [] }
    ensures over { parallel_faults (codes "j") 256 (Some (record { base = pos 0; count = 17 })) ≡ named code.R2 (codes "j") }
{}

/// How often lines stand under a replicator of 0, of 257, of 16 within 256, and of 17 there, which is not known.
pub fn counting_rows()
    ensures zero { counted 4 (Some (record { base = pos 0; count = 0 })) ≡ record { known = Some (record { base = pos 0; count = 0 }); rounds = 4 } }
    ensures more { counted 1 (Some (record { base = pos 0; count = 257 })) ≡ record { known = Some (record { base = pos 0; count = 257 }); rounds = 257 } }
    ensures within { counted 256 (Some (record { base = pos 0; count = 16 })) ≡ record { known = Some (record { base = pos 0; count = 16 }); rounds = 4096 } }
    ensures over { counted 256 (Some (record { base = pos 0; count = 17 })) ≡ uncounted 256 }
    ensures varying { counted 256 None ≡ uncounted 256 }
{}

/// What is reported where the count has a fault: nothing of a `PAR`. A count that is not constant is good in a `SEQ` alone.
pub fn fault_rows()
    ensures faulty { faults_of by.Parallel (codes "i") 1 (read_of (record { faults = []; kind = known int None }) silent) ≡ [] }
    ensures parallel { faults_of by.Parallel (codes "i") 1 (read_of (record { faults = []; kind = known int None }) (record { faults = []; kind = known int None })) ≡ named code.R1 (codes "i") }
    ensures sequence { faults_of by.Other (codes "i") 1 (read_of (record { faults = []; kind = known int None }) (record { faults = []; kind = known int None })) ≡ [] }
{}

/// The index: an INT that is no constant; faulty where R1 was reported, and where a bound is faulty.
pub fn index_rows()
    ensures known { index_of [] false (codes "i") ≡ m.Element (record { of = int; access = access.Value; value = None; root = codes "i" }) }
    ensures reported { index_of (named code.R1 (codes "i")) false (codes "i") ≡ m.Faulty }
    ensures faulty { index_of [] true (codes "i") ≡ m.Faulty }
{}
