//! Worked rows: components that write, input and output; roots inside and outside; uses once.
ghost use Rattle.std.specs.Prelude.{◌≡◌, ◌∷◌, [], None, Some, codes, false, pos, true};
ghost use Rattle.occ_usage_values.specs.declared.bound.Bound.TheVariants as b;
ghost use Rattle.occ_types.specs.declared.interface.UseKind.TheVariants as kind;
ghost use Rattle.occ_usage_conflicts.specs.declared.rule.Least.TheVariants as least;
ghost use Rattle.occ_usage_conflicts.specs.declared.rule.Rule.TheVariants as rule;
ghost use Rattle.occ_usage_conflicts.specs.Distinct.{distinct};
ghost use Rattle.occ_usage_conflicts.specs.ParallelRule.{component_faults, fault_of, some_clash, target_faults};
ghost use Rattle.occ_usage_conflicts.specs.Samples.{alone, at, use_of};

/// Components that write `a[1]` and `a[2]`, `a[1]` and `a`, `a[i]` with an `i` that is not known, other variables, and one
/// that writes what it reads.
pub fn write_rows()
    ensures apart { some_clash rule.Written least.May 0 (alone kind.Write 0 (at (Some (pos 1))) ∷ alone kind.Write 0 (at (Some (pos 2))) ∷ []) ≡ false }
    ensures whole { some_clash rule.Written least.May 0 (alone kind.Write 0 (at (Some (pos 1))) ∷ alone kind.Read 0 [] ∷ []) ≡ true }
    ensures reads { some_clash rule.Written least.May 0 (alone kind.Read 0 [] ∷ alone kind.Read 0 [] ∷ []) ≡ false }
    ensures perhaps { some_clash rule.Written least.May 0 (alone kind.Write 0 (at None) ∷ alone kind.Read 0 (at (Some (pos 2))) ∷ []) ≡ true }
    ensures not_sure { some_clash rule.Written least.Must 0 (alone kind.Write 0 (at None) ∷ alone kind.Read 0 (at (Some (pos 2))) ∷ []) ≡ false }
    ensures others { some_clash rule.Written least.May 0 (alone kind.Write 0 [] ∷ alone kind.Write 1 [] ∷ []) ≡ false }
    ensures one { some_clash rule.Written least.May 0 ((use_of kind.Write 0 [] ∷ use_of kind.Read 0 [] ∷ []) ∷ []) ≡ false }
    ensures first_and_third { some_clash rule.Written least.May 0 (alone kind.Write 0 [] ∷ alone kind.Write 1 [] ∷ alone kind.Read 0 [] ∷ []) ≡ true }
{}

/// Components that input from one channel, that output to it, and one of each.
pub fn channel_rows()
    ensures inputs { some_clash rule.Input least.May 0 (alone kind.Input 0 [] ∷ alone kind.Input 0 [] ∷ []) ≡ true }
    ensures outputs { some_clash rule.Output least.May 0 (alone kind.Output 0 [] ∷ alone kind.Output 0 [] ∷ []) ≡ true }
    ensures both { some_clash rule.Input least.May 0 (alone kind.Input 0 [] ∷ alone kind.Output 0 [] ∷ []) ≡ false }
    ensures inputs_only { some_clash rule.Output least.May 0 (alone kind.Input 0 [] ∷ alone kind.Input 0 [] ∷ []) ≡ false }
{}

/// What is reported of `PAR` with `x := 1` and `x := 2` under it, of the same with an `x` that is declared inside, and of
/// `x, x := 1, 2`.
pub fn reported_rows()
    ensures par { component_faults (record { file = codes "a.occ"; line = 2 }) (b.Root (codes "x") ∷ []) (alone kind.Write 0 [] ∷ alone kind.Write 0 [] ∷ []) ≡ fault_of rule.Written (record { file = codes "a.occ"; line = 2 }) (b.Root (codes "x") ∷ []) 0 ∷ [] }
    ensures inside { component_faults (record { file = codes "a.occ"; line = 2 }) (b.Root (codes "x") ∷ []) (alone kind.Write 1 [] ∷ alone kind.Write 1 [] ∷ []) ≡ [] }
    ensures targets { target_faults (record { file = codes "a.occ"; line = 2 }) (b.Root (codes "x") ∷ []) (alone kind.Write 0 [] ∷ alone kind.Write 0 [] ∷ []) ≡ fault_of rule.Written (record { file = codes "a.occ"; line = 2 }) (b.Root (codes "x") ∷ []) 0 ∷ [] }
{}

/// A use that stands twice, and one of another kind.
pub fn once_rows()
    ensures { distinct (use_of kind.Read 0 [] ∷ use_of kind.Write 0 [] ∷ use_of kind.Read 0 [] ∷ []) ≡ use_of kind.Read 0 [] ∷ use_of kind.Write 0 [] ∷ [] }
{}
