//! Laws of runs: what the rules find in a line is all that it touches, and a unit that they tell no U1 to U3 and no A4 of has no
//! race.
ghost use Rattle.std.specs.Prelude.{List, None, Some, [], slice_get, suc, ◌≡◌, ◌∷◌, ℕ, ℤ};
ghost use Rattle.occ_running.specs.Memory.{Cell as ACell, Has, Spot as ASpot, Thread};
ghost use Rattle.occ_running.specs.Running.{Does, Outcome};
ghost use Rattle.occ_running.specs.Runs.{Event as AnEvent, Occurs, RaceFree, Run as ARun};
ghost use Rattle.occ_running.specs.Scopes.{Formal, Scope, Stored, Suits, Thing as AThing};
ghost use Rattle.occ_running.specs.Works.{InTurn, Main, Pieces, Work as SomeWork, items_of as pieces_of};
ghost use Rattle.occ_sound.specs.Agreeing.{Agrees, InPart};
ghost use Rattle.occ_sound.specs.Covering.{CoveredWork};
ghost use Rattle.occ_sound.specs.Racing.{Assigns, AssignsComponent, CanRace, CopiesNothing, Inputs, IsName, IsNumeral, IsParallel, IsReplicated, IsSequence, Loops, Outputs, Passes};
ghost use Rattle.occ_sound.specs.Safe.{IsClean, IsSilent, Safe, Separate};
ghost use Rattle.occ_sound.specs.Units.{ArePassedApart, HasNoVariable, IsHead, NeverRaces, Opens};
ghost use Rattle.occ_typing.specs.declared.tree.TypedLine.{TypedLine as ATypedLine, out-TypedLine};
ghost use Rattle.occ_typing_rules.specs.declared.expr.TypedExpr.{TypedExpr as AnExpr};
ghost use Rattle.occ_usage.specs.AbbreviationRule.{abbreviation_faults};
ghost use Rattle.occ_usage.specs.Lines.{items_of};
ghost use Rattle.occ_usage.specs.ParallelRule.{parallel_faults};
ghost use Rattle.occ_usage.specs.Trees.{trees_of};
ghost use Rattle.occ_usage_conflicts.specs.Components.{joined};
ghost use Rattle.occ_usage_parts.specs.Parts.{overlap_of};
ghost use Rattle.occ_usage_parts.specs.declared.part.Overlap.TheVariants as o;
ghost use Rattle.occ_usage_parts.specs.declared.part.Part.{Part as APart};
ghost use Rattle.occ_usage_values.specs.Bounds.{Env};

/// Parts of one name that are apart share no cell, in whatever scope.
pub fn places_law()
    ensures { (d : Scope) (p q : APart) (c : ACell) → p.root ≡ q.root → overlap_of p q ≡ o.Apart → InPart d p c → InPart d q c → ⊥ }
{}

/// Whatever is run, in a scope of which the rules know no more than is so: each event lies in one of the uses that the rules find.
/// Else its variable is declared in these components and calls, or deeper.
pub fn uses_law()
    ensures { (d : Scope) (t : Thread) (w : SomeWork) (r : ARun) (o : Outcome) → Does d t w r o → (env : Env) → Agrees env d → (x : AnEvent) → Occurs x r → CoveredWork w env d t x }
{}

/// Lines of which neither U1, U2, U3 nor A4 is told have no race, in a scope where names that they use share no cell. What the
/// rules know of the scope is so, and nothing is told of the bodies in it (`Safe`).
pub fn lines_law()
    ensures { (d : Scope) (t : Thread) (lines : List ATypedLine) (r : ARun) (o : Outcome) → Does d t (Pieces InTurn 0 (pieces_of lines)) r o → (env : Env) → Safe env d t → Separate d (joined (items_of (trees_of lines) env)) → IsClean (trees_of lines) env env → RaceFree r }
{}

/// No PROC or FUNCTION of a unit of which neither U1, U2, U3 nor A4 is told has a race, whoever calls it with elements that are apart.
/// It is one with its body under its head (`IsHead`). Of executions this follows from runs.
pub fn race_law()
    ensures { (lines : List ATypedLine) → IsSilent (parallel_faults lines) → IsSilent (abbreviation_faults lines) → (d : Scope) (l : ATypedLine) → Opens lines [] d l → IsHead l → HasNoVariable d
        → (xs : List AThing) → Suits (out-TypedLine l).enters xs → ArePassedApart xs → NeverRaces d l xs }
{}

/// A PAR of which two components assign to one variable can run so that it has a race, whatever stands between them.
/// So the laws above are not about nothing.
pub fn assigned_twice_law()
    ensures { (d : Scope) (t u : Thread) (n : ℕ) (l first other last : ATypedLine) → slice_get d n ≡ Some (Stored u) → IsParallel l (first ∷ other ∷ last ∷ []) → Assigns n first → (out-TypedLine other).adds ≡ None → Assigns n last → CanRace d t (Main InTurn l) }
{}

/// So can one of which two components output to one channel.
pub fn output_law()
    ensures { (d : Scope) (t u : Thread) (n : ℕ) (l first other last : ATypedLine) → slice_get d n ≡ Some (Stored u) → IsParallel l (first ∷ other ∷ last ∷ []) → Outputs n first → (out-TypedLine other).adds ≡ None → Outputs n last → CanRace d t (Main InTurn l) }
{}

/// So can one of which two components input from one channel.
pub fn input_law()
    ensures { (d : Scope) (t u : Thread) (n : ℕ) (l first other last : ATypedLine) → slice_get d n ≡ Some (Stored u) → IsParallel l (first ∷ other ∷ last ∷ []) → Inputs n first → (out-TypedLine other).adds ≡ None → Inputs n last → CanRace d t (Main InTurn l) }
{}

/// So can a replicated PAR of two rounds or more, each of which assigns to one variable.
pub fn replicated_law()
    ensures { (d : Scope) (t u : Thread) (n more : ℕ) (base : ℤ) (l line : ATypedLine) → slice_get d n ≡ Some (Stored u) → IsReplicated l base (suc (suc more)) (line ∷ []) → Assigns n line → CanRace d t (Main InTurn l) }
{}

/// So can one of which two components assign to two formals that stand for one element. U1 goes by names, and these are two.
/// This is why A4 is asked for.
pub fn alias_law()
    ensures { (d : Scope) (t : Thread) (n m : ℕ) (at : ASpot) (c : ACell) (l first other last : ATypedLine) → slice_get d n ≡ Some (Formal at) → slice_get d m ≡ Some (Formal at) → Has at c → IsParallel l (first ∷ other ∷ last ∷ [])
        → Assigns n first → (out-TypedLine other).adds ≡ None → Assigns m last → CanRace d t (Main InTurn l) }
{}

/// So can `WHILE x` beside `x := k`.
pub fn condition_law()
    ensures { (d : Scope) (t u : Thread) (n : ℕ) (l first last : ATypedLine) → slice_get d n ≡ Some (Stored u) → IsParallel l (first ∷ last ∷ []) → Loops n first → Assigns n last → CanRace d t (Main InTurn l) }
{}

/// So can `p (x)`, for a VAL formal, beside `x := k`.
pub fn actual_law()
    ensures { (d : Scope) (t u : Thread) (n : ℕ) (l first last : ATypedLine) → slice_get d n ≡ Some (Stored u) → IsParallel l (first ∷ last ∷ []) → Passes n first → Assigns n last → CanRace d t (Main InTurn l) }
{}

/// So can `a[i] := j` beside `a[k] := m`, for a numeral `k`.
pub fn subscript_law()
    ensures { (d : Scope) (t u w : Thread) (n m : ℕ) (i j : AnExpr) (k : ℤ) (l first last : ATypedLine) → slice_get d n ≡ Some (Stored u) → slice_get d m ≡ Some (Stored w) → IsParallel l (first ∷ last ∷ []) → IsName m i → AssignsComponent n i first
        → IsNumeral k j → AssignsComponent n j last → CanRace d t (Main InTurn l) }
{}

/// Copying an empty segment blocks nothing: `SEQ` over `[a FROM i FOR 0] := [b FROM j FOR 0]` and a line that can race can race.
pub fn empty_law()
    ensures { (d : Scope) (t u w : Thread) (n m : ℕ) (l first last : ATypedLine) → slice_get d n ≡ Some (Stored u) → slice_get d m ≡ Some (Stored w) → IsSequence l (first ∷ last ∷ []) → CopiesNothing n m first
        → (out-TypedLine last).adds ≡ None → CanRace d t (Main InTurn last) → CanRace d t (Main InTurn l) }
{}
