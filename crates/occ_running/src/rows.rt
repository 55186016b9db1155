//! Worked rows: cells of elements, kinds that collide, and how lines are run.
ghost use Rattle.std.specs.Prelude.{◌≡◌, None, Some, [], codes, false, negsuc, pos, true, ◌∷◌};
ghost use Rattle.occ_running.specs.Memory.{At, ComponentOf, FieldOf, InComponent, Reaches, SegmentOf, To, Variable};
ghost use Rattle.occ_running.specs.Runs.{collide};
ghost use Rattle.occ_running.specs.Works.{InTurn, IsNoted, Nothing, Taken, Together, Waiting, plan, rounds_in};
ghost use Rattle.occ_types.specs.declared.interface.UseKind.TheVariants as kind;
ghost use Rattle.occ_typing_lines.specs.declared.tree.BlockKind.TheVariants as block;
ghost use Rattle.occ_typing_lines.specs.declared.tree.TypedForm.TheVariants as form;

/// Of a variable `a`: `a[2]`, where it is declared in a component, `a[2].x`, and components of `[a FROM 2 FOR 3]` and
/// `[a FROM 2 FOR 0]`.
pub fn cell_rows()
    ensures component { Reaches (ComponentOf (Variable 0 (InComponent 1 ∷ [])) (pos 2)) [] (record { root = 0; thread = InComponent 1 ∷ []; steps = At (pos 2) ∷ [] }) }
    ensures field { Reaches (FieldOf (ComponentOf (Variable 0 []) (pos 2)) (codes "x")) [] (record { root = 0; thread = []; steps = At (pos 2) ∷ To (codes "x") ∷ [] }) }
    ensures segment { Reaches (ComponentOf (SegmentOf (Variable 0 []) (pos 2) (pos 3)) (pos 1)) [] (record { root = 0; thread = []; steps = At (pos 3) ∷ [] }) }
    ensures beyond { Reaches (ComponentOf (SegmentOf (Variable 0 []) (pos 2) (pos 3)) (pos 3)) [] (record { root = 0; thread = []; steps = At (pos 5) ∷ [] }) → ⊥ }
    ensures empty { Reaches (SegmentOf (Variable 0 []) (pos 2) (pos 0)) (At (pos 0) ∷ []) (record { root = 0; thread = []; steps = At (pos 2) ∷ [] }) → ⊥ }
    ensures other { Reaches (ComponentOf (Variable 0 []) (pos 2)) [] (record { root = 1; thread = []; steps = At (pos 2) ∷ [] }) → ⊥ }
{}

/// Reads collide with writes alone, and each side of a channel with itself.
pub fn kind_rows()
    ensures reads { collide kind.Read kind.Read ≡ false }
    ensures write_and_read { collide kind.Write kind.Read ≡ true }
    ensures writes { collide kind.Write kind.Write ≡ true }
    ensures inputs { collide kind.Input kind.Input ≡ true }
    ensures sides { collide kind.Input kind.Output ≡ false }
{}

/// What `SKIP`, `STOP`, `PAR`, `ALT` and an option are, as processes, where they wait and where they are taken. How many rounds a
/// count makes.
pub fn plan_rows()
    ensures skip { plan InTurn form.Skip ≡ Some (Nothing, InTurn) }
    ensures stop { plan InTurn form.Stop ≡ None }
    ensures parallel { plan InTurn (form.Block block.Parallel None) ≡ Some (Nothing, Together) }
    ensures option { plan Taken form.Otherwise ≡ Some (Nothing, InTurn) }
    ensures option_alone { plan InTurn form.Otherwise ≡ None }
    ensures waiting { plan Waiting (form.Block block.Alternation None) ≡ Some (Nothing, Waiting) }
    ensures below { rounds_in (negsuc 2) ≡ 0 }
    ensures known { IsNoted Together None (pos 0) 1 → ⊥ }
{}
