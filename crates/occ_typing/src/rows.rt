//! Worked rows: two ELSE, constructs, whole trees.
ghost use Rattle.occ_typing_lines.specs.declared.using.Import.{Import as AnImport};
ghost use Rattle.std.specs.Prelude.{List, [], ◌∷◌, ◌≡◌, None, false};
ghost use Rattle.occ_base.specs.Errors.{error_at};
ghost use Rattle.occ_base.specs.declared.code.Code.TheVariants as code;
ghost use Rattle.occ_expr_operations.specs.Literals.{byte};
ghost use Rattle.occ_forms.specs.declared.tree.Action.TheVariants as action;
ghost use Rattle.occ_forms.specs.declared.tree.Construct.TheVariants as construct;
ghost use Rattle.occ_forms.specs.declared.tree.Form.TheVariants as form;
ghost use Rattle.occ_forms.specs.declared.tree.ConstructKind.TheVariants as word;
ghost use Rattle.occ_forms.specs.declared.tree.PartForm.TheVariants as part;
ghost use Rattle.occ_scope.specs.declared.scope.Scope.{Scope};
ghost use Rattle.occ_typing_operands.specs.Settling.{int, known};
ghost use Rattle.occ_tree.specs.Forest.{Empty, Tree};
ghost use Rattle.occ_typing.specs.Samples.{at, unit};
ghost use Rattle.occ_typing_rules.specs.declared.expr.TypedExpr.TheVariants as typed;
ghost use Rattle.occ_types.specs.declared.types.OccType.TheVariants as types;
ghost use Rattle.occ_typing.specs.Units.{lines};
ghost use Rattle.occ_typing.specs.WholeTrees.{IsWholeExpr};
ghost use Rattle.occ_typing_lines.specs.Lines.{body_of};
ghost use Rattle.occ_typing_lines.specs.declared.parent.Role.TheVariants as role;

/// Under a CASE with an INT for its selector, an `ELSE` at line 3 and one at line 5, each over a `SKIP`: T8 at the second.
#[tactic(auto, unfolding(occ_typing_lines::specs::Judging::judged))]
pub fn else_rows()
    ensures { (is : List AnImport) → (s : Scope) → lines is (body_of (role.Selection (record { selector = known int None; numbers = record { keys = [] }; otherwise = false }))) s s (Tree (at 3 (form.Part part.Else)) (Tree (at 4 (form.Action action.Skip)) Empty Empty) (Tree (at 5 (form.Part part.Else)) (Tree (at 6 (form.Action action.Skip)) Empty Empty) Empty)) ≡ error_at unit 5 code.T8 None ∷ [] }
{}

/// `SEQ` over `SKIP` reports nothing, and so does `ALT`.
#[tactic(auto, unfolding(occ_typing_lines::specs::Judging::judged))]
pub fn construct_rows()
    ensures known { (is : List AnImport) → (s : Scope) → lines is (body_of role.Process) s s (Tree (at 2 (form.Construct (construct.Replicable word.Sequence None))) (Tree (at 3 (form.Action action.Skip)) Empty Empty) Empty) ≡ [] }
    ensures alternation { (is : List AnImport) → (s : Scope) → lines is (body_of role.Process) s s (Tree (at 2 (form.Construct (construct.Replicable word.Alternation None))) Empty Empty) ≡ [] }
{}

/// A literal of an INT is whole, and so is its conversion to a BYTE; a literal of an unknown type is not whole, and no
/// conversion of it is.
pub fn whole_rows()
    ensures literal { IsWholeExpr (typed.Literal (record { of = int; value = None })) }
    ensures converted { IsWholeExpr (typed.Converted (record { of = byte; value = None }) (typed.Literal (record { of = int; value = None }))) }
    ensures unknown { IsWholeExpr (typed.Literal (record { of = types.Unknown; value = None })) → ⊥ }
    ensures inside { IsWholeExpr (typed.Converted (record { of = byte; value = None }) (typed.Literal (record { of = types.Unknown; value = None }))) → ⊥ }
{}
