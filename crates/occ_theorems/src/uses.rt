//! Laws of uses: the parallel rule, the abbreviation rule, and the uses that they judge.
ghost use Rattle.occ_alias.specs.AbbreviationRule.{evaluated_faults};
ghost use Rattle.occ_alias.specs.Grades.{graded_as, graver};
ghost use Rattle.occ_alias.specs.Reporting.{IsReportedOf};
ghost use Rattle.occ_base.specs.declared.code.Grade.TheVariants as grade;
ghost use Rattle.occ_base.specs.declared.diag.Diag.{Diag as ADiag};
ghost use Rattle.occ_usage_values.specs.Bounds.{Env};
ghost use Rattle.occ_usage_values.specs.Making.{CallUses};
ghost use Rattle.occ_usage_values.specs.Views.{ActualView, call_uses, element_view, expr_view};
ghost use Rattle.occ_usage_values.specs.declared.bound.Bound.{Bound as ABound};
ghost use Rattle.occ_usage_values.specs.Calls.{Call as ACall};
ghost use Rattle.occ_usage_values.specs.Uses.{at_line};
ghost use Rattle.occ_usage_values.specs.declared.uses.Use.{Use as AUse};
ghost use Rattle.occ_usage_conflicts.specs.Distinct.{distinct, gathered, same_use};
ghost use Rattle.occ_usage_conflicts.specs.ParallelRule.{IsReported, StandsIn, component_faults, target_faults};
ghost use Rattle.occ_usage_conflicts.specs.declared.rule.Least.TheVariants as least;
ghost use Rattle.occ_usage_conflicts.specs.declared.rule.Rule.TheVariants as rules;
ghost use Rattle.occ_usage_conflicts.specs.declared.rule.Rule.{Rule as ARule};
ghost use Rattle.occ_typing_operands.specs.declared.kind.Known.{Known as AKnown};
ghost use Rattle.occ_usage_parts.specs.Selecting.{part_of};
ghost use Rattle.occ_usage_parts.specs.declared.place.SelectedPart.{SelectedPart as APlace};
ghost use Rattle.occ_project.specs.declared.expanded.Location.{Location as ALine};
ghost use Rattle.occ_typing_rules.specs.declared.expr.TypedElement.{TypedElement as AnElement};
ghost use Rattle.occ_typing_rules.specs.declared.expr.TypedExpr.TheVariants as e;
ghost use Rattle.occ_typing_rules.specs.declared.expr.TypedExpr.{TypedExpr as AnExpr};
ghost use Rattle.occ_types.specs.declared.interface.UseKind.TheVariants as kind;
ghost use Rattle.occ_typing.specs.declared.tree.TypedLine.{TypedLine as ATypedLine};
ghost use Rattle.occ_usage.specs.Anew.{AllBroughtIn};
ghost use Rattle.occ_theorems.specs.Functions.{IsFunctionFault};
ghost use Rattle.occ_usage.specs.FunctionRule.{function_faults};
ghost use Rattle.occ_usage.specs.Standing.{IsReportedIn, Stands};
ghost use Rattle.occ_theorems.specs.Using.{IsToldBy, IsUsedBy};
ghost use Rattle.occ_usage.specs.EachLine.{line_use};
ghost use Rattle.occ_usage.specs.Lines.{items_of, line_uses};
ghost use Rattle.occ_usage.specs.Trees.{Head as AHead, Trees as SomeTrees, trees_of};
ghost use Rattle.occ_usage.specs.Walk.{At, Rule, unit_reported};
ghost use Rattle.std.specs.List.{Contains};
ghost use Rattle.std.specs.Prelude.{List, None, Some, [], false, slice_get, true, ℕ, ◌++◌, ◌↔◌, ◌∷◌, ◌≡◌};

/// Each specification in scope at a line is one that a line of the unit brings into scope, in the scope of those before it.
/// So what a PROC or FUNCTION uses at its call is what its lines use where it is specified.
pub fn use_scope_law()
    ensures { (lines : List ATypedLine) (a : At) → Stands (trees_of lines) [] [] a → AllBroughtIn (trees_of lines) a.env }
{}

/// A use is among those of a process exactly if a line that stands in it has it, outside inner bodies of PROCs and FUNCTIONs. Uses
/// of what is declared inside are among them. Under a known replicator a line stands once in each round. The rules for what
/// holds a replicator see each of them told at its line.
pub fn process_use_law()
    ensures used { (env : Env) (h : AHead) (t : SomeTrees) (u : AUse) → Contains (line_use env h t) u ↔ IsUsedBy env h t u }
    ensures told { (env : Env) (h : AHead) (t : SomeTrees) (u : AUse) → Contains (line_uses env h (items_of t)) u ↔ IsToldBy env h t u }
{}

/// A rule of uses reports a diagnostic of a unit exactly if it reports it of some line, by what is in scope there.
/// Each choice of the known indices round the line counts. So no line is left out, and none answers for another.
pub fn use_report_law()
    ensures { (rule : Rule) (lines : List ATypedLine) (d : ADiag) → Contains (unit_reported rule lines) d ↔ IsReportedIn rule (trees_of lines) [] [] d }
{}

/// A fault is reported of a PAR exactly if two components use parts that are not apart, in kinds that a rule forbids.
/// So the parallel rule is what a programmer knows. Of an assignment the rule of writes alone reports, where parts surely meet.
pub fn parallel_law()
    ensures reported { (line : ALine) (env : List ABound) (components : List (List AUse)) (d : ADiag) → Contains (component_faults line env components) d ↔ ((r : ARule) × IsReported r least.May line env components d) }
    ensures targets { (line : ALine) (env : List ABound) (components : List (List AUse)) (d : ADiag) → Contains (target_faults line env components) d ↔ IsReported rules.Written least.Must line env components d }
{}

/// A diagnostic is reported of a line exactly if it is one of a use and an abbreviation in scope, or one of a call.
/// So the abbreviation rule is read use by use and call by call.
pub fn abbreviation_law()
    ensures { (line : ALine) (env : Env) (us : List AUse) (cs : List ACall) (d : ADiag) → Contains (evaluated_faults line env us cs) d ↔ IsReportedOf line env us cs d }
{}

/// Of what the abbreviation rule finds, each error is told, and each check of which the same is not found as an error.
/// So one thing is told in one grade, and the graver one.
pub fn grade_law()
    ensures errors { (ds : List ADiag) (d : ADiag) → d.grade ≡ grade.Error → Contains (graver ds) d ↔ Contains ds d }
    ensures checks { (ds : List ADiag) (d : ADiag) → d.grade ≡ grade.Check → Contains (graver ds) d ↔ (Contains ds d × (Contains ds (graded_as grade.Error d) → ⊥)) }
{}

/// F1 is told of a line in a FUNCTION that has an effect, and at each write there of what stands outside it; of no other line.
/// A FUNCTION of one line is judged by its results. So the function rule is read line by line.
pub fn function_law()
    ensures { (lines : List ATypedLine) (d : ADiag) → Contains (function_faults lines) d ↔ IsFunctionFault lines d }
{}

/// A call uses exactly what is evaluated for its actuals, and what it makes by one of the uses of its body.
/// So the rules of uses see through calls.
pub fn call_law()
    ensures { (callee : ℕ) (xs : List ActualView) (env : Env) (line : ALine) (w : AUse) → Contains (call_uses callee xs env line) w ↔ CallUses callee xs env line w }
{}

/// An element that is evaluated is read, after its subscripts and bounds.
/// Where it stands for nothing that is used, these alone are read. Nothing under SIZE is used or called.
#[tactic(auto, using(occ_usage_values::proofs::Views::expr_uses_rules, occ_usage_values::proofs::Views::expr_calls_rules, occ_usage_values::proofs::Views::expr_effect_rules))]
pub fn element_read_law()
    ensures used { (el : AnElement) (env : Env) (line : ALine) (p : APlace) → (element_view el).place env ≡ Some p → (expr_view (e.Element el)).uses env line ≡ (element_view el).uses env line ++ (record { part = part_of p; kind = kind.Read; line = line; chain = p.chain }) ∷ [] }
    ensures not_used { (el : AnElement) (env : Env) (line : ALine) → (element_view el).place env ≡ None → (expr_view (e.Element el)).uses env line ≡ (element_view el).uses env line }
    ensures size_uses { (x : AKnown) (of : AnExpr) (env : Env) (line : ALine) → (expr_view (e.Size x of)).uses env line ≡ [] }
    ensures size_calls { (x : AKnown) (of : AnExpr) (env : Env) (line : ALine) → (expr_view (e.Size x of)).calls env line ≡ [] }
    ensures size_effect { (x : AKnown) (of : AnExpr) (env : Env) → (expr_view (e.Size x of)).effect env ≡ false }
{}

/// Among uses that are listed once are those that were listed, and none is there twice. Those of a replicator are told at its line.
/// So a list of uses can be made shorter, and none is lost.
#[tactic(auto, using(occ_usage_conflicts::proofs::Equality::same_exactly, crate::proofs::Once::once_law, crate::proofs::Once::gathered_law, crate::proofs::Once::told_once))]
pub fn distinct_law()
    ensures same { (u v : AUse) → (same_use u v ≡ true) ↔ (u ≡ v) }
    ensures among { (us : List AUse) (u : AUse) → StandsIn u (distinct us) ↔ StandsIn u us }
    ensures once { (us : List AUse) (j k : ℕ) (u : AUse) → slice_get (distinct us) j ≡ Some u → slice_get (distinct us) k ≡ Some u → j ≡ k }
    ensures told { (line : ALine) (us : List AUse) (w : AUse) → StandsIn w (gathered line [] us) ↔ ((u : AUse) × StandsIn u us × (at_line u line ≡ w)) }
    ensures told_once { (line : ALine) (us : List AUse) (j k : ℕ) (u : AUse) → slice_get (gathered line [] us) j ≡ Some u → slice_get (gathered line [] us) k ≡ Some u → j ≡ k }
{}
