//! Worked rows of the definitions. For each line of a unit `true` says that it stands wrong or lacks something.
ghost use Rattle.occ_forms_expressions.specs.declared.tree.Dimension.TheVariants as d;
ghost use Rattle.occ_forms_expressions.specs.declared.tree.Element.TheVariants as el;
ghost use Rattle.occ_forms_expressions.specs.declared.tree.Expr.TheVariants as e;
ghost use Rattle.occ_forms_expressions.specs.declared.tree.Literal.TheVariants as l;
ghost use Rattle.occ_forms_expressions.specs.declared.tree.Operand.TheVariants as o;
ghost use Rattle.occ_forms.specs.declared.tree.Construct.TheVariants as k;
ghost use Rattle.occ_forms.specs.declared.tree.Detail.TheVariants as de;
ghost use Rattle.occ_forms.specs.declared.tree.Form.TheVariants as f;
ghost use Rattle.occ_forms.specs.declared.tree.Guarded.TheVariants as g;
ghost use Rattle.occ_forms.specs.declared.tree.ConstructKind.TheVariants as ki;
ghost use Rattle.occ_forms.specs.declared.tree.PartForm.TheVariants as p;
ghost use Rattle.std.specs.Prelude.{◌≡◌, [], ◌∷◌, None, Some, codes, false, true};
ghost use Rattle.occ_tree.specs.declared.sort.Sort.TheVariants as so;
ghost use Rattle.occ_tree.specs.Nesting.{children, elders, parent_depth, roots};
ghost use Rattle.occ_tree.specs.Samples.{at, in_data_type, in_function, in_procedure, in_protocol};
ghost use Rattle.occ_tree.specs.Sorts.{form_sort};
ghost use Rattle.occ_tree.specs.Wrong.{wrong};

/// The parent of a line is the last earlier line of smaller depth, and those with the same parent stand beside each
/// other, whatever their depths. Lines before are reported from the nearest on.
pub fn nesting_rows()
    ensures nearest { parent_depth (at 2 so.Action ∷ at 1 so.Block ∷ at 0 so.ProcedureHead ∷ []) 2 ≡ Some 1 }
    ensures deeper { parent_depth (at 2 so.Block ∷ at 1 so.Block ∷ []) 5 ≡ Some 2 }
    ensures none { parent_depth (at 3 so.Action ∷ at 2 so.Action ∷ []) 2 ≡ None }
    ensures beside { elders (at 3 so.Action ∷ at 2 so.While ∷ at 3 so.Call ∷ at 1 so.Block ∷ []) 2 ≡ so.While ∷ so.Call ∷ [] }
    ensures children { children 1 (at 4 so.Action ∷ at 3 so.Block ∷ at 4 so.Action ∷ at 2 so.Call ∷ at 1 so.Action ∷ at 2 so.Action ∷ []) ≡ so.Action ∷ so.Block ∷ so.Call ∷ [] }
    ensures roots { roots (at 4 so.Action ∷ at 3 so.Block ∷ at 4 so.Action ∷ at 2 so.Call ∷ []) ≡ at 4 so.Action ∷ at 3 so.Block ∷ at 2 so.Call ∷ [] }
{}

/// In a file stand specifications alone: of protocols, data types, procedures, functions and values, and `#USE`.
pub fn file_rows()
    ensures specifications { wrong (at 0 so.GlobalSpecification ∷ at 0 so.ProcedureHead ∷ at 1 so.Action ∷ at 0 so.Close ∷ at 0 so.GlobalSpecification ∷ []) ≡ false ∷ false ∷ false ∷ false ∷ false ∷ [] }
    ensures variable { wrong (at 0 so.Declaration ∷ []) ≡ true ∷ [] }
    ensures abbreviation { wrong (at 0 so.LocalSpecification ∷ []) ≡ true ∷ [] }
    ensures process { wrong (at 0 so.Action ∷ []) ≡ true ∷ [] }
    ensures empty { wrong [] ≡ [] }
{}

/// Under `SEQ` and `PAR` stand any number of processes, under a replicated one one, each after its specifications.
pub fn block_rows()
    ensures any { in_procedure (at 1 so.Block ∷ at 2 so.Declaration ∷ at 2 so.Action ∷ at 2 so.Call ∷ at 2 so.LocalSpecification ∷ at 2 so.Input ∷ []) ≡ false ∷ false ∷ false ∷ false ∷ false ∷ false ∷ false ∷ false ∷ [] }
    ensures empty { in_procedure (at 1 so.Block ∷ []) ≡ false ∷ false ∷ false ∷ [] }
    ensures replicated { in_procedure (at 1 so.ReplicatedBlock ∷ at 2 so.Declaration ∷ at 2 so.Action ∷ []) ≡ false ∷ false ∷ false ∷ false ∷ false ∷ [] }
    ensures beyond { in_procedure (at 1 so.ReplicatedBlock ∷ at 2 so.Action ∷ at 2 so.Action ∷ []) ≡ false ∷ false ∷ false ∷ true ∷ false ∷ [] }
    ensures lacking { in_procedure (at 1 so.ReplicatedBlock ∷ []) ≡ false ∷ true ∷ false ∷ [] }
    ensures last { in_procedure (at 1 so.Block ∷ at 2 so.Action ∷ at 2 so.Declaration ∷ []) ≡ false ∷ true ∷ false ∷ false ∷ false ∷ [] }
    ensures name { in_procedure (at 1 so.Block ∷ at 2 so.Name ∷ []) ≡ false ∷ false ∷ true ∷ false ∷ [] }
{}

/// Under `WHILE`, a head of a procedure, a condition, an option, `ELSE`, a guard and a variant stands one process.
pub fn process_rows()
    ensures repeated { in_procedure (at 1 so.While ∷ at 2 so.Action ∷ []) ≡ false ∷ false ∷ false ∷ false ∷ [] }
    ensures repeated_none { in_procedure (at 1 so.While ∷ []) ≡ false ∷ true ∷ false ∷ [] }
    ensures repeated_two { in_procedure (at 1 so.While ∷ at 2 so.Action ∷ at 2 so.Action ∷ []) ≡ false ∷ false ∷ false ∷ true ∷ false ∷ [] }
    ensures procedure_none { in_procedure ([]) ≡ true ∷ false ∷ [] }
    ensures procedure_last { in_procedure (at 1 so.Action ∷ at 1 so.Declaration ∷ []) ≡ true ∷ false ∷ false ∷ false ∷ [] }
    ensures condition_none { in_procedure (at 1 so.Conditional ∷ at 2 so.Expression ∷ []) ≡ false ∷ false ∷ true ∷ false ∷ [] }
    ensures option_none { in_procedure (at 1 so.Selection ∷ at 2 so.Expressions ∷ []) ≡ false ∷ false ∷ true ∷ false ∷ [] }
    ensures other_none { in_procedure (at 1 so.Selection ∷ at 2 so.Else ∷ []) ≡ false ∷ false ∷ true ∷ false ∷ [] }
    ensures guard_none { in_procedure (at 1 so.Alternation ∷ at 2 so.Guard ∷ []) ≡ false ∷ false ∷ true ∷ false ∷ [] }
    ensures input_none { in_procedure (at 1 so.Alternation ∷ at 2 so.Input ∷ []) ≡ false ∷ false ∷ true ∷ false ∷ [] }
    ensures variant_none { in_procedure (at 1 so.CaseInput ∷ at 2 so.Variant ∷ []) ≡ false ∷ false ∷ true ∷ false ∷ [] }
{}

/// Under `IF` stand conditions, each one expression, and further `IF`.
pub fn conditional_rows()
    ensures any { in_procedure (at 1 so.Conditional ∷ at 2 so.Expression ∷ at 3 so.Action ∷ at 2 so.Call ∷ at 3 so.Action ∷ at 2 so.Conditional ∷ at 3 so.Name ∷ at 4 so.Action ∷ []) ≡ false ∷ false ∷ false ∷ false ∷ false ∷ false ∷ false ∷ false ∷ false ∷ false ∷ [] }
    ensures empty { in_procedure (at 1 so.Conditional ∷ []) ≡ false ∷ false ∷ false ∷ [] }
    ensures two { in_procedure (at 1 so.Conditional ∷ at 2 so.Expressions ∷ at 3 so.Action ∷ []) ≡ false ∷ false ∷ true ∷ true ∷ false ∷ [] }
    ensures other { in_procedure (at 1 so.Conditional ∷ at 2 so.Else ∷ at 3 so.Action ∷ []) ≡ false ∷ false ∷ true ∷ false ∷ false ∷ [] }
    ensures replicated { in_procedure (at 1 so.ReplicatedConditional ∷ at 2 so.Expression ∷ at 3 so.Action ∷ []) ≡ false ∷ false ∷ false ∷ false ∷ false ∷ [] }
    ensures beyond { in_procedure (at 1 so.ReplicatedConditional ∷ at 2 so.Expression ∷ at 3 so.Action ∷ at 2 so.Expression ∷ at 3 so.Action ∷ []) ≡ false ∷ false ∷ false ∷ false ∷ true ∷ false ∷ false ∷ [] }
    ensures lacking { in_procedure (at 1 so.ReplicatedConditional ∷ []) ≡ false ∷ true ∷ false ∷ [] }
{}

/// Under `ALT` stand guards, inputs that select among variants, and further `ALT`.
pub fn alternation_rows()
    ensures any { in_procedure (at 1 so.Alternation ∷ at 2 so.Input ∷ at 3 so.Action ∷ at 2 so.Guard ∷ at 3 so.Action ∷ at 2 so.CaseInput ∷ at 2 so.GuardedCaseInput ∷ at 3 so.Name ∷ at 4 so.Action ∷ at 2 so.Alternation ∷ []) ≡ false ∷ false ∷ false ∷ false ∷ false ∷ false ∷ false ∷ false ∷ false ∷ false ∷ false ∷ false ∷ [] }
    ensures output { in_procedure (at 1 so.Alternation ∷ at 2 so.Action ∷ []) ≡ false ∷ false ∷ true ∷ false ∷ [] }
    ensures lacking { in_procedure (at 1 so.ReplicatedAlternation ∷ []) ≡ false ∷ true ∷ false ∷ [] }
    ensures beyond { in_procedure (at 1 so.ReplicatedAlternation ∷ at 2 so.Input ∷ at 3 so.Action ∷ at 2 so.Input ∷ at 3 so.Action ∷ []) ≡ false ∷ false ∷ false ∷ false ∷ true ∷ false ∷ false ∷ [] }
{}

/// Under `CASE e` stand options and `ELSE`, under a selecting input variants.
pub fn selection_rows()
    ensures options { in_procedure (at 1 so.Selection ∷ at 2 so.Expressions ∷ at 3 so.Action ∷ at 2 so.Declaration ∷ at 2 so.Name ∷ at 3 so.Action ∷ at 2 so.Else ∷ at 3 so.Action ∷ []) ≡ false ∷ false ∷ false ∷ false ∷ false ∷ false ∷ false ∷ false ∷ false ∷ false ∷ [] }
    ensures empty { in_procedure (at 1 so.Selection ∷ []) ≡ false ∷ false ∷ false ∷ [] }
    ensures tagged { in_procedure (at 1 so.Selection ∷ at 2 so.Tagged ∷ at 3 so.Action ∷ []) ≡ false ∷ false ∷ true ∷ true ∷ false ∷ [] }
    ensures variants { in_procedure (at 1 so.CaseInput ∷ at 2 so.Name ∷ at 3 so.Action ∷ at 2 so.Tagged ∷ at 3 so.Action ∷ at 2 so.Variant ∷ at 3 so.Action ∷ []) ≡ false ∷ false ∷ false ∷ false ∷ false ∷ false ∷ false ∷ false ∷ false ∷ [] }
    ensures typed { in_procedure (at 1 so.CaseInput ∷ at 2 so.Tag ∷ at 3 so.Action ∷ []) ≡ false ∷ false ∷ true ∷ true ∷ false ∷ [] }
{}

/// Under the head of a function stands one `VALOF`, and under it one process and a `RESULT` directly after it.
pub fn function_rows()
    ensures right { in_function (at 1 so.Declaration ∷ at 1 so.ValueOf ∷ at 2 so.Declaration ∷ at 2 so.Action ∷ at 2 so.Result ∷ []) ≡ false ∷ false ∷ false ∷ false ∷ false ∷ false ∷ false ∷ [] }
    ensures lacking { in_function ([]) ≡ true ∷ false ∷ [] }
    ensures two { in_function (at 1 so.ValueOf ∷ at 2 so.Action ∷ at 2 so.Result ∷ at 1 so.ValueOf ∷ at 2 so.Action ∷ at 2 so.Result ∷ []) ≡ false ∷ false ∷ false ∷ false ∷ true ∷ false ∷ false ∷ false ∷ [] }
    ensures turned { in_function (at 1 so.ValueOf ∷ at 2 so.Result ∷ at 2 so.Action ∷ []) ≡ false ∷ false ∷ true ∷ false ∷ false ∷ [] }
    ensures parted { in_function (at 1 so.ValueOf ∷ at 2 so.Action ∷ at 2 so.Declaration ∷ at 2 so.Result ∷ []) ≡ false ∷ false ∷ false ∷ false ∷ true ∷ false ∷ [] }
    ensures second_process { in_function (at 1 so.ValueOf ∷ at 2 so.Action ∷ at 2 so.Action ∷ at 2 so.Result ∷ []) ≡ false ∷ false ∷ false ∷ true ∷ true ∷ false ∷ [] }
    ensures second_result { in_function (at 1 so.ValueOf ∷ at 2 so.Action ∷ at 2 so.Result ∷ at 2 so.Result ∷ []) ≡ false ∷ false ∷ false ∷ false ∷ true ∷ false ∷ [] }
    ensures no_result { in_function (at 1 so.ValueOf ∷ at 2 so.Action ∷ []) ≡ false ∷ true ∷ false ∷ false ∷ [] }
    ensures no_process { in_function (at 1 so.ValueOf ∷ at 2 so.Result ∷ []) ≡ false ∷ true ∷ true ∷ false ∷ [] }
    ensures last { in_function (at 1 so.ValueOf ∷ at 2 so.Action ∷ at 2 so.Result ∷ at 2 so.Declaration ∷ []) ≡ false ∷ true ∷ false ∷ false ∷ false ∷ false ∷ [] }
{}

/// Under the head of a protocol stands `CASE`, under it tags, and under the head of a data type a record of fields;
/// nowhere there a specification.
pub fn definition_rows()
    ensures tags { in_protocol (at 1 so.Case ∷ at 2 so.Name ∷ at 2 so.Tag ∷ at 2 so.Tagged ∷ []) ≡ false ∷ false ∷ false ∷ false ∷ false ∷ false ∷ [] }
    ensures no_case { in_protocol ([]) ≡ true ∷ false ∷ [] }
    ensures no_tag { in_protocol (at 1 so.Case ∷ []) ≡ false ∷ true ∷ false ∷ [] }
    ensures element { in_protocol (at 1 so.Case ∷ at 2 so.Name ∷ at 2 so.Variant ∷ []) ≡ false ∷ false ∷ false ∷ true ∷ false ∷ [] }
    ensures specification { in_protocol (at 1 so.Case ∷ at 2 so.GlobalSpecification ∷ at 2 so.Name ∷ []) ≡ false ∷ false ∷ true ∷ false ∷ false ∷ [] }
    ensures elsewhere { in_procedure (at 1 so.Case ∷ at 2 so.Name ∷ []) ≡ true ∷ true ∷ true ∷ false ∷ [] }
    ensures fields { in_data_type (at 1 so.Record ∷ at 2 so.Declaration ∷ at 2 so.Declaration ∷ []) ≡ false ∷ false ∷ false ∷ false ∷ false ∷ [] }
    ensures no_record { in_data_type ([]) ≡ true ∷ false ∷ [] }
    ensures no_field { in_data_type (at 1 so.Record ∷ []) ≡ false ∷ true ∷ false ∷ [] }
    ensures other_specification { in_data_type (at 1 so.Record ∷ at 2 so.Declaration ∷ at 2 so.GlobalSpecification ∷ []) ≡ false ∷ false ∷ false ∷ true ∷ false ∷ [] }
{}

/// A line that stands where it may not keeps what its own words allow under it; a line whose place decides allows
/// nothing there.
pub fn misplaced_rows()
    ensures expression { in_procedure (at 1 so.Block ∷ at 2 so.Expression ∷ at 3 so.Action ∷ []) ≡ false ∷ false ∷ true ∷ true ∷ false ∷ [] }
    ensures input { in_procedure (at 1 so.Block ∷ at 2 so.Input ∷ at 3 so.Action ∷ []) ≡ false ∷ false ∷ false ∷ true ∷ false ∷ [] }
    ensures other { in_procedure (at 1 so.Block ∷ at 2 so.Else ∷ at 3 so.Action ∷ []) ≡ false ∷ false ∷ true ∷ false ∷ false ∷ [] }
    ensures process { wrong (at 0 so.Block ∷ at 1 so.Action ∷ []) ≡ true ∷ false ∷ [] }
    ensures action { in_procedure (at 1 so.Action ∷ at 2 so.Action ∷ []) ≡ false ∷ false ∷ true ∷ false ∷ [] }
    ensures nowhere { in_procedure (at 1 so.Nowhere ∷ at 2 so.Action ∷ []) ≡ true ∷ true ∷ true ∷ false ∷ [] }
{}

/// A line of the wrong depth is wrong, and counts all the same for the parent that its depth gives it.
pub fn depth_rows()
    ensures two_down { in_procedure (at 3 so.Action ∷ []) ≡ false ∷ true ∷ false ∷ [] }
    ensures file { wrong (at 1 so.GlobalSpecification ∷ []) ≡ true ∷ [] }
    ensures falling { in_procedure (at 1 so.Block ∷ at 4 so.Action ∷ at 3 so.Action ∷ at 2 so.Action ∷ []) ≡ false ∷ false ∷ true ∷ true ∷ false ∷ false ∷ [] }
{}

/// A head and its close stand right after each other, also where the head is the deeper one. A head without its close and a close
/// without its head are wrong, and are no specification.
pub fn close_rows()
    ensures no_close { in_procedure (at 1 so.Action ∷ at 1 so.ProcedureHead ∷ at 2 so.Action ∷ []) ≡ false ∷ false ∷ true ∷ false ∷ false ∷ [] }
    ensures no_head { in_procedure (at 1 so.Action ∷ at 1 so.Close ∷ []) ≡ false ∷ false ∷ true ∷ false ∷ [] }
    ensures parted { in_procedure (at 1 so.ProcedureHead ∷ at 2 so.Action ∷ at 1 so.Declaration ∷ at 1 so.Close ∷ at 1 so.Action ∷ []) ≡ false ∷ true ∷ false ∷ false ∷ true ∷ false ∷ false ∷ [] }
    ensures closed { in_procedure (at 1 so.ProcedureHead ∷ at 2 so.Action ∷ at 1 so.Close ∷ at 1 so.Action ∷ []) ≡ false ∷ false ∷ false ∷ false ∷ false ∷ false ∷ [] }
    ensures deeper { in_procedure (at 2 so.ProcedureHead ∷ at 3 so.Action ∷ at 1 so.Close ∷ at 1 so.Action ∷ []) ≡ false ∷ true ∷ false ∷ false ∷ false ∷ false ∷ [] }
    ensures last { in_procedure (at 1 so.Action ∷ at 1 so.ProcedureHead ∷ at 2 so.Action ∷ at 1 so.Close ∷ []) ≡ true ∷ false ∷ false ∷ false ∷ false ∷ false ∷ [] }
    ensures under_nothing { in_procedure (at 1 so.Action ∷ at 2 so.ProcedureHead ∷ at 3 so.Action ∷ at 2 so.Close ∷ []) ≡ false ∷ false ∷ true ∷ false ∷ true ∷ false ∷ [] }
{}

/// A name alone may be a tag, and one call alone an instance of a procedure: `n`, `n (1)`, `(n (1))`, `n[1]`, `n, 1`.
#[tactic(auto, using(crate::proofs::Trees::tree_rules))]
pub fn expression_rows()
    ensures name { form_sort (f.Expressions (e.Alone (o.Element (el.Named (codes "n") []))) []) ≡ so.Name }
    ensures call { form_sort (f.Expressions (e.Alone (o.Call (codes "n") (e.Alone (o.Literal (l.Decimal 1)) ∷ []))) []) ≡ so.Call }
    ensures bracketed { form_sort (f.Expressions (e.Alone (o.Parens (e.Alone (o.Call (codes "n") (e.Alone (o.Literal (l.Decimal 1)) ∷ []))))) []) ≡ so.Expression }
    ensures component { form_sort (f.Expressions (e.Alone (o.Element (el.Named (codes "n") (e.Alone (o.Literal (l.Decimal 1)) ∷ [])))) []) ≡ so.Expression }
    ensures two { form_sort (f.Expressions (e.Alone (o.Element (el.Named (codes "n") []))) (e.Alone (o.Literal (l.Decimal 1)) ∷ [])) ≡ so.Expressions }
{}

/// What the parts of a tagged line can be decides where it may stand: `n; m`, `n; []m`, `n; m[1]`, `n; m::m`,
/// `n; []m; m::m`.
#[tactic(auto, using(crate::proofs::Trees::tree_rules))]
pub fn tagged_rows()
    ensures either { form_sort (f.Tagged (codes "n") (de.Element (el.Named (codes "m") [])) []) ≡ so.Tagged }
    ensures types { form_sort (f.Tagged (codes "n") (de.Array d.Open [] (codes "m")) []) ≡ so.Tag }
    ensures component { form_sort (f.Tagged (codes "n") (de.Element (el.Named (codes "m") (e.Alone (o.Literal (l.Decimal 1)) ∷ []))) []) ≡ so.Variant }
    ensures counted { form_sort (f.Tagged (codes "n") (de.Counted (el.Named (codes "m") []) (el.Named (codes "m") [])) []) ≡ so.Variant }
    ensures both { form_sort (f.Tagged (codes "n") (de.Array d.Open [] (codes "m")) (de.Counted (el.Named (codes "m") []) (el.Named (codes "m") []) ∷ [])) ≡ so.Nowhere }
{}

/// `PRI ALT` counts as `ALT`, `PRI PAR` as `PAR`, and `PACKED RECORD` as `RECORD`; `n & c ? CASE` has variants.
pub fn word_rows()
    ensures alternation { form_sort (f.Construct (k.Replicable ki.PriAlternation None)) ≡ so.Alternation }
    ensures parallel { form_sort (f.Construct (k.Replicable ki.PriParallel None)) ≡ so.Block }
    ensures record { form_sort (f.Part p.PackedRecord) ≡ so.Record }
    ensures guard { form_sort (f.Part (p.Guard (e.Alone (o.Element (el.Named (codes "n") []))) g.Skip)) ≡ so.Guard }
    ensures guarded_cases { form_sort (f.Part (p.Guard (e.Alone (o.Element (el.Named (codes "n") []))) (g.CaseInput (el.Named (codes "c") [])))) ≡ so.GuardedCaseInput }
{}
