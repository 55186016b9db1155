//! Worked rows: conditions, and an assignment to a `VAL` name.
ghost use Rattle.std.specs.Prelude.{[], ◌∷◌, ◌≡◌, None, Some, pos, true};
ghost use Rattle.occ_base.specs.declared.code.Code.TheVariants as code;
ghost use Rattle.occ_forms_expressions.specs.declared.tree.Element.TheVariants as el;
ghost use Rattle.occ_forms_expressions.specs.declared.tree.Expr.TheVariants as x;
ghost use Rattle.occ_forms_expressions.specs.declared.tree.Literal.TheVariants as l;
ghost use Rattle.occ_forms_expressions.specs.declared.tree.Operand.TheVariants as o;
ghost use Rattle.occ_scope.specs.Visible.{entered, nothing};
ghost use Rattle.occ_scope.specs.declared.meaning.Access.TheVariants as access;
ghost use Rattle.occ_scope.specs.declared.meaning.Meaning.TheVariants as m;
ghost use Rattle.occ_scope.specs.declared.scope.Scope.{Scope};
ghost use Rattle.occ_base.specs.Reporting.{nameless};
ghost use Rattle.occ_typing_operands.specs.Outcomes.{decimal};
ghost use Rattle.occ_typing_operands.specs.declared.kind.Kind.TheVariants as k;
ghost use Rattle.occ_typing_tables.specs.Terms.{judged_all};
ghost use Rattle.occ_typing_tables.specs.declared.term.Term.TheVariants as v;
ghost use Rattle.occ_typing_rules.specs.Assigning.{assigned};
ghost use Rattle.occ_typing_statements.specs.Statements.{condition};
ghost use Rattle.occ_typing_statements.specs.Targets.{targets};
ghost use Rattle.occ_types.specs.declared.types.OccType.TheVariants as t;
ghost use Rattle.occ_types.specs.declared.value.Primitive.TheVariants as p;

/// `IF` or `WHILE` with TRUE, and with 1, which is no BOOL.
#[tactic(auto, using(occ_expr_operations::proofs::Views::expr_rules, occ_expr_operations::proofs::Views::operand_rules, occ_typing_tables::proofs::Judging::judging_rules, occ_types::proofs::Agreeing::fit_rules), unfolding(occ_expr_operations::specs::Literals::literal))]
pub fn condition_rows()
    ensures truth { (s : Scope) → condition s (x.Alone (o.Truth true)) ≡ [] }
    ensures number { (s : Scope) → condition s (x.Alone (o.Literal (l.Decimal 1))) ≡ nameless code.T7 ∷ [] }
{}

/// `v := 255` of a VAL name `v`, which is 118: the target reports T3 with its name, and its value reports nothing then.
#[tactic(auto, using(occ_expr_operations::proofs::Views::element_rules, occ_typing_tables::proofs::Judging::judging_rules, occ_expr::proofs::Roots::root_rules), unfolding(occ_expr_operations::specs::Parts::named_element, occ_expr::specs::Targets::target_of))]
pub fn assignment_rows()
    ensures target { targets (entered nothing (118 ∷ []) (m.Element (record { of = t.Primitive p.Byte; access = access.Value; value = None; root = 118 ∷ [] }))) (el.Named (118 ∷ []) [] ∷ []) ≡ (record { faults = (record { code = code.T3; name = Some (118 ∷ []) }) ∷ []; kind = k.Faulty }) ∷ [] }
    ensures value { assigned (k.Faulty ∷ []) (judged_all (v.Single (k.Untyped (decimal (pos 255))) ∷ [])) ≡ [] }
{}
