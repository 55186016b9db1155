//! Worked rows: a literal, an unknown name, fields of a record.
ghost use Rattle.std.specs.Prelude.{[], ◌∷◌, ◌≡◌, None, Some, pos};
ghost use Rattle.occ_base.specs.declared.code.Code.TheVariants as code;
ghost use Rattle.occ_expr_operations.specs.Views.{element_view, expr_view};
ghost use Rattle.occ_forms_expressions.specs.declared.tree.Element.TheVariants as el;
ghost use Rattle.occ_forms_expressions.specs.declared.tree.Expr.TheVariants as x;
ghost use Rattle.occ_forms_expressions.specs.declared.tree.Literal.TheVariants as l;
ghost use Rattle.occ_forms_expressions.specs.declared.tree.Operand.TheVariants as o;
ghost use Rattle.occ_scope.specs.Visible.{entered, nothing};
ghost use Rattle.occ_scope.specs.declared.meaning.Access.TheVariants as access;
ghost use Rattle.occ_scope.specs.declared.meaning.Meaning.TheVariants as m;
ghost use Rattle.occ_scope.specs.declared.scope.Scope.{Scope};
ghost use Rattle.occ_typing_operands.specs.Outcomes.{decimal};
ghost use Rattle.occ_typing_operands.specs.Settling.{int, known};
ghost use Rattle.occ_typing_operands.specs.declared.kind.Kind.TheVariants as k;
ghost use Rattle.occ_typing_tables.specs.declared.term.Term.TheVariants as v;
ghost use Rattle.occ_types.specs.declared.types.OccType.TheVariants as t;
ghost use Rattle.occ_types.specs.declared.types.Packing.TheVariants as packing;

/// The literal 256, which no type is wanted of yet.
#[tactic(auto, using(occ_expr_operations::proofs::Views::expr_rules, occ_expr_operations::proofs::Views::operand_rules), unfolding(occ_expr_operations::specs::Literals::literal))]
pub fn literal_rows()
    ensures literal { (s : Scope) → (expr_view (x.Alone (o.Literal (l.Decimal 256)))).said s ≡ record { faults = []; term = v.Single (k.Untyped (decimal (pos 256))) } }
{}

/// The name `z`, which is 122, where nothing is in scope.
#[tactic(auto, using(occ_expr_operations::proofs::Views::expr_rules, occ_expr_operations::proofs::Views::operand_rules, occ_expr_operations::proofs::Views::element_rules), unfolding(occ_expr_operations::specs::Parts::named_element, occ_expr_operations::specs::Parts::whole_element))]
pub fn unknown_rows()
    ensures unknown { (expr_view (x.Alone (o.Element (el.Named (122 ∷ []) [])))).said nothing ≡ record { faults = (record { code = code.N1; name = Some (122 ∷ []) }) ∷ []; term = v.Single k.Faulty } }
{}

/// `r[x]` and `r[z]` of a record `r`, which is 114, with the fields `x` and `y`, which are 120 and 121: `z` is no field.
pub fn field_rows()
    ensures field { (element_view (el.Named (114 ∷ []) (x.Alone (o.Element (el.Named (120 ∷ []) [])) ∷ []))).reported (entered nothing (114 ∷ []) (m.Element (record { of = t.Record packing.Plain ((record { name = 120 ∷ []; of = int }) ∷ (record { name = 121 ∷ []; of = int }) ∷ []); access = access.Variable; value = None; root = 114 ∷ [] }))) ≡ record { faults = []; kind = known int None } }
    ensures unknown { (element_view (el.Named (114 ∷ []) (x.Alone (o.Element (el.Named (122 ∷ []) [])) ∷ []))).reported (entered nothing (114 ∷ []) (m.Element (record { of = t.Record packing.Plain ((record { name = 120 ∷ []; of = int }) ∷ (record { name = 121 ∷ []; of = int }) ∷ []); access = access.Variable; value = None; root = 114 ∷ [] }))) ≡ record { faults = (record { code = code.N1; name = Some (122 ∷ []) }) ∷ []; kind = k.Faulty } }
{}
