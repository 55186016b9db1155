//! Worked rows: tags, outputs, tables as items, timers, variants, roots.
ghost use Rattle.std.specs.Prelude.{[], ◌∷◌, ◌≡◌, None, Some, codes, pos};
ghost use Rattle.occ_base.specs.declared.code.Code.TheVariants as code;
ghost use Rattle.occ_forms_expressions.specs.declared.tree.Element.TheVariants as el;
ghost use Rattle.occ_forms_expressions.specs.declared.tree.Expr.TheVariants as x;
ghost use Rattle.occ_forms_expressions.specs.declared.tree.Operand.TheVariants as o;
ghost use Rattle.occ_forms.specs.declared.tree.InputItem.TheVariants as into;
ghost use Rattle.occ_forms.specs.declared.tree.OutputItem.TheVariants as out;
ghost use Rattle.occ_scope.specs.Visible.{entered, nothing};
ghost use Rattle.occ_scope.specs.declared.meaning.Access.TheVariants as access;
ghost use Rattle.occ_scope.specs.declared.meaning.Meaning.TheVariants as m;
ghost use Rattle.occ_scope.specs.declared.scope.Scope.{Scope};
ghost use Rattle.occ_typing_operands.specs.Outcomes.{decimal};
ghost use Rattle.occ_typing_operands.specs.Settling.{int, known};
ghost use Rattle.occ_typing_operands.specs.declared.kind.Kind.TheVariants as k;
ghost use Rattle.occ_protocol.specs.Carrying.Carrier.{Data, Sequence, Variant};
ghost use Rattle.occ_protocol.specs.Matching.{named};
ghost use Rattle.occ_typing_tables.specs.declared.term.Term.TheVariants as v;
ghost use Rattle.occ_typing_rules.specs.declared.expr.TypedElement.{TypedElement as AnElement};
ghost use Rattle.occ_types.specs.declared.types.Item.TheVariants as i;
ghost use Rattle.occ_types.specs.declared.types.OccType.TheVariants as t;
ghost use Rattle.occ_types.specs.declared.types.Protocol.TheVariants as protocol;
ghost use Rattle.occ_types.specs.declared.value.Primitive.TheVariants as p;
ghost use Rattle.occ_types.specs.declared.value.Value.TheVariants as value;
ghost use Rattle.occ_typing_statements.specs.Inputs.{plain_faults, time_of};
ghost use Rattle.occ_typing_statements.specs.Sending.{after_tag, operand_as, output_faults, tag_of};
ghost use Rattle.occ_typing_statements.specs.Through.{root_in};
ghost use Rattle.occ_typing_statements.specs.Variants.{repeated};
ghost use Rattle.occ_typing_statements.specs.declared.exchange_tree.TypedInput.TheVariants as typed;
ghost use Rattle.occ_typing_statements.specs.declared.exchange_tree.TypedTarget.TheVariants as target;

/// The name `go`, sent first: through a channel of a protocol with the tag `a` it is a tag, through one of ANY it is none, and
/// in parentheses it is none either.
#[tactic(auto, using(occ_expr_operations::proofs::Views::expr_rules, occ_expr_operations::proofs::Views::operand_rules, occ_expr_operations::proofs::Views::element_rules, occ_expr_operations::proofs::Views::name_rules))]
pub fn tag_rows()
    ensures tag { tag_of (Variant ((record { name = codes "a"; items = [] }) ∷ [])) (out.Plain (x.Alone (o.Element (el.Named (codes "go") [])))) ≡ Some (codes "go") }
    ensures data { tag_of Data (out.Plain (x.Alone (o.Element (el.Named (codes "go") [])))) ≡ None }
    ensures parens { tag_of (Variant ((record { name = codes "a"; items = [] }) ∷ [])) (out.Plain (x.Alone (o.Parens (x.Alone (o.Element (el.Named (codes "go") [])))))) ≡ None }
{}

/// `c ! tagz` and `c ! a` through a channel of a protocol with the tag `a`, and nothing after `a`.
pub fn output_rows()
    ensures other { (s : Scope) → after_tag s (Variant ((record { name = codes "a"; items = [] }) ∷ [])) (codes "c") (Some (codes "tagz")) [] ≡ named code.P2 (codes "tagz") }
    ensures there { (s : Scope) → after_tag s (Variant ((record { name = codes "a"; items = [] }) ∷ [])) (codes "c") (Some (codes "a")) [] ≡ [] }
    ensures fewer { (s : Scope) → after_tag s (Sequence (i.Value int ∷ [])) (codes "c") None [] ≡ named code.P1 (codes "c") }
{}

/// 7 where a BYTE is wanted, and 300, which is then an INT; a table of them where an array of two BYTEs is wanted.
#[tactic(auto, using(crate::proofs::Operands::operand_rules, occ_types::proofs::Agreeing::fit_rules))]
pub fn operand_rows()
    ensures fits { operand_as (t.Primitive p.Byte) (v.Single (k.Untyped (decimal (pos 7)))) ≡ record { faults = []; kind = known (t.Primitive p.Byte) (Some (value.Byte 7)) } }
    ensures int { operand_as (t.Primitive p.Byte) (v.Single (k.Untyped (decimal (pos 300)))) ≡ record { faults = []; kind = known int (Some (value.Int (pos 300))) } }
{}

/// An input from a timer with one target, with two, and with a counted one.
pub fn time_rows()
    ensures one { (timer x : AnElement) → time_of timer (target.Single x ∷ []) ≡ Some (typed.Time timer x) }
    ensures two { (timer x : AnElement) → time_of timer (target.Single x ∷ target.Single x ∷ []) ≡ None }
    ensures counted { (timer x : AnElement) → time_of timer (target.Counted x x ∷ []) ≡ None }
{}

/// A variant whose tag stood before: T8, unless the protocol has not got it.
pub fn variant_rows()
    ensures again { repeated (Variant ((record { name = codes "a"; items = [] }) ∷ [])) (codes "a" ∷ []) (codes "a") ≡ named code.T8 (codes "a") }
    ensures first { repeated (Variant ((record { name = codes "a"; items = [] }) ∷ [])) [] (codes "a") ≡ [] }
    ensures lacked { repeated (Variant ((record { name = codes "a"; items = [] }) ∷ [])) (codes "tagz" ∷ []) (codes "tagz") ≡ [] }
    ensures other { repeated (Sequence []) (codes "a" ∷ []) (codes "a") ≡ named code.T8 (codes "a") }
{}

/// The name that is reported of an abbreviation `d` of a channel `c`, and of what is no element.
pub fn root_rows()
    ensures abbreviation { root_in (codes "d") (Some (m.Element (record { of = t.Timer; access = access.Variable; value = None; root = codes "c" }))) ≡ codes "c" }
    ensures none { root_in (codes "d") None ≡ codes "d" }
{}

/// `c ! tagz` and `d ? x`, where `c` and `d` are channels of a protocol `P` with the tag `a`, and `x` is an INT.
#[tactic(auto, using(occ_expr_operations::proofs::Views::expr_rules, occ_expr_operations::proofs::Views::operand_rules, occ_expr_operations::proofs::Views::element_rules, occ_expr_operations::proofs::Views::name_rules, occ_expr::proofs::Roots::root_rules, occ_protocol::proofs::Carried::carried_rules, occ_types::proofs::Agreeing::fit_rules), unfolding(crate::specs::Inputs::plain_faults, crate::specs::Sending::output_faults, occ_expr_operations::specs::Parts::named_element, occ_expr::specs::Targets::target_of))]
pub fn variant_protocol_rows()
    ensures output { output_faults (entered nothing (codes "c") (m.Element (record { of = t.Channel (protocol.Defined (codes "P") (protocol.Variant ((record { name = codes "a"; items = [] }) ∷ []))); access = access.Variable; value = None; root = codes "c" }))) (el.Named (codes "c") []) (out.Plain (x.Alone (o.Element (el.Named (codes "tagz") [])))) [] ≡ named code.P2 (codes "tagz") }
    ensures input { plain_faults (entered (entered nothing (codes "d") (m.Element (record { of = t.Channel (protocol.Defined (codes "P") (protocol.Variant ((record { name = codes "a"; items = [] }) ∷ []))); access = access.Variable; value = None; root = codes "d" }))) (codes "x") (m.Element (record { of = int; access = access.Variable; value = None; root = codes "x" }))) (el.Named (codes "d") []) (into.Plain (el.Named (codes "x") []) ∷ []) ≡ named code.P3 (codes "d") }
{}
