//! Worked rows: what some trees spell.
#![tactic(auto, using(crate::proofs::Cases::spelling_rules))]

ghost use Rattle.occ_forms_expressions.specs.Spelling.{expr_then, type_form_then};
ghost use Rattle.occ_forms_expressions.specs.declared.tree.Bounds.TheVariants as b;
ghost use Rattle.occ_forms_expressions.specs.declared.tree.Builtin.TheVariants as u;
ghost use Rattle.occ_forms_expressions.specs.declared.tree.ChannelWords.TheVariants as c;
ghost use Rattle.occ_forms_expressions.specs.declared.tree.DataBase.TheVariants as da;
ghost use Rattle.occ_forms_expressions.specs.declared.tree.Dimension.TheVariants as d;
ghost use Rattle.occ_forms_expressions.specs.declared.tree.Element.TheVariants as el;
ghost use Rattle.occ_forms_expressions.specs.declared.tree.Expr.TheVariants as e;
ghost use Rattle.occ_forms_expressions.specs.declared.tree.Extreme.TheVariants as x;
ghost use Rattle.occ_forms_expressions.specs.declared.tree.Literal.TheVariants as l;
ghost use Rattle.occ_forms_expressions.specs.declared.tree.MonadicOperator.TheVariants as m;
ghost use Rattle.occ_forms_expressions.specs.declared.tree.NamedOperand.TheVariants as n;
ghost use Rattle.occ_forms_expressions.specs.declared.tree.Operand.TheVariants as o;
ghost use Rattle.occ_forms_expressions.specs.declared.tree.PairOperator.TheVariants as p;
ghost use Rattle.occ_forms_expressions.specs.declared.tree.PrimitiveWord.TheVariants as pr;
ghost use Rattle.occ_forms_expressions.specs.declared.tree.RunOperator.TheVariants as r;
ghost use Rattle.occ_forms_expressions.specs.declared.tree.TypeForm.TheVariants as ty;
ghost use Rattle.occ_lines.specs.declared.token.Symbol.TheVariants as s;
ghost use Rattle.occ_lines.specs.declared.token.Token.TheVariants as t;
ghost use Rattle.occ_lines.specs.declared.token.Word.TheVariants as w;
ghost use Rattle.std.specs.Prelude.{[], true, ◌∷◌, ◌≡◌};

/// What some trees spell, in the order of the clauses: `1 + 2 + 3`, `a - b`, `-5`, `INT x`, `T [1, 2]`, `T x`,
/// `MOSTPOS INT16`, `a[1][2]`, `[a FROM 1 FOR 2][3]`, `(TRUE)`, `[1] (T)`, `"a"`, `f ()`, `f (1, 2)`, `[3][]T x`,
/// `5 (BYTE)`, `CHAN OF ANY`, `CHAN [2]BYTE`, `MOSTPOS CHAN OF T`, `MOSTPOS CHAN OF T::[]U`.
pub fn spelling_rows()
    ensures run { expr_then (e.Run r.Add (o.Literal (l.Decimal 1)) (o.Literal (l.Decimal 2)) (o.Literal (l.Decimal 3) ∷ [])) [] ≡ t.Decimal 1 ∷ t.Symbol s.Plus ∷ t.Decimal 2 ∷ t.Symbol s.Plus ∷ t.Decimal 3 ∷ [] }
    ensures pair { expr_then (e.Pair (o.Element (el.Named (97 ∷ []) [])) p.Subtract (o.Element (el.Named (98 ∷ []) []))) [] ≡ t.Name (97 ∷ []) ∷ t.Symbol s.Minus ∷ t.Name (98 ∷ []) ∷ [] }
    ensures applied { expr_then (e.Applied m.Negate (o.Literal (l.Decimal 5))) [] ≡ t.Symbol s.Minus ∷ t.Decimal 5 ∷ [] }
    ensures converted { expr_then (e.Converted [] (u.Primitive pr.Int) (o.Element (el.Named (120 ∷ []) []))) [] ≡ t.Word w.Int ∷ t.Name (120 ∷ []) ∷ [] }
    ensures named_table { expr_then (e.Named (84 ∷ []) (n.Table (e.Alone (o.Literal (l.Decimal 1))) (e.Alone (o.Literal (l.Decimal 2))) [])) [] ≡ t.Name (84 ∷ []) ∷ t.Symbol s.OpenIndex ∷ t.Decimal 1 ∷ t.Symbol s.Comma ∷ t.Decimal 2 ∷ t.Symbol s.CloseIndex ∷ [] }
    ensures named { expr_then (e.Named (84 ∷ []) (n.Element (el.Named (120 ∷ []) []))) [] ≡ t.Name (84 ∷ []) ∷ t.Name (120 ∷ []) ∷ [] }
    ensures most { expr_then (e.Most x.Greatest (ty.Builtin [] (u.Primitive pr.Int16))) [] ≡ t.Word w.MostPos ∷ t.Word w.Int16 ∷ [] }
    ensures element { expr_then (e.Alone (o.Element (el.Named (97 ∷ []) (e.Alone (o.Literal (l.Decimal 1)) ∷ e.Alone (o.Literal (l.Decimal 2)) ∷ [])))) [] ≡ t.Name (97 ∷ []) ∷ t.Symbol s.OpenIndex ∷ t.Decimal 1 ∷ t.Symbol s.CloseIndex ∷ t.Symbol s.OpenIndex ∷ t.Decimal 2 ∷ t.Symbol s.CloseIndex ∷ [] }
    ensures segment { expr_then (e.Alone (o.Element (el.Segment (el.Named (97 ∷ []) []) (b.FromFor (e.Alone (o.Literal (l.Decimal 1))) (e.Alone (o.Literal (l.Decimal 2)))) (e.Alone (o.Literal (l.Decimal 3)) ∷ [])))) [] ≡ t.Symbol s.OpenIndex ∷ t.Name (97 ∷ []) ∷ t.Word w.From ∷ t.Decimal 1 ∷ t.Word w.For ∷ t.Decimal 2 ∷ t.Symbol s.CloseIndex ∷ t.Symbol s.OpenIndex ∷ t.Decimal 3 ∷ t.Symbol s.CloseIndex ∷ [] }
    ensures parens { expr_then (e.Alone (o.Parens (e.Alone (o.Truth true)))) [] ≡ t.Symbol s.Open ∷ t.Word w.True ∷ t.Symbol s.Close ∷ [] }
    ensures decorated_table { expr_then (e.Alone (o.DecoratedTable (e.Alone (o.Literal (l.Decimal 1))) [] (ty.Named [] (84 ∷ [])))) [] ≡ t.Symbol s.OpenIndex ∷ t.Decimal 1 ∷ t.Symbol s.CloseIndex ∷ t.Symbol s.Open ∷ t.Name (84 ∷ []) ∷ t.Symbol s.Close ∷ [] }
    ensures string { expr_then (e.Alone (o.Literal (l.String (97 ∷ [])))) [] ≡ t.String (97 ∷ []) ∷ [] }
    ensures no_arguments { expr_then (e.Alone (o.Call (102 ∷ []) [])) [] ≡ t.Name (102 ∷ []) ∷ t.Symbol s.Open ∷ t.Symbol s.Close ∷ [] }
    ensures arguments { expr_then (e.Alone (o.Call (102 ∷ []) (e.Alone (o.Literal (l.Decimal 1)) ∷ e.Alone (o.Literal (l.Decimal 2)) ∷ []))) [] ≡ t.Name (102 ∷ []) ∷ t.Symbol s.Open ∷ t.Decimal 1 ∷ t.Symbol s.Comma ∷ t.Decimal 2 ∷ t.Symbol s.Close ∷ [] }
    ensures array { expr_then (e.ArrayConverted (d.Sized (e.Alone (o.Literal (l.Decimal 3)))) (d.Open ∷ []) (84 ∷ []) (o.Element (el.Named (120 ∷ []) []))) [] ≡ t.Symbol s.OpenIndex ∷ t.Decimal 3 ∷ t.Symbol s.CloseIndex ∷ t.Symbol s.OpenIndex ∷ t.Symbol s.CloseIndex ∷ t.Name (84 ∷ []) ∷ t.Name (120 ∷ []) ∷ [] }
    ensures decorated { expr_then (e.Alone (o.Decorated (l.Decimal 5) (ty.Builtin [] (u.Primitive pr.Byte)))) [] ≡ t.Decimal 5 ∷ t.Symbol s.Open ∷ t.Word w.Byte ∷ t.Symbol s.Close ∷ [] }
    ensures any { type_form_then (ty.Builtin [] (u.AnyChannel c.ChanOf)) [] ≡ t.Word w.Chan ∷ t.Word w.Of ∷ t.Word w.Any ∷ [] }
    ensures channel { type_form_then (ty.Builtin [] (u.Channel c.Chan (d.Sized (e.Alone (o.Literal (l.Decimal 2))) ∷ []) (da.Primitive pr.Byte))) [] ≡ t.Word w.Chan ∷ t.Symbol s.OpenIndex ∷ t.Decimal 2 ∷ t.Symbol s.CloseIndex ∷ t.Word w.Byte ∷ [] }
    ensures most_channel { expr_then (e.Most x.Greatest (ty.Builtin [] (u.Channel c.ChanOf [] (da.Named (84 ∷ []))))) [] ≡ t.Word w.MostPos ∷ t.Word w.Chan ∷ t.Word w.Of ∷ t.Name (84 ∷ []) ∷ [] }
    ensures most_counted { expr_then (e.Most x.Greatest (ty.Builtin [] (u.Counted c.ChanOf [] (da.Named (84 ∷ [])) [] (da.Named (85 ∷ []))))) [] ≡ t.Word w.MostPos ∷ t.Word w.Chan ∷ t.Word w.Of ∷ t.Name (84 ∷ []) ∷ t.Symbol s.Counted ∷ t.Symbol s.OpenIndex ∷ t.Symbol s.CloseIndex ∷ t.Name (85 ∷ []) ∷ [] }
{}
