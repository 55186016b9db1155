//! Worked rows: first tokens in no expression, open brackets, dimensions.
ghost use Rattle.occ_forms_expressions.specs.Depth.{builtin_dimensions, expr_dimensions, most_open, type_form_dimensions};
ghost use Rattle.occ_forms_expressions.specs.Marks.{first_mark};
ghost use Rattle.occ_forms_expressions.specs.declared.tree.Builtin.TheVariants as u;
ghost use Rattle.occ_forms_expressions.specs.declared.tree.ChannelWords.TheVariants as c;
ghost use Rattle.occ_forms_expressions.specs.declared.tree.DataBase.TheVariants as da;
ghost use Rattle.occ_forms_expressions.specs.declared.tree.Dimension.TheVariants as d;
ghost use Rattle.occ_forms_expressions.specs.declared.tree.Element.TheVariants as el;
ghost use Rattle.occ_forms_expressions.specs.declared.tree.Expr.TheVariants as e;
ghost use Rattle.occ_forms_expressions.specs.declared.tree.Literal.TheVariants as l;
ghost use Rattle.occ_forms_expressions.specs.declared.tree.NamedOperand.TheVariants as n;
ghost use Rattle.occ_forms_expressions.specs.declared.tree.Operand.TheVariants as o;
ghost use Rattle.occ_forms_expressions.specs.declared.tree.PrimitiveWord.TheVariants as pr;
ghost use Rattle.occ_forms_expressions.specs.declared.tree.TypeForm.TheVariants as ty;
ghost use Rattle.occ_lines.specs.declared.token.Symbol.TheVariants as s;
ghost use Rattle.occ_lines.specs.declared.token.Token.TheVariants as t;
ghost use Rattle.occ_lines.specs.declared.token.Word.TheVariants as w;
ghost use Rattle.std.specs.Prelude.{None, Some, [], ◌∷◌, ◌≡◌};

/// The first marks of some lines, in the order of the clauses: `a := 1`, `INT FUNCTION`, `BYTE x`.
pub fn mark_rows()
    ensures assignment { first_mark (t.Name (97 ∷ []) ∷ t.Symbol s.Assign ∷ t.Decimal 1 ∷ []) ≡ Some (t.Symbol s.Assign) }
    ensures function { first_mark (t.Word w.Int ∷ t.Word w.Function ∷ []) ≡ Some (t.Word w.Function) }
    ensures none { first_mark (t.Word w.Byte ∷ t.Name (120 ∷ []) ∷ []) ≡ None }
{}

/// The most brackets open at once in some lines, in the order of the clauses: `([])(`, `)(`, `(](`.
pub fn bracket_rows()
    ensures both_kinds { most_open 0 (t.Symbol s.Open ∷ t.Symbol s.OpenIndex ∷ t.Symbol s.CloseIndex ∷ t.Symbol s.Close ∷ t.Symbol s.Open ∷ []) ≡ 2 }
    ensures none_open { most_open 0 (t.Symbol s.Close ∷ t.Symbol s.Open ∷ []) ≡ 1 }
    ensures either { most_open 0 (t.Symbol s.Open ∷ t.Symbol s.CloseIndex ∷ t.Symbol s.Open ∷ []) ≡ 1 }
{}

/// The greatest number of dimensions in some trees, in the order of the clauses: `[][1]T`, `[]CHAN OF [][]BYTE`,
/// `CHAN OF INT::[][]BYTE`, `[][]T 1`, `T 1`, `[[][]T 1]T`, `5 ([]T)`, `a[[][]T 1]`.
#[tactic(auto, using(crate::proofs::Counts::dimension_rules))]
pub fn dimension_rows()
    ensures array { type_form_dimensions (ty.Named (d.Open ∷ d.Sized (e.Alone (o.Literal (l.Decimal 1))) ∷ []) (84 ∷ [])) ≡ 2 }
    ensures channels { type_form_dimensions (ty.Builtin (d.Open ∷ []) (u.Channel c.ChanOf (d.Open ∷ d.Open ∷ []) (da.Primitive pr.Byte))) ≡ 2 }
    ensures counted { builtin_dimensions (u.Counted c.ChanOf [] (da.Primitive pr.Int) (d.Open ∷ []) (da.Primitive pr.Byte)) ≡ 2 }
    ensures converted { expr_dimensions (e.ArrayConverted d.Open (d.Open ∷ []) (84 ∷ []) (o.Literal (l.Decimal 1))) ≡ 2 }
    ensures named { expr_dimensions (e.Named (84 ∷ []) (n.Literal (l.Decimal 1))) ≡ 0 }
    ensures in_size { type_form_dimensions (ty.Named (d.Sized (e.ArrayConverted d.Open (d.Open ∷ []) (84 ∷ []) (o.Literal (l.Decimal 1))) ∷ []) (84 ∷ [])) ≡ 2 }
    ensures decorated { expr_dimensions (e.Alone (o.Decorated (l.Decimal 5) (ty.Named (d.Open ∷ []) (84 ∷ [])))) ≡ 1 }
    ensures in_subscript { expr_dimensions (e.Alone (o.Element (el.Named (97 ∷ []) (e.ArrayConverted d.Open (d.Open ∷ []) (84 ∷ []) (o.Literal (l.Decimal 1)) ∷ [])))) ≡ 2 }
{}
