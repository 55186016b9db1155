//! Worked rows: what some lines of specification and heads spell, and lines without a form.
#![tactic(auto, using(occ_forms_expressions::proofs::Cases::spelling_rules))]

ghost use Rattle.occ_forms_expressions.specs.declared.tree.Builtin.TheVariants as u;
ghost use Rattle.occ_forms_expressions.specs.declared.tree.ChannelWords.TheVariants as c;
ghost use Rattle.occ_forms_expressions.specs.declared.tree.DataBase.TheVariants as da;
ghost use Rattle.occ_forms_expressions.specs.declared.tree.Dimension.TheVariants as d;
ghost use Rattle.occ_forms_expressions.specs.declared.tree.Element.TheVariants as el;
ghost use Rattle.occ_forms_expressions.specs.declared.tree.Expr.TheVariants as e;
ghost use Rattle.occ_forms_expressions.specs.declared.tree.Literal.TheVariants as l;
ghost use Rattle.occ_forms_expressions.specs.declared.tree.Operand.TheVariants as o;
ghost use Rattle.occ_forms_expressions.specs.declared.tree.PrimitiveWord.TheVariants as pr;
ghost use Rattle.occ_forms_expressions.specs.declared.tree.TypeForm.TheVariants as ty;
ghost use Rattle.occ_lines.specs.declared.token.Symbol.TheVariants as s;
ghost use Rattle.occ_lines.specs.declared.token.Token.TheVariants as t;
ghost use Rattle.occ_lines.specs.declared.token.Word.TheVariants as w;
ghost use Rattle.occ_forms.specs.SpecificationSpelling.{specified_tokens};
ghost use Rattle.occ_forms.specs.declared.specification_tree.FormalGroup.TheVariants as fo;
ghost use Rattle.occ_forms.specs.declared.specification_tree.Head.TheVariants as he;
ghost use Rattle.occ_forms.specs.declared.specification_tree.Inlined.TheVariants as nl;
ghost use Rattle.occ_forms.specs.declared.specification_tree.ItemForm.TheVariants as it;
ghost use Rattle.occ_forms.specs.declared.specification_tree.Recast.TheVariants as rc;
ghost use Rattle.occ_forms.specs.declared.specification_tree.Specification.TheVariants as sp;
ghost use Rattle.occ_forms.specs.declared.specification_tree.Specified.TheVariants as sd;
ghost use Rattle.occ_forms.specs.declared.specification_tree.Specified.{Specified as ASpecified};
ghost use Rattle.std.specs.Prelude.{None, Some, [], ◌∷◌, ◌≡◌, ◌≢◌};

/// What some lines spell, in the order of the clauses: `INT a, b:`, `TIMER a:`, `CHAN OF BYTE::[]BYTE a:`,
/// `a IS b:`, `[]INT a IS b:`, `VAL a IS 1:`, `VAL INT a IS 1:`, `INT a RETYPES b:`, `VAL INT a RESHAPES 1:`,
/// `PROTOCOL a IS INT; BYTE::[]T:`, `DATA TYPE T IS INT:`, `INT INLINE FUNCTION a () IS 1, 2:`.
pub fn line_rows()
    ensures declaration { specified_tokens (sd.Line (sp.Declaration (ty.Builtin [] (u.Primitive pr.Int)) (97 ∷ []) ((98 ∷ []) ∷ []))) ≡ t.Word w.Int ∷ t.Name (97 ∷ []) ∷ t.Symbol s.Comma ∷ t.Name (98 ∷ []) ∷ t.Symbol s.Colon ∷ [] }
    ensures timer { specified_tokens (sd.Line (sp.Declaration (ty.Builtin [] u.Timer) (97 ∷ []) [])) ≡ t.Word w.Timer ∷ t.Name (97 ∷ []) ∷ t.Symbol s.Colon ∷ [] }
    ensures channel { specified_tokens (sd.Line (sp.Declaration (ty.Builtin [] (u.Counted c.ChanOf [] (da.Primitive pr.Byte) [] (da.Primitive pr.Byte))) (97 ∷ []) [])) ≡ t.Word w.Chan ∷ t.Word w.Of ∷ t.Word w.Byte ∷ t.Symbol s.Counted ∷ t.Symbol s.OpenIndex ∷ t.Symbol s.CloseIndex ∷ t.Word w.Byte ∷ t.Name (97 ∷ []) ∷ t.Symbol s.Colon ∷ [] }
    ensures untyped { specified_tokens (sd.Line (sp.Abbreviation None (97 ∷ []) (el.Named (98 ∷ []) []))) ≡ t.Name (97 ∷ []) ∷ t.Word w.Is ∷ t.Name (98 ∷ []) ∷ t.Symbol s.Colon ∷ [] }
    ensures abbreviation { specified_tokens (sd.Line (sp.Abbreviation (Some (ty.Builtin (d.Open ∷ []) (u.Primitive pr.Int))) (97 ∷ []) (el.Named (98 ∷ []) []))) ≡ t.Symbol s.OpenIndex ∷ t.Symbol s.CloseIndex ∷ t.Word w.Int ∷ t.Name (97 ∷ []) ∷ t.Word w.Is ∷ t.Name (98 ∷ []) ∷ t.Symbol s.Colon ∷ [] }
    ensures untyped_value { specified_tokens (sd.Line (sp.Value None (97 ∷ []) (e.Alone (o.Literal (l.Decimal 1))))) ≡ t.Word w.Val ∷ t.Name (97 ∷ []) ∷ t.Word w.Is ∷ t.Decimal 1 ∷ t.Symbol s.Colon ∷ [] }
    ensures value { specified_tokens (sd.Line (sp.Value (Some (ty.Builtin [] (u.Primitive pr.Int))) (97 ∷ []) (e.Alone (o.Literal (l.Decimal 1))))) ≡ t.Word w.Val ∷ t.Word w.Int ∷ t.Name (97 ∷ []) ∷ t.Word w.Is ∷ t.Decimal 1 ∷ t.Symbol s.Colon ∷ [] }
    ensures retyped { specified_tokens (sd.Line (sp.Retyped rc.Retypes (ty.Builtin [] (u.Primitive pr.Int)) (97 ∷ []) (el.Named (98 ∷ []) []))) ≡ t.Word w.Int ∷ t.Name (97 ∷ []) ∷ t.Word w.Retypes ∷ t.Name (98 ∷ []) ∷ t.Symbol s.Colon ∷ [] }
    ensures reshaped_value { specified_tokens (sd.Line (sp.RetypedValue rc.Reshapes (ty.Builtin [] (u.Primitive pr.Int)) (97 ∷ []) (e.Alone (o.Literal (l.Decimal 1))))) ≡ t.Word w.Val ∷ t.Word w.Int ∷ t.Name (97 ∷ []) ∷ t.Word w.Reshapes ∷ t.Decimal 1 ∷ t.Symbol s.Colon ∷ [] }
    ensures protocol { specified_tokens (sd.Line (sp.Protocol (97 ∷ []) (it.Plain (record { dimensions = []; base = da.Primitive pr.Int })) (it.Counted (record { dimensions = []; base = da.Primitive pr.Byte }) (record { dimensions = []; base = da.Named (84 ∷ []) }) ∷ []))) ≡ t.Word w.Protocol ∷ t.Name (97 ∷ []) ∷ t.Word w.Is ∷ t.Word w.Int ∷ t.Symbol s.Semicolon ∷ t.Word w.Byte ∷ t.Symbol s.Counted ∷ t.Symbol s.OpenIndex ∷ t.Symbol s.CloseIndex ∷ t.Name (84 ∷ []) ∷ t.Symbol s.Colon ∷ [] }
    ensures data_type { specified_tokens (sd.Line (sp.DataType (84 ∷ []) (ty.Builtin [] (u.Primitive pr.Int)))) ≡ t.Word w.Data ∷ t.Word w.Type ∷ t.Name (84 ∷ []) ∷ t.Word w.Is ∷ t.Word w.Int ∷ t.Symbol s.Colon ∷ [] }
    ensures function { specified_tokens (sd.Line (sp.Function (record { first = ty.Builtin [] (u.Primitive pr.Int); more = []; inlined = nl.Yes; name = 97 ∷ []; formals = [] }) (e.Alone (o.Literal (l.Decimal 1))) (e.Alone (o.Literal (l.Decimal 2)) ∷ []))) ≡ t.Word w.Int ∷ t.Word w.Inline ∷ t.Word w.Function ∷ t.Name (97 ∷ []) ∷ t.Symbol s.Open ∷ t.Symbol s.Close ∷ t.Word w.Is ∷ t.Decimal 1 ∷ t.Symbol s.Comma ∷ t.Decimal 2 ∷ t.Symbol s.Colon ∷ [] }
{}

/// What some heads spell, in the order of the clauses: `PROC a ()`, `INLINE PROC a (VAL INT b, c, T d)`,
/// `INT, T FUNCTION a (VAL INT b, c, VAL T d)`, `PROTOCOL a`, `DATA TYPE T`.
pub fn head_rows()
    ensures no_formals { specified_tokens (sd.Head (he.Procedure nl.No (97 ∷ []) [])) ≡ t.Word w.Proc ∷ t.Name (97 ∷ []) ∷ t.Symbol s.Open ∷ t.Symbol s.Close ∷ [] }
    ensures procedure { specified_tokens (sd.Head (he.Procedure nl.Yes (97 ∷ []) (fo.Value (record { form = record { dimensions = []; base = da.Primitive pr.Int }; first = 98 ∷ []; more = (99 ∷ []) ∷ [] }) ∷ fo.Plain (ty.Named [] (84 ∷ [])) (100 ∷ []) [] ∷ []))) ≡ t.Word w.Inline ∷ t.Word w.Proc ∷ t.Name (97 ∷ []) ∷ t.Symbol s.Open ∷ t.Word w.Val ∷ t.Word w.Int ∷ t.Name (98 ∷ []) ∷ t.Symbol s.Comma ∷ t.Name (99 ∷ []) ∷ t.Symbol s.Comma ∷ t.Name (84 ∷ []) ∷ t.Name (100 ∷ []) ∷ t.Symbol s.Close ∷ [] }
    ensures function { specified_tokens (sd.Head (he.Function (record { first = ty.Builtin [] (u.Primitive pr.Int); more = ty.Named [] (84 ∷ []) ∷ []; inlined = nl.No; name = 97 ∷ []; formals = record { form = record { dimensions = []; base = da.Primitive pr.Int }; first = 98 ∷ []; more = (99 ∷ []) ∷ [] } ∷ record { form = record { dimensions = []; base = da.Named (84 ∷ []) }; first = 100 ∷ []; more = [] } ∷ [] }))) ≡ t.Word w.Int ∷ t.Symbol s.Comma ∷ t.Name (84 ∷ []) ∷ t.Word w.Function ∷ t.Name (97 ∷ []) ∷ t.Symbol s.Open ∷ t.Word w.Val ∷ t.Word w.Int ∷ t.Name (98 ∷ []) ∷ t.Symbol s.Comma ∷ t.Name (99 ∷ []) ∷ t.Symbol s.Comma ∷ t.Word w.Val ∷ t.Name (84 ∷ []) ∷ t.Name (100 ∷ []) ∷ t.Symbol s.Close ∷ [] }
    ensures protocol { specified_tokens (sd.Head (he.Protocol (97 ∷ []))) ≡ t.Word w.Protocol ∷ t.Name (97 ∷ []) ∷ [] }
    ensures data_type { specified_tokens (sd.Head (he.DataType (84 ∷ []))) ≡ t.Word w.Data ∷ t.Word w.Type ∷ t.Name (84 ∷ []) ∷ [] }
{}

/// What has no form, in the order of the clauses: `INLINE INT FUNCTION a ()`, `a IS (b):`, `PROC a (VAL CHAN OF INT b)`,
/// `INT FUNCTION a (INT b)`.
pub fn no_form_rows()
    ensures inline_first { (x : ASpecified) → specified_tokens x ≢ t.Word w.Inline ∷ t.Word w.Int ∷ t.Word w.Function ∷ t.Name (97 ∷ []) ∷ t.Symbol s.Open ∷ t.Symbol s.Close ∷ [] }
    ensures element_in_parens { (x : ASpecified) → specified_tokens x ≢ t.Name (97 ∷ []) ∷ t.Word w.Is ∷ t.Symbol s.Open ∷ t.Name (98 ∷ []) ∷ t.Symbol s.Close ∷ t.Symbol s.Colon ∷ [] }
    ensures value_channel { (x : ASpecified) → specified_tokens x ≢ t.Word w.Proc ∷ t.Name (97 ∷ []) ∷ t.Symbol s.Open ∷ t.Word w.Val ∷ t.Word w.Chan ∷ t.Word w.Of ∷ t.Word w.Int ∷ t.Name (98 ∷ []) ∷ t.Symbol s.Close ∷ [] }
    ensures formal_without_val { (x : ASpecified) → specified_tokens x ≢ t.Word w.Int ∷ t.Word w.Function ∷ t.Name (97 ∷ []) ∷ t.Symbol s.Open ∷ t.Word w.Int ∷ t.Name (98 ∷ []) ∷ t.Symbol s.Close ∷ [] }
{}
