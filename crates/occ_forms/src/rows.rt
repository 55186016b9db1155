//! Worked rows: what some lines spell, and lines with a fault.
#![tactic(auto, using(occ_forms_expressions::proofs::Cases::spelling_rules))]

ghost use Rattle.occ_base.specs.declared.code.Code.TheVariants.{L1, S1};
ghost use Rattle.occ_forms_expressions.specs.declared.tree.Builtin.TheVariants as u;
ghost use Rattle.occ_forms_expressions.specs.declared.tree.ChannelWords.TheVariants as c;
ghost use Rattle.occ_forms_expressions.specs.declared.tree.DataBase.TheVariants as da;
ghost use Rattle.occ_forms_expressions.specs.declared.tree.Dimension.TheVariants as d;
ghost use Rattle.occ_forms_expressions.specs.declared.tree.Element.TheVariants as el;
ghost use Rattle.occ_forms_expressions.specs.declared.tree.Expr.TheVariants as e;
ghost use Rattle.occ_forms_expressions.specs.declared.tree.Literal.TheVariants as l;
ghost use Rattle.occ_forms_expressions.specs.declared.tree.Operand.TheVariants as o;
ghost use Rattle.occ_forms_expressions.specs.declared.tree.PrimitiveWord.TheVariants as pr;
ghost use Rattle.occ_forms.specs.Prepared.{IsFormed};
ghost use Rattle.occ_forms.specs.Spelling.{form_tokens};
ghost use Rattle.occ_forms.specs.declared.source.LineBody.TheVariants as held;
ghost use Rattle.occ_forms.specs.declared.tree.Action.TheVariants as a;
ghost use Rattle.occ_forms.specs.declared.tree.Construct.TheVariants as k;
ghost use Rattle.occ_forms.specs.declared.tree.Detail.TheVariants as de;
ghost use Rattle.occ_forms.specs.declared.tree.Form.TheVariants as f;
ghost use Rattle.occ_forms.specs.declared.tree.Guarded.TheVariants as g;
ghost use Rattle.occ_forms.specs.declared.tree.Input.TheVariants as i;
ghost use Rattle.occ_forms.specs.declared.tree.InputItem.TheVariants as ii;
ghost use Rattle.occ_forms.specs.declared.tree.ConstructKind.TheVariants as ki;
ghost use Rattle.occ_forms.specs.declared.tree.OutputItem.TheVariants as oi;
ghost use Rattle.occ_forms.specs.declared.tree.PartForm.TheVariants as p;
ghost use Rattle.occ_lines.specs.declared.text.Body.TheVariants as body;
ghost use Rattle.occ_lines.specs.declared.token.Symbol.TheVariants as s;
ghost use Rattle.occ_lines.specs.declared.token.Token.TheVariants as t;
ghost use Rattle.occ_lines.specs.declared.token.Word.TheVariants as w;
ghost use Rattle.occ_forms.specs.declared.specification_tree.Head.TheVariants as he;
ghost use Rattle.occ_forms.specs.declared.specification_tree.Specified.TheVariants as sd;
ghost use Rattle.std.specs.Prelude.{None, Some, [], codes, true, ◌∷◌, ◌≡◌};

/// What actions spell, in the order of the clauses: `SKIP`, `STOP`, `x := 1`, `a[1], b := 1, 2`, `c ! x`, `c ! 1; 2::a`,
/// `c ? x`, `c ? x; n::a`, `c ? AFTER 1`, `c ? CASE n`, `c ? CASE n; x; y`.
pub fn action_rows()
    ensures skip { form_tokens (f.Action a.Skip) ≡ t.Word w.Skip ∷ [] }
    ensures stop { form_tokens (f.Action a.Stop) ≡ t.Word w.Stop ∷ [] }
    ensures assignment { form_tokens (f.Action (a.Assignment (el.Named (codes "x") []) [] (e.Alone (o.Literal (l.Decimal 1))) [])) ≡ t.Name (codes "x") ∷ t.Symbol s.Assign ∷ t.Decimal 1 ∷ [] }
    ensures assignments { form_tokens (f.Action (a.Assignment (el.Named (codes "a") (e.Alone (o.Literal (l.Decimal 1)) ∷ [])) (el.Named (codes "b") [] ∷ []) (e.Alone (o.Literal (l.Decimal 1))) (e.Alone (o.Literal (l.Decimal 2)) ∷ [])))
        ≡ t.Name (codes "a") ∷ t.Symbol s.OpenIndex ∷ t.Decimal 1 ∷ t.Symbol s.CloseIndex ∷ t.Symbol s.Comma ∷ t.Name (codes "b") ∷ t.Symbol s.Assign ∷ t.Decimal 1 ∷ t.Symbol s.Comma ∷ t.Decimal 2 ∷ [] }
    ensures output { form_tokens (f.Action (a.Output (el.Named (codes "c") []) (oi.Plain (e.Alone (o.Element (el.Named (codes "x") [])))) [])) ≡ t.Name (codes "c") ∷ t.Symbol s.Output ∷ t.Name (codes "x") ∷ [] }
    ensures outputs { form_tokens (f.Action (a.Output (el.Named (codes "c") []) (oi.Plain (e.Alone (o.Literal (l.Decimal 1)))) (oi.Counted (e.Alone (o.Literal (l.Decimal 2))) (e.Alone (o.Element (el.Named (codes "a") []))) ∷ [])))
        ≡ t.Name (codes "c") ∷ t.Symbol s.Output ∷ t.Decimal 1 ∷ t.Symbol s.Semicolon ∷ t.Decimal 2 ∷ t.Symbol s.Counted ∷ t.Name (codes "a") ∷ [] }
    ensures input { form_tokens (f.Action (a.Input (i.Plain (el.Named (codes "c") []) (ii.Plain (el.Named (codes "x") [])) []))) ≡ t.Name (codes "c") ∷ t.Symbol s.Input ∷ t.Name (codes "x") ∷ [] }
    ensures inputs { form_tokens (f.Action (a.Input (i.Plain (el.Named (codes "c") []) (ii.Plain (el.Named (codes "x") [])) (ii.Counted (el.Named (codes "n") []) (el.Named (codes "a") []) ∷ []))))
        ≡ t.Name (codes "c") ∷ t.Symbol s.Input ∷ t.Name (codes "x") ∷ t.Symbol s.Semicolon ∷ t.Name (codes "n") ∷ t.Symbol s.Counted ∷ t.Name (codes "a") ∷ [] }
    ensures delayed { form_tokens (f.Action (a.Input (i.After (el.Named (codes "c") []) (e.Alone (o.Literal (l.Decimal 1)))))) ≡ t.Name (codes "c") ∷ t.Symbol s.Input ∷ t.Word w.After ∷ t.Decimal 1 ∷ [] }
    ensures tag { form_tokens (f.Action (a.Input (i.Tagged (el.Named (codes "c") []) (codes "n") []))) ≡ t.Name (codes "c") ∷ t.Symbol s.Input ∷ t.Word w.Case ∷ t.Name (codes "n") ∷ [] }
    ensures tagged { form_tokens (f.Action (a.Input (i.Tagged (el.Named (codes "c") []) (codes "n") (ii.Plain (el.Named (codes "x") []) ∷ ii.Plain (el.Named (codes "y") []) ∷ []))))
        ≡ t.Name (codes "c") ∷ t.Symbol s.Input ∷ t.Word w.Case ∷ t.Name (codes "n") ∷ t.Symbol s.Semicolon ∷ t.Name (codes "x") ∷ t.Symbol s.Semicolon ∷ t.Name (codes "y") ∷ [] }
{}

/// What constructs spell: `SEQ`, `PAR`, `PRI PAR`, `IF`, `ALT`, `PRI ALT`, `SEQ n = 1 FOR 2`, `PRI ALT n = x FOR 2`,
/// `WHILE TRUE`, `CASE x`, `c ? CASE`.
pub fn construct_rows()
    ensures sequence { form_tokens (f.Construct (k.Replicable ki.Sequence None)) ≡ t.Word w.Seq ∷ [] }
    ensures parallel { form_tokens (f.Construct (k.Replicable ki.Parallel None)) ≡ t.Word w.Par ∷ [] }
    ensures priority { form_tokens (f.Construct (k.Replicable ki.PriParallel None)) ≡ t.Word w.Pri ∷ t.Word w.Par ∷ [] }
    ensures conditional { form_tokens (f.Construct (k.Replicable ki.Conditional None)) ≡ t.Word w.If ∷ [] }
    ensures alternation { form_tokens (f.Construct (k.Replicable ki.Alternation None)) ≡ t.Word w.Alt ∷ [] }
    ensures first { form_tokens (f.Construct (k.Replicable ki.PriAlternation None)) ≡ t.Word w.Pri ∷ t.Word w.Alt ∷ [] }
    ensures replicated { form_tokens (f.Construct (k.Replicable ki.Sequence (Some (record { name = codes "n"; base = e.Alone (o.Literal (l.Decimal 1)); count = e.Alone (o.Literal (l.Decimal 2)) }))))
        ≡ t.Word w.Seq ∷ t.Name (codes "n") ∷ t.Symbol s.Equal ∷ t.Decimal 1 ∷ t.Word w.For ∷ t.Decimal 2 ∷ [] }
    ensures replicated_first { form_tokens (f.Construct (k.Replicable ki.PriAlternation (Some (record { name = codes "n"; base = e.Alone (o.Element (el.Named (codes "x") [])); count = e.Alone (o.Literal (l.Decimal 2)) }))))
        ≡ t.Word w.Pri ∷ t.Word w.Alt ∷ t.Name (codes "n") ∷ t.Symbol s.Equal ∷ t.Name (codes "x") ∷ t.Word w.For ∷ t.Decimal 2 ∷ [] }
    ensures repeated { form_tokens (f.Construct (k.While (e.Alone (o.Truth true)))) ≡ t.Word w.While ∷ t.Word w.True ∷ [] }
    ensures selection { form_tokens (f.Construct (k.Case (e.Alone (o.Element (el.Named (codes "x") []))))) ≡ t.Word w.Case ∷ t.Name (codes "x") ∷ [] }
    ensures selecting { form_tokens (f.Construct (k.CaseInput (el.Named (codes "c") []))) ≡ t.Name (codes "c") ∷ t.Symbol s.Input ∷ t.Word w.Case ∷ [] }
{}

/// What other lines spell: `PROTOCOL p`, `:`, `CASE`, `ELSE`, `VALOF`, `RESULT x`, `RESULT 1, 2`, `RECORD`, `PACKED RECORD`, `x & SKIP`,
/// `x & c ? y`, `x & c ? CASE`, `x`, `1, 2`.
pub fn part_rows()
    ensures head { form_tokens (f.Specified (sd.Head (he.Protocol (codes "p")))) ≡ t.Word w.Protocol ∷ t.Name (codes "p") ∷ [] }
    ensures close { form_tokens f.Close ≡ t.Symbol s.Colon ∷ [] }
    ensures cases { form_tokens (f.Part p.Case) ≡ t.Word w.Case ∷ [] }
    ensures other { form_tokens (f.Part p.Else) ≡ t.Word w.Else ∷ [] }
    ensures value { form_tokens (f.Part p.ValueOf) ≡ t.Word w.ValOf ∷ [] }
    ensures result { form_tokens (f.Part (p.Result (e.Alone (o.Element (el.Named (codes "x") []))) [])) ≡ t.Word w.Result ∷ t.Name (codes "x") ∷ [] }
    ensures results { form_tokens (f.Part (p.Result (e.Alone (o.Literal (l.Decimal 1))) (e.Alone (o.Literal (l.Decimal 2)) ∷ []))) ≡ t.Word w.Result ∷ t.Decimal 1 ∷ t.Symbol s.Comma ∷ t.Decimal 2 ∷ [] }
    ensures record { form_tokens (f.Part p.Record) ≡ t.Word w.Record ∷ [] }
    ensures packed { form_tokens (f.Part p.PackedRecord) ≡ t.Word w.Packed ∷ t.Word w.Record ∷ [] }
    ensures guard { form_tokens (f.Part (p.Guard (e.Alone (o.Element (el.Named (codes "x") []))) g.Skip)) ≡ t.Name (codes "x") ∷ t.Symbol s.Ampersand ∷ t.Word w.Skip ∷ [] }
    ensures guarded { form_tokens (f.Part (p.Guard (e.Alone (o.Element (el.Named (codes "x") []))) (g.Input (i.Plain (el.Named (codes "c") []) (ii.Plain (el.Named (codes "y") [])) []))))
        ≡ t.Name (codes "x") ∷ t.Symbol s.Ampersand ∷ t.Name (codes "c") ∷ t.Symbol s.Input ∷ t.Name (codes "y") ∷ [] }
    ensures guarded_cases { form_tokens (f.Part (p.Guard (e.Alone (o.Element (el.Named (codes "x") []))) (g.CaseInput (el.Named (codes "c") []))))
        ≡ t.Name (codes "x") ∷ t.Symbol s.Ampersand ∷ t.Name (codes "c") ∷ t.Symbol s.Input ∷ t.Word w.Case ∷ [] }
    ensures one { form_tokens (f.Expressions (e.Alone (o.Element (el.Named (codes "x") []))) []) ≡ t.Name (codes "x") ∷ [] }
    ensures two { form_tokens (f.Expressions (e.Alone (o.Literal (l.Decimal 1))) (e.Alone (o.Literal (l.Decimal 2)) ∷ [])) ≡ t.Decimal 1 ∷ t.Symbol s.Comma ∷ t.Decimal 2 ∷ [] }
{}

/// What tags and variants spell: `n; x`, `n; INT; a::b`, `n; [2][]t`, `n; CHAN OF ANY`, `n; BYTE::[]t`.
pub fn tagged_rows()
    ensures name { form_tokens (f.Tagged (codes "n") (de.Element (el.Named (codes "x") [])) []) ≡ t.Name (codes "n") ∷ t.Symbol s.Semicolon ∷ t.Name (codes "x") ∷ [] }
    ensures two { form_tokens (f.Tagged (codes "n") (de.Builtin [] (u.Primitive pr.Int)) (de.Counted (el.Named (codes "a") []) (el.Named (codes "b") []) ∷ []))
        ≡ t.Name (codes "n") ∷ t.Symbol s.Semicolon ∷ t.Word w.Int ∷ t.Symbol s.Semicolon ∷ t.Name (codes "a") ∷ t.Symbol s.Counted ∷ t.Name (codes "b") ∷ [] }
    ensures array { form_tokens (f.Tagged (codes "n") (de.Array (d.Sized (e.Alone (o.Literal (l.Decimal 2)))) (d.Open ∷ []) (codes "t")) [])
        ≡ t.Name (codes "n") ∷ t.Symbol s.Semicolon ∷ t.Symbol s.OpenIndex ∷ t.Decimal 2 ∷ t.Symbol s.CloseIndex ∷ t.Symbol s.OpenIndex ∷ t.Symbol s.CloseIndex ∷ t.Name (codes "t") ∷ [] }
    ensures channel { form_tokens (f.Tagged (codes "n") (de.Builtin [] (u.AnyChannel c.ChanOf)) []) ≡ t.Name (codes "n") ∷ t.Symbol s.Semicolon ∷ t.Word w.Chan ∷ t.Word w.Of ∷ t.Word w.Any ∷ [] }
    ensures counted { form_tokens (f.Tagged (codes "n") (de.CountedType (record { dimensions = []; base = da.Primitive pr.Byte }) (record { dimensions = []; base = da.Named (codes "t") })) [])
        ≡ t.Name (codes "n") ∷ t.Symbol s.Semicolon ∷ t.Word w.Byte ∷ t.Symbol s.Counted ∷ t.Symbol s.OpenIndex ∷ t.Symbol s.CloseIndex ∷ t.Name (codes "t") ∷ [] }
{}

/// What a line holds with and without a fault.
pub fn body_rows()
    ensures formed { IsFormed (body.Tokens (t.Word w.Skip ∷ [])) (held.Form (f.Action a.Skip)) }
    ensures faulty { IsFormed (body.Fault L1) (held.Fault L1) }
    ensures other { IsFormed (body.Fault L1) (held.Fault S1) → ⊥ }
    ensures no_form { IsFormed (body.Tokens (t.Word w.Skip ∷ [])) (held.Fault S1) → ⊥ }
{}
