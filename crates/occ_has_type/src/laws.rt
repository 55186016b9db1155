//! Laws of expressions: what trees they have, and what types.
ghost use Rattle.occ_expr_operations.specs.Views.{element_view, expr_view, type_form_view};
ghost use Rattle.occ_expr_operations.specs.declared.written.Opening.TheVariants as opening;
ghost use Rattle.occ_forms_expressions.specs.declared.tree.Element.TheVariants as el;
ghost use Rattle.occ_forms_expressions.specs.declared.tree.Element.{Element as AnElement};
ghost use Rattle.occ_forms_expressions.specs.declared.tree.Expr.TheVariants as e;
ghost use Rattle.occ_forms_expressions.specs.declared.tree.Expr.{Expr as AnExpr};
ghost use Rattle.occ_forms_expressions.specs.declared.tree.Literal.TheVariants as l;
ghost use Rattle.occ_forms_expressions.specs.declared.tree.Operand.TheVariants as o;
ghost use Rattle.occ_forms_expressions.specs.declared.tree.RunOperator.TheVariants as ro;
ghost use Rattle.occ_forms_expressions.specs.declared.tree.TypeForm.{TypeForm as ATypeForm};
ghost use Rattle.occ_has_type.specs.Trees.{IsOfElement, IsOfExpr, name_alone};
ghost use Rattle.occ_has_type.specs.Types.{ElementHasType, HasType, IsArray, IsTableExpr, IsWritten, StandsAlone, Takes, byte};
ghost use Rattle.occ_scope.specs.Visible.{visible};
ghost use Rattle.occ_scope.specs.declared.meaning.Meaning.TheVariants as meaning;
ghost use Rattle.occ_scope.specs.declared.meaning.Whole.{Whole};
ghost use Rattle.occ_scope.specs.declared.scope.Scope.{Scope};
ghost use Rattle.occ_types.specs.Fits.{fits};
ghost use Rattle.occ_types.specs.declared.interface.Formal.{Formal as AFormal};
ghost use Rattle.occ_types.specs.declared.types.OccType.TheVariants as ty;
ghost use Rattle.occ_types.specs.View.{as_array};
ghost use Rattle.occ_types.specs.declared.types.OccType.{OccType as AType};
ghost use Rattle.occ_types.specs.declared.value.Value.TheVariants as v;
ghost use Rattle.occ_types.specs.declared.value.Value.{Value as AValue};
ghost use Rattle.occ_typing_operands.specs.Settling.{int, known};
ghost use Rattle.occ_typing_rules.specs.Placing.{count_of, known_of, placed};
ghost use Rattle.occ_typing_rules.specs.declared.expr.TypedElement.{TypedElement as ATypedElement};
ghost use Rattle.occ_typing_rules.specs.declared.expr.TypedExpr.{TypedExpr as ATypedExpr};
ghost use Rattle.occ_typing_tables.specs.Terms.{judged};
ghost use Rattle.std.specs.Prelude.{List, None, length, Option, Some, [], true, ℕ, ◌↔◌, ◌∷◌, ◌≡◌};

/// Each tree that an expression is given is one of its form, whatever type is wanted of it, and with faults or without.
/// So it has the names that were written, as their specifications, and the operators, subscripts, items and actuals, in order.
/// Of an expression that is no table it notes the type and the value that the expression has. Of a table it notes an array of as many
/// components as it has items, of the type that is wanted of these.
pub fn expr_tree_law()
    ensures form { (s : Scope) (e : AnExpr) (to : AType) (t : ATypedExpr) → placed ((expr_view e).open_expr s) to ≡ Some t → IsOfExpr s e t }
    ensures notes { (s : Scope) (e : AnExpr) (to of : AType) (value : Option AValue) (t : ATypedExpr) → HasType s e of value → fits to of ≡ true → placed ((expr_view e).open_expr s) to ≡ Some t → known_of t ≡ record { of = of; value = value } }
    ensures table { (s : Scope) (e : AnExpr) (es : List AnExpr) (to : AType) (parts : Option ℕ × AType) (t : ATypedExpr) → IsTableExpr e es → as_array to ≡ Some parts → placed ((expr_view e).open_expr s) to ≡ Some t → known_of t ≡ record { of = ty.Array (count_of (length es)) parts.1; value = None } }
{}

/// So is the tree of an element.
pub fn element_tree_law()
    ensures { (s : Scope) (e : AnElement) (t : ATypedElement) → (element_view e).tree s ≡ Some t → IsOfElement s e t }
{}

/// A type and a value are known of an expression exactly if it has them by the tables of the language, and then nothing is reported.
/// `Takes` says so where a type is wanted, `StandsAlone` where none is.
pub fn expr_type_law()
    ensures wanted { (s : Scope) (e : AnExpr) (to of : AType) (value : Option AValue) → (((judged ((expr_view e).said s).term).under to).kind ≡ known of value) ↔ Takes s e to of value }
    ensures wanted_silent { (s : Scope) (e : AnExpr) (to of : AType) (value : Option AValue) → Takes s e to of value → (((expr_view e).said s).faults ≡ []) × (((judged ((expr_view e).said s).term).under to).faults ≡ []) }
    ensures alone { (s : Scope) (e : AnExpr) (of : AType) (value : Option AValue) → ((judged ((expr_view e).said s).term).alone.kind ≡ known of value) ↔ StandsAlone s e of value }
    ensures alone_silent { (s : Scope) (e : AnExpr) (of : AType) (value : Option AValue) → StandsAlone s e of value → (((expr_view e).said s).faults ≡ []) × ((judged ((expr_view e).said s).term).alone.faults ≡ []) }
{}

/// So it is with an element. Its root may be a channel or a timer.
pub fn element_type_law()
    ensures exactly { (s : Scope) (e : AnElement) (of : AType) (value : Option AValue) → (((element_view e).reported s).kind ≡ known of value) ↔ ElementHasType s e of value }
    ensures silent { (s : Scope) (e : AnElement) (of : AType) (value : Option AValue) → ElementHasType s e of value → ((element_view e).reported s).faults ≡ [] }
{}

/// A type that an expression writes is found exactly if it is that type by the tables of the language, and then nothing is reported.
/// In an expression no dimension is open.
pub fn written_type_law()
    ensures exactly { (s : Scope) (ty : ATypeForm) (to : AType) → ((type_form_view ty opening.Refused s).found ≡ Some to) ↔ IsWritten s ty to }
    ensures silent { (s : Scope) (ty : ATypeForm) (to : AType) → IsWritten s ty to → (type_form_view ty opening.Refused s).faults ≡ [] }
{}

/// Worked: `x + 1` of an INT `x` is an INT, `'a'` a BYTE, `[1, 2, 3]` takes `[3]BYTE`, `a[i]` is of the component's type, and `p (x)`
/// of the result's. `TRUE + 1` has no type.
pub fn worked_law()
    ensures sum { (s : Scope) (x : List ℕ) (w : Whole) → visible s x ≡ Some (meaning.Element w) → w.of ≡ int → w.value ≡ None → HasType s (e.Run ro.Add (o.Element (el.Named x [])) (o.Literal (l.Decimal 1)) []) int None }
    ensures character { (s : Scope) (b : ℕ) → HasType s (e.Alone (o.Literal (l.Character b))) byte (Some (v.Byte b)) }
    ensures table { (s : Scope) → IsArray 3 byte → Takes s (e.Alone (o.Table (e.Alone (o.Literal (l.Decimal 1))) (e.Alone (o.Literal (l.Decimal 2)) ∷ e.Alone (o.Literal (l.Decimal 3)) ∷ []))) (ty.Array (Some 3) byte) (ty.Array (Some 3) byte) None }
    ensures subscript { (s : Scope) (a i : List ℕ) (array w : Whole) (n : ℕ) (of : AType) → visible s a ≡ Some (meaning.Element array) → array.of ≡ ty.Array (Some n) of → visible s i ≡ Some (meaning.Element w) → w.of ≡ int → w.value ≡ None → HasType s (e.Alone (o.Element (el.Named a (name_alone i ∷ [])))) of None }
    ensures call { (s : Scope) (p x : List ℕ) (w : Whole) (f : AFormal) (result : AType) → visible s p ≡ Some (meaning.Function (f ∷ []) (result ∷ [])) → visible s x ≡ Some (meaning.Element w) → w.value ≡ None → fits f.of w.of ≡ true → HasType s (e.Alone (o.Call p (name_alone x ∷ []))) result None }
    ensures none { (s : Scope) (of : AType) (value : Option AValue) → HasType s (e.Run ro.Add (o.Truth true) (o.Literal (l.Decimal 1)) []) of value → ⊥ }
{}
