//! Laws of texts: each text has one list of lines, each line one form, each unit one list of trees.
ghost use Rattle.occ_forms_expressions.specs.Marks.{first_mark};
ghost use Rattle.occ_forms_expressions.specs.Reading.{IsAfter, IsEnd, IsEndOfRun, IsNotCounted};
ghost use Rattle.occ_forms_expressions.specs.Spelling.{builtin_then, data_form_then, dimension_then, element_then, expr_then, many, operand_then, type_form_then};
ghost use Rattle.occ_forms_expressions.specs.TypeEnds.{EndsMost};
ghost use Rattle.occ_forms_expressions.specs.declared.tree.Builtin.{Builtin as ABuiltin};
ghost use Rattle.occ_forms_expressions.specs.declared.tree.DataForm.{DataForm as ADataForm};
ghost use Rattle.occ_forms_expressions.specs.declared.tree.Dimension.{Dimension as ADimension};
ghost use Rattle.occ_forms_expressions.specs.declared.tree.Element.{Element as AnElement};
ghost use Rattle.occ_forms_expressions.specs.declared.tree.Expr.TheVariants as x;
ghost use Rattle.occ_forms_expressions.specs.declared.tree.Expr.{Expr as AnExpr};
ghost use Rattle.occ_forms_expressions.specs.declared.tree.Extreme.{Extreme as AnExtreme};
ghost use Rattle.occ_forms_expressions.specs.declared.tree.Operand.{Operand as AnOperand};
ghost use Rattle.occ_forms_expressions.specs.declared.tree.TypeForm.{TypeForm as AType};
ghost use Rattle.occ_forms.specs.Depth.{HasForm, HasNoForm, IsTooDeep};
ghost use Rattle.occ_forms.specs.Spelling.{form_tokens};
ghost use Rattle.occ_forms.specs.declared.tree.Form.{Form as AForm};
ghost use Rattle.occ_lines.specs.Lines.{IsLines};
ghost use Rattle.occ_lines.specs.declared.text.Logical.{Logical as ALogical};
ghost use Rattle.occ_lines.specs.declared.token.Symbol.TheVariants as s;
ghost use Rattle.occ_lines.specs.declared.token.Token.TheVariants as t;
ghost use Rattle.occ_lines.specs.declared.token.Token.{Token as AToken};
ghost use Rattle.occ_project.specs.declared.expanded.ExpandedLine.{ExpandedLine};
ghost use Rattle.occ_forms.specs.SpecificationSpelling.{specified_tokens};
ghost use Rattle.occ_forms.specs.declared.specification_tree.Specified.{Specified as ASpecified};
ghost use Rattle.occ_tree.specs.Faults.{shape_faults};
ghost use Rattle.occ_tree.specs.Forest.{Forest, forest_of};
ghost use Rattle.occ_tree.specs.Obeys.{IsTreesOf};
ghost use Rattle.occ_tree.specs.Shapes.{HasShape};
ghost use Rattle.occ_tree.specs.declared.tree.Node.{Node};
ghost use Rattle.std.specs.Prelude.{List, [], ℕ, ◌↔◌, ◌∷◌, ◌≡◌};

/// A text spells one list of logical lines, and no other.
/// So a diagnostic names a line that every reader of the text counts alike.
pub fn lines_law()
    ensures some { (text : List ℕ) → (xs : List ALogical) × IsLines text xs }
    ensures one { (text : List ℕ) (xs : List ALogical) (ys : List ALogical) → IsLines text xs → IsLines text ys → xs ≡ ys }
{
    occ_lines::lines_law();
}

/// No tree spells a mark, a token that is in no expression and no type.
/// So the first mark after a tree is the first mark of the line, and parts of a line are found without reading them.
pub fn mark_law()
    ensures expressions { (e : AnExpr) (k : List AToken) → first_mark (expr_then e k) ≡ first_mark k }
    ensures elements { (el : AnElement) (k : List AToken) → first_mark (element_then el k) ≡ first_mark k }
    ensures types { (ty : AType) (k : List AToken) → first_mark (type_form_then ty k) ≡ first_mark k }
    ensures builtins { (b : ABuiltin) (k : List AToken) → first_mark (builtin_then b k) ≡ first_mark k }
    ensures dimensions { (d : ADimension) (k : List AToken) → first_mark (dimension_then d k) ≡ first_mark k }
    ensures data_forms { (form : ADataForm) (k : List AToken) → first_mark (data_form_then form k) ≡ first_mark k }
    ensures many_expressions { (es : List AnExpr) (k : List AToken) → first_mark (many expr_then es k) ≡ first_mark k }
    ensures many_elements { (els : List AnElement) (k : List AToken) → first_mark (many element_then els k) ≡ first_mark k }
    ensures many_dimensions { (ds : List ADimension) (k : List AToken) → first_mark (many dimension_then ds k) ≡ first_mark k }
{}

/// Two expressions, elements or types that spell the same tokens are one.
/// So what a line means does not hang on how it is read.
pub fn expression_tree_law()
    ensures expressions { (a : AnExpr) (b : AnExpr) → expr_then a [] ≡ expr_then b [] → a ≡ b }
    ensures elements { (a : AnElement) (b : AnElement) → element_then a [] ≡ element_then b [] → a ≡ b }
    ensures types { (a : AType) (b : AType) → type_form_then a [] ≡ type_form_then b [] → a ≡ b }
    ensures data_types { (a : ADataForm) (b : ADataForm) → data_form_then a [] ≡ data_form_then b [] → a ≡ b }
{}

/// The same holds where tokens follow that do not go on with an expression, an operand, an element or a type.
/// So where one tree ends and the next begins is decided by the tokens alone.
pub fn expression_reading_law()
    ensures expressions { (a : AnExpr) (b : AnExpr) (j : List AToken) (k : List AToken) → IsEnd j → IsEnd k → expr_then a j ≡ expr_then b k → (a ≡ b) × (j ≡ k) }
    ensures counts { (a : AnExpr) (b : AnExpr) (j : List AToken) (k : List AToken) → IsEndOfRun j → IsEndOfRun k → ((m : AnExtreme) (type : AType) → a ≡ x.Most m type → EndsMost type j) → ((m : AnExtreme) (type : AType) → b ≡ x.Most m type → EndsMost type k) → expr_then a j ≡ expr_then b k → (a ≡ b) × (j ≡ k) }
    ensures operands { (a : AnOperand) (b : AnOperand) (j : List AToken) (k : List AToken) → IsAfter j → IsAfter k → operand_then a j ≡ operand_then b k → (a ≡ b) × (j ≡ k) }
    ensures elements { (a : AnElement) (b : AnElement) (j : List AToken) (k : List AToken) → IsAfter j → IsAfter k → element_then a j ≡ element_then b k → (a ≡ b) × (j ≡ k) }
    ensures types { (a : AType) (b : AType) (j : List AToken) (k : List AToken) → IsNotCounted j → IsNotCounted k → type_form_then a j ≡ type_form_then b k → (a ≡ b) × (j ≡ k) }
    ensures builtins { (a : ABuiltin) (b : ABuiltin) (j : List AToken) (k : List AToken) → IsNotCounted j → IsNotCounted k → builtin_then a j ≡ builtin_then b k → (a ≡ b) × (j ≡ k) }
    ensures data_types { (a : ADataForm) (b : ADataForm) (j : List AToken) (k : List AToken) → data_form_then a j ≡ data_form_then b k → (a ≡ b) × (j ≡ k) }
    ensures dimensions { (a : ADimension) (b : ADimension) (j : List AToken) (k : List AToken) → dimension_then a j ≡ dimension_then b k → (a ≡ b) × (j ≡ k) }
{}

/// After the type of `MOSTPOS` or `MOSTNEG` all may follow but `::[]` and some conversions after `::`.
/// So an expression that counts may come before `::`, even where `[]` follows.
pub fn extreme_end_law()
    ensures plain { (type : AType) (k : List AToken) → IsNotCounted k → EndsMost type k }
    ensures counted { (e : AnExpr) (k : List AToken) (type : AType) → EndsMost type (t.Symbol s.Counted ∷ expr_then e k) }
{}

/// Two specifications that spell the same tokens are one.
/// So each line of specification brings one list of names into scope.
pub fn specification_tree_law()
    ensures { (a b : ASpecified) → specified_tokens a ≡ specified_tokens b → a ≡ b }
{}

/// Two forms that spell the same tokens are one.
/// So each line has one form, or none.
pub fn form_law()
    ensures { (a b : AForm) → form_tokens a ≡ form_tokens b → a ≡ b }
{
    occ_forms::one_form_law();
}

/// No two of these are so of a line: it has a form, it is too deep, it is not too deep and has none. Where neither of the first
/// two is, the third is. So each line has its one form or its one fault, and `prepare` finds which.
pub fn line_law()
    ensures deep { (tokens : List AToken) (form : AForm) → HasForm tokens form → IsTooDeep tokens → ⊥ }
    ensures none { (tokens : List AToken) (form : AForm) → HasForm tokens form → HasNoForm tokens → ⊥ }
    ensures fault { (tokens : List AToken) → IsTooDeep tokens → HasNoForm tokens → ⊥ }
    ensures some { (tokens : List AToken) → ((form : AForm) → HasForm tokens form → ⊥) → (IsTooDeep tokens → ⊥) → HasNoForm tokens }
{
    occ_forms::one_form_law();
}

/// A unit has no diagnostic of shape exactly where trees that obey the table, no deeper than 64 levels, list its lines.
/// Only one list of trees does. So the rules after it judge one tree, and nodes that are seen as the same trees are the same.
pub fn shape_law()
    ensures exact { (ls : List ExpandedLine) → (shape_faults ls ≡ []) ↔ HasShape ls }
    ensures nodes { (ms : List Node) → (ns : List Node) → forest_of ms ≡ forest_of ns → ms ≡ ns }
    ensures one { (ls : List ExpandedLine) → (f : Forest) → (g : Forest) → IsTreesOf ls f → IsTreesOf ls g → f ≡ g }
{}
