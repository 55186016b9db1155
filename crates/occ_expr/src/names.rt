//! Names alone, without subscripts or dimensions.
ghost use Rattle.std.specs.Prelude.{◌≡◌, [], List, MatchOption, ℕ};
ghost use Rattle.occ_forms_expressions.specs.declared.tree.Element.TheVariants as elements;
ghost use Rattle.occ_forms_expressions.specs.declared.tree.Expr.TheVariants as exprs;
ghost use Rattle.occ_forms_expressions.specs.declared.tree.Operand.TheVariants as operands;
ghost use Rattle.occ_forms_expressions.specs.declared.tree.TypeForm.TheVariants as forms;

use occ_base::Name;
use occ_forms_expressions::{Element, Expr, Operand, TypeForm};

/// The name that an element is, without subscripts.
pub fn name_of(element: &Element) -> Option<&Name>
    ensures { MatchOption result ((name : List ℕ) → element.now ≡ elements.Named name [] → ⊥) (λ name. element.now ≡ elements.Named name.now []) }
{
    match element {
        Element::Named(name, exprs) => {
            if exprs.is_empty() {
                return Some(name);
            }
            None
        }
        Element::Segment(_, _, _) => None,
    }
}

/// The name that an expression is, without subscripts.
pub fn name_alone(expr: &Expr) -> Option<&Name>
    ensures { MatchOption result ((name : List ℕ) → expr.now ≡ exprs.Alone (operands.Element (elements.Named name [])) → ⊥) (λ name. expr.now ≡ exprs.Alone (operands.Element (elements.Named name.now []))) }
{
    let Expr::Alone(operand) = expr else {
        return None;
    };
    match operand {
        Operand::Element(element) => name_of(element),
        _ => None,
    }
}

/// The name that a written type is, without dimensions.
pub fn type_name(of: &TypeForm) -> Option<&Name>
    ensures { MatchOption result ((name : List ℕ) → of.now ≡ forms.Named [] name → ⊥) (λ name. of.now ≡ forms.Named [] name.now) }
{
    match of {
        TypeForm::Named(dimensions, name) => {
            if dimensions.is_empty() {
                return Some(name);
            }
            None
        }
        TypeForm::Builtin(_, _) => None,
    }
}
