//! Types that are names against those of what they are written for. Wide ones are compared once, and that is remembered.
ghost use Rattle.std.specs.Prelude.{◌≡◌, IsTrue, Some};
ghost use Rattle.occ_expr.specs.Targets.{target_of};
ghost use Rattle.occ_expr.specs.inside.Passing.{IsKnownOf};
ghost use Rattle.occ_expr_operations.specs.Views.{expr_view, type_form_view};
ghost use Rattle.occ_expr_operations.specs.declared.written.Opening.TheVariants as opening;
ghost use Rattle.occ_types.specs.declared.types.OccType.{OccType};
ghost use Rattle.occ_typing_operands.specs.declared.kind.Kind.TheVariants as k;
ghost use Rattle.occ_typing_operands.specs.declared.kind.Known.{Known};

use occ_base::Name;
use occ_expr::{is_taken, name_alone, name_of, takes_long, type_name};
use occ_forms_expressions::{Element, Expr, TypeForm};
use occ_scope::{Meaning, Scope};
use std::alloc::AllocError;

/// Whether a name stands for a type that takes long to compare.
fn is_long(name: &Name, scope: &Scope) -> bool {
    match scope.find(name) {
        Some(Meaning::Type(Some(of))) => takes_long(of.of().get()),
        _ => false,
    }
}

/// What is written for a name is compared with it, if it is a name and takes long to compare.
fn compare(of: &Option<TypeForm>, name: Option<&Name>, scope: &mut Scope) -> Result<(), AllocError>
    ensures { scope.new ≡ scope.old }
{
    let (Some(of), Some(name)) = (of, name) else {
        return Ok(());
    };
    let Some(of) = type_name(of) else {
        return Ok(());
    };
    if is_long(of, scope) {
        scope.takes(of, 0, name)?;
    }
    Ok(())
}

/// The type that is written for an element is compared with that of the element, where both are names.
pub fn compare_element(
    of: &Option<TypeForm>,
    element: &Element,
    scope: &mut Scope,
) -> Result<(), AllocError>
    ensures { scope.new ≡ scope.old }
{
    compare(of, name_of(element), scope)
}

/// The type that is written for a value is compared with that of the value, where both are names.
pub fn compare_value(
    of: &Option<TypeForm>,
    expr: &Expr,
    scope: &mut Scope,
) -> Result<(), AllocError>
    ensures { scope.new ≡ scope.old }
{
    compare(of, name_alone(expr), scope)
}

/// Whether an element is known to be of the type that is written for it.
pub(super) fn element_is_of(of: &TypeForm, element: &Element, scope: &Scope) -> bool
    ensures { (to : OccType) (x : Known) → IsTrue result → (type_form_view of.now opening.Allowed scope.now).found ≡ Some to → (target_of scope.now element.now).kind ≡ k.Known x → x.of ≡ to }
{
    let (Some(of), Some(name)) = (type_name(of), name_of(element)) else {
        return false;
    };
    scope.is_known_to_take(of, 0, name)
}

/// Whether a value, if it is known, is known to be of the type that is written for it.
pub(super) fn value_is_of(of: &TypeForm, expr: &Expr, scope: &Scope) -> bool
    ensures { (to : OccType) → IsTrue result → (type_form_view of.now opening.Allowed scope.now).found ≡ Some to → IsKnownOf to ((expr_view expr.now).said scope.now).term }
{
    let Some(of) = type_name(of) else {
        return false;
    };
    is_taken(scope, expr, of, 0)
}
