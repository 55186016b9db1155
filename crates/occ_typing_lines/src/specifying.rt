//! Specifications of one line: what each reports, and what comes into scope after it.
ghost use Rattle.occ_typing_specifications.specs.Declaring.{declaration as spec_declaration};
ghost use Rattle.occ_typing_specifications.specs.Defining.{data_type as spec_data_type};
ghost use Rattle.occ_typing_specifications.specs.Abbreviating.{abbreviation as spec_abbreviation};
ghost use Rattle.occ_typing_specifications.specs.Recasting.{recast_element as spec_recast_element, recast_value as spec_recast_value, source_tree};
ghost use Rattle.occ_expr_operations.specs.Views.{element_view};
ghost use Rattle.occ_typing_specifications.specs.Valuing.{value as spec_value, value_tree};
ghost use Rattle.occ_typing_specifications.specs.Protocols.{protocol as spec_protocol};
ghost use Rattle.occ_typing_lines.specs.Lines.{made};
ghost use Rattle.occ_typing_lines.specs.Specifying.{declared_line, one_line as spec_one_line};
ghost use Rattle.occ_typing_lines.specs.declared.tree.TypedForm.TheVariants as t;
ghost use Rattle.std.specs.Prelude.{◌≡◌, ◌∷◌, ◌++◌, IfOk, OnOk};

use super::form::{abbreviation_form, retyped_form, retyped_value_form, value_form};
use super::function::function_line;
use super::line::line_of_one;
use super::parent::{Line, Parent};
use super::tree::TypedForm;
use occ_base::{Fault, Items, Name};
use occ_forms::{ItemForm, Recast, Specification};
use occ_forms_expressions::{Element, Expr, TypeForm};
use occ_scope::Scope;
use occ_typing_specifications::{
    ElementLine, ValueLine, abbreviation, compare_element, compare_value, data_type, declaration,
    protocol, recast_element, recast_value, value,
};
use std::alloc::{AllocError, Global};

/// A name for an element.
fn abbreviation_line(
    alloc: Global,
    of: &Option<TypeForm>,
    name: &Name,
    element: &Element,
    scope: &Scope,
    next: Parent,
    faults: &mut Items<Fault>,
) -> Result<Line, AllocError>
    ensures line { IfOk result (λ one. one ≡ (declared_line (spec_abbreviation scope.now of.now name.now element.now) (made t.Abbreviation ((element_view element.now).tree scope.now)) next).line) }
    ensures faults { OnOk result (faults.new ≡ faults.old ++ (spec_abbreviation scope.now of.now name.now element.now).faults) }
{
    let ElementLine { adds, tree } = abbreviation(alloc, of, name, element, scope, faults)?;
    line_of_one(alloc, adds, abbreviation_form(tree), next)
}

/// A name for an element, of another type.
fn recast_element_line(
    alloc: Global,
    how: Recast,
    of: &TypeForm,
    name: &Name,
    element: &Element,
    scope: &Scope,
    next: Parent,
    faults: &mut Items<Fault>,
) -> Result<Line, AllocError>
    ensures line { IfOk result (λ one. one ≡ (declared_line (spec_recast_element scope.now how of.now name.now element.now) (made t.Retyped ((element_view element.now).tree scope.now)) next).line) }
    ensures faults { OnOk result (faults.new ≡ faults.old ++ (spec_recast_element scope.now how of.now name.now element.now).faults) }
{
    let ElementLine { adds, tree } = recast_element(alloc, how, of, name, element, scope, faults)?;
    line_of_one(alloc, adds, retyped_form(tree), next)
}

/// A name for a value, of another type.
fn recast_value_line(
    alloc: Global,
    how: Recast,
    of: &TypeForm,
    name: &Name,
    expr: &Expr,
    scope: &Scope,
    next: Parent,
    faults: &mut Items<Fault>,
) -> Result<Line, AllocError>
    ensures line { IfOk result (λ one. one ≡ (declared_line (spec_recast_value scope.now how of.now name.now expr.now) (made t.RetypedValue (source_tree scope.now expr.now)) next).line) }
    ensures faults { OnOk result (faults.new ≡ faults.old ++ (spec_recast_value scope.now how of.now name.now expr.now).faults) }
{
    let ValueLine { adds, tree } = recast_value(alloc, how, of, name, expr, scope, faults)?;
    line_of_one(alloc, adds, retyped_value_form(tree), next)
}

/// A declaration.
fn declaration_line(
    alloc: Global,
    of: &TypeForm,
    first: &Name,
    more: &[Name],
    scope: &Scope,
    next: Parent,
    faults: &mut Items<Fault>,
) -> Result<Line, AllocError>
    ensures line { IfOk result (λ one. one ≡ (declared_line (spec_declaration scope.now of.now first.now more.now) t.Declaration next).line) }
    ensures faults { OnOk result (faults.new ≡ faults.old ++ (spec_declaration scope.now of.now first.now more.now).faults) }
{
    let adds = declaration(alloc, of, first, more, scope, faults)?;
    line_of_one(alloc, adds, TypedForm::Declaration, next)
}

/// A `VAL` form.
fn value_line(
    alloc: Global,
    of: &Option<TypeForm>,
    name: &Name,
    expr: &Expr,
    scope: &Scope,
    next: Parent,
    faults: &mut Items<Fault>,
) -> Result<Line, AllocError>
    ensures line { IfOk result (λ one. one ≡ (declared_line (spec_value scope.now of.now name.now expr.now) (made t.Value (value_tree scope.now of.now expr.now)) next).line) }
    ensures faults { OnOk result (faults.new ≡ faults.old ++ (spec_value scope.now of.now name.now expr.now).faults) }
{
    let ValueLine { adds, tree } = value(alloc, of, name, expr, scope, faults)?;
    line_of_one(alloc, adds, value_form(tree), next)
}

/// A data type of one line.
fn data_type_line(
    alloc: Global,
    name: &Name,
    of: &TypeForm,
    scope: &Scope,
    next: Parent,
    faults: &mut Items<Fault>,
) -> Result<Line, AllocError>
    ensures line { IfOk result (λ one. one ≡ (declared_line (spec_data_type scope.now name.now of.now) t.DataType next).line) }
    ensures faults { OnOk result (faults.new ≡ faults.old ++ (spec_data_type scope.now name.now of.now).faults) }
{
    let adds = data_type(alloc, name, of, scope, faults)?;
    line_of_one(alloc, adds, TypedForm::DataType, next)
}

/// A protocol of one line.
fn protocol_line(
    alloc: Global,
    name: &Name,
    first: &ItemForm,
    more: &[ItemForm],
    scope: &Scope,
    next: Parent,
    faults: &mut Items<Fault>,
) -> Result<Line, AllocError>
    ensures line { IfOk result (λ one. one ≡ (declared_line (spec_protocol scope.now name.now (first.now ∷ more.now)) t.Protocol next).line) }
    ensures faults { OnOk result (faults.new ≡ faults.old ++ (spec_protocol scope.now name.now (first.now ∷ more.now)).faults) }
{
    let adds = protocol(alloc, name, first, more, scope, faults)?;
    line_of_one(alloc, adds, TypedForm::Protocol, next)
}

/// A specification of one line.
pub fn one_line(
    alloc: Global,
    line: &Specification,
    scope: &mut Scope,
    next: Parent,
    faults: &mut Items<Fault>,
) -> Result<Line, AllocError>
    ensures line { IfOk result (λ one. one ≡ (spec_one_line scope.old line.now next).line) }
    ensures scope { OnOk result (scope.new ≡ scope.old) }
    ensures faults { OnOk result (faults.new ≡ faults.old ++ (spec_one_line scope.old line.now next).faults) }
{
    match line {
        Specification::Declaration(of, first, more) => {
            declaration_line(alloc, of, first, more.as_slice(), scope, next, faults)
        }
        Specification::Value(of, name, expr) => {
            compare_value(of, expr, scope)?;
            value_line(alloc, of, name, expr, scope, next, faults)
        }
        Specification::DataType(name, of) => data_type_line(alloc, name, of, scope, next, faults),
        Specification::Function(head, first, more) => {
            let head = head.get();
            function_line(alloc, head, first, more.as_slice(), scope, next, faults)
        }
        Specification::Abbreviation(of, name, element) => {
            compare_element(of, element, scope)?;
            abbreviation_line(alloc, of, name, element, scope, next, faults)
        }
        Specification::Retyped(how, of, name, element) => {
            recast_element_line(alloc, *how, of, name, element, scope, next, faults)
        }
        Specification::RetypedValue(how, of, name, expr) => {
            recast_value_line(alloc, *how, of, name, expr, scope, next, faults)
        }
        Specification::Protocol(name, first, more) => {
            protocol_line(alloc, name, first, more.as_slice(), scope, next, faults)
        }
    }
}
