//! Whether an actual is an element, and whether a formal takes its type: CHAN OF ANY takes every channel.
#![tactic(auto, using(occ_types::proofs::Agreeing::fit_rules, occ_expr_operations::proofs::Layers::layer_rules))]

ghost use Rattle.std.specs.Prelude.{◌≡◌, MatchOption, None, Some};
ghost use Rattle.occ_forms_expressions.specs.declared.tree.Operand.{out-Operand};
ghost use Rattle.occ_typing_statements.specs.Actuals.{any_carried, converts as spec_converts, element_in as spec_element_in, has_one as spec_has_one, is_carried, is_conversion as spec_is_conversion, operand_layer, takes as spec_takes};
ghost use Rattle.occ_scope.specs.Visible.{visible};
ghost use Rattle.occ_types.specs.View.{as_channel};

use occ_base::Name;
use occ_forms_expressions::{Element, Expr, Operand};
use occ_scope::{Meaning, Scope};
use occ_types::{OccType, Protocol, fits};

/// Whether it is one expression.
fn has_one(exprs: &[Expr]) -> bool
    ensures { result ≡ spec_has_one exprs.now }
{
    match exprs.split_first() {
        Some((_, more)) => more.is_empty(),
        None => false,
    }
}

/// Whether a name with these subscripts is a conversion.
fn converts(scope: &Scope, name: &Name, subscripts: &[Expr]) -> bool
    ensures { result ≡ spec_converts (visible scope.now name.now) subscripts.now }
{
    match scope.find(name) {
        Some(Meaning::Type(_)) => has_one(subscripts),
        Some(Meaning::Faulty) => false,
        Some(Meaning::Protocol(_)) => false,
        Some(Meaning::Procedure(_)) => false,
        Some(Meaning::Function(_, _)) => false,
        Some(Meaning::Element(_)) => false,
        None => false,
    }
}

/// Whether an element is `n[e]` with a data type n, which is a conversion.
fn is_conversion(scope: &Scope, element: &Element) -> bool
    ensures { result ≡ spec_is_conversion scope.now element.now }
{
    match element {
        Element::Named(name, subscripts) => converts(scope, name, subscripts.as_slice()),
        Element::Segment(_, _, _) => false,
    }
}

/// The element that an operand is.
fn element_in_operand<'a>(scope: &Scope, operand: &'a Operand) -> Option<&'a Element>
    ensures { MatchOption result (operand_layer scope.now (out-Operand operand.now) ≡ None) (λ element. operand_layer scope.now (out-Operand operand.now) ≡ Some element.now) }
{
    match operand {
        Operand::Element(element) => {
            if is_conversion(scope, element) {
                None
            } else {
                Some(element)
            }
        }
        Operand::Literal(_) => None,
        Operand::Decorated(_, _) => None,
        Operand::Truth(_) => None,
        Operand::Parens(_) => None,
        Operand::Table(_, _) => None,
        Operand::DecoratedTable(_, _, _) => None,
        Operand::Call(_, _) => None,
    }
}

/// The element that an expression is, if it is one, not in parentheses.
pub fn element_in<'a>(scope: &Scope, expr: &'a Expr) -> Option<&'a Element>
    ensures { MatchOption result (spec_element_in scope.now expr.now ≡ None) (λ element. spec_element_in scope.now expr.now ≡ Some element.now) }
{
    match expr {
        Expr::Alone(operand) => element_in_operand(scope, operand),
        Expr::Run(_, _, _, _) => None,
        Expr::Pair(_, _, _) => None,
        Expr::Applied(_, _) => None,
        Expr::Converted(_, _, _) => None,
        Expr::ArrayConverted(_, _, _, _) => None,
        Expr::Named(_, _) => None,
        Expr::Most(_, _) => None,
    }
}

/// Whether a type is that of a channel.
fn is_channel(of: &OccType) -> bool
    ensures { result ≡ is_carried (as_channel of.now) }
{
    match of {
        OccType::Channel(_) => true,
        _ => false,
    }
}

/// Whether a formal of this type is just CHAN OF ANY.
fn is_any_channel(of: &OccType) -> bool
    ensures { result ≡ any_carried (as_channel of.now) }
{
    match of {
        OccType::Channel(protocol) => match protocol.get() {
            Protocol::Any => true,
            _ => false,
        },
        _ => false,
    }
}

/// Whether a formal of the first type takes what is of the other: one that is just CHAN OF ANY takes every channel.
#[tactic(auto, unfolding(crate::specs::Actuals::takes))]
pub fn takes(of: &OccType, from: &OccType) -> bool
    ensures { result ≡ spec_takes of.now from.now }
{
    (is_any_channel(of) && is_channel(from)) || fits(of, from)
}
