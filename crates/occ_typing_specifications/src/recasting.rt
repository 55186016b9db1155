//! `t n RETYPES el:` and `t n RESHAPES el:`, and both with VAL. `docs/LANGUAGE.md, Abbreviations of elements, RETYPES and
//! RESHAPES`.
ghost use Rattle.std.specs.Prelude.{◌≡◌, ◌++◌, IfOk, OnOk};
ghost use Rattle.occ_expr_operations.specs.Views.{element_view, expr_view};
ghost use Rattle.occ_typing_tables.specs.Terms.{judged};
ghost use Rattle.occ_typing_rules.specs.Abbreviating.{holding as spec_holding};
ghost use Rattle.occ_typing_rules.specs.Placing.{tree_of as spec_tree_of};
ghost use Rattle.occ_typing_specifications.specs.Recasting.{element_reported as spec_element_reported, of_found as spec_of_found, recast as spec_recast, recast_as as spec_recast_as, recast_element as spec_recast_element, recast_value as spec_recast_value, source as spec_source, source_tree as spec_source_tree, sourced as spec_sourced, value_reported as spec_value_reported};

use super::abbreviating::{ElementLine, named};
use super::valuing::{ValueLine, Valued, kind_unless_reported, value_name};
use occ_base::{Fault, Items, Name, Shared};
use occ_expr::{expression, target_of, type_form};
use occ_expr_operations::{ElementReading, Opening, Reading};
use occ_forms::Recast;
use occ_forms_expressions::{Element, Expr, TypeForm};
use occ_scope::{Scope, one_entry};
use occ_types::{OccType, is_data};
use occ_typing_operands::{Kind, known};
use occ_typing_rules::{abbreviated, reshaped, retyped, tree_of};
use occ_typing_tables::{Term, alone};
use std::alloc::{AllocError, Global};

/// The type of a name for what is of another type, if the one may stand for the other.
fn recast(
    alloc: Global,
    how: Recast,
    to: &Shared<OccType>,
    from: &OccType,
    faults: &mut Items<Fault>,
) -> Result<Option<Shared<OccType>>, AllocError>
    ensures found { IfOk result (λ found. found ≡ (spec_recast how to.now from.now).found) }
    ensures faults { OnOk result (faults.new ≡ faults.old ++ (spec_recast how to.now from.now).faults) }
{
    match how {
        Recast::Retypes => retyped(alloc, to, from, faults),
        Recast::Reshapes => reshaped(alloc, to, from, faults),
    }
}

/// What is known of a name of this type, if it has one.
fn of_found(of: Option<Shared<OccType>>) -> Result<Kind, AllocError>
    ensures { IfOk result (λ kind. kind ≡ spec_of_found of) }
{
    match of {
        Some(of) => known(&of, None),
        None => Ok(Kind::Faulty),
    }
}

/// What is known of a name of this type, if the type is known, for what this is known of.
fn recast_as(
    alloc: Global,
    how: Recast,
    to: &Option<Shared<OccType>>,
    kind: &Kind,
    faults: &mut Items<Fault>,
) -> Result<Kind, AllocError>
    ensures kind { IfOk result (λ named. named ≡ (spec_recast_as how to.now kind.now).kind) }
    ensures faults { OnOk result (faults.new ≡ faults.old ++ (spec_recast_as how to.now kind.now).faults) }
{
    match (to, kind) {
        (Some(to), Kind::Known(found)) => {
            of_found(recast(alloc, how, to, found.of.get(), faults)?)
        }
        _ => Ok(Kind::Faulty),
    }
}

/// The element of `t n RETYPES el`.
#[tactic(auto, unfolding(crate::specs::Recasting::element_reported))]
fn element_read(
    alloc: Global,
    how: Recast,
    of: &TypeForm,
    element: &Element,
    scope: &Scope,
    faults: &mut Items<Fault>,
) -> Result<ElementReading, AllocError>
    ensures kind { IfOk result (λ read. read.kind ≡ (spec_element_reported scope.now how of.now element.now).kind) }
    ensures tree { IfOk result (λ read. read.tree ≡ (element_view element.now).tree scope.now) }
    ensures faults { OnOk result (faults.new ≡ faults.old ++ (spec_element_reported scope.now how of.now element.now).faults) }
{
    let to = type_form(alloc, of, Opening::Allowed, scope, faults)?;
    let read = target_of(alloc, element, scope, faults)?;
    let kind = recast_as(alloc, how, &to, &read.kind, faults)?;
    Ok(ElementReading {
        kind,
        tree: read.tree,
    })
}

/// `t n RETYPES el:` or `t n RESHAPES el:`
#[tactic(auto, unfolding(crate::specs::Recasting::recast_element))]
pub fn recast_element(
    alloc: Global,
    how: Recast,
    of: &TypeForm,
    name: &Name,
    element: &Element,
    scope: &Scope,
    faults: &mut Items<Fault>,
) -> Result<ElementLine, AllocError>
    ensures adds { IfOk result (λ line. line.adds ≡ (spec_recast_element scope.now how of.now name.now element.now).adds) }
    ensures tree { IfOk result (λ line. line.tree ≡ (element_view element.now).tree scope.now) }
    ensures faults { OnOk result (faults.new ≡ faults.old ++ (spec_recast_element scope.now how of.now name.now element.now).faults) }
{
    let mut reported = Items::new(alloc);
    let ElementReading { kind, tree } = element_read(
        alloc,
        how,
        of,
        element,
        scope,
        &mut reported,
    )?;
    let adds = named(alloc, name, element, kind, reported, scope, faults)?;
    Ok(ElementLine { adds, tree })
}

/// What is known of a value that is data, without a word of one that is not.
fn if_data(kind: Kind) -> Kind
    ensures { result ≡ (spec_holding kind).kind }
{
    match kind {
        Kind::Known(known) => {
            if is_data(known.of.get()) {
                return Kind::Known(known);
            }
            Kind::Faulty
        }
        _ => Kind::Faulty,
    }
}

/// A value for a name of this type. Beside a type that is not known nothing is reported of a channel or a timer.
fn sourced(
    alloc: Global,
    to: &Option<Shared<OccType>>,
    term: &Term,
    faults: &mut Items<Fault>,
) -> Result<Kind, AllocError>
    ensures kind { IfOk result (λ kind. kind ≡ (spec_sourced to.now (judged term.now)).kind) }
    ensures faults { OnOk result (faults.new ≡ faults.old ++ (spec_sourced to.now (judged term.now)).faults) }
{
    match to {
        None => Ok(if_data(alone(alloc, term, faults)?)),
        Some(_) => abbreviated(alloc, term, faults),
    }
}

/// A value of which this is read, in its own type, for a name of this type.
fn source_of(
    alloc: Global,
    to: &Option<Shared<OccType>>,
    read: &Reading,
    faults: &mut Items<Fault>,
) -> Result<Valued, AllocError>
    ensures kind { IfOk result (λ value. value.kind ≡ (spec_sourced to.now (judged read.now.term)).kind) }
    ensures tree { IfOk result (λ value. value.tree ≡ spec_tree_of (spec_sourced to.now (judged read.now.term)).kind read.now.open_expr) }
    ensures faults { OnOk result (faults.new ≡ faults.old ++ (spec_sourced to.now (judged read.now.term)).faults) }
{
    let kind = sourced(alloc, to, &read.term, faults)?;
    let tree = tree_of(alloc, &kind, &read.open_expr)?;
    Ok(Valued { kind, tree })
}

/// The value of `VAL t n RETYPES e`, in its own type, for a name of this type.
#[tactic(auto, unfolding(crate::specs::Recasting::source, crate::specs::Recasting::source_tree))]
fn source_read(
    alloc: Global,
    to: &Option<Shared<OccType>>,
    expr: &Expr,
    scope: &Scope,
    faults: &mut Items<Fault>,
) -> Result<Valued, AllocError>
    ensures kind { IfOk result (λ value. value.kind ≡ (spec_source scope.now to.now expr.now).kind) }
    ensures tree { IfOk result (λ value. value.tree ≡ spec_source_tree scope.now expr.now) }
    ensures faults { OnOk result (faults.new ≡ faults.old ++ (spec_source scope.now to.now expr.now).faults) }
{
    let read = expression(alloc, expr, scope, faults)?;
    let source = source_of(alloc, to, &read, faults);
    drop(read);
    source
}

/// What is known of the name of `VAL t n RETYPES e`, and the tree of the value.
#[tactic(auto, unfolding(crate::specs::Recasting::value_reported))]
fn value_read(
    alloc: Global,
    how: Recast,
    of: &TypeForm,
    expr: &Expr,
    scope: &Scope,
    faults: &mut Items<Fault>,
) -> Result<Valued, AllocError>
    ensures kind { IfOk result (λ value. value.kind ≡ (spec_value_reported scope.now how of.now expr.now).kind) }
    ensures tree { IfOk result (λ value. value.tree ≡ spec_source_tree scope.now expr.now) }
    ensures faults { OnOk result (faults.new ≡ faults.old ++ (spec_value_reported scope.now how of.now expr.now).faults) }
{
    let to = type_form(alloc, of, Opening::Allowed, scope, faults)?;
    let read = source_read(alloc, &to, expr, scope, faults)?;
    let kind = recast_as(alloc, how, &to, &read.kind, faults)?;
    Ok(Valued {
        kind,
        tree: read.tree,
    })
}

/// `VAL t n RETYPES e:` or `VAL t n RESHAPES e:`
#[tactic(auto, unfolding(crate::specs::Recasting::recast_value))]
pub fn recast_value(
    alloc: Global,
    how: Recast,
    of: &TypeForm,
    name: &Name,
    expr: &Expr,
    scope: &Scope,
    faults: &mut Items<Fault>,
) -> Result<ValueLine, AllocError>
    ensures adds { IfOk result (λ line. line.adds ≡ (spec_recast_value scope.now how of.now name.now expr.now).adds) }
    ensures tree { IfOk result (λ line. line.tree ≡ spec_source_tree scope.now expr.now) }
    ensures faults { OnOk result (faults.new ≡ faults.old ++ (spec_recast_value scope.now how of.now name.now expr.now).faults) }
{
    let mut reported = Items::new(alloc);
    let Valued { kind, tree } = value_read(alloc, how, of, expr, scope, &mut reported)?;
    let kind = kind_unless_reported(&reported, kind);
    faults.append(reported)?;
    let meaning = value_name(alloc, kind, name)?;
    let adds = one_entry(alloc, name, meaning)?;
    Ok(ValueLine { adds, tree })
}
