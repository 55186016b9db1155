//! Small readings of expressions: a name alone, an integer in decimal digits, a name that is called and is no function.
#![tactic(auto, using(crate::proofs::Views::name_rules))]

ghost use Rattle.std.specs.Prelude.{◌≡◌, ◌∷◌, ◌++◌, [], IfOk, IfSome, MatchOption, None, OnOk, Some, pos};
ghost use Rattle.occ_expr_operations.specs.Elements.{component_at as spec_component_at};
ghost use Rattle.occ_expr_operations.specs.Operations.{converted as spec_converted, plain as spec_plain};
ghost use Rattle.occ_expr_operations.specs.OpenExprs.{conversion_open};
ghost use Rattle.occ_typing_rules.specs.declared.open_expr.OpenExpr.TheVariants as d;
ghost use Rattle.occ_expr_operations.specs.Parts.{bounds_alone as spec_bounds_alone, named as spec_named, no_function as spec_no_function, only as spec_only, segment_of as spec_segment_of, table_as as spec_table_as};
ghost use Rattle.occ_expr_operations.specs.Written.{extent_of as spec_extent_of};
ghost use Rattle.occ_typing_operands.specs.Outcomes.{decimal};
ghost use Rattle.occ_typing_operands.specs.Parts.{subscripted as spec_subscripted};
ghost use Rattle.occ_typing_operands.specs.declared.kind.Kind.TheVariants as k;
ghost use Rattle.occ_typing_operands.specs.Settling.{int as spec_int};
ghost use Rattle.occ_typing_tables.specs.Dimensions.{size as spec_size};
ghost use Rattle.occ_typing_rules.specs.Placing.{placed as spec_placed};
ghost use Rattle.occ_expr_operations.specs.Views.{digits_of as spec_digits_of, element_view, expr_view, expr_views, operand_view};
ghost use Rattle.occ_scope.specs.Lookup.{element as spec_element};
ghost use Rattle.occ_scope.specs.Visible.{referent as spec_referent, visible};
ghost use Rattle.occ_typing_tables.specs.Terms.{and_then, judged};
ghost use Rattle.occ_typing_tables.specs.declared.term.Term.TheVariants as v;

use super::operation::{converted, plain};
use super::reading::{Reading, Readings};
use super::selecting::component_at;
use super::written::{Extent, extent_of};
use occ_base::{Code, Fault, Items, Name, Shared};
use occ_forms_expressions::{Element, Expr, Literal, Operand};
use occ_scope::{Meaning, Referent, Scope, element};
use occ_types::{KnownType, OccType};
use occ_typing_operands::{Kind, UntypedConstant, known_as, subscripted};
use occ_typing_rules::{OpenExpr, Selector};
use occ_typing_tables::{BoundTerms, Term, alone, decorated_table, report_hidden, segment, size};
use std::alloc::{AllocError, Global};

/// The one expression of a list, if it has one and no more.
pub fn only(exprs: &[Expr]) -> Option<&Expr>
    ensures view { MatchOption result (spec_only (expr_views exprs.now) ≡ None) (λ expr. spec_only (expr_views exprs.now) ≡ Some (expr_view expr.now)) }
    ensures part { IfSome result (λ expr. exprs.now ≡ expr.now ∷ []) }
{
    let (first, others) = exprs.split_first()?;
    match others.split_first() {
        Some(_) => None,
        None => Some(first),
    }
}

/// The name that an element is alone, without subscripts.
pub fn element_name(element: &Element) -> Option<&Name>
    ensures { MatchOption result ((element_view element.now).name ≡ None) (λ name. (element_view element.now).name ≡ Some name.now) }
{
    match element {
        Element::Named(name, subscripts) => match subscripts.as_slice().split_first() {
            Some(_) => None,
            None => Some(name),
        },
        Element::Segment(_, _, _) => None,
    }
}

/// The name that an operand is alone.
fn operand_name(operand: &Operand) -> Option<&Name>
    ensures { MatchOption result ((operand_view operand.now).name ≡ None) (λ name. (operand_view operand.now).name ≡ Some name.now) }
{
    match operand {
        Operand::Element(element) => element_name(element),
        Operand::Literal(_) => None,
        Operand::Decorated(_, _) => None,
        Operand::Truth(_) => None,
        Operand::Parens(_) => None,
        Operand::Table(_, _) => None,
        Operand::DecoratedTable(_, _, _) => None,
        Operand::Call(_, _) => None,
    }
}

/// The name that an expression is, if it is a name alone: a field's, after a record.
pub fn name_alone(expr: &Expr) -> Option<&Name>
    ensures { MatchOption result ((expr_view expr.now).name ≡ None) (λ name. (expr_view expr.now).name ≡ Some name.now) }
{
    match expr {
        Expr::Alone(operand) => operand_name(operand),
        Expr::Run(_, _, _, _) => None,
        Expr::Pair(_, _, _) => None,
        Expr::Applied(_, _) => None,
        Expr::Converted(_, _, _) => None,
        Expr::ArrayConverted(_, _, _, _) => None,
        Expr::Named(_, _) => None,
        Expr::Most(_, _) => None,
    }
}

/// The integer in decimal digits that an operand is, without a type of its own.
pub fn digits_of(operand: &Operand) -> Option<u64>
    ensures { result ≡ (operand_view operand.now).digits }
{
    match operand {
        Operand::Literal(literal) => digits_in(literal),
        Operand::Element(_) => None,
        Operand::Decorated(_, _) => None,
        Operand::Truth(_) => None,
        Operand::Parens(_) => None,
        Operand::Table(_, _) => None,
        Operand::DecoratedTable(_, _, _) => None,
        Operand::Call(_, _) => None,
    }
}

/// The integer in decimal digits that a literal is.
fn digits_in(literal: &Literal) -> Option<u64>
    ensures { result ≡ spec_digits_of literal.now }
{
    match literal {
        Literal::Decimal(n) => Some(*n),
        Literal::Hexadecimal(_) => None,
        Literal::Character(_) => None,
        Literal::String(_) => None,
    }
}

/// What is reported of a name that is called in an expression and stands for no function.
pub fn report_no_function(
    alloc: Global,
    scope: &Scope,
    name: &Name,
    faults: &mut Items<Fault>,
) -> Result<(), AllocError>
    ensures { OnOk result (faults.new ≡ faults.old ++ spec_no_function name.now (visible scope.now name.now)) }
{
    let code = match scope.find(name) {
        None => Code::N1,
        Some(Meaning::Faulty | Meaning::Type(None) | Meaning::Function(_, _)) => return Ok(()),
        Some(_) => Code::N2,
    };
    let name = Some(name.copied(alloc)?);
    faults.push(Fault { code, name })
}

/// What is known of all that a name stands for.
fn named(
    alloc: Global,
    scope: &Scope,
    name: &Name,
    faults: &mut Items<Fault>,
) -> Result<Kind, AllocError>
    ensures kind { IfOk result (λ kind. kind ≡ (spec_named (spec_element name.now (visible scope.now name.now))).kind) }
    ensures faults { OnOk result (faults.new ≡ faults.old ++ (spec_named (spec_element name.now (visible scope.now name.now))).faults) }
{
    match element(alloc, scope, name, faults)? {
        Some(whole) => known_as(&whole.of, whole.value),
        None => Ok(Kind::Faulty),
    }
}

/// The same of a name whose nearest specification is found already, if it has one.
#[tactic(auto, using(crate::proofs::Referring::seen))]
#[inline(always)]
pub fn referred(
    alloc: Global,
    scope: &Scope,
    name: &Name,
    found: &Option<Referent>,
    faults: &mut Items<Fault>,
) -> Result<Kind, AllocError>
    requires { found.now ≡ spec_referent scope.now name.now }
    ensures kind { IfOk result (λ kind. kind ≡ (spec_named (spec_element name.now (visible scope.now name.now))).kind) }
    ensures faults { OnOk result (faults.new ≡ faults.old ++ (spec_named (spec_element name.now (visible scope.now name.now))).faults) }
{
    let Some(referent) = found else {
        return named(alloc, scope, name, faults);
    };
    match referent.meaning.get() {
        Meaning::Element(whole) => known_as(&whole.of, whole.value),
        _ => named(alloc, scope, name, faults),
    }
}

/// What is reported of an operand that stands alone.
pub fn report_alone(alloc: Global, term: &Term, faults: &mut Items<Fault>) -> Result<(), AllocError>
    ensures { OnOk result (faults.new ≡ faults.old ++ (judged term.now).alone.faults) }
{
    drop(alone(alloc, term, faults)?);
    Ok(())
}

/// What is reported of each bound by itself.
fn bounds_alone(
    alloc: Global,
    bounds: &BoundTerms,
    faults: &mut Items<Fault>,
) -> Result<(), AllocError>
    ensures { OnOk result (faults.new ≡ faults.old ++ spec_bounds_alone bounds.now) }
{
    match bounds {
        BoundTerms::From(base) => report_alone(alloc, base, faults),
        BoundTerms::For(count) => report_alone(alloc, count, faults),
        BoundTerms::FromFor(base, count) => {
            report_alone(alloc, base, faults)?;
            report_alone(alloc, count, faults)
        }
    }
}

/// What a place of which this is known selects of a value of a type.
#[tactic(auto, using(crate::proofs::Pairs::plain_single))]
fn selected(
    alloc: Global,
    place: &Term,
    of: &OccType,
    faults: &mut Items<Fault>,
) -> Result<Kind, AllocError>
    ensures kind { IfOk result (λ kind. kind ≡ (and_then (spec_plain (judged place.now)) (spec_subscripted of.now)).kind) }
    ensures faults { OnOk result (faults.new ≡ faults.old ++ (and_then (spec_plain (judged place.now)) (spec_subscripted of.now)).faults) }
{
    match place {
        Term::Single(index) => subscripted(alloc, of, index, faults),
        _ => {
            let index = plain(alloc, place, faults)?;
            subscripted(alloc, of, &index, faults)
        }
    }
}

/// The component at a place of which this is read.
pub fn component_of(
    alloc: Global,
    place: &Reading,
    of: &OccType,
    faults: &mut Items<Fault>,
) -> Result<(Kind, Option<Selector>), AllocError>
    ensures kind { IfOk result (λ r. r.0 ≡ (and_then (spec_plain (judged place.now.term)) (spec_subscripted of.now)).kind) }
    ensures selector { IfOk result (λ r. r.1 ≡ spec_component_at (spec_placed place.now.open_expr spec_int)) }
    ensures faults { OnOk result (faults.new ≡ faults.old ++ (and_then (spec_plain (judged place.now.term)) (spec_subscripted of.now)).faults) }
{
    let kind = selected(alloc, &place.term, of, faults)?;
    let selector = component_at(alloc, &place.open_expr, of)?;
    Ok((kind, selector))
}

/// The component at a place that is written in decimal digits.
pub fn decimal_component(
    alloc: Global,
    n: u64,
    of: &OccType,
    faults: &mut Items<Fault>,
) -> Result<(Kind, Option<Selector>), AllocError>
    ensures kind { IfOk result (λ r. r.0 ≡ (spec_subscripted of.now (k.Untyped (decimal (pos n)))).kind) }
    ensures selector { IfOk result (λ r. r.1 ≡ spec_component_at (spec_placed (d.Literal (decimal (pos n))) spec_int)) }
    ensures faults { OnOk result (faults.new ≡ faults.old ++ (spec_subscripted of.now (k.Untyped (decimal (pos n)))).faults) }
{
    let index = Kind::Untyped(UntypedConstant::decimal(n));
    let kind = subscripted(alloc, of, &index, faults)?;
    let place = OpenExpr::Literal(UntypedConstant::decimal(n));
    let selector = component_at(alloc, &place, of)?;
    Ok((kind, selector))
}

/// A dimension of this size.
pub fn sized_dimension(
    alloc: Global,
    count: &Term,
    faults: &mut Items<Fault>,
) -> Result<Extent, AllocError>
    ensures extent { IfOk result (λ extent. extent ≡ spec_extent_of (spec_size (judged count.now)).count) }
    ensures faults { OnOk result (faults.new ≡ faults.old ++ (spec_size (judged count.now)).faults) }
{
    let count = size(alloc, count, faults)?;
    Ok(extent_of(count))
}

/// A segment of what is known; of what is faulty none, and each bound is judged by itself.
#[tactic(auto, unfolding(crate::specs::Parts::segment_of))]
pub fn segment_of(
    alloc: Global,
    kind: &Kind,
    bounds: &BoundTerms,
    faults: &mut Items<Fault>,
) -> Result<Kind, AllocError>
    ensures kind { IfOk result (λ segment. segment ≡ (spec_segment_of kind.now bounds.now).kind) }
    ensures faults { OnOk result (faults.new ≡ faults.old ++ (spec_segment_of kind.now bounds.now).faults) }
{
    match kind {
        Kind::Known(found) => segment(alloc, bounds, found.of.get(), faults),
        Kind::Faulty => {
            bounds_alone(alloc, bounds, faults)?;
            Ok(Kind::Faulty)
        }
        Kind::Untyped(_) => {
            bounds_alone(alloc, bounds, faults)?;
            Ok(Kind::Faulty)
        }
    }
}

/// A table of these items with its type, if that has no fault.
#[tactic(auto, unfolding(crate::specs::Parts::table_as))]
pub fn table_as(
    alloc: Global,
    items: &[Term],
    to: Option<Shared<OccType>>,
    faults: &mut Items<Fault>,
) -> Result<Kind, AllocError>
    ensures kind { IfOk result (λ kind. kind ≡ (spec_table_as to items.now).kind) }
    ensures faults { OnOk result (faults.new ≡ faults.old ++ (spec_table_as to items.now).faults) }
{
    match to {
        Some(to) => decorated_table(alloc, items, &to, faults),
        None => {
            report_hidden(alloc, items, faults)?;
            Ok(Kind::Faulty)
        }
    }
}

/// The type that a name stands for, if it is known.
pub fn shared_type(of: &Option<KnownType>) -> Result<Option<Shared<OccType>>, AllocError>
    ensures { IfOk result (λ shared. shared ≡ of.now) }
{
    match of {
        Some(of) => Ok(Some(of.of().share()?)),
        None => Ok(None),
    }
}

/// The conversion of a table of one item.
pub fn converted_table(
    alloc: Global,
    item: Reading,
    to: Option<Shared<OccType>>,
    faults: &mut Items<Fault>,
) -> Result<Reading, AllocError>
    ensures term { IfOk result (λ whole. whole.term ≡ v.Single (spec_converted to (judged (v.Table (item.term ∷ [])))).kind) }
    ensures open_expr { IfOk result (λ whole. whole.open_expr ≡ conversion_open to (judged (v.Table (item.term ∷ []))) (d.Table (item.open_expr ∷ []))) }
    ensures faults { OnOk result (faults.new ≡ faults.old ++ (spec_converted to (judged (v.Table (item.term ∷ [])))).faults) }
{
    let items = Readings::one(alloc, item)?;
    let table = Reading {
        term: Term::Table(items.terms),
        open_expr: OpenExpr::Table(items.open_exprs),
    };
    converted(alloc, table, to, faults)
}
