//! The one walk down a tree of an expression, an element or a written type, as one cycle of functions. Each part is read
//! once, so the work is linear in the tokens. `docs/LANGUAGE.md, Expressions, elements and written types`.
ghost use Rattle.std.specs.Prelude.{◌≡◌, ◌∷◌, ◌++◌, [], IfOk, MatchOption, OnOk, Some};
ghost use Rattle.occ_expr_operations.specs.declared.written.Opening.TheVariants as opened;
ghost use Rattle.occ_forms_expressions.specs.declared.tree.Bounds.TheVariants as bounds_form;
ghost use Rattle.occ_forms_expressions.specs.declared.tree.Expr.TheVariants as form;
ghost use Rattle.occ_forms_expressions.specs.declared.tree.Literal.TheVariants as literal_form;
ghost use Rattle.occ_forms_expressions.specs.declared.tree.Operand.TheVariants as operand_form;
ghost use Rattle.occ_scope.specs.Lookup.{data_type as spec_data_type};
ghost use Rattle.occ_scope.specs.Visible.{referent, visible};
ghost use Rattle.occ_types.specs.Fits.{unnamed as spec_unnamed};
ghost use Rattle.occ_types.specs.View.{fields_in};
ghost use Rattle.occ_scope.specs.declared.meaning.Meaning.TheVariants as m;
ghost use Rattle.occ_expr.specs.inside.Passing.{AreFormals};
ghost use Rattle.occ_expr_operations.specs.Parts.{actuals as spec_actuals, call as spec_call, call_of_type as spec_call_of_type, table_as as spec_table_as, component as spec_component, after_a_fault as spec_after_a_fault, function_call as spec_function_call, in_scope, named_element as spec_named_element, no_call as spec_no_call, only as spec_only, own_faults, part as spec_part, segment_within as spec_segment_within, subscript as spec_subscript, subscripts as spec_subscripts, terms as spec_terms, whole_element as spec_whole_element};
ghost use Rattle.occ_expr_operations.specs.OpenExprs.{decorated_open as spec_decorated_open, literal_open as spec_literal_open, operand_call as spec_operand_call};
ghost use Rattle.occ_typing_tables.specs.Terms.{hidden_faults, judged_all};
ghost use Rattle.occ_typing_tables.specs.declared.term.Term.TheVariants as v;
ghost use Rattle.occ_typing_rules.specs.declared.open_expr.OpenExpr.TheVariants as d;
ghost use Rattle.occ_expr_operations.specs.Literals.{literal as spec_literal, truth as spec_truth};
ghost use Rattle.occ_expr_operations.specs.Elements.{component_at as spec_component_at, element_open as spec_element_open, place_tree as spec_place_tree, selector as spec_selector, selector_in, selectors as spec_selectors, with_selectors};
ghost use Rattle.occ_expr_operations.specs.Views.{bounds_view, components_of as spec_components_of, call_open as spec_call_open, converted_call, decorated as spec_decorated, item_opens as spec_item_opens, named_tree as spec_named_tree, operand_opens as spec_operand_opens, whole_element_open as spec_whole_element_open, builtin_view, dimension_view, dimension_views, each, element_view, expr_view, expr_views, named_operand_view, operand_view, operand_views, operands as spec_operands, type_form_view};
ghost use Rattle.occ_expr_operations.specs.Written.{all_spanning_faults, array_after as spec_array_after, array_over as spec_array_over, array_over_more as spec_array_over_more, channel as spec_channel, data_form as spec_data_form, extents as spec_extents};

use super::actuals::matched;
use occ_base::{Fault, Items, Name, Shared, one_item};
use occ_expr_operations::{
    BoundsReading, ElementReading, Extent, Opening, Reading, Readings, applied, array_type,
    base_type, component_of, components_of, converted, converted_table, count_type, counted_type,
    decimal_component, decorated_literal, decorated_open, digits_of, element_of, element_reading,
    extreme_of, faulty_reading, field_selector, for_of, from_for_of, from_of, literal,
    literal_reading, name_alone, named_channel, one_result, only, open_dimension, operand_call,
    operation_of, pair, part_of, place_tree, primitive_of, referred, report_alone,
    report_no_function, run_operator, segment_of, shared_type, sized_dimension, table_as, truth,
    values_channel, with_selector,
};
use occ_forms_expressions::{
    Bounds, Builtin, DataBase, Dimension, Element, Expr, Extreme, Literal, MonadicOperator,
    NamedOperand, Operand, TypeForm,
};
use occ_scope::{Meaning, Scope, carries, data_type};
use occ_types::{Formal, KnownType, OccType, Protocol, fields_of, unnamed};
use occ_typing_operands::{Kind, Known, field, known_as};
use occ_typing_rules::{OpenExpr, Selector, TypedElement, TypedExpr};
use occ_typing_tables::{BoundTerms, Term, report_hidden};
use std::alloc::{AllocError, Global};

/// What is read of an expression before a type is wanted of it.
#[tactic(auto, using(occ_expr_operations::proofs::Views::expr_rules))]
#[cycle(walk)]
pub fn expression(
    alloc: Global,
    expr: &Expr,
    scope: &Scope,
    faults: &mut Items<Fault>,
) -> Result<Reading, AllocError>
    ensures term { IfOk result (λ whole. whole.term ≡ ((expr_view expr.now).said scope.now).term) }
    ensures open_expr { IfOk result (λ whole. whole.open_expr ≡ (expr_view expr.now).open_expr scope.now) }
    ensures faults { OnOk result (faults.new ≡ faults.old ++ ((expr_view expr.now).said scope.now).faults) }
{
    match expr {
        Expr::Alone(following) => whole_operand(alloc, following, scope, faults),
        _ => composed(alloc, expr, scope, faults),
    }
}

/// What is read of an expression that is more than an operand alone. It stands by itself since its locals are many.
#[tactic(auto, using(occ_expr_operations::proofs::Views::expr_rules))]
#[cycle(walk)]
fn composed(
    alloc: Global,
    expr: &Expr,
    scope: &Scope,
    faults: &mut Items<Fault>,
) -> Result<Reading, AllocError>
    ensures term { IfOk result (λ whole. whole.term ≡ ((expr_view expr.now).said scope.now).term) }
    ensures open_expr { IfOk result (λ whole. whole.open_expr ≡ (expr_view expr.now).open_expr scope.now) }
    ensures faults { OnOk result (faults.new ≡ faults.old ++ ((expr_view expr.now).said scope.now).faults) }
{
    match expr {
        Expr::Alone(following) => whole_operand(alloc, following, scope, faults),
        Expr::Run(operator, first, second, more) => {
            let mut readings = Readings::with_room(alloc, more.len().saturating_add(2))?;
            let first = operand(alloc, first.get(), scope, faults)?;
            readings.push(first)?;
            let second = operand(alloc, second.get(), scope, faults)?;
            readings.push(second)?;
            operands(alloc, more.as_slice(), scope, &mut readings, faults)?;
            operation_of(alloc, readings, run_operator(*operator), faults)
        }
        Expr::Pair(first, operator, second) => {
            let first = operand(alloc, first.get(), scope, faults)?;
            let second = operand(alloc, second.get(), scope, faults)?;
            pair(alloc, first, *operator, second, faults)
        }
        Expr::Applied(operator, following) => {
            applied_reading(alloc, *operator, following.get(), scope, faults)
        }
        Expr::Converted(dims, word, following) => {
            let of = builtin(alloc, word.get(), scope, faults)?;
            let to = array_over(
                alloc,
                dims.as_slice(),
                Items::new(alloc),
                of,
                Opening::Refused,
                scope,
                faults,
            )?;
            let reading = operand(alloc, following.get(), scope, faults)?;
            converted(alloc, reading, to, faults)
        }
        Expr::ArrayConverted(first, more, name, following) => {
            let of = data_type(alloc, scope, name, faults)?;
            let first = dimension(alloc, first.get(), Opening::Refused, scope, faults)?;
            let extents = one_item(alloc, first)?;
            let to = array_over(
                alloc,
                more.as_slice(),
                extents,
                of,
                Opening::Refused,
                scope,
                faults,
            )?;
            let reading = operand(alloc, following.get(), scope, faults)?;
            converted(alloc, reading, to, faults)
        }
        Expr::Named(name, following) => named_reading(alloc, name, following.get(), scope, faults),
        Expr::Most(extreme, of) => most_reading(alloc, *extreme, of.get(), scope, faults),
    }
}

/// What is read of an operator in front of an operand.
#[tactic(auto, using(occ_expr_operations::proofs::Views::expr_rules))]
#[cycle(walk)]
fn applied_reading(
    alloc: Global,
    operator: MonadicOperator,
    following: &Operand,
    scope: &Scope,
    faults: &mut Items<Fault>,
) -> Result<Reading, AllocError>
    ensures term { IfOk result (λ whole. whole.term ≡ ((expr_view (form.Applied operator following.now)).said scope.now).term) }
    ensures open_expr { IfOk result (λ whole. whole.open_expr ≡ (expr_view (form.Applied operator following.now)).open_expr scope.now) }
    ensures faults { OnOk result (faults.new ≡ faults.old ++ ((expr_view (form.Applied operator following.now)).said scope.now).faults) }
{
    let reading = operand(alloc, following, scope, faults)?;
    applied(alloc, reading, operator, digits_of(following), faults)
}

/// What is read of a conversion to the type of a name.
#[tactic(auto, using(occ_expr_operations::proofs::Views::expr_rules))]
#[cycle(walk)]
fn named_reading(
    alloc: Global,
    name: &Name,
    following: &NamedOperand,
    scope: &Scope,
    faults: &mut Items<Fault>,
) -> Result<Reading, AllocError>
    ensures term { IfOk result (λ whole. whole.term ≡ ((expr_view (form.Named name.now following.now)).said scope.now).term) }
    ensures open_expr { IfOk result (λ whole. whole.open_expr ≡ (expr_view (form.Named name.now following.now)).open_expr scope.now) }
    ensures faults { OnOk result (faults.new ≡ faults.old ++ ((expr_view (form.Named name.now following.now)).said scope.now).faults) }
{
    let to = named_type(alloc, name, scope, faults)?;
    let reading = named_operand(alloc, following, scope, faults)?;
    converted(alloc, reading, to, faults)
}

/// What is read of the greatest or the least value of a type.
#[tactic(auto, using(occ_expr_operations::proofs::Views::expr_rules))]
#[cycle(walk)]
fn most_reading(
    alloc: Global,
    extreme: Extreme,
    of: &TypeForm,
    scope: &Scope,
    faults: &mut Items<Fault>,
) -> Result<Reading, AllocError>
    ensures term { IfOk result (λ whole. whole.term ≡ ((expr_view (form.Most extreme of.now)).said scope.now).term) }
    ensures open_expr { IfOk result (λ whole. whole.open_expr ≡ (expr_view (form.Most extreme of.now)).open_expr scope.now) }
    ensures faults { OnOk result (faults.new ≡ faults.old ++ ((expr_view (form.Most extreme of.now)).said scope.now).faults) }
{
    let of = type_form(alloc, of, Opening::Refused, scope, faults)?;
    let kind = extreme_of(extreme, of, faults)?;
    literal_reading(alloc, kind)
}

/// What is read of an operand beside an operator, or after a type.
#[tactic(auto, using(occ_expr_operations::proofs::Views::operand_rules))]
#[cycle(walk)]
fn operand(
    alloc: Global,
    operand: &Operand,
    scope: &Scope,
    faults: &mut Items<Fault>,
) -> Result<Reading, AllocError>
    ensures term { IfOk result (λ whole. whole.term ≡ ((operand_view operand.now).said scope.now).term) }
    ensures open_expr { IfOk result (λ whole. whole.open_expr ≡ (operand_view operand.now).open_expr scope.now) }
    ensures faults { OnOk result (faults.new ≡ faults.old ++ ((operand_view operand.now).said scope.now).faults) }
{
    match operand {
        Operand::Element(part) => element_operand(alloc, part, scope, faults),
        Operand::Literal(written) => literal_operand(alloc, written, faults),
        Operand::Decorated(written, of) => {
            decorated_operand(alloc, written, of.get(), scope, faults)
        }
        Operand::Truth(value) => truth_operand(alloc, *value),
        Operand::Parens(expr) => expression(alloc, expr.get(), scope, faults),
        Operand::Table(first, more) => {
            let mut items = first_item(alloc, first.get(), scope, faults)?;
            more_items(alloc, more.as_slice(), scope, &mut items, faults)?;
            Ok(table_reading(items))
        }
        Operand::DecoratedTable(first, more, of) => {
            let mut items = first_item(alloc, first.get(), scope, faults)?;
            more_items(alloc, more.as_slice(), scope, &mut items, faults)?;
            let to = type_form(alloc, of.get(), Opening::Refused, scope, faults)?;
            decorated_reading(alloc, items, to, faults)
        }
        Operand::Call(name, exprs) => call(alloc, name, exprs.as_slice(), scope, faults),
    }
}

/// What is read of an element as an operand.
#[tactic(auto, using(occ_expr_operations::proofs::Views::element_rules))]
#[cycle(walk)]
#[inline(always)]
fn element_operand(
    alloc: Global,
    part: &Element,
    scope: &Scope,
    faults: &mut Items<Fault>,
) -> Result<Reading, AllocError>
    ensures term { IfOk result (λ whole. whole.term ≡ v.Single ((element_view part.now).reported scope.now).kind) }
    ensures open_expr { IfOk result (λ whole. whole.open_expr ≡ spec_element_open ((element_view part.now).tree scope.now)) }
    ensures faults { OnOk result (faults.new ≡ faults.old ++ ((element_view part.now).reported scope.now).faults) }
{
    match part {
        Element::Named(name, exprs) => {
            element_named(alloc, name, exprs.as_slice(), scope, faults)
        }
        Element::Segment(_, _, _) => {
            let read = segment_reading(alloc, part, scope, faults)?;
            element_reading(alloc, read)
        }
    }
}

/// What is read of a name with subscripts, or without, as an operand.
#[cycle(walk)]
fn element_named(
    alloc: Global,
    name: &Name,
    exprs: &[Expr],
    scope: &Scope,
    faults: &mut Items<Fault>,
) -> Result<Reading, AllocError>
    ensures term { IfOk result (λ whole. whole.term ≡ v.Single (spec_named_element scope.now name.now (expr_views exprs.now)).kind) }
    ensures open_expr { IfOk result (λ whole. whole.open_expr ≡ spec_element_open (spec_named_tree scope.now name.now (expr_views exprs.now))) }
    ensures faults { OnOk result (faults.new ≡ faults.old ++ (spec_named_element scope.now name.now (expr_views exprs.now)).faults) }
{
    if exprs.is_empty() {
        return name_reading(alloc, name, scope, faults);
    }
    let read = named_element(alloc, name, exprs, scope, faults)?;
    element_reading(alloc, read)
}

/// What is read of a name without subscripts. Of one that stands for an element the tree is made where it stays.
#[tactic(auto, using(occ_expr_operations::proofs::Fields::front_rules, occ_expr_operations::proofs::Referring::seen), unfolding(occ_expr_operations::specs::Parts::named_element, occ_expr_operations::specs::Views::named_tree, occ_expr_operations::specs::Elements::element_of))]
fn name_reading(
    alloc: Global,
    name: &Name,
    scope: &Scope,
    faults: &mut Items<Fault>,
) -> Result<Reading, AllocError>
    ensures term { IfOk result (λ whole. whole.term ≡ v.Single (spec_named_element scope.now name.now []).kind) }
    ensures open_expr { IfOk result (λ whole. whole.open_expr ≡ spec_element_open (spec_named_tree scope.now name.now [])) }
    ensures faults { OnOk result (faults.new ≡ faults.old ++ (spec_named_element scope.now name.now []).faults) }
{
    let Some(referent) = scope.referent(name)? else {
        return other_reading(alloc, name, scope, faults);
    };
    let Meaning::Element(whole) = referent.meaning.get() else {
        return other_reading(alloc, name, scope, faults);
    };
    let kind = known_as(&whole.of, whole.value)?;
    let known = Known {
        of: whole.of.share()?,
        value: whole.value,
    };
    let tree = TypedExpr::Element(TypedElement {
        known,
        name: name.copied(alloc)?,
        referent,
        selectors: Items::new(alloc),
    });
    Ok(Reading {
        term: Term::Single(kind),
        open_expr: OpenExpr::Typed(Shared::new(alloc, tree)?),
    })
}

/// What is read of a name without subscripts, whatever it stands for.
#[tactic(auto, using(occ_expr_operations::proofs::Fields::front_rules), unfolding(occ_expr_operations::specs::Parts::named_element, occ_expr_operations::specs::Views::named_tree))]
#[inline(never)]
fn other_reading(
    alloc: Global,
    name: &Name,
    scope: &Scope,
    faults: &mut Items<Fault>,
) -> Result<Reading, AllocError>
    ensures term { IfOk result (λ whole. whole.term ≡ v.Single (spec_named_element scope.now name.now []).kind) }
    ensures open_expr { IfOk result (λ whole. whole.open_expr ≡ spec_element_open (spec_named_tree scope.now name.now [])) }
    ensures faults { OnOk result (faults.new ≡ faults.old ++ (spec_named_element scope.now name.now []).faults) }
{
    let referent = scope.referent(name)?;
    let kind = referred(alloc, scope, name, &referent, faults)?;
    let name = name.copied(alloc)?;
    let tree = element_of(&kind, name, referent, Some(Items::new(alloc)))?;
    element_reading(alloc, ElementReading { kind, tree })
}

/// What is read of a literal without a type of its own.
fn literal_operand(
    alloc: Global,
    written: &Literal,
    faults: &mut Items<Fault>,
) -> Result<Reading, AllocError>
    ensures term { IfOk result (λ whole. whole.term ≡ v.Single (spec_literal written.now).kind) }
    ensures open_expr { IfOk result (λ whole. whole.open_expr ≡ spec_literal_open (spec_literal written.now).kind) }
    ensures faults { OnOk result (faults.new ≡ faults.old ++ (spec_literal written.now).faults) }
{
    let kind = literal(alloc, written, faults)?;
    literal_reading(alloc, kind)
}

/// What is read of one literal more, without a type of its own. Undecorated decimal digits are put where they belong at once.
#[tactic(auto, unfolding(occ_expr_operations::specs::Literals::literal))]
#[inline(always)]
fn literal_more(
    alloc: Global,
    written: &Literal,
    readings: &mut Readings,
    faults: &mut Items<Fault>,
) -> Result<(), AllocError>
    ensures terms { OnOk result (readings.new.terms ≡ readings.old.terms ++ v.Single (spec_literal written.now).kind ∷ []) }
    ensures open_exprs { OnOk result (readings.new.open_exprs ≡ readings.old.open_exprs ++ spec_literal_open (spec_literal written.now).kind ∷ []) }
    ensures faults { OnOk result (faults.new ≡ faults.old ++ (spec_literal written.now).faults) }
{
    match written {
        Literal::Decimal(n) => readings.push_decimal(*n),
        _ => {
            let reading = literal_operand(alloc, written, faults)?;
            readings.push(reading)
        }
    }
}

/// What is read of a literal with its type.
#[cycle(walk)]
fn decorated_operand(
    alloc: Global,
    written: &Literal,
    of: &TypeForm,
    scope: &Scope,
    faults: &mut Items<Fault>,
) -> Result<Reading, AllocError>
    ensures term { IfOk result (λ whole. whole.term ≡ v.Single (spec_decorated (type_form_view of.now opened.Refused scope.now) written.now).kind) }
    ensures open_expr { IfOk result (λ whole. whole.open_expr ≡ spec_literal_open (spec_decorated (type_form_view of.now opened.Refused scope.now) written.now).kind) }
    ensures faults { OnOk result (faults.new ≡ faults.old ++ (spec_decorated (type_form_view of.now opened.Refused scope.now) written.now).faults) }
{
    let to = type_form(alloc, of, Opening::Refused, scope, faults)?;
    let kind = decorated_literal(alloc, written, to, faults)?;
    literal_reading(alloc, kind)
}

/// What is read of `TRUE` or `FALSE`.
fn truth_operand(alloc: Global, value: bool) -> Result<Reading, AllocError>
    ensures term { IfOk result (λ whole. whole.term ≡ v.Single (spec_truth value).kind) }
    ensures open_expr { IfOk result (λ whole. whole.open_expr ≡ spec_literal_open (spec_truth value).kind) }
{
    let kind = truth(alloc, value)?;
    literal_reading(alloc, kind)
}

/// The same of each operand of a list.
#[cycle(walk)]
fn operands(
    alloc: Global,
    operands: &[Operand],
    scope: &Scope,
    readings: &mut Readings,
    faults: &mut Items<Fault>,
) -> Result<(), AllocError>
    ensures terms { OnOk result (readings.new.terms ≡ readings.old.terms ++ spec_terms (spec_operands scope.now (operand_views operands.now))) }
    ensures open_exprs { OnOk result (readings.new.open_exprs ≡ readings.old.open_exprs ++ spec_operand_opens scope.now (operand_views operands.now)) }
    ensures faults { OnOk result (faults.new ≡ faults.old ++ own_faults (spec_operands scope.now (operand_views operands.now))) }
{
    for one in operands {
        operand_more(alloc, one, scope, readings, faults)?;
    }
    Ok(())
}

/// The same of one operand more.
#[tactic(auto, using(occ_expr_operations::proofs::Views::operand_rules))]
#[cycle(walk)]
#[inline(always)]
fn operand_more(
    alloc: Global,
    one: &Operand,
    scope: &Scope,
    readings: &mut Readings,
    faults: &mut Items<Fault>,
) -> Result<(), AllocError>
    ensures terms { OnOk result (readings.new.terms ≡ readings.old.terms ++ ((operand_view one.now).said scope.now).term ∷ []) }
    ensures open_exprs { OnOk result (readings.new.open_exprs ≡ readings.old.open_exprs ++ (operand_view one.now).open_expr scope.now ∷ []) }
    ensures faults { OnOk result (faults.new ≡ faults.old ++ ((operand_view one.now).said scope.now).faults) }
{
    match one {
        Operand::Literal(written) => literal_more(alloc, written, readings, faults),
        _ => {
            let reading = operand(alloc, one, scope, faults)?;
            readings.push(reading)
        }
    }
}

/// What is read of an operand that is a whole expression.
#[tactic(auto, using(occ_expr_operations::proofs::Views::operand_rules))]
#[cycle(walk)]
#[inline(always)]
fn whole_operand(
    alloc: Global,
    whole: &Operand,
    scope: &Scope,
    faults: &mut Items<Fault>,
) -> Result<Reading, AllocError>
    ensures term { IfOk result (λ read. read.term ≡ ((operand_view whole.now).whole scope.now).term) }
    ensures open_expr { IfOk result (λ read. read.open_expr ≡ (operand_view whole.now).whole_open scope.now) }
    ensures faults { OnOk result (faults.new ≡ faults.old ++ ((operand_view whole.now).whole scope.now).faults) }
{
    match whole {
        Operand::Element(part) => whole_element(alloc, part, scope, faults),
        Operand::Literal(_) => operand(alloc, whole, scope, faults),
        Operand::Decorated(_, _) => operand(alloc, whole, scope, faults),
        Operand::Truth(_) => operand(alloc, whole, scope, faults),
        Operand::Parens(_) => operand(alloc, whole, scope, faults),
        Operand::Table(_, _) => operand(alloc, whole, scope, faults),
        Operand::DecoratedTable(_, _, _) => operand(alloc, whole, scope, faults),
        Operand::Call(_, _) => operand(alloc, whole, scope, faults),
    }
}

/// What is read of an operand that stands directly after the name of a type.
#[tactic(auto, using(occ_expr_operations::proofs::Views::named_operand_rules))]
#[cycle(walk)]
fn named_operand(
    alloc: Global,
    operand: &NamedOperand,
    scope: &Scope,
    faults: &mut Items<Fault>,
) -> Result<Reading, AllocError>
    ensures term { IfOk result (λ whole. whole.term ≡ ((named_operand_view operand.now).said scope.now).term) }
    ensures open_expr { IfOk result (λ whole. whole.open_expr ≡ (named_operand_view operand.now).open_expr scope.now) }
    ensures faults { OnOk result (faults.new ≡ faults.old ++ ((named_operand_view operand.now).said scope.now).faults) }
{
    match operand {
        NamedOperand::Element(part) => element_operand(alloc, part, scope, faults),
        NamedOperand::Literal(written) => literal_operand(alloc, written, faults),
        NamedOperand::Decorated(written, of) => {
            decorated_operand(alloc, written, of.get(), scope, faults)
        }
        NamedOperand::Truth(value) => truth_operand(alloc, *value),
        NamedOperand::Table(first, second, more) => {
            let mut items = first_item(alloc, first.get(), scope, faults)?;
            let second = expression(alloc, second.get(), scope, faults)?;
            items.push(second)?;
            more_items(alloc, more.as_slice(), scope, &mut items, faults)?;
            Ok(table_reading(items))
        }
        NamedOperand::DecoratedTable(first, more, of) => {
            let mut items = first_item(alloc, first.get(), scope, faults)?;
            more_items(alloc, more.as_slice(), scope, &mut items, faults)?;
            let to = type_form(alloc, of.get(), Opening::Refused, scope, faults)?;
            decorated_reading(alloc, items, to, faults)
        }
        NamedOperand::Call(name, arguments) => {
            call(alloc, name, arguments.as_slice(), scope, faults)
        }
    }
}

/// A table of these items without its type.
fn table_reading(items: Readings) -> Reading
    ensures term { result.term ≡ v.Table items.terms }
    ensures open_expr { result.open_expr ≡ d.Table items.open_exprs }
{
    Reading {
        term: Term::Table(items.terms),
        open_expr: OpenExpr::Table(items.open_exprs),
    }
}

/// A table of these items with its type, if that has no fault.
fn decorated_reading(
    alloc: Global,
    items: Readings,
    to: Option<Shared<OccType>>,
    faults: &mut Items<Fault>,
) -> Result<Reading, AllocError>
    ensures term { IfOk result (λ whole. whole.term ≡ v.Single (spec_table_as to items.terms).kind) }
    ensures open_expr { IfOk result (λ whole. whole.open_expr ≡ spec_decorated_open (spec_table_as to items.terms).kind items.open_exprs) }
    ensures faults { OnOk result (faults.new ≡ faults.old ++ (spec_table_as to items.terms).faults) }
{
    let kind = table_as(alloc, items.terms.as_slice(), to, faults)?;
    let open_expr = decorated_open(alloc, &kind, items.open_exprs.as_slice())?;
    Ok(Reading {
        term: Term::Single(kind),
        open_expr,
    })
}

/// The first item of a table.
#[cycle(walk)]
fn first_item(
    alloc: Global,
    expr: &Expr,
    scope: &Scope,
    faults: &mut Items<Fault>,
) -> Result<Readings, AllocError>
    ensures terms { IfOk result (λ all. all.terms ≡ ((expr_view expr.now).said scope.now).term ∷ []) }
    ensures open_exprs { IfOk result (λ all. all.open_exprs ≡ (expr_view expr.now).open_expr scope.now ∷ []) }
    ensures faults { OnOk result (faults.new ≡ faults.old ++ ((expr_view expr.now).said scope.now).faults) }
{
    let item = expression(alloc, expr, scope, faults)?;
    Readings::one(alloc, item)
}

/// More items of a table.
#[cycle(walk)]
pub fn more_items(
    alloc: Global,
    exprs: &[Expr],
    scope: &Scope,
    items: &mut Readings,
    faults: &mut Items<Fault>,
) -> Result<(), AllocError>
    ensures terms { OnOk result (items.new.terms ≡ items.old.terms ++ spec_terms (in_scope scope.now (expr_views exprs.now))) }
    ensures open_exprs { OnOk result (items.new.open_exprs ≡ items.old.open_exprs ++ spec_item_opens scope.now (expr_views exprs.now)) }
    ensures faults { OnOk result (faults.new ≡ faults.old ++ own_faults (in_scope scope.now (expr_views exprs.now))) }
{
    for expr in exprs {
        let item = expression(alloc, expr, scope, faults)?;
        items.push(item)?;
    }
    Ok(())
}

/// What is reported of each argument of a call of which it is hidden what is wanted.
#[cycle(walk)]
fn arguments(
    alloc: Global,
    exprs: &[Expr],
    scope: &Scope,
    faults: &mut Items<Fault>,
) -> Result<(), AllocError>
    ensures { OnOk result (faults.new ≡ faults.old ++ (own_faults (in_scope scope.now (expr_views exprs.now)) ++ hidden_faults (judged_all (spec_terms (in_scope scope.now (expr_views exprs.now)))))) }
{
    let mut readings = Readings::new(alloc);
    more_items(alloc, exprs, scope, &mut readings, faults)?;
    report_hidden(alloc, readings.terms.as_slice(), faults)
}

/// What is reported of a call of what is no function, and converts nothing.
#[tactic(auto, unfolding(occ_expr_operations::specs::Parts::no_call))]
#[cycle(walk)]
fn no_call(
    alloc: Global,
    name: &Name,
    exprs: &[Expr],
    scope: &Scope,
    faults: &mut Items<Fault>,
) -> Result<(), AllocError>
    ensures { OnOk result (faults.new ≡ faults.old ++ (spec_no_call scope.now name.now (expr_views exprs.now)).faults) }
{
    report_no_function(alloc, scope, name, faults)?;
    arguments(alloc, exprs, scope, faults)
}

/// The actuals of a call of the function of a name, which has these formals: whether one of them is faulty, or their
/// number, and their open expressions.
#[cycle(walk)]
pub fn actuals(
    alloc: Global,
    callee: &Name,
    exprs: &[Expr],
    formals: &[Formal],
    scope: &Scope,
    faults: &mut Items<Fault>,
) -> Result<(bool, Items<OpenExpr>), AllocError>
    requires { AreFormals scope.now callee.now formals.now }
    ensures is_faulty { IfOk result (λ r. r.0 ≡ (spec_actuals formals.now (in_scope scope.now (expr_views exprs.now))).is_faulty) }
    ensures open_exprs { IfOk result (λ r. r.1 ≡ spec_item_opens scope.now (expr_views exprs.now)) }
    ensures faults { OnOk result (faults.new ≡ faults.old ++ (spec_actuals formals.now (in_scope scope.now (expr_views exprs.now))).faults) }
{
    let mut readings = Readings::new(alloc);
    more_items(alloc, exprs, scope, &mut readings, faults)?;
    let terms = readings.terms.as_slice();
    let is_faulty = matched(alloc, scope, callee, formals, exprs, terms, faults)?;
    Ok((is_faulty, readings.open_exprs))
}

/// What is read of a call of a function as an operand.
#[tactic(auto, using(crate::proofs::Passing::its_formals), unfolding(occ_expr_operations::specs::Parts::function_call))]
#[cycle(walk)]
fn function_call(
    alloc: Global,
    name: &Name,
    exprs: &[Expr],
    formals: &[Formal],
    results: &[Shared<OccType>],
    scope: &Scope,
    faults: &mut Items<Fault>,
) -> Result<Reading, AllocError>
    requires { visible scope.now name.now ≡ Some (m.Function formals.now results.now) }
    ensures term { IfOk result (λ whole. whole.term ≡ v.Single (spec_function_call formals.now results.now (in_scope scope.now (expr_views exprs.now))).kind) }
    ensures open_expr { IfOk result (λ whole. whole.open_expr ≡ spec_operand_call (spec_function_call formals.now results.now (in_scope scope.now (expr_views exprs.now))).kind (referent scope.now name.now) formals.now (spec_item_opens scope.now (expr_views exprs.now))) }
    ensures faults { OnOk result (faults.new ≡ faults.old ++ (spec_function_call formals.now results.now (in_scope scope.now (expr_views exprs.now))).faults) }
{
    let (is_faulty, open_exprs) = actuals(alloc, name, exprs, formals, scope, faults)?;
    if is_faulty {
        return Ok(faulty_reading());
    }
    let kind = one_result(results, faults)?;
    let open_expr = operand_call(alloc, scope, name, &kind, formals, open_exprs.as_slice())?;
    Ok(Reading {
        term: Term::Single(kind),
        open_expr,
    })
}

/// What is read of a call whose name stands for a type: it is a conversion, if it has one argument.
#[tactic(auto, unfolding(occ_expr_operations::specs::Parts::no_call))]
#[cycle(walk)]
fn call_of_type(
    alloc: Global,
    name: &Name,
    exprs: &[Expr],
    to: &Option<KnownType>,
    scope: &Scope,
    faults: &mut Items<Fault>,
) -> Result<Reading, AllocError>
    ensures term { IfOk result (λ whole. whole.term ≡ v.Single (spec_call_of_type scope.now name.now (expr_views exprs.now) to.now (spec_only (expr_views exprs.now))).kind) }
    ensures open_expr { IfOk result (λ whole. whole.open_expr ≡ converted_call scope.now to.now (spec_only (expr_views exprs.now))) }
    ensures faults { OnOk result (faults.new ≡ faults.old ++ (spec_call_of_type scope.now name.now (expr_views exprs.now) to.now (spec_only (expr_views exprs.now))).faults) }
{
    let Some(expr) = only(exprs) else {
        no_call(alloc, name, exprs, scope, faults)?;
        return Ok(faulty_reading());
    };
    let to = shared_type(to)?;
    let read = expression(alloc, expr, scope, faults)?;
    converted(alloc, read, to, faults)
}

/// What is read of a call: of a function, or a conversion, if it names a data type and has one argument.
#[tactic(auto, unfolding(occ_expr_operations::specs::Parts::call, occ_expr_operations::specs::Parts::no_call, occ_expr_operations::specs::Views::call_open))]
#[cycle(walk)]
fn call(
    alloc: Global,
    name: &Name,
    exprs: &[Expr],
    scope: &Scope,
    faults: &mut Items<Fault>,
) -> Result<Reading, AllocError>
    ensures term { IfOk result (λ whole. whole.term ≡ v.Single (spec_call scope.now name.now (expr_views exprs.now)).kind) }
    ensures open_expr { IfOk result (λ whole. whole.open_expr ≡ spec_call_open scope.now name.now (expr_views exprs.now)) }
    ensures faults { OnOk result (faults.new ≡ faults.old ++ (spec_call scope.now name.now (expr_views exprs.now)).faults) }
{
    match scope.find(name) {
        Some(Meaning::Type(to)) => call_of_type(alloc, name, exprs, to, scope, faults),
        Some(Meaning::Function(formals, results)) => function_call(
            alloc,
            name,
            exprs,
            formals.get().as_slice(),
            results.as_slice(),
            scope,
            faults,
        ),
        _ => {
            no_call(alloc, name, exprs, scope, faults)?;
            Ok(faulty_reading())
        }
    }
}

/// What is read of an element.
#[tactic(auto, using(occ_expr_operations::proofs::Views::element_rules))]
#[cycle(walk)]
pub fn element(
    alloc: Global,
    element: &Element,
    scope: &Scope,
    faults: &mut Items<Fault>,
) -> Result<ElementReading, AllocError>
    ensures kind { IfOk result (λ read. read.kind ≡ ((element_view element.now).reported scope.now).kind) }
    ensures tree { IfOk result (λ read. read.tree ≡ (element_view element.now).tree scope.now) }
    ensures faults { OnOk result (faults.new ≡ faults.old ++ ((element_view element.now).reported scope.now).faults) }
{
    match element {
        Element::Named(name, exprs) => named_element(alloc, name, exprs.as_slice(), scope, faults),
        Element::Segment(_, _, _) => segment_reading(alloc, element, scope, faults),
    }
}

/// What is read of an element that is a segment with subscripts. It stands by itself since its locals are many.
#[tactic(auto, using(occ_expr_operations::proofs::Views::element_rules))]
#[cycle(walk)]
fn segment_reading(
    alloc: Global,
    element: &Element,
    scope: &Scope,
    faults: &mut Items<Fault>,
) -> Result<ElementReading, AllocError>
    ensures kind { IfOk result (λ read. read.kind ≡ ((element_view element.now).reported scope.now).kind) }
    ensures tree { IfOk result (λ read. read.tree ≡ (element_view element.now).tree scope.now) }
    ensures faults { OnOk result (faults.new ≡ faults.old ++ ((element_view element.now).reported scope.now).faults) }
{
    match element {
        Element::Named(name, exprs) => named_element(alloc, name, exprs.as_slice(), scope, faults),
        Element::Segment(whole, part, exprs) => {
            let inner = self::element(alloc, whole.get(), scope, faults)?;
            let (segment, selector) = segment_within(
                alloc,
                &inner.kind,
                part.get(),
                scope,
                faults,
            )?;
            let selectors = Some(Items::new(alloc));
            let (kind, following) = subscripts(
                alloc,
                exprs.as_slice(),
                segment,
                selectors,
                scope,
                faults,
            )?;
            let tree = part_of(&kind, inner.tree, selector, following)?;
            Ok(ElementReading { kind, tree })
        }
    }
}

/// What a segment selects of what is known, and how.
#[cycle(walk)]
fn segment_within(
    alloc: Global,
    whole: &Kind,
    part: &Bounds,
    scope: &Scope,
    faults: &mut Items<Fault>,
) -> Result<(Kind, Option<Selector>), AllocError>
    ensures kind { IfOk result (λ r. r.0 ≡ (spec_segment_within ((bounds_view part.now).said scope.now) whole.now).kind) }
    ensures selector { IfOk result (λ r. r.1 ≡ (bounds_view part.now).tree scope.now (spec_components_of whole.now)) }
    ensures faults { OnOk result (faults.new ≡ faults.old ++ (spec_segment_within ((bounds_view part.now).said scope.now) whole.now).faults) }
{
    let components = components_of(whole);
    let BoundsReading {
        bounds: terms,
        selector,
    } = bounds(alloc, part, components, scope, faults)?;
    let segment = segment_of(alloc, whole, &terms, faults);
    drop(terms);
    Ok((segment?, selector))
}

/// What is read of an element that is a whole expression: the conversion of a table of one item, if it names a data type
/// and has one subscript.
#[tactic(auto, using(occ_expr_operations::proofs::Views::element_rules))]
#[cycle(walk)]
fn whole_element(
    alloc: Global,
    whole: &Element,
    scope: &Scope,
    faults: &mut Items<Fault>,
) -> Result<Reading, AllocError>
    ensures term { IfOk result (λ read. read.term ≡ v.Single ((element_view whole.now).whole scope.now).kind) }
    ensures open_expr { IfOk result (λ read. read.open_expr ≡ (element_view whole.now).whole_open scope.now) }
    ensures faults { OnOk result (faults.new ≡ faults.old ++ ((element_view whole.now).whole scope.now).faults) }
{
    match whole {
        Element::Named(name, exprs) => {
            whole_named_element(alloc, name, exprs.as_slice(), scope, faults)
        }
        Element::Segment(_, _, _) => element_operand(alloc, whole, scope, faults),
    }
}

/// The same of a name with subscripts.
#[tactic(auto, unfolding(occ_expr_operations::specs::Parts::whole_element, occ_expr_operations::specs::Views::whole_element_open))]
#[cycle(walk)]
fn whole_named_element(
    alloc: Global,
    name: &Name,
    exprs: &[Expr],
    scope: &Scope,
    faults: &mut Items<Fault>,
) -> Result<Reading, AllocError>
    ensures term { IfOk result (λ read. read.term ≡ v.Single (spec_whole_element scope.now name.now (expr_views exprs.now)).kind) }
    ensures open_expr { IfOk result (λ read. read.open_expr ≡ spec_whole_element_open scope.now name.now (expr_views exprs.now)) }
    ensures faults { OnOk result (faults.new ≡ faults.old ++ (spec_whole_element scope.now name.now (expr_views exprs.now)).faults) }
{
    if exprs.is_empty() {
        return name_reading(alloc, name, scope, faults);
    }
    let (Some(Meaning::Type(to)), Some(expr)) = (scope.find(name), only(exprs)) else {
        return element_named(alloc, name, exprs, scope, faults);
    };
    let to = shared_type(to)?;
    let item = expression(alloc, expr, scope, faults)?;
    converted_table(alloc, item, to, faults)
}

/// A name with subscripts.
#[tactic(auto, using(occ_expr_operations::proofs::Fields::front_rules), unfolding(occ_expr_operations::specs::Parts::named_element, occ_expr_operations::specs::Views::named_tree))]
#[cycle(walk)]
pub fn named_element(
    alloc: Global,
    name: &Name,
    exprs: &[Expr],
    scope: &Scope,
    faults: &mut Items<Fault>,
) -> Result<ElementReading, AllocError>
    ensures kind { IfOk result (λ read. read.kind ≡ (spec_named_element scope.now name.now (expr_views exprs.now)).kind) }
    ensures tree { IfOk result (λ read. read.tree ≡ spec_named_tree scope.now name.now (expr_views exprs.now)) }
    ensures faults { OnOk result (faults.new ≡ faults.old ++ (spec_named_element scope.now name.now (expr_views exprs.now)).faults) }
{
    let referent = scope.referent(name)?;
    let whole = referred(alloc, scope, name, &referent, faults)?;
    let room = Items::from_vec(Vec::with_capacity(alloc, exprs.len())?);
    let (kind, selectors) = subscripts(alloc, exprs, whole, Some(room), scope, faults)?;
    let tree = element_of(&kind, name.copied(alloc)?, referent, selectors)?;
    Ok(ElementReading { kind, tree })
}

/// What subscripts select of what is known, and how, after those that selected it.
#[tactic(auto, using(occ_expr_operations::proofs::Fields::front_rules))]
#[cycle(walk)]
fn subscripts(
    alloc: Global,
    exprs: &[Expr],
    mut kind: Kind,
    mut selectors: Option<Items<Selector>>,
    scope: &Scope,
    faults: &mut Items<Fault>,
) -> Result<(Kind, Option<Items<Selector>>), AllocError>
    ensures kind { IfOk result (λ r. r.0 ≡ (spec_subscripts scope.now (expr_views exprs.now) kind).kind) }
    ensures selectors { IfOk result (λ r. r.1 ≡ with_selectors selectors (spec_selectors scope.now (expr_views exprs.now) kind)) }
    ensures faults { OnOk result (faults.new ≡ faults.old ++ (spec_subscripts scope.now (expr_views exprs.now) kind).faults) }
{
    for expr in exprs {
        let (next, selector) = subscript(alloc, expr, &kind, scope, faults)?;
        selectors = with_selector(selectors, selector)?;
        kind = next;
    }
    Ok((kind, selectors))
}

/// What a subscript selects of what is known, and how.
#[tactic(auto, unfolding(occ_expr_operations::specs::Parts::subscript, occ_expr_operations::specs::Elements::selector))]
#[cycle(walk)]
fn subscript(
    alloc: Global,
    expr: &Expr,
    whole: &Kind,
    scope: &Scope,
    faults: &mut Items<Fault>,
) -> Result<(Kind, Option<Selector>), AllocError>
    ensures kind { IfOk result (λ r. r.0 ≡ (spec_subscript scope.now (expr_view expr.now) whole.now).kind) }
    ensures selector { IfOk result (λ r. r.1 ≡ spec_selector scope.now (expr_view expr.now) whole.now) }
    ensures faults { OnOk result (faults.new ≡ faults.old ++ (spec_subscript scope.now (expr_view expr.now) whole.now).faults) }
{
    match whole {
        Kind::Known(found) => part(alloc, expr, found.of.get(), scope, faults),
        Kind::Faulty => {
            after_a_fault(alloc, expr, scope, faults)?;
            Ok((Kind::Faulty, None))
        }
        Kind::Untyped(_) => {
            after_a_fault(alloc, expr, scope, faults)?;
            Ok((Kind::Faulty, None))
        }
    }
}

/// What is reported of a subscript of what has a fault: a name alone may be a field's, and is not looked up.
#[tactic(auto, unfolding(occ_expr_operations::specs::Parts::after_a_fault))]
#[cycle(walk)]
fn after_a_fault(
    alloc: Global,
    expr: &Expr,
    scope: &Scope,
    faults: &mut Items<Fault>,
) -> Result<(), AllocError>
    ensures { OnOk result (faults.new ≡ faults.old ++ spec_after_a_fault scope.now (expr_view expr.now)) }
{
    if name_alone(expr).is_some() {
        return Ok(());
    }
    let read = expression(alloc, expr, scope, faults)?;
    let reported = report_alone(alloc, &read.term, faults);
    drop(read);
    reported
}

/// What a subscript selects of a value of a type, and how: of a record, a field.
#[tactic(auto, unfolding(occ_expr_operations::specs::Parts::part))]
#[cycle(walk)]
fn part(
    alloc: Global,
    expr: &Expr,
    of: &OccType,
    scope: &Scope,
    faults: &mut Items<Fault>,
) -> Result<(Kind, Option<Selector>), AllocError>
    ensures kind { IfOk result (λ r. r.0 ≡ (spec_part scope.now of.now (fields_in (spec_unnamed of.now)) (expr_view expr.now)).kind) }
    ensures selector { IfOk result (λ r. r.1 ≡ selector_in scope.now (expr_view expr.now) (fields_in (spec_unnamed of.now)) (expr_view expr.now).name) }
    ensures faults { OnOk result (faults.new ≡ faults.old ++ (spec_part scope.now of.now (fields_in (spec_unnamed of.now)) (expr_view expr.now)).faults) }
{
    let (Some(fields), Some(name)) = (fields_of(unnamed(of)), name_alone(expr)) else {
        return component(alloc, expr, of, scope, faults);
    };
    let kind = field(alloc, fields, name, faults)?;
    let selector = field_selector(alloc, name, fields)?;
    Ok((kind, selector))
}

/// The number that an expression is, if it is an integer in decimal digits alone.
fn decimal_alone(expr: &Expr) -> Option<u64>
    ensures { MatchOption result (Unit {0}) (λ n. expr.now ≡ form.Alone (operand_form.Literal (literal_form.Decimal n))) }
{
    match expr {
        Expr::Alone(Operand::Literal(Literal::Decimal(n))) => Some(*n),
        _ => None,
    }
}

/// What a subscript selects that is no name of a field, and how. Of a place in decimal digits no reading is made.
#[cycle(walk)]
fn component(
    alloc: Global,
    expr: &Expr,
    of: &OccType,
    scope: &Scope,
    faults: &mut Items<Fault>,
) -> Result<(Kind, Option<Selector>), AllocError>
    ensures kind { IfOk result (λ r. r.0 ≡ (spec_component scope.now of.now (expr_view expr.now)).kind) }
    ensures selector { IfOk result (λ r. r.1 ≡ spec_component_at (spec_place_tree scope.now (expr_view expr.now))) }
    ensures faults { OnOk result (faults.new ≡ faults.old ++ (spec_component scope.now of.now (expr_view expr.now)).faults) }
{
    match decimal_alone(expr) {
        Some(n) => decimal_component(alloc, n, of, faults),
        None => read_component(alloc, expr, of, scope, faults),
    }
}

/// What a place of which a reading is made selects, and how.
#[tactic(auto, unfolding(occ_expr_operations::specs::Parts::component))]
#[cycle(walk)]
fn read_component(
    alloc: Global,
    expr: &Expr,
    of: &OccType,
    scope: &Scope,
    faults: &mut Items<Fault>,
) -> Result<(Kind, Option<Selector>), AllocError>
    ensures kind { IfOk result (λ r. r.0 ≡ (spec_component scope.now of.now (expr_view expr.now)).kind) }
    ensures selector { IfOk result (λ r. r.1 ≡ spec_component_at (spec_place_tree scope.now (expr_view expr.now))) }
    ensures faults { OnOk result (faults.new ≡ faults.old ++ (spec_component scope.now of.now (expr_view expr.now)).faults) }
{
    let place = expression(alloc, expr, scope, faults)?;
    let selected = component_of(alloc, &place, of, faults);
    drop(place);
    selected
}

/// The bounds of a segment of so many components, if their number is known.
#[tactic(auto, using(occ_expr_operations::proofs::Views::bounds_rules))]
#[cycle(walk)]
fn bounds(
    alloc: Global,
    bounds: &Bounds,
    components: Option<u32>,
    scope: &Scope,
    faults: &mut Items<Fault>,
) -> Result<BoundsReading, AllocError>
    ensures bounds { IfOk result (λ read. read.bounds ≡ ((bounds_view bounds.now).said scope.now).bounds) }
    ensures selector { IfOk result (λ read. read.selector ≡ (bounds_view bounds.now).tree scope.now components) }
    ensures faults { OnOk result (faults.new ≡ faults.old ++ ((bounds_view bounds.now).said scope.now).faults) }
{
    match bounds {
        Bounds::From(base) => from_reading(alloc, base.get(), components, scope, faults),
        Bounds::For(count) => for_reading(alloc, count.get(), components, scope, faults),
        Bounds::FromFor(base, count) => {
            let (base, first) = place_reading(alloc, base.get(), scope, faults)?;
            let (count, number) = place_reading(alloc, count.get(), scope, faults)?;
            Ok(BoundsReading {
                bounds: BoundTerms::FromFor(base, count),
                selector: from_for_of(components, first, number),
            })
        }
    }
}

/// A place or a count: what it is before a type is wanted of it, and its tree as an INT, if it has no fault.
#[cycle(walk)]
fn place_reading(
    alloc: Global,
    expr: &Expr,
    scope: &Scope,
    faults: &mut Items<Fault>,
) -> Result<(Term, Option<Shared<TypedExpr>>), AllocError>
    ensures term { IfOk result (λ r. r.0 ≡ ((expr_view expr.now).said scope.now).term) }
    ensures tree { IfOk result (λ r. r.1 ≡ spec_place_tree scope.now (expr_view expr.now)) }
    ensures faults { OnOk result (faults.new ≡ faults.old ++ ((expr_view expr.now).said scope.now).faults) }
{
    let Reading { term, open_expr } = expression(alloc, expr, scope, faults)?;
    let tree = place_tree(alloc, &open_expr);
    drop(open_expr);
    Ok((term, tree?))
}

/// `FROM e` of so many components.
#[tactic(auto, using(occ_expr_operations::proofs::Views::bounds_rules))]
#[cycle(walk)]
fn from_reading(
    alloc: Global,
    base: &Expr,
    components: Option<u32>,
    scope: &Scope,
    faults: &mut Items<Fault>,
) -> Result<BoundsReading, AllocError>
    ensures bounds { IfOk result (λ read. read.bounds ≡ ((bounds_view (bounds_form.From base.now)).said scope.now).bounds) }
    ensures selector { IfOk result (λ read. read.selector ≡ (bounds_view (bounds_form.From base.now)).tree scope.now components) }
    ensures faults { OnOk result (faults.new ≡ faults.old ++ ((bounds_view (bounds_form.From base.now)).said scope.now).faults) }
{
    let (base, first) = place_reading(alloc, base, scope, faults)?;
    Ok(BoundsReading {
        bounds: BoundTerms::From(base),
        selector: from_of(components, first),
    })
}

/// `FOR e` of so many components.
#[tactic(auto, using(occ_expr_operations::proofs::Views::bounds_rules))]
#[cycle(walk)]
fn for_reading(
    alloc: Global,
    count: &Expr,
    components: Option<u32>,
    scope: &Scope,
    faults: &mut Items<Fault>,
) -> Result<BoundsReading, AllocError>
    ensures bounds { IfOk result (λ read. read.bounds ≡ ((bounds_view (bounds_form.For count.now)).said scope.now).bounds) }
    ensures selector { IfOk result (λ read. read.selector ≡ (bounds_view (bounds_form.For count.now)).tree scope.now components) }
    ensures faults { OnOk result (faults.new ≡ faults.old ++ ((bounds_view (bounds_form.For count.now)).said scope.now).faults) }
{
    let (count, number) = place_reading(alloc, count, scope, faults)?;
    Ok(BoundsReading {
        bounds: BoundTerms::For(count),
        selector: for_of(components, number),
    })
}

/// A type, if nothing is wrong with it.
#[cycle(walk)]
pub fn type_form(
    alloc: Global,
    of: &TypeForm,
    opening: Opening,
    scope: &Scope,
    faults: &mut Items<Fault>,
) -> Result<Option<Shared<OccType>>, AllocError>
    ensures found { IfOk result (λ found. found ≡ (type_form_view of.now opening scope.now).found) }
    ensures faults { OnOk result (faults.new ≡ faults.old ++ (type_form_view of.now opening scope.now).faults) }
{
    let of = known_type_form(alloc, of, opening, scope, faults)?;
    Ok(type_alone(of))
}

/// A type with what is asked of its size, if nothing is wrong with it.
#[tactic(auto, using(occ_expr_operations::proofs::Views::type_form_rules))]
#[cycle(walk)]
pub fn known_type_form(
    alloc: Global,
    of: &TypeForm,
    opening: Opening,
    scope: &Scope,
    faults: &mut Items<Fault>,
) -> Result<Option<KnownType>, AllocError>
    ensures found { IfOk result (λ found. found ≡ (type_form_view of.now opening scope.now).found) }
    ensures faults { OnOk result (faults.new ≡ faults.old ++ (type_form_view of.now opening scope.now).faults) }
{
    match of {
        TypeForm::Named(dims, name) => {
            let of = data_type(alloc, scope, name, faults)?;
            known_array_over(
                alloc,
                dims.as_slice(),
                Items::new(alloc),
                of,
                opening,
                scope,
                faults,
            )
        }
        TypeForm::Builtin(dims, word) => {
            let of = builtin(alloc, word.get(), scope, faults)?;
            known_array_over(
                alloc,
                dims.as_slice(),
                Items::new(alloc),
                of,
                opening,
                scope,
                faults,
            )
        }
    }
}

/// The data type of this name.
#[tactic(auto, unfolding(occ_expr_operations::specs::Written::array_after))]
pub fn named_type(
    alloc: Global,
    name: &Name,
    scope: &Scope,
    faults: &mut Items<Fault>,
) -> Result<Option<Shared<OccType>>, AllocError>
    ensures found { IfOk result (λ found. found ≡ (spec_array_over [] (spec_data_type name.now (visible scope.now name.now))).found) }
    ensures faults { OnOk result (faults.new ≡ faults.old ++ (spec_array_over [] (spec_data_type name.now (visible scope.now name.now))).faults) }
{
    let of = data_type(alloc, scope, name, faults)?;
    let of = array_type(alloc, &[], of, faults)?;
    Ok(type_alone(of))
}

/// An array of components of this type, if that has no fault, with these dimensions after the others.
#[tactic(auto, unfolding(occ_expr_operations::specs::Written::array_after))]
#[cycle(walk)]
fn known_array_over(
    alloc: Global,
    dims: &[Dimension],
    mut extents: Items<Extent>,
    of: Option<KnownType>,
    opening: Opening,
    scope: &Scope,
    faults: &mut Items<Fault>,
) -> Result<Option<KnownType>, AllocError>
    ensures found { IfOk result (λ found. found ≡ (spec_array_after extents (each opening scope.now (dimension_views dims.now)) of).found) }
    ensures faults { OnOk result (faults.new ≡ faults.old ++ (spec_array_after extents (each opening scope.now (dimension_views dims.now)) of).faults) }
{
    dimensions(alloc, dims, opening, scope, &mut extents, faults)?;
    array_type(alloc, extents.as_slice(), of, faults)
}

/// An array as for `known_array_over`, without what is asked of its size.
#[cycle(walk)]
fn array_over(
    alloc: Global,
    dims: &[Dimension],
    extents: Items<Extent>,
    of: Option<KnownType>,
    opening: Opening,
    scope: &Scope,
    faults: &mut Items<Fault>,
) -> Result<Option<Shared<OccType>>, AllocError>
    ensures found { IfOk result (λ found. found ≡ (spec_array_after extents (each opening scope.now (dimension_views dims.now)) of).found) }
    ensures faults { OnOk result (faults.new ≡ faults.old ++ (spec_array_after extents (each opening scope.now (dimension_views dims.now)) of).faults) }
{
    let of = known_array_over(alloc, dims, extents, of, opening, scope, faults)?;
    Ok(type_alone(of))
}

/// Dimensions of a type.
#[cycle(walk)]
fn dimensions(
    alloc: Global,
    dims: &[Dimension],
    opening: Opening,
    scope: &Scope,
    extents: &mut Items<Extent>,
    faults: &mut Items<Fault>,
) -> Result<(), AllocError>
    ensures extents { OnOk result (extents.new ≡ extents.old ++ spec_extents (each opening scope.now (dimension_views dims.now))) }
    ensures faults { OnOk result (faults.new ≡ faults.old ++ all_spanning_faults (each opening scope.now (dimension_views dims.now))) }
{
    for one in dims {
        let extent = dimension(alloc, one, opening, scope, faults)?;
        extents.push(extent)?;
    }
    Ok(())
}

/// A dimension of a type.
#[tactic(auto, using(occ_expr_operations::proofs::Views::dimension_rules))]
#[cycle(walk)]
fn dimension(
    alloc: Global,
    dimension: &Dimension,
    opening: Opening,
    scope: &Scope,
    faults: &mut Items<Fault>,
) -> Result<Extent, AllocError>
    ensures extent { IfOk result (λ extent. extent ≡ (dimension_view dimension.now opening scope.now).extent) }
    ensures faults { OnOk result (faults.new ≡ faults.old ++ (dimension_view dimension.now opening scope.now).faults) }
{
    match dimension {
        Dimension::Open => open_dimension(opening, faults),
        Dimension::Sized(expr) => {
            let read = expression(alloc, expr.get(), scope, faults)?;
            let extent = sized_dimension(alloc, &read.term, faults);
            drop(read);
            extent
        }
    }
}

/// A type, if there is one, without what is asked of its size.
fn type_alone(of: Option<KnownType>) -> Option<Shared<OccType>>
    ensures { result ≡ of }
{
    of.map(KnownType::into_type)
}

/// A type with what is asked of its size.
fn known(alloc: Global, of: OccType) -> Result<KnownType, AllocError>
    ensures { IfOk result (λ known. known ≡ of) }
{
    Ok(KnownType::new(Shared::new(alloc, of)?))
}

/// A type that begins with a reserved word.
#[tactic(auto, using(occ_expr_operations::proofs::Views::builtin_rules))]
#[cycle(walk)]
fn builtin(
    alloc: Global,
    word: &Builtin,
    scope: &Scope,
    faults: &mut Items<Fault>,
) -> Result<Option<KnownType>, AllocError>
    ensures found { IfOk result (λ found. found ≡ (builtin_view word.now scope.now).found) }
    ensures faults { OnOk result (faults.new ≡ faults.old ++ (builtin_view word.now scope.now).faults) }
{
    match word {
        Builtin::Primitive(primitive) => {
            let of = OccType::Primitive(primitive_of(*primitive));
            Ok(Some(known(alloc, of)?))
        }
        Builtin::Timer => Ok(Some(known(alloc, OccType::Timer)?)),
        Builtin::AnyChannel(_) => {
            let any = Shared::new(alloc, Protocol::Any)?;
            Ok(Some(known(alloc, OccType::Channel(any))?))
        }
        Builtin::Channel(_, dims, base) => channel(alloc, dims.as_slice(), base, scope, faults),
        Builtin::Counted(_, dims, base, others, other) => {
            let count = data_form(
                alloc,
                dims.as_slice(),
                base,
                Opening::Refused,
                scope,
                faults,
            )?;
            let count = count_type(count, faults)?;
            let of = known_data_form(
                alloc,
                others.as_slice(),
                other,
                Opening::Refused,
                scope,
                faults,
            )?;
            counted_type(alloc, count, of)
        }
    }
}

/// A data type of these dimensions over this base, if nothing is wrong with it.
#[cycle(walk)]
pub fn data_form(
    alloc: Global,
    dims: &[Dimension],
    base: &DataBase,
    opening: Opening,
    scope: &Scope,
    faults: &mut Items<Fault>,
) -> Result<Option<Shared<OccType>>, AllocError>
    ensures found { IfOk result (λ found. found ≡ (spec_data_form scope.now (each opening scope.now (dimension_views dims.now)) base.now).found) }
    ensures faults { OnOk result (faults.new ≡ faults.old ++ (spec_data_form scope.now (each opening scope.now (dimension_views dims.now)) base.now).faults) }
{
    let of = known_data_form(alloc, dims, base, opening, scope, faults)?;
    Ok(type_alone(of))
}

/// A data type as for `data_form`, with what is asked of its size.
#[tactic(auto, unfolding(occ_expr_operations::specs::Written::data_form))]
#[cycle(walk)]
fn known_data_form(
    alloc: Global,
    dims: &[Dimension],
    base: &DataBase,
    opening: Opening,
    scope: &Scope,
    faults: &mut Items<Fault>,
) -> Result<Option<KnownType>, AllocError>
    ensures found { IfOk result (λ found. found ≡ (spec_data_form scope.now (each opening scope.now (dimension_views dims.now)) base.now).found) }
    ensures faults { OnOk result (faults.new ≡ faults.old ++ (spec_data_form scope.now (each opening scope.now (dimension_views dims.now)) base.now).faults) }
{
    let of = base_type(alloc, scope, base, faults)?;
    known_array_over(alloc, dims, Items::new(alloc), of, opening, scope, faults)
}

/// The type of a channel that carries what is named here: values of a data type, or those of a protocol.
#[tactic(auto, unfolding(occ_expr_operations::specs::Written::channel))]
#[cycle(walk)]
fn channel(
    alloc: Global,
    dims: &[Dimension],
    base: &DataBase,
    scope: &Scope,
    faults: &mut Items<Fault>,
) -> Result<Option<KnownType>, AllocError>
    ensures found { IfOk result (λ found. found ≡ (spec_channel scope.now (each opened.Refused scope.now (dimension_views dims.now)) base.now).found) }
    ensures faults { OnOk result (faults.new ≡ faults.old ++ (spec_channel scope.now (each opened.Refused scope.now (dimension_views dims.now)) base.now).faults) }
{
    match (dims.split_first(), base) {
        (None, DataBase::Named(name)) => {
            let carried = carries(alloc, scope, name, faults)?;
            named_channel(alloc, carried)
        }
        (None, DataBase::Primitive(_)) => {
            let of = known_data_form(alloc, dims, base, Opening::Refused, scope, faults)?;
            values_channel(alloc, of)
        }
        (Some(_), _) => {
            let of = known_data_form(alloc, dims, base, Opening::Refused, scope, faults)?;
            values_channel(alloc, of)
        }
    }
}

/// A type that begins with a reserved word after these dimensions, if nothing is wrong with it.
pub fn word_form(
    alloc: Global,
    dims: &[Dimension],
    word: &Builtin,
    opening: Opening,
    scope: &Scope,
    faults: &mut Items<Fault>,
) -> Result<Option<Shared<OccType>>, AllocError>
    ensures found { IfOk result (λ found. found ≡ (spec_array_over (each opening scope.now (dimension_views dims.now)) (builtin_view word.now scope.now)).found) }
    ensures faults { OnOk result (faults.new ≡ faults.old ++ (spec_array_over (each opening scope.now (dimension_views dims.now)) (builtin_view word.now scope.now)).faults) }
{
    let of = builtin(alloc, word, scope, faults)?;
    array_over(alloc, dims, Items::new(alloc), of, opening, scope, faults)
}

/// The type of this name after dimensions, of which there is a first one, if nothing is wrong with it.
pub fn array_form(
    alloc: Global,
    first: &Dimension,
    more: &[Dimension],
    name: &Name,
    opening: Opening,
    scope: &Scope,
    faults: &mut Items<Fault>,
) -> Result<Option<Shared<OccType>>, AllocError>
    ensures found { IfOk result (λ found. found ≡ (spec_array_over_more (dimension_view first.now opening scope.now) (each opening scope.now (dimension_views more.now)) (spec_data_type name.now (visible scope.now name.now))).found) }
    ensures faults { OnOk result (faults.new ≡ faults.old ++ (spec_array_over_more (dimension_view first.now opening scope.now) (each opening scope.now (dimension_views more.now)) (spec_data_type name.now (visible scope.now name.now))).faults) }
{
    let of = data_type(alloc, scope, name, faults)?;
    let first = dimension(alloc, first, opening, scope, faults)?;
    let extents = one_item(alloc, first)?;
    array_over(alloc, more, extents, of, opening, scope, faults)
}
