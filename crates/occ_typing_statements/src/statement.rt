//! Lines of processes: `el, .. := e, ..`, conditions, selectors, options, results. They give faults and typed trees.
//! `docs/LANGUAGE.md, What lines ask of operands`.
ghost use Rattle.std.specs.Prelude.{◌≡◌, ◌∷◌, ◌++◌, [], IfOk, IfSome, IsTrue, None, OnOk, Some, true};
ghost use Rattle.occ_expr.specs.Targets.{target_of as spec_target_of};
ghost use Rattle.occ_forms_expressions.specs.declared.tree.Element.TheVariants as elements;
ghost use Rattle.occ_forms_expressions.specs.declared.tree.Expr.TheVariants as exprs;
ghost use Rattle.occ_forms_expressions.specs.declared.tree.Operand.TheVariants as operands;
ghost use Rattle.occ_types.specs.Fits.{is_data};
ghost use Rattle.occ_typing_rules.specs.Assigning.{assigned as values_reported};
ghost use Rattle.occ_expr_operations.specs.Parts.{own_faults, terms as spec_terms};
ghost use Rattle.occ_expr_operations.specs.Sides.{one_call as spec_one_call, side as spec_side};
ghost use Rattle.occ_expr.specs.Trees.{int_tree as spec_int_tree};
ghost use Rattle.occ_typing_operands.specs.Settling.{int as spec_int};
ghost use Rattle.occ_typing_tables.specs.Terms.{judged, judged_all};
ghost use Rattle.occ_typing_rules.specs.Choosing.{condition as reported_no_condition, selector as reported_selecting};
ghost use Rattle.occ_typing_rules.specs.Placing.{placed as spec_placed};
ghost use Rattle.occ_types.specs.declared.types.OccType.TheVariants as t;
ghost use Rattle.occ_types.specs.declared.value.Primitive.TheVariants as p;
ghost use Rattle.occ_typing_statements.specs.StatementTrees.{assigned as spec_assigned, assignment_tree as spec_assignment_tree, condition_tree as spec_condition_tree, one_element, open_exprs as spec_opens, options_placed as spec_options_placed, options_trees as spec_options_trees, results_trees as spec_results_trees, types_of as spec_types_of, with_elements};
ghost use Rattle.occ_typing_statements.specs.Statements.{assignment as spec_assignment, condition as reported_condition, hidden_results as spec_hidden_results, is_any_faulty, options as spec_options, options_under as spec_options_under, results as spec_results, said, selector as reported_selector};

use super::calls::{compare_calls, is_one_known, result_place};
use super::few::Few;
use super::target::all_targets;
use occ_base::{Fault, Items, Shared, one_item};
use occ_expr::{expression, name_alone, name_of, side, target_of};
use occ_expr_operations::{Reading, Readings, one_call};
use occ_forms_expressions::{Element, Expr};
use occ_scope::Scope;
use occ_types::{OccType, Primitive, is_data as data};
use occ_typing_operands::{Kind, int};
use occ_typing_rules::{
    OpenExpr, OptionNumbers, TypedElement, TypedExpr, all_placed, assigned,
    condition as judge_condition, each_placed, hidden_results as count_results, options as choose,
    placed, results as compare, selector as select,
};
use occ_typing_tables::{Term, any_has_fault, report_hidden};
use std::alloc::{AllocError, Global};
use std::slice;

/// An assignment: its targets, and the value for each. Of a call with several results each value is the call.
#[derive(Drop)]
pub struct TypedAssignment {
    pub targets: Few<TypedElement>,
    pub values: Few<Shared<TypedExpr>>,
}

/// Expressions after those that were read.
fn more_expressions(
    alloc: Global,
    exprs: &[Expr],
    scope: &Scope,
    readings: &mut Readings,
    faults: &mut Items<Fault>,
) -> Result<(), AllocError>
    ensures terms { OnOk result (readings.new.terms ≡ readings.old.terms ++ spec_terms (said scope.now exprs.now)) }
    ensures open_exprs { OnOk result (readings.new.open_exprs ≡ readings.old.open_exprs ++ spec_opens scope.now exprs.now) }
    ensures faults { OnOk result (faults.new ≡ faults.old ++ own_faults (said scope.now exprs.now)) }
{
    for expr in exprs {
        let reading = expression(alloc, expr, scope, faults)?;
        readings.push(reading)?;
    }
    Ok(())
}

/// What is read of each expression of a list, before a type is wanted of it.
fn expressions(
    alloc: Global,
    first: &Expr,
    more: &[Expr],
    scope: &Scope,
    faults: &mut Items<Fault>,
) -> Result<Readings, AllocError>
    ensures terms { IfOk result (λ readings. readings.terms ≡ spec_terms (said scope.now (first.now ∷ more.now))) }
    ensures open_exprs { IfOk result (λ readings. readings.open_exprs ≡ spec_opens scope.now (first.now ∷ more.now)) }
    ensures faults { OnOk result (faults.new ≡ faults.old ++ own_faults (said scope.now (first.now ∷ more.now))) }
{
    let mut readings = Readings::new(alloc);
    let reading = expression(alloc, first, scope, faults)?;
    readings.push(reading)?;
    more_expressions(alloc, more, scope, &mut readings, faults)?;
    Ok(readings)
}

/// The types of targets.
fn types_of(alloc: Global, targets: &[TypedElement]) -> Result<Items<Shared<OccType>>, AllocError>
    ensures { IfOk result (λ types. types ≡ spec_types_of targets.now) }
{
    let mut types = Items::new(alloc);
    for target in targets {
        types.push(target.known.of.share()?)?;
    }
    Ok(types)
}

/// The targets of an assignment and the values for them, if none has a fault.
fn assignment_tree(
    alloc: Global,
    targets: Option<Items<TypedElement>>,
    values: &[OpenExpr],
) -> Result<Option<TypedAssignment>, AllocError>
    ensures { IfOk result (λ tree. tree ≡ spec_assigned targets values.now) }
{
    let Some(targets) = targets else {
        return Ok(None);
    };
    let types = types_of(alloc, targets.as_slice())?;
    let Some(values) = each_placed(alloc, values, types.as_slice())? else {
        return Ok(None);
    };
    Ok(Some(TypedAssignment {
        targets: Few::listed(alloc, targets)?,
        values: Few::listed(alloc, values)?,
    }))
}

/// The tree of a value that is handed over, where this type is wanted of it: one that is typed already is taken as it is.
#[inline(always)]
fn placed_value(
    alloc: Global,
    value: OpenExpr,
    of: &Shared<OccType>,
) -> Result<Option<Shared<TypedExpr>>, AllocError>
    ensures { IfOk result (λ tree. tree ≡ spec_placed value of.now) }
{
    match value {
        OpenExpr::Typed(tree) => Ok(Some(tree)),
        free => {
            let tree = placed(alloc, &free, of);
            drop(free);
            tree
        }
    }
}

/// The one target of an assignment and the value for it, if neither has a fault.
#[inline(always)]
fn single_tree(
    alloc: Global,
    target: Option<TypedElement>,
    value: OpenExpr,
) -> Result<Option<TypedAssignment>, AllocError>
    ensures { IfOk result (λ tree. tree ≡ spec_assigned (with_elements (one_element target) (Some [])) (value ∷ [])) }
{
    let Some(target) = target else {
        return Ok(None);
    };
    let Some(value) = placed_value(alloc, value, &target.known.of)? else {
        return Ok(None);
    };
    Ok(Some(TypedAssignment {
        targets: Few::one(target),
        values: Few::one(value),
    }))
}

/// Whether a type is data that may have many parts, so that it takes long to compare it.
fn may_be_wide(of: &OccType) -> bool
    ensures { IsTrue result → is_data of.now ≡ true }
{
    !matches!(of, OccType::Primitive(_)) && data(of)
}

/// Whether the value for a target fits by what is known of their names: nothing is reported of it then.
fn fits_by_name(
    target: &Element,
    kind: &Kind,
    value: &Expr,
    scope: &mut Scope,
) -> Result<bool, AllocError>
    requires { kind.now ≡ (spec_target_of scope.old target.now).kind }
    ensures fits { IfOk result (λ fits. IsTrue fits → values_reported (kind.now ∷ []) (judged_all (spec_terms (said scope.old (value.now ∷ [])))) ≡ []) }
    ensures scope { scope.new ≡ scope.old }
{
    let Kind::Known(known) = kind else {
        return Ok(false);
    };
    if !may_be_wide(known.of.get()) {
        return Ok(false);
    }
    let (Some(target), Some(value)) = (name_of(target), name_alone(value)) else {
        return Ok(false);
    };
    let fits = scope.are_of_one_type(target, value)?;
    Ok(fits)
}

/// Whether what a call gives, of which this is read, is known to be of the type of its one target: nothing is reported of
/// it then.
fn is_given(
    target: &Element,
    kind: &Kind,
    value: &Expr,
    terms: &[Term],
    scope: &mut Scope,
) -> Result<bool, AllocError>
    requires kind { kind.now ≡ (spec_target_of scope.old target.now).kind }
    requires terms { terms.now ≡ (spec_side scope.old (value.now ∷ [])).terms }
    ensures given { IfOk result (λ given. IsTrue given → values_reported (kind.now ∷ []) (judged_all terms.now) ≡ []) }
    ensures scope { scope.new ≡ scope.old }
{
    let Kind::Known(known) = kind else {
        return Ok(false);
    };
    if !is_one_known(terms) || !may_be_wide(known.of.get()) {
        return Ok(false);
    }
    let (Some(name), Some((callee, _))) = (name_of(target), one_call(value, &[])) else {
        return Ok(false);
    };
    let Some(place) = result_place(callee, scope) else {
        return Ok(false);
    };
    let given = scope.takes(callee, place, name)?;
    Ok(given)
}

/// `el := e`, where the expression is no call by itself. Most assignments are so, and nothing is listed for them but what
/// their tree has.
#[tactic(auto, using(crate::proofs::Elements::front_rules), unfolding(occ_expr_operations::specs::Sides::side))]
fn single_assignment(
    alloc: Global,
    target: &Element,
    value: &Expr,
    scope: &mut Scope,
    faults: &mut Items<Fault>,
) -> Result<Option<TypedAssignment>, AllocError>
    requires { spec_one_call (value.now ∷ []) ≡ None }
    ensures tree { IfOk result (λ tree. tree ≡ spec_assignment_tree scope.old (target.now ∷ []) (value.now ∷ [])) }
    ensures scope { OnOk result (scope.new ≡ scope.old) }
    ensures faults { OnOk result (faults.new ≡ faults.old ++ spec_assignment scope.old (target.now ∷ []) (value.now ∷ [])) }
{
    let read = target_of(alloc, target, scope, faults)?;
    let Reading { term, open_expr } = expression(alloc, value, scope, faults)?;
    if !fits_by_name(target, &read.kind, value, scope)? {
        assigned(
            alloc,
            slice::from_ref(&read.kind),
            slice::from_ref(&term),
            faults,
        )?;
    }
    single_tree(alloc, read.tree, open_expr)
}

/// What a call gives, of which this is read, for its one target.
fn assign_call(
    alloc: Global,
    target: &Element,
    kind: &Kind,
    value: &Expr,
    terms: &[Term],
    scope: &mut Scope,
    faults: &mut Items<Fault>,
) -> Result<(), AllocError>
    requires kind { kind.now ≡ (spec_target_of scope.old target.now).kind }
    requires terms { terms.now ≡ (spec_side scope.old (value.now ∷ [])).terms }
    ensures scope { OnOk result (scope.new ≡ scope.old) }
    ensures faults { OnOk result (faults.new ≡ faults.old ++ values_reported (kind.now ∷ []) (judged_all terms.now)) }
{
    if is_given(target, kind, value, terms, scope)? {
        return Ok(());
    }
    assigned(alloc, slice::from_ref(kind), terms, faults)
}

/// The trees of the one target of an assignment, if it has no fault.
fn one_target(
    alloc: Global,
    tree: Option<TypedElement>,
) -> Result<Option<Items<TypedElement>>, AllocError>
    ensures { IfOk result (λ trees. trees ≡ with_elements (one_element tree) (Some [])) }
{
    match tree {
        Some(tree) => Ok(Some(one_item(alloc, tree)?)),
        None => Ok(None),
    }
}

/// `el := f (e, ..)`: what is given to the function and what it gives are compared with wide types once.
fn call_assignment(
    alloc: Global,
    target: &Element,
    value: &Expr,
    scope: &mut Scope,
    faults: &mut Items<Fault>,
) -> Result<Option<TypedAssignment>, AllocError>
    ensures tree { IfOk result (λ tree. tree ≡ spec_assignment_tree scope.old (target.now ∷ []) (value.now ∷ [])) }
    ensures scope { OnOk result (scope.new ≡ scope.old) }
    ensures faults { OnOk result (faults.new ≡ faults.old ++ spec_assignment scope.old (target.now ∷ []) (value.now ∷ [])) }
{
    compare_calls(value, scope)?;
    let read = target_of(alloc, target, scope, faults)?;
    let values = side(alloc, value, &[], scope, faults)?;
    assign_call(
        alloc,
        target,
        &read.kind,
        value,
        values.terms.as_slice(),
        scope,
        faults,
    )?;
    let targets = one_target(alloc, read.tree)?;
    assignment_tree(alloc, targets, values.open_exprs.as_slice())
}

/// `el, .. := e, ..`: the targets, the values, and each value for its target.
pub fn assignment(
    alloc: Global,
    first_target: &Element,
    more_targets: &[Element],
    first_value: &Expr,
    more_values: &[Expr],
    scope: &mut Scope,
    faults: &mut Items<Fault>,
) -> Result<Option<TypedAssignment>, AllocError>
    ensures tree { IfOk result (λ tree. tree ≡ spec_assignment_tree scope.old (first_target.now ∷ more_targets.now) (first_value.now ∷ more_values.now)) }
    ensures scope { OnOk result (scope.new ≡ scope.old) }
    ensures faults { OnOk result (faults.new ≡ faults.old ++ spec_assignment scope.old (first_target.now ∷ more_targets.now) (first_value.now ∷ more_values.now)) }
{
    if more_targets.is_empty() && more_values.is_empty() {
        return match one_call(first_value, more_values) {
            None => single_assignment(alloc, first_target, first_value, scope, faults),
            Some(_) => call_assignment(alloc, first_target, first_value, scope, faults),
        };
    }
    let targets = all_targets(alloc, first_target, more_targets, scope, faults)?;
    let values = side(alloc, first_value, more_values, scope, faults)?;
    assigned(
        alloc,
        targets.kinds.as_slice(),
        values.terms.as_slice(),
        faults,
    )?;
    assignment_tree(alloc, targets.trees, values.open_exprs.as_slice())
}

/// The tree of a condition of which this is read, if it has no fault.
fn condition_of(
    alloc: Global,
    read: &Reading,
    faults: &mut Items<Fault>,
) -> Result<Option<Shared<TypedExpr>>, AllocError>
    ensures tree { IfOk result (λ tree. tree ≡ spec_placed read.now.open_expr (t.Primitive p.Bool)) }
    ensures faults { OnOk result (faults.new ≡ faults.old ++ reported_no_condition (judged read.now.term)) }
{
    judge_condition(alloc, &read.term, faults)?;
    let bool = Shared::new(alloc, OccType::Primitive(Primitive::Bool))?;
    placed(alloc, &read.open_expr, &bool)
}

/// The condition of an `IF` or a `WHILE`.
pub fn condition(
    alloc: Global,
    expr: &Expr,
    scope: &Scope,
    faults: &mut Items<Fault>,
) -> Result<Option<Shared<TypedExpr>>, AllocError>
    ensures tree { IfOk result (λ tree. tree ≡ spec_condition_tree scope.now expr.now) }
    ensures faults { OnOk result (faults.new ≡ faults.old ++ reported_condition scope.now expr.now) }
{
    let read = expression(alloc, expr, scope, faults)?;
    let tree = condition_of(alloc, &read, faults);
    drop(read);
    tree
}

/// What is known of a selector of which this is read, and its tree.
fn selector_of(
    alloc: Global,
    read: &Reading,
    faults: &mut Items<Fault>,
) -> Result<(Kind, Option<Shared<TypedExpr>>), AllocError>
    ensures kind { IfOk result (λ r. r.0 ≡ (reported_selecting (judged read.now.term)).kind) }
    ensures tree { IfOk result (λ r. r.1 ≡ spec_placed read.now.open_expr spec_int) }
    ensures faults { OnOk result (faults.new ≡ faults.old ++ (reported_selecting (judged read.now.term)).faults) }
{
    let kind = select(alloc, &read.term, faults)?;
    let tree = placed(alloc, &read.open_expr, &int(alloc)?)?;
    Ok((kind, tree))
}

/// The selector of a `CASE`: what is known of it, and its tree.
#[tactic(auto, unfolding(occ_expr::specs::Trees::int_tree))]
pub fn selector(
    alloc: Global,
    expr: &Expr,
    scope: &Scope,
    faults: &mut Items<Fault>,
) -> Result<(Kind, Option<Shared<TypedExpr>>), AllocError>
    ensures kind { IfOk result (λ r. r.0 ≡ (reported_selector scope.now expr.now).kind) }
    ensures tree { IfOk result (λ r. r.1 ≡ spec_int_tree scope.now expr.now) }
    ensures faults { OnOk result (faults.new ≡ faults.old ++ (reported_selector scope.now expr.now).faults) }
{
    let read = expression(alloc, expr, scope, faults)?;
    let selected = selector_of(alloc, &read, faults);
    drop(read);
    selected
}

/// The options of one line of a `CASE` of which this is read.
fn options_of(
    alloc: Global,
    terms: &[Term],
    open_exprs: &[OpenExpr],
    selector: &Kind,
    before: &mut OptionNumbers,
    faults: &mut Items<Fault>,
) -> Result<Option<Items<Shared<TypedExpr>>>, AllocError>
    ensures trees { IfOk result (λ trees. trees ≡ spec_options_placed selector.now open_exprs.now) }
    ensures faults { OnOk result (faults.new ≡ faults.old ++ (spec_options_under selector.now before.old (judged_all terms.now)).faults) }
    ensures numbers { OnOk result (before.new ≡ (spec_options_under selector.now before.old (judged_all terms.now)).numbers) }
{
    match selector {
        Kind::Known(known) => {
            choose(alloc, &known.of, terms, before, faults)?;
            all_placed(alloc, open_exprs, &known.of)
        }
        Kind::Faulty | Kind::Untyped(_) => {
            report_hidden(alloc, terms, faults)?;
            Ok(None)
        }
    }
}

/// The options of one line of a `CASE` with this selector; `before` holds the numbers of those on the lines before.
pub fn options(
    alloc: Global,
    first: &Expr,
    more: &[Expr],
    selector: &Kind,
    before: &mut OptionNumbers,
    scope: &Scope,
    faults: &mut Items<Fault>,
) -> Result<Option<Items<Shared<TypedExpr>>>, AllocError>
    ensures trees { IfOk result (λ trees. trees ≡ spec_options_trees scope.now selector.now (first.now ∷ more.now)) }
    ensures faults { OnOk result (faults.new ≡ faults.old ++ (spec_options scope.now selector.now before.old (first.now ∷ more.now)).faults) }
    ensures numbers { OnOk result (before.new ≡ (spec_options scope.now selector.now before.old (first.now ∷ more.now)).numbers) }
{
    if more.is_empty() {
        let read = expression(alloc, first, scope, faults)?;
        return options_of(
            alloc,
            slice::from_ref(&read.term),
            slice::from_ref(&read.open_expr),
            selector,
            before,
            faults,
        );
    }
    let read = expressions(alloc, first, more, scope, faults)?;
    options_of(
        alloc,
        read.terms.as_slice(),
        read.open_exprs.as_slice(),
        selector,
        before,
        faults,
    )
}

/// The results of a FUNCTION with results of these types, whose head has no fault: whether one of them has a fault, and
/// their trees.
pub fn results(
    alloc: Global,
    first: &Expr,
    more: &[Expr],
    types: &[Shared<OccType>],
    scope: &Scope,
    faults: &mut Items<Fault>,
) -> Result<(bool, Option<Items<Shared<TypedExpr>>>), AllocError>
    ensures faulty { IfOk result (λ r. r.0 ≡ is_any_faulty scope.now (first.now ∷ more.now)) }
    ensures trees { IfOk result (λ r. r.1 ≡ spec_results_trees scope.now types.now (first.now ∷ more.now)) }
    ensures faults { OnOk result (faults.new ≡ faults.old ++ spec_results scope.now types.now (first.now ∷ more.now)) }
{
    let read = side(alloc, first, more, scope, faults)?;
    compare(alloc, types, read.terms.as_slice(), faults)?;
    let trees = each_placed(alloc, read.open_exprs.as_slice(), types)?;
    Ok((any_has_fault(read.terms.as_slice()), trees))
}

/// The results of a FUNCTION with a fault in its head, which wants so many: whether one of them has a fault.
pub fn hidden_results(
    alloc: Global,
    first: &Expr,
    more: &[Expr],
    count: usize,
    scope: &Scope,
    faults: &mut Items<Fault>,
) -> Result<bool, AllocError>
    ensures faulty { IfOk result (λ faulty. faulty ≡ is_any_faulty scope.now (first.now ∷ more.now)) }
    ensures faults { OnOk result (faults.new ≡ faults.old ++ spec_hidden_results scope.now count (first.now ∷ more.now)) }
{
    let read = side(alloc, first, more, scope, faults)?;
    count_results(alloc, count, read.terms.as_slice(), faults)?;
    Ok(any_has_fault(read.terms.as_slice()))
}
