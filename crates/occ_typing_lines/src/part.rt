//! Lines that are parts of what is around them: conditions, options, ELSE, VALOF, RESULT.
ghost use Rattle.occ_forms.specs.declared.tree.Form.TheVariants as forms;
ghost use Rattle.occ_typing_lines.specs.Parts.{else_option as spec_else_option, expressing as spec_expressing, instance_line as spec_instance_line, option as spec_option, otherwise as spec_otherwise, parting as spec_parting, resulting as spec_resulting, results_in as spec_results_in, results_of as spec_results_of, second as spec_second, valued as spec_valued};
ghost use Rattle.occ_typing_statements.specs.Statements.{is_any_faulty};
ghost use Rattle.std.specs.Prelude.{◌≡◌, ◌∷◌, ◌++◌, [], IfOk, OnOk};

use super::form::{condition_form, instance_form, options_form, results_form};
use super::guard::guarding;
use super::line::{main, plain};
use super::options::typed_options;
use super::parent::{Choosing, Line, Parent, Role};
use super::tree::TypedForm;
use super::variant::{of_role, variant_named};
use occ_base::{Boxed, Code, Fault, Items, Shared, report};
use occ_forms::{Form, PartForm};
use occ_forms_expressions::Expr;
use occ_scope::Scope;
use occ_typing_rules::TypedExpr;
use occ_typing_specifications::Expected;
use occ_typing_statements::{condition, hidden_results, instance, results};
use std::alloc::{AllocError, Global};

/// A line of options.
fn option(
    alloc: Global,
    form: &Shared<Form>,
    first: &Expr,
    more: &[Expr],
    mut choosing: Choosing,
    rounds: u32,
    scope: &Scope,
    faults: &mut Items<Fault>,
) -> Result<Line, AllocError>
    requires { form.now ≡ forms.Expressions first.now more.now }
    ensures line { IfOk result (λ line. line ≡ (spec_option scope.now choosing rounds (first.now ∷ more.now)).line) }
    ensures faults { OnOk result (faults.new ≡ faults.old ++ (spec_option scope.now choosing rounds (first.now ∷ more.now)).faults) }
{
    let trees = typed_options(
        alloc,
        form,
        first,
        more,
        &choosing.selector,
        &mut choosing.numbers,
        scope,
        faults,
    )?;
    let next = of_role(rounds, Role::Selection(Boxed::new(alloc, choosing)?));
    main(alloc, options_form(trees), next)
}

/// T8 is reported of a second `ELSE`.
fn report_second(otherwise: bool, faults: &mut Items<Fault>) -> Result<(), AllocError>
    ensures { OnOk result (faults.new ≡ faults.old ++ spec_second otherwise) }
{
    if otherwise {
        report(faults, Code::T8)?;
    }
    Ok(())
}

/// The `ELSE` of a `CASE`.
fn else_option(
    alloc: Global,
    choosing: Choosing,
    rounds: u32,
    faults: &mut Items<Fault>,
) -> Result<Line, AllocError>
    ensures line { IfOk result (λ line. line ≡ (spec_else_option choosing rounds).line) }
    ensures faults { OnOk result (faults.new ≡ faults.old ++ (spec_else_option choosing rounds).faults) }
{
    report_second(choosing.otherwise, faults)?;
    let choosing = Choosing {
        selector: choosing.selector,
        numbers: choosing.numbers,
        otherwise: true,
    };
    let next = of_role(rounds, Role::Selection(Boxed::new(alloc, choosing)?));
    main(alloc, TypedForm::Otherwise, next)
}

/// The results of a FUNCTION, with which no types are compared where its head has a fault: whether one of them has a
/// fault, and their trees.
pub fn results_of(
    alloc: Global,
    first: &Expr,
    more: &[Expr],
    expected: &Expected,
    scope: &Scope,
    faults: &mut Items<Fault>,
) -> Result<(bool, Option<Items<Shared<TypedExpr>>>), AllocError>
    ensures faulty { IfOk result (λ r. r.0 ≡ is_any_faulty scope.now (first.now ∷ more.now)) }
    ensures trees { IfOk result (λ r. r.1 ≡ spec_results_in scope.now expected.now (first.now ∷ more.now)) }
    ensures faults { OnOk result (faults.new ≡ faults.old ++ spec_results_of scope.now expected.now (first.now ∷ more.now)) }
{
    match expected {
        Expected::Count(count) => {
            let faulty = hidden_results(alloc, first, more, *count, scope, faults)?;
            Ok((faulty, None))
        }
        Expected::Types(types) => results(alloc, first, more, types.as_slice(), scope, faults),
    }
}

/// A line of expressions where a process stands: an instance of a procedure.
fn instance_line(
    alloc: Global,
    first: &Expr,
    more: &[Expr],
    scope: &mut Scope,
    next: Parent,
    faults: &mut Items<Fault>,
) -> Result<Line, AllocError>
    ensures line { IfOk result (λ line. line ≡ (spec_instance_line scope.old (first.now ∷ more.now) next).line) }
    ensures scope { OnOk result (scope.new ≡ scope.old) }
    ensures faults { OnOk result (faults.new ≡ faults.old ++ (spec_instance_line scope.old (first.now ∷ more.now) next).faults) }
{
    let tree = instance(alloc, first, more, scope, faults)?;
    main(alloc, instance_form(tree), next)
}

/// A line of expressions: a condition, options, a variant without parts, or an instance of a procedure.
pub fn expressions(
    alloc: Global,
    form: &Shared<Form>,
    first: &Expr,
    more: &[Expr],
    scope: &mut Scope,
    parent: Parent,
    faults: &mut Items<Fault>,
) -> Result<Line, AllocError>
    requires { form.now ≡ forms.Expressions first.now more.now }
    ensures line { IfOk result (λ line. line ≡ (spec_expressing scope.old first.now more.now parent).line) }
    ensures scope { OnOk result (scope.new ≡ scope.old) }
    ensures faults { OnOk result (faults.new ≡ faults.old ++ (spec_expressing scope.old first.now more.now parent).faults) }
{
    let Parent { role, rounds } = parent;
    match role {
        Role::Process => {
            let next = of_role(rounds, Role::Process);
            instance_line(alloc, first, more, scope, next, faults)
        }
        Role::Function(wanted) => {
            let next = of_role(rounds, Role::Function(wanted));
            instance_line(alloc, first, more, scope, next, faults)
        }
        Role::Conditional => {
            let tree = condition(alloc, first, scope, faults)?;
            let next = of_role(rounds, Role::Conditional);
            main(alloc, condition_form(tree), next)
        }
        Role::Selection(choosing) => option(
            alloc,
            form,
            first,
            more,
            choosing.into_inner(),
            rounds,
            scope,
            faults,
        ),
        Role::Variants(input) => {
            variant_named(alloc, input.into_inner(), rounds, first, scope, faults)
        }
        role => {
            report(faults, Code::S1)?;
            main(alloc, TypedForm::Unknown, of_role(rounds, role))
        }
    }
}

/// An `ELSE`.
fn otherwise(alloc: Global, parent: Parent, faults: &mut Items<Fault>) -> Result<Line, AllocError>
    ensures line { IfOk result (λ line. line ≡ (spec_otherwise parent).line) }
    ensures faults { OnOk result (faults.new ≡ faults.old ++ (spec_otherwise parent).faults) }
{
    let Parent { role, rounds } = parent;
    match role {
        Role::Selection(choosing) => else_option(alloc, choosing.into_inner(), rounds, faults),
        role => main(alloc, TypedForm::Otherwise, of_role(rounds, role)),
    }
}

/// A `VALOF`.
fn valued(alloc: Global, parent: Parent) -> Result<Line, AllocError>
    ensures line { IfOk result (λ line. line ≡ (spec_valued parent).line) }
    ensures faults { (spec_valued parent).faults ≡ [] }
{
    let Parent { role, rounds } = parent;
    match role {
        Role::Function(wanted) => {
            let under = of_role(rounds, Role::Function(wanted));
            plain(
                alloc,
                under,
                TypedForm::ValueOf,
                of_role(rounds, Role::Process),
            )
        }
        role => main(alloc, TypedForm::ValueOf, of_role(rounds, role)),
    }
}

/// A `RESULT`.
fn resulting(
    alloc: Global,
    first: &Expr,
    more: &[Expr],
    scope: &Scope,
    parent: Parent,
    faults: &mut Items<Fault>,
) -> Result<Line, AllocError>
    ensures line { IfOk result (λ line. line ≡ (spec_resulting scope.now (first.now ∷ more.now) parent).line) }
    ensures faults { OnOk result (faults.new ≡ faults.old ++ (spec_resulting scope.now (first.now ∷ more.now) parent).faults) }
{
    let Parent { role, rounds } = parent;
    match role {
        Role::Function(wanted) => {
            let (_, trees) = results_of(alloc, first, more, wanted.get(), scope, faults)?;
            let next = of_role(rounds, Role::Function(wanted));
            main(alloc, results_form(trees), next)
        }
        role => main(alloc, TypedForm::Unknown, of_role(rounds, role)),
    }
}

/// A line that is a part of what stands round it.
pub fn part(
    alloc: Global,
    part: &PartForm,
    scope: &Scope,
    parent: Parent,
    faults: &mut Items<Fault>,
) -> Result<Line, AllocError>
    ensures line { IfOk result (λ line. line ≡ (spec_parting scope.now part.now parent).line) }
    ensures faults { OnOk result (faults.new ≡ faults.old ++ (spec_parting scope.now part.now parent).faults) }
{
    match part {
        PartForm::Case => {
            report(faults, Code::S1)?;
            main(alloc, TypedForm::Unknown, parent)
        }
        PartForm::Else => otherwise(alloc, parent, faults),
        PartForm::ValueOf => valued(alloc, parent),
        PartForm::Result(first, more) => {
            resulting(alloc, first, more.as_slice(), scope, parent, faults)
        }
        PartForm::Record => main(alloc, TypedForm::Member, parent),
        PartForm::PackedRecord => main(alloc, TypedForm::Member, parent),
        PartForm::Guard(condition, following) => {
            guarding(alloc, condition, following.get(), scope, parent, faults)
        }
    }
}
