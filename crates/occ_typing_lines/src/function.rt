//! FUNCTIONs of one line, `t, .. FUNCTION n (formals) IS e, ..:`.
ghost use Rattle.occ_typing_specifications.specs.Heads.{function as spec_function};
ghost use Rattle.occ_scope.specs.Visible.{with_all};
ghost use Rattle.occ_typing_statements.specs.Statements.{is_any_faulty};
ghost use Rattle.occ_typing_lines.specs.Lines.{made, specifying as spec_specifying};
ghost use Rattle.occ_typing_lines.specs.Parts.{results_in as spec_results_in, results_of as spec_results_of};
ghost use Rattle.occ_typing_lines.specs.Specifying.{function_faults as spec_function_faults, function_line as spec_function_line, known_unless as spec_known_unless, named as spec_named, one_line_function};
ghost use Rattle.std.specs.Prelude.{◌≡◌, ◌∷◌, ◌++◌, [], IfOk, OnOk};

use super::line::line_of_one;
use super::parent::{Line, Parent};
use super::part::results_of;
use super::tree::TypedForm;
use occ_base::{Fault, Items, Name, Shared};
use occ_forms::FunctionHead;
use occ_forms_expressions::Expr;
use occ_scope::{Meaning, Scope, ScopeEntry, one_entry};
use occ_typing_rules::TypedExpr;
use occ_typing_specifications::{Expected, Heading, function_head};
use std::alloc::{AllocError, Global};

/// The results of a FUNCTION of one line, under its formals: whether one of them has a fault, and their trees.
#[tactic(auto, using(crate::proofs::Scopes::scope_rules))]
fn results_under(
    alloc: Global,
    first: &Expr,
    more: &[Expr],
    formals: &[ScopeEntry],
    expected: &Expected,
    scope: &mut Scope,
    faults: &mut Items<Fault>,
) -> Result<(bool, Option<Items<Shared<TypedExpr>>>), AllocError>
    ensures faulty { IfOk result (λ r. r.0 ≡ is_any_faulty (with_all scope.old formals.now) (first.now ∷ more.now)) }
    ensures trees { IfOk result (λ r. r.1 ≡ spec_results_in (with_all scope.old formals.now) expected.now (first.now ∷ more.now)) }
    ensures scope { OnOk result (scope.new ≡ scope.old) }
    ensures faults { OnOk result (faults.new ≡ faults.old ++ spec_results_of (with_all scope.old formals.now) expected.now (first.now ∷ more.now)) }
{
    let count = scope.len();
    scope.enter_all(alloc, formals)?;
    let found = results_of(alloc, first, more, expected, scope, faults)?;
    scope.leave_to(count);
    Ok(found)
}

/// What a name stands for, if its line reported nothing and has no faulty expression.
fn known_unless(faults: &Items<Fault>, faulty: bool, meaning: Meaning) -> Meaning
    ensures { result ≡ spec_known_unless faults.now faulty meaning }
{
    if faults.is_empty() && !faulty {
        meaning
    } else {
        Meaning::Faulty
    }
}

/// What is read of a FUNCTION of one line: what its head makes known, whether one of its expressions has a fault, and their
/// trees.
#[derive(Drop)]
struct FunctionRead {
    heading: Heading,
    faulty: bool,
    trees: Option<Items<Shared<TypedExpr>>>,
}

/// A FUNCTION of one line, with all that it reports.
#[tactic(auto, unfolding(crate::specs::Specifying::function_faults))]
fn function_reported(
    alloc: Global,
    head: &FunctionHead,
    first: &Expr,
    more: &[Expr],
    scope: &mut Scope,
    faults: &mut Items<Fault>,
) -> Result<FunctionRead, AllocError>
    ensures heading { IfOk result (λ read. read.heading ≡ (spec_function scope.old head.now).heading) }
    ensures faulty { IfOk result (λ read. read.faulty ≡ is_any_faulty (with_all scope.old (spec_function scope.old head.now).heading.formals) (first.now ∷ more.now)) }
    ensures trees { IfOk result (λ read. read.trees ≡ spec_results_in (with_all scope.old (spec_function scope.old head.now).heading.formals) (spec_function scope.old head.now).heading.results (first.now ∷ more.now)) }
    ensures scope { OnOk result (scope.new ≡ scope.old) }
    ensures faults { OnOk result (faults.new ≡ faults.old ++ spec_function_faults scope.old (spec_function scope.old head.now) (first.now ∷ more.now)) }
{
    let heading = function_head(alloc, head, scope, faults)?;
    let (faulty, trees) = results_under(
        alloc,
        first,
        more,
        heading.formals.as_slice(),
        &heading.results,
        scope,
        faults,
    )?;
    Ok(FunctionRead {
        heading,
        faulty,
        trees,
    })
}

/// A FUNCTION of one line with these formals, if its results have trees.
fn form_of(formals: Items<ScopeEntry>, trees: Option<Items<Shared<TypedExpr>>>) -> TypedForm
    ensures { result ≡ made (one_line_function formals) trees }
{
    match trees {
        Some(trees) => TypedForm::OneLineFunction(formals, trees),
        None => TypedForm::Unknown,
    }
}

/// The line of a FUNCTION of one line of which this was read, and of which this was reported.
fn line_of_read(
    alloc: Global,
    name: &Name,
    reported: &Items<Fault>,
    read: FunctionRead,
    next: Parent,
) -> Result<Line, AllocError>
    ensures { IfOk result (λ one. one ≡ (spec_specifying [] (spec_named name.now (spec_known_unless reported.now read.faulty read.heading.meaning)) (made (one_line_function read.heading.formals) read.trees) next).line) }
{
    let FunctionRead {
        heading,
        faulty,
        trees,
    } = read;
    let Heading {
        formals,
        meaning,
        results: _,
    } = heading;
    let meaning = known_unless(reported, faulty, meaning);
    let adds = one_entry(alloc, name, meaning)?;
    line_of_one(alloc, adds, form_of(formals, trees), next)
}

/// A FUNCTION of one line: `t, .. FUNCTION n (formals) IS e, ..:`
#[tactic(auto, unfolding(crate::specs::Specifying::function_meaning, crate::specs::Specifying::function_form))]
pub fn function_line(
    alloc: Global,
    head: &FunctionHead,
    first: &Expr,
    more: &[Expr],
    scope: &mut Scope,
    next: Parent,
    faults: &mut Items<Fault>,
) -> Result<Line, AllocError>
    ensures line { IfOk result (λ one. one ≡ (spec_function_line scope.old head.now (first.now ∷ more.now) next).line) }
    ensures scope { OnOk result (scope.new ≡ scope.old) }
    ensures faults { OnOk result (faults.new ≡ faults.old ++ (spec_function_line scope.old head.now (first.now ∷ more.now) next).faults) }
{
    let mut reported = Items::new(alloc);
    let read = function_reported(alloc, head, first, more, scope, &mut reported)?;
    let line = line_of_read(alloc, &head.name, &reported, read, next)?;
    faults.append(reported)?;
    Ok(line)
}
