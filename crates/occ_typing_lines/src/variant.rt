//! Variants of a case input, `n` or `n; ..`.
ghost use Rattle.occ_typing_lines.specs.Parts.{of_role as spec_of_role, tagged as spec_tagged, variant as spec_variant, variant_named as spec_variant_named};
ghost use Rattle.occ_expr_operations.specs.Views.{expr_view};
ghost use Rattle.std.specs.Prelude.{◌≡◌, ◌∷◌, ◌++◌, IfOk, OnOk};

use super::form::variant_form;
use super::line::main;
use super::parent::{Line, Parent, Role};
use super::tree::TypedForm;
use occ_base::{Boxed, Code, Fault, Items, Name, report};
use occ_expr_operations::name_alone;
use occ_forms::Detail;
use occ_forms_expressions::Expr;
use occ_scope::Scope;
use occ_typing_statements::{CaseInput, variant as judge_variant};
use std::alloc::{AllocError, Global};
use std::slice;

/// Lines that stand so often, of which this is said.
pub fn of_role(rounds: u32, role: Role) -> Parent
    ensures { result ≡ spec_of_role rounds role }
{
    Parent { role, rounds }
}

/// A variant of a case input, with what stands after its tag.
fn variant(
    alloc: Global,
    mut input: CaseInput,
    rounds: u32,
    tag: &Name,
    first: &[Detail],
    more: &[Detail],
    scope: &Scope,
    faults: &mut Items<Fault>,
) -> Result<Line, AllocError>
    ensures line { IfOk result (λ line. line ≡ (spec_variant scope.now input rounds tag.now (first.now ++ more.now)).line) }
    ensures faults { OnOk result (faults.new ≡ faults.old ++ (spec_variant scope.now input rounds tag.now (first.now ++ more.now)).faults) }
{
    let tree = judge_variant(alloc, &mut input, tag, first, more, scope, faults)?;
    let next = of_role(rounds, Role::Variants(Boxed::new(alloc, input)?));
    main(alloc, variant_form(tree), next)
}

/// A variant that is a name alone.
pub fn variant_named(
    alloc: Global,
    input: CaseInput,
    rounds: u32,
    expr: &Expr,
    scope: &Scope,
    faults: &mut Items<Fault>,
) -> Result<Line, AllocError>
    ensures line { IfOk result (λ line. line ≡ (spec_variant_named scope.now input rounds (expr_view expr.now).name).line) }
    ensures faults { OnOk result (faults.new ≡ faults.old ++ (spec_variant_named scope.now input rounds (expr_view expr.now).name).faults) }
{
    match name_alone(expr) {
        Some(tag) => variant(alloc, input, rounds, tag, &[], &[], scope, faults),
        None => {
            report(faults, Code::S1)?;
            let next = of_role(rounds, Role::Variants(Boxed::new(alloc, input)?));
            main(alloc, TypedForm::Unknown, next)
        }
    }
}

/// A line of a name and what stands after it: a variant of a case input.
pub fn tagged(
    alloc: Global,
    name: &Name,
    first: &Detail,
    more: &[Detail],
    scope: &Scope,
    parent: Parent,
    faults: &mut Items<Fault>,
) -> Result<Line, AllocError>
    ensures line { IfOk result (λ line. line ≡ (spec_tagged scope.now name.now (first.now ∷ more.now) parent).line) }
    ensures faults { OnOk result (faults.new ≡ faults.old ++ (spec_tagged scope.now name.now (first.now ∷ more.now) parent).faults) }
{
    let Parent { role, rounds } = parent;
    match role {
        Role::Variants(input) => {
            let first = slice::from_ref(first);
            variant(
                alloc,
                input.into_inner(),
                rounds,
                name,
                first,
                more,
                scope,
                faults,
            )
        }
        role => {
            report(faults, Code::S1)?;
            main(alloc, TypedForm::Unknown, of_role(rounds, role))
        }
    }
}
