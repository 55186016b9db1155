//! Lines `n (e, ..)`: instances of PROCs, with N1, N2 or T4, and their typed tree.
ghost use Rattle.std.specs.Prelude.{◌≡◌, ◌∷◌, ◌++◌, IfOk, OnOk};
ghost use Rattle.occ_scope.specs.Visible.{referent, visible};
ghost use Rattle.occ_typing_statements.specs.Instances.{call_faults, call_tree, instance_faults, instance_tree, no_instance as spec_no_instance, no_procedure as spec_no_procedure, with_callee as spec_with_callee};

use super::actual::actuals;
use occ_base::{Code, Fault, Items, Name};
use occ_expr::each_one;
use occ_expr_operations::one_call;
use occ_forms_expressions::Expr;
use occ_scope::{Meaning, Referent, Scope};
use occ_typing_rules::TypedActual;
use occ_typing_tables::report_hidden;
use std::alloc::{AllocError, Global};

/// An instance of a PROC: its specification, and the actuals.
#[derive(Drop)]
pub struct TypedInstance {
    pub callee: Referent,
    pub actuals: Items<TypedActual>,
}

/// What is reported of a name that is called and stands for no procedure.
fn report_no_procedure(
    alloc: Global,
    scope: &Scope,
    name: &Name,
    faults: &mut Items<Fault>,
) -> Result<(), AllocError>
    ensures { OnOk result (faults.new ≡ faults.old ++ spec_no_procedure name.now (visible scope.now name.now)) }
{
    let code = match scope.find(name) {
        None => Code::N1,
        Some(Meaning::Faulty | Meaning::Type(None) | Meaning::Procedure(_)) => return Ok(()),
        Some(_) => Code::N2,
    };
    let name = Some(name.copied(alloc)?);
    faults.push(Fault { code, name })
}

/// What is reported of a call of what is no procedure.
fn no_instance(
    alloc: Global,
    name: &Name,
    exprs: &[Expr],
    scope: &Scope,
    faults: &mut Items<Fault>,
) -> Result<(), AllocError>
    ensures { OnOk result (faults.new ≡ faults.old ++ spec_no_instance scope.now name.now exprs.now) }
{
    report_no_procedure(alloc, scope, name, faults)?;
    let read = each_one(alloc, exprs, scope, faults)?;
    report_hidden(alloc, read.terms.as_slice(), faults)
}

/// An instance of this specification, if all is there.
fn with_callee(
    callee: Option<Referent>,
    actuals: Option<Items<TypedActual>>,
) -> Option<TypedInstance>
    ensures { result ≡ spec_with_callee callee actuals }
{
    let (Some(callee), Some(actuals)) = (callee, actuals) else {
        return None;
    };
    Some(TypedInstance { callee, actuals })
}

/// A call where a process stands.
#[tactic(auto, using(occ_expr_operations::proofs::Referring::seen, crate::proofs::Unseen::unseen))]
fn call(
    alloc: Global,
    name: &Name,
    exprs: &[Expr],
    scope: &mut Scope,
    faults: &mut Items<Fault>,
) -> Result<Option<TypedInstance>, AllocError>
    ensures tree { IfOk result (λ tree. tree ≡ call_tree scope.old name.now exprs.now (visible scope.old name.now)) }
    ensures scope { OnOk result (scope.new ≡ scope.old) }
    ensures faults { OnOk result (faults.new ≡ faults.old ++ call_faults scope.old name.now exprs.now (visible scope.old name.now)) }
{
    let callee = scope.referent(name)?;
    let Some(found) = &callee else {
        no_instance(alloc, name, exprs, scope, faults)?;
        return Ok(None);
    };
    match found.meaning.get() {
        Meaning::Procedure(formals) => {
            let actuals = actuals(alloc, name, formals.get().as_slice(), exprs, scope, faults)?;
            Ok(with_callee(callee, actuals))
        }
        _ => {
            no_instance(alloc, name, exprs, scope, faults)?;
            Ok(None)
        }
    }
}

/// A line of expressions where a process stands: an instance of a PROC, if it is one call.
#[tactic(auto, unfolding(crate::specs::Instances::instance_faults, crate::specs::Instances::instance_tree))]
pub fn instance(
    alloc: Global,
    first: &Expr,
    more: &[Expr],
    scope: &mut Scope,
    faults: &mut Items<Fault>,
) -> Result<Option<TypedInstance>, AllocError>
    ensures tree { IfOk result (λ tree. tree ≡ instance_tree scope.old (first.now ∷ more.now)) }
    ensures scope { OnOk result (scope.new ≡ scope.old) }
    ensures faults { OnOk result (faults.new ≡ faults.old ++ instance_faults scope.old (first.now ∷ more.now)) }
{
    match one_call(first, more) {
        Some((name, exprs)) => call(alloc, name, exprs, scope, faults),
        None => Ok(None),
    }
}
