//! Heads `PROC n (formals)`.
ghost use Rattle.std.specs.Prelude.{◌≡◌, ◌++◌, IfOk, OnOk};
ghost use Rattle.occ_typing_specifications.specs.Heads.{procedure, procedure_heading as spec_procedure_heading, procedure_meaning as spec_procedure_meaning};

use super::formal::{HeadFormal, all_known, called_formals, entries};
use super::group::groups;
use super::heading::{Expected, Heading};
use super::result_type::unless_reported;
use occ_base::{Fault, Items, Shared};
use occ_forms::FormalGroup;
use occ_scope::{Meaning, Scope};
use std::alloc::{AllocError, Global};

/// What the name of a procedure stands for: nothing is known of it, if its head has a fault.
fn procedure_meaning(
    alloc: Global,
    known: bool,
    formals: &[HeadFormal],
) -> Result<Meaning, AllocError>
    ensures { IfOk result (λ meaning. meaning ≡ spec_procedure_meaning known formals.now) }
{
    if known {
        let called = called_formals(alloc, formals)?;
        return Ok(Meaning::Procedure(Shared::new(alloc, called)?));
    }
    Ok(Meaning::Faulty)
}

/// What the head of a procedure with these formals makes known.
fn procedure_heading(
    alloc: Global,
    known: bool,
    formals: &[HeadFormal],
) -> Result<Heading, AllocError>
    ensures { IfOk result (λ heading. heading ≡ spec_procedure_heading known formals.now) }
{
    let meaning = procedure_meaning(alloc, known, formals)?;
    let formals = entries(alloc, known, formals)?;
    Ok(Heading {
        formals,
        meaning,
        results: Expected::Types(Items::new(alloc)),
    })
}

/// `PROC n (formals)`: all formals are one list of names, and each type is judged in the scope before the head. If the
/// head reports something, or needs something faulty, all formals and the name are faulty.
#[tactic(auto, unfolding(crate::specs::Heads::procedure))]
pub fn procedure_head(
    alloc: Global,
    formals: &[FormalGroup],
    scope: &Scope,
    faults: &mut Items<Fault>,
) -> Result<Heading, AllocError>
    ensures heading { IfOk result (λ heading. heading ≡ (procedure scope.now formals.now).heading) }
    ensures faults { OnOk result (faults.new ≡ faults.old ++ (procedure scope.now formals.now).faults) }
{
    let mut reported = Items::new(alloc);
    let formals = groups(alloc, formals, scope, &mut reported)?;
    let known = unless_reported(&reported, all_known(formals.as_slice()));
    faults.append(reported)?;
    procedure_heading(alloc, known, formals.as_slice())
}
