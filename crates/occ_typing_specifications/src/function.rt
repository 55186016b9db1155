//! Heads `t, .. FUNCTION n (formals)`: value formals, and results of data.
ghost use Rattle.std.specs.Prelude.{◌≡◌, ◌++◌, IfOk, OnOk};
ghost use Rattle.occ_typing_specifications.specs.Heads.{function, function_heading as spec_function_heading, function_meaning as spec_function_meaning, function_results as spec_function_results, types_known as spec_types_known};

use super::formal::{HeadFormal, all_known, called_formals, entries};
use super::group::value_groups;
use super::heading::{Expected, Heading};
use super::result_type::{all_found, known_types, result_types, unless_reported};
use occ_base::{Fault, Items, Shared};
use occ_forms::FunctionHead;
use occ_scope::{Meaning, Scope};
use occ_types::OccType;
use std::alloc::{AllocError, Global};

/// What the name of a function stands for: nothing is known of it, if its head has a fault.
fn function_meaning(
    alloc: Global,
    known: bool,
    formals: &[HeadFormal],
    types: &[Option<Shared<OccType>>],
) -> Result<Meaning, AllocError>
    ensures { IfOk result (λ meaning. meaning ≡ spec_function_meaning known formals.now types.now) }
{
    if known {
        let formals = Shared::new(alloc, called_formals(alloc, formals)?)?;
        let types = known_types(alloc, types)?;
        return Ok(Meaning::Function(formals, types));
    }
    Ok(Meaning::Faulty)
}

/// The results that the head lets expect: of these types, if it has no fault.
fn function_results(
    alloc: Global,
    known: bool,
    types: &[Option<Shared<OccType>>],
) -> Result<Expected, AllocError>
    ensures { IfOk result (λ results. results ≡ spec_function_results known types.now) }
{
    if known {
        return Ok(Expected::Types(known_types(alloc, types)?));
    }
    Ok(Expected::Count(types.len()))
}

/// What the head of a function with these formals, and with results of these types, makes known.
fn function_heading(
    alloc: Global,
    known: bool,
    formals: &[HeadFormal],
    types: &[Option<Shared<OccType>>],
) -> Result<Heading, AllocError>
    ensures { IfOk result (λ heading. heading ≡ spec_function_heading known formals.now types.now) }
{
    let meaning = function_meaning(alloc, known, formals, types)?;
    let formals = entries(alloc, known, formals)?;
    let results = function_results(alloc, known, types)?;
    Ok(Heading {
        formals,
        meaning,
        results,
    })
}

/// Whether the type of each formal and of each result is known.
fn types_known(formals: &[HeadFormal], types: &[Option<Shared<OccType>>]) -> bool
    ensures { result ≡ spec_types_known formals.now types.now }
{
    all_known(formals) && all_found(types)
}

/// `t, .. FUNCTION n (formals)`: as for a procedure, with formals that are all values, and results of data.
#[tactic(auto, unfolding(crate::specs::Heads::function))]
pub fn function_head(
    alloc: Global,
    head: &FunctionHead,
    scope: &Scope,
    faults: &mut Items<Fault>,
) -> Result<Heading, AllocError>
    ensures heading { IfOk result (λ heading. heading ≡ (function scope.now head.now).heading) }
    ensures faults { OnOk result (faults.new ≡ faults.old ++ (function scope.now head.now).faults) }
{
    let mut reported = Items::new(alloc);
    let types = result_types(
        alloc,
        &head.first,
        head.more.as_slice(),
        scope,
        &mut reported,
    )?;
    let formals = value_groups(alloc, head.formals.as_slice(), scope, &mut reported)?;
    let known = types_known(formals.as_slice(), types.as_slice());
    let known = unless_reported(&reported, known);
    faults.append(reported)?;
    function_heading(alloc, known, formals.as_slice(), types.as_slice())
}
