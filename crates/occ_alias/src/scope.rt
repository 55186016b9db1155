//! A1 to A3: the uses of a line against those abbreviations in scope that concern them. `docs/LANGUAGE.md, The
//! abbreviation rule`.
ghost use Rattle.std.specs.Prelude.{◌≡◌, ◌++◌, ◌==◌, ℕ, OnOk, slice_get};
ghost use Rattle.occ_alias.specs.AbbreviationRule.{bound_faults as spec_bound_faults, element_fault as spec_element_fault, element_faults as spec_element_faults, place_faults as spec_place_faults, scope_faults as spec_scope_faults};
ghost use Rattle.occ_usage_parts.specs.Selecting.{part_of};
ghost use Rattle.occ_alias.specs.inside.Choosing.{chosen_faults as spec_chosen_faults, numbered_faults as spec_numbered_faults};

use super::pairs::{selected_faults, written_faults};
use super::reported::Reported;
use occ_base::Code;
use occ_usage_lines::UsageScope;
use occ_usage_parts::SelectedPart;
use occ_usage_values::{Bound, Use};
use std::alloc::{AllocError, Global};

/// What is reported of a use in the scope of the abbreviation with this number, of which this is the element.
fn element_fault(
    alloc: Global,
    number: usize,
    env: &[Bound],
    element: &SelectedPart,
    found: &Use,
    faults: &mut Reported,
) -> Result<(), AllocError>
    ensures { OnOk result (faults.new ≡ faults.old ++ spec_element_fault number env.now (part_of element.now) found.now) }
{
    if found.chain.has(number) {
        return Ok(());
    }
    selected_faults(
        alloc,
        &found.line,
        Code::A1,
        env,
        element,
        &found.part,
        faults,
    )
}

fn element_faults(
    alloc: Global,
    number: usize,
    env: &[Bound],
    element: &SelectedPart,
    uses: &[Use],
    faults: &mut Reported,
) -> Result<(), AllocError>
    ensures { OnOk result (faults.new ≡ faults.old ++ spec_element_faults number env.now (part_of element.now) uses.now) }
{
    for found in uses {
        element_fault(alloc, number, env, element, found, faults)?;
    }
    Ok(())
}

/// What is reported of uses in the scope of the abbreviation with this number, which has this place.
fn place_faults(
    alloc: Global,
    number: usize,
    env: &[Bound],
    place: &Option<SelectedPart>,
    uses: &[Use],
    faults: &mut Reported,
) -> Result<(), AllocError>
    ensures { OnOk result (faults.new ≡ faults.old ++ spec_place_faults number env.now place.now uses.now) }
{
    match place {
        Some(element) => element_faults(alloc, number, env, element, uses, faults),
        None => Ok(()),
    }
}

/// What is reported of uses in the scope of the specification with this number.
fn bound_faults(
    alloc: Global,
    number: usize,
    env: &[Bound],
    bound: &Bound,
    uses: &[Use],
    faults: &mut Reported,
) -> Result<(), AllocError>
    ensures { OnOk result (faults.new ≡ faults.old ++ spec_bound_faults number env.now bound.now uses.now) }
{
    match bound {
        Bound::Abbreviation(place, _, reads) => {
            place_faults(alloc, number, env, place, uses, faults)?;
            written_faults(alloc, Code::A2, env, uses, reads.as_slice(), faults)
        }
        Bound::Value(_, _, reads) => {
            written_faults(alloc, Code::A3, env, uses, reads.as_slice(), faults)
        }
        Bound::Root(_) => Ok(()),
        Bound::Body(_, _) => Ok(()),
        Bound::Other => Ok(()),
    }
}

/// What is reported of uses in the scope of the specification with this number, if there is one.
fn numbered_faults(
    alloc: Global,
    number: usize,
    env: &[Bound],
    uses: &[Use],
    faults: &mut Reported,
) -> Result<(), AllocError>
    ensures { OnOk result (faults.new ≡ faults.old ++ spec_numbered_faults number env.now (slice_get env.now number) uses.now) }
{
    match env.get(number) {
        Some(bound) => bound_faults(alloc, number, env, bound, uses, faults),
        None => Ok(()),
    }
}

/// What is reported of uses in the scope of the specifications with these numbers.
fn chosen_faults(
    alloc: Global,
    numbers: &[usize],
    env: &[Bound],
    uses: &[Use],
    faults: &mut Reported,
) -> Result<(), AllocError>
    ensures { OnOk result (faults.new ≡ faults.old ++ spec_chosen_faults env.now uses.now numbers.now) }
{
    for number in numbers {
        numbered_faults(alloc, *number, env, uses, faults)?;
    }
    Ok(())
}

/// What is reported of uses where these specifications are in scope: by those that concern the uses, since the others report nothing.
#[tactic(auto, using(crate::proofs::Elements::all_report))]
pub(crate) fn scope_faults(
    alloc: Global,
    env: &UsageScope,
    uses: &[Use],
    faults: &mut Reported,
) -> Result<(), AllocError>
    ensures { OnOk result (faults.new ≡ faults.old ++ spec_scope_faults 0 env.now env.now uses.now) }
{
    let numbers = env.concerned(alloc, uses)?;
    chosen_faults(alloc, numbers.as_slice(), env.as_slice(), uses, faults)
}
