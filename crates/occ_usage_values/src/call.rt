//! What a call uses: for each use of the body one of the part of the actual that the same selectors select.
//! `docs/LANGUAGE.md, Uses`.
ghost use Rattle.std.specs.Prelude.{◌≡◌, ◌++◌, MatchOption, None, OnOk, Some, slice_get};
ghost use Rattle.occ_usage_values.specs.Calls.{called as spec_called, called_all as spec_called_all, made as spec_made, named_by as spec_named_by, of_actual as spec_of_actual};

use super::uses::Use;
use occ_base::Items;
use occ_project::Location;
use occ_types::UseKind;
use occ_usage_parts::SelectedPart;
use std::alloc::{AllocError, Global};

/// A use of a place, if it is one that is used.
#[inline(always)]
pub(crate) fn push_made(
    kind: UseKind,
    line: &Location,
    place: Option<SelectedPart>,
    uses: &mut Items<Use>,
) -> Result<(), AllocError>
    ensures { OnOk result (uses.new ≡ uses.old ++ spec_made line.now kind place) }
{
    let Some(place) = place else {
        return Ok(());
    };
    let chain = place.chain.share()?;
    let part = place.into_part()?;
    uses.push(Use {
        part,
        kind,
        line: line.share()?,
        chain,
    })
}

/// A use of a part of a formal that has this actual.
fn push_of_actual(
    alloc: Global,
    line: &Location,
    found: &Use,
    place: &SelectedPart,
    uses: &mut Items<Use>,
) -> Result<(), AllocError>
    ensures { OnOk result (uses.new ≡ uses.old ++ spec_of_actual line.now found.now (Some place.now)) }
{
    uses.push(Use {
        part: place.followed_by(alloc, found.part.selectors.as_slice())?,
        kind: found.kind,
        line: line.share()?,
        chain: place.chain.share()?,
    })
}

/// The actual of the formal at a place among them, if it is used.
fn actual_of(places: &[Option<SelectedPart>], formal: usize) -> Option<&SelectedPart>
    ensures { MatchOption result (spec_named_by (slice_get places.now formal) ≡ None) (λ place. spec_named_by (slice_get places.now formal) ≡ Some place.now) }
{
    match places.get(formal) {
        Some(place) => place.as_ref(),
        None => None,
    }
}

/// What a call of a specification with this number does by a use in its body.
fn push_called(
    alloc: Global,
    line: &Location,
    callee: usize,
    places: &[Option<SelectedPart>],
    found: &Use,
    uses: &mut Items<Use>,
) -> Result<(), AllocError>
    ensures { OnOk result (uses.new ≡ uses.old ++ spec_called line.now callee places.now found.now) }
{
    if found.part.root < callee {
        uses.push(found.at_line(alloc, line)?)
    } else {
        match actual_of(places, found.part.root - callee) {
            Some(place) => push_of_actual(alloc, line, found, place, uses),
            None => Ok(()),
        }
    }
}

/// What a call of a specification with this number and these actuals does by the uses of its body.
pub fn called(
    alloc: Global,
    line: &Location,
    callee: usize,
    places: &[Option<SelectedPart>],
    body: &[Use],
    uses: &mut Items<Use>,
) -> Result<(), AllocError>
    ensures { OnOk result (uses.new ≡ uses.old ++ spec_called_all line.now callee places.now body.now) }
{
    for found in body {
        push_called(alloc, line, callee, places, found, uses)?;
    }
    Ok(())
}
