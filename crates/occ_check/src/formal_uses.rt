//! What a body does with its formals, in one order, each use once.
ghost use Rattle.std.specs.Prelude.{◌≡◌, ◌++◌, IfOk, OnOk};
ghost use Rattle.occ_check.specs.FormalUses.{formal_use as spec_formal_use, formal_uses as spec_formal_uses, in_order as spec_in_order};

use super::code::use_code;
use occ_base::Items;
use occ_types::FormalUse;
use occ_usage_parts::copies;
use occ_usage_values::Use;
use std::alloc::{AllocError, Global};
use std::collections::BTreeMap;

/// Adds a use in a body round which so many specifications stand, if it is one of a formal.
fn push_formal_use(
    alloc: Global,
    number: usize,
    found: &Use,
    uses: &mut Items<FormalUse>,
) -> Result<(), AllocError>
    ensures { OnOk result (uses.new ≡ uses.old ++ spec_formal_use number found.now) }
{
    if found.part.root < number {
        return Ok(());
    }
    let Ok(formal) = u32::try_from(found.part.root - number) else {
        return Ok(());
    };
    uses.push(FormalUse {
        formal,
        selectors: copies(alloc, found.part.selectors.as_slice())?,
        kind: found.kind,
    })
}

/// The uses of formals in a body round which so many specifications stand.
fn formal_uses(alloc: Global, number: usize, body: &[Use]) -> Result<Items<FormalUse>, AllocError>
    ensures { IfOk result (λ uses. uses ≡ spec_formal_uses number body.now) }
{
    let mut uses = Items::new(alloc);
    for found in body {
        push_formal_use(alloc, number, found, &mut uses)?;
    }
    Ok(uses)
}

/// The uses in the order of their codes, each once.
#[tactic(auto, using(crate::proofs::Coded::coded_last))]
pub fn in_order(alloc: Global, mut uses: Items<FormalUse>) -> Result<Items<FormalUse>, AllocError>
    ensures { IfOk result (λ ordered. ordered ≡ spec_in_order uses) }
{
    let mut coded = BTreeMap::new(alloc);
    while let Some(found) = uses.pop() {
        coded.insert(use_code(alloc, &found)?, found)?;
    }
    let ordered = coded.into_values().collect(alloc)?;
    Ok(Items::from_vec(ordered))
}

/// What a body round which so many specifications stand does with its formals.
pub fn body_formal_uses(
    alloc: Global,
    number: usize,
    body: &[Use],
) -> Result<Items<FormalUse>, AllocError>
    ensures { IfOk result (λ uses. uses ≡ spec_in_order (spec_formal_uses number body.now)) }
{
    let uses = formal_uses(alloc, number, body)?;
    in_order(alloc, uses)
}
