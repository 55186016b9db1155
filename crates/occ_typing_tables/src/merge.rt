//! One type that agrees with two others, filling in unknown numbers of components.
#![tactic(auto, using(crate::proofs::Filling::filling_rules))]

ghost use Rattle.std.specs.Prelude.{◌≡◌, IfOk, IsTrue, MatchOption, None, Some};
ghost use Rattle.occ_types.specs.declared.types.OccType.{OccType as SpecType};
ghost use Rattle.occ_typing_tables.specs.Merging.{filled as spec_filled, known_count as spec_known_count, merged as spec_merged};

use occ_base::Shared;
use occ_types::{OccType, array_of, fits};
use std::alloc::{AllocError, Global};

fn known_count(a: Option<u32>, b: Option<u32>) -> Option<u32>
    ensures { result ≡ spec_known_count a b }
{
    a.or(b)
}

/// The first type, with the numbers of components that it leaves unknown as the other has them.
fn filled_array(
    alloc: Global,
    a: &Shared<OccType>,
    b: &OccType,
) -> Result<Shared<OccType>, AllocError>
    ensures { IfOk result (λ of. of ≡ spec_filled a.now b.now) }
{
    match a.get() {
        OccType::Array(count, inner) => match array_of(b) {
            Some((other, of)) => {
                let of = filled_array(alloc, inner, of.get())?;
                Shared::new(alloc, OccType::Array(known_count(*count, other), of))
            }
            None => a.share(),
        },
        _ => a.share(),
    }
}

/// Whether a type says how many components it has, in each dimension that it begins with: then no other fills anything in.
fn is_closed(of: &OccType) -> bool
    ensures { IsTrue result → (other : SpecType) → spec_filled of.now other ≡ of.now }
{
    match of {
        OccType::Array(count, inner) => match count {
            Some(_) => is_closed(inner.get()),
            None => false,
        },
        _ => true,
    }
}

/// The same, where a type that leaves nothing unknown is taken as it is.
pub fn filled(
    alloc: Global,
    a: &Shared<OccType>,
    b: &OccType,
) -> Result<Shared<OccType>, AllocError>
    ensures { IfOk result (λ of. of ≡ spec_filled a.now b.now) }
{
    if is_closed(a.get()) {
        return a.share();
    }
    filled_array(alloc, a, b)
}

/// One type that agrees with both, if they agree.
pub fn merged(
    alloc: Global,
    a: &Shared<OccType>,
    b: &Shared<OccType>,
) -> Result<Option<Shared<OccType>>, AllocError>
    ensures { IfOk result (λ of. of ≡ spec_merged a.now b.now) }
{
    if !fits(a.get(), b.get()) {
        return Ok(None);
    }
    Ok(Some(filled(alloc, a, b.get())?))
}
