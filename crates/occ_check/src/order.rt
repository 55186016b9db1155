//! Diagnostics in order, each once.
ghost use Rattle.std.specs.Prelude.{◌≡◌, IfOk};
ghost use Rattle.occ_base.specs.Order.{is_rising as spec_is_rising};
ghost use Rattle.occ_check.specs.Order.{in_order as spec_in_order};

use occ_base::{Diag, Items};
use std::alloc::{AllocError, Global};
use std::collections::BTreeSet;

/// Whether each diagnostic stands before the next one.
fn is_rising(diags: &[Diag]) -> bool
    ensures { result ≡ spec_is_rising diags.now }
{
    let [first, rest @ ..] = diags else {
        return true;
    };
    let mut last = first;
    for next in rest {
        if !last.cmp(next).is_lt() {
            return false;
        }
        last = next;
    }
    true
}

/// The diagnostics in order, each once. Most are found in their order.
#[tactic(auto, using(occ_base::proofs::Placed::placed_last))]
pub fn in_order(alloc: Global, mut found: Items<Diag>) -> Result<Items<Diag>, AllocError>
    ensures { IfOk result (λ diags. diags ≡ spec_in_order found) }
{
    if is_rising(found.as_slice()) {
        return Ok(found);
    }
    let mut set = BTreeSet::new(alloc);
    while let Some(diag) = found.pop() {
        set.insert(diag)?;
    }
    let diags = set.into_iter().collect(alloc)?;
    Ok(Items::from_vec(diags))
}
