//! The uses of a body from outside: of roots that it does not specify itself, each once, at the line of its head.
ghost use Rattle.std.specs.Prelude.{◌≡◌, ◌++◌, ◌∷◌, [], if◌then◌else◌, nat_lt, IfOk, OnOk};
ghost use Rattle.occ_usage_conflicts.specs.Bodies.{body_uses as spec_body_uses, from_outside as spec_from_outside};
ghost use Rattle.occ_usage_conflicts.specs.Distinct.{added};
ghost use Rattle.occ_usage_conflicts.specs.inside.Linking.{IsLinked};

use super::each_once::{Links, add_new, bucket_of_new};
use super::same::Candidate;
use occ_base::Items;
use occ_project::Location;
use occ_usage_values::Use;
use std::alloc::{AllocError, Global};

/// Adds a use in a body as it is seen from outside, unless it is of what the body specifies or among those that are seen.
#[inline(always)]
fn add_outside(
    alloc: Global,
    found: Use,
    number: usize,
    locals: usize,
    line: &Location,
    links: &mut Links,
    seen: &mut Items<Use>,
) -> Result<(), AllocError>
    requires { IsLinked links.old.heads.items links.old.before.items seen.old }
    ensures seen { OnOk result (seen.new ≡ (if nat_lt found.part.root locals then added (spec_from_outside number line.now found) seen.old else seen.old)) }
    ensures links { OnOk result (IsLinked links.new.heads.items links.new.before.items seen.new) }
{
    if found.part.root >= locals {
        return Ok(());
    }
    let chain = found.chain.below(alloc, number)?;
    let seen_from_outside = Candidate {
        part: &found.part,
        kind: found.kind,
        line,
        chain: &chain,
    };
    let Some(bucket) = bucket_of_new(&seen_from_outside, links, seen.as_slice()) else {
        return Ok(());
    };
    let one = Use {
        part: found.part,
        kind: found.kind,
        line: line.share()?,
        chain,
    };
    add_new(one, bucket, links, seen)
}

/// The uses of a body, each once, as they are seen from outside: so many specifications stand round it, and its own have
/// numbers from `locals` on.
pub fn outside_uses(
    alloc: Global,
    mut uses: Items<Use>,
    number: usize,
    locals: usize,
    line: &Location,
) -> Result<Items<Use>, AllocError>
    ensures { IfOk result (λ seen. seen ≡ spec_body_uses number locals line.now uses) }
{
    let mut links = Links::none(alloc, uses.len().saturating_mul(2))?;
    let mut seen = Items::new(alloc);
    while let Some(found) = uses.pop() {
        add_outside(alloc, found, number, locals, line, &mut links, &mut seen)?;
    }
    Ok(seen)
}

/// Copies of uses.
fn copies(alloc: Global, uses: &[Use]) -> Result<Items<Use>, AllocError>
    ensures { IfOk result (λ copies. copies ≡ uses.now) }
{
    let mut copies = Items::new(alloc);
    for one in uses {
        copies.push(one.at_line(alloc, &one.line)?)?;
    }
    Ok(copies)
}

/// The uses of a body, each once, as they are seen from outside: so many specifications stand round it, and its own have
/// numbers from `locals` on.
pub fn body_uses(
    alloc: Global,
    uses: &[Use],
    number: usize,
    locals: usize,
    line: &Location,
) -> Result<Items<Use>, AllocError>
    ensures { IfOk result (λ seen. seen ≡ spec_body_uses number locals line.now uses.now) }
{
    outside_uses(alloc, copies(alloc, uses)?, number, locals, line)
}
