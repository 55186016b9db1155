//! Where the uses of a list stand, found by buckets: for each bucket its last use, and for each use the one before it.
ghost use Rattle.std.specs.Prelude.{◌≡◌, ◌<◌, ◌+◌, ◌++◌, ◌∷◌, [], false, true, IfOk, MatchOption, OnOk, length, slice_get, slice_set};
ghost use Rattle.occ_usage_conflicts.specs.inside.Numbering.{bucket_of as spec_bucket_of};
ghost use Rattle.occ_usage_conflicts.specs.Distinct.{is_among};
ghost use Rattle.occ_usage_conflicts.specs.inside.Linking.{IsLinked, is_use, linked as spec_linked};

use super::numbering::bucket_of;
use super::same::{Candidate, same_use};
use occ_base::Items;
use occ_usage_values::Use;
use std::alloc::{AllocError, Global};

/// Where the uses of a list stand, by their buckets: each number is one more than a place, and 0 where there is none.
#[derive(Drop)]
pub(crate) struct Links {
    /// Of each bucket the last place.
    heads: Vec<usize>,
    /// Of each place the one before it in its bucket.
    before: Vec<usize>,
}

impl Links {
    /// For a list without a use, with so many buckets, of which there is one at least.
    pub(crate) fn none(alloc: Global, count: usize) -> Result<Links, AllocError>
        ensures { IfOk result (λ links. IsLinked links.heads.items links.before.items []) }
    {
        let buckets = count.checked_next_power_of_two().ok_or(AllocError)?;
        Ok(Links {
            heads: vec![in alloc; 0; buckets.max(1)]?,
            before: Vec::with_capacity(alloc, count)?,
        })
    }

    /// For a list of uses, with twice as many buckets.
    pub(crate) fn of(alloc: Global, found: &[Use]) -> Result<Links, AllocError>
        ensures { IfOk result (λ links. IsLinked links.heads.items links.before.items found.now) }
    {
        let mut links = Links::none(alloc, found.len().saturating_mul(2))?;
        for (place, one) in found.iter().enumerate() {
            let bucket = bucket_in(&Candidate::of(one), &links);
            links.note(bucket, place)?;
        }
        Ok(links)
    }

    /// How many buckets there are.
    pub(crate) fn count(&self) -> usize
        ensures { result ≡ length self.now.heads.items }
    {
        self.heads.len()
    }

    /// Notes the place after the list as that of a use in this bucket.
    fn note(&mut self, bucket: usize, place: usize) -> Result<(), AllocError>
        requires { bucket < length self.old.heads.items }
        ensures heads { OnOk result (self.new.heads.items ≡ slice_set self.old.heads.items bucket (place + 1)) }
        ensures before { OnOk result (self.new.before.items ≡ self.old.before.items ++ spec_linked self.old.heads.items bucket ∷ []) }
    {
        let Some(following) = place.checked_add(1) else {
            return Err(AllocError);
        };
        self.before.push(self.heads[bucket])?;
        self.heads[bucket] = following;
        Ok(())
    }
}

/// The number at a place among these, if there is one, or else 0.
fn linked(numbers: &[usize], place: usize) -> usize
    ensures { result ≡ spec_linked numbers.now place }
{
    match numbers.get(place) {
        Some(number) => *number,
        None => 0,
    }
}

/// Whether a use stands at a place.
#[inline(always)]
fn is_at(found: &[Use], place: usize, one: &Candidate<'_>) -> bool
    ensures { result ≡ is_use one.now (slice_get found.now place) }
{
    match found.get(place) {
        Some(other) => same_use(other, one),
        None => false,
    }
}

/// The bucket of a use.
#[inline(always)]
fn bucket_in(one: &Candidate<'_>, links: &Links) -> usize
    requires { 0 < length links.now.heads.items }
    ensures value { result ≡ spec_bucket_of one.now (length links.now.heads.items) }
    ensures within { result < length links.now.heads.items }
{
    bucket_of(one, links.heads.len())
}

/// Whether a use, which belongs in this bucket, is found already.
#[inline(always)]
fn is_found(one: &Candidate<'_>, bucket: usize, links: &Links, found: &[Use]) -> bool
    requires linked { IsLinked links.now.heads.items links.now.before.items found.now }
    requires bucket { bucket ≡ spec_bucket_of one.now (length links.now.heads.items) }
    ensures { result ≡ is_among found.now one.now }
{
    let mut next = linked(links.heads.as_slice(), bucket);
    while let Some(place) = next.checked_sub(1) {
        if is_at(found, place, one) {
            return true;
        }
        next = linked(links.before.as_slice(), place);
    }
    false
}

/// The bucket of a use, if it is not among those that are found.
#[inline(always)]
pub(crate) fn bucket_of_new(one: &Candidate<'_>, links: &Links, found: &[Use]) -> Option<usize>
    requires { IsLinked links.now.heads.items links.now.before.items found.now }
    ensures { MatchOption result (is_among found.now one.now ≡ true) (λ bucket. (is_among found.now one.now ≡ false) × (bucket ≡ spec_bucket_of one.now (length links.now.heads.items)) × (bucket < length links.now.heads.items)) }
{
    let bucket = bucket_in(one, links);
    if is_found(one, bucket, links, found) {
        return None;
    }
    Some(bucket)
}

/// One use more, of this bucket.
#[inline(always)]
pub(crate) fn add_new(
    one: Use,
    bucket: usize,
    links: &mut Links,
    found: &mut Items<Use>,
) -> Result<(), AllocError>
    requires linked { IsLinked links.old.heads.items links.old.before.items found.old }
    requires bucket { bucket ≡ spec_bucket_of one (length links.old.heads.items) }
    requires within { bucket < length links.old.heads.items }
    ensures found { OnOk result (found.new ≡ found.old ++ one ∷ []) }
    ensures links { OnOk result (IsLinked links.new.heads.items links.new.before.items found.new) }
{
    links.note(bucket, found.len())?;
    found.push(one)
}
