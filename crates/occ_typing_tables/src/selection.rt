//! Segments `[el FROM e FOR e]`: the type of the part, and faults of their bounds (T2, T6).
ghost use Rattle.std.specs.Prelude.{◌≡◌, ◌++◌, IfOk, OnOk};
ghost use Rattle.occ_typing_tables.specs.Segments.{bound as spec_bound, constant_of as spec_constant_of, count_of as spec_count_of, ends_after as spec_ends_after, for_count as spec_for_count, from_base as spec_from_base, from_for as spec_from_for, is_beyond as spec_is_beyond, is_negative as spec_is_negative, no_part as spec_no_part, no_parts as spec_no_parts, no_segment as spec_no_segment, segment as spec_segment, segment_within as spec_segment_within, taken as spec_taken, to_the_end as spec_to_the_end};
ghost use Rattle.occ_typing_tables.specs.Terms.{judged};

use super::dimension::number_in;
use super::table::under;
use super::term::Term;
use occ_base::{Code, Fault, Items, Shared, report};
use occ_types::{OccType, array_of, unnamed};
use occ_typing_operands::{Kind, int, is_faulty, known};
use std::alloc::{AllocError, Global};

/// Which part of an array a segment is.
#[derive(Drop)]
pub enum BoundTerms {
    /// `FROM e`
    From(Term),
    /// `FOR e`
    For(Term),
    /// `FROM e FOR e`
    FromFor(Term, Term),
}

/// The number of a settled bound, if it is constant.
fn constant_of(kind: &Kind) -> Option<i64>
    ensures { result ≡ spec_constant_of kind.now }
{
    match kind {
        Kind::Known(found) => number_in(found.value.get()),
        _ => None,
    }
}

/// The number, as one of the numbers that a difference may be.
fn wide(n: Option<i64>) -> Option<i128>
    ensures { result ≡ n }
{
    n.map(|n| i128::from(n))
}

/// How many components there are from a base to the end.
fn to_the_end(count: Option<u32>, base: Option<i64>) -> Option<i128>
    ensures { result ≡ spec_to_the_end count base }
{
    match (count, base) {
        (Some(count), Some(base)) => Some(i128::from(count) - i128::from(base)),
        _ => None,
    }
}

fn is_negative(count: Option<i128>) -> bool
    ensures { result ≡ spec_is_negative count }
{
    match count {
        Some(count) => count < 0,
        None => false,
    }
}

/// Whether there are more than from the base to the end of an array of so many components.
fn ends_after(size: Option<u32>, base: i64, count: i128) -> bool
    ensures { result ≡ spec_ends_after size base count }
{
    match size {
        Some(size) => i128::from(size) - i128::from(base) < count,
        None => false,
    }
}

/// Whether a segment begins before the array or ends after it, where that is constant.
fn is_beyond(size: Option<u32>, base: Option<i64>, count: Option<i128>) -> bool
    ensures { result ≡ spec_is_beyond size base count }
{
    match (base, count) {
        (Some(base), Some(count)) => base < 0 || ends_after(size, base, count),
        _ => false,
    }
}

/// The number of components of a segment, if it is constant.
fn count_of(count: Option<i128>) -> Option<u32>
    ensures { result ≡ spec_count_of count }
{
    match count {
        Some(count) => u32::try_from(count).ok(),
        None => None,
    }
}

/// The segment of an array of so many components of this type.
fn taken(
    alloc: Global,
    size: Option<u32>,
    of: &Shared<OccType>,
    base: Option<i64>,
    count: Option<i128>,
    faults: &mut Items<Fault>,
) -> Result<Kind, AllocError>
    ensures kind { IfOk result (λ kind. kind ≡ (spec_taken size of.now base count).kind) }
    ensures faults { OnOk result (faults.new ≡ faults.old ++ (spec_taken size of.now base count).faults) }
{
    if is_negative(count) || is_beyond(size, base, count) {
        report(faults, Code::T6)?;
        return Ok(Kind::Faulty);
    }
    let segment = Shared::new(alloc, OccType::Array(count_of(count), of.share()?))?;
    known(&segment, None)
}

/// A bound, which is an INT.
fn bound(alloc: Global, term: &Term, faults: &mut Items<Fault>) -> Result<Kind, AllocError>
    ensures kind { IfOk result (λ kind. kind ≡ (spec_bound (judged term.now)).kind) }
    ensures faults { OnOk result (faults.new ≡ faults.old ++ (spec_bound (judged term.now)).faults) }
{
    under(alloc, term, &int(alloc)?, faults)
}

/// `FROM e FOR e` of an array.
fn from_for(
    alloc: Global,
    size: Option<u32>,
    of: &Shared<OccType>,
    base: &Term,
    count: &Term,
    faults: &mut Items<Fault>,
) -> Result<Kind, AllocError>
    ensures kind { IfOk result (λ kind. kind ≡ (spec_from_for size of.now (spec_bound (judged base.now)) (spec_bound (judged count.now))).kind) }
    ensures faults { OnOk result (faults.new ≡ faults.old ++ (spec_from_for size of.now (spec_bound (judged base.now)) (spec_bound (judged count.now))).faults) }
{
    let base = bound(alloc, base, faults)?;
    let count = bound(alloc, count, faults)?;
    if is_faulty(&base) || is_faulty(&count) {
        return Ok(Kind::Faulty);
    }
    taken(
        alloc,
        size,
        of,
        constant_of(&base),
        wide(constant_of(&count)),
        faults,
    )
}

/// `FROM e` of an array.
fn from_base(
    alloc: Global,
    size: Option<u32>,
    of: &Shared<OccType>,
    base: &Term,
    faults: &mut Items<Fault>,
) -> Result<Kind, AllocError>
    ensures kind { IfOk result (λ kind. kind ≡ (spec_from_base size of.now (spec_bound (judged base.now))).kind) }
    ensures faults { OnOk result (faults.new ≡ faults.old ++ (spec_from_base size of.now (spec_bound (judged base.now))).faults) }
{
    let base = bound(alloc, base, faults)?;
    if is_faulty(&base) {
        return Ok(Kind::Faulty);
    }
    let base = constant_of(&base);
    taken(alloc, size, of, base, to_the_end(size, base), faults)
}

/// `FOR e` of an array.
fn for_count(
    alloc: Global,
    size: Option<u32>,
    of: &Shared<OccType>,
    count: &Term,
    faults: &mut Items<Fault>,
) -> Result<Kind, AllocError>
    ensures kind { IfOk result (λ kind. kind ≡ (spec_for_count size of.now (spec_bound (judged count.now))).kind) }
    ensures faults { OnOk result (faults.new ≡ faults.old ++ (spec_for_count size of.now (spec_bound (judged count.now))).faults) }
{
    let count = bound(alloc, count, faults)?;
    if is_faulty(&count) {
        return Ok(Kind::Faulty);
    }
    taken(alloc, size, of, Some(0), wide(constant_of(&count)), faults)
}

/// A segment of an array of so many components.
fn segment_within(
    alloc: Global,
    bounds: &BoundTerms,
    size: Option<u32>,
    of: &Shared<OccType>,
    faults: &mut Items<Fault>,
) -> Result<Kind, AllocError>
    ensures kind { IfOk result (λ kind. kind ≡ (spec_segment_within size of.now bounds.now).kind) }
    ensures faults { OnOk result (faults.new ≡ faults.old ++ (spec_segment_within size of.now bounds.now).faults) }
{
    match bounds {
        BoundTerms::From(base) => from_base(alloc, size, of, base, faults),
        BoundTerms::For(count) => for_count(alloc, size, of, count, faults),
        BoundTerms::FromFor(base, count) => from_for(alloc, size, of, base, count, faults),
    }
}

/// A bound of what has no components.
fn no_part(alloc: Global, term: &Term, faults: &mut Items<Fault>) -> Result<Kind, AllocError>
    ensures kind { IfOk result (λ kind. kind ≡ (spec_no_part (spec_bound (judged term.now))).kind) }
    ensures faults { OnOk result (faults.new ≡ faults.old ++ (spec_no_part (spec_bound (judged term.now))).faults) }
{
    let kind = bound(alloc, term, faults)?;
    if !is_faulty(&kind) {
        report(faults, Code::T2)?;
    }
    Ok(Kind::Faulty)
}

/// Both bounds of what has no components.
fn no_parts(
    alloc: Global,
    base: &Term,
    count: &Term,
    faults: &mut Items<Fault>,
) -> Result<Kind, AllocError>
    ensures kind { IfOk result (λ kind. kind ≡ (spec_no_parts (spec_bound (judged base.now)) (spec_bound (judged count.now))).kind) }
    ensures faults { OnOk result (faults.new ≡ faults.old ++ (spec_no_parts (spec_bound (judged base.now)) (spec_bound (judged count.now))).faults) }
{
    let base = bound(alloc, base, faults)?;
    let count = bound(alloc, count, faults)?;
    if !is_faulty(&base) && !is_faulty(&count) {
        report(faults, Code::T2)?;
    }
    Ok(Kind::Faulty)
}

/// A segment of what has no components.
fn no_segment(
    alloc: Global,
    bounds: &BoundTerms,
    faults: &mut Items<Fault>,
) -> Result<Kind, AllocError>
    ensures kind { IfOk result (λ kind. kind ≡ (spec_no_segment bounds.now).kind) }
    ensures faults { OnOk result (faults.new ≡ faults.old ++ (spec_no_segment bounds.now).faults) }
{
    match bounds {
        BoundTerms::From(bound) | BoundTerms::For(bound) => no_part(alloc, bound, faults),
        BoundTerms::FromFor(base, count) => no_parts(alloc, base, count, faults),
    }
}

/// A segment of a value of this type.
pub fn segment(
    alloc: Global,
    bounds: &BoundTerms,
    of: &OccType,
    faults: &mut Items<Fault>,
) -> Result<Kind, AllocError>
    ensures kind { IfOk result (λ kind. kind ≡ (spec_segment of.now bounds.now).kind) }
    ensures faults { OnOk result (faults.new ≡ faults.old ++ (spec_segment of.now bounds.now).faults) }
{
    match array_of(unnamed(of)) {
        Some((size, component)) => segment_within(alloc, bounds, size, component, faults),
        None => no_segment(alloc, bounds, faults),
    }
}
