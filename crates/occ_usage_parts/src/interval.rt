//! The intervals of subscripts and segments, and of what is selected from a segment.
ghost use Rattle.std.specs.Prelude.{◌≡◌};
ghost use Rattle.occ_usage_parts.specs.Selecting.{following as spec_after, counted as spec_counted, inside as spec_inside, segment as spec_segment, subscript as spec_subscript, sure as spec_sure, unsure as spec_unsure};

use super::places::{counted_from, intersection, sum};
use occ_types::{Interval, Mark, Places};

/// The interval of a subscript, whose place is given if it is known.
pub(crate) fn subscript(at: Option<i32>) -> Interval
    ensures { result ≡ spec_subscript at }
{
    match at {
        Some(at) => sure(Places::Run(i64::from(at), 0)),
        None => unsure(Places::All),
    }
}

/// The interval of a segment, whose base and count are given if they are known.
pub(crate) fn segment(base: Option<i32>, count: Option<i64>) -> Interval
    ensures { result ≡ spec_segment base count }
{
    match (base, count) {
        (None, _) => unsure(Places::All),
        (Some(base), None) => unsure(Places::From(i64::from(base))),
        (Some(base), Some(count)) => sure(counted(base, count)),
    }
}

/// So many places from a base on.
fn counted(base: i32, count: i64) -> Places
    ensures { result ≡ spec_counted base count }
{
    let base = i64::from(base);
    if count <= 0 {
        Places::None
    } else if count <= 4_294_967_296 {
        Places::Run(base, (count - 1) as u32)
    } else {
        Places::From(base)
    }
}

/// The interval that is selected from a segment by an interval.
pub(crate) fn inside(outer: Interval, base: Option<i64>, inner: Interval) -> Interval
    ensures { result ≡ spec_inside outer base inner }
{
    let Some(base) = base else {
        return unsure(outer.places);
    };
    match counted_from(base, inner.places) {
        Some(places) => Interval {
            mark: inner.mark,
            places: intersection(outer.places, places),
        },
        None => unsure(outer.places),
    }
}

/// Where a segment of a segment begins, if both bases are known.
pub(crate) fn following(outer: Option<i64>, base: Option<i32>) -> Option<i64>
    ensures { result ≡ spec_after outer base }
{
    match (outer, base) {
        (Some(outer), Some(base)) => sum(outer, i64::from(base)),
        _ => None,
    }
}

fn sure(places: Places) -> Interval
    ensures { result ≡ spec_sure places }
{
    Interval {
        mark: Mark::Sure,
        places,
    }
}

fn unsure(places: Places) -> Interval
    ensures { result ≡ spec_unsure places }
{
    Interval {
        mark: Mark::Unsure,
        places,
    }
}
