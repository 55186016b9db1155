//! How a part begins: with a field, with one place, or otherwise. Parts that begin with another field or another place are
//! apart, so that many parts are kept in lists by their beginnings.
ghost use Rattle.std.specs.Prelude.{◌≡◌, ◌<◌, IfSome};
ghost use Rattle.occ_usage_conflicts.specs.inside.Beginning.{list_at as spec_list_at, list_of as spec_list_of, list_of_places as spec_list_of_places};

use occ_base::number_of_bytes;
use occ_types::{PartSelector, Places};

/// Which of so many lists is that of a number, if there are any.
fn list_at(number: u64, count: usize) -> Option<usize>
    ensures list { result ≡ spec_list_at number count }
    ensures within { IfSome result (λ at. at < count) }
{
    if count == 0 {
        return None;
    }
    Some((number % count as u64) as usize)
}

/// The list of the parts that begin with a place, if it is one place.
fn list_of_places(places: Places, count: usize) -> Option<usize>
    ensures list { result ≡ spec_list_of_places places count }
    ensures within { IfSome result (λ at. at < count) }
{
    match places {
        Places::Run(first, 0) => list_at(first.unsigned_abs(), count),
        _ => None,
    }
}

/// Which of so many lists has the parts that begin with the field or the place with which a part begins: none where it begins
/// otherwise.
pub fn list_of(part: &[PartSelector], count: usize) -> Option<usize>
    ensures list { result ≡ spec_list_of part.now count }
    ensures within { IfSome result (λ at. at < count) }
{
    match part.first()? {
        PartSelector::Field(name) => list_at(number_of_bytes(name.as_bytes()), count),
        PartSelector::Interval(interval) => list_of_places(interval.places, count),
    }
}
