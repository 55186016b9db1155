//! How a used unit is found by one that uses it: absent, circular, or below.
/// How a unit stands to one that uses it.
#[derive(Clone, Copy)]
pub enum Standing {
    /// It is not open.
    Absent,
    /// It is the same unit, or reaches it by units that each use the next.
    Circular,
    /// It is open, and in no circle with the unit that uses it.
    Below,
}
