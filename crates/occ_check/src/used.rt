//! Used units as a check sees them: absent, circular, faulty, or clean with an interface.
use occ_base::{FileName, Shared};
use occ_types::Interface;

/// How a unit stands that another uses: the first of these that holds.
pub enum Used {
    /// It is not open.
    Absent,
    /// Units that use one another lead from it back to the unit that uses it, or it is that unit itself.
    Circular,
    /// It has a diagnostic of the grade error.
    Faulty,
    /// It has none, and shows this.
    Clean(Shared<Interface>),
}

/// Written out: crates above call it, where each would prove a derived one anew.
impl Drop for Used {
    fn drop(self) {
        match self {
            Used::Absent => {}
            Used::Circular => {}
            Used::Faulty => {}
            Used::Clean(_) => {}
        }
    }
}

/// A unit that another uses, and how it stands.
pub struct UsedUnit {
    pub unit: FileName,
    pub used: Used,
}

/// Written out: crates above call it, where each would prove a derived one anew.
impl Drop for UsedUnit {
    fn drop(self) {
        let UsedUnit { unit: _, used: _ } = self;
    }
}
