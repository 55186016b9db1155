//! What a head makes known: its formals, the meaning of its name, and the results that are expected. Of a faulty head
//! nothing is known.
use occ_base::{Items, Shared};
use occ_scope::{Meaning, ScopeEntry};
use occ_types::OccType;

/// The results that a head lets expect.
#[derive(Drop)]
pub enum Expected {
    /// Of these types, in their order; of a procedure none.
    Types(Items<Shared<OccType>>),
    /// So many: the head has a fault, or needs what has one, and no types are compared with the results.
    Count(usize),
}

/// What a head makes known.
#[derive(Drop)]
pub struct Heading {
    /// The formals in their order, as they stand in scope in the body.
    pub formals: Items<ScopeEntry>,
    /// What the name stands for after the body.
    pub meaning: Meaning,
    pub results: Expected,
}
