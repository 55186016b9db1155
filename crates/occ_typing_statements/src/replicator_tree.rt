//! Typed replicators, with base and count as numbers where they are known.
use occ_base::Shared;
use occ_scope::SpecId;
use occ_typing_rules::TypedExpr;

/// `n = e FOR e`
#[derive(Drop)]
pub struct TypedReplicator {
    /// The specification of its index, which is the one name that its line enters: how many stand round it.
    pub index: SpecId,
    pub base: Shared<TypedExpr>,
    pub count: Shared<TypedExpr>,
    /// Its base and count, where it is known.
    pub known: Option<KnownReplicator>,
}

/// The base and the count of a known replicator.
#[derive(Clone, Copy)]
pub struct KnownReplicator {
    pub base: i32,
    pub count: u32,
}
