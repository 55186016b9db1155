//! Typed lines: each with those under it, what it brings into scope, its typed form, and whether it is a process.
use occ_base::{Boxed, Items};
use occ_project::Location;
use occ_scope::ScopeEntry;
use occ_typing_lines::TypedForm;

/// A line of a unit, with those under it.
#[cycle(lines)]
#[derive(Drop)]
pub struct TypedLine {
    pub place: Location,
    /// Whether it is a process.
    pub is_process: bool,
    pub form: Boxed<TypedForm>,
    /// What comes into scope under it.
    pub enters: Items<ScopeEntry>,
    /// What comes into scope after it, if it is a line of a specification; else it is the last line of its item, and
    /// what the lines of specifications before it brought into scope goes out of scope after it. A line of a record has
    /// none either.
    pub adds: Option<Items<ScopeEntry>>,
    pub under: Items<TypedLine>,
}
