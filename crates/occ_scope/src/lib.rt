//! Which specifications are in scope, which of them a name stands for, and what that is.
#![tactic(auto)]

pub mod laws;
mod lookup;
mod mapped;
mod meaning;
mod meanings;
mod numbered;
mod places;
pub mod rows;
mod scope;
mod scopes;
mod taking;

pub use lookup::{Carried, carries, data_type, element};
pub use meaning::{Access, Meaning, Referent, ScopeEntry, Whole, one_entry};
pub use scope::Scope;
pub use scopes::{Scopes, SpecId};
