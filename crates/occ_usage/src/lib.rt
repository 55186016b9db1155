//! What the processes of a unit use, and the rules of uses: parallel components share nothing that one of them changes, a
//! function changes nothing outside it and takes no part in communication, and while a name stands for an element nothing else
//! uses that element.
#![tactic(auto)]

mod each_line;
mod effect;
mod finding;
mod function;
mod multiple;
mod process;
mod rounds;
mod walk;

pub use function::{Within, function_faults};
pub use occ_alias::number_after;
pub use occ_typing::{Import, TypeFault, Typed, TypedForm, TypedLine, shared_types, type_unit};
pub use process::{ProcessId, Summary, uses_of};
pub use walk::{UnitUses, alias_faults, par_faults, unit_uses};
