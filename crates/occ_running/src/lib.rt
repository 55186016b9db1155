//! What the typed tree of a unit does when it runs: definitions alone. They cite nothing of the rules of uses. Of used units they
//! take what their interfaces tell.
#![tactic(auto)]

pub mod rows;
