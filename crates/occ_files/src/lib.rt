//! Files on disk that are checked together: those that are asked for, and what they use and include, each looked for beside
//! the file that names it and then in other folders. What a unit includes and uses is what its expansion says.
#![tactic(auto)]

mod finding;
mod gathering;
mod refusal;
mod walking;

pub use finding::{Disk, DiskFault, Found, Search, Seen, find, folder_of, name_of};
pub use gathering::{Gathered, Text, gather};
pub use refusal::{Refusal, Why};
pub use walking::{Asked, Group, groups};
