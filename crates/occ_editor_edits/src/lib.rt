//! What an editor sends, as bytes: frames of messages, and what an edit of a range makes of a text. A place is a line and a
//! column, which counts UTF-16 units.
#![tactic(auto)]

mod calls;
mod changes;
mod documents;
mod head;
mod paths;
mod ranges;
mod reading;
mod writing;

pub use calls::{ClientCall, call_of};
pub use changes::{Change, changed_all};
pub use documents::{Document, Documents, Note};
pub use paths::uri_of;
pub use ranges::{Place, byte_at, edited};
pub use reading::{FrameFault, read_frame};
pub use writing::frame;
