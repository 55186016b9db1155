//! What is proved of the whole, in reading order. No crate depends on this one, and no program waits for it.
//!
//! A `.._theorem` calls the public function that it speaks of, so its contract is proved by that call's own. A `.._law` is a
//! statement about definitions alone; its body, if it has one, calls the laws that it follows from. Two lines of words are above
//! each statement: what it says, and why it matters or what else it says.
//!
//! 1. `program`: what is written for a script and for sessions, and that each report is right.
//! 2. `board`: what the calls of a board promise to an editor and to a worker.
//! 3. `server`: what a server promises to threads that share it.
//! 4. `machine`: scripts say one thing, work ends, a board settles, an edit leaves units alone that it does not concern.
//! 5. `projects`: an input decides its outcome, circles of `#USE` are named, diagnostics are in order.
//! 6. `texts`: one list of lines, one form, one list of trees.
//! 7. `types`: what is in scope, what is reported of a line, what a typed tree has.
//! 8. `uses`: the parallel rule in plain words, the abbreviation rule, calls.
//! 9. `parts`: parts that are apart share no element.
#![tactic(auto)]

pub mod board;
pub mod machine;
pub mod parts;
pub mod program;
pub mod projects;
pub mod server;
pub mod texts;
pub mod types;
pub mod uses;

pub use board::{
    change_theorem, check_theorem, checkpoint_theorem, finish_theorem, report_theorem,
    right_report_law, take_theorem,
};
pub use machine::{
    edit_apart_law, pending_number_law, same_input_law, script_law, settling_law, sound_law,
    work_law,
};
pub use parts::{interval_law, joined_law, overlap_law, segment_law};
pub use program::{script_theorem, sessions_theorem};
pub use projects::{anew_law, circular_use_law, done_law, input_law, order_law};
pub use server::{cut_theorem, end_theorem, receipt_theorem, snapshot_theorem};
pub use texts::{
    expression_reading_law, expression_tree_law, extreme_end_law, form_law, line_law, lines_law,
    mark_law, shape_law, specification_tree_law,
};
pub use types::{
    equality_law, export_law, export_uses_law, interface_law, measure_law, message_law,
    nearest_law, type_report_law, type_scope_law, typed_tree_law, wrapping_law,
};
pub use uses::{
    abbreviation_law, call_law, distinct_law, element_read_law, function_law, grade_law,
    parallel_law, process_use_law, use_report_law, use_scope_law,
};
