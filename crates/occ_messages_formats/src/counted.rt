//! How many diagnostics there are, in how many units.
use std::alloc::{AllocError, Global};

/// How many there are.
#[derive(Clone, Copy, Debug, Default)]
pub struct Tally {
    /// Diagnostics of the grade error.
    pub errors: usize,
    /// Those of the grade check.
    pub checks: usize,
    /// Units of which one is told.
    pub told: usize,
    /// All units that were checked.
    pub units: usize,
}

/// `3 errors, 1 check in 2 of 14 units`.
pub fn count_line(alloc: Global, tally: Tally) -> Result<String, AllocError> {
    let Tally {
        errors,
        checks,
        told,
        units,
    } = tally;
    let error = plural(errors, "error", "errors");
    let check = plural(checks, "check", "checks");
    let unit = plural(units, "unit", "units");
    match (errors, checks) {
        (0, 0) => format!(in alloc; "no errors in {units} {unit}\n"),
        (_, 0) => format!(in alloc; "{errors} {error} in {told} of {units} {unit}\n"),
        (0, _) => format!(in alloc; "{checks} {check} in {told} of {units} {unit}\n"),
        _ => format!(in alloc; "{errors} {error}, {checks} {check} in {told} of {units} {unit}\n"),
    }
}

/// The word for so many.
fn plural(number: usize, one: &'static str, many: &'static str) -> &'static str {
    if number == 1 { one } else { many }
}
