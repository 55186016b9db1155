//! The three rules U1, U2 and U3: which kinds of use exclude each other, and which overlap counts. `docs/LANGUAGE.md, The
//! parallel rule`.
ghost use Rattle.std.specs.Option.{option_copied};
ghost use Rattle.std.specs.Prelude.{◌≡◌, IfOk};
ghost use Rattle.occ_usage_conflicts.specs.ParallelRule.{code_of, conflict as spec_conflict, counts as spec_counts, root_name as spec_root_name};

use occ_base::{Code, Name};
use occ_types::UseKind;
use occ_usage_parts::Overlap;
use occ_usage_values::Bound;
use std::alloc::{AllocError, Global};

/// What two components may not do with one part.
#[derive(Clone, Copy)]
pub enum Rule {
    /// One writes what the other reads or writes.
    Written,
    /// Both input.
    Input,
    /// Both output.
    Output,
}

/// From which overlap on two parts count as one.
#[derive(Clone, Copy)]
pub enum Least {
    May,
    Must,
}

/// The code of a fault.
pub(crate) fn code(rule: Rule) -> Code
    ensures { result ≡ code_of rule }
{
    match rule {
        Rule::Written => Code::U1,
        Rule::Input => Code::U2,
        Rule::Output => Code::U3,
    }
}

/// Whether uses of these kinds may not be of one part.
pub(crate) fn conflict(rule: Rule, a: UseKind, b: UseKind) -> bool
    ensures { result ≡ spec_conflict rule a b }
{
    match (rule, a, b) {
        (Rule::Written, UseKind::Write, UseKind::Write) => true,
        (Rule::Written, UseKind::Write, UseKind::Read) => true,
        (Rule::Written, UseKind::Read, UseKind::Write) => true,
        (Rule::Input, UseKind::Input, UseKind::Input) => true,
        (Rule::Output, UseKind::Output, UseKind::Output) => true,
        _ => false,
    }
}

/// Whether parts with this overlap count as one.
pub(crate) fn counts(least: Least, found: Overlap) -> bool
    ensures { result ≡ spec_counts least found }
{
    match least {
        Least::May => found != Overlap::Apart,
        Least::Must => found == Overlap::Must,
    }
}

/// The name of a root, where one stands in scope with this number.
pub fn name_of_root(env: &[Bound], root: usize) -> Option<&Name>
    ensures { option_copied result ≡ spec_root_name env.now root }
{
    match env.get(root) {
        Some(Bound::Root(name)) => Some(name),
        _ => None,
    }
}

/// A copy of the name of a root, where one stands in scope with this number.
pub fn root_name(alloc: Global, env: &[Bound], root: usize) -> Result<Option<Name>, AllocError>
    ensures { IfOk result (λ name. name ≡ spec_root_name env.now root) }
{
    match name_of_root(env, root) {
        Some(name) => Ok(Some(name.copied(alloc)?)),
        None => Ok(None),
    }
}
