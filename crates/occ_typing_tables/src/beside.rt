//! Operands beside others of one operator: a table is judged alone, and says nothing beside a fault.
#![tactic(auto, using(crate::proofs::Judging::judging_rules))]

ghost use Rattle.std.specs.Prelude.{◌≡◌, ◌++◌, IfOk, OnOk};
ghost use Rattle.occ_typing_tables.specs.Terms.{judged, judged_all, table_alone as spec_table_alone};

use super::hiding::table_hidden;
use super::table::table_alone;
use super::term::Term;
use occ_base::{Fault, Items};
use occ_typing_operands::Kind;
use std::alloc::{AllocError, Global};

/// What is known of a table of which no type is wanted, without a word of its faults.
fn silent_table(alloc: Global, items: &[Term]) -> Result<Kind, AllocError>
    ensures { IfOk result (λ kind. kind ≡ (spec_table_alone (judged_all items.now)).kind) }
{
    let mut unheard = Items::new(alloc);
    table_alone(alloc, items, &mut unheard)
}

/// An operand beside others, of which perhaps one has a fault. No type is wanted of a table there, and a fault hides what
/// is.
#[inline(always)]
pub fn operand(
    alloc: Global,
    term: &Term,
    other_has_fault: bool,
    faults: &mut Items<Fault>,
) -> Result<Kind, AllocError>
    ensures kind { IfOk result (λ kind. kind ≡ ((judged term.now).beside other_has_fault).kind) }
    ensures faults { OnOk result (faults.new ≡ faults.old ++ ((judged term.now).beside other_has_fault).faults) }
{
    match term {
        Term::Single(kind) => kind.share(),
        Term::Table(items) if other_has_fault => {
            table_hidden(alloc, items.as_slice(), faults)?;
            silent_table(alloc, items.as_slice())
        }
        Term::Table(items) => table_alone(alloc, items.as_slice(), faults),
    }
}
