//! Whether an operand or one of several has a fault.
#![tactic(auto, using(crate::proofs::Judging::judging_rules))]

ghost use Rattle.std.specs.Prelude.{◌≡◌};
ghost use Rattle.std.specs.List.{list_any};
ghost use Rattle.occ_typing_tables.specs.Terms.{has_fault as spec_has_fault, judged, judged_all};

use super::term::Term;
use occ_typing_operands::needs_faulty;

/// Whether something in an operand is faulty.
#[cycle(faulty)]
#[inline(always)]
pub fn has_fault(term: &Term) -> bool
    ensures { result ≡ spec_has_fault (judged term.now) }
{
    match term {
        Term::Single(kind) => needs_faulty(kind),
        Term::Table(items) => any_has_fault(items.as_slice()),
    }
}

/// Whether something in one of the items is faulty.
#[cycle(faulty)]
pub fn any_has_fault(items: &[Term]) -> bool
    ensures { result ≡ list_any spec_has_fault (judged_all items.now) }
{
    for item in items {
        if has_fault(item) {
            return true;
        }
    }
    false
}
