//! Operands where a fault hides what is wanted of them: free ones are silent, the items of a table still agree.
#![tactic(auto, using(crate::proofs::Judging::judging_rules))]

ghost use Rattle.std.specs.Prelude.{◌≡◌, ◌++◌, IfOk, OnOk, map};
ghost use Rattle.occ_typing_operands.specs.Operators.{all_faults, kinds as spec_kinds};
ghost use Rattle.occ_typing_tables.specs.Terms.{all_hidden as spec_all_hidden, first_untyped as spec_first_untyped, first_known as spec_first_known, hidden as spec_hidden, hidden_faults, hidden_type as spec_hidden_type, judged, judged_all};

use super::table::{any_faulty, merged_all, table_type};
use super::term::Term;
use occ_base::{Fault, Items, Shared};
use occ_types::OccType;
use occ_typing_operands::{Kind, known};
use std::alloc::{AllocError, Global};

/// The type of the first item that has one.
fn first_known(kinds: &[Kind]) -> Result<Option<Shared<OccType>>, AllocError>
    ensures { IfOk result (λ found. found ≡ spec_first_known kinds.now) }
{
    for kind in kinds {
        if let Kind::Known(found) = kind {
            return Ok(Some(found.of.share()?));
        }
    }
    Ok(None)
}

/// The first item that is free.
fn first_untyped(kinds: &[Kind]) -> Result<Kind, AllocError>
    ensures { IfOk result (λ found. found ≡ spec_first_untyped kinds.now) }
{
    for kind in kinds {
        if let Kind::Untyped(untyped) = kind {
            return Ok(Kind::Untyped(untyped.share()?));
        }
    }
    Ok(Kind::Faulty)
}

/// What is known of a table of these items, none of which is faulty, where it is hidden what is wanted of it.
fn hidden_type(alloc: Global, kinds: &[Kind], faults: &mut Items<Fault>) -> Result<Kind, AllocError>
    ensures kind { IfOk result (λ kind. kind ≡ (spec_hidden_type kinds.now (spec_first_known kinds.now)).kind) }
    ensures faults { OnOk result (faults.new ≡ faults.old ++ (spec_hidden_type kinds.now (spec_first_known kinds.now)).faults) }
{
    match first_known(kinds)? {
        None => first_untyped(kinds),
        Some(of) => {
            let of = merged_all(alloc, &of, kinds)?;
            table_type(alloc, kinds.len(), of, faults)
        }
    }
}

/// An operand where a fault hides what is wanted of it: what is free may be of any type, and the other items of a table
/// agree with one another all the same.
#[cycle(hide)]
pub fn hidden(alloc: Global, term: &Term, faults: &mut Items<Fault>) -> Result<Kind, AllocError>
    ensures kind { IfOk result (λ kind. kind ≡ (spec_hidden (judged term.now)).kind) }
    ensures faults { OnOk result (faults.new ≡ faults.old ++ (spec_hidden (judged term.now)).faults) }
{
    match term {
        Term::Single(kind) => kind.share(),
        Term::Table(items) => table_hidden(alloc, items.as_slice(), faults),
    }
}

/// Each operand, where a fault hides what is wanted of them.
#[cycle(hide)]
fn each_hidden(
    alloc: Global,
    terms: &[Term],
    faults: &mut Items<Fault>,
) -> Result<Items<Kind>, AllocError>
    ensures kinds { IfOk result (λ kinds. kinds ≡ spec_kinds (map spec_hidden (judged_all terms.now))) }
    ensures faults { OnOk result (faults.new ≡ faults.old ++ hidden_faults (judged_all terms.now)) }
{
    let mut kinds = Items::new(alloc);
    for term in terms {
        let kind = hidden(alloc, term, faults)?;
        kinds.push(kind)?;
    }
    Ok(kinds)
}

/// A table where a fault hides what is wanted of it.
#[cycle(hide)]
pub(super) fn table_hidden(
    alloc: Global,
    items: &[Term],
    faults: &mut Items<Fault>,
) -> Result<Kind, AllocError>
    ensures kind { IfOk result (λ kind. kind ≡ (spec_all_hidden (map spec_hidden (judged_all items.now))).kind) }
    ensures faults { OnOk result (faults.new ≡ faults.old ++ (spec_all_hidden (map spec_hidden (judged_all items.now))).faults) }
{
    let kinds = each_hidden(alloc, items, faults)?;
    if any_faulty(kinds.as_slice()) {
        return Ok(Kind::Faulty);
    }
    hidden_type(alloc, kinds.as_slice(), faults)
}

/// What is reported of operands where a fault hides what is wanted of them.
pub fn report_hidden(
    alloc: Global,
    terms: &[Term],
    faults: &mut Items<Fault>,
) -> Result<(), AllocError>
    ensures { OnOk result (faults.new ≡ faults.old ++ hidden_faults (judged_all terms.now)) }
{
    each_hidden(alloc, terms, faults)?;
    Ok(())
}
