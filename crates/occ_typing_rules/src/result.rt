//! Results of a FUNCTION against the types of its head, also of a faulty one, and types that have to be data.
#![tactic(auto, using(crate::proofs::Counting::judged_length))]

ghost use Rattle.std.specs.Prelude.{◌≡◌, ◌++◌, IfOk, OnOk};
ghost use Rattle.occ_typing_rules.specs.Resulting.{each_under as spec_each_under, hidden_results as spec_hidden_results, of_data as spec_of_data, results as spec_results};
ghost use Rattle.occ_typing_tables.specs.Terms.{judged_all};

use super::count::of_another_number;
use occ_base::{Code, Fault, Items, Shared, report};
use occ_types::{OccType, is_data};
use occ_typing_tables::{Term, each_alone, report_hidden, under};
use std::alloc::{AllocError, Global};

/// The type of a field or a result, if it is one of data: else T2 is reported.
pub fn of_data(
    of: Shared<OccType>,
    faults: &mut Items<Fault>,
) -> Result<Option<Shared<OccType>>, AllocError>
    ensures found { IfOk result (λ found. found ≡ (spec_of_data of).found) }
    ensures faults { OnOk result (faults.new ≡ faults.old ++ (spec_of_data of).faults) }
{
    if is_data(of.get()) {
        return Ok(Some(of));
    }
    report(faults, Code::T2)?;
    Ok(None)
}

/// As many results as types.
fn each_under(
    alloc: Global,
    types: &[Shared<OccType>],
    terms: &[Term],
    faults: &mut Items<Fault>,
) -> Result<(), AllocError>
    ensures { OnOk result (faults.new ≡ faults.old ++ spec_each_under types.now (judged_all terms.now)) }
{
    let mut terms = terms;
    for of in types {
        let Some((term, rest)) = terms.split_first() else {
            return Ok(());
        };
        under(alloc, term, of, faults)?;
        terms = rest;
    }
    Ok(())
}

/// The results of a FUNCTION with results of these types.
pub fn results(
    alloc: Global,
    types: &[Shared<OccType>],
    terms: &[Term],
    faults: &mut Items<Fault>,
) -> Result<(), AllocError>
    ensures { OnOk result (faults.new ≡ faults.old ++ spec_results types.now (judged_all terms.now)) }
{
    if types.len() == terms.len() {
        return each_under(alloc, types, terms, faults);
    }
    of_another_number(alloc, terms, false, faults)
}

/// The results of a FUNCTION with a fault in its head, which wants so many.
pub fn hidden_results(
    alloc: Global,
    count: usize,
    terms: &[Term],
    faults: &mut Items<Fault>,
) -> Result<(), AllocError>
    ensures { OnOk result (faults.new ≡ faults.old ++ spec_hidden_results count (judged_all terms.now)) }
{
    if count == terms.len() {
        return report_hidden(alloc, terms, faults);
    }
    each_alone(alloc, terms, faults)?;
    Ok(())
}
