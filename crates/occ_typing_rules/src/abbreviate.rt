//! The value of a `VAL` form, with a written type or without one: T2 where it is no data. `docs/LANGUAGE.md, What lines
//! ask of operands`.
ghost use Rattle.std.specs.Prelude.{◌≡◌, ◌++◌, IfOk, OnOk};
ghost use Rattle.occ_typing_rules.specs.Abbreviating.{abbreviated as spec_abbreviated, abbreviated_as as spec_abbreviated_as, as_type as spec_as_type, for_no_data as spec_for_no_data, holding as spec_holding};
ghost use Rattle.occ_typing_tables.specs.Terms.{judged};

use occ_base::{Code, Fault, Items, Shared, report};
use occ_types::{OccType, is_data};
use occ_typing_operands::{Kind, known_as, mismatched};
use occ_typing_tables::{Term, alone, filled, under};
use std::alloc::{AllocError, Global};

/// A settled value, which has to be data.
fn holding(kind: Kind, faults: &mut Items<Fault>) -> Result<Kind, AllocError>
    ensures kind { IfOk result (λ holding. holding ≡ (spec_holding kind).kind) }
    ensures faults { OnOk result (faults.new ≡ faults.old ++ (spec_holding kind).faults) }
{
    match kind {
        Kind::Known(known) => {
            if is_data(known.of.get()) {
                return Ok(Kind::Known(known));
            }
            report(faults, Code::T2)?;
            Ok(Kind::Faulty)
        }
        _ => Ok(Kind::Faulty),
    }
}

/// What is known of the name of `VAL n IS e`.
pub fn abbreviated(
    alloc: Global,
    term: &Term,
    faults: &mut Items<Fault>,
) -> Result<Kind, AllocError>
    ensures kind { IfOk result (λ kind. kind ≡ (spec_abbreviated (judged term.now)).kind) }
    ensures faults { OnOk result (faults.new ≡ faults.old ++ (spec_abbreviated (judged term.now)).faults) }
{
    let kind = alone(alloc, term, faults)?;
    holding(kind, faults)
}

/// What is known of a name of this type, for a value of which it was wanted.
pub fn as_type(alloc: Global, of: &Shared<OccType>, kind: &Kind) -> Result<Kind, AllocError>
    ensures { IfOk result (λ named. named ≡ (spec_as_type of.now kind.now).kind) }
{
    match kind {
        Kind::Known(found) => known_as(&filled(alloc, of, found.of.get())?, found.value),
        _ => Ok(Kind::Faulty),
    }
}

/// A value for what is no data: its own fault is reported, and else T2.
pub(super) fn for_no_data(
    alloc: Global,
    term: &Term,
    faults: &mut Items<Fault>,
) -> Result<Kind, AllocError>
    ensures kind { IfOk result (λ kind. kind ≡ (spec_for_no_data (judged term.now)).kind) }
    ensures faults { OnOk result (faults.new ≡ faults.old ++ (spec_for_no_data (judged term.now)).faults) }
{
    let kind = alone(alloc, term, faults)?;
    mismatched(&kind, faults)
}

/// What is known of the name of `VAL t n IS e`.
pub fn abbreviated_as(
    alloc: Global,
    of: &Shared<OccType>,
    term: &Term,
    faults: &mut Items<Fault>,
) -> Result<Kind, AllocError>
    ensures kind { IfOk result (λ kind. kind ≡ (spec_abbreviated_as of.now (judged term.now)).kind) }
    ensures faults { OnOk result (faults.new ≡ faults.old ++ (spec_abbreviated_as of.now (judged term.now)).faults) }
{
    if is_data(of.get()) {
        let kind = under(alloc, term, of, faults)?;
        return as_type(alloc, of, &kind);
    }
    for_no_data(alloc, term, faults)
}
