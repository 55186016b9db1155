//! Tables: the one type of their items, item by item under a wanted type or alone. Each item is settled once, so deep
//! tables are cheap.
#![tactic(auto, using(crate::proofs::Judging::judging_rules))]

ghost use Rattle.std.specs.Prelude.{◌≡◌, ◌++◌, ◌∷◌, [], false, IfOk, IsTrue, OnOk, Some, map, true};
ghost use Rattle.std.specs.List.{list_any};
ghost use Rattle.occ_typing_operands.specs.Settling.{int as spec_int, settled as spec_settled};
ghost use Rattle.occ_typing_operands.specs.Operators.{all_faults, is_faulty as spec_is_faulty, kinds as spec_kinds};
ghost use Rattle.occ_typing_tables.specs.Terms.{after_first as spec_after_first, all_settled as spec_all_settled, all_under as spec_all_under, alone as spec_alone, each_own_or_alone as spec_each_own_or_alone, each_under as spec_each_under, first_settled as spec_first_settled, fitted_or_alone as spec_fitted_or_alone, fitted_to as spec_fitted_to, is_faulty_settled, others_faults, own_or_alone as spec_own_or_alone, stands as spec_stands, settled_itself as spec_settled_itself, settled_so, settled_under as spec_settled_under, first_type as spec_first_type, items_type as spec_items_type, judged, judged_all, merged_all as spec_merged_all, merged_next as spec_merged_next, so_many as spec_so_many, table_alone as spec_table_alone, table_settled as spec_table_settled, table_type as spec_table_type, table_under as spec_table_under, under as spec_under, unless_faulty};
ghost use Rattle.occ_typing_tables.specs.declared.term.Term.TheVariants as t;
ghost use Rattle.occ_typing_tables.specs.inside.Own.{IfKnown, IsArrayOf, IsOwn, IsOwnFirst, IsOwnTable, as_it_stands as spec_as_it_stands};

use super::counted::is_counted;
use super::extent::arrayed;
use super::merge::merged;
use super::placing::any_has_fault;
use super::term::Term;
use occ_base::{Code, Fault, Items, Name, Shared, report};
use occ_types::{OccType, array_of, is_data, same_type};
use occ_typing_operands::{Kind, Known, fitted, int, is_faulty, known, known_as, settled, wanted};
use std::alloc::{AllocError, Global};

/// The one type of the items so far, with one item more.
fn merged_next(
    alloc: Global,
    of: Option<Shared<OccType>>,
    kind: &Kind,
) -> Result<Option<Shared<OccType>>, AllocError>
    ensures { IfOk result (λ found. found ≡ spec_merged_next of kind.now) }
{
    match (of, kind) {
        (Some(of), Kind::Known(found)) => merged(alloc, &of, &found.of),
        (of, _) => Ok(of),
    }
}

/// The one type of the items and of the one that was wanted of them, if they agree.
pub(super) fn merged_all(
    alloc: Global,
    of: &Shared<OccType>,
    kinds: &[Kind],
) -> Result<Option<Shared<OccType>>, AllocError>
    ensures { IfOk result (λ found. found ≡ spec_merged_all (Some of.now) kinds.now) }
{
    let mut found = Some(of.share()?);
    for kind in kinds {
        found = merged_next(alloc, found, kind)?;
    }
    Ok(found)
}

/// A table of so many items of this type.
fn so_many(
    alloc: Global,
    count: usize,
    of: &Shared<OccType>,
    faults: &mut Items<Fault>,
) -> Result<Kind, AllocError>
    ensures kind { IfOk result (λ kind. kind ≡ (spec_so_many count of.now).kind) }
    ensures faults { OnOk result (faults.new ≡ faults.old ++ (spec_so_many count of.now).faults) }
{
    let Ok(count) = u32::try_from(count) else {
        report(faults, Code::T9)?;
        return Ok(Kind::Faulty);
    };
    arrayed(alloc, Some(count), of, faults)
}

/// A table of so many items of one type, if they have one and it is one of data.
pub fn table_type(
    alloc: Global,
    count: usize,
    of: Option<Shared<OccType>>,
    faults: &mut Items<Fault>,
) -> Result<Kind, AllocError>
    ensures kind { IfOk result (λ kind. kind ≡ (spec_table_type count of).kind) }
    ensures faults { OnOk result (faults.new ≡ faults.old ++ (spec_table_type count of).faults) }
{
    let Some(of) = of else {
        report(faults, Code::T2)?;
        return Ok(Kind::Faulty);
    };
    if !is_data(of.get()) {
        report(faults, Code::T2)?;
        return Ok(Kind::Faulty);
    }
    so_many(alloc, count, &of, faults)
}

/// The type of the first item; this one, if there is none.
fn first_type<'a>(of: &'a Shared<OccType>, kinds: &'a [Kind]) -> &'a Shared<OccType>
    ensures { result.now ≡ spec_first_type of.now kinds.now }
{
    for kind in kinds {
        if let Kind::Known(found) = kind {
            return &found.of;
        }
    }
    of
}

/// A table of settled items, of which this type was wanted.
fn items_type(
    alloc: Global,
    of: &Shared<OccType>,
    kinds: &[Kind],
    faults: &mut Items<Fault>,
) -> Result<Kind, AllocError>
    ensures kind { IfOk result (λ kind. kind ≡ (spec_items_type of.now kinds.now).kind) }
    ensures faults { OnOk result (faults.new ≡ faults.old ++ (spec_items_type of.now kinds.now).faults) }
{
    let of = merged_all(alloc, first_type(of, kinds), kinds)?;
    table_type(alloc, kinds.len(), of, faults)
}

/// Whether one of the items is faulty.
pub fn any_faulty(kinds: &[Kind]) -> bool
    ensures { result ≡ list_any spec_is_faulty kinds.now }
{
    for kind in kinds {
        if let Kind::Faulty = kind {
            return true;
        }
    }
    false
}

/// An operand of which a type is wanted, before it is compared with it: what it reports, what is then known of it, and whether
/// something in it is faulty, not for being of another type than the one that is wanted.
#[derive(Drop)]
pub struct Settled {
    faults: Items<Fault>,
    kind: Kind,
    is_faulty: bool,
}

/// What is faulty itself, if it is.
fn settled_itself(faults: Items<Fault>, kind: Kind) -> Settled
    ensures { result ≡ spec_settled_itself (record { faults = faults; kind = kind }) }
{
    let is_faulty = is_faulty(&kind);
    Settled {
        faults,
        kind,
        is_faulty,
    }
}

/// A table of so many faultless items of this type.
fn many_settled(alloc: Global, count: usize, of: &Shared<OccType>) -> Result<Settled, AllocError>
    ensures { IfOk result (λ found. found ≡ settled_so (spec_so_many count of.now) false) }
{
    let mut faults = Items::new(alloc);
    let kind = so_many(alloc, count, of, &mut faults)?;
    Ok(Settled {
        faults,
        kind,
        is_faulty: false,
    })
}

/// Whether something in one of them is faulty.
fn any_settled_faulty(settled: &[Settled]) -> bool
    ensures { result ≡ list_any is_faulty_settled settled.now }
{
    settled.iter().any(|one| one.is_faulty)
}

/// The name of a fault.
fn name_of(alloc: Global, fault: &Fault) -> Result<Option<Name>, AllocError>
    ensures { IfOk result (λ name. name ≡ fault.now.name) }
{
    match &fault.name {
        None => Ok(None),
        Some(name) => Ok(Some(name.copied(alloc)?)),
    }
}

/// These faults are reported.
fn report_again(
    alloc: Global,
    reported: &[Fault],
    faults: &mut Items<Fault>,
) -> Result<(), AllocError>
    ensures { OnOk result (faults.new ≡ faults.old ++ reported.now) }
{
    for fault in reported {
        let name = name_of(alloc, fault)?;
        faults.push(Fault {
            code: fault.code,
            name,
        })?;
    }
    Ok(())
}

/// Settled operands, each of which must be of this type.
fn each_fitted(
    alloc: Global,
    settled: &[Settled],
    of: &Shared<OccType>,
    faults: &mut Items<Fault>,
) -> Result<Items<Kind>, AllocError>
    ensures kinds { IfOk result (λ kinds. kinds ≡ spec_kinds (map (spec_fitted_to of.now) settled.now)) }
    ensures faults { OnOk result (faults.new ≡ faults.old ++ all_faults (map (spec_fitted_to of.now) settled.now)) }
{
    let mut kinds = Items::new(alloc);
    for one in settled {
        report_again(alloc, one.faults.as_slice(), faults)?;
        let kind = fitted(of, &one.kind, faults)?;
        kinds.push(kind)?;
    }
    Ok(kinds)
}

/// What is known of a table whose items were judged so, where this type is wanted of them.
fn joined(
    alloc: Global,
    kinds: &[Kind],
    of: &Shared<OccType>,
    faults: &mut Items<Fault>,
) -> Result<Kind, AllocError>
    ensures kind { IfOk result (λ kind. kind ≡ (unless_faulty kinds.now (spec_items_type of.now kinds.now)).kind) }
    ensures faults { OnOk result (faults.new ≡ faults.old ++ (unless_faulty kinds.now (spec_items_type of.now kinds.now)).faults) }
{
    if any_faulty(kinds) {
        return Ok(Kind::Faulty);
    }
    items_type(alloc, of, kinds, faults)
}

/// An operand that is no table, of which a type is wanted, before it is compared with it.
fn single_settled(alloc: Global, kind: &Kind, of: &Shared<OccType>) -> Result<Settled, AllocError>
    ensures { IfOk result (λ found. found ≡ spec_settled_itself (spec_settled of.now kind.now)) }
{
    let mut faults = Items::new(alloc);
    let kind = settled(alloc, of, kind, &mut faults)?;
    Ok(settled_itself(faults, kind))
}

/// Whether an operand is free.
fn is_untyped(term: &Term) -> bool
    ensures { result ≡ (judged term.now).is_untyped }
{
    matches!(term, Term::Single(Kind::Untyped(_)))
}

/// What is known of an operand of which no type is wanted, and whether it is settled to the same where that is wanted of it.
#[derive(Drop)]
struct OwnKind {
    kind: Kind,
    is_own: bool,
}

/// An operand that is no table, of which no type is wanted. INT takes memory, so it is made where one is free alone.
fn single_alone(
    alloc: Global,
    kind: &Kind,
    faults: &mut Items<Fault>,
) -> Result<OwnKind, AllocError>
    ensures kind { IfOk result (λ alone. alone.kind ≡ (spec_settled spec_int kind.now).kind) }
    ensures own { IfOk result (λ alone. IsTrue alone.is_own → IfKnown (λ v. IsOwn v (judged (t.Single kind.now))) alone.kind) }
    ensures faults { OnOk result (faults.new ≡ faults.old ++ (spec_settled spec_int kind.now).faults) }
{
    match kind {
        Kind::Faulty => Ok(OwnKind {
            kind: Kind::Faulty,
            is_own: false,
        }),
        Kind::Untyped(_) => Ok(OwnKind {
            kind: settled(alloc, &int(alloc)?, kind, faults)?,
            is_own: false,
        }),
        Kind::Known(found) => Ok(OwnKind {
            kind: known_as(&found.of, found.value)?,
            is_own: true,
        }),
    }
}

/// An operand of which no type is wanted, and whether it is settled to the same under its own.
#[cycle(judge)]
fn judged_alone(
    alloc: Global,
    term: &Term,
    faults: &mut Items<Fault>,
) -> Result<OwnKind, AllocError>
    ensures kind { IfOk result (λ alone. alone.kind ≡ (spec_alone (judged term.now)).kind) }
    ensures own { IfOk result (λ alone. IsTrue alone.is_own → IfKnown (λ v. IsOwn v (judged term.now)) alone.kind) }
    ensures faults { OnOk result (faults.new ≡ faults.old ++ (spec_alone (judged term.now)).faults) }
{
    match term {
        Term::Single(kind) => single_alone(alloc, kind, faults),
        Term::Table(items) => table_judged(alloc, items.as_slice(), faults),
    }
}

/// An operand of which no type is wanted.
#[cycle(judge)]
pub fn alone(alloc: Global, term: &Term, faults: &mut Items<Fault>) -> Result<Kind, AllocError>
    ensures kind { IfOk result (λ kind. kind ≡ (spec_alone (judged term.now)).kind) }
    ensures faults { OnOk result (faults.new ≡ faults.old ++ (spec_alone (judged term.now)).faults) }
{
    let OwnKind { kind, .. } = judged_alone(alloc, term, faults)?;
    Ok(kind)
}

/// An operand of which a type is wanted.
pub fn under(
    alloc: Global,
    term: &Term,
    of: &Shared<OccType>,
    faults: &mut Items<Fault>,
) -> Result<Kind, AllocError>
    ensures kind { IfOk result (λ kind. kind ≡ (spec_under of.now (judged term.now)).kind) }
    ensures faults { OnOk result (faults.new ≡ faults.old ++ (spec_under of.now (judged term.now)).faults) }
{
    match term {
        Term::Single(kind) => wanted(alloc, of, kind, faults),
        Term::Table(items) => table_under(alloc, items.as_slice(), of, faults),
    }
}

/// An operand of which a type is wanted, before it is compared with it.
#[cycle(judge)]
fn settled_under(alloc: Global, term: &Term, of: &Shared<OccType>) -> Result<Settled, AllocError>
    ensures { IfOk result (λ found. found ≡ spec_settled_under of.now (judged term.now)) }
{
    match term {
        Term::Single(kind) => single_settled(alloc, kind, of),
        Term::Table(items) => table_settled(alloc, items.as_slice(), of),
    }
}

/// Each operand, of which this type is wanted, before it is compared with it.
#[cycle(judge)]
fn each_settled(
    alloc: Global,
    terms: &[Term],
    of: &Shared<OccType>,
) -> Result<Items<Settled>, AllocError>
    ensures { IfOk result (λ found. found ≡ map (spec_settled_under of.now) (judged_all terms.now)) }
{
    let mut found = Items::new(alloc);
    for term in terms {
        let settled = settled_under(alloc, term, of)?;
        found.push(settled)?;
    }
    Ok(found)
}

/// What is known, as it is, without a fault.
fn as_it_stands(alloc: Global, known: &Known) -> Result<Settled, AllocError>
    ensures { IfOk result (λ settled. settled ≡ spec_as_it_stands known.now) }
{
    let kind = known_as(&known.of, known.value)?;
    Ok(settled_itself(Items::new(alloc), kind))
}

/// The same, where the type is that of the first operand alone, which is settled to the same under it.
#[cycle(judge)]
fn each_settled_after(
    alloc: Global,
    terms: &[Term],
    first: &Known,
) -> Result<Items<Settled>, AllocError>
    requires { IsOwnFirst first.now (judged_all terms.now) }
    ensures { IfOk result (λ found. found ≡ map (spec_settled_under first.now.of) (judged_all terms.now)) }
{
    let mut found = Items::new(alloc);
    for term in terms {
        let settled = if found.is_empty() {
            as_it_stands(alloc, first)?
        } else {
            settled_under(alloc, term, &first.of)?
        };
        found.push(settled)?;
    }
    Ok(found)
}

/// Whether an operand stands as it was settled, beside a faulty one. What is free does where the type was wanted from
/// outside. Else what has its fault by that type does, where none has a fault of its own.
fn stands(from_outside: bool, has_own: bool, settled: &Settled, term: &Term) -> bool
    ensures { result ≡ spec_stands from_outside has_own settled.now (judged term.now) }
{
    if from_outside {
        return settled.is_faulty || is_untyped(term);
    }
    settled.is_faulty && !has_own
}

/// An operand beside a faulty one, which was settled so.
#[cycle(judge)]
fn own_or_alone(
    alloc: Global,
    from_outside: bool,
    has_own: bool,
    settled: &Settled,
    term: &Term,
    faults: &mut Items<Fault>,
) -> Result<Kind, AllocError>
    ensures kind { IfOk result (λ kind. kind ≡ (spec_own_or_alone from_outside has_own settled.now (judged term.now)).kind) }
    ensures faults { OnOk result (faults.new ≡ faults.old ++ (spec_own_or_alone from_outside has_own settled.now (judged term.now)).faults) }
{
    if stands(from_outside, has_own, settled, term) {
        report_again(alloc, settled.faults.as_slice(), faults)?;
        Ok(Kind::Faulty)
    } else {
        alone(alloc, term, faults)
    }
}

/// Operands, of which one is faulty, and perhaps one by itself: its own fault, and the others alone.
#[cycle(judge)]
fn each_own_or_alone(
    alloc: Global,
    from_outside: bool,
    has_own: bool,
    settled: &[Settled],
    terms: &[Term],
    faults: &mut Items<Fault>,
) -> Result<Items<Kind>, AllocError>
    ensures kinds { IfOk result (λ kinds. kinds ≡ spec_kinds (spec_each_own_or_alone from_outside has_own settled.now (judged_all terms.now))) }
    ensures faults { OnOk result (faults.new ≡ faults.old ++ all_faults (spec_each_own_or_alone from_outside has_own settled.now (judged_all terms.now))) }
{
    let mut kinds = Items::new(alloc);
    let mut settled = settled;
    for term in terms {
        let Some((one, rest)) = settled.split_first() else {
            return Ok(kinds);
        };
        let kind = own_or_alone(alloc, from_outside, has_own, one, term, faults)?;
        kinds.push(kind)?;
        settled = rest;
    }
    Ok(kinds)
}

/// Operands that were settled so under this type, as far as none is faulty.
#[cycle(judge)]
fn fitted_or_alone(
    alloc: Global,
    from_outside: bool,
    settled: &[Settled],
    terms: &[Term],
    of: &Shared<OccType>,
    faults: &mut Items<Fault>,
) -> Result<Items<Kind>, AllocError>
    ensures kinds { IfOk result (λ kinds. kinds ≡ spec_kinds (spec_fitted_or_alone from_outside of.now settled.now (judged_all terms.now))) }
    ensures faults { OnOk result (faults.new ≡ faults.old ++ all_faults (spec_fitted_or_alone from_outside of.now settled.now (judged_all terms.now))) }
{
    if any_settled_faulty(settled) {
        let has_own = any_has_fault(terms);
        return each_own_or_alone(alloc, from_outside, has_own, settled, terms, faults);
    }
    each_fitted(alloc, settled, of, faults)
}

/// Each operand, of which this type is wanted from outside, as far as none is faulty.
pub fn each_under(
    alloc: Global,
    terms: &[Term],
    of: &Shared<OccType>,
    faults: &mut Items<Fault>,
) -> Result<Items<Kind>, AllocError>
    ensures kinds { IfOk result (λ kinds. kinds ≡ spec_kinds (spec_each_under true of.now (judged_all terms.now))) }
    ensures faults { OnOk result (faults.new ≡ faults.old ++ all_faults (spec_each_under true of.now (judged_all terms.now))) }
{
    let settled = each_settled(alloc, terms, of)?;
    fitted_or_alone(alloc, true, settled.as_slice(), terms, of, faults)
}

/// Each operand, of which no type is wanted.
pub fn each_alone(
    alloc: Global,
    terms: &[Term],
    faults: &mut Items<Fault>,
) -> Result<Items<Kind>, AllocError>
    ensures kinds { IfOk result (λ kinds. kinds ≡ spec_kinds (map spec_alone (judged_all terms.now))) }
    ensures faults { OnOk result (faults.new ≡ faults.old ++ all_faults (map spec_alone (judged_all terms.now))) }
{
    let mut kinds = Items::new(alloc);
    for term in terms {
        let kind = alone(alloc, term, faults)?;
        kinds.push(kind)?;
    }
    Ok(kinds)
}

/// A table of items that were settled so under this type, which is not yet compared with what is wanted of it.
#[cycle(judge)]
fn whole_settled(
    alloc: Global,
    from_outside: bool,
    items: &[Term],
    settled: &[Settled],
    of: &Shared<OccType>,
) -> Result<Settled, AllocError>
    requires { settled.now ≡ map (spec_settled_under of.now) (judged_all items.now) }
    ensures { IfOk result (λ found. found ≡ spec_all_settled from_outside of.now (judged_all items.now)) }
{
    let is_faulty = any_settled_faulty(settled);
    let mut faults = Items::new(alloc);
    let kinds = fitted_or_alone(alloc, from_outside, settled, items, of, &mut faults)?;
    let kind = joined(alloc, kinds.as_slice(), of, &mut faults)?;
    Ok(Settled {
        faults,
        kind,
        is_faulty,
    })
}

/// A table, where the type of its items is wanted, from outside or by one of them. It is not yet compared with what is
/// wanted of it.
#[cycle(judge)]
fn all_settled(
    alloc: Global,
    from_outside: bool,
    items: &[Term],
    of: &Shared<OccType>,
) -> Result<Settled, AllocError>
    ensures { IfOk result (λ found. found ≡ spec_all_settled from_outside of.now (judged_all items.now)) }
{
    if is_counted(items, of.get()) {
        return many_settled(alloc, items.len(), of);
    }
    let settled = each_settled(alloc, items, of)?;
    whole_settled(alloc, from_outside, items, settled.as_slice(), of)
}

/// A table whose items take the type of the first that is not free. Where that is the first of all, and is settled to the same
/// under its own type, it is not judged again.
#[cycle(judge)]
fn settled_by(
    alloc: Global,
    items: &[Term],
    first: &Known,
    is_own: bool,
) -> Result<Settled, AllocError>
    requires { IsTrue is_own → IsOwnFirst first.now (judged_all items.now) }
    ensures { IfOk result (λ found. found ≡ spec_all_settled false first.now.of (judged_all items.now)) }
{
    if !is_own {
        return all_settled(alloc, false, items, &first.of);
    }
    let settled = each_settled_after(alloc, items, first)?;
    whole_settled(alloc, false, items, settled.as_slice(), &first.of)
}

/// Whether what is known of a table is an array of this type.
fn is_array_of(kind: &Kind, of: &OccType) -> bool
    ensures { IsTrue result → IfKnown (IsArrayOf of.now) kind.now }
{
    let Kind::Known(found) = kind else {
        return false;
    };
    match array_of(found.of.get()) {
        Some((_, component)) => same_type(component.get(), of),
        None => false,
    }
}

/// A table, where the type of its items is wanted by the first that is not free. A faultless array of that type is settled to
/// the same under its own.
#[cycle(judge)]
fn all_under(
    alloc: Global,
    items: &[Term],
    first: &Known,
    is_own: bool,
    faults: &mut Items<Fault>,
) -> Result<OwnKind, AllocError>
    requires { IsTrue is_own → IsOwnFirst first.now (judged_all items.now) }
    ensures kind { IfOk result (λ alone. alone.kind ≡ (spec_all_under false first.now.of (judged_all items.now)).kind) }
    ensures own { IfOk result (λ alone. IsTrue alone.is_own → IfKnown (IsOwnTable (judged_all items.now)) alone.kind) }
    ensures faults { OnOk result (faults.new ≡ faults.old ++ (spec_all_under false first.now.of (judged_all items.now)).faults) }
{
    let Settled {
        faults: reported,
        kind,
        is_faulty,
    } = settled_by(alloc, items, first, is_own)?;
    report_again(alloc, reported.as_slice(), faults)?;
    let is_own = !is_faulty && reported.is_empty() && is_array_of(&kind, first.of.get());
    Ok(OwnKind { kind, is_own })
}

/// The first item that is not free; if all are, an INT.
#[cycle(judge)]
fn first_settled(
    alloc: Global,
    items: &[Term],
    faults: &mut Items<Fault>,
) -> Result<Kind, AllocError>
    ensures kind { IfOk result (λ kind. kind ≡ (spec_first_settled (judged_all items.now)).kind) }
    ensures faults { OnOk result (faults.new ≡ faults.old ++ (spec_first_settled (judged_all items.now)).faults) }
{
    for item in items {
        if !is_untyped(item) {
            return alone(alloc, item, faults);
        }
    }
    known(&int(alloc)?, None)
}

/// The same, and whether it is the first of all and is settled to the same under its own type.
#[cycle(judge)]
fn first_judged(
    alloc: Global,
    items: &[Term],
    faults: &mut Items<Fault>,
) -> Result<OwnKind, AllocError>
    ensures kind { IfOk result (λ alone. alone.kind ≡ (spec_first_settled (judged_all items.now)).kind) }
    ensures own { IfOk result (λ alone. IsTrue alone.is_own → IfKnown (λ v. IsOwnFirst v (judged_all items.now)) alone.kind) }
    ensures faults { OnOk result (faults.new ≡ faults.old ++ (spec_first_settled (judged_all items.now)).faults) }
{
    match items.first() {
        Some(first) if !is_untyped(first) => judged_alone(alloc, first, faults),
        _ => Ok(OwnKind {
            kind: first_settled(alloc, items, faults)?,
            is_own: false,
        }),
    }
}

/// What is reported of all but the first item that is not free, each by itself.
#[cycle(judge)]
fn report_others(alloc: Global, items: &[Term], faults: &mut Items<Fault>) -> Result<(), AllocError>
    ensures { OnOk result (faults.new ≡ faults.old ++ others_faults (judged_all items.now)) }
{
    let mut is_after = false;
    for item in items {
        if is_after || is_untyped(item) {
            alone(alloc, item, faults)?;
        } else {
            is_after = true;
        }
    }
    Ok(())
}

/// A table whose items take the type of this one, if it is not faulty.
#[cycle(judge)]
fn after_first(
    alloc: Global,
    items: &[Term],
    first: &OwnKind,
    faults: &mut Items<Fault>,
) -> Result<OwnKind, AllocError>
    requires { IsTrue first.now.is_own → IfKnown (λ v. IsOwnFirst v (judged_all items.now)) first.now.kind }
    ensures kind { IfOk result (λ alone. alone.kind ≡ (spec_after_first (judged_all items.now) first.now.kind).kind) }
    ensures own { IfOk result (λ alone. IsTrue alone.is_own → IfKnown (IsOwnTable (judged_all items.now)) alone.kind) }
    ensures faults { OnOk result (faults.new ≡ faults.old ++ (spec_after_first (judged_all items.now) first.now.kind).faults) }
{
    match &first.kind {
        Kind::Known(found) => all_under(alloc, items, found, first.is_own, faults),
        Kind::Untyped(_) => Ok(OwnKind {
            kind: Kind::Faulty,
            is_own: false,
        }),
        Kind::Faulty => {
            report_others(alloc, items, faults)?;
            Ok(OwnKind {
                kind: Kind::Faulty,
                is_own: false,
            })
        }
    }
}

/// A table of which no type is wanted, and whether it is settled to the same under its own.
#[cycle(judge)]
fn table_judged(
    alloc: Global,
    items: &[Term],
    faults: &mut Items<Fault>,
) -> Result<OwnKind, AllocError>
    ensures kind { IfOk result (λ alone. alone.kind ≡ (spec_table_alone (judged_all items.now)).kind) }
    ensures own { IfOk result (λ alone. IsTrue alone.is_own → IfKnown (IsOwnTable (judged_all items.now)) alone.kind) }
    ensures faults { OnOk result (faults.new ≡ faults.old ++ (spec_table_alone (judged_all items.now)).faults) }
{
    let first = first_judged(alloc, items, faults)?;
    after_first(alloc, items, &first, faults)
}

/// A table of which no type is wanted.
#[cycle(judge)]
pub(super) fn table_alone(
    alloc: Global,
    items: &[Term],
    faults: &mut Items<Fault>,
) -> Result<Kind, AllocError>
    ensures kind { IfOk result (λ kind. kind ≡ (spec_table_alone (judged_all items.now)).kind) }
    ensures faults { OnOk result (faults.new ≡ faults.old ++ (spec_table_alone (judged_all items.now)).faults) }
{
    let OwnKind { kind, .. } = table_judged(alloc, items, faults)?;
    Ok(kind)
}

/// A table of which this type is wanted, before it is compared with it.
#[cycle(judge)]
fn table_settled(alloc: Global, items: &[Term], of: &Shared<OccType>) -> Result<Settled, AllocError>
    ensures { IfOk result (λ found. found ≡ spec_table_settled (judged_all items.now) of.now) }
{
    match array_of(of.get()) {
        Some((_, component)) => all_settled(alloc, true, items, component),
        None => {
            let mut faults = Items::new(alloc);
            let kind = table_alone(alloc, items, &mut faults)?;
            Ok(settled_itself(faults, kind))
        }
    }
}

/// A table of which this type is wanted.
fn table_under(
    alloc: Global,
    items: &[Term],
    of: &Shared<OccType>,
    faults: &mut Items<Fault>,
) -> Result<Kind, AllocError>
    ensures kind { IfOk result (λ kind. kind ≡ (spec_table_under (judged_all items.now) of.now).kind) }
    ensures faults { OnOk result (faults.new ≡ faults.old ++ (spec_table_under (judged_all items.now) of.now).faults) }
{
    let found = table_settled(alloc, items, of)?;
    report_again(alloc, found.faults.as_slice(), faults)?;
    fitted(of, &found.kind, faults)
}
