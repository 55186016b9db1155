//! Tables, characters and strings with their type after them in parentheses. `docs/LANGUAGE.md, Tables and segments`.
#![tactic(auto, using(crate::proofs::Judging::counting_rules))]

ghost use Rattle.std.specs.Prelude.{◌≡◌, ◌++◌, IfOk, OnOk, Some};
ghost use Rattle.occ_typing_operands.specs.Operators.{all_faults, kinds as spec_kinds};
ghost use Rattle.occ_typing_tables.specs.Decorating.{decorated as spec_decorated, decorated_table as spec_decorated_table, field_value as spec_field_value, field_values as spec_field_values, misused as spec_misused, of_another_number as spec_of_another_number, of_array as spec_of_array, of_count as spec_of_count, of_fields as spec_of_fields, of_record as spec_of_record, of_values as spec_of_values};
ghost use Rattle.occ_typing_tables.specs.Terms.{judged, judged_all};
ghost use Rattle.occ_types.specs.Fits.{counts_fit, unnamed as spec_unnamed};
ghost use Rattle.occ_types.specs.View.{fields_in};

use super::hiding::hidden;
use super::table::{any_faulty, each_alone, each_under, table_alone, under};
use super::term::Term;
use occ_base::{Code, Fault, Items, Shared, report};
use occ_types::{Field, OccType, Value, alike, array_of, fields_of, is_unknown, unnamed};
use occ_typing_operands::{Kind, known, mismatched};
use std::alloc::{AllocError, Global};

/// A character or a string, which is of a type of its own, with this type after it.
pub fn decorated(
    to: &Shared<OccType>,
    own: &OccType,
    value: Option<Value>,
    faults: &mut Items<Fault>,
) -> Result<Kind, AllocError>
    ensures kind { IfOk result (λ kind. kind ≡ (spec_decorated to.now own.now value).kind) }
    ensures faults { OnOk result (faults.new ≡ faults.old ++ (spec_decorated to.now own.now value).faults) }
{
    if alike(to.get(), own) {
        return known(to, value);
    }
    report(faults, Code::T2)?;
    Ok(Kind::Faulty)
}

/// Whether there are so many items, if it is known how many there have to be.
fn is_counted(count: Option<u32>, items: usize) -> bool
    ensures { result ≡ counts_fit count (Some items) }
{
    match count {
        Some(count) => count as usize == items,
        None => true,
    }
}

/// A value of a type that is an array of so many components under its names, of so many items.
fn of_count(
    to: &Shared<OccType>,
    count: Option<u32>,
    items: usize,
    faults: &mut Items<Fault>,
) -> Result<Kind, AllocError>
    ensures kind { IfOk result (λ kind. kind ≡ (spec_of_count to.now count items).kind) }
    ensures faults { OnOk result (faults.new ≡ faults.old ++ (spec_of_count to.now count items).faults) }
{
    if is_counted(count, items) {
        return known(to, None);
    }
    report(faults, Code::T2)?;
    Ok(Kind::Faulty)
}

/// A table of a type that is an array under its names.
fn of_array(
    alloc: Global,
    items: &[Term],
    to: &Shared<OccType>,
    count: Option<u32>,
    of: &Shared<OccType>,
    faults: &mut Items<Fault>,
) -> Result<Kind, AllocError>
    ensures kind { IfOk result (λ kind. kind ≡ (spec_of_array to.now count of.now (judged_all items.now)).kind) }
    ensures faults { OnOk result (faults.new ≡ faults.old ++ (spec_of_array to.now count of.now (judged_all items.now)).faults) }
{
    let kinds = each_under(alloc, items, of, faults)?;
    if any_faulty(kinds.as_slice()) {
        return Ok(Kind::Faulty);
    }
    of_count(to, count, kinds.len(), faults)
}

/// The value of a field. Of a field whose line has a fault it is not known what it holds, and the table is faulty.
fn field_value(
    alloc: Global,
    field: &Field,
    item: &Term,
    faults: &mut Items<Fault>,
) -> Result<Kind, AllocError>
    ensures kind { IfOk result (λ kind. kind ≡ (spec_field_value field.now (judged item.now)).kind) }
    ensures faults { OnOk result (faults.new ≡ faults.old ++ (spec_field_value field.now (judged item.now)).faults) }
{
    if is_unknown(field.of.get()) {
        hidden(alloc, item, faults)?;
        return Ok(Kind::Faulty);
    }
    under(alloc, item, &field.of, faults)
}

/// The values of the fields, in their order.
fn field_values(
    alloc: Global,
    fields: &[Field],
    items: &[Term],
    faults: &mut Items<Fault>,
) -> Result<Items<Kind>, AllocError>
    ensures kinds { IfOk result (λ kinds. kinds ≡ spec_kinds (spec_field_values fields.now (judged_all items.now))) }
    ensures faults { OnOk result (faults.new ≡ faults.old ++ all_faults (spec_field_values fields.now (judged_all items.now))) }
{
    let mut kinds = Items::new(alloc);
    let mut items = items;
    for field in fields {
        let Some((item, rest)) = items.split_first() else {
            return Ok(kinds);
        };
        let kind = field_value(alloc, field, item, faults)?;
        kinds.push(kind)?;
        items = rest;
    }
    Ok(kinds)
}

/// A table of a type that is neither an array nor a record under its names.
fn misused(alloc: Global, items: &[Term], faults: &mut Items<Fault>) -> Result<Kind, AllocError>
    ensures kind { IfOk result (λ kind. kind ≡ (spec_misused (judged_all items.now)).kind) }
    ensures faults { OnOk result (faults.new ≡ faults.old ++ (spec_misused (judged_all items.now)).faults) }
{
    let kind = table_alone(alloc, items, faults)?;
    mismatched(&kind, faults)
}

/// More or fewer values than a record has fields.
fn of_another_number(
    alloc: Global,
    items: &[Term],
    faults: &mut Items<Fault>,
) -> Result<Kind, AllocError>
    ensures kind { IfOk result (λ kind. kind ≡ (spec_of_another_number (judged_all items.now)).kind) }
    ensures faults { OnOk result (faults.new ≡ faults.old ++ (spec_of_another_number (judged_all items.now)).faults) }
{
    let kinds = each_alone(alloc, items, faults)?;
    if !any_faulty(kinds.as_slice()) {
        report(faults, Code::T4)?;
    }
    Ok(Kind::Faulty)
}

/// A table of a record with these fields, of as many items.
fn of_values(
    alloc: Global,
    items: &[Term],
    to: &Shared<OccType>,
    fields: &[Field],
    faults: &mut Items<Fault>,
) -> Result<Kind, AllocError>
    ensures kind { IfOk result (λ kind. kind ≡ (spec_of_values to.now fields.now (judged_all items.now)).kind) }
    ensures faults { OnOk result (faults.new ≡ faults.old ++ (spec_of_values to.now fields.now (judged_all items.now)).faults) }
{
    let kinds = field_values(alloc, fields, items, faults)?;
    if any_faulty(kinds.as_slice()) {
        return Ok(Kind::Faulty);
    }
    known(to, None)
}

/// A table of a record with these fields.
fn of_record(
    alloc: Global,
    items: &[Term],
    to: &Shared<OccType>,
    fields: &[Field],
    faults: &mut Items<Fault>,
) -> Result<Kind, AllocError>
    ensures kind { IfOk result (λ kind. kind ≡ (spec_of_record to.now fields.now (judged_all items.now)).kind) }
    ensures faults { OnOk result (faults.new ≡ faults.old ++ (spec_of_record to.now fields.now (judged_all items.now)).faults) }
{
    if fields.len() != items.len() {
        return of_another_number(alloc, items, faults);
    }
    of_values(alloc, items, to, fields, faults)
}

/// A table of a type that is no array under its names.
fn of_fields(
    alloc: Global,
    items: &[Term],
    to: &Shared<OccType>,
    faults: &mut Items<Fault>,
) -> Result<Kind, AllocError>
    ensures kind { IfOk result (λ kind. kind ≡ (spec_of_fields to.now (fields_in (spec_unnamed to.now)) (judged_all items.now)).kind) }
    ensures faults { OnOk result (faults.new ≡ faults.old ++ (spec_of_fields to.now (fields_in (spec_unnamed to.now)) (judged_all items.now)).faults) }
{
    match fields_of(unnamed(to.get())) {
        Some(fields) => of_record(alloc, items, to, fields, faults),
        None => misused(alloc, items, faults),
    }
}

/// A table with its type after it.
pub fn decorated_table(
    alloc: Global,
    items: &[Term],
    to: &Shared<OccType>,
    faults: &mut Items<Fault>,
) -> Result<Kind, AllocError>
    ensures kind { IfOk result (λ kind. kind ≡ (spec_decorated_table to.now (judged_all items.now)).kind) }
    ensures faults { OnOk result (faults.new ≡ faults.old ++ (spec_decorated_table to.now (judged_all items.now)).faults) }
{
    match array_of(unnamed(to.get())) {
        Some((count, of)) => of_array(alloc, items, to, count, of, faults),
        None => of_fields(alloc, items, to, faults),
    }
}
