//! Sizes of dimensions: an INT (T2), constant (T5), not negative (T6).
ghost use Rattle.std.specs.Prelude.{◌≡◌, ◌++◌, IfOk, OnOk};
ghost use Rattle.occ_typing_tables.specs.Dimensions.{size as spec_size, size_of_kind as spec_size_of_kind, size_of_number as spec_size_of_number};
ghost use Rattle.occ_typing_tables.specs.Segments.{number_in as spec_number_in};
ghost use Rattle.occ_typing_tables.specs.Terms.{judged};

use super::table::under;
use super::term::Term;
use occ_base::{Code, Fault, Items, report};
use occ_types::Value;
use occ_typing_operands::{Kind, int};
use std::alloc::{AllocError, Global};

/// The number of a constant.
pub(super) fn number_in(value: Option<Value>) -> Option<i64>
    ensures { result ≡ spec_number_in value }
{
    value.map(|value| value.number())
}

/// The size that a number says, where it is constant.
fn size_of_number(number: Option<i64>, faults: &mut Items<Fault>) -> Result<Option<u32>, AllocError>
    ensures count { IfOk result (λ count. count ≡ (spec_size_of_number number).count) }
    ensures faults { OnOk result (faults.new ≡ faults.old ++ (spec_size_of_number number).faults) }
{
    let Some(number) = number else {
        report(faults, Code::T5)?;
        return Ok(None);
    };
    if number < 0 {
        report(faults, Code::T6)?;
        return Ok(None);
    }
    if number > 4_294_967_295 {
        report(faults, Code::T9)?;
        return Ok(None);
    }
    Ok(Some(number as u32))
}

/// The size that a settled operand says.
fn size_of_kind(kind: &Kind, faults: &mut Items<Fault>) -> Result<Option<u32>, AllocError>
    ensures count { IfOk result (λ count. count ≡ (spec_size_of_kind kind.now).count) }
    ensures faults { OnOk result (faults.new ≡ faults.old ++ (spec_size_of_kind kind.now).faults) }
{
    match kind {
        Kind::Known(found) => size_of_number(number_in(found.value.get()), faults),
        _ => Ok(None),
    }
}

/// How many components a type has in a dimension of this size: none where the size has a fault, which is reported.
pub fn size(
    alloc: Global,
    term: &Term,
    faults: &mut Items<Fault>,
) -> Result<Option<u32>, AllocError>
    ensures count { IfOk result (λ count. count ≡ (spec_size (judged term.now)).count) }
    ensures faults { OnOk result (faults.new ≡ faults.old ++ (spec_size (judged term.now)).faults) }
{
    let kind = under(alloc, term, &int(alloc)?, faults)?;
    size_of_kind(&kind, faults)
}
