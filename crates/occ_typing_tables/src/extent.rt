//! Arrays as the types of operands, which may be too large (T9).
ghost use Rattle.std.specs.Prelude.{◌≡◌, ◌++◌, IfOk, OnOk};
ghost use Rattle.occ_typing_tables.specs.Extents.{arrayed as spec_arrayed};

use occ_base::{Code, Fault, Items, Shared, report};
use occ_types::{OccType, is_too_large};
use occ_typing_operands::{Kind, known};
use std::alloc::{AllocError, Global};

/// An array of so many components of a data type, as the type of an operand: T9 is reported where it is too large.
pub fn arrayed(
    alloc: Global,
    count: Option<u32>,
    of: &Shared<OccType>,
    faults: &mut Items<Fault>,
) -> Result<Kind, AllocError>
    ensures kind { IfOk result (λ kind. kind ≡ (spec_arrayed count of.now).kind) }
    ensures faults { OnOk result (faults.new ≡ faults.old ++ (spec_arrayed count of.now).faults) }
{
    let array = Shared::new(alloc, OccType::Array(count, of.share()?))?;
    if is_too_large(array.get()) {
        report(faults, Code::T9)?;
        return Ok(Kind::Faulty);
    }
    known(&array, None)
}
