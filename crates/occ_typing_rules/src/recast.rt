//! RETYPES by bytes and RESHAPES by elements: the type of the new name, or T9.
ghost use Rattle.std.specs.Prelude.{◌≡◌, ◌∷◌, ◌++◌, [], IfOk, None, OnOk};
ghost use Rattle.occ_base.specs.Reporting.{nameless};
ghost use Rattle.occ_base.specs.declared.code.Code.TheVariants as code;
ghost use Rattle.occ_typing_rules.specs.Recasting.{by_share as spec_by_share, bytes_shared as spec_bytes_shared, either, elements_shared as spec_elements_shared, reshaped as spec_reshaped, retyped as spec_retyped};
ghost use Rattle.occ_typing_rules.specs.Dimensions.{holds_plain_record as spec_holds_plain_record};
ghost use Rattle.occ_types.specs.Unknown.{holds_unknown as spec_holds_unknown};

use super::dimensions::{holds_plain_record, innermost, sized};
use super::sharing::{Share, opens_in, rest, share_of, whole};
use occ_base::{Code, Fault, Items, Shared, report};
use occ_types::{OccType, bytes_of, fits, holds_unknown, is_data};
use std::alloc::{AllocError, Global};

/// T9 is reported, and there is no type.
fn unfit(faults: &mut Items<Fault>) -> Result<Option<Shared<OccType>>, AllocError>
    ensures found { IfOk result (λ found. found ≡ None) }
    ensures faults { OnOk result (faults.new ≡ faults.old ++ nameless code.T9 ∷ []) }
{
    report(faults, Code::T9)?;
    Ok(None)
}

/// The type of the name, where what there is goes so into what it takes.
fn by_share(
    alloc: Global,
    to: &Shared<OccType>,
    share: Share,
    faults: &mut Items<Fault>,
) -> Result<Option<Shared<OccType>>, AllocError>
    ensures found { IfOk result (λ found. found ≡ (spec_by_share to.now share).found) }
    ensures faults { OnOk result (faults.new ≡ faults.old ++ (spec_by_share to.now share).faults) }
{
    match share {
        Share::Even => Ok(Some(to.share()?)),
        Share::Sized(count) => Ok(Some(sized(alloc, to, count)?)),
        Share::Uneven => unfit(faults),
    }
}

/// Whether a field with a fault is in one of two types.
fn is_unknown_in_either(to: &OccType, from: &OccType) -> bool
    ensures { result ≡ either spec_holds_unknown to.now from.now }
{
    holds_unknown(to) || holds_unknown(from)
}

/// Whether a record that is not PACKED is in one of two types.
fn is_plain_in_either(to: &OccType, from: &OccType) -> bool
    ensures { result ≡ either spec_holds_plain_record to.now from.now }
{
    holds_plain_record(to) || holds_plain_record(from)
}

/// How the bytes of a type go into another.
fn bytes_shared(to: &OccType, from: &OccType) -> Share
    ensures { result ≡ spec_bytes_shared to.now from.now }
{
    share_of(
        opens_in(to),
        rest(to, bytes_of(innermost(to))),
        bytes_of(from),
    )
}

/// How the elements of a type go into another.
fn elements_shared(to: &OccType, from: &OccType) -> Share
    ensures { result ≡ spec_elements_shared to.now from.now }
{
    share_of(opens_in(to), rest(to, Some(1)), whole(from, Some(1)))
}

/// The type of a name that RETYPES a value of another type: T9 is reported where their bytes are not as many, where one of them
/// is a channel or a timer, and where one has a record in it that is not PACKED. Of a type with a faulty field nothing is
/// reported.
pub fn retyped(
    alloc: Global,
    to: &Shared<OccType>,
    from: &OccType,
    faults: &mut Items<Fault>,
) -> Result<Option<Shared<OccType>>, AllocError>
    ensures found { IfOk result (λ found. found ≡ (spec_retyped to.now from.now).found) }
    ensures faults { OnOk result (faults.new ≡ faults.old ++ (spec_retyped to.now from.now).faults) }
{
    if is_unknown_in_either(to.get(), from) {
        return Ok(Some(to.share()?));
    }
    if !(is_data(to.get()) && is_data(from)) || is_plain_in_either(to.get(), from) {
        return unfit(faults);
    }
    by_share(alloc, to, bytes_shared(to.get(), from), faults)
}

/// The type of a name that RESHAPES a value of another type: T9 is reported where what stands after their dimensions is not of
/// one type, where they have not as many elements of it, and where one has a record in it that is not PACKED. Of a type
/// with a faulty field nothing is reported.
pub fn reshaped(
    alloc: Global,
    to: &Shared<OccType>,
    from: &OccType,
    faults: &mut Items<Fault>,
) -> Result<Option<Shared<OccType>>, AllocError>
    ensures found { IfOk result (λ found. found ≡ (spec_reshaped to.now from.now).found) }
    ensures faults { OnOk result (faults.new ≡ faults.old ++ (spec_reshaped to.now from.now).faults) }
{
    if is_unknown_in_either(to.get(), from) {
        return Ok(Some(to.share()?));
    }
    if is_plain_in_either(to.get(), from) || !fits(innermost(to.get()), innermost(from)) {
        return unfit(faults);
    }
    by_share(alloc, to, elements_shared(to.get(), from), faults)
}
