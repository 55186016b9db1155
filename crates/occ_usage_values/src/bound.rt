//! What a specification in scope is for uses: a root, a value, an abbreviation of a part, or a body with its uses.
ghost use Rattle.std.specs.Prelude.{◌≡◌, IfOk, None, Some, false, slice_get, true};
ghost use Rattle.occ_usage_parts.specs.Selecting.{whole as spec_whole};
ghost use Rattle.occ_usage_values.specs.Bounds.{body_of, effect_of, place_of, size_of, value_of};

use super::uses::Use;
use occ_base::{Items, Name};
use occ_types::{Effect, Value};
use occ_usage_parts::SelectedPart;
use std::alloc::{AllocError, Global};

/// What a specification in scope is for the uses of parts.
#[derive(Drop)]
pub enum Bound {
    /// A variable, a channel or a formal that is not VAL, with its name.
    Root(Name),
    /// A VAL name, a VAL formal or an index: its value and the number of its components, if they are known, and what is read
    /// where it is specified.
    Value(Option<Value>, Option<i64>, Items<Use>),
    /// An abbreviation: what it stands for, which is nothing where that is a timer, the number of its components, if it is
    /// known, and what is read where it is specified.
    Abbreviation(Option<SelectedPart>, Option<i64>, Items<Use>),
    /// A PROC or a FUNCTION: the uses of its body, of what stands round it and of its formals, and whether the body has an
    /// input, an output, a PAR or an ALT.
    Body(Items<Use>, Effect),
    /// A type, a protocol or a timer.
    Other,
}

/// The value of a specification, if it is known.
pub fn value_at(env: &[Bound], number: usize) -> Option<Value>
    ensures { result ≡ value_of (slice_get env.now number) }
{
    match env.get(number) {
        Some(Bound::Value(value, _, _)) => *value,
        _ => None,
    }
}

/// The number of components of a specification, if it is known here.
pub fn size_at(env: &[Bound], number: usize) -> Option<i64>
    ensures { result ≡ size_of (slice_get env.now number) }
{
    match env.get(number) {
        Some(Bound::Value(_, size, _)) => *size,
        Some(Bound::Abbreviation(_, size, _)) => *size,
        _ => None,
    }
}

/// What the name of a specification stands for: nothing that is used, where it is VAL, an index or a timer.
pub fn place_at(
    alloc: Global,
    env: &[Bound],
    number: usize,
) -> Result<Option<SelectedPart>, AllocError>
    ensures { IfOk result (λ place. place ≡ place_of number (slice_get env.now number)) }
{
    match env.get(number) {
        Some(Bound::Root(_)) => Ok(Some(SelectedPart::whole(alloc, number))),
        Some(Bound::Abbreviation(Some(place), _, _)) => Ok(Some(place.copied(alloc)?)),
        _ => Ok(None),
    }
}

/// The same. Of a root, which has no selectors yet, there is room for so many.
pub(crate) fn place_with_room(
    alloc: Global,
    env: &[Bound],
    number: usize,
    room: usize,
) -> Result<Option<SelectedPart>, AllocError>
    ensures { IfOk result (λ place. place ≡ place_of number (slice_get env.now number)) }
{
    match env.get(number) {
        Some(Bound::Root(_)) => Ok(Some(SelectedPart::with_room(alloc, number, room)?)),
        _ => place_at(alloc, env, number),
    }
}

/// Whether a specification is a root.
pub(crate) fn is_root(env: &[Bound], number: usize) -> bool
    ensures place { result ≡ true → place_of number (slice_get env.now number) ≡ Some (spec_whole number) }
    ensures size { result ≡ true → size_of (slice_get env.now number) ≡ None }
{
    match env.get(number) {
        Some(Bound::Root(_)) => true,
        _ => false,
    }
}

/// Whether the name of a specification stands for something that is used.
pub(crate) fn is_placed(env: &[Bound], number: usize) -> bool
    ensures { result ≡ false → place_of number (slice_get env.now number) ≡ None }
{
    match env.get(number) {
        Some(Bound::Root(_)) => true,
        Some(Bound::Abbreviation(place, _, _)) => place.is_some(),
        _ => false,
    }
}

/// The uses of the body of a PROC or a FUNCTION.
pub fn body_at(env: &[Bound], number: usize) -> &[Use]
    ensures { result.now ≡ body_of (slice_get env.now number) }
{
    match env.get(number) {
        Some(Bound::Body(uses, _)) => uses.as_slice(),
        _ => &[],
    }
}

/// Whether the body of a PROC or a FUNCTION has an input, an output, a PAR or an ALT.
pub fn effect_at(env: &[Bound], number: usize) -> bool
    ensures { result ≡ effect_of (slice_get env.now number) }
{
    match env.get(number) {
        Some(Bound::Body(_, effect)) => *effect == Effect::Some,
        _ => false,
    }
}
