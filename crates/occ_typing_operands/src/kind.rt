//! What is known of an operand before a type is wanted of it: faulty, of a type, or free. A free one has what it comes to
//! in each type.
ghost use Rattle.std.specs.Prelude.{◌≡◌, IfOk};

use super::untyped_constant::UntypedConstant;
use occ_base::Shared;
use occ_types::{MaybeValue, OccType, Value};
use std::alloc::AllocError;

/// The type of an operand, and its value where it is constant.
#[derive(Drop)]
pub struct Known {
    pub of: Shared<OccType>,
    pub value: MaybeValue,
}

impl Known {
    /// The same once more.
    pub fn share(&self) -> Result<Known, AllocError>
        ensures { IfOk result (λ shared. shared ≡ self.now) }
    {
        let of = self.of.share()?;
        Ok(Known {
            of,
            value: self.value,
        })
    }
}

/// What is wrong with an expression in a type that each of its literals fits.
#[derive(Clone, Copy)]
pub enum Wrong {
    /// The count of a shift is no INT.
    Count,
    /// A constant has no value.
    Value,
    /// Both, in two operands of it.
    Both,
}

/// What an untyped expression comes to in one type.
#[derive(Clone, Copy)]
pub enum TypedValue {
    /// One of its literals does not fit.
    Unfit,
    Faulty(Wrong),
    /// It is not constant.
    Varying,
    Constant(Value),
}

/// What an untyped expression, of undecorated integer literals and of shifts of them by any count, comes to in each type
/// that it may take.
#[derive(Clone, Copy)]
pub struct Untyped {
    /// Whether the count of a shift in it is faulty, and so all of it in any type, whatever else is reported of it there.
    pub is_faulty: bool,
    pub byte: TypedValue,
    pub int16: TypedValue,
    pub int: TypedValue,
    pub int32: TypedValue,
    pub int64: TypedValue,
}

/// What is known of an operand before a type is wanted of it.
#[derive(Drop)]
pub enum Kind {
    /// It has a fault, which was reported, or needs something that has one.
    Faulty,
    /// It takes the type that is wanted of it.
    Untyped(UntypedConstant),
    Known(Known),
}

impl Kind {
    /// The same once more.
    pub fn share(&self) -> Result<Kind, AllocError>
        ensures { IfOk result (λ shared. shared ≡ self.now) }
    {
        match self {
            Kind::Faulty => Ok(Kind::Faulty),
            Kind::Untyped(untyped) => Ok(Kind::Untyped(untyped.share()?)),
            Kind::Known(known) => Ok(Kind::Known(known.share()?)),
        }
    }
}
