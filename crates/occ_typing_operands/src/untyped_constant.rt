//! Untyped constants. A decimal literal is stored as its number, and what it comes to in a type is found when asked for.
ghost use Rattle.std.specs.Prelude.{◌≡◌, IfOk, MatchOption, pos};
ghost use Rattle.occ_typing_operands.specs.Outcomes.{decimal as spec_decimal, in_type as spec_in_type};

use super::kind::{TypedValue, Untyped};
use super::outcome::fitting;
use occ_base::Shared;
use occ_types::{Primitive, value_of_number};
use std::alloc::{AllocError, Global};
use std::marker::Model;

/// How an untyped expression is kept.
#[derive(Drop)]
enum Representation {
    /// A literal in decimal digits: what it comes to is found when it is asked for.
    Decimal(u64),
    Found(Shared<Untyped>),
}

/// An untyped expression: in contracts what it comes to in each type.
#[derive(Drop)]
pub struct UntypedConstant {
    representation: Representation,
}

impl Model for UntypedConstant {
    ghost use Rattle.occ_typing_operands.specs.declared.kind.Untyped.{Untyped};

    ghost Value = { Untyped };

    ghost use Rattle.occ_typing_operands.specs.Representation.{shown};

    ghost view = { λ untyped_constant. shown untyped_constant.representation };
}

impl UntypedConstant {
    /// A literal in decimal digits.
    pub fn decimal(n: u64) -> UntypedConstant
        ensures { result ≡ spec_decimal (pos n) }
    {
        UntypedConstant {
            representation: Representation::Decimal(n),
        }
    }

    /// An expression that comes to this.
    pub fn found(alloc: Global, untyped: Untyped) -> Result<UntypedConstant, AllocError>
        ensures { IfOk result (λ untyped_constant. untyped_constant ≡ untyped) }
    {
        Ok(UntypedConstant {
            representation: Representation::Found(Shared::new(alloc, untyped)?),
        })
    }

    /// The same once more.
    pub fn share(&self) -> Result<UntypedConstant, AllocError>
        ensures { IfOk result (λ untyped_constant. untyped_constant ≡ self.now) }
    {
        let representation = match &self.representation {
            Representation::Decimal(n) => Representation::Decimal(*n),
            Representation::Found(untyped) => Representation::Found(untyped.share()?),
        };
        Ok(UntypedConstant { representation })
    }

    /// What it comes to in a type.
    #[inline(always)]
    pub fn in_type(&self, of: Primitive) -> TypedValue
        ensures { result ≡ spec_in_type self.now of }
    {
        match &self.representation {
            Representation::Decimal(n) => decimal_in(*n, of),
            Representation::Found(untyped) => untyped.get().in_type(of),
        }
    }

    /// Whether it is faulty in whatever type it takes.
    pub fn is_faulty(&self) -> bool
        ensures { result ≡ self.now.is_faulty }
    {
        match &self.representation {
            Representation::Decimal(_) => false,
            Representation::Found(untyped) => untyped.get().is_faulty,
        }
    }

    /// What it comes to in each type.
    pub fn get(&self) -> Untyped
        ensures { result ≡ self.now }
    {
        match &self.representation {
            Representation::Decimal(n) => Untyped::decimal(i128::from(*n)),
            Representation::Found(untyped) => *untyped.get(),
        }
    }

    /// The number of a literal that is kept as such.
    pub(super) fn number(&self) -> Option<u64>
        ensures { MatchOption result (Unit {0}) (λ n. self.now ≡ spec_decimal (pos n)) }
    {
        match &self.representation {
            Representation::Decimal(n) => Some(*n),
            Representation::Found(_) => None,
        }
    }
}

/// What a literal in decimal digits comes to in a type.
pub(super) fn decimal_in(n: u64, of: Primitive) -> TypedValue
    ensures { result ≡ spec_in_type (spec_decimal (pos n)) of }
{
    match of {
        Primitive::Bool => TypedValue::Unfit,
        _ => fitting(value_of_number(of, i128::from(n))),
    }
}
