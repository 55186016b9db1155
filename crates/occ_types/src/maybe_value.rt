//! A value where there is one, in two words: an `Option<Value>` has three, since each of its two tags takes one.
ghost use Rattle.std.specs.Prelude.{◌≡◌, None};

use super::value::Value;
use std::marker::Model;

/// A value or none, under one tag.
#[derive(Clone, Copy)]
enum Held {
    None,
    Bool(bool),
    Byte(u8),
    Int16(i16),
    Int(i32),
    Int32(i32),
    Int64(i64),
}

/// A value where there is one: in contracts an `Option<Value>`.
#[derive(Clone, Copy)]
pub struct MaybeValue {
    held: Held,
}

impl Model for MaybeValue {
    ghost use Rattle.std.specs.Prelude.{Option};
    ghost use Rattle.std.specs.Coded.{coded_option};
    ghost use Rattle.occ_types.specs.contracts.value.Value as values;
    ghost use Rattle.occ_types.specs.declared.value.Value.{Value as AValue};
    ghost use Rattle.occ_types.specs.inside.MaybeValues.{held_of, held_back, value_of};

    ghost Value = { Option AValue };

    ghost coded = { coded_option values.the_row.coded };

    ghost view = { λ a. value_of a.held };

    ghost inverse = { λ value. record { held = held_of value } };

    ghost inverse_ok = { held_back };
}

impl MaybeValue {
    /// None.
    pub fn none() -> MaybeValue
        ensures { result ≡ None }
    {
        MaybeValue { held: Held::None }
    }

    /// The value, if there is one.
    pub fn new(value: Option<Value>) -> MaybeValue
        ensures { result ≡ value }
    {
        let held = match value {
            None => Held::None,
            Some(Value::Bool(b)) => Held::Bool(b),
            Some(Value::Byte(n)) => Held::Byte(n),
            Some(Value::Int16(n)) => Held::Int16(n),
            Some(Value::Int(n)) => Held::Int(n),
            Some(Value::Int32(n)) => Held::Int32(n),
            Some(Value::Int64(n)) => Held::Int64(n),
        };
        MaybeValue { held }
    }

    /// The value, if there is one.
    pub fn get(self) -> Option<Value>
        ensures { result ≡ self }
    {
        match self.held {
            Held::None => None,
            Held::Bool(b) => Some(Value::Bool(b)),
            Held::Byte(n) => Some(Value::Byte(n)),
            Held::Int16(n) => Some(Value::Int16(n)),
            Held::Int(n) => Some(Value::Int(n)),
            Held::Int32(n) => Some(Value::Int32(n)),
            Held::Int64(n) => Some(Value::Int64(n)),
        }
    }
}
