//! Primitive types and the values of constants.
ghost use Rattle.std.specs.Prelude.{◌≡◌};
ghost use Rattle.occ_types.specs.Constant.{number_of, primitive_of};

/// The primitive types. `Int` has the range of `Int32` and is a type apart from it.
#[derive(Clone, Copy, PartialEq, Eq)]
pub enum Primitive {
    Bool,
    Byte,
    Int16,
    Int,
    Int32,
    Int64,
}

/// The value of a constant expression.
#[derive(Clone, Copy, PartialEq, Eq)]
pub enum Value {
    Bool(bool),
    Byte(u8),
    Int16(i16),
    Int(i32),
    Int32(i32),
    Int64(i64),
}

impl Value {
    /// The type of the value.
    pub fn primitive(self) -> Primitive
        ensures { result ≡ primitive_of self }
    {
        match self {
            Value::Bool(_) => Primitive::Bool,
            Value::Byte(_) => Primitive::Byte,
            Value::Int16(_) => Primitive::Int16,
            Value::Int(_) => Primitive::Int,
            Value::Int32(_) => Primitive::Int32,
            Value::Int64(_) => Primitive::Int64,
        }
    }

    /// The number that the value is: 1 for TRUE and 0 for FALSE.
    pub fn number(self) -> i64
        ensures { result ≡ number_of self }
    {
        match self {
            Value::Bool(b) => i64::from(b),
            Value::Byte(n) => i64::from(n),
            Value::Int16(n) => i64::from(n),
            Value::Int(n) => i64::from(n),
            Value::Int32(n) => i64::from(n),
            Value::Int64(n) => n,
        }
    }
}
