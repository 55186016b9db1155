//! Open expressions: typed as far as a type is known, else an untyped constant or the items of a table.
use super::expr::TypedExpr;
use occ_base::{Items, Shared};
use occ_types::{Monadic, Operator};
use occ_typing_operands::UntypedConstant;

/// An expression before its place gives a type to what is free in it, and to its tables. What does not depend on the
/// place is typed already.
#[cycle(open_expr)]
#[derive(Drop)]
pub enum OpenExpr {
    /// It has a fault, or a part of it has.
    Faulty,
    Typed(Shared<TypedExpr>),
    /// A free literal, with the `-` that makes one literal with it.
    Literal(UntypedConstant),
    /// Untyped operands with one operator between each two.
    Operation(UntypedConstant, Operator, Items<OpenExpr>),
    /// An operator in front of an untyped operand.
    Applied(UntypedConstant, Monadic, Shared<OpenExpr>),
    /// A shift of an untyped operand by a count.
    Shifted(UntypedConstant, Operator, Shared<OpenExpr>, Shared<TypedExpr>),
    /// A table without its type.
    Table(Items<OpenExpr>),
}
