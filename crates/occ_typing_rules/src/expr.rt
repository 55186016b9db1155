//! Typed trees of expressions, elements and actuals: each part with its type, each name with its specification.
use occ_base::{Items, Name, Shared};
use occ_scope::Referent;
use occ_types::{Monadic, Operator};
use occ_typing_operands::Known;

/// An expression with all its parts, each with its type, and with its value where it is constant. Trees that hold a tree
/// share it. Of a type that an expression writes its tree has the type alone, and of a string no bytes.
#[cycle(typed)]
#[derive(Drop)]
pub enum TypedExpr {
    /// A literal, with its type or without, and with the `-` that makes one literal with it; `TRUE` or `FALSE`; the greatest
    /// or the least value of a type.
    Literal(Known),
    Element(TypedElement),
    /// Operands with one operator between each two, a shift and its count among them.
    Operation(Known, Operator, Items<Shared<TypedExpr>>),
    /// An operator in front of its operand.
    Applied(Known, Monadic, Shared<TypedExpr>),
    /// The number of components of an array.
    Size(Known, Shared<TypedExpr>),
    /// A conversion of the operand to the type of the whole.
    Converted(Known, Shared<TypedExpr>),
    /// The items of a table, or the values of the fields of a record in their order.
    Table(Known, Items<Shared<TypedExpr>>),
    /// A call of a function: what is known of its first result, its specification, and the actuals. A call with several
    /// results is a whole right side: there it stands once for each of them, at its place.
    Call(Known, Referent, Items<TypedActual>),
}

/// An actual of a call, as its formal takes it.
#[cycle(typed)]
#[derive(Drop)]
pub enum TypedActual {
    /// For a formal that is VAL.
    Value(Shared<TypedExpr>),
    /// For one that is not: a variable, a channel or a timer.
    Variable(Shared<TypedElement>),
}

/// A part of what a name stands for: the whole, if it has no selectors.
#[cycle(typed)]
#[derive(Drop)]
pub struct TypedElement {
    pub known: Known,
    pub name: Name,
    /// The specification of the name.
    pub referent: Referent,
    /// From the outermost on.
    pub selectors: Items<Selector>,
}

/// What selects a part of a value.
#[cycle(typed)]
#[derive(Drop)]
pub enum Selector {
    /// The field at this place of its record, from 0, and its name.
    Field(usize, Name),
    /// The component at this place.
    Component(Shared<TypedExpr>),
    /// Of so many components, if their number is known, those from this place on.
    From(Option<u32>, Shared<TypedExpr>),
    /// Of so many components, if their number is known, the first ones: so many.
    For(Option<u32>, Shared<TypedExpr>),
    /// Of so many components, if their number is known, those from a place on: so many.
    FromFor(Option<u32>, Shared<TypedExpr>, Shared<TypedExpr>),
}
