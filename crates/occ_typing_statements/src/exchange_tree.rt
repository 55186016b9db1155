//! Typed outputs, targets and inputs.
use occ_base::{Boxed, Items, Name, Shared};
use occ_typing_rules::{TypedElement, TypedExpr};

/// What an output sends as one.
#[derive(Drop)]
pub enum TypedOutput {
    Value(Shared<TypedExpr>),
    /// How many components, and the array.
    Counted(Shared<TypedExpr>, Shared<TypedExpr>),
    /// The tag at this place of its protocol, and its name.
    Tag(usize, Name),
}

/// What an input receives as one.
#[derive(Drop)]
pub enum TypedTarget {
    Single(TypedElement),
    /// Where the number of components goes, and where they go.
    Counted(TypedElement, TypedElement),
}

/// An input, as a process or as a guard.
#[derive(Drop)]
pub enum TypedInput {
    /// `el ? i; ..` of a channel.
    Plain(TypedElement, Items<TypedTarget>),
    /// `el ? i` of a timer.
    Time(TypedElement, Boxed<TypedElement>),
    /// `el ? AFTER e`
    After(TypedElement, Shared<TypedExpr>),
    /// `el ? CASE n; i; ..`: the channel, the place of the tag in its protocol and its name, and the targets.
    Tagged(Boxed<TypedElement>, usize, Name, Items<TypedTarget>),
}
