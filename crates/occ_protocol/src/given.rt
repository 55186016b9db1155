//! Items that are sent or received, by what is known of them and by how they are written; and what is wanted of them.
use occ_base::Shared;
use occ_types::OccType;
use occ_typing_operands::Kind;

/// An item that is sent or received, by what is known of its operands.
#[derive(Drop)]
pub enum Given {
    Plain(Kind),
    /// `n::v`: the count, and the array.
    Counted(Kind, Kind),
}

/// How an item is written.
#[derive(Clone, Copy)]
pub enum Shape {
    Plain,
    /// `n::v`
    Counted,
}

/// What is wanted of an operand where it stands.
#[derive(Drop)]
pub enum Want {
    /// A fault hides it, so the operand is said what it has by itself.
    Hidden,
    /// Nothing is wanted, so the operand is judged alone.
    Nothing,
    /// This type.
    Of(Shared<OccType>),
}

/// What is wanted of the operands of an item.
#[derive(Drop)]
pub enum Wanted {
    Plain(Want),
    /// Of the count, and of the array.
    Counted(Want, Want),
}
