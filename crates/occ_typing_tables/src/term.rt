//! An operand or a table before a type is wanted of it.
use occ_base::Items;
use occ_typing_operands::Kind;

/// An operand before a type is wanted of it.
#[cycle(terms)]
#[derive(Drop)]
pub enum Term {
    Single(Kind),
    /// A table without its type: its items.
    Table(Items<Term>),
}
