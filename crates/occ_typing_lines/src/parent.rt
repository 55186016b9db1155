//! What a parent says of the lines under it: their role, the options so far, the results wanted, and how often they are
//! repeated. And what a line makes known for those around it.
use super::tree::TypedForm;
use occ_base::{Boxed, Items};
use occ_scope::ScopeEntry;
use occ_typing_operands::Kind;
use occ_typing_rules::OptionNumbers;
use occ_typing_specifications::Expected;
use occ_typing_statements::CaseInput;

/// What is known of a `CASE` after some of its options.
#[derive(Drop)]
pub struct Choosing {
    /// What is known of its selector.
    pub selector: Kind,
    /// The numbers of the options.
    pub numbers: OptionNumbers,
    /// Whether an `ELSE` is among them.
    pub otherwise: bool,
}

/// What lines are that do not all say so by their own words.
#[derive(Drop)]
pub enum Role {
    /// Of them nothing is said: processes and specifications.
    Process,
    /// The choices of an `IF`.
    Conditional,
    /// The alternatives of an `ALT`.
    Alternation,
    /// The options of a `CASE`.
    Selection(Boxed<Choosing>),
    /// The variants of a case input.
    Variants(Boxed<CaseInput>),
    /// The body of a FUNCTION, with the results that its head lets expect.
    Function(Boxed<Expected>),
    /// The lines of a record or of a protocol, which are reported with its head.
    Members,
}

/// What a line says of those under it.
#[derive(Drop)]
pub struct Parent {
    pub role: Role,
    /// How often they stand, by the known replicators round them in their PROC or FUNCTION; at most 4,096 times.
    pub rounds: u32,
}

/// What a line makes known for the lines under it and after it.
#[derive(Drop)]
pub struct Line {
    /// What it says of the lines under it.
    pub parent: Parent,
    /// What comes into scope under it.
    pub enters: Items<ScopeEntry>,
    /// What its own parent says of the lines after it.
    pub next: Parent,
    /// What comes into scope after it, if it is a specification; else it ends the scope of those of its item.
    pub adds: Option<Items<ScopeEntry>>,
    /// What it is, once its names and expressions are typed.
    pub form: Boxed<TypedForm>,
}
