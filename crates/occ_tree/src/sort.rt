//! What the form of a line says of where it may be, and of what may be under it.
/// What the form of a line says of where it may stand and what may stand under it.
#[derive(Clone, Copy)]
pub enum Sort {
    /// A specification of one line that may stand in a file too: of a protocol, a data type, a function or a value,
    /// or a `#USE`.
    GlobalSpecification,
    /// `t n, ..:`
    Declaration,
    /// Any other specification of one line.
    LocalSpecification,
    ProcedureHead,
    FunctionHead,
    ProtocolHead,
    DataTypeHead,
    /// `:`
    Close,
    /// `SKIP`, `STOP`, an assignment or an output.
    Action,
    /// An input without a condition, `c ? CASE` excepted.
    Input,
    /// `SEQ`, `PAR` or `PRI PAR`.
    Block,
    ReplicatedBlock,
    While,
    /// `IF`
    Conditional,
    ReplicatedConditional,
    /// `ALT` or `PRI ALT`.
    Alternation,
    ReplicatedAlternation,
    /// `CASE e`
    Selection,
    /// `c ? CASE`
    CaseInput,
    /// `CASE` alone.
    Case,
    Else,
    ValueOf,
    Result,
    /// `RECORD` or `PACKED RECORD`.
    Record,
    /// `e & SKIP`, or `e &` and an input.
    Guard,
    /// `e & c ? CASE`
    GuardedCaseInput,
    /// A name alone, which may be an expression, a tag or a variant.
    Name,
    /// One call alone.
    Call,
    /// Any other expression alone.
    Expression,
    /// Two expressions or more.
    Expressions,
    /// `n; d; ..` where each part may be a type and may be an element.
    Tagged,
    /// `n; d; ..` where some part can only be a type, and none only an element.
    Tag,
    /// `n; d; ..` where some part can only be an element, and none only a type.
    Variant,
    /// What stands nowhere, and allows nothing.
    Nowhere,
}
