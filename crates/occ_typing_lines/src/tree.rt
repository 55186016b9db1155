//! Typed forms: what each line of a unit is, once its names and expressions are typed.
use super::options::TypedOptions;
use occ_base::{Boxed, Items, Name, Shared};
use occ_scope::{Referent, ScopeEntry};
use occ_types::Interface;
use occ_typing_rules::{TypedActual, TypedElement, TypedExpr};
use occ_typing_statements::{Few, TypedInput, TypedOutput, TypedReplicator, TypedTarget};

/// What a block does with the lines under it. PRI PAR and PRI ALT are checked as PAR and ALT.
#[derive(Clone, Copy)]
pub enum BlockKind {
    /// `SEQ`
    Sequence,
    /// `PAR`
    Parallel,
    /// `IF`
    Conditional,
    /// `ALT`
    Alternation,
}

/// What stands after the `&` of a guard.
#[derive(Drop)]
pub enum TypedGuard {
    /// `SKIP`
    Skip,
    Input(TypedInput),
    /// `el ? CASE`
    CaseInput(TypedElement),
}

/// What a line is, once its names and expressions are typed.
#[derive(Drop)]
pub enum TypedForm {
    /// `t n, ..:`
    Declaration,
    /// `n IS el:` or `t n IS el:`
    Abbreviation(TypedElement),
    /// `t n RETYPES el:` or `t n RESHAPES el:`
    Retyped(TypedElement),
    /// `VAL n IS e:` or `VAL t n IS e:`
    Value(Shared<TypedExpr>),
    /// `VAL t n RETYPES e:` or `VAL t n RESHAPES e:`
    RetypedValue(Shared<TypedExpr>),
    /// `t, .. FUNCTION n (formals) IS e, ..:`: its formals, which are not among what the line enters, and its results with
    /// these in scope.
    OneLineFunction(Items<ScopeEntry>, Items<Shared<TypedExpr>>),
    /// `DATA TYPE n IS t:`
    DataType,
    /// `PROTOCOL n IS item; ..:`
    Protocol,
    /// `#USE`: what its units show, in their order.
    Uses(Few<Shared<Interface>>),
    /// `PROC n (formals)`
    ProcedureHead,
    /// `t, .. FUNCTION n (formals)`
    FunctionHead,
    /// `DATA TYPE n`, over a record.
    RecordHead,
    /// `PROTOCOL n`, over its tags.
    ProtocolHead,
    /// A line under the head of a record or of a protocol, which is reported with the head.
    Member,
    /// `:`
    Close,
    /// `SKIP`
    Skip,
    /// `STOP`
    Stop,
    /// `el, .. := e, ..`: the targets, and the values for them.
    Assignment(Few<TypedElement>, Few<Shared<TypedExpr>>),
    /// `el ! o; ..`
    Output(TypedElement, Items<TypedOutput>),
    Input(TypedInput),
    /// An instance of a PROC: its specification, and the actuals.
    Instance(Referent, Items<TypedActual>),
    /// `SEQ`, `PAR`, `IF` or `ALT`, perhaps with a replicator.
    Block(BlockKind, Option<TypedReplicator>),
    /// `WHILE e`
    While(Shared<TypedExpr>),
    /// `CASE e`
    Selection(Shared<TypedExpr>),
    /// `el ? CASE`
    CaseInput(TypedElement),
    /// `e`, the condition of a choice.
    Condition(Shared<TypedExpr>),
    /// `e, ..`: options of a selection.
    Options(TypedOptions),
    /// `ELSE`
    Otherwise,
    /// `e & g`
    Guard(Shared<TypedExpr>, Boxed<TypedGuard>),
    /// `n; i; ..`, a variant of a case input: the place of the tag in its protocol and its name, and the targets.
    Variant(usize, Name, Items<TypedTarget>),
    /// `VALOF`
    ValueOf,
    /// `RESULT e, ..`
    Results(Items<Shared<TypedExpr>>),
    /// A line that has a fault.
    Unknown,
}
