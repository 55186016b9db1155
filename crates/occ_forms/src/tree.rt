//! The trees of all line forms but those of specification.
use super::specification_tree::Specified;
use occ_base::{Boxed, Items, Name};
use occ_forms_expressions::{Builtin, DataForm, Dimension, Element, Expr};

/// The form of a line.
pub enum Form {
    /// A specification of one line, or the head of one.
    Specified(Specified),
    /// `:`
    Close,
    Action(Action),
    Construct(Construct),
    Part(PartForm),
    /// `e, ..`: the first, and perhaps more. These are options of a selection, a condition, or, where one call
    /// stands alone, the instance of a procedure.
    Expressions(Expr, Items<Expr>),
    /// `n; d; ..`: a tag of a protocol or a variant of a selecting input, with the first of its parts and perhaps
    /// more.
    Tagged(Name, Detail, Items<Detail>),
}

/// Written out: crates above call it, where each would prove a derived one anew.
impl Drop for Form {
    fn drop(self) {
        match self {
            Form::Specified(_) => {}
            Form::Close => {}
            Form::Action(_) => {}
            Form::Construct(_) => {}
            Form::Part(_) => {}
            Form::Expressions(_, _) => {}
            Form::Tagged(_, _, _) => {}
        }
    }
}

/// A process that stands on one line.
#[derive(Drop)]
pub enum Action {
    /// `SKIP`
    Skip,
    /// `STOP`
    Stop,
    /// `el, .. := e, ..`
    Assignment(Element, Items<Element>, Expr, Items<Expr>),
    /// `el ! o; ..`
    Output(Element, OutputItem, Items<OutputItem>),
    Input(Input),
}

/// What an output sends as one.
#[derive(Drop)]
pub enum OutputItem {
    /// `e`
    Plain(Expr),
    /// `e::e`: how many components, and the array. Each has a box: else every output would have room for two.
    Counted(Boxed<Expr>, Boxed<Expr>),
}

/// An input that is a process by itself.
#[derive(Drop)]
pub enum Input {
    /// `el ? i; ..`
    Plain(Element, InputItem, Items<InputItem>),
    /// `el ? AFTER e`
    After(Element, Expr),
    /// `el ? CASE n; i; ..`, perhaps with no item.
    Tagged(Element, Name, Items<InputItem>),
}

/// What an input receives as one.
#[derive(Drop)]
pub enum InputItem {
    /// `el`
    Plain(Element),
    /// `el::el`: where the number of components goes, and where they go. Each has a box, as in an output.
    Counted(Boxed<Element>, Boxed<Element>),
}

/// The head of a construct.
#[derive(Drop)]
pub enum Construct {
    /// A word or two, and perhaps a replicator.
    Replicable(ConstructKind, Option<Replicator>),
    /// `WHILE e`
    While(Expr),
    /// `CASE e`
    Case(Expr),
    /// `el ? CASE`
    CaseInput(Element),
}

/// A construct that may be replicated.
#[derive(Clone, Copy)]
pub enum ConstructKind {
    /// `SEQ`
    Sequence,
    /// `PAR`
    Parallel,
    /// `PRI PAR`
    PriParallel,
    /// `IF`
    Conditional,
    /// `ALT`
    Alternation,
    /// `PRI ALT`
    PriAlternation,
}

/// `n = e FOR e`
#[derive(Drop)]
pub struct Replicator {
    pub name: Name,
    pub base: Expr,
    pub count: Expr,
}

/// A line that is a part of what stands around it.
#[derive(Drop)]
pub enum PartForm {
    /// `CASE`
    Case,
    /// `ELSE`
    Else,
    /// `VALOF`
    ValueOf,
    /// `RESULT e, ..`
    Result(Expr, Items<Expr>),
    /// `RECORD`
    Record,
    /// `PACKED RECORD`
    PackedRecord,
    /// `e & g`. What is guarded has a box: with an input beside its condition, this would be the largest form.
    Guard(Expr, Boxed<Guarded>),
}

/// What stands after the `&` of a guard.
#[derive(Drop)]
pub enum Guarded {
    /// `SKIP`
    Skip,
    Input(Input),
    /// `el ? CASE`
    CaseInput(Element),
}

/// A part of a tag or of a variant. What a name stands for decides whether it is a type or an element.
#[derive(Drop)]
pub enum Detail {
    /// An element; a name alone may also be a type.
    Element(Element),
    /// `el::el`
    Counted(Element, Element),
    /// `[e].. n`: a named type after its dimensions, of which there is a first one.
    Array(Dimension, Items<Dimension>, Name),
    /// A type that begins with a reserved word after its dimensions. It has a box: with a counted channel in place, this
    /// would make the largest form.
    Builtin(Items<Dimension>, Boxed<Builtin>),
    /// `t::[]u`: a counted array.
    CountedType(DataForm, DataForm),
}
