//! The trees of lines of specification and of heads, as tokens spell them.
use occ_base::{Boxed, Items, Name};
use occ_forms_expressions::{DataForm, Element, Expr, TypeForm};

/// Whether `INLINE` stands directly before `PROC` or `FUNCTION`.
#[derive(Clone, Copy)]
pub enum Inlined {
    No,
    Yes,
}

/// How a name is given the bits of another type.
#[derive(Clone, Copy)]
pub enum Recast {
    /// `RETYPES`
    Retypes,
    /// `RESHAPES`
    Reshapes,
}

/// What a protocol carries.
#[derive(Drop)]
pub enum ItemForm {
    /// A value of a data type.
    Plain(DataForm),
    /// `t::[]u`: how many, of the first data type, and then as many of the second.
    Counted(DataForm, DataForm),
}

/// Formals that are values of one data type: `VAL t n, ..`.
#[derive(Drop)]
pub struct ValueGroup {
    pub form: DataForm,
    pub first: Name,
    /// The further names, which `VAL` holds for as well.
    pub more: Items<Name>,
}

/// Formals of one type: `VAL t n, ..` or `t n, ..`. No channel and no timer has `VAL` before it.
#[derive(Drop)]
pub enum FormalGroup {
    Value(ValueGroup),
    /// The type, the first name and the further names.
    Plain(TypeForm, Name, Items<Name>),
}

/// `t, .. FUNCTION n (formals)`, perhaps with `INLINE` directly before `FUNCTION`. Each formal is a value.
#[derive(Drop)]
pub struct FunctionHead {
    /// The type of the first result.
    pub first: TypeForm,
    /// The types of the further results.
    pub more: Items<TypeForm>,
    pub inlined: Inlined,
    pub name: Name,
    pub formals: Items<ValueGroup>,
}

/// A line that specifies names. Each ends with `:`.
#[derive(Drop)]
pub enum Specification {
    /// `t n, ..:`
    Declaration(TypeForm, Name, Items<Name>),
    /// `n IS el:` or `t n IS el:`
    Abbreviation(Option<TypeForm>, Name, Element),
    /// `VAL n IS e:` or `VAL t n IS e:`
    Value(Option<TypeForm>, Name, Expr),
    /// `t n RETYPES el:` or `t n RESHAPES el:`
    Retyped(Recast, TypeForm, Name, Element),
    /// `VAL t n RETYPES e:` or `VAL t n RESHAPES e:`
    RetypedValue(Recast, TypeForm, Name, Expr),
    /// `PROTOCOL n IS item; ..:`
    Protocol(Name, ItemForm, Items<ItemForm>),
    /// `DATA TYPE n IS t:`
    DataType(Name, TypeForm),
    /// `t, .. FUNCTION n (formals) IS e, ..:`. Its head has a box: with a result beside it, this would be the largest form.
    Function(Boxed<FunctionHead>, Expr, Items<Expr>),
}

/// The head of a specification, whose body and close are lines of their own.
#[derive(Drop)]
pub enum Head {
    /// `PROC n (formals)`, perhaps with `INLINE` before it.
    Procedure(Inlined, Name, Items<FormalGroup>),
    Function(FunctionHead),
    /// `PROTOCOL n`
    Protocol(Name),
    /// `DATA TYPE n`
    DataType(Name),
}

/// What a line specifies, or begins to specify.
#[derive(Drop)]
pub enum Specified {
    Line(Specification),
    Head(Head),
}
