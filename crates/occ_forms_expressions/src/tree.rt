//! The trees of expressions, elements and types as tokens spell them.
use occ_base::{Boxed, Items, Name};

/// A primitive data type.
#[derive(Clone, Copy)]
pub enum PrimitiveWord {
    Bool,
    Byte,
    Int,
    Int16,
    Int32,
    Int64,
}

/// The words with which a channel type begins, which mean the same.
#[derive(Clone, Copy)]
pub enum ChannelWords {
    /// `CHAN`
    Chan,
    /// `CHAN OF`
    ChanOf,
}

/// An operator in front of its one operand.
#[derive(Clone, Copy)]
pub enum MonadicOperator {
    /// `-`
    Negate,
    /// `MINUS`
    Minus,
    /// `~`
    BitNot,
    /// `BITNOT`
    BitNotWord,
    /// `NOT`
    Not,
    /// `SIZE`
    Size,
}

/// An operator that may stand between more than two operands, always the same one.
#[derive(Clone, Copy, PartialEq, Eq)]
pub enum RunOperator {
    /// `+`
    Add,
    /// `*`
    Multiply,
    /// `PLUS`
    Plus,
    /// `TIMES`
    Times,
    /// `AND`
    And,
    /// `OR`
    Or,
    /// `/\`
    BitAnd,
    /// `BITAND`
    BitAndWord,
    /// `\/`
    BitOr,
    /// `BITOR`
    BitOrWord,
    /// `><`
    BitXor,
}

/// An operator that stands between two operands and no more.
#[derive(Clone, Copy)]
pub enum PairOperator {
    /// `-`
    Subtract,
    /// `MINUS`
    Minus,
    /// `/`
    Divide,
    /// `\`
    Remainder,
    /// `REM`
    RemainderWord,
    /// `<<`
    ShiftLeft,
    /// `>>`
    ShiftRight,
    /// `=`
    Equal,
    /// `<>`
    Unequal,
    /// `<`
    Less,
    /// `>`
    Greater,
    /// `<=`
    AtMost,
    /// `>=`
    AtLeast,
    /// `AFTER`
    After,
}

/// The greatest or the least value of a type.
#[derive(Clone, Copy)]
pub enum Extreme {
    /// `MOSTPOS`
    Greatest,
    /// `MOSTNEG`
    Least,
}

/// A value that is written down as such. `TRUE` and `FALSE` are none.
#[derive(Drop)]
pub enum Literal {
    /// An integer in decimal digits.
    Decimal(u64),
    /// An integer in hexadecimal digits.
    Hexadecimal(u64),
    /// A character: its byte.
    Character(u8),
    /// A string: its bytes.
    String(Items<u8>),
}

/// What a data type is without its dimensions.
#[derive(Drop)]
pub enum DataBase {
    Named(Name),
    Primitive(PrimitiveWord),
}

/// A dimension of a type.
#[cycle(tree)]
#[derive(Drop)]
pub enum Dimension {
    /// `[]`
    Open,
    /// `[e]`
    Sized(Boxed<Expr>),
}

/// A type that begins with a reserved word.
#[cycle(tree)]
#[derive(Drop)]
pub enum Builtin {
    Primitive(PrimitiveWord),
    /// `TIMER`
    Timer,
    /// `CHAN OF ANY`
    AnyChannel(ChannelWords),
    /// `CHAN OF p`, where `p` is the name of a protocol or a data type, whose dimensions stand here.
    Channel(ChannelWords, Items<Dimension>, DataBase),
    /// `CHAN OF t::[]u`: how many, and then as many of the other data type.
    Counted(ChannelWords, Items<Dimension>, DataBase, Items<Dimension>, DataBase),
}

/// A data type: no channel, no timer and no array of them.
#[derive(Drop)]
pub struct DataForm {
    /// Its dimensions, from the outermost one in.
    pub dimensions: Items<Dimension>,
    pub base: DataBase,
}

/// A type as an expression writes it: its dimensions, from the outermost one in, and what stands after them.
#[cycle(tree)]
#[derive(Drop)]
pub enum TypeForm {
    Named(Items<Dimension>, Name),
    Builtin(Items<Dimension>, Boxed<Builtin>),
}

/// Which part of an element a segment is.
#[cycle(tree)]
#[derive(Drop)]
pub enum Bounds {
    /// `FROM e`
    From(Boxed<Expr>),
    /// `FOR e`
    For(Boxed<Expr>),
    /// `FROM e FOR e`
    FromFor(Boxed<Expr>, Boxed<Expr>),
}

/// What can be assigned, abbreviated or sent over, by its form: a name or a segment, with its subscripts. What a
/// name stands for decides whether a subscript selects a component or a field, and whether `n [e]` is an element
/// at all: if `n` is a data type, it is the conversion of a table of one item.
#[cycle(tree)]
#[derive(Drop)]
pub enum Element {
    /// `n[e]..`
    Named(Name, Items<Expr>),
    /// `[el FROM e FOR e][e]..`
    Segment(Boxed<Element>, Boxed<Bounds>, Items<Expr>),
}

/// What an operator may stand beside.
#[cycle(tree)]
#[derive(Drop)]
pub enum Operand {
    Element(Element),
    Literal(Literal),
    /// `5 (T)`: a literal with its type.
    Decorated(Literal, Boxed<TypeForm>),
    /// `TRUE` or `FALSE`.
    Truth(bool),
    /// `(e)`
    Parens(Boxed<Expr>),
    /// `[e, ..]`: the first item, and perhaps more.
    Table(Boxed<Expr>, Items<Expr>),
    /// `[e, ..] (T)`: a table with its type.
    DecoratedTable(Boxed<Expr>, Items<Expr>, Boxed<TypeForm>),
    /// `n (e, ..)`, a call or the conversion of an expression in parentheses.
    Call(Name, Items<Expr>),
}

/// An operand that stands directly after the name of a type: none in parentheses and no table of one item without
/// its type, since these would be a call and a subscript of the name.
#[cycle(tree)]
#[derive(Drop)]
pub enum NamedOperand {
    Element(Element),
    Literal(Literal),
    Decorated(Literal, Boxed<TypeForm>),
    Truth(bool),
    /// A table of two items, and perhaps more.
    Table(Boxed<Expr>, Boxed<Expr>, Items<Expr>),
    DecoratedTable(Boxed<Expr>, Items<Expr>, Boxed<TypeForm>),
    Call(Name, Items<Expr>),
}

/// An expression. A monadic operator, a conversion and a greatest or least value are no operands.
#[cycle(tree)]
#[derive(Drop)]
pub enum Expr {
    Alone(Operand),
    /// Operands with one and the same operator between each two: the first, the second, and perhaps more.
    Run(RunOperator, Boxed<Operand>, Boxed<Operand>, Items<Operand>),
    Pair(Boxed<Operand>, PairOperator, Boxed<Operand>),
    Applied(MonadicOperator, Boxed<Operand>),
    /// A conversion to a type that begins with a reserved word after its dimensions.
    Converted(Items<Dimension>, Boxed<Builtin>, Boxed<Operand>),
    /// `[e].. T operand`: a conversion to a named type after its dimensions, of which there is a first one.
    ArrayConverted(Boxed<Dimension>, Items<Dimension>, Name, Boxed<Operand>),
    /// `T operand`: a conversion to a type that is a name alone.
    Named(Name, Boxed<NamedOperand>),
    /// `MOSTPOS T` or `MOSTNEG T`
    Most(Extreme, Boxed<TypeForm>),
}
