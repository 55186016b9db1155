//! Tokens: names, numbers, characters, strings, reserved words and symbols.
use occ_base::{Items, Name};

/// A reserved word.
#[derive(Clone, Copy, PartialEq, Eq)]
pub enum Word {
    After,
    Alt,
    And,
    Any,
    Asm,
    At,
    BitAnd,
    BitNot,
    BitOr,
    Bool,
    Byte,
    BytesIn,
    Case,
    Chan,
    Data,
    Else,
    False,
    For,
    From,
    Function,
    Guy,
    If,
    Inline,
    Int,
    Int16,
    Int32,
    Int64,
    Is,
    Minus,
    MostNeg,
    MostPos,
    Not,
    Of,
    OffsetOf,
    Or,
    Packed,
    Par,
    Place,
    Placed,
    Plus,
    Port,
    Pri,
    Proc,
    Processor,
    Protocol,
    Real32,
    Real64,
    Record,
    Rem,
    Reshapes,
    Result,
    Retypes,
    Round,
    Seq,
    Size,
    Skip,
    Stop,
    Timer,
    Times,
    True,
    Trunc,
    Type,
    Val,
    ValOf,
    VecSpace,
    While,
    Workspace,
}

/// A token that is neither name, literal nor word.
#[derive(Clone, Copy, PartialEq, Eq)]
pub enum Symbol {
    /// `:=`
    Assign,
    /// `::`
    Counted,
    /// `<=`
    AtMost,
    /// `>=`
    AtLeast,
    /// `<>`
    Unequal,
    /// `><`
    BitXor,
    /// `<<`
    ShiftLeft,
    /// `>>`
    ShiftRight,
    /// `/\`
    BitAnd,
    /// `\/`
    BitOr,
    /// `+`
    Plus,
    /// `-`
    Minus,
    /// `*`
    Times,
    /// `/`
    Divide,
    /// `\`
    Remainder,
    /// `~`
    BitNot,
    /// `=`
    Equal,
    /// `<`
    Less,
    /// `>`
    Greater,
    /// `(`
    Open,
    /// `)`
    Close,
    /// `[`
    OpenIndex,
    /// `]`
    CloseIndex,
    /// `,`
    Comma,
    /// `;`
    Semicolon,
    /// `:`
    Colon,
    /// `?`
    Input,
    /// `!`
    Output,
    /// `&`
    Ampersand,
}

/// A token of a statement.
#[derive(Drop)]
pub enum Token {
    /// A name that is no reserved word.
    Name(Name),
    /// An integer in decimal digits: its value.
    Decimal(u64),
    /// An integer in hexadecimal digits: its value.
    Hexadecimal(u64),
    /// A character: its byte.
    Character(u8),
    /// A string: its bytes.
    String(Items<u8>),
    Word(Word),
    Symbol(Symbol),
}
