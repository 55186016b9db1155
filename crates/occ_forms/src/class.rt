//! Which forms a line can have, by its first token that is in no expression and no type. So no line is parsed twice.
ghost use Rattle.occ_forms.specs.inside.Classes.{class_of, mark_class, symbol_class, word_class};
ghost use Rattle.std.specs.Prelude.{◌≡◌};

use occ_forms_expressions::mark;
use occ_lines::{Symbol, Token, Word};

/// Which forms a line can have.
#[derive(Clone, Copy)]
pub enum Class {
    /// The end of a specification, or a declaration.
    Close,
    Skip,
    Stop,
    Replicable,
    While,
    /// `CASE` alone or with an expression.
    Case,
    Else,
    ValueOf,
    Result,
    Record,
    PackedRecord,
    /// Expressions with commas between them.
    Expressions,
    Assignment,
    Output,
    /// An input, or the head of a selecting one.
    Input,
    Guard,
    Tagged,
    /// Another line that specifies names, or the head of one.
    Other,
}

/// Which forms the line can have: its first token that stands in no expression and no type says so.
pub fn classify(tokens: &[Token]) -> Class
    ensures { result ≡ class_of tokens.now }
{
    match mark(tokens) {
        None => Class::Expressions,
        Some(token) => marked(token),
    }
}

/// Which forms a line with such a token can have.
fn marked(token: &Token) -> Class
    ensures { result ≡ mark_class token.now }
{
    match token {
        Token::Symbol(symbol) => marked_by_symbol(*symbol),
        Token::Word(word) => marked_by_word(*word),
        _ => Class::Other,
    }
}

/// Which forms a line with that symbol can have.
fn marked_by_symbol(symbol: Symbol) -> Class
    ensures { result ≡ symbol_class symbol }
{
    match symbol {
        Symbol::Assign => Class::Assignment,
        Symbol::Output => Class::Output,
        Symbol::Input => Class::Input,
        Symbol::Ampersand => Class::Guard,
        Symbol::Semicolon => Class::Tagged,
        Symbol::Colon => Class::Close,
        _ => Class::Other,
    }
}

/// Which forms a line with that word can have.
fn marked_by_word(word: Word) -> Class
    ensures { result ≡ word_class word }
{
    match word {
        Word::Skip => Class::Skip,
        Word::Stop => Class::Stop,
        Word::Seq | Word::Par | Word::Pri | Word::If | Word::Alt => Class::Replicable,
        Word::While => Class::While,
        Word::Case => Class::Case,
        Word::Else => Class::Else,
        Word::ValOf => Class::ValueOf,
        Word::Result => Class::Result,
        Word::Record => Class::Record,
        Word::Packed => Class::PackedRecord,
        _ => Class::Other,
    }
}
