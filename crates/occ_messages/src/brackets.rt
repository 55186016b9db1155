//! What is wrong with brackets: those that do not balance, and operators that want some.
use super::spelling::is_reserved;
use super::text::{closed, count, first_word, has_word, is_word_byte, next_word};
use super::told::{Place, Told};
use std::alloc::{AllocError, Global};
use std::str;

/// Words before or after which an expression stands.
const ENDS: [&str; 9] = [
    "FOR", "FROM", "IS", "RETYPES", "RESHAPES", "WHILE", "IF", "CASE", "RESULT",
];

/// Operators in words, beside those that `is_reserved` knows.
const OPERATORS: [&str; 7] = [
    "TIMES", "REM", "BITAND", "BITOR", "BITNOT", "MOSTPOS", "MOSTNEG",
];

/// Signs of operators, and quotes.
const SIGNS: [u8; 11] = [
    b'+', b'-', b'*', b'/', b'\\', b'<', b'>', b'=', b'~', b'"', b'\'',
];

/// Tells what is wrong with the brackets of a line.
pub fn brackets(alloc: Global, place: Place<'_>, told: &mut Told) -> Result<(), AllocError> {
    unbalanced(alloc, place.said, [b'(', b')'], told)?;
    if !told.is_said() {
        unbalanced(alloc, place.said, [b'[', b']'], told)?;
    }
    if told.is_said() {
        return Ok(());
    }
    mixed(alloc, place.said, told)
}

/// Tells that not so many brackets of a kind are opened as are closed, if so it is.
fn unbalanced(
    alloc: Global,
    said: &[u8],
    kind: [u8; 2],
    told: &mut Told,
) -> Result<(), AllocError> {
    let [open, close] = kind;
    let (opened, closed) = (count(said, open), count(said, close));
    if opened == closed {
        return Ok(());
    }
    let (open, close) = (char::from(open), char::from(close));
    told.say(format!(in alloc;
        "{opened} `{open}` and {closed} `{close}` stand in this line: as many have to close as open"
    )?);
    Ok(())
}

/// An operator, and what is before it and after it.
#[derive(Clone, Copy)]
struct Cut<'a> {
    left: &'a [u8],
    operator: &'a [u8],
    right: &'a [u8],
}

/// Whether nothing but blanks is before a place.
fn is_blank(bytes: &[u8], at: usize) -> bool {
    match bytes.get(..at) {
        Some(front) => front.trim_ascii().is_empty(),
        None => true,
    }
}

/// The first operator between operands that is in no brackets of some bytes.
fn first_cut(bytes: &[u8]) -> Option<Cut<'_>> {
    let mut open = 0usize;
    for (at, b) in bytes.iter().enumerate() {
        match b {
            b'(' | b'[' => open = open.saturating_add(1),
            b')' | b']' => open = open.saturating_sub(1),
            b'+' | b'-' | b'*' | b'/' | b'\\' if open == 0 && !is_blank(bytes, at) => {
                let (left, from) = bytes.split_at(at);
                let (operator, right) = from.split_at(1);
                return Some(Cut {
                    left,
                    operator,
                    right,
                });
            }
            _ => {}
        }
    }
    None
}

/// Tells which operators of a line want brackets: of the line itself, or else of what it has in brackets.
fn mixed(alloc: Global, said: &[u8], told: &mut Told) -> Result<(), AllocError> {
    mixed_among(alloc, said, is_replicated(said), told)?;
    let mut rest = said;
    for _ in 0..said.len() {
        if told.is_said() {
            break;
        }
        let Some(at) = rest.iter().position(|b| *b == b'(' || *b == b'[') else {
            break;
        };
        let (_, from) = rest.split_at(at);
        let (_, inside) = from.split_at(1);
        mixed_among(alloc, closed(inside).0, false, told)?;
        rest = inside;
    }
    Ok(())
}

/// Whether a statement has a replicator.
fn is_replicated(said: &[u8]) -> bool {
    matches!(first_word(said), b"SEQ" | b"PAR" | b"PRI" | b"ALT" | b"IF") && has_word(said, b"FOR")
}

/// Tells which operators want brackets in the first of some expressions in which two do.
fn mixed_among(
    alloc: Global,
    whole: &[u8],
    is_replicated: bool,
    told: &mut Told,
) -> Result<(), AllocError> {
    let mut rest = whole;
    for _ in 0..whole.len() {
        if told.is_said() {
            break;
        }
        let (expression, more) = next_expression(rest, is_replicated);
        mixed_in(alloc, expression, told)?;
        rest = more;
    }
    Ok(())
}

/// What is before the first word or sign in no brackets that ends an expression, and what is after it.
fn next_expression(bytes: &[u8], is_replicated: bool) -> (&[u8], &[u8]) {
    let mut open = 0usize;
    for (at, b) in bytes.iter().enumerate() {
        match b {
            b'(' | b'[' => open = open.saturating_add(1),
            b')' | b']' => open = open.saturating_sub(1),
            _ if open == 0 => {
                let (front, from) = bytes.split_at(at);
                let length = ending(front, from, is_replicated);
                if length > 0 {
                    return (front, from.get(length..).unwrap_or(&[]));
                }
            }
            _ => {}
        }
    }
    (bytes, &[])
}

/// How many bytes the word or the sign has that ends an expression there; 0 if none does.
fn ending(front: &[u8], from: &[u8], is_replicated: bool) -> usize {
    let is_inside = front.last().is_some_and(|b| is_word_byte(*b));
    match from {
        [b':', b'=', ..] => 2,
        [b'!' | b'?' | b';' | b',' | b':' | b'&', ..] => 1,
        [b'=', ..] if is_replicated => 1,
        _ if !is_inside && ENDS.iter().any(|word| word.as_bytes() == first_word(from)) => {
            first_word(from).len()
        }
        _ => 0,
    }
}

/// Tells that two operators of an expression want brackets, if so it is, and which there may be.
fn mixed_in(alloc: Global, expression: &[u8], told: &mut Told) -> Result<(), AllocError> {
    let Some(first) = first_cut(expression) else {
        return Ok(());
    };
    let Some(second) = first_cut(first.right) else {
        return Ok(());
    };
    let (one, two) = (trimmed(first.operator), trimmed(second.operator));
    if one == two && (one == "+" || one == "*") {
        return Ok(());
    }
    told.say(String::from_str(
        alloc,
        "two operators stand beside one another without brackets, and none comes before the other",
    )?);
    let operands = [first.left, second.left, second.right];
    if are_operands(alloc, operands)? {
        either_way(alloc, operands, [one, two], told)?;
    }
    Ok(())
}

/// Tells the two ways in which two operators may have brackets.
fn either_way(
    alloc: Global,
    operands: [&[u8]; 3],
    operators: [&str; 2],
    told: &mut Told,
) -> Result<(), AllocError> {
    let ([left, middle, right], [one, two]) = (operands, operators);
    let (left, middle, right) = (trimmed(left), trimmed(middle), trimmed(right));
    let behind = format!(in alloc; "{left} {one} ({middle} {two} {right})")?;
    let before = format!(in alloc; "({left} {one} {middle}) {two} {right}")?;
    told.help(format!(in alloc; "brackets say which is meant: `{behind}` or `{before}`")?)
}

/// Whether all of these are operands.
fn are_operands(alloc: Global, all: [&[u8]; 3]) -> Result<bool, AllocError> {
    for bytes in all {
        if !is_operand(outside(alloc, bytes)?.as_slice()) {
            return Ok(false);
        }
    }
    Ok(true)
}

/// Whether what is in no brackets of some bytes is one operand: no operator and no word of occam is there.
fn is_operand(outside: &[u8]) -> bool {
    !outside.iter().any(|b| SIGNS.contains(b)) && !has_operator(outside)
}

/// Whether one of the words is an operator or another word of occam.
fn has_operator(said: &[u8]) -> bool {
    let mut rest = said;
    for _ in 0..said.len() {
        let Some((word, more)) = next_word(rest) else {
            break;
        };
        let is_value = word == b"TRUE".as_slice() || word == b"FALSE".as_slice();
        if is_reserved(word) && !is_value || OPERATORS.iter().any(|it| it.as_bytes() == word) {
            return true;
        }
        rest = more;
    }
    false
}

/// The bytes that are in no brackets.
fn outside(alloc: Global, bytes: &[u8]) -> Result<Vec<u8>, AllocError> {
    let mut outside = Vec::new(alloc);
    let mut open = 0usize;
    for b in bytes {
        match b {
            b'(' | b'[' => open = open.saturating_add(1),
            b')' | b']' => open = open.saturating_sub(1),
            _ if open == 0 => outside.push(*b)?,
            _ => {}
        }
    }
    Ok(outside)
}

/// Bytes as text, without blanks around.
fn trimmed(bytes: &[u8]) -> &str {
    str::from_utf8(bytes.trim_ascii()).unwrap_or("")
}
