//! Lines of a text with their numbers, and the parts of them that are meant.
use occ_messages::{Message, Quoted, Underline};
use std::alloc::{AllocError, Global};

/// A line, and what is meant of it.
#[derive(Clone, Copy)]
struct Row<'a> {
    number: u32,
    source: &'a str,
    mark: Option<Underline>,
    label: &'a str,
    /// With which sign the part is marked.
    sign: char,
}

/// Adds the line of a message and these others, in order, and gives how many digits their numbers have at most.
pub fn excerpt(
    alloc: Global,
    message: &Message,
    others: &[Quoted],
    text: &mut String,
) -> Result<usize, AllocError> {
    let mut last = message.line;
    for other in others {
        last = last.max(other.number);
    }
    let width = last.to_string(alloc)?.len();
    let blanks = margin_of(alloc, width)?;
    text.push_str(format!(in alloc; "{blanks} |\n")?.as_str())?;
    let mut told = 0u32;
    for other in others.iter().filter(|other| other.number < message.line) {
        add(alloc, row_of(other), width, &mut told, text)?;
    }
    add(alloc, own_row(message), width, &mut told, text)?;
    for other in others.iter().filter(|other| other.number > message.line) {
        add(alloc, row_of(other), width, &mut told, text)?;
    }
    text.push_str(format!(in alloc; "{blanks} |\n")?.as_str())?;
    Ok(width)
}

/// The line of a message.
fn own_row(message: &Message) -> Row<'_> {
    Row {
        number: message.line,
        source: message.source.as_str(),
        mark: message.mark,
        label: "",
        sign: '^',
    }
}

/// Another line.
fn row_of(other: &Quoted) -> Row<'_> {
    Row {
        number: other.number,
        source: other.source.as_str(),
        mark: other.mark,
        label: other.label,
        sign: '-',
    }
}

/// So many blanks.
pub fn margin_of(alloc: Global, width: usize) -> Result<String, AllocError> {
    let mut margin = String::new(alloc);
    for _ in 0..width {
        margin.push(' ')?;
    }
    Ok(margin)
}

/// Adds a line with its number, and a mark under it. Dots stand for lines that are left out.
fn add(
    alloc: Global,
    row: Row<'_>,
    width: usize,
    told: &mut u32,
    text: &mut String,
) -> Result<(), AllocError> {
    if *told > 0 && row.number > told.saturating_add(1) {
        text.push_str("...\n")?;
    }
    *told = row.number;
    let number = row.number.to_string(alloc)?;
    let blanks = margin_of(alloc, width.saturating_sub(number.len()))?;
    let source = row.source;
    text.push_str(format!(in alloc; "{blanks}{number} | {source}\n")?.as_str())?;
    match row.mark {
        Some(mark) => add_mark(alloc, row, mark, width, text),
        None => Ok(()),
    }
}

/// Adds the mark under a part of a line.
fn add_mark(
    alloc: Global,
    row: Row<'_>,
    mark: Underline,
    width: usize,
    text: &mut String,
) -> Result<(), AllocError> {
    let blanks = margin_of(alloc, width)?;
    text.push_str(format!(in alloc; "{blanks} | ")?.as_str())?;
    for (at, b) in row.source.as_bytes().iter().enumerate() {
        let is_first = !(0x80..0xC0).contains(b);
        if at >= mark.to {
            break;
        }
        if is_first {
            text.push(under(at, *b, mark, row.sign))?;
        }
    }
    if !row.label.is_empty() {
        text.push(' ')?;
        text.push_str(row.label)?;
    }
    text.push('\n')
}

/// What stands under a byte.
fn under(at: usize, b: u8, mark: Underline, sign: char) -> char {
    if at >= mark.from {
        sign
    } else if b == b'\t' {
        '\t'
    } else {
        ' '
    }
}
