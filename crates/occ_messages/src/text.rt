//! Lines of a text and words of a line, for hints. What a line means is not asked here.
use std::alloc::{AllocError, Global};

/// How many lines one statement may have, as far as hints go.
const STATEMENT_LINES: usize = 16;

/// How many words of a line are looked up in the text.
pub const WORD_LIMIT: usize = 64;

/// Where a line's part is of what all lines say.
#[derive(Clone, Copy)]
struct Span {
    from: usize,
    to: usize,
}

/// A text by its lines, with what each of them says.
#[derive(Drop)]
pub struct Text<'a> {
    lines: Vec<&'a [u8]>,
    /// What the lines say, in their order, with a blank after each.
    said: Vec<u8>,
    spans: Vec<Span>,
}

/// The lines of a text.
#[derive(Clone, Copy)]
pub struct Lines<'a> {
    pub all: &'a [&'a [u8]],
    said: &'a [u8],
    spans: &'a [Span],
}

/// A line of a text with its number, from 1.
#[derive(Clone, Copy)]
pub struct Numbered<'a> {
    pub number: u32,
    pub line: &'a [u8],
}

impl<'a> Text<'a> {
    /// The lines of a text, without what ends them.
    pub fn new(alloc: Global, text: &'a [u8]) -> Result<Text<'a>, AllocError> {
        let mut lines = Vec::new(alloc);
        let mut said = Vec::new(alloc);
        let mut spans = Vec::new(alloc);
        for whole in text.split(|b| *b == b'\n') {
            let line = whole.strip_suffix(b"\r").unwrap_or(whole);
            lines.push(line)?;
            let from = said.len();
            add_statement(line, &mut said)?;
            let to = said.len();
            spans.push(Span { from, to })?;
            said.push(b' ')?;
        }
        Ok(Text { lines, said, spans })
    }

    /// The lines, to look at.
    pub fn lines(&self) -> Lines<'_> {
        Lines {
            all: self.lines.as_slice(),
            said: self.said.as_slice(),
            spans: self.spans.as_slice(),
        }
    }
}

impl<'a> Lines<'a> {
    /// The line of that number, the first of which is line 1; none where there is no such line.
    pub fn line(self, number: u32) -> &'a [u8] {
        match self.all.get((number as usize).saturating_sub(1)) {
            Some(line) => line,
            None => &[],
        }
    }

    /// What the line of that number says without blanks around it and without its comment. Each byte of a string or character
    /// is a quote there, so that no word is found in one.
    pub fn said(self, number: u32) -> &'a [u8] {
        match self.spans.get((number as usize).saturating_sub(1)) {
            Some(span) => self.part(span.from, span.to),
            None => &[],
        }
    }

    /// A part of what all lines say.
    fn part(self, from: usize, to: usize) -> &'a [u8] {
        self.said.get(from..to).unwrap_or(&[])
    }

    /// What the statement says that begins on that line, with the lines on which it goes on.
    pub fn statement(self, number: u32) -> &'a [u8] {
        let from = match self.spans.get((number as usize).saturating_sub(1)) {
            Some(span) => span.from,
            None => return &[],
        };
        let mut said = self.said(number);
        let behind = self.spans.get(number as usize..).unwrap_or(&[]);
        for span in behind.iter().take(STATEMENT_LINES) {
            if !goes_on(said) {
                break;
            }
            said = self.part(from, span.to);
        }
        said
    }

    /// The lines before that one.
    pub fn before(self, number: u32) -> &'a [&'a [u8]] {
        let count = (number as usize).saturating_sub(1);
        self.all.get(..count).unwrap_or(self.all)
    }

    /// The lines after one and before another.
    pub fn between(self, first: u32, last: u32) -> &'a [&'a [u8]] {
        let end = (last as usize).saturating_sub(1);
        self.all.get(first as usize..end).unwrap_or(&[])
    }

    /// The lines after that one.
    pub fn after(self, number: u32) -> &'a [&'a [u8]] {
        self.all.get(number as usize..).unwrap_or(&[])
    }
}

/// The number of the line that so many come before.
pub fn number_of(index: usize) -> u32 {
    match u32::try_from(index) {
        Ok(number) => number.saturating_add(1),
        Err(_) => u32::MAX,
    }
}

/// Adds what a line says to what those before it do.
fn add_statement(line: &[u8], said: &mut Vec<u8>) -> Result<(), AllocError> {
    let from = said.len();
    let mut quote = b' ';
    let mut last = b' ';
    for b in line.trim_ascii() {
        if quote == b' ' && *b == b'-' && last == b'-' {
            said.pop();
            break;
        }
        said.push(if quote == b' ' { *b } else { quote })?;
        quote = quote_after(quote, last, *b);
        last = if quote != b' ' && last == b'*' {
            b' '
        } else {
            *b
        };
    }
    let length = said.get(from..).unwrap_or(&[]).trim_ascii().len();
    said.truncate(from.saturating_add(length));
    Ok(())
}

/// The quote within which the next byte is, a blank for none.
fn quote_after(quote: u8, last: u8, b: u8) -> u8 {
    let is_quote = b == b'"' || b == b'\'';
    if quote == b' ' && is_quote {
        b
    } else if quote == b && last != b'*' {
        b' '
    } else {
        quote
    }
}

/// Whether a statement goes on in the next line.
fn goes_on(said: &[u8]) -> bool {
    match said.last() {
        Some(b) => matches!(b, b',' | b';' | b'=' | b'+' | b'*' | b'&') || said.ends_with(b" AND"),
        None => false,
    }
}

/// The column at which a line begins, with tabs at multiples of 8.
pub fn column(line: &[u8]) -> usize {
    let mut column = 0usize;
    for b in line {
        match b {
            b' ' => column = column.saturating_add(1),
            b'\t' => column = (column / 8).saturating_add(1).saturating_mul(8),
            _ => break,
        }
    }
    column
}

/// Whether a line has nothing but blanks and a comment.
pub fn is_skipped(line: &[u8]) -> bool {
    let line = line.trim_ascii();
    line.is_empty() || line.starts_with(b"--")
}

/// Whether a byte goes on with a word.
pub fn is_word_byte(b: u8) -> bool {
    b.is_ascii_alphanumeric() || b == b'.' || b == b'_'
}

/// The next word of some bytes, and what is after it.
pub fn next_word(bytes: &[u8]) -> Option<(&[u8], &[u8])> {
    let start = bytes.iter().position(|b| is_word_byte(*b))?;
    let (_, from) = bytes.split_at(start);
    match from.iter().position(|b| !is_word_byte(*b)) {
        Some(end) => Some(from.split_at(end)),
        None => Some((from, &[])),
    }
}

/// The first word of a statement, if it begins with one.
pub fn first_word(statement: &[u8]) -> &[u8] {
    match next_word(statement) {
        Some((word, _)) if statement.starts_with(word) => word,
        _ => &[],
    }
}

/// The last word of a statement.
pub fn last_word(statement: &[u8]) -> &[u8] {
    let front = match statement.iter().rposition(|b| is_word_byte(*b)) {
        Some(end) => statement.get(..=end).unwrap_or(&[]),
        None => return &[],
    };
    match front.iter().rposition(|b| !is_word_byte(*b)) {
        Some(start) => front.get(start.saturating_add(1)..).unwrap_or(&[]),
        None => front,
    }
}

/// What is after the first of these words, if there is one.
pub fn after_word<'a>(statement: &'a [u8], wanted: &[u8]) -> Option<&'a [u8]> {
    let mut rest = statement;
    for _ in 0..statement.len() {
        let (word, more) = next_word(rest)?;
        if word == wanted {
            return Some(more);
        }
        rest = more;
    }
    None
}

/// What is before the first of these words, and what is after it, if there is one.
pub fn around_word<'a>(statement: &'a [u8], wanted: &[u8]) -> Option<(&'a [u8], &'a [u8])> {
    let after = after_word(statement, wanted)?;
    let end = statement.len().saturating_sub(after.len());
    let front = statement.get(..end.saturating_sub(wanted.len()))?;
    Some((front, after))
}

/// How often a word is in a statement.
pub fn word_count(said: &[u8], wanted: &[u8]) -> usize {
    let mut found = 0usize;
    let mut rest = said;
    for _ in 0..said.len() {
        let Some((word, more)) = next_word(rest) else {
            break;
        };
        if word == wanted {
            found = found.saturating_add(1);
        }
        rest = more;
    }
    found
}

/// Whether a statement has that word.
pub fn has_word(statement: &[u8], wanted: &[u8]) -> bool {
    after_word(statement, wanted).is_some()
}

/// Whether some bytes have others in them.
pub fn has(bytes: &[u8], part: &[u8]) -> bool {
    !part.is_empty() && bytes.windows(part.len()).any(|there| there == part)
}

/// How often a byte is in a statement.
pub fn count(statement: &[u8], wanted: u8) -> usize {
    statement.iter().filter(|b| **b == wanted).count()
}

/// The nearest line above that one which is not skipped.
pub fn line_before(lines: Lines<'_>, number: u32) -> Option<Numbered<'_>> {
    for (at, line) in lines.before(number).iter().enumerate().rev() {
        if !is_skipped(line) {
            let number = number_of(at);
            return Some(Numbered { number, line });
        }
    }
    None
}

/// The nearest line below that one which is not skipped.
pub fn line_after(lines: Lines<'_>, number: u32) -> Option<Numbered<'_>> {
    for (at, line) in lines.after(number).iter().enumerate() {
        if !is_skipped(line) {
            let number = number_of(at).saturating_add(number);
            return Some(Numbered { number, line });
        }
    }
    None
}

/// The nearest line above that one that begins in a lesser column.
pub fn parent(lines: Lines<'_>, number: u32) -> Option<Numbered<'_>> {
    let depth = column(lines.line(number));
    for (at, line) in lines.before(number).iter().enumerate().rev() {
        if !is_skipped(line) && column(line) < depth {
            let number = number_of(at);
            return Some(Numbered { number, line });
        }
    }
    None
}

/// The first line below that one that is not skipped and begins in no greater column.
pub fn line_behind(lines: Lines<'_>, number: u32) -> Option<Numbered<'_>> {
    let depth = column(lines.line(number));
    for (at, line) in lines.after(number).iter().enumerate() {
        if !is_skipped(line) && column(line) <= depth {
            let number = number_of(at).saturating_add(number);
            return Some(Numbered { number, line });
        }
    }
    None
}

/// What is before a separator that is in no brackets, and what is after it, if there is one.
pub fn cut(bytes: &[u8], separator: u8) -> Option<(&[u8], &[u8])> {
    let mut open = 0usize;
    for (at, b) in bytes.iter().enumerate() {
        match b {
            b'(' | b'[' => open = open.saturating_add(1),
            b')' | b']' => open = open.saturating_sub(1),
            _ if *b == separator && open == 0 => {
                let (front, from) = bytes.split_at(at);
                return Some((
                    front.trim_ascii(),
                    from.get(1..).unwrap_or(&[]).trim_ascii(),
                ));
            }
            _ => {}
        }
    }
    None
}

/// What is before the first of some bytes in others, and what is after it, if they are there.
pub fn split_once<'a>(bytes: &'a [u8], part: &[u8]) -> Option<(&'a [u8], &'a [u8])> {
    if part.is_empty() {
        return None;
    }
    let at = bytes.windows(part.len()).position(|there| there == part)?;
    let behind = at.saturating_add(part.len());
    Some((bytes.get(..at)?, bytes.get(behind..)?))
}

/// The first item of a list, and the rest, if there is any item.
pub fn next_item(list: &[u8], separator: u8) -> Option<(&[u8], &[u8])> {
    if list.is_empty() {
        return None;
    }
    Some(cut(list, separator).unwrap_or((list.trim_ascii(), &[])))
}

/// How many items a list has.
pub fn item_count(list: &[u8], separator: u8) -> usize {
    let mut found = 0usize;
    let mut rest = list;
    for _ in 0..list.len() {
        let Some((_, more)) = next_item(rest, separator) else {
            break;
        };
        found = found.saturating_add(1);
        rest = more;
    }
    found
}

/// What is before the bracket that closes, and what is after it.
pub fn closed(inside: &[u8]) -> (&[u8], &[u8]) {
    let mut open = 0usize;
    for (at, b) in inside.iter().enumerate() {
        match b {
            b'(' | b'[' => open = open.saturating_add(1),
            b')' | b']' if open == 0 => {
                let (front, from) = inside.split_at(at);
                return (front, from.get(1..).unwrap_or(&[]));
            }
            b')' | b']' => open = open.saturating_sub(1),
            _ => {}
        }
    }
    (inside, &[])
}
