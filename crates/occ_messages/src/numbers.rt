//! Constants of a text, what expressions of them come to, and the elements that a part of an array has.
use super::declared::abbreviated;
use super::text::{
    Lines, around_word, closed, column, first_word, is_skipped, is_word_byte, last_word, next_word,
    number_of, split_once, word_count,
};
use std::alloc::{AllocError, Global};
use std::str;

/// How many parts of one statement are told apart.
const REACH_LIMIT: usize = 8;

/// A name and its value.
#[derive(Clone, Copy)]
pub struct Constant<'a> {
    pub name: &'a [u8],
    pub value: i64,
}

/// Elements of an array: the first, and how many.
#[derive(Clone, Copy)]
pub struct Part {
    pub from: i64,
    pub count: i64,
    /// Whether these are meant whole, with no selector behind.
    pub is_whole: bool,
}

/// What is being computed within brackets.
#[derive(Clone, Copy)]
struct Frame {
    value: Option<i64>,
    operator: u8,
}

/// The constants that are seen from a line.
pub fn constants<'a>(
    alloc: Global,
    lines: Lines<'a>,
    number: u32,
) -> Result<Vec<Constant<'a>>, AllocError> {
    let mut known = Vec::new(alloc);
    let seen = seen(alloc, lines, number)?;
    for number in seen.iter().rev() {
        add_constant(alloc, lines.line(*number), &mut known)?;
    }
    Ok(known)
}

/// The lines of VAL abbreviations that are seen from a line, the nearest first.
fn seen(alloc: Global, lines: Lines<'_>, number: u32) -> Result<Vec<u32>, AllocError> {
    let mut found = Vec::new(alloc);
    let mut depth = column(lines.line(number));
    for (at, line) in lines.before(number).iter().enumerate().rev() {
        if is_skipped(line) {
            continue;
        }
        let here = column(line);
        if here <= depth && line.trim_ascii().starts_with(b"VAL ") {
            found.push(number_of(at))?;
        }
        depth = depth.min(here);
    }
    Ok(found)
}

/// Adds the constant of a line, if its value is known.
fn add_constant<'a>(
    alloc: Global,
    line: &'a [u8],
    known: &mut Vec<Constant<'a>>,
) -> Result<(), AllocError> {
    let said = match split_once(line, b":") {
        Some((front, _)) => front,
        None => line,
    };
    if let Some((front, expression)) = abbreviated(said)
        && let Some(value) = value(alloc, expression, known.as_slice())?
    {
        let name = last_word(front);
        known.push(Constant { name, value })?;
    }
    Ok(())
}

/// What an expression comes to, if that is known.
pub fn value(
    alloc: Global,
    expression: &[u8],
    known: &[Constant<'_>],
) -> Result<Option<i64>, AllocError> {
    let mut outer = Vec::new(alloc);
    let mut frame = Frame::new();
    let mut rest = expression.trim_ascii();
    for _ in 0..expression.len() {
        let Some(first) = rest.first() else {
            break;
        };
        let next = if is_word_byte(*first) {
            let word = first_word(rest);
            rest = rest.get(word.len()..).unwrap_or(&[]).trim_ascii();
            frame.with_word(word, known)
        } else {
            rest = rest.get(1..).unwrap_or(&[]).trim_ascii();
            frame.with_sign(*first, &mut outer)?
        };
        match next {
            Some(next) => frame = next,
            None => return Ok(None),
        }
    }
    Ok(if outer.is_empty() { frame.value } else { None })
}

impl Frame {
    /// Nothing yet.
    fn new() -> Frame {
        Frame {
            value: None,
            operator: b'+',
        }
    }

    /// A number or a name comes next.
    fn with_word(self, word: &[u8], known: &[Constant<'_>]) -> Option<Frame> {
        if word == b"INT".as_slice() {
            return Some(self);
        }
        if word.iter().all(u8::is_ascii_digit) {
            return self.with(str::from_utf8(word).ok()?.parse::<i64>().ok()?);
        }
        let found = known.iter().rev().find(|one| one.name == word)?;
        self.with(found.value)
    }

    /// A bracket or an operator comes next.
    fn with_sign(self, sign: u8, outer: &mut Vec<Frame>) -> Result<Option<Frame>, AllocError> {
        Ok(match sign {
            b'(' => {
                outer.push(self)?;
                Some(Frame::new())
            }
            b')' => match (outer.pop(), self.value) {
                (Some(frame), Some(value)) => frame.with(value),
                _ => None,
            },
            b'+' | b'-' | b'*' | b'/' | b'\\' => Some(Frame {
                value: self.value,
                operator: sign,
            }),
            _ => None,
        })
    }

    /// A value comes next.
    fn with(self, next: i64) -> Option<Frame> {
        let value = match (self.value, self.operator) {
            (None, b'-') => 0i64.checked_sub(next)?,
            (None, _) => next,
            (Some(value), b'+') => value.checked_add(next)?,
            (Some(value), b'-') => value.checked_sub(next)?,
            (Some(value), b'*') => value.checked_mul(next)?,
            (Some(value), b'/') => value.checked_div(next)?,
            (Some(value), _) => value.checked_rem(next)?,
        };
        Some(Frame {
            value: Some(value),
            operator: b'+',
        })
    }
}

/// The parts of an array that a statement uses, as far as they are known.
pub fn parts(
    alloc: Global,
    said: &[u8],
    name: &[u8],
    known: &[Constant<'_>],
) -> Result<Vec<Part>, AllocError> {
    let mut found = Vec::new(alloc);
    let mut rest = said;
    for _ in 0..said.len() {
        let Some((word, more)) = next_word(rest) else {
            break;
        };
        if word == name {
            let end = said
                .len()
                .saturating_sub(more.len())
                .saturating_sub(word.len());
            let front = said.get(..end).unwrap_or(&[]);
            if let Some(part) = selected_part(alloc, front, more, known)? {
                found.push(part)?;
            }
        }
        rest = more;
    }
    Ok(found)
}

/// The part that is selected of an array between these bytes, if it is known.
fn selected_part(
    alloc: Global,
    front: &[u8],
    after: &[u8],
    known: &[Constant<'_>],
) -> Result<Option<Part>, AllocError> {
    if let Some(inside) = after.strip_prefix(b"[") {
        let (subscript, behind) = closed(inside);
        let is_whole = !behind.starts_with(b"[");
        return Ok(match value(alloc, subscript, known)? {
            Some(from) => Some(Part {
                from,
                count: 1,
                is_whole,
            }),
            None => None,
        });
    }
    if !front.ends_with(b"[") {
        return Ok(None);
    }
    let (segment, _) = closed(after);
    let Some((start, count)) = around_word(segment, b"FOR") else {
        return Ok(None);
    };
    let from = match around_word(start, b"FROM") {
        Some((_, start)) => value(alloc, start, known)?,
        None => Some(0),
    };
    Ok(match (from, value(alloc, count, known)?) {
        (Some(from), Some(count)) => Some(Part {
            from,
            count,
            is_whole: true,
        }),
        _ => None,
    })
}

impl Part {
    /// What is behind the last element.
    pub fn end(self) -> i64 {
        self.from.saturating_add(self.count)
    }

    /// Whether two parts have an element, or something of one.
    fn overlaps(self, other: Part) -> bool {
        self.from.max(other.from) < self.end().min(other.end())
    }

    /// The first element that two parts have whole, if there is one.
    pub fn meets(self, other: Part) -> Option<i64> {
        let first = self.from.max(other.from);
        if self.is_whole && other.is_whole && first < self.end().min(other.end()) {
            Some(first)
        } else {
            None
        }
    }
}

/// The parts of an array that a statement uses, and whether these are all.
#[derive(Drop)]
pub struct Reach {
    parts: Vec<Part>,
    is_all: bool,
}

impl Reach {
    /// What a statement uses of an array. Many parts are not told apart.
    pub fn of(
        alloc: Global,
        said: &[u8],
        name: &[u8],
        known: &[Constant<'_>],
    ) -> Result<Reach, AllocError> {
        let parts = parts(alloc, said, name, known)?;
        let is_all = parts.len() == word_count(said, name) && parts.len() <= REACH_LIMIT;
        Ok(Reach { parts, is_all })
    }

    /// Whether one of them may be a part of one of others.
    pub fn may_meet(&self, other: &Reach) -> bool {
        if !self.is_all || !other.is_all {
            return true;
        }
        self.parts.iter().any(|part| other.parts.iter().any(|there| part.overlaps(*there)))
    }
}

/// The first element that one of some parts has with one of others.
pub fn meeting(some: &[Part], others: &[Part]) -> Option<i64> {
    some.iter()
        .find_map(|part| others.iter().find_map(|other| part.meets(*other)))
}
