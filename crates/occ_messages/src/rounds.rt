//! The rounds of replicators around a line, and the elements that it selects in them.
use super::declared::is_replicator_of;
use super::numbers::{Constant, value};
use super::text::{
    Lines, around_word, closed, column, is_skipped, last_word, next_word, split_once,
};
use std::alloc::{AllocError, Global};

/// How many rounds are looked at.
const ROUND_LIMIT: i64 = 256;

/// A replicator: its index, its first value and how many there are.
#[derive(Clone, Copy)]
pub struct Rounds<'a> {
    pub index: &'a [u8],
    pub base: i64,
    pub count: i64,
}

/// The replicator of a statement, if its base and count are known.
pub fn rounds_of<'a>(
    alloc: Global,
    said: &'a [u8],
    known: &[Constant<'_>],
) -> Result<Option<Rounds<'a>>, AllocError> {
    let Some((front, count)) = around_word(said, b"FOR") else {
        return Ok(None);
    };
    let Some((front, base)) = split_once(front, b"=") else {
        return Ok(None);
    };
    let index = last_word(front);
    if !is_replicator_of(said, index) {
        return Ok(None);
    }
    Ok(
        match (value(alloc, base, known)?, value(alloc, count, known)?) {
            (Some(base), Some(count)) => Some(Rounds { index, base, count }),
            _ => None,
        },
    )
}

/// The replicators around a line that are under another one, the nearest first.
fn around<'a>(
    alloc: Global,
    lines: Lines<'a>,
    number: u32,
    outer: u32,
    known: &[Constant<'_>],
) -> Result<Vec<Rounds<'a>>, AllocError> {
    let mut found = Vec::new(alloc);
    let mut depth = column(lines.line(number));
    for line in lines.between(outer, number).iter().rev() {
        if is_skipped(line) || column(line) >= depth {
            continue;
        }
        depth = column(line);
        if let Some(rounds) = rounds_of(alloc, line.trim_ascii(), known)? {
            found.push(rounds)?;
        }
    }
    Ok(found)
}

/// The selectors of the elements that a line under another one uses of an array in all rounds around it, as far as they are
/// known.
pub fn elements<'a>(
    alloc: Global,
    lines: Lines<'a>,
    number: u32,
    outer: u32,
    name: &[u8],
    known: &[Constant<'a>],
) -> Result<Vec<String>, AllocError> {
    let mut found = Vec::new(alloc);
    let loops = around(alloc, lines, number, outer, known)?;
    let said = lines.statement(number);
    for round in 0..count_of(loops.as_slice()) {
        let values = values(alloc, loops.as_slice(), round, known)?;
        add_elements(alloc, said, name, values.as_slice(), &mut found)?;
    }
    Ok(found)
}

/// How many rounds some replicators have together, up to a limit.
fn count_of(loops: &[Rounds<'_>]) -> i64 {
    let mut count = 1i64;
    for one in loops {
        count = count.saturating_mul(one.count);
    }
    count.min(ROUND_LIMIT)
}

/// The constants with the values of the indices in a round.
fn values<'a>(
    alloc: Global,
    loops: &[Rounds<'a>],
    round: i64,
    known: &[Constant<'a>],
) -> Result<Vec<Constant<'a>>, AllocError> {
    let mut values = Vec::from_slice(alloc, known)?;
    let mut rest = round;
    for one in loops {
        let step = rest.checked_rem(one.count).unwrap_or(0);
        rest = rest.checked_div(one.count).unwrap_or(0);
        values.push(Constant {
            name: one.index,
            value: one.base.saturating_add(step),
        })?;
    }
    Ok(values)
}

/// Adds the selectors after each mention of an array, with their values, if these are known.
fn add_elements(
    alloc: Global,
    said: &[u8],
    name: &[u8],
    known: &[Constant<'_>],
    found: &mut Vec<String>,
) -> Result<(), AllocError> {
    let mut rest = said;
    for _ in 0..said.len() {
        let Some((word, more)) = next_word(rest) else {
            break;
        };
        rest = more;
        if word == name
            && let Some(element) = element(alloc, more, known)?
        {
            found.push(element)?;
        }
    }
    Ok(())
}

/// The selectors at the front of some bytes, with their values, if there are some and all are known.
fn element(
    alloc: Global,
    bytes: &[u8],
    known: &[Constant<'_>],
) -> Result<Option<String>, AllocError> {
    let mut text = String::new(alloc);
    let mut rest = bytes;
    for _ in 0..bytes.len() {
        let Some(inside) = rest.strip_prefix(b"[") else {
            break;
        };
        let (selector, more) = closed(inside);
        let Some(index) = value(alloc, selector, known)? else {
            return Ok(None);
        };
        text.push_str(format!(in alloc; "[{index}]")?.as_str())?;
        rest = more;
    }
    Ok(if text.is_empty() { None } else { Some(text) })
}

/// The first of some texts that is one of others.
pub fn common<'a>(some: &'a [String], others: &[String]) -> Option<&'a str> {
    for text in some {
        if others.iter().any(|other| other.as_str() == text.as_str()) {
            return Some(text.as_str());
        }
    }
    None
}
