//! What the lines under a PAR do with a name, also by way of the PROCs that they call.
use super::declared::{formals, specified_by, type_among};
use super::mismatch::{assigned, call};
use super::spelling::is_reserved;
use super::text::{
    Lines, after_word, column, cut, first_word, has, has_word, is_skipped, last_word, next_item,
    number_of, split_once,
};
use super::told::Place;
use std::alloc::{AllocError, Global};

/// How many PROCs are looked into for one use.
const PROC_LIMIT: usize = 8;

/// How many calls are looked into that do not have a name.
const CALL_LIMIT: usize = 8;

/// How many lines that use a name are looked at.
const USE_LIMIT: usize = 32;

/// What is done with a name.
#[derive(Clone, Copy, Default)]
pub struct Deeds {
    pub changes: bool,
    pub inputs: bool,
    pub outputs: bool,
}

/// A line that uses a name, and the component of the PAR in which it is.
#[derive(Clone, Copy)]
pub struct Use {
    pub number: u32,
    pub component: usize,
    pub deeds: Deeds,
}

/// A formal of a PROC whose body is to be looked at.
#[derive(Clone, Copy)]
struct Formal<'a> {
    head: u32,
    name: &'a [u8],
}

impl Deeds {
    /// What is done by one or the other.
    fn or(self, other: Deeds) -> Deeds {
        Deeds {
            changes: self.changes || other.changes,
            inputs: self.inputs || other.inputs,
            outputs: self.outputs || other.outputs,
        }
    }
}

/// The lines under a PAR that use a name, or call a PROC whose body does.
pub fn uses(alloc: Global, place: Place<'_>, name: &[u8]) -> Result<Vec<Use>, AllocError> {
    let mut found = Vec::new(alloc);
    let depth = column(place.line);
    let mut component = 0usize;
    let mut left = CALL_LIMIT;
    for (at, line) in place.lines.after(place.number).iter().enumerate() {
        if is_skipped(line) {
            continue;
        }
        if column(line) <= depth || found.len() >= USE_LIMIT {
            break;
        }
        let is_process = !line.trim_ascii().ends_with(b":");
        if column(line) == depth.saturating_add(2) && is_process {
            component = component.saturating_add(1);
        }
        let number = number_of(at).saturating_add(place.number);
        let said = place.lines.said(number);
        let deeds = if has(line, name) && has_word(said, name) {
            Some(all_deeds(alloc, place.lines, number, name)?)
        } else if left > 0
            && let Some((called, _)) = call(said)
        {
            left = left.saturating_sub(1);
            outer_deeds(alloc, place.lines, number, called, name)?
        } else {
            None
        };
        if let Some(deeds) = deeds {
            found.push(Use {
                number,
                component,
                deeds,
            })?;
        }
    }
    Ok(found)
}

/// What the body of a PROC that a line calls does with a name from outside, if it has it.
fn outer_deeds(
    alloc: Global,
    lines: Lines<'_>,
    number: u32,
    called: &[u8],
    name: &[u8],
) -> Result<Option<Deeds>, AllocError> {
    let Some(head) = specified_by(lines, number, called) else {
        return Ok(None);
    };
    let is_own = has_word(formals(lines.statement(head.number)), name);
    if is_own || !is_in_body(lines, head.number, name) {
        return Ok(None);
    }
    let mut pending = Vec::new(alloc);
    let formal = Formal {
        head: head.number,
        name,
    };
    Ok(Some(body_deeds(lines, formal, &mut pending)?))
}

/// Whether a line under the head of a PROC has a name.
fn is_in_body(lines: Lines<'_>, head: u32, name: &[u8]) -> bool {
    let depth = column(lines.line(head));
    for line in lines.after(head) {
        if is_skipped(line) {
            continue;
        }
        if column(line) <= depth {
            break;
        }
        if has_word(line, name) {
            return true;
        }
    }
    false
}

/// What a line does with a name.
fn all_deeds(
    alloc: Global,
    lines: Lines<'_>,
    number: u32,
    name: &[u8],
) -> Result<Deeds, AllocError> {
    let mut pending = Vec::new(alloc);
    let mut all = line_deeds(lines, number, name, &mut pending)?;
    for _ in 0..PROC_LIMIT {
        let Some(formal) = pending.pop() else {
            break;
        };
        all = all.or(body_deeds(lines, formal, &mut pending)?);
    }
    Ok(all)
}

/// What the body of a PROC does with a formal, as far as its own lines say it.
fn body_deeds<'a>(
    lines: Lines<'a>,
    formal: Formal<'a>,
    pending: &mut Vec<Formal<'a>>,
) -> Result<Deeds, AllocError> {
    let mut all = Deeds::default();
    let depth = column(lines.line(formal.head));
    for (at, line) in lines.after(formal.head).iter().enumerate() {
        if is_skipped(line) {
            continue;
        }
        if column(line) <= depth {
            break;
        }
        if has(line, formal.name) {
            let number = number_of(at).saturating_add(formal.head);
            all = all.or(line_deeds(lines, number, formal.name, pending)?);
        }
    }
    Ok(all)
}

/// What a line does with a name by itself. A formal that stands for the name in a call is added to those to be looked at.
fn line_deeds<'a>(
    lines: Lines<'a>,
    number: u32,
    name: &[u8],
    pending: &mut Vec<Formal<'a>>,
) -> Result<Deeds, AllocError> {
    let said = lines.statement(number);
    let Some((called, actuals)) = call(said) else {
        return Ok(own_deeds(said, name));
    };
    if let Some(head) = specified_by(lines, number, called) {
        add_formals(lines, head.number, actuals, name, pending)?;
    }
    Ok(Deeds::default())
}

/// Adds the formals of the PROC with a head that stand for a name in a call.
fn add_formals<'a>(
    lines: Lines<'a>,
    head: u32,
    actuals: &[u8],
    name: &[u8],
    pending: &mut Vec<Formal<'a>>,
) -> Result<(), AllocError> {
    let list = formals(lines.statement(head));
    let (mut given, mut wanted) = (actuals, list);
    for _ in 0..actuals.len() {
        let (Some((actual, more)), Some((formal, others))) = (
            next_item(given, b','),
            next_item(wanted, b','),
        ) else {
            break;
        };
        let formal = last_word(formal);
        if is_of(actual, name) && !type_among(list, formal).starts_with(b"VAL") {
            pending.push(Formal { head, name: formal })?;
        }
        (given, wanted) = (more, others);
    }
    Ok(())
}

/// Whether a name, or a part of what it names, is meant by an expression.
pub fn is_of(expression: &[u8], name: &[u8]) -> bool {
    let said = expression.trim_ascii();
    let said = said.strip_prefix(b"[").unwrap_or(said);
    first_word(said.trim_ascii()) == name
}

/// Whether one of the items of a list is of that name.
fn are_of(list: &[u8], separator: u8, name: &[u8]) -> bool {
    let mut rest = list;
    for _ in 0..list.len() {
        let Some((item, more)) = next_item(rest, separator) else {
            break;
        };
        if is_of(item, name) || counted_of(item, name) {
            return true;
        }
        rest = more;
    }
    false
}

/// Whether the array of an item with a count is of that name.
fn counted_of(item: &[u8], name: &[u8]) -> bool {
    match split_once(item, b"::") {
        Some((_, array)) => is_of(array, name),
        None => false,
    }
}

/// What a statement that is no call does with a name.
fn own_deeds(said: &[u8], name: &[u8]) -> Deeds {
    let mut deeds = Deeds::default();
    let said = cut(said, b'&').map_or(said, |(_, input)| input);
    if let Some((targets, _)) = assigned(said) {
        deeds.changes = are_of(targets, b',', name);
        return deeds;
    }
    if is_reserved(first_word(said)) {
        return deeds;
    }
    if let Some((channel, items)) = cut(said, b'?') {
        deeds.inputs = is_of(channel, name);
        let items = after_word(items, b"CASE").unwrap_or(items);
        deeds.changes = are_of(items, b';', name);
    } else if let Some((channel, _)) = cut(said, b'!') {
        deeds.outputs = is_of(channel, name);
    } else {
        deeds.changes = said.contains(&b';') && are_of(said, b';', name);
    }
    deeds
}
