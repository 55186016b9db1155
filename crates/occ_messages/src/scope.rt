//! What is told of a name that is not in scope, and where the names of a line are specified.
use super::declared::{Typed, field_names, selected, specified_by, specifies, type_of};
use super::protocol::is_tag;
use super::similar::like_in;
use super::spelling::{is_predefined, is_reserved, is_value_word};
use super::text::{
    Numbered, WORD_LIMIT, around_word, column, has, is_skipped, last_word, next_word, number_of,
    split_once,
};
use super::told::{Place, Told, shown};
use std::alloc::{AllocError, Global};

/// How many names of a line are looked up.
const NAME_LIMIT: usize = 3;

/// Tells of a name that is not in scope what it may be.
pub fn not_in_scope(alloc: Global, place: Place<'_>, told: &mut Told) -> Result<(), AllocError> {
    is_tag(alloc, place, told)?;
    if !told.is_said() {
        is_value_word(alloc, place, told)?;
    }
    if !told.is_said() {
        is_field(alloc, place, told)?;
    }
    if !told.is_said() {
        is_dotted(alloc, place, told)?;
    }
    if told.is_said() {
        return Ok(());
    }
    let name = shown(place.name);
    told.say(format!(in alloc; "`{name}` is not in scope")?);
    if is_predefined(place) {
        return told.help(String::from_str(
            alloc,
            "there are no predefined procedures and functions here: write your own",
        )?);
    }
    elsewhere(alloc, place, told)?;
    similar(alloc, place, told)
}

/// Tells that a record has no such field, if the name selects one.
fn is_field(alloc: Global, place: Place<'_>, told: &mut Told) -> Result<(), AllocError> {
    let Some((front, after)) = around_word(place.said, place.name) else {
        return Ok(());
    };
    let front = front.strip_suffix(b"[").unwrap_or(&[]);
    if !after.starts_with(b"]") {
        return Ok(());
    }
    let Some(record) = record_before(place, front) else {
        return Ok(());
    };
    let names = field_names(alloc, place.lines, record.text)?;
    if names.is_empty() {
        return Ok(());
    }
    let (name, text) = (shown(place.name), shown(record.text));
    told.say(format!(in alloc; "`{name}` is no field of {text}")?);
    told.help(format!(in alloc; "the fields of {text} are {names}")?)
}

/// Tells how a field is selected, if the name is one of a record with a dot and a field.
fn is_dotted(alloc: Global, place: Place<'_>, told: &mut Told) -> Result<(), AllocError> {
    let Some((name, field)) = split_once(place.name, b".") else {
        return Ok(());
    };
    let Some(record) = type_of(place.lines, place.number, name) else {
        return Ok(());
    };
    if field_names(alloc, place.lines, record.text)?.is_empty() {
        return Ok(());
    }
    let whole = shown(place.name);
    let (name, field) = (shown(name), shown(field));
    told.say(format!(in alloc;
        "`{whole}` is one name, and not in scope; a field is selected by `{name}[{field}]`"
    )?);
    Ok(())
}

/// The type of what stands at the end of some bytes: a name with its selectors.
fn record_before<'a>(place: Place<'a>, front: &[u8]) -> Option<Typed<'a>> {
    let start = match front.iter().rposition(|b| matches!(b, b' ' | b'(' | b',')) {
        Some(at) => front.get(at.saturating_add(1)..).unwrap_or(&[]),
        None => front,
    };
    let (name, selectors) = next_word(start)?;
    let whole = type_of(place.lines, place.number, name)?;
    selected(place.lines, whole, selectors)
}

/// Shows a line that specifies the name and is not seen from here.
fn elsewhere(alloc: Global, place: Place<'_>, told: &mut Told) -> Result<(), AllocError> {
    for (at, line) in place.lines.all.iter().enumerate() {
        let number = number_of(at);
        if number == place.number || is_skipped(line) || !has(line, place.name) {
            continue;
        }
        if specifies(place.lines.statement(number), place.name) {
            told.help(not_seen(alloc, place, number)?)?;
            return told.show(alloc, Numbered { number, line }, place.name, "");
        }
    }
    Ok(())
}

/// Why a name is not seen that a line specifies.
fn not_seen(alloc: Global, place: Place<'_>, number: u32) -> Result<String, AllocError> {
    let name = shown(place.name);
    if is_around(place, number) {
        format!(in alloc; "`{name}` is not seen in its own body: no PROC or FUNCTION calls itself")
    } else if number > place.number {
        format!(in alloc; "line {number} specifies `{name}`, and is seen from the next line on")
    } else {
        format!(in alloc; "line {number} specifies a `{name}` that is not seen here")
    }
}

/// Whether a line is in the body of the head of that line.
fn is_around(place: Place<'_>, number: u32) -> bool {
    let depth = column(place.lines.line(number));
    let between = place.lines.between(number, place.number);
    number < place.number
        && column(place.line) > depth
        && between
            .iter()
            .all(|line| is_skipped(line) || column(line) > depth)
}

/// Tells a word of the lines above that is almost the name: of the nearest line that has one.
fn similar(alloc: Global, place: Place<'_>, told: &mut Told) -> Result<(), AllocError> {
    match like_above(place) {
        Some((like, number)) => {
            let like = shown(like);
            told.help(format!(in alloc; "there is `{like}` in line {number}")?)
        }
        None => Ok(()),
    }
}

/// A word of the lines above that is almost the name, and its line: of the nearest line that has one.
fn like_above<'a>(place: Place<'a>) -> Option<(&'a [u8], u32)> {
    for (at, line) in place.lines.before(place.number).iter().enumerate().rev() {
        let like = like_in(line, place.name);
        if !like.is_empty() && !is_skipped(line) {
            return Some((like, number_of(at)));
        }
    }
    None
}

/// Shows where the first few names of a line are specified.
pub fn operand_lines(alloc: Global, place: Place<'_>, told: &mut Told) -> Result<(), AllocError> {
    let mut rest = place.said;
    let mut left = NAME_LIMIT;
    for _ in 0..place.said.len().min(WORD_LIMIT) {
        let Some((word, more)) = next_word(rest) else {
            break;
        };
        if left == 0 {
            break;
        }
        rest = more;
        if is_reserved(word) || last_word(word).first().is_some_and(u8::is_ascii_digit) {
            continue;
        }
        if let Some(found) = specified_by(place.lines, place.number, word) {
            told.show(alloc, found, word, "")?;
            left = left.saturating_sub(1);
        }
    }
    Ok(())
}
