//! Which constant subscript is outside of its array.
use super::declared::{Typed, type_of};
use super::numbers::{Constant, Part, constants, parts, value};
use super::spelling::is_reserved;
use super::text::{Numbered, WORD_LIMIT, closed, next_word};
use super::told::{Place, Told, shown};
use std::alloc::{AllocError, Global};

/// Tells which subscript is outside of its array: the first that is found.
pub fn outside(alloc: Global, place: Place<'_>, told: &mut Told) -> Result<(), AllocError> {
    let known = constants(alloc, place.lines, place.number)?;
    let mut rest = place.said;
    for _ in 0..place.said.len().min(WORD_LIMIT) {
        let Some((word, more)) = next_word(rest) else {
            break;
        };
        rest = more;
        if !told.is_said() && !is_reserved(word) {
            of_array(alloc, place, told, word, known.as_slice())?;
        }
    }
    Ok(())
}

/// An array that a line names, with the line that specifies it and its first size.
#[derive(Clone, Copy)]
struct Array<'a> {
    name: &'a [u8],
    number: u32,
    size: i64,
}

/// The array of a name, if it is one and its size is known.
fn array_of<'a>(
    alloc: Global,
    place: Place<'a>,
    name: &'a [u8],
    known: &[Constant<'_>],
) -> Result<Option<Array<'a>>, AllocError> {
    let Some(Typed { text, number }) = type_of(place.lines, place.number, name) else {
        return Ok(None);
    };
    let Some(inside) = text.strip_prefix(b"[") else {
        return Ok(None);
    };
    Ok(match value(alloc, closed(inside).0, known)? {
        Some(size) => Some(Array { name, number, size }),
        None => None,
    })
}

/// Tells that a part of an array is outside of it, if so it is.
fn of_array(
    alloc: Global,
    place: Place<'_>,
    told: &mut Told,
    name: &[u8],
    known: &[Constant<'_>],
) -> Result<(), AllocError> {
    let Some(array) = array_of(alloc, place, name, known)? else {
        return Ok(());
    };
    let found = parts(alloc, place.said, name, known)?;
    match found.iter().find(|part| is_outside(**part, array.size)) {
        Some(part) => tell_outside(alloc, place, told, array, far_of(*part)),
        None => Ok(()),
    }
}

/// Tells that an element is outside of its array.
fn tell_outside(
    alloc: Global,
    place: Place<'_>,
    told: &mut Told,
    array: Array<'_>,
    far: i64,
) -> Result<(), AllocError> {
    let Array { name, number, size } = array;
    let (array, last) = (shown(name), size.saturating_sub(1));
    told.say(format!(in alloc;
        "`{array}[{far}]` is outside of its array: `{array}` has the elements 0 to {last} (line {number})"
    )?);
    told.mean(place, name);
    let line = place.lines.line(number);
    told.show(alloc, Numbered { number, line }, name, "")
}

/// The element of a part that is farthest outside.
fn far_of(part: Part) -> i64 {
    if part.from < 0 {
        part.from
    } else {
        part.end().saturating_sub(1)
    }
}

/// Whether a part is not in an array of a size.
fn is_outside(part: Part, size: i64) -> bool {
    part.from < 0 || part.end() > size
}
