//! Better words for codes of which the line says which case it is.
use super::declared::{abbreviated, head_name, is_replicator_of, specified_by, type_in};
use super::mismatch::{actuals, assigned, call};
use super::numbers::{Reach, constants, value};
use super::spelling::is_reserved;
use super::text::{
    Numbered, WORD_LIMIT, around_word, closed, column, cut, first_word, has, has_word, is_skipped,
    last_word, line_after, next_word, number_of, split_once,
};
use super::told::{Place, Told, shown};
use occ_base::Code;
use std::alloc::{AllocError, Global};

/// How many components a PAR may have at most.
const PAR_LIMIT: i64 = 256;

/// Tells that the list of a library names the reported unit, or which file a library is that is not there.
pub fn library(alloc: Global, place: Place<'_>, told: &mut Told) -> Result<(), AllocError> {
    let Some(stem) = library_of(place.line) else {
        return Ok(());
    };
    let list = shown(stem);
    if place.name.strip_suffix(b".occ") != Some(stem) {
        return told.help(format!(in alloc; "`{list}.lbb` lists it")?);
    }
    if place.code == Code::G1 {
        told.help(format!(in alloc;
            "`{list}.lib` is what `{list}.lbb` lists, and `{list}.occ` where no such list is there"
        )?)?;
    }
    Ok(())
}

/// The name of the library that a `#USE` names, without `.lib`.
fn library_of(line: &[u8]) -> Option<&[u8]> {
    let (_, quoted) = cut(line, b'"')?;
    let (name, _) = cut(quoted, b'"')?;
    name.strip_suffix(b".lib")
}

/// Shows where the reported name is specified.
pub fn specification(alloc: Global, place: Place<'_>, told: &mut Told) -> Result<(), AllocError> {
    match specified_by(place.lines, place.number, place.name) {
        Some(found) => told.show(alloc, found, place.name, "specified here"),
        None => Ok(()),
    }
}

/// Tells why a name may not be changed.
pub fn unchanged(alloc: Global, place: Place<'_>, told: &mut Told) -> Result<(), AllocError> {
    if place.name.is_empty() {
        return actuals(alloc, place, told);
    }
    let Some(found) = specified_by(place.lines, place.number, place.name) else {
        return Ok(());
    };
    let said = place.lines.statement(found.number);
    let (name, number) = (shown(place.name), found.number);
    let what = if call(place.said).is_some() {
        "is given to a formal that is no VAL"
    } else {
        "may not be changed"
    };
    let sort = if is_replicator_of(said, place.name) {
        "the index of a replicator"
    } else if is_value(said, place.name) {
        "a VAL"
    } else {
        ""
    };
    if !sort.is_empty() {
        told.say(format!(in alloc; "`{name}` is {sort} (line {number}), and {what}")?);
    }
    told.show(alloc, found, place.name, "specified here")
}

/// Whether a statement specifies a name as a VAL.
fn is_value(said: &[u8], name: &[u8]) -> bool {
    first_word(said) == b"VAL".as_slice() || type_in(said, name).starts_with(b"VAL")
}

/// Tells of what sort a name is.
pub fn sort(alloc: Global, place: Place<'_>, told: &mut Told) -> Result<(), AllocError> {
    let Some(found) = specified_by(place.lines, place.number, place.name) else {
        return Ok(());
    };
    let said = place.lines.statement(found.number);
    let (name, number) = (shown(place.name), found.number);
    let kind = sort_in(said, place.name);
    told.say(format!(in alloc;
        "`{name}` is {kind} (line {number}), and something else is needed here"
    )?);
    told.show(alloc, found, place.name, "specified here")
}

/// Of what sort a name is that a statement specifies.
fn sort_in(said: &[u8], name: &[u8]) -> &'static str {
    let text = type_in(said, name);
    match first_word(said) {
        b"PROTOCOL" => "a protocol",
        b"DATA" => "a type",
        b"PROC" if text.is_empty() => "a PROC",
        _ if head_name(said) == name => "a FUNCTION",
        _ if has_word(text, b"CHAN") => "a channel",
        _ if has_word(text, b"TIMER") => "a timer",
        _ if is_value(said, name) => "a value",
        _ => "a variable",
    }
}

/// Tells which size or option is not constant.
pub fn not_constant(alloc: Global, place: Place<'_>, told: &mut Told) -> Result<(), AllocError> {
    let is_size = place.said.starts_with(b"[") || place.said.ends_with(b":");
    let (what, text) = if is_size {
        ("the size of an array", size_in(place.said))
    } else {
        ("an option", place.said)
    };
    match varying(place, text) {
        Some((name, found)) => {
            let word = shown(name);
            told.say(format!(in alloc; "{what} has to be constant, and `{word}` varies")?);
            told.mean(place, name);
            told.show(alloc, found, name, "specified here")
        }
        None => {
            told.say(format!(in alloc; "{what} has to be constant")?);
            Ok(())
        }
    }
}

/// What is in the first square brackets of a line.
fn size_in(said: &[u8]) -> &[u8] {
    match split_once(said, b"[") {
        Some((_, inside)) => closed(inside).0,
        None => &[],
    }
}

/// The first name of an expression that is no constant and no index, and the line that specifies it.
fn varying<'a>(place: Place<'a>, text: &'a [u8]) -> Option<(&'a [u8], Numbered<'a>)> {
    let mut rest = text;
    for _ in 0..text.len().min(WORD_LIMIT) {
        let (word, more) = next_word(rest)?;
        rest = more;
        if word == b"SIZE".as_slice() {
            return None;
        }
        if is_reserved(word) {
            continue;
        }
        if let Some(found) = specified_by(place.lines, place.number, word)
            && abbreviated(place.lines.said(found.number)).is_none()
        {
            return Some((word, found));
        }
    }
    None
}

/// Tells what of the base and the count of a PAR may not be.
pub fn replicated(alloc: Global, place: Place<'_>, told: &mut Told) -> Result<(), AllocError> {
    let Some((front, count)) = around_word(place.said, b"FOR") else {
        return Ok(());
    };
    let known = constants(alloc, place.lines, place.number)?;
    if let Some(number) = value(alloc, count, known.as_slice())?
        && (number < 0 || number > PAR_LIMIT)
    {
        told.say(format!(in alloc; "the count of this PAR is {number}, and may be from 0 to 256")?);
        told.mean_in(place, count, first_word(count.trim_ascii()));
        return Ok(());
    }
    let Some((_, base)) = split_once(front, b"=") else {
        return Ok(());
    };
    match varying(place, count).or(varying(place, base)) {
        Some((name, line)) => varies(alloc, place, name, line, told),
        None => Ok(()),
    }
}

/// Tells which name in the base or the count of a PAR varies.
fn varies(
    alloc: Global,
    place: Place<'_>,
    name: &[u8],
    line: Numbered<'_>,
    told: &mut Told,
) -> Result<(), AllocError> {
    let word = shown(name);
    told.say(format!(in alloc;
        "base and count of a PAR have to be constant, and `{word}` varies"
    )?);
    told.mean(place, name);
    told.show(alloc, line, name, "specified here")
}

/// Tells what of the rest of a line is missing.
pub fn unfinished(alloc: Global, place: Place<'_>, told: &mut Told) -> Result<(), AllocError> {
    let last = last_part(place.said);
    let end = shown(last);
    match line_after(place.lines, place.number) {
        Some(next) if column(next.line) <= column(place.line) => {
            let number = next.number;
            told.say(format!(in alloc;
                "what comes after `{end}` is missing, or line {number} is not as far in as this line"
            )?);
            told.show_start(alloc, next)
        }
        _ => {
            told.say(format!(in alloc; "what comes after `{end}` is missing")?);
            Ok(())
        }
    }
}

/// The word or the sign with which a line ends.
fn last_part(said: &[u8]) -> &[u8] {
    let word = last_word(said);
    if said.ends_with(word) && !word.is_empty() {
        return word;
    }
    match said.iter().rposition(|b| *b == b' ') {
        Some(at) => said.get(at..).unwrap_or(said).trim_ascii(),
        None => said,
    }
}

/// Tells what effect a FUNCTION has.
pub fn effect(alloc: Global, place: Place<'_>, told: &mut Told) -> Result<(), AllocError> {
    let first = first_word(place.said);
    if place.name.is_empty() {
        if matches!(first, b"PAR" | b"ALT" | b"PRI") {
            let word = shown(first);
            told.say(format!(in alloc; "a FUNCTION has no {word}")?);
        }
        return Ok(());
    }
    let name = shown(place.name);
    if assigned(place.said).is_some() {
        told.say(format!(in alloc; "`{name}` is changed by a FUNCTION, and stands outside of it")?);
    } else if place.said.contains(&b'!') || place.said.contains(&b'?') {
        told.say(format!(in alloc; "a FUNCTION communicates by `{name}`")?);
    }
    specification(alloc, place, told)
}

/// Tells which sizes are meant.
pub fn sizes(alloc: Global, place: Place<'_>, told: &mut Told) -> Result<(), AllocError> {
    let words = if has_word(place.said, b"RETYPES") || has_word(place.said, b"RESHAPES") {
        "the two have not the same number of bytes"
    } else {
        "this type is too large"
    };
    told.say(String::from_str(alloc, words)?);
    Ok(())
}

/// Shows the line above in the same column that says the same.
pub fn twice(alloc: Global, place: Place<'_>, told: &mut Told) -> Result<(), AllocError> {
    let Some(same) = same_above(place) else {
        return Ok(());
    };
    let (said, number) = (shown(same.line), same.number);
    told.say(format!(in alloc; "`{said}` stands here and in line {number}, in one list")?);
    told.show_start(alloc, same)
}

/// The nearest line above in the same column that says the same, with none between that is less far in.
fn same_above<'a>(place: Place<'a>) -> Option<Numbered<'a>> {
    for (at, line) in place.lines.before(place.number).iter().enumerate().rev() {
        if is_skipped(line) || column(line) > column(place.line) {
            continue;
        }
        if column(line) < column(place.line) {
            break;
        }
        if line.trim_ascii() == place.line.trim_ascii() {
            let number = number_of(at);
            return Some(Numbered { number, line });
        }
    }
    None
}

/// Shows the nearest abbreviation above that reads the name.
pub fn abbreviation(alloc: Global, place: Place<'_>, told: &mut Told) -> Result<(), AllocError> {
    match abbreviated_above(alloc, place)? {
        Some(found) => told.show(alloc, found, place.name, "abbreviated here"),
        None => Ok(()),
    }
}

/// The nearest abbreviation above that reads a part of what the name stands for which the line may use.
fn abbreviated_above<'a>(
    alloc: Global,
    place: Place<'a>,
) -> Result<Option<Numbered<'a>>, AllocError> {
    let known = constants(alloc, place.lines, place.number)?;
    let reach = Reach::of(alloc, place.said, place.name, known.as_slice())?;
    let mut depth = column(place.line);
    for (at, line) in place.lines.before(place.number).iter().enumerate().rev() {
        if is_skipped(line) {
            continue;
        }
        let here = column(line);
        let number = number_of(at);
        let said = place.lines.said(number);
        if here <= depth
            && has(line, b" IS ")
            && reads(said, place.name)
            && Reach::of(alloc, said, place.name, known.as_slice())?.may_meet(&reach)
        {
            return Ok(Some(Numbered { number, line }));
        }
        depth = depth.min(here);
    }
    Ok(None)
}

/// Whether what a statement abbreviates has a name in it.
fn reads(said: &[u8], name: &[u8]) -> bool {
    abbreviated(said).is_some_and(|(_, rest)| has_word(rest, name))
}
