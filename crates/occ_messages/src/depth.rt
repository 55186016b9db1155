//! What is wrong with a line that may not be where it stands, or lacks what belongs to it.
use super::declared::add_number;
use super::text::{
    Lines, Numbered, column, first_word, has, has_word, is_skipped, line_after, line_before,
    line_behind, number_of, parent,
};
use super::told::{Place, Told};
use std::alloc::{AllocError, Global};

/// Tells what is wrong with the depth of a line, or with those around it.
pub fn depth(alloc: Global, place: Place<'_>, told: &mut Told) -> Result<(), AllocError> {
    let depth = column(place.line);
    if is_head(place.said) {
        closing(alloc, place, depth, told)?;
    }
    if !told.is_said() {
        sequence(alloc, place, told)?;
    }
    if told.is_said() {
        return Ok(());
    }
    if let Some(before) = line_before(place.lines, place.number)
        && let Some((front, behind)) = beside(before, depth)
    {
        let number = before.number;
        told.show_start(alloc, before)?;
        told.say(format!(in alloc; "{front} line {number}{behind}")?);
    } else if let Some(words) = around(place, depth) {
        told.say(String::from_str(alloc, words)?);
    }
    Ok(())
}

/// What is wrong with the depth of a line beside the one before it: the words before the number of that and after it.
fn beside(before: Numbered<'_>, depth: usize) -> Option<(&'static str, &'static str)> {
    let (said, column) = (before.line.trim_ascii(), column(before.line));
    if column < depth && !takes_lines(said) {
        Some(("this line is deeper than", ", which takes nothing under it"))
    } else if column == depth && is_opener(said) {
        Some(("what belongs to", " stands under it, two blanks further in"))
    } else if column.saturating_add(2) < depth {
        Some((
            "this line is too deep: what is under",
            " begins two blanks further in than that",
        ))
    } else {
        None
    }
}

/// What is wrong with the lines around one that is not too deep.
fn around(place: Place<'_>, depth: usize) -> Option<&'static str> {
    if let Some(words) = under_head(place) {
        Some(words)
    } else if takes_lines(place.said) && !is_deeper(line_after(place.lines, place.number), depth) {
        Some("what belongs to this line stands under it, two blanks further in, and is missing")
    } else if is_under_choice(place) {
        Some(choice(place))
    } else if lacks_sequence(place, depth) {
        Some("no `SEQ` stands over this line and the process before it")
    } else {
        None
    }
}

/// What is wrong with a tab, or with what stands under a head.
fn under_head(place: Place<'_>) -> Option<&'static str> {
    if place.line.starts_with(b"\t") {
        Some("a tab goes to the next multiple of 8 columns, and each level is two columns")
    } else if has_word(place.said, b"FUNCTION") {
        Some(
            "under this head stand declarations and then a `VALOF`, which has a process and a `RESULT` under it",
        )
    } else if is_head(place.said) {
        Some("under this head stand declarations, each ended by `:`, and then one process")
    } else {
        None
    }
}

/// Whether a process stands before a line in its column, and nothing over them takes several.
fn lacks_sequence(place: Place<'_>, depth: usize) -> bool {
    let is_under = parent(place.lines, place.number).is_some_and(|parent| {
        matches!(
            first_word(parent.line.trim_ascii()),
            b"SEQ" | b"PAR" | b"PRI"
        )
    });
    !is_under
        && last_in(place.lines, place.number, depth).is_some_and(|before| !place
            .lines
            .said(before.number)
            .ends_with(b":"))
}

/// The nearest line above in a column, with no line between that is less far in.
fn last_in(lines: Lines<'_>, number: u32, depth: usize) -> Option<Numbered<'_>> {
    for (at, line) in lines.before(number).iter().enumerate().rev() {
        if is_skipped(line) || column(line) > depth {
            continue;
        }
        if column(line) < depth {
            break;
        }
        let number = number_of(at);
        return Some(Numbered { number, line });
    }
    None
}

/// What stands under the choice that a line is under.
fn choice(place: Place<'_>) -> &'static str {
    let said = match parent(place.lines, place.number) {
        Some(parent) => parent.line.trim_ascii(),
        None => &[],
    };
    if said.starts_with(b"IF") && is_process(place.said) {
        "a condition stands here, with its process under it, two blanks further in"
    } else if !is_deeper(line_after(place.lines, place.number), column(place.line)) {
        "the process of this line is missing: it stands under it, two blanks further in"
    } else if said.starts_with(b"IF") {
        "under `IF` stand conditions, each with its process under it, two blanks further in"
    } else if has(said, b"CASE") {
        "under `CASE` stand options, each with its process under it, two blanks further in"
    } else if place.said.contains(&b'!') {
        "a guard is an input or SKIP, no output"
    } else {
        "under `ALT` stand guards, each with its process under it, two blanks further in"
    }
}

/// Whether a statement is surely a process and no condition.
fn is_process(said: &[u8]) -> bool {
    said == b"SKIP".as_slice()
        || said == b"STOP".as_slice()
        || has(said, b":=")
        || said.contains(&b'!')
        || said.contains(&b'?')
}

/// Whether a line is under one that takes conditions, guards or options.
fn is_under_choice(place: Place<'_>) -> bool {
    match parent(place.lines, place.number) {
        Some(parent) => {
            let said = parent.line.trim_ascii();
            said.starts_with(b"IF")
                || said.starts_with(b"ALT")
                || said.starts_with(b"PRI ALT")
                || said.ends_with(b"CASE")
                || said.starts_with(b"CASE")
        }
        None => false,
    }
}

/// Whether a statement takes lines under it and is no head.
fn is_opener(said: &[u8]) -> bool {
    takes_lines(said) && !is_head(said)
}

/// Whether there is a line and it is deeper.
fn is_deeper(line: Option<Numbered<'_>>, depth: usize) -> bool {
    line.is_some_and(|line| column(line.line) > depth)
}

/// Whether a statement is the head of what a `:` closes.
fn is_head(said: &[u8]) -> bool {
    let first = first_word(said);
    first == b"PROC".as_slice()
        || first == b"PROTOCOL".as_slice()
        || first == b"DATA".as_slice()
        || (said.ends_with(b")") && has_word(said, b"FUNCTION"))
}

/// Whether a statement may have lines under it.
fn takes_lines(said: &[u8]) -> bool {
    let first = first_word(said);
    is_head(said)
        || said.ends_with(b"CASE")
        || matches!(
            first,
            b"SEQ"
                | b"PAR"
                | b"PRI"
                | b"IF"
                | b"ALT"
                | b"WHILE"
                | b"CASE"
                | b"VALOF"
                | b"RECORD"
                | b"ELSE"
        )
}

/// What a head is of.
fn kind(said: &[u8]) -> &'static str {
    if has_word(said, b"FUNCTION") {
        "FUNCTION"
    } else if first_word(said) == b"PROC".as_slice() {
        "PROC"
    } else if first_word(said) == b"PROTOCOL".as_slice() {
        "PROTOCOL"
    } else {
        "DATA TYPE"
    }
}

/// Tells where the `:` of a head is missing, if it is.
fn closing(
    alloc: Global,
    place: Place<'_>,
    depth: usize,
    told: &mut Told,
) -> Result<(), AllocError> {
    let behind = line_behind(place.lines, place.number);
    if behind.is_some_and(|behind| {
        behind.line.trim_ascii().starts_with(b":") && column(behind.line) == depth
    }) {
        return Ok(());
    }
    let kind = kind(place.said);
    told.say(format!(in alloc; "the `:` that closes this {kind} is missing")?);
    told.mean(place, first_word(place.said));
    match behind {
        Some(behind) => {
            let number = behind.number;
            told.show_start(alloc, behind)?;
            told.help(format!(in alloc;
                "put it on a line of its own before line {number}, in the column of this line"
            )?)
        }
        None => told.help(String::from_str(
            alloc,
            "put it on a line of its own at the end, in the column of this line",
        )?),
    }
}

/// Tells which lines have no SEQ over them, if there are some at this line: the first is deeper than the line before it, which
/// takes nothing under it, and others follow it in its column.
fn sequence(alloc: Global, place: Place<'_>, told: &mut Told) -> Result<(), AllocError> {
    let Some(first) = first_of_sequence(place) else {
        return Ok(());
    };
    let depth = column(first.line);
    let mut numbers = String::new(alloc);
    add_number(alloc, first.number, &mut numbers)?;
    let mut others = 0usize;
    for (at, line) in place.lines.after(first.number).iter().enumerate() {
        if is_skipped(line) || column(line) > depth {
            continue;
        }
        if column(line) < depth {
            break;
        }
        let number = number_of(at).saturating_add(first.number);
        add_number(alloc, number, &mut numbers)?;
        let line = Numbered { number, line };
        told.show_start(alloc, line)?;
        others = others.saturating_add(1);
    }
    if others == 0 {
        Ok(())
    } else {
        no_sequence(alloc, first, numbers.as_str(), told)
    }
}

/// Tells that no SEQ stands over some lines, of which this is the first.
fn no_sequence(
    alloc: Global,
    first: Numbered<'_>,
    numbers: &str,
    told: &mut Told,
) -> Result<(), AllocError> {
    let number = first.number;
    told.show_start(alloc, first)?;
    told.say(format!(in alloc; "no `SEQ` stands over the lines {numbers}")?);
    told.help(format!(in alloc;
        "put a `SEQ` before line {number}, two blanks less far in than that"
    )?)
}

/// The first of some lines that are deeper than what is before them, which takes nothing under it.
fn first_of_sequence(place: Place<'_>) -> Option<Numbered<'_>> {
    let depth = column(place.line);
    let here = Numbered {
        number: place.number,
        line: place.line,
    };
    if is_too_deep(place.lines, here) {
        return Some(here);
    }
    if let Some(before) = before_in(place.lines, place.number, depth)
        && is_too_deep(place.lines, before)
    {
        return Some(before);
    }
    under(place.lines, place.number, depth)
}

/// Whether a line is deeper than the one before it, which takes nothing under it.
fn is_too_deep(lines: Lines<'_>, line: Numbered<'_>) -> bool {
    match line_before(lines, line.number) {
        Some(before) => {
            column(before.line) < column(line.line)
                && !takes_lines(before.line.trim_ascii())
                && before.line.trim_ascii().ends_with(b":")
        }
        None => false,
    }
}

/// The first line above in a column, with no line between that is less far in.
fn before_in(lines: Lines<'_>, number: u32, depth: usize) -> Option<Numbered<'_>> {
    let mut found = None;
    for (at, line) in lines.before(number).iter().enumerate().rev() {
        if is_skipped(line) || column(line) > depth {
            continue;
        }
        if column(line) < depth {
            break;
        }
        let number = number_of(at);
        found = Some(Numbered { number, line });
    }
    found
}

/// The first line under another one that is deeper than what is before it, which takes nothing under it.
fn under(lines: Lines<'_>, number: u32, depth: usize) -> Option<Numbered<'_>> {
    for (at, line) in lines.after(number).iter().enumerate() {
        if is_skipped(line) {
            continue;
        }
        if column(line) <= depth {
            break;
        }
        let number = number_of(at).saturating_add(number);
        let here = Numbered { number, line };
        if is_too_deep(lines, here) {
            return Some(here);
        }
    }
    None
}

/// Tells how far in a line begins.
pub fn blanks(alloc: Global, place: Place<'_>, told: &mut Told) -> Result<(), AllocError> {
    let depth = column(place.line);
    told.say(format!(in alloc; "this line begins behind {depth} blanks, an odd number")?);
    told.help(String::from_str(
        alloc,
        "each level begins two blanks further in than the one around it",
    )?)
}
