//! What clashes in a PAR: the lines of the components that use one name, and the elements that they share.
use super::declared::{is_replicator_of, specified_by};
use super::mismatch::{assigned, call};
use super::numbers::{Constant, Part, Reach, constants, meeting, parts};
use super::rounds::{Rounds, common, elements, rounds_of};
use super::spelling::is_reserved;
use super::text::{
    Lines, Numbered, after_word, closed, column, first_word, has, has_word, is_skipped, last_word,
    next_item, next_word, number_of, split_once, word_count,
};
use super::told::{Place, Told, shown};
use super::uses::{Use, is_of, uses};
use occ_base::{Code, Grade};
use std::alloc::{AllocError, Global};

/// How many lines are shown.
const SHOWN_LIMIT: usize = 4;

/// How many rounds of a replicator are looked at.
const ROUND_LIMIT: i64 = 256;

/// Tells what clashes in a PAR, and shows the lines that do.
pub fn clash(alloc: Global, place: Place<'_>, told: &mut Told) -> Result<(), AllocError> {
    if has(place.said, b":=") {
        let name = shown(place.name);
        let targets = assigned(place.said).map_or(&[] as &[u8], |(targets, _)| targets);
        told.say(if mentions(targets, place.name) > 1 {
            format!(in alloc; "`{name}` is changed by two targets of this assignment")?
        } else {
            format!(in alloc;
                "`{name}` is changed by one target of this assignment, and read by another"
            )?
        });
        told.help(String::from_str(
            alloc,
            "all targets of one assignment are changed at once, so no two may be one",
        )?)?;
        return Ok(());
    }
    let all = uses(alloc, place, place.name)?;
    let pair = if place.code == Code::U1 {
        meeting_uses(alloc, place, all.as_slice())?
    } else {
        None
    };
    let picked = picked(alloc, place.code, all.as_slice(), pair)?;
    headline(alloc, place, picked.as_slice(), told)?;
    for one in &picked {
        let line = Numbered {
            number: one.number,
            line: place.lines.line(one.number),
        };
        let word = if has_word(line.line, place.name) {
            place.name
        } else {
            first_word(line.line.trim_ascii())
        };
        told.show(alloc, line, word, label(place.code, *one))?;
    }
    shared(alloc, place, picked.as_slice(), told)?;
    swapped(alloc, place, picked.as_slice(), told)
}

/// Whether a use is one of those that clash by a code.
fn does_clash(code: Code, one: Use) -> bool {
    match code {
        Code::U2 => one.deeds.inputs,
        Code::U3 => one.deeds.outputs,
        _ => true,
    }
}

/// What is said of a use.
fn label(code: Code, one: Use) -> &'static str {
    match code {
        Code::U2 if one.deeds.inputs => "input from here",
        Code::U3 if one.deeds.outputs => "output to here",
        Code::U1 if one.deeds.changes => "changed here",
        Code::U1 => "used here",
        _ => "",
    }
}

/// A use, and the parts that its line uses.
#[derive(Drop)]
struct Candidate {
    one: Use,
    reach: Reach,
}

/// Uses with the parts that their lines use.
fn candidates(alloc: Global, place: Place<'_>, all: &[Use]) -> Result<Vec<Candidate>, AllocError> {
    let known = constants(alloc, place.lines, place.number)?;
    let mut found = Vec::new(alloc);
    for one in all {
        let said = place.lines.statement(one.number);
        let reach = if is_mixed_call(place, *one) {
            Reach::of(alloc, said, place.name, &[])?
        } else {
            Reach::of(alloc, said, place.name, known.as_slice())?
        };
        found.push(Candidate { one: *one, reach })?;
    }
    Ok(found)
}

/// The first use that changes what one of another component may use, and that one.
fn meeting_uses(
    alloc: Global,
    place: Place<'_>,
    all: &[Use],
) -> Result<Option<(Use, Use)>, AllocError> {
    let candidates = candidates(alloc, place, all)?;
    for candidate in &candidates {
        if candidate.one.deeds.changes
            && let Some(other) = met(candidate, candidates.as_slice())
        {
            return Ok(Some((candidate.one, other)));
        }
    }
    Ok(None)
}

/// The first use of another component that may use what one uses.
fn met(candidate: &Candidate, all: &[Candidate]) -> Option<Use> {
    for other in all {
        if other.one.component != candidate.one.component
            && candidate.reach.may_meet(&other.reach)
        {
            return Some(other.one);
        }
    }
    None
}

/// The uses that are shown: two that meet, or one that changes, and the first of each other component.
fn picked(
    alloc: Global,
    code: Code,
    all: &[Use],
    pair: Option<(Use, Use)>,
) -> Result<Vec<Use>, AllocError> {
    let mut picked: Vec<Use> = Vec::new(alloc);
    if let Some((one, other)) = pair {
        picked.push(one)?;
        picked.push(other)?;
        picked.sort_by_key(|one| one.number)?;
        return Ok(picked);
    }
    if let Some(one) = all.iter().find(|one| code == Code::U1 && one.deeds.changes) {
        picked.push(*one)?;
    }
    for one in all {
        let is_new = !picked.iter().any(|other| other.component == one.component);
        if is_new && does_clash(code, *one) && picked.len() < SHOWN_LIMIT {
            picked.push(*one)?;
        }
    }
    picked.sort_by_key(|one| one.number)?;
    Ok(picked)
}

/// Tells what clashes.
fn headline(
    alloc: Global,
    place: Place<'_>,
    picked: &[Use],
    told: &mut Told,
) -> Result<(), AllocError> {
    let name = shown(place.name);
    let are_rounds = picked.len() == 1 && has_word(place.said, b"FOR");
    let parts = if are_rounds { "rounds" } else { "components" };
    let changed = picked.iter().filter(|one| one.deeds.changes).count();
    let deed = match place.code {
        Code::U2 => "is input from in two",
        Code::U3 => "is output to in two",
        _ if changed > 1 => "is changed in two",
        _ if are_rounds => "is changed in one round of this PAR and used in another",
        _ => return Ok(()),
    };
    told.say(if deed.ends_with("two") {
        format!(in alloc; "`{name}` {deed} {parts} of this PAR")?
    } else {
        format!(in alloc; "`{name}` {deed}")?
    });
    Ok(())
}

/// Tells which element is shared, or why parts count as one.
fn shared(
    alloc: Global,
    place: Place<'_>,
    picked: &[Use],
    told: &mut Told,
) -> Result<(), AllocError> {
    match shared_element(alloc, place, picked)? {
        Some(hint) => told.help(hint),
        None if has_unknown(place, picked) => told.help(String::from_str(
            alloc,
            "parts of an array whose subscripts are not known count as one: only constants, and indices of replicators over constants, are known",
        )?),
        None => Ok(()),
    }
}

/// Which element is shared, if that is known.
fn shared_element(
    alloc: Global,
    place: Place<'_>,
    picked: &[Use],
) -> Result<Option<String>, AllocError> {
    let mut known = constants(alloc, place.lines, place.number)?;
    match index(place.said) {
        Some(name) => rounds(alloc, place, picked, name, &mut known),
        None => components(alloc, place, picked, known.as_slice()),
    }
}

/// The index of a replicator.
fn index(said: &[u8]) -> Option<&[u8]> {
    let (front, _) = split_once(said, b"=")?;
    let name = last_word(front);
    if is_replicator_of(said, name) {
        Some(name)
    } else {
        None
    }
}

/// Which element two rounds of a replicator share, if that is known.
fn rounds<'a>(
    alloc: Global,
    place: Place<'a>,
    picked: &[Use],
    name: &'a [u8],
    known: &mut Vec<Constant<'a>>,
) -> Result<Option<String>, AllocError> {
    let Some(Rounds { base, count, .. }) = rounds_of(alloc, place.said, known.as_slice())? else {
        return Ok(None);
    };
    let mut last: Vec<Part> = Vec::new(alloc);
    for round in 0..count.min(ROUND_LIMIT) {
        let value = base.saturating_add(round);
        known.push(Constant { name, value })?;
        let parts = all_parts(alloc, place, picked, known.as_slice())?;
        known.pop();
        if let Some(element) = meeting(last.as_slice(), parts.as_slice()) {
            return Ok(Some(in_two_rounds(alloc, place, name, element, value)?));
        }
        last = parts;
    }
    Ok(None)
}

/// That an element is in the part of a round of a replicator and in that of the round before it.
fn in_two_rounds(
    alloc: Global,
    place: Place<'_>,
    name: &[u8],
    element: i64,
    value: i64,
) -> Result<String, AllocError> {
    let (array, index) = (shown(place.name), shown(name));
    let before = value.saturating_sub(1);
    format!(in alloc;
        "`{array}[{element}]` is in the part of {index} = {before} and in that of {index} = {value}"
    )
}

/// The known parts that some lines use.
fn all_parts(
    alloc: Global,
    place: Place<'_>,
    picked: &[Use],
    known: &[Constant<'_>],
) -> Result<Vec<Part>, AllocError> {
    let mut all = Vec::new(alloc);
    for one in picked {
        let found = parts_at(alloc, place, *one, known)?;
        all.extend_from_slice(found.as_slice())?;
    }
    Ok(all)
}

/// The known parts that a line uses.
fn parts_at(
    alloc: Global,
    place: Place<'_>,
    one: Use,
    known: &[Constant<'_>],
) -> Result<Vec<Part>, AllocError> {
    parts(alloc, place.lines.statement(one.number), place.name, known)
}

/// Which element two components share, if that is known.
fn components<'a>(
    alloc: Global,
    place: Place<'a>,
    picked: &[Use],
    known: &[Constant<'a>],
) -> Result<Option<String>, AllocError> {
    let [one, two, ..] = picked else {
        return Ok(None);
    };
    if is_mixed_call(place, *one) || is_mixed_call(place, *two) {
        return Ok(None);
    }
    match shared_part(alloc, place, *one, *two, known)? {
        Some(element) => {
            let name = shown(place.name);
            Ok(Some(format!(in alloc; "both have `{name}[{element}]`")?))
        }
        None => shared_round(alloc, place, *one, *two, known),
    }
}

/// Whether a line is a call that is given several parts of what is named: which of them it changes, its line does not say.
fn is_mixed_call(place: Place<'_>, one: Use) -> bool {
    let said = place.lines.statement(one.number);
    call(said).is_some() && word_count(said, place.name) > 1
}

/// Which element two lines share in the rounds around them, or by selectors that are written alike.
fn shared_round<'a>(
    alloc: Global,
    place: Place<'a>,
    one: Use,
    two: Use,
    known: &[Constant<'a>],
) -> Result<Option<String>, AllocError> {
    let some = elements_at(alloc, place, one, known)?;
    let others = elements_at(alloc, place, two, known)?;
    match common(some.as_slice(), others.as_slice()) {
        Some(element) => {
            let name = shown(place.name);
            Ok(Some(format!(in alloc; "both have `{name}{element}`")?))
        }
        None => same_selectors(alloc, place, one, two),
    }
}

/// The first element that two lines both use a part with, if these parts are known.
fn shared_part(
    alloc: Global,
    place: Place<'_>,
    one: Use,
    two: Use,
    known: &[Constant<'_>],
) -> Result<Option<i64>, AllocError> {
    let some = parts_at(alloc, place, one, known)?;
    let others = parts_at(alloc, place, two, known)?;
    Ok(meeting(some.as_slice(), others.as_slice()))
}

/// The elements that a line uses, in all rounds around it.
fn elements_at<'a>(
    alloc: Global,
    place: Place<'a>,
    one: Use,
    known: &[Constant<'a>],
) -> Result<Vec<String>, AllocError> {
    elements(
        alloc,
        place.lines,
        one.number,
        place.number,
        place.name,
        known,
    )
}

/// The selectors that two lines have both, as they are written.
fn same_selectors(
    alloc: Global,
    place: Place<'_>,
    one: Use,
    two: Use,
) -> Result<Option<String>, AllocError> {
    let name = shown(place.name);
    let a = selectors(place.lines.statement(one.number), place.name);
    let b = selectors(place.lines.statement(two.number), place.name);
    if a.is_empty() || a != b || !mean_the_same(place.lines, one.number, two.number, a) {
        return Ok(None);
    }
    let selectors = shown(a);
    Ok(Some(format!(in alloc; "both have `{name}{selectors}`")?))
}

/// Whether each name among selectors is specified in one line for both lines.
fn mean_the_same(lines: Lines<'_>, one: u32, two: u32, selectors: &[u8]) -> bool {
    let mut rest = selectors;
    for _ in 0..selectors.len() {
        let Some((word, more)) = next_word(rest) else {
            break;
        };
        rest = more;
        let first = specified_by(lines, one, word).map(|found| found.number);
        let second = specified_by(lines, two, word).map(|found| found.number);
        if first != second {
            return false;
        }
    }
    true
}

/// The selectors after the first mention of a name.
fn selectors<'a>(said: &'a [u8], name: &[u8]) -> &'a [u8] {
    let Some(after) = after_word(said, name) else {
        return &[];
    };
    let mut rest = after;
    for _ in 0..after.len() {
        let Some(inside) = rest.strip_prefix(b"[") else {
            break;
        };
        rest = closed(inside).1;
    }
    after
        .get(..after.len().saturating_sub(rest.len()))
        .unwrap_or(&[])
}

/// Whether one of some lines has a subscript that is not known.
fn has_unknown(place: Place<'_>, picked: &[Use]) -> bool {
    picked.iter().any(|one| {
        let found = selectors(place.lines.statement(one.number), place.name);
        is_unknown(place.lines, one.number, found)
    })
}

/// Whether a name among selectors is that of a variable.
fn is_unknown(lines: Lines<'_>, number: u32, selectors: &[u8]) -> bool {
    let mut rest = selectors;
    for _ in 0..selectors.len() {
        let Some((word, more)) = next_word(rest) else {
            break;
        };
        rest = more;
        if !is_reserved(word) && varies(lines, number, word) {
            return true;
        }
    }
    false
}

/// Whether a name is that of a variable or a formal.
fn varies(lines: Lines<'_>, number: u32, name: &[u8]) -> bool {
    let Some(found) = specified_by(lines, number, name) else {
        return false;
    };
    let said = lines.said(found.number);
    !is_replicator_of(said, name) && !has_word(said, b"IS")
}

/// Tells that two channels of a call are perhaps swapped: nothing else is at the other end of either.
fn swapped(
    alloc: Global,
    place: Place<'_>,
    picked: &[Use],
    told: &mut Told,
) -> Result<(), AllocError> {
    if place.code == Code::U1
        || has_end(alloc, place, place.name, place.code == Code::U3)?
        || !is_within(place, place.name)
    {
        return Ok(());
    }
    for one in picked {
        let said = place.lines.statement(one.number);
        if let Some((_, actuals)) = call(said) {
            let name = other_end(alloc, place, actuals)?;
            if !name.is_empty() {
                return tell_swapped(alloc, place, *one, name, told);
            }
        }
    }
    Ok(())
}

/// Whether something in a PAR inputs from a channel, or else outputs to it.
fn has_end(
    alloc: Global,
    place: Place<'_>,
    name: &[u8],
    is_input: bool,
) -> Result<bool, AllocError> {
    let all = uses(alloc, place, name)?;
    Ok(
        all.iter().any(|one| if is_input {
            one.deeds.inputs
        } else {
            one.deeds.outputs
        }),
    )
}

/// Whether a channel is declared before a PAR, and no line outside of that uses it.
fn is_within(place: Place<'_>, name: &[u8]) -> bool {
    let Some(found) = specified_by(place.lines, place.number, name) else {
        return false;
    };
    is_declaration(place.lines.said(found.number))
        && !is_used_between(place, found.number, name)
        && !is_used_behind(place, found, name)
}

/// Whether a statement declares channels.
fn is_declaration(said: &[u8]) -> bool {
    has_word(said, b"CHAN") && said.ends_with(b":") && !has_word(said, b"IS")
}

/// Whether a line between one and a PAR has a name.
fn is_used_between(place: Place<'_>, first: u32, name: &[u8]) -> bool {
    (first.saturating_add(1)..place.number).any(|number| has_word(place.lines.said(number), name))
}

/// Whether a line behind a PAR has a name that a line before it declares.
fn is_used_behind(place: Place<'_>, declared: Numbered<'_>, name: &[u8]) -> bool {
    let mut is_behind = false;
    for (at, line) in place.lines.after(place.number).iter().enumerate() {
        if is_skipped(line) {
            continue;
        }
        if column(line) < column(declared.line) {
            break;
        }
        is_behind = is_behind || column(line) <= column(place.line);
        let number = number_of(at).saturating_add(place.number);
        if is_behind && has_word(place.lines.said(number), name) {
            return true;
        }
    }
    false
}

/// Another actual of a call that has two of the ends that the reported channel lacks, and none of the others.
fn other_end<'a>(
    alloc: Global,
    place: Place<'_>,
    actuals: &'a [u8],
) -> Result<&'a [u8], AllocError> {
    let mut rest = actuals;
    let is_input = place.code == Code::U3;
    for _ in 0..actuals.len() {
        let Some((actual, more)) = next_item(rest, b',') else {
            break;
        };
        rest = more;
        if is_of(actual, place.name) || last_word(actual) != actual {
            continue;
        }
        let has_lacking = has_end(alloc, place, actual, is_input)?;
        if has_lacking && !has_end(alloc, place, actual, !is_input)? && is_within(place, actual) {
            return Ok(actual);
        }
    }
    Ok(&[])
}

/// Tells that two channels are perhaps swapped.
fn tell_swapped(
    alloc: Global,
    place: Place<'_>,
    one: Use,
    other: &[u8],
    told: &mut Told,
) -> Result<(), AllocError> {
    let (name, other) = (shown(place.name), shown(other));
    let number = one.number;
    let (lacks, has) = if place.code == Code::U2 {
        ("outputs to", "inputs from")
    } else {
        ("inputs from", "outputs to")
    };
    told.help(format!(in alloc;
        "nothing {lacks} `{name}` and nothing {has} `{other}`: perhaps they are swapped in line {number}"
    )?)
}

/// Tells that a call is given one thing twice, or that its body uses what it is given.
pub fn actuals(alloc: Global, place: Place<'_>, told: &mut Told) -> Result<(), AllocError> {
    let Some((called, actuals)) = call(place.said) else {
        return Ok(());
    };
    if let Some(head) = specified_by(place.lines, place.number, called) {
        told.show(alloc, head, called, "")?;
    }
    if mentions(actuals, place.name) < 2 {
        if word_count(actuals, place.name) > 1 {
            return given_and_read(alloc, place, called, told);
        }
        given_once(alloc, place, called, told)
    } else {
        given_twice(alloc, place, actuals, told)
    }
}

/// Tells that what is given to a call is read in another of its actuals.
fn given_and_read(
    alloc: Global,
    place: Place<'_>,
    called: &[u8],
    told: &mut Told,
) -> Result<(), AllocError> {
    let (name, called) = (shown(place.name), shown(called));
    told.say(format!(in alloc;
        "`{name}` is given to `{called}`, and another actual of this call reads it"
    )?);
    Ok(())
}

/// Tells that the body of what is called uses what it is given.
fn given_once(
    alloc: Global,
    place: Place<'_>,
    called: &[u8],
    told: &mut Told,
) -> Result<(), AllocError> {
    let (name, called) = (shown(place.name), shown(called));
    let perhaps = match place.grade {
        Grade::Error => "",
        Grade::Check => "perhaps ",
    };
    told.say(format!(in alloc;
        "`{name}` is given to `{called}`, whose body {perhaps}uses it too"
    )?);
    Ok(())
}

/// Tells that a call is given one thing twice, and which element is in both parts of it, if that is known.
fn given_twice(
    alloc: Global,
    place: Place<'_>,
    actuals: &[u8],
    told: &mut Told,
) -> Result<(), AllocError> {
    let known = constants(alloc, place.lines, place.number)?;
    let found = parts(alloc, actuals, place.name, known.as_slice())?;
    if let [one, two, ..] = found.as_slice()
        && let Some(element) = one.meets(*two)
    {
        return meet_in(alloc, place, [*one, *two], element, told);
    }
    let name = shown(place.name);
    let meet = match place.grade {
        Grade::Error => "",
        Grade::Check => ", and the two parts perhaps meet",
    };
    told.say(format!(in alloc; "`{name}` is given to this call twice{meet}")?);
    Ok(())
}

/// Tells which element is in both parts that a call is given.
fn meet_in(
    alloc: Global,
    place: Place<'_>,
    both: [Part; 2],
    element: i64,
    told: &mut Told,
) -> Result<(), AllocError> {
    let [one, two] = both;
    let (from, end) = (one.from, one.end().saturating_sub(1));
    let (then, until) = (two.from, two.end().saturating_sub(1));
    let name = shown(place.name);
    told.say(format!(in alloc;
        "`{name}[{element}]` is given to this call twice: in {from} to {end}, and in {then} to {until}"
    )?);
    Ok(())
}

/// How many items of a list are of a name.
fn mentions(list: &[u8], name: &[u8]) -> usize {
    let mut found = 0usize;
    let mut rest = list;
    for _ in 0..list.len() {
        let Some((item, more)) = next_item(rest, b',') else {
            break;
        };
        if is_of(item, name) {
            found = found.saturating_add(1);
        }
        rest = more;
    }
    found
}
