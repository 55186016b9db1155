//! Which types do not go together in a line, and which numbers of things.
use super::declared::{
    Typed, abbreviated, do_differ, formals, head_name, is_number, is_replicator_of, looks,
    selected, specified_by, type_of, without_val,
};
use super::spelling::{after_assignment, is_reserved};
use super::text::{
    Numbered, WORD_LIMIT, after_word, around_word, closed, cut, first_word, has, has_word,
    item_count, last_word, next_item, next_word, parent, split_once,
};
use super::told::{Place, Told, shown};
use bstr::BStr;
use occ_base::Code;
use std::alloc::{AllocError, Global};
use std::fmt;

/// How many items of a list, or names of a line, are looked at.
const ITEM_LIMIT: usize = 8;

/// How many levels there are at most.
const LEVEL_LIMIT: usize = 64;

/// What an expression, or its first name, is said to be: `x` is INT (line 3).
#[derive(Clone, Copy)]
pub struct Said<'a> {
    name: BStr<'a>,
    text: BStr<'a>,
    number: u32,
}

impl fmt::Display for Said<'_> {
    fn fmt<W: fmt::Write>(&self, f: &mut fmt::Formatter<W>) -> fmt::Result {
        let (name, text, number) = (self.name, self.text, self.number);
        if number == 0 {
            write!(f, "`{name}` is {text}")
        } else {
            write!(f, "`{name}` is {text} (line {number})")
        }
    }
}

/// What an expression is said to be: all of it, or its first name where a line says the type.
pub fn said_of<'a>(place: Place<'a>, expression: &'a [u8], typed: Typed<'a>) -> Said<'a> {
    let name = if typed.number == 0 || is_simple(expression) {
        expression
    } else {
        first_name(expression)
    };
    Said {
        name: place.shown(name),
        text: shown(typed.text),
        number: typed.number,
    }
}

/// Whether an expression is one name with its selectors.
fn is_simple(expression: &[u8]) -> bool {
    let expression = expression.trim_ascii();
    first_word(expression) == expression
        || (expression.ends_with(b"]") && !expression.contains(&b' '))
}

/// Tells which type is not the one that is wanted: the first that is found.
pub fn wanted_type(alloc: Global, place: Place<'_>, told: &mut Told) -> Result<(), AllocError> {
    segments(alloc, place, told)?;
    if !told.is_said() {
        given(alloc, place, told)?;
    }
    if !told.is_said() {
        counts(alloc, place, told)?;
    }
    if !told.is_said() {
        targets(alloc, place, told)?;
    }
    if !told.is_said() {
        actuals(alloc, place, told)?;
    }
    if !told.is_said() {
        subscripts(alloc, place, told)?;
    }
    Ok(())
}

/// The starts and counts of segments.
fn segments(alloc: Global, place: Place<'_>, told: &mut Told) -> Result<(), AllocError> {
    let mut rest = place.said;
    for _ in 0..place.said.len() {
        let Some((_, inside)) = split_once(rest, b"[") else {
            break;
        };
        let (segment, _) = closed(inside);
        if let Some((_, count)) = around_word(segment, b"FOR") {
            wants_int(alloc, place, told, inside, count, "count")?;
            let front = around_word(segment, b"FROM").map_or(&[] as &[u8], |(_, start)| start);
            let start = around_word(front, b"FOR").map_or(&[] as &[u8], |(start, _)| start);
            wants_int(alloc, place, told, inside, start, "start")?;
        }
        rest = inside;
    }
    Ok(())
}

/// Tells that the start or the count of a segment is no INT, if so it is.
fn wants_int(
    alloc: Global,
    place: Place<'_>,
    told: &mut Told,
    rest: &[u8],
    expression: &[u8],
    what: &str,
) -> Result<(), AllocError> {
    if told.is_said() {
        return Ok(());
    }
    let Some(typed) = looks(place.lines, place.number, expression) else {
        return Ok(());
    };
    if typed.text == b"INT".as_slice() {
        return Ok(());
    }
    let is = said_of(place, expression, typed);
    told.say(format!(in alloc; "the {what} of a segment has to be INT, and {is}")?);
    let word = if what == "count" {
        b"FOR".as_slice()
    } else {
        b"FROM"
    };
    let behind = after_word(rest, word).unwrap_or(rest);
    told.mean_in(place, behind, first_word(expression.trim_ascii()));
    convert(alloc, place, told, b"INT", expression, typed)
}

/// Whether an expression is a character alone.
fn is_character(expression: &[u8]) -> bool {
    expression.len() > 2
        && expression.starts_with(b"'")
        && expression.ends_with(b"'")
        && !expression.contains(&b' ')
}

/// Says how a number is converted.
fn convert(
    alloc: Global,
    place: Place<'_>,
    told: &mut Told,
    wanted: &[u8],
    expression: &[u8],
    typed: Typed<'_>,
) -> Result<(), AllocError> {
    if !is_number(wanted) || !is_number(typed.text) {
        return Ok(());
    }
    let expression = expression.trim_ascii();
    let (wanted, said) = (shown(wanted), place.shown(expression));
    let name = first_name(expression);
    if is_simple(expression) || is_character(expression) {
        told.help(format!(in alloc; "write `{wanted} {said}`, which converts it")?)
    } else if typed.text == b"BYTE".as_slice() {
        if !name.first().is_some_and(u8::is_ascii_alphabetic) {
            return Ok(());
        }
        let name = place.shown(name);
        told.help(format!(in alloc;
            "write `({wanted} {name})` for `{name}`, and so for each name of a BYTE"
        )?)
    } else {
        told.help(format!(in alloc; "write `{wanted} ({said})`, which converts it")?)
    }
}

/// The head of the FUNCTION around a line.
fn function_around(place: Place<'_>) -> Option<Numbered<'_>> {
    let mut number = place.number;
    for _ in 0..LEVEL_LIMIT {
        let above = parent(place.lines, number)?;
        if has_word(above.line, b"FUNCTION") {
            return Some(above);
        }
        number = above.number;
    }
    None
}

/// The values that a FUNCTION gives, and their types.
fn given(alloc: Global, place: Place<'_>, told: &mut Told) -> Result<(), AllocError> {
    let (Some(values), Some(head)) = (place.said.strip_prefix(b"RESULT"), function_around(place))
    else {
        return Ok(());
    };
    let said = place.lines.said(head.number);
    let Some((types, _)) = around_word(said, b"FUNCTION") else {
        return Ok(());
    };
    let types = types.trim_ascii();
    let types = types.strip_suffix(b"INLINE").unwrap_or(types);
    let (mut rest, mut left) = (values, types);
    for _ in 0..ITEM_LIMIT {
        let (Some((value, more)), Some((text, others))) = (
            next_item(rest, b','),
            next_item(left, b','),
        ) else {
            break;
        };
        if !told.is_said() {
            one_value(alloc, place, told, value, text)?;
        }
        (rest, left) = (more, others);
    }
    Ok(())
}

/// Tells that a FUNCTION gives a value of another type than it says, if so it is.
fn one_value(
    alloc: Global,
    place: Place<'_>,
    told: &mut Told,
    value: &[u8],
    text: &[u8],
) -> Result<(), AllocError> {
    if let Some(typed) = looks(place.lines, place.number, value)
        && do_differ(typed.text, text)
    {
        let is = said_of(place, value, typed);
        let wanted = shown(text);
        told.say(format!(in alloc; "this FUNCTION gives {wanted}, and {is}")?);
        told.mean(place, first_name(value));
        convert(alloc, place, told, text, value, typed)?;
    }
    Ok(())
}

/// The count of a replicator.
fn counts(alloc: Global, place: Place<'_>, told: &mut Told) -> Result<(), AllocError> {
    let Some((front, count)) = around_word(place.said, b"FOR") else {
        return Ok(());
    };
    let Some((front, _)) = split_once(front, b"=") else {
        return Ok(());
    };
    if !is_replicator_of(place.said, last_word(front)) {
        return Ok(());
    }
    if let Some(typed) = looks(place.lines, place.number, count)
        && do_differ(typed.text, b"INT")
    {
        let is = said_of(place, count, typed);
        told.say(format!(in alloc; "the count of a replicator has to be INT, and {is}")?);
        told.mean_in(place, count, first_word(count.trim_ascii()));
        convert(alloc, place, told, b"INT", count, typed)?;
    }
    Ok(())
}

/// The targets of an assignment and their values, or an abbreviation and its.
fn targets(alloc: Global, place: Place<'_>, told: &mut Told) -> Result<(), AllocError> {
    if let Some((front, value)) = abbreviated(place.said) {
        return abbreviation(alloc, place, told, front, value);
    }
    let Some((front, values)) = assigned(place.said) else {
        return Ok(());
    };
    let (mut lefts, mut rights) = (front, values);
    for _ in 0..ITEM_LIMIT {
        let (Some((left, others)), Some((right, more))) = (
            next_item(lefts, b','),
            next_item(rights, b','),
        ) else {
            break;
        };
        if !told.is_said() {
            pair(alloc, place, told, left, right)?;
        }
        (lefts, rights) = (others, more);
    }
    Ok(())
}

/// The targets of an assignment, and its values.
pub fn assigned(said: &[u8]) -> Option<(&[u8], &[u8])> {
    let (targets, values) = split_once(said, b":=")?;
    Some((targets.trim_ascii(), values.trim_ascii()))
}

/// A target and its value.
fn pair(
    alloc: Global,
    place: Place<'_>,
    told: &mut Told,
    target: &[u8],
    value: &[u8],
) -> Result<(), AllocError> {
    let (Some(left), Some(right)) = (
        looks(place.lines, place.number, target),
        looks(place.lines, place.number, value),
    ) else {
        return Ok(());
    };
    if !do_differ(left.text, right.text) {
        return Ok(());
    }
    let (one, two) = (said_of(place, target, left), said_of(place, value, right));
    told.say(format!(in alloc; "{one}, and {two}")?);
    let behind = assigned(place.said).map_or(place.said, |(_, values)| values);
    told.mean_in(place, behind, first_name(value));
    convert(alloc, place, told, left.text, value, right)
}

/// The first name of an expression that is no word of occam.
fn first_name(expression: &[u8]) -> &[u8] {
    let mut rest = expression;
    for _ in 0..expression.len() {
        let Some((word, more)) = next_word(rest) else {
            break;
        };
        if !is_reserved(word) {
            return word;
        }
        rest = more;
    }
    &[]
}

/// What is abbreviated, and its value.
fn abbreviation(
    alloc: Global,
    place: Place<'_>,
    told: &mut Told,
    front: &[u8],
    value: &[u8],
) -> Result<(), AllocError> {
    if !has_word(place.said, b"IS") {
        return Ok(());
    }
    let name = last_word(front);
    let end = front.trim_ascii_end().len().saturating_sub(name.len());
    let text = without_val(front.get(..end).unwrap_or(&[]).trim_ascii());
    let value = value.strip_suffix(b":").unwrap_or(value);
    let Some(typed) = looks(place.lines, place.number, value) else {
        return Ok(());
    };
    if text.is_empty() || !do_differ(text, typed.text) {
        return Ok(());
    }
    let (name, wanted) = (shown(name), shown(text));
    let is = said_of(place, value, typed);
    told.say(format!(in alloc; "`{name}` is to be {wanted}, and {is}")?);
    told.mean_in(
        place,
        after_word(place.said, b"IS").unwrap_or(&[]),
        first_name(value),
    );
    convert(alloc, place, told, text, value, typed)
}

/// The name that a line calls, and what it is given.
pub fn call(said: &[u8]) -> Option<(&[u8], &[u8])> {
    let name = first_word(said);
    let rest = said.get(name.len()..)?.trim_ascii();
    if name.is_empty() || is_reserved(name) {
        return None;
    }
    let (actuals, after) = closed(rest.strip_prefix(b"(")?);
    if after.trim_ascii().is_empty() {
        Some((name, actuals))
    } else {
        None
    }
}

/// The actuals of a call, and the types of its formals.
pub fn actuals(alloc: Global, place: Place<'_>, told: &mut Told) -> Result<(), AllocError> {
    let Some((name, actuals)) = call(after_assignment(place.said).trim_ascii()) else {
        return Ok(());
    };
    let Some(head) = specified_by(place.lines, place.number, name) else {
        return Ok(());
    };
    let said = place.lines.statement(head.number);
    let (mut given, mut rest) = (actuals, formals(said));
    let mut text: &[u8] = &[];
    for _ in 0..said.len().min(WORD_LIMIT) {
        let (Some((actual, more)), Some((formal, others))) = (
            next_item(given, b','),
            next_item(rest, b','),
        ) else {
            break;
        };
        let formal_name = last_word(formal);
        let end = formal.len().saturating_sub(formal_name.len());
        if end > 0 {
            text = formal.get(..end).unwrap_or(&[]).trim_ascii();
        }
        let wanted = Wanted {
            text,
            name: formal_name,
            number: head.number,
        };
        each_actual(alloc, place, told, actual, wanted)?;
        (given, rest) = (more, others);
    }
    Ok(())
}

/// Tells what is wrong with an actual, if nothing is told yet.
fn each_actual(
    alloc: Global,
    place: Place<'_>,
    told: &mut Told,
    actual: &[u8],
    wanted: Wanted<'_>,
) -> Result<(), AllocError> {
    if told.is_said() {
        Ok(())
    } else if place.code == Code::T3 {
        changed_actual(alloc, place, told, actual, wanted)
    } else {
        one_actual(alloc, place, told, actual, wanted)
    }
}

/// Tells that a formal which is no VAL is given a value, if so it is.
fn changed_actual(
    alloc: Global,
    place: Place<'_>,
    told: &mut Told,
    actual: &[u8],
    wanted: Wanted<'_>,
) -> Result<(), AllocError> {
    let is_name = actual.first().is_some_and(u8::is_ascii_alphabetic) && is_simple(actual);
    if wanted.text.starts_with(b"VAL") || is_name || actual.starts_with(b"[") {
        return Ok(());
    }
    let (value, name) = (place.shown(actual), shown(wanted.name));
    let number = wanted.number;
    told.say(format!(in alloc;
        "the formal `{name}` is no VAL (line {number}), so it is given a variable, and `{value}` is a value"
    )?);
    Ok(())
}

/// A formal, its type and its line.
#[derive(Clone, Copy)]
struct Wanted<'a> {
    text: &'a [u8],
    name: &'a [u8],
    number: u32,
}

/// An actual and its formal.
fn one_actual(
    alloc: Global,
    place: Place<'_>,
    told: &mut Told,
    actual: &[u8],
    wanted: Wanted<'_>,
) -> Result<(), AllocError> {
    let Some(typed) = looks(place.lines, place.number, actual) else {
        return Ok(());
    };
    let wants = without_val(wanted.text);
    if !do_differ(typed.text, wants) || has(actual, b"FOR") {
        return Ok(());
    }
    let (name, text) = (shown(wanted.name), shown(wants));
    let is = said_of(place, actual, typed);
    let number = wanted.number;
    told.say(format!(in alloc; "the formal `{name}` is {text} (line {number}), and {is}")?);
    let behind = split_once(place.said, b"(").map_or(place.said, |(_, inside)| inside);
    told.mean_in(place, behind, first_name(actual));
    if wanted.text.starts_with(b"VAL") {
        convert(alloc, place, told, wants, actual, typed)
    } else {
        Ok(())
    }
}

/// The subscripts of a line.
fn subscripts(alloc: Global, place: Place<'_>, told: &mut Told) -> Result<(), AllocError> {
    let mut rest = place.said;
    for _ in 0..place.said.len() {
        let Some((front, inside)) = split_once(rest, b"[") else {
            break;
        };
        let is_after_name = !front.is_empty() && !front.ends_with(b" ");
        let (subscript, _) = closed(inside);
        if is_after_name && !told.is_said() && !has_word(subscript, b"FOR") {
            subscript_wants_int(alloc, place, told, inside, subscript)?;
        }
        rest = inside;
    }
    Ok(())
}

/// Tells that a subscript is a number but no INT, if so it is.
fn subscript_wants_int(
    alloc: Global,
    place: Place<'_>,
    told: &mut Told,
    inside: &[u8],
    subscript: &[u8],
) -> Result<(), AllocError> {
    if let Some(typed) = looks(place.lines, place.number, subscript)
        && is_number(typed.text)
        && typed.text != b"INT".as_slice()
    {
        let is = said_of(place, subscript, typed);
        told.say(format!(in alloc; "a subscript has to be INT, and {is}")?);
        told.mean_in(place, inside, first_name(subscript));
        convert(alloc, place, told, b"INT", subscript, typed)?;
    }
    Ok(())
}

/// Tells which two operands of a line are of two types: the first two names beside one another that are.
pub fn operands(alloc: Global, place: Place<'_>, told: &mut Told) -> Result<(), AllocError> {
    let said = match assigned(place.said) {
        Some((_, values)) => values,
        None => place.said,
    };
    if has(said, b"<<") || has(said, b">>") {
        return shifted(alloc, place, told, said);
    }
    let mut last: Option<(&[u8], Typed<'_>)> = None;
    let mut found = 0usize;
    let mut rest = said;
    for _ in 0..said.len().min(WORD_LIMIT) {
        let Some((word, more)) = next_word(rest) else {
            break;
        };
        rest = more;
        let Some(typed) = operand(place, word, more) else {
            continue;
        };
        if let Some((name, other)) = last
            && do_differ(other.text, typed.text)
        {
            let (one, two) = (said_of(place, name, other), said_of(place, word, typed));
            told.mean_in(place, said, word);
            return two_operands(alloc, one, two, told);
        }
        last = Some((word, typed));
        found = found.saturating_add(1);
    }
    match last {
        Some((name, typed)) if found == 1 && !compares(said) => {
            lone_operand(alloc, place, told, name, typed)
        }
        _ => Ok(()),
    }
}

/// Whether something is compared.
fn compares(said: &[u8]) -> bool {
    [b'<', b'>', b'='].iter().any(|b| said.contains(b))
}

/// Tells that the count of a shift is no INT, or the type of what is shifted.
fn shifted(
    alloc: Global,
    place: Place<'_>,
    told: &mut Told,
    said: &[u8],
) -> Result<(), AllocError> {
    let Some((front, count)) = split_once(said, b"<<").or(split_once(said, b">>")) else {
        return Ok(());
    };
    let is_no_int = |typed: &Typed<'_>| typed.text != b"INT".as_slice();
    if let Some(typed) = looks(place.lines, place.number, count).filter(is_no_int) {
        let is = said_of(place, count, typed);
        told.say(format!(in alloc; "the count of a shift has to be INT, and {is}")?);
        told.mean_in(place, count, first_name(count));
        return convert(alloc, place, told, b"INT", count, typed);
    }
    let front = front.trim_ascii();
    match looks(place.lines, place.number, front) {
        Some(typed) => lone_operand(alloc, place, told, front, typed),
        None => Ok(()),
    }
}

/// Tells that two operands are of two types.
fn two_operands(
    alloc: Global,
    one: Said<'_>,
    two: Said<'_>,
    told: &mut Told,
) -> Result<(), AllocError> {
    told.say(format!(in alloc; "{one}, and {two}: an operator wants both of one type")?);
    Ok(())
}

/// Tells the type of the one operand that is known.
fn lone_operand(
    alloc: Global,
    place: Place<'_>,
    told: &mut Told,
    name: &[u8],
    typed: Typed<'_>,
) -> Result<(), AllocError> {
    let is = said_of(place, name, typed);
    let behind = after_word(place.said, b"NOT").unwrap_or(&[]);
    told.say(if first_word(behind.trim_ascii()) == name && is_number(typed.text) {
        format!(in alloc; "NOT is for BOOL, and {is}: `~` turns the bits of a number")?
    } else {
        format!(in alloc; "{is}, and does not go with its operator, or with the other operand")?
    });
    let behind = assigned(place.said).map_or(place.said, |(_, values)| values);
    told.mean_in(place, behind, name);
    Ok(())
}

/// The type of a name that is an operand, if it is a number or a truth.
fn operand<'a>(place: Place<'a>, word: &[u8], more: &[u8]) -> Option<Typed<'a>> {
    if is_reserved(word) || word.first().is_some_and(u8::is_ascii_digit) {
        return None;
    }
    let whole = type_of(place.lines, place.number, word)?;
    selected(place.lines, whole, more).filter(|typed| is_operand(typed.text))
}

/// Whether a type is one of numbers or of truths.
fn is_operand(text: &[u8]) -> bool {
    is_number(text) || text == b"BOOL".as_slice()
}

/// Tells how many there should be, and how many there are.
pub fn numbers(alloc: Global, place: Place<'_>, told: &mut Told) -> Result<(), AllocError> {
    if let Some((name, actuals)) = call(place.said) {
        return call_numbers(alloc, place, told, name, actuals);
    }
    let Some((targets, values)) = assigned(place.said) else {
        return Ok(());
    };
    let wanted = item_count(targets, b',');
    let Some((name, actuals)) = call(values) else {
        let given = item_count(values, b',');
        if wanted == given {
            return Ok(());
        }
        let (some, others) = (counted(wanted, "target"), counted(given, "value"));
        told.say(format!(in alloc; "{some} and {others}")?);
        return Ok(());
    };
    results(alloc, place, told, wanted, name)?;
    if !told.is_said() {
        call_numbers(alloc, place, told, name, actuals)?;
    }
    Ok(())
}

/// So many of something.
#[derive(Clone, Copy)]
pub struct Several<'a> {
    number: usize,
    what: &'a str,
}

impl fmt::Display for Several<'_> {
    fn fmt<W: fmt::Write>(&self, f: &mut fmt::Formatter<W>) -> fmt::Result {
        let (number, what) = (self.number, self.what);
        let ending = if number == 1 { "" } else { "s" };
        write!(f, "{number} {what}{ending}")
    }
}

/// So many of something.
pub fn counted(number: usize, what: &str) -> Several<'_> {
    Several { number, what }
}

/// Tells that a call gives another number of actuals than there are formals, if so it is.
fn call_numbers(
    alloc: Global,
    place: Place<'_>,
    told: &mut Told,
    name: &[u8],
    actuals: &[u8],
) -> Result<(), AllocError> {
    let Some(head) = specified_by(place.lines, place.number, name) else {
        return Ok(());
    };
    let said = place.lines.statement(head.number);
    let (wanted, given) = (item_count(formals(said), b','), item_count(actuals, b','));
    if wanted == given || head_name(said) != name {
        return Ok(());
    }
    let number = head.number;
    let wants = counted(wanted, "actual");
    let shown_name = shown(name);
    told.say(format!(in alloc;
        "`{shown_name}` takes {wants} (line {number}), and is given {given}"
    )?);
    told.mean(place, name);
    told.show(alloc, head, name, "")
}

/// Tells that a FUNCTION gives another number of values than there are targets, if so it is.
fn results(
    alloc: Global,
    place: Place<'_>,
    told: &mut Told,
    wanted: usize,
    name: &[u8],
) -> Result<(), AllocError> {
    let Some(head) = specified_by(place.lines, place.number, name) else {
        return Ok(());
    };
    let said = place.lines.statement(head.number);
    let Some((types, _)) = around_word(said, b"FUNCTION") else {
        return Ok(());
    };
    let given = item_count(types, b',');
    if wanted == given {
        return Ok(());
    }
    let number = head.number;
    let shown_name = shown(name);
    let gives = counted(given, "value");
    let targets = counted(wanted, "target");
    told.say(format!(in alloc; "`{shown_name}` gives {gives} (line {number}) for {targets}")?);
    told.mean(place, name);
    told.show(alloc, head, name, "")
}

/// Tells what is no condition or no selector.
pub fn conditions(alloc: Global, place: Place<'_>, told: &mut Told) -> Result<(), AllocError> {
    let (what, said) = if let Some(selector) = after_word(place.said, b"CASE") {
        ("a selector has to be a whole number or a BYTE", selector)
    } else if let Some(condition) = after_word(place.said, b"WHILE") {
        ("a condition has to be BOOL", condition)
    } else {
        (
            "a condition has to be BOOL",
            cut(place.said, b'&').map_or(place.said, |(front, _)| front),
        )
    };
    match looks(place.lines, place.number, said) {
        Some(typed) => {
            let is = said_of(place, said, typed);
            told.say(format!(in alloc; "{what}, and {is}")?);
        }
        None => told.say(String::from_str(alloc, what)?),
    }
    told.mean_in(place, said, first_name(said));
    Ok(())
}
