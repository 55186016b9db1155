//! Where names are specified, and with which types, as far as looks go.
use super::spelling::is_reserved;
use super::text::{
    Lines, Numbered, after_word, around_word, closed, column, cut, first_word, has, has_word,
    is_skipped, last_word, next_item, number_of, split_once,
};
use bstr::BStr;
use std::alloc::{AllocError, Global};

/// How many selectors are looked at.
const SELECTOR_LIMIT: usize = 8;

/// The type of something, and the line that says it.
#[derive(Clone, Copy)]
pub struct Typed<'a> {
    pub text: &'a [u8],
    pub number: u32,
}

/// Where a specification is seen.
#[derive(Clone, Copy, PartialEq, Eq)]
enum Reach {
    /// Nowhere: it does not specify the name.
    Nowhere,
    /// In the lines under its own.
    Under,
    /// In the lines that follow it, too.
    After,
}

/// The nearest line above that specifies a name which is seen from there.
pub fn specified_by<'a>(lines: Lines<'a>, number: u32, name: &[u8]) -> Option<Numbered<'a>> {
    let mut depth = column(lines.line(number));
    for (at, line) in lines.before(number).iter().enumerate().rev() {
        if is_skipped(line) {
            continue;
        }
        let here = column(line);
        if here <= depth && has(line, name) {
            let number = number_of(at);
            let seen = seen_from(lines.statement(number), name);
            if seen == Reach::After || (seen == Reach::Under && here < depth) {
                return Some(Numbered { number, line });
            }
        }
        depth = depth.min(here);
    }
    None
}

/// Whether a statement specifies a name.
pub fn specifies(said: &[u8], name: &[u8]) -> bool {
    seen_from(said, name) != Reach::Nowhere
}

/// Where a name is seen that a statement specifies.
fn seen_from(said: &[u8], name: &[u8]) -> Reach {
    if has_head(said) {
        return head_reach(said, name);
    }
    if is_replicator_of(said, name) {
        return Reach::Under;
    }
    if said.ends_with(b":") && is_declared(said, name) {
        Reach::After
    } else {
        Reach::Nowhere
    }
}

/// Whether a statement is the head of a PROC, a FUNCTION, a protocol or a data type.
fn has_head(said: &[u8]) -> bool {
    let first = first_word(said);
    matches!(first, b"PROC" | b"PROTOCOL" | b"DATA") || has_word(said, b"FUNCTION")
}

/// Where a name of a head is seen.
fn head_reach(said: &[u8], name: &[u8]) -> Reach {
    if head_name(said) == name {
        Reach::After
    } else if !type_among(formals(said), name).is_empty() {
        Reach::Under
    } else {
        Reach::Nowhere
    }
}

/// The name that a head specifies.
pub fn head_name(said: &[u8]) -> &[u8] {
    if first_word(said) == b"PROTOCOL".as_slice() {
        return after_word(said, b"PROTOCOL").map_or(&[], |rest| first_word(rest.trim_ascii()));
    }
    if first_word(said) == b"DATA".as_slice() {
        return after_word(said, b"TYPE").map_or(&[], |rest| first_word(rest.trim_ascii()));
    }
    match split_once(said, b"(") {
        Some((front, _)) => last_word(front),
        None => &[],
    }
}

/// The formals of a head.
pub fn formals(said: &[u8]) -> &[u8] {
    match split_once(said, b"(") {
        Some((_, inside)) => closed(inside).0,
        None => &[],
    }
}

/// Whether a statement has a replicator with that index.
pub fn is_replicator_of(said: &[u8], name: &[u8]) -> bool {
    matches!(first_word(said), b"SEQ" | b"PAR" | b"PRI" | b"ALT" | b"IF")
        && match split_once(said, b"=") {
            Some((front, _)) => last_word(front) == name,
            None => false,
        }
}

/// Whether a specification that ends in `:` is of that name.
fn is_declared(said: &[u8], name: &[u8]) -> bool {
    match abbreviated(said) {
        Some((front, _)) => last_word(front) == name,
        None => !type_among(said.strip_suffix(b":").unwrap_or(said), name).is_empty(),
    }
}

/// What is before and after the word by which something is abbreviated.
pub fn abbreviated(said: &[u8]) -> Option<(&[u8], &[u8])> {
    around_word(said, b"IS")
        .or(around_word(said, b"RETYPES"))
        .or(around_word(said, b"RESHAPES"))
}

/// The type that a list of types and names gives a name; nothing where it does not.
pub fn type_among<'a>(list: &'a [u8], name: &[u8]) -> &'a [u8] {
    let mut rest = list;
    let mut found: &[u8] = &[];
    for _ in 0..list.len() {
        let Some((item, more)) = next_item(rest, b',') else {
            break;
        };
        let (front, last) = type_and_name(item);
        if !front.is_empty() {
            found = front;
        }
        if last == name {
            return found;
        }
        rest = more;
    }
    &[]
}

/// What is before the last word of an item, and that word.
fn type_and_name(item: &[u8]) -> (&[u8], &[u8]) {
    let last = last_word(item);
    let count = item.len().saturating_sub(last.len());
    (item.get(..count).unwrap_or(&[]).trim_ascii(), last)
}

/// A type without VAL.
pub fn without_val(text: &[u8]) -> &[u8] {
    text.strip_prefix(b"VAL").unwrap_or(text).trim_ascii()
}

/// The type that a statement gives a name which it specifies; nothing where it does not say it.
pub fn type_in<'a>(said: &'a [u8], name: &[u8]) -> &'a [u8] {
    if has_head(said) {
        return head_type(said, name);
    }
    if is_replicator_of(said, name) {
        return b"INT";
    }
    match abbreviated(said) {
        Some((front, value)) => {
            let (text, _) = type_and_name(front.trim_ascii());
            match without_val(text) {
                [] => literal_type(value.trim_ascii()),
                text => text,
            }
        }
        None => type_among(said.strip_suffix(b":").unwrap_or(said), name),
    }
}

/// The type that a head gives a name: a formal, or a FUNCTION that gives one value.
fn head_type<'a>(said: &'a [u8], name: &[u8]) -> &'a [u8] {
    if head_name(said) != name {
        return type_among(formals(said), name);
    }
    match around_word(said, b"FUNCTION") {
        Some((front, _)) if !front.contains(&b',') => {
            let front = front.trim_ascii();
            front.strip_suffix(b"INLINE").unwrap_or(front).trim_ascii()
        }
        _ => &[],
    }
}

/// The type of a literal; nothing where it is none.
fn literal_type(value: &[u8]) -> &[u8] {
    let value = value.strip_suffix(b":").unwrap_or(value).trim_ascii();
    match value.first() {
        Some(b'\'') => b"BYTE",
        Some(b'0'..=b'9') => match split_once(value, b"(") {
            Some((_, inside)) => closed(inside).0,
            None => b"INT",
        },
        _ if value == b"TRUE".as_slice() || value == b"FALSE".as_slice() => b"BOOL",
        _ => &[],
    }
}

/// The type of a name at a line, if its specification is found and says it.
pub fn type_of<'a>(lines: Lines<'a>, number: u32, name: &[u8]) -> Option<Typed<'a>> {
    let number = specified_by(lines, number, name)?.number;
    match without_val(type_in(lines.statement(number), name)) {
        [] => None,
        text => Some(Typed { text, number }),
    }
}

/// The type that is left of one behind so many subscripts and fields.
pub fn selected<'a>(lines: Lines<'a>, whole: Typed<'a>, selectors: &[u8]) -> Option<Typed<'a>> {
    let mut typed = whole;
    let mut rest = selectors.trim_ascii_start();
    for _ in 0..SELECTOR_LIMIT {
        let Some(inside) = rest.strip_prefix(b"[") else {
            break;
        };
        let (selector, more) = closed(inside);
        typed = part(lines, typed, selector)?;
        rest = more;
    }
    Some(typed)
}

/// The type of an element or of a field.
fn part<'a>(lines: Lines<'a>, whole: Typed<'a>, selector: &[u8]) -> Option<Typed<'a>> {
    match whole.text.strip_prefix(b"[") {
        Some(inside) => Some(Typed {
            text: closed(inside).1.trim_ascii(),
            number: whole.number,
        }),
        None => field_type(lines, whole.text, selector.trim_ascii()),
    }
}

/// The type of a field of a record, and its line.
fn field_type<'a>(lines: Lines<'a>, record: &[u8], field: &[u8]) -> Option<Typed<'a>> {
    let head = definition(lines, record)?;
    for (at, line) in lines.after(head.number).iter().enumerate() {
        if is_skipped(line) {
            continue;
        }
        if column(line) <= column(head.line) {
            break;
        }
        let number = number_of(at).saturating_add(head.number);
        let text = type_in(lines.said(number), field);
        if !text.is_empty() {
            return Some(Typed { text, number });
        }
    }
    None
}

/// The line that defines a protocol or a data type.
pub fn definition<'a>(lines: Lines<'a>, name: &[u8]) -> Option<Numbered<'a>> {
    for (at, line) in lines.all.iter().enumerate() {
        let said = line.trim_ascii();
        if matches!(first_word(said), b"PROTOCOL" | b"DATA") && head_name(said) == name {
            let number = number_of(at);
            return Some(Numbered { number, line });
        }
    }
    None
}

/// The names of the fields of a record, as text; nothing where it is none.
pub fn field_names(alloc: Global, lines: Lines<'_>, record: &[u8]) -> Result<String, AllocError> {
    let mut names = String::new(alloc);
    let Some(head) = definition(lines, record) else {
        return Ok(names);
    };
    for (at, line) in lines.after(head.number).iter().enumerate() {
        if is_skipped(line) {
            continue;
        }
        if column(line) <= column(head.line) {
            break;
        }
        let number = number_of(at).saturating_add(head.number);
        if let Some(list) = lines.said(number).strip_suffix(b":") {
            add_names(alloc, list, &mut names)?;
        }
    }
    Ok(names)
}

/// Adds the names of a list of types and names.
fn add_names(alloc: Global, list: &[u8], names: &mut String) -> Result<(), AllocError> {
    let mut rest = list;
    for _ in 0..list.len() {
        let Some((item, more)) = next_item(rest, b',') else {
            break;
        };
        add_name(alloc, last_word(item), names)?;
        rest = more;
    }
    Ok(())
}

/// Adds a name to a list of them.
pub fn add_name(alloc: Global, name: &[u8], names: &mut String) -> Result<(), AllocError> {
    let name = BStr::new(name);
    let comma = if names.is_empty() { "" } else { ", " };
    names.push_str(format!(in alloc; "{comma}`{name}`")?.as_str())
}

/// The base of a type, and how many dimensions are before it.
fn base(text: &[u8]) -> (&[u8], usize) {
    let mut rest = text.trim_ascii();
    let mut count = 0usize;
    for _ in 0..text.len() {
        let Some(inside) = rest.strip_prefix(b"[") else {
            break;
        };
        rest = closed(inside).1.trim_ascii();
        count = count.saturating_add(1);
    }
    (rest, count)
}

/// Whether a type is of a channel.
pub fn is_channel(text: &[u8]) -> bool {
    first_word(base(text).0) == b"CHAN".as_slice()
}

/// What a channel carries: its protocol, as it is written.
pub fn carried(text: &[u8]) -> &[u8] {
    let rest = base(text).0;
    let rest = rest.strip_prefix(b"CHAN").unwrap_or(&[]).trim_ascii();
    match rest.strip_prefix(b"OF ") {
        Some(rest) => rest.trim_ascii(),
        None => rest,
    }
}

/// Whether two types are surely not the same.
pub fn do_differ(whole: &[u8], other: &[u8]) -> bool {
    let ((a, dimensions), (b, others)) = (base(whole), base(other));
    if first_word(a) == b"CHAN".as_slice() && first_word(b) == b"CHAN".as_slice() {
        return dimensions != others || carried(a) != carried(b);
    }
    dimensions != others || a != b || have_sizes(whole, other)
}

/// Whether two types begin with two sizes that are numbers and not one.
fn have_sizes(a: &[u8], b: &[u8]) -> bool {
    let (a, b) = (first_size(a), first_size(b));
    let are_numbers = a.iter().chain(b).all(u8::is_ascii_digit);
    !a.is_empty() && !b.is_empty() && are_numbers && a != b
}

/// The first size of a type, as it is written.
fn first_size(text: &[u8]) -> &[u8] {
    match text.trim_ascii().strip_prefix(b"[") {
        Some(inside) => closed(inside).0.trim_ascii(),
        None => &[],
    }
}

/// Whether a type is of whole numbers, or a BYTE.
pub fn is_number(text: &[u8]) -> bool {
    matches!(text, b"BYTE" | b"INT" | b"INT16" | b"INT32" | b"INT64")
}

/// The type of an expression, as far as looks go; nothing where they do not say it.
pub fn looks<'a>(lines: Lines<'a>, number: u32, expression: &'a [u8]) -> Option<Typed<'a>> {
    let whole = unbracketed(expression);
    let said = first_operand(whole);
    let first = first_word(said);
    let text: &[u8] = if is_condition(whole) || is_condition(said) {
        b"BOOL"
    } else if is_conversion(said, first) {
        first
    } else if first == b"SIZE".as_slice() {
        b"INT"
    } else if said.first() == Some(&b'\'') {
        b"BYTE"
    } else if said.first() == Some(&b'"') {
        b"[]BYTE"
    } else {
        return named(lines, number, said);
    };
    Some(Typed { text, number: 0 })
}

/// What is in brackets, if all is.
pub fn unbracketed(expression: &[u8]) -> &[u8] {
    let mut said = expression.trim_ascii();
    for _ in 0..SELECTOR_LIMIT {
        let Some(inside) = said.strip_prefix(b"(") else {
            break;
        };
        let (front, after) = closed(inside);
        if !after.is_empty() {
            break;
        }
        said = front.trim_ascii();
    }
    said
}

/// What is in the first brackets, if an expression begins with some.
fn first_operand(expression: &[u8]) -> &[u8] {
    let mut said = expression;
    for _ in 0..SELECTOR_LIMIT {
        let Some(inside) = said.strip_prefix(b"(") else {
            break;
        };
        said = closed(inside).0.trim_ascii();
    }
    said
}

/// Whether an expression is a conversion to the type that is its first word.
fn is_conversion(said: &[u8], first: &[u8]) -> bool {
    (is_number(first) || first == b"BOOL".as_slice()) && said.len() > first.len()
}

/// Whether an expression is a condition.
fn is_condition(said: &[u8]) -> bool {
    matches!(first_word(said), b"TRUE" | b"FALSE" | b"NOT")
        || has_word(said, b"AND")
        || has_word(said, b"OR")
        || has_word(said, b"AFTER")
        || cut(said, b'=').is_some()
        || has_comparison(said)
}

/// Whether an expression compares by `<` or `>` outside of brackets, which are no part of a shift or of `><`.
fn has_comparison(said: &[u8]) -> bool {
    let is_less = cut(said, b'<').is_some_and(|(front, rest)| !front.ends_with(b">")
        && !rest.starts_with(b"<"));
    let is_more = cut(said, b'>').is_some_and(|(_, rest)| !rest.starts_with(b">")
        && !rest.starts_with(b"<"));
    is_less || is_more
}

/// The type of the first name of an expression.
fn named<'a>(lines: Lines<'a>, number: u32, said: &[u8]) -> Option<Typed<'a>> {
    let name = first_word(said);
    if name.is_empty() || is_reserved(name) || name.first().is_some_and(u8::is_ascii_digit) {
        return None;
    }
    let rest = said.get(name.len()..).unwrap_or(&[]);
    selected(lines, type_of(lines, number, name)?, rest)
}

/// Adds the number of a line to a list of them.
pub fn add_number(alloc: Global, number: u32, numbers: &mut String) -> Result<(), AllocError> {
    let comma = if numbers.is_empty() { "" } else { ", " };
    numbers.push_str(format!(in alloc; "{comma}{number}")?.as_str())
}
