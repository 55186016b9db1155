//! What a channel carries, and what is wrong with a message.
use super::declared::{
    Typed, add_name, carried, definition, do_differ, head_name, is_channel, looks, specified_by,
    type_of,
};
use super::mismatch::{counted, said_of};
use super::similar::is_like;
use super::text::{
    Lines, Numbered, after_word, column, cut, first_word, has, has_word, is_skipped, item_count,
    next_item, number_of, parent, split_once,
};
use super::told::{Place, Told, shown};
use bstr::BStr;
use occ_base::Code;
use std::alloc::{AllocError, Global};
use std::fmt;

/// How many lines above are looked at for the input that an option belongs to.
const PARENT_LIMIT: usize = 4;

/// What items of a message are parted by.
const PARTED: &str = "items of a message are parted by `;`";

/// What a channel is said to carry: `c` carries `INT` (line 3).
#[derive(Clone, Copy)]
struct Carries<'a> {
    channel: BStr<'a>,
    text: BStr<'a>,
    number: u32,
}

impl fmt::Display for Carries<'_> {
    fn fmt<W: fmt::Write>(&self, f: &mut fmt::Formatter<W>) -> fmt::Result {
        let (channel, text, number) = (self.channel, self.text, self.number);
        write!(f, "`{channel}` carries `{text}` (line {number})")
    }
}

/// What is from the sign of an input or output on; nothing where there is none.
fn from_sign(said: &[u8]) -> &[u8] {
    match said.iter().position(|b| *b == b'!' || *b == b'?') {
        Some(at) => said.get(at..).unwrap_or(&[]),
        None => &[],
    }
}

/// The items of a message that a line sends or receives.
fn items(said: &[u8]) -> &[u8] {
    let items = match from_sign(said) {
        [] => said,
        [_, items @ ..] => items.trim_ascii(),
    };
    match items.strip_prefix(b"CASE ") {
        Some(items) => items.trim_ascii(),
        None => items,
    }
}

/// The channel of a line: its own, or that of the input to which an option belongs.
fn channel_of<'a>(place: Place<'a>) -> &'a [u8] {
    if !from_sign(place.said).is_empty() {
        return channel_in(place.said);
    }
    let mut number = place.number;
    for _ in 0..PARENT_LIMIT {
        let Some(above) = parent(place.lines, number) else {
            break;
        };
        if !from_sign(above.line).is_empty() {
            return channel_in(above.line.trim_ascii());
        }
        number = above.number;
    }
    &[]
}

/// The channel of an input or an output.
fn channel_in(said: &[u8]) -> &[u8] {
    let said = match cut(said, b'&') {
        Some((_, input)) => input,
        None => said,
    };
    first_word(said)
}

/// What a channel carries, and the line that says so, if its specification is found.
fn carried_by<'a>(place: Place<'a>, name: &[u8]) -> Option<Typed<'a>> {
    let Typed { text, number } = type_of(place.lines, place.number, name)?;
    if !is_channel(text) {
        return None;
    }
    Some(Typed {
        text: carried(text),
        number,
    })
}

/// Tells what is wrong with a message.
pub fn message(alloc: Global, place: Place<'_>, told: &mut Told) -> Result<(), AllocError> {
    let channel = channel_of(place);
    if let Some(found) = carried_by(place, channel) {
        match definition(place.lines, found.text) {
            Some(head) => of_protocol(alloc, place, told, head)?,
            None => of_items(alloc, place, told, found.text, found.number)?,
        }
    }
    if told.hints.is_empty() && place.said.contains(&b'!') && has_two_words(items(place.said)) {
        told.help(String::from_str(alloc, PARTED)?)?;
    }
    Ok(())
}

/// Whether the first two words of a message are beside one another.
fn has_two_words(items: &[u8]) -> bool {
    let first = first_word(items);
    let rest = items.get(first.len()..).unwrap_or(&[]);
    let second = first_word(rest.trim_ascii());
    !first.is_empty()
        && rest.starts_with(b" ")
        && second.iter().any(u8::is_ascii_lowercase)
        && first.iter().any(u8::is_ascii_lowercase)
}

/// Tells what is wrong with a message of a protocol that has a name.
fn of_protocol(
    alloc: Global,
    place: Place<'_>,
    told: &mut Told,
    head: Numbered<'_>,
) -> Result<(), AllocError> {
    let said = place.lines.said(head.number);
    if let Some(wanted) = after_word(said, b"IS") {
        told.show(alloc, head, b"IS", "")?;
        let wanted = wanted.strip_suffix(b":").unwrap_or(wanted).trim_ascii();
        return of_items(alloc, place, told, wanted, head.number);
    }
    match place.code {
        Code::P1 => of_tag(alloc, place, told, head),
        Code::P2 => no_tag(alloc, place, told, head),
        _ => no_variant(alloc, place, told, head),
    }
}

/// Tells what is wrong with a message behind its tag.
fn of_tag(
    alloc: Global,
    place: Place<'_>,
    told: &mut Told,
    head: Numbered<'_>,
) -> Result<(), AllocError> {
    let given = items(place.said);
    let tag = first_word(given);
    let Some(found) = tag_line(place.lines, head, tag) else {
        return Ok(());
    };
    let wanted = place.lines.said(found.number);
    told.show(alloc, found, tag, "")?;
    of_items(alloc, place, told, wanted, found.number)
}

/// The line of a tag under the head of its protocol.
fn tag_line<'a>(lines: Lines<'a>, head: Numbered<'a>, tag: &[u8]) -> Option<Numbered<'a>> {
    for (at, line) in lines.after(head.number).iter().enumerate() {
        if is_skipped(line) {
            continue;
        }
        if column(line) <= column(head.line) {
            break;
        }
        if first_word(line.trim_ascii()) == tag {
            let number = number_of(at).saturating_add(head.number);
            return Some(Numbered { number, line });
        }
    }
    None
}

/// The tags of a protocol, as text.
fn tags(alloc: Global, lines: Lines<'_>, head: Numbered<'_>) -> Result<String, AllocError> {
    let mut names = String::new(alloc);
    for line in lines.after(head.number) {
        if is_skipped(line) {
            continue;
        }
        if column(line) <= column(head.line) {
            break;
        }
        let tag = first_word(line.trim_ascii());
        if tag != b"CASE".as_slice() {
            add_name(alloc, tag, &mut names)?;
        }
    }
    Ok(names)
}

/// The tag of a protocol that is almost a name.
fn like_tag<'a>(lines: Lines<'a>, head: Numbered<'a>, name: &[u8]) -> &'a [u8] {
    for line in lines.after(head.number) {
        if is_skipped(line) {
            continue;
        }
        if column(line) <= column(head.line) {
            break;
        }
        let tag = first_word(line.trim_ascii());
        if is_like(tag, name) {
            return tag;
        }
    }
    &[]
}

/// Tells that a protocol has no such tag, and which it has.
fn no_tag(
    alloc: Global,
    place: Place<'_>,
    told: &mut Told,
    head: Numbered<'_>,
) -> Result<(), AllocError> {
    let (name, channel) = (shown(place.name), shown(channel_of(place)));
    let protocol = shown(head_name(head.line.trim_ascii()));
    told.say(format!(in alloc; "`{name}` is no tag of {protocol}, the protocol of `{channel}`")?);
    let (tags, number) = (tags(alloc, place.lines, head)?, head.number);
    told.help(format!(in alloc; "the tags of {protocol} are {tags} (line {number})")?)?;
    meant_tag(alloc, place, told, head)
}

/// Tells a tag that may be meant by one which a protocol lacks, or that none stands before a name.
fn meant_tag(
    alloc: Global,
    place: Place<'_>,
    told: &mut Told,
    head: Numbered<'_>,
) -> Result<(), AllocError> {
    let like = like_tag(place.lines, head, place.name);
    if !like.is_empty() {
        let like = shown(like);
        return told.help(format!(in alloc; "perhaps `{like}` is meant")?);
    }
    if !place.said.contains(&b'!') || type_of(place.lines, place.number, place.name).is_none() {
        return Ok(());
    }
    let (name, channel) = (shown(place.name), shown(channel_of(place)));
    told.help(format!(in alloc; "a message begins with its tag: `{channel} ! TAG; {name}`")?)
}

/// Tells that a message of a variant protocol has no tag, or is input without CASE.
fn no_variant(
    alloc: Global,
    place: Place<'_>,
    told: &mut Told,
    head: Numbered<'_>,
) -> Result<(), AllocError> {
    let tag = first_word(items(place.said));
    if place.said.contains(&b'!')
        && let Some(line) = tag_line(place.lines, head, tag)
    {
        return unparted(alloc, place, tag, line, told);
    }
    let tags = tags(alloc, place.lines, head)?;
    let channel = shown(place.name);
    let number = head.number;
    if place.said.contains(&b'!') {
        told.say(format!(in alloc;
            "a message on `{channel}` begins with a tag, and none stands here"
        )?);
    } else {
        told.say(format!(in alloc;
            "`{channel}` has a variant protocol, and is input from by `{channel} ? CASE`"
        )?);
    }
    told.help(format!(in alloc; "the tags of its protocol are {tags} (line {number})")?)
}

/// Tells which item of a message is not as it is wanted.
fn of_items(
    alloc: Global,
    place: Place<'_>,
    told: &mut Told,
    wanted: &[u8],
    number: u32,
) -> Result<(), AllocError> {
    let given = items(place.said);
    let (many, some) = (item_count(wanted, b';'), item_count(given, b';'));
    let carries = Carries {
        channel: shown(channel_of(place)),
        text: shown(wanted),
        number,
    };
    if some != many {
        return other_count(alloc, carries, many, some, told);
    }
    each_item(alloc, place, told, wanted, given)?;
    if !told.is_said() {
        let message = place.shown(given);
        told.say(format!(in alloc; "{carries}, and `{message}` is not that")?);
    }
    Ok(())
}

/// Tells that items are missing of those that a channel carries, or that there are more.
fn other_count(
    alloc: Global,
    carries: Carries<'_>,
    many: usize,
    some: usize,
    told: &mut Told,
) -> Result<(), AllocError> {
    told.say(if some < many {
        let missing = counted(many.saturating_sub(some), "item");
        format!(in alloc; "{carries}, and here {missing} of it is missing")?
    } else {
        let more = counted(some.saturating_sub(many), "item");
        format!(in alloc; "{carries}, and here is {more} more")?
    });
    Ok(())
}

/// Tells which item has another type than is wanted: the first that is found.
fn each_item(
    alloc: Global,
    place: Place<'_>,
    told: &mut Told,
    wanted: &[u8],
    given: &[u8],
) -> Result<(), AllocError> {
    let (mut texts, mut rest) = (wanted, given);
    let mut number = 0usize;
    for _ in 0..given.len() {
        let (Some((text, others)), Some((item, more))) = (
            next_item(texts, b';'),
            next_item(rest, b';'),
        ) else {
            break;
        };
        number = number.saturating_add(1);
        if !told.is_said() && text != item {
            let which = if number == 1 && more.is_empty() {
                0
            } else {
                number
            };
            one_item(alloc, place, told, text, Item { item, rest, which })?;
        }
        (texts, rest) = (others, more);
    }
    Ok(())
}

/// An item of a message, with those after it, and the how manieth it is; 0 where it is the only one.
#[derive(Clone, Copy)]
struct Item<'a> {
    item: &'a [u8],
    rest: &'a [u8],
    which: usize,
}

/// Tells that an item has another type than is wanted, if so it is.
fn one_item(
    alloc: Global,
    place: Place<'_>,
    told: &mut Told,
    wanted: &[u8],
    given: Item<'_>,
) -> Result<(), AllocError> {
    let Item { item, rest, which } = given;
    let (what, text, given) = match (counts(wanted), counts(item)) {
        (Some(text), Some(count)) => ("the count before `::` has to be", text, count),
        (None, None) => ("carries", wanted, item),
        _ => return Ok(()),
    };
    let Some(typed) = looks(place.lines, place.number, given) else {
        return Ok(());
    };
    if !do_differ(text, typed.text) {
        return Ok(());
    }
    let (text, is) = (shown(text), said_of(place, given, typed));
    told.mean_in(place, rest, first_word(given));
    if what == "carries" && which > 0 {
        let channel = shown(channel_of(place));
        told.say(format!(in alloc;
            "item {which} of what `{channel}` carries is {text}, and {is}"
        )?);
    } else if what == "carries" {
        let channel = shown(channel_of(place));
        told.say(format!(in alloc; "`{channel}` carries {text}, and {is}")?);
    } else {
        told.say(format!(in alloc; "{what} {text}, and {is}")?);
    }
    show_channel(alloc, place, told)
}

/// Shows where the channel of a line is specified.
fn show_channel(alloc: Global, place: Place<'_>, told: &mut Told) -> Result<(), AllocError> {
    let channel = channel_of(place);
    match specified_by(place.lines, place.number, channel) {
        Some(found) => told.show(alloc, found, channel, ""),
        None => Ok(()),
    }
}

/// What is before `::`, if there is one.
fn counts(item: &[u8]) -> Option<&[u8]> {
    let (count, _) = split_once(item, b"::")?;
    Some(count.trim_ascii())
}

/// Tells that a name is no channel.
pub fn no_channel(alloc: Global, place: Place<'_>, told: &mut Told) -> Result<(), AllocError> {
    let Some(typed) = type_of(place.lines, place.number, place.name) else {
        return Ok(());
    };
    let name = shown(place.name);
    let text = shown(typed.text);
    let number = typed.number;
    if has(typed.text, b"TIMER") {
        told.say(format!(in alloc;
            "`{name}` is a TIMER (line {number}): one reads the time of it, and outputs nothing to it"
        )?);
        told.help(format!(in alloc;
            "`{name} ? t` reads the time; `{name} ? AFTER t` waits for a time"
        )?)
    } else if has_word(place.said, b"AFTER") {
        told.say(format!(in alloc;
            "`{name}` is {text} (line {number}), and `AFTER` waits for a TIMER"
        )?);
        Ok(())
    } else {
        told.say(format!(in alloc; "`{name}` is {text} (line {number}), and no channel")?);
        Ok(())
    }
}

/// Tells that a name which is not in scope is a tag, if so it is.
pub fn is_tag(alloc: Global, place: Place<'_>, told: &mut Told) -> Result<(), AllocError> {
    if from_sign(place.said).is_empty() || first_word(items(place.said)) != place.name {
        return Ok(());
    }
    let channel = channel_of(place);
    let Some(found) = carried_by(place, channel) else {
        return Ok(());
    };
    let Some(head) = definition(place.lines, found.text) else {
        return Ok(());
    };
    let Some(line) = tag_line(place.lines, head, place.name) else {
        return Ok(());
    };
    unparted(alloc, place, place.name, line, told)
}

/// Tells that a tag is input without CASE, or that what follows it is not parted from it.
fn unparted(
    alloc: Global,
    place: Place<'_>,
    tag: &[u8],
    line: Numbered<'_>,
    told: &mut Told,
) -> Result<(), AllocError> {
    let name = shown(tag);
    if from_sign(place.said).starts_with(b"?") {
        let channel = shown(channel_of(place));
        told.say(format!(in alloc;
            "`{name}` is a tag, and is input by `{channel} ? CASE {name}`"
        )?);
        return told.show(alloc, line, tag, "");
    }
    told.say(format!(in alloc;
        "`{name}` is a tag, and no `;` stands between it and what follows"
    )?);
    told.show(alloc, line, tag, "")?;
    told.help(String::from_str(alloc, PARTED)?)
}
