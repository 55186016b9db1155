//! What is wrong with how a line is written: words and symbols of other languages, names, and what is missing.
use super::text::{
    after_word, column, count, cut, first_word, has, has_word, is_skipped, line_after, next_word,
    parent, split_once, word_count,
};
use super::told::{Place, Told, Underline, indent, shown};
use occ_base::Code;
use std::alloc::{AllocError, Global};
use std::str;

/// Words that open, divide or close blocks in other languages.
const FOREIGN: [&str; 16] = [
    "THEN", "END", "ENDIF", "ENDWHILE", "ENDPROC", "ENDCASE", "DO", "OD", "FI", "BEGIN", "ELSIF",
    "ELSEIF", "RETURN", "VAR", "TO", "STEP",
];

/// Words of occam that people write in small letters.
const RESERVED: [&str; 40] = [
    "AFTER", "ALT", "AND", "ANY", "BOOL", "BYTE", "CASE", "CHAN", "DATA", "ELSE", "FALSE", "FOR",
    "FROM", "FUNCTION", "IF", "INT", "INT16", "INT32", "INT64", "IS", "MINUS", "NOT", "OF", "OR",
    "PAR", "PLUS", "PRI", "PROC", "PROTOCOL", "RECORD", "RESULT", "RETYPES", "SEQ", "SIZE", "SKIP",
    "STOP", "TIMER", "TRUE", "VAL", "WHILE",
];

/// Of these those that begin a line, and are no likely names.
const OPENERS: [&str; 14] = [
    "SEQ", "PAR", "IF", "ALT", "PRI", "WHILE", "CASE", "PROC", "PROTOCOL", "VAL", "INT", "BYTE",
    "BOOL", "CHAN",
];

/// Of these those that stand within a line, and are no likely names.
const JOINERS: [&str; 11] = [
    "FOR", "IS", "OF", "AND", "OR", "NOT", "INT", "BYTE", "BOOL", "CHAN", "VAL",
];

/// Words that stand where names might.
const VALUES: [&str; 4] = ["TRUE", "FALSE", "SKIP", "STOP"];

/// Words for what is left out of the language here.
const LEFT_OUT: [&str; 7] = [
    "REAL32", "REAL64", "PLACE", "PLACED", "PORT", "ASM", "VECSPACE",
];

/// What `=` is.
const EQUALS: &str = "`=` asks whether two are equal; `:=` assigns";

/// Tells what is wrong with how a line is written, if looks say it: the first that is found.
pub fn written(alloc: Global, place: Place<'_>, told: &mut Told) -> Result<(), AllocError> {
    if place.code == Code::L1 {
        literal(alloc, place, told)?;
    }
    if !told.is_said()
        && place.code != Code::S2
        && let Some(words) = symbol_hint(place.said)
    {
        told.say(String::from_str(alloc, words)?);
    }
    if told.is_said() {
        return Ok(());
    }
    words(alloc, place, told)?;
    if told.is_said() {
        return Ok(());
    }
    if place.code == Code::L1 {
        strange_byte(alloc, place, told)
    } else {
        misformed(alloc, place, told)
    }
}

/// Tells what is wrong with the form or the place of a line, if looks say it.
fn misformed(alloc: Global, place: Place<'_>, told: &mut Told) -> Result<(), AllocError> {
    if may_be_foreign(place) {
        foreign_word(alloc, place, told)?;
    }
    if told.is_said() {
        return Ok(());
    }
    if let Some(words) = hint(place) {
        told.say(String::from_str(alloc, words)?);
    }
    Ok(())
}

/// Whether a line without a form is none that words of other languages are not looked for in.
fn may_be_foreign(place: Place<'_>) -> bool {
    place.code == Code::S1
        && !is_equation(place)
        && !is_option(place)
        && first_word(place.said) != b"FOR".as_slice()
        && !is_counted_otherwise(place.said)
}

/// What is wrong with the form or the place of a line, in words that need nothing of it.
fn hint(place: Place<'_>) -> Option<&'static str> {
    if is_equation(place) {
        Some(EQUALS)
    } else if place.code == Code::S2 {
        shape_hint(place)
    } else if place.code == Code::S1 && is_option(place) {
        Some("a condition, a guard or an option ends without `:`")
    } else {
        form_hint(place.said)
    }
}

/// Whether a line under a choice ends in `:` and has lines under it.
fn is_option(place: Place<'_>) -> bool {
    let is_under = match parent(place.lines, place.number) {
        Some(parent) => {
            let said = parent.line.trim_ascii();
            matches!(first_word(said), b"IF" | b"ALT" | b"CASE" | b"PRI")
        }
        None => false,
    };
    let has_lines = line_after(place.lines, place.number).is_some_and(|after| column(after.line)
        > column(place.line));
    is_under && has_lines && place.said.ends_with(b":")
}

/// Tells which word of a line opens or closes blocks in other languages, if there is one.
fn foreign_word(alloc: Global, place: Place<'_>, told: &mut Told) -> Result<(), AllocError> {
    let word = foreign(place.said);
    if word.is_empty() || any_word(place.said, LEFT_OUT.as_slice()) {
        return Ok(());
    }
    let text = shown(word);
    told.say(format!(in alloc;
        "occam has no `{text}`: no word opens or closes a block, depth says what belongs together"
    )?);
    told.mean(place, word);
    Ok(())
}

/// The first word of a statement that opens or closes blocks in other languages.
fn foreign(said: &[u8]) -> &[u8] {
    let mut rest = said;
    for _ in 0..said.len() {
        let Some((word, more)) = next_word(rest) else {
            break;
        };
        if is_one_of(word, FOREIGN.as_slice()) {
            return word;
        }
        rest = more;
    }
    &[]
}

/// Whether a byte is one of occam's.
fn is_known(b: u8) -> bool {
    b.is_ascii_alphanumeric()
        || matches!(
            b,
            b' ' | b'\t'
                | b'.'
                | b'"'
                | b'\''
                | b'('
                | b')'
                | b'['
                | b']'
                | b'+'
                | b'-'
                | b'*'
                | b'/'
                | b'\\'
                | b'='
                | b'<'
                | b'>'
                | b':'
                | b';'
                | b','
                | b'!'
                | b'?'
                | b'&'
                | b'~'
                | b'#'
        )
}

/// Tells what is wrong with the first character of a line, if it is none.
fn literal(alloc: Global, place: Place<'_>, told: &mut Told) -> Result<(), AllocError> {
    let Some(at) = place.line.iter().position(|b| *b == b'\'' || *b == b'"') else {
        return Ok(());
    };
    let from = place.line.get(at..).unwrap_or(&[]);
    let words = match from {
        [b'\'', b'*', b'\'', ..] => "a star is written `**` in a character and in a string",
        [b'\'', b'*', ..] | [b'\'', _, b'\'', ..] | [b'"', ..] => return Ok(()),
        [b'\'', b'\\', ..] => "`*` and no backslash stands before n, t and the like: '*n'",
        _ => "'x' is one character; a string stands in double quotes: \"abc\"",
    };
    told.say(String::from_str(alloc, words)?);
    let rest = from.get(1..).unwrap_or(&[]);
    let length = rest.iter().position(|b| *b == b'\'').unwrap_or(rest.len());
    told.mark = Some(Underline {
        from: at,
        to: at.saturating_add(length).saturating_add(2),
    });
    Ok(())
}

/// Tells which byte of a line is none of occam's, in no string and no comment.
fn strange_byte(alloc: Global, place: Place<'_>, told: &mut Told) -> Result<(), AllocError> {
    let Some(found) = place.said.iter().position(|b| !is_known(*b)) else {
        return Ok(());
    };
    let b = place.said.get(found).copied().unwrap_or(b' ');
    let at = found.saturating_add(indent(place.line));
    if b.is_ascii_graphic() {
        let byte = char::from(b);
        told.say(format!(in alloc; "there is no `{byte}` in occam")?);
    } else {
        told.say(format!(in alloc; "the byte #{b:02X} has no meaning in occam")?);
    }
    told.mark = Some(Underline {
        from: at,
        to: at.saturating_add(1),
    });
    Ok(())
}

/// A symbol or a spelling that there is not.
fn symbol_hint(said: &[u8]) -> Option<&'static str> {
    if has(said, b"==") {
        Some("`=` asks whether two are equal")
    } else if has(said, b"!=") {
        Some("`<>` asks whether two are not equal")
    } else if has(said, b"&&") || has(said, b"||") {
        Some("AND and OR join conditions")
    } else if has(said, b"%") {
        Some("`\\` gives the remainder of a division")
    } else if has(said, b"{") || has(said, b"}") {
        Some("depth says what belongs together: two blanks a level, and no braces")
    } else if has(said, b"+=") || has(said, b"-=") || has(said, b"++") {
        Some("`x := x + 1` is how a variable is counted up")
    } else if has(said, b"//") || has(said, b"/*") {
        Some("`--` begins a comment")
    } else {
        None
    }
}

/// What is missing in a line, or too much: the first that is found.
fn form_hint(said: &[u8]) -> Option<&'static str> {
    opening_hint(said)
        .or(sign_hint(said))
        .or(joining_hint(said))
        .or(segment_hint(said))
        .or(specification_hint(said))
        .or(operator_hint(said))
        .or(ending_hint(said))
}

/// What is wrong with a specification that is written as in other languages.
fn specification_hint(said: &[u8]) -> Option<&'static str> {
    let first = first_word(said);
    if is_type(first) && has(said, b":=") {
        Some("a declaration gives no value: `INT x:`, and in a process `x := 3`")
    } else if is_type(first) && is_sized_behind(said, first) {
        Some("the size of an array stands before its type: `[10]INT a:`")
    } else if first == b"VAL".as_slice() && has(said, b" = ") && !has_word(said, b"IS") {
        Some("`IS` gives a VAL its value: `VAL n IS 3:`")
    } else if has_word(said, b"CHAN") && (has(said, b"?") || has(said, b"!")) {
        Some("a channel is specified without `?` and `!`: `CHAN OF INT c:`")
    } else if first == b"PROC".as_slice() && said.ends_with(b"):") {
        Some(
            "the head of a PROC ends without `:`; one stands behind its body, in a line of its own",
        )
    } else {
        None
    }
}

/// Whether square brackets stand behind the name that a type declares.
fn is_sized_behind(said: &[u8], first: &[u8]) -> bool {
    let rest = after_word(said, first).unwrap_or(&[]).trim_ascii();
    let name = first_word(rest);
    !name.is_empty()
        && !is_reserved(name)
        && rest
            .get(name.len()..)
            .unwrap_or(&[])
            .trim_ascii()
            .starts_with(b"[")
}

/// What is wrong with operators, or with numbers of other languages.
fn operator_hint(said: &[u8]) -> Option<&'static str> {
    if [b"MOD".as_slice(), b"DIV", b"XOR"]
        .iter()
        .any(|word| has_word(said, word))
    {
        Some("`/` divides, `\\` gives the remainder, and `><` is the exclusive or of bits")
    } else if has(said, b" 0x") {
        Some("a hexadecimal number begins with `#`: `#1F`")
    } else if is_front_beside(after_assignment(said).trim_ascii()) {
        Some(
            "an operator before one operand stands in brackets with it beside another operator: `(-x) + 1`, `(INT b) + 1`",
        )
    } else {
        None
    }
}

/// Whether an expression begins with an operator or a type before one operand, and has another operator behind.
fn is_front_beside(expression: &[u8]) -> bool {
    let first = first_word(expression);
    let rest = if expression.starts_with(b"-") {
        expression.get(1..).unwrap_or(&[])
    } else if matches!(first, b"NOT" | b"SIZE") || is_number_type(first) {
        expression.get(first.len()..).unwrap_or(&[])
    } else {
        return false;
    };
    [
        b" + ".as_slice(),
        b" - ",
        b" * ",
        b" / ",
        b" = ",
        b" < ",
        b" > ",
    ]
    .iter()
    .any(|sign| has(rest, sign))
        && !rest.ends_with(b":")
}

/// Whether a word is a type to which numbers are converted.
fn is_number_type(word: &[u8]) -> bool {
    matches!(
        word,
        b"INT" | b"BYTE" | b"INT16" | b"INT32" | b"INT64" | b"BOOL"
    )
}

/// What is wrong with how a line begins.
fn opening_hint(said: &[u8]) -> Option<&'static str> {
    let first = first_word(said);
    if any_word(said, LEFT_OUT.as_slice()) {
        Some("this is left out here: `occ` checks programs without reals, ports and placement")
    } else if first == b"IF".as_slice() || first == b"ALT".as_slice() {
        Some(
            "`IF` and `ALT` stand alone; each condition or guard is a line under them, two blanks in, and its process a line under that",
        )
    } else if first == b"ELSE".as_slice() {
        Some("`ELSE` stands alone, and its process a line under it, two blanks in")
    } else if first == b"FOR".as_slice() || is_counted_otherwise(said) {
        Some("a loop over numbers is `SEQ i = 0 FOR 10`: the first number, and how many")
    } else {
        None
    }
}

/// What is wrong around a sign of a line, or where one is missing.
fn sign_hint(said: &[u8]) -> Option<&'static str> {
    if has(said, b"&") && has(said, b"!") {
        Some("a guard is an input or SKIP, no output")
    } else if said.ends_with(b"?") {
        Some("behind `?` stand the variables that are input, or `CASE` for a variant protocol")
    } else if first_word(said) == b"PROC".as_slice() && !has(said, b"(") {
        Some("the head of a PROC has brackets, also where it has no formals: `PROC p ()`")
    } else if has(said, b":=") && has(said, b";") {
        Some("each process has a line of its own: `;` parts items of a message and nothing else")
    } else if is_list(said, b'!') {
        Some("items of a message are parted by `;`")
    } else if inputs_value(said) {
        Some("behind `?` stands a variable, no expression")
    } else {
        None
    }
}

/// What is wrong with what AND, OR and NOT join, or with the condition of a guard.
fn joining_hint(said: &[u8]) -> Option<&'static str> {
    let (has_and, has_or) = (has_word(said, b"AND"), has_word(said, b"OR"));
    let is_guard = said.starts_with(b"(") && !has(said, b"&");
    if compares_bare(said) {
        Some("what AND and OR join stands in brackets: `(a > 0) AND (b > 0)`")
    } else if has_word(said, b"NOT") && (has_and || has_or) {
        Some("what NOT denies stands in brackets with it: `(NOT a) AND b`")
    } else if has_and && has_or {
        Some("AND and OR beside one another want brackets: `(a AND b) OR c`")
    } else if is_guard && said.ends_with(b"SKIP") {
        Some("no `&` stands between the condition of this guard and what it guards")
    } else if is_guard && has(said, b"?") {
        Some("no `&` stands between the condition of this guard and its input")
    } else {
        None
    }
}

/// What is wrong with a segment of a line.
fn segment_hint(said: &[u8]) -> Option<&'static str> {
    let has_list = has_word(said, b"FROM") && has(said, b",") && !has_word(said, b"FOR");
    if has_list || more_from(said) {
        Some("a segment is `[a FROM start FOR count]`")
    } else {
        None
    }
}

/// What is wrong with how a line ends, or with the brackets of a subscript.
fn ending_hint(said: &[u8]) -> Option<&'static str> {
    let first = first_word(said);
    let specifies = first == b"VAL".as_slice() || has_word(said, b"IS") || is_type(first);
    if has_word(said, b"FUNCTION") {
        Some("the head of a FUNCTION is `T, .. FUNCTION f (VAL T x, ..)`: its formals are VAL")
    } else if specifies && !said.ends_with(b":") {
        Some("a specification ends in `:`")
    } else if has(said, b":=") && is_called(said, first) {
        Some("a subscript stands in square brackets: `a[i]`")
    } else if said.ends_with(b";") {
        Some("no line ends in `;`: each process has a line of its own")
    } else {
        None
    }
}

/// Whether a replicator says its last number or its step.
fn is_counted_otherwise(said: &[u8]) -> bool {
    has(said, b" = ") && (has_word(said, b"TO") || has_word(said, b"STEP"))
}

/// Whether items behind a sign are parted by a comma.
fn is_list(said: &[u8], sign: u8) -> bool {
    cut(said, sign).is_some_and(|(_, items)| cut(items, b',').is_some())
}

/// Whether something else than a variable is input.
fn inputs_value(said: &[u8]) -> bool {
    let Some((_, items)) = cut(said, b'?') else {
        return false;
    };
    !is_reserved(first_word(items))
        && (items.first().is_some_and(u8::is_ascii_digit)
            || [b'+', b'-', b'*', b'/']
                .iter()
                .any(|b| cut(items, *b).is_some()))
}

/// Whether AND or OR joins comparisons that are in no brackets.
fn compares_bare(said: &[u8]) -> bool {
    let joins = has_word(said, b"AND") || has_word(said, b"OR");
    let said = after_assignment(said);
    joins && [b'<', b'>', b'='].iter().any(|b| cut(said, *b).is_some())
}

/// What is after `:=`, or all.
pub fn after_assignment(said: &[u8]) -> &[u8] {
    match split_once(said, b":=") {
        Some((_, values)) => values,
        None => said,
    }
}

/// What a line lacks or is that may not be where it stands.
fn shape_hint(place: Place<'_>) -> Option<&'static str> {
    let said = place.said;
    if said == b"ELSE".as_slice() {
        Some(else_hint(place))
    } else if said == b"VALOF".as_slice() {
        Some(valof_hint(place))
    } else if said == b"CASE".as_slice() && !is_under_protocol(place) {
        Some("a `CASE` has in its line what it chooses by: `CASE x`")
    } else if said == b":".as_slice() {
        Some("a `:` closes a PROC, a FUNCTION, a PROTOCOL or a DATA TYPE, in the column of that")
    } else if is_equation(place) {
        Some(EQUALS)
    } else if is_chosen(place) {
        Some("an option, or a condition, has its process in a line under it, two blanks in")
    } else if let Some(words) = head_hint(place) {
        Some(words)
    } else if said.first().is_some_and(u8::is_ascii_alphabetic)
        && first_word(said) == said
        && !is_reserved(said)
    {
        Some("a call has brackets, also where it is given nothing: `p ()`")
    } else if is_type(first_word(said.rsplit(|b| *b == b']').next().unwrap_or(said)))
        && !said.ends_with(b":")
        && !has_word(said, b"FUNCTION")
    {
        Some("a declaration ends in `:`")
    } else {
        None
    }
}

/// What is wrong with an ELSE, by what it stands under or behind.
fn else_hint(place: Place<'_>) -> &'static str {
    let above = parent(place.lines, place.number).map_or(
        &[] as &[u8],
        |line| line.line.trim_ascii(),
    );
    if has(above, b"?") {
        "an input with CASE has no ELSE: each of its lines has a tag"
    } else {
        match first_word(above) {
            b"IF" => "an IF has no ELSE: its last condition is `TRUE`",
            b"ALT" | b"PRI" => "an ALT has no ELSE: a guard that is always ready is `TRUE & SKIP`",
            _ =>
                "an ELSE is the last option of a `CASE`, and stands in the column of the other options",
        }
    }
}

/// What stands under the head of a PROTOCOL, a DATA TYPE or an ALT, where a word alone stands there.
fn head_hint(place: Place<'_>) -> Option<&'static str> {
    let above = parent(place.lines, place.number)?.line.trim_ascii();
    if first_word(place.said) != place.said || is_reserved(place.said) {
        return None;
    }
    match first_word(above) {
        b"PROTOCOL" => Some("under the head of a PROTOCOL stands `CASE`, and under that its tags"),
        b"ALT" => Some("a guard is an input, or a condition, `&`, and an input or SKIP"),
        _ => None,
    }
}

/// Whether a word or a number alone is under an IF or a CASE, and has no line under it.
fn is_chosen(place: Place<'_>) -> bool {
    let is_under = parent(place.lines, place.number).is_some_and(|parent| matches!(
        first_word(parent.line.trim_ascii()),
        b"IF" | b"CASE"
    ));
    let has_lines = line_after(place.lines, place.number).is_some_and(|after| column(after.line)
        > column(place.line));
    is_under
        && !has_lines
        && !place.said.is_empty()
        && first_word(place.said) == place.said
        && !is_reserved(place.said)
}

/// Whether a line is under the head of a PROTOCOL.
fn is_under_protocol(place: Place<'_>) -> bool {
    parent(place.lines, place.number).is_some_and(|parent| first_word(parent.line.trim_ascii())
        == b"PROTOCOL".as_slice())
}

/// What is wrong with a VALOF.
fn valof_hint(place: Place<'_>) -> &'static str {
    let depth = column(place.line);
    let under = place.lines.after(place.number);
    let mut block = under
        .iter()
        .take_while(|line| is_skipped(line) || column(line) > depth);
    if block.any(|line| first_word(line.trim_ascii()) == b"RESULT".as_slice()) {
        "under VALOF stand a process and then a `RESULT`, in one column"
    } else {
        "the `RESULT` of this VALOF is missing: it stands behind the process, in its column"
    }
}

/// Whether a line looks like an assignment by `=`.
fn is_equation(place: Place<'_>) -> bool {
    let parent = match parent(place.lines, place.number) {
        Some(parent) => parent.line.trim_ascii(),
        None => &[],
    };
    let first = first_word(place.said);
    has(place.said, b" = ")
        && !has(place.said, b":=")
        && !first.is_empty()
        && !is_reserved(first)
        && !parent.starts_with(b"IF")
}

/// Whether a word is a type that has no name.
fn is_type(word: &[u8]) -> bool {
    const TYPES: [&str; 8] = [
        "BOOL", "BYTE", "INT", "INT16", "INT32", "INT64", "CHAN", "TIMER",
    ];
    is_one_of(word, TYPES.as_slice())
}

/// Whether a word is one of these.
fn is_one_of(word: &[u8], words: &[&str]) -> bool {
    words.iter().any(|other| other.as_bytes() == word)
}

/// Whether a word is reserved.
pub fn is_reserved(word: &[u8]) -> bool {
    is_one_of(word, RESERVED.as_slice())
}

/// Whether a statement has one of these words.
fn any_word(said: &[u8], words: &[&str]) -> bool {
    words.iter().any(|word| has_word(said, word.as_bytes()))
}

/// Whether a word has brackets after it.
fn is_called(said: &[u8], word: &[u8]) -> bool {
    match after_word(said, word) {
        Some(rest) => rest.trim_ascii().starts_with(b"("),
        None => false,
    }
}

/// Whether there are more FROM than FOR.
fn more_from(said: &[u8]) -> bool {
    word_count(said, b"FROM") > word_count(said, b"FOR")
}

/// Tells which word of a line is written otherwise: one with an underscore, or one that is reserved in capitals.
fn words(alloc: Global, place: Place<'_>, told: &mut Told) -> Result<(), AllocError> {
    let said = place.said;
    let first = first_word(said);
    let openers = if first == said {
        RESERVED.as_slice()
    } else {
        OPENERS.as_slice()
    };
    capital(alloc, place, told, first, openers)?;
    let mut rest = said;
    for _ in 0..said.len() {
        let Some((word, more)) = next_word(rest) else {
            break;
        };
        if told.is_said() {
            break;
        }
        word_hint(alloc, place, told, word)?;
        rest = more;
    }
    Ok(())
}

/// Tells what is wrong with a word, wherever it stands.
fn word_hint(
    alloc: Global,
    place: Place<'_>,
    told: &mut Told,
    word: &[u8],
) -> Result<(), AllocError> {
    if word.contains(&b'_') && count(word, b'_') < word.len() {
        let text = str::from_utf8(word).unwrap_or("");
        let dotted = text.replace(alloc, "_", ".")?;
        told.say(format!(in alloc; "`{text}` is no name: names have dots and no underscores")?);
        told.mean(place, word);
        return told.help(format!(in alloc; "write `{dotted}`")?);
    }
    if word.first().is_some_and(u8::is_ascii_digit) && word.contains(&b'.') {
        told.say(String::from_str(alloc, "reals are left out here: no number has a dot")?);
        told.mean(place, word);
        return Ok(());
    }
    capital(alloc, place, told, word, JOINERS.as_slice())
}

/// Tells that a word is one of these in capitals, if so it is.
fn capital(
    alloc: Global,
    place: Place<'_>,
    told: &mut Told,
    word: &[u8],
    words: &[&str],
) -> Result<(), AllocError> {
    let text = str::from_utf8(word).unwrap_or("");
    let capitals = text.to_ascii_uppercase(alloc)?;
    if capitals.as_str() != text && is_one_of(capitals.as_bytes(), words) {
        told.say(format!(in alloc;
            "`{text}` is written `{capitals}`: words of occam are in capitals"
        )?);
        told.mean(place, word);
    }
    Ok(())
}

/// Tells that a name which is not in scope is a word of occam in small letters, if so it is.
pub fn is_value_word(alloc: Global, place: Place<'_>, told: &mut Told) -> Result<(), AllocError> {
    capital(alloc, place, told, place.name, VALUES.as_slice())
}

/// Whether a name looks like that of a procedure which other compilers have.
pub fn is_predefined(place: Place<'_>) -> bool {
    is_called(place.said, place.name) && place.name.iter().all(u8::is_ascii_uppercase)
}
