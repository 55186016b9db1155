//! The first line of a command: its words, and what they ask for. `docs/MACHINE.md, Scripts`.
ghost use Rattle.std.specs.List.{list_all};
ghost use Rattle.std.specs.Char.{is_ascii_digit};
ghost use Rattle.std.specs.Prelude.{◌≡◌, ◌≤◌, ◌==◌, ◌∷◌, length, true};
ghost use Rattle.std.specs.Str.{bytes_eq};
ghost use Rattle.occheck_commands.specs.Lines.{words};
ghost use Rattle.occheck_commands.specs.Script.{bare as spec_bare, for_worker as spec_for_worker, header as spec_header, is_number as spec_is_number, number as spec_number, number_on, removes as spec_removes, texts as spec_texts, with_one as spec_with_one, with_text as spec_with_text, worker as spec_worker};
ghost use Rattle.occheck_commands.specs.inside.Header.{edit_seen, header_seen, words_after};

use super::lines::length_before;

/// A command of a script, with what it names lent from the script.
#[derive(Clone, Copy)]
pub enum Command<'a> {
    /// `open NAME N`: the name, and the text after it.
    Open(&'a [u8], &'a [u8]),
    /// `change NAME N`: the name, and the text after it.
    Change(&'a [u8], &'a [u8]),
    /// `remove NAME`
    Remove(&'a [u8]),
    /// `take W`
    Take(u8),
    /// `finish W`
    Finish(u8),
    /// `drop W`
    Drop(u8),
    /// `settle`
    Settle,
    /// `checkpoint`
    Checkpoint,
    /// `report`
    Report,
}

/// What a command does with its text.
#[derive(Clone, Copy)]
pub(super) enum Edit {
    Open,
    Change,
}

/// The first line of a command.
#[derive(Clone, Copy)]
pub(super) enum Header<'a> {
    /// `open NAME N` or `change NAME N`: the name, and the number of lines of the text after it.
    Texts(Edit, &'a [u8], u32),
    /// The line is all of the command.
    Alone(Command<'a>),
}

/// The command that a line begins, if it begins one.
#[tactic(auto, using(crate::proofs::Words::four_words))]
pub(super) fn read_header(line: &[u8]) -> Option<Header<'_>>
    ensures { header_seen result ≡ spec_header line.now }
{
    let (word, rest) = first_word(line);
    let Some(rest) = rest else {
        return bare(word);
    };
    let (second, rest) = first_word(rest);
    let Some(rest) = rest else {
        return with_one(word, second);
    };
    let (third, rest) = first_word(rest);
    match rest {
        None => with_text(word, second, third),
        Some(_) => None,
    }
}

/// A command of one word.
fn bare(word: &[u8]) -> Option<Header<'_>>
    ensures { header_seen result ≡ spec_bare word.now }
{
    if is_word(word, "settle") {
        return Some(Header::Alone(Command::Settle));
    }
    if is_word(word, "checkpoint") {
        return Some(Header::Alone(Command::Checkpoint));
    }
    if is_word(word, "report") {
        return Some(Header::Alone(Command::Report));
    }
    None
}

/// A command of two words.
fn with_one<'a>(word: &'a [u8], given: &'a [u8]) -> Option<Header<'a>>
    ensures { header_seen result ≡ spec_with_one word.now given.now }
{
    if is_word(word, "remove") {
        return removal(given);
    }
    for_worker(word, given)
}

/// `remove`, with this name.
fn removal(name: &[u8]) -> Option<Header<'_>>
    ensures { header_seen result ≡ spec_removes name.now }
{
    if name.is_empty() {
        return None;
    }
    Some(Header::Alone(Command::Remove(name)))
}

/// A command of a worker.
fn for_worker<'a>(word: &'a [u8], number: &'a [u8]) -> Option<Header<'a>>
    ensures { header_seen result ≡ spec_for_worker word.now number.now }
{
    if is_word(word, "take") {
        return Some(Header::Alone(Command::Take(worker(number)?)));
    }
    if is_word(word, "finish") {
        return Some(Header::Alone(Command::Finish(worker(number)?)));
    }
    if is_word(word, "drop") {
        return Some(Header::Alone(Command::Drop(worker(number)?)));
    }
    None
}

/// A command of three words.
fn with_text<'a>(word: &'a [u8], name: &'a [u8], number: &'a [u8]) -> Option<Header<'a>>
    ensures { header_seen result ≡ spec_with_text word.now name.now number.now }
{
    if is_word(word, "open") {
        return texts(Edit::Open, name, number);
    }
    if is_word(word, "change") {
        return texts(Edit::Change, name, number);
    }
    None
}

/// A command with a text of so many lines, for this name.
fn texts<'a>(edit: Edit, name: &'a [u8], number: &'a [u8]) -> Option<Header<'a>>
    ensures { header_seen result ≡ spec_texts (edit_seen edit) name.now number.now }
{
    if name.is_empty() {
        return None;
    }
    Some(Header::Texts(edit, name, value(number)?))
}

/// The word in front of the first blank, and what stands after that blank, if there is one.
#[tactic(auto, using(crate::proofs::Cut::words_cut))]
fn first_word(line: &[u8]) -> (&[u8], Option<&[u8]>)
    ensures { words line.now ≡ result.0.now ∷ words_after result.1 }
{
    let length = length_before(line, b' ');
    let (word, rest) = line.split_at(length);
    match rest.split_first() {
        Some((_, rest)) => (word, Some(rest)),
        None => (word, None),
    }
}

fn is_word(word: &[u8], text: &str) -> bool
    ensures { result ≡ bytes_eq word.now text.now }
{
    word == text.as_bytes()
}

fn worker(word: &[u8]) -> Option<u8>
    ensures { result ≡ spec_worker word.now }
{
    let number = value(word)?;
    if number <= 63 {
        Some(number as u8)
    } else {
        None
    }
}

/// A number in one to five decimal digits.
fn value(word: &[u8]) -> Option<u32>
    ensures { result ≡ spec_number word.now }
{
    if !is_number(word) {
        return None;
    }
    Some(digits_value(word))
}

fn is_number(word: &[u8]) -> bool
    ensures { result ≡ spec_is_number word.now }
{
    !word.is_empty() && word.len() <= 5 && are_digits(word)
}

fn are_digits(word: &[u8]) -> bool
    ensures { result ≡ list_all is_ascii_digit word.now }
{
    word.iter().all(|b| b.is_ascii_digit())
}

/// The value of at most five digits.
fn digits_value(word: &[u8]) -> u32
    requires short { length word.now ≤ 5 }
    requires digits { list_all is_ascii_digit word.now ≡ true }
    ensures { result ≡ number_on 0 word.now }
{
    let mut value = 0;
    for digit in word {
        value = value * 10 + (*digit - b'0') as u32;
    }
    value
}
