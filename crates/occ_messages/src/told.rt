//! What is told of a diagnostic beyond its code: better words, the word that is meant, other lines, and what may help.
use super::text::{Lines, Numbered, after_word, first_word};
use bstr::BStr;
use occ_base::{Code, Grade};
use std::alloc::{AllocError, Global};

/// What hints are made of: a diagnostic, its line and its text.
#[derive(Clone, Copy)]
pub struct Place<'a> {
    pub code: Code,
    pub grade: Grade,
    /// The number of the line, from 1.
    pub number: u32,
    pub line: &'a [u8],
    /// What the line says.
    pub said: &'a [u8],
    /// The name that is reported, or no byte.
    pub name: &'a [u8],
    pub lines: Lines<'a>,
}

impl<'a> Place<'a> {
    /// A part of what the line says, as text, with its strings and characters.
    pub fn shown(self, part: &'a [u8]) -> BStr<'a> {
        let part = part.trim_ascii();
        shown(self.original(part).unwrap_or(part))
    }

    /// The bytes of the line for which a part of what it says stands.
    fn original(self, part: &[u8]) -> Option<&'a [u8]> {
        if part.is_empty() {
            return None;
        }
        let at = self
            .said
            .windows(part.len())
            .position(|there| there == part)?;
        let from = indent(self.line).saturating_add(at);
        self.line.get(from..from.saturating_add(part.len()))
    }
}

/// A part of a line, by the bytes before its start and before its end.
#[derive(Clone, Copy, Debug)]
pub struct Underline {
    pub from: usize,
    pub to: usize,
}

/// Another line that matters.
#[derive(Drop)]
pub struct Quoted {
    pub number: u32,
    pub source: String,
    pub mark: Option<Underline>,
    /// What is said of that part.
    pub label: &'static str,
}

/// What is told of a diagnostic beyond its code.
#[derive(Drop)]
pub struct Told {
    /// What is wrong, where the line tells it better than the code does.
    pub words: Option<String>,
    /// The part of the line that is meant.
    pub mark: Option<Underline>,
    /// Other lines that matter.
    pub others: Vec<Quoted>,
    /// What may help.
    pub hints: Vec<String>,
}

/// How many bytes stand before what a line says.
pub fn indent(line: &[u8]) -> usize {
    line.len().saturating_sub(line.trim_ascii_start().len())
}

/// The part of a line that is a word behind another part of what it says.
pub fn mark_in(line: &[u8], said: &[u8], rest: &[u8], word: &[u8]) -> Option<Underline> {
    let after = after_word(rest, word)?;
    let to = indent(line)
        .saturating_add(said.len())
        .saturating_sub(after.len());
    let from = to.saturating_sub(word.len());
    Some(Underline { from, to })
}

impl Told {
    /// Nothing yet.
    pub fn new(alloc: Global) -> Told {
        Told {
            words: None,
            mark: None,
            others: Vec::new(alloc),
            hints: Vec::new(alloc),
        }
    }

    /// Whether it is told what is wrong.
    pub fn is_said(&self) -> bool {
        self.words.is_some()
    }

    /// Tells what is wrong.
    pub fn say(&mut self, words: String) {
        self.words = Some(words);
    }

    /// Tells what may help.
    pub fn help(&mut self, hint: String) -> Result<(), AllocError> {
        self.hints.push(hint)?;
        Ok(())
    }

    /// Means a word of the line.
    pub fn mean(&mut self, place: Place<'_>, word: &[u8]) {
        if self.mark.is_none() {
            self.mark = mark_in(place.line, place.said, place.said, word);
        }
    }

    /// Means a word of the line that is in the rest of what it says.
    pub fn mean_in(&mut self, place: Place<'_>, rest: &[u8], word: &[u8]) {
        if self.mark.is_none() {
            self.mark = mark_in(place.line, place.said, rest, word);
        }
    }

    /// Shows another line, once, with its first word.
    pub fn show_start(&mut self, alloc: Global, line: Numbered<'_>) -> Result<(), AllocError> {
        self.show(alloc, line, first_word(line.line.trim_ascii()), "")
    }

    /// Shows another line, once, with a word of it.
    pub fn show(
        &mut self,
        alloc: Global,
        line: Numbered<'_>,
        word: &[u8],
        label: &'static str,
    ) -> Result<(), AllocError> {
        if self.others.iter().any(|other| other.number == line.number) {
            return Ok(());
        }
        let mark = mark_in(line.line, line.line.trim_ascii_start(), line.line, word);
        self.others.push(Quoted {
            number: line.number,
            source: String::from_utf8_lossy(alloc, line.line)?,
            mark,
            label,
        })?;
        Ok(())
    }
}

/// Bytes as text.
pub fn shown(bytes: &[u8]) -> BStr<'_> {
    BStr::new(bytes.trim_ascii())
}
