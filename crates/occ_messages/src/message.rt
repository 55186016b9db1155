//! What people are told of one diagnostic: where it is, what is wrong in words, its line of the text, and hints.
ghost use Rattle.occ_messages.specs.Located.{head_of, located};
ghost use Rattle.std.specs.Prelude.{◌≡◌, IfOk};

use super::hinting::told_of;
use super::table::entry_of;
use super::text::Text;
use super::told::{Quoted, Told, Underline};
use occ_base::{Code, Diag, Grade, Name};
use std::alloc::{AllocError, Global};
use std::str;

/// Of how many diagnostics of one file is told more than their code says. To look for that goes through the whole text.
const TOLD_LIMIT: u32 = 200;

/// What people are told of one diagnostic.
#[derive(Drop)]
pub struct Message {
    pub path: String,
    /// The line of that file, from 1.
    pub line: u32,
    pub code: Code,
    pub grade: Grade,
    /// What is wrong, with the name that is reported.
    pub words: String,
    /// That line of the text.
    pub source: String,
    /// The part of it that is meant.
    pub mark: Option<Underline>,
    /// Other lines that matter.
    pub others: Vec<Quoted>,
    /// What may help, where the line tells more than the code does.
    pub hints: Vec<String>,
}

/// The text of a file, as it is looked at for messages.
#[derive(Drop)]
pub struct Page<'a> {
    text: Text<'a>,
    /// Of how many more diagnostics is told more than their code says.
    left: u32,
}

impl<'a> Page<'a> {
    /// The page of a text.
    pub fn new(alloc: Global, text: &'a [u8]) -> Result<Page<'a>, AllocError> {
        Ok(Page {
            text: Text::new(alloc, text)?,
            left: TOLD_LIMIT,
        })
    }

    /// What is told of a diagnostic beyond its code.
    fn told(&mut self, alloc: Global, diag: &Diag) -> Result<Told, AllocError> {
        if self.left == 0 {
            return Ok(Told::new(alloc));
        }
        self.left = self.left.saturating_sub(1);
        told_of(alloc, diag, self.text.lines())
    }
}

/// What is told of a diagnostic in the text of a file at that path.
pub fn message_of(
    alloc: Global,
    diag: &Diag,
    path: &str,
    page: &mut Page<'_>,
) -> Result<Message, AllocError>
    ensures { IfOk result (λ message. head_of message ≡ located path.now diag.now) }
{
    let Told {
        words,
        mark,
        mut others,
        hints,
    } = page.told(alloc, diag)?;
    let words = match words {
        Some(words) => words,
        None => graded(alloc, diag.grade, general(alloc, diag)?)?,
    };
    others.sort_by_key(|other| other.number)?;
    let source = String::from_utf8_lossy(alloc, page.text.lines().line(diag.line))?;
    Ok(Message {
        path: String::from_str(alloc, path)?,
        line: diag.line,
        code: diag.code,
        grade: diag.grade,
        words,
        source,
        mark,
        others,
        hints,
    })
}

/// Words with what they have of doubt.
fn graded(alloc: Global, grade: Grade, words: String) -> Result<String, AllocError> {
    match grade {
        Grade::Error => Ok(words),
        Grade::Check => format!(in alloc; "perhaps {words}"),
    }
}

/// What is wrong by the code alone, with the name that is reported.
fn general(alloc: Global, diag: &Diag) -> Result<String, AllocError> {
    let entry = entry_of(diag.code);
    match &diag.name {
        Some(name) if is_own_circle(diag, name) => String::from_str(alloc, "the unit uses itself"),
        Some(name) => named(alloc, text_of(name), entry.named, entry.title),
        None => String::from_str(alloc, entry.title),
    }
}

/// Whether a unit is told to use itself.
fn is_own_circle(diag: &Diag, name: &Name) -> bool {
    diag.code == Code::G2 && name.as_bytes() == diag.file.as_bytes()
}

/// A name as text.
fn text_of(name: &Name) -> &str {
    str::from_utf8(name.as_bytes()).unwrap_or("")
}

/// What is wrong with a name.
fn named(alloc: Global, name: &str, named: &str, title: &str) -> Result<String, AllocError> {
    if named.is_empty() {
        format!(in alloc; "{title}: `{name}`")
    } else {
        format!(in alloc; "`{name}` {named}")
    }
}
