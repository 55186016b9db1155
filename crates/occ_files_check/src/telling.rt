//! What people are told of a report.
ghost use Rattle.occ_files_check.specs.Told.{diags_in as spec_diags_in, heads, path_of, row_diags, shown_diags, told_diags as spec_told_diags};
ghost use Rattle.occ_messages.specs.Located.{head_of, located};
ghost use Rattle.occ_project.specs.Entries.{is_among as spec_is_among};
ghost use Rattle.std.specs.Prelude.{◌≡◌, ◌++◌, IfOk, OnOk, map};

use occ_base::{Diag, FileName, Items};
use occ_board::{Row, Shown};
use occ_check::in_order;
use occ_files::Text;
use occ_messages::{Message, Page, message_of};
use std::alloc::{AllocError, Global};

/// Whether a unit is one of these.
fn is_among(units: &[FileName], unit: FileName) -> bool
    ensures { result ≡ spec_is_among units.now unit }
{
    units.iter().any(|other| *other == unit)
}

/// The diagnostics of these units, in order, each once.
pub fn told_diags(
    alloc: Global,
    rows: &[Row],
    units: &[FileName],
) -> Result<Items<Diag>, AllocError>
    ensures { IfOk result (λ diags. diags ≡ spec_told_diags units.now rows.now) }
{
    let mut diags = Items::new(alloc);
    for row in rows {
        add_row(alloc, row, units, &mut diags)?;
    }
    in_order(alloc, diags)
}

/// Adds the diagnostics of a row, if its unit is one of these.
fn add_row(
    alloc: Global,
    row: &Row,
    units: &[FileName],
    diags: &mut Items<Diag>,
) -> Result<(), AllocError>
    ensures { OnOk result (diags.new ≡ diags.old ++ row_diags units.now row.now) }
{
    if is_among(units, row.unit) {
        add_shown(alloc, &row.shown, diags)?;
    }
    Ok(())
}

/// Adds the diagnostics that are shown of a unit.
pub fn add_shown(alloc: Global, shown: &Shown, diags: &mut Items<Diag>) -> Result<(), AllocError>
    ensures { OnOk result (diags.new ≡ diags.old ++ shown_diags shown.now) }
{
    match shown {
        Shown::Pending => Ok(()),
        Shown::Done(found) => add_all(alloc, found.get().as_slice(), diags),
    }
}

/// Adds copies of diagnostics.
fn add_all(alloc: Global, found: &[Diag], diags: &mut Items<Diag>) -> Result<(), AllocError>
    ensures { OnOk result (diags.new ≡ diags.old ++ found.now) }
{
    for diag in found {
        diags.push(copied(alloc, diag)?)?;
    }
    Ok(())
}

/// The diagnostics that are in a file.
pub fn diags_in(alloc: Global, diags: &[Diag], file: FileName) -> Result<Items<Diag>, AllocError>
    ensures { IfOk result (λ found. found ≡ spec_diags_in file diags.now) }
{
    let mut found = Items::new(alloc);
    for diag in diags {
        if diag.file == file {
            found.push(copied(alloc, diag)?)?;
        }
    }
    Ok(found)
}

/// The same diagnostic.
fn copied(alloc: Global, diag: &Diag) -> Result<Diag, AllocError>
    ensures { IfOk result (λ copy. copy ≡ diag.now) }
{
    let name = match &diag.name {
        Some(name) => Some(name.copied(alloc)?),
        None => None,
    };
    Ok(Diag {
        file: diag.file,
        line: diag.line,
        code: diag.code,
        grade: diag.grade,
        name,
    })
}

/// Of how many of these units there is something to tell.
pub fn faulty(rows: &[Row], units: &[FileName]) -> usize {
    rows.iter()
        .filter(|row| is_among(units, row.unit) && has_diags(&row.shown))
        .count()
}

/// Whether diagnostics are shown.
fn has_diags(shown: &Shown) -> bool {
    match shown {
        Shown::Pending => false,
        Shown::Done(diags) => !diags.get().is_empty(),
    }
}

/// The page of the text that was looked at last.
#[derive(Drop)]
struct Open<'a> {
    file: FileName,
    page: Page<'a>,
}

/// What people are told of diagnostics in these texts.
pub fn messages(alloc: Global, diags: &[Diag], texts: &[Text]) -> Result<Vec<Message>, AllocError>
    ensures { IfOk result (λ messages. map head_of messages.items ≡ heads texts.now diags.now) }
{
    let mut messages = Vec::new(alloc);
    let mut open = None;
    for diag in diags {
        messages.push(message(alloc, diag, texts, &mut open)?)?;
    }
    Ok(messages)
}

/// What people are told of a diagnostic in these texts.
fn message<'a>(
    alloc: Global,
    diag: &Diag,
    texts: &'a [Text],
    open: &mut Option<Open<'a>>,
) -> Result<Message, AllocError>
    ensures { IfOk result (λ message. head_of message ≡ located (path_of texts.now diag.now.file) diag.now) }
{
    for text in texts {
        if text.name == diag.file {
            turn_to(alloc, text, open)?;
            return message_in(alloc, diag, text.path.as_str(), open);
        }
    }
    message_of(alloc, diag, "", &mut Page::new(alloc, &[])?)
}

/// Opens the page of a text, unless it is open.
fn turn_to<'a>(
    alloc: Global,
    text: &'a Text,
    open: &mut Option<Open<'a>>,
) -> Result<(), AllocError> {
    if open.as_ref().is_none_or(|open| open.file != text.name) {
        let page = Page::new(alloc, text.source.get().text())?;
        *open = Some(Open {
            file: text.name,
            page,
        });
    }
    Ok(())
}

/// What people are told of a diagnostic by the page that is open.
fn message_in(
    alloc: Global,
    diag: &Diag,
    path: &str,
    open: &mut Option<Open<'_>>,
) -> Result<Message, AllocError>
    ensures { IfOk result (λ message. head_of message ≡ located path.now diag.now) }
{
    match open {
        Some(open) => message_of(alloc, diag, path, &mut open.page),
        None => message_of(alloc, diag, path, &mut Page::new(alloc, &[])?),
    }
}
