//! The file and the text of an `open`, `change` or `remove`, or the word that refuses it, the first that holds.
ghost use Rattle.occ_base.specs.FileName.{name_fault};
ghost use Rattle.occ_board.specs.declared.entry.EditFault.TheVariants as fault;
ghost use Rattle.occ_forms.specs.Prepared.{IsPrepared};
ghost use Rattle.occ_forms.specs.declared.source.SourceLine.{SourceLine as ASourceLine};
ghost use Rattle.occ_lines.specs.Lines.{limit_fault, line_count};
ghost use Rattle.occheck_script.specs.Machine.{AreLines, Reading, board_word as spec_board_word, edited_text, name_word as spec_name_word, text_read, text_word as spec_text_word, with_line_end, wrong_word};
ghost use Rattle.occheck_script.specs.inside.Seen.{IsFile, refused_by, refused_edit, unnamed_by};
ghost use Rattle.std.specs.Option.{option_copied, option_map};
ghost use Rattle.std.specs.Prelude.{◌≡◌, ◌<◌, ◌≤◌, ◌↔◌, ◌++◌, Err, IfOk, IsErr, IsErrOf, List, None, codes, length};

use super::answer::{line, line_naming};
use occ_base::{FileName, NameFault, Shared};
use occ_board::{Board, EditFault};
use occ_forms::{Source, prepare};
use occ_lines::{TextFault, text_fault};
use std::alloc::{AllocError, Global};

/// What a command gives to edit: a file and its text, or the word that refuses them.
#[derive(Drop)]
pub enum RequestedEdit {
    File(FileName, Shared<Source>),
    Refused(&'static str),
}

/// The word of a fault of a name.
fn name_word(fault: NameFault) -> &'static str
    ensures { result.now ≡ spec_name_word fault }
{
    match fault {
        NameFault::Length => "Length",
        NameFault::Byte => "Byte",
        NameFault::Suffix => "Suffix",
    }
}

/// The word of a fault of a text.
fn text_word(fault: TextFault) -> &'static str
    ensures { result.now ≡ spec_text_word fault }
{
    match fault {
        TextFault::TooLarge => "TooLarge",
        TextFault::TooManyLines => "TooManyLines",
        TextFault::Memory => "Memory",
    }
}

/// The word of a refusal of the board.
pub fn board_word(fault: EditFault) -> &'static str
    ensures { result.now ≡ spec_board_word fault }
{
    match fault {
        EditFault::AlreadyOpen => "AlreadyOpen",
        EditFault::NotOpen => "NotOpen",
        EditFault::TooManyFiles => "TooManyFiles",
        EditFault::JournalFull => "JournalFull",
        EditFault::Memory => "Memory",
    }
}

/// The file of a name, or the word that refuses it.
pub fn named(name: &[u8]) -> Result<FileName, &'static str>
    ensures refused { unnamed_by result ≡ option_map spec_name_word (name_fault name.now) }
    ensures named { IfOk result (λ file. file ≡ name.now) }
{
    match FileName::read(name) {
        Ok(file) => Ok(file),
        Err(fault) => Err(name_word(fault)),
    }
}

/// The word that refuses the name of an edit, if one does.
pub fn wrong_name(name: &[u8]) -> Option<&'static str>
    ensures { option_copied result ≡ wrong_word name.now None }
{
    match named(name) {
        Ok(_file) => None,
        Err(word) => Some(word),
    }
}

/// The word that refuses the name or the text of an edit, if one does: a wrong name comes before a wrong text.
pub fn wrong_edit(name: &[u8], text: &[u8]) -> Option<&'static str>
    ensures { option_copied result ≡ wrong_word name.now (limit_fault text.now) }
{
    if let Err(word) = named(name) {
        return Some(word);
    }
    text_fault(text).map(text_word)
}

/// The text with its lines. A board that has the file may know them.
fn prepared(
    alloc: Global,
    board: Option<&Board>,
    file: FileName,
    text: &[u8],
) -> Result<Source, TextFault>
    ensures text { IfOk result (λ source. source.text ≡ text.now) }
    ensures lines { IfOk result (λ source. IsPrepared text.now source.lines) }
    ensures only { IfOk result (λ source. (lines : List ASourceLine) → IsPrepared text.now lines → lines ≡ source.lines) }
    ensures large { IsErrOf result TextFault.TooLarge ↔ (262144 < length text.now) }
    ensures many { IsErrOf result TextFault.TooManyLines ↔ ((length text.now ≤ 262144) × (16384 < line_count text.now)) }
{
    match board {
        Some(board) => board.prepare(alloc, file, text),
        None => prepare(alloc, text),
    }
}

/// The file and the text, if neither is refused; a wrong name comes before a wrong text. Refusals take no memory. A board that has
/// the file may know its lines.
pub fn read_edit(
    alloc: Global,
    board: Option<&Board>,
    name: &[u8],
    text: &[u8],
) -> Result<RequestedEdit, AllocError>
    ensures refused { IfOk result (λ it. refused_by it ≡ wrong_word name.now (limit_fault text.now)) }
    ensures file { (read : Reading) → AreLines text.now (read text.now) → IfOk result (λ it. IsFile it name.now (text_read read text.now)) }
{
    let file = match named(name) {
        Ok(file) => file,
        Err(word) => return Ok(RequestedEdit::Refused(word)),
    };
    match prepared(alloc, board, file, text) {
        Ok(source) => Ok(RequestedEdit::File(file, Shared::new(alloc, source)?)),
        Err(TextFault::Memory) => Err(AllocError),
        Err(fault) => Ok(RequestedEdit::Refused(text_word(fault))),
    }
}

/// The answer to an edit that is refused with this word.
pub fn refused(alloc: Global, word: &str) -> Result<Vec<u8>, AllocError>
    ensures { IfOk result (λ bytes. bytes.items ≡ with_line_end (codes "refused " ++ word.now)) }
{
    line_naming(alloc, "refused ", word.as_bytes())
}

/// The answer to an edit that the board was asked for.
pub fn edited(alloc: Global, number: Result<u32, EditFault>) -> Result<Vec<u8>, AllocError>
    ensures text { IfOk result (λ bytes. bytes.items ≡ edited_text (refused_edit number)) }
    ensures memory { number ≡ Err fault.Memory → IsErr result }
{
    match number {
        Ok(_number) => line(alloc, "ok"),
        Err(EditFault::Memory) => Err(AllocError),
        Err(fault) => refused(alloc, board_word(fault)),
    }
}
