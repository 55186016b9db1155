//! Texts are brought on a board in place of others. A file whose text has the bytes that it had before is not edited.
ghost use Rattle.occ_editor.specs.Placing.{source_on};
ghost use Rattle.occ_editor.specs.Rooms.{HasTexts, source_in};
ghost use Rattle.occ_editor.specs.inside.Bringing.{AreShared, HasKept, has_same, shared_by};
ghost use Rattle.occ_files.specs.Gathering.{AreGiven, AreNamed, are_apart};
ghost use Rattle.occ_files.specs.Paths.{Known};
ghost use Rattle.occ_files.specs.Refusals.{Held, IsRight};
ghost use Rattle.occ_files.specs.declared.refusal.Why.{Why as AWhy};
ghost use Rattle.occ_files.specs.declared.gathering.Text.{Text as AText};
ghost use Rattle.std.specs.List.{slice_get};
ghost use Rattle.occ_project.specs.Reads.{name_cmp};
ghost use Rattle.std.specs.BTreeMap.{get};
ghost use Rattle.std.specs.Str.{bytes_eq};
ghost use Rattle.std.specs.String.{string_bytes};
ghost use Rattle.std.specs.Prelude.{◌≡◌, IfOk, List, None, OnOk, Some, cond, is_ok, is_some, map, slice_set, true, ℕ};

use super::placing::{put, remove};
use occ_base::{FileName, Shared};
use occ_board::{Board, EditFault};
use occ_files::Text;
use occ_files_check::CheckFault;
use occ_forms::Source;
use std::alloc::{AllocError, Global};
use std::collections::BTreeMap;

/// The texts of a board, by their names.
type Sources = BTreeMap<FileName, Shared<Source>>;

/// Brings texts on a board that has those old ones, and gives them back. Where one has the bytes that it had before, it is what
/// it was.
pub fn brought(
    alloc: Global,
    board: &mut Board,
    olds: &[Text],
    texts: Vec<Text>,
) -> Result<Vec<Text>, CheckFault>
    requires apart { are_apart texts.items ≡ true }
    ensures has { IfOk result (λ made. are_apart olds.now ≡ true → HasTexts board.old olds.now → HasTexts board.new made.items) }
    ensures apart { IfOk result (λ made. are_apart made.items ≡ true) }
    ensures paths { IfOk result (λ made. map (λ text. string_bytes text.path) made.items ≡ map (λ text. string_bytes text.path) texts.items) }
    ensures given { IfOk result (λ made. (known : Known) → AreGiven known texts.items → AreGiven known made.items) }
    ensures named { IfOk result (λ made. AreNamed texts.items → AreNamed made.items) }
    ensures right { IfOk result (λ made. (held : Held) (path : List ℕ) (why : AWhy) → IsRight held texts.items path why → IsRight held made.items path why) }
{
    let before = by_name(alloc, olds)?;
    let news = by_name(alloc, texts.as_slice())?;
    take_away(alloc, board, olds, &news)?;
    let texts = share_all(texts, &before)?;
    put_all(alloc, board, texts.as_slice(), &before)?;
    Ok(texts)
}

/// These texts by their names.
fn by_name(alloc: Global, texts: &[Text]) -> Result<Sources, AllocError>
    ensures { IfOk result (λ sources. are_apart texts.now ≡ true → (name : List ℕ) → get name_cmp sources name ≡ source_in texts.now name) }
{
    let mut sources = BTreeMap::new(alloc);
    for text in texts {
        sources.insert(text.name, text.source.share()?)?;
    }
    Ok(sources)
}

/// Takes those texts from a board that are no more.
fn take_away(
    alloc: Global,
    board: &mut Board,
    olds: &[Text],
    news: &Sources,
) -> Result<(), CheckFault>
    ensures { OnOk result (HasTexts board.old olds.now → (name : List ℕ) → source_on board.new name ≡ cond (is_some (get name_cmp news.now name)) (source_in olds.now name) None) }
{
    for old in olds {
        if !news.contains_key(&old.name) {
            take_one(alloc, board, old.name)?;
        }
    }
    Ok(())
}

/// Whether a text had these bytes before.
fn is_same(before: &Sources, text: &Text) -> bool
    ensures { result ≡ has_same (get name_cmp before.now text.now.name) text.now.source }
{
    match before.get(&text.name) {
        Some(old) => old.get().text() == text.source.get().text(),
        None => false,
    }
}

/// A text is what it was before, if it has the same bytes.
fn share(text: &mut Text, before: &Sources) -> Result<(), AllocError>
    ensures { OnOk result (text.new ≡ shared_by (get name_cmp before.now) text.old) }
{
    if let Some(old) = before.get(&text.name)
        && old.get().text() == text.source.get().text()
    {
        text.source = old.share()?;
    }
    Ok(())
}

/// The text at a place is what it was before, if it has the same bytes.
fn share_at(texts: &mut Vec<Text>, place: usize, before: &Sources) -> Result<(), AllocError>
    ensures { OnOk result ((text : AText) → slice_get texts.old.items place ≡ Some text → texts.new.items ≡ slice_set texts.old.items place (shared_by (get name_cmp before.now) text)) }
{
    if let Some(text) = texts.get_mut(place) {
        share(text, before)?;
    }
    Ok(())
}

/// Each of these texts is what it was before, if it has the same bytes.
fn share_all(mut texts: Vec<Text>, before: &Sources) -> Result<Vec<Text>, AllocError>
    ensures { IfOk result (λ made. made.items ≡ map (shared_by (get name_cmp before.now)) texts.items) }
{
    for place in 0..texts.len() {
        share_at(&mut texts, place, before)?;
    }
    Ok(texts)
}

/// Puts all texts on a board that are new to it.
fn put_all(
    alloc: Global,
    board: &mut Board,
    texts: &[Text],
    before: &Sources,
) -> Result<(), CheckFault>
    requires apart { are_apart texts.now ≡ true }
    requires shared { AreShared (get name_cmp before.now) texts.now }
    ensures { OnOk result (HasKept board.old (get name_cmp before.now) texts.now → HasTexts board.new texts.now) }
{
    for text in texts {
        if !is_same(before, text) {
            put_one(alloc, board, text.name, text.source.share()?)?;
        }
    }
    Ok(())
}

/// Takes a file from a board. All others stay.
fn take_one(alloc: Global, board: &mut Board, name: FileName) -> Result<(), CheckFault>
    ensures { OnOk result ((other : List ℕ) → source_on board.new other ≡ cond (bytes_eq name other) None (source_on board.old other)) }
{
    placed(remove(alloc, board, name))
}

/// Gives a file of a board this text. All others stay.
pub fn put_one(
    alloc: Global,
    board: &mut Board,
    name: FileName,
    source: Shared<Source>,
) -> Result<(), CheckFault>
    ensures { OnOk result ((other : List ℕ) → source_on board.new other ≡ cond (bytes_eq name other) (Some source) (source_on board.old other)) }
{
    placed(put(alloc, board, name, source))
}

/// What came of an edit.
fn placed(done: Result<(), EditFault>) -> Result<(), CheckFault>
    ensures { is_ok result ≡ is_ok done }
{
    match done {
        Ok(()) => Ok(()),
        Err(EditFault::Memory) => Err(CheckFault::Memory),
        Err(fault) => Err(CheckFault::Refused(fault)),
    }
}
