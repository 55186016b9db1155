//! What a message of a client asks for.
ghost use Rattle.occ_editor_edits.specs.Messages.{change_told, changed_by, changes_told, closed_by, is_method, method_of, number_at, opened_by, path_said, place_at as spec_place_at, range_told, said, said_by, saying, told};
ghost use Rattle.occ_editor_edits.specs.Calls.{IsPlain, begins, ends, leaves, note_in};
ghost use Rattle.serde_json.specs.Find.{pointer};
ghost use Rattle.serde_json.specs.View.{items_view, view};
ghost use Rattle.std.specs.Prelude.{◌≡◌, IfOk, IfSome, None, codes, map, option_and_then, option_map};
ghost use Rattle.std.specs.String.{string_bytes};

use super::changes::Change;
use super::documents::Note;
use super::paths::path_of;
use super::ranges::Place;
use serde_json::Value;
use std::alloc::{AllocError, Global};

/// What a message asks for.
#[derive(Drop)]
pub enum ClientCall {
    /// To begin. The client may watch files for the server, or not.
    Initialize(bool),
    /// To take note that it began.
    Initialized,
    /// To answer no more.
    Shutdown,
    /// To end.
    Exit,
    /// To take a note of an open file.
    Noted(Note),
    /// To read files anew that are not open.
    Read,
    /// To tell of a line of the file at a path, from 0.
    Hover(String, u32),
    /// Something that is unknown.
    Unknown,
    /// Something that is known, with members that it has not.
    Garbled,
    /// Nothing.
    Nothing,
}

/// What a message asks for.
pub fn call_of(alloc: Global, message: &Value) -> Result<ClientCall, AllocError>
    ensures note { IfOk result (λ call. note_in call ≡ saying (view message.now)) }
    ensures begins { IfOk result (λ call. begins call ≡ is_method (codes "initialize") (method_of (view message.now))) }
    ensures ends { IfOk result (λ call. ends call ≡ is_method (codes "shutdown") (method_of (view message.now))) }
    ensures leaves { IfOk result (λ call. leaves call ≡ is_method (codes "exit") (method_of (view message.now))) }
{
    let Some(method) = message.get("method").and_then(Value::as_str) else {
        return Ok(if message.get("id").is_some() && message.get("method").is_none() {
            ClientCall::Nothing
        } else {
            ClientCall::Garbled
        });
    };
    match method {
        "initialize" => Ok(ClientCall::Initialize(does_watch(message))),
        "initialized" => Ok(ClientCall::Initialized),
        "shutdown" => Ok(ClientCall::Shutdown),
        "exit" => Ok(ClientCall::Exit),
        "textDocument/didSave" | "workspace/didChangeWatchedFiles" => Ok(ClientCall::Read),
        "textDocument/hover" => Ok(known(hover_of(alloc, message)?)),
        _ if method.starts_with("$/") => Ok(if message.get("id").is_some() {
            ClientCall::Unknown
        } else {
            ClientCall::Nothing
        }),
        _ => note_of(alloc, method, message),
    }
}

/// Whether the client says that it watches files for a server which asks it to.
fn does_watch(message: &Value) -> bool {
    message
        .pointer("/params/capabilities/workspace/didChangeWatchedFiles/dynamicRegistration")
        .and_then(Value::as_bool)
        .unwrap_or(false)
}

/// What is known, or the word for what has not its members.
fn known(call: Option<ClientCall>) -> ClientCall
    ensures note { note_in result ≡ option_and_then note_in call }
    ensures plain { IfSome call IsPlain → IsPlain result }
{
    match call {
        Some(call) => call,
        None => ClientCall::Garbled,
    }
}

/// What a message of an open file asks for.
fn note_of(alloc: Global, method: &str, message: &Value) -> Result<ClientCall, AllocError>
    ensures { IfOk result (λ call. IsPlain call × (note_in call ≡ said_by method.now (view message.now))) }
{
    match method {
        "textDocument/didOpen" => Ok(noted(opened(alloc, message)?)),
        "textDocument/didChange" => Ok(noted(changed(alloc, message)?)),
        "textDocument/didClose" => Ok(noted(path_in(alloc, message)?.map(Note::Closed))),
        _ => Ok(ClientCall::Unknown),
    }
}

/// To take a note, if its members were read.
fn noted(note: Option<Note>) -> ClientCall
    ensures note { note_in result ≡ option_map said note }
    ensures plain { IsPlain result }
{
    known(note.map(ClientCall::Noted))
}

/// The path of the file that a message is of.
fn path_in(alloc: Global, message: &Value) -> Result<Option<String>, AllocError>
    ensures { IfOk result (λ path. option_map string_bytes path ≡ path_said (view message.now)) }
{
    match message
        .pointer("/params/textDocument/uri")
        .and_then(Value::as_str)
    {
        Some(uri) => Ok(Some(path_of(alloc, uri)?)),
        None => Ok(None),
    }
}

/// A file is opened.
fn opened(alloc: Global, message: &Value) -> Result<Option<Note>, AllocError>
    ensures { IfOk result (λ note. option_map said note ≡ opened_by (view message.now)) }
{
    let Some(path) = path_in(alloc, message)? else {
        return Ok(None);
    };
    match message
        .pointer("/params/textDocument/text")
        .and_then(Value::as_str)
    {
        Some(text) => Ok(Some(Note::Opened(path, Vec::from_slice(alloc, text.as_bytes())?))),
        None => Ok(None),
    }
}

/// A file is changed.
fn changed(alloc: Global, message: &Value) -> Result<Option<Note>, AllocError>
    ensures { IfOk result (λ note. option_map said note ≡ changed_by (view message.now)) }
{
    let Some(path) = path_in(alloc, message)? else {
        return Ok(None);
    };
    let Some(items) = message
        .pointer("/params/contentChanges")
        .and_then(Value::as_array)
    else {
        return Ok(None);
    };
    Ok(changes_of(alloc, items.as_slice())?.map(|changes| Note::Changed(path, changes)))
}

/// The changes that these tell, if each tells one.
fn changes_of(alloc: Global, items: &[Value]) -> Result<Option<Vec<Change>>, AllocError>
    ensures { IfOk result (λ changes. option_map (λ changes. map told changes.items) changes ≡ changes_told (items_view items.now)) }
{
    let mut changes = Vec::new(alloc);
    for item in items {
        match change_of(alloc, item)? {
            Some(change) => changes.push(change)?,
            None => return Ok(None),
        }
    }
    Ok(Some(changes))
}

/// A change: of a range, or of the whole text.
fn change_of(alloc: Global, item: &Value) -> Result<Option<Change>, AllocError>
    ensures { IfOk result (λ change. option_map told change ≡ change_told (view item.now)) }
{
    let Some(text) = item.get("text").and_then(Value::as_str) else {
        return Ok(None);
    };
    let text = Vec::from_slice(alloc, text.as_bytes())?;
    if item.get("range").is_none_or(Value::is_null) {
        return Ok(Some(Change::Whole(text)));
    }
    Ok(range_of(item, text))
}

/// The change of the range that stands there to this text.
fn range_of(item: &Value, text: Vec<u8>) -> Option<Change>
    ensures { option_map told result ≡ range_told (view item.now) text.items }
{
    let from = place(item, "/range/start/line", "/range/start/character")?;
    let to = place(item, "/range/end/line", "/range/end/character")?;
    Some(Change::Range(from, to, text))
}

/// The place whose line and column stand there.
fn place(item: &Value, line: &str, unit: &str) -> Option<Place>
    ensures { result ≡ spec_place_at line.now unit.now (view item.now) }
{
    Some(Place {
        line: number(item, line)?,
        unit: number(item, unit)?,
    })
}

/// The number that stands there; the greatest of 32 bits in place of a greater one.
fn number(item: &Value, path: &str) -> Option<u32>
    ensures { result ≡ number_at path.now (view item.now) }
{
    let number = item.pointer(path)?.as_u64()?;
    Some(u32::try_from(number).unwrap_or(u32::MAX))
}

/// A question about a line.
fn hover_of(alloc: Global, message: &Value) -> Result<Option<ClientCall>, AllocError>
    ensures { IfOk result (λ call. (option_and_then note_in call ≡ None) × IfSome call IsPlain) }
{
    let Some(path) = path_in(alloc, message)? else {
        return Ok(None);
    };
    Ok(number(message, "/params/position/line").map(|line| ClientCall::Hover(path, line)))
}
