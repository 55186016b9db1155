//! Messages as a JSON list.
ghost use Rattle.occ_messages_formats.specs.Written.{message_data, message_items, text_items};
ghost use Rattle.serde_json.specs.Data.{array};
ghost use Rattle.serde_json.specs.Read.{read};
ghost use Rattle.serde_json.specs.View.{view};
ghost use Rattle.std.specs.Prelude.{◌≡◌, IfOk, Some};
ghost use Rattle.std.specs.String.{string_bytes};

use occ_messages::Message;
use serde_json::{Value, json};
use std::alloc::{AllocError, Global};

/// Texts as a list.
fn texts_json(alloc: Global, texts: &[String]) -> Result<Value, AllocError>
    ensures { IfOk result (λ value. view value ≡ array (text_items texts.now)) }
{
    let mut list = Vec::new(alloc);
    for text in texts {
        list.push(Value::String(String::from_str(alloc, text.as_str())?))?;
    }
    Ok(Value::Array(list))
}

/// A message as an object.
fn message_json(alloc: Global, message: &Message) -> Result<Value, AllocError>
    ensures { IfOk result (λ value. view value ≡ message_data message.now) }
{
    let code = message.code.as_str();
    let file = message.path.as_str();
    let grade = message.grade.as_str();
    let line = message.line;
    let words = message.words.as_str();
    let hints = texts_json(alloc, message.hints.as_slice())?;
    json!(in alloc; {"code": code, "file": file, "grade": grade, "hints": &hints, "line": line, "message": words})
}

/// Messages as a list of objects.
fn messages_json(alloc: Global, messages: &[Message]) -> Result<Value, AllocError>
    ensures { IfOk result (λ value. view value ≡ array (message_items messages.now)) }
{
    let mut list = Vec::new(alloc);
    for message in messages {
        list.push(message_json(alloc, message)?)?;
    }
    Ok(Value::Array(list))
}

/// Messages as a JSON text: who reads it gets these messages back.
pub fn json_text(alloc: Global, messages: &[Message]) -> Result<String, AllocError>
    ensures { IfOk result (λ text. read (string_bytes text) ≡ Some (array (message_items messages.now))) }
{
    let value = messages_json(alloc, messages)?;
    value.to_string(alloc)
}
