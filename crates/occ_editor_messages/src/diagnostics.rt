//! What is told of a file, as the protocol has it.
ghost use Rattle.occ_editor_messages.specs.Sent.{IsTold, diagnostic_data, first_data, line_data, location_data, other_data, params_data, place_data, range_data, refusal_data, units_in, words_of};
ghost use Rattle.serde_json.specs.Data.{array};
ghost use Rattle.serde_json.specs.View.{items_of, view};
ghost use Rattle.std.specs.Prelude.{◌≡◌, ◌++◌, IfOk, map};
ghost use Rattle.std.specs.String.{string_bytes};

use occ_base::Grade;
use occ_editor::Published;
use occ_editor_edits::uri_of;
use occ_files::Why;
use occ_messages::{Message, Quoted};
use serde_json::{Value, json};
use std::alloc::{AllocError, Global};

/// The note that tells it.
pub fn published(alloc: Global, told: &Published) -> Result<Value, AllocError>
    ensures { IfOk result (λ value. IsTold told.now (view value)) }
{
    let uri = uri_of(alloc, told.path.as_str())?;
    let list = diagnostics(alloc, told, uri.as_str())?;
    note_of(alloc, uri.as_str(), &list)
}

/// The note of a file that has these diagnostics.
fn note_of(alloc: Global, uri: &str, list: &Value) -> Result<Value, AllocError>
    ensures { IfOk result (λ value. view value ≡ params_data uri.now (view list.now)) }
{
    json!(in alloc; {"uri": uri, "diagnostics": list})
}

/// The diagnostics of a file.
fn diagnostics(alloc: Global, told: &Published, uri: &str) -> Result<Value, AllocError>
    ensures { IfOk result (λ value. view value ≡ array (items_of (first_data told.now.refusal ++ map (diagnostic_data uri.now) told.now.messages.items))) }
{
    let mut list = first(alloc, told.refusal)?;
    for message in &told.messages {
        list.push(diagnostic(alloc, message, uri)?)?;
    }
    Ok(Value::Array(list))
}

/// Why a file is not checked, if there is a reason.
fn first(alloc: Global, refusal: Option<Why>) -> Result<Vec<Value>, AllocError>
    ensures { IfOk result (λ list. map view list.items ≡ first_data refusal) }
{
    let mut list = Vec::new(alloc);
    if let Some(why) = refusal {
        list.push(refused(alloc, why.as_str())?)?;
    }
    Ok(list)
}

/// Why a file is not checked, at its first line.
fn refused(alloc: Global, why: &str) -> Result<Value, AllocError>
    ensures { IfOk result (λ value. view value ≡ refusal_data why.now) }
{
    let range = line_range(alloc, 1, "")?;
    json!(in alloc; {"range": &range, "severity": 1, "source": "occ", "message": why})
}

/// A whole line, from 1.
fn line_range(alloc: Global, line: u32, source: &str) -> Result<Value, AllocError>
    ensures { IfOk result (λ value. view value ≡ line_data line source.now) }
{
    let line = line.saturating_sub(1);
    let start = place(alloc, line, 0)?;
    let end = place(alloc, line, units(source.as_bytes()))?;
    range(alloc, &start, &end)
}

/// A place.
fn place(alloc: Global, line: u32, character: u64) -> Result<Value, AllocError>
    ensures { IfOk result (λ value. view value ≡ place_data line character) }
{
    json!(in alloc; {"line": line, "character": character})
}

/// What stands between two places.
fn range(alloc: Global, start: &Value, end: &Value) -> Result<Value, AllocError>
    ensures { IfOk result (λ value. view value ≡ range_data (view start.now) (view end.now)) }
{
    json!(in alloc; {"start": start, "end": end})
}

/// How many UTF-16 units a text has.
fn units(source: &[u8]) -> u64
    ensures { result ≡ units_in source.now }
{
    let mut units = 0;
    for b in source {
        let byte = *b;
        if !(128 <= byte && byte < 192) {
            units += if 240 <= byte { 2 } else { 1 };
        }
    }
    units
}

/// A diagnostic.
fn diagnostic(alloc: Global, message: &Message, uri: &str) -> Result<Value, AllocError>
    ensures { IfOk result (λ value. view value ≡ diagnostic_data uri.now message.now) }
{
    let range = line_range(alloc, message.line, message.source.as_str())?;
    let severity = match message.grade {
        Grade::Error => 1,
        Grade::Check => 2,
    };
    let code = message.code.as_str();
    let words = words(alloc, message)?;
    let words = words.as_str();
    let others = others(alloc, message, uri)?;
    json!(in alloc; {
        "range": &range,
        "severity": severity,
        "code": code,
        "source": "occ",
        "message": words,
        "relatedInformation": &others
    })
}

/// What is wrong, and what may help.
fn words(alloc: Global, message: &Message) -> Result<String, AllocError>
    ensures { IfOk result (λ words. string_bytes words ≡ words_of message.now) }
{
    let mut words = String::from_str(alloc, message.words.as_str())?;
    for hint in &message.hints {
        words.push_str("\nhelp: ")?;
        words.push_str(hint.as_str())?;
    }
    Ok(words)
}

/// The other lines that matter.
fn others(alloc: Global, message: &Message, uri: &str) -> Result<Value, AllocError>
    ensures { IfOk result (λ value. view value ≡ array (items_of (map (other_data uri.now) message.now.others.items))) }
{
    let mut list = Vec::new(alloc);
    for other in &message.others {
        list.push(other_line(alloc, other, uri)?)?;
    }
    Ok(Value::Array(list))
}

/// Another line that matters.
fn other_line(alloc: Global, other: &Quoted, uri: &str) -> Result<Value, AllocError>
    ensures { IfOk result (λ value. view value ≡ other_data uri.now other.now) }
{
    let range = line_range(alloc, other.number, other.source.as_str())?;
    let location = location(alloc, uri, &range)?;
    let label = other.label;
    json!(in alloc; {"location": &location, "message": label})
}

/// A range of a file.
fn location(alloc: Global, uri: &str, range: &Value) -> Result<Value, AllocError>
    ensures { IfOk result (λ value. view value ≡ location_data uri.now (view range.now)) }
{
    json!(in alloc; {"uri": uri, "range": range})
}
