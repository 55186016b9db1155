//! Messages in the format SARIF 2.1.0, which code hosts and editors read.
use occ_base::{Code, Grade};
use occ_messages::{CODES, Message, entry_of};
use serde_json::{Value, json};
use std::alloc::{AllocError, Global};

/// Messages as a log of one run.
pub fn sarif_text(alloc: Global, messages: &[Message]) -> Result<String, AllocError> {
    let mut results = Vec::new(alloc);
    for message in messages {
        results.push(result_json(alloc, message)?)?;
    }
    log(alloc, Value::Array(results))
}

/// The log of a run with these results.
fn log(alloc: Global, results: Value) -> Result<String, AllocError> {
    let rules = rules(alloc)?;
    let driver = json!(in alloc; {"name": "occ", "rules": &rules})?;
    let tool = json!(in alloc; {"driver": &driver})?;
    let run = json!(in alloc; {"tool": &tool, "results": &results})?;
    let log = json!(in alloc; {
        "$schema": "https://json.schemastore.org/sarif-2.1.0.json",
        "version": "2.1.0",
        "runs": [&run]
    })?;
    log.to_string(alloc)
}

/// All codes as rules.
fn rules(alloc: Global) -> Result<Value, AllocError> {
    let mut rules = Vec::new(alloc);
    for code in CODES {
        rules.push(rule_json(alloc, code)?)?;
    }
    Ok(Value::Array(rules))
}

/// A code as a rule.
fn rule_json(alloc: Global, code: Code) -> Result<Value, AllocError> {
    let entry = entry_of(code);
    let (id, title, why) = (code.as_str(), entry.title, entry.why);
    let short = json!(in alloc; {"text": title})?;
    let full = json!(in alloc; {"text": why})?;
    json!(in alloc; {"id": id, "shortDescription": &short, "fullDescription": &full})
}

/// A message as a result.
fn result_json(alloc: Global, message: &Message) -> Result<Value, AllocError> {
    let code = message.code.as_str();
    let words = message.words.as_str();
    let level = match message.grade {
        Grade::Error => "error",
        Grade::Check => "warning",
    };
    let place = place(alloc, message)?;
    let text = json!(in alloc; {"text": words})?;
    json!(in alloc; {"ruleId": code, "level": level, "message": &text, "locations": [&place]})
}

/// Where a message is.
fn place(alloc: Global, message: &Message) -> Result<Value, AllocError> {
    let uri = escaped(alloc, message.path.as_str())?;
    let uri = uri.as_str();
    let line = message.line;
    let artifact = json!(in alloc; {"uri": uri})?;
    let region = json!(in alloc; {"startLine": line})?;
    json!(in alloc; {"physicalLocation": {"artifactLocation": &artifact, "region": &region}})
}

/// A path as a URI: each byte that may not stand there is written by its two hexadecimal digits.
fn escaped(alloc: Global, path: &str) -> Result<String, AllocError> {
    let mut uri = String::new(alloc);
    for b in path.as_bytes() {
        if b.is_ascii_alphanumeric() || matches!(b, b'/' | b'.' | b'_' | b'-' | b'~') {
            uri.push(char::from(*b))?;
        } else {
            uri.push_str(format!(in alloc; "%{b:02X}")?.as_str())?;
        }
    }
    Ok(uri)
}
