//! Messages that are sent, in their frames.
ghost use Rattle.occ_editor_messages.specs.Sent.{IsAdded, answer_data, error_data, note_bytes, note_data, refused_data, request_data};
ghost use Rattle.serde_json.specs.Data.{null};
ghost use Rattle.serde_json.specs.View.{view};
ghost use Rattle.serde_json.specs.Written.{has_float};
ghost use Rattle.std.specs.Prelude.{◌≡◌, ◌++◌, [], IfOk, OnErr, OnOk, false, option_map, unwrap_or};

use occ_editor_edits::frame;
use serde_json::{Value, json};
use std::alloc::{AllocError, Global};

/// Bytes that are no JSON.
pub const NO_JSON: i32 = -32700;
/// A message that is none, or that may not come now.
pub const NO_REQUEST: i32 = -32600;
/// A method that is not known.
pub const NO_METHOD: i32 = -32601;
/// Members that a method has not.
pub const NO_MEMBERS: i32 = -32602;
/// A request before the first.
pub const NOT_BEGUN: i32 = -32002;

/// What is to be sent.
#[derive(Drop)]
pub struct Sending {
    alloc: Global,
    bytes: Vec<u8>,
}

impl Sending {
    /// Nothing.
    pub fn new(alloc: Global) -> Sending
        ensures { result.bytes.items ≡ [] }
    {
        Sending {
            alloc,
            bytes: Vec::new(alloc),
        }
    }

    /// All bytes that are to be sent.
    pub fn as_slice(&self) -> &[u8]
        ensures { result.now ≡ self.now.bytes.items }
    {
        self.bytes.as_slice()
    }

    /// They were sent.
    pub fn clear(&mut self)
        ensures { self.new.bytes.items ≡ [] }
    {
        self.bytes.clear();
    }

    /// Adds a message. Where memory is refused nothing is added.
    fn add(&mut self, message: &Value) -> Result<(), AllocError>
        ensures sent { OnOk result (IsAdded (view message.now) self.old.bytes.items self.new.bytes.items) }
        ensures err { OnErr result (self.new.bytes.items ≡ self.old.bytes.items) }
    {
        let text = message.to_string(self.alloc)?;
        let framed = frame(self.alloc, text.as_str())?;
        self.bytes.extend_from_slice(framed.as_bytes())?;
        Ok(())
    }

    /// Adds the answer to a request. Where memory is refused nothing is added.
    pub fn answer(&mut self, id: &Value, told: &Value) -> Result<(), AllocError>
        ensures sent { OnOk result (IsAdded (answer_data (view id.now) (view told.now)) self.old.bytes.items self.new.bytes.items) }
        ensures err { OnErr result (self.new.bytes.items ≡ self.old.bytes.items) }
    {
        let message = answer(self.alloc, id, told)?;
        self.add(&message)
    }

    /// Adds that a request is refused, or, without one, what came in its place. Where memory is refused nothing is added.
    pub fn refuse(&mut self, id: Option<&Value>, code: i32, words: &str) -> Result<(), AllocError>
        ensures sent { OnOk result (IsAdded (refused_data (unwrap_or (option_map (λ id. view id.now) id.entry) null) code words.now) self.old.bytes.items self.new.bytes.items) }
        ensures err { OnErr result (self.new.bytes.items ≡ self.old.bytes.items) }
    {
        let none = Value::Null;
        let message = refused(self.alloc, id.unwrap_or(&none), code, words)?;
        self.add(&message)
    }

    /// Adds a note.
    pub fn note(&mut self, method: &str, params: &Value) -> Result<(), AllocError>
        ensures { OnOk result (has_float (view params.now) ≡ false → self.new.bytes.items ≡ self.old.bytes.items ++ note_bytes method.now (view params.now)) }
    {
        let message = note(self.alloc, method, params)?;
        self.add(&message)?;
        Ok(())
    }

    /// Adds a request of the server's own, whose answer tells nothing. Where memory is refused nothing is added.
    pub fn request(&mut self, method: &str, params: &Value) -> Result<(), AllocError>
        ensures sent { OnOk result (IsAdded (request_data method.now (view params.now)) self.old.bytes.items self.new.bytes.items) }
        ensures err { OnErr result (self.new.bytes.items ≡ self.old.bytes.items) }
    {
        let message = request(self.alloc, method, params)?;
        self.add(&message)
    }
}

/// The answer to a request.
fn answer(alloc: Global, id: &Value, told: &Value) -> Result<Value, AllocError>
    ensures { IfOk result (λ message. view message ≡ answer_data (view id.now) (view told.now)) }
{
    json!(in alloc; {"jsonrpc": "2.0", "id": id, "result": told})
}

/// Why a request is refused.
fn error(alloc: Global, code: i32, words: &str) -> Result<Value, AllocError>
    ensures { IfOk result (λ error. view error ≡ error_data code words.now) }
{
    json!(in alloc; {"code": code, "message": words})
}

/// That a request is refused.
fn refused(alloc: Global, id: &Value, code: i32, words: &str) -> Result<Value, AllocError>
    ensures { IfOk result (λ message. view message ≡ refused_data (view id.now) code words.now) }
{
    let error = error(alloc, code, words)?;
    json!(in alloc; {"jsonrpc": "2.0", "id": id, "error": &error})
}

/// A request of a method.
fn request(alloc: Global, method: &str, params: &Value) -> Result<Value, AllocError>
    ensures { IfOk result (λ message. view message ≡ request_data method.now (view params.now)) }
{
    json!(in alloc; {"jsonrpc": "2.0", "id": "watch", "method": method, "params": params})
}

/// A note of a method.
fn note(alloc: Global, method: &str, params: &Value) -> Result<Value, AllocError>
    ensures { IfOk result (λ message. view message ≡ note_data method.now (view params.now)) }
{
    json!(in alloc; {"jsonrpc": "2.0", "method": method, "params": params})
}
