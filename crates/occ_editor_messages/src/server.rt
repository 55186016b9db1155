//! The server: messages are taken one by one, and what is told of files is published when it is asked for.
ghost use Rattle.occ_editor.specs.Standing.{AreServed, IsStanding, IsUpToDate};
ghost use Rattle.occ_editor_edits.specs.Calls.{note_in};
ghost use Rattle.occ_editor_edits.specs.Documents.{text_in};
ghost use Rattle.occ_editor_messages.specs.Sent.{Extends, Tells};
ghost use Rattle.occ_editor_messages.specs.inside.Sending.{AreSent};
ghost use Rattle.occ_editor_messages.specs.Talks.{HasHeard, IsJson, IsNoJson, Talk, asks, heard, next_of, silence, status_of, texts_after};
ghost use Rattle.occ_editor_messages.specs.inside.Phases.{phase_by};
ghost use Rattle.occ_editor_messages.specs.declared.server.Flow.TheVariants.{Ends, Goes};
ghost use Rattle.occ_editor_messages.specs.declared.server.Phase.TheVariants.{Begun};
ghost use Rattle.serde_json.specs.Data.{Data};
ghost use Rattle.serde_json.specs.View.{view};
ghost use Rattle.std.specs.Prelude.{◌≡◌, ◌⊎◌, [], IfOk, List, OnOk, is_some, ℕ};

use super::diagnostics::published;
use super::sending::{NO_JSON, NO_MEMBERS, NO_METHOD, NO_REQUEST, NOT_BEGUN, Sending};
use occ_editor::{Editor, Published};
use occ_editor_edits::{ClientCall, call_of};
use occ_files::Disk;
use occ_files_check::CheckFault;
use occ_messages::explained;
use serde_json::{Value, json};
use std::alloc::{AllocError, Global};

/// Whether the server goes on.
#[derive(Clone, Copy, Debug, PartialEq, Eq)]
pub enum Flow {
    Goes,
    /// It ends with this status.
    Ends(u8),
}

/// What the client has asked for.
#[derive(Clone, Copy, PartialEq, Eq)]
pub enum Phase {
    /// Nothing yet.
    New,
    /// To serve it.
    Begun,
    /// To answer no more.
    Shut,
}

/// A server of one client.
#[derive(Drop)]
pub struct LanguageServer<D: Disk> {
    alloc: Global,
    disk: D,
    editor: Editor,
    phase: Phase,
    /// Whether the client watches files if it is asked to.
    watches: bool,
    /// Whether what came last was no message.
    is_lost: bool,
    sending: Sending,
}

impl<D: Disk + Drop> LanguageServer<D> {
    /// A server that nothing was asked for. Used and included files are looked for in these folders, too.
    pub fn new(alloc: Global, disk: D, folders: Vec<String>) -> LanguageServer<D>
        ensures boards { IsStanding result.editor }
        ensures heard { HasHeard result silence }
    {
        LanguageServer {
            alloc,
            disk,
            editor: Editor::new(alloc, folders),
            phase: Phase::New,
            watches: false,
            is_lost: false,
            sending: Sending::new(alloc),
        }
    }

    /// What is to be sent.
    pub fn sent(&self) -> &[u8]
        ensures { result.now ≡ self.now.sending.bytes.items }
    {
        self.sending.as_slice()
    }

    /// It was sent.
    pub fn clear(&mut self)
        ensures sent { self.new.sending.bytes.items ≡ [] }
        ensures editor { self.new.editor ≡ self.old.editor }
        ensures phase { self.new.phase ≡ self.old.phase }
    {
        self.sending.clear();
    }

    /// What came is no message: so much is answered, once until a message comes. What is to be sent already stays in front.
    pub fn lose(&mut self) -> Result<(), AllocError>
        ensures editor { self.new.editor ≡ self.old.editor }
        ensures phase { self.new.phase ≡ self.old.phase }
        ensures sent { OnOk result (Extends self.old.sending.bytes.items self.new.sending.bytes.items) }
    {
        if self.is_lost {
            return Ok(());
        }
        self.is_lost = true;
        self.sending.refuse(
            None,
            NO_JSON,
            "no head of a message: `Content-Length: N` and an empty line",
        )
    }

    /// Takes a message. Whatever it is, the boards stand after it, and the open files have the texts that it gives them. What is to
    /// be sent already stays in front. If the message ends the server, that has the status of what was asked for before.
    pub fn take(&mut self, message: &[u8]) -> Result<Flow, CheckFault>
        ensures boards { OnOk result (IsStanding self.old.editor → IsStanding self.new.editor) }
        ensures heard { OnOk result ((talk : Talk) (value : Data) → IsJson message.now value → HasHeard self.old talk → HasHeard self.new (heard talk value)) }
        ensures next { IfOk result (λ next. (talk : Talk) (value : Data) → IsJson message.now value → HasHeard self.old talk → next ≡ next_of talk value) }
        ensures goes { IfOk result (λ next. IsNoJson message.now → next ≡ Goes) }
        ensures ends { IfOk result (λ next. (next ≡ Goes) ⊎ (next ≡ Ends (status_of self.old.phase))) }
        ensures unheard { OnOk result ((talk : Talk) → IsNoJson message.now → HasHeard self.old talk → HasHeard self.new talk) }
        ensures sent { OnOk result (Extends self.old.sending.bytes.items self.new.sending.bytes.items) }
    {
        self.is_lost = false;
        match Value::from_slice(self.alloc, message) {
            Ok(value) => self.take_value(&value),
            Err(error) if error.is_memory() => Err(CheckFault::Memory),
            Err(_) => {
                self.sending
                    .refuse(None, NO_JSON, "the message is no JSON")?;
                Ok(Flow::Goes)
            }
        }
    }

    /// Takes a message that is JSON.
    fn take_value(&mut self, message: &Value) -> Result<Flow, CheckFault>
        ensures boards { OnOk result (IsStanding self.old.editor → IsStanding self.new.editor) }
        ensures heard { OnOk result ((talk : Talk) → HasHeard self.old talk → HasHeard self.new (heard talk (view message.now))) }
        ensures next { IfOk result (λ next. (talk : Talk) → HasHeard self.old talk → next ≡ next_of talk (view message.now)) }
        ensures ends { IfOk result (λ next. (next ≡ Goes) ⊎ (next ≡ Ends (status_of self.old.phase))) }
        ensures sent { OnOk result (Extends self.old.sending.bytes.items self.new.sending.bytes.items) }
    {
        let call = call_of(self.alloc, message)?;
        if matches!(&call, ClientCall::Exit) {
            return Ok(Flow::Ends(status(self.phase)));
        }
        match id_of(message) {
            Some(id) => self.answer(id, call)?,
            None => self.note(call)?,
        }
        Ok(Flow::Goes)
    }

    /// Answers a request.
    fn answer(&mut self, id: &Value, call: ClientCall) -> Result<(), CheckFault>
        ensures boards { OnOk result (IsStanding self.old.editor → IsStanding self.new.editor) }
        ensures documents { OnOk result (self.new.editor.documents ≡ self.old.editor.documents) }
        ensures phase { OnOk result (self.new.phase ≡ phase_by self.old.phase call) }
        ensures sent { OnOk result (Extends self.old.sending.bytes.items self.new.sending.bytes.items) }
    {
        match (call, self.phase) {
            (ClientCall::Hover(path, line), Phase::Begun) => {
                self.publish()?;
                let told = self.explained(path.as_str(), line)?;
                Ok(self.sending.answer(id, &told)?)
            }
            (call, _) => Ok(self.answer_plain(id, call)?),
        }
    }

    /// Answers a request for which nothing is checked.
    fn answer_plain(&mut self, id: &Value, call: ClientCall) -> Result<(), AllocError>
        ensures editor { self.new.editor ≡ self.old.editor }
        ensures phase { OnOk result (self.new.phase ≡ phase_by self.old.phase call) }
        ensures sent { OnOk result (Extends self.old.sending.bytes.items self.new.sending.bytes.items) }
    {
        match (call, self.phase) {
            (ClientCall::Nothing, _) => Ok(()),
            (ClientCall::Initialize(watches), Phase::New) => {
                self.watches = watches;
                self.phase = Phase::Begun;
                let abilities = abilities(self.alloc)?;
                self.sending.answer(id, &abilities)
            }
            (_, Phase::New) => self
                .sending
                .refuse(Some(id), NOT_BEGUN, "`initialize` comes first"),
            (_, Phase::Shut) => {
                self.sending.refuse(
                    Some(id),
                    NO_REQUEST,
                    "nothing but `exit` comes after `shutdown`",
                )
            }
            (ClientCall::Initialize(_), Phase::Begun) => {
                self.sending
                    .refuse(Some(id), NO_REQUEST, "`initialize` comes once")
            }
            (call, Phase::Begun) => self.answer_begun(id, call),
        }
    }

    /// Answers a request that may come now.
    fn answer_begun(&mut self, id: &Value, call: ClientCall) -> Result<(), AllocError>
        ensures editor { self.new.editor ≡ self.old.editor }
        ensures phase { OnOk result (self.old.phase ≡ Begun → self.new.phase ≡ phase_by self.old.phase call) }
        ensures sent { OnOk result (Extends self.old.sending.bytes.items self.new.sending.bytes.items) }
    {
        match call {
            ClientCall::Shutdown => {
                self.phase = Phase::Shut;
                self.sending.answer(id, &Value::Null)
            }
            ClientCall::Garbled => {
                self.sending
                    .refuse(Some(id), NO_MEMBERS, "the method has not these members")
            }
            _ => self
                .sending
                .refuse(Some(id), NO_METHOD, "there is no such request"),
        }
    }

    /// The entries of the codes that are told of a line of a file, from 0.
    fn explained(&self, path: &str, line: u32) -> Result<Value, AllocError> {
        let codes = self
            .editor
            .codes_at(self.alloc, path, line.saturating_add(1))?;
        if codes.is_empty() {
            return Ok(Value::Null);
        }
        let mut text = String::new(self.alloc);
        for code in &codes {
            if !text.is_empty() {
                text.push('\n')?;
            }
            text.push_str(explained(self.alloc, *code)?.as_str())?;
        }
        let text = text.as_str();
        let contents = json!(in self.alloc; {"kind": "plaintext", "value": text})?;
        json!(in self.alloc; {"contents": &contents})
    }

    /// Takes a note, which is not answered.
    fn note(&mut self, call: ClientCall) -> Result<(), CheckFault>
        ensures boards { OnOk result (IsStanding self.old.editor → IsStanding self.new.editor) }
        ensures phase { OnOk result (self.new.phase ≡ self.old.phase) }
        ensures texts { OnOk result ((path : List ℕ) → text_in self.new.editor.documents.all.items path ≡ texts_after self.old.phase (note_in call) (text_in self.old.editor.documents.all.items) path) }
        ensures sent { OnOk result (Extends self.old.sending.bytes.items self.new.sending.bytes.items) }
    {
        match (call, self.phase) {
            (ClientCall::Initialized, Phase::Begun) if self.watches => Ok(self.watch()?),
            (ClientCall::Noted(note), Phase::Begun) => self.editor.take(self.alloc, note),
            (ClientCall::Read, Phase::Begun) => {
                self.editor.look_again();
                Ok(())
            }
            (ClientCall::Garbled, _) => {
                Ok(
                    self.sending
                        .refuse(None, NO_REQUEST, "the message is none of the protocol")?,
                )
            }
            _ => Ok(()),
        }
    }

    /// Asks the client to watch files.
    fn watch(&mut self) -> Result<(), AllocError>
        ensures editor { self.new.editor ≡ self.old.editor }
        ensures phase { self.new.phase ≡ self.old.phase }
        ensures sent { OnOk result (Extends self.old.sending.bytes.items self.new.sending.bytes.items) }
    {
        let watcher = json!(in self.alloc; {"globPattern": "**/*.{occ,inc,lbb}"})?;
        let options = json!(in self.alloc; {"watchers": [&watcher]})?;
        let registration = json!(in self.alloc; {
            "id": "watch",
            "method": "workspace/didChangeWatchedFiles",
            "registerOptions": &options
        })?;
        let params = json!(in self.alloc; {"registrations": [&registration]})?;
        self.sending.request("client/registerCapability", &params)
    }

    /// Publishes what is told of each file of which perhaps something else is told than before. All boards are up to date then.
    pub fn publish(&mut self) -> Result<(), CheckFault>
        ensures boards { OnOk result (IsStanding self.old.editor → IsUpToDate self.new.editor) }
        ensures stands { OnOk result (IsStanding self.old.editor → IsStanding self.new.editor) }
        ensures served { OnOk result (IsStanding self.old.editor → AreServed self.new.editor) }
        ensures told { OnOk result (IsStanding self.old.editor → Tells self.old self.new) }
        ensures documents { OnOk result (self.new.editor.documents ≡ self.old.editor.documents) }
        ensures phase { self.new.phase ≡ self.old.phase }
        ensures sent { OnOk result (Extends self.old.sending.bytes.items self.new.sending.bytes.items) }
    {
        let all = self.editor.publish(self.alloc, &self.disk)?;
        self.send_all(all.as_slice())?;
        Ok(())
    }

    /// Sends what is told of files.
    fn send_all(&mut self, all: &[Published]) -> Result<(), AllocError>
        ensures editor { self.new.editor ≡ self.old.editor }
        ensures phase { self.new.phase ≡ self.old.phase }
        ensures sent { OnOk result (AreSent all.now self.old.sending.bytes.items self.new.sending.bytes.items) }
    {
        for told in all {
            let params = published(self.alloc, told)?;
            self.sending
                .note("textDocument/publishDiagnostics", &params)?;
        }
        Ok(())
    }
}

/// The status with which a server ends.
fn status(phase: Phase) -> u8
    ensures { result ≡ status_of phase }
{
    match phase {
        Phase::Shut => 0,
        Phase::New | Phase::Begun => 1,
    }
}

/// The id of a request: a number or a string.
fn id_of(message: &Value) -> Option<&Value>
    ensures { is_some result ≡ asks (view message.now) }
{
    match message.get("id") {
        Some(id) if matches!(id, Value::Number(_) | Value::String(_)) => Some(id),
        _ => None,
    }
}

/// What the server can do.
fn abilities(alloc: Global) -> Result<Value, AllocError> {
    let sync = json!(in alloc; {"openClose": true, "change": 2, "save": true})?;
    let can = json!(in alloc; {
        "positionEncoding": "utf-16",
        "textDocumentSync": &sync,
        "hoverProvider": true
    })?;
    let name = json!(in alloc; {"name": "occ", "version": "0.1.0"})?;
    json!(in alloc; {"capabilities": &can, "serverInfo": &name})
}
