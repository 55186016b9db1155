//! A session: it asks the server for what its commands ask for, and stores what it hears.
use super::heard::Heard;
use super::script::SessionScript;
use super::talk::{Broken, Said, Talk};
use occ_board::EditFault;
use occ_server::{Edit, ReportFault, Server, Settled};
use occheck_commands::{Command, Next, next_command};
use occheck_script::{RequestedEdit, named, read_edit};
use std::alloc::Global;
use std::sync::Wait;

/// A session of a server. What it asks and hears promises nothing by itself: receipts and snapshots carry what is known of them by
/// their types, and all of it is compared with the script and with the end of the server before any output is made.
#[derive(Drop)]
pub struct Session<'a, R: Wait> {
    rt: &'a R,
    alloc: Global,
    server: &'a Server,
    number: u32,
}

impl<'a, R: Wait> Session<'a, R> {
    /// A session with a number of its own, which its edits have in the journal.
    pub fn new(rt: &'a R, alloc: Global, server: &'a Server, number: u32) -> Session<'a, R> {
        Session {
            rt,
            alloc,
            server,
            number,
        }
    }

    /// Asks the server for what the commands of a script ask for, one after the other.
    pub fn run(&self, script: &SessionScript) -> Result<Talk, Broken> {
        let mut talk = Talk {
            heard: Heard::new(self.alloc),
            receipts: Vec::new(self.alloc),
        };
        let mut rest = script.begin();
        let most = rest.bytes.len();
        for _ in 0..most + 1 {
            match next_command(rest) {
                Next::End => return Ok(talk),
                Next::Fault(_) => return Err(Broken::Disagree),
                Next::Command(_line, command, left) => {
                    self.ask(command, &mut talk)?;
                    rest = left;
                }
            }
        }
        unreachable!()
    }

    /// Asks for what a command asks for, and stores what it hears.
    fn ask(&self, command: Command<'_>, talk: &mut Talk) -> Result<(), Broken> {
        match command {
            Command::Open(name, text) => match read_edit(self.alloc, None, name, text)? {
                RequestedEdit::File(file, source) => self.edit(Edit::Added(file, source), talk),
                RequestedEdit::Refused(_word) => talk.heard.hear(Said::Wrong),
            },
            Command::Change(name, text) => match read_edit(self.alloc, None, name, text)? {
                RequestedEdit::File(file, source) => self.edit(Edit::Changed(file, source), talk),
                RequestedEdit::Refused(_word) => talk.heard.hear(Said::Wrong),
            },
            Command::Remove(name) => match named(name) {
                Ok(file) => self.edit(Edit::Removed(file), talk),
                Err(_word) => talk.heard.hear(Said::Wrong),
            },
            Command::Settle => self.settle(talk),
            Command::Report => self.report(talk),
            Command::Take(_) | Command::Finish(_) | Command::Drop(_) | Command::Checkpoint => {
                Err(Broken::Disagree)
            }
        }
    }

    fn edit(&self, edit: Edit, talk: &mut Talk) -> Result<(), Broken> {
        match self.server.edit(self.rt, self.alloc, self.number, edit) {
            Ok(receipt) => {
                talk.receipts.push(receipt)?;
                talk.heard.hear(Said::Edited)
            }
            Err(EditFault::Memory) => Err(Broken::Memory),
            Err(fault) => talk.heard.hear(Said::Refused(fault)),
        }
    }

    fn settle(&self, talk: &mut Talk) -> Result<(), Broken> {
        match self.server.settle(self.rt) {
            Settled::Clear => talk.heard.hear(Said::Settled),
            Settled::Stopped => Err(Broken::Memory),
        }
    }

    /// Asks for a report that has seen the session's last edit.
    fn report(&self, talk: &mut Talk) -> Result<(), Broken> {
        let seen = talk.receipts.as_slice().last();
        match self.server.report(self.rt, self.alloc, seen) {
            Ok(snapshot) => talk.heard.hear_report(self.alloc, snapshot),
            Err(ReportFault::Cut(_) | ReportFault::Behind(_)) => Err(Broken::Disagree),
            Err(ReportFault::Memory) => Err(Broken::Memory),
        }
    }
}
