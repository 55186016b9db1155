//! Checks files and prints what is wrong with them.
ghost use Rattle.occ.specs.Failing.{IsStatus};
ghost use Rattle.std.specs.Prelude.{IfOk};

use super::disk::{Machine, read_text};
use super::failing::{does_fail, status};
use super::printing::print_all;
use occ_base::Grade;
use occ_files::{Disk, Gathered, Group, Refusal, gather, groups};
use occ_files_check::{CheckFault, CheckedTexts, check_texts};
use occ_files_words::Checking;
use occ_messages::Message;
use occ_messages_formats::Tally;
use std::alloc::{AllocError, Global};
use std::collections::BTreeSet;
use std::io::{self, BufReader};

/// What was found in all files.
#[derive(Drop)]
pub struct Findings {
    pub messages: Vec<Message>,
    /// The files of which messages were told before those of the present folder.
    paths: BTreeSet<String>,
    pub tally: Tally,
    /// Whether one of them makes the program fail.
    fails: bool,
    /// Whether a file was not checked.
    is_trouble: bool,
}

/// Checks what is asked for, prints what is wrong, and gives the exit status. Files and devices are in no contract: what is told
/// of texts is promised by `check_texts`, what is printed by `printed`, and when the program fails by `status`.
pub fn check(rt: &HostRuntime, asked: &Checking) -> io::Result<u8>
    ensures { IfOk result IsStatus }
{
    let alloc = rt.alloc();
    let paths = paths(alloc, asked)?;
    let machine = machine(rt, asked)?;
    let found = groups(alloc, &machine, paths.as_slice())?;
    let mut findings = Findings {
        messages: Vec::new(alloc),
        paths: BTreeSet::new(alloc),
        tally: Tally::default(),
        fails: false,
        is_trouble: refuse(rt, found.refusals.as_slice())?,
    };
    for folder in &asked.folders {
        findings.is_trouble |= lacks_folder(rt, &machine, folder.as_str())?;
    }
    for path in &paths {
        findings.is_trouble |= lacks_files(rt, &machine, path.as_str(), &found.groups)?;
    }
    for group in &found.groups {
        check_group(rt, &machine, asked, group, &mut findings)?;
    }
    print_all(rt, asked, &findings)?;
    Ok(status(findings.is_trouble, findings.fails))
}

/// The files of the machine, with standard input if it is asked for.
fn machine<'a>(rt: &'a HostRuntime, asked: &'a Checking) -> io::Result<Machine<'a>> {
    if !asked.files.iter().any(|file| file.as_str() == "-") {
        return Ok(Machine { rt, input: None });
    }
    let bytes = read_text(rt.alloc(), BufReader::new(rt.alloc(), rt.stdin())?)?;
    Ok(Machine {
        rt,
        input: Some((asked.stdin_path.as_str(), bytes)),
    })
}

/// The paths of the files that are asked for.
fn paths(alloc: Global, asked: &Checking) -> Result<Vec<String>, AllocError> {
    let mut paths = Vec::new(alloc);
    for file in &asked.files {
        let path = match file.as_str() {
            "-" => asked.stdin_path.as_str(),
            path => path,
        };
        paths.push(String::from_str(alloc, path)?)?;
    }
    Ok(paths)
}

/// Tells which files are not checked, and gives whether there are any.
fn refuse(rt: &HostRuntime, refusals: &[Refusal]) -> io::Result<bool> {
    for refusal in refusals {
        let path = refusal.path.as_str();
        let why = refusal.why.as_str();
        eprintln!(rt; "error: {path}: {why}")?;
    }
    Ok(!refusals.is_empty())
}

/// Tells that a folder in which files are looked for is none, if so it is; no text is the present folder.
fn lacks_folder(rt: &HostRuntime, machine: &Machine<'_>, folder: &str) -> io::Result<bool> {
    if folder.is_empty() || matches!(machine.list(rt.alloc(), folder), Ok(Some(_))) {
        return Ok(false);
    }
    eprintln!(rt; "error: {folder}: there is no such folder")?;
    Ok(true)
}

/// Tells that a path which is asked for is a folder without files, if so it is.
fn lacks_files(
    rt: &HostRuntime,
    machine: &Machine<'_>,
    path: &str,
    groups: &[Group],
) -> io::Result<bool> {
    let has_files = groups.iter().any(|group| {
        group
            .paths
            .iter()
            .any(|file| is_inside(file.as_str(), path))
    });
    if has_files || !matches!(machine.list(rt.alloc(), path), Ok(Some(_))) {
        return Ok(false);
    }
    eprintln!(rt; "error: {path}: no file in this folder or below it ends in .occ")?;
    Ok(true)
}

/// Whether a file is in a folder or below it.
fn is_inside(file: &str, folder: &str) -> bool {
    file.strip_prefix(folder)
        .is_some_and(|rest| rest.starts_with('/'))
}

/// Checks the files of a folder with all that they use and include.
fn check_group(
    rt: &HostRuntime,
    machine: &Machine<'_>,
    asked: &Checking,
    group: &Group,
    findings: &mut Findings,
) -> io::Result<()> {
    let alloc = rt.alloc();
    let folders = asked.folders.as_slice();
    let gathered = gather(alloc, machine, folders, group.paths.as_slice())?;
    if refuse(rt, gathered.refusals.as_slice())? {
        findings.is_trouble = true;
    }
    let Gathered { texts, units, .. } = &gathered;
    match check_texts(alloc, texts.as_slice(), units.as_slice()) {
        Ok(mut checked) => add(alloc, asked, &mut checked, units.len(), findings)?,
        Err(CheckFault::Memory) => return Err(AllocError)?,
        Err(CheckFault::Refused(_) | CheckFault::Pending) => {
            let folder = group.folder.as_str();
            eprintln!(rt; "error: {folder}: the files of this folder cannot be checked together")?;
            findings.is_trouble = true;
        }
    }
    Ok(())
}

/// Adds what is told of the files of a folder, but for what was told before.
fn add(
    alloc: Global,
    asked: &Checking,
    checked: &mut CheckedTexts,
    units: usize,
    findings: &mut Findings,
) -> Result<(), AllocError> {
    let before = findings.messages.len();
    findings.count_units(checked.faulty, units);
    let mut left = turned(alloc, &mut checked.messages)?;
    for _ in 0..left.len() {
        match left.pop() {
            Some(message) => findings.take(asked, before, message)?,
            None => break,
        }
    }
    findings.add_paths(alloc, before)
}

/// The messages, taken out, the last one first.
fn turned(alloc: Global, messages: &mut Vec<Message>) -> Result<Vec<Message>, AllocError> {
    let mut turned = Vec::new(alloc);
    for _ in 0..messages.len() {
        match messages.pop() {
            Some(message) => turned.push(message)?,
            None => break,
        }
    }
    Ok(turned)
}

/// Whether a message is one of the first so many, which are of other folders.
fn is_told(findings: &Findings, before: usize, message: &Message) -> bool {
    findings.paths.contains(message.path.as_str())
        && findings
            .messages
            .iter()
            .take(before)
            .any(|other| is_same(other, message))
}

/// Whether two messages are one.
fn is_same(a: &Message, b: &Message) -> bool {
    a.line == b.line && a.code == b.code && a.path == b.path && a.words == b.words
}

/// Whether a message is asked for.
fn is_wanted(asked: &Checking, message: &Message) -> bool {
    asked.checks || does_fail(asked.race_free, message.grade, message.code)
}

impl Findings {
    /// Takes a message, if it is asked for and is none of the first so many.
    fn take(
        &mut self,
        asked: &Checking,
        before: usize,
        message: Message,
    ) -> Result<(), AllocError> {
        if is_wanted(asked, &message) && !is_told(self, before, &message) {
            self.count(asked, &message);
            self.messages.push(message)?;
        }
        Ok(())
    }

    /// The file of the message of that number.
    fn path_at(&self, alloc: Global, at: usize) -> Result<String, AllocError> {
        match self.messages.get(at) {
            Some(message) => String::from_str(alloc, message.path.as_str()),
            None => Ok(String::new(alloc)),
        }
    }

    /// Adds the files of all messages but the first so many.
    fn add_paths(&mut self, alloc: Global, before: usize) -> Result<(), AllocError> {
        for at in before..self.messages.len() {
            let path = self.path_at(alloc, at)?;
            self.paths.insert(path)?;
        }
        Ok(())
    }

    /// Counts units, of some of which there is something to tell.
    fn count_units(&mut self, told: usize, units: usize) {
        self.tally.told = self.tally.told.saturating_add(told);
        self.tally.units = self.tally.units.saturating_add(units);
    }

    /// Counts a message.
    fn count(&mut self, asked: &Checking, message: &Message) {
        match message.grade {
            Grade::Error => self.tally.errors = self.tally.errors.saturating_add(1),
            Grade::Check => self.tally.checks = self.tally.checks.saturating_add(1),
        }
        if does_fail(asked.race_free, message.grade, message.code) {
            self.fails = true;
        }
    }
}
