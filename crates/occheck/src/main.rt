//! The program: it runs the script, or the sessions, that its words name and writes the answers to standard output.
#![tactic(auto)]

mod input;

ghost use Rattle.occheck_words.specs.Modes.{IsAllowed, IsFew};
ghost use Rattle.std.specs.List.{list_any};
ghost use Rattle.std.specs.Prelude.{◌≡◌, IfOk, false, length};

use input::Input;
use occ_base::FileName;
use occheck_sessions::{Gate, Status, StdIn, StdOut, run_script, run_sessions};
use occheck_words::{Mode, WordsFault, read_words};
use std::alloc::AllocError;
use std::env::{self, Env};
use std::fs;
use std::io::{self, ErrorKind, Read};
use std::process::ExitCode;
use std::sync::Wait;

/// The exit status where the words ask for nothing that there is.
const REFUSED: u8 = 64;

fn main(rt: HostRuntime) -> ExitCode {
    match asked(&rt) {
        Ok(Mode::Steps(script)) => steps(&rt, script.as_str()),
        Ok(Mode::Workers(workers, scripts)) => {
            let status = match opened(&rt, scripts.as_slice()) {
                Ok(mut readers) => run_sessions(
                    &rt,
                    rt.alloc(),
                    readers.as_mut_slice(),
                    u32::from(workers),
                    &Free,
                    &mut StdOut::new(rt.stdout()),
                ),
                Err(status) => status,
            };
            ExitCode::from(status.code())
        }
        Err(WordsFault::Refused(text)) => refuse(&rt, text.as_str()),
        Err(WordsFault::Memory) => ExitCode::from(Status::NoMemory.code()),
    }
}

/// Lets all jobs pass.
struct Free;

impl Gate for Free {
    fn pass<R: Wait>(&self, _rt: &R, _unit: &FileName) {}
}

/// The scripts, all of them opened. A file that cannot be opened is a device that failed.
fn opened(rt: &HostRuntime, scripts: &[String]) -> Result<Vec<StdIn<Input>>, Status>
    ensures count { IfOk result (λ readers. length readers.items ≡ length scripts.now) }
    ensures fresh { IfOk result (λ readers. list_any (λ reader. reader.failed) readers.items ≡ false) }
{
    if scripts.iter().any(|script| script.as_str() == "-") && !has_input(rt) {
        return Err(Status::DeviceFault);
    }
    let mut readers = Vec::new(rt.alloc());
    for script in scripts {
        let Ok(input) = open(rt, script.as_str()) else {
            return Err(Status::DeviceFault);
        };
        if readers.push(StdIn::new(input)).is_err() {
            return Err(Status::NoMemory);
        }
    }
    Ok(readers)
}

/// Whether standard input is open. Where it is closed, the first file that is opened would be taken for it.
fn has_input(rt: &HostRuntime) -> bool {
    rt.stdin().read(&mut []).is_ok()
}

/// A script, `-` from standard input.
fn open(rt: &HostRuntime, script: &str) -> io::Result<Input> {
    if script == "-" {
        Ok(Input::Standard(rt.stdin()))
    } else {
        Ok(Input::File(fs::open(rt, script)?))
    }
}

/// Reports why the words are not taken.
fn refuse(rt: &HostRuntime, text: &str) -> ExitCode {
    let _ = eprint!(rt; "{text}");
    ExitCode::from(REFUSED)
}

/// What the words after the program's name ask for.
fn asked(rt: &HostRuntime) -> Result<Mode, WordsFault>
    ensures { IfOk result (λ mode. IsAllowed mode) }
{
    let words = match words(rt) {
        Ok(words) => words,
        Err(error) => return Err(unread(rt, error.kind())?),
    };
    let mut texts = Vec::new(rt.alloc());
    for word in words.as_slice() {
        texts.push(word.as_str())?;
    }
    read_words(rt.alloc(), texts.as_slice())
}

/// Words that cannot be read.
fn unread(rt: &HostRuntime, kind: ErrorKind) -> Result<WordsFault, AllocError> {
    if kind == ErrorKind::OutOfMemory {
        return Ok(WordsFault::Memory);
    }
    let text = String::from_str(rt.alloc(), "error: a word is no text in UTF-8\n")?;
    Ok(WordsFault::Refused(text))
}

/// The words after the program's name.
fn words(rt: &HostRuntime) -> io::Result<Vec<String>> {
    let mut words = Vec::new(rt.alloc());
    for word in env::args(rt)?.skip(1) {
        words.push(word)?;
    }
    Ok(words)
}

/// Runs a script, `-` from standard input. A file that cannot be opened is a device that failed.
fn steps(rt: &HostRuntime, script: &str) -> ExitCode {
    let mut output = StdOut::new(rt.stdout());
    let status = if script == "-" {
        run_script(rt.alloc(), &mut StdIn::new(rt.stdin()), &mut output)
    } else {
        match fs::open(rt, script) {
            Ok(file) => run_script(rt.alloc(), &mut StdIn::new(file), &mut output),
            Err(_) => Status::DeviceFault,
        }
    };
    ExitCode::from(status.code())
}
