//! The program for people: it checks files on disk, explains codes, and serves editors.
#![tactic(auto)]

mod check;
mod disk;
mod failing;
mod lsp;
mod printing;

use check::check;
use failing::{CLEAN, ERRORS, TROUBLE};
use lsp::lsp;
use occ_base::Code;
use occ_files_words::{Subcommand, SubcommandFault, read_words};
use occ_messages::{CODES, code_named, explained};
use std::alloc::AllocError;
use std::env;
use std::io::{self, ErrorKind};
use std::process::ExitCode;

fn main(rt: HostRuntime) -> ExitCode {
    let done = match asked(&rt) {
        Ok(Subcommand::Check(asked)) => check(&rt, &asked),
        Ok(Subcommand::Serve(folders)) => lsp(&rt, folders.as_slice()),
        Ok(Subcommand::Explain(code)) => explain(&rt, code.as_str()),
        Err(SubcommandFault::Told(text)) => print!(rt; "{text}").map(|_| CLEAN),
        Err(SubcommandFault::Refused(text)) => eprint!(rt; "{text}").map(|_| TROUBLE),
        Err(SubcommandFault::Memory) => Ok(TROUBLE),
    };
    ExitCode::from(match done {
        Ok(status) => status,
        Err(error) if error.kind() == ErrorKind::BrokenPipe => ERRORS,
        Err(_) => TROUBLE,
    })
}

/// The program's name, and the words after it.
fn words(rt: &HostRuntime) -> io::Result<Vec<String>> {
    let mut words = Vec::new(rt.alloc());
    words.push(String::from_str(rt.alloc(), "occ")?)?;
    for word in env::args(rt)?.skip(1) {
        words.push(word)?;
    }
    Ok(words)
}

/// What the words ask for.
fn asked(rt: &HostRuntime) -> Result<Subcommand, SubcommandFault> {
    let Ok(words) = words(rt) else {
        return Err(unread(rt)?);
    };
    let mut texts = Vec::new(rt.alloc());
    for word in words.as_slice() {
        texts.push(word.as_str())?;
    }
    read_words(rt.alloc(), texts.as_slice())
}

/// Words that cannot be read.
fn unread(rt: &HostRuntime) -> Result<SubcommandFault, AllocError> {
    let text = String::from_str(rt.alloc(), "error: a word is no text in UTF-8\n")?;
    Ok(SubcommandFault::Refused(text))
}

/// Prints the entry of a code, which may be written in small letters.
fn explain(rt: &HostRuntime, text: &str) -> io::Result<u8> {
    match code_named(text.to_ascii_uppercase(rt.alloc())?.as_str()) {
        Some(code) => tell(rt, code),
        None => {
            let codes = all_codes(rt)?;
            eprint!(rt;
                "error: there is no code '{text}'; the codes are{codes}\n\nUsage: occ explain <CODE>\n"
            )?;
            Ok(TROUBLE)
        }
    }
}

/// All codes, with a blank before each.
fn all_codes(rt: &HostRuntime) -> Result<String, AllocError> {
    let mut text = String::new(rt.alloc());
    for code in CODES {
        text.push(' ')?;
        text.push_str(code.as_str())?;
    }
    Ok(text)
}

/// Prints the entry of a code.
fn tell(rt: &HostRuntime, code: Code) -> io::Result<u8> {
    let text = explained(rt.alloc(), code)?;
    print!(rt; "{text}")?;
    Ok(CLEAN)
}
