//! The words of the command line of `occ`: a check of files, the entry of a code, or a server for an editor.
ghost use Rattle.occ_files_words.specs.Words.{IsAllowed};
ghost use Rattle.std.specs.Prelude.{◌≡◌, ◌<◌, IfOk, length};

use clap::error::ErrorKind;
use clap::{Arg, ArgAction, ArgMatches, Command, Error};
use occ_messages::Format;
use std::alloc::{AllocError, AllocFailed, Global};

/// How files are checked, and how that is told.
#[derive(Drop)]
pub struct Checking {
    /// The files, and folders of files; `-` is standard input.
    pub files: Vec<String>,
    /// Where used and included files are looked for, after the folder of the file that names them.
    pub folders: Vec<String>,
    /// How diagnostics are written.
    pub format: Format,
    /// Whether diagnostics of the grade `check` are told.
    pub checks: bool,
    /// Whether each diagnostic of U or A makes the program fail, also one of the grade `check`.
    pub race_free: bool,
    /// Whether only diagnostics are told, without notes and counts.
    pub quiet: bool,
    /// The path that standard input has.
    pub stdin_path: String,
}

/// What the program is asked to do.
#[derive(Drop)]
pub enum Subcommand {
    /// To check files.
    Check(Checking),
    /// To explain a code.
    Explain(String),
    /// To serve an editor, with the folders in which used and included files are looked for, too.
    Serve(Vec<String>),
}

/// Why the words ask for nothing.
#[derive(Drop)]
pub enum SubcommandFault {
    /// They ask for help or the version: the text goes to standard output.
    Told(String),
    /// They are no line that the program takes: the text goes to standard error.
    Refused(String),
    /// Memory was refused.
    Memory,
}

impl From<AllocError> for SubcommandFault {
    fn from(_error: AllocError) -> SubcommandFault {
        SubcommandFault::Memory
    }
}

impl<T: Drop> From<AllocFailed<T>> for SubcommandFault {
    fn from(_error: AllocFailed<T>) -> SubcommandFault {
        SubcommandFault::Memory
    }
}

const FORMATS: [&str; 5] = ["text", "short", "json", "sarif", "github"];

/// What a line asks for, which begins with the program's name.
pub fn read_words(alloc: Global, line: &[&str]) -> Result<Subcommand, SubcommandFault>
    ensures { IfOk result (λ asked. IsAllowed asked) }
{
    match matched(alloc, line) {
        Ok(matches) => asked_of(alloc, &matches),
        Err(error) => Err(told(alloc, &error)?),
    }
}

/// The folders in which files are looked for.
fn with_folders<'a>(alloc: Global, command: Command<'a>) -> Result<Command<'a>, AllocError> {
    let folders = Arg::new(alloc, "FOLDER")
        .short('I')
        .action(ArgAction::Append)
        .help("a folder in which used and included files are looked for, too");
    command.arg(folders)
}

/// The words of a check that have a value.
fn with_values<'a>(alloc: Global, command: Command<'a>) -> Result<Command<'a>, AllocError> {
    let format = Arg::new(alloc, "FORMAT")
        .long("format")
        .action(ArgAction::Set)
        .value_parser(FORMATS.as_slice())
        .default_value("text")
        .help("how diagnostics are written");
    let name = Arg::new(alloc, "NAME")
        .long("stdin-filename")
        .action(ArgAction::Set)
        .help(
            "the path that standard input has, for a FILE that is -; stdin.occ if it is left out",
        );
    let files = Arg::new(alloc, "FILE")
        .required(true)
        .action(ArgAction::Append)
        .num_args(1..)
        .help("a file, a folder of .occ files, or - for standard input");
    with_folders(alloc, command)?
        .arg(format)?
        .arg(name)?
        .arg(files)
}

/// The words of a check that are there or not.
fn with_flags<'a>(alloc: Global, command: Command<'a>) -> Result<Command<'a>, AllocError> {
    let no_checks = Arg::new(alloc, "no-checks")
        .long("no-checks")
        .action(ArgAction::SetTrue)
        .help("leave out what is only perhaps wrong (the grade `check`)");
    let race_free = Arg::new(alloc, "race-free")
        .long("race-free")
        .action(ArgAction::SetTrue)
        .help("fail on each diagnostic of U or A, also on one of the grade `check`");
    let quiet = Arg::new(alloc, "quiet")
        .long("quiet")
        .short('q')
        .action(ArgAction::SetTrue)
        .help("print diagnostics alone, without notes and the count");
    command.arg(no_checks)?.arg(race_free)?.arg(quiet)
}

/// The words of a server.
fn with_streams<'a>(alloc: Global, command: Command<'a>) -> Result<Command<'a>, AllocError> {
    let stdio = Arg::new(alloc, "stdio")
        .long("stdio")
        .action(ArgAction::SetTrue)
        .help("serve over standard input and output, as it does without this word");
    with_folders(alloc, command)?.arg(stdio)
}

/// What stands in a line, which begins with the program's name.
fn matched<'a>(alloc: Global, line: &'a [&'a str]) -> Result<ArgMatches<'a>, Error> {
    let check = with_values(
        alloc,
        Command::new(alloc, "check").about(
            "Checks files with all that they use and include; ends with 0, with 1 after an error, with 2 if something cannot be read",
        ),
    )?;
    let code = Arg::new(alloc, "CODE")
        .required(true)
        .action(ArgAction::Set)
        .help("a code, as U1");
    let explain = Command::new(alloc, "explain").about("Explains a code");
    let serve = Command::new(alloc, "lsp").about(
        "Serves an editor over standard input and output, by the language server protocol",
    );
    Command::new(alloc, "occ")
        .about("Checks occam 2.1")
        .version("0.1.0")
        .subcommand_required(true)
        .subcommand(with_flags(alloc, check)?)?
        .subcommand(explain.arg(code)?)?
        .subcommand(with_streams(alloc, serve)?)?
        .try_get_matches_from(line)
}

/// What clap tells in place of matches.
fn told(alloc: Global, error: &Error) -> Result<SubcommandFault, AllocError> {
    if error.kind() == ErrorKind::OutOfMemory {
        return Ok(SubcommandFault::Memory);
    }
    let text = format!(in alloc; "{error}")?;
    Ok(if error.use_stderr() {
        SubcommandFault::Refused(text)
    } else {
        SubcommandFault::Told(text)
    })
}

/// What the arguments ask for.
fn asked_of(alloc: Global, matches: &ArgMatches<'_>) -> Result<Subcommand, SubcommandFault>
    ensures { IfOk result (λ asked. IsAllowed asked) }
{
    match matches.subcommand() {
        Some(("explain", words)) => {
            let code = words.get_str("CODE").unwrap_or("");
            Ok(Subcommand::Explain(String::from_str(alloc, code)?))
        }
        Some(("lsp", words)) => {
            let folders = texts(alloc, words.get_strs("FOLDER").unwrap_or(&[]))?;
            Ok(Subcommand::Serve(folders))
        }
        Some((_, words)) => check_of(alloc, words),
        None => Err(no_file(alloc)?),
    }
}

/// A check of no file.
fn no_file(alloc: Global) -> Result<SubcommandFault, AllocError> {
    Ok(SubcommandFault::Refused(String::from_str(
        alloc,
        "error: no FILE\n\nUsage: occ check [OPTIONS] <FILE>...\n",
    )?))
}

/// A path for standard input, which no file is.
fn no_input(alloc: Global) -> Result<SubcommandFault, AllocError> {
    Ok(SubcommandFault::Refused(String::from_str(
        alloc,
        "error: --stdin-filename is the path of a FILE that is -, and there is none\n\nUsage: occ check [OPTIONS] <FILE>...\n",
    )?))
}

/// What the words after `check` ask for.
fn check_of(alloc: Global, words: &ArgMatches<'_>) -> Result<Subcommand, SubcommandFault>
    ensures { IfOk result (λ asked. IsAllowed asked) }
{
    let files = texts(alloc, words.get_strs("FILE").unwrap_or(&[]))?;
    if files.is_empty() {
        return Err(no_file(alloc)?);
    }
    let folders = texts(alloc, words.get_strs("FOLDER").unwrap_or(&[]))?;
    let name = words.get_str("NAME");
    if name.is_some() && !files.iter().any(|file| file.as_str() == "-") {
        return Err(no_input(alloc)?);
    }
    let stdin_path = String::from_str(alloc, name.unwrap_or("stdin.occ"))?;
    Ok(Subcommand::Check(Checking {
        files,
        folders,
        format: format_of(words.get_str("FORMAT")),
        checks: !words.get_flag("no-checks"),
        race_free: words.get_flag("race-free"),
        quiet: words.get_flag("quiet"),
        stdin_path,
    }))
}

/// The format of that name.
fn format_of(word: Option<&str>) -> Format {
    match word {
        Some("short") => Format::Short,
        Some("json") => Format::Json,
        Some("sarif") => Format::Sarif,
        Some("github") => Format::Github,
        _ => Format::Text,
    }
}

/// The words, copied.
fn texts(alloc: Global, words: &[&str]) -> Result<Vec<String>, AllocError> {
    let mut texts = Vec::new(alloc);
    for word in words {
        texts.push(String::from_str(alloc, word)?)?;
    }
    Ok(texts)
}
