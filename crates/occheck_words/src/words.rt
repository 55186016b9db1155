//! The words of the command line, read by `clap`: one script step by step, or sessions with workers. `docs/MACHINE.md,
//! Command line`.
ghost use Rattle.clap.specs.Words.{app_of, fault_of, found_of, kind_of, matches_of, rows_of, rule_of};
ghost use Rattle.clap.specs.declared.error.kind.ErrorKind.TheVariants as kinds;
ghost use Rattle.occheck_words.specs.Line.{IsRefusal, asked, asked_in, asked_of, either_of, has_steps, is_few as spec_few, line as spec_line, scripts_in, scripts_rule, sessions_of, steps_of, steps_rule, view, workers_in, workers_rule};
ghost use Rattle.occheck_words.specs.Modes.{IsAllowed, inputs};
ghost use Rattle.occheck_words.specs.declared.words.WordsFault.TheVariants as words_fault;
ghost use Rattle.std.specs.Prelude.{◌≡◌, ◌↔◌, ◌∷◌, ◌⊎◌, ◌≤◌, [], IfErr, IfOk, List, Some, codes, false, map};
ghost use Rattle.std.specs.String.{string_bytes};

use clap::error::ErrorKind;
use clap::{Arg, ArgAction, ArgMatches, Command, Error};
use std::alloc::{AllocError, AllocFailed, Global};

/// What the program is asked to do. A script is the name of a file, or `-` for standard input.
#[derive(Drop)]
pub enum Mode {
    /// The commands of one script, step by step.
    Steps(String),
    /// So many workers beside the sessions of these scripts: 1 to 16 of each, and standard input at most once.
    Workers(u8, Vec<String>),
}

/// Why the words ask for nothing.
#[derive(Drop)]
pub enum WordsFault {
    /// They are no line that the program takes; the text says why.
    Refused(String),
    /// Memory was refused.
    Memory,
}

impl From<AllocError> for WordsFault {
    ghost from_gives = { λ _ e. e ≡ words_fault.Memory };

    fn from(_error: AllocError) -> WordsFault {
        WordsFault::Memory
    }
}

impl<T: Drop> From<AllocFailed<T>> for WordsFault {
    ghost from_gives = { λ _ e. e ≡ words_fault.Memory };

    fn from(_error: AllocFailed<T>) -> WordsFault {
        WordsFault::Memory
    }
}

/// What the words after the program's name ask for. No words are `--steps -`.
pub fn read_words(alloc: Global, words: &[&str]) -> Result<Mode, WordsFault>
    ensures allowed { IfOk result (λ mode. IsAllowed mode) }
    ensures asked { IfOk result (λ mode. asked (map (λ word. word.now) words.now) ≡ Some (view mode)) }
    ensures refused { IfErr result (λ fault. IsRefusal (asked (map (λ word. word.now) words.now)) fault) }
{
    if words.is_empty() {
        return Ok(Mode::Steps(String::from_str(alloc, "-")?));
    }
    let line = with_name(alloc, words)?;
    mode_in(alloc, line.as_slice())
}

/// What a line asks for, which begins with the program's name.
fn mode_in(alloc: Global, line: &[&str]) -> Result<Mode, WordsFault>
    ensures allowed { IfOk result (λ mode. IsAllowed mode) }
    ensures asked { IfOk result (λ mode. asked_in (map (λ word. word.now) line.now) ≡ Some (view mode)) }
    ensures refused { IfErr result (λ fault. IsRefusal (asked_in (map (λ word. word.now) line.now)) fault) }
{
    match matched(alloc, line) {
        Ok(matches) => mode_of(alloc, &matches),
        Err(error) => Err(refused(alloc, &error)?),
    }
}

/// The words after the program's name.
fn with_name<'a>(alloc: Global, words: &[&'a str]) -> Result<Vec<&'a str>, AllocError>
    ensures { IfOk result (λ line. map (λ word. word.now) line.items ≡ codes "occheck" ∷ map (λ word. word.now) words.now) }
{
    let mut line = Vec::new(alloc);
    line.push("occheck")?;
    for word in words {
        line.push(*word)?;
    }
    Ok(line)
}

/// The flag `--steps`.
fn steps_flag<'a>(alloc: Global) -> Arg<'a>
    ensures rule { rule_of result ≡ steps_rule }
    ensures local { result.global ≡ false }
{
    Arg::new(alloc, "steps")
        .long("steps")
        .action(ArgAction::SetTrue)
        .help("answer the commands of one SCRIPT, step by step")
}

/// The option `--workers N`.
fn workers_option<'a>(alloc: Global) -> Arg<'a>
    ensures rule { rule_of result ≡ workers_rule }
    ensures local { result.global ≡ false }
{
    Arg::new(alloc, "workers")
        .long("workers")
        .value_name("N")
        .action(ArgAction::Set)
        .value_parser(clap::value_parser!(u8))
        .help("run SCRIPTs as sessions, with N workers beside them")
}

/// Any number of SCRIPT.
fn scripts_argument<'a>(alloc: Global) -> Arg<'a>
    ensures rule { rule_of result ≡ scripts_rule }
    ensures local { result.global ≡ false }
{
    Arg::new(alloc, "SCRIPT")
        .action(ArgAction::Append)
        .num_args(1..)
        .help("a file of commands; - is standard input")
}

/// The line that the program takes.
fn line<'a>(alloc: Global) -> Result<Command<'a>, AllocError>
    ensures { IfOk result (λ command. app_of command ≡ spec_line) }
{
    Command::new(alloc, "occheck")
        .about("Answers scripts of commands; `occ check FILE..` checks files")
        .arg(steps_flag(alloc))?
        .arg(workers_option(alloc))?
        .arg(scripts_argument(alloc))
}

/// What stands in a line, which begins with the program's name.
fn matched<'a>(alloc: Global, words: &'a [&'a str]) -> Result<ArgMatches<'a>, Error>
    ensures taken { IfOk result (λ _. fault_of spec_line (map (λ word. word.now) words.now) ≡ []) }
    ensures rows { IfOk result (λ matches. rows_of (found_of matches) ≡ matches_of spec_line (map (λ word. word.now) words.now)) }
    ensures refused { IfErr result (λ error. (kind_of error ≡ kinds.OutOfMemory) ⊎ (fault_of spec_line (map (λ word. word.now) words.now) ≡ [] → ⊥)) }
{
    line(alloc)?.try_get_matches_from(words)
}

/// A line that clap refuses, with its text.
fn refused(alloc: Global, error: &Error) -> Result<WordsFault, AllocError>
    ensures { IfOk result (λ fault. (fault ≡ words_fault.Memory) ↔ (kind_of error.now ≡ kinds.OutOfMemory)) }
{
    if error.kind() == ErrorKind::OutOfMemory {
        return Ok(WordsFault::Memory);
    }
    Ok(WordsFault::Refused(format!(in alloc; "{error}")?))
}

/// A line that asks for what there is not.
fn refusal(alloc: Global, why: &str) -> Result<WordsFault, AllocError>
    ensures { IfOk result (λ fault. fault ≡ words_fault.Memory → ⊥) }
{
    Ok(WordsFault::Refused(format!(in alloc;
        "error: {why}\n\nFor more information, try '--help'.\n"
    )?))
}

/// What the arguments ask for.
fn mode_of(alloc: Global, matches: &ArgMatches<'_>) -> Result<Mode, WordsFault>
    ensures allowed { IfOk result (λ mode. IsAllowed mode) }
    ensures asked { IfOk result (λ mode. asked_of (rows_of (found_of matches.now)) ≡ Some (view mode)) }
    ensures refused { IfErr result (λ fault. IsRefusal (asked_of (rows_of (found_of matches.now))) fault) }
{
    either(
        alloc,
        is_stepped(matches),
        workers_of(matches),
        scripts_of(matches),
    )
}

/// What a line asks for that has both the flag and the option, or neither.
const BOTH_OR_NEITHER: &str = "exactly one of '--steps' and '--workers <N>' is required";

/// What the flag, the number of workers and the scripts ask for.
fn either(
    alloc: Global,
    stepped: bool,
    workers: Option<u8>,
    scripts: &[&str],
) -> Result<Mode, WordsFault>
    ensures allowed { IfOk result (λ mode. IsAllowed mode) }
    ensures asked { IfOk result (λ mode. either_of stepped workers (map (λ script. script.now) scripts.now) ≡ Some (view mode)) }
    ensures refused { IfErr result (λ fault. IsRefusal (either_of stepped workers (map (λ script. script.now) scripts.now)) fault) }
{
    match (stepped, workers) {
        (true, None) => steps(alloc, scripts),
        (false, Some(workers)) => sessions(alloc, workers, scripts),
        (true, Some(_)) => Err(refusal(alloc, BOTH_OR_NEITHER)?),
        (false, None) => Err(refusal(alloc, BOTH_OR_NEITHER)?),
    }
}

/// Whether the flag is there.
fn is_stepped(matches: &ArgMatches<'_>) -> bool
    ensures { result ≡ has_steps (rows_of (found_of matches.now)) }
{
    matches.get_one::<bool>("steps").unwrap_or(false)
}

/// The number of workers, if there is one.
fn workers_of(matches: &ArgMatches<'_>) -> Option<u8>
    ensures { result ≡ workers_in (rows_of (found_of matches.now)) }
{
    matches.get_one::<u8>("workers")
}

/// The scripts, in order.
fn scripts_of<'m>(matches: &'m ArgMatches<'_>) -> &'m [&'m str]
    ensures { map (λ script. script.now) result.now ≡ scripts_in (rows_of (found_of matches.now)) }
{
    matches.get_strs("SCRIPT").unwrap_or(&[])
}

/// One script, step by step.
fn steps(alloc: Global, scripts: &[&str]) -> Result<Mode, WordsFault>
    ensures allowed { IfOk result (λ mode. IsAllowed mode) }
    ensures asked { IfOk result (λ mode. steps_of (map (λ script. script.now) scripts.now) ≡ Some (view mode)) }
    ensures refused { IfErr result (λ fault. IsRefusal (steps_of (map (λ script. script.now) scripts.now)) fault) }
{
    match scripts {
        [script] => Ok(Mode::Steps(String::from_str(alloc, script)?)),
        _ => Err(refusal(alloc, "'--steps' takes one SCRIPT")?),
    }
}

/// Whether there are 1 to 16 of something.
fn is_few(number: usize) -> bool
    ensures { result ≡ spec_few number }
{
    1 <= number && number <= 16
}

/// How often standard input is among scripts.
fn inputs_among(scripts: &[String]) -> usize
    ensures { result ≡ inputs (map string_bytes scripts.now) }
{
    let mut count = 0;
    for script in scripts {
        if script.as_str() == "-" {
            count += 1;
        }
    }
    count
}

/// So many workers, and sessions of these scripts.
fn sessions(alloc: Global, workers: u8, scripts: &[&str]) -> Result<Mode, WordsFault>
    ensures allowed { IfOk result (λ mode. IsAllowed mode) }
    ensures asked { IfOk result (λ mode. sessions_of workers (map (λ script. script.now) scripts.now) ≡ Some (view mode)) }
    ensures refused { IfErr result (λ fault. IsRefusal (sessions_of workers (map (λ script. script.now) scripts.now)) fault) }
{
    let mut names = Vec::new(alloc);
    for script in scripts {
        names.push(String::from_str(alloc, script)?)?;
    }
    if !is_few(usize::from(workers)) {
        return Err(refusal(alloc, "'--workers' takes 1 to 16")?);
    }
    if !is_few(names.len()) {
        return Err(refusal(alloc, "'--workers' takes 1 to 16 SCRIPTs")?);
    }
    if inputs_among(names.as_slice()) > 1 {
        return Err(refusal(alloc, "standard input is one SCRIPT at most")?);
    }
    Ok(Mode::Workers(workers, names))
}
