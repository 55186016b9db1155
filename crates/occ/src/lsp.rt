//! The server for editors, over standard input and output.
ghost use Rattle.occ.specs.Failing.{IsStatus};
ghost use Rattle.std.specs.Prelude.{◌≤◌, IfOk};

use super::disk::Machine;
use super::failing::TROUBLE;
use occ_editor_edits::{FrameFault, read_frame};
use occ_editor_messages::{Flow, LanguageServer};
use occ_files_check::CheckFault;
use std::alloc::Global;
use std::fs;
use std::io::{self, BufReader, Print, Read};

/// The most bytes of a message that is taken.
const MOST: u32 = 16_777_216;

/// Why a server ends before it is told to.
#[derive(Drop)]
enum Broken {
    Device(io::Error),
    Check(CheckFault),
}

impl From<io::Error> for Broken {
    fn from(error: io::Error) -> Broken {
        Broken::Device(error)
    }
}

impl From<CheckFault> for Broken {
    fn from(fault: CheckFault) -> Broken {
        Broken::Check(fault)
    }
}

impl From<std::alloc::AllocError> for Broken {
    fn from(_error: std::alloc::AllocError) -> Broken {
        Broken::Check(CheckFault::Memory)
    }
}

/// Serves an editor until it ends that, and gives the exit status. What is sent is promised by the calls of `LanguageServer`.
pub fn lsp(rt: &HostRuntime, folders: &[String]) -> io::Result<u8>
    ensures { IfOk result IsStatus }
{
    let alloc = rt.alloc();
    let mut input = BufReader::new(alloc, rt.stdin())?;
    let disk = Machine { rt, input: None };
    let mut server = LanguageServer::new(alloc, disk, whole_paths(rt, folders)?);
    match serve(alloc, &mut input, &rt.stdout(), &mut server) {
        Ok(status) => Ok(status),
        Err(Broken::Device(error)) => Err(error),
        Err(Broken::Check(fault)) => {
            let why = why(fault);
            eprintln!(rt; "occ lsp: {why}")?;
            Ok(TROUBLE)
        }
    }
}

/// Why a check is not done, in words.
fn why(fault: CheckFault) -> &'static str {
    match fault {
        CheckFault::Memory => "memory is refused",
        CheckFault::Refused(_) => "the files of a folder cannot be checked together",
        CheckFault::Pending => "a unit is not checked",
    }
}

/// Folders by their paths from the root, where the system knows them.
fn whole_paths(rt: &HostRuntime, folders: &[String]) -> io::Result<Vec<String>> {
    let mut paths = Vec::new(rt.alloc());
    for folder in folders {
        let path = match fs::canonicalize(rt, folder.as_str()) {
            Ok(path) => String::from_str(rt.alloc(), path.as_path().as_str())?,
            Err(_) => String::from_str(rt.alloc(), folder.as_str())?,
        };
        paths.push(path)?;
    }
    Ok(paths)
}

/// Takes messages until one ends the server or the input ends. What is told of files is published when no further message
/// lies there whole.
fn serve<R: Read, P: Print>(
    alloc: Global,
    input: &mut BufReader<R>,
    output: &P,
    server: &mut LanguageServer<Machine<'_>>,
) -> Result<u8, Broken>
    ensures { IfOk result (λ status. status ≤ 1) }
{
    for _ in 0..u64::MAX {
        let next = match read_frame(alloc, input, MOST) {
            Ok(Some(message)) => server.take(message.as_slice())?,
            Ok(None) | Err(FrameFault::Cut | FrameFault::Device) => return Ok(1),
            Err(FrameFault::Memory) => return Err(Broken::Check(CheckFault::Memory)),
            Err(FrameFault::LongHead | FrameFault::NoLength | FrameFault::LongMessage) => {
                server.lose()?;
                Flow::Goes
            }
        };
        if next == Flow::Goes && !is_more(alloc, input.buffer()) {
            server.publish()?;
        }
        output.write_all(server.sent())?;
        server.clear();
        if let Flow::Ends(status) = next {
            return Ok(status);
        }
    }
    Ok(1)
}

/// Whether a message lies whole in these bytes.
fn is_more(alloc: Global, bytes: &[u8]) -> bool {
    let mut rest = bytes;
    matches!(read_frame(alloc, &mut rest, MOST), Ok(Some(_)))
}
