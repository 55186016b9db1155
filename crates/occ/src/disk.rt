//! The files of the machine, and standard input as one of them.
ghost use Rattle.occ.specs.Reading.{read_of};
ghost use Rattle.std.specs.Prelude.{◌≡◌, IfOk, IfSome, None};

use occ_files::{Disk, DiskFault, Seen};
use std::alloc::Global;
use std::fs::{self, DirEntry};
use std::io::{self, ErrorKind, Read};

/// The most bytes of a text; one more is read, so that a longer text is refused.
const MOST_BYTES: u64 = 262_144;

/// The files of the machine. No contract knows them.
#[derive(Drop)]
pub struct Machine<'a> {
    pub rt: &'a HostRuntime,
    /// The path of standard input and its bytes, if it is asked for.
    pub input: Option<(&'a str, Vec<u8>)>,
}

/// Why a file or a folder is not read.
fn fault(error: &io::Error) -> DiskFault {
    match error.kind() {
        ErrorKind::OutOfMemory => DiskFault::Memory,
        kind => DiskFault::Refused(kind),
    }
}

/// Whether the error says that nothing is there.
fn is_absence(error: &io::Error) -> bool {
    matches!(error.kind(), ErrorKind::NotFound | ErrorKind::NotADirectory)
}

/// All bytes of a text, or one more than any may have. Which these are is said of a reader whose bytes are known. A file of the
/// machine is none.
pub fn read_text<R: Read + Drop>(alloc: Global, reader: R) -> io::Result<Vec<u8>>
    ensures { IfOk result (λ bytes. IfSome (R.remaining reader) (λ all. bytes.items ≡ read_of all)) }
{
    let mut bytes = Vec::new(alloc);
    reader.take(MOST_BYTES + 1).read_to_end(&mut bytes)?;
    Ok(bytes)
}

/// A name in a folder.
fn seen(alloc: Global, entry: &DirEntry) -> io::Result<Seen> {
    let name = String::from_str(alloc, entry.file_name())?;
    let is_folder = entry.file_type()?.is_dir();
    Ok(Seen { name, is_folder })
}

/// What is in a folder, in the order in which the system has it.
fn read_folder(rt: &HostRuntime, path: &str) -> io::Result<Vec<Seen>> {
    let mut all = Vec::new(rt.alloc());
    for entry in fs::read_dir(rt, path)? {
        all.push(seen(rt.alloc(), &entry?)?)?;
    }
    Ok(all)
}

impl<'a> Disk for Machine<'a> {
    ghost known = { λ _ _. None };

    fn read(&self, alloc: Global, path: &str) -> Result<Option<Vec<u8>>, DiskFault> {
        if let Some((name, bytes)) = &self.input
            && *name == path
        {
            return Ok(Some(Vec::from_slice(alloc, bytes.as_slice())?));
        }
        let file = match fs::open(self.rt, path) {
            Ok(file) => file,
            Err(error) if is_absence(&error) => return Ok(None),
            Err(error) => return Err(fault(&error)),
        };
        match read_text(alloc, file) {
            Ok(bytes) => Ok(Some(bytes)),
            Err(error) => Err(fault(&error)),
        }
    }

    fn list(&self, alloc: Global, path: &str) -> Result<Option<Vec<Seen>>, DiskFault> {
        match read_folder(self.rt, path) {
            Ok(mut all) => {
                all.sort_by(|a, b| a.name.cmp(&b.name))?;
                Ok(Some(all))
            }
            Err(error) if is_absence(&error) => Ok(None),
            Err(error) => Err(fault(&error)),
        }
    }
}
