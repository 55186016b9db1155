//! Files by their paths, and the search for a file that another one names.
ghost use Rattle.occ_files.specs.Paths.{Gives, IsFirst, Known, folder_of as spec_folder_of, is_open as spec_is_open, name_of as spec_name_of, path_in};
ghost use Rattle.occ_files.specs.Refusals.{MayFail};
ghost use Rattle.occ_files.specs.Searches.{IsSearch};
ghost use Rattle.occ_files.specs.declared.finding.DiskFault.TheVariants as a_fault;
ghost use Rattle.std.specs.Option.{option_map};
ghost use Rattle.std.specs.Prelude.{◌≡◌, ◌++◌, codes, IfErr, IfOk, map};
ghost use Rattle.std.specs.String.{string_bytes};

use super::refusal::{Refusal, Why};
use std::alloc::{AllocError, AllocFailed, Global};
use std::io::ErrorKind;

/// Why a file or a folder is not read.
#[derive(Clone, Copy, Debug, PartialEq, Eq)]
pub enum DiskFault {
    /// The system refuses it.
    Refused(ErrorKind),
    /// Memory was refused.
    Memory,
}

impl From<AllocError> for DiskFault {
    ghost from_gives = { λ _ e. e ≡ a_fault.Memory };

    fn from(_error: AllocError) -> DiskFault {
        DiskFault::Memory
    }
}

impl<T: Drop> From<AllocFailed<T>> for DiskFault {
    ghost from_gives = { λ _ e. e ≡ a_fault.Memory };

    fn from(_error: AllocFailed<T>) -> DiskFault {
        DiskFault::Memory
    }
}

/// A name in a folder.
#[derive(Drop)]
pub struct Seen {
    pub name: String,
    pub is_folder: bool,
}

/// Files by their paths.
pub trait Disk {
    /// What is known of the file at each path; that it is known says too that it stays as it is.
    ghost known: { Self → Known };

    /// The bytes of the file at a path, nothing where there is none.
    fn read(&self, alloc: Global, path: &str) -> Result<Option<Vec<u8>>, DiskFault>
        ensures gives { IfOk result (λ read. Gives (known self.now) path.now (option_map (λ bytes. bytes.items) read)) }
        ensures fails { IfErr result (MayFail (known self.now path.now)) };

    /// What is in a folder, in order of name; nothing where there is no folder.
    fn list(&self, alloc: Global, path: &str) -> Result<Option<Vec<Seen>>, DiskFault>;
}

/// A file that was found.
#[derive(Drop)]
pub struct Found {
    pub path: String,
    pub bytes: Vec<u8>,
}

/// What the search for a file came to.
#[derive(Drop)]
pub enum Search {
    /// It was found.
    Found(Found),
    /// No folder has it.
    Nowhere,
    /// A folder has one that cannot be read, and none before has one.
    Refused(Refusal),
}

/// The path of a name in a folder.
pub fn path_of(alloc: Global, folder: &str, name: &str) -> Result<String, AllocError>
    ensures { IfOk result (λ path. string_bytes path ≡ path_in folder.now name.now) }
{
    if is_open(folder) {
        behind(alloc, folder, name)
    } else {
        inside(alloc, folder, name)
    }
}

/// Whether a name may follow a folder as it is written.
fn is_open(folder: &str) -> bool
    ensures { result ≡ spec_is_open folder.now }
{
    folder.is_empty() || folder.ends_with("/")
}

/// The path of a name in a folder that a name may follow.
fn behind(alloc: Global, folder: &str, name: &str) -> Result<String, AllocError>
    ensures { IfOk result (λ path. string_bytes path ≡ folder.now ++ name.now) }
{
    format!(in alloc; "{folder}{name}")
}

/// The path of a name in a folder behind which a `/` has to stand.
fn inside(alloc: Global, folder: &str, name: &str) -> Result<String, AllocError>
    ensures { IfOk result (λ path. string_bytes path ≡ folder.now ++ (codes "/" ++ name.now)) }
{
    format!(in alloc; "{folder}/{name}")
}

/// The first of these folders that has a file of the name.
pub fn find<D: Disk>(
    alloc: Global,
    disk: &D,
    folders: &[String],
    name: &str,
) -> Result<Search, AllocError>
    ensures { IfOk result (IsSearch (D.known disk.now) (map string_bytes folders.now) name.now) }
{
    for folder in folders {
        let path = path_of(alloc, folder.as_str(), name)?;
        match disk.read(alloc, path.as_str()) {
            Ok(Some(bytes)) => return Ok(Search::Found(Found { path, bytes })),
            Ok(None) => {}
            Err(fault) => {
                let why = Why::of_fault(fault)?;
                return Ok(Search::Refused(Refusal { path, why }));
            }
        }
    }
    Ok(Search::Nowhere)
}

/// The folder of a path; no text is the folder in which the program runs.
pub fn folder_of(path: &str) -> &str
    ensures { result.now ≡ spec_folder_of path.now }
{
    match path.rsplit_once('/') {
        Some((folder, _)) if !folder.is_empty() => folder,
        Some(_) => "/",
        None => "",
    }
}

/// The name at the end of a path.
pub fn name_of(path: &str) -> &str
    ensures { result.now ≡ spec_name_of path.now }
{
    match path.rsplit_once('/') {
        Some((_, name)) => name,
        None => path,
    }
}
