//! The files that are asked for, folder by folder: folders are walked for `.occ` files, and the files of one folder are checked
//! together.
use super::finding::{Disk, folder_of, path_of};
use super::refusal::{Refusal, Why};
use std::alloc::{AllocError, Global};

/// How deep folders are walked, and how many there may be.
const FOLDER_LIMIT: usize = 65_536;

/// Files of one folder.
#[derive(Drop)]
pub struct Group {
    pub folder: String,
    pub paths: Vec<String>,
}

/// The files that are asked for, and what cannot be walked.
#[derive(Drop)]
pub struct Asked {
    pub groups: Vec<Group>,
    pub refusals: Vec<Refusal>,
}

/// The files that are asked for by these paths, folder by folder, in the order in which they are asked for.
pub fn groups<D: Disk>(alloc: Global, disk: &D, paths: &[String]) -> Result<Asked, AllocError> {
    let mut asked = Asked {
        groups: Vec::new(alloc),
        refusals: Vec::new(alloc),
    };
    for path in paths {
        match disk.list(alloc, path.as_str()) {
            Ok(Some(_)) => walk(alloc, disk, path.as_str(), &mut asked)?,
            _ => asked.add(alloc, path.as_str())?,
        }
    }
    Ok(asked)
}

/// Adds the `.occ` files in a folder and in those below it.
fn walk<D: Disk>(
    alloc: Global,
    disk: &D,
    folder: &str,
    asked: &mut Asked,
) -> Result<(), AllocError> {
    let mut folders = Vec::new(alloc);
    folders.push(String::from_str(alloc, folder)?)?;
    for _ in 0..FOLDER_LIMIT {
        let Some(folder) = folders.pop() else {
            break;
        };
        let below = walk_one(alloc, disk, folder.as_str(), asked)?;
        for name in below.as_slice() {
            folders.push(path_of(alloc, folder.as_str(), name.as_str())?)?;
        }
    }
    Ok(())
}

/// Adds the `.occ` files in a folder, and gives the names of the folders in it, the last first.
fn walk_one<D: Disk>(
    alloc: Global,
    disk: &D,
    folder: &str,
    asked: &mut Asked,
) -> Result<Vec<String>, AllocError> {
    let mut below = Vec::new(alloc);
    let seen = match disk.list(alloc, folder) {
        Ok(Some(seen)) => seen,
        Ok(None) => return Ok(below),
        Err(fault) => {
            let why = Why::of_fault(fault)?;
            asked.refusals.push(Refusal::of(alloc, folder, why)?)?;
            return Ok(below);
        }
    };
    for one in seen.as_slice() {
        let name = one.name.as_str();
        if one.is_folder {
            below.push(String::from_str(alloc, name)?)?;
        } else if name.ends_with(".occ") {
            let path = path_of(alloc, folder, name)?;
            asked.add(alloc, path.as_str())?;
        }
    }
    below.reverse();
    Ok(below)
}

impl Asked {
    /// Adds a file to those of its folder.
    fn add(&mut self, alloc: Global, path: &str) -> Result<(), AllocError> {
        let folder = folder_of(path);
        let path = String::from_str(alloc, path)?;
        match self
            .groups
            .as_mut_slice()
            .iter_mut()
            .find(|group| group.folder.as_str() == folder)
        {
            Some(group) => group.paths.push(path)?,
            None => {
                let folder = String::from_str(alloc, folder)?;
                let paths = vec![in alloc; path]?;
                self.groups.push(Group { folder, paths })?;
            }
        }
        Ok(())
    }
}
