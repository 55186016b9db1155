//! Tests: what a unit uses and includes is found beside the file that names it, and then in folders; folders are walked.
ghost use Rattle.std.specs.Prelude.{None};

use occ_files::{Disk, DiskFault, Seen, Text, Why, gather, groups};
use std::alloc::{AllocError, Global};
use std::test::Fail;

/// Files by their paths.
#[derive(Drop)]
pub struct List<'a>(pub &'a [(&'a str, &'a str)]);

/// What a path has below a folder.
fn below<'a>(path: &'a str, folder: &str) -> Option<&'a str> {
    path.strip_prefix(folder)?.strip_prefix("/")
}

/// A name in a folder, or the first folder of a path.
fn seen(alloc: Global, path: &str) -> Result<Seen, AllocError> {
    let (name, is_folder) = match path.split_once("/") {
        Some((folder, _)) => (folder, true),
        None => (path, false),
    };
    Ok(Seen {
        name: String::from_str(alloc, name)?,
        is_folder,
    })
}

impl<'a> Disk for List<'a> {
    ghost known = { λ _ _. None };

    fn read(&self, alloc: Global, path: &str) -> Result<Option<Vec<u8>>, DiskFault> {
        for (name, text) in self.0 {
            if *name == path {
                return Ok(Some(Vec::from_slice(alloc, text.as_bytes())?));
            }
        }
        Ok(None)
    }

    fn list(&self, alloc: Global, path: &str) -> Result<Option<Vec<Seen>>, DiskFault> {
        let mut all = Vec::new(alloc);
        for (name, _) in self.0 {
            if let Some(rest) = below(name, path) {
                all.push(seen(alloc, rest)?)?;
            }
        }
        Ok(if all.is_empty() { None } else { Some(all) })
    }
}

const FILES: [(&str, &str); 8] = [
    (
        "a/main.occ",
        "#INCLUDE \"size.inc\"\n#USE \"tools\"\n#USE \"none\"\n",
    ),
    ("a/size.inc", "VAL size IS 8:\n"),
    (
        "lib/tools.occ",
        "#INCLUDE \"size.inc\"\n#INCLUDE \"width.inc\"\n",
    ),
    ("lib/size.inc", "VAL size IS 9:\n"),
    ("lib/width.inc", "#INCLUDE \"deep.inc\"\n"),
    ("lib/deep.inc", "VAL deep IS 1:\n"),
    ("lib/other.occ", ""),
    ("deep.inc", ""),
];

/// The words, copied.
fn texts(alloc: Global, words: &[&str]) -> Result<Vec<String>, AllocError> {
    let mut texts = Vec::new(alloc);
    for word in words {
        texts.push(String::from_str(alloc, word)?)?;
    }
    Ok(texts)
}

/// Whether one of the texts is the file at a path.
fn has(texts: &[Text], path: &str) -> bool {
    texts.iter().any(|text| text.path.as_str() == path)
}

#[test]
fn files_are_found_beside_and_then_in_folders(rt: HostRuntime) -> Result<(), Fail> {
    let a = rt.alloc();
    let folders = texts(a, &["lib"])?;
    let paths = texts(a, &["a/main.occ", "a/not.occ", "b/main.occ"])?;
    let found = gather(
        a,
        &List(FILES.as_slice()),
        folders.as_slice(),
        paths.as_slice(),
    )?;
    let files = found.texts.as_slice();
    assert!(rt;
        has(files, "a/main.occ") && has(files, "a/size.inc") && has(files, "lib/tools.occ")
    );
    assert!(rt; has(files, "lib/width.inc") && has(files, "lib/deep.inc"));
    assert!(rt; files.len() == 5 && found.units.len() == 2);
    match found.refusals.as_slice() {
        [one, two] => {
            assert!(rt; one.path.as_str() == "a/not.occ" && matches!(one.why, Why::NotThere));
            assert!(rt; two.path.as_str() == "b/main.occ" && matches!(two.why, Why::Twice));
        }
        _ => assert!(rt; false),
    }
    Ok(())
}

const LIBRARY: [(&str, &str); 5] = [
    ("a/main.occ", "#INCLUDE \"all.inc\"\n"),
    ("lib/all.inc", "#USE \"z.lib\"\n"),
    ("lib/z.lbb", "queues\n"),
    ("lib/queues.occ", ""),
    ("more/z.lbb", "stacks\n"),
];

#[test]
fn a_list_is_found_beside_the_file_that_names_it(rt: HostRuntime) -> Result<(), Fail> {
    let a = rt.alloc();
    let (folders, paths) = (texts(a, &["more", "lib"])?, texts(a, &["a/main.occ"])?);
    let disk = List(LIBRARY.as_slice());
    let found = gather(a, &disk, folders.as_slice(), paths.as_slice())?;
    let files = found.texts.as_slice();
    assert!(rt; has(files, "lib/z.lbb") && has(files, "lib/queues.occ") && files.len() == 4);
    Ok(())
}

#[test]
fn folders_are_walked_for_units(rt: HostRuntime) -> Result<(), Fail> {
    let a = rt.alloc();
    let disk = List(&[("x/b.occ", ""), ("x/c.inc", ""), ("x/y/d.occ", "")]);
    let asked = groups(a, &disk, texts(a, &["x", "e.occ"])?.as_slice())?;
    let mut folders = asked
        .groups
        .iter()
        .map(|group| (group.folder.as_str(), group.paths.len()));
    assert!(rt; folders.next() == Some(("x", 1)) && folders.next() == Some(("x/y", 1)));
    assert!(rt; folders.next() == Some(("", 1)) && folders.next().is_none());
    Ok(())
}
