//! Tests: expansions over given files, and the first that is not given.
use occ_base::{FileName, Items, Shared};
use occ_forms::prepare;
use occ_project::{ExpandFault, Expanded, ExpandedLine, Read, Reads, expand};
use std::alloc::Global;
use std::test::Fail;

/// A file with this text.
pub fn open(alloc: Global, name: &str, text: &str) -> Result<Read, Fail> {
    let source = prepare(alloc, text.as_bytes())?;
    Ok(Read {
        name: FileName::read(name.as_bytes())?,
        revision: 1,
        source: Some(Shared::new(alloc, source)?),
    })
}

/// Whether this file is reported not to be given.
fn is_missing(fault: ExpandFault, file: &[u8]) -> bool {
    match fault {
        ExpandFault::NotGiven(missing) => missing.as_bytes() == file,
        ExpandFault::Memory => false,
    }
}

/// Whether the expansion of a.occ over these files says that this one is not given.
fn is_reported_missing(alloc: Global, reads: &Reads, file: &[u8]) -> Result<bool, Fail> {
    match expand(alloc, reads, FileName::read(b"a.occ")?) {
        Ok(_expanded) => Ok(false),
        Err(fault) => Ok(is_missing(fault, file)),
    }
}

/// Whether a line stands there.
fn stands_at(line: &ExpandedLine, file: &[u8], number: u32, depth: u64) -> bool {
    line.file.get().as_bytes() == file && line.line == number && line.depth == depth
}

/// Whether a line uses this unit alone.
fn uses(line: &ExpandedLine, unit: &[u8]) -> bool {
    match line.used_units() {
        [used] => used.as_bytes() == unit,
        _ => false,
    }
}

#[test]
fn a_file_that_is_not_given_is_reported(rt: HostRuntime) -> Result<(), Fail> {
    let a = rt.alloc();
    let mut reads = Items::new(a);
    reads.push(open(a, "a.occ", "#INCLUDE \"k.inc\"\n")?)?;
    assert!(rt; is_reported_missing(a, &reads, b"k.inc")?);
    Ok(())
}

/// The files of a unit.
fn files(alloc: Global) -> Result<Reads, Fail> {
    let mut reads = Items::new(alloc);
    reads.push(open(alloc, "a.occ", "  #INCLUDE \"k.inc\"\n#USE \"b\"\n")?)?;
    reads.push(open(alloc, "k.inc", "\n  SKIP\n")?)?;
    Ok(reads)
}

/// Whether that is the expansion of that unit.
fn is_whole(expanded: &Expanded) -> bool {
    expanded.faults().is_empty()
        && expanded.reads().len() == 2
        && expanded.lines().len() == 2
        && matches!(expanded.lines().first(), Some(line) if stands_at(line, b"k.inc", 2, 2))
        && matches!(expanded.lines().last(), Some(line) if uses(line, b"b.occ"))
}

#[test]
fn a_unit_is_expanded_once_its_files_are_given(rt: HostRuntime) -> Result<(), Fail> {
    let a = rt.alloc();
    let reads = files(a)?;
    let expanded = expand(a, &reads, FileName::read(b"a.occ")?)?;
    assert!(rt; is_whole(&expanded));
    Ok(())
}
