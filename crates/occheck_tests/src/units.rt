//! Tests: circles of units, reads and uses, and how a used unit is found.
use super::expansion::open;
use occ_base::FileName;
use occ_project::Read;
use occ_project_units::{Graph, Project, Standing};
use std::alloc::Global;
use std::test::Fail;

/// Three units in a circle, of which one reads the line that uses the next from an included file, and a unit that uses one
/// of them.
const CIRCLE: [(&str, &str); 5] = [
    ("d.occ", "#USE \"a\"\n"),
    ("b.occ", "#USE \"c\"\n"),
    ("c.occ", "#USE \"a\"\n"),
    ("a.occ", "#INCLUDE \"k.inc\"\n"),
    ("k.inc", "#USE \"b\"\n#USE \"e\"\n"),
];

fn file(name: &str) -> Result<FileName, Fail> {
    Ok(FileName::read(name.as_bytes())?)
}

/// Opens a file.
fn set(alloc: Global, project: &mut Project, name: &str, text: &str) -> Result<(), Fail> {
    let Read {
        name,
        revision,
        source,
    } = open(alloc, name, text)?;
    project.set(alloc, name, revision, source)?;
    Ok(())
}

/// The graph of those units.
fn circle(alloc: Global) -> Result<Graph, Fail> {
    let mut project = Project::new(alloc);
    for (name, text) in CIRCLE {
        set(alloc, &mut project, name, text)?;
    }
    Ok(Graph::of(alloc, &project)?)
}

/// Whether the use of one of those units by another stands in a circle.
fn is_circular(alloc: Global, from: &str, to: &str) -> Result<bool, Fail> {
    Ok(circle(alloc)?.is_circular(file(from)?, file(to)?))
}

#[test]
fn three_units_use_each_other_in_a_circle(rt: HostRuntime) -> Result<(), Fail> {
    let a = rt.alloc();
    assert!(rt; is_circular(a, "a.occ", "b.occ")?);
    assert!(rt; is_circular(a, "b.occ", "c.occ")?);
    assert!(rt; is_circular(a, "c.occ", "a.occ")?);
    assert!(rt; !is_circular(a, "d.occ", "a.occ")?);
    assert!(rt; !is_circular(a, "a.occ", "e.occ")?);
    Ok(())
}

/// Of how many units and files the first says that it uses them and reads them.
fn numbers(alloc: Global, unit: &str) -> Result<(usize, usize), Fail> {
    let graph = circle(alloc)?;
    let unit = file(unit)?;
    Ok((graph.uses(unit).len(), graph.reads(&unit).len()))
}

#[test]
fn a_unit_uses_and_reads_what_its_expansion_has(rt: HostRuntime) -> Result<(), Fail> {
    let a = rt.alloc();
    assert!(rt; matches!(numbers(a, "a.occ")?, (2, 2)));
    assert!(rt; matches!(numbers(a, "c.occ")?, (1, 1)));
    assert!(rt; matches!(numbers(a, "e.occ")?, (0, 1)));
    Ok(())
}

/// How the second of those units stands for the first.
fn standing(alloc: Global, unit: &str, used: &str) -> Result<Standing, Fail> {
    Ok(circle(alloc)?.standing(file(unit)?, file(used)?))
}

#[test]
fn a_used_unit_is_absent_in_a_circle_or_below(rt: HostRuntime) -> Result<(), Fail> {
    let a = rt.alloc();
    assert!(rt; matches!(standing(a, "a.occ", "b.occ")?, Standing::Circular));
    assert!(rt; matches!(standing(a, "a.occ", "e.occ")?, Standing::Absent));
    assert!(rt; matches!(standing(a, "d.occ", "a.occ")?, Standing::Below));
    Ok(())
}
