//! Tests: used units in a circle and with faults, faults in included files, refused jobs.
use super::expansion::open;
use occ_base::{Code, Diag, FileName, Items};
use occ_project::Reads;
use occ_server::{Job, JobFault, Outcome, Used, UsedUnit, check};
use std::alloc::Global;
use std::test::Fail;

/// The files of these names and texts.
fn reads(alloc: Global, files: &[(&str, &str)]) -> Result<Reads, Fail> {
    let mut reads = Items::new(alloc);
    for (name, text) in files {
        reads.push(open(alloc, name, text)?)?;
    }
    Ok(reads)
}

/// The one unit that is used, and how it stands.
fn using(alloc: Global, unit: &str, used: Used) -> Result<Items<UsedUnit>, Fail> {
    let mut units = Items::new(alloc);
    units.push(UsedUnit {
        unit: FileName::read(unit.as_bytes())?,
        used,
    })?;
    Ok(units)
}

/// The outcome of a check of the unit.
fn outcome(
    alloc: Global,
    unit: &str,
    reads: Reads,
    used: Items<UsedUnit>,
) -> Result<Outcome, Fail> {
    let job = Job::new(alloc, FileName::read(unit.as_bytes())?, reads, used)?;
    match check(alloc, job) {
        Ok(outcome) => Ok(outcome),
        Err((_job, refused)) => Err(refused)?,
    }
}

/// Whether the diagnostic stands at the first line of that file, with this code and name.
fn is_reported(diag: &Diag, file: &str, code: Code, name: &str) -> bool {
    diag.file.as_bytes() == file.as_bytes()
        && diag.line == 1
        && diag.code == code
        && matches!(&diag.name, Some(named) if named.as_bytes() == name.as_bytes())
}

/// Whether a unit with this one line, which uses another that stands so, is reported that alone, and shows nothing.
fn reports_use(
    alloc: Global,
    unit: &str,
    line: &str,
    used: (&str, Used),
    code: Code,
) -> Result<bool, Fail> {
    let (name, standing) = used;
    let reads = reads(alloc, &[(unit, line)])?;
    let outcome = outcome(alloc, unit, reads, using(alloc, name, standing)?)?;
    let is_alone = matches!(outcome.diags(), [diag] if is_reported(diag, unit, code, name));
    Ok(is_alone && outcome.interface().is_none())
}

#[test]
fn a_use_in_a_circle_is_reported_apart_from_one_of_a_faulty_unit(
    rt: HostRuntime,
) -> Result<(), Fail> {
    let a = rt.alloc();
    assert!(rt;
        reports_use(
            a,
            "a.occ",
            "#USE \"b\"\n",
            ("b.occ", Used::Circular),
            Code::G2
        )?
    );
    assert!(rt;
        reports_use(
            a,
            "b.occ",
            "#USE \"c\"\n",
            ("c.occ", Used::Circular),
            Code::G2
        )?
    );
    assert!(rt;
        reports_use(
            a,
            "c.occ",
            "#USE \"a\"\n",
            ("a.occ", Used::Circular),
            Code::G2
        )?
    );
    assert!(rt;
        reports_use(
            a,
            "d.occ",
            "#USE \"a\"\n",
            ("a.occ", Used::Faulty),
            Code::G3
        )?
    );
    assert!(rt;
        reports_use(
            a,
            "d.occ",
            "#USE \"e\"\n",
            ("e.occ", Used::Absent),
            Code::G1
        )?
    );
    Ok(())
}

/// Whether a unit with a faulty line in an included file is reported that line alone.
fn reports_include(alloc: Global) -> Result<bool, Fail> {
    let unit = "PROC p ()\n  INT x:\n  #INCLUDE \"k.inc\"\n:\n";
    let included = "PAR\n  x := 1\n  x := 2\n";
    let reads = reads(alloc, &[("a.occ", unit), ("k.inc", included)])?;
    let outcome = outcome(alloc, "a.occ", reads, Items::new(alloc))?;
    Ok(matches!(outcome.diags(), [diag] if is_reported(diag, "k.inc", Code::U1, "x")))
}

#[test]
fn a_fault_in_an_included_file_is_reported_there(rt: HostRuntime) -> Result<(), Fail> {
    assert!(rt; reports_include(rt.alloc())?);
    Ok(())
}

/// Why a job of a unit with this text, which is given the one file and the one used unit, is none.
fn refusal(alloc: Global, text: &str, used: &str) -> Result<Option<JobFault>, Fail> {
    let reads = reads(alloc, &[("a.occ", text)])?;
    let used = using(alloc, used, Used::Absent)?;
    Ok(Job::new(alloc, FileName::read(b"a.occ")?, reads, used).err())
}

#[test]
fn a_job_has_exactly_what_its_unit_reads_and_uses(rt: HostRuntime) -> Result<(), Fail> {
    let a = rt.alloc();
    let lacking = refusal(a, "#USE \"b\"\n#INCLUDE \"k.inc\"\n", "b.occ")?;
    assert!(rt; matches!(lacking, Some(JobFault::Reads)));
    let other = refusal(a, "#USE \"b\"\n", "c.occ")?;
    assert!(rt; matches!(other, Some(JobFault::Used)));
    Ok(())
}
