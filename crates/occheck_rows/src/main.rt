//! Runs the scripts of data/, each named by a line of data/rows.txt, and compares what they write and their
//! status with what is wanted; then runs one of them over devices that fail at each of their calls in turn, and a
//! script that never ends. A row is named by the rule that it shows; a sample of data/samples/ shows several.
#![tactic(auto)]

mod devices;
mod row;
#[cfg(test)]
mod sessions;
mod tally;

ghost use Rattle.std.specs.List.{All};
ghost use Rattle.std.specs.Prelude.{◌≡◌, ◌+◌, IfOk, length, true};
ghost use Rattle.occheck_rows.specs.Met.{IsRight};

use devices::{Endless, NEVER, Page, Paper};
use occheck_script::{Status, run_script};
use row::{Row, is_met};
use std::alloc::{AllocError, Global};
use std::rt::Files;
use std::{fs, io};
use tally::Tally;

/// The row whose script is run over failing devices.
const DRIVEN: &str = "components_may_not_write_one_variable";

/// More calls than a run of that row makes.
const CALLS: u32 = 1000;

fn main(rt: HostRuntime) -> io::Result<()> {
    let rows = read_rows(&rt)?;
    let driven = read_row(&rt, DRIVEN)?;
    println!(rt; "rows: {}", run_rows(&rt, rows.as_slice())?)?;
    println!(rt; "reads that fail: {}", refused_reads(rt.alloc(), &driven))?;
    println!(rt;
        "writes that fail: {}",
        refused_writes(rt.alloc(), &driven, false)
    )?;
    println!(rt;
        "writes that take nothing: {}",
        refused_writes(rt.alloc(), &driven, true)
    )?;
    println!(rt; "a script without end: {}", endless(rt.alloc()))
}

/// The rows that rows.txt names.
fn read_rows<R: Files + AllocGlobal>(rt: &R) -> io::Result<Vec<Row>> {
    let names = fs::read_to_string(rt, "rows.txt")?;
    let mut rows = Vec::new(rt.alloc());
    for name in names.as_str().lines() {
        rows.push(read_row(rt, name)?)?;
    }
    Ok(rows)
}

/// The row of that name.
fn read_row<R: Files + AllocGlobal>(rt: &R, name: &str) -> io::Result<Row> {
    let script = read_file(rt, name, "script")?;
    let output = read_file(rt, name, "out")?;
    let status = read_file(rt, name, "status")?;
    let status = match status.as_slice() {
        [digit @ b'0'..=b'9', ..] => *digit - b'0',
        _ => u8::MAX,
    };
    Ok(Row {
        name: String::from_str(rt.alloc(), name)?,
        script,
        output,
        status,
    })
}

fn read_file<R: Files + AllocGlobal>(rt: &R, name: &str, kind: &str) -> io::Result<Vec<u8>> {
    let path = format!(in rt.alloc(); "{name}.{kind}")?;
    fs::read(rt, path.as_str())
}

/// How many rows are met. The names of the others are reported.
fn run_rows<R: Print + AllocGlobal>(rt: &R, rows: &[Row]) -> io::Result<Tally>
    ensures all { IfOk result (λ met. met.passed + met.failed ≡ length rows.now) }
    ensures right { IfOk result (λ met. met.failed ≡ 0 → All IsRight rows.now) }
{
    let mut met = Tally::new();
    for row in rows {
        met.add(run_row(rt, row)?);
    }
    Ok(met)
}

/// Whether the row is met. If it is not, its name is reported.
fn run_row<R: Print + AllocGlobal>(rt: &R, row: &Row) -> io::Result<bool>
    ensures { IfOk result (λ met. met ≡ true → IsRight row.now) }
{
    let is_met = is_met(rt.alloc(), row);
    if !is_met {
        println!(rt; "differs: {}", row.name)?;
    }
    Ok(is_met)
}

/// Runs the script with each of its reads refused in turn: a front of the output is written, and the status reports it.
fn refused_reads(alloc: Global, row: &Row) -> Tally {
    let mut seen = Tally::new();
    for k in 0..CALLS {
        let mut paper = Paper::new(row.script.as_slice(), k);
        let mut page = Page::new(alloc, NEVER, false);
        let status = run_script(alloc, &mut paper, &mut page);
        if status.code() == row.status {
            return seen;
        }
        seen.add(status == Status::DeviceFault && row.output.as_slice().starts_with(page.bytes()));
    }
    seen
}

/// Runs the script with each of its writes refused, or taking nothing, in turn: a front of the output is written,
/// and the status reports it.
fn refused_writes(alloc: Global, row: &Row, takes_none: bool) -> Tally {
    let mut seen = Tally::new();
    for k in 0..CALLS {
        let mut paper = Paper::new(row.script.as_slice(), NEVER);
        let mut page = Page::new(alloc, k, takes_none);
        let status = run_script(alloc, &mut paper, &mut page);
        if status.code() == row.status {
            return seen;
        }
        seen.add(status == Status::DeviceFault && row.output.as_slice().starts_with(page.bytes()));
    }
    seen
}

/// Runs a script of line feeds that never ends: it is wrong on the line after the limit.
fn endless(alloc: Global) -> Tally {
    let mut seen = Tally::new();
    let mut page = Page::new(alloc, NEVER, false);
    let status = run_script(alloc, &mut Endless::new(), &mut page);
    seen.add(
        status == Status::ScriptFault && page.bytes() == b"script fault 67108865\n".as_slice(),
    );
    seen
}
