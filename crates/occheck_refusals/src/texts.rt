//! From a text to what the rules of uses say of it. These calls only look at what they are lent.
use super::off::{Off, wanted};
use occ_base::{Code, Diag, FileName, Items, Shared};
use occ_forms::{Action, Form, form, prepare};
use occ_lines::{Body, logical};
use occ_project::{Expanded, Read, Reads, expand};
use occ_tree::{Unit, shape};
use occ_typing::{Typed, type_unit};
use occ_usage::{alias_faults, function_faults, par_faults, uses_of};
use std::alloc::Global;

/// A PAR with a race.
pub const RACE: &str = "PROC p ()\n  INT x:\n  PAR\n    x := 1\n    x := 2\n:\n";

/// Two rounds that each change an element.
const ROUNDS: &str = "PROC p ()\n  [2]INT a:\n  SEQ i = 0 FOR 2\n    a[i] := 1\n:\n";

/// A file with this text, as it is after the first edit.
pub fn read(alloc: Global, name: &str, text: &str) -> Result<Read, Off> {
    let source = prepare(alloc, text.as_bytes())?;
    Ok(Read {
        name: FileName::read(name.as_bytes())?,
        revision: 1,
        source: Some(Shared::new(alloc, source)?),
    })
}

/// The unit with the race alone.
pub fn race(alloc: Global) -> Result<Reads, Off> {
    let mut reads = Items::new(alloc);
    reads.push(read(alloc, "a.occ", RACE)?)?;
    Ok(reads)
}

fn expansion(alloc: Global) -> Result<Expanded, Off> {
    let reads = race(alloc)?;
    Ok(expand(alloc, &reads, FileName::read(b"a.occ")?)?)
}

fn unit(alloc: Global) -> Result<Unit, Off> {
    let (lines, _faults) = expansion(alloc)?.into_lines();
    Ok(shape(alloc, lines)?)
}

fn tree(alloc: Global) -> Result<Typed, Off> {
    let unit = unit(alloc)?;
    Ok(type_unit(alloc, &unit, &[])?)
}

/// Whether the diagnostic says that components of the PAR change one variable.
pub fn is_race(diag: &Diag) -> bool {
    diag.line == 3 && diag.code == Code::U1
}

pub fn logical_lines(alloc: Global) -> Result<(), Off> {
    wanted(logical(alloc, RACE.as_bytes())?.len() == 6)
}

pub fn one_form(alloc: Global) -> Result<(), Off> {
    let lines = logical(alloc, b"x := 1\n")?;
    let [line] = lines.as_slice() else {
        return Err(Off::Differs);
    };
    let Body::Tokens(tokens) = &line.body else {
        return Err(Off::Differs);
    };
    let form = form(alloc, tokens.as_slice())?;
    wanted(matches!(&form, Form::Action(Action::Assignment(_, _, _, _))))
}

pub fn prepared(alloc: Global) -> Result<(), Off> {
    let source = prepare(alloc, RACE.as_bytes())?;
    wanted(source.text() == RACE.as_bytes() && source.lines().len() == 6)
}

pub fn expanded(alloc: Global) -> Result<(), Off> {
    let expanded = expansion(alloc)?;
    wanted(expanded.lines().len() == 6 && expanded.reads().len() == 1)
}

pub fn shaped(alloc: Global) -> Result<(), Off> {
    let _unit = unit(alloc)?;
    Ok(())
}

pub fn typed(alloc: Global) -> Result<(), Off> {
    let _tree = tree(alloc)?;
    Ok(())
}

/// The first process is the PAR, which changes its variable at two lines.
pub fn uses(alloc: Global) -> Result<(), Off> {
    let tree = tree(alloc)?;
    let summary = uses_of(alloc, &tree, 0)?;
    wanted(
        matches!(summary.uses.as_slice(), [first, second] if first.line.line == 4 && second.line.line == 5),
    )?;
    replicated(alloc)
}

/// A line under a replicator is there once for each index value, and its uses stand at it.
fn replicated(alloc: Global) -> Result<(), Off> {
    let mut reads = Items::new(alloc);
    reads.push(read(alloc, "a.occ", ROUNDS)?)?;
    let expanded = expand(alloc, &reads, FileName::read(b"a.occ")?)?;
    let (lines, _faults) = expanded.into_lines();
    let tree = type_unit(alloc, &shape(alloc, lines)?, &[])?;
    let summary = uses_of(alloc, &tree, 0)?;
    wanted(
        matches!(summary.uses.as_slice(), [first, second] if first.line.line == 4 && second.line.line == 4),
    )
}

pub fn parallel(alloc: Global) -> Result<(), Off> {
    let tree = tree(alloc)?;
    let faults = par_faults(alloc, &tree)?;
    wanted(matches!(faults.as_slice(), [diag] if is_race(diag)))
}

pub fn functions(alloc: Global) -> Result<(), Off> {
    let tree = tree(alloc)?;
    wanted(function_faults(alloc, &tree)?.is_empty())
}

pub fn aliases(alloc: Global) -> Result<(), Off> {
    let tree = tree(alloc)?;
    wanted(alias_faults(alloc, &tree)?.is_empty())
}
