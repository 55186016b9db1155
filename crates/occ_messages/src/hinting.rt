//! What the line of a diagnostic tells more than its code does. It is chosen by looks, and promises nothing.
use super::brackets::brackets;
use super::clashes::{actuals, clash};
use super::depth::{blanks, depth};
use super::mismatch::{conditions, numbers, operands, wanted_type};
use super::protocol::{message, no_channel};
use super::scope::{not_in_scope, operand_lines};
use super::specifics::{
    abbreviation, effect, library, not_constant, replicated, sizes, sort, specification, twice,
    unchanged, unfinished,
};
use super::spelling::written;
use super::subscripts::outside;
use super::text::Lines;
use super::told::{Place, Told};
use occ_base::{Code, Diag};
use std::alloc::{AllocError, Global};

/// What is told of a diagnostic beyond its code, from the lines of its text.
pub fn told_of(alloc: Global, diag: &Diag, lines: Lines<'_>) -> Result<Told, AllocError> {
    let line = lines.line(diag.line);
    let name = match &diag.name {
        Some(name) => name.as_bytes(),
        None => &[],
    };
    let place = Place {
        code: diag.code,
        grade: diag.grade,
        number: diag.line,
        line,
        said: lines.said(diag.line),
        name,
        lines,
    };
    let mut told = Told::new(alloc);
    tell(alloc, place, &mut told)?;
    if !name.is_empty() {
        told.mean(place, name);
    }
    Ok(told)
}

/// Tells what a line says more than a code.
fn tell(alloc: Global, place: Place<'_>, told: &mut Told) -> Result<(), AllocError> {
    match place.code {
        Code::G1 | Code::G2 | Code::G3 => library(alloc, place, told),
        Code::L1 | Code::S1 => form(alloc, place, told),
        Code::L2 => blanks(alloc, place, told),
        Code::L3 => unfinished(alloc, place, told),
        Code::S2 => shape(alloc, place, told),
        Code::N1 => not_in_scope(alloc, place, told),
        Code::N2 => sort(alloc, place, told),
        Code::T1 | Code::T2 | Code::T4 => types(alloc, place, told),
        Code::T3 => unchanged(alloc, place, told),
        Code::T5 => not_constant(alloc, place, told),
        Code::T6 => outside(alloc, place, told),
        Code::T7 => conditions(alloc, place, told),
        Code::T8 => twice(alloc, place, told),
        Code::T9 => sizes(alloc, place, told),
        Code::P1 | Code::P2 | Code::P3 => message(alloc, place, told),
        Code::P4 => channel(alloc, place, told),
        Code::R1 => replicated(alloc, place, told),
        Code::U1 | Code::U2 | Code::U3 => clash(alloc, place, told),
        Code::A1 | Code::A2 | Code::A3 => abbreviation(alloc, place, told),
        Code::A4 => actuals(alloc, place, told),
        Code::F1 => effect(alloc, place, told),
        _ => Ok(()),
    }
}

/// Tells what is wrong with a line that has no form.
fn form(alloc: Global, place: Place<'_>, told: &mut Told) -> Result<(), AllocError> {
    written(alloc, place, told)?;
    if told.is_said() {
        return Ok(());
    }
    brackets(alloc, place, told)
}

/// Tells what is wrong with a line that has no place.
fn shape(alloc: Global, place: Place<'_>, told: &mut Told) -> Result<(), AllocError> {
    written(alloc, place, told)?;
    if told.is_said() {
        return Ok(());
    }
    depth(alloc, place, told)
}

/// Tells which types do not go together, or shows where the names of the line are specified.
fn types(alloc: Global, place: Place<'_>, told: &mut Told) -> Result<(), AllocError> {
    match place.code {
        Code::T1 => operands(alloc, place, told)?,
        Code::T2 => wanted_type(alloc, place, told)?,
        _ => numbers(alloc, place, told)?,
    }
    if told.is_said() {
        return Ok(());
    }
    operand_lines(alloc, place, told)
}

/// Tells what is no channel.
fn channel(alloc: Global, place: Place<'_>, told: &mut Told) -> Result<(), AllocError> {
    no_channel(alloc, place, told)?;
    specification(alloc, place, told)
}
