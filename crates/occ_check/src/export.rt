//! The exports of a unit: procedures and functions that its outermost lines specify, of two of one name the later.
ghost use Rattle.std.specs.Prelude.{[], ◌≡◌, ◌+◌, ◌++◌, IfOk, OnOk, length};
ghost use Rattle.occ_check.specs.Exports.{entries_exports, export as spec_export, interface_in, is_use as spec_is_use, line_entries, line_exports, lines_exports, meaning_exports, with_exports};
ghost use Rattle.occ_usage.specs.Entering.{effect_if as spec_effect_if};
ghost use Rattle.occ_usage.specs.TypedLine.{out-TypedLine};

use super::formal_uses::body_formal_uses;
use occ_base::{Items, Name, Shared};
use occ_scope::{Meaning, ScopeEntry};
use occ_types::{Effect, Export, ExportKind, Formal, Interface, OccType};
use occ_usage::{TypedForm, TypedLine, number_after, shared_types};
use occ_usage_values::{Bound, body_at, effect_at};
use std::alloc::{AllocError, Global};
use std::collections::BTreeSet;

/// An effect, if there is one.
fn effect_if(has_effect: bool) -> Effect
    ensures { result ≡ spec_effect_if has_effect }
{
    if has_effect {
        Effect::Some
    } else {
        Effect::None
    }
}

/// The export that the specification with this number is.
fn export(
    alloc: Global,
    env: &[Bound],
    number: usize,
    name: &Name,
    kind: ExportKind,
    formals: &Shared<Items<Formal>>,
    results: &[Shared<OccType>],
) -> Result<Export, AllocError>
    ensures { IfOk result (λ export. export ≡ spec_export env.now number name.now kind formals.now results.now) }
{
    Ok(Export {
        name: name.copied(alloc)?,
        kind,
        formals: formals.share()?,
        results: shared_types(alloc, results)?,
        uses: body_formal_uses(alloc, number, body_at(env, number))?,
        effect: effect_if(effect_at(env, number)),
    })
}

/// Adds the export that a name is, if it stands for a procedure or a function; it is the specification with this number.
fn add_entry(
    alloc: Global,
    env: &[Bound],
    number: usize,
    entry: &ScopeEntry,
    found: &mut Vec<Export>,
) -> Result<(), AllocError>
    ensures { OnOk result (found.new.items ≡ found.old.items ++ meaning_exports env.now number entry.now.name entry.now.meaning) }
{
    let export = match entry.meaning.get() {
        Meaning::Procedure(formals) => export(
            alloc,
            env,
            number,
            &entry.name,
            ExportKind::Process,
            formals,
            &[],
        )?,
        Meaning::Function(formals, results) => export(
            alloc,
            env,
            number,
            &entry.name,
            ExportKind::Function,
            formals,
            results.as_slice(),
        )?,
        Meaning::Faulty | Meaning::Type(_) | Meaning::Protocol(_) | Meaning::Element(_) => {
            return Ok(());
        }
    };
    found.push(export)?;
    Ok(())
}

/// Adds what names export, the first of which is the specification with this number; gives the number of the one after
/// them.
fn add_entries(
    alloc: Global,
    env: &[Bound],
    number: usize,
    entries: &[ScopeEntry],
    found: &mut Vec<Export>,
) -> Result<usize, AllocError>
    ensures found { OnOk result (found.new.items ≡ found.old.items ++ entries_exports env.now number entries.now) }
    ensures next { IfOk result (λ next. next ≡ number + length entries.now) }
{
    let mut next = number;
    for entry in entries {
        add_entry(alloc, env, next, entry, found)?;
        next = number_after(next, 1)?;
    }
    Ok(next)
}

/// Whether the line is a `#USE`.
fn is_use(line: &TypedLine) -> bool
    ensures { result ≡ spec_is_use (out-TypedLine line.now).form }
{
    matches!(line.form.get(), TypedForm::Uses(_))
}

/// What comes into scope after a line.
fn line_entries_of(line: &TypedLine) -> &[ScopeEntry]
    ensures { result.now ≡ line_entries line.now }
{
    match &line.adds {
        Some(entries) => entries.as_slice(),
        None => &[],
    }
}

/// Adds what a line after so many specifications exports; gives how many stand after it.
fn add_line(
    alloc: Global,
    env: &[Bound],
    number: usize,
    line: &TypedLine,
    found: &mut Vec<Export>,
) -> Result<usize, AllocError>
    ensures found { OnOk result (found.new.items ≡ found.old.items ++ line_exports env.now number line.now) }
    ensures next { IfOk result (λ next. next ≡ number + length (line_entries line.now)) }
{
    let entries = line_entries_of(line);
    if is_use(line) {
        return number_after(number, entries.len());
    }
    add_entries(alloc, env, number, entries, found)
}

/// Adds what the outermost lines of a unit export, an earlier one of a name too.
fn add_lines(
    alloc: Global,
    env: &[Bound],
    lines: &[TypedLine],
    found: &mut Vec<Export>,
) -> Result<(), AllocError>
    ensures { OnOk result (found.new.items ≡ found.old.items ++ lines_exports env.now 0 lines.now) }
{
    let mut number = 0;
    for line in lines {
        number = add_line(alloc, env, number, line, found)?;
    }
    Ok(())
}

/// Of two exports of one name the later, at its own place: found from the last on, since a later name is known then.
fn last_of_each(alloc: Global, mut exports: Vec<Export>) -> Result<Items<Export>, AllocError>
    ensures { IfOk result (λ last. last ≡ with_exports [] exports.items) }
{
    if exports.len() < 2 {
        return Ok(Items::from_vec(exports));
    }
    let mut names = BTreeSet::new(alloc);
    let mut last = Vec::new(alloc);
    while let Some(export) = exports.pop() {
        if names.insert(export.name.copied(alloc)?)? {
            last.push(export)?;
        }
    }
    last.reverse();
    Ok(Items::from_vec(last))
}

/// The interface of a unit with these outermost lines, after the last of which this stands in scope.
pub fn interface_of(
    alloc: Global,
    env: &[Bound],
    lines: &[TypedLine],
) -> Result<Interface, AllocError>
    ensures { IfOk result (λ interface. interface ≡ interface_in env.now lines.now) }
{
    let mut found = Vec::new(alloc);
    add_lines(alloc, env, lines, &mut found)?;
    let exports = last_of_each(alloc, found)?;
    Ok(Interface { exports })
}
