//! What a line says of those under it and after it, for each kind of line.
ghost use Rattle.occ_typing_lines.specs.Lines.{body_of as spec_body_of, main as spec_main, over as spec_over, processes_in as spec_processes_in, specifying as spec_specifying, with_role as spec_with_role};
ghost use Rattle.std.specs.Prelude.{◌≡◌, [], IfOk, Some};

use super::parent::{Line, Parent, Role};
use super::tree::TypedForm;
use occ_base::{Boxed, Items};
use occ_scope::ScopeEntry;
use std::alloc::{AllocError, Global};

/// Lines that stand as often as others do, of which this is said.
pub fn with_role(role: Role, beside: &Parent) -> Parent
    ensures { result ≡ spec_with_role role beside.now }
{
    Parent {
        role,
        rounds: beside.rounds,
    }
}

/// Lines that stand as often as others do, of which nothing more is said.
fn processes_in(beside: &Parent) -> Parent
    ensures { result ≡ spec_processes_in beside.now }
{
    with_role(Role::Process, beside)
}

/// Lines of a body, which no replicator round it repeats.
pub fn body_of(role: Role) -> Parent
    ensures { result ≡ spec_body_of role }
{
    Parent { role, rounds: 1 }
}

/// A main line, which says this of the lines under it.
#[inline(always)]
pub fn over(
    alloc: Global,
    under: Parent,
    enters: Items<ScopeEntry>,
    form: TypedForm,
    next: Parent,
) -> Result<Line, AllocError>
    ensures { IfOk result (λ line. line ≡ (spec_over [] under enters form next).line) }
{
    let form = Boxed::new(alloc, form)?;
    Ok(Line {
        parent: under,
        enters,
        next,
        adds: None,
        form,
    })
}

/// A main line without names of its own, which says this of the lines under it.
#[inline(always)]
pub fn plain(
    alloc: Global,
    under: Parent,
    form: TypedForm,
    next: Parent,
) -> Result<Line, AllocError>
    ensures { IfOk result (λ line. line ≡ (spec_over [] under [] form next).line) }
{
    over(alloc, under, Items::new(alloc), form, next)
}

/// A main line over processes, if over anything.
#[inline(always)]
pub fn main(alloc: Global, form: TypedForm, next: Parent) -> Result<Line, AllocError>
    ensures { IfOk result (λ line. line ≡ (spec_main [] form next).line) }
{
    plain(alloc, processes_in(&next), form, next)
}

/// A main line of this form over processes, if over anything.
pub fn main_line(alloc: Global, form: Boxed<TypedForm>, next: Parent) -> Line
    ensures { result ≡ (spec_main [] form next).line }
{
    Line {
        parent: processes_in(&next),
        enters: Items::new(alloc),
        next,
        adds: None,
        form,
    }
}

/// A specification, which says this of the lines under it.
#[inline(always)]
pub fn specifying(
    alloc: Global,
    under: Parent,
    enters: Items<ScopeEntry>,
    adds: Items<ScopeEntry>,
    form: TypedForm,
    next: Parent,
) -> Result<Line, AllocError>
    ensures { IfOk result (λ line. line ≡ record { parent = under; enters = enters; next = next; adds = Some adds; form = form }) }
{
    let form = Boxed::new(alloc, form)?;
    Ok(Line {
        parent: under,
        enters,
        next,
        adds: Some(adds),
        form,
    })
}

/// A specification of one line.
#[inline(always)]
pub fn line_of_one(
    alloc: Global,
    adds: Items<ScopeEntry>,
    form: TypedForm,
    next: Parent,
) -> Result<Line, AllocError>
    ensures { IfOk result (λ line. line ≡ (spec_specifying [] adds form next).line) }
{
    let under = processes_in(&next);
    specifying(alloc, under, Items::new(alloc), adds, form, next)
}
