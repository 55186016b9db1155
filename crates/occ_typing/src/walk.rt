//! The walk down the lines of a unit. It enters what each line brings into scope, and leaves it at the end of the item.
//! `docs/LANGUAGE.md, The lines of a unit`.
#![tactic(auto, using(occ_typing_lines::proofs::Trees::tree_rules, occ_typing_lines::proofs::Scopes::scope_rules))]

ghost use Rattle.occ_scope.specs.Visible.{back_to, with_all};
ghost use Rattle.occ_tree.specs.Forest.{forest_of};
ghost use Rattle.occ_tree.specs.declared.tree.Node.{out-Node};
ghost use Rattle.occ_typing_lines.specs.Placed.{placed};
ghost use Rattle.occ_typing.specs.TypedLines.{is_process as spec_is_process, is_process_body as spec_is_process_body, is_process_form as spec_is_process_form, line_with, typed_lines};
ghost use Rattle.occ_typing_lines.specs.Judging.{judged as spec_judged};
ghost use Rattle.occ_typing.specs.Units.{after_line as spec_after_line, line_faults, lines as spec_lines};
ghost use Rattle.occ_typing.specs.inside.Opening.{with_children};
ghost use Rattle.std.specs.Prelude.{◌≡◌, ◌∷◌, ◌++◌, [], IfOk, OnErr, OnOk, length};

use super::tree::TypedLine;
use occ_base::{Diag, Fault, Items};
use occ_forms::Form;
use occ_project::ExpandedBody;
use occ_scope::{Scope, ScopeEntry};
use occ_tree::Node;
use occ_typing_lines::{Imports, Line, Parent, Role, judged, place};
use std::alloc::{AllocError, Global};

/// What stands in scope after a line, where so many specifications stood in scope round its item.
fn go_after(
    alloc: Global,
    adds: &Option<Items<ScopeEntry>>,
    outer: usize,
    scope: &mut Scope,
) -> Result<(), AllocError>
    ensures ok { OnOk result (scope.new ≡ spec_after_line (back_to outer scope.old) scope.old adds.now) }
    ensures err { OnErr result (scope.new ≡ scope.old) }
{
    match adds {
        None => {
            scope.leave_to(outer);
            Ok(())
        }
        Some(adds) => scope.enter_all(alloc, adds.as_slice()),
    }
}

/// Whether a line of this form is a process, where processes may stand.
fn is_process_form(form: &Form) -> bool
    ensures { result ≡ spec_is_process_form form.now }
{
    matches!(
        form,
        Form::Action(_) | Form::Construct(_) | Form::Expressions(_, _)
    )
}

/// Whether a line is a process, where processes may stand.
fn is_process_body(body: &ExpandedBody) -> bool
    ensures { result ≡ spec_is_process_body body.now }
{
    match body {
        ExpandedBody::Form(form) => is_process_form(form.get()),
        ExpandedBody::Uses(_) | ExpandedBody::Fault(_) => false,
    }
}

/// Whether a line whose parent says this of it is a process.
#[tactic(auto, unfolding(crate::specs::TypedLines::is_process))]
fn is_process(parent: &Parent, body: &ExpandedBody) -> bool
    ensures { result ≡ spec_is_process parent.now body.now }
{
    match parent.role {
        Role::Process => is_process_body(body),
        Role::Function(_) => is_process_body(body),
        Role::Conditional => false,
        Role::Alternation => false,
        Role::Selection(_) => false,
        Role::Variants(_) => false,
        Role::Members => false,
    }
}

/// The lines under another, by which these names come into scope: their typed lines and what they report.
#[cycle(lines)]
fn inner(
    alloc: Global,
    imports: &Imports<'_>,
    nodes: &[Node],
    parent: Parent,
    enters: &[ScopeEntry],
    scope: &mut Scope,
    found: &mut Items<Diag>,
) -> Result<Items<TypedLine>, AllocError>
    ensures typed { IfOk result (λ typed. typed ≡ typed_lines imports.now parent (with_all scope.old enters.now) (with_all scope.old enters.now) (forest_of nodes.now)) }
    ensures scope { OnOk result (scope.new ≡ scope.old) }
    ensures found { OnOk result (found.new ≡ found.old ++ spec_lines imports.now parent (with_all scope.old enters.now) (with_all scope.old enters.now) (forest_of nodes.now)) }
{
    let count = scope.len();
    scope.enter_all(alloc, enters)?;
    let typed = lines(alloc, imports, nodes, parent, scope, found)?;
    scope.leave_to(count);
    Ok(typed)
}

/// A line with those under it, after others, and what its parent says of the lines after it; so many specifications stood
/// in scope round its item.
#[cycle(lines)]
#[inline(always)]
fn line(
    alloc: Global,
    imports: &Imports<'_>,
    node: &Node,
    parent: Parent,
    outer: usize,
    scope: &mut Scope,
    typed: &mut Items<TypedLine>,
    found: &mut Items<Diag>,
) -> Result<Parent, AllocError>
    ensures next { IfOk result (λ next. next ≡ (spec_judged imports.now scope.old (out-Node node.now).line.body (forest_of (out-Node node.now).children) parent).line.next) }
    ensures scope { OnOk result (scope.new ≡ spec_after_line (back_to outer scope.old) scope.old (spec_judged imports.now scope.old (out-Node node.now).line.body (forest_of (out-Node node.now).children) parent).line.adds) }
    ensures typed { OnOk result (typed.new ≡ typed.old ++ line_with imports.now parent scope.old (out-Node node.now).line (forest_of (out-Node node.now).children) ∷ []) }
    ensures found { OnOk result (found.new ≡ found.old ++ line_faults imports.now parent scope.old (out-Node node.now).line (forest_of (out-Node node.now).children)) }
{
    let is_process = is_process(&parent, &node.line.body);
    let mut faults = Items::new(alloc);
    let begun = judged(
        alloc,
        imports,
        &node.line.body,
        node.children.as_slice(),
        scope,
        parent,
        found,
        &mut faults,
    )?;
    go_under(
        alloc,
        imports,
        node,
        is_process,
        begun,
        faults.as_slice(),
        outer,
        scope,
        typed,
        found,
    )
}

/// A line that is judged and has these faults, with those under it, after others, and what its parent says of the lines
/// after it.
#[cycle(lines)]
#[inline(always)]
fn go_under(
    alloc: Global,
    imports: &Imports<'_>,
    node: &Node,
    is_process: bool,
    begun: Line,
    faults: &[Fault],
    outer: usize,
    scope: &mut Scope,
    typed: &mut Items<TypedLine>,
    found: &mut Items<Diag>,
) -> Result<Parent, AllocError>
    ensures next { IfOk result (λ next. next ≡ begun.next) }
    ensures scope { OnOk result (scope.new ≡ spec_after_line (back_to outer scope.old) scope.old begun.adds) }
    ensures typed { OnOk result (typed.new ≡ typed.old ++ with_children (out-Node node.now).line is_process begun (typed_lines imports.now begun.parent (with_all scope.old begun.enters) (with_all scope.old begun.enters) (forest_of (out-Node node.now).children)) ∷ []) }
    ensures found { OnOk result (found.new ≡ found.old ++ (spec_lines imports.now begun.parent (with_all scope.old begun.enters) (with_all scope.old begun.enters) (forest_of (out-Node node.now).children) ++ placed (out-Node node.now).line faults.now)) }
{
    let Line {
        parent,
        enters,
        next,
        adds,
        form,
    } = begun;
    let nodes = node.children.as_slice();
    let under = if nodes.is_empty() {
        Items::new(alloc)
    } else {
        inner(
            alloc,
            imports,
            nodes,
            parent,
            enters.as_slice(),
            scope,
            found,
        )?
    };
    if !faults.is_empty() {
        place(alloc, &node.line, faults, found)?;
    }
    go_after(alloc, &adds, outer, scope)?;
    typed.push(TypedLine {
        place: node.line.location()?,
        is_process,
        form,
        enters,
        adds,
        under,
    })?;
    Ok(next)
}

/// The typed lines of nodes, of which their parent says this, with what they report, after those of others.
#[cycle(lines)]
fn lines(
    alloc: Global,
    imports: &Imports<'_>,
    nodes: &[Node],
    parent: Parent,
    scope: &mut Scope,
    found: &mut Items<Diag>,
) -> Result<Items<TypedLine>, AllocError>
    ensures typed { IfOk result (λ typed. typed ≡ typed_lines imports.now parent scope.old scope.old (forest_of nodes.now)) }
    ensures scope { OnOk result (scope.new ≡ scope.old) }
    ensures found { OnOk result (found.new ≡ found.old ++ spec_lines imports.now parent scope.old scope.old (forest_of nodes.now)) }
{
    let outer = scope.len();
    let typed = lines_kept(alloc, imports, nodes, parent, scope, found)?;
    scope.leave_to(outer);
    Ok(typed)
}

/// The same, but what the last ones brought into scope stays there.
#[cycle(lines)]
pub fn lines_kept(
    alloc: Global,
    imports: &Imports<'_>,
    nodes: &[Node],
    parent: Parent,
    scope: &mut Scope,
    found: &mut Items<Diag>,
) -> Result<Items<TypedLine>, AllocError>
    ensures typed { IfOk result (λ typed. typed ≡ typed_lines imports.now parent scope.old scope.old (forest_of nodes.now)) }
    ensures scope { OnOk result (back_to (length scope.old.meanings) scope.new ≡ scope.old) }
    ensures found { OnOk result (found.new ≡ found.old ++ spec_lines imports.now parent scope.old scope.old (forest_of nodes.now)) }
{
    let outer = scope.len();
    let mut parent = parent;
    let mut typed = Items::from_vec(Vec::with_capacity(alloc, nodes.len())?);
    for node in nodes {
        parent = line(
            alloc, imports, node, parent, outer, scope, &mut typed, found,
        )?;
    }
    Ok(typed)
}
