//! A line of any form in its scope: its faults, its typed form, and what it says of the lines around it.
//! `docs/LANGUAGE.md, The lines of a unit`.
#![tactic(auto, using(crate::proofs::Trees::tree_rules))]

ghost use Rattle.occ_tree.specs.Forest.{forest_of};
ghost use Rattle.occ_typing_lines.specs.Judging.{form_line as spec_form_line, is_reported_with_head as spec_is_reported_with_head, judged as spec_judged, line as spec_line, member as spec_member, specifying_line as spec_specifying_line};
ghost use Rattle.std.specs.Prelude.{◌≡◌, ◌++◌, [], IfOk, OnOk};

use super::action::action;
use super::construct::construct;
use super::heading::heading;
use super::imports::Imports;
use super::line::{line_of_one, main, main_line, plain, with_role};
use super::parent::{Line, Parent, Role};
use super::part::{expressions, part};
use super::specifying::one_line;
use super::tree::TypedForm;
use super::using::{imported, interfaces_of};
use super::variant::tagged;
use occ_base::{Diag, Fault, Items, Shared};
use occ_forms::{Form, Specified};
use occ_project::ExpandedBody;
use occ_scope::Scope;
use occ_tree::Node;
use std::alloc::{AllocError, Global};

/// The line of a specification or of a head, with these nodes under it.
fn specifying_line(
    alloc: Global,
    specified: &Specified,
    nodes: &[Node],
    scope: &mut Scope,
    parent: Parent,
    found: &mut Items<Diag>,
    faults: &mut Items<Fault>,
) -> Result<Line, AllocError>
    ensures line { IfOk result (λ one. one ≡ (spec_specifying_line scope.old specified.now (forest_of nodes.now) parent).line) }
    ensures scope { OnOk result (scope.new ≡ scope.old) }
    ensures found { OnOk result (found.new ≡ found.old ++ (spec_specifying_line scope.old specified.now (forest_of nodes.now) parent).beneath) }
    ensures faults { OnOk result (faults.new ≡ faults.old ++ (spec_specifying_line scope.old specified.now (forest_of nodes.now) parent).faults) }
{
    match specified {
        Specified::Line(line) => one_line(alloc, line, scope, parent, faults),
        Specified::Head(head) => heading(alloc, head, nodes, scope, parent, found, faults),
    }
}

/// The line of a form, with these nodes under it.
fn form_line(
    alloc: Global,
    form: &Shared<Form>,
    nodes: &[Node],
    scope: &mut Scope,
    parent: Parent,
    found: &mut Items<Diag>,
    faults: &mut Items<Fault>,
) -> Result<Line, AllocError>
    ensures line { IfOk result (λ one. one ≡ (spec_form_line scope.old form.now (forest_of nodes.now) parent).line) }
    ensures scope { OnOk result (scope.new ≡ scope.old) }
    ensures found { OnOk result (found.new ≡ found.old ++ (spec_form_line scope.old form.now (forest_of nodes.now) parent).beneath) }
    ensures faults { OnOk result (faults.new ≡ faults.old ++ (spec_form_line scope.old form.now (forest_of nodes.now) parent).faults) }
{
    match form.get() {
        Form::Specified(specified) => {
            specifying_line(alloc, specified, nodes, scope, parent, found, faults)
        }
        Form::Close => line_of_one(alloc, Items::new(alloc), TypedForm::Close, parent),
        Form::Action(following) => {
            let form = action(alloc, following, scope, faults)?;
            Ok(main_line(alloc, form, parent))
        }
        Form::Construct(following) => construct(alloc, following, scope, parent, faults),
        Form::Part(following) => part(alloc, following, scope, parent, faults),
        Form::Expressions(first, more) => {
            expressions(alloc, form, first, more.as_slice(), scope, parent, faults)
        }
        Form::Tagged(name, first, more) => {
            tagged(alloc, name, first, more.as_slice(), scope, parent, faults)
        }
    }
}

/// A line with these nodes under it, which its parent does not report.
fn line(
    alloc: Global,
    imports: &Imports<'_>,
    body: &ExpandedBody,
    nodes: &[Node],
    scope: &mut Scope,
    parent: Parent,
    found: &mut Items<Diag>,
    faults: &mut Items<Fault>,
) -> Result<Line, AllocError>
    ensures line { IfOk result (λ one. one ≡ (spec_line imports.now scope.old body.now (forest_of nodes.now) parent).line) }
    ensures scope { OnOk result (scope.new ≡ scope.old) }
    ensures found { OnOk result (found.new ≡ found.old ++ (spec_line imports.now scope.old body.now (forest_of nodes.now) parent).beneath) }
    ensures faults { OnOk result (faults.new ≡ faults.old ++ (spec_line imports.now scope.old body.now (forest_of nodes.now) parent).faults) }
{
    match body {
        ExpandedBody::Form(form) => { form_line(alloc, form, nodes, scope, parent, found, faults) }
        ExpandedBody::Uses(units) => {
            let interfaces = interfaces_of(alloc, imports, units.as_slice())?;
            let adds = imported(alloc, interfaces.as_slice())?;
            line_of_one(alloc, adds, TypedForm::Uses(interfaces), parent)
        }
        ExpandedBody::Fault(_) => main(alloc, TypedForm::Unknown, parent),
    }
}

/// Whether lines of which their parent says this are reported with its head.
fn is_reported_with_head(role: &Role) -> bool
    ensures { result ≡ spec_is_reported_with_head role.now }
{
    matches!(role, Role::Members)
}

/// A line that is reported with the head over it.
fn member(alloc: Global, parent: Parent) -> Result<Line, AllocError>
    ensures { IfOk result (λ one. one ≡ (spec_member parent).line) }
{
    let under = with_role(Role::Members, &parent);
    plain(alloc, under, TypedForm::Member, parent)
}

/// What a line with these nodes under it is for the lines round it, with what it reports, and what lines of fields
/// and of tags under it report.
#[tactic(auto, unfolding(crate::specs::Judging::judged))]
pub fn judged(
    alloc: Global,
    imports: &Imports<'_>,
    body: &ExpandedBody,
    nodes: &[Node],
    scope: &mut Scope,
    parent: Parent,
    found: &mut Items<Diag>,
    faults: &mut Items<Fault>,
) -> Result<Line, AllocError>
    ensures line { IfOk result (λ one. one ≡ (spec_judged imports.now scope.old body.now (forest_of nodes.now) parent).line) }
    ensures scope { OnOk result (scope.new ≡ scope.old) }
    ensures found { OnOk result (found.new ≡ found.old ++ (spec_judged imports.now scope.old body.now (forest_of nodes.now) parent).beneath) }
    ensures faults { OnOk result (faults.new ≡ faults.old ++ (spec_judged imports.now scope.old body.now (forest_of nodes.now) parent).faults) }
{
    if is_reported_with_head(&parent.role) {
        return member(alloc, parent);
    }
    line(alloc, imports, body, nodes, scope, parent, found, faults)
}
