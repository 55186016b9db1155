//! The lines of tags under the head of a protocol, one after the other.
#![tactic(auto, using(crate::proofs::Trees::tree_rules))]

ghost use Rattle.occ_expr_operations.specs.Views.{expr_view};
ghost use Rattle.occ_tree.specs.Forest.{forest_of};
ghost use Rattle.occ_typing_lines.specs.Protocols.{body_tag as spec_body_tag, form_tag as spec_form_tag, protocol_of as spec_protocol_of, tag_found as spec_tag_found, tag_lines as spec_tag_lines, tag_named as spec_tag_named};
ghost use Rattle.std.specs.Prelude.{◌≡◌, ◌++◌, [], IfOk, OnOk};

use super::placing::place;
use occ_base::{Diag, Fault, Items, Name};
use occ_expr_operations::name_alone;
use occ_forms::{Detail, Form};
use occ_forms_expressions::Expr;
use occ_project::ExpandedBody;
use occ_scope::{Scope, Scopes};
use occ_tree::Node;
use occ_types::Tag;
use occ_typing_specifications::tag;
use std::alloc::{AllocError, Global};
use std::slice;

/// The tag of a line, after others of its protocol.
fn push_tag(
    alloc: Global,
    name: &Name,
    first: &[Detail],
    more: &[Detail],
    scope: &Scope,
    before: &mut Scopes,
    tags: &mut Items<Tag>,
    faults: &mut Items<Fault>,
) -> Result<(), AllocError>
    ensures names { OnOk result (before.new ≡ before.old ++ (spec_tag_found scope.now before.old name.now (first.now ++ more.now)).names) }
    ensures tags { OnOk result (tags.new ≡ tags.old ++ (spec_tag_found scope.now before.old name.now (first.now ++ more.now)).tags) }
    ensures faults { OnOk result (faults.new ≡ faults.old ++ (spec_tag_found scope.now before.old name.now (first.now ++ more.now)).faults) }
{
    let tag = tag(alloc, name, first, more, before, scope, faults)?;
    tags.push(tag)
}

/// The tag of a line that is a name alone.
fn push_named(
    alloc: Global,
    expr: &Expr,
    scope: &Scope,
    before: &mut Scopes,
    tags: &mut Items<Tag>,
    faults: &mut Items<Fault>,
) -> Result<(), AllocError>
    ensures names { OnOk result (before.new ≡ before.old ++ (spec_tag_named scope.now before.old (expr_view expr.now).name).names) }
    ensures tags { OnOk result (tags.new ≡ tags.old ++ (spec_tag_named scope.now before.old (expr_view expr.now).name).tags) }
    ensures faults { OnOk result (faults.new ≡ faults.old ++ (spec_tag_named scope.now before.old (expr_view expr.now).name).faults) }
{
    match name_alone(expr) {
        Some(name) => push_tag(alloc, name, &[], &[], scope, before, tags, faults),
        None => Ok(()),
    }
}

/// The tag of a form, if it is the form of one.
fn form_tag(
    alloc: Global,
    form: &Form,
    scope: &Scope,
    before: &mut Scopes,
    tags: &mut Items<Tag>,
    faults: &mut Items<Fault>,
) -> Result<(), AllocError>
    ensures names { OnOk result (before.new ≡ before.old ++ (spec_form_tag scope.now before.old form.now).names) }
    ensures tags { OnOk result (tags.new ≡ tags.old ++ (spec_form_tag scope.now before.old form.now).tags) }
    ensures faults { OnOk result (faults.new ≡ faults.old ++ (spec_form_tag scope.now before.old form.now).faults) }
{
    match form {
        Form::Expressions(first, _) => push_named(alloc, first, scope, before, tags, faults),
        Form::Tagged(name, first, more) => {
            let first = slice::from_ref(first);
            push_tag(
                alloc,
                name,
                first,
                more.as_slice(),
                scope,
                before,
                tags,
                faults,
            )
        }
        Form::Specified(_) => Ok(()),
        Form::Close => Ok(()),
        Form::Action(_) => Ok(()),
        Form::Construct(_) => Ok(()),
        Form::Part(_) => Ok(()),
    }
}

/// The tag of a line after others of its protocol, which have the names of `before`.
fn body_tag(
    alloc: Global,
    body: &ExpandedBody,
    scope: &Scope,
    before: &mut Scopes,
    tags: &mut Items<Tag>,
    faults: &mut Items<Fault>,
) -> Result<(), AllocError>
    ensures names { OnOk result (before.new ≡ before.old ++ (spec_body_tag scope.now before.old body.now).names) }
    ensures tags { OnOk result (tags.new ≡ tags.old ++ (spec_body_tag scope.now before.old body.now).tags) }
    ensures faults { OnOk result (faults.new ≡ faults.old ++ (spec_body_tag scope.now before.old body.now).faults) }
{
    match body {
        ExpandedBody::Form(form) => form_tag(alloc, form.get(), scope, before, tags, faults),
        ExpandedBody::Uses(_) => Ok(()),
        ExpandedBody::Fault(_) => Ok(()),
    }
}

/// The tags of lines after others of their protocol.
fn tags_after(
    alloc: Global,
    nodes: &[Node],
    scope: &Scope,
    before: &mut Scopes,
    tags: &mut Items<Tag>,
    found: &mut Items<Diag>,
) -> Result<(), AllocError>
    ensures tags { OnOk result (tags.new ≡ tags.old ++ (spec_tag_lines scope.now before.old (forest_of nodes.now)).tags) }
    ensures found { OnOk result (found.new ≡ found.old ++ (spec_tag_lines scope.now before.old (forest_of nodes.now)).diags) }
{
    for node in nodes {
        let mut faults = Items::new(alloc);
        body_tag(alloc, &node.line.body, scope, before, tags, &mut faults)?;
        place(alloc, &node.line, faults.as_slice(), found)?;
    }
    Ok(())
}

/// The tags of the lines of a protocol.
fn tag_lines(
    alloc: Global,
    nodes: &[Node],
    scope: &Scope,
    found: &mut Items<Diag>,
) -> Result<Items<Tag>, AllocError>
    ensures tags { IfOk result (λ tags. tags ≡ (spec_tag_lines scope.now [] (forest_of nodes.now)).tags) }
    ensures found { OnOk result (found.new ≡ found.old ++ (spec_tag_lines scope.now [] (forest_of nodes.now)).diags) }
{
    let mut before = Scopes::new(alloc);
    let mut tags = Items::new(alloc);
    tags_after(alloc, nodes, scope, &mut before, &mut tags, found)?;
    Ok(tags)
}

/// Of the lines under the head of a protocol: its tags, with what their lines report.
pub fn protocol_of(
    alloc: Global,
    nodes: &[Node],
    scope: &Scope,
    found: &mut Items<Diag>,
) -> Result<Items<Tag>, AllocError>
    ensures tags { IfOk result (λ tags. tags ≡ (spec_protocol_of scope.now (forest_of nodes.now)).tags) }
    ensures found { OnOk result (found.new ≡ found.old ++ (spec_protocol_of scope.now (forest_of nodes.now)).diags) }
{
    let Some((first, _)) = nodes.split_first() else {
        return Ok(Items::new(alloc));
    };
    tag_lines(alloc, first.children.as_slice(), scope, found)
}
