//! The lines of fields under the head of a record, one after the other.
#![tactic(auto, using(crate::proofs::Trees::tree_rules))]

ghost use Rattle.occ_tree.specs.Forest.{forest_of};
ghost use Rattle.occ_typing_lines.specs.Records.{body_fields as spec_body_fields, body_packing as spec_body_packing, field_lines as spec_field_lines, form_fields as spec_form_fields, form_packing as spec_form_packing, part_packing as spec_part_packing, record_of as spec_record_of, specification_fields as spec_specification_fields, specified_fields as spec_specified_fields};
ghost use Rattle.std.specs.Prelude.{◌≡◌, ◌++◌, [], IfOk, OnOk};

use super::placing::place;
use occ_base::{Diag, Fault, Items};
use occ_forms::{Form, PartForm, Specification, Specified};
use occ_project::ExpandedBody;
use occ_scope::{Scope, Scopes};
use occ_tree::Node;
use occ_types::{Field, Packing};
use occ_typing_specifications::fields;
use std::alloc::{AllocError, Global};

/// The fields of a specification of one line, if it declares names.
fn specification_fields(
    alloc: Global,
    line: &Specification,
    scope: &Scope,
    before: &mut Scopes,
    found: &mut Items<Field>,
    faults: &mut Items<Fault>,
) -> Result<(), AllocError>
    ensures names { OnOk result (before.new ≡ before.old ++ (spec_specification_fields scope.now before.old line.now).names) }
    ensures fields { OnOk result (found.new ≡ found.old ++ (spec_specification_fields scope.now before.old line.now).fields) }
    ensures faults { OnOk result (faults.new ≡ faults.old ++ (spec_specification_fields scope.now before.old line.now).faults) }
{
    match line {
        Specification::Declaration(of, first, more) => {
            fields(
                alloc,
                of,
                first,
                more.as_slice(),
                before,
                scope,
                found,
                faults,
            )
        }
        Specification::Abbreviation(_, _, _) => Ok(()),
        Specification::Value(_, _, _) => Ok(()),
        Specification::Retyped(_, _, _, _) => Ok(()),
        Specification::RetypedValue(_, _, _, _) => Ok(()),
        Specification::Protocol(_, _, _) => Ok(()),
        Specification::DataType(_, _) => Ok(()),
        Specification::Function(_, _, _) => Ok(()),
    }
}

/// The fields of a specification.
fn specified_fields(
    alloc: Global,
    specified: &Specified,
    scope: &Scope,
    before: &mut Scopes,
    found: &mut Items<Field>,
    faults: &mut Items<Fault>,
) -> Result<(), AllocError>
    ensures names { OnOk result (before.new ≡ before.old ++ (spec_specified_fields scope.now before.old specified.now).names) }
    ensures fields { OnOk result (found.new ≡ found.old ++ (spec_specified_fields scope.now before.old specified.now).fields) }
    ensures faults { OnOk result (faults.new ≡ faults.old ++ (spec_specified_fields scope.now before.old specified.now).faults) }
{
    match specified {
        Specified::Line(line) => specification_fields(alloc, line, scope, before, found, faults),
        Specified::Head(_) => Ok(()),
    }
}

/// The fields of a form.
fn form_fields(
    alloc: Global,
    form: &Form,
    scope: &Scope,
    before: &mut Scopes,
    found: &mut Items<Field>,
    faults: &mut Items<Fault>,
) -> Result<(), AllocError>
    ensures names { OnOk result (before.new ≡ before.old ++ (spec_form_fields scope.now before.old form.now).names) }
    ensures fields { OnOk result (found.new ≡ found.old ++ (spec_form_fields scope.now before.old form.now).fields) }
    ensures faults { OnOk result (faults.new ≡ faults.old ++ (spec_form_fields scope.now before.old form.now).faults) }
{
    match form {
        Form::Specified(specified) => {
            specified_fields(alloc, specified, scope, before, found, faults)
        }
        Form::Close => Ok(()),
        Form::Action(_) => Ok(()),
        Form::Construct(_) => Ok(()),
        Form::Part(_) => Ok(()),
        Form::Expressions(_, _) => Ok(()),
        Form::Tagged(_, _, _) => Ok(()),
    }
}

/// The fields of a line after others of its record, which have the names of `before`.
fn body_fields(
    alloc: Global,
    body: &ExpandedBody,
    scope: &Scope,
    before: &mut Scopes,
    found: &mut Items<Field>,
    faults: &mut Items<Fault>,
) -> Result<(), AllocError>
    ensures names { OnOk result (before.new ≡ before.old ++ (spec_body_fields scope.now before.old body.now).names) }
    ensures fields { OnOk result (found.new ≡ found.old ++ (spec_body_fields scope.now before.old body.now).fields) }
    ensures faults { OnOk result (faults.new ≡ faults.old ++ (spec_body_fields scope.now before.old body.now).faults) }
{
    match body {
        ExpandedBody::Form(form) => form_fields(alloc, form.get(), scope, before, found, faults),
        ExpandedBody::Uses(_) => Ok(()),
        ExpandedBody::Fault(_) => Ok(()),
    }
}

/// The fields of lines after others of their record.
fn fields_after(
    alloc: Global,
    nodes: &[Node],
    scope: &Scope,
    before: &mut Scopes,
    fields: &mut Items<Field>,
    found: &mut Items<Diag>,
) -> Result<(), AllocError>
    ensures fields { OnOk result (fields.new ≡ fields.old ++ (spec_field_lines scope.now before.old (forest_of nodes.now)).fields) }
    ensures found { OnOk result (found.new ≡ found.old ++ (spec_field_lines scope.now before.old (forest_of nodes.now)).diags) }
{
    for node in nodes {
        let mut faults = Items::new(alloc);
        body_fields(alloc, &node.line.body, scope, before, fields, &mut faults)?;
        place(alloc, &node.line, faults.as_slice(), found)?;
    }
    Ok(())
}

/// The fields of the lines of a record.
fn field_lines(
    alloc: Global,
    nodes: &[Node],
    scope: &Scope,
    found: &mut Items<Diag>,
) -> Result<Items<Field>, AllocError>
    ensures fields { IfOk result (λ fields. fields ≡ (spec_field_lines scope.now [] (forest_of nodes.now)).fields) }
    ensures found { OnOk result (found.new ≡ found.old ++ (spec_field_lines scope.now [] (forest_of nodes.now)).diags) }
{
    let mut before = Scopes::new(alloc);
    let mut fields = Items::new(alloc);
    fields_after(alloc, nodes, scope, &mut before, &mut fields, found)?;
    Ok(fields)
}

/// Whether `PACKED` stands before the word of a record.
fn part_packing(part: &PartForm) -> Packing
    ensures { result ≡ spec_part_packing part.now }
{
    match part {
        PartForm::PackedRecord => Packing::Packed,
        PartForm::Case => Packing::Plain,
        PartForm::Else => Packing::Plain,
        PartForm::ValueOf => Packing::Plain,
        PartForm::Result(_, _) => Packing::Plain,
        PartForm::Record => Packing::Plain,
        PartForm::Guard(_, _) => Packing::Plain,
    }
}

/// Whether a form is that of a packed record.
fn form_packing(form: &Form) -> Packing
    ensures { result ≡ spec_form_packing form.now }
{
    match form {
        Form::Part(part) => part_packing(part),
        Form::Specified(_) => Packing::Plain,
        Form::Close => Packing::Plain,
        Form::Action(_) => Packing::Plain,
        Form::Construct(_) => Packing::Plain,
        Form::Expressions(_, _) => Packing::Plain,
        Form::Tagged(_, _, _) => Packing::Plain,
    }
}

/// Whether a line begins a packed record.
fn body_packing(body: &ExpandedBody) -> Packing
    ensures { result ≡ spec_body_packing body.now }
{
    match body {
        ExpandedBody::Form(form) => form_packing(form.get()),
        ExpandedBody::Uses(_) => Packing::Plain,
        ExpandedBody::Fault(_) => Packing::Plain,
    }
}

/// Of the lines under the head of a record: its packing and its fields, with what their lines report.
pub fn record_of(
    alloc: Global,
    nodes: &[Node],
    scope: &Scope,
    found: &mut Items<Diag>,
) -> Result<(Packing, Items<Field>), AllocError>
    ensures packing { IfOk result (λ r. r.0 ≡ (spec_record_of scope.now (forest_of nodes.now)).packing) }
    ensures fields { IfOk result (λ r. r.1 ≡ (spec_record_of scope.now (forest_of nodes.now)).fields.fields) }
    ensures found { OnOk result (found.new ≡ found.old ++ (spec_record_of scope.now (forest_of nodes.now)).fields.diags) }
{
    let Some((first, _)) = nodes.split_first() else {
        return Ok((Packing::Plain, Items::new(alloc)));
    };
    let fields = field_lines(alloc, first.children.as_slice(), scope, found)?;
    Ok((body_packing(&first.line.body), fields))
}
