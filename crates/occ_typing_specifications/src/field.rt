//! Lines of fields in a record, and T8 for names that are repeated.
ghost use Rattle.std.specs.Prelude.{◌≡◌, ◌∷◌, ◌++◌, [], IfOk, OnOk};
ghost use Rattle.occ_typing_specifications.specs.Entering.{unless_reported as spec_unless_reported};
ghost use Rattle.occ_typing_specifications.specs.Fields.{each_of as spec_each_of, field_type as spec_field_type, fields as spec_fields, line_type as spec_line_type};
ghost use Rattle.occ_typing_rules.specs.Listing.{repetitions};

use super::defining::data_form_type;
use super::reported::unless_reported;
use occ_base::{Fault, Items, Name, Shared};
use occ_forms_expressions::TypeForm;
use occ_scope::{Scope, Scopes};
use occ_types::{Field, OccType, PartName};
use occ_typing_rules::repeated;
use std::alloc::{AllocError, Global};
use std::slice;

/// T8 is reported of each name of a line, or of a group of formals, that stood before in the list, and the line's names are
/// added to those.
pub fn repeated_all(
    alloc: Global,
    first: &Name,
    more: &[Name],
    before: &mut Scopes,
    faults: &mut Items<Fault>,
) -> Result<(), AllocError>
    ensures names { OnOk result (before.new ≡ before.old ++ first.now ∷ more.now) }
    ensures faults { OnOk result (faults.new ≡ faults.old ++ repetitions before.old (first.now ∷ more.now)) }
{
    repeated(alloc, slice::from_ref(first), before, faults)?;
    repeated(alloc, more, before, faults)
}

/// The type of a line of fields, with all that the line reports.
#[tactic(auto, unfolding(crate::specs::Fields::line_type))]
fn line_type(
    alloc: Global,
    form: &TypeForm,
    first: &Name,
    more: &[Name],
    before: &mut Scopes,
    scope: &Scope,
    faults: &mut Items<Fault>,
) -> Result<Option<Shared<OccType>>, AllocError>
    ensures names { OnOk result (before.new ≡ before.old ++ first.now ∷ more.now) }
    ensures found { IfOk result (λ found. found ≡ (spec_line_type scope.now before.old form.now (first.now ∷ more.now)).found) }
    ensures faults { OnOk result (faults.new ≡ faults.old ++ (spec_line_type scope.now before.old form.now (first.now ∷ more.now)).faults) }
{
    let found = data_form_type(alloc, form, scope, faults)?;
    repeated_all(alloc, first, more, before, faults)?;
    Ok(found)
}

/// The type of the fields of a line, if the line reports nothing.
fn fields_type(
    alloc: Global,
    form: &TypeForm,
    first: &Name,
    more: &[Name],
    before: &mut Scopes,
    scope: &Scope,
    faults: &mut Items<Fault>,
) -> Result<Option<Shared<OccType>>, AllocError>
    ensures names { OnOk result (before.new ≡ before.old ++ first.now ∷ more.now) }
    ensures found { IfOk result (λ found. found ≡ spec_unless_reported (spec_line_type scope.now before.old form.now (first.now ∷ more.now)).faults (spec_line_type scope.now before.old form.now (first.now ∷ more.now)).found) }
    ensures faults { OnOk result (faults.new ≡ faults.old ++ (spec_line_type scope.now before.old form.now (first.now ∷ more.now)).faults) }
{
    let mut reported = Items::new(alloc);
    let found = line_type(alloc, form, first, more, before, scope, &mut reported)?;
    let found = unless_reported(&reported, found);
    faults.append(reported)?;
    Ok(found)
}

/// The type of a field, of which nothing is known where its line has a fault.
fn field_type(alloc: Global, of: Option<Shared<OccType>>) -> Result<Shared<OccType>, AllocError>
    ensures { IfOk result (λ found. found ≡ spec_field_type of) }
{
    match of {
        None => Shared::new(alloc, OccType::Unknown),
        Some(of) => Ok(of),
    }
}

/// A field of this type.
fn push_field(
    alloc: Global,
    of: &Shared<OccType>,
    name: &Name,
    fields: &mut Items<Field>,
) -> Result<(), AllocError>
    ensures { OnOk result (fields.new ≡ fields.old ++ spec_each_of of.now (name.now ∷ [])) }
{
    let name = PartName::new(name.copied(alloc)?);
    let of = of.share()?;
    fields.push(Field { name, of })
}

/// Further fields of this type.
fn push_fields(
    alloc: Global,
    of: &Shared<OccType>,
    names: &[Name],
    fields: &mut Items<Field>,
) -> Result<(), AllocError>
    ensures { OnOk result (fields.new ≡ fields.old ++ spec_each_of of.now names.now) }
{
    for name in names {
        push_field(alloc, of, name, fields)?;
    }
    Ok(())
}

/// `t n, ..:` in a record, of whose lines before `before` has the names: its fields are added to `fields`, and its names
/// to those.
#[tactic(auto, unfolding(crate::specs::Fields::fields))]
pub fn fields(
    alloc: Global,
    form: &TypeForm,
    first: &Name,
    more: &[Name],
    before: &mut Scopes,
    scope: &Scope,
    fields: &mut Items<Field>,
    faults: &mut Items<Fault>,
) -> Result<(), AllocError>
    ensures names { OnOk result (before.new ≡ before.old ++ first.now ∷ more.now) }
    ensures fields { OnOk result (fields.new ≡ fields.old ++ (spec_fields scope.now before.old form.now (first.now ∷ more.now)).fields) }
    ensures faults { OnOk result (faults.new ≡ faults.old ++ (spec_fields scope.now before.old form.now (first.now ∷ more.now)).faults) }
{
    let found = fields_type(alloc, form, first, more, before, scope, faults)?;
    let of = field_type(alloc, found)?;
    push_field(alloc, &of, first, fields)?;
    push_fields(alloc, &of, more, fields)
}
