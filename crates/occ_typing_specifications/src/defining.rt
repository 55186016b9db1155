//! Data types of one line, `DATA TYPE n IS t:`, and types that have to be data.
ghost use Rattle.std.specs.Prelude.{◌≡◌, ◌++◌, IfOk, OnOk};
ghost use Rattle.occ_typing_specifications.specs.Defining.{data_form_type as spec_data_form_type, data_of as spec_data_of, data_type as spec_data_type, defined as spec_defined, with_name as spec_with_name};
ghost use Rattle.occ_typing_specifications.specs.Entering.{unless_reported as spec_unless_reported};

use occ_base::{Fault, Items, Name, Shared};
use occ_expr::{known_type_form, type_form};
use occ_expr_operations::{Opening, limited};
use occ_forms_expressions::TypeForm;
use occ_scope::{Meaning, Scope, ScopeEntry, one_entry};
use occ_types::{KnownType, OccType};
use occ_typing_rules::of_data;
use std::alloc::{AllocError, Global};

/// A type, if it is one of data: else T2 is reported.
#[tactic(auto, unfolding(crate::specs::Defining::data_of))]
pub fn data_of(
    of: Option<Shared<OccType>>,
    faults: &mut Items<Fault>,
) -> Result<Option<Shared<OccType>>, AllocError>
    ensures found { IfOk result (λ found. found ≡ (spec_data_of of).found) }
    ensures faults { OnOk result (faults.new ≡ faults.old ++ (spec_data_of of).faults) }
{
    match of {
        None => Ok(None),
        Some(of) => of_data(of, faults),
    }
}

/// A type as a line writes it, where it has to be one of data.
#[tactic(auto, unfolding(crate::specs::Defining::data_form_type))]
pub fn data_form_type(
    alloc: Global,
    form: &TypeForm,
    scope: &Scope,
    faults: &mut Items<Fault>,
) -> Result<Option<Shared<OccType>>, AllocError>
    ensures found { IfOk result (λ found. found ≡ (spec_data_form_type scope.now form.now).found) }
    ensures faults { OnOk result (faults.new ≡ faults.old ++ (spec_data_form_type scope.now form.now).faults) }
{
    let of = type_form(alloc, form, Opening::Refused, scope, faults)?;
    data_of(of, faults)
}

/// A type with what is asked of its size, if it is one of data, as for `data_of`.
#[tactic(auto, unfolding(crate::specs::Defining::data_of))]
fn known_data_of(
    of: Option<KnownType>,
    faults: &mut Items<Fault>,
) -> Result<Option<KnownType>, AllocError>
    ensures found { IfOk result (λ found. found ≡ (spec_data_of of).found) }
    ensures faults { OnOk result (faults.new ≡ faults.old ++ (spec_data_of of).faults) }
{
    let Some(of) = of else {
        return Ok(None);
    };
    match of_data(of.of().share()?, faults)? {
        Some(_) => Ok(Some(of)),
        None => Ok(None),
    }
}

/// A type with this name, if it is then not too large.
#[tactic(auto, unfolding(crate::specs::Defining::with_name))]
pub fn with_name(
    alloc: Global,
    name: &Name,
    of: Option<KnownType>,
    faults: &mut Items<Fault>,
) -> Result<Option<KnownType>, AllocError>
    ensures found { IfOk result (λ found. found ≡ (spec_with_name name.now of).found) }
    ensures faults { OnOk result (faults.new ≡ faults.old ++ (spec_with_name name.now of).faults) }
{
    let Some(of) = of else {
        return Ok(None);
    };
    let named = of.named(alloc, name.copied(alloc)?)?;
    limited(Some(named), faults)
}

/// A type as a line writes it, with what is asked of its size, where it has to be one of data.
#[tactic(auto, unfolding(crate::specs::Defining::data_form_type))]
fn known_data_form_type(
    alloc: Global,
    form: &TypeForm,
    scope: &Scope,
    faults: &mut Items<Fault>,
) -> Result<Option<KnownType>, AllocError>
    ensures found { IfOk result (λ found. found ≡ (spec_data_form_type scope.now form.now).found) }
    ensures faults { OnOk result (faults.new ≡ faults.old ++ (spec_data_form_type scope.now form.now).faults) }
{
    let of = known_type_form(alloc, form, Opening::Refused, scope, faults)?;
    known_data_of(of, faults)
}

/// The type that a line defines, with all that the line reports.
#[tactic(auto, unfolding(crate::specs::Defining::defined))]
fn defined(
    alloc: Global,
    name: &Name,
    form: &TypeForm,
    scope: &Scope,
    faults: &mut Items<Fault>,
) -> Result<Option<KnownType>, AllocError>
    ensures found { IfOk result (λ found. found ≡ (spec_defined scope.now name.now form.now).found) }
    ensures faults { OnOk result (faults.new ≡ faults.old ++ (spec_defined scope.now name.now form.now).faults) }
{
    let of = known_data_form_type(alloc, form, scope, faults)?;
    with_name(alloc, name, of, faults)
}

/// The type that a line defines, if the line reports nothing.
fn type_of_name(
    alloc: Global,
    name: &Name,
    form: &TypeForm,
    scope: &Scope,
    faults: &mut Items<Fault>,
) -> Result<Option<KnownType>, AllocError>
    ensures found { IfOk result (λ found. found ≡ spec_unless_reported (spec_defined scope.now name.now form.now).faults (spec_defined scope.now name.now form.now).found) }
    ensures faults { OnOk result (faults.new ≡ faults.old ++ (spec_defined scope.now name.now form.now).faults) }
{
    let mut reported = Items::new(alloc);
    let found = defined(alloc, name, form, scope, &mut reported)?;
    let found = if reported.is_empty() { found } else { None };
    faults.append(reported)?;
    Ok(found)
}

/// `DATA TYPE n IS t:`
#[tactic(auto, unfolding(crate::specs::Defining::data_type))]
pub fn data_type(
    alloc: Global,
    name: &Name,
    form: &TypeForm,
    scope: &Scope,
    faults: &mut Items<Fault>,
) -> Result<Items<ScopeEntry>, AllocError>
    ensures adds { IfOk result (λ adds. adds ≡ (spec_data_type scope.now name.now form.now).adds) }
    ensures faults { OnOk result (faults.new ≡ faults.old ++ (spec_data_type scope.now name.now form.now).faults) }
{
    let of = type_of_name(alloc, name, form, scope, faults)?;
    one_entry(alloc, name, Meaning::Type(of))
}
