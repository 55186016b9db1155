//! The types of the results of a function, each of data (T2) and without `[]` (T5).
ghost use Rattle.std.specs.Prelude.{◌≡◌, ◌∷◌, ◌++◌, [], IfOk, OnOk};
ghost use Rattle.occ_typing_specifications.specs.Knowing.{all_found as spec_all_found, is_known as spec_is_known, known_type as spec_known_type, known_types as spec_known_types, unless_reported as spec_unless_reported};
ghost use Rattle.occ_typing_specifications.specs.Results.{results as spec_results};

use super::defining::data_form_type;
use occ_base::{Fault, Items, Shared};
use occ_forms_expressions::TypeForm;
use occ_scope::Scope;
use occ_types::OccType;
use std::alloc::{AllocError, Global};

/// Whether a type is known.
pub fn is_known(of: &Option<Shared<OccType>>) -> bool
    ensures { result ≡ spec_is_known of.now }
{
    match of {
        None => false,
        Some(_) => true,
    }
}

/// Whether each type is known.
pub fn all_found(types: &[Option<Shared<OccType>>]) -> bool
    ensures { result ≡ spec_all_found types.now }
{
    for of in types {
        if !is_known(of) {
            return false;
        }
    }
    true
}

/// One type more, if it is known.
fn push_known(
    of: &Option<Shared<OccType>>,
    types: &mut Items<Shared<OccType>>,
) -> Result<(), AllocError>
    ensures { OnOk result (types.new ≡ types.old ++ spec_known_type of.now) }
{
    match of {
        None => Ok(()),
        Some(of) => {
            let of = of.share()?;
            types.push(of)
        }
    }
}

/// Those of the types that are known.
pub fn known_types(
    alloc: Global,
    types: &[Option<Shared<OccType>>],
) -> Result<Items<Shared<OccType>>, AllocError>
    ensures { IfOk result (λ known. known ≡ spec_known_types types.now) }
{
    let mut known = Items::new(alloc);
    for of in types {
        push_known(of, &mut known)?;
    }
    Ok(known)
}

/// Whether all is known, if nothing was reported.
pub fn unless_reported(reported: &Items<Fault>, known: bool) -> bool
    ensures { result ≡ spec_unless_reported reported.now known }
{
    if reported.is_empty() { known } else { false }
}

/// The type of a result.
fn push_result(
    alloc: Global,
    form: &TypeForm,
    scope: &Scope,
    types: &mut Items<Option<Shared<OccType>>>,
    faults: &mut Items<Fault>,
) -> Result<(), AllocError>
    ensures types { OnOk result (types.new ≡ types.old ++ (spec_results scope.now (form.now ∷ [])).types) }
    ensures faults { OnOk result (faults.new ≡ faults.old ++ (spec_results scope.now (form.now ∷ [])).faults) }
{
    let of = data_form_type(alloc, form, scope, faults)?;
    types.push(of)
}

/// The types of further results.
fn push_results(
    alloc: Global,
    forms: &[TypeForm],
    scope: &Scope,
    types: &mut Items<Option<Shared<OccType>>>,
    faults: &mut Items<Fault>,
) -> Result<(), AllocError>
    ensures types { OnOk result (types.new ≡ types.old ++ (spec_results scope.now forms.now).types) }
    ensures faults { OnOk result (faults.new ≡ faults.old ++ (spec_results scope.now forms.now).faults) }
{
    for form in forms {
        push_result(alloc, form, scope, types, faults)?;
    }
    Ok(())
}

/// The types of the results of a function, each a type of data.
pub fn result_types(
    alloc: Global,
    first: &TypeForm,
    more: &[TypeForm],
    scope: &Scope,
    faults: &mut Items<Fault>,
) -> Result<Items<Option<Shared<OccType>>>, AllocError>
    ensures types { IfOk result (λ types. types ≡ (spec_results scope.now (first.now ∷ more.now)).types) }
    ensures faults { OnOk result (faults.new ≡ faults.old ++ (spec_results scope.now (first.now ∷ more.now)).faults) }
{
    let mut types = Items::new(alloc);
    push_result(alloc, first, scope, &mut types, faults)?;
    push_results(alloc, more, scope, &mut types, faults)?;
    Ok(types)
}
