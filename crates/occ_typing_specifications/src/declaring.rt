//! Declarations `t n, ..:`. `docs/LANGUAGE.md, Lines of specification`.
ghost use Rattle.std.specs.Prelude.{◌≡◌, ◌∷◌, ◌++◌, [], IfOk, OnOk};
ghost use Rattle.occ_typing_specifications.specs.Declaring.{declaration as spec_declaration, declared_type as spec_declared_type, variable as spec_variable, variables as spec_variables};
ghost use Rattle.occ_typing_specifications.specs.Entering.{unless_reported as spec_unless_reported};
ghost use Rattle.occ_typing_rules.specs.Listing.{repetitions};

use super::reported::unless_reported;
use occ_base::{Fault, Items, Name, Shared};
use occ_expr::type_form;
use occ_expr_operations::Opening;
use occ_forms_expressions::TypeForm;
use occ_scope::{Access, Meaning, Scope, ScopeEntry, Scopes, Whole};
use occ_types::{MaybeValue, OccType};
use occ_typing_rules::repeated;
use std::alloc::{AllocError, Global};

/// A variable of this type, if it is known.
fn variable(alloc: Global, of: &Option<Shared<OccType>>, name: &Name) -> Result<Meaning, AllocError>
    ensures { IfOk result (λ meaning. meaning ≡ spec_variable of.now name.now) }
{
    match of {
        None => Ok(Meaning::Faulty),
        Some(of) => Ok(Meaning::Element(Whole {
            of: of.share()?,
            access: Access::Variable,
            value: MaybeValue::none(),
            root: name.copied(alloc)?,
        })),
    }
}

/// A further variable of this type.
fn push_variable(
    alloc: Global,
    of: &Option<Shared<OccType>>,
    name: &Name,
    entries: &mut Items<ScopeEntry>,
) -> Result<(), AllocError>
    ensures { OnOk result (entries.new ≡ entries.old ++ spec_variables of.now (name.now ∷ [])) }
{
    let meaning = Shared::new(alloc, variable(alloc, of, name)?)?;
    let name = name.copied(alloc)?;
    entries.push(ScopeEntry { name, meaning })
}

/// Further variables of this type.
fn push_variables(
    alloc: Global,
    of: &Option<Shared<OccType>>,
    names: &[Name],
    entries: &mut Items<ScopeEntry>,
) -> Result<(), AllocError>
    ensures { OnOk result (entries.new ≡ entries.old ++ spec_variables of.now names.now) }
{
    for name in names {
        push_variable(alloc, of, name, entries)?;
    }
    Ok(())
}

/// Variables of this type.
fn variables(
    alloc: Global,
    of: &Option<Shared<OccType>>,
    first: &Name,
    more: &[Name],
) -> Result<Items<ScopeEntry>, AllocError>
    ensures { IfOk result (λ entries. entries ≡ spec_variables of.now (first.now ∷ more.now)) }
{
    let room = more.len().saturating_add(1);
    let mut entries = Items::from_vec(Vec::with_capacity(alloc, room)?);
    push_variable(alloc, of, first, &mut entries)?;
    push_variables(alloc, of, more, &mut entries)?;
    Ok(entries)
}

/// T8 is reported of each name of a line that stood before in it.
fn repeated_after(
    alloc: Global,
    first: &Name,
    more: &[Name],
    faults: &mut Items<Fault>,
) -> Result<(), AllocError>
    ensures { OnOk result (faults.new ≡ faults.old ++ repetitions (first.now ∷ []) more.now) }
{
    let mut before = Scopes::new(alloc);
    before.enter(alloc, first)?;
    repeated(alloc, more, &mut before, faults)
}

/// The type of a declaration, with all that the line reports.
#[tactic(auto, unfolding(crate::specs::Declaring::declared_type))]
fn declared_type(
    alloc: Global,
    of: &TypeForm,
    first: &Name,
    more: &[Name],
    scope: &Scope,
    faults: &mut Items<Fault>,
) -> Result<Option<Shared<OccType>>, AllocError>
    ensures found { IfOk result (λ found. found ≡ (spec_declared_type scope.now of.now first.now more.now).found) }
    ensures faults { OnOk result (faults.new ≡ faults.old ++ (spec_declared_type scope.now of.now first.now more.now).faults) }
{
    let found = type_form(alloc, of, Opening::Refused, scope, faults)?;
    repeated_after(alloc, first, more, faults)?;
    Ok(found)
}

/// The type of the names of a declaration, if the line reports nothing.
fn names_type(
    alloc: Global,
    of: &TypeForm,
    first: &Name,
    more: &[Name],
    scope: &Scope,
    faults: &mut Items<Fault>,
) -> Result<Option<Shared<OccType>>, AllocError>
    ensures found { IfOk result (λ found. found ≡ spec_unless_reported (spec_declared_type scope.now of.now first.now more.now).faults (spec_declared_type scope.now of.now first.now more.now).found) }
    ensures faults { OnOk result (faults.new ≡ faults.old ++ (spec_declared_type scope.now of.now first.now more.now).faults) }
{
    let mut reported = Items::new(alloc);
    let found = declared_type(alloc, of, first, more, scope, &mut reported)?;
    let found = unless_reported(&reported, found);
    faults.append(reported)?;
    Ok(found)
}

/// `t n, ..:`
#[tactic(auto, unfolding(crate::specs::Declaring::declaration))]
pub fn declaration(
    alloc: Global,
    of: &TypeForm,
    first: &Name,
    more: &[Name],
    scope: &Scope,
    faults: &mut Items<Fault>,
) -> Result<Items<ScopeEntry>, AllocError>
    ensures adds { IfOk result (λ adds. adds ≡ (spec_declaration scope.now of.now first.now more.now).adds) }
    ensures faults { OnOk result (faults.new ≡ faults.old ++ (spec_declaration scope.now of.now first.now more.now).faults) }
{
    let found = names_type(alloc, of, first, more, scope, faults)?;
    variables(alloc, &found, first, more)
}
