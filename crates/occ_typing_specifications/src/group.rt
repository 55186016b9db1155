//! Groups of formals, `VAL t n, ..` or `t n, ..`, as one list of names (T8).
ghost use Rattle.std.specs.Prelude.{◌≡◌, ◌∷◌, ◌++◌, [], IfOk, OnOk};
ghost use Rattle.occ_typing_specifications.specs.Formals.{each_of as spec_each_of};
ghost use Rattle.occ_typing_specifications.specs.Groups.{group as spec_group, groups as spec_groups, names_of, plain_type as spec_plain_type, value_type as spec_value_type, values};
ghost use Rattle.occ_typing_rules.specs.Listing.{repetitions};
ghost use Rattle.occ_forms.specs.declared.specification_tree.FormalGroup.TheVariants as g;

use super::field::repeated_all;
use super::formal::{HeadFormal, push_formal, push_formals};
use occ_base::{Fault, Items, Name, Shared};
use occ_expr::{data_form, type_form};
use occ_expr_operations::Opening;
use occ_forms::{FormalGroup, ValueGroup};
use occ_forms_expressions::TypeForm;
use occ_scope::{Scope, Scopes};
use occ_types::{OccType, Passing};
use std::alloc::{AllocError, Global};

/// The type of values.
#[tactic(auto, unfolding(crate::specs::Groups::value_type))]
fn value_type(
    alloc: Global,
    group: &ValueGroup,
    scope: &Scope,
    faults: &mut Items<Fault>,
) -> Result<Option<Shared<OccType>>, AllocError>
    ensures found { IfOk result (λ found. found ≡ (spec_value_type scope.now group.now).found) }
    ensures faults { OnOk result (faults.new ≡ faults.old ++ (spec_value_type scope.now group.now).faults) }
{
    data_form(
        alloc,
        group.form.dimensions.as_slice(),
        &group.form.base,
        Opening::Allowed,
        scope,
        faults,
    )
}

/// The type of formals that are no values.
#[tactic(auto, unfolding(crate::specs::Groups::plain_type))]
fn plain_type(
    alloc: Global,
    of: &TypeForm,
    scope: &Scope,
    faults: &mut Items<Fault>,
) -> Result<Option<Shared<OccType>>, AllocError>
    ensures found { IfOk result (λ found. found ≡ (spec_plain_type scope.now of.now).found) }
    ensures faults { OnOk result (faults.new ≡ faults.old ++ (spec_plain_type scope.now of.now).faults) }
{
    type_form(alloc, of, Opening::Allowed, scope, faults)
}

/// Formals of one type, after those of these names.
fn named(
    alloc: Global,
    of: Option<Shared<OccType>>,
    passing: Passing,
    first: &Name,
    more: &[Name],
    before: &mut Scopes,
    formals: &mut Items<HeadFormal>,
    faults: &mut Items<Fault>,
) -> Result<(), AllocError>
    ensures names { OnOk result (before.new ≡ before.old ++ first.now ∷ more.now) }
    ensures formals { OnOk result (formals.new ≡ formals.old ++ spec_each_of of passing (first.now ∷ more.now)) }
    ensures faults { OnOk result (faults.new ≡ faults.old ++ repetitions before.old (first.now ∷ more.now)) }
{
    repeated_all(alloc, first, more, before, faults)?;
    push_formal(alloc, &of, passing, first, formals)?;
    push_formals(alloc, &of, passing, more, formals)
}

/// Formals that are values.
#[tactic(auto, unfolding(crate::specs::Groups::group))]
fn value_group(
    alloc: Global,
    group: &ValueGroup,
    before: &mut Scopes,
    scope: &Scope,
    formals: &mut Items<HeadFormal>,
    faults: &mut Items<Fault>,
) -> Result<(), AllocError>
    ensures names { OnOk result (before.new ≡ before.old ++ names_of (g.Value group.now)) }
    ensures formals { OnOk result (formals.new ≡ formals.old ++ (spec_group scope.now before.old (g.Value group.now)).formals) }
    ensures faults { OnOk result (faults.new ≡ faults.old ++ (spec_group scope.now before.old (g.Value group.now)).faults) }
{
    let of = value_type(alloc, group, scope, faults)?;
    let more = group.more.as_slice();
    named(
        alloc,
        of,
        Passing::Value,
        &group.first,
        more,
        before,
        formals,
        faults,
    )
}

/// Formals that are no values.
#[tactic(auto, unfolding(crate::specs::Groups::group))]
fn plain_group(
    alloc: Global,
    of: &TypeForm,
    first: &Name,
    more: &[Name],
    before: &mut Scopes,
    scope: &Scope,
    formals: &mut Items<HeadFormal>,
    faults: &mut Items<Fault>,
) -> Result<(), AllocError>
    ensures names { OnOk result (before.new ≡ before.old ++ names_of (g.Plain of.now first.now more.now)) }
    ensures formals { OnOk result (formals.new ≡ formals.old ++ (spec_group scope.now before.old (g.Plain of.now first.now more.now)).formals) }
    ensures faults { OnOk result (faults.new ≡ faults.old ++ (spec_group scope.now before.old (g.Plain of.now first.now more.now)).faults) }
{
    let of = plain_type(alloc, of, scope, faults)?;
    named(
        alloc,
        of,
        Passing::Reference,
        first,
        more,
        before,
        formals,
        faults,
    )
}

/// A group of formals.
fn group(
    alloc: Global,
    group: &FormalGroup,
    before: &mut Scopes,
    scope: &Scope,
    formals: &mut Items<HeadFormal>,
    faults: &mut Items<Fault>,
) -> Result<(), AllocError>
    ensures names { OnOk result (before.new ≡ before.old ++ names_of group.now) }
    ensures formals { OnOk result (formals.new ≡ formals.old ++ (spec_group scope.now before.old group.now).formals) }
    ensures faults { OnOk result (faults.new ≡ faults.old ++ (spec_group scope.now before.old group.now).faults) }
{
    match group {
        FormalGroup::Value(group) => value_group(alloc, group, before, scope, formals, faults),
        FormalGroup::Plain(of, first, more) => {
            plain_group(
                alloc,
                of,
                first,
                more.as_slice(),
                before,
                scope,
                formals,
                faults,
            )
        }
    }
}

/// The formals of a procedure.
pub fn groups(
    alloc: Global,
    groups: &[FormalGroup],
    scope: &Scope,
    faults: &mut Items<Fault>,
) -> Result<Items<HeadFormal>, AllocError>
    ensures formals { IfOk result (λ formals. formals ≡ (spec_groups scope.now [] groups.now).formals) }
    ensures faults { OnOk result (faults.new ≡ faults.old ++ (spec_groups scope.now [] groups.now).faults) }
{
    let mut before = Scopes::new(alloc);
    let mut formals = Items::new(alloc);
    for one in groups {
        group(alloc, one, &mut before, scope, &mut formals, faults)?;
    }
    Ok(formals)
}

/// The formals of a function.
pub fn value_groups(
    alloc: Global,
    groups: &[ValueGroup],
    scope: &Scope,
    faults: &mut Items<Fault>,
) -> Result<Items<HeadFormal>, AllocError>
    ensures formals { IfOk result (λ formals. formals ≡ (spec_groups scope.now [] (values groups.now)).formals) }
    ensures faults { OnOk result (faults.new ≡ faults.old ++ (spec_groups scope.now [] (values groups.now)).faults) }
{
    let mut before = Scopes::new(alloc);
    let mut formals = Items::new(alloc);
    for one in groups {
        value_group(alloc, one, &mut before, scope, &mut formals, faults)?;
    }
    Ok(formals)
}
