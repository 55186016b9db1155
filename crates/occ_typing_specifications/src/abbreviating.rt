//! Names for elements, `n IS el:` and `t n IS el:`. `docs/LANGUAGE.md, Abbreviations of elements, RETYPES and RESHAPES`.
ghost use Rattle.std.specs.Prelude.{◌≡◌, ◌++◌, IfOk, IsTrue, OnOk, Some};
ghost use Rattle.occ_expr_operations.specs.Views.{element_view};
ghost use Rattle.occ_scope.specs.Visible.{visible};
ghost use Rattle.occ_typing_specifications.specs.Abbreviating.{abbreviation as spec_abbreviation, agreed as spec_agreed, element_name as spec_element_name, element_reported as spec_element_reported, element_with_type as spec_element_with_type, named as spec_named, of_type as spec_of_type};
ghost use Rattle.occ_expr.specs.Targets.{root as spec_root};
ghost use Rattle.occ_types.specs.declared.types.OccType.{OccType};
ghost use Rattle.occ_typing_operands.specs.declared.kind.Kind.TheVariants as k;
ghost use Rattle.occ_typing_operands.specs.declared.kind.Known.{Known};

use super::comparing::element_is_of;
use super::valuing::kind_unless_reported;
use occ_base::{Code, Fault, Items, Name, Shared, report};
use occ_expr::{root, target_of, type_form};
use occ_expr_operations::{ElementReading, Opening};
use occ_forms_expressions::{Element, TypeForm};
use occ_scope::{Access, Meaning, Scope, ScopeEntry, Whole, one_entry};
use occ_types::{MaybeValue, OccType};
use occ_typing_operands::{Kind, known};
use occ_typing_rules::TypedElement;
use occ_typing_tables::{filled, merged};
use std::alloc::{AllocError, Global};

/// What is known of a name of the type that agrees with both, if they agree: else T2 is reported.
fn agreed(of: Option<Shared<OccType>>, faults: &mut Items<Fault>) -> Result<Kind, AllocError>
    ensures kind { IfOk result (λ kind. kind ≡ (spec_agreed of).kind) }
    ensures faults { OnOk result (faults.new ≡ faults.old ++ (spec_agreed of).faults) }
{
    let Some(of) = of else {
        report(faults, Code::T2)?;
        return Ok(Kind::Faulty);
    };
    known(&of, None)
}

/// What is known of a name of this type, if the type is known, for an element of which this is known, and perhaps that it is of
/// the type.
fn of_type(
    alloc: Global,
    to: &Option<Shared<OccType>>,
    kind: &Kind,
    is_known: bool,
    faults: &mut Items<Fault>,
) -> Result<Kind, AllocError>
    requires { (of : OccType) (x : Known) → IsTrue is_known → to.now ≡ Some of → kind.now ≡ k.Known x → x.of ≡ of }
    ensures kind { IfOk result (λ named. named ≡ (spec_of_type to.now kind.now).kind) }
    ensures faults { OnOk result (faults.new ≡ faults.old ++ (spec_of_type to.now kind.now).faults) }
{
    match (to, kind) {
        (Some(to), Kind::Known(found)) => {
            if is_known {
                return known(&filled(alloc, to, found.of.get())?, None);
            }
            agreed(merged(alloc, to, &found.of)?, faults)
        }
        _ => Ok(Kind::Faulty),
    }
}

/// The element of `t n IS el`.
#[tactic(auto, unfolding(crate::specs::Abbreviating::element_with_type))]
fn element_with_type(
    alloc: Global,
    of: &TypeForm,
    element: &Element,
    scope: &Scope,
    faults: &mut Items<Fault>,
) -> Result<ElementReading, AllocError>
    ensures kind { IfOk result (λ read. read.kind ≡ (spec_element_with_type scope.now of.now element.now).kind) }
    ensures tree { IfOk result (λ read. read.tree ≡ (element_view element.now).tree scope.now) }
    ensures faults { OnOk result (faults.new ≡ faults.old ++ (spec_element_with_type scope.now of.now element.now).faults) }
{
    let to = type_form(alloc, of, Opening::Allowed, scope, faults)?;
    let read = target_of(alloc, element, scope, faults)?;
    let is_known = element_is_of(of, element, scope);
    let kind = of_type(alloc, &to, &read.kind, is_known, faults)?;
    Ok(ElementReading {
        kind,
        tree: read.tree,
    })
}

/// The element, with a type or without.
fn element_read(
    alloc: Global,
    of: &Option<TypeForm>,
    element: &Element,
    scope: &Scope,
    faults: &mut Items<Fault>,
) -> Result<ElementReading, AllocError>
    ensures kind { IfOk result (λ read. read.kind ≡ (spec_element_reported scope.now of.now element.now).kind) }
    ensures tree { IfOk result (λ read. read.tree ≡ (element_view element.now).tree scope.now) }
    ensures faults { OnOk result (faults.new ≡ faults.old ++ (spec_element_reported scope.now of.now element.now).faults) }
{
    match of {
        None => target_of(alloc, element, scope, faults),
        Some(of) => element_with_type(alloc, of, element, scope, faults),
    }
}

/// What a name stands for of which this is known, where its element is a part of what the other name stands for.
fn element_name(
    alloc: Global,
    scope: &Scope,
    whole: &Name,
    kind: Kind,
) -> Result<Meaning, AllocError>
    ensures { IfOk result (λ meaning. meaning ≡ spec_element_name kind (visible scope.now whole.now)) }
{
    let Kind::Known(known) = kind else {
        return Ok(Meaning::Faulty);
    };
    match scope.find(whole) {
        Some(Meaning::Element(whole)) => Ok(Meaning::Element(Whole {
            of: known.of,
            access: Access::Variable,
            value: MaybeValue::none(),
            root: whole.root.copied(alloc)?,
        })),
        Some(Meaning::Faulty) => Ok(Meaning::Faulty),
        Some(Meaning::Type(_)) => Ok(Meaning::Faulty),
        Some(Meaning::Protocol(_)) => Ok(Meaning::Faulty),
        Some(Meaning::Procedure(_)) => Ok(Meaning::Faulty),
        Some(Meaning::Function(_, _)) => Ok(Meaning::Faulty),
        None => Ok(Meaning::Faulty),
    }
}

/// What comes into scope after a line that names an element, and the tree of the element, if it has no fault.
#[derive(Drop)]
pub struct ElementLine {
    pub adds: Items<ScopeEntry>,
    pub tree: Option<TypedElement>,
}

/// What comes into scope after a line that reported this of an element.
pub fn named(
    alloc: Global,
    name: &Name,
    element: &Element,
    kind: Kind,
    reported: Items<Fault>,
    scope: &Scope,
    faults: &mut Items<Fault>,
) -> Result<Items<ScopeEntry>, AllocError>
    ensures adds { IfOk result (λ adds. adds ≡ (spec_named scope.now name.now element.now (record { faults = reported; kind = kind })).adds) }
    ensures faults { OnOk result (faults.new ≡ faults.old ++ reported) }
{
    let kind = kind_unless_reported(&reported, kind);
    faults.append(reported)?;
    let meaning = element_name(alloc, scope, root(element), kind)?;
    one_entry(alloc, name, meaning)
}

/// `n IS el:` or `t n IS el:`
#[tactic(auto, unfolding(crate::specs::Abbreviating::abbreviation))]
pub fn abbreviation(
    alloc: Global,
    of: &Option<TypeForm>,
    name: &Name,
    element: &Element,
    scope: &Scope,
    faults: &mut Items<Fault>,
) -> Result<ElementLine, AllocError>
    ensures adds { IfOk result (λ line. line.adds ≡ (spec_abbreviation scope.now of.now name.now element.now).adds) }
    ensures tree { IfOk result (λ line. line.tree ≡ (element_view element.now).tree scope.now) }
    ensures faults { OnOk result (faults.new ≡ faults.old ++ (spec_abbreviation scope.now of.now name.now element.now).faults) }
{
    let mut reported = Items::new(alloc);
    let ElementReading { kind, tree } = element_read(alloc, of, element, scope, &mut reported)?;
    let adds = named(alloc, name, element, kind, reported, scope, faults)?;
    Ok(ElementLine { adds, tree })
}
