//! Case inputs `el ? CASE` and their variants `n; ..`: the first line, then each variant, with T8 for a tag that was
//! there before.
ghost use Rattle.occ_expr.specs.Trees.{element_tree};
ghost use Rattle.std.specs.Prelude.{◌≡◌, ◌∷◌, ◌++◌, [], IfOk, OnOk};
ghost use Rattle.occ_protocol.specs.Carrying.{carrier as spec_carrier};
ghost use Rattle.occ_typing_statements.specs.Inputs.{case_faults as spec_case_faults};
ghost use Rattle.occ_typing_statements.specs.Variants.{begun as spec_begun, repeated as spec_repeated, variant_at as spec_variant_at, variant_faults as spec_variant_faults, variant_tree as spec_variant_tree, with_tag as spec_with_tag};

use super::exchange_tree::TypedTarget;
use super::receiving::{details_received, nothing_received};
use super::through::root_of;
use occ_base::{Code, Fault, Items, Name};
use occ_expr::element;
use occ_forms::Detail;
use occ_forms_expressions::Element;
use occ_protocol::{alternative, cased, lacks, report_named};
use occ_scope::{Scope, Scopes};
use occ_typing_operands::Kind;
use occ_typing_rules::TypedElement;
use std::alloc::{AllocError, Global};

/// What is known of a case input after some of its variants.
#[derive(Drop)]
pub struct CaseInput {
    /// What is known of what it receives through.
    pub channel: Kind,
    /// The name that is reported of that.
    pub root: Name,
    /// The tags of the variants.
    pub tags: Scopes,
}

/// `el ? CASE`: what is known of it before its first variant, and the tree of what it receives through.
#[tactic(auto, unfolding(crate::specs::Inputs::case_faults, crate::specs::Variants::begun))]
pub fn case_input(
    alloc: Global,
    channel: &Element,
    scope: &Scope,
    faults: &mut Items<Fault>,
) -> Result<(CaseInput, Option<TypedElement>), AllocError>
    ensures input { IfOk result (λ r. r.0 ≡ spec_begun scope.now channel.now) }
    ensures tree { IfOk result (λ r. r.1 ≡ element_tree scope.now channel.now) }
    ensures faults { OnOk result (faults.new ≡ faults.old ++ spec_case_faults scope.now channel.now) }
{
    let root = root_of(scope, channel).copied(alloc)?;
    let read = element(alloc, channel, scope, faults)?;
    cased(alloc, &read.kind, &root, faults)?;
    let input = CaseInput {
        channel: read.kind,
        root,
        tags: Scopes::new(alloc),
    };
    Ok((input, read.tree))
}

/// T8 is reported of a tag that stood before, unless the protocol has none of this name; it is then among those that stood.
fn report_repeated(
    alloc: Global,
    channel: &Kind,
    tags: &mut Scopes,
    tag: &Name,
    faults: &mut Items<Fault>,
) -> Result<(), AllocError>
    ensures tags { OnOk result (tags.new ≡ tags.old ++ tag.now ∷ []) }
    ensures faults { OnOk result (faults.new ≡ faults.old ++ spec_repeated (spec_carrier channel.now) tags.old tag.now) }
{
    let before = tags.enter_over(alloc, tag)?;
    if before.is_none() || lacks(channel, tag) {
        return Ok(());
    }
    report_named(alloc, Code::T8, tag, faults)
}

/// A variant: the place of its tag in the protocol and its name, and the targets.
#[derive(Drop)]
pub struct TypedVariant {
    pub place: usize,
    pub tag: Name,
    pub targets: Items<TypedTarget>,
}

/// A variant, if its tag is in the protocol and its targets have trees.
fn variant_at(
    alloc: Global,
    place: Option<usize>,
    tag: &Name,
    targets: Option<Items<TypedTarget>>,
) -> Result<Option<TypedVariant>, AllocError>
    ensures { IfOk result (λ tree. tree ≡ spec_variant_at place tag.now targets) }
{
    let (Some(place), Some(targets)) = (place, targets) else {
        return Ok(None);
    };
    let tag = tag.copied(alloc)?;
    Ok(Some(TypedVariant {
        place,
        tag,
        targets,
    }))
}

/// `n` or `n; d; ..` under a case input, to whose tags that of the variant is added.
#[tactic(auto, using(crate::proofs::Both::both_rules, occ_base::proofs::Fronts::front_rules), unfolding(crate::specs::Variants::variant_faults, crate::specs::Variants::variant_tree))]
pub fn variant(
    alloc: Global,
    input: &mut CaseInput,
    tag: &Name,
    first: &[Detail],
    more: &[Detail],
    scope: &Scope,
    faults: &mut Items<Fault>,
) -> Result<Option<TypedVariant>, AllocError>
    ensures tree { IfOk result (λ tree. tree ≡ spec_variant_tree scope.now input.old tag.now (first.now ++ more.now)) }
    ensures input { OnOk result (input.new ≡ spec_with_tag input.old tag.now) }
    ensures faults { OnOk result (faults.new ≡ faults.old ++ spec_variant_faults scope.now input.old tag.now (first.now ++ more.now)) }
{
    let none = nothing_received(alloc, first.len().saturating_add(more.len()))?;
    let all = details_received(alloc, first, none, scope, faults)?;
    let all = details_received(alloc, more, all, scope, faults)?;
    let place = alternative(
        alloc,
        &input.channel,
        &input.root,
        tag,
        all.givens.as_slice(),
        faults,
    )?;
    report_repeated(alloc, &input.channel, &mut input.tags, tag, faults)?;
    variant_at(alloc, place, tag, all.trees)
}
