//! In which components the uses of each root stand: those of most roots in one alone, which then does not clash.
ghost use Rattle.std.specs.Prelude.{◌≡◌, ◌≢◌, ◌⊎◌, ◌<◌, ℕ, IfOk, Some, false, length, slice_get};
ghost use Rattle.occ_usage_values.specs.declared.uses.Use.{Use as AUse};
ghost use Rattle.occ_usage_conflicts.specs.ParallelRule.{some_clash};
ghost use Rattle.occ_usage_conflicts.specs.declared.rule.Least.{Least as ALeast};
ghost use Rattle.occ_usage_conflicts.specs.declared.rule.Rule.{Rule as ARule};
ghost use Rattle.occ_usage_conflicts.specs.declared.presence.Presence.{Presence as APresence};
ghost use Rattle.occ_usage_conflicts.specs.declared.presence.Presence.TheVariants as presence;
ghost use Rattle.occ_usage_conflicts.specs.inside.Presences.{IsIn, MayBeIn};

use occ_base::Items;
use occ_usage_values::Use;
use std::alloc::{AllocError, Global};

/// Where the uses of a root stand.
#[derive(Clone, Copy)]
pub(crate) enum Presence {
    /// In no component.
    Nowhere,
    /// In the component with this number alone.
    One(usize),
    /// Perhaps in several.
    Several,
}

/// Where they stand with one more, which is of this component.
fn with_component(stand: Presence, component: usize) -> Presence
    ensures here { MayBeIn result component }
    ensures kept { (i : ℕ) → MayBeIn stand i → MayBeIn result i }
{
    match stand {
        Presence::Nowhere => Presence::One(component),
        Presence::One(other) => {
            if other == component {
                Presence::One(component)
            } else {
                Presence::Several
            }
        }
        Presence::Several => Presence::Several,
    }
}

/// A use of a root stands in this component, if the root is one of these.
fn note(stands: &mut Items<Presence>, root: usize, component: usize)
    ensures count { length stands.new ≡ length stands.old }
    ensures here { root < length stands.old → IsIn stands.new root component }
    ensures kept { (other i : ℕ) → IsIn stands.old other i → IsIn stands.new other i }
{
    let Some(stand) = stands.get(root) else {
        return;
    };
    let stand = with_component(*stand, component);
    stands.set(root, stand);
}

/// These uses stand in this component.
fn note_uses(stands: &mut Items<Presence>, component: usize, uses: &[Use])
    ensures count { length stands.new ≡ length stands.old }
    ensures here { (k : ℕ) (u : AUse) → slice_get uses.now k ≡ Some u → u.part.root < length stands.old → IsIn stands.new u.part.root component }
    ensures kept { (other i : ℕ) → IsIn stands.old other i → IsIn stands.new other i }
{
    for one in uses {
        note(stands, one.part.root, component);
    }
}

/// Where the uses of so many roots stand: of one that does not stand in several no two components clash.
pub(crate) fn presences(
    alloc: Global,
    count: usize,
    components: &[Items<Use>],
) -> Result<Items<Presence>, AllocError>
    ensures count { IfOk result (λ stands. length stands ≡ count) }
    ensures apart { IfOk result (λ stands. (r : ARule) (l : ALeast) (root : ℕ) (stand : APresence) → slice_get stands root ≡ Some stand → stand ≢ presence.Several → some_clash r l root components.now ≡ false) }
{
    let mut stands = Vec::new(alloc);
    stands.resize(count, Presence::Nowhere)?;
    let mut stands = Items::from_vec(stands);
    for (place, component) in components.iter().enumerate() {
        note_uses(&mut stands, place, component.as_slice());
    }
    Ok(stands)
}
