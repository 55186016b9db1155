//! A root above which no component has a use, so that no root above it is asked.
ghost use Rattle.std.specs.Prelude.{◌≡◌, ◌<◌, ◌≤◌, ◌∷◌, [], ℕ, Some, false, slice_get};
ghost use Rattle.occ_usage_values.specs.declared.uses.Use.{Use as AUse};
ghost use Rattle.occ_usage_conflicts.specs.Components.{parted};
ghost use Rattle.occ_usage_conflicts.specs.ParallelRule.{some_clash};
ghost use Rattle.occ_usage_conflicts.specs.declared.rule.Least.TheVariants as least;
ghost use Rattle.occ_usage_conflicts.specs.declared.rule.Rule.{Rule as ARule};

use occ_base::Items;
use occ_usage_values::Use;

/// The greatest of a number and the roots of uses.
fn greatest(number: usize, uses: &[Use]) -> usize
    ensures from { number ≤ result }
    ensures roots { (k : ℕ) (u : AUse) → slice_get uses.now k ≡ Some u → u.part.root ≤ result }
{
    let mut greatest = number;
    for one in uses {
        greatest = greatest.max(one.part.root);
    }
    greatest
}

/// A root after which no two components clash in any.
pub(crate) fn last_root(components: &[Items<Use>]) -> usize
    ensures { (r : ARule) (root : ℕ) → result < root → some_clash r least.May root components.now ≡ false }
{
    let mut last = 0;
    for component in components {
        last = greatest(last, component.as_slice());
    }
    last
}

/// A root after which no two components clash in any: their uses stand one after the other, so many in each.
pub(crate) fn last_parted_root(uses: &[Use], sizes: &[usize]) -> usize
    ensures { (r : ARule) (root : ℕ) → result < root → some_clash r least.May root (parted sizes.now uses.now) ≡ false }
{
    greatest(0, uses)
}

/// A root after which two components that both use this do not clash in any.
pub(crate) fn last_root_of(uses: &[Use]) -> usize
    ensures { (r : ARule) (root : ℕ) → result < root → some_clash r least.May root (uses.now ∷ uses.now ∷ []) ≡ false }
{
    greatest(0, uses)
}
