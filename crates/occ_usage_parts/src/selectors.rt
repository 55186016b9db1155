//! Lists of selectors, of which one alone lies in place: most elements have one, and no block is asked for it.
ghost use Rattle.std.specs.Prelude.{◌≡◌, ◌++◌, ◌∷◌, [], IfOk, OnOk};

use occ_base::Items;
use occ_types::PartSelector;
use std::alloc::{AllocError, Global};
use std::marker::Model;

/// What is held of selectors.
#[derive(Drop)]
enum Held {
    One([PartSelector; 1]),
    Listed(Items<PartSelector>),
}

/// Selectors, of which one alone lies in place: in contracts their list.
#[derive(Drop)]
pub struct Selectors {
    held: Held,
}

impl Model for Selectors {
    ghost use Rattle.std.specs.Prelude.{List};
    ghost use Rattle.std.specs.Coded.{codes};
    ghost use Rattle.occ_types.specs.declared.interface.PartSelector.{PartSelector};
    ghost use Rattle.occ_usage_parts.specs.inside.Selectors.{held_selectors};

    ghost Value = { List PartSelector };

    ghost coded = { Prim.hlevel codes };

    ghost view = { λ selectors. held_selectors selectors.held };
}

impl Selectors {
    /// One selector.
    #[inline(always)]
    pub fn one(selector: PartSelector) -> Selectors
        ensures { result ≡ selector ∷ [] }
    {
        Selectors {
            held: Held::One([selector]),
        }
    }

    /// The same list.
    #[inline(always)]
    pub fn listed(selectors: Items<PartSelector>) -> Selectors
        ensures { result ≡ selectors }
    {
        Selectors {
            held: Held::Listed(selectors),
        }
    }

    /// The same list: one alone is put in place, and its block is given back.
    pub(crate) fn of_items(mut selectors: Items<PartSelector>) -> Selectors
        ensures { result ≡ selectors }
    {
        if selectors.len() == 1 {
            if let Some(selector) = selectors.pop() {
                return Selectors::one(selector);
            }
        }
        Selectors::listed(selectors)
    }

    /// A copy of these.
    pub fn of(alloc: Global, selectors: &[PartSelector]) -> Result<Selectors, AllocError>
        ensures { IfOk result (λ copies. copies ≡ selectors.now) }
    {
        match selectors {
            [selector] => Ok(Selectors::one(copy(alloc, selector)?)),
            _ => Ok(Selectors::listed(copies(alloc, selectors)?)),
        }
    }

    /// The selectors.
    #[inline(always)]
    pub fn as_slice(&self) -> &[PartSelector]
        ensures { result.now ≡ self.now }
    {
        match &self.held {
            Held::One(selectors) => selectors,
            Held::Listed(selectors) => selectors.as_slice(),
        }
    }
}

/// A copy of a selector.
fn copy(alloc: Global, selector: &PartSelector) -> Result<PartSelector, AllocError>
    ensures { IfOk result (λ copy. copy ≡ selector.now) }
{
    match selector {
        PartSelector::Field(name) => Ok(PartSelector::Field(name.copied(alloc)?)),
        PartSelector::Interval(interval) => Ok(PartSelector::Interval(*interval)),
    }
}

/// Adds copies of selectors.
pub(crate) fn add_copies(
    alloc: Global,
    selectors: &[PartSelector],
    all: &mut Items<PartSelector>,
) -> Result<(), AllocError>
    ensures { OnOk result (all.new ≡ all.old ++ selectors.now) }
{
    for selector in selectors {
        all.push(copy(alloc, selector)?)?;
    }
    Ok(())
}

/// Copies of selectors.
pub fn copies(alloc: Global, selectors: &[PartSelector]) -> Result<Items<PartSelector>, AllocError>
    ensures { IfOk result (λ copies. copies ≡ selectors.now) }
{
    let mut all = Items::from_vec(Vec::with_capacity(alloc, selectors.len())?);
    add_copies(alloc, selectors, &mut all)?;
    Ok(all)
}
