//! Lists of which one item alone lies in place: most assignments have one target and one value, and no block is asked for them.
ghost use Rattle.std.specs.Prelude.{◌≡◌, ◌∷◌, [], IfOk};

use occ_base::{Boxed, Items};
use std::alloc::{AllocError, Global};
use std::marker::Model;

/// What a list holds. A list that is no item alone has a box, so that one item is what has to have room.
#[derive(Drop)]
enum Held<T> {
    One([T; 1]),
    Listed(Boxed<Items<T>>),
}

/// A list that holds one item in place: in contracts the list.
#[derive(Drop)]
pub struct Few<T> {
    held: Held<T>,
}

impl<T> Model for Few<T> {
    ghost use Rattle.std.specs.Prelude.{List};
    ghost use Rattle.std.specs.Coded.{coded_list};
    ghost use Rattle.occ_typing_statements.specs.inside.Few.{items_of};

    ghost Value = { List T };

    ghost coded = { coded_list T.code };

    ghost view = { λ few. items_of few.held };
}

impl<T> Few<T> {
    /// A list of one item.
    pub fn one(item: T) -> Few<T>
        ensures { result ≡ item ∷ [] }
    {
        Few {
            held: Held::One([item]),
        }
    }

    /// The items.
    pub fn as_slice(&self) -> &[T]
        ensures { result.now ≡ self.now }
    {
        match &self.held {
            Held::One(items) => items,
            Held::Listed(items) => items.get().as_slice(),
        }
    }
}

impl<T: Drop> Few<T> {
    /// The same list.
    pub fn listed(alloc: Global, items: Items<T>) -> Result<Few<T>, AllocError>
        ensures { IfOk result (λ few. few ≡ items) }
    {
        Ok(Few {
            held: Held::Listed(Boxed::new(alloc, items)?),
        })
    }
}
