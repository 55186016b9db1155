//! A stack, which contracts see as the list of what is on it, top first.
ghost use Rattle.std.specs.Prelude.{◌≡◌, [], ◌∷◌, List, IfOk, MatchOption, OnOk};

use occ_base::Items;
use std::alloc::{AllocError, Global};
use std::marker::Model;

/// A stack, which contracts see as the list of what lies on it, the top first.
#[derive(Drop)]
pub struct Stack<T> {
    items: Vec<T>,
}

impl<T> Model for Stack<T> {
    ghost use Rattle.std.specs.Prelude.{List, reverse};
    ghost use Rattle.std.specs.Coded.{coded_list};

    ghost Value = { List T };

    ghost coded = { coded_list T.code };

    ghost view = { λ stack. reverse stack.items.items };
}

impl<T> Stack<T> {
    pub fn new(alloc: Global) -> Stack<T>
        ensures { result ≡ [] }
    {
        Stack {
            items: Vec::new(alloc),
        }
    }

    /// With room for so many.
    pub fn with_room(alloc: Global, room: usize) -> Result<Stack<T>, AllocError>
        ensures { IfOk result (λ stack. stack ≡ []) }
    {
        Ok(Stack {
            items: Vec::with_capacity(alloc, room)?,
        })
    }

    /// What lies on top.
    #[tactic(auto, using(crate::proofs::Reversed::reversed_last))]
    pub fn top(&self) -> Option<&T>
        ensures { MatchOption result (self.now ≡ []) (λ top. (below : List T) × (self.now ≡ top.now ∷ below)) }
    {
        match self.items.split_last() {
            Some((top, _)) => Some(top),
            None => None,
        }
    }

    #[tactic(auto, using(crate::proofs::Reversed::reversed_last))]
    pub fn pop(&mut self) -> Option<T>
        ensures { MatchOption result ((self.old ≡ []) × (self.new ≡ [])) (λ top. self.old ≡ top ∷ self.new) }
    {
        self.items.pop()
    }
}

impl<T: Drop> Stack<T> {
    #[tactic(auto, using(crate::proofs::Reversed::reversed_last))]
    pub fn push(&mut self, item: T) -> Result<(), AllocError>
        ensures { OnOk result (self.new ≡ item ∷ self.old) }
    {
        self.items.push(item)?;
        Ok(())
    }

    /// What lies on it, the top first, in a list with the room that it needs.
    pub fn into_items(mut self, alloc: Global) -> Result<Items<T>, AllocError>
        ensures { IfOk result (λ items. items ≡ self) }
    {
        let mut items = Items::from_vec(Vec::with_capacity(alloc, self.items.len())?);
        while let Some(item) = self.pop() {
            items.push(item)?;
        }
        Ok(items)
    }
}
