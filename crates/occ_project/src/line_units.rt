//! The units that a `#USE` uses. Mostly that is one, of which the line of its text has the name: no list is made for it.
ghost use Rattle.std.specs.Prelude.{◌≡◌, ◌∷◌, []};

use occ_base::{FileName, Items, Shared};
use std::marker::Model;
use std::slice;

/// One unit, or those that a library lists.
#[derive(Drop)]
enum Named {
    One(Shared<FileName>),
    Listed(Shared<Items<FileName>>),
}

/// The units that a `#USE` uses: in contracts the list of their names.
pub struct UsedUnits {
    named: Named,
}

/// Written out: crates above call it, where each would prove a derived one anew.
impl Drop for UsedUnits {
    fn drop(self) {
        let UsedUnits { named: _ } = self;
    }
}

impl Model for UsedUnits {
    ghost use Rattle.std.specs.Prelude.{List, ℕ};
    ghost use Rattle.std.specs.Coded.{coded_list, coded_ℕ};
    ghost use Rattle.occ_project.specs.inside.Naming.{named_units};

    ghost Value = { List (List ℕ) };

    ghost coded = { coded_list (coded_list coded_ℕ) };

    ghost view = { λ units. named_units units.named };
}

impl UsedUnits {
    /// One unit.
    pub fn one(unit: Shared<FileName>) -> UsedUnits
        ensures { result ≡ unit ∷ [] }
    {
        UsedUnits {
            named: Named::One(unit),
        }
    }

    /// These units.
    pub fn listed(units: Shared<Items<FileName>>) -> UsedUnits
        ensures { result ≡ units }
    {
        UsedUnits {
            named: Named::Listed(units),
        }
    }

    /// Their names, in the order of the line.
    pub fn as_slice(&self) -> &[FileName]
        ensures { result.now ≡ self.now }
    {
        match &self.named {
            Named::One(unit) => slice::from_ref(unit.get()),
            Named::Listed(units) => units.get().as_slice(),
        }
    }
}
