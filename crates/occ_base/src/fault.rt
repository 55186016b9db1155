//! Faults, which are diagnostics before their line is known: a code and perhaps a name.
ghost use Rattle.std.specs.Prelude.{◌≡◌, ◌++◌, OnOk, [], ◌∷◌};
ghost use Rattle.occ_base.specs.Reporting.{nameless};

use super::code::Code;
use super::name::Name;
use sqlite_items::Items;
use std::alloc::AllocError;

/// A fault of a line: its code, and the name that is reported with it.
pub struct Fault {
    pub code: Code,
    pub name: Option<Name>,
}

/// Written out: crates above call it, where each would prove a derived one anew.
impl Drop for Fault {
    fn drop(self) {
        let Fault { code: _, name: _ } = self;
    }
}

/// A fault without a name is reported.
pub fn report(faults: &mut Items<Fault>, code: Code) -> Result<(), AllocError>
    ensures { OnOk result (faults.new ≡ faults.old ++ nameless code ∷ []) }
{
    faults.push(Fault { code, name: None })
}
