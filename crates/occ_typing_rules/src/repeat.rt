//! Names that are twice in one list (T8).
ghost use Rattle.std.specs.Prelude.{◌≡◌, ◌++◌, OnOk};
ghost use Rattle.occ_typing_rules.specs.Listing.{repetition, repetitions};

use occ_base::{Code, Fault, Items, Name};
use occ_scope::Scopes;
use std::alloc::{AllocError, Global};

/// T8 is reported of a name that stood in the list before.
fn repeated_name(
    alloc: Global,
    name: &Name,
    place: Option<usize>,
    faults: &mut Items<Fault>,
) -> Result<(), AllocError>
    ensures { OnOk result (faults.new ≡ faults.old ++ repetition name.now place) }
{
    match place {
        None => Ok(()),
        Some(_) => {
            let name = Some(name.copied(alloc)?);
            faults.push(Fault {
                code: Code::T8,
                name,
            })
        }
    }
}

/// Names of one list, after those of it before, to which they are added: T8 is reported of each that stood before it.
pub fn repeated(
    alloc: Global,
    names: &[Name],
    before: &mut Scopes,
    faults: &mut Items<Fault>,
) -> Result<(), AllocError>
    ensures names { OnOk result (before.new ≡ before.old ++ names.now) }
    ensures faults { OnOk result (faults.new ≡ faults.old ++ repetitions before.old names.now) }
{
    for name in names {
        let place = before.enter_over(alloc, name)?;
        repeated_name(alloc, name, place, faults)?;
    }
    Ok(())
}
