//! Appends uses, and joins those of all components.
ghost use Rattle.std.specs.Prelude.{◌≡◌, ◌++◌, OnOk};
ghost use Rattle.occ_usage_conflicts.specs.Components.{joined as spec_joined};

use occ_base::Items;
use occ_usage_values::Use;
use std::alloc::AllocError;

/// Adds uses after others.
pub fn append(uses: &mut Items<Use>, more: Items<Use>) -> Result<(), AllocError>
    ensures { OnOk result (uses.new ≡ uses.old ++ more) }
{
    if uses.is_empty() {
        *uses = more;
        return Ok(());
    }
    uses.append(more)
}

/// Adds the uses of all components, one after the other.
pub fn append_joined(components: Vec<Items<Use>>, all: &mut Items<Use>) -> Result<(), AllocError>
    ensures { OnOk result (all.new ≡ all.old ++ spec_joined components.items) }
{
    for one in components {
        append(all, one)?;
    }
    Ok(())
}
