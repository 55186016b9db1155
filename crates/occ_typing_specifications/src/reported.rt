//! Whether a line has reported something, so that its names are faulty.
ghost use Rattle.std.specs.Prelude.{◌≡◌};
ghost use Rattle.occ_typing_specifications.specs.Entering.{unless_reported as spec_unless_reported};

use occ_base::{Fault, Items, Shared};
use occ_types::OccType;

/// The type, if the line reported nothing.
pub fn unless_reported(
    reported: &Items<Fault>,
    of: Option<Shared<OccType>>,
) -> Option<Shared<OccType>>
    ensures { result ≡ spec_unless_reported reported.now of }
{
    if reported.is_empty() { of } else { None }
}
