//! Whether a type is that of a timer or of an array of timers.
#![tactic(auto, using(crate::proofs::Timers::timer_rules))]

ghost use Rattle.std.specs.Prelude.{◌≡◌};
ghost use Rattle.occ_usage_values.specs.Timers.{is_timer as spec_is_timer};

use occ_types::OccType;

/// Whether a type is that of a timer, or of an array of timers.
pub fn is_timer(of: &OccType) -> bool
    ensures { result ≡ spec_is_timer of.now }
{
    match of {
        OccType::Array(_, inner) => is_timer(inner.get()),
        OccType::Timer => true,
        _ => false,
    }
}
