//! What the rules give for a unit: diagnostics, and perhaps an interface.
use occ_base::{Diag, Items, Shared};
use occ_types::Interface;

/// What the rules give for a unit.
pub struct Checked {
    /// The diagnostics, in their order, each once.
    pub diags: Items<Diag>,
    /// What it shows to those that use it, if it has no diagnostic of the grade error.
    pub interface: Option<Shared<Interface>>,
}

/// Written out: crates above call it, where each would prove a derived one anew.
impl Drop for Checked {
    fn drop(self) {
        let Checked {
            diags: _,
            interface: _,
        } = self;
    }
}
