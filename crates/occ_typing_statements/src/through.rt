//! The root of what a line sends or receives through, which is the name in its faults.
ghost use Rattle.std.specs.Prelude.{◌≡◌};
ghost use Rattle.occ_scope.specs.Visible.{visible};
ghost use Rattle.occ_typing_statements.specs.Through.{root_in as spec_root_in, root_of as spec_root_of};

use occ_base::Name;
use occ_expr::root;
use occ_forms_expressions::Element;
use occ_scope::{Meaning, Scope};

/// The name that is reported of what this name stands for.
fn root_in<'a>(scope: &'a Scope, name: &'a Name) -> &'a Name
    ensures { result.now ≡ spec_root_in name.now (visible scope.now name.now) }
{
    match scope.find(name) {
        Some(Meaning::Element(whole)) => &whole.root,
        _ => name,
    }
}

/// The name of the channel or timer that a line sends or receives through.
pub fn root_of<'a>(scope: &'a Scope, element: &'a Element) -> &'a Name
    ensures { result.now ≡ spec_root_of scope.now element.now }
{
    root_in(scope, root(element))
}
