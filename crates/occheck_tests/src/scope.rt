//! Tests: a name that is entered alone.
use occ_base::Name;
use occ_scope::{Meaning, Scope};
use std::test::Fail;

#[test]
fn a_name_that_is_entered_alone_is_found(rt: HostRuntime) -> Result<(), Fail> {
    let a = rt.alloc();
    let name = Name::from_slice(a, b"x")?;
    let mut scope = Scope::new(a);
    scope.enter(a, &name, Meaning::Faulty)?;
    assert!(rt; matches!(scope.find(&name), Some(Meaning::Faulty)));
    Ok(())
}
