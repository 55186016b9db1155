//! Tests: types and interfaces that are one, and their bytes.
use occ_base::{Items, Name, Shared};
use occ_types::{
    Effect, Export, ExportKind, FormalUse, Interface, OccType, Primitive, Protocol, UseKind,
    bytes_of, same_interface, same_protocol, same_type,
};
use std::alloc::{AllocError, Global};
use std::test::Fail;

/// `[n]INT`
fn array(alloc: Global, n: u32) -> Result<OccType, AllocError> {
    let int = OccType::Primitive(Primitive::Int);
    Ok(OccType::Array(Some(n), Shared::new(alloc, int)?))
}

#[test]
fn types_are_reported_apart_and_counted(rt: HostRuntime) -> Result<(), Fail> {
    let a = rt.alloc();
    let three = array(a, 3)?;
    assert!(rt; same_type(&three, &array(a, 3)?));
    assert!(rt; !same_type(&three, &array(a, 4)?));
    assert!(rt; same_protocol(&Protocol::Any, &Protocol::Any));
    assert!(rt; matches!(bytes_of(&three), Some(12)));
    Ok(())
}

/// A PROC `p`, of whose formals these are written whole.
fn interface(alloc: Global, written: &[u32]) -> Result<Interface, AllocError> {
    let mut uses = Items::new(alloc);
    for formal in written {
        uses.push(FormalUse {
            formal: *formal,
            selectors: Items::new(alloc),
            kind: UseKind::Write,
        })?;
    }
    let mut exports = Items::new(alloc);
    exports.push(Export {
        name: Name::from_slice(alloc, b"p")?,
        kind: ExportKind::Process,
        formals: Shared::new(alloc, Items::new(alloc))?,
        results: Items::new(alloc),
        uses,
        effect: Effect::None,
    })?;
    Ok(Interface { exports })
}

#[test]
fn uses_of_formals_count_as_a_set(rt: HostRuntime) -> Result<(), Fail> {
    let a = rt.alloc();
    let two = interface(a, &[0, 1])?;
    assert!(rt; same_interface(&two, &interface(a, &[1, 0, 1])?));
    assert!(rt; !same_interface(&two, &interface(a, &[0, 0])?));
    Ok(())
}
