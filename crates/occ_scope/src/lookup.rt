//! Looks a name up where an element, a data type or a protocol is needed: N1, N2, or nothing if its line has a fault.
ghost use Rattle.std.specs.Prelude.{◌≡◌, ◌++◌, IfOk, MatchOption, None, OnOk, Some};
ghost use Rattle.occ_scope.specs.Lookup.{carries as spec_carries, data_type as spec_data_type, element as spec_element, faults_of};
ghost use Rattle.occ_scope.specs.Visible.{visible};

use super::meaning::{Meaning, Whole};
use super::scope::Scope;
use occ_base::{Code, Fault, Items, Name, Shared};
use occ_types::{KnownType, Protocol};
use std::alloc::{AllocError, Global};

/// What a channel carries whose type names it.
#[derive(Drop)]
pub enum Carried {
    /// Values of one data type.
    Values(KnownType),
    Protocol(Shared<Protocol>),
}

/// A name that does not stand for what the place needs is reported: N1 where it is not in scope, N2 where it stands for
/// something else, and nothing where its own line has a fault.
fn report(
    alloc: Global,
    scope: &Scope,
    name: &Name,
    faults: &mut Items<Fault>,
) -> Result<(), AllocError>
    ensures { OnOk result (faults.new ≡ faults.old ++ faults_of name.now (visible scope.now name.now)) }
{
    let code = match scope.find(name) {
        None => Code::N1,
        Some(Meaning::Faulty | Meaning::Type(None)) => return Ok(()),
        Some(_) => Code::N2,
    };
    let name = Some(name.copied(alloc)?);
    faults.push(Fault { code, name })
}

/// What a name stands for where an element is needed, if nothing is wrong with it: else N1 or N2 is reported, or nothing
/// where its own line has a fault.
pub fn element<'a>(
    alloc: Global,
    scope: &'a Scope,
    name: &Name,
    faults: &mut Items<Fault>,
) -> Result<Option<&'a Whole>, AllocError>
    ensures found { IfOk result (λ found. MatchOption found ((spec_element name.now (visible scope.now name.now)).found ≡ None) (λ whole. (spec_element name.now (visible scope.now name.now)).found ≡ Some whole.now)) }
    ensures faults { OnOk result (faults.new ≡ faults.old ++ (spec_element name.now (visible scope.now name.now)).faults) }
{
    match scope.find(name) {
        Some(Meaning::Element(whole)) => Ok(Some(whole)),
        _ => {
            report(alloc, scope, name, faults)?;
            Ok(None)
        }
    }
}

/// The type that a name stands for where a data type is needed, as for `element`.
pub fn data_type(
    alloc: Global,
    scope: &Scope,
    name: &Name,
    faults: &mut Items<Fault>,
) -> Result<Option<KnownType>, AllocError>
    ensures found { IfOk result (λ found. found ≡ (spec_data_type name.now (visible scope.now name.now)).found) }
    ensures faults { OnOk result (faults.new ≡ faults.old ++ (spec_data_type name.now (visible scope.now name.now)).faults) }
{
    match scope.find(name) {
        Some(Meaning::Type(Some(of))) => Ok(Some(of.share()?)),
        _ => {
            report(alloc, scope, name, faults)?;
            Ok(None)
        }
    }
}

/// What a name stands for after `CHAN OF`, where a protocol or a data type is needed, as for `element`.
pub fn carries(
    alloc: Global,
    scope: &Scope,
    name: &Name,
    faults: &mut Items<Fault>,
) -> Result<Option<Carried>, AllocError>
    ensures found { IfOk result (λ found. found ≡ (spec_carries name.now (visible scope.now name.now)).found) }
    ensures faults { OnOk result (faults.new ≡ faults.old ++ (spec_carries name.now (visible scope.now name.now)).faults) }
{
    match scope.find(name) {
        Some(Meaning::Type(Some(of))) => Ok(Some(Carried::Values(of.share()?))),
        Some(Meaning::Protocol(protocol)) => Ok(Some(Carried::Protocol(protocol.share()?))),
        _ => {
            report(alloc, scope, name, faults)?;
            Ok(None)
        }
    }
}
