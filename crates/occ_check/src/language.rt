//! What the language says of a unit: shape, then names and types, then uses. No other module asks all of them.
ghost use Rattle.std.specs.Prelude.{◌≡◌, IfOk, None, Some};
ghost use Rattle.occ_check.specs.Language.{following, imports as spec_imports, lines_judged, uses_judged};
ghost use Rattle.occ_tree.specs.Forest.{forest_of};
ghost use Rattle.occ_usage.specs.Typing.{type_faults, typed_unit};

use super::export::interface_of;
use super::used::{Used, UsedUnit};
use occ_base::{Diag, Items};
use occ_project::ExpandedLine;
use occ_tree::{ShapeFault, Unit, shape};
use occ_types::Interface;
use occ_usage::{Import, TypeFault, Typed, UnitUses, function_faults, type_unit, unit_uses};
use std::alloc::{AllocError, Global};

/// What is said of a unit.
#[derive(Drop)]
pub struct Judgement {
    /// Its diagnostics, in no order, some perhaps more than once.
    pub faults: Items<Diag>,
    /// What it exports, if the diagnostics leave that to be known.
    pub interface: Option<Interface>,
}

impl Judgement {
    /// What is said of a unit with these diagnostics, at least one, after which nothing more is looked at.
    pub fn of_faults(faults: Items<Diag>) -> Judgement
        ensures { result ≡ record { faults = faults; interface = None } }
    {
        Judgement {
            faults,
            interface: None,
        }
    }
}

/// What the used units show, of those that are clean.
fn imports(alloc: Global, used: &[UsedUnit]) -> Result<Items<Import>, AllocError>
    ensures { IfOk result (λ imports. imports ≡ spec_imports used.now) }
{
    let mut found = Vec::with_capacity(alloc, used.len())?;
    for one in used {
        if let Used::Clean(interface) = &one.used {
            found.push(Import {
                unit: one.unit,
                interface: interface.share()?,
            })?;
        }
    }
    Ok(Items::from_vec(found))
}

/// What the rules of uses say of a unit, and what it exports.
fn judge_uses(alloc: Global, typed: &Typed) -> Result<Judgement, AllocError>
    ensures { IfOk result (λ judgement. judgement ≡ uses_judged typed.now.lines) }
{
    let UnitUses {
        parallel: mut faults,
        abbreviations,
        bounds,
    } = unit_uses(alloc, typed)?;
    faults.append(function_faults(alloc, typed)?)?;
    faults.append(abbreviations)?;
    let interface = interface_of(alloc, bounds.as_slice(), typed.lines.as_slice())?;
    Ok(Judgement {
        faults,
        interface: Some(interface),
    })
}

/// What names and types say of a unit, and after them the rules of uses.
#[tactic(auto, using(crate::proofs::Firsts::first_is_all))]
fn judge_meaning(alloc: Global, unit: Unit, imports: &[Import]) -> Result<Judgement, AllocError>
    ensures { IfOk result (λ judgement. judgement ≡ following (type_faults imports.now (forest_of unit.roots)) (uses_judged (typed_unit imports.now (forest_of unit.roots)))) }
{
    let typed = type_unit(alloc, &unit, imports);
    drop(unit);
    match typed {
        Ok(typed) => judge_uses(alloc, &typed),
        Err(TypeFault::Faults(found)) => Ok(Judgement::of_faults(found)),
        Err(TypeFault::Memory) => Err(AllocError),
    }
}

/// What the language says of the lines of a unit, none of which has a fault, and which uses these units. It is asked
/// of nowhere else.
#[tactic(auto, using(crate::proofs::Firsts::first_is_all), unfolding(crate::specs::Language::lines_judged))]
pub fn judge(
    alloc: Global,
    lines: Items<ExpandedLine>,
    used: &[UsedUnit],
) -> Result<Judgement, AllocError>
    ensures { IfOk result (λ judgement. judgement ≡ lines_judged lines used.now) }
{
    let imports = imports(alloc, used)?;
    match shape(alloc, lines) {
        Ok(unit) => judge_meaning(alloc, unit, imports.as_slice()),
        Err(ShapeFault::Faults(found)) => Ok(Judgement::of_faults(found)),
        Err(ShapeFault::Memory) => Err(AllocError),
    }
}
