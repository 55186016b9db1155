//! Replicators `n = e FOR e`: R1 and R2 of a PAR, the index, and how often the lines under it are repeated.
//! `docs/LANGUAGE.md, Replicators`.
ghost use Rattle.occ_expr.specs.Trees.{int_tree};
ghost use Rattle.std.specs.Prelude.{◌≡◌, ◌++◌, [], IfOk, OnOk};
ghost use Rattle.occ_typing_statements.specs.Counting.{counted as spec_counted, named as spec_named, parallel_faults as spec_parallel_faults, times as spec_times, too_often as spec_too_often};
ghost use Rattle.occ_typing_statements.specs.Replicating.{asked as spec_asked, counting as spec_counting, enters as spec_enters, faults as spec_faults, index_of as spec_index_of, read as spec_read, tree as spec_tree, tree_of as spec_tree_of, unless_faulty as spec_unless_faulty};

use super::replicator_bound::{bound, constants};
use super::replicator_tree::{KnownReplicator, TypedReplicator};
use occ_base::{Code, Fault, Items, Name, Shared};
use occ_forms::Replicator;
use occ_scope::{Access, Meaning, Scope, ScopeEntry, SpecId, Whole, one_entry};
use occ_types::MaybeValue;
use occ_typing_operands::{int, is_faulty};
use occ_typing_rules::TypedExpr;
use std::alloc::{AllocError, Global};

/// What is replicated.
#[derive(Clone, Copy)]
pub enum Replicating {
    /// A `PAR`
    Parallel,
    Other,
}

/// How often lines under a replicator of this count stand, where those round it stand so often; none for over 4,096 times.
fn times(rounds: u32, count: u32) -> Option<u32>
    ensures { result ≡ spec_times rounds count }
{
    let times = rounds.checked_mul(count.max(1))?;
    if times <= 4096 { Some(times) } else { None }
}

/// A replicator, if it is known, and how often the lines under it stand.
struct Counting {
    known: Option<KnownReplicator>,
    rounds: u32,
}

/// A replicator of constants, where the lines round it stand so often.
fn counted(rounds: u32, constants: Option<KnownReplicator>) -> Counting
    ensures known { result.known ≡ (spec_counted rounds constants).known }
    ensures rounds { result.rounds ≡ (spec_counted rounds constants).rounds }
{
    let Some(constants) = constants else {
        return Counting {
            known: None,
            rounds,
        };
    };
    match times(rounds, constants.count) {
        None => Counting {
            known: None,
            rounds,
        },
        Some(rounds) => Counting {
            known: Some(constants),
            rounds,
        },
    }
}

/// A code is reported with the name of an index.
fn report_index(
    alloc: Global,
    code: Code,
    name: &Name,
    faults: &mut Items<Fault>,
) -> Result<(), AllocError>
    ensures { OnOk result (faults.new ≡ faults.old ++ spec_named code name.now) }
{
    let name = Some(name.copied(alloc)?);
    faults.push(Fault { code, name })
}

/// R2 is reported of a `PAR` under which lines would stand too often.
fn too_often(
    alloc: Global,
    name: &Name,
    times: Option<u32>,
    faults: &mut Items<Fault>,
) -> Result<(), AllocError>
    ensures { OnOk result (faults.new ≡ faults.old ++ spec_too_often name.now times) }
{
    match times {
        None => report_index(alloc, Code::R2, name, faults),
        Some(_) => Ok(()),
    }
}

/// What a `PAR` asks of its replicator: R1 is reported where its base or count is no constant, or its count is not from 0 to 256.
fn parallel(
    alloc: Global,
    name: &Name,
    rounds: u32,
    constants: Option<KnownReplicator>,
    faults: &mut Items<Fault>,
) -> Result<(), AllocError>
    ensures { OnOk result (faults.new ≡ faults.old ++ spec_parallel_faults name.now rounds constants) }
{
    let Some(constants) = constants else {
        return report_index(alloc, Code::R1, name, faults);
    };
    if constants.count > 256 {
        return report_index(alloc, Code::R1, name, faults);
    }
    too_often(alloc, name, times(rounds, constants.count), faults)
}

/// What a construct asks of its replicator.
fn ask(
    alloc: Global,
    construct: Replicating,
    name: &Name,
    rounds: u32,
    constants: Option<KnownReplicator>,
    faults: &mut Items<Fault>,
) -> Result<(), AllocError>
    ensures { OnOk result (faults.new ≡ faults.old ++ spec_asked construct name.now rounds constants) }
{
    match construct {
        Replicating::Other => Ok(()),
        Replicating::Parallel => parallel(alloc, name, rounds, constants, faults),
    }
}

/// What is asked of a replicator none of whose bounds has a fault.
fn ask_unless_faulty(
    alloc: Global,
    construct: Replicating,
    name: &Name,
    rounds: u32,
    read: &ReplicatorReading,
    faults: &mut Items<Fault>,
) -> Result<(), AllocError>
    ensures { OnOk result (faults.new ≡ faults.old ++ spec_unless_faulty read.now.is_faulty (spec_asked construct name.now rounds read.now.constants)) }
{
    if read.is_faulty {
        return Ok(());
    }
    ask(alloc, construct, name, rounds, read.constants, faults)
}

/// What is read of a replicator: whether one of its bounds has a fault, the constants that they are, and their trees.
#[derive(Drop)]
struct ReplicatorReading {
    is_faulty: bool,
    constants: Option<KnownReplicator>,
    base: Option<Shared<TypedExpr>>,
    count: Option<Shared<TypedExpr>>,
}

/// The base and the count of a replicator.
#[tactic(auto, unfolding(crate::specs::Replicating::read))]
fn read(
    alloc: Global,
    replicator: &Replicator,
    scope: &Scope,
    faults: &mut Items<Fault>,
) -> Result<ReplicatorReading, AllocError>
    ensures is_faulty { IfOk result (λ read. read.is_faulty ≡ (spec_read scope.now replicator.now).is_faulty) }
    ensures constants { IfOk result (λ read. read.constants ≡ (spec_read scope.now replicator.now).constants) }
    ensures base { IfOk result (λ read. read.base ≡ int_tree scope.now replicator.now.base) }
    ensures count { IfOk result (λ read. read.count ≡ int_tree scope.now replicator.now.count) }
    ensures faults { OnOk result (faults.new ≡ faults.old ++ (spec_read scope.now replicator.now).faults) }
{
    let base = bound(alloc, &replicator.base, scope, faults)?;
    let count = bound(alloc, &replicator.count, scope, faults)?;
    Ok(ReplicatorReading {
        is_faulty: is_faulty(&base.kind) || is_faulty(&count.kind),
        constants: constants(&base.kind, &count.kind),
        base: base.tree,
        count: count.tree,
    })
}

/// The index of a replicator of which this was reported.
fn index(
    alloc: Global,
    reported: &Items<Fault>,
    is_faulty: bool,
    name: &Name,
) -> Result<Meaning, AllocError>
    ensures { IfOk result (λ meaning. meaning ≡ spec_index_of reported.now is_faulty name.now) }
{
    if !reported.is_empty() || is_faulty {
        return Ok(Meaning::Faulty);
    }
    Ok(Meaning::Element(Whole {
        of: int(alloc)?,
        access: Access::Value,
        value: MaybeValue::none(),
        root: name.copied(alloc)?,
    }))
}

/// A replicator whose index has so many specifications round it, if its bounds have trees.
fn tree(
    level: SpecId,
    known: Option<KnownReplicator>,
    base: Option<Shared<TypedExpr>>,
    count: Option<Shared<TypedExpr>>,
) -> Option<TypedReplicator>
    ensures { result ≡ spec_tree_of level known base count }
{
    let base = base?;
    let count = count?;
    Some(TypedReplicator {
        index: level,
        base,
        count,
        known,
    })
}

/// What a replicator makes known: the index that comes into scope under it, how often the lines under it stand, and its tree,
/// if its bounds have no fault.
#[derive(Drop)]
pub struct ReplicatorLine {
    pub enters: Items<ScopeEntry>,
    pub rounds: u32,
    pub tree: Option<TypedReplicator>,
}

/// `n = e FOR e` of a construct, where the lines round it stand so often by the known replicators of its PROC or FUNCTION.
#[tactic(auto, unfolding(crate::specs::Replicating::counting, crate::specs::Replicating::enters, crate::specs::Replicating::faults, crate::specs::Replicating::tree))]
pub fn replicator(
    alloc: Global,
    replicator: &Replicator,
    construct: Replicating,
    rounds: u32,
    scope: &Scope,
    faults: &mut Items<Fault>,
) -> Result<ReplicatorLine, AllocError>
    ensures enters { IfOk result (λ line. line.enters ≡ spec_enters scope.now construct rounds replicator.now) }
    ensures rounds { IfOk result (λ line. line.rounds ≡ (spec_counting scope.now rounds replicator.now).rounds) }
    ensures tree { IfOk result (λ line. line.tree ≡ spec_tree scope.now rounds replicator.now) }
    ensures faults { OnOk result (faults.new ≡ faults.old ++ spec_faults scope.now construct rounds replicator.now) }
{
    let mut reported = Items::new(alloc);
    let read = read(alloc, replicator, scope, &mut reported)?;
    ask_unless_faulty(
        alloc,
        construct,
        &replicator.name,
        rounds,
        &read,
        &mut reported,
    )?;
    let meaning = index(alloc, &reported, read.is_faulty, &replicator.name)?;
    faults.append(reported)?;
    let enters = one_entry(alloc, &replicator.name, meaning)?;
    let Counting { known, rounds } = counted(rounds, read.constants);
    Ok(ReplicatorLine {
        enters,
        rounds,
        tree: tree(scope.len(), known, read.base, read.count),
    })
}
