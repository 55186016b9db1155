//! The base and the count of a replicator, as INTs and as constants.
ghost use Rattle.occ_expr.specs.Trees.{int_tree as spec_int_tree};
ghost use Rattle.std.specs.Prelude.{◌≡◌, ◌++◌, IfOk, OnOk};
ghost use Rattle.occ_typing_statements.specs.Bounds.{bound as spec_bound, constant as spec_constant, constants as spec_constants, int_value as spec_int_value};

use super::replicator_tree::KnownReplicator;
use occ_base::{Fault, Items, Shared};
use occ_expr::expression;
use occ_forms_expressions::Expr;
use occ_scope::Scope;
use occ_types::Value;
use occ_typing_operands::{Kind, int};
use occ_typing_rules::{TypedExpr, placed};
use occ_typing_tables::under;
use std::alloc::{AllocError, Global};

/// What is read of the base or the count of a replicator: what is known of it, and its tree, if it has no fault.
#[derive(Drop)]
pub struct BoundReading {
    pub kind: Kind,
    pub tree: Option<Shared<TypedExpr>>,
}

/// The base or the count of a replicator, which is an INT.
#[tactic(auto, unfolding(crate::specs::Bounds::bound, occ_expr::specs::Trees::int_tree))]
pub fn bound(
    alloc: Global,
    expr: &Expr,
    scope: &Scope,
    faults: &mut Items<Fault>,
) -> Result<BoundReading, AllocError>
    ensures kind { IfOk result (λ read. read.kind ≡ (spec_bound scope.now expr.now).kind) }
    ensures tree { IfOk result (λ read. read.tree ≡ spec_int_tree scope.now expr.now) }
    ensures faults { OnOk result (faults.new ≡ faults.old ++ (spec_bound scope.now expr.now).faults) }
{
    let read = expression(alloc, expr, scope, faults)?;
    let of = int(alloc)?;
    let kind = under(alloc, &read.term, &of, faults)?;
    let tree = placed(alloc, &read.open_expr, &of)?;
    Ok(BoundReading { kind, tree })
}

/// The number of an INT, if that is constant.
fn int_value(value: Option<Value>) -> Option<i32>
    ensures { result ≡ spec_int_value value }
{
    match value {
        Some(Value::Int(n)) => Some(n),
        Some(Value::Bool(_)) => None,
        Some(Value::Byte(_)) => None,
        Some(Value::Int16(_)) => None,
        Some(Value::Int32(_)) => None,
        Some(Value::Int64(_)) => None,
        None => None,
    }
}

/// The number of a constant.
fn constant(kind: &Kind) -> Option<i32>
    ensures { result ≡ spec_constant kind.now }
{
    match kind {
        Kind::Known(known) => int_value(known.value.get()),
        Kind::Faulty => None,
        Kind::Untyped(_) => None,
    }
}

/// A replicator whose base and count are constant, and whose count is not negative.
pub fn constants(base: &Kind, count: &Kind) -> Option<KnownReplicator>
    ensures { result ≡ spec_constants (spec_constant base.now) (spec_constant count.now) }
{
    let base = constant(base)?;
    let count = constant(count)?;
    if count < 0 {
        return None;
    }
    Some(KnownReplicator {
        base,
        count: count as u32,
    })
}
