//! The tree of an expression by what is known of it.
ghost use Rattle.std.specs.Prelude.{◌≡◌, IfOk};
ghost use Rattle.occ_typing_rules.specs.Placing.{tree_of as spec_tree_of};

use super::expr::TypedExpr;
use super::open_expr::OpenExpr;
use super::placing::placed;
use occ_base::Shared;
use occ_typing_operands::Kind;
use std::alloc::{AllocError, Global};

/// The tree of a value of which this is known.
pub fn tree_of(
    alloc: Global,
    kind: &Kind,
    open_expr: &OpenExpr,
) -> Result<Option<Shared<TypedExpr>>, AllocError>
    ensures { IfOk result (λ tree. tree ≡ spec_tree_of kind.now open_expr.now) }
{
    match kind {
        Kind::Known(known) => placed(alloc, open_expr, &known.of),
        Kind::Faulty => Ok(None),
        Kind::Untyped(_) => Ok(None),
    }
}
