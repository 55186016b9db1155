//! The type of a typed tree, and its value where it is constant.
#![tactic(auto, using(crate::proofs::Knowing::knowing_rules))]

ghost use Rattle.std.specs.Prelude.{◌≡◌};
ghost use Rattle.occ_typing_rules.specs.Placing.{known_of as spec_known_of};

use super::expr::TypedExpr;
use occ_typing_operands::Known;

/// The type of an expression, and its value where it is constant.
pub fn known_of(tree: &TypedExpr) -> &Known
    ensures { result.now ≡ spec_known_of tree.now }
{
    match tree {
        TypedExpr::Literal(known) => known,
        TypedExpr::Element(element) => &element.known,
        TypedExpr::Operation(known, _, _) => known,
        TypedExpr::Applied(known, _, _) => known,
        TypedExpr::Size(known, _) => known,
        TypedExpr::Converted(known, _) => known,
        TypedExpr::Table(known, _) => known,
        TypedExpr::Call(known, _, _) => known,
    }
}
