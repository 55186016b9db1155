//! Tables whose items are literals of one primitive type: how many there are says all of them.
#![tactic(auto, using(crate::proofs::Judging::counting_rules))]

ghost use Rattle.std.specs.Prelude.{◌≡◌, IsTrue, length};
ghost use Rattle.occ_types.specs.declared.types.OccType.TheVariants as t;
ghost use Rattle.occ_typing_operands.specs.Settling.{settled as spec_settled};
ghost use Rattle.occ_typing_tables.specs.Terms.{judged, judged_all, settled_itself};
ghost use Rattle.occ_typing_tables.specs.inside.Plain.{ArePlain, IsCounted, IsPlain, is_landed as spec_is_landed};

use super::term::Term;
use occ_types::{OccType, Primitive};
use occ_typing_operands::{Kind, TypedValue};

/// Whether what is free is of the type in which it comes to this, and faultless.
fn is_landed(outcome: TypedValue) -> bool
    ensures { result ≡ spec_is_landed outcome }
{
    match outcome {
        TypedValue::Unfit | TypedValue::Faulty(_) => false,
        TypedValue::Varying | TypedValue::Constant(_) => true,
    }
}

/// Whether an operand that is no table is free, and of this type and faultless where that is wanted of it.
fn is_plain_kind(kind: &Kind, of: Primitive) -> bool
    ensures { IsTrue result → IsPlain (t.Primitive of) (settled_itself (spec_settled (t.Primitive of) kind.now)) }
{
    match kind {
        Kind::Untyped(untyped) => !untyped.is_faulty() && is_landed(untyped.in_type(of)),
        _ => false,
    }
}

/// The same of an operand.
fn is_plain(term: &Term, of: Primitive) -> bool
    ensures { IsTrue result → IsPlain (t.Primitive of) ((judged term.now).settled (t.Primitive of)) }
{
    match term {
        Term::Single(kind) => is_plain_kind(kind, of),
        Term::Table(_) => false,
    }
}

/// The same of each item.
fn are_plain(items: &[Term], of: Primitive) -> bool
    ensures { IsTrue result → ArePlain (t.Primitive of) (judged_all items.now) }
{
    for item in items {
        if !is_plain(item, of) {
            return false;
        }
    }
    true
}

/// Whether the items are literals that are of this type where it is wanted of them: the table is then of so many, whatever
/// wants it.
pub(super) fn is_counted(items: &[Term], of: &OccType) -> bool
    ensures { IsTrue result → IsCounted (length items.now) of.now (judged_all items.now) }
{
    match of {
        OccType::Primitive(primitive) => are_plain(items, *primitive),
        _ => false,
    }
}
