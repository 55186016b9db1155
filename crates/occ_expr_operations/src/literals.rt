//! Literals with and without their type, TRUE and FALSE.
ghost use Rattle.std.specs.Prelude.{◌≡◌, ◌++◌, IfOk, OnOk};
ghost use Rattle.occ_expr_operations.specs.Literals.{byte as spec_byte, decorated_kind as spec_decorated_kind, decorated_literal as spec_decorated_literal, literal as spec_literal, truth as spec_truth};

use occ_base::{Fault, Items, Shared};
use occ_forms_expressions::Literal;
use occ_types::{OccType, Primitive, Value};
use occ_typing_operands::{Kind, Untyped, UntypedConstant, known, untyped, wanted};
use occ_typing_tables::{decorated, table_type};
use std::alloc::{AllocError, Global};

fn byte(alloc: Global) -> Result<Shared<OccType>, AllocError>
    ensures { IfOk result (λ of. of ≡ spec_byte) }
{
    Shared::new(alloc, OccType::Primitive(Primitive::Byte))
}

/// A literal without a type of its own.
#[tactic(auto, unfolding(crate::specs::Literals::literal))]
pub fn literal(
    alloc: Global,
    literal: &Literal,
    faults: &mut Items<Fault>,
) -> Result<Kind, AllocError>
    ensures kind { IfOk result (λ kind. kind ≡ (spec_literal literal.now).kind) }
    ensures faults { OnOk result (faults.new ≡ faults.old ++ (spec_literal literal.now).faults) }
{
    match literal {
        Literal::Decimal(n) => Ok(Kind::Untyped(UntypedConstant::decimal(*n))),
        Literal::Hexadecimal(n) => untyped(alloc, Untyped::hexadecimal(*n)),
        Literal::Character(byte_of) => known(&byte(alloc)?, Some(Value::Byte(*byte_of))),
        Literal::String(bytes) => table_type(alloc, bytes.len(), Some(byte(alloc)?), faults),
    }
}

/// `TRUE` or `FALSE`.
pub fn truth(alloc: Global, truth: bool) -> Result<Kind, AllocError>
    ensures { IfOk result (λ kind. kind ≡ (spec_truth truth).kind) }
{
    let of = Shared::new(alloc, OccType::Primitive(Primitive::Bool))?;
    known(&of, Some(Value::Bool(truth)))
}

/// What a literal is, as a value of this type.
fn decorated_kind(
    alloc: Global,
    to: &Shared<OccType>,
    kind: &Kind,
    faults: &mut Items<Fault>,
) -> Result<Kind, AllocError>
    ensures kind { IfOk result (λ decorated. decorated ≡ (spec_decorated_kind to.now kind.now).kind) }
    ensures faults { OnOk result (faults.new ≡ faults.old ++ (spec_decorated_kind to.now kind.now).faults) }
{
    match kind {
        Kind::Faulty => Ok(Kind::Faulty),
        Kind::Untyped(_) => wanted(alloc, to, kind, faults),
        Kind::Known(found) => decorated(to, found.of.get(), found.value.get(), faults),
    }
}

/// A literal with its type, if that has no fault.
#[tactic(auto, unfolding(crate::specs::Literals::decorated_literal))]
pub fn decorated_literal(
    alloc: Global,
    written: &Literal,
    to: Option<Shared<OccType>>,
    faults: &mut Items<Fault>,
) -> Result<Kind, AllocError>
    ensures kind { IfOk result (λ kind. kind ≡ (spec_decorated_literal to written.now).kind) }
    ensures faults { OnOk result (faults.new ≡ faults.old ++ (spec_decorated_literal to written.now).faults) }
{
    let Some(to) = to else {
        return Ok(Kind::Faulty);
    };
    let kind = literal(alloc, written, faults)?;
    decorated_kind(alloc, &to, &kind, faults)
}
