//! What is read of one or several expressions: what is known of each, and its open expression. Values are shared or
//! small, since each is handed up by copy.
ghost use Rattle.std.specs.Prelude.{◌≡◌, ◌∷◌, ◌++◌, [], IfOk, OnOk, pos};
ghost use Rattle.occ_typing_operands.specs.Outcomes.{decimal};
ghost use Rattle.occ_expr_operations.specs.OpenExprs.{literal_open as spec_literal_open};
ghost use Rattle.occ_typing_operands.specs.declared.kind.Kind.TheVariants as k;
ghost use Rattle.occ_typing_tables.specs.declared.term.Term.TheVariants as v;
ghost use Rattle.occ_typing_rules.specs.declared.open_expr.OpenExpr.TheVariants as d;

use super::opening_exprs::{literal_open, two_items};
use occ_base::{Items, one_item};
use occ_typing_operands::{Kind, UntypedConstant};
use occ_typing_rules::OpenExpr;
use occ_typing_tables::Term;
use std::alloc::{AllocError, Global};

/// What is read of an expression before a type is wanted of it: what is known of it, and its open expression.
#[derive(Drop)]
pub struct Reading {
    pub term: Term,
    pub open_expr: OpenExpr,
}

/// What is read of several expressions, in their order.
#[derive(Drop)]
pub struct Readings {
    pub terms: Items<Term>,
    pub open_exprs: Items<OpenExpr>,
}

impl Readings {
    /// Of no expression.
    pub fn new(alloc: Global) -> Readings
        ensures terms { result.terms ≡ [] }
        ensures open_exprs { result.open_exprs ≡ [] }
    {
        Readings {
            terms: Items::new(alloc),
            open_exprs: Items::new(alloc),
        }
    }

    /// Of no expression, with room for so many.
    pub fn with_room(alloc: Global, count: usize) -> Result<Readings, AllocError>
        ensures terms { IfOk result (λ all. all.terms ≡ []) }
        ensures open_exprs { IfOk result (λ all. all.open_exprs ≡ []) }
    {
        Ok(Readings {
            terms: Items::from_vec(Vec::with_capacity(alloc, count)?),
            open_exprs: Items::from_vec(Vec::with_capacity(alloc, count)?),
        })
    }

    /// Of one expression.
    #[inline(always)]
    pub fn one(alloc: Global, first: Reading) -> Result<Readings, AllocError>
        ensures terms { IfOk result (λ all. all.terms ≡ first.term ∷ []) }
        ensures open_exprs { IfOk result (λ all. all.open_exprs ≡ first.open_expr ∷ []) }
    {
        let terms = one_item(alloc, first.term);
        let open_exprs = one_item(alloc, first.open_expr)?;
        Ok(Readings {
            terms: terms?,
            open_exprs,
        })
    }

    /// Of two expressions.
    pub fn two(alloc: Global, first: Reading, second: Reading) -> Result<Readings, AllocError>
        ensures terms { IfOk result (λ all. all.terms ≡ first.term ∷ second.term ∷ []) }
        ensures open_exprs { IfOk result (λ all. all.open_exprs ≡ first.open_expr ∷ second.open_expr ∷ []) }
    {
        let terms = two_items(alloc, first.term, second.term);
        let open_exprs = two_items(alloc, first.open_expr, second.open_expr)?;
        Ok(Readings {
            terms: terms?,
            open_exprs,
        })
    }

    /// Of one expression more.
    #[inline(always)]
    pub fn push(&mut self, next: Reading) -> Result<(), AllocError>
        ensures terms { OnOk result (self.new.terms ≡ self.old.terms ++ next.term ∷ []) }
        ensures open_exprs { OnOk result (self.new.open_exprs ≡ self.old.open_exprs ++ next.open_expr ∷ []) }
    {
        let pushed = self.terms.push(next.term);
        self.open_exprs.push(next.open_expr)?;
        pushed
    }

    /// Of one literal in decimal digits more.
    pub fn push_decimal(&mut self, n: u64) -> Result<(), AllocError>
        ensures terms { OnOk result (self.new.terms ≡ self.old.terms ++ v.Single (k.Untyped (decimal (pos n))) ∷ []) }
        ensures open_exprs { OnOk result (self.new.open_exprs ≡ self.old.open_exprs ++ d.Literal (decimal (pos n)) ∷ []) }
    {
        self.terms
            .push(Term::Single(Kind::Untyped(UntypedConstant::decimal(n))))?;
        self.open_exprs
            .push(OpenExpr::Literal(UntypedConstant::decimal(n)))
    }
}

/// Of an expression that is faulty.
pub fn faulty_reading() -> Reading
    ensures term { result.term ≡ v.Single k.Faulty }
    ensures open_expr { result.open_expr ≡ d.Faulty }
{
    Reading {
        term: Term::Single(Kind::Faulty),
        open_expr: OpenExpr::Faulty,
    }
}

/// Of a literal of which this is known.
pub fn literal_reading(alloc: Global, kind: Kind) -> Result<Reading, AllocError>
    ensures term { IfOk result (λ whole. whole.term ≡ v.Single kind) }
    ensures open_expr { IfOk result (λ whole. whole.open_expr ≡ spec_literal_open kind) }
{
    let open_expr = literal_open(alloc, &kind)?;
    Ok(Reading {
        term: Term::Single(kind),
        open_expr,
    })
}
