//! The typed options of a line of a `CASE`. Where each is a literal in decimal digits, no tree of it is made: the line, which its
//! file shares with each place that it is included at, and their type say them all.
ghost use Rattle.std.specs.Prelude.{◌≡◌, ◌++◌, ◌∷◌, [], IfOk, IfSome, IsTrue, OnOk};
ghost use Rattle.occ_expr_operations.specs.Parts.{terms as spec_terms};
ghost use Rattle.occ_forms.specs.declared.tree.Form.TheVariants as forms;
ghost use Rattle.occ_forms_expressions.specs.declared.tree.Expr.TheVariants as exprs;
ghost use Rattle.occ_forms_expressions.specs.declared.tree.Literal.TheVariants as literals;
ghost use Rattle.occ_forms_expressions.specs.declared.tree.Operand.TheVariants as operands;
ghost use Rattle.occ_typing_lines.specs.inside.Decimals.{AreDecimals};
ghost use Rattle.occ_typing_statements.specs.StatementTrees.{options_trees as spec_options_trees};
ghost use Rattle.occ_typing_statements.specs.Statements.{options as spec_options, said};

use occ_base::{Fault, Items, Shared};
use occ_forms::Form;
use occ_forms_expressions::{Expr, Literal, Operand};
use occ_scope::Scope;
use occ_types::OccType;
use occ_typing_operands::{Kind, UntypedConstant};
use occ_typing_rules::{OptionNumbers, TypedExpr, options as choose};
use occ_typing_statements::options;
use occ_typing_tables::Term;
use std::alloc::{AllocError, Global};
use std::marker::Model;

/// How typed options are kept.
#[derive(Drop)]
enum Kept {
    /// Literals in decimal digits: their line, and their type.
    Decimals(Shared<Form>, Shared<OccType>),
    Trees(Items<Shared<TypedExpr>>),
}

/// The typed options of a line: in contracts their trees.
#[derive(Drop)]
pub struct TypedOptions {
    kept: Kept,
}

impl Model for TypedOptions {
    ghost use Rattle.occ_types.specs.contracts.types.OccType as types;
    ghost use Rattle.occ_typing_lines.specs.inside.Decimals.{shown};
    ghost use Rattle.occ_typing_rules.specs.contracts.expr.TypedExpr as typed;
    ghost use Rattle.occ_typing_rules.specs.declared.expr.TypedExpr.{TypedExpr};
    ghost use Rattle.std.specs.Coded.{codes};
    ghost use Rattle.std.specs.Prelude.{List};

    ghost Value = { List TypedExpr };

    ghost coded = { Prim.hlevel (codes, typed.the_row.coded) };

    ghost view = { λ options. shown options.kept };
}

/// The number of a literal in decimal digits that stands alone.
fn decimal(expr: &Expr) -> Option<u64>
    ensures { IfSome result (λ n. expr.now ≡ exprs.Alone (operands.Literal (literals.Decimal n))) }
{
    let Expr::Alone(operand) = expr else {
        return None;
    };
    match operand {
        Operand::Literal(Literal::Decimal(n)) => Some(*n),
        _ => None,
    }
}

/// Adds the term of an expression, if it is a literal in decimal digits alone.
fn push_decimal(expr: &Expr, terms: &mut Items<Term>) -> Result<bool, AllocError>
    ensures decimals { IfOk result (λ pushed. IsTrue pushed → AreDecimals (expr.now ∷ [])) }
    ensures terms { IfOk result (λ pushed. IsTrue pushed → (s : Scope) → terms.new ≡ terms.old ++ spec_terms (said s (expr.now ∷ []))) }
{
    let Some(n) = decimal(expr) else {
        return Ok(false);
    };
    let constant = UntypedConstant::decimal(n);
    terms.push(Term::Single(Kind::Untyped(constant)))?;
    Ok(true)
}

/// Adds the terms of expressions, if each is a literal in decimal digits alone.
fn push_decimals(exprs: &[Expr], terms: &mut Items<Term>) -> Result<bool, AllocError>
    ensures decimals { IfOk result (λ pushed. IsTrue pushed → AreDecimals exprs.now) }
    ensures terms { IfOk result (λ pushed. IsTrue pushed → (s : Scope) → terms.new ≡ terms.old ++ spec_terms (said s exprs.now)) }
{
    for expr in exprs {
        if !push_decimal(expr, terms)? {
            return Ok(false);
        }
    }
    Ok(true)
}

/// The terms of options, if each is a literal in decimal digits alone.
fn decimals(alloc: Global, first: &Expr, more: &[Expr]) -> Result<Option<Items<Term>>, AllocError>
    ensures decimals { IfOk result (λ found. IfSome found (λ terms. AreDecimals (first.now ∷ more.now))) }
    ensures terms { IfOk result (λ found. IfSome found (λ terms. (s : Scope) → terms ≡ spec_terms (said s (first.now ∷ more.now)))) }
{
    let mut terms = Items::new(alloc);
    if !push_decimal(first, &mut terms)? {
        return Ok(None);
    }
    if !push_decimals(more, &mut terms)? {
        return Ok(None);
    }
    Ok(Some(terms))
}

/// The options of one line of a `CASE` with this selector, of which the trees are kept.
fn listed(
    alloc: Global,
    first: &Expr,
    more: &[Expr],
    selector: &Kind,
    before: &mut OptionNumbers,
    scope: &Scope,
    faults: &mut Items<Fault>,
) -> Result<Option<TypedOptions>, AllocError>
    ensures trees { IfOk result (λ trees. trees ≡ spec_options_trees scope.now selector.now (first.now ∷ more.now)) }
    ensures faults { OnOk result (faults.new ≡ faults.old ++ (spec_options scope.now selector.now before.old (first.now ∷ more.now)).faults) }
    ensures numbers { OnOk result (before.new ≡ (spec_options scope.now selector.now before.old (first.now ∷ more.now)).numbers) }
{
    match options(alloc, first, more, selector, before, scope, faults)? {
        Some(trees) => Ok(Some(TypedOptions {
            kept: Kept::Trees(trees),
        })),
        None => Ok(None),
    }
}

/// The options of one line of a `CASE` with this selector; `before` holds the numbers of those on the lines before.
pub fn typed_options(
    alloc: Global,
    form: &Shared<Form>,
    first: &Expr,
    more: &[Expr],
    selector: &Kind,
    before: &mut OptionNumbers,
    scope: &Scope,
    faults: &mut Items<Fault>,
) -> Result<Option<TypedOptions>, AllocError>
    requires { form.now ≡ forms.Expressions first.now more.now }
    ensures trees { IfOk result (λ trees. trees ≡ spec_options_trees scope.now selector.now (first.now ∷ more.now)) }
    ensures faults { OnOk result (faults.new ≡ faults.old ++ (spec_options scope.now selector.now before.old (first.now ∷ more.now)).faults) }
    ensures numbers { OnOk result (before.new ≡ (spec_options scope.now selector.now before.old (first.now ∷ more.now)).numbers) }
{
    let Kind::Known(known) = selector else {
        return listed(alloc, first, more, selector, before, scope, faults);
    };
    let Some(terms) = decimals(alloc, first, more)? else {
        return listed(alloc, first, more, selector, before, scope, faults);
    };
    choose(alloc, &known.of, terms.as_slice(), before, faults)?;
    Ok(Some(TypedOptions {
        kept: Kept::Decimals(form.share()?, known.of.share()?),
    }))
}
