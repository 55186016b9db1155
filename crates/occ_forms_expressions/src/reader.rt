//! Parses whole expressions. It gives itself to the parsers of parts, so that none of them calls itself.
//! `docs/LANGUAGE.md, Expressions and types`.
ghost use Rattle.occ_forms_expressions.specs.Reading.{IsAfter, IsEnd, IsEndOfRun, Reads, ReadsExpr};
ghost use Rattle.occ_forms_expressions.specs.Spelling.{expr_then, extreme_word, monadic_token, operand_then, type_form_then};
ghost use Rattle.occ_forms_expressions.specs.TypeEnds.{EndsMost};
ghost use Rattle.occ_forms_expressions.specs.declared.tree.Expr.TheVariants as x;
ghost use Rattle.occ_forms_expressions.specs.declared.tree.Expr.{Expr as AnExpr};
ghost use Rattle.occ_forms_expressions.specs.declared.tree.Extreme.{Extreme as AnExtreme};
ghost use Rattle.occ_forms_expressions.specs.declared.tree.MonadicOperator.{MonadicOperator as AMonadicOperator};
ghost use Rattle.occ_forms_expressions.specs.declared.tree.Operand.{Operand as AnOperand};
ghost use Rattle.occ_forms_expressions.specs.declared.tree.TypeForm.{TypeForm as ATypeForm};
ghost use Rattle.occ_lines.specs.declared.token.Token.TheVariants as t;
ghost use Rattle.occ_lines.specs.declared.token.Token.{Token as AToken};
ghost use Rattle.std.specs.Prelude.{IfOk, IfSome, List, length, ◌∷◌, ◌≡◌, ◌≢◌, ◌<◌};

use super::begin::{Begin, begins};
use super::bracketed::bracketed_expression;
use super::conversion::converted;
use super::naming::named_expression;
use super::operand::operand;
use super::operator::monadic_operator;
use super::part::extreme;
use super::tail::run;
use super::token_reader::first;
use super::tree::Expr;
use super::types::{Following, type_form};
use occ_base::{Boxed, Items};
use occ_lines::Token;
use std::alloc::{AllocError, Global};

/// The greatest or the least value of a type.
pub fn most<'a, F: Fn(Global, &[Token]) -> Result<Option<(Expr, &[Token])>, AllocError>>(
    alloc: Global,
    tokens: &'a [Token],
    inner: &F,
) -> Result<Option<(Expr, &'a [Token])>, AllocError>
    requires inner { ReadsExpr (length tokens.now) (F.pre inner.now) (F.post inner.now) }
    ensures found { IfOk result (λ r. IfSome r (λ y. tokens.now ≡ expr_then y.0 y.1.now)) }
    ensures shorter { IfOk result (λ r. IfSome r (λ y. length y.1.now < length tokens.now)) }
    ensures only { IfOk result (λ r. (m : AnExtreme) (ty : ATypeForm) (k : List AToken) → IsEndOfRun k → EndsMost ty k → tokens.now ≡ t.Word (extreme_word m) ∷ type_form_then ty k → Reads r (x.Most m ty) k) }
{
    let Some((token, rest)) = first(tokens) else {
        return Ok(None);
    };
    let Some(extreme) = extreme(token) else {
        return Ok(None);
    };
    let Some((form, rest)) = type_form(alloc, Following::End, rest, inner)? else {
        return Ok(None);
    };
    Ok(Some((Expr::Most(extreme, Boxed::new(alloc, form)?), rest)))
}

/// A monadic operator and its operand.
pub fn applied<'a, F: Fn(Global, &[Token]) -> Result<Option<(Expr, &[Token])>, AllocError>>(
    alloc: Global,
    tokens: &'a [Token],
    inner: &F,
) -> Result<Option<(Expr, &'a [Token])>, AllocError>
    requires inner { ReadsExpr (length tokens.now) (F.pre inner.now) (F.post inner.now) }
    ensures found { IfOk result (λ r. IfSome r (λ y. tokens.now ≡ expr_then y.0 y.1.now)) }
    ensures shorter { IfOk result (λ r. IfSome r (λ y. length y.1.now < length tokens.now)) }
    ensures only { IfOk result (λ r. (m : AMonadicOperator) (o : AnOperand) (k : List AToken) → IsAfter k → tokens.now ≡ monadic_token m ∷ operand_then o k → Reads r (x.Applied m o) k) }
{
    let Some((token, rest)) = first(tokens) else {
        return Ok(None);
    };
    let Some(operator) = monadic_operator(token) else {
        return Ok(None);
    };
    let Some((operand, rest)) = operand(alloc, rest, inner)? else {
        return Ok(None);
    };
    Ok(Some((Expr::Applied(operator, Boxed::new(alloc, operand)?), rest)))
}

/// The expression that stands first, and what follows it. `only` holds of what may follow an expression; after any
/// other than `MOSTPOS` and `MOSTNEG` of a type, `run` lets `::[]` follow as well, and after these `most` does where
/// it does not go on with the type.
pub fn expression(alloc: Global, tokens: &[Token]) -> Result<Option<(Expr, &[Token])>, AllocError>
    ensures found { IfOk result (λ r. IfSome r (λ y. tokens.now ≡ expr_then y.0 y.1.now)) }
    ensures shorter { IfOk result (λ r. IfSome r (λ y. length y.1.now < length tokens.now)) }
    ensures only { IfOk result (λ r. (z : AnExpr) (k : List AToken) → IsEnd k → tokens.now ≡ expr_then z k → Reads r z k) }
    ensures run { IfOk result (λ r. (z : AnExpr) (k : List AToken) → IsEndOfRun k → ((m : AnExtreme) (ty : ATypeForm) → z ≢ x.Most m ty) → tokens.now ≡ expr_then z k → Reads r z k) }
    ensures most { IfOk result (λ r. (m : AnExtreme) (ty : ATypeForm) (k : List AToken) → IsEndOfRun k → EndsMost ty k → tokens.now ≡ expr_then (x.Most m ty) k → Reads r (x.Most m ty) k) }
{
    match begins(tokens) {
        Begin::Nothing => Ok(None),
        Begin::Extreme => most(alloc, tokens, &expression),
        Begin::Monadic => applied(alloc, tokens, &expression),
        Begin::Builtin => converted(alloc, Items::new(alloc), tokens, &expression),
        Begin::Name => named_expression(alloc, tokens, &expression),
        Begin::Bracket => bracketed_expression(alloc, tokens, &expression),
        Begin::Parens => run(alloc, tokens, &expression),
        Begin::Value => run(alloc, tokens, &expression),
    }
}
