//! Parses operators and operands after the first operand: `a - b`, or `a + b + ..` with one operator throughout.
ghost use Rattle.occ_forms_expressions.specs.Reading.{dyadic_token, ends_run as spec_ends_run, is_end_symbol as spec_is_end_symbol, IsEndOfRun, Reads, ReadsExpr};
ghost use Rattle.occ_forms_expressions.specs.Spelling.{expr_then, many, operand_then, operated_of, run_token};
ghost use Rattle.occ_forms_expressions.specs.inside.Tails.{joined, tail_then};
ghost use Rattle.occ_forms_expressions.specs.declared.operator.Dyadic.{Dyadic as ADyadic};
ghost use Rattle.occ_forms_expressions.specs.declared.tail.Tail.{Tail as ATail};
ghost use Rattle.occ_forms_expressions.specs.declared.tree.Operand.{Operand as AnOperand};
ghost use Rattle.occ_lines.specs.declared.token.Token.{Token as AToken};
ghost use Rattle.std.specs.Prelude.{IfOk, IfSome, List, MatchOption, length, ◌∷◌, ◌≡◌, ◌≢◌, ◌≤◌, ◌<◌};

use super::operand::operand;
use super::operator::{Dyadic, dyadic_operator};
use super::token_reader::first;
use super::tree::{Expr, Operand, PairOperator, RunOperator};
use occ_base::{Boxed, Items};
use occ_lines::{Symbol, Token, Word};
use std::alloc::{AllocError, Global};

/// What stands after the first operand of an expression.
#[derive(Drop)]
pub enum Tail {
    Nothing,
    Pair(PairOperator, Boxed<Operand>),
    Run(RunOperator, Boxed<Operand>, Items<Operand>),
}

/// Whether the symbol may follow an expression.
fn is_end_symbol(symbol: Symbol) -> bool
    ensures { result ≡ spec_is_end_symbol symbol }
{
    matches!(
        symbol,
        Symbol::Assign
            | Symbol::Counted
            | Symbol::Close
            | Symbol::CloseIndex
            | Symbol::Comma
            | Symbol::Semicolon
            | Symbol::Colon
            | Symbol::Input
            | Symbol::Output
            | Symbol::Ampersand
    )
}

/// Whether operands with operators between them end here.
#[inline(always)]
pub fn ends_run(tokens: &[Token]) -> bool
    ensures { result ≡ spec_ends_run tokens.now }
{
    match tokens {
        [] => true,
        [Token::Symbol(symbol), ..] => is_end_symbol(*symbol),
        [Token::Word(word), ..] => matches!(word, Word::For | Word::From),
        _ => false,
    }
}

/// What follows the operator, where it stands first.
pub fn after_operator(tokens: &[Token], operator: RunOperator) -> Option<&[Token]>
    ensures { MatchOption result ((k : List AToken) → tokens.now ≢ run_token operator ∷ k) (λ rest. tokens.now ≡ run_token operator ∷ rest.now) }
{
    let (token, rest) = first(tokens)?;
    match dyadic_operator(token) {
        Some(Dyadic::Run(found)) if found == operator => Some(rest),
        _ => None,
    }
}

/// Further operands, each after that operator, perhaps none.
pub fn operands<'a, F: Fn(Global, &[Token]) -> Result<Option<(Expr, &[Token])>, AllocError>>(
    alloc: Global,
    operator: RunOperator,
    tokens: &'a [Token],
    inner: &F,
) -> Result<Option<(Items<Operand>, &'a [Token])>, AllocError>
    requires inner { ReadsExpr (length tokens.now) (F.pre inner.now) (F.post inner.now) }
    ensures found { IfOk result (λ r. IfSome r (λ y. tokens.now ≡ many (operated_of operator) y.0 y.1.now)) }
    ensures shorter { IfOk result (λ r. IfSome r (λ y. length y.1.now ≤ length tokens.now)) }
    ensures only { IfOk result (λ r. (os : List AnOperand) (k : List AToken) → IsEndOfRun k → tokens.now ≡ many (operated_of operator) os k → Reads r os k) }
{
    let mut found = Items::new(alloc);
    let mut rest = tokens;
    while let Some(begun) = after_operator(rest, operator) {
        let Some((one, next)) = operand(alloc, begun, inner)? else {
            return Ok(None);
        };
        found.push(one)?;
        rest = next;
    }
    Ok(Some((found, rest)))
}

/// What stands after the first operand.
pub fn after_operand<'a, F: Fn(Global, &[Token]) -> Result<Option<(Expr, &[Token])>, AllocError>>(
    alloc: Global,
    tokens: &'a [Token],
    inner: &F,
) -> Result<Option<(Tail, &'a [Token])>, AllocError>
    requires inner { ReadsExpr (length tokens.now) (F.pre inner.now) (F.post inner.now) }
    ensures found { IfOk result (λ r. IfSome r (λ y. tokens.now ≡ tail_then y.0 y.1.now)) }
    ensures shorter { IfOk result (λ r. IfSome r (λ y. length y.1.now ≤ length tokens.now)) }
    ensures only { IfOk result (λ r. (x : ATail) (k : List AToken) → IsEndOfRun k → tokens.now ≡ tail_then x k → Reads r x k) }
{
    let Some((operator, rest)) = operator(tokens) else {
        return Ok(Some((Tail::Nothing, tokens)));
    };
    let Some((second, rest)) = operand(alloc, rest, inner)? else {
        return Ok(None);
    };
    let second = Boxed::new(alloc, second)?;
    match operator {
        Dyadic::Pair(operator) => Ok(Some((Tail::Pair(operator, second), rest))),
        Dyadic::Run(operator) => {
            let Some((more, rest)) = operands(alloc, operator, rest, inner)? else {
                return Ok(None);
            };
            Ok(Some((Tail::Run(operator, second, more), rest)))
        }
    }
}

/// The operator between two operands that stands first.
pub fn operator(tokens: &[Token]) -> Option<(Dyadic, &[Token])>
    ensures { MatchOption result ((operator : ADyadic) (k : List AToken) → tokens.now ≢ dyadic_token operator ∷ k) (λ y. tokens.now ≡ dyadic_token y.0 ∷ y.1.now) }
{
    let (token, rest) = first(tokens)?;
    let operator = dyadic_operator(token)?;
    Some((operator, rest))
}

/// The expression of its first operand and of what stands after it.
fn together(alloc: Global, first: Operand, tail: Tail) -> Result<Expr, AllocError>
    ensures { IfOk result (λ whole. whole ≡ joined first tail) }
{
    match tail {
        Tail::Nothing => Ok(Expr::Alone(first)),
        Tail::Pair(operator, second) => {
            let first = Boxed::new(alloc, first)?;
            Ok(Expr::Pair(first, operator, second))
        }
        Tail::Run(operator, second, more) => {
            let first = Boxed::new(alloc, first)?;
            Ok(Expr::Run(operator, first, second, more))
        }
    }
}

/// An expression of which the first operand is read, whatever stands after it.
#[inline(never)]
fn after_first_operand<'a, F: Fn(Global, &[Token]) -> Result<Option<(Expr, &[Token])>, AllocError>>(
    alloc: Global,
    first: Operand,
    tokens: &'a [Token],
    inner: &F,
) -> Result<Option<(Expr, &'a [Token])>, AllocError>
    requires inner { ReadsExpr (length tokens.now) (F.pre inner.now) (F.post inner.now) }
    ensures found { IfOk result (λ r. IfSome r (λ y. operand_then first tokens.now ≡ expr_then y.0 y.1.now)) }
    ensures shorter { IfOk result (λ r. IfSome r (λ y. length y.1.now ≤ length tokens.now)) }
    ensures only { IfOk result (λ r. (x : ATail) (k : List AToken) → IsEndOfRun k → tokens.now ≡ tail_then x k → Reads r (joined first x) k) }
{
    let Some((tail, rest)) = after_operand(alloc, tokens, inner)? else {
        return Ok(None);
    };
    let whole = together(alloc, first, tail)?;
    Ok(Some((whole, rest)))
}

/// An expression of which the first operand is read. Most end there.
pub fn after_first<'a, F: Fn(Global, &[Token]) -> Result<Option<(Expr, &[Token])>, AllocError>>(
    alloc: Global,
    first: Operand,
    tokens: &'a [Token],
    inner: &F,
) -> Result<Option<(Expr, &'a [Token])>, AllocError>
    requires inner { ReadsExpr (length tokens.now) (F.pre inner.now) (F.post inner.now) }
    ensures found { IfOk result (λ r. IfSome r (λ y. operand_then first tokens.now ≡ expr_then y.0 y.1.now)) }
    ensures shorter { IfOk result (λ r. IfSome r (λ y. length y.1.now ≤ length tokens.now)) }
    ensures only { IfOk result (λ r. (x : ATail) (k : List AToken) → IsEndOfRun k → tokens.now ≡ tail_then x k → Reads r (joined first x) k) }
{
    if ends_run(tokens) {
        return Ok(Some((Expr::Alone(first), tokens)));
    }
    after_first_operand(alloc, first, tokens, inner)
}

/// An expression that begins with an operand.
pub fn run<'a, F: Fn(Global, &[Token]) -> Result<Option<(Expr, &[Token])>, AllocError>>(
    alloc: Global,
    tokens: &'a [Token],
    inner: &F,
) -> Result<Option<(Expr, &'a [Token])>, AllocError>
    requires inner { ReadsExpr (length tokens.now) (F.pre inner.now) (F.post inner.now) }
    ensures found { IfOk result (λ r. IfSome r (λ y. tokens.now ≡ expr_then y.0 y.1.now)) }
    ensures shorter { IfOk result (λ r. IfSome r (λ y. length y.1.now < length tokens.now)) }
    ensures only { IfOk result (λ r. (o : AnOperand) (x : ATail) (k : List AToken) → IsEndOfRun k → tokens.now ≡ operand_then o (tail_then x k) → Reads r (joined o x) k) }
{
    let Some((first, rest)) = operand(alloc, tokens, inner)? else {
        return Ok(None);
    };
    after_first(alloc, first, rest, inner)
}
