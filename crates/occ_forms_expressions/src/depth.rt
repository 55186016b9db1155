//! Counts open brackets of a line and dimensions of types, against the limit of 64. `docs/LANGUAGE.md, Forms`.
ghost use Rattle.occ_forms_expressions.specs.Depth.{all_dimensions as spec_all_dimensions, bounds_dimensions, builtin_dimensions, counted_dimensions, data_form_dimensions, dimension_dimensions, element_dimensions, expr_dimensions, greatest, most_open, named_operand_dimensions, open_after as spec_open_after, open_after_symbol as spec_open_after_symbol, operand_dimensions, type_form_dimensions};
ghost use Rattle.std.specs.Prelude.{IsTrue, length, map, ◌+◌, ◌<◌, ◌∷◌, ◌≡◌, ◌≤◌, ◌↔◌, ◌⊎◌};

use super::tree::{
    Bounds, Builtin, DataForm, Dimension, Element, Expr, NamedOperand, Operand, TypeForm,
};
use occ_lines::{Symbol, Token};

/// The most brackets that may be open at once.
const MOST_OPEN: u32 = 64;

/// Whether more than 64 brackets are open at once, `(` and `[` together. It takes no memory.
pub fn opens_too_many(tokens: &[Token]) -> bool
    ensures { IsTrue result ↔ (64 < most_open 0 tokens.now) }
{
    let mut count = 0;
    for token in tokens {
        count = open_after(count, token);
        if count > MOST_OPEN {
            return true;
        }
    }
    false
}

/// The brackets that are open after the token.
fn open_after(count: u32, token: &Token) -> u32
    requires { count ≤ 64 }
    ensures value { result ≡ spec_open_after count token.now }
    ensures small { result ≤ 65 }
{
    match token {
        Token::Symbol(symbol) => open_after_symbol(count, *symbol),
        _ => count,
    }
}

/// The brackets that are open after the symbol.
fn open_after_symbol(count: u32, symbol: Symbol) -> u32
    requires { count ≤ 64 }
    ensures value { result ≡ spec_open_after_symbol count symbol }
    ensures small { result ≤ 65 }
{
    match symbol {
        Symbol::Open | Symbol::OpenIndex => count + 1,
        Symbol::Close | Symbol::CloseIndex => count.saturating_sub(1),
        _ => count,
    }
}

/// Whether a type in the expression has more than 64 dimensions. It takes no memory, and goes once through the tree.
#[cycle(depth)]
pub fn expr_has_many_dimensions(expr: &Expr) -> bool
    ensures { IsTrue result ↔ (64 < expr_dimensions expr.now) }
{
    match expr {
        Expr::Alone(operand) => operand_has_many_dimensions(operand),
        Expr::Applied(_, operand) => operand_has_many_dimensions(operand.get()),
        Expr::Run(_, first, second, more) => {
            operand_has_many_dimensions(first.get())
                || operand_has_many_dimensions(second.get())
                || operands_have_many_dimensions(more.as_slice())
        }
        Expr::Pair(first, _, second) => {
            operand_has_many_dimensions(first.get()) || operand_has_many_dimensions(second.get())
        }
        Expr::Converted(dimensions, builtin, operand) => {
            are_many_dimensions(dimensions.as_slice())
                || builtin_has_many_dimensions(builtin.get())
                || operand_has_many_dimensions(operand.get())
        }
        Expr::ArrayConverted(first, more, _, operand) => {
            more.len() > 63
                || dimension_has_many_dimensions(first.get())
                || sizes_have_many_dimensions(more.as_slice())
                || operand_has_many_dimensions(operand.get())
        }
        Expr::Named(_, operand) => named_operand_has_many_dimensions(operand.get()),
        Expr::Most(_, of) => type_form_has_many_dimensions(of.get()),
    }
}

/// The same of each expression of a list.
#[cycle(depth)]
fn exprs_have_many_dimensions(exprs: &[Expr]) -> bool
    ensures { IsTrue result ↔ (64 < greatest (map expr_dimensions exprs.now)) }
{
    for expr in exprs {
        if expr_has_many_dimensions(expr) {
            return true;
        }
    }
    false
}

/// The same of an operand.
#[cycle(depth)]
fn operand_has_many_dimensions(operand: &Operand) -> bool
    ensures { IsTrue result ↔ (64 < operand_dimensions operand.now) }
{
    match operand {
        Operand::Element(element) => element_has_many_dimensions(element),
        Operand::Literal(_) | Operand::Truth(_) => false,
        Operand::Decorated(_, of) => type_form_has_many_dimensions(of.get()),
        Operand::Parens(expr) => expr_has_many_dimensions(expr.get()),
        Operand::Table(first, more) => {
            expr_has_many_dimensions(first.get()) || exprs_have_many_dimensions(more.as_slice())
        }
        Operand::DecoratedTable(first, more, of) => {
            expr_has_many_dimensions(first.get())
                || exprs_have_many_dimensions(more.as_slice())
                || type_form_has_many_dimensions(of.get())
        }
        Operand::Call(_, arguments) => exprs_have_many_dimensions(arguments.as_slice()),
    }
}

/// The same of each operand of a list.
#[cycle(depth)]
fn operands_have_many_dimensions(operands: &[Operand]) -> bool
    ensures { IsTrue result ↔ (64 < greatest (map operand_dimensions operands.now)) }
{
    for operand in operands {
        if operand_has_many_dimensions(operand) {
            return true;
        }
    }
    false
}

/// The same of an operand after the name of a type.
#[cycle(depth)]
fn named_operand_has_many_dimensions(operand: &NamedOperand) -> bool
    ensures { IsTrue result ↔ (64 < named_operand_dimensions operand.now) }
{
    match operand {
        NamedOperand::Element(element) => element_has_many_dimensions(element),
        NamedOperand::Literal(_) | NamedOperand::Truth(_) => false,
        NamedOperand::Decorated(_, of) => type_form_has_many_dimensions(of.get()),
        NamedOperand::Table(first, second, more) => {
            expr_has_many_dimensions(first.get())
                || expr_has_many_dimensions(second.get())
                || exprs_have_many_dimensions(more.as_slice())
        }
        NamedOperand::DecoratedTable(first, more, of) => {
            expr_has_many_dimensions(first.get())
                || exprs_have_many_dimensions(more.as_slice())
                || type_form_has_many_dimensions(of.get())
        }
        NamedOperand::Call(_, arguments) => exprs_have_many_dimensions(arguments.as_slice()),
    }
}

/// The same of an element.
#[cycle(depth)]
pub fn element_has_many_dimensions(element: &Element) -> bool
    ensures { IsTrue result ↔ (64 < element_dimensions element.now) }
{
    match element {
        Element::Named(_, subscripts) => exprs_have_many_dimensions(subscripts.as_slice()),
        Element::Segment(of, bounds, subscripts) => {
            element_has_many_dimensions(of.get())
                || bounds_have_many_dimensions(bounds.get())
                || exprs_have_many_dimensions(subscripts.as_slice())
        }
    }
}

/// The same of the bounds of a segment.
#[cycle(depth)]
fn bounds_have_many_dimensions(bounds: &Bounds) -> bool
    ensures { IsTrue result ↔ (64 < bounds_dimensions bounds.now) }
{
    match bounds {
        Bounds::From(expr) | Bounds::For(expr) => expr_has_many_dimensions(expr.get()),
        Bounds::FromFor(from, length) => {
            expr_has_many_dimensions(from.get()) || expr_has_many_dimensions(length.get())
        }
    }
}

/// The same of a type.
#[cycle(depth)]
pub fn type_form_has_many_dimensions(of: &TypeForm) -> bool
    ensures { IsTrue result ↔ (64 < type_form_dimensions of.now) }
{
    match of {
        TypeForm::Named(dimensions, _) => are_many_dimensions(dimensions.as_slice()),
        TypeForm::Builtin(dimensions, builtin) => {
            are_many_dimensions(dimensions.as_slice()) || builtin_has_many_dimensions(builtin.get())
        }
    }
}

/// The same of a type that begins with a reserved word.
#[cycle(depth)]
fn builtin_has_many_dimensions(builtin: &Builtin) -> bool
    ensures { IsTrue result ↔ (64 < builtin_dimensions builtin.now) }
{
    match builtin {
        Builtin::Primitive(_) | Builtin::Timer | Builtin::AnyChannel(_) => false,
        Builtin::Channel(_, dimensions, _) => are_many_dimensions(dimensions.as_slice()),
        Builtin::Counted(_, dimensions, _, others, _) => {
            are_many_dimensions(dimensions.as_slice())
                || others.len() > 63
                || sizes_have_many_dimensions(others.as_slice())
        }
    }
}

/// The same of a type with these dimensions in front.
#[cycle(depth)]
fn are_many_dimensions(dimensions: &[Dimension]) -> bool
    ensures { IsTrue result ↔ (64 < spec_all_dimensions dimensions.now) }
{
    dimensions.len() > 64 || sizes_have_many_dimensions(dimensions)
}

/// The same of each size in a list of dimensions.
#[cycle(depth)]
fn sizes_have_many_dimensions(dimensions: &[Dimension]) -> bool
    ensures { IsTrue result ↔ (64 < greatest (map dimension_dimensions dimensions.now)) }
{
    for dimension in dimensions {
        if dimension_has_many_dimensions(dimension) {
            return true;
        }
    }
    false
}

/// The same of the size of a dimension.
#[cycle(depth)]
fn dimension_has_many_dimensions(dimension: &Dimension) -> bool
    ensures { IsTrue result ↔ (64 < dimension_dimensions dimension.now) }
{
    match dimension {
        Dimension::Open => false,
        Dimension::Sized(size) => expr_has_many_dimensions(size.get()),
    }
}

/// The same of a data type.
pub fn data_form_has_many_dimensions(form: &DataForm) -> bool
    ensures { IsTrue result ↔ (64 < data_form_dimensions form.now) }
{
    are_many_dimensions(form.dimensions.as_slice())
}

/// The same of a data type after `[]`, which is one dimension more.
pub fn counted_has_many_dimensions(form: &DataForm) -> bool
    ensures { IsTrue result ↔ (64 < counted_dimensions form.now) }
{
    form.dimensions.len() > 63 || sizes_have_many_dimensions(form.dimensions.as_slice())
}

/// The same of a type with that dimension in front, and these after it.
pub fn array_has_many_dimensions(first: &Dimension, more: &[Dimension]) -> bool
    ensures { IsTrue result ↔ (64 < spec_all_dimensions (first.now ∷ more.now)) }
{
    more.len() > 63 || dimension_has_many_dimensions(first) || sizes_have_many_dimensions(more)
}

/// The same of a type that begins with a reserved word, after these dimensions.
pub fn prefixed_has_many_dimensions(dimensions: &[Dimension], builtin: &Builtin) -> bool
    ensures { IsTrue result ↔ ((64 < spec_all_dimensions dimensions.now) ⊎ (64 < builtin_dimensions builtin.now)) }
{
    are_many_dimensions(dimensions) || builtin_has_many_dimensions(builtin)
}
