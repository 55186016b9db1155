//! What the shape of a unit knows of a line: its depth and what its form lets be under it.
ghost use Rattle.std.specs.List.{list_any};
ghost use Rattle.std.specs.Prelude.{◌≡◌};
ghost use Rattle.occ_tree.specs.Sorts.{action_sort, body_sort, construct_sort, expression_sort, expressions_sort, form_sort, guarded_sort, head_sort, is_element_part as spec_is_element_part, is_name as spec_is_name, is_type_part as spec_is_type_part, operand_sort, outline, part_sort, parts_sort, plain_sort, replicated_sort, specification_sort, specified_sort, tagged_sort};

use super::sort::Sort;
use occ_forms::{
    Action, Construct, ConstructKind, Detail, Form, Guarded, Head, PartForm, Specification,
    Specified,
};
use occ_forms_expressions::{Element, Expr, Operand};
use occ_project::{ExpandedBody, ExpandedLine};

/// What the shape of a unit knows of a line.
#[derive(Clone, Copy)]
pub struct Outline {
    pub depth: u64,
    pub sort: Sort,
}

/// Whether the element is a name alone.
#[tactic(auto, using(crate::proofs::Trees::tree_rules))]
fn is_name(element: &Element) -> bool
    ensures { result ≡ spec_is_name element.now }
{
    match element {
        Element::Named(_, subscripts) => subscripts.as_slice().is_empty(),
        Element::Segment(_, _, _) => false,
    }
}

#[tactic(auto, using(crate::proofs::Trees::tree_rules))]
fn sort_of_operand(operand: &Operand) -> Sort
    ensures { result ≡ operand_sort operand.now }
{
    match operand {
        Operand::Element(element) => {
            if is_name(element) {
                Sort::Name
            } else {
                Sort::Expression
            }
        }
        Operand::Call(_, _) => Sort::Call,
        Operand::Literal(_)
        | Operand::Decorated(_, _)
        | Operand::Truth(_)
        | Operand::Parens(_)
        | Operand::Table(_, _)
        | Operand::DecoratedTable(_, _, _) => Sort::Expression,
    }
}

#[tactic(auto, using(crate::proofs::Trees::tree_rules))]
fn sort_of_expression(expr: &Expr) -> Sort
    ensures { result ≡ expression_sort expr.now }
{
    match expr {
        Expr::Alone(operand) => sort_of_operand(operand),
        Expr::Run(_, _, _, _)
        | Expr::Pair(_, _, _)
        | Expr::Applied(_, _)
        | Expr::Converted(_, _, _)
        | Expr::ArrayConverted(_, _, _, _)
        | Expr::Named(_, _)
        | Expr::Most(_, _) => Sort::Expression,
    }
}

fn sort_of_expressions(first: &Expr, more: &[Expr]) -> Sort
    ensures { result ≡ expressions_sort first.now more.now }
{
    match more {
        [] => sort_of_expression(first),
        [_, ..] => Sort::Expressions,
    }
}

/// Whether the part can only be a type.
fn is_type_part(detail: &Detail) -> bool
    ensures { result ≡ spec_is_type_part detail.now }
{
    match detail {
        Detail::Array(_, _, _) | Detail::Builtin(_, _) | Detail::CountedType(_, _) => true,
        Detail::Element(_) | Detail::Counted(_, _) => false,
    }
}

/// Whether the part can only be an element.
fn is_element_part(detail: &Detail) -> bool
    ensures { result ≡ spec_is_element_part detail.now }
{
    match detail {
        Detail::Element(element) => !is_name(element),
        Detail::Counted(_, _) => true,
        Detail::Array(_, _, _) | Detail::Builtin(_, _) | Detail::CountedType(_, _) => false,
    }
}

fn has_type_part(details: &[Detail]) -> bool
    ensures { result ≡ list_any spec_is_type_part details.now }
{
    details.iter().any(|detail| is_type_part(detail))
}

fn has_element_part(details: &[Detail]) -> bool
    ensures { result ≡ list_any spec_is_element_part details.now }
{
    details.iter().any(|detail| is_element_part(detail))
}

/// The sort of a tagged line, some part of which can only be a type, or some only an element.
fn sort_of_parts(typed: bool, valued: bool) -> Sort
    ensures { result ≡ parts_sort typed valued }
{
    match (typed, valued) {
        (false, false) => Sort::Tagged,
        (true, false) => Sort::Tag,
        (false, true) => Sort::Variant,
        (true, true) => Sort::Nowhere,
    }
}

fn sort_of_tagged(first: &Detail, more: &[Detail]) -> Sort
    ensures { result ≡ tagged_sort first.now more.now }
{
    let typed = is_type_part(first) || has_type_part(more);
    let valued = is_element_part(first) || has_element_part(more);
    sort_of_parts(typed, valued)
}

fn sort_of_specification(specification: &Specification) -> Sort
    ensures { result ≡ specification_sort specification.now }
{
    match specification {
        Specification::Declaration(_, _, _) => Sort::Declaration,
        Specification::Abbreviation(_, _, _) | Specification::Retyped(_, _, _, _) => {
            Sort::LocalSpecification
        }
        Specification::Value(_, _, _)
        | Specification::RetypedValue(_, _, _, _)
        | Specification::Protocol(_, _, _)
        | Specification::DataType(_, _)
        | Specification::Function(_, _, _) => Sort::GlobalSpecification,
    }
}

fn sort_of_head(head: &Head) -> Sort
    ensures { result ≡ head_sort head.now }
{
    match head {
        Head::Procedure(_, _, _) => Sort::ProcedureHead,
        Head::Function(_) => Sort::FunctionHead,
        Head::Protocol(_) => Sort::ProtocolHead,
        Head::DataType(_) => Sort::DataTypeHead,
    }
}

fn sort_of_specified(specified: &Specified) -> Sort
    ensures { result ≡ specified_sort specified.now }
{
    match specified {
        Specified::Line(specification) => sort_of_specification(specification),
        Specified::Head(head) => sort_of_head(head),
    }
}

fn sort_of_action(action: &Action) -> Sort
    ensures { result ≡ action_sort action.now }
{
    match action {
        Action::Input(_) => Sort::Input,
        Action::Skip | Action::Stop | Action::Assignment(_, _, _, _) | Action::Output(_, _, _) =>
            Sort::Action,
    }
}

fn plain_sort_of(kind: ConstructKind) -> Sort
    ensures { result ≡ plain_sort kind }
{
    match kind {
        ConstructKind::Sequence | ConstructKind::Parallel | ConstructKind::PriParallel =>
            Sort::Block,
        ConstructKind::Conditional => Sort::Conditional,
        ConstructKind::Alternation | ConstructKind::PriAlternation => Sort::Alternation,
    }
}

fn replicated_sort_of(kind: ConstructKind) -> Sort
    ensures { result ≡ replicated_sort kind }
{
    match kind {
        ConstructKind::Sequence | ConstructKind::Parallel | ConstructKind::PriParallel =>
            Sort::ReplicatedBlock,
        ConstructKind::Conditional => Sort::ReplicatedConditional,
        ConstructKind::Alternation | ConstructKind::PriAlternation => Sort::ReplicatedAlternation,
    }
}

fn sort_of_construct(construct: &Construct) -> Sort
    ensures { result ≡ construct_sort construct.now }
{
    match construct {
        Construct::Replicable(kind, None) => plain_sort_of(*kind),
        Construct::Replicable(kind, Some(_)) => replicated_sort_of(*kind),
        Construct::While(_) => Sort::While,
        Construct::Case(_) => Sort::Selection,
        Construct::CaseInput(_) => Sort::CaseInput,
    }
}

fn sort_of_guarded(guarded: &Guarded) -> Sort
    ensures { result ≡ guarded_sort guarded.now }
{
    match guarded {
        Guarded::Skip | Guarded::Input(_) => Sort::Guard,
        Guarded::CaseInput(_) => Sort::GuardedCaseInput,
    }
}

fn sort_of_part(part: &PartForm) -> Sort
    ensures { result ≡ part_sort part.now }
{
    match part {
        PartForm::Case => Sort::Case,
        PartForm::Else => Sort::Else,
        PartForm::ValueOf => Sort::ValueOf,
        PartForm::Result(_, _) => Sort::Result,
        PartForm::Record | PartForm::PackedRecord => Sort::Record,
        PartForm::Guard(_, guarded) => sort_of_guarded(guarded.get()),
    }
}

fn sort_of_form(form: &Form) -> Sort
    ensures { result ≡ form_sort form.now }
{
    match form {
        Form::Specified(specified) => sort_of_specified(specified),
        Form::Close => Sort::Close,
        Form::Action(action) => sort_of_action(action),
        Form::Construct(construct) => sort_of_construct(construct),
        Form::Part(part) => sort_of_part(part),
        Form::Expressions(first, more) => sort_of_expressions(first, more.as_slice()),
        Form::Tagged(_, first, more) => sort_of_tagged(first, more.as_slice()),
    }
}

fn sort_of_body(body: &ExpandedBody) -> Sort
    ensures { result ≡ body_sort body.now }
{
    match body {
        ExpandedBody::Form(form) => sort_of_form(form.get()),
        ExpandedBody::Uses(_) => Sort::GlobalSpecification,
        ExpandedBody::Fault(_) => Sort::Nowhere,
    }
}

impl Outline {
    pub fn of(line: &ExpandedLine) -> Outline
        ensures { result ≡ outline line.now }
    {
        Outline {
            depth: line.depth,
            sort: sort_of_body(&line.body),
        }
    }
}
