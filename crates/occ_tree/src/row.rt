//! The rows of the table of shape: which lines may be directly under which. `docs/LANGUAGE.md, Shape`.
ghost use Rattle.std.specs.Prelude.{◌≡◌};
ghost use Rattle.occ_tree.specs.Table.{is_main as spec_is_main, is_process as spec_is_process, is_head as spec_is_head, is_close as spec_is_close, is_result as spec_is_result, is_single as spec_is_single, lets_line as spec_lets_line, may_stand as spec_may_stand, needs_main as spec_needs_main, own_row as own, row_under as spec_row_under, takes_specifications as spec_takes_specifications, under_main as spec_under_main, is_value as spec_is_value};

use super::sort::Sort;

/// What may stand right under a line, or in a file.
#[derive(Clone, Copy)]
pub enum Row {
    /// In a file: specifications alone.
    File,
    /// Processes, any number of them.
    Processes,
    /// One process.
    Process,
    /// Conditions, under `IF`.
    Conditions,
    /// One condition, under a replicated `IF`.
    Condition,
    /// Guards, under `ALT`.
    Guards,
    /// One guard, under a replicated `ALT`.
    Guard,
    /// Options, under `CASE e`.
    Options,
    /// Variants, under `c ? CASE`.
    Variants,
    /// One `VALOF`, under the head of a function.
    ValueOf,
    /// A process and a `RESULT`, under `VALOF`.
    Value,
    /// One `CASE`, under the head of a protocol.
    Case,
    /// Tags, under that `CASE`.
    Tags,
    /// One `RECORD`, under the head of a data type.
    Record,
    /// Fields, under `RECORD`.
    Fields,
    Nothing,
}

/// Whether the line is a process wherever one may stand.
pub fn is_process(sort: Sort) -> bool
    ensures { result ≡ spec_is_process sort }
{
    matches!(
        sort,
        Sort::Action
            | Sort::Input
            | Sort::Call
            | Sort::Block
            | Sort::ReplicatedBlock
            | Sort::While
            | Sort::Conditional
            | Sort::ReplicatedConditional
            | Sort::Alternation
            | Sort::ReplicatedAlternation
            | Sort::Selection
            | Sort::CaseInput
    )
}

/// Whether the line begins a specification of more than one line.
pub fn is_head(sort: Sort) -> bool
    ensures { result ≡ spec_is_head sort }
{
    matches!(
        sort,
        Sort::ProcedureHead | Sort::FunctionHead | Sort::ProtocolHead | Sort::DataTypeHead
    )
}

pub fn is_close(sort: Sort) -> bool
    ensures { result ≡ spec_is_close sort }
{
    matches!(sort, Sort::Close)
}

pub fn is_result(sort: Sort) -> bool
    ensures { result ≡ spec_is_result sort }
{
    matches!(sort, Sort::Result)
}

/// Whether the line is one of the main lines of the row.
pub fn is_main(row: Row, sort: Sort) -> bool
    ensures { result ≡ spec_is_main row sort }
{
    match row {
        Row::File | Row::Nothing => false,
        Row::Processes | Row::Process => is_process(sort),
        Row::Conditions | Row::Condition => matches!(
            sort,
            Sort::Name
                | Sort::Call
                | Sort::Expression
                | Sort::Conditional
                | Sort::ReplicatedConditional
        ),
        Row::Guards | Row::Guard => matches!(
            sort,
            Sort::Input
                | Sort::CaseInput
                | Sort::Guard
                | Sort::GuardedCaseInput
                | Sort::Alternation
                | Sort::ReplicatedAlternation
        ),
        Row::Options => matches!(
            sort,
            Sort::Name | Sort::Call | Sort::Expression | Sort::Expressions | Sort::Else
        ),
        Row::Variants => matches!(sort, Sort::Name | Sort::Tagged | Sort::Variant),
        Row::ValueOf => matches!(sort, Sort::ValueOf),
        Row::Value => is_process(sort) || is_result(sort),
        Row::Case => matches!(sort, Sort::Case),
        Row::Tags => matches!(sort, Sort::Name | Sort::Tagged | Sort::Tag),
        Row::Record => matches!(sort, Sort::Record),
        Row::Fields => matches!(sort, Sort::Declaration),
    }
}

/// Whether specifications may stand before the main lines of the row, or alone in a file.
pub fn takes_specifications(row: Row) -> bool
    ensures { result ≡ spec_takes_specifications row }
{
    !matches!(
        row,
        Row::Case | Row::Tags | Row::Record | Row::Fields | Row::Nothing
    )
}

/// Whether the row lets this specification of one line stand.
pub fn lets_line(row: Row, sort: Sort) -> bool
    ensures { result ≡ spec_lets_line row sort }
{
    match sort {
        Sort::GlobalSpecification => takes_specifications(row),
        Sort::Declaration | Sort::LocalSpecification => {
            takes_specifications(row) && !matches!(row, Row::File)
        }
        _ => false,
    }
}

/// Whether the row lets lines of this sort stand.
pub fn may_stand(row: Row, sort: Sort) -> bool
    ensures { result ≡ spec_may_stand row sort }
{
    is_main(row, sort)
        || lets_line(row, sort)
        || takes_specifications(row) && (is_head(sort) || is_close(sort))
}

/// Whether the row has one main line and no more.
pub fn is_single(row: Row) -> bool
    ensures { result ≡ spec_is_single row }
{
    matches!(
        row,
        Row::Process | Row::Condition | Row::Guard | Row::ValueOf | Row::Case | Row::Record
    )
}

/// Whether the row asks for a main line.
pub fn needs_main(row: Row) -> bool
    ensures { result ≡ spec_needs_main row }
{
    is_single(row) || matches!(row, Row::Tags | Row::Fields)
}

/// Whether it is the row under `VALOF`.
pub fn is_value(row: Row) -> bool
    ensures { result ≡ spec_is_value row }
{
    matches!(row, Row::Value)
}

/// The row that the words of a line say, wherever it stands.
fn own_row(sort: Sort) -> Option<Row>
    ensures { result ≡ own sort }
{
    match sort {
        Sort::Block => Some(Row::Processes),
        Sort::ReplicatedBlock | Sort::While | Sort::Else | Sort::Guard | Sort::ProcedureHead =>
            Some(Row::Process),
        Sort::Conditional => Some(Row::Conditions),
        Sort::ReplicatedConditional => Some(Row::Condition),
        Sort::Alternation => Some(Row::Guards),
        Sort::ReplicatedAlternation => Some(Row::Guard),
        Sort::Selection => Some(Row::Options),
        Sort::CaseInput | Sort::GuardedCaseInput => Some(Row::Variants),
        Sort::FunctionHead => Some(Row::ValueOf),
        Sort::ValueOf => Some(Row::Value),
        Sort::ProtocolHead => Some(Row::Case),
        Sort::DataTypeHead => Some(Row::Record),
        Sort::Record => Some(Row::Fields),
        _ => None,
    }
}

/// The row under a main line of this one, whose words say none.
fn under_main(row: Row) -> Row
    ensures { result ≡ spec_under_main row }
{
    match row {
        Row::Conditions
        | Row::Condition
        | Row::Guards
        | Row::Guard
        | Row::Options
        | Row::Variants => Row::Process,
        Row::Case => Row::Tags,
        _ => Row::Nothing,
    }
}

/// What may stand under a line that itself stands under the row.
#[inline(always)]
pub fn row_under(row: Row, sort: Sort) -> Row
    ensures { result ≡ spec_row_under row sort }
{
    match own_row(sort) {
        Some(own) => own,
        None => {
            if is_main(row, sort) {
                under_main(row)
            } else {
                Row::Nothing
            }
        }
    }
}
