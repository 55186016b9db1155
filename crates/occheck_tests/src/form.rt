//! Tests: a form with one operator between three operands, the text of a source, and the units that it lists.
use occ_base::FileName;
use occ_forms::{Action, Form, form, prepare};
use occ_forms_expressions::{Expr, RunOperator};
use occ_lines::{Body, logical};
use std::test::Fail;

#[test]
fn one_operator_stands_between_three_operands(rt: HostRuntime) -> Result<(), Fail> {
    let a = rt.alloc();
    let lines = logical(a, b"x := 1 + 2 + 3\n")?;
    let [line] = lines.as_slice() else {
        panic!(rt; "other lines than one");
    };
    let Body::Tokens(tokens) = &line.body else {
        panic!(rt; "no tokens");
    };
    let form = form(a, tokens.as_slice())?;
    let Form::Action(Action::Assignment(_, _, value, _)) = &form else {
        panic!(rt; "no assignment");
    };
    assert!(rt; matches!(value, Expr::Run(RunOperator::Add, _, _, more) if more.len() == 1));
    Ok(())
}

#[test]
fn a_source_caches_its_text(rt: HostRuntime) -> Result<(), Fail> {
    let source = prepare(rt.alloc(), b"SKIP -- x\n")?;
    assert_eq!(rt; source.text(), b"SKIP -- x\n".as_slice());
    Ok(())
}

/// Whether these are the two units q.occ and s.occ, in this order.
fn are_two_units(units: Option<&[FileName]>) -> bool {
    matches!(units, Some([first, second]) if first.as_bytes() == b"q.occ".as_slice() && second.as_bytes() == b"s.occ".as_slice())
}

#[test]
fn a_text_lists_its_units_once(rt: HostRuntime) -> Result<(), Fail> {
    let source = prepare(rt.alloc(), b"-- all\nq.occ -- a queue\r\n\ts.tco \nq\n")?;
    assert!(rt; are_two_units(source.listed()));
    Ok(())
}

#[test]
fn a_text_with_a_line_that_names_no_file_lists_none(rt: HostRuntime) -> Result<(), Fail> {
    let source = prepare(rt.alloc(), b"q.occ\nPROC q ()\n")?;
    assert!(rt; source.listed().is_none());
    Ok(())
}
