//! Tests: how many units an edit expands.
use super::expansion::open;
use occ_base::FileName;
use occ_server::Board;
use std::alloc::Global;
use std::test::Fail;

/// Opens a file with this text, or gives an open one this text; and says how many units were expanded anew.
fn edit(
    alloc: Global,
    board: &mut Board,
    name: &str,
    text: &str,
    is_new: bool,
) -> Result<u32, Fail> {
    let Some(source) = open(alloc, name, text)?.source else {
        return Ok(0);
    };
    let name = FileName::read(name.as_bytes())?;
    let _edited = if is_new {
        board.open(alloc, 1, name, source)
    } else {
        board.change(alloc, 1, name, source)
    };
    Ok(board.expanded())
}

/// Opens a unit that includes k.inc, which is absent, and one that includes nothing.
fn open_two(alloc: Global, board: &mut Board, number: usize) -> Result<(), Fail> {
    let with = format!(in alloc; "a{number}.occ")?;
    edit(alloc, board, with.as_str(), "#INCLUDE \"k.inc\"\n", true)?;
    let without = format!(in alloc; "b{number}.occ")?;
    edit(alloc, board, without.as_str(), "", true)?;
    Ok(())
}

/// Opens 20 of each.
fn open_all(alloc: Global, board: &mut Board) -> Result<(), Fail> {
    for number in 0..20usize {
        open_two(alloc, board, number)?;
    }
    Ok(())
}

/// Whether an edit of the included file expands those that include it, and one of another its own unit.
fn expands_readers(alloc: Global, board: &mut Board) -> Result<bool, Fail> {
    Ok(
        edit(alloc, board, "k.inc", "", true)? == 20
            && edit(alloc, board, "k.inc", "-- other\n", false)? == 20
            && edit(alloc, board, "b7.occ", "-- other\n", false)? == 1,
    )
}

/// Whether the opening of a file that two units include expands these, and taking a job leaves the number.
fn expands_two(alloc: Global, board: &mut Board) -> Result<bool, Fail> {
    edit(alloc, board, "b1.occ", "#INCLUDE \"j.inc\"\n", false)?;
    edit(alloc, board, "b2.occ", "#INCLUDE \"j.inc\"\n", false)?;
    Ok(
        edit(alloc, board, "j.inc", "", true)? == 2
            && board.take(alloc)?.is_some()
            && board.expanded() == 2,
    )
}

/// Whether all that holds of a board with those units.
fn expands_all(alloc: Global, board: &mut Board) -> Result<bool, Fail> {
    open_all(alloc, board)?;
    Ok(expands_readers(alloc, board)? && expands_two(alloc, board)?)
}

#[test]
fn an_edit_expands_the_open_units_that_read_its_file(rt: HostRuntime) -> Result<(), Fail> {
    let a = rt.alloc();
    let mut board = Board::new(a);
    assert_eq!(rt; board.expanded(), 0);
    let expands = expands_all(a, &mut board);
    drop(board);
    assert!(rt; expands?);
    Ok(())
}
