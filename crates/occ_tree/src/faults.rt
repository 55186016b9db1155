//! The diagnostics of shape: S2 and S4, in the order of lines. `docs/LANGUAGE.md, Shape`.
ghost use Rattle.std.specs.Prelude.{◌≡◌, ◌++◌, IfOk, OnOk};
ghost use Rattle.occ_tree.specs.Faults.{line_faults as spec_line_faults, shape_faults as spec_shape_faults};

use super::marks::wrong_lines;
use occ_base::{Code, Diag, Items, add_error_if};
use occ_project::ExpandedLine;
use std::alloc::{AllocError, Global};

/// Adds the diagnostics of shape of a line.
fn add_line_faults(
    line: &ExpandedLine,
    wrong: bool,
    found: &mut Items<Diag>,
) -> Result<(), AllocError>
    ensures { OnOk result (found.new ≡ found.old ++ spec_line_faults line.now wrong) }
{
    let file = *line.file.get();
    add_error_if(wrong, file, line.line, Code::S2, found)?;
    add_error_if(line.depth > 64, file, line.line, Code::S4, found)
}

/// The diagnostics of shape of a unit with these lines, in the order of the lines: `S2` at each line that stands
/// where it may not, or under which something is missing, and `S4` at each line of a depth over 64. A line that
/// has a fault instead of a form may stand nowhere.
pub fn shape_faults(alloc: Global, lines: &[ExpandedLine]) -> Result<Items<Diag>, AllocError>
    ensures { IfOk result (λ found. found ≡ spec_shape_faults lines.now) }
{
    let mut marks = wrong_lines(alloc, lines)?;
    let mut found = Items::new(alloc);
    let mut rest = lines;
    while let Some((line, after)) = rest.split_first() {
        let Some(wrong) = marks.pop() else {
            break;
        };
        add_line_faults(line, wrong, &mut found)?;
        rest = after;
    }
    Ok(found)
}
