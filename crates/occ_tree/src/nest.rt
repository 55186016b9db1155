//! Makes trees of lines: each line under the last earlier one of smaller depth.
ghost use Rattle.std.specs.Prelude.{◌≡◌, IfOk, OnOk};
ghost use Rattle.occ_tree.specs.Forest.{first_nodes, forest_of, nested, other_nodes};

use super::stack::Stack;
use super::tree::Node;
use occ_base::Items;
use occ_project::ExpandedLine;
use std::alloc::{AllocError, Global};

/// Takes those deeper than `depth` from the top.
fn take_deeper(
    alloc: Global,
    depth: u64,
    roots: &mut Stack<Node>,
) -> Result<Items<Node>, AllocError>
    ensures children { IfOk result (λ children. children ≡ first_nodes depth roots.old) }
    ensures rest { OnOk result (roots.new ≡ other_nodes depth roots.old) }
{
    let mut children = Items::new(alloc);
    while let Some(top) = roots.top() {
        if top.line.depth <= depth {
            break;
        }
        let Some(child) = roots.pop() else {
            break;
        };
        children.push(child)?;
    }
    Ok(children)
}

/// The trees where each line stands under the last earlier line of smaller depth, the first on top. They are as deep
/// as the lines are.
pub fn nest(alloc: Global, lines: Items<ExpandedLine>) -> Result<Stack<Node>, AllocError>
    ensures { IfOk result (λ roots. forest_of roots ≡ nested lines) }
{
    let mut left = lines;
    let mut roots = Stack::with_room(alloc, left.len())?;
    while let Some(line) = left.pop() {
        let children = take_deeper(alloc, line.depth, &mut roots)?;
        roots.push(Node { line, children })?;
    }
    Ok(roots)
}
