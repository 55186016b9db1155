//! Rounds of a replicator that all do the same: no line under it depends on its index.
#![tactic(auto, using(crate::proofs::Trees::first_tree))]

ghost use Rattle.std.specs.Prelude.{◌≡◌, ◌≤◌, ◌||◌, IfSome, Some, false};
ghost use Rattle.occ_alias.specs.Naming.{form_depends as spec_form_depends};
ghost use Rattle.occ_usage.specs.Lines.{known_replicator as spec_known_replicator};
ghost use Rattle.occ_usage.specs.Naming.{lines_depend as spec_lines_depend};
ghost use Rattle.occ_usage.specs.Trees.{head_of, trees_of, under as spec_under};

use super::walk::known_replicator;
use occ_alias::form_depends;
use occ_typing::TypedLine;
use occ_typing_statements::KnownReplicator;

/// Whether a line or one under it depends on the specification with this number.
#[cycle(depending)]
fn line_depends(line: &TypedLine, number: usize) -> bool
    ensures { result ≡ (spec_form_depends number (head_of line.now).form || spec_lines_depend number (spec_under line.now)) }
{
    form_depends(line.form.get(), number) || lines_depend(line.under.as_slice(), number)
}

/// Whether one of the lines, or one under them, depends on the specification with this number.
#[cycle(depending)]
fn lines_depend(lines: &[TypedLine], number: usize) -> bool
    ensures { result ≡ spec_lines_depend number (trees_of lines.now) }
{
    for line in lines {
        if line_depends(line, number) {
            return true;
        }
    }
    false
}

/// The replicator of a line, if it is known, has a round, and no line under it depends on its index: then each round does the same.
pub(crate) fn alike_rounds(line: &TypedLine, number: usize) -> Option<KnownReplicator>
    ensures known { IfSome result (λ known. spec_known_replicator (head_of line.now).form ≡ Some known) }
    ensures alike { IfSome result (λ known. spec_lines_depend number (spec_under line.now) ≡ false) }
    ensures some { IfSome result (λ known. 1 ≤ known.count) }
{
    let known = known_replicator(line.form.get())?;
    if known.count == 0 || lines_depend(line.under.as_slice(), number) {
        return None;
    }
    Some(known)
}
