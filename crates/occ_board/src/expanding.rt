//! How many open units read the file of the last edit, counted when it is asked.
ghost use Rattle.occ_board.specs.Machine.{expanded_number, readers};
ghost use Rattle.occ_project.specs.Entries.{is_among};
ghost use Rattle.occ_check.specs.Report.{is_open_unit};
ghost use Rattle.occ_project_units.specs.Units.{read_names};
ghost use Rattle.std.specs.List.{find};
ghost use Rattle.std.specs.Option.{option_copied};
ghost use Rattle.std.specs.Prelude.{◌≡◌, ◌<◌, ◌^◌, ◌&&◌, ◌+◌, Some, cond, length, nat_eq, slice_get};

use occ_base::{FileName, Shared};
use occ_project::Read;
use occ_project_units::Graph;

/// Whether the file at an index is an open unit that has the one of that name among its reads.
fn is_reader(graph: &Graph, index: usize, file: &Read, name: FileName) -> bool
    requires { slice_get graph.now index ≡ Some file.now }
    ensures { result ≡ (is_open_unit file.now && is_among (read_names graph.now file.now.name) name) }
{
    file.name.is_unit() && file.source.is_some() && graph.does_read(index, name)
}

/// One more, if it is counted.
fn counted(count: u32, is_one: bool) -> u32
    requires { count + 1 < 2 ^ 32 }
    ensures { result ≡ cond is_one (count + 1) count }
{
    if is_one { count + 1 } else { count }
}

/// How many open units have the file of that name among their reads.
fn count_readers(graph: &Graph, name: FileName) -> u32
    requires { length graph.now < 2 ^ 32 }
    ensures { result ≡ length (readers graph.now name) }
{
    let mut count = 0;
    for (index, file) in graph.project().files().iter().enumerate() {
        let is_one = is_reader(graph, index, file.get(), name);
        count = counted(count, is_one);
    }
    count
}

/// The file of the edit with this number.
fn edited_file(files: &[Shared<Read>], number: usize) -> Option<&Read>
    ensures { option_copied result ≡ find (λ file. nat_eq file.revision number) files.now }
{
    for file in files {
        if file.get().revision as usize == number {
            return Some(file.get());
        }
    }
    None
}

/// How many open units have the file of the edit with this number among their reads.
pub fn count_expanded(graph: &Graph, number: usize) -> u32
    requires { length graph.now < 2 ^ 32 }
    ensures { result ≡ expanded_number graph.now (find (λ file. nat_eq file.revision number) graph.now) }
{
    match edited_file(graph.project().files(), number) {
        Some(file) => count_readers(graph, file.name),
        None => 0,
    }
}
