//! A row: a script, its output and its status, and whether it is met.
ghost use Rattle.std.specs.Prelude.{◌≡◌, true};
ghost use Rattle.occheck_rows.specs.Met.{IsRight};

use super::devices::{NEVER, Page, Paper};
use occheck_script::run_script;
use std::alloc::Global;

/// A script, what it has to write, and its status.
#[derive(Drop)]
pub struct Row {
    pub name: String,
    pub script: Vec<u8>,
    pub output: Vec<u8>,
    pub status: u8,
}

/// Whether the script writes what it has to, with its status.
pub fn is_met(alloc: Global, row: &Row) -> bool
    ensures { result ≡ true → IsRight row.now }
{
    let mut paper = Paper::new(row.script.as_slice(), NEVER);
    let mut page = Page::new(alloc, NEVER, false);
    let status = run_script(alloc, &mut paper, &mut page);
    status.code() == row.status && page.bytes() == row.output.as_slice()
}
