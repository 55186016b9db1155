//! What a session hears. A report is written into bytes at once. Of the journals that came with reports the last one stays:
//! each is a front of the next.
ghost use Rattle.occ_board.specs.declared.entry.Entry.{Entry};
ghost use Rattle.occheck_sessions.specs.inside.Told.{IsTold, seen_by};
ghost use Rattle.std.specs.List.{All};
ghost use Rattle.std.specs.Prelude.{◌≡◌, List};

use super::matching::{is_first, is_front};
use super::talk::{Broken, Said, Told};
use occ_board::Entry;
use occ_server::Snapshot;
use occheck_script::report_lines;
use std::alloc::Global;
use std::marker::Model;

/// What a session was told, command by command, and the last report among it, as contracts see it too.
#[derive(Drop)]
pub struct Heard {
    said: Vec<Said>,
    last: Option<Snapshot>,
}

impl Model for Heard {
    ghost use Rattle.occ_server.specs.contracts.snapshot.Snapshot as snapshots;
    ghost use Rattle.occheck_sessions.specs.inside.Told.{IsTold, SaidBeside, seen_by};
    ghost use Rattle.std.specs.Coded.{codes};
    ghost use Rattle.std.specs.List.{All};

    ghost Value = { SaidBeside };

    ghost coded = { Prim.hlevel (codes, snapshots.the_row.coded) };

    ghost view = { λ h. record { said = h.said.items; last = h.last } };

    ghost invariant = { λ h. All (IsTold (seen_by h.last)) h.said.items };
}

impl Heard {
    /// Nothing was told yet.
    pub fn new(alloc: Global) -> Heard {
        Heard {
            said: Vec::new(alloc),
            last: None,
        }
    }

    /// What was told, in order.
    pub fn said(&self) -> &[Said]
        ensures said { result.now ≡ self.now.said }
        ensures told { All (IsTold (seen_by self.now.last)) self.now.said }
    {
        self.said.as_slice()
    }

    /// The edits that the last report has seen, and with it all reports.
    pub fn seen(&self) -> &[Entry]
        ensures { result.now ≡ seen_by self.now.last }
    {
        entries_of(&self.last)
    }

    /// Is told something that is no report.
    pub fn hear(&mut self, said: Said) -> Result<(), Broken>
        requires { (entries : List Entry) → IsTold entries said }
    {
        self.said.push(said)?;
        Ok(())
    }

    /// Is told a report, which has to have seen what the last one had, and more perhaps. Its bytes are copied, so that they take
    /// no more room than they are long.
    pub fn hear_report(&mut self, alloc: Global, snapshot: Snapshot) -> Result<(), Broken> {
        if !is_first(snapshot.base()) || !is_front(self.seen(), snapshot.entries()) {
            return Err(Broken::Disagree);
        }
        let seen = snapshot.entries().len();
        let lines = report_lines(alloc, snapshot.report())?;
        let text = Vec::from_slice(alloc, lines.as_slice())?;
        self.last = Some(snapshot);
        self.said.push(Said::Reported(Told { seen, text }))?;
        Ok(())
    }
}

/// The edits that a report has seen; none where there is none.
fn entries_of(report: &Option<Snapshot>) -> &[Entry]
    ensures { result.now ≡ seen_by report.now }
{
    match report {
        Some(snapshot) => snapshot.entries(),
        None => &[],
    }
}
