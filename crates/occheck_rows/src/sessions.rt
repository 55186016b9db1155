//! Runs of sessions over devices in memory.
use super::devices::{NEVER, Page, Paper};
use occ_base::FileName;
use occheck_script::Status;
use occheck_sessions::{Gate, run_sessions};
use std::alloc::Global;
use std::sync::Wait;
use std::sync::atomic::{AtomicBool, Ordering};
use std::test::Fail;
use std::thread::{self, Threads};
use std::time::{Clock, Duration};

/// A file with a variable that two components write.
const SHARED: &str = "open a.occ 6\nPROC p ()\n  INT x:\n  PAR\n    x := 1\n    x := 2\n:\n";

/// A file without lines.
const EMPTY: &str = "open b.occ 0\n";

/// More turns than any wait takes; each is a millisecond.
const TURNS: u32 = 10_000;

/// Lets all pass.
struct Free;

impl Gate for Free {
    fn pass<R: Wait>(&self, _rt: &R, _unit: &FileName) {}
}

/// Holds each of two units until the other has come too, for some time.
#[derive(Drop)]
struct Pair<'a, C: Clock> {
    clock: &'a C,
    first: AtomicBool,
    second: AtomicBool,
    gave_up: AtomicBool,
}

impl<C: Clock> Pair<'_, C> {
    /// Whether both have come.
    fn have_come(&self) -> bool {
        self.first.load(Ordering::SeqCst) && self.second.load(Ordering::SeqCst)
    }

    /// Whether both have come while they were held.
    fn have_met(&self) -> bool {
        self.have_come() && !self.gave_up.load(Ordering::SeqCst)
    }
}

impl<C: Clock> Gate for Pair<'_, C> {
    fn pass<R: Wait>(&self, _rt: &R, unit: &FileName) {
        if unit.as_bytes() == b"a.occ".as_slice() {
            self.first.store(true, Ordering::SeqCst);
        } else {
            self.second.store(true, Ordering::SeqCst);
        }
        for _ in 0..TURNS {
            if self.have_come() {
                return;
            }
            thread::sleep(self.clock, Duration::from_millis(1));
        }
        self.gave_up.store(true, Ordering::SeqCst);
    }
}

/// Whether two scripts end with this output and status.
fn ends_so<T: Threads + Wait + Sync, G: Gate + Sync>(
    rt: &T,
    alloc: Global,
    scripts: [&str; 2],
    gate: &G,
    status: Status,
    output: &str,
) -> bool {
    let [first, second] = scripts;
    let mut papers = [
        Paper::new(first.as_bytes(), NEVER),
        Paper::new(second.as_bytes(), NEVER),
    ];
    let mut page = Page::new(alloc, NEVER, false);
    let ended = run_sessions(rt, alloc, &mut papers, 2, gate, &mut page);
    ended == status && page.bytes() == output.as_bytes()
}

/// What the two files end with.
const BOTH: &str =
    "session 1\nok\nsession 2\nok\nunit a.occ 1\n  a.occ:3 U1 error x\nunit b.occ ok\nend\n";

#[test]
fn two_sessions_open_a_file_each(rt: HostRuntime) -> Result<(), Fail> {
    let a = rt.alloc();
    assert!(rt; ends_so(&rt, a, [SHARED, EMPTY], &Free, Status::Errors, BOTH));
    Ok(())
}

#[test]
fn two_units_are_checked_beside_one_another(rt: HostRuntime) -> Result<(), Fail> {
    let a = rt.alloc();
    let gate = Pair {
        clock: &rt,
        first: AtomicBool::new(false),
        second: AtomicBool::new(false),
        gave_up: AtomicBool::new(false),
    };
    assert!(rt; ends_so(&rt, a, [SHARED, EMPTY], &gate, Status::Errors, BOTH));
    assert!(rt; gate.have_met());
    Ok(())
}

#[test]
fn a_session_sees_its_own_edit(rt: HostRuntime) -> Result<(), Fail> {
    let a = rt.alloc();
    let script =
        "open a.occ 6\nPROC p ()\n  INT x:\n  PAR\n    x := 1\n    x := 2\n:\nsettle\nreport\n";
    let output =
        "session 1\nok\nsettled 0\nunit a.occ 1\n  a.occ:3 U1 error x\nend\nunit a.occ 1\n  a.occ:3 U1 error x\nend\n";
    let mut papers = [Paper::new(script.as_bytes(), NEVER)];
    let mut page = Page::new(a, NEVER, false);
    let ended = run_sessions(&rt, a, &mut papers, 1, &Free, &mut page);
    assert!(rt; ended == Status::Errors);
    assert!(rt; page.bytes() == output.as_bytes());
    Ok(())
}

#[test]
fn sessions_take_no_jobs(rt: HostRuntime) -> Result<(), Fail> {
    let a = rt.alloc();
    let output = "session 2\nscript fault 2\n";
    assert!(rt;
        ends_so(
            &rt,
            a,
            [SHARED, "report\ntake 0\n"],
            &Free,
            Status::ScriptFault,
            output
        )
    );
    Ok(())
}

#[test]
fn sessions_cut_no_journal(rt: HostRuntime) -> Result<(), Fail> {
    let a = rt.alloc();
    let output = "session 2\nscript fault 3\n";
    let script = "open b.occ 0\nreport\ncheckpoint\n";
    assert!(rt; ends_so(&rt, a, [SHARED, script], &Free, Status::ScriptFault, output));
    Ok(())
}

#[test]
fn edits_of_a_session_are_refused_as_on_a_board(rt: HostRuntime) -> Result<(), Fail> {
    let a = rt.alloc();
    let script =
        "remove z.occ\nopen z.txt 0\nopen z.occ 0\nopen z.occ 0\nchange y.occ 0\nchange z.occ 0\nremove z.occ\n";
    let output =
        "session 1\nok\nsession 2\nrefused NotOpen\nrefused Suffix\nok\nrefused AlreadyOpen\nrefused NotOpen\nok\nok\nunit b.occ ok\nend\n";
    assert!(rt; ends_so(&rt, a, [EMPTY, script], &Free, Status::Clean, output));
    Ok(())
}

#[test]
fn a_fault_decides_where_a_later_script_cannot_be_read(rt: HostRuntime) -> Result<(), Fail> {
    let a = rt.alloc();
    let mut papers = [
        Paper::new("take 0\n".as_bytes(), NEVER),
        Paper::new(EMPTY.as_bytes(), 0),
    ];
    let mut page = Page::new(a, NEVER, false);
    let ended = run_sessions(&rt, a, &mut papers, 1, &Free, &mut page);
    assert!(rt; ended == Status::ScriptFault);
    assert!(rt; page.bytes() == b"session 1\nscript fault 1\n".as_slice());
    Ok(())
}

#[test]
fn a_script_that_cannot_be_read_decides_before_a_later_fault(rt: HostRuntime) -> Result<(), Fail> {
    let a = rt.alloc();
    let mut papers = [
        Paper::new(EMPTY.as_bytes(), 0),
        Paper::new("take 0\n".as_bytes(), NEVER),
    ];
    let mut page = Page::new(a, NEVER, false);
    let ended = run_sessions(&rt, a, &mut papers, 1, &Free, &mut page);
    assert!(rt; ended == Status::DeviceFault);
    assert!(rt; page.bytes().is_empty());
    Ok(())
}
