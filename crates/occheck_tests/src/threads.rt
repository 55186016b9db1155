//! Tests with threads: a worker checks while another is held, and a changed comment is checked once.
use super::expansion::open;
use super::server::{PLAIN, added, is_done};
use occ_base::FileName;
use occ_project::Read;
use occ_server::{Edit, Gate, Server, Settled};
use std::alloc::Global;
use std::sync::Wait;
use std::sync::atomic::{AtomicBool, AtomicUsize, Ordering};
use std::test::Fail;
use std::thread::{self, Threads};
use std::time::{Clock, Duration};

/// More turns than any wait takes; each is a millisecond.
const TURNS: u32 = 10_000;

/// Counts what passes.
#[derive(Drop)]
struct Counter {
    passed: AtomicUsize,
}

impl Gate for Counter {
    fn pass<R: Wait>(&self, _rt: &R, _unit: &FileName) {
        self.passed.fetch_add(1, Ordering::SeqCst);
    }
}

/// Holds a.occ until it is reported to let it pass, for some time.
#[derive(Drop)]
struct Holder<'a, C: Clock> {
    clock: &'a C,
    lets_pass: AtomicBool,
    gave_up: AtomicBool,
}

impl<C: Clock> Holder<'_, C> {
    fn hold(&self) {
        for _ in 0..TURNS {
            if self.lets_pass.load(Ordering::SeqCst) {
                return;
            }
            thread::sleep(self.clock, Duration::from_millis(1));
        }
        self.gave_up.store(true, Ordering::SeqCst);
    }
}

impl<C: Clock> Gate for Holder<'_, C> {
    fn pass<R: Wait>(&self, _rt: &R, unit: &FileName) {
        if unit.as_bytes() == b"a.occ".as_slice() {
            self.hold();
        }
    }
}

/// Whether a report shows b.occ as done while a.occ is held, after some turns.
fn sees_other<R: Wait + Clock>(
    rt: &R,
    alloc: Global,
    server: &Server,
    gate: &Holder<'_, R>,
) -> bool {
    for _ in 0..TURNS {
        if gate.gave_up.load(Ordering::SeqCst) {
            return false;
        }
        match server.report(rt, alloc, None) {
            Ok(snapshot) => {
                if is_done(&snapshot, b"b.occ") {
                    return !is_done(&snapshot, b"a.occ");
                }
            }
            Err(_) => return false,
        }
        thread::sleep(rt, Duration::from_millis(1));
    }
    false
}

/// Whether a worker checks b.occ while another is held before a.occ.
fn checks_beside<R: Threads + Wait + Clock + Sync>(rt: &R, alloc: Global, server: &Server) -> bool {
    let gate = Holder {
        clock: rt,
        lets_pass: AtomicBool::new(false),
        gave_up: AtomicBool::new(false),
    };
    let holder = &gate;
    let seen = thread::scope(thread::scope_env(), rt, |scope| {
        let mut started = true;
        for _ in 0..2 {
            if scope.spawn(|| server.work(rt, alloc, holder)).is_err() {
                started = false;
            }
        }
        let seen = started && sees_other(rt, alloc, server, holder);
        holder.lets_pass.store(true, Ordering::SeqCst);
        let clear = started && server.settle(rt) == Settled::Clear;
        server.stop(rt);
        seen && clear
    });
    seen && !gate.gave_up.load(Ordering::SeqCst)
}

#[test]
fn a_worker_checks_while_another_is_held(rt: HostRuntime) -> Result<(), Fail> {
    let a = rt.alloc();
    let server = Server::new(a);
    assert!(rt; added(&rt, a, &server, "a.occ", PLAIN)?.is_some());
    assert!(rt; added(&rt, a, &server, "b.occ", PLAIN)?.is_some());
    assert!(rt; checks_beside(&rt, a, &server));
    Ok(())
}

/// The names of the users.
const USERS: [&str; 20] = [
    "a.occ", "b.occ", "c.occ", "d.occ", "e.occ", "f.occ", "g.occ", "h.occ", "i.occ", "j.occ",
    "k.occ", "l.occ", "m.occ", "n.occ", "o.occ", "p.occ", "q.occ", "r.occ", "s.occ", "t.occ",
];

/// Checks all that is pending, makes an edit, and checks what is pending then. How many units passed the gate
/// after the edit, if all was checked.
fn passed_after<R: Threads + Wait + Sync>(
    rt: &R,
    alloc: Global,
    server: &Server,
    edit: Edit,
) -> Option<usize> {
    let gate = Counter {
        passed: AtomicUsize::new(0),
    };
    let counter = &gate;
    thread::scope(thread::scope_env(), rt, |scope| {
        let mut clear = true;
        for _ in 0..2 {
            if scope.spawn(|| server.work(rt, alloc, counter)).is_err() {
                clear = false;
            }
        }
        clear = clear && server.settle(rt) == Settled::Clear;
        let before = counter.passed.load(Ordering::SeqCst);
        clear = clear && before == 21;
        let edited = server.edit(rt, alloc, 2, edit).is_ok();
        clear = clear && edited;
        clear = clear && server.settle(rt) == Settled::Clear;
        server.stop(rt);
        if clear {
            counter.passed.load(Ordering::SeqCst).checked_sub(before)
        } else {
            None
        }
    })
}

#[test]
fn a_changed_comment_is_checked_once(rt: HostRuntime) -> Result<(), Fail> {
    let a = rt.alloc();
    let server = Server::new(a);
    assert!(rt; added(&rt, a, &server, "z.occ", "-- one\nPROC z ()\n  SKIP\n:\n")?.is_some());
    for user in USERS {
        assert!(rt; added(&rt, a, &server, user, "#USE \"z\"\n")?.is_some());
    }
    let Read { name, source, .. } = open(a, "z.occ", "-- another\nPROC z ()\n  SKIP\n:\n")?;
    let Some(source) = source else {
        return Ok(assert!(rt; false));
    };
    let edit = Edit::Changed(name, source);
    assert!(rt; matches!(passed_after(&rt, a, &server, edit), Some(1)));
    Ok(())
}
