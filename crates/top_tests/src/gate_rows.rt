use crate::running::{NOTHING, lines_of, run};
use std::sync::atomic::{AtomicBool, AtomicU64, Ordering};
use std::thread;
use tile_workers::{Gate, OpenGate};

/// The most turns in which a worker waits at a gate for another.
const TURNS: u32 = 1_000_000;

/// A gate that holds each of two workers until both have come.
#[derive(Drop)]
struct Meeting {
    first: AtomicBool,
    second: AtomicBool,
    missed: AtomicBool,
}

impl Gate for Meeting {
    fn enter(&self, worker: u32) {
        let place = if worker == 1 {
            &self.first
        } else {
            &self.second
        };
        place.store(true, Ordering::SeqCst);
        for _ in 0..TURNS {
            if self.first.load(Ordering::SeqCst) && self.second.load(Ordering::SeqCst) {
                return;
            }
            thread::yield_now();
        }
        self.missed.store(true, Ordering::SeqCst);
    }
}

/// Two workers solve a tile each at the same time, with no lock held.
#[test]
fn workers_solve_at_once(rt: HostRuntime) {
    let gate = Meeting {
        first: AtomicBool::new(false),
        second: AtomicBool::new(false),
        missed: AtomicBool::new(false),
    };
    let bytes = b"P2 4 1 65535 0 40000 14464 54464";
    let done = run(
        &rt,
        "unwrap --tile 2 --workers 2",
        bytes,
        9,
        &NOTHING,
        &gate,
    );
    assert!(rt; done.status == 0);
    assert!(rt; gate.first.load(Ordering::SeqCst) && gate.second.load(Ordering::SeqCst));
    assert!(rt; !gate.missed.load(Ordering::SeqCst));
}

/// A gate that holds the first worker until another has come.
#[derive(Drop)]
struct Second {
    entries: AtomicU64,
    missed: AtomicBool,
}

impl Gate for Second {
    fn enter(&self, _worker: u32) {
        if self.entries.fetch_add(1, Ordering::SeqCst) > 0 {
            return;
        }
        for _ in 0..TURNS {
            if self.entries.load(Ordering::SeqCst) > 1 {
                return;
            }
            thread::yield_now();
        }
        self.missed.store(true, Ordering::SeqCst);
    }
}

/// Two analysts, each of whom masks one end of a line and settles.
const SESSION: &str = "P2 4 1 65535 0 40000 14464 54464
analyst
mask 3 0 3 0
settle
show
analyst
mask 0 0 0 0
settle
show
end
";

/// Whether a report has both edits, a publication or a find of one for each settle command, both looks, and a surface without
/// both ends.
fn has_both(report: &str) -> bool {
    let published = lines_of(report, "published ");
    let row = "-9223372036854775808 40000 14464 -9223372036854775808";
    lines_of(report, "revised ") == 2
        && lines_of(report, "shown ") == 2
        && published.saturating_add(lines_of(report, "settled ")) == 2
        && lines_of(report, row) > 0
}

/// While the only worker of one analyst is held, the other analyst goes on. In any order of the two the report has what both
/// did, and the check accepts it.
#[test]
fn analysts_run_at_once(rt: HostRuntime) {
    let gate = Second {
        entries: AtomicU64::new(0),
        missed: AtomicBool::new(false),
    };
    let (words, bytes) = ("unwrap --tile 2 --workers 1", SESSION.as_bytes());
    let done = run(&rt, words, bytes, 9, &NOTHING, &gate);
    assert!(rt; done.status == 0 && has_both(&done.text));
    assert!(rt; gate.entries.load(Ordering::SeqCst) > 1);
    assert!(rt; !gate.missed.load(Ordering::SeqCst));
    let both = format!(in rt.alloc(); "{SESSION}{}", done.text).expect(&rt, "memory");
    let (words, bytes) = ("check --tile 2", both.as_bytes());
    let checked = run(&rt, words, bytes, 9, &NOTHING, &OpenGate);
    assert!(rt; checked.status == 0 && checked.text.as_str() == "accepted\n");
}
