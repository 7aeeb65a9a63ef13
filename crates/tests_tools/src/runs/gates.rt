//! Gates at which the processes of a phase meet, or come late.
use super::run;
use crossbeam_utils::Backoff;
use script_runner::Gate;
use std::alloc::Global;
use std::process::Abort;
use std::sync::Wait;
use std::sync::atomic::{AtomicU64, Ordering};
use std::thread;
use std::thread::Threads;
use std::time::Clock;

// Runs a script over a gate. It must have these replies.
fn expect<S: Threads + Wait + Clock + Sync + Abort, G: Gate + Sync>(
    rt: &S,
    alloc: Global,
    script: &str,
    gate: &G,
    replies: &str,
) {
    let mut output = Vec::new(alloc);
    let outcome = run(rt, alloc, &mut script.as_bytes(), &mut output, gate);
    assert_eq!(rt; outcome, Ok(()));
    assert!(rt; output.as_slice() == replies.as_bytes());
}

// Each of two processes waits here for the other, and counts a miss if it does not come.
#[derive(Drop)]
struct Meeting {
    come: [AtomicU64; 2],
    looks: u32,
    misses: AtomicU64,
}

impl Gate for Meeting {
    fn before(&self, process: u32, _line: u64) {
        let (mine, other) = if process == 1 { (0, 1) } else { (1, 0) };
        self.come[mine].store(1, Ordering::SeqCst);
        let backoff = Backoff::new();
        for _ in 0..self.looks {
            if self.come[other].load(Ordering::SeqCst) == 1 {
                return;
            }
            backoff.snooze();
        }
        self.misses.fetch_add(1, Ordering::SeqCst);
    }
}

// Two phases let process 2 come only when process 1 has finished, as a runner without threads
// would.
static MEETINGS: [(&str, u32, u64); 2] = [
    ("processes 2\n1 getattr 0\n2 getattr 0\n", 1_000_000, 0),
    ("processes 2\n1 getattr 0\n--\n2 getattr 0\n", 1_000, 1),
];

#[test]
fn the_processes_of_a_phase_meet(rt: HostRuntime) {
    for (script, looks, misses) in MEETINGS {
        let gate = Meeting {
            come: [AtomicU64::new(0), AtomicU64::new(0)],
            looks,
            misses: AtomicU64::new(0),
        };
        expect(
            &rt,
            rt.alloc(),
            script,
            &gate,
            "1 EBADF\n2 EBADF\nhistory ok\n",
        );
        assert_eq!(rt; gate.misses.load(Ordering::SeqCst), misses);
    }
}

// Counts the calls of one process, which is late for each, and adds up their lines.
#[derive(Drop)]
struct Late {
    process: u32,
    calls: AtomicU64,
    lines: AtomicU64,
}

impl Gate for Late {
    fn before(&self, process: u32, line: u64) {
        if process == self.process {
            for _ in 0..200_000 {
                thread::yield_now();
            }
            self.calls.fetch_add(1, Ordering::SeqCst);
            self.lines.fetch_add(line, Ordering::SeqCst);
        }
    }
}

// Each process receives what the other sends.
static CROSSED: &str = "# three phases
processes 2
1 open /p bc 1 8
1 open /q bc 1 8
--
2 open /p b
2 open /q b
--
1 send 1 0 a
1 recv 0 8
2 recv 1 8
2 send 0 0 b
";

static CROSSED_REPLIES: &str =
    "1 fd 0\n1 fd 1\n2 fd 0\n2 fd 1\n1 ok\n1 got 0 1 b\n2 got 0 1 a\n2 ok\nhistory ok\n";

#[test]
fn each_call_meets_the_gate_once_with_its_line_and_is_waited_for(rt: HostRuntime) {
    let gate = Late {
        process: 2,
        calls: AtomicU64::new(0),
        lines: AtomicU64::new(0),
    };
    expect(&rt, rt.alloc(), CROSSED, &gate, CROSSED_REPLIES);
    assert_eq!(rt; gate.calls.load(Ordering::SeqCst), 4);
    assert_eq!(rt; gate.lines.load(Ordering::SeqCst), 6 + 7 + 11 + 12);
}
