//! Runs of scripts over readers and writers that fail or take one byte at a time, and over gates.
use crate::streams::{Narrow, one_by_one};
use fast_mutex::FastMutex;
use mq::Guarded;
use script_runner::{Gate, Plain, RunFault, run_script};
use std::alloc::Global;
use std::io::{ErrorKind, Read, Write};
use std::process::Abort;
use std::sync::Wait;
use std::sync::atomic::{AtomicU64, Ordering};
use std::thread::Threads;
use std::time::Clock;

mod gates;

/// Runs a script over Lamport's lock.
fn run<S, R, W, G>(
    rt: &S,
    alloc: Global,
    input: &mut R,
    output: &mut W,
    gate: &G,
) -> Result<(), RunFault>
where
    S: Threads + Wait + Clock + Sync,
    R: Read,
    W: Write,
    G: Gate + Sync,
{
    run_script::<FastMutex<Guarded>, _, _, _, _>(rt, alloc, input, output, gate)
}

// A script with its replies, and for each phase the number of bytes of replies until its end, and
// its last line.
#[derive(Clone, Copy)]
struct Sample {
    script: &'static str,
    replies: &'static str,
    phases: &'static [(usize, u64)],
}

// Messages of equal priority are received in the order of their sends.
static ONE_PHASE: Sample = Sample {
    script: "processes 1
1 open /q bc 2 16
1 send 0 5 a
1 send 0 5 b
1 recv 0 16
1 recv 0 16
",
    replies: "1 fd 0\n1 ok\n1 ok\n1 got 5 1 a\n1 got 5 1 b\nhistory ok\n",
    phases: &[(41, 6)],
};

// Notices and exits of two processes.
static FOUR_PHASES: Sample = Sample {
    script: "processes 2
1 open /q bcn 2 8
--
2 open /q bn
2 notify 0 7
--
1 send 0 0 a
--
2 notice
2 exit
1 recv 0 8
",
    replies: "1 fd 0\n2 fd 0\n2 ok\n1 ok\n1 got 0 1 a\n2 notice 7\n2 ok\nhistory ok\n",
    phases: &[(7, 2), (19, 5), (24, 7), (52, 11)],
};

// Errors of every kind count, also those that POSIX lets a program try again.
static KINDS: [ErrorKind; 4] = [
    ErrorKind::Interrupted,
    ErrorKind::WouldBlock,
    ErrorKind::UnexpectedEof,
    ErrorKind::Other,
];

// Runs a script from a reader of one byte a read that fails at one read, or at none.
fn is_read<S: Threads + Wait + Clock + Sync + Abort>(
    rt: &S,
    alloc: Global,
    run_of: Sample,
    fails_at: usize,
    kind: ErrorKind,
) {
    let mut output = Vec::new(alloc);
    let mut input = one_by_one(run_of.script.as_bytes(), fails_at, kind);
    let outcome = run(rt, alloc, &mut input, &mut output, &Plain);
    let (wanted, replies) = if fails_at == 0 {
        (Ok(()), run_of.replies)
    } else {
        (Err(RunFault::Input), "")
    };
    assert_eq!(rt; outcome, wanted, "at {fails_at}");
    assert!(rt; output.as_slice() == replies.as_bytes(), "at {fails_at}");
}

#[test]
fn a_read_that_fails_ends_the_run(rt: HostRuntime) {
    is_read(&rt, rt.alloc(), FOUR_PHASES, 0, ErrorKind::Other);
    for fails_at in 0..=ONE_PHASE.script.len() + 1 {
        for kind in KINDS {
            is_read(&rt, rt.alloc(), ONE_PHASE, fails_at, kind);
        }
    }
}

// Keeps the last line whose call was made.
#[derive(Drop)]
struct Latest {
    line: AtomicU64,
}

impl Gate for Latest {
    fn before(&self, _process: u32, line: u64) {
        self.line.fetch_max(line, Ordering::SeqCst);
    }
}

// The last line of the phases that are run, if the writer takes this number of bytes.
fn last_line(phases: &[(usize, u64)], taken: usize) -> u64 {
    let mut last = 0;
    for (end, line) in phases {
        last = *line;
        if taken < *end {
            break;
        }
    }
    last
}

// Runs a script over a writer that takes `width` bytes per write, `writes` times. All is written if
// that is enough, and else a prefix, and no further phase is run.
fn is_written<S: Threads + Wait + Clock + Sync + Abort>(
    rt: &S,
    alloc: Global,
    run_of: Sample,
    (width, writes, fails): (usize, usize, bool),
    is_enough: bool,
) {
    let replies = run_of.replies.as_bytes();
    let gate = Latest {
        line: AtomicU64::new(0),
    };
    let mut output = Narrow {
        taken: Vec::new(alloc),
        width,
        writes,
        fails,
    };
    let outcome = run(rt, alloc, &mut run_of.script.as_bytes(), &mut output, &gate);
    let taken = output.taken.as_slice();
    let wanted = if is_enough {
        Ok(())
    } else {
        Err(RunFault::Output)
    };
    assert_eq!(rt; outcome, wanted, "after {writes} writes");
    assert!(rt; replies.starts_with(taken), "after {writes} writes");
    assert_eq!(rt; taken.len() == replies.len(), is_enough);
    let line = gate.line.load(Ordering::SeqCst);
    assert_eq!(rt; line, last_line(run_of.phases, taken.len()));
}

#[test]
fn a_write_that_fails_or_takes_nothing_ends_the_run(rt: HostRuntime) {
    for written in [ONE_PHASE, FOUR_PHASES] {
        for fails in [false, true] {
            let all = written.replies.len();
            for writes in 0..=all {
                is_written(&rt, rt.alloc(), written, (1, writes, fails), writes == all);
            }
            let phases = written.phases.len() + 1;
            for writes in 0..=phases {
                is_written(
                    &rt,
                    rt.alloc(),
                    written,
                    (all, writes, fails),
                    writes == phases,
                );
            }
        }
    }
}
