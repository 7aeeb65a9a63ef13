//! The end of a phase: all processes find a journal of the same length.
ghost use Rattle.std.specs.Prelude.{◌≡◌, [], IfOk, map, true};
ghost use Rattle.std.specs.List.{All, AllZip};
ghost use Rattle.mq.specs.Calls.{Calls};
ghost use Rattle.script_runner.specs.Meeting.{AllLook, FindsBlocked, MeetBlocked};

use crate::deal::processes_of;
use crate::turns::Worked;
use fast_mutex::Look;
use mq::{Guarded, Mq, Process};
use std::alloc::{AllocError, Global};
use std::sync::Wait;

/// The processes of a phase that has ended or is deadlocked. Each has acquired the lock once more,
/// and all found a journal of the same length, in which the processes `blocked` are blocked.
pub fn meet<L: Look<Guarded>, R: Wait>(
    rt: &R,
    alloc: Global,
    mq: &Mq<L>,
    workers: Vec<Worked<Process<L>>>,
    blocked: &[u32],
) -> Result<Vec<Process<L>>, AllocError>
    requires { All (λ worked. worked.process.lock ≡ mq.now) workers.items }
    ensures { IfOk result (λ processes.
        MeetBlocked blocked.now (map (λ worked. worked.process) workers.items) processes.items) }
{
    let mut processes = processes_of(alloc, workers)?;
    find_one_stand(rt, mq, processes.as_mut_slice(), blocked);
    Ok(processes)
}

// All processes ask, until they find a journal of the same length in which these processes are
// blocked. The first attempt succeeds: each thread that waits found this before it stopped, and no
// process calls any more.
fn find_one_stand<L: Look<Guarded>, R: Wait>(
    rt: &R,
    mq: &Mq<L>,
    processes: &mut [Process<L>],
    blocked: &[u32],
)
    requires { All (λ process. process.lock ≡ mq.now) processes.old }
    ensures { MeetBlocked blocked.now processes.old processes.new }
{
    let mut agree = find_as_blocked(rt, mq, processes, blocked);
    'questions: for _ in rt.forever() {
        if agree {
            break;
        }
        agree = find_as_blocked(rt, mq, processes, blocked);
    }
}

// Whether all find as many entries as the first one, and these processes blocked.
fn find_as_blocked<L: Look<Guarded>, R: Wait>(
    rt: &R,
    mq: &Mq<L>,
    processes: &mut [Process<L>],
    blocked: &[u32],
) -> bool
    requires { All (λ process. process.lock ≡ mq.now) processes.old }
    ensures looked { AllLook processes.old processes.new }
    ensures agree { result ≡ true → MeetBlocked blocked.now processes.old processes.new }
{
    match processes.split_first_mut() {
        None => true,
        Some((first, others)) => {
            let (count, are) = find_blocked(rt, mq, first, blocked);
            all_find_blocked(rt, mq, others, blocked, count) && are
        }
    }
}

// Whether all find this number of entries, and these processes blocked.
fn all_find_blocked<L: Look<Guarded>, R: Wait>(
    rt: &R,
    mq: &Mq<L>,
    processes: &mut [Process<L>],
    blocked: &[u32],
    count: u64,
) -> bool
    requires { All (λ process. process.lock ≡ mq.now) processes.old }
    ensures looked { AllLook processes.old processes.new }
    ensures agree { result ≡ true →
        AllZip (FindsBlocked blocked.now count) processes.old processes.new }
{
    match processes.split_first_mut() {
        None => true,
        Some((process, others)) => {
            let (found, are) = find_blocked(rt, mq, process, blocked);
            let finds = are && found == count;
            all_find_blocked(rt, mq, others, blocked, count) && finds
        }
    }
}

// The number of entries that a process finds, and whether these processes are blocked. It counts
// the entries before and after that question: if the numbers are equal, both answers are about the
// same journal.
fn find_blocked<L: Look<Guarded>, R: Wait>(
    rt: &R,
    mq: &Mq<L>,
    process: &mut Process<L>,
    blocked: &[u32],
) -> (u64, bool)
    requires { process.old.lock ≡ mq.now }
    ensures looked { Calls process.old process.new [] }
    ensures agree { result.1 ≡ true →
        FindsBlocked blocked.now result.0 process.old process.new }
{
    let count = process.journal_len(rt, mq);
    let are_blocked = process.are_blocked(rt, mq, blocked);
    let same = process.journal_len(rt, mq) == count;
    (count, are_blocked && same)
}
