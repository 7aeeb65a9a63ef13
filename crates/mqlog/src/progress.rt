//! Tells a person at a terminal that a search is still running.
use std::fs;
use std::io::Eprint;
use std::os::unix::fs::{FileTypeExt, MetadataExt};
use std::rt::Files;
use std::sync::Wait;
use std::sync::atomic::AtomicU64;
use std::sync::atomic::Ordering::SeqCst;
use std::thread::{Threads, join};
use std::time::{Clock, Duration, Instant};

// When the first line is written, in seconds. Each further line comes after twice as many.
const FIRST: u64 = 2;

/// Makes a search. If standard error is a terminal, writes a line there when the search has taken 2
/// seconds, 4, 8, and so on.
pub fn with_progress<R: Eprint + Files + Clock + Threads + Wait + Sync, T, F: FnOnce() -> T>(
    rt: &R,
    task: &str,
    search: F,
) -> T
    requires { F.pre search }
    ensures { F.post search result }
{
    if !is_terminal(rt) {
        return search();
    }
    let is_over = AtomicU64::new(0);
    let (_, result) = join(
        rt,
        || tell(rt, task, &is_over),
        || {
            let result = search();
            is_over.store(1, SeqCst);
            is_over.wake_one();
            result
        },
    );
    result
}

// Writes the lines until the search is over.
fn tell<R: Eprint + Clock + Wait>(rt: &R, task: &str, is_over: &AtomicU64) {
    let Ok(start) = Instant::now(rt) else {
        return;
    };
    let mut next = FIRST;
    for _ in rt.forever() {
        let Ok(taken) = start.elapsed(rt) else {
            return;
        };
        if is_over.load(SeqCst) != 0 {
            return;
        }
        if taken.as_secs() < next {
            is_over.park_timeout(rt, 0, Duration::from_secs(next).saturating_sub(taken));
        } else {
            let what = "still searching; Ctrl-C ends it";
            if eprintln!(rt; "mqlog {task}: {next} seconds, {what}").is_err() {
                return;
            }
            next = next.saturating_mul(2);
        }
    }
}

// Whether standard error is a terminal: a character device with a major number that Linux gives to
// consoles, serial lines and pseudoterminals.
fn is_terminal(rt: &impl Files) -> bool {
    let Ok(at) = fs::metadata(rt, "/proc/self/fd/2") else {
        return false;
    };
    let major = (at.rdev() >> 8) % 4096;
    at.file_type().is_char_device() && matches!(major, 4 | 5 | 136..=143 | 204)
}
