//! The queues with which a script starts after a journal.
#![tactic(auto, using(mq_model::proofs::Prefixes::prefixes))]

ghost use Rattle.std.specs.Prelude.{◌≡◌, ◌≤◌, None, IfOk, IfSome, MatchResult};
ghost use Rattle.mq_model.specs.Legality.{Legal};
ghost use Rattle.mq_model.specs.Waits.{is_wait, open_wait};
ghost use Rattle.script_runner.specs.Runs.{NoneWaits};
ghost use Rattle.journal_tasks.specs.Start.{IsNoStart, IsStart, WaitsAt};

use mq_model::entries::Reply;
use mq_model::journals::Journal;
use mq_state::books::Books;
use mq_state::replay::Misfit;
use std::alloc::{AllocError, Global};
use std::fmt;

/// Why no script can continue from a journal.
#[derive(Clone, Copy)]
pub enum NoStart {
    /// The entry with this sequence number is the first that is not legal.
    Illegal(u64),
    /// The entry with this sequence number is of a process that the script does not have.
    Foreign(u64),
    /// The entry with this sequence number waits, and its process has not ended the wait.
    Waits(u64),
}

impl fmt::Display for NoStart {
    fn fmt<W: fmt::Write>(&self, f: &mut fmt::Formatter<W>) -> fmt::Result {
        match self {
            NoStart::Illegal(place) => {
                write!(f, "entry {place} is not legal: mqlog check says why")
            }
            NoStart::Foreign(place) => {
                write!(f, "entry {place} is of a process above those of the script")
            }
            NoStart::Waits(place) => {
                write!(
                    f,
                    "entry {place} waits: a script continues a journal in which no process waits"
                )
            }
        }
    }
}

/// The queues of n processes that a journal leaves, without an open wait; or why there are none.
/// Fails if memory was refused.
pub fn start_after(
    alloc: Global,
    n: u32,
    journal: Journal,
) -> Result<Result<Books, NoStart>, AllocError>
    requires { (1 ≤ n) × (n ≤ 32) }
    ensures { IfOk result (λ start. MatchResult start (IsStart journal.records n)
        (IsNoStart journal.records n)) }
{
    match Books::resume(alloc, n, journal) {
        Ok(books) => match first_wait(books.journal(), n) {
            Some(place) => Ok(Err(NoStart::Waits(place))),
            None => Ok(Ok(books)),
        },
        Err(refused) => match refused.why {
            Misfit::NoMemory => Err(AllocError),
            Misfit::Illegal(departure) => Ok(Err(NoStart::Illegal(departure.place))),
            Misfit::Foreign(place) => Ok(Err(NoStart::Foreign(place))),
            Misfit::TooLong => unreachable!(),
        },
    }
}

// The sequence number of an open wait: that of the lowest of the processes 1 to n that has one.
fn first_wait(journal: &Journal, n: u32) -> Option<u64>
    requires few { n ≤ 32 }
    requires legal { Legal journal.now.records }
    ensures none { result ≡ None → NoneWaits journal.now.records n }
    ensures some { IfSome result (WaitsAt journal.now.records n) }
{
    for p in 1..n + 1 {
        if let Some(place) = open_wait(journal, p) {
            return Some(place);
        }
    }
    None
}

// The sequence number of the open wait of a process: that of its last entry, if that waits.
fn open_wait(journal: &Journal, p: u32) -> Option<u64>
    ensures { result ≡ open_wait journal.now.records p }
{
    for place in (0..journal.len()).rev() {
        let (entry, _) = journal.record(place);
        if entry.process == p {
            return if is_wait(entry.reply) {
                Some(place)
            } else {
                None
            };
        }
    }
    None
}

fn is_wait(reply: Reply) -> bool
    ensures { result ≡ is_wait reply }
{
    match reply {
        Reply::Waits => true,
        _ => false,
    }
}
